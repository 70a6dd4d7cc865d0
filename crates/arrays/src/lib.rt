//! Orthogonal arrays and mutually orthogonal Latin squares of transversal designs, and back.
#![tactic(auto)]

mod blocks;
mod end;
mod lines;
mod rows;

pub use blocks::{td_of_rows, td_of_squares};
pub use end::ArrayEnd;
pub use rows::{rows_of_td, squares_of_td};
