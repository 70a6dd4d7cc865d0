//! Block lists checked against the definitions of designs, and base blocks against that of difference families: the first
//! bad block, or the first bad pair of points, or that the list is such a design.
#![tactic(auto)]

mod blocks;
mod checker;
mod checks;
mod counts;
mod differences;
mod finding;
mod pairs;
mod scratch;
mod transversal;

pub use checker::Checker;
pub use checks::{check_bibd, check_df, check_gdd, check_pbd, check_td};
pub use finding::Finding;
pub use scratch::Scratch;

#[cfg(test)]
mod tests;
