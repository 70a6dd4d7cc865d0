//! Symmetric designs: any two blocks meet in equally many points, and each block gives two smaller designs.
#![tactic(auto)]

mod meets;
mod questions;
mod smaller;

pub use meets::meet;
pub use questions::{derived_question, residual_question};
pub use smaller::{derived, residual};

#[cfg(test)]
mod tests;
