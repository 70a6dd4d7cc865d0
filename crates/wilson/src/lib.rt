//! Wilson's constructions of transversal designs by one and by two truncated groups. Each builder gives the blocks in
//! canonical form, or `Memory`.
#![tactic(auto)]

mod disjoint;
mod filling;
mod holes;
mod truncations;

pub use disjoint::disjoint_from_first;
pub use truncations::{truncate_one, truncate_two};

#[cfg(test)]
mod tests;
