//! Designs of strength three: orthogonal arrays in which three columns show each triple of symbols once, and Steiner quadruple
//! systems, in which three points stand in one block. Each builder gives its list in lexicographic order, or `Memory`.
#![tactic(auto)]

mod arrays;
mod doubling;
mod laws;
mod limits;
mod quadruples;
#[cfg(test)]
mod tests;
mod verdict;

pub use arrays::{oa3_rows, oa3_verdict};
pub use laws::three_laws;
pub use limits::{OA3_K_MAX, OA3_N_MAX};
pub use quadruples::{sqs_blocks, sqs_verdict};
pub use verdict::{ThreeRule, ThreeVerdict};
