//! Proved designs: a question within the limits, and blocks that are a design of it.
#![tactic(auto)]

mod design;

pub use design::{CheckEnd, Design};

#[cfg(test)]
mod tests;
