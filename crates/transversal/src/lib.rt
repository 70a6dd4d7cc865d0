//! Transversal designs by construction. Each builder gives the blocks in canonical form, or `Memory`.
#![tactic(auto)]

mod blocks;
mod differences;
mod lines;
mod modular;
mod products;

pub use blocks::{push_raised, with_room};
pub use differences::parker;
pub use lines::field_td;
pub use modular::{cyclic, one};
pub use products::product;

#[cfg(test)]
mod tests;
