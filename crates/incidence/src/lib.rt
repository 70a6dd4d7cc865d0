//! A packed list of blocks: `Rows` keeps the numbers of all blocks in one vector, and where each block ends in another.
//! The rows of an array stand in such a list too, and are made into the blocks of a transversal design and back.
#![tactic(auto)]

mod arrays;
mod iter;
mod order;
mod packed;

pub use arrays::{array_of_td, blocks_of_rows, push_block};
pub use iter::Iter;
pub use packed::Rows;

#[cfg(test)]
mod tests;
