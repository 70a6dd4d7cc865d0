//! Block texts, whose lines are blank or hold the numbers of a block: their blocks are read in one walk.
#![tactic(auto)]

mod block_lines;
mod blocks;
mod front;
mod walk;

pub use block_lines::push_block_line;
pub use blocks::{BlockTextEnd, read_blocks};
pub use walk::BlockLineEnd;

#[cfg(test)]
mod tests;
