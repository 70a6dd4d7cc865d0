//! A row of words that are 0 until they are written. Its memory is taken when it is made, and only those pages of it are touched in which a
//! word was written.
#![tactic(auto)]

mod pages;
mod words;

pub use words::SparseWords;

#[cfg(test)]
mod tests;
