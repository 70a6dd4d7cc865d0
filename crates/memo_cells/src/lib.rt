//! Verdicts in cells that are set once: a word for each question, which any number of threads read and fill.
#![tactic(auto)]

mod asker;
mod cells;
mod deciding;
mod events;
mod laws;

pub use asker::CellAsker;
pub use cells::{Cells, Pass};
pub use deciding::{decide, known};
pub use laws::core_law;

#[cfg(test)]
mod tests;
