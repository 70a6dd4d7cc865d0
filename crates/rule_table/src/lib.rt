//! The candidates that the table of rules gives to a question, and the verdicts that follow from them.
#![tactic(auto)]

mod allowed;
mod asker;
mod candidates;
mod evaluation;
mod inquiry;
mod laws;
mod marks;
mod notes;
mod steps;
mod turn;
mod verdicts;
mod walk;

pub use allowed::{candidate_premises, is_candidate, premises};
pub use asker::{Asker, PlainAsker};
pub use candidates::Candidates;
pub use evaluation::Evaluation;
pub use laws::rule_laws;
pub use marks::{Marks, visit};
pub use notes::Notes;
pub use rule_terms::Tools;
pub use steps::Steps;
pub use turn::Turn;
pub use verdicts::evaluate;

#[cfg(test)]
mod asked_tests;
#[cfg(test)]
mod bibd_tests;
#[cfg(test)]
mod noted_tests;
#[cfg(test)]
mod part_tests;
#[cfg(test)]
mod tests;
