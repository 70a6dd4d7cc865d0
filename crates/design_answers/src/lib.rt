//! The answers of the table of rules: the verdict on a question, why it is so, its design, what catalogues offer for it, what it rests on,
//! and the count of many verdicts.
#![tactic(auto)]

mod answering;
mod asking;
mod building;
mod closures;
mod draws;
mod explaining;
mod offers;
mod oracle;
mod tally;
mod workload;

pub use answering::answer_request;
pub use oracle::Oracle;
pub use workload::answer_workload;

#[cfg(test)]
mod tests;
