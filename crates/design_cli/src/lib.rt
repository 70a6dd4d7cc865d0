// The program over any input and outputs: what it answers to the words of its command line.
#![tactic(auto)]

mod answering;
mod batching;
mod checking;
mod collecting;
mod replaying;

pub use answering::run;
pub use collecting::run_buffered;

#[cfg(test)]
mod batch_tests;
#[cfg(test)]
mod cases;
#[cfg(test)]
mod catalogue_tests;
#[cfg(test)]
mod check_tests;
#[cfg(test)]
mod collecting_tests;
#[cfg(test)]
mod question_tests;
#[cfg(test)]
mod replay_tests;
#[cfg(test)]
mod tests;
