// The lines that the program reads and writes.
#![tactic(auto)]

mod command;
mod commands;
mod keywords;
mod line;
mod names;
mod number_texts;
mod numbers;
mod questions;
mod rows;
mod texts;
mod words;

pub use command::{Asked, Command, Reason, Request, Shape, Verb};
pub use commands::{read_line, read_words};
pub use keywords::{COMMANDS, CommandRow, Keyword};
pub use line::{LINE_ROOM, Text, TextLine};
pub use names::criterion_name;
pub use rows::RowPrinter;
pub use texts::{counted_line, question_text, step_text};
pub use words::Words;

#[cfg(test)]
mod tests;
