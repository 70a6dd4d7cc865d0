//! Where bytes come from and where they go: in memory, and over std's readers and writers.
//! Each source and each sink counts its faults, so that no code above can make one up.
#![tactic(auto)]

mod buffered;
mod history;
mod lines;
mod memory;
mod reading;
mod split;
mod standard;
mod streams;
mod window;
mod writing;

pub use buffered::{Buffered, Origin};
pub use history::History;
pub use lines::{LineEnd, LineReader};
pub use memory::{MemorySink, MemorySource};
pub use reading::{ReadEnd, read_all};
pub use split::{FirstLine, split_line, without_return};
pub use standard::{StdSink, StdSource};
pub use streams::{Failed, Sink, Source};
pub use writing::write_whole;

#[cfg(test)]
mod buffered_tests;
#[cfg(test)]
mod line_tests;
#[cfg(test)]
mod tests;
