//! What the program says: the lines of a report and the blocks of a design, each written whole, how an answer ends, and the
//! status and the message of a run.
#![tactic(auto)]

mod ending;
mod lines;
mod parts;
mod saying;
mod status;

pub use ending::Ending;
pub use lines::{
    write_because, write_counted, write_fault, write_finding, write_refused_offer,
    write_valid_offer, write_verdict,
};
pub use parts::{Part, part_of_design, write_part};
pub use saying::say;
pub use status::Status;
