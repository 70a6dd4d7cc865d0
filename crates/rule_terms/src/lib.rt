//! The table of rules: at each question the parameters of a rule, its condition and its premises.
#![tactic(auto)]

mod bibd;
mod branch;
mod curves;
mod df;
mod gdd;
mod geometries;
mod pbd;
mod prefix;
mod sizes;
mod table;
mod td;
mod tools;

pub use branch::{Branch, Premises};
pub use prefix::Prefix;
pub use table::branch_of;
pub use tools::Tools;
