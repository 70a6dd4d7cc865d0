//! Derivations as text.
#![tactic(auto)]

mod input;
mod laws;
mod parsing;
mod printing;

pub use input::{InputEnd, parse_input};
pub use laws::text_laws;
pub use parsing::{ParseEnd, parse_v1};
pub use printing::print_v1;

#[cfg(test)]
mod input_tests;
#[cfg(test)]
mod tests;
