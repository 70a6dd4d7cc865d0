//! Derivations: the steps that lead to a design, what is wrong with a list of steps, and the design that it leads to.
#![tactic(auto)]

mod bibd;
mod building;
mod copies;
mod df;
mod direct_bibds;
mod faults;
mod gdd;
mod laws;
mod line;
mod made_bibds;
mod names;
mod pbd;
mod replaying;
mod sound_derivation;
mod td;
mod unfolding;

pub use laws::derivation_laws;
pub use line::{Derivation, Fault, Line, LineFault, ReplayEnd};
pub use names::Names;
pub use replaying::{replay, replay_sound};
pub use sound_derivation::SoundDerivation;
pub use unfolding::derive;

#[cfg(test)]
mod bibd_tests;
#[cfg(test)]
mod df_tests;
#[cfg(test)]
mod gdd_tests;
#[cfg(test)]
mod geometry_tests;
#[cfg(test)]
mod tests;
