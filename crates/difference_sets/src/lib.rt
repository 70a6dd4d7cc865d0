//! Difference families by construction, and the block designs of their translates. Each builder gives its list in canonical form,
//! or `Memory`.
#![tactic(auto)]

mod cosets;
mod entries;
mod families;
mod powers;
mod steps;
mod sums;
mod translates;

pub use entries::listed_families;
pub use families::family;
pub use steps::is_family_step;
pub use translates::develop;

#[cfg(test)]
mod tests;
