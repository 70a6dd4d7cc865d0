//! Recursive constructions: block designs, group divisible designs and pairwise balanced designs that are made of others.
//!
//! Groups are filled (`fill`, `split`, `td_fill`), points deleted (`delete_point`, `drop_point`), the last group of a transversal design
//! truncated (`truncate_pbd`), and points given a weight (`weight`, `pbd_to_bibd`); lists are added (`sum`) and complemented (`complement`).
//! `whole`, `pairs` and `omit` need no ingredient: the block designs of all points, of all pairs, and of all points but one.
//!
//! Each builder takes the block lists of its ingredients and answers a block list in canonical form. Its one condition is a record of
//! specs/Conditions.
#![tactic(auto)]

mod basic;
mod deletions;
mod fillings;
mod pieces;
mod truncations;
mod weightings;

pub use basic::{complement, omit, pairs, sum, whole};
pub use deletions::{delete_point, drop_point};
pub use fillings::{fill, fill_with_point, split, td_fill, td_fill_with_point};
pub use truncations::truncate_pbd;
pub use weightings::{pbd_to_bibd, weight};

#[cfg(test)]
mod tests;
