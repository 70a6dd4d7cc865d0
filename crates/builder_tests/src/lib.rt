//! Tests of the builders of `gdd_pbd`, whose ingredients other crates build.
//!
//! A recursive construction takes designs, and most of those that a test hands in are transversal designs (`transversal`) and triple
//! systems (`triple_systems`), on which `gdd_pbd` does not depend. So its tests with such ingredients stand in a crate above all three,
//! which has nothing else and which no crate uses: small results block by block, so that their order and canonical form are seen as
//! well as their covers, and the number of blocks of large ones, up to the most points.
#![tactic(auto)]

#[cfg(test)]
mod tests;
