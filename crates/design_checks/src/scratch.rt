//! The memory of the checks.
ghost use Rattle.std.specs.Prelude.{◌≡◌, ◌≤◌, length, vec_capacity};
ghost use Rattle.design_checks.specs.declared.scratch.TheConstants.{COUNTS};
ghost use Rattle.design_checks.specs.declared.transversal.TheConstants.{WORDS};

use crate::transversal::WORDS;
use design_base::{Memory, TD_K_MAX, TD_N_MAX};
use std::alloc::Global;

/// The points of the largest design.
pub(crate) const WIDTH: u16 = TD_K_MAX * TD_N_MAX;
/// How many points of a design are counted at a time. Few lines keep what is touched small.
pub(crate) const CHUNK: u16 = TD_N_MAX;
/// The most counts at a time, in lines of one for each point of the design.
pub(crate) const COUNTS: usize = CHUNK as usize * WIDTH as usize;

/// Room for the counts and the bits of the checks, which serves any number of them. A check touches no more of it than it uses.
#[derive(Drop)]
pub struct Scratch {
    pub(crate) counts: Vec<u32>,
    pub(crate) bits: Vec<u128>,
    pub(crate) ghost counted: { COUNTS ≤ vec_capacity counts },
    pub(crate) ghost noted: { WORDS ≤ vec_capacity bits },
}

impl Scratch {
    /// Room for the counts of designs of up to `TD_K_MAX` * `TD_N_MAX` points, `TD_N_MAX` of which are counted at a time, and for the
    /// bits of transversal designs. The checks take no more. The answer is `Memory` only where this cannot be had.
    pub fn new(alloc: Global) -> Result<Scratch, Memory> {
        Ok(Scratch {
            counts: Vec::with_capacity(alloc, COUNTS)?,
            bits: Vec::with_capacity(alloc, WORDS)?,
        })
    }
}
