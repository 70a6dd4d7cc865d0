// Designs of all points, of all pairs and of all points but one; two designs on the same points, and complements.
ghost use Rattle.std.specs.Prelude.{◌≡◌, ◌+◌, ◌*◌, ◌-◌, ◌/◌, ◌%◌, ◌<◌, ◌≤◌, ◌++◌, IfOk, OnOk};
ghost use Rattle.design_base.specs.Blocks.{IsBibd};
ghost use Rattle.design_base.specs.Canonical.{canonical};
ghost use Rattle.incidence.specs.Packed.{size_of};
ghost use Rattle.gdd_pbd.specs.Conditions.{CanComplement, CanOmit, CanRepeat, CanSum};
ghost use Rattle.gdd_pbd.specs.Basic.{all_but_one, complement as complement_blocks, omit_blocks, pair_blocks, pairs_once, pairs_with, whole_blocks};

use crate::pieces::{push_complements, push_missing};
use design_base::{COVER_MAX, Memory, PACKED_MAX, POINTS_MAX};
use incidence::Rows;
use std::alloc::Global;

// Appends the block of all points, l times.
#[tactic(auto, using(crate::proofs::Steps::steps))]
pub(crate) fn push_whole(rows: &mut Rows, v: u16, l: u16) -> Result<(), Memory>
    requires points { v ≤ POINTS_MAX }
    requires room { size_of rows.old + l * (v + 1) < PACKED_MAX }
    ensures ok { OnOk result (rows.new ≡ rows.old ++ whole_blocks v l) }
    ensures size { OnOk result (size_of rows.new ≤ size_of rows.old + l * (v + 1)) }
{
    for i in 0..l {
        push_missing(rows, v, &[])?;
    }
    Ok(())
}

/// The block of all `v` points, `l` times, which is a block design.
///
/// `v` is at most `POINTS_MAX`, and `l` at most `COVER_MAX`. The answer is `Memory` only for want of memory.
#[tactic(auto, using(crate::proofs::Steps::steps))]
pub fn whole(alloc: Global, v: u16, l: u16) -> Result<Rows, Memory>
    requires { CanRepeat v l }
    ensures blocks { IfOk result (λ rows. rows ≡ canonical (whole_blocks v l)) }
    ensures design { IfOk result (λ rows. IsBibd rows v v l) }
{
    let mut rows = Rows::new(alloc);
    push_whole(&mut rows, v, l)?;
    let blocks = rows.canonical()?;
    Ok(blocks)
}

// Appends the pairs of y and each smaller point.
#[tactic(auto, using(crate::proofs::Steps::steps), unfolding(crate::specs::Basic::pairs_with))]
fn push_pairs_with(rows: &mut Rows, y: u16) -> Result<(), Memory>
    requires points { y ≤ POINTS_MAX }
    requires room { size_of rows.old + 3 * POINTS_MAX < PACKED_MAX }
    ensures ok { OnOk result (rows.new ≡ rows.old ++ pairs_with y y) }
    ensures size { OnOk result (size_of rows.new ≡ size_of rows.old + 3 * y) }
{
    for x in 0..y {
        rows.push_row(&[x, y])?;
    }
    Ok(())
}

// Appends each pair of points once.
#[tactic(auto, using(crate::proofs::Steps::steps), unfolding(crate::specs::Basic::pairs_once))]
fn push_pairs(rows: &mut Rows, v: u16) -> Result<(), Memory>
    requires points { v ≤ POINTS_MAX }
    requires room { size_of rows.old + 3 * (POINTS_MAX * POINTS_MAX) < PACKED_MAX }
    ensures ok { OnOk result (rows.new ≡ rows.old ++ pairs_once v) }
    ensures size { OnOk result (size_of rows.new ≤ size_of rows.old + 3 * (POINTS_MAX * POINTS_MAX)) }
{
    for y in 0..v {
        push_pairs_with(rows, y)?;
    }
    Ok(())
}

/// Each pair of `v` points, `l` times: the block design with blocks of two points.
///
/// `v` is at most `POINTS_MAX`, and `l` at most `COVER_MAX`. The answer is `Memory` only for want of memory.
#[tactic(auto, using(crate::proofs::BasicNeeds::pairs_design, crate::proofs::Steps::steps), unfolding(crate::specs::Basic::pair_blocks))]
pub fn pairs(alloc: Global, v: u16, l: u16) -> Result<Rows, Memory>
    requires { CanRepeat v l }
    ensures blocks { IfOk result (λ rows. rows ≡ canonical (pair_blocks v l)) }
    ensures design { IfOk result (λ rows. IsBibd rows v 2 l) }
{
    let mut rows = Rows::new(alloc);
    for i in 0..l {
        push_pairs(&mut rows, v)?;
    }
    let blocks = rows.canonical()?;
    Ok(blocks)
}

// Appends for each point the block of all others.
#[tactic(auto, using(crate::proofs::Steps::steps))]
fn push_all_but_one(rows: &mut Rows, v: u16) -> Result<(), Memory>
    requires points { v ≤ POINTS_MAX }
    requires room { size_of rows.old + (POINTS_MAX + 1) * POINTS_MAX < PACKED_MAX }
    ensures ok { OnOk result (rows.new ≡ rows.old ++ all_but_one v v) }
    ensures size { OnOk result (size_of rows.new ≤ size_of rows.old + (POINTS_MAX + 1) * POINTS_MAX) }
{
    for z in 0..v {
        push_missing(rows, v, &[z])?;
    }
    Ok(())
}

/// Each set of `v` - 1 of `v` points, `l` / (`v` - 2) times: the block design in which each block omits one point.
///
/// `v` is from 3 to `POINTS_MAX`, and `l` is a multiple of `v` - 2 and at most `COVER_MAX`. The answer is `Memory` only for want of memory.
#[tactic(auto, using(crate::proofs::Steps::steps), unfolding(crate::specs::Basic::omitted))]
pub fn omit(alloc: Global, v: u16, l: u16) -> Result<Rows, Memory>
    requires { CanOmit v l }
    ensures blocks { IfOk result (λ rows. rows ≡ canonical (omit_blocks v l)) }
    ensures design { IfOk result (λ rows. IsBibd rows v (v - 1) l) }
{
    let mut rows = Rows::new(alloc);
    for i in 0..l / (v - 2) {
        push_all_but_one(&mut rows, v)?;
    }
    let blocks = rows.canonical()?;
    Ok(blocks)
}

/// The blocks of two block designs on the same `v` points, which is the block design whose number `l` is the sum of theirs.
///
/// All blocks have `k` points, from 2 on; two points stand together in `i` blocks of `first` and in `l` - `i` of `second`. `v` is at most
/// `POINTS_MAX`, `i` at most `l`, and `l` at most `COVER_MAX`. A block that stands in both stands twice in the sum. The answer is
/// `Memory` only for want of memory.
///
/// D. R. Stinson, Combinatorial Designs: Constructions and Analysis (2004), chapter 1.
#[tactic(auto, using(crate::proofs::Steps::steps))]
pub fn sum(
    alloc: Global,
    v: u16,
    k: u16,
    l: u16,
    i: u16,
    first: &Rows,
    second: &Rows,
) -> Result<Rows, Memory>
    requires { CanSum v k l i first.now second.now }
    ensures blocks { IfOk result (λ rows. rows ≡ canonical (first.now ++ second.now)) }
    ensures design { IfOk result (λ rows. IsBibd rows v k l) }
{
    let mut rows = Rows::new(alloc);
    rows.push_all(first)?;
    rows.push_all(second)?;
    let blocks = rows.canonical()?;
    Ok(blocks)
}

/// The complements of the blocks of a block design, which are a block design: `k` of `v` points, and `l` blocks through two points.
///
/// With `r` = `l` (`v` - 1) / (`k` - 1) and `b` = `v` `r` / `k`, both without remainder, the blocks of `design` have `v` - `k` points, and two
/// points stand together in `b` + `l` - 2 `r` of them, at most `COVER_MAX`. `v` is at most `POINTS_MAX`, and `k` from 2 to `v` - 2. The answer
/// is `Memory` only for want of memory.
///
/// D. R. Stinson, Combinatorial Designs: Constructions and Analysis (2004), chapter 1.
#[tactic(auto, using(crate::proofs::BasicNeeds::complement_room, crate::proofs::Steps::steps))]
pub fn complement(alloc: Global, v: u16, k: u16, l: u16, design: &Rows) -> Result<Rows, Memory>
    requires { CanComplement v k l design.now }
    ensures blocks { IfOk result (λ rows. rows ≡ canonical (complement_blocks v design.now)) }
    ensures design { IfOk result (λ rows. IsBibd rows v k l) }
{
    let mut rows = Rows::new(alloc);
    push_complements(&mut rows, v, design)?;
    let blocks = rows.canonical()?;
    Ok(blocks)
}
