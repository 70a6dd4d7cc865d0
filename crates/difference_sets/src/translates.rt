// The translates of base blocks.
ghost use Rattle.std.specs.Prelude.{◌≡◌, ◌+◌, ◌*◌, ◌<◌, ◌≤◌, ◌++◌, [], ◌∷◌, All, IfOk, OnOk, flat_map, length, map};
ghost use Rattle.design_base.specs.Blocks.{IsBibd, IsBlock};
ghost use Rattle.design_base.specs.Canonical.{canonical};
ghost use Rattle.design_base.specs.Meets.{group_add};
ghost use Rattle.difference_sets.specs.Conditions.{CanDevelop};
ghost use Rattle.difference_sets.specs.Develop.{developed, translates_below};
ghost use Rattle.incidence.specs.Packed.{size_of};

use crate::sums::Sums;
use design_base::{Group, Memory, PACKED_MAX, POINTS_MAX};
use incidence::Rows;
use std::alloc::Global;

// Appends the block with `c` added.
fn push_translate(rows: &mut Rows, sums: &Sums, block: &[u16], c: u16) -> Result<(), Memory>
    requires elements { All (λ x. x < sums.now.1) block.now }
    requires element { c < sums.now.1 }
    requires few { length block.now ≤ POINTS_MAX }
    requires room { size_of rows.old + length block.now + 1 < PACKED_MAX }
    ensures ok { OnOk result (rows.new ≡ rows.old ++ map (λ x. group_add sums.now.0 sums.now.1 x c) block.now ∷ []) }
    ensures size { OnOk result (size_of rows.new ≡ size_of rows.old + length block.now + 1) }
{
    let mut row = [0; POINTS_MAX as usize];
    for (i, x) in block.iter().enumerate() {
        row[i] = sums.add(*x, c);
    }
    rows.push_row(&row[..block.len()])
}

// Appends the translates of a block.
#[tactic(auto, using(crate::proofs::TranslateSteps::steps), unfolding(crate::specs::Develop::translates_below))]
fn push_translates(rows: &mut Rows, sums: &Sums, block: &[u16]) -> Result<(), Memory>
    requires elements { All (λ x. x < sums.now.1) block.now }
    requires few { length block.now ≤ POINTS_MAX }
    requires room { size_of rows.old + sums.now.1 * (length block.now + 1) < PACKED_MAX }
    ensures ok { OnOk result (rows.new ≡ rows.old ++ translates_below sums.now.1 (group_add sums.now.0 sums.now.1) block.now) }
    ensures size { OnOk result (size_of rows.new ≡ size_of rows.old + sums.now.1 * (length block.now + 1)) }
{
    for c in 0..sums.order() {
        push_translate(rows, sums, block, c)?;
    }
    Ok(())
}

// Appends the translates of all base blocks, which have `k` elements each.
#[tactic(auto, using(crate::proofs::TranslateSteps::steps))]
fn push_developed(rows: &mut Rows, sums: &Sums, k: u16, base: &Rows) -> Result<(), Memory>
    requires few { k ≤ POINTS_MAX }
    requires blocks { All (IsBlock sums.now.1 (λ size. size ≡ k)) base.now }
    requires room { size_of rows.old + sums.now.1 * ((k + 1) * length base.now) < PACKED_MAX }
    ensures { OnOk result (rows.new ≡ rows.old ++ flat_map (translates_below sums.now.1 (group_add sums.now.0 sums.now.1)) base.now) }
{
    for block in base.iter() {
        push_translates(rows, sums, block)?;
    }
    Ok(())
}

// An empty list with room for the blocks of a design of `v` points, blocks of `k` points and `l` blocks for two points.
fn with_room(alloc: Global, v: u16, k: u16, l: u16) -> Result<Rows, Memory>
    requires points { v ≤ POINTS_MAX }
    requires size { (2 ≤ k) × (k ≤ v) }
    ensures { IfOk result (λ rows. rows ≡ []) }
{
    let pairs = |n: u16| usize::from(n) * (usize::from(n) - 1);
    let blocks = usize::from(l) * pairs(v) / pairs(k);
    let mut rows = Rows::new(alloc);
    rows.reserve(blocks, blocks * usize::from(k))?;
    Ok(rows)
}

/// The block design of the translates of the base blocks of a difference family: to each block each element of the group of
/// `v` elements is added.
///
/// `base` is a difference family of blocks of `k` elements in which each element but 0 is the difference of `l` pairs; `k` is
/// from 2 to `v`, `v` at most `POINTS_MAX`, and `l` at most `COVER_MAX`. The answer is `Memory` only for want of memory.
///
/// R. C. Bose, On the construction of balanced incomplete block designs, Annals of Eugenics 9 (1939).
#[tactic(auto, using(crate::proofs::Translations::develop_room, crate::proofs::Translations::develop_design), unfolding(crate::specs::Develop::developed))]
pub fn develop(
    alloc: Global,
    group: Group,
    v: u16,
    k: u16,
    l: u16,
    base: &Rows,
) -> Result<Rows, Memory>
    requires { CanDevelop group v k l base.now }
    ensures blocks { IfOk result (λ rows. rows ≡ canonical (developed group v base.now)) }
    ensures design { IfOk result (λ rows. IsBibd rows v k l) }
{
    let sums = Sums::open(alloc, group, v)?;
    let mut rows = with_room(alloc, v, k, l)?;
    push_developed(&mut rows, &sums, k, base)?;
    let blocks = rows.canonical()?;
    Ok(blocks)
}
