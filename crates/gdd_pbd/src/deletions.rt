// Block designs without a point.
ghost use Rattle.std.specs.Prelude.{◌≡◌, ◌+◌, ◌*◌, ◌-◌, ◌/◌, ◌<◌, ◌≤◌, ◌++◌, ◌∷◌, [], All, IfOk, OnOk, length, map, position, ◌==◌};
ghost use Rattle.design_base.specs.Blocks.{IsGdd, IsPbd, holds as holds_point};
ghost use Rattle.design_base.specs.Canonical.{canonical};
ghost use Rattle.incidence.specs.Packed.{size_of};
ghost use Rattle.gdd_pbd.specs.Conditions.{CanDeletePoint, CanDropPoint};
ghost use Rattle.gdd_pbd.specs.Room.{CanDeleteLast, HasName, HasNames, IsShort, most_size};
ghost use Rattle.gdd_pbd.specs.Deleting.{below_point, delete_last, group_in, groups_at, place_in as place_of, rank_in, renamed_rest};

use crate::pieces::{holds, push_front, push_fronts};
use design_base::{Memory, PACKED_MAX, POINTS_MAX};
use incidence::Rows;
use std::alloc::Global;

// Each block without the points from p on, in canonical form.
#[tactic(auto, using(crate::proofs::Steps::steps))]
fn below(alloc: Global, p: u16, design: &Rows) -> Result<Rows, Memory>
    requires few { All IsShort design.now }
    requires size { size_of design.now ≤ most_size }
    ensures { IfOk result (λ rows. rows ≡ canonical (below_point p design.now)) }
{
    let mut rows = Rows::new(alloc);
    push_fronts(&mut rows, p, design)?;
    let blocks = rows.canonical()?;
    Ok(blocks)
}

/// A block design without its last point, which is a pairwise balanced design on `v` - 1 points.
///
/// `design` has `v` points, from 1 to `POINTS_MAX`, and blocks of `s` + 1, from 2 on; two points stand together in one. The answer is
/// `Memory` only for want of memory.
///
/// Handbook of Combinatorial Designs (C. J. Colbourn, J. H. Dinitz, eds., 2nd edition, 2007), IV.1.
pub fn drop_point(alloc: Global, v: u16, s: u16, design: &Rows) -> Result<Rows, Memory>
    requires { CanDropPoint v s design.now }
    ensures blocks { IfOk result (λ rows. rows ≡ canonical (below_point (v - 1) design.now)) }
    ensures design { IfOk result (λ rows. IsPbd rows (v - 1) s) }
{
    let rows = below(alloc, v - 1, design)?;
    Ok(rows)
}

// Appends the block without the points from p on, where it holds p.
#[tactic(auto, using(crate::proofs::Steps::steps))]
fn push_through(rows: &mut Rows, p: u16, block: &[u16]) -> Result<(), Memory>
    requires few { length block.now ≤ POINTS_MAX }
    requires room { size_of rows.old + length block.now + 1 < PACKED_MAX }
    ensures ok { OnOk result (rows.new ≡ rows.old ++ groups_at p (block.now ∷ [])) }
    ensures size { OnOk result (size_of rows.new ≤ size_of rows.old + length block.now + 1) }
{
    if holds(block, p) {
        return push_front(rows, p, block);
    }
    Ok(())
}

// The blocks through p, without the points from p on.
#[tactic(auto, using(crate::proofs::Steps::steps))]
fn through(alloc: Global, p: u16, design: &Rows) -> Result<Rows, Memory>
    requires few { All IsShort design.now }
    requires size { size_of design.now ≤ most_size }
    ensures { IfOk result (λ rows. rows ≡ groups_at p design.now) }
{
    let mut rows = Rows::new(alloc);
    for block in design.iter() {
        push_through(&mut rows, p, block)?;
    }
    Ok(rows)
}

// The place of the first group that holds x, and else the number of groups.
fn first_group(groups: &Rows, x: u16) -> Option<usize>
    ensures { result ≡ position (λ b. holds_point x b) groups.now }
{
    groups.iter().position(|group| holds(group, x))
}

// The group of x.
#[tactic(auto, using(crate::proofs::DeletingNeeds::position_some, crate::proofs::DeletingNeeds::position_none))]
fn group_of(groups: &Rows, x: u16) -> usize
    ensures { result ≡ group_in groups.now x }
{
    match first_group(groups, x) {
        Some(j) => j,
        None => groups.len(),
    }
}

// The place of x in a group.
fn first_place(group: &[u16], x: u16) -> Option<usize>
    ensures { result ≡ position (λ z. z == x) group.now }
{
    group.iter().position(|z| *z == x)
}

// How many points of a group stand before x.
#[tactic(auto, using(crate::proofs::DeletingNeeds::position_some, crate::proofs::DeletingNeeds::position_none))]
fn rank_of(group: &[u16], x: u16) -> usize
    ensures { result ≡ rank_in group.now x }
{
    match first_place(group, x) {
        Some(a) => a,
        None => group.len(),
    }
}

// The point x becomes the point of its rank in its group.
#[tactic(auto, unfolding(crate::specs::Deleting::place_in, design_base::specs::Arrays::place))]
fn place_in(g: u16, groups: &Rows, x: u16) -> u16
    requires name { HasName g groups.now x }
    requires points { g ≤ POINTS_MAX }
    requires groups { length groups.now ≤ POINTS_MAX }
    ensures { result ≡ place_of g groups.now x }
{
    let j = group_of(groups, x);
    j as u16 * g + rank_of(groups.row(j), x) as u16
}

// Appends the block over the groups of its points.
#[tactic(auto, using(crate::proofs::Steps::steps))]
fn push_named(rows: &mut Rows, g: u16, groups: &Rows, block: &[u16]) -> Result<(), Memory>
    requires names { All (HasName g groups.now) block.now }
    requires few { length block.now ≤ POINTS_MAX }
    requires points { g ≤ POINTS_MAX }
    requires groups { length groups.now ≤ POINTS_MAX }
    requires room { size_of rows.old + length block.now + 1 < PACKED_MAX }
    ensures ok { OnOk result (rows.new ≡ rows.old ++ map (place_of g groups.now) block.now ∷ []) }
    ensures size { OnOk result (size_of rows.new ≡ size_of rows.old + length block.now + 1) }
{
    let mut points = [0; POINTS_MAX as usize];
    for i in 0..block.len() {
        points[i] = place_in(g, groups, block[i]);
    }
    rows.push_row(&points[..block.len()])
}

// Appends the block over the groups of its points, where it misses p.
#[tactic(auto, using(crate::proofs::Steps::steps))]
fn push_rest(rows: &mut Rows, g: u16, p: u16, groups: &Rows, block: &[u16]) -> Result<(), Memory>
    requires names { HasNames g p groups.now block.now }
    requires points { g ≤ POINTS_MAX }
    requires groups { length groups.now ≤ POINTS_MAX }
    requires room { size_of rows.old + length block.now + 1 < PACKED_MAX }
    ensures ok { OnOk result (rows.new ≡ rows.old ++ renamed_rest (place_of g groups.now) p (block.now ∷ [])) }
    ensures size { OnOk result (size_of rows.new ≤ size_of rows.old + length block.now + 1) }
{
    if holds(block, p) {
        return Ok(());
    }
    push_named(rows, g, groups, block)
}

// The blocks that miss p, over the groups of their points.
#[tactic(auto, using(crate::proofs::Steps::steps))]
fn named_rest(alloc: Global, g: u16, p: u16, groups: &Rows, design: &Rows) -> Result<Rows, Memory>
    requires names { All (HasNames g p groups.now) design.now }
    requires points { g ≤ POINTS_MAX }
    requires groups { length groups.now ≤ POINTS_MAX }
    requires size { size_of design.now ≤ most_size }
    ensures { IfOk result (λ rows. rows ≡ renamed_rest (place_of g groups.now) p design.now) }
{
    let mut rows = Rows::new(alloc);
    for block in design.iter() {
        push_rest(&mut rows, g, p, groups, block)?;
    }
    Ok(rows)
}

// The blocks that miss the last point g * u of a block design, over the groups that the others are, in canonical form.
pub(crate) fn without_last(alloc: Global, g: u16, u: u16, design: &Rows) -> Result<Rows, Memory>
    requires { CanDeleteLast g u design.now }
    ensures blocks { IfOk result (λ rows. rows ≡ canonical (delete_last g u design.now)) }
    ensures design { IfOk result (λ rows. IsGdd rows (g + 1) g u) }
{
    let groups = through(alloc, g * u, design)?;
    let rows = named_rest(alloc, g, g * u, &groups, design)?;
    let blocks = rows.canonical()?;
    Ok(blocks)
}

/// A block design without its last point and the blocks through it, which become groups: a group divisible design with
/// (`v` - 1) / (`k` - 1) groups of `k` - 1 points.
///
/// `design` has `v` points, from 2 to `POINTS_MAX`, and blocks of `k`, from 2 on, with `k` - 1 a divisor of `v` - 1; two points stand together
/// in one. The groups come in the order of their blocks, and their points in the order of the block. The answer is `Memory` only for want of
/// memory.
///
/// D. R. Stinson, Combinatorial Designs: Constructions and Analysis (2004), chapter 7.
pub fn delete_point(alloc: Global, v: u16, k: u16, design: &Rows) -> Result<Rows, Memory>
    requires { CanDeletePoint v k design.now }
    ensures blocks { IfOk result (λ rows. rows ≡ canonical (delete_last (k - 1) ((v - 1) / (k - 1)) design.now)) }
    ensures design { IfOk result (λ rows. IsGdd rows k (k - 1) ((v - 1) / (k - 1))) }
{
    let rows = without_last(alloc, k - 1, (v - 1) / (k - 1), design)?;
    Ok(rows)
}
