// A quadruple system on twice as many points.
ghost use Rattle.std.specs.Prelude.{◌≡◌, ◌+◌, ◌*◌, ◌/◌, ◌-◌, ◌<◌, ◌≤◌, ◌++◌, [], ◌∷◌, All, IfOk, OnOk, length, map};
ghost use Rattle.counting.specs.Sums.{join_below, list_below};
ghost use Rattle.design_base.specs.Blocks.{IsBlock};
ghost use Rattle.design_base.specs.Canonical.{canonical};
ghost use Rattle.incidence.specs.Packed.{size_of};
ghost use Rattle.three_designs.specs.Loops.{crossed_pair, crossed_pairs};
ghost use Rattle.three_designs.specs.Quadruples.{double_blocks, first_point, moved, second_point};

use design_base::{Memory, PACKED_MAX, POINTS_MAX};
use incidence::Rows;
use std::alloc::Global;

// The first point of pair `s` of factor `i`, on the numbers to `u`.
#[tactic(auto, unfolding(crate::specs::Quadruples::first_point))]
fn first(u: u16, i: u16, s: u16) -> u16
    requires small { u ≤ POINTS_MAX }
    requires within { (i < u) × (s < u) }
    ensures point { result ≡ first_point u i s }
    ensures below { result ≤ u }
{
    if s == 0 { u } else { (i + s) % u }
}

// The second point of the pair.
#[tactic(auto, unfolding(crate::specs::Quadruples::second_point))]
fn second(u: u16, i: u16, s: u16) -> u16
    requires small { u ≤ POINTS_MAX }
    requires within { (i < u) × (s < u) }
    ensures point { result ≡ second_point u i s }
    ensures below { result ≤ u }
{
    (i + (u - s)) % u
}

// Appends pair `s` of factor `i` of `w` points, crossed with pair `t`.
#[tactic(auto, unfolding(crate::specs::Quadruples::moved))]
fn push_crossed_pair(rows: &mut Rows, w: u16, i: u16, s: u16, t: u16) -> Result<(), Memory>
    requires small { w ≤ POINTS_MAX }
    requires within { (i + 1 < w) × (s < w / 2) × (t < w / 2) }
    requires room { size_of rows.old + 5 < PACKED_MAX }
    ensures ok { OnOk result (rows.new ≡ rows.old ++ crossed_pair w i s t ∷ []) }
    ensures size { OnOk result (size_of rows.new ≡ size_of rows.old + 5) }
{
    rows.push_row(&[
        first(w - 1, i, s),
        second(w - 1, i, s),
        first(w - 1, i, t) + w,
        second(w - 1, i, t) + w,
    ])
}

// Appends pair `s` of factor `i`, crossed with each pair.
#[tactic(auto, using(crate::proofs::Steps::steps))]
fn push_crossed_with(rows: &mut Rows, w: u16, i: u16, s: u16) -> Result<(), Memory>
    requires small { w ≤ POINTS_MAX }
    requires within { (i + 1 < w) × (s < w / 2) }
    requires room { size_of rows.old + 5 * (w / 2) < PACKED_MAX }
    ensures ok { OnOk result (rows.new ≡ rows.old ++ list_below (w / 2) (crossed_pair w i s)) }
    ensures size { OnOk result (size_of rows.new ≡ size_of rows.old + 5 * (w / 2)) }
{
    for t in 0..w / 2 {
        push_crossed_pair(rows, w, i, s, t)?;
    }
    Ok(())
}

// Appends the crossed pairs of factor `i`.
#[tactic(auto, using(crate::proofs::Steps::steps), unfolding(crate::specs::Loops::crossed_pairs))]
fn push_crossed(rows: &mut Rows, w: u16, i: u16) -> Result<(), Memory>
    requires small { w ≤ POINTS_MAX }
    requires within { i + 1 < w }
    requires room { size_of rows.old + 5 * (w / 2 * (w / 2)) < PACKED_MAX }
    ensures ok { OnOk result (rows.new ≡ rows.old ++ crossed_pairs w i) }
    ensures size { OnOk result (size_of rows.new ≡ size_of rows.old + 5 * (w / 2 * (w / 2))) }
{
    for s in 0..w / 2 {
        push_crossed_with(rows, w, i, s)?;
    }
    Ok(())
}

// Appends the crossed pairs of all factors.
#[tactic(auto, using(crate::proofs::Steps::steps))]
fn push_factors(rows: &mut Rows, w: u16) -> Result<(), Memory>
    requires small { (1 ≤ w) × (w ≤ POINTS_MAX) }
    requires room { size_of rows.old + 5 * ((w - 1) * (w / 2 * (w / 2))) < PACKED_MAX }
    ensures ok { OnOk result (rows.new ≡ rows.old ++ join_below (w - 1) (crossed_pairs w)) }
    ensures size { OnOk result (size_of rows.new ≡ size_of rows.old + 5 * ((w - 1) * (w / 2 * (w / 2)))) }
{
    for i in 0..w - 1 {
        push_crossed(rows, w, i)?;
    }
    Ok(())
}

// Appends the block with `w` added to each point.
#[tactic(auto, using(crate::proofs::Steps::steps), unfolding(crate::specs::Quadruples::moved))]
fn push_moved_block(rows: &mut Rows, w: u16, block: &[u16]) -> Result<(), Memory>
    requires small { w ≤ POINTS_MAX }
    requires points { All (λ x. x < w) block.now }
    requires four { length block.now ≡ 4 }
    requires room { size_of rows.old + 5 < PACKED_MAX }
    ensures ok { OnOk result (rows.new ≡ rows.old ++ moved w block.now ∷ []) }
    ensures size { OnOk result (size_of rows.new ≡ size_of rows.old + 5) }
{
    let mut row = [0; 4];
    for (i, x) in block.iter().enumerate() {
        row[i] = *x + w;
    }
    rows.push_row(&row[..block.len()])
}

// Appends the blocks with `w` added to each point.
#[tactic(auto, using(crate::proofs::Steps::steps))]
fn push_moved(rows: &mut Rows, w: u16, system: &Rows) -> Result<(), Memory>
    requires small { w ≤ POINTS_MAX }
    requires blocks { All (IsBlock w (λ size. size ≡ 4)) system.now }
    requires room { size_of rows.old + size_of system.now < PACKED_MAX }
    ensures ok { OnOk result (rows.new ≡ rows.old ++ map (moved w) system.now) }
    ensures size { OnOk result (size_of rows.new ≤ size_of rows.old + size_of system.now) }
{
    for block in system.iter() {
        push_moved_block(rows, w, block)?;
    }
    Ok(())
}

// The quadruple system on `2 * w` points, from one on `w` points.
pub(crate) fn double(alloc: Global, w: u16, system: &Rows) -> Result<Rows, Memory>
    requires small { (2 ≤ w) × (w + w ≤ POINTS_MAX) }
    requires blocks { All (IsBlock w (λ size. size ≡ 4)) system.now }
    requires few { size_of system.now ≤ w * w * w }
    ensures blocks { IfOk result (λ rows. rows ≡ canonical (double_blocks w system.now)) }
    ensures few { IfOk result (λ rows. size_of rows ≤ (w + w) * (w + w) * (w + w)) }
{
    let mut rows = Rows::new(alloc);
    rows.push_all(system)?;
    push_moved(&mut rows, w, system)?;
    push_factors(&mut rows, w)?;
    let blocks = rows.canonical()?;
    Ok(blocks)
}
