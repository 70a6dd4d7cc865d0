// Blocks made of the points or of the blocks of others, appended to a list.
ghost use Rattle.std.specs.Prelude.{◌≡◌, ◌+◌, ◌*◌, ◌<◌, ◌≤◌, ◌++◌, [], ◌∷◌, All, OnOk, filter, length, map, nat_lt};
ghost use Rattle.design_base.specs.Blocks.{holds as holds_point};
ghost use Rattle.incidence.specs.Packed.{size_of};
ghost use Rattle.gdd_pbd.specs.Room.{FitsIn, IsShort};
ghost use Rattle.gdd_pbd.specs.Filling.{groups_of, place_by, rename};
ghost use Rattle.gdd_pbd.specs.Deleting.{below_point};
ghost use Rattle.gdd_pbd.specs.Basic.{complement, missing};

use design_base::{Memory, PACKED_MAX, POINTS_MAX};
use incidence::Rows;

// Whether x stands in the block.
#[tactic(auto, unfolding(design_base::specs::Blocks::holds))]
pub(crate) fn holds(block: &[u16], x: u16) -> bool
    ensures { result ≡ holds_point x block.now }
{
    block.contains(&x)
}

// Appends the points below v that are not in the block.
#[tactic(auto, using(crate::proofs::Steps::steps))]
pub(crate) fn push_missing(rows: &mut Rows, v: u16, block: &[u16]) -> Result<(), Memory>
    requires points { v ≤ POINTS_MAX }
    requires room { size_of rows.old + v + 1 < PACKED_MAX }
    ensures ok { OnOk result (rows.new ≡ rows.old ++ missing v block.now ∷ []) }
    ensures size { OnOk result (size_of rows.new ≤ size_of rows.old + v + 1) }
{
    let mut points = [0; POINTS_MAX as usize];
    let mut n = 0;
    for x in 0..v {
        if !holds(block, x) {
            points[n] = x;
            n += 1;
        }
    }
    rows.push_row(&points[..n])
}

// Appends the complement of each block.
#[tactic(auto, using(crate::proofs::Steps::steps), unfolding(crate::specs::Basic::complement))]
pub(crate) fn push_complements(rows: &mut Rows, v: u16, design: &Rows) -> Result<(), Memory>
    requires points { v ≤ POINTS_MAX }
    requires room { size_of rows.old + (POINTS_MAX + 1) * length design.now < PACKED_MAX }
    ensures ok { OnOk result (rows.new ≡ rows.old ++ complement v design.now) }
{
    for block in design.iter() {
        push_missing(rows, v, block)?;
    }
    Ok(())
}

// Appends the points of the block that are below v.
#[tactic(auto, using(crate::proofs::Steps::steps))]
pub(crate) fn push_front(rows: &mut Rows, v: u16, block: &[u16]) -> Result<(), Memory>
    requires few { length block.now ≤ POINTS_MAX }
    requires room { size_of rows.old + length block.now + 1 < PACKED_MAX }
    ensures ok { OnOk result (rows.new ≡ rows.old ++ filter (λ x. nat_lt x v) block.now ∷ []) }
    ensures size { OnOk result (size_of rows.new ≤ size_of rows.old + length block.now + 1) }
{
    let mut points = [0; POINTS_MAX as usize];
    let mut n = 0;
    for x in block {
        if *x < v {
            points[n] = *x;
            n += 1;
        }
    }
    rows.push_row(&points[..n])
}

// Appends of each block the points below v.
#[tactic(auto, using(crate::proofs::Steps::steps), unfolding(crate::specs::Deleting::below_point))]
pub(crate) fn push_fronts(rows: &mut Rows, v: u16, design: &Rows) -> Result<(), Memory>
    requires few { All IsShort design.now }
    requires room { size_of rows.old + size_of design.now < PACKED_MAX }
    ensures ok { OnOk result (rows.new ≡ rows.old ++ below_point v design.now) }
    ensures size { OnOk result (size_of rows.new ≤ size_of rows.old + size_of design.now) }
{
    for block in design.iter() {
        push_front(rows, v, block)?;
    }
    Ok(())
}

// Point i of group c becomes point i of group x, where x is the point at place c of the block; groups have w points.
#[tactic(auto, unfolding(crate::specs::Filling::place_by, design_base::specs::Arrays::place))]
fn point(w: u16, block: &[u16], p: u16) -> u16
    requires weight { (0 < w) × (w ≤ POINTS_MAX) }
    requires points { All (λ x. x * w ≤ POINTS_MAX) block.now }
    requires within { p < length block.now * w }
    ensures { result ≡ place_by w block.now p }
{
    block[usize::from(p / w)] * w + p % w
}

// Appends the piece, its points renamed.
#[tactic(auto, using(crate::proofs::Steps::steps))]
fn push_copy(rows: &mut Rows, w: u16, block: &[u16], piece: &[u16]) -> Result<(), Memory>
    requires weight { (0 < w) × (w ≤ POINTS_MAX) }
    requires points { All (λ x. x * w ≤ POINTS_MAX) block.now }
    requires fits { FitsIn (length block.now * w) piece.now }
    requires room { size_of rows.old + length piece.now + 1 < PACKED_MAX }
    ensures ok { OnOk result (rows.new ≡ rows.old ++ map (place_by w block.now) piece.now ∷ []) }
    ensures size { OnOk result (size_of rows.new ≡ size_of rows.old + length piece.now + 1) }
{
    let mut points = [0; POINTS_MAX as usize];
    for i in 0..piece.len() {
        points[i] = point(w, block, piece[i]);
    }
    rows.push_row(&points[..piece.len()])
}

// Appends the blocks of a design, their points renamed.
#[tactic(auto, using(crate::proofs::Steps::steps), unfolding(crate::specs::Filling::rename))]
pub(crate) fn push_copies(
    rows: &mut Rows,
    w: u16,
    block: &[u16],
    design: &Rows,
) -> Result<(), Memory>
    requires weight { (0 < w) × (w ≤ POINTS_MAX) }
    requires points { All (λ x. x * w ≤ POINTS_MAX) block.now }
    requires fits { All (FitsIn (length block.now * w)) design.now }
    requires room { size_of rows.old + size_of design.now < PACKED_MAX }
    ensures ok { OnOk result (rows.new ≡ rows.old ++ rename (place_by w block.now) design.now) }
    ensures size { OnOk result (size_of rows.new ≡ size_of rows.old + size_of design.now) }
{
    for piece in design.iter() {
        push_copy(rows, w, block, piece)?;
    }
    Ok(())
}

// Appends for each of the first m groups of g points the blocks of a design on the group, and on the first point of group u.
#[tactic(auto, using(crate::proofs::Steps::steps), unfolding(crate::specs::Filling::groups_of))]
pub(crate) fn push_in_groups(
    rows: &mut Rows,
    g: u16,
    u: u16,
    m: u16,
    design: &Rows,
) -> Result<(), Memory>
    requires weight { (0 < g) × (g ≤ POINTS_MAX) }
    requires groups { (u * g ≤ POINTS_MAX) × (m ≤ u) }
    requires fits { All (FitsIn (2 * g)) design.now }
    requires room { size_of rows.old + m * size_of design.now < PACKED_MAX }
    ensures ok { OnOk result (rows.new ≡ rows.old ++ groups_of g u design.now m) }
    ensures size { OnOk result (size_of rows.new ≡ size_of rows.old + m * size_of design.now) }
{
    for j in 0..m {
        push_copies(rows, g, &[j, u], design)?;
    }
    Ok(())
}
