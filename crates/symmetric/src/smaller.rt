// What the other blocks of a symmetric design have outside a block and in it.
ghost use Rattle.std.specs.Prelude.{◌+◌, ◌*◌, ◌-◌, ◌<◌, ◌≤◌, ◌≡◌, ◌^◌, [], IfOk, length, slice_index_or};
ghost use Rattle.design_base.specs.Blocks.{IsBibd, holds as holds_of};
ghost use Rattle.design_base.specs.Canonical.{canonical};
ghost use Rattle.incidence.specs.Packed.{size_of};
ghost use Rattle.spaces.specs.Lines.{points_in};
ghost use Rattle.symmetric.specs.Symmetric.{IsSymmetric, derived_blocks, parts_in, points_outside as points_outside_of, residual_blocks};

use design_base::{Memory, PACKED_MAX};
use incidence::Rows;
use std::alloc::Global;

// Whether the point is in the block.
#[tactic(auto, unfolding(design_base::specs::Blocks::holds))]
fn holds(block: &[u16], x: u16) -> bool
    ensures { result ≡ holds_of x block.now }
{
    block.contains(&x)
}

// The points below `v` that are not in the block.
#[tactic(auto, using(crate::proofs::Steps::steps), unfolding(crate::specs::Symmetric::points_outside))]
fn points_outside(alloc: Global, v: u16, block: &[u16]) -> Result<Vec<u16>, Memory>
    ensures { IfOk result (λ points. points.items ≡ points_outside_of v block.now) }
{
    let mut points = Vec::new(alloc);
    for x in 0..v {
        if !holds(block, x) {
            points.push(x)?;
        }
    }
    Ok(points)
}

// Those of the points that the block holds, by their places.
#[tactic(auto, using(crate::proofs::Steps::steps), unfolding(spaces::specs::Lines::points_in))]
fn part(alloc: Global, points: &[u16], block: &[u16]) -> Result<Vec<u16>, Memory>
    requires { length points.now < 2 ^ 16 }
    ensures { IfOk result (λ part. part.items ≡ points_in points.now block.now) }
{
    let mut part = Vec::new(alloc);
    for m in 0..points.len() as u16 {
        if holds(block, points[m as usize]) {
            part.push(m)?;
        }
    }
    Ok(part)
}

// What the blocks but that at place `i` have of the points.
#[tactic(auto, using(crate::proofs::Steps::steps))]
fn parts(alloc: Global, rows: &Rows, i: usize, points: &[u16]) -> Result<Rows, Memory>
    requires few { length points.now < 2 ^ 16 }
    requires room { (length points.now + 1) * length rows.now < PACKED_MAX }
    ensures { IfOk result (λ parts. parts ≡ parts_in points.now rows.now i) }
{
    let mut parts = Rows::new(alloc);
    for j in 0..rows.len() {
        if j != i {
            parts.push_row(&part(alloc, points, rows.row(j))?)?;
        }
    }
    Ok(parts)
}

/// The residual design at place `i`, from 0: of each other block the points outside block `i`, numbered from 0 in ascending order,
/// in canonical form (D. R. Stinson, Combinatorial Designs: Constructions and Analysis, 2.2).
///
/// The rows are a symmetric design: any two of `v` points stand together in `l` blocks of `k` points, and l * (v - 1) is
/// k * (k - 1). A block may stand in them more than once. `i` is below `v`, which is the number of blocks. The answer is `Memory`
/// only for want of memory.
#[tactic(auto, using(crate::proofs::EqualMeets::places, crate::proofs::SmallerDesigns::residual_steps))]
pub fn residual(
    alloc: Global,
    rows: &Rows,
    v: u16,
    k: u16,
    l: u16,
    i: usize,
) -> Result<Rows, Memory>
    requires design { IsSymmetric rows.now v k l }
    requires place { i < v }
    ensures blocks { IfOk result (λ blocks. blocks ≡ canonical (residual_blocks v rows.now i)) }
    ensures design { IfOk result (λ blocks. IsBibd blocks (v - k) (k - l) l) }
{
    let outside = points_outside(alloc, v, rows.row(i))?;
    let blocks = parts(alloc, rows, i, &outside)?.canonical()?;
    Ok(blocks)
}

/// The derived design at place `i`, from 0: of each other block the points in block `i`, numbered from 0 in ascending order, in
/// canonical form.
///
/// The rows are a symmetric design and `i` is below `v`, as for `residual`. The answer is `Memory` only for want of memory.
#[tactic(auto, using(crate::proofs::EqualMeets::places, crate::proofs::SmallerDesigns::derived_steps))]
pub fn derived(alloc: Global, rows: &Rows, v: u16, k: u16, l: u16, i: usize) -> Result<Rows, Memory>
    requires design { IsSymmetric rows.now v k l }
    requires place { i < v }
    ensures blocks { IfOk result (λ blocks. blocks ≡ canonical (derived_blocks rows.now i)) }
    ensures design { IfOk result (λ blocks. IsBibd blocks k l (l - 1)) }
{
    let blocks = parts(alloc, rows, i, rows.row(i))?.canonical()?;
    Ok(blocks)
}
