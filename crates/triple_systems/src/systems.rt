// Triple systems, as block lists in canonical form.
ghost use Rattle.std.specs.Prelude.{◌≡◌, ◌≢◌, ◌%◌, ◌<◌, ◌≤◌, IfOk};
ghost use Rattle.design_base.specs.Blocks.{IsBibd};
ghost use Rattle.design_base.specs.Canonical.{canonical};
ghost use Rattle.triple_systems.specs.Bose.{bose_blocks};
ghost use Rattle.triple_systems.specs.Double.{double_blocks};
ghost use Rattle.triple_systems.specs.OneGroup.{middle_blocks, ordered_blocks};
ghost use Rattle.triple_systems.specs.Skolem.{skolem_blocks};

use crate::squares::Square;
use crate::triples::{
    Pairs, push_columns, push_double_columns, push_infinite_triples, push_levels, push_six_points,
    push_triples_above,
};
use design_base::{Memory, POINTS_MAX};
use incidence::Rows;
use std::alloc::Global;

/// The Bose triple system on `v` points, in canonical form: blocks of three points, each two points in exactly one.
///
/// `v` is at most `POINTS_MAX`, and 3 more than a multiple of 6. The answer is `Memory` only for want of memory.
///
/// R. C. Bose, On the construction of balanced incomplete block designs (1939); D. R. Stinson, Combinatorial Designs:
/// Constructions and Analysis (2004), section 6.2.
#[tactic(auto, using(crate::proofs::BoseSystem::bose_design), unfolding(crate::specs::Bose::bose_blocks))]
pub fn bose(alloc: Global, v: u16) -> Result<Rows, Memory>
    requires shape { v % 6 ≡ 3 }
    requires in_bounds { v ≤ POINTS_MAX }
    ensures blocks { IfOk result (λ rows. rows ≡ canonical (bose_blocks v)) }
    ensures design { IfOk result (λ rows. IsBibd rows v 3 1) }
{
    let n = v / 3;
    let mut rows = Rows::new(alloc);
    push_columns(&mut rows, n, n)?;
    push_levels(&mut rows, Pairs::Unordered, Square::HalfSums, n)?;
    let blocks = rows.canonical()?;
    Ok(blocks)
}

/// The Skolem triple system on `v` points, in canonical form: blocks of three points, each two points in exactly one.
///
/// `v` is from 7 to `POINTS_MAX`, and 1 more than a multiple of 6. The answer is `Memory` only for want of memory.
///
/// T. Skolem, Some remarks on the triple systems of Steiner (1958); D. R. Stinson, Combinatorial Designs: Constructions and
/// Analysis (2004), section 6.2.
#[tactic(auto, using(crate::proofs::SkolemSystem::skolem_design, crate::proofs::Steps::steps), unfolding(crate::specs::Skolem::skolem_blocks))]
pub fn skolem(alloc: Global, v: u16) -> Result<Rows, Memory>
    requires shape { v % 6 ≡ 1 }
    requires in_bounds { (1 < v) × (v ≤ POINTS_MAX) }
    ensures blocks { IfOk result (λ rows. rows ≡ canonical (skolem_blocks v)) }
    ensures design { IfOk result (λ rows. IsBibd rows v 3 1) }
{
    let n = v / 3;
    let mut rows = Rows::new(alloc);
    push_columns(&mut rows, n, n / 2)?;
    push_infinite_triples(&mut rows, n, n / 2, n / 2)?;
    push_levels(&mut rows, Pairs::Unordered, Square::HalfIdempotent, n)?;
    let blocks = rows.canonical()?;
    Ok(blocks)
}

/// A block design on `v` points, in canonical form: blocks of three points, each two points in exactly two.
///
/// It is made like the Bose system, over an idempotent Latin square that need not be symmetric. `v` is from 3 to `POINTS_MAX`, a multiple
/// of 3 or 1 more, and not 7, since no idempotent square has order 2; `v` = 6 has a list of its own. The answer is `Memory` only for
/// want of memory.
///
/// Handbook of Combinatorial Designs (C. J. Colbourn, J. H. Dinitz, eds., 2nd edition, 2007), II.2.
#[tactic(auto, using(crate::proofs::DoubleSystem::double_design, crate::proofs::DoubleSystem::double_six, crate::proofs::DoubleSystem::double_else, crate::proofs::Steps::steps))]
pub fn double(alloc: Global, v: u16) -> Result<Rows, Memory>
    requires shape { (v % 3 ≢ 2) × (v ≢ 7) }
    requires in_bounds { (3 ≤ v) × (v ≤ POINTS_MAX) }
    ensures blocks { IfOk result (λ rows. rows ≡ canonical (double_blocks v)) }
    ensures design { IfOk result (λ rows. IsBibd rows v 3 2) }
{
    let mut rows = Rows::new(alloc);
    if v == 6 {
        push_six_points(&mut rows)?;
        let blocks = rows.canonical()?;
        return Ok(blocks);
    }
    push_double_columns(&mut rows, v / 3, v % 3)?;
    push_levels(&mut rows, Pairs::Ordered, Square::Idempotent, v / 3)?;
    let blocks = rows.canonical()?;
    Ok(blocks)
}

/// A block design on `v` points, in canonical form: blocks of three points, each two points in exactly three.
///
/// Above each two points stands their half sum modulo `v`. `v` is odd and at most `POINTS_MAX`. The answer is `Memory` only for want of
/// memory.
///
/// H. Hanani, The existence and construction of balanced incomplete block designs (1961);
/// Handbook of Combinatorial Designs (C. J. Colbourn, J. H. Dinitz, eds., 2nd edition, 2007), II.2.
#[tactic(auto, using(crate::proofs::OneGroup::middle_design), unfolding(crate::specs::OneGroup::middle_blocks))]
pub fn middle(alloc: Global, v: u16) -> Result<Rows, Memory>
    requires shape { v % 2 ≡ 1 }
    requires in_bounds { v ≤ POINTS_MAX }
    ensures blocks { IfOk result (λ rows. rows ≡ canonical (middle_blocks v)) }
    ensures design { IfOk result (λ rows. IsBibd rows v 3 3) }
{
    let mut rows = Rows::new(alloc);
    push_triples_above(&mut rows, Pairs::Unordered, Square::HalfSums, v, 0, 0)?;
    let blocks = rows.canonical()?;
    Ok(blocks)
}

/// A block design on `v` points, in canonical form: blocks of three points, each two points in exactly six.
///
/// Above each ordered pair of points stands their product in the idempotent square. `v` is from 3 to `POINTS_MAX`. The answer is `Memory`
/// only for want of memory.
///
/// H. Hanani, The existence and construction of balanced incomplete block designs (1961);
/// Handbook of Combinatorial Designs (C. J. Colbourn, J. H. Dinitz, eds., 2nd edition, 2007), II.2.
#[tactic(auto, using(crate::proofs::OneGroup::ordered_design), unfolding(crate::specs::OneGroup::ordered_blocks))]
pub fn ordered(alloc: Global, v: u16) -> Result<Rows, Memory>
    requires in_bounds { (3 ≤ v) × (v ≤ POINTS_MAX) }
    ensures blocks { IfOk result (λ rows. rows ≡ canonical (ordered_blocks v)) }
    ensures design { IfOk result (λ rows. IsBibd rows v 3 6) }
{
    let mut rows = Rows::new(alloc);
    push_triples_above(&mut rows, Pairs::Ordered, Square::Idempotent, v, 0, 0)?;
    let blocks = rows.canonical()?;
    Ok(blocks)
}

#[cfg(test)]
mod tests;
