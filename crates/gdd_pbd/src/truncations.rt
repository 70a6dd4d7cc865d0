// Truncated transversal designs.
ghost use Rattle.std.specs.Prelude.{◌≡◌, ◌+◌, ◌*◌, ◌<◌, ◌≤◌, ◌++◌, All, IfOk, IfSome, OnOk};
ghost use Rattle.std.specs.Option.{option_copied};
ghost use Rattle.design_base.specs.Arrays.{place};
ghost use Rattle.design_base.specs.Blocks.{IsPbd};
ghost use Rattle.design_base.specs.Canonical.{canonical};
ghost use Rattle.incidence.specs.Packed.{size_of};
ghost use Rattle.gdd_pbd.specs.Conditions.{CanTruncatePbd};
ghost use Rattle.gdd_pbd.specs.Room.{FitsGroup, FitsIn, IsShort, most_size};
ghost use Rattle.gdd_pbd.specs.Filling.{groups_of, rename};
ghost use Rattle.gdd_pbd.specs.Deleting.{below_point};
ghost use Rattle.gdd_pbd.specs.Truncating.{last_group, truncated};

use crate::pieces::{push_copies, push_fronts, push_in_groups};
use design_base::{Memory, PACKED_MAX, POINTS_MAX};
use incidence::Rows;
use std::alloc::Global;

// Appends the blocks of a design on group j.
#[tactic(auto, using(crate::proofs::Copies::group_plain, crate::proofs::FillingNeeds::wider))]
fn push_in_group(rows: &mut Rows, g: u16, j: u16, design: &Rows) -> Result<(), Memory>
    requires weight { (0 < g) × (g ≤ POINTS_MAX) }
    requires group { j * g ≤ POINTS_MAX }
    requires fits { FitsGroup g design.now }
    requires room { size_of rows.old + most_size < PACKED_MAX }
    ensures { OnOk result (rows.new ≡ rows.old ++ rename (place g j) design.now) }
{
    push_copies(rows, g, &[j], design)
}

// Appends the blocks of a design on group j, where there is a design.
fn push_last(rows: &mut Rows, g: u16, j: u16, last: Option<&Rows>) -> Result<(), Memory>
    requires weight { (0 < g) × (g ≤ POINTS_MAX) }
    requires group { j * g ≤ POINTS_MAX }
    requires fits { IfSome (option_copied last) (FitsGroup g) }
    requires room { size_of rows.old + most_size < PACKED_MAX }
    ensures { OnOk result (rows.new ≡ rows.old ++ last_group g j (option_copied last.entry)) }
{
    match last {
        Some(design) => push_in_group(rows, g, j, design),
        None => Ok(()),
    }
}

// The blocks without the points from v on, and designs on the groups.
#[tactic(auto, using(crate::proofs::Steps::steps))]
fn cut(
    alloc: Global,
    s: u16,
    t: u16,
    v: u16,
    td: &Rows,
    group: &Rows,
    last: Option<&Rows>,
) -> Result<Rows, Memory>
    requires weight { (0 < t) × (t ≤ POINTS_MAX) }
    requires groups { s * t ≤ POINTS_MAX }
    requires short { All IsShort td.now }
    requires sizes { (size_of td.now ≤ 6 * most_size) × (size_of group.now ≤ most_size) }
    requires fits { All (FitsIn (2 * t)) group.now }
    requires last { IfSome (option_copied last) (FitsGroup t) }
    ensures { IfOk result (λ rows. rows ≡ canonical (below_point v td.now ++ groups_of t s group.now s ++ last_group t s (option_copied last.entry))) }
{
    let mut rows = Rows::new(alloc);
    push_fronts(&mut rows, v, td)?;
    push_in_groups(&mut rows, t, s, s, group)?;
    push_last(&mut rows, t, s, last)?;
    let blocks = rows.canonical()?;
    Ok(blocks)
}

/// A transversal design whose last group keeps `u` points, with its groups filled, which is a pairwise balanced design on `s` `t` + `u` points.
///
/// `td` has `s` + 1 groups of `t` points, `group` has `t` points, and `last` has `u`; their blocks have `s` or `s` + 1. Where `u` is at most 1 there
/// is no `last`. `s` and `t` are from 2 on, `u` is at most `t`, and `s` `t` + `u` at most `POINTS_MAX`. The answer is `Memory` only for want
/// of memory.
///
/// D. R. Stinson, Combinatorial Designs: Constructions and Analysis (2004), chapter 7; Handbook of Combinatorial Designs (C. J. Colbourn,
/// J. H. Dinitz, eds., 2nd edition, 2007), IV.1.
pub fn truncate_pbd(
    alloc: Global,
    s: u16,
    t: u16,
    u: u16,
    td: &Rows,
    group: &Rows,
    last: Option<&Rows>,
) -> Result<Rows, Memory>
    requires { CanTruncatePbd s t u td.now group.now (option_copied last) }
    ensures blocks { IfOk result (λ rows. rows ≡ canonical (truncated s t u td.now group.now (option_copied last.entry))) }
    ensures design { IfOk result (λ rows. IsPbd rows (s * t + u) s) }
{
    let rows = cut(alloc, s, t, s * t + u, td, group, last)?;
    Ok(rows)
}
