// The groups of a design filled with the blocks of another.
ghost use Rattle.std.specs.Prelude.{◌≡◌, ◌+◌, ◌*◌, ◌/◌, ◌++◌, IfOk};
ghost use Rattle.design_base.specs.Blocks.{IsBibd, IsGdd, IsPbd};
ghost use Rattle.design_base.specs.Canonical.{canonical};
ghost use Rattle.gdd_pbd.specs.Conditions.{CanFill, CanTdFill, CanTdFillWithPoint, CanFillWithPoint, CanSplit};
ghost use Rattle.gdd_pbd.specs.Room.{CanFillGroups};
ghost use Rattle.gdd_pbd.specs.Filling.{fill as fill_of, fill_with_point as fill_with_point_of, groups_of};

use crate::pieces::push_in_groups;
use design_base::Memory;
use incidence::Rows;
use std::alloc::Global;

// The blocks of a list, and in each of u groups of g points, with the first point after them, the blocks of a design.
#[tactic(auto, using(crate::proofs::Steps::steps))]
fn filled(alloc: Global, g: u16, u: u16, master: &Rows, design: &Rows) -> Result<Rows, Memory>
    requires { CanFillGroups g u master.now design.now }
    ensures { IfOk result (λ rows. rows ≡ canonical (master.now ++ groups_of g u design.now u)) }
{
    let mut rows = Rows::new(alloc);
    rows.push_all(master)?;
    push_in_groups(&mut rows, g, u, u, design)?;
    let blocks = rows.canonical()?;
    Ok(blocks)
}

/// A group divisible design whose groups are filled with a block design, which is a block design on `g` `u` points.
///
/// `gdd` has `u` groups of `g` points, both from 1 on, and `design` has `g` points; blocks have `k` points, from 2 on. `g` `u` is at most
/// `POINTS_MAX`. The answer is `Memory` only for want of memory.
///
/// D. R. Stinson, Combinatorial Designs: Constructions and Analysis (2004), chapter 7; Handbook of Combinatorial Designs (C. J. Colbourn,
/// J. H. Dinitz, eds., 2nd edition, 2007), IV.4.
pub fn fill(
    alloc: Global,
    k: u16,
    g: u16,
    u: u16,
    gdd: &Rows,
    design: &Rows,
) -> Result<Rows, Memory>
    requires { CanFill k g u gdd.now design.now }
    ensures blocks { IfOk result (λ rows. rows ≡ canonical (fill_of g u gdd.now design.now)) }
    ensures design { IfOk result (λ rows. IsBibd rows (g * u) k 1) }
{
    let rows = filled(alloc, g, u, gdd, design)?;
    Ok(rows)
}

/// A group divisible design whose groups are filled, together with one point more, with a block design, which is a block design on
/// `g` `u` + 1 points.
///
/// `gdd` has `u` groups of `g` points, both from 1 on, and `design` has `g` + 1 points, the last of which becomes the point more; blocks have
/// `k` points, from 2 on. `g` `u` + 1 is at most `POINTS_MAX`. The answer is `Memory` only for want of memory.
///
/// D. R. Stinson, Combinatorial Designs: Constructions and Analysis (2004), chapter 7.
pub fn fill_with_point(
    alloc: Global,
    k: u16,
    g: u16,
    u: u16,
    gdd: &Rows,
    design: &Rows,
) -> Result<Rows, Memory>
    requires { CanFillWithPoint k g u gdd.now design.now }
    ensures blocks { IfOk result (λ rows. rows ≡ canonical (fill_with_point_of g u gdd.now design.now)) }
    ensures design { IfOk result (λ rows. IsBibd rows (g * u + 1) k 1) }
{
    let rows = filled(alloc, g, u, gdd, design)?;
    Ok(rows)
}

/// A group divisible design whose groups are split, by filling each with a smaller one, which is a group divisible design with `u` groups of
/// `g` points.
///
/// `master` has `u` / `c` groups of `g` `c` points, and `filler` `c` groups of `g` points; blocks have `k` points, from 2 on. `g` and `u` are
/// from 1 on, `c` divides `u`, and `g` `u` is at most `POINTS_MAX`. The answer is `Memory` only for want of memory.
///
/// Handbook of Combinatorial Designs (C. J. Colbourn, J. H. Dinitz, eds., 2nd edition, 2007), IV.4.
pub fn split(
    alloc: Global,
    k: u16,
    g: u16,
    u: u16,
    c: u16,
    master: &Rows,
    filler: &Rows,
) -> Result<Rows, Memory>
    requires { CanSplit k g u c master.now filler.now }
    ensures blocks { IfOk result (λ rows. rows ≡ canonical (fill_of (g * c) (u / c) master.now filler.now)) }
    ensures design { IfOk result (λ rows. IsGdd rows k g u) }
{
    let rows = filled(alloc, g * c, u / c, master, filler)?;
    Ok(rows)
}

/// A transversal design whose groups are filled with a pairwise balanced design, which is a pairwise balanced design on `s` `t` points.
///
/// `td` has `s` groups of `t` points, and `group` has `t` points and blocks of `s` or `s` + 1. `s` is from 2 and `t` from 1 on, and `s` `t` is at
/// most `POINTS_MAX`. The answer is `Memory` only for want of memory.
///
/// D. R. Stinson, Combinatorial Designs: Constructions and Analysis (2004), chapter 7.
pub fn td_fill(alloc: Global, s: u16, t: u16, td: &Rows, group: &Rows) -> Result<Rows, Memory>
    requires { CanTdFill s t td.now group.now }
    ensures blocks { IfOk result (λ rows. rows ≡ canonical (fill_of t s td.now group.now)) }
    ensures design { IfOk result (λ rows. IsPbd rows (s * t) s) }
{
    let rows = filled(alloc, t, s, td, group)?;
    Ok(rows)
}

/// A transversal design whose groups are filled, together with one point more, with a pairwise balanced design, which is a pairwise balanced
/// design on `c` `t` + 1 points.
///
/// `td` has `c` groups of `t` points, and `group` has `t` + 1 points, the last of which becomes the point more, and blocks of `s` or `s` + 1.
/// `c` is `s` or `s` + 1, `s` is from 2 and `t` from 1 on, and `c` `t` + 1 is at most `POINTS_MAX`. The answer is `Memory` only for want of
/// memory.
///
/// D. R. Stinson, Combinatorial Designs: Constructions and Analysis (2004), chapter 7.
pub fn td_fill_with_point(
    alloc: Global,
    s: u16,
    c: u16,
    t: u16,
    td: &Rows,
    group: &Rows,
) -> Result<Rows, Memory>
    requires { CanTdFillWithPoint s c t td.now group.now }
    ensures blocks { IfOk result (λ rows. rows ≡ canonical (fill_with_point_of t c td.now group.now)) }
    ensures design { IfOk result (λ rows. IsPbd rows (c * t + 1) s) }
{
    let rows = filled(alloc, t, c, td, group)?;
    Ok(rows)
}
