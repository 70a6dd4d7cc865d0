// The blocks of a design replaced by the blocks of ingredients.
ghost use Rattle.std.specs.Prelude.{◌≡◌, ◌+◌, ◌*◌, ◌-◌, ◌<◌, ◌≤◌, ◌++◌, All, IfOk, OnOk, length};
ghost use Rattle.design_base.specs.Blocks.{IsBibd, IsGdd};
ghost use Rattle.design_base.specs.Canonical.{canonical};
ghost use Rattle.incidence.specs.Packed.{size_of};
ghost use Rattle.gdd_pbd.specs.Conditions.{CanPbdToBibd, CanWeight};
ghost use Rattle.gdd_pbd.specs.Room.{CanReplace, most_blocks, most_size};
ghost use Rattle.gdd_pbd.specs.Filling.{groups_of, place_by, rename};
ghost use Rattle.gdd_pbd.specs.FromPbd.{from_pbd};
ghost use Rattle.gdd_pbd.specs.Basic.{whole_blocks};
ghost use Rattle.gdd_pbd.specs.Weighting.{chosen, weight as weight_of, weighted as weighted_by};

use crate::basic::push_whole;
use crate::deletions::without_last;
use crate::pieces::{push_copies, push_in_groups};
use design_base::{Memory, PACKED_MAX, POINTS_MAX};
use incidence::Rows;
use std::alloc::Global;

// The first ingredient for blocks of s points, and the second for all others.
#[tactic(auto, using(crate::proofs::Steps::steps))]
fn choose<'a>(s: u16, small: &'a Rows, large: &'a Rows, z: usize) -> &'a Rows
    ensures { result.now ≡ chosen s small.now large.now z }
{
    if z == usize::from(s) { small } else { large }
}

// Appends the blocks of an ingredient over the groups of the points of a block.
#[tactic(auto, using(crate::proofs::WeightingNeeds::chosen_size))]
fn push_over(
    rows: &mut Rows,
    w: u16,
    s: u16,
    small: &Rows,
    large: &Rows,
    block: &[u16],
) -> Result<(), Memory>
    requires weight { (0 < w) × (w ≤ POINTS_MAX) }
    requires replace { CanReplace w s small.now large.now block.now }
    requires sizes { (size_of small.now ≤ most_size) × (size_of large.now ≤ most_size) }
    requires room { size_of rows.old + most_size < PACKED_MAX }
    ensures ok { OnOk result (rows.new ≡ rows.old ++ rename (place_by w block.now) (chosen s small.now large.now (length block.now))) }
    ensures size { OnOk result (size_of rows.new ≤ size_of rows.old + most_size) }
{
    let ingredient = choose(s, small, large, block.len());
    push_copies(rows, w, block, ingredient)
}

// Appends for each block of a design the blocks of its ingredient.
#[tactic(auto, using(crate::proofs::Steps::steps), unfolding(crate::specs::Weighting::weighted))]
fn push_weighted(
    rows: &mut Rows,
    w: u16,
    s: u16,
    small: &Rows,
    large: &Rows,
    master: &Rows,
) -> Result<(), Memory>
    requires weight { (0 < w) × (w ≤ POINTS_MAX) }
    requires replace { All (CanReplace w s small.now large.now) master.now }
    requires sizes { (size_of small.now ≤ most_size) × (size_of large.now ≤ most_size) }
    requires room { size_of rows.old + most_size * length master.now < PACKED_MAX }
    ensures ok { OnOk result (rows.new ≡ rows.old ++ weighted_by w (chosen s small.now large.now) master.now) }
    ensures size { OnOk result (size_of rows.new ≤ size_of rows.old + most_size * length master.now) }
{
    for block in master.iter() {
        push_over(rows, w, s, small, large, block)?;
    }
    Ok(())
}

// The list with two ingredients.
#[tactic(auto, using(crate::proofs::Steps::steps))]
fn weighted(
    alloc: Global,
    w: u16,
    s: u16,
    small: &Rows,
    large: &Rows,
    master: &Rows,
) -> Result<Rows, Memory>
    requires weight { (0 < w) × (w ≤ POINTS_MAX) }
    requires replace { All (CanReplace w s small.now large.now) master.now }
    requires sizes { (size_of small.now ≤ most_size) × (size_of large.now ≤ most_size) }
    requires count { length master.now ≤ most_blocks }
    ensures blocks { IfOk result (λ rows. rows ≡ weighted_by w (chosen s small.now large.now) master.now) }
    ensures size { IfOk result (λ rows. size_of rows ≤ most_size * most_blocks) }
{
    let mut rows = Rows::new(alloc);
    push_weighted(&mut rows, w, s, small, large, master)?;
    Ok(rows)
}

// The same with one ingredient, in canonical form.
fn weighted_by_one(
    alloc: Global,
    w: u16,
    s: u16,
    ingredient: &Rows,
    master: &Rows,
) -> Result<Rows, Memory>
    requires weight { (0 < w) × (w ≤ POINTS_MAX) }
    requires replace { All (CanReplace w s ingredient.now ingredient.now) master.now }
    requires size { size_of ingredient.now ≤ most_size }
    requires count { length master.now ≤ most_blocks }
    ensures { IfOk result (λ rows. rows ≡ canonical (weighted_by w (chosen s ingredient.now ingredient.now) master.now)) }
{
    let rows = weighted(alloc, w, s, ingredient, ingredient, master)?;
    let blocks = rows.canonical()?;
    Ok(blocks)
}

/// Wilson's fundamental construction, with one weight: each point of `master` becomes `w` points, and each block the blocks of `ingredient` on those of its
/// points, which is a group divisible design with `u` groups of `g` points.
///
/// `master` has `u` groups of `g` / `w` points and blocks of `s` points, from 2 on; `ingredient` has `s` groups of `w` points and blocks of
/// `k` points, from 2 on. `w` is from 1 on and divides `g`, and `g` `u` and `w` `s` are at most `POINTS_MAX`. The answer is `Memory` only for
/// want of memory.
///
/// R. M. Wilson, An existence theory for pairwise balanced designs I: composition theorems and morphisms, Journal of Combinatorial
/// Theory A 13 (1972); D. R. Stinson, Combinatorial Designs: Constructions and Analysis (2004), chapter 7.
pub fn weight(
    alloc: Global,
    k: u16,
    g: u16,
    u: u16,
    w: u16,
    s: u16,
    master: &Rows,
    ingredient: &Rows,
) -> Result<Rows, Memory>
    requires { CanWeight k g u w s master.now ingredient.now }
    ensures blocks { IfOk result (λ rows. rows ≡ canonical (weight_of w master.now ingredient.now)) }
    ensures design { IfOk result (λ rows. IsGdd rows k g u) }
{
    let rows = weighted_by_one(alloc, w, s, ingredient, master)?;
    Ok(rows)
}

// The block of w + 1 points.
#[tactic(auto, using(crate::proofs::Steps::steps))]
fn line(alloc: Global, w: u16) -> Result<Rows, Memory>
    requires { w + 1 ≤ POINTS_MAX }
    ensures blocks { IfOk result (λ rows. rows ≡ whole_blocks (w + 1) 1) }
    ensures size { IfOk result (λ rows. size_of rows ≤ w + 2) }
{
    let mut rows = Rows::new(alloc);
    push_whole(&mut rows, w + 1, 1)?;
    Ok(rows)
}

// The list with two ingredients, and each group with one point more.
#[tactic(auto, using(crate::proofs::Steps::steps, crate::proofs::FromPbdNeeds::line_fits))]
fn extended(
    alloc: Global,
    w: u16,
    n: u16,
    s: u16,
    small: &Rows,
    large: &Rows,
    pbd: &Rows,
) -> Result<Rows, Memory>
    requires weight { (0 < w) × (w + 1 ≤ POINTS_MAX) }
    requires replace { All (CanReplace w s small.now large.now) pbd.now }
    requires sizes { (size_of small.now ≤ most_size) × (size_of large.now ≤ most_size) }
    requires count { length pbd.now ≤ most_blocks }
    requires groups { n * w ≤ POINTS_MAX }
    ensures { IfOk result (λ rows. rows ≡ canonical (weighted_by w (chosen s small.now large.now) pbd.now ++ groups_of w n (whole_blocks (w + 1) 1) n)) }
{
    let block = line(alloc, w)?;
    let mut rows = weighted(alloc, w, s, small, large, pbd)?;
    push_in_groups(&mut rows, w, n, n, &block)?;
    let blocks = rows.canonical()?;
    Ok(blocks)
}

/// A pairwise balanced design whose points become `k` - 1 points each, which is a block design on (`k` - 1) `n` + 1 points.
///
/// A block of `s` points becomes the blocks of `small` without its last point and the blocks through it, a block of `s` + 1 points those of
/// `large`; and what each point became is, with one point more, a block. `pbd` has `n` points, from 1 on, and `s` is from 2 on; `small` has
/// (`k` - 1) `s` + 1 points and `large` (`k` - 1) (`s` + 1) + 1, and blocks have `k`, from 2 on. The design and `large` have at most
/// `POINTS_MAX` points. The answer is `Memory` only for want of memory.
///
/// R. M. Wilson, An existence theory for pairwise balanced designs I: composition theorems and morphisms, Journal of Combinatorial
/// Theory A 13 (1972); D. R. Stinson, Combinatorial Designs: Constructions and Analysis (2004), chapter 7.
pub fn pbd_to_bibd(
    alloc: Global,
    n: u16,
    s: u16,
    k: u16,
    pbd: &Rows,
    small: &Rows,
    large: &Rows,
) -> Result<Rows, Memory>
    requires { CanPbdToBibd n s k pbd.now small.now large.now }
    ensures blocks { IfOk result (λ rows. rows ≡ canonical (from_pbd (k - 1) n s pbd.now small.now large.now)) }
    ensures design { IfOk result (λ rows. IsBibd rows ((k - 1) * n + 1) k 1) }
{
    let first = without_last(alloc, k - 1, s, small)?;
    let second = without_last(alloc, k - 1, s + 1, large)?;
    let rows = extended(alloc, k - 1, n, s, &first, &second, pbd)?;
    Ok(rows)
}
