// Orthogonal arrays without one row or two rows.
ghost use Rattle.std.specs.Prelude.{◌≡◌, ◌≢◌, ◌+◌, ◌*◌, ◌<◌, ◌≤◌, ◌++◌, ℕ, [], ◌∷◌, All, IfOk, OnOk, drop, length, map, remove, slice_index, slice_index_or};
ghost use Rattle.design_base.specs.Arrays.{IsOa, IsRow, rows_of_blocks};
ghost use Rattle.design_base.specs.Blocks.{IsTd};
ghost use Rattle.incidence.specs.Packed.{size_of};
ghost use Rattle.wilson.specs.Holes.{first_apart, holed as holed_array, holed_twice as array_holed_twice, renumbered as renumbered_symbol, renumbered_row, renumbered_row_twice, renumbered_twice as symbol_renumbered_twice};

use crate::disjoint::disjoint_from_first;
use design_base::{Memory, PACKED_MAX, TD_K_MAX, TD_N_MAX};
use incidence::{Rows, array_of_td};
use std::alloc::Global;

// `f` becomes `m`, and the other symbols up to `m` become 0 to `m` - 1 in ascending order.
#[tactic(auto, unfolding(crate::specs::Holes::renumbered, counting::specs::Sums::one))]
fn renumbered(m: u16, f: u16, s: u16) -> u16
    ensures { result ≡ renumbered_symbol m f s }
{
    if s == f { m } else { s - u16::from(f < s) }
}

// Appends a row of an array of order `m + 1`, where in each column the symbol of `first` becomes `m`.
#[tactic(auto, using(crate::proofs::Steps::renumbered_row_none))]
fn push_renumbered(
    rows: &mut Rows,
    k: u16,
    m: u16,
    first: &[u16],
    row: &[u16],
) -> Result<(), Memory>
    requires groups { k ≤ TD_K_MAX }
    requires first_row { IsRow k (m + 1) first.now }
    requires row { IsRow k (m + 1) row.now }
    requires room { size_of rows.old + k + 1 < PACKED_MAX }
    ensures ok { OnOk result (rows.new ≡ rows.old ++ renumbered_row k m first.now row.now ∷ []) }
    ensures size { OnOk result (size_of rows.new ≡ size_of rows.old + k + 1) }
{
    let mut entries = [0; TD_K_MAX as usize];
    for j in 0..k as usize {
        entries[j] = renumbered(m, first[j], row[j]);
    }
    rows.push_row(&entries[..k as usize])
}

// The rows of an array of order `m + 1` without the first one, whose symbols become `m`.
#[tactic(auto, using(crate::proofs::Steps::holed_none, crate::proofs::Steps::holed_all))]
fn holed(alloc: Global, k: u16, m: u16, array: &Rows) -> Result<Rows, Memory>
    requires groups { k ≤ TD_K_MAX }
    requires points { m + 1 ≤ TD_N_MAX }
    requires array { IsOa array.now k (m + 1) }
    ensures without { IfOk result (λ rows. rows ≡ holed_array k m array.now) }
    ensures rows { IfOk result (λ rows. All (IsRow k (m + 1)) rows) }
{
    let mut rows = Rows::new(alloc);
    rows.reserve(array.len(), array.len() * usize::from(k))?;
    for i in 1..array.len() {
        push_renumbered(&mut rows, k, m, array.row(0), array.row(i))?;
    }
    Ok(rows)
}

// The array of a transversal design with groups of `m + 1` points, without its first row, whose symbols become `m`.
pub(crate) fn holed_of_td(alloc: Global, k: u16, m: u16, td: &Rows) -> Result<Rows, Memory>
    requires two_groups { 2 ≤ k }
    requires groups { k ≤ TD_K_MAX }
    requires points { m + 1 ≤ TD_N_MAX }
    requires design { IsTd td.now k (m + 1) }
    ensures without { IfOk result (λ rows. rows ≡ holed_array k m (rows_of_blocks (m + 1) td.now)) }
    ensures rows { IfOk result (λ rows. All (IsRow k (m + 1)) rows) }
{
    let array = array_of_td(alloc, k, m + 1, td)?;
    let rows = holed(alloc, k, m, &array)?;
    Ok(rows)
}

// `f` becomes `m`, `e` becomes `m + 1`, and the other symbols up to `m + 1` become 0 to `m` - 1 in ascending order.
#[tactic(auto, unfolding(crate::specs::Holes::renumbered_twice, counting::specs::Sums::one))]
fn renumbered_twice(m: u16, f: u16, e: u16, s: u16) -> u16
    requires room { m < 65_535 }
    requires apart { f ≢ e }
    ensures { result ≡ symbol_renumbered_twice m f e s }
{
    if s == f {
        m
    } else if s == e {
        m + 1
    } else {
        s - u16::from(f < s) - u16::from(e < s)
    }
}

// Appends a row of an array of order `m + 2`, where in each column the symbol of `first` becomes `m` and that of `apart`
// becomes `m + 1`.
#[tactic(auto, using(crate::proofs::Steps::renumbered_row_twice_none))]
fn push_renumbered_twice(
    rows: &mut Rows,
    k: u16,
    m: u16,
    first: &[u16],
    apart: &[u16],
    row: &[u16],
) -> Result<(), Memory>
    requires groups { k ≤ TD_K_MAX }
    requires points { m ≤ TD_N_MAX }
    requires first_row { IsRow k (m + 2) first.now }
    requires apart_row { IsRow k (m + 2) apart.now }
    requires apart { (j : ℕ) → j < k → slice_index first.now j ≢ slice_index apart.now j }
    requires row { IsRow k (m + 2) row.now }
    requires room { size_of rows.old + k + 1 < PACKED_MAX }
    ensures ok { OnOk result (rows.new ≡ rows.old ++ renumbered_row_twice k m first.now apart.now row.now ∷ []) }
    ensures size { OnOk result (size_of rows.new ≡ size_of rows.old + k + 1) }
{
    let mut entries = [0; TD_K_MAX as usize];
    for j in 0..k as usize {
        entries[j] = renumbered_twice(m, first[j], apart[j], row[j]);
    }
    rows.push_row(&entries[..k as usize])
}

// The rows of an array of order `m + 2` without the first one, whose symbols become `m`, and without the one at place `e`,
// whose symbols become `m + 1`.
#[tactic(auto, using(crate::proofs::Steps::others_renumbered_none))]
fn without_two(alloc: Global, k: u16, m: u16, e: usize, array: &Rows) -> Result<Rows, Memory>
    requires groups { k ≤ TD_K_MAX }
    requires points { m ≤ TD_N_MAX }
    requires second { 1 ≤ e }
    requires within { e < length array.now }
    requires few { length array.now ≤ TD_N_MAX * TD_N_MAX }
    requires rows { All (IsRow k (m + 2)) array.now }
    requires apart { (j : ℕ) → j < k → slice_index (slice_index_or array.now 0 []) j ≢ slice_index (slice_index_or array.now e []) j }
    ensures { IfOk result (λ rows. rows ≡ map (renumbered_row_twice k m (slice_index_or array.now 0 []) (slice_index_or array.now e [])) (drop 1 (remove array.now e))) }
{
    let mut rows = Rows::new(alloc);
    rows.reserve(array.len(), array.len() * usize::from(k))?;
    for i in 1..array.len() {
        if i != e {
            push_renumbered_twice(&mut rows, k, m, array.row(0), array.row(e), array.row(i))?;
        }
    }
    Ok(rows)
}

// The rows of an array of order `m + 2` without the first one, whose symbols become `m`, and without the first one that
// differs from it in every column, whose symbols become `m + 1`. The place of the latter is `e`.
fn holed_twice(alloc: Global, k: u16, m: u16, e: usize, array: &Rows) -> Result<Rows, Memory>
    requires two_groups { 2 ≤ k }
    requires groups { k ≤ TD_K_MAX }
    requires few_groups { k ≤ m + 2 }
    requires points { m + 2 ≤ TD_N_MAX }
    requires array { IsOa array.now k (m + 2) }
    requires apart { e ≡ first_apart k array.now }
    ensures without { IfOk result (λ rows. rows ≡ array_holed_twice k m array.now) }
    ensures rows { IfOk result (λ rows. All (IsRow k (m + 2)) rows) }
{
    let rows = without_two(alloc, k, m, e, array)?;
    Ok(rows)
}

// The array of a transversal design with groups of `m + 2` points, without its first row, whose symbols become `m`, and
// without the first one that differs from it in every column, whose symbols become `m + 1`.
pub(crate) fn holed_twice_of_td(alloc: Global, k: u16, m: u16, td: &Rows) -> Result<Rows, Memory>
    requires two_groups { 2 ≤ k }
    requires groups { k ≤ TD_K_MAX }
    requires few_groups { k ≤ m + 2 }
    requires points { m + 2 ≤ TD_N_MAX }
    requires design { IsTd td.now k (m + 2) }
    ensures without { IfOk result (λ rows. rows ≡ array_holed_twice k m (rows_of_blocks (m + 2) td.now)) }
    ensures rows { IfOk result (λ rows. All (IsRow k (m + 2)) rows) }
{
    let apart = disjoint_from_first(td).unwrap();
    let array = array_of_td(alloc, k, m + 2, td)?;
    let rows = holed_twice(alloc, k, m, apart, &array)?;
    Ok(rows)
}
