// Master rows filled with the rows of an ingredient.
ghost use Rattle.std.specs.Prelude.{◌≡◌, ◌+◌, ◌*◌, ◌<◌, ◌≤◌, ◌++◌, [], ◌∷◌, All, OnOk, flat_map, length};
ghost use Rattle.design_base.specs.Arrays.{IsRow, blocks_of_rows};
ghost use Rattle.incidence.specs.Packed.{size_of};
ghost use Rattle.wilson.specs.Truncations.{fill_one, fill_two, filled as filled_symbol, filled_row, filled_rows};

use design_base::{Memory, PACKED_MAX, TD_K_MAX, TD_N_MAX};
use incidence::{Rows, push_block};

// The numbers of a construction with one truncated group: the ingredients have groups of `m` points, the master has groups of
// `t` points, and its last group keeps `u` of them.
#[derive(Clone, Copy)]
pub(crate) struct OneTruncation {
    pub(crate) m: u16,
    pub(crate) t: u16,
    pub(crate) u: u16,
}

// The same with two truncated groups, of which the first keeps `u` points and the second `w`.
#[derive(Clone, Copy)]
pub(crate) struct TwoTruncations {
    pub(crate) m: u16,
    pub(crate) t: u16,
    pub(crate) u: u16,
    pub(crate) w: u16,
}

// A symbol `s` below `m` gives the point `x * m + s`, and the symbols from `m` on give the infinite points in their order.
#[tactic(auto, unfolding(crate::specs::Truncations::filled))]
fn filled(m: u16, infinite: &[u16], x: u16, s: u16) -> u16
    requires within { s < m + length infinite.now }
    requires small { x * m + m ≤ TD_N_MAX }
    ensures { result ≡ filled_symbol m infinite.now x s }
{
    if s < m {
        x * m + s
    } else {
        infinite[usize::from(s - m)]
    }
}

// Appends the block of one row of an ingredient, put on the points of the master row and on infinite points.
#[tactic(auto, using(crate::proofs::Steps::filled_row_none))]
fn push_filled_row(
    rows: &mut Rows,
    k: u16,
    n: u16,
    m: u16,
    infinite: &[u16],
    master: &[u16],
    row: &[u16],
) -> Result<(), Memory>
    requires groups { k ≤ TD_K_MAX }
    requires points { n ≤ TD_N_MAX }
    requires infinite_points { All (λ p. p < n) infinite.now }
    requires columns { k ≤ length master.now }
    requires master_points { All (λ x. x * m + m ≤ n) master.now }
    requires row { IsRow k (m + length infinite.now) row.now }
    requires room { size_of rows.old + k + 1 < PACKED_MAX }
    ensures { OnOk result (rows.new ≡ rows.old ++ blocks_of_rows k n (filled_row k m infinite.now master.now row.now ∷ [])) }
{
    let mut entries = [0; TD_K_MAX as usize];
    for j in 0..k as usize {
        entries[j] = filled(m, infinite, master[j], row[j]);
    }
    push_block(rows, k, n, &entries[..k as usize])
}

// Appends the blocks of all rows of an ingredient, put on the points of the master row and on infinite points.
#[tactic(auto, using(crate::proofs::Steps::steps))]
fn push_filled(
    rows: &mut Rows,
    k: u16,
    n: u16,
    m: u16,
    infinite: &[u16],
    master: &[u16],
    ingredient: &Rows,
) -> Result<(), Memory>
    requires groups { k ≤ TD_K_MAX }
    requires points { n ≤ TD_N_MAX }
    requires infinite_points { All (λ p. p < n) infinite.now }
    requires columns { k ≤ length master.now }
    requires master_points { All (λ x. x * m + m ≤ n) master.now }
    requires rows { All (IsRow k (m + length infinite.now)) ingredient.now }
    requires room { size_of rows.old + (k + 1) * length ingredient.now < PACKED_MAX }
    ensures { OnOk result (rows.new ≡ rows.old ++ blocks_of_rows k n (filled_rows k m infinite.now master.now ingredient.now)) }
{
    for row in ingredient.iter() {
        push_filled_row(rows, k, n, m, infinite, master, row)?;
    }
    Ok(())
}

// Appends the blocks for one master row with column `k` truncated to `u` symbols.
#[tactic(auto, using(crate::proofs::Steps::fill_one_kept, crate::proofs::Steps::fill_one_dropped, crate::proofs::Steps::filled_rows_length))]
fn push_fill_one(
    rows: &mut Rows,
    k: u16,
    cut: OneTruncation,
    small: &Rows,
    large: &Rows,
    master: &[u16],
) -> Result<(), Memory>
    requires groups { k ≤ TD_K_MAX }
    requires points { cut.m * cut.t + cut.u ≤ TD_N_MAX }
    requires small_rows { All (IsRow k cut.m) small.now }
    requires large_rows { All (IsRow k (cut.m + 1)) large.now }
    requires master_row { IsRow (k + 1) cut.t master.now }
    requires room { size_of rows.old + (k + 1) * length (fill_one k cut.m cut.t cut.u small.now large.now master.now) < PACKED_MAX }
    ensures { OnOk result (rows.new ≡ rows.old ++ blocks_of_rows k (cut.m * cut.t + cut.u) (fill_one k cut.m cut.t cut.u small.now large.now master.now)) }
{
    let n = cut.m * cut.t + cut.u;
    let y = master[usize::from(k)];
    if y < cut.u {
        push_filled(rows, k, n, cut.m, &[cut.m * cut.t + y], master, large)
    } else {
        push_filled(rows, k, n, cut.m, &[], master, small)
    }
}

// Appends the blocks for all master rows with column `k` truncated to `u` symbols.
#[tactic(auto, using(crate::proofs::Steps::steps))]
pub(crate) fn push_fills_one(
    rows: &mut Rows,
    k: u16,
    cut: OneTruncation,
    small: &Rows,
    large: &Rows,
    master: &Rows,
) -> Result<(), Memory>
    requires groups { k ≤ TD_K_MAX }
    requires points { cut.m * cut.t + cut.u ≤ TD_N_MAX }
    requires small_rows { All (IsRow k cut.m) small.now }
    requires large_rows { All (IsRow k (cut.m + 1)) large.now }
    requires master_rows { All (IsRow (k + 1) cut.t) master.now }
    requires room { size_of rows.old + (k + 1) * length (flat_map (fill_one k cut.m cut.t cut.u small.now large.now) master.now) < PACKED_MAX }
    ensures { OnOk result (rows.new ≡ rows.old ++ blocks_of_rows k (cut.m * cut.t + cut.u) (flat_map (fill_one k cut.m cut.t cut.u small.now large.now) master.now)) }
{
    for row in master.iter() {
        push_fill_one(rows, k, cut, small, large, row)?;
    }
    Ok(())
}

// Appends the blocks for one master row with column `k` truncated to `u` symbols and column `k + 1` to `w`.
#[tactic(auto, using(crate::proofs::Steps::fill_two_both, crate::proofs::Steps::fill_two_first, crate::proofs::Steps::fill_two_second, crate::proofs::Steps::fill_two_none, crate::proofs::Steps::filled_rows_length))]
fn push_fill_two(
    rows: &mut Rows,
    k: u16,
    cut: TwoTruncations,
    small: &Rows,
    large: &Rows,
    larger: &Rows,
    master: &[u16],
) -> Result<(), Memory>
    requires groups { k ≤ TD_K_MAX }
    requires points { cut.m * cut.t + cut.u + cut.w ≤ TD_N_MAX }
    requires small_rows { All (IsRow k cut.m) small.now }
    requires large_rows { All (IsRow k (cut.m + 1)) large.now }
    requires larger_rows { All (IsRow k (cut.m + 2)) larger.now }
    requires master_row { IsRow (k + 2) cut.t master.now }
    requires room { size_of rows.old + (k + 1) * length (fill_two k cut.m cut.t cut.u cut.w small.now large.now larger.now master.now) < PACKED_MAX }
    ensures { OnOk result (rows.new ≡ rows.old ++ blocks_of_rows k (cut.m * cut.t + cut.u + cut.w) (fill_two k cut.m cut.t cut.u cut.w small.now large.now larger.now master.now)) }
{
    let n = cut.m * cut.t + cut.u + cut.w;
    let y = master[usize::from(k)];
    let z = master[usize::from(k) + 1];
    if y < cut.u {
        if z < cut.w {
            push_filled(
                rows,
                k,
                n,
                cut.m,
                &[cut.m * cut.t + y, cut.m * cut.t + cut.u + z],
                master,
                larger,
            )
        } else {
            push_filled(rows, k, n, cut.m, &[cut.m * cut.t + y], master, large)
        }
    } else if z < cut.w {
        push_filled(
            rows,
            k,
            n,
            cut.m,
            &[cut.m * cut.t + cut.u + z],
            master,
            large,
        )
    } else {
        push_filled(rows, k, n, cut.m, &[], master, small)
    }
}

// Appends the blocks for all master rows with column `k` truncated to `u` symbols and column `k + 1` to `w`.
#[tactic(auto, using(crate::proofs::Steps::steps))]
pub(crate) fn push_fills_two(
    rows: &mut Rows,
    k: u16,
    cut: TwoTruncations,
    small: &Rows,
    large: &Rows,
    larger: &Rows,
    master: &Rows,
) -> Result<(), Memory>
    requires groups { k ≤ TD_K_MAX }
    requires points { cut.m * cut.t + cut.u + cut.w ≤ TD_N_MAX }
    requires small_rows { All (IsRow k cut.m) small.now }
    requires large_rows { All (IsRow k (cut.m + 1)) large.now }
    requires larger_rows { All (IsRow k (cut.m + 2)) larger.now }
    requires master_rows { All (IsRow (k + 2) cut.t) master.now }
    requires room { size_of rows.old + (k + 1) * length (flat_map (fill_two k cut.m cut.t cut.u cut.w small.now large.now larger.now) master.now) < PACKED_MAX }
    ensures { OnOk result (rows.new ≡ rows.old ++ blocks_of_rows k (cut.m * cut.t + cut.u + cut.w) (flat_map (fill_two k cut.m cut.t cut.u cut.w small.now large.now larger.now) master.now)) }
{
    for row in master.iter() {
        push_fill_two(rows, k, cut, small, large, larger, row)?;
    }
    Ok(())
}
