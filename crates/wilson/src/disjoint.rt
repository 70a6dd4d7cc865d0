// Blocks without a common point.
ghost use Rattle.std.specs.Prelude.{◌≡◌, ◌<◌, ◌≤◌, ℕ, IsSome, length, position};
ghost use Rattle.std.specs.List.{list_any};
ghost use Rattle.design_base.specs.Blocks.{IsTd, holds};
ghost use Rattle.wilson.specs.Disjoint.{are_disjoint as are_disjoint_blocks, disjoint_from_first as place_of_disjoint};

use incidence::Rows;

// Whether some point stands in both blocks.
#[tactic(auto, unfolding(design_base::specs::Blocks::holds))]
fn meet(b: &[u16], c: &[u16]) -> bool
    ensures { result ≡ list_any (λ x. holds x c.now) b.now }
{
    b.iter().any(|x| c.contains(x))
}

// Whether no point stands in both blocks.
#[tactic(auto, unfolding(crate::specs::Disjoint::are_disjoint))]
fn are_disjoint(b: &[u16], c: &[u16]) -> bool
    ensures { result ≡ are_disjoint_blocks b.now c.now }
{
    !meet(b, c)
}

// The place of the first row that shares no point with `block`.
fn first_disjoint(block: &[u16], rows: &Rows) -> Option<usize>
    ensures { result ≡ position (λ row. are_disjoint_blocks block.now row) rows.now }
{
    rows.iter().position(|row| are_disjoint(block, row))
}

/// The least place, from 0, of a row that shares no point with the first row, or `None` where there is none.
///
/// There is a row. For a transversal design with at least two points in a group, and with no more groups than points in a
/// group, the answer is never `None`: of its n * n - 1 other blocks, only k * (n - 1) share a point with the first one.
pub fn disjoint_from_first(rows: &Rows) -> Option<usize>
    requires { 0 < length rows.now }
    ensures value { result ≡ place_of_disjoint rows.now }
    ensures found { (k n : ℕ) → 2 ≤ k → 2 ≤ n → k ≤ n → IsTd rows.now k n → IsSome result }
{
    first_disjoint(rows.row(0), rows)
}
