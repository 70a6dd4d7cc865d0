//! Blocks one at a time.
ghost use Rattle.std.specs.Prelude.{◌≡◌, ◌<◌, IfSome, length, nat_lt, not, position};
ghost use Rattle.std.specs.List.{list_all};
ghost use Rattle.design_base.specs.Limits.{within};
ghost use Rattle.design_base.specs.declared.limits.TheConstants.{PACKED_MAX};
ghost use Rattle.design_checks.specs.Findings.{is_block as is_block_of, rises as is_increasing};

use incidence::Rows;

// Whether each number is below the next.
fn rises(row: &[u16]) -> bool
    ensures { result ≡ is_increasing row.now }
{
    row.is_sorted_by(|x, y| x < y)
}

// Whether each number is a point of v.
fn are_points(row: &[u16], v: u16) -> bool
    ensures { result ≡ list_all (λ x. nat_lt x v) row.now }
{
    row.iter().all(|x| *x < v)
}

// Whether the row has a length from `least` to `most`.
fn has_size(row: &[u16], least: u16, most: u16) -> bool
    ensures { result ≡ within least most (length row.now) }
{
    usize::from(least) <= row.len() && row.len() <= usize::from(most)
}

// Whether the row is a block of `least` to `most` of v points.
fn is_block(row: &[u16], v: u16, least: u16, most: u16) -> bool
    ensures { result ≡ is_block_of v least most row.now }
{
    rises(row) && are_points(row, v) && has_size(row, least, most)
}

/// The place, from 0, of the first row that is no block of `least` to `most` of v points.
pub(crate) fn first_bad_block(rows: &Rows, v: u16, least: u16, most: u16) -> Option<usize>
    ensures found { result ≡ position (λ row. not (is_block_of v least most row)) rows.now }
    ensures small { IfSome result (λ i. i < PACKED_MAX) }
{
    rows.iter().position(|row| !is_block(row, v, least, most))
}
