// Lines of an input that are no rows of an array or of squares.
ghost use Rattle.std.specs.Prelude.{◌≡◌, ◌+◌, ◌<◌, ◌^◌, nat_lt, take};
ghost use Rattle.std.specs.List.{list_all};
ghost use Rattle.arrays.specs.Lines.{bad_count as bad_count_of, bad_line as bad_line_of, bad_row as bad_row_of, is_row as is_row_of};

use incidence::Rows;

// Whether each symbol is below `n`.
fn are_below(n: u16, line: &[u16]) -> bool
    ensures { result ≡ list_all (λ a. nat_lt a n) line.now }
{
    line.iter().all(|a| *a < n)
}

// Whether the line has `k` symbols, each below `n`.
#[tactic(auto, unfolding(crate::specs::Lines::is_row))]
fn is_row(k: u16, n: u16, line: &[u16]) -> bool
    ensures { result ≡ is_row_of k n line.now }
{
    line.len() == usize::from(k) && are_below(n, line)
}

// The first of the `wanted` lines at the front that has not `k` symbols below `n`, counted from 1.
#[tactic(auto, using(crate::proofs::Shapes::bad_row_none))]
pub(crate) fn bad_row(k: u16, n: u16, lines: &Rows, wanted: usize) -> Option<u32>
    ensures { result ≡ bad_row_of k n (take wanted lines.now) }
{
    for i in 0..lines.len().min(wanted) {
        if !is_row(k, n, lines.row(i)) {
            return Some(i as u32 + 1);
        }
    }
    None
}

// The first line that is missing or surplus, counted from 1.
#[tactic(auto, unfolding(crate::specs::Lines::bad_count))]
fn bad_count(wanted: usize, count: usize) -> Option<u32>
    requires { count + 1 < 2 ^ 32 }
    ensures { result ≡ bad_count_of wanted count }
{
    (count != wanted).then_some(count.min(wanted) as u32 + 1)
}

// The first bad line of `m` squares of order `n`, counted from 1.
#[tactic(auto, unfolding(crate::specs::Lines::bad_line))]
pub(crate) fn bad_line(m: u16, n: u16, lines: &Rows) -> Option<u32>
    ensures { result ≡ bad_line_of m n lines.now }
{
    let wanted = usize::from(m) * usize::from(n);
    bad_row(n, n, lines, wanted).or(bad_count(wanted, lines.len()))
}
