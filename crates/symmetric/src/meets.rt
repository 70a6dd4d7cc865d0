// In how many points two blocks meet.
ghost use Rattle.std.specs.Prelude.{◌<◌, ◌≡◌, ◌≢◌, ◌^◌, [], length, slice_index_or};
ghost use Rattle.block_counts.specs.Counts.{meet as meet_of};
ghost use Rattle.symmetric.specs.Symmetric.{IsSymmetric};

use incidence::Rows;

// How many points of `a` are in `b`.
#[tactic(auto, unfolding(design_base::specs::Blocks::holds, block_counts::specs::Counts::meet))]
fn count_common(a: &[u16], b: &[u16]) -> u16
    requires { length a.now < 2 ^ 16 }
    ensures { result ≡ meet_of a.now b.now }
{
    a.iter().filter(|x| b.contains(*x)).count() as u16
}

/// In how many points the blocks at places `i` and `j`, from 0, meet. It is `l` (H. J. Ryser, A note on a combinatorial problem,
/// 1950).
///
/// The rows are a symmetric design: any two of `v` points stand together in `l` blocks of `k` points, and l * (v - 1) is
/// k * (k - 1). A block may stand in them more than once. There are as many blocks as points. The places are different.
#[tactic(auto, using(crate::proofs::EqualMeets::places, crate::proofs::SmallerDesigns::block_size))]
pub fn meet(rows: &Rows, v: u16, k: u16, l: u16, i: usize, j: usize) -> u16
    requires design { IsSymmetric rows.now v k l }
    requires first { i < v }
    requires second { j < v }
    requires apart { i ≢ j }
    ensures common { result ≡ meet_of (slice_index_or rows.now i []) (slice_index_or rows.now j []) }
    ensures equal { result ≡ l }
    ensures places { length rows.now ≡ v }
{
    count_common(rows.row(i), rows.row(j))
}
