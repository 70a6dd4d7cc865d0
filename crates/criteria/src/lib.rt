//! Criteria by which no design exists.
#![tactic(auto)]

ghost use Rattle.std.specs.Prelude.{◌≡◌, List, ℕ, Some, IsSome, true};
ghost use Rattle.criteria.specs.Criteria.{criterion_of, numbers_of};
ghost use Rattle.design_base.specs.Limits.{in_bounds};
ghost use Rattle.design_base.specs.Meets.{Meets};

mod table;
#[cfg(test)]
mod tests;

use crate::table::decisive;
use design_base::{Criterion, Query};

// The first criterion that applies.
fn first_criterion(q: &Query) -> Option<Criterion>
    requires { in_bounds q.now ≡ true }
    ensures { result ≡ criterion_of q.now }
{
    decisive(q).map(|row| row.criterion)
}

/// The first criterion that applies to the question, or None where none applies. The question is in bounds. Where a
/// criterion applies, no block list is a design that the question asks for: one that was would break what every design
/// obeys. That is, in the order in which the criteria are tried:
///
/// - Block designs. `Replication`: k - 1 divides l(v-1), since each point stands in r = l(v-1)/(k-1) blocks. `Count`: k
///   divides vr, since there are vr/k blocks. `Fisher`: r is at least k where k is below v.
/// - Transversal designs. `Groups`: k is at most n + 1 where n is at least 2.
/// - Group divisible designs. `FewGroups`: u is at least k. `Groups`: k is at most g + 1 where u is k and g is at least 2.
///   `GroupReplication`: k - 1 divides g(u-1). `GroupCount`: k(k-1) divides ggu(u-1).
/// - Difference families. `Differences`: k(k-1) divides l(v-1).
/// - Pairwise balanced designs. `Points`: v - 1 is at most s times (v-1)/(s-1) rounded down, since the blocks through one
///   point cut the others into parts of s - 1 or s points.
///
/// (D. R. Stinson, Combinatorial Designs, 2004; Handbook of Combinatorial Designs, 2nd edition, 2007.)
#[tactic(auto, using(crate::proofs::Laws::criterion_law))]
pub fn criterion(q: &Query) -> Option<Criterion>
    requires bounds { in_bounds q.now ≡ true }
    ensures value { result ≡ criterion_of q.now }
    ensures law { IsSome result → (B : List (List ℕ)) → ¬ Meets q.now B }
{
    first_criterion(q)
}

/// The two numbers that the question's criterion compares. The question is in bounds, and `c` is its criterion.
///
/// | criterion | numbers |
/// |---|---|
/// | Replication | l(v-1), k-1 |
/// | Count | vr, k |
/// | Fisher | r, k |
/// | Groups | k, and n+1 or g+1 |
/// | FewGroups | u, k |
/// | GroupReplication | g(u-1), k-1 |
/// | GroupCount | ggu(u-1), k(k-1) |
/// | Differences | l(v-1), k(k-1) |
/// | Points | v-1, and s times (v-1)/(s-1) rounded down |
pub fn numbers(q: &Query, c: &Criterion) -> (u32, u32)
    requires bounds { in_bounds q.now ≡ true }
    requires applies { criterion_of q.now ≡ Some c.now }
    ensures { numbers_of q.now ≡ Some result }
{
    match decisive(q) {
        Some(row) if row.criterion == *c => (row.first, row.second),
        _ => unreachable!(),
    }
}
