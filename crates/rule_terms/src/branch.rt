ghost use Rattle.std.specs.Prelude.{◌≡◌, ◌<◌, ◌≤◌, ◌-◌, ◌*◌, ◌/◌, [], length};
ghost use Rattle.counting.specs.Division.{divides as divides_it};
ghost use Rattle.design_base.specs.declared.limits.TheConstants.{PREMISES_MAX};
ghost use Rattle.rule_terms.specs.Branches.{IsBranch, IsFew, Takes};
ghost use Rattle.rule_terms.specs.RuleTree.{when◌asks◌};

use design_base::Query;
use smallvec::SmallVec;
use std::alloc::Global;

/// The questions on which a step rests, at most `PREMISES_MAX`, which take no memory.
pub type Premises = SmallVec<Query, 8>;

/// What the table says of a rule behind a prefix of its parameters. The rule `product` at `td 4 12`, say, has first the parameter 2 to 6;
/// behind 3 the parameter 4 to 4; behind 3, 4 no other, and its premises are `td 4 3` and `td 4 4`.
#[derive(Drop)]
pub enum Branch {
    /// A parameter from `low` to `high`.
    Parameter { low: u16, high: u16 },
    /// No parameter is left and the condition holds, with these premises.
    Premises(Premises),
    /// The condition fails.
    Nothing,
}

// No parameter is left: the premises, at most PREMISES_MAX, where the condition holds.
pub(crate) fn when(alloc: Global, condition: bool, premises: &[Query]) -> Branch
    requires { length premises.now ≤ PREMISES_MAX }
    ensures branch { IsBranch (when condition asks premises.now) result }
    ensures few { IsFew result }
{
    if !condition {
        return Branch::Nothing;
    }
    match SmallVec::from_slice(alloc, premises) {
        Ok(list) => Branch::Premises(list),
        // So few take no memory.
        Err(_) => unreachable!(),
    }
}

// A parameter in a range.
pub(crate) fn range(low: u16, high: u16) -> Branch
    ensures { Takes low high result }
{
    Branch::Parameter { low, high }
}

// A parameter that is given by the others.
pub(crate) fn single(x: u16) -> Branch
    ensures { Takes x x result }
{
    range(x, x)
}

// Whether d, which is not 0, divides n.
pub(crate) fn divides(d: u16, n: u16) -> bool
    requires { 0 < d }
    ensures { result ≡ divides_it d n }
{
    n % d == 0
}

// The product.
pub(crate) fn times(x: u16, y: u16) -> u32
    ensures { result ≡ x * y }
{
    u32::from(x) * u32::from(y)
}

// The quotient, and 0 where y is 0.
pub(crate) fn div_or_zero(x: u16, y: u16) -> u16
    ensures value { result ≡ x / y }
    ensures bound { result ≤ x }
{
    if y == 0 { 0 } else { x / y }
}

// How far x is above y, and 0 where it isn't.
pub(crate) fn monus(x: u16, y: u32) -> u16
    ensures value { result ≡ x - y }
    ensures bound { result ≤ x }
{
    if y < u32::from(x) { x - y as u16 } else { 0 }
}
