ghost use Rattle.std.specs.Prelude.{◌≡◌, ◌≤◌, false, true, ◌↔◌, IfSome, None, is_some, length};
ghost use Rattle.std.specs.List.{AllByRecursion, Contains};
ghost use Rattle.design_base.specs.declared.limits.TheConstants.{PARAMETER_MAX, PREMISES_MAX};
ghost use Rattle.design_base.specs.Limits.{in_bounds};
ghost use Rattle.design_base.specs.Rules.{title};
ghost use Rattle.rule_table.specs.Candidates.{candidates, premises as premises_of, is_candidate as is_candidate_of, FindsPremises};
ghost use Rattle.rule_terms.specs.Table.{terms};
ghost use Rattle.rule_terms.specs.Prefixes.{listed, IsSmall};
ghost use Rattle.rule_terms.specs.RuleTree.{terms_at};

use crate::walk::are_in_bounds;
use design_base::{Query, Rule, Step, is_within};
use rule_terms::{Branch, Prefix, Tools, branch_of};
use smallvec::SmallVec;

// The premises at the rest of the parameters, where the table allows these.
#[tactic(auto, using(crate::proofs::Members::allowed_laws))]
fn allowed_premises(
    tools: &Tools,
    q: &Query,
    rule: Rule,
    prefix: Prefix,
    rest: &[u16],
) -> Option<SmallVec<Query, 8>>
    requires bounds { in_bounds q.now ≡ true }
    requires small { IsSmall prefix }
    requires count { length (listed prefix) ≤ (title rule).parameters }
    requires rest_small { AllByRecursion (λ x. x ≤ PARAMETER_MAX) rest.now }
    ensures { FindsPremises (terms_at (terms q.now rule) (listed prefix)) rest.now result }
{
    match branch_of(tools, q, rule, prefix) {
        Branch::Parameter { low, high } => match rest.split_first() {
            Some((x, rest)) => {
                if is_within(low, high, *x) {
                    allowed_premises(tools, q, rule, prefix.with(*x), rest)
                } else {
                    None
                }
            }
            None => None,
        },
        Branch::Premises(premises) => {
            if are_in_bounds(premises.as_slice()) {
                Some(premises)
            } else {
                None
            }
        }
        Branch::Nothing => None,
    }
}

/// The questions on which a step rests, in order, where it is a candidate of the question: its rule serves questions of that kind, and the
/// table allows its parameters. None exactly where it is none. The question is in bounds. They are at most `PREMISES_MAX`, and the list takes
/// no memory.
#[tactic(auto, using(crate::proofs::Members::candidate_laws))]
pub fn candidate_premises(tools: &Tools, q: &Query, step: &Step) -> Option<SmallVec<Query, 8>>
    requires { in_bounds q.now ≡ true }
    ensures member { is_some result ≡ true ↔ Contains (candidates q.now) step.now }
    ensures none { result ≡ None → is_candidate_of q.now step.now ≡ false }
    ensures candidate { IfSome result (λ _. is_candidate_of q.now step.now ≡ true) }
    ensures items { IfSome result (λ list. list.items ≡ premises_of q.now step.now) }
    ensures few { IfSome result (λ list. length list.items ≤ PREMISES_MAX) }
{
    if !step.rule.serves(q.kind()) {
        return None;
    }
    let parameters = [step.a, step.b, step.c, step.d];
    allowed_premises(tools, q, step.rule, Prefix::Zero, &parameters)
}

/// Whether the step is a candidate of the question, which is in bounds: its rule serves questions of that kind, and the table allows its
/// parameters. Takes no memory.
pub fn is_candidate(tools: &Tools, q: &Query, step: &Step) -> bool
    requires { in_bounds q.now ≡ true }
    ensures value { result ≡ is_candidate_of q.now step.now }
    ensures member { result ≡ true ↔ Contains (candidates q.now) step.now }
{
    candidate_premises(tools, q, step).is_some()
}

/// The questions on which a candidate rests, in order. The question is in bounds, and the step is one of its candidates. They are at most
/// `PREMISES_MAX`, and the list takes no memory.
pub fn premises(tools: &Tools, q: &Query, step: &Step) -> SmallVec<Query, 8>
    requires bounds { in_bounds q.now ≡ true }
    requires candidate { is_candidate_of q.now step.now ≡ true }
    ensures items { result.items ≡ premises_of q.now step.now }
    ensures few { length result.items ≤ PREMISES_MAX }
{
    match candidate_premises(tools, q, step) {
        Some(list) => list,
        None => unreachable!(),
    }
}
