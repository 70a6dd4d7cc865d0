ghost use Rattle.std.specs.Prelude.{◌≡◌, ◌<◌, ◌≤◌, true, length, drop, []};
ghost use Rattle.std.specs.List.{AllByRecursion, list_all};
ghost use Rattle.design_base.specs.declared.limits.TheConstants.{PARAMETER_MAX};
ghost use Rattle.design_base.specs.Limits.{in_bounds as is_in_bounds};
ghost use Rattle.design_base.specs.Rules.{title, rules};
ghost use Rattle.rule_terms.specs.Prefixes.{listed, IsSmall};
ghost use Rattle.rule_table.specs.Walks.{head, steps_under, steps_between, steps_behind, steps_by, steps_of, steps_after};

use design_base::{Query, RULES, Rule, Step, in_bounds, rule_at};
use rule_terms::{Branch, Prefix, Tools, branch_of};

// Whether each question is in bounds.
pub(crate) fn are_in_bounds(questions: &[Query]) -> bool
    ensures { result ≡ list_all is_in_bounds questions.now }
{
    questions.iter().all(|q| in_bounds(q))
}

// The first candidate of a rule whose parameters begin so.
#[tactic(auto, using(crate::proofs::Firsts::first_under_laws))]
#[cycle(first)]
fn first_under(tools: &Tools, q: &Query, rule: Rule, prefix: Prefix) -> Option<Step>
    requires bounds { is_in_bounds q.now ≡ true }
    requires small { IsSmall prefix }
    requires count { length (listed prefix) ≤ (title rule).parameters }
    ensures { result ≡ head (steps_under q.now rule (listed prefix)) }
{
    match branch_of(tools, q, rule, prefix) {
        Branch::Parameter { low, high } => first_between(tools, q, rule, prefix, low, high),
        Branch::Premises(premises) => {
            if are_in_bounds(premises.as_slice()) {
                Some(prefix.step(rule))
            } else {
                None
            }
        }
        Branch::Nothing => None,
    }
}

// The first of those whose next parameter is from `low` to `high`.
#[tactic(auto, using(crate::proofs::Firsts::first_between_laws))]
#[cycle(first)]
fn first_between(
    tools: &Tools,
    q: &Query,
    rule: Rule,
    prefix: Prefix,
    low: u16,
    high: u16,
) -> Option<Step>
    requires bounds { is_in_bounds q.now ≡ true }
    requires small { IsSmall prefix }
    requires count { length (listed prefix) < (title rule).parameters }
    requires high_small { high ≤ PARAMETER_MAX }
    ensures { result ≡ head (steps_between q.now rule (listed prefix) low high) }
{
    for x in low..high + 1 {
        if let Some(step) = first_under(tools, q, rule, prefix.with(x)) {
            return Some(step);
        }
    }
    None
}

// The first of those that begin so and stand behind the rest.
#[tactic(auto, using(crate::proofs::Firsts::first_behind_laws))]
fn first_behind(tools: &Tools, q: &Query, rule: Rule, prefix: Prefix, rest: &[u16]) -> Option<Step>
    requires bounds { is_in_bounds q.now ≡ true }
    requires small { IsSmall prefix }
    requires count { length (listed prefix) ≤ (title rule).parameters }
    requires rest_small { AllByRecursion (λ x. x ≤ PARAMETER_MAX) rest.now }
    ensures { result ≡ head (steps_behind q.now rule (listed prefix) rest.now) }
{
    let (x, rest) = rest.split_first()?;
    let Branch::Parameter { low: _, high } = branch_of(tools, q, rule, prefix) else {
        return None;
    };
    if let Some(step) = first_behind(tools, q, rule, prefix.with(*x), rest) {
        return Some(step);
    }
    first_between(tools, q, rule, prefix, *x + 1, high)
}

// The first candidate of a rule.
#[tactic(auto, using(crate::proofs::Firsts::first_of_rule_laws))]
fn first_of_rule(tools: &Tools, q: &Query, rule: Rule) -> Option<Step>
    requires bounds { is_in_bounds q.now ≡ true }
    ensures { result ≡ head (steps_by q.now rule) }
{
    if rule.serves(q.kind()) {
        first_under(tools, q, rule, Prefix::Zero)
    } else {
        None
    }
}

// The first candidate of the rules from a place in their list on.
#[tactic(auto, using(crate::proofs::Firsts::first_of_rules_laws))]
pub(crate) fn first_of_rules(tools: &Tools, q: &Query, start: usize) -> Option<Step>
    requires bounds { is_in_bounds q.now ≡ true }
    requires range { start ≤ length rules }
    ensures { result ≡ head (steps_of q.now (drop start rules)) }
{
    for i in start..RULES.len() {
        if let Some(step) = first_of_rule(tools, q, rule_at(i)) {
            return Some(step);
        }
    }
    None
}

// The candidate behind a step.
#[tactic(auto, using(crate::proofs::Firsts::following_laws))]
pub(crate) fn following(tools: &Tools, q: &Query, step: &Step) -> Option<Step>
    requires { is_in_bounds q.now ≡ true }
    ensures { result ≡ head (steps_after q.now step.now) }
{
    let rest = [step.a, step.b, step.c, step.d];
    if let Some(found) = first_behind(tools, q, step.rule, Prefix::Zero, &rest) {
        return Some(found);
    }
    first_of_rules(tools, q, step.rule.number())
}
