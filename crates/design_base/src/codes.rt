//! The numbers of the verdicts: a word for each, and never 0.
ghost use Rattle.std.specs.Prelude.{◌≡◌, ◌+◌, ◌*◌, ◌/◌, ◌%◌, ◌^◌, ◌≤◌, ◌<◌, ◌∷◌, IfSome, Some, drop, length};
ghost use Rattle.design_base.specs.declared.limits.TheConstants.{PARAMETER_MAX};
ghost use Rattle.design_base.specs.declared.verdict.Verdict.{Verdict as Answer};
ghost use Rattle.design_base.specs.Codes.{code as code_of, criteria, criterion_numbered as criterion_with, is_own as is_own_of, number_of_criterion, read_code as verdict_of, step_if as step_of, step_in as step_within, verdict_in as verdict_within, IsVerdict};
ghost use Rattle.design_base.specs.Rules.{rule_numbered as rule_with};

use crate::rule::{RULES, Rule, rule_at};
use crate::step::Step;
use crate::verdict::{CRITERIA, Criterion, Verdict};

// The place of a criterion among all of them.
fn criterion_number(criterion: Criterion) -> u64
    ensures value { result ≡ number_of_criterion criterion }
    ensures small { result ≤ length criteria }
{
    criterion as u64 + 1
}

// The code of a verdict.
#[tactic(auto, unfolding(crate::specs::Codes::code), using(crate::proofs::Coding::number_small))]
fn coded(verdict: &Verdict) -> u64
    ensures value { result ≡ code_of verdict.now }
    ensures fits { IsVerdict verdict.now }
{
    match verdict {
        Verdict::Unknown => 1,
        Verdict::No(criterion) => 2 + 256 * criterion_number(*criterion),
        Verdict::Yes(step) => {
            let low = 3 + 256 * step.rule.number() as u64 + (1 << 16) * u64::from(step.a);
            let high = (1 << 28) * u64::from(step.b) + (1 << 40) * u64::from(step.c);
            low + high + (1 << 52) * u64::from(step.d)
        }
    }
}

/// The code of a verdict, which is never 0 and is read back as that verdict: what it is in the lowest 8 bits, the number of its rule or
/// criterion in the next 8, and then the parameters of its step, 12 bits each.
#[tactic(auto, using(crate::proofs::Coding::code_laws))]
pub fn code(verdict: &Verdict) -> u64
    ensures value { result ≡ code_of verdict.now }
    ensures some { 0 < result }
    ensures back { verdict_of result ≡ Some verdict.now }
{
    coded(verdict)
}

// The criterion at a place.
#[tactic(auto, using(std::proofs::lemmas::List::drop_more))]
fn criterion_at(list: &[Criterion], i: usize) -> Criterion
    requires { i < length list.now }
    ensures { drop i list.now ≡ result ∷ drop (i + 1) list.now }
{
    list[i]
}

// The criterion with this number.
#[tactic(auto, using(crate::proofs::Coding::criterion_laws))]
fn criterion_numbered(number: u64) -> Option<Criterion>
    ensures { result ≡ criterion_with number }
{
    if number == 0 || number > CRITERIA.len() as u64 {
        return None;
    }
    Some(criterion_at(CRITERIA, number as usize - 1))
}

// The rule with this number.
#[tactic(auto, using(crate::proofs::Coding::rule_laws))]
fn rule_numbered(number: u64) -> Option<Rule>
    ensures { result ≡ rule_with number }
{
    if number == 0 || number > RULES.len() as u64 {
        return None;
    }
    Some(rule_at(number as usize - 1))
}

// Whether parameter `i` is one of the rule's own, or 0.
fn is_own(rule: Rule, i: usize, x: u16) -> bool
    ensures { result ≡ is_own_of rule i x }
{
    i < rule.parameters() || x == 0
}

// The step of a rule and its parameters, where those past the rule's own are 0.
#[tactic(auto, using(crate::proofs::Coding::step_laws))]
fn step_if(rule: Rule, a: u16, b: u16, c: u16, d: u16) -> Option<Step>
    requires a { a ≤ PARAMETER_MAX }
    requires b { b ≤ PARAMETER_MAX }
    requires c { c ≤ PARAMETER_MAX }
    requires d { d ≤ PARAMETER_MAX }
    ensures { result ≡ step_of rule a b c d }
{
    if is_own(rule, 0, a) && is_own(rule, 1, b) && is_own(rule, 2, c) && is_own(rule, 3, d) {
        Some(Step::new(rule, a, b, c, d))
    } else {
        None
    }
}

// The 12 bits of a word from a place on.
fn parameter_in(word: u64, place: u32) -> u16
    requires { place ≤ 52 }
    ensures value { result ≡ word / 2 ^ place % 4096 }
    ensures small { result ≤ PARAMETER_MAX }
{
    ((word >> place) % 4096) as u16
}

// The step of a rule whose parameters the word holds.
#[tactic(auto, using(crate::proofs::Coding::last_parameter))]
fn step_in(word: u64, rule: Rule) -> Option<Step>
    ensures { result ≡ step_within word rule }
{
    let a = parameter_in(word, 16);
    let b = parameter_in(word, 28);
    let c = parameter_in(word, 40);
    let d = parameter_in(word, 52);
    step_if(rule, a, b, c, d)
}

// The verdict that a word begins as.
fn verdict_in(word: u64) -> Option<Verdict>
    ensures { result ≡ verdict_within word }
{
    let number = word / 256 % 256;
    match word % 256 {
        1 => Some(Verdict::Unknown),
        2 => Some(Verdict::No(criterion_numbered(number)?)),
        3 => Some(Verdict::Yes(step_in(word, rule_numbered(number)?)?)),
        _ => None,
    }
}

// The same, where the word is its code.
#[tactic(auto, unfolding(crate::specs::Codes::read_code))]
fn decoded(word: u64) -> Option<Verdict>
    ensures { result ≡ verdict_of word }
{
    let verdict = verdict_in(word)?;
    if code(&verdict) == word {
        Some(verdict)
    } else {
        None
    }
}

/// The verdict whose code the word is. None exactly where the word is no verdict's code.
#[tactic(auto, using(crate::proofs::Coding::read_laws))]
pub fn read_code(word: u64) -> Option<Verdict>
    ensures value { result ≡ verdict_of word }
    ensures found { IfSome result (λ v. code_of v ≡ word) }
    ensures only { (v : Answer) → IsVerdict v → code_of v ≡ word → result ≡ Some v }
{
    decoded(word)
}
