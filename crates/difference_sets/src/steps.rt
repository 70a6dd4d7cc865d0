// Where the rules of difference families apply.
ghost use Rattle.std.specs.Prelude.{◌≡◌, ◌==◌, ◌&&◌, ◌+◌, ◌-◌, ◌/◌, ◌≤◌, ◌↔◌, true};
ghost use Rattle.std.specs.List.{list_any};
ghost use Rattle.design_base.specs.Limits.{in_bounds};
ghost use Rattle.design_base.specs.declared.query.Query.TheVariants.{Df};
ghost use Rattle.difference_sets.specs.FamilySteps.{IsFamilyStep, are_cosets as are_cosets_of, are_cosets0 as are_cosets0_of, are_halfcosets as are_halfcosets_of, family_applies, is_family_step as is_family_step_of, is_power_row as is_power_row_of, is_row, is_tested_step};

use crate::entries::is_entry;
use crate::powers::{POWER_ROWS, PowerRow};
use design_base::{COVER_MAX, Group, POINTS_MAX, Query, Rule, Step, is_field_order};

// Whether one of the rows is this one.
fn is_among(rows: &[PowerRow], q: u16, e: u16, z: u16, l: u16) -> bool
    ensures { result ≡ list_any (is_row q e z l) rows.now }
{
    rows.iter().any(|row| (row.q == q && row.e == e) && (row.z == z && row.l == l))
}

// Whether the powers of g ^ e over the field of q elements, and 0 too where z is 1, are a family in the table.
#[tactic(auto, unfolding(crate::specs::FamilySteps::is_power_row))]
fn is_power_row(q: u16, e: u16, z: u16, l: u16) -> bool
    ensures { result ≡ is_power_row_of q e z l }
{
    is_among(&POWER_ROWS, q, e, z, l)
}

// Whether the powers of g ^ e over the field of v elements, and 0 too where z is 1, are a family of `k` elements.
#[tactic(auto, using(crate::proofs::TestedFamilies::row_small))]
fn are_powers(e: u16, z: u16, v: u16, k: u16, l: u16) -> bool
    requires { (1 ≤ v) × (v ≤ POINTS_MAX) }
    ensures { result ≡ (is_power_row_of v e z l && k == (v - 1) / e + z) }
{
    is_power_row(v, e, z, l) && k == (v - 1) / e + z
}

// Whether the nonzero elements are cosets of `k` elements.
#[tactic(auto, unfolding(crate::specs::FamilySteps::are_cosets))]
fn are_cosets(v: u16, k: u16, l: u16) -> bool
    requires elements { (1 ≤ v) × (1 ≤ k) }
    requires few { l ≤ COVER_MAX }
    ensures { result ≡ are_cosets_of v k l }
{
    is_field_order(v) && (v - 1) % k == 0 && l + 1 == k
}

// Whether they are cosets of `k - 1` elements.
#[tactic(auto, unfolding(crate::specs::FamilySteps::are_cosets0))]
fn are_cosets0(v: u16, k: u16, l: u16) -> bool
    requires { (1 ≤ v) × (2 ≤ k) }
    ensures { result ≡ are_cosets0_of v k l }
{
    is_field_order(v) && (v - 1) % (k - 1) == 0 && l == k
}

// Whether they are an even number of cosets of `k` elements, where `k` is odd.
#[tactic(auto, unfolding(crate::specs::FamilySteps::are_halfcosets))]
fn are_halfcosets(v: u16, k: u16, l: u16) -> bool
    requires elements { (1 ≤ v) × (1 ≤ k) × (k ≤ POINTS_MAX) }
    requires few { l ≤ COVER_MAX }
    ensures { result ≡ are_halfcosets_of v k l }
{
    is_field_order(v) && v % 2 == 1 && k % 2 == 1 && (v - 1) % (2 * k) == 0 && 2 * l + 1 == k
}

// Whether a step applies to the question of a difference family.
#[tactic(auto, unfolding(crate::specs::FamilySteps::family_applies, crate::specs::FamilySteps::is_stated))]
fn applies(group: Group, v: u16, k: u16, l: u16, step: &Step) -> bool
    requires { in_bounds (Df group v k l) ≡ true }
    ensures { result ≡ family_applies group v k l step.now.rule step.now.a step.now.b }
{
    match group {
        Group::Cyclic => match step.rule {
            Rule::Table => is_entry(step.a, group, v, k, l),
            _ => false,
        },
        Group::Field => match step.rule {
            Rule::Table => is_entry(step.a, group, v, k, l),
            Rule::Powers => are_powers(step.a, step.b, v, k, l),
            Rule::Cosets => are_cosets(v, k, l),
            Rule::Cosets0 => are_cosets0(v, k, l),
            Rule::Halfcosets => are_halfcosets(v, k, l),
            _ => false,
        },
    }
}

// Whether a step applies to a question.
#[tactic(auto, unfolding(crate::specs::FamilySteps::is_family_step))]
fn step_applies(q: &Query, step: &Step) -> bool
    requires { in_bounds q.now ≡ true }
    ensures { result ≡ is_family_step_of q.now step.now }
{
    match *q {
        Query::Df { group, v, k, l } => applies(group, v, k, l, step),
        Query::Td { .. } => false,
        Query::Bibd { .. } => false,
        Query::Gdd { .. } => false,
        Query::Pbd { .. } => false,
    }
}

/// Whether the step is one of a rule of difference families that applies to the question: exactly where its list is such a family.
/// Nothing is tested, and no memory is taken.
///
/// The question is in bounds.
pub fn is_family_step(q: &Query, step: &Step) -> bool
    requires { in_bounds q.now ≡ true }
    ensures value { result ≡ is_family_step_of q.now step.now }
    ensures exact { result ≡ true ↔ IsFamilyStep q.now step.now }
    ensures tested { result ≡ is_tested_step q.now step.now }
{
    step_applies(q, step)
}
