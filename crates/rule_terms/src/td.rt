// The rules of transversal designs.
ghost use Rattle.std.specs.Prelude.{◌≡◌, ◌≤◌, length};
ghost use Rattle.design_base.specs.declared.limits.TheConstants.{TD_K_MAX, TD_N_MAX};
ghost use Rattle.design_base.specs.Rules.{title};
ghost use Rattle.design_base.specs.declared.rule.Rule.TheVariants.{Parker, Product, Wilson1, Wilson2};
ghost use Rattle.rule_terms.specs.Branches.{IsBranch, IsFitting};
ghost use Rattle.rule_terms.specs.TdTerms.{td_terms};
ghost use Rattle.rule_terms.specs.Prefixes.{listed, IsSmall};
ghost use Rattle.rule_terms.specs.RuleTree.{terms_at};

use crate::branch::{Branch, div_or_zero, monus, range, single, times, when};
use crate::prefix::Prefix;
use design_base::{Query, Rule, is_field_order};
use std::alloc::Global;

// The product of two transversal designs.
#[tactic(auto, unfolding(crate::specs::TdTerms::td_terms))]
fn product(alloc: Global, k: u16, n: u16, prefix: Prefix) -> Branch
    requires points { n ≤ TD_N_MAX }
    requires count { length (listed prefix) ≤ (title Product).parameters }
    ensures branch { IsBranch (terms_at (td_terms k n Product) (listed prefix)) result }
    ensures fits { IsFitting Product (listed prefix) result }
{
    match prefix {
        Prefix::Zero => range(2, n / 2),
        Prefix::One(a) => single(div_or_zero(n, a)),
        Prefix::Two(a, b) => when(
            alloc,
            times(a, b) == u32::from(n) && 2 <= a && a <= b,
            &[Query::Td { k, n: a }, Query::Td { k, n: b }],
        ),
        _ => unreachable!(),
    }
}

// Parker's four groups.
#[tactic(auto, unfolding(crate::specs::TdTerms::td_terms))]
fn parker(alloc: Global, k: u16, n: u16, prefix: Prefix) -> Branch
    requires points { n ≤ TD_N_MAX }
    requires small { IsSmall prefix }
    requires count { length (listed prefix) ≤ (title Parker).parameters }
    ensures branch { IsBranch (terms_at (td_terms k n Parker) (listed prefix)) result }
    ensures fits { IsFitting Parker (listed prefix) result }
{
    match prefix {
        Prefix::Zero => single(n.saturating_sub(1) / 3),
        Prefix::One(m) => when(
            alloc,
            k == 4 && times(3, m) + 1 == u32::from(n) && 1 <= m,
            &[Query::Td { k: 4, n: m }],
        ),
        _ => unreachable!(),
    }
}

// Wilson's construction with one truncated group.
#[tactic(auto, unfolding(crate::specs::TdTerms::td_terms))]
fn truncate_once(alloc: Global, k: u16, n: u16, prefix: Prefix) -> Branch
    requires groups { k ≤ TD_K_MAX }
    requires points { n ≤ TD_N_MAX }
    requires small { IsSmall prefix }
    requires count { length (listed prefix) ≤ (title Wilson1).parameters }
    ensures branch { IsBranch (terms_at (td_terms k n Wilson1) (listed prefix)) result }
    ensures fits { IsFitting Wilson1 (listed prefix) result }
{
    let td = |k: u16, n: u16| Query::Td { k, n };
    match prefix {
        Prefix::Zero => range(2, div_or_zero(n, k)),
        Prefix::One(m) => range(k, div_or_zero(n, m)),
        Prefix::Two(m, t) => single(monus(n, times(m, t))),
        Prefix::Three(m, t, u) => when(
            alloc,
            times(m, t) + u32::from(u) == u32::from(n) && 2 <= m && k <= t && 1 <= u && u <= t,
            &[td(k + 1, t), td(k, m), td(k, m + 1), td(k, u)],
        ),
        _ => unreachable!(),
    }
}

// Wilson's construction with two truncated groups.
#[tactic(auto, unfolding(crate::specs::TdTerms::td_terms))]
fn truncate_twice(alloc: Global, k: u16, n: u16, prefix: Prefix) -> Branch
    requires groups { k ≤ TD_K_MAX }
    requires points { n ≤ TD_N_MAX }
    requires small { IsSmall prefix }
    ensures branch { IsBranch (terms_at (td_terms k n Wilson2) (listed prefix)) result }
    ensures fits { IsFitting Wilson2 (listed prefix) result }
{
    let td = |k: u16, n: u16| Query::Td { k, n };
    match prefix {
        Prefix::Zero => range(k.saturating_sub(2).max(2), div_or_zero(n, k + 1)),
        Prefix::One(m) => range(k + 1, div_or_zero(n, m)),
        Prefix::Two(m, t) => range((monus(n, times(m, t)) + 1) / 2, t),
        Prefix::Three(m, t, u) => single(monus(monus(n, times(m, t)), u32::from(u))),
        Prefix::Four(m, t, u, w) => when(
            alloc,
            times(m, t) + u32::from(u) + u32::from(w) == u32::from(n)
                && 2 <= m
                && k <= m + 2
                && k + 1 <= t
                && 1 <= w
                && w <= u
                && u <= t,
            &[
                td(k + 2, t),
                td(k, m),
                td(k, m + 1),
                td(k, m + 2),
                td(k, u),
                td(k, w),
            ],
        ),
    }
}

// What the table says of a rule of transversal designs behind a prefix of its parameters.
#[tactic(auto, unfolding(crate::specs::TdTerms::td_terms))]
pub(crate) fn td_branch(alloc: Global, k: u16, n: u16, rule: Rule, prefix: Prefix) -> Branch
    requires groups { k ≤ TD_K_MAX }
    requires points { n ≤ TD_N_MAX }
    requires small { IsSmall prefix }
    requires count { length (listed prefix) ≤ (title rule).parameters }
    ensures branch { IsBranch (terms_at (td_terms k n rule) (listed prefix)) result }
    ensures fits { IsFitting rule (listed prefix) result }
{
    match rule {
        Rule::TdOne => when(alloc, n == 1, &[]),
        Rule::Cyclic => when(alloc, 2 <= n && k <= 3, &[]),
        Rule::Field => when(alloc, is_field_order(n) && k <= n + 1, &[]),
        Rule::Product => product(alloc, k, n, prefix),
        Rule::Parker => parker(alloc, k, n, prefix),
        Rule::Wilson1 => truncate_once(alloc, k, n, prefix),
        Rule::Wilson2 => truncate_twice(alloc, k, n, prefix),
        _ => Branch::Nothing,
    }
}
