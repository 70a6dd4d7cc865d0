ghost use Rattle.std.specs.Prelude.{◌≡◌, ◌≤◌, ◌*◌, length};
ghost use Rattle.design_base.specs.declared.limits.TheConstants.{GDD_K_MAX, POINTS_MAX};
ghost use Rattle.design_base.specs.Rules.{title};
ghost use Rattle.rule_terms.specs.GddTerms.{gdd_terms};
ghost use Rattle.rule_terms.specs.Branches.{IsBranch, IsFitting};
ghost use Rattle.rule_terms.specs.Prefixes.{listed, IsSmall};
ghost use Rattle.rule_terms.specs.RuleTree.{terms_at};

use crate::branch::{Branch, div_or_zero, divides, range, when};
use crate::prefix::Prefix;
use design_base::{Query, Rule};
use std::alloc::Global;

// What the table says of a rule of group divisible designs behind a prefix of its parameters.
#[tactic(auto, unfolding(crate::specs::GddTerms::gdd_terms))]
pub(crate) fn gdd_branch(
    alloc: Global,
    k: u16,
    g: u16,
    u: u16,
    rule: Rule,
    prefix: Prefix,
) -> Branch
    requires least { 2 ≤ k }
    requires block { k ≤ GDD_K_MAX }
    requires group { g ≤ POINTS_MAX }
    requires groups { u ≤ POINTS_MAX }
    requires points { g * u ≤ POINTS_MAX }
    requires small { IsSmall prefix }
    requires count { length (listed prefix) ≤ (title rule).parameters }
    ensures branch { IsBranch (terms_at (gdd_terms k g u rule) (listed prefix)) result }
    ensures fits { IsFitting rule (listed prefix) result }
{
    let gdd = |k: u16, g: u16, u: u16| Query::Gdd { k, g, u };
    let once = |v: u16| Query::Bibd { v, k, l: 1 };
    match rule {
        Rule::Td => when(alloc, u == k, &[Query::Td { k, n: g }]),
        Rule::Points => when(alloc, g == 1, &[once(u)]),
        Rule::GddDelete => when(alloc, g == k - 1, &[once((k - 1) * u + 1)]),
        Rule::Weight => match prefix {
            Prefix::Zero => range(2, g),
            Prefix::One(_) => range(k, u),
            Prefix::Two(w, s) => when(
                alloc,
                2 <= w && divides(w, g) && k <= s && s <= u && (2 <= div_or_zero(g, w) || s < u),
                &[gdd(s, div_or_zero(g, w), u), gdd(k, w, s)],
            ),
            _ => unreachable!(),
        },
        Rule::Split => match prefix {
            Prefix::Zero => range(2, u / 2),
            Prefix::One(c) if c <= u => when(
                alloc,
                2 <= c && divides(c, u) && 2 <= div_or_zero(u, c),
                &[gdd(k, g * c, div_or_zero(u, c)), gdd(k, g, c)],
            ),
            // A part has no more groups than there are.
            Prefix::One(_) => Branch::Nothing,
            _ => unreachable!(),
        },
        _ => Branch::Nothing,
    }
}
