// The rules of pairwise balanced designs.
ghost use Rattle.std.specs.Prelude.{◌≡◌, ◌≤◌, length};
ghost use Rattle.design_base.specs.declared.limits.TheConstants.{PBD_S_MAX, POINTS_MAX};
ghost use Rattle.design_base.specs.Rules.{title};
ghost use Rattle.design_base.specs.declared.rule.Rule.TheVariants.{Tdfill, Tdfill1, Truncate};
ghost use Rattle.rule_terms.specs.Branches.{IsBranch, IsFitting};
ghost use Rattle.rule_terms.specs.PbdTerms.{pbd_terms};
ghost use Rattle.rule_terms.specs.Prefixes.{listed, IsSmall};
ghost use Rattle.rule_terms.specs.RuleTree.{terms_at};

use crate::branch::{Branch, div_or_zero, monus, range, single, times, when};
use crate::prefix::Prefix;
use design_base::{Query, Rule};
use std::alloc::Global;

// Groups of a transversal design are filled, the last of them truncated. A last group of one point needs no filling.
#[tactic(auto, unfolding(crate::specs::PbdTerms::pbd_terms))]
fn truncate(alloc: Global, v: u16, s: u16, prefix: Prefix) -> Branch
    requires points { v ≤ POINTS_MAX }
    requires block { s ≤ PBD_S_MAX }
    requires small { IsSmall prefix }
    requires count { length (listed prefix) ≤ (title Truncate).parameters }
    ensures branch { IsBranch (terms_at (pbd_terms v s Truncate) (listed prefix)) result }
    ensures fits { IsFitting Truncate (listed prefix) result }
{
    let td = |k: u16, n: u16| Query::Td { k, n };
    let pbd = |v: u16| Query::Pbd { v, s };
    match prefix {
        Prefix::Zero => range(2, div_or_zero(v, s)),
        Prefix::One(t) => single(monus(v, times(s, t))),
        Prefix::Two(t, u) => {
            let fits = times(s, t) + u32::from(u) == u32::from(v) && 2 <= t && 1 <= u && u <= t;
            if 2 <= u {
                when(alloc, fits, &[td(s + 1, t), pbd(t), pbd(u)])
            } else {
                when(alloc, fits, &[td(s + 1, t), pbd(t)])
            }
        }
        _ => unreachable!(),
    }
}

// Groups of a transversal design are filled.
#[tactic(auto, unfolding(crate::specs::PbdTerms::pbd_terms))]
fn td_fill(alloc: Global, v: u16, s: u16, prefix: Prefix) -> Branch
    requires points { v ≤ POINTS_MAX }
    requires count { length (listed prefix) ≤ (title Tdfill).parameters }
    ensures branch { IsBranch (terms_at (pbd_terms v s Tdfill) (listed prefix)) result }
    ensures fits { IsFitting Tdfill (listed prefix) result }
{
    match prefix {
        Prefix::Zero => single(div_or_zero(v, s)),
        Prefix::One(t) => when(
            alloc,
            times(s, t) == u32::from(v) && 2 <= t,
            &[Query::Td { k: s, n: t }, Query::Pbd { v: t, s }],
        ),
        _ => unreachable!(),
    }
}

// Groups of a transversal design are filled with designs that share one point more.
#[tactic(auto, unfolding(crate::specs::PbdTerms::pbd_terms))]
fn td_fill_with_point(alloc: Global, v: u16, s: u16, prefix: Prefix) -> Branch
    requires some { 1 ≤ v }
    requires points { v ≤ POINTS_MAX }
    requires block { s ≤ PBD_S_MAX }
    requires small { IsSmall prefix }
    requires count { length (listed prefix) ≤ (title Tdfill1).parameters }
    ensures branch { IsBranch (terms_at (pbd_terms v s Tdfill1) (listed prefix)) result }
    ensures fits { IsFitting Tdfill1 (listed prefix) result }
{
    match prefix {
        Prefix::Zero => range(2, div_or_zero(v - 1, s)),
        Prefix::One(_) => range(s, s + 1),
        Prefix::Two(t, c) => when(
            alloc,
            times(c, t) + 1 == u32::from(v) && 2 <= t && s <= c && c <= s + 1,
            &[Query::Td { k: c, n: t }, Query::Pbd { v: t + 1, s }],
        ),
        _ => unreachable!(),
    }
}

// What the table says of a rule of pairwise balanced designs behind a prefix of its parameters.
#[tactic(auto, unfolding(crate::specs::PbdTerms::pbd_terms))]
pub(crate) fn pbd_branch(alloc: Global, v: u16, s: u16, rule: Rule, prefix: Prefix) -> Branch
    requires some { 1 ≤ v }
    requires points { v ≤ POINTS_MAX }
    requires block { s ≤ PBD_S_MAX }
    requires small { IsSmall prefix }
    requires count { length (listed prefix) ≤ (title rule).parameters }
    ensures branch { IsBranch (terms_at (pbd_terms v s rule) (listed prefix)) result }
    ensures fits { IsFitting rule (listed prefix) result }
{
    let once = |v: u16, k: u16| Query::Bibd { v, k, l: 1 };
    match rule {
        Rule::PbdOne => when(alloc, v == s || v == s + 1, &[]),
        Rule::Bibds => when(alloc, true, &[once(v, s)]),
        Rule::Bibdt => when(alloc, true, &[once(v, s + 1)]),
        Rule::PbdDelete => when(alloc, true, &[once(v + 1, s + 1)]),
        Rule::Truncate => truncate(alloc, v, s, prefix),
        Rule::Tdfill => td_fill(alloc, v, s, prefix),
        Rule::Tdfill1 => td_fill_with_point(alloc, v, s, prefix),
        _ => Branch::Nothing,
    }
}
