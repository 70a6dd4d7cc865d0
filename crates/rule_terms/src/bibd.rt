// The rules of block designs.
ghost use Rattle.std.specs.Prelude.{◌≡◌, ◌≤◌, length};
ghost use Rattle.design_base.specs.declared.limits.TheConstants.{COVER_MAX, PARAMETER_MAX, POINTS_MAX};
ghost use Rattle.design_base.specs.Rules.{title};
ghost use Rattle.design_base.specs.declared.rule.Rule.TheVariants.{Complement, Fill, Fill1, Pbd, Sum};
ghost use Rattle.rule_terms.specs.BibdTerms.{bibd_terms};
ghost use Rattle.rule_terms.specs.Branches.{IsFew, IsFitting, IsBranch};
ghost use Rattle.rule_terms.specs.Prefixes.{listed, IsSmall};
ghost use Rattle.rule_terms.specs.RuleTree.{terms_at};

use crate::branch::{Branch, div_or_zero, divides, range, single, times, when};
use crate::geometries::{affine, arc, projective, unital};
use crate::prefix::Prefix;
use crate::sizes::{complement_cover, replication_number};
use design_base::{Group, Query, Rule};
use std::alloc::Global;

// Groups of g points are filled with block designs.
#[tactic(auto, unfolding(crate::specs::BibdTerms::bibd_terms))]
fn fill(alloc: Global, v: u16, k: u16, l: u16, prefix: Prefix) -> Branch
    requires least { 1 ≤ k }
    requires points { v ≤ POINTS_MAX }
    requires count { length (listed prefix) ≤ (title Fill).parameters }
    ensures branch { IsBranch (terms_at (bibd_terms v k l Fill) (listed prefix)) result }
    ensures fits { IsFitting Fill (listed prefix) result }
{
    match prefix {
        Prefix::Zero => range(k, v / k),
        Prefix::One(g) => single(div_or_zero(v, g)),
        Prefix::Two(g, u) => when(
            alloc,
            l == 1 && times(g, u) == u32::from(v) && k <= g && k <= u,
            &[Query::Gdd { k, g, u }, Query::Bibd { v: g, k, l: 1 }],
        ),
        _ => unreachable!(),
    }
}

// Groups of g points are filled with block designs that share one point more.
#[tactic(auto, unfolding(crate::specs::BibdTerms::bibd_terms))]
fn fill_with_point(alloc: Global, v: u16, k: u16, l: u16, prefix: Prefix) -> Branch
    requires least { 1 ≤ k }
    requires some { 1 ≤ v }
    requires points { v ≤ POINTS_MAX }
    requires small { IsSmall prefix }
    requires count { length (listed prefix) ≤ (title Fill1).parameters }
    ensures branch { IsBranch (terms_at (bibd_terms v k l Fill1) (listed prefix)) result }
    ensures fits { IsFitting Fill1 (listed prefix) result }
{
    match prefix {
        Prefix::Zero => range(k, (v - 1) / k),
        Prefix::One(g) => single(div_or_zero(v - 1, g)),
        Prefix::Two(g, u) => when(
            alloc,
            l == 1 && times(g, u) == u32::from(v - 1) && k <= g && k <= u,
            &[Query::Gdd { k, g, u }, Query::Bibd { v: g + 1, k, l: 1 }],
        ),
        _ => unreachable!(),
    }
}

// Lines of s and of s + 1 times k - 1 points through one point are filled with block designs.
#[tactic(auto, unfolding(crate::specs::BibdTerms::bibd_terms))]
fn fill_lines(alloc: Global, v: u16, k: u16, l: u16, prefix: Prefix) -> Branch
    requires least { 2 ≤ k }
    requires block { k ≤ v }
    requires points { v ≤ POINTS_MAX }
    requires small { IsSmall prefix }
    requires count { length (listed prefix) ≤ (title Pbd).parameters }
    ensures branch { IsBranch (terms_at (bibd_terms v k l Pbd) (listed prefix)) result }
    ensures fits { IsFitting Pbd (listed prefix) result }
{
    let n = (v - 1) / (k - 1);
    let once = |v: u16| Query::Bibd { v, k, l: 1 };
    match prefix {
        Prefix::Zero => range(2, n.saturating_sub(2)),
        Prefix::One(s) if s < n => when(
            alloc,
            l == 1 && 3 <= k && divides(k - 1, v - 1) && 2 <= s && s + 1 < n,
            &[
                Query::Pbd { v: n, s },
                once((k - 1) * s + 1),
                once((k - 1) * (s + 1) + 1),
            ],
        ),
        // A block has fewer points than there are.
        Prefix::One(_) => Branch::Nothing,
        _ => unreachable!(),
    }
}

// The blocks of two block designs on the same points.
#[tactic(auto, unfolding(crate::specs::BibdTerms::bibd_terms))]
fn sum(alloc: Global, v: u16, k: u16, l: u16, prefix: Prefix) -> Branch
    requires cover { l ≤ COVER_MAX }
    requires small { IsSmall prefix }
    requires count { length (listed prefix) ≤ (title Sum).parameters }
    ensures branch { IsBranch (terms_at (bibd_terms v k l Sum) (listed prefix)) result }
    ensures fits { IsFitting Sum (listed prefix) result }
{
    let bibd = |l: u16| Query::Bibd { v, k, l };
    match prefix {
        Prefix::Zero => range(1, l / 2),
        Prefix::One(i) => when(
            alloc,
            1 <= i && 2 * i <= l,
            &[bibd(i), bibd(l.saturating_sub(i))],
        ),
        _ => unreachable!(),
    }
}

// The complements of the blocks of a block design.
#[tactic(auto, unfolding(crate::specs::BibdTerms::bibd_terms))]
fn complement(alloc: Global, v: u16, k: u16, l: u16) -> Branch
    requires least { 2 ≤ k }
    requires block { k ≤ v }
    requires points { v ≤ POINTS_MAX }
    requires cover { l ≤ COVER_MAX }
    ensures branch { IsBranch (bibd_terms v k l Complement) result }
    ensures few { IsFew result }
{
    if 2 * k <= v {
        return Branch::Nothing;
    }
    let r = replication_number(v, k, l);
    let j = complement_cover(v, k, l);
    when(
        alloc,
        v < 2 * k
            && times(l, v - 1) % u32::from(k - 1) == 0
            && times(v, r) % u32::from(k) == 0
            && 1 <= j,
        &[Query::Bibd { v, k: v - k, l: j }],
    )
}

// What the table says of a rule of block designs behind a prefix of its parameters.
#[tactic(auto, unfolding(crate::specs::BibdTerms::bibd_terms))]
pub(crate) fn bibd_branch(
    alloc: Global,
    v: u16,
    k: u16,
    l: u16,
    rule: Rule,
    prefix: Prefix,
) -> Branch
    requires least { 2 ≤ k }
    requires block { k ≤ v }
    requires points { v ≤ POINTS_MAX }
    requires cover { l ≤ COVER_MAX }
    requires small { IsSmall prefix }
    requires count { length (listed prefix) ≤ (title rule).parameters }
    ensures branch { IsBranch (terms_at (bibd_terms v k l rule) (listed prefix)) result }
    ensures fits { IsFitting rule (listed prefix) result }
{
    let family = |group: Group| Query::Df { group, v, k, l };
    match rule {
        Rule::Whole => when(alloc, k == v, &[]),
        Rule::Pairs => when(alloc, k == 2, &[]),
        Rule::Omit => when(alloc, k == v - 1 && 3 <= v && divides(v - 2, l), &[]),
        Rule::Bose => when(alloc, k == 3 && l == 1 && v % 6 == 3, &[]),
        Rule::Skolem => when(alloc, k == 3 && l == 1 && v % 6 == 1 && 7 <= v, &[]),
        Rule::Double => when(alloc, k == 3 && l == 2 && v % 3 <= 1 && v != 7, &[]),
        Rule::Middle => when(alloc, k == 3 && l == 3 && v % 2 == 1, &[]),
        Rule::Ordered => when(alloc, k == 3 && l == 6, &[]),
        Rule::Affine => affine(alloc, v, k, l, prefix),
        Rule::Projective => projective(alloc, v, k, l, prefix),
        Rule::Unital => unital(alloc, v, k, l, prefix),
        Rule::Arc => arc(alloc, v, k, l, prefix),
        Rule::Developz => when(alloc, true, &[family(Group::Cyclic)]),
        Rule::Developf => when(alloc, true, &[family(Group::Field)]),
        Rule::Fill => fill(alloc, v, k, l, prefix),
        Rule::Fill1 => fill_with_point(alloc, v, k, l, prefix),
        Rule::Pbd => fill_lines(alloc, v, k, l, prefix),
        Rule::Sum => sum(alloc, v, k, l, prefix),
        Rule::Complement => complement(alloc, v, k, l),
        _ => Branch::Nothing,
    }
}
