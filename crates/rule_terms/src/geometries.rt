// The rules of block designs that are geometries or lie on curves.
ghost use Rattle.std.specs.Prelude.{◌≡◌, ◌≤◌, length};
ghost use Rattle.design_base.specs.declared.limits.TheConstants.{POINTS_MAX};
ghost use Rattle.design_base.specs.Rules.{title};
ghost use Rattle.design_base.specs.declared.rule.Rule.TheVariants.{Affine, Arc, Projective, Unital};
ghost use Rattle.rule_terms.specs.BibdTerms.{bibd_terms};
ghost use Rattle.rule_terms.specs.Branches.{IsFitting, IsBranch};
ghost use Rattle.rule_terms.specs.Prefixes.{listed, IsSmall};
ghost use Rattle.rule_terms.specs.RuleTree.{terms_at};

use crate::branch::{Branch, div_or_zero, range, single, when};
use crate::curves::{is_arc, is_unital};
use crate::prefix::Prefix;
use crate::sizes::{is_point_count, is_power};
use design_base::is_field_order;
use std::alloc::Global;

// The lines of an affine geometry.
#[tactic(auto, unfolding(crate::specs::BibdTerms::bibd_terms))]
pub(crate) fn affine(alloc: Global, v: u16, k: u16, l: u16, prefix: Prefix) -> Branch
    requires block { k ≤ v }
    requires points { v ≤ POINTS_MAX }
    requires count { length (listed prefix) ≤ (title Affine).parameters }
    ensures branch { IsBranch (terms_at (bibd_terms v k l Affine) (listed prefix)) result }
    ensures fits { IsFitting Affine (listed prefix) result }
{
    match prefix {
        Prefix::Zero => single(k),
        Prefix::One(q) => range(2, div_or_zero(v, q)),
        Prefix::Two(q, d) => when(
            alloc,
            k == q && l == 1 && is_field_order(q) && 2 <= d && is_power(v, q, d),
            &[],
        ),
        _ => unreachable!(),
    }
}

// The lines of a projective geometry.
#[tactic(auto, unfolding(crate::specs::BibdTerms::bibd_terms))]
pub(crate) fn projective(alloc: Global, v: u16, k: u16, l: u16, prefix: Prefix) -> Branch
    requires least { 1 ≤ k }
    requires block { k ≤ v }
    requires points { v ≤ POINTS_MAX }
    requires small { IsSmall prefix }
    requires count { length (listed prefix) ≤ (title Projective).parameters }
    ensures branch { IsBranch (terms_at (bibd_terms v k l Projective) (listed prefix)) result }
    ensures fits { IsFitting Projective (listed prefix) result }
{
    match prefix {
        Prefix::Zero => single(k - 1),
        Prefix::One(q) => range(2, div_or_zero(v, q)),
        Prefix::Two(q, d) => when(
            alloc,
            k == q + 1 && l == 1 && is_field_order(q) && 2 <= d && is_point_count(v, q, d),
            &[],
        ),
        _ => unreachable!(),
    }
}

// The lines of a projective plane on a Hermitian curve.
#[tactic(auto, unfolding(crate::specs::BibdTerms::bibd_terms))]
pub(crate) fn unital(alloc: Global, v: u16, k: u16, l: u16, prefix: Prefix) -> Branch
    requires least { 1 ≤ k }
    requires block { k ≤ v }
    requires points { v ≤ POINTS_MAX }
    requires small { IsSmall prefix }
    requires count { length (listed prefix) ≤ (title Unital).parameters }
    ensures branch { IsBranch (terms_at (bibd_terms v k l Unital) (listed prefix)) result }
    ensures fits { IsFitting Unital (listed prefix) result }
{
    match prefix {
        Prefix::Zero => single(k - 1),
        Prefix::One(q) => when(alloc, is_unital(v, k, l, q), &[]),
        _ => unreachable!(),
    }
}

// The lines of a projective plane on an arc of lines.
#[tactic(auto, unfolding(crate::specs::BibdTerms::bibd_terms))]
pub(crate) fn arc(alloc: Global, v: u16, k: u16, l: u16, prefix: Prefix) -> Branch
    requires block { k ≤ v }
    requires points { v ≤ POINTS_MAX }
    requires small { IsSmall prefix }
    requires count { length (listed prefix) ≤ (title Arc).parameters }
    ensures branch { IsBranch (terms_at (bibd_terms v k l Arc) (listed prefix)) result }
    ensures fits { IsFitting Arc (listed prefix) result }
{
    match prefix {
        Prefix::Zero => range(1, 6),
        Prefix::One(r) => range(r + 1, 7),
        Prefix::Two(r, s) => when(alloc, is_arc(v, k, l, r, s), &[]),
        _ => unreachable!(),
    }
}
