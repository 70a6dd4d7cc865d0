ghost use Rattle.std.specs.Prelude.{◌≡◌, ◌≤◌, true, length};
ghost use Rattle.design_base.specs.Limits.{in_bounds};
ghost use Rattle.design_base.specs.Rules.{title};
ghost use Rattle.design_base.specs.declared.query.Query.TheVariants.{Df};
ghost use Rattle.rule_terms.specs.DfTerms.{df_terms};
ghost use Rattle.rule_terms.specs.Branches.{IsBranch, IsFitting};
ghost use Rattle.rule_terms.specs.Prefixes.{listed, IsSmall};
ghost use Rattle.rule_terms.specs.RuleTree.{terms_at};

use crate::branch::{Branch, range, when};
use crate::prefix::Prefix;
use design_base::{Group, Query, Rule, Step};
use difference_sets::{is_family_step, listed_families};
use std::alloc::Global;

// What the table says of a rule of difference families behind a prefix of its parameters. Whether the family of a step passes its check is
// known in closed form.
#[tactic(auto, unfolding(crate::specs::DfTerms::df_terms))]
pub(crate) fn df_branch(
    alloc: Global,
    group: Group,
    v: u16,
    k: u16,
    l: u16,
    rule: Rule,
    prefix: Prefix,
) -> Branch
    requires bounds { in_bounds (Df group v k l) ≡ true }
    requires small { IsSmall prefix }
    requires count { length (listed prefix) ≤ (title rule).parameters }
    ensures branch { IsBranch (terms_at (df_terms group v k l rule) (listed prefix)) result }
    ensures fits { IsFitting rule (listed prefix) result }
{
    let query = Query::Df { group, v, k, l };
    let is_family = |a: u16, b: u16| is_family_step(&query, &Step::new(rule, a, b, 0, 0));
    match rule {
        Rule::Table => match prefix {
            Prefix::Zero => range(1, listed_families()),
            Prefix::One(entry) => when(alloc, is_family(entry, 0), &[]),
            _ => unreachable!(),
        },
        Rule::Powers => match prefix {
            Prefix::Zero => range(2, 8),
            Prefix::One(_) => range(0, 1),
            Prefix::Two(e, z) => when(alloc, is_family(e, z), &[]),
            _ => unreachable!(),
        },
        Rule::Cosets | Rule::Cosets0 | Rule::Halfcosets => when(alloc, is_family(0, 0), &[]),
        _ => Branch::Nothing,
    }
}
