ghost use Rattle.std.specs.Prelude.{◌≡◌, ◌≤◌, true, length};
ghost use Rattle.design_base.specs.Limits.{in_bounds};
ghost use Rattle.design_base.specs.Rules.{title};
ghost use Rattle.rule_terms.specs.Branches.{IsBranch, IsFitting};
ghost use Rattle.rule_terms.specs.Table.{terms};
ghost use Rattle.rule_terms.specs.Prefixes.{listed, IsSmall};
ghost use Rattle.rule_terms.specs.RuleTree.{terms_at};

use crate::bibd::bibd_branch;
use crate::branch::Branch;
use crate::df::df_branch;
use crate::gdd::gdd_branch;
use crate::pbd::pbd_branch;
use crate::prefix::Prefix;
use crate::td::td_branch;
use crate::tools::Tools;
use design_base::{Query, Rule};

/// What the table says of a rule behind a prefix of its parameters, which is no longer than they are. The question is in bounds, and
/// each parameter is within the limit of parameters. Takes no memory.
#[tactic(auto, unfolding(design_base::specs::Limits::in_bounds, crate::specs::Table::terms))]
pub fn branch_of(tools: &Tools, q: &Query, rule: Rule, prefix: Prefix) -> Branch
    requires bounds { in_bounds q.now ≡ true }
    requires small { IsSmall prefix }
    requires count { length (listed prefix) ≤ (title rule).parameters }
    ensures branch { IsBranch (terms_at (terms q.now rule) (listed prefix)) result }
    ensures fits { IsFitting rule (listed prefix) result }
{
    match *q {
        Query::Td { k, n } => td_branch(tools.alloc(), k, n, rule, prefix),
        Query::Df { group, v, k, l } => df_branch(tools.alloc(), group, v, k, l, rule, prefix),
        Query::Bibd { v, k, l } => bibd_branch(tools.alloc(), v, k, l, rule, prefix),
        Query::Gdd { k, g, u } => gdd_branch(tools.alloc(), k, g, u, rule, prefix),
        Query::Pbd { v, s } => pbd_branch(tools.alloc(), v, s, rule, prefix),
    }
}
