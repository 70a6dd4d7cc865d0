// The difference families of steps.
ghost use Rattle.std.specs.Prelude.{◌≡◌, map, IfOk};
ghost use Rattle.design_base.specs.Canonical.{canonical};
ghost use Rattle.derivations.specs.DfBlocks.{df_blocks, CanBuildDf};

use design_base::{Group, Memory, Query, Step};
use difference_sets::family;
use incidence::Rows;
use std::alloc::Global;

// The base blocks of `k` of the `v` elements of a group of a step, which has no ingredients.
#[tactic(auto, unfolding(crate::specs::DfBlocks::df_blocks, crate::specs::DfBlocks::CanBuildDf))]
pub(crate) fn build_df(
    alloc: Global,
    group: Group,
    v: u16,
    k: u16,
    l: u16,
    step: &Step,
    ingredients: &[&Rows],
) -> Result<Rows, Memory>
    requires { CanBuildDf group v k l step.now.rule step.now.a step.now.b step.now.c step.now.d (map (λ r. r.now) ingredients.now) }
    ensures { IfOk result (λ rows. rows ≡ canonical (df_blocks group v k l step.now.rule step.now.a step.now.b step.now.c step.now.d (map (λ r. r.now) ingredients.now))) }
{
    let query = Query::Df { group, v, k, l };
    match ingredients {
        [] => family(alloc, &query, step),
        _ => unreachable!(),
    }
}
