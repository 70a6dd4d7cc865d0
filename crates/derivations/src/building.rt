// The design of a step, made of designs that meet its premises.
ghost use Rattle.std.specs.Prelude.{◌≡◌, true, map, IfOk};
ghost use Rattle.design_base.specs.Limits.{in_bounds};
ghost use Rattle.design_base.specs.Meets.{Meets};
ghost use Rattle.rule_table.specs.Candidates.{is_candidate, premises};
ghost use Rattle.derivations.specs.AllMeet.{AllMeet};
ghost use Rattle.derivations.specs.Blocks.{blocks as blocks_of, CanBuild};

use crate::bibd::build_bibd;
use crate::df::build_df;
use crate::gdd::build_gdd;
use crate::pbd::build_pbd;
use crate::td::build_td;
use design_base::{Memory, Query, Step};
use incidence::Rows;
use std::alloc::Global;

// The design of a step whose construction has what it needs.
#[tactic(auto, unfolding(crate::specs::Blocks::blocks, crate::specs::Blocks::built))]
fn build_any(
    alloc: Global,
    query: &Query,
    step: &Step,
    ingredients: &[&Rows],
) -> Result<Rows, Memory>
    requires { CanBuild query.now step.now.rule step.now.a step.now.b step.now.c step.now.d (map (λ r. r.now) ingredients.now) }
    ensures { IfOk result (λ rows. rows ≡ blocks_of query.now step.now (map (λ r. r.now) ingredients.now)) }
{
    match *query {
        Query::Td { k, n } => build_td(alloc, k, n, step, ingredients),
        Query::Df { group, v, k, l } => build_df(alloc, group, v, k, l, step, ingredients),
        Query::Bibd { v, k, l } => build_bibd(alloc, v, k, l, step, ingredients),
        Query::Gdd { k, g, u } => build_gdd(alloc, k, g, u, step, ingredients),
        Query::Pbd { v, s } => build_pbd(alloc, v, s, step, ingredients),
    }
}

/// The design of a step that is a candidate of the question, made of one design for each premise.
///
/// The question is in bounds, and the ingredients meet the premises, one each. The answer is `Memory` only for want of
/// memory.
#[tactic(auto, using(crate::proofs::Meeting::step_can_build, crate::proofs::Meeting::step_meets))]
pub fn build(
    alloc: Global,
    query: &Query,
    step: &Step,
    ingredients: &[&Rows],
) -> Result<Rows, Memory>
    requires bounds { in_bounds query.now ≡ true }
    requires candidate { is_candidate query.now step.now ≡ true }
    requires ingredients { AllMeet (premises query.now step.now) (map (λ r. r.now) ingredients.now) }
    ensures blocks { IfOk result (λ rows. rows ≡ blocks_of query.now step.now (map (λ r. r.now) ingredients.now)) }
    ensures meets { IfOk result (λ rows. Meets query.now rows) }
{
    let rows = build_any(alloc, query, step, ingredients)?;
    Ok(rows)
}
