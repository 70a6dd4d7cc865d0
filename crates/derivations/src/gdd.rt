// The group divisible designs of steps.
ghost use Rattle.std.specs.Prelude.{◌≡◌, [], ◌∷◌, map, IfOk};
ghost use Rattle.design_base.specs.Canonical.{canonical};
ghost use Rattle.derivations.specs.GddBlocks.{gdd_blocks, CanBuildGdd};

use crate::copies::canonical_copy;
use design_base::{Memory, Rule, Step};
use gdd_pbd::{delete_point, split, weight};
use incidence::Rows;
use std::alloc::Global;

// The group divisible design that a step makes of one ingredient.
#[tactic(auto, unfolding(crate::specs::GddBlocks::gdd_blocks, crate::specs::GddBlocks::CanBuildGdd), using(gdd_pbd::proofs::DeletingNeeds::groups_of_points))]
fn gdd_of_one(
    alloc: Global,
    k: u16,
    g: u16,
    u: u16,
    step: &Step,
    design: &Rows,
) -> Result<Rows, Memory>
    requires { CanBuildGdd k g u step.now.rule step.now.a step.now.b step.now.c step.now.d (design.now ∷ []) }
    ensures { IfOk result (λ rows. rows ≡ canonical (gdd_blocks k g u step.now.rule step.now.a step.now.b step.now.c step.now.d (design.now ∷ []))) }
{
    match step.rule {
        Rule::Td => canonical_copy(design),
        Rule::Points => canonical_copy(design),
        Rule::GddDelete => delete_point(alloc, (k - 1) * u + 1, k, design),
        _ => unreachable!(),
    }
}

// The group divisible design that a step makes of two ingredients.
#[tactic(auto, unfolding(crate::specs::GddBlocks::gdd_blocks, crate::specs::GddBlocks::CanBuildGdd))]
fn gdd_of_two(
    alloc: Global,
    k: u16,
    g: u16,
    u: u16,
    step: &Step,
    master: &Rows,
    filler: &Rows,
) -> Result<Rows, Memory>
    requires { CanBuildGdd k g u step.now.rule step.now.a step.now.b step.now.c step.now.d (master.now ∷ filler.now ∷ []) }
    ensures { IfOk result (λ rows. rows ≡ canonical (gdd_blocks k g u step.now.rule step.now.a step.now.b step.now.c step.now.d (master.now ∷ filler.now ∷ []))) }
{
    match step.rule {
        Rule::Weight => weight(alloc, k, g, u, step.a, step.b, master, filler),
        Rule::Split => split(alloc, k, g, u, step.a, master, filler),
        _ => unreachable!(),
    }
}

// The group divisible design of blocks of `k` points over `u` groups of `g` points that a step makes of the ingredients. A rule is
// one arm of the function for its number of ingredients.
#[tactic(auto, unfolding(crate::specs::GddBlocks::gdd_blocks, crate::specs::GddBlocks::CanBuildGdd))]
pub(crate) fn build_gdd(
    alloc: Global,
    k: u16,
    g: u16,
    u: u16,
    step: &Step,
    ingredients: &[&Rows],
) -> Result<Rows, Memory>
    requires { CanBuildGdd k g u step.now.rule step.now.a step.now.b step.now.c step.now.d (map (λ r. r.now) ingredients.now) }
    ensures { IfOk result (λ rows. rows ≡ canonical (gdd_blocks k g u step.now.rule step.now.a step.now.b step.now.c step.now.d (map (λ r. r.now) ingredients.now))) }
{
    match ingredients {
        [design] => gdd_of_one(alloc, k, g, u, step, design),
        [master, filler] => gdd_of_two(alloc, k, g, u, step, master, filler),
        _ => unreachable!(),
    }
}
