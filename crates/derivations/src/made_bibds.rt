// The block designs of steps with premises.
ghost use Rattle.std.specs.Prelude.{◌≡◌, [], ◌∷◌, map, IfOk};
ghost use Rattle.design_base.specs.Canonical.{canonical};
ghost use Rattle.derivations.specs.MadeBibds.{made_blocks, CanBuildMade};

use design_base::{Group, Memory, Rule, Step};
use difference_sets::develop;
use gdd_pbd::{complement, fill, fill_with_point, pbd_to_bibd, sum};
use incidence::Rows;
use std::alloc::Global;

// The blocks that a step makes of one ingredient.
#[tactic(auto, unfolding(crate::specs::MadeBibds::made_blocks, crate::specs::MadeBibds::CanBuildMade))]
fn made_of_one(
    alloc: Global,
    v: u16,
    k: u16,
    l: u16,
    step: &Step,
    only: &Rows,
) -> Result<Rows, Memory>
    requires { CanBuildMade v k l step.now.rule step.now.a step.now.b (only.now ∷ []) }
    ensures { IfOk result (λ rows. rows ≡ canonical (made_blocks v k step.now.rule step.now.a step.now.b (only.now ∷ []))) }
{
    match step.rule {
        Rule::Developz => develop(alloc, Group::Cyclic, v, k, l, only),
        Rule::Developf => develop(alloc, Group::Field, v, k, l, only),
        Rule::Complement => complement(alloc, v, k, l, only),
        _ => unreachable!(),
    }
}

// The blocks that a step makes of two ingredients.
#[tactic(auto, unfolding(crate::specs::MadeBibds::made_blocks, crate::specs::MadeBibds::CanBuildMade))]
fn made_of_two(
    alloc: Global,
    v: u16,
    k: u16,
    l: u16,
    step: &Step,
    first: &Rows,
    second: &Rows,
) -> Result<Rows, Memory>
    requires { CanBuildMade v k l step.now.rule step.now.a step.now.b (first.now ∷ second.now ∷ []) }
    ensures { IfOk result (λ rows. rows ≡ canonical (made_blocks v k step.now.rule step.now.a step.now.b (first.now ∷ second.now ∷ []))) }
{
    match step.rule {
        Rule::Fill => fill(alloc, k, step.a, step.b, first, second),
        Rule::Fill1 => fill_with_point(alloc, k, step.a, step.b, first, second),
        Rule::Sum => sum(alloc, v, k, l, step.a, first, second),
        _ => unreachable!(),
    }
}

// The blocks that a step makes of three ingredients.
#[tactic(auto, unfolding(crate::specs::MadeBibds::made_blocks, crate::specs::MadeBibds::CanBuildMade))]
fn made_of_three(
    alloc: Global,
    v: u16,
    k: u16,
    l: u16,
    step: &Step,
    pbd: &Rows,
    small: &Rows,
    large: &Rows,
) -> Result<Rows, Memory>
    requires { CanBuildMade v k l step.now.rule step.now.a step.now.b (pbd.now ∷ small.now ∷ large.now ∷ []) }
    ensures { IfOk result (λ rows. rows ≡ canonical (made_blocks v k step.now.rule step.now.a step.now.b (pbd.now ∷ small.now ∷ large.now ∷ []))) }
{
    match step.rule {
        Rule::Pbd => {
            let points = (v - 1) / (k - 1);
            pbd_to_bibd(alloc, points, step.a, k, pbd, small, large)
        }
        _ => unreachable!(),
    }
}

// The blocks of `k` of `v` points, each two points in `l` of them, that a step makes of its ingredients. A rule is one
// arm of the function for its number of ingredients.
#[tactic(auto, unfolding(crate::specs::MadeBibds::made_blocks, crate::specs::MadeBibds::CanBuildMade))]
pub(crate) fn build_made(
    alloc: Global,
    v: u16,
    k: u16,
    l: u16,
    step: &Step,
    ingredients: &[&Rows],
) -> Result<Rows, Memory>
    requires { CanBuildMade v k l step.now.rule step.now.a step.now.b (map (λ r. r.now) ingredients.now) }
    ensures { IfOk result (λ rows. rows ≡ canonical (made_blocks v k step.now.rule step.now.a step.now.b (map (λ r. r.now) ingredients.now))) }
{
    match ingredients {
        [only] => made_of_one(alloc, v, k, l, step, only),
        [first, second] => made_of_two(alloc, v, k, l, step, first, second),
        [pbd, small, large] => made_of_three(alloc, v, k, l, step, pbd, small, large),
        _ => unreachable!(),
    }
}
