// The pairwise balanced designs of steps.
ghost use Rattle.std.specs.Prelude.{◌≡◌, [], ◌∷◌, map, IfOk};
ghost use Rattle.design_base.specs.Canonical.{canonical};
ghost use Rattle.derivations.specs.PbdBlocks.{pbd_blocks, CanBuildPbd};

use crate::copies::canonical_copy;
use design_base::{Memory, Rule, Step};
use gdd_pbd::{drop_point, td_fill, td_fill_with_point, truncate_pbd, whole};
use incidence::Rows;
use std::alloc::Global;

// The pairwise balanced design that a step makes of no ingredients.
#[tactic(auto, unfolding(crate::specs::PbdBlocks::pbd_blocks, crate::specs::PbdBlocks::CanBuildPbd))]
fn pbd_of_none(alloc: Global, v: u16, s: u16, step: &Step) -> Result<Rows, Memory>
    requires { CanBuildPbd v s step.now.rule step.now.a step.now.b step.now.c step.now.d [] }
    ensures { IfOk result (λ rows. rows ≡ canonical (pbd_blocks v s step.now.rule step.now.a step.now.b step.now.c step.now.d [])) }
{
    match step.rule {
        Rule::PbdOne => whole(alloc, v, 1),
        _ => unreachable!(),
    }
}

// The pairwise balanced design that a step makes of one ingredient.
#[tactic(auto, unfolding(crate::specs::PbdBlocks::pbd_blocks, crate::specs::PbdBlocks::CanBuildPbd))]
fn pbd_of_one(alloc: Global, v: u16, s: u16, step: &Step, design: &Rows) -> Result<Rows, Memory>
    requires { CanBuildPbd v s step.now.rule step.now.a step.now.b step.now.c step.now.d (design.now ∷ []) }
    ensures { IfOk result (λ rows. rows ≡ canonical (pbd_blocks v s step.now.rule step.now.a step.now.b step.now.c step.now.d (design.now ∷ []))) }
{
    match step.rule {
        Rule::Bibds => canonical_copy(design),
        Rule::Bibdt => canonical_copy(design),
        Rule::PbdDelete => drop_point(alloc, v + 1, s, design),
        _ => unreachable!(),
    }
}

// The pairwise balanced design that a step makes of two ingredients.
#[tactic(auto, unfolding(crate::specs::PbdBlocks::pbd_blocks, crate::specs::PbdBlocks::CanBuildPbd))]
fn pbd_of_two(
    alloc: Global,
    v: u16,
    s: u16,
    step: &Step,
    td: &Rows,
    group: &Rows,
) -> Result<Rows, Memory>
    requires { CanBuildPbd v s step.now.rule step.now.a step.now.b step.now.c step.now.d (td.now ∷ group.now ∷ []) }
    ensures { IfOk result (λ rows. rows ≡ canonical (pbd_blocks v s step.now.rule step.now.a step.now.b step.now.c step.now.d (td.now ∷ group.now ∷ []))) }
{
    let (a, b) = (step.a, step.b);
    match step.rule {
        Rule::Truncate => truncate_pbd(alloc, s, a, b, td, group, None),
        Rule::Tdfill => td_fill(alloc, s, a, td, group),
        Rule::Tdfill1 => td_fill_with_point(alloc, s, b, a, td, group),
        _ => unreachable!(),
    }
}

// The pairwise balanced design that a step makes of three ingredients.
#[tactic(auto, unfolding(crate::specs::PbdBlocks::pbd_blocks, crate::specs::PbdBlocks::CanBuildPbd))]
fn pbd_of_three(
    alloc: Global,
    v: u16,
    s: u16,
    step: &Step,
    td: &Rows,
    group: &Rows,
    last: &Rows,
) -> Result<Rows, Memory>
    requires { CanBuildPbd v s step.now.rule step.now.a step.now.b step.now.c step.now.d (td.now ∷ group.now ∷ last.now ∷ []) }
    ensures { IfOk result (λ rows. rows ≡ canonical (pbd_blocks v s step.now.rule step.now.a step.now.b step.now.c step.now.d (td.now ∷ group.now ∷ last.now ∷ []))) }
{
    match step.rule {
        Rule::Truncate => truncate_pbd(alloc, s, step.a, step.b, td, group, Some(last)),
        _ => unreachable!(),
    }
}

// The pairwise balanced design of blocks of `s` and of `s` + 1 of `v` points that a step makes of the ingredients. A rule is
// one arm of the function for its number of ingredients; `truncate` has two numbers.
#[tactic(auto, unfolding(crate::specs::PbdBlocks::pbd_blocks, crate::specs::PbdBlocks::CanBuildPbd))]
pub(crate) fn build_pbd(
    alloc: Global,
    v: u16,
    s: u16,
    step: &Step,
    ingredients: &[&Rows],
) -> Result<Rows, Memory>
    requires { CanBuildPbd v s step.now.rule step.now.a step.now.b step.now.c step.now.d (map (λ r. r.now) ingredients.now) }
    ensures { IfOk result (λ rows. rows ≡ canonical (pbd_blocks v s step.now.rule step.now.a step.now.b step.now.c step.now.d (map (λ r. r.now) ingredients.now))) }
{
    match ingredients {
        [] => pbd_of_none(alloc, v, s, step),
        [design] => pbd_of_one(alloc, v, s, step, design),
        [td, group] => pbd_of_two(alloc, v, s, step, td, group),
        [td, group, last] => pbd_of_three(alloc, v, s, step, td, group, last),
        _ => unreachable!(),
    }
}
