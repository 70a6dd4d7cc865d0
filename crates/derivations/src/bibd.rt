// The block designs of steps.
ghost use Rattle.std.specs.Prelude.{◌≡◌, map, IfOk};
ghost use Rattle.design_base.specs.Canonical.{canonical};
ghost use Rattle.derivations.specs.BibdBlocks.{bibd_blocks, CanBuildBibd};

use crate::direct_bibds::build_direct;
use crate::made_bibds::build_made;
use design_base::{Memory, Step};
use incidence::Rows;
use std::alloc::Global;

// The blocks of `k` of `v` points, each two points in `l` of them, that a step makes of the ingredients.
#[tactic(auto, unfolding(crate::specs::BibdBlocks::bibd_blocks, crate::specs::BibdBlocks::CanBuildBibd))]
pub(crate) fn build_bibd(
    alloc: Global,
    v: u16,
    k: u16,
    l: u16,
    step: &Step,
    ingredients: &[&Rows],
) -> Result<Rows, Memory>
    requires { CanBuildBibd v k l step.now.rule step.now.a step.now.b step.now.c step.now.d (map (λ r. r.now) ingredients.now) }
    ensures { IfOk result (λ rows. rows ≡ canonical (bibd_blocks v k l step.now.rule step.now.a step.now.b step.now.c step.now.d (map (λ r. r.now) ingredients.now))) }
{
    match ingredients {
        [] => build_direct(alloc, v, k, l, step),
        _ => build_made(alloc, v, k, l, step, ingredients),
    }
}
