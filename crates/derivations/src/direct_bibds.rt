// The block designs of steps without premises.
ghost use Rattle.std.specs.Prelude.{◌≡◌, ◌^◌, IfOk};
ghost use Rattle.design_base.specs.Canonical.{canonical};
ghost use Rattle.design_base.specs.Geometries.{point_count};
ghost use Rattle.spaces.specs.Lines.{affine_lines as affine_lines_of, projective_lines as projective_lines_of};
ghost use Rattle.derivations.specs.DirectBibds.{direct_blocks, CanBuildDirect, CanListLines};

use design_base::{Memory, Rule, Step};
use field_tables::open_field;
use gdd_pbd::{omit, pairs, whole};
use incidence::Rows;
use plane_curves::{arc, unital};
use spaces::{affine_lines, projective_lines};
use std::alloc::Global;
use triple_systems::{bose, double, middle, ordered, skolem};

// The lines of the affine geometry of dimension `d` over the field of `q` elements.
#[tactic(auto, using(crate::proofs::DirectBibds::own_forms))]
fn affine_list(alloc: Global, q: u16, d: u16) -> Result<Rows, Memory>
    requires { CanListLines q d (q ^ d) }
    ensures { IfOk result (λ rows. rows ≡ canonical (affine_lines_of q d)) }
{
    match open_field(alloc, q)? {
        Some(field) => affine_lines(alloc, &field, d),
        None => unreachable!(),
    }
}

// The lines of the projective geometry of dimension `d` over the field of `q` elements.
#[tactic(auto, using(crate::proofs::DirectBibds::own_forms))]
fn projective_list(alloc: Global, q: u16, d: u16) -> Result<Rows, Memory>
    requires { CanListLines q d (point_count q d) }
    ensures { IfOk result (λ rows. rows ≡ canonical (projective_lines_of q d)) }
{
    match open_field(alloc, q)? {
        Some(field) => projective_lines(alloc, &field, d),
        None => unreachable!(),
    }
}

// The blocks of `k` of `v` points, each two points in `l` of them, of a step that has no ingredients.
#[tactic(auto, unfolding(crate::specs::DirectBibds::direct_blocks, crate::specs::DirectBibds::CanBuildDirect))]
pub(crate) fn build_direct(
    alloc: Global,
    v: u16,
    k: u16,
    l: u16,
    step: &Step,
) -> Result<Rows, Memory>
    requires { CanBuildDirect v k l step.now.rule step.now.a step.now.b }
    ensures { IfOk result (λ rows. rows ≡ canonical (direct_blocks v l step.now.rule step.now.a step.now.b)) }
{
    match step.rule {
        Rule::Whole => whole(alloc, v, l),
        Rule::Pairs => pairs(alloc, v, l),
        Rule::Omit => omit(alloc, v, l),
        Rule::Bose => bose(alloc, v),
        Rule::Skolem => skolem(alloc, v),
        Rule::Double => double(alloc, v),
        Rule::Middle => middle(alloc, v),
        Rule::Ordered => ordered(alloc, v),
        Rule::Affine => affine_list(alloc, step.a, step.b),
        Rule::Projective => projective_list(alloc, step.a, step.b),
        Rule::Unital => unital(alloc, step.a),
        Rule::Arc => arc(alloc, step.a, step.b),
        _ => unreachable!(),
    }
}
