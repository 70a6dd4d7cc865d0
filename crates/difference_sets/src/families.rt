// The families of the steps that apply.
ghost use Rattle.std.specs.Prelude.{◌≡◌, IfOk, true};
ghost use Rattle.design_base.specs.Canonical.{canonical};
ghost use Rattle.design_base.specs.Limits.{in_bounds};
ghost use Rattle.design_base.specs.Meets.{Meets};
ghost use Rattle.design_base.specs.declared.query.Query.TheVariants.{Df};
ghost use Rattle.difference_sets.specs.Conditions.{CanBuildCosets, CanBuildFamily};
ghost use Rattle.difference_sets.specs.Families.{family_blocks, field_cosets, step_blocks};
ghost use Rattle.difference_sets.specs.FamilySteps.{family_applies};

use crate::cosets::base_blocks_of_cosets;
use crate::entries::base_blocks_of_entry;
use design_base::{Group, Memory, Query, Rule, Step};
use field_tables::open_field;
use incidence::Rows;
use std::alloc::Global;

// The base blocks of cosets over the field of `q` elements: the first `m` cosets of `f` nonzero elements, and 0 too in each where `z` is 1.
fn base_blocks_of_field(
    alloc: Global,
    q: u16,
    z: u16,
    e: u16,
    f: u16,
    m: u16,
) -> Result<Rows, Memory>
    requires { CanBuildCosets q z e f m }
    ensures { IfOk result (λ rows. rows ≡ field_cosets q z e f m) }
{
    match open_field(alloc, q)? {
        Some(field) => base_blocks_of_cosets(alloc, &field, z, e, f, m),
        None => unreachable!(),
    }
}

// The base blocks of a rule that applies with its parameters `a` and `b` to the question of `v`, `k` and `l`, in any order.
#[tactic(auto, unfolding(crate::specs::Families::family_blocks))]
fn base_blocks_of_rule(
    alloc: Global,
    group: Group,
    v: u16,
    k: u16,
    l: u16,
    rule: Rule,
    a: u16,
    b: u16,
) -> Result<Rows, Memory>
    requires bounds { in_bounds (Df group v k l) ≡ true }
    requires applies { family_applies group v k l rule a b ≡ true }
    ensures { IfOk result (λ rows. rows ≡ family_blocks v k rule a b) }
{
    let nonzero = v - 1;
    match rule {
        Rule::Table => base_blocks_of_entry(alloc, a),
        Rule::Powers => base_blocks_of_field(alloc, v, b, a, nonzero / a, 1),
        Rule::Cosets => base_blocks_of_field(alloc, v, 0, nonzero / k, k, nonzero / k),
        Rule::Cosets0 => {
            let e = nonzero / (k - 1);
            base_blocks_of_field(alloc, v, 1, e, k - 1, e)
        }
        Rule::Halfcosets => base_blocks_of_field(alloc, v, 0, nonzero / k, k, nonzero / k / 2),
        _ => unreachable!(),
    }
}

// The base blocks of a step that applies to a question, in any order.
#[tactic(auto, unfolding(crate::specs::Families::step_blocks, crate::specs::FamilySteps::is_family_step))]
fn base_blocks_of_step(alloc: Global, q: &Query, step: &Step) -> Result<Rows, Memory>
    requires { CanBuildFamily q.now step.now }
    ensures { IfOk result (λ rows. rows ≡ step_blocks q.now step.now) }
{
    match *q {
        Query::Df { group, v, k, l } => base_blocks_of_rule(
            alloc, group, v, k, l, step.rule, step.a, step.b,
        ),
        _ => unreachable!(),
    }
}

/// The difference family of a step that applies to the question, in canonical form: that of `Table` from a list, that of
/// `Powers` of one subgroup of the nonzero elements of a field, and those of the others of its cosets.
///
/// The question is in bounds, and the step applies to it (`is_family_step`). The answer is `Memory` only for want of memory.
///
/// Families of squares are those of R. E. A. C. Paley, On orthogonal matrices (1933), and the families of cosets those of
/// R. M. Wilson, Cyclotomy and difference families in elementary abelian groups, Journal of Number Theory 4 (1972).
pub fn family(alloc: Global, q: &Query, step: &Step) -> Result<Rows, Memory>
    requires { CanBuildFamily q.now step.now }
    ensures blocks { IfOk result (λ rows. rows ≡ canonical (step_blocks q.now step.now)) }
    ensures design { IfOk result (λ rows. Meets q.now rows) }
{
    let rows = base_blocks_of_step(alloc, q, step)?.canonical()?;
    Ok(rows)
}
