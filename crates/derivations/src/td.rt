// The transversal designs of steps.
ghost use Rattle.std.specs.Prelude.{◌≡◌, map, IfOk};
ghost use Rattle.design_base.specs.Canonical.{canonical};
ghost use Rattle.design_base.specs.declared.rule.Rule.TheVariants.{Wilson2};
ghost use Rattle.transversal.specs.Conditions.{CanBuildField};
ghost use Rattle.transversal.specs.Constructions.{field_blocks};
ghost use Rattle.derivations.specs.TdBlocks.{td_blocks, CanBuildTd};

use design_base::{Memory, Rule, Step};
use field_tables::open_field;
use incidence::Rows;
use std::alloc::Global;
use transversal::{cyclic, field_td, one, parker, product};
use wilson::{truncate_one, truncate_two};

// The transversal design of the lines over the field of `n` elements.
fn field_list(alloc: Global, k: u16, n: u16) -> Result<Rows, Memory>
    requires { CanBuildField k n }
    ensures { IfOk result (λ rows. rows ≡ canonical (field_blocks k n)) }
{
    match open_field(alloc, n)? {
        Some(field) => field_td(alloc, &field, k),
        None => unreachable!(),
    }
}

// The transversal design of a step by `wilson2`, by its parameters.
#[tactic(auto, unfolding(crate::specs::TdBlocks::CanBuildTd))]
fn truncated_twice(
    alloc: Global,
    k: u16,
    n: u16,
    m: u16,
    t: u16,
    u: u16,
    w: u16,
    ingredients: &[&Rows],
) -> Result<Rows, Memory>
    requires { CanBuildTd k n Wilson2 m t u w (map (λ r. r.now) ingredients.now) }
    ensures { IfOk result (λ rows. rows ≡ canonical (td_blocks k n Wilson2 m t u w (map (λ r. r.now) ingredients.now))) }
{
    let [master, small, large, larger, first, second] = ingredients else {
        unreachable!()
    };
    truncate_two(
        alloc, k, m, t, u, w, master, small, large, larger, first, second,
    )
}

// The transversal design with `k` groups of `n` points of a step whose construction has what it needs. A rule is one arm.
#[tactic(auto, unfolding(crate::specs::TdBlocks::td_blocks, crate::specs::TdBlocks::CanBuildTd))]
pub(crate) fn build_td(
    alloc: Global,
    k: u16,
    n: u16,
    step: &Step,
    ingredients: &[&Rows],
) -> Result<Rows, Memory>
    requires { CanBuildTd k n step.now.rule step.now.a step.now.b step.now.c step.now.d (map (λ r. r.now) ingredients.now) }
    ensures { IfOk result (λ rows. rows ≡ canonical (td_blocks k n step.now.rule step.now.a step.now.b step.now.c step.now.d (map (λ r. r.now) ingredients.now))) }
{
    let (a, b, c, d) = (step.a, step.b, step.c, step.d);
    match (step.rule, ingredients) {
        (Rule::TdOne, []) => one(alloc, k),
        (Rule::Cyclic, []) => cyclic(alloc, k, n),
        (Rule::Field, []) => field_list(alloc, k, n),
        (Rule::Product, [first, second]) => product(alloc, k, a, b, first, second),
        (Rule::Parker, [inner]) => parker(alloc, a, inner),
        (Rule::Wilson1, [master, small, large, rest]) => truncate_one(
            alloc, k, a, b, c, master, small, large, rest,
        ),
        (Rule::Wilson2, _) => truncated_twice(alloc, k, n, a, b, c, d, ingredients),
        _ => unreachable!(),
    }
}
