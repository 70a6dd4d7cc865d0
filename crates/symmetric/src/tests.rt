// Designs whose smaller designs were listed by another program.
ghost use Rattle.std.specs.Prelude.{◌≡◌, ◌<◌, IfOk, length, map, true};
ghost use Rattle.design_base.specs.Limits.{in_bounds};
ghost use Rattle.design_base.specs.declared.limits.TheConstants.{PACKED_MAX};
ghost use Rattle.design_base.specs.declared.query.Query.TheVariants.{Bibd};
ghost use Rattle.incidence.specs.Packed.{size_of};
ghost use Rattle.symmetric.specs.Symmetric.{AreSymmetric};

use crate::{derived, derived_question, meet, residual, residual_question};
use design_base::{Memory, Query};
use design_checks::{Finding, Scratch, check_bibd};
use incidence::Rows;
use std::alloc::Global;
use std::process::Abort;
use std::test::Fail;

// The list of the rows.
#[tactic(auto, using(incidence::proofs::Ordered::size_more))]
fn packed(alloc: Global, list: &[&[u16]]) -> Result<Rows, Memory>
    requires { size_of (map (λ row. row.now) list.now) < PACKED_MAX }
    ensures { IfOk result (λ rows. rows ≡ map (λ row. row.now) list.now) }
{
    let mut rows = Rows::new(alloc);
    for row in list {
        rows.push_row(row)?;
    }
    Ok(rows)
}

// Whether these are the rows.
fn are(rows: &Rows, list: &[&[u16]]) -> bool {
    rows.iter().eq(list.iter().copied())
}

// The list is a symmetric design with these numbers; at place `i` it gives these blocks outside and inside.
fn assert_gives(
    rt: &impl Abort,
    alloc: Global,
    rows: &Rows,
    numbers: (u16, u16, u16),
    i: usize,
    outside: &[&[u16]],
    inside: &[&[u16]],
) -> Result<(), Memory>
    requires numbers { AreSymmetric numbers.0 numbers.1 numbers.2 }
    requires bounds { in_bounds (Bibd numbers.0 numbers.1 numbers.2) ≡ true }
    requires place { i < numbers.0 }
{
    let (v, k, l) = numbers;
    let mut scratch = Scratch::new(alloc)?;
    let Finding::Valid = check_bibd(rows, v, k, l, &mut scratch) else {
        assert!(rt; false);
        return Ok(());
    };
    for j in 0..usize::from(v) {
        if j != i {
            assert_eq!(rt; meet(rows, v, k, l, i, j), l);
        }
    }
    assert!(rt; are(&residual(alloc, rows, v, k, l, i)?, outside));
    assert!(rt; are(&derived(alloc, rows, v, k, l, i)?, inside));
    Ok(())
}

// The complement of the plane of order 2.
#[tactic(auto, unfolding(design_base::specs::Limits::in_bounds))]
#[test]
fn seven_points(rt: HostRuntime) -> Result<(), Fail> {
    let list: [&[u16]; 7] = [
        &[0, 1, 2, 5],
        &[0, 1, 4, 6],
        &[0, 2, 3, 4],
        &[0, 3, 5, 6],
        &[1, 2, 3, 6],
        &[1, 3, 4, 5],
        &[2, 4, 5, 6],
    ];
    let outside: [&[u16]; 6] = [&[0, 1], &[0, 1], &[0, 2], &[0, 2], &[1, 2], &[1, 2]];
    let inside: [&[u16]; 6] = [&[0, 1], &[0, 2], &[0, 3], &[1, 2], &[1, 3], &[2, 3]];
    let rows = packed(rt.alloc(), &list)?;
    assert_gives(&rt, rt.alloc(), &rows, (7, 4, 2), 0, &outside, &inside)?;
    assert!(rt; residual_question(7, 4, 2) == Query::Bibd { v: 3, k: 2, l: 2 });
    assert!(rt; derived_question(7, 4, 2) == Query::Bibd { v: 4, k: 2, l: 1 });
    Ok(())
}

// Five points in each block; other places give other lists.
#[tactic(auto, unfolding(design_base::specs::Limits::in_bounds))]
#[test]
fn eleven_points(rt: HostRuntime) -> Result<(), Fail> {
    let list: [&[u16]; 11] = [
        &[0, 1, 2, 5, 6],
        &[0, 1, 4, 9, 10],
        &[0, 2, 7, 8, 9],
        &[0, 3, 4, 5, 8],
        &[0, 3, 6, 7, 10],
        &[1, 2, 3, 4, 7],
        &[1, 3, 6, 8, 9],
        &[1, 5, 7, 8, 10],
        &[2, 3, 5, 9, 10],
        &[2, 4, 6, 8, 10],
        &[4, 5, 6, 7, 9],
    ];
    let outside: [&[u16]; 10] = [
        &[0, 1, 2],
        &[0, 1, 5],
        &[0, 2, 4],
        &[0, 3, 4],
        &[0, 3, 5],
        &[1, 2, 3],
        &[1, 3, 4],
        &[1, 4, 5],
        &[2, 3, 5],
        &[2, 4, 5],
    ];
    let inside: [&[u16]; 10] = [
        &[0, 1],
        &[0, 2],
        &[0, 3],
        &[0, 4],
        &[1, 2],
        &[1, 3],
        &[1, 4],
        &[2, 3],
        &[2, 4],
        &[3, 4],
    ];
    let rows = packed(rt.alloc(), &list)?;
    assert_gives(&rt, rt.alloc(), &rows, (11, 5, 2), 10, &outside, &inside)?;
    Ok(())
}
