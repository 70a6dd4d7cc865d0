ghost use Rattle.std.specs.Prelude.{◌≡◌, ◌<◌, IfOk, length, map};
ghost use Rattle.design_base.specs.declared.limits.TheConstants.{PACKED_MAX};
ghost use Rattle.incidence.specs.Packed.{size_of};

use crate::{CheckEnd, Design};
use design_base::{Group, Memory, Query, in_bounds};
use design_checks::{Checker, Finding};
use incidence::Rows;
use std::alloc::Global;
use std::process::Abort;
use std::test::Fail;

// The list of the blocks.
#[tactic(auto, using(incidence::proofs::Ordered::size_more))]
fn packed(alloc: Global, list: &[&[u16]]) -> Result<Rows, Memory>
    requires { size_of (map (λ row. row.now) list.now) < PACKED_MAX }
    ensures { IfOk result (λ rows. rows ≡ map (λ row. row.now) list.now) }
{
    let mut rows = Rows::new(alloc);
    for row in list {
        rows.push_row(row)?;
    }
    Ok(rows)
}

// The list becomes a design of the question, which keeps both, or this is found of it.
fn assert_checked(
    rt: &impl Abort,
    alloc: Global,
    query: Query,
    list: &[&[u16]],
    unfit: Option<Finding>,
    checker: &mut Checker,
) -> Result<(), Memory>
    requires { size_of (map (λ row. row.now) list.now) < PACKED_MAX }
{
    assert!(rt; in_bounds(&query));
    let rows = packed(alloc, list)?;
    match (Design::checked(query, rows, checker), unfit) {
        (Ok(design), None) => {
            assert_eq!(rt; design.query(), query);
            assert_eq!(rt; design.blocks().len(), list.len());
            assert_rows(rt, &design.into_blocks(), list);
        }
        (Err(CheckEnd::Unfit(found)), Some(finding)) => assert_eq!(rt; found, finding),
        _ => panic!(rt; "of {query:?}"),
    }
    Ok(())
}

// The list has these rows.
fn assert_rows(rt: &impl Abort, rows: &Rows, list: &[&[u16]]) {
    assert_eq!(rt; rows.len(), list.len());
    for (i, row) in list.iter().enumerate() {
        assert!(rt; i < rows.len());
        assert_eq!(rt; rows.row(i), *row);
    }
}

#[test]
fn lines_of_a_plane(rt: HostRuntime) -> Result<(), Fail> {
    let list: [&[u16]; 7] = [
        &[0, 1, 3],
        &[1, 2, 4],
        &[2, 3, 5],
        &[3, 4, 6],
        &[0, 4, 5],
        &[1, 5, 6],
        &[0, 2, 6],
    ];
    let once = Finding::BadPair {
        x: 0,
        y: 1,
        count: 1,
    };
    let mut checker = Checker::new(rt.alloc());
    for (query, unfit) in [
        (Query::Bibd { v: 7, k: 3, l: 1 }, None),
        (Query::Gdd { k: 3, g: 1, u: 7 }, None),
        (Query::Bibd { v: 7, k: 3, l: 2 }, Some(once)),
        (
            Query::Pbd { v: 6, s: 3 },
            Some(Finding::BadBlock { index: 4 }),
        ),
    ] {
        assert_checked(&rt, rt.alloc(), query, &list, unfit, &mut checker)?;
    }
    Ok(())
}

#[test]
fn base_blocks(rt: HostRuntime) -> Result<(), Fail> {
    let query = Query::Df {
        group: Group::Cyclic,
        v: 7,
        k: 3,
        l: 1,
    };
    let twice = Finding::BadPair {
        x: 0,
        y: 1,
        count: 2,
    };
    let mut checker = Checker::new(rt.alloc());
    let family: [&[u16]; 1] = [&[0, 1, 3]];
    assert_checked(&rt, rt.alloc(), query, &family, None, &mut checker)?;
    let other: [&[u16]; 1] = [&[0, 1, 2]];
    assert_checked(&rt, rt.alloc(), query, &other, Some(twice), &mut checker)?;
    Ok(())
}
