ghost use Rattle.std.specs.Prelude.{◌≡◌, ◌*◌, ◌^◌, ◌<◌, ◌≤◌, IfOk, length, map};
ghost use Rattle.design_base.specs.declared.limits.TheConstants.{PACKED_MAX};
ghost use Rattle.incidence.specs.Packed.{size_of};

use crate::{Checker, Finding, Scratch, check_bibd, check_gdd, check_pbd, check_td};
use design_base::{Group, Memory, Query, in_bounds};
use incidence::Rows;
use std::alloc::Global;
use std::test::Fail;

// The list of the rows.
#[tactic(auto, using(incidence::proofs::Ordered::size_more))]
fn packed(alloc: Global, list: &[&[u16]]) -> Result<Rows, Memory>
    requires { size_of (map (λ row. row.now) list.now) < PACKED_MAX }
    ensures { IfOk result (λ rows. rows ≡ map (λ row. row.now) list.now) }
{
    let mut rows = Rows::new(alloc);
    for row in list {
        rows.push_row(row)?;
    }
    Ok(rows)
}

// What is found in the plane of order 2 with another last line.
#[tactic(auto, unfolding(design_base::specs::Limits::in_bounds))]
fn plane_with(alloc: Global, last: &[u16], scratch: &mut Scratch) -> Result<Finding, Memory>
    requires { length last.now < 2 ^ 16 }
{
    let list: [&[u16]; 6] = [
        &[0, 1, 3],
        &[1, 2, 4],
        &[2, 3, 5],
        &[3, 4, 6],
        &[0, 4, 5],
        &[1, 5, 6],
    ];
    let mut rows = packed(alloc, &list)?;
    rows.push_row(last)?;
    Ok(check_bibd(&rows, 7, 3, 1, scratch))
}

#[test]
fn lines_of_a_plane(rt: HostRuntime) -> Result<(), Fail> {
    let mut scratch = Scratch::new(rt.alloc())?;
    let table: [(&[u16], Finding); 7] = [
        (&[0, 2, 6], Finding::Valid),
        (
            &[0, 2, 5],
            Finding::BadPair {
                x: 0,
                y: 5,
                count: 2,
            },
        ),
        (&[0, 2, 2], Finding::BadBlock { index: 7 }),
        (&[0, 6, 2], Finding::BadBlock { index: 7 }),
        (&[0, 2, 7], Finding::BadBlock { index: 7 }),
        (&[0, 2], Finding::BadBlock { index: 7 }),
        (&[0, 2, 4, 6], Finding::BadBlock { index: 7 }),
    ];
    for (last, finding) in table {
        assert_eq!(rt;
            plane_with(rt.alloc(), last, &mut scratch)?,
            finding,
            "with {last:?}"
        );
    }
    Ok(())
}

#[test]
#[tactic(auto, unfolding(design_base::specs::Limits::in_bounds))]
fn no_blocks(rt: HostRuntime) -> Result<(), Fail> {
    let mut scratch = Scratch::new(rt.alloc())?;
    let none = Finding::BadPair {
        x: 0,
        y: 1,
        count: 0,
    };
    assert_eq!(rt;
        check_bibd(&Rows::new(rt.alloc()), 7, 3, 1, &mut scratch),
        none
    );
    Ok(())
}

#[test]
#[tactic(auto, unfolding(design_base::specs::Limits::in_bounds))]
fn blocks_across_groups(rt: HostRuntime) -> Result<(), Fail> {
    let mut scratch = Scratch::new(rt.alloc())?;
    let list: [&[u16]; 4] = [&[0, 2, 4], &[0, 3, 5], &[1, 2, 5], &[1, 3, 4]];
    let mut rows = packed(rt.alloc(), &list)?;
    assert_eq!(rt; check_td(&rows, 3, 2, &mut scratch), Finding::Valid);
    assert_eq!(rt; check_gdd(&rows, 3, 2, 3, &mut scratch), Finding::Valid);
    rows.push_row(&[0, 1, 4])?;
    let together = Finding::BadPair {
        x: 0,
        y: 1,
        count: 1,
    };
    assert_eq!(rt; check_td(&rows, 3, 2, &mut scratch), together);
    Ok(())
}

// The block of the line of slope x through 0 and y modulo 61: one point of each of 61 groups, and point x of the last.
fn line(x: u16, y: u16) -> [u16; 62]
    requires { (x < 61) × (y < 61) }
{
    let mut block = [61 * 61 + x; 62];
    for j in 0..61 {
        block[j as usize] = 61 * j + (x * j + y) % 61;
    }
    block
}

// The blocks of the first so many lines, of which there are 61 of each slope.
fn lines(alloc: Global, count: u16) -> Result<Rows, Memory>
    requires { count ≤ 61 * 61 }
    ensures { IfOk result (λ rows. size_of rows ≡ count * 63) }
{
    let mut rows = Rows::new(alloc);
    for m in 0..count {
        rows.push_row(&line(m / 61, m % 61))?;
    }
    Ok(rows)
}

#[test]
#[tactic(auto, unfolding(design_base::specs::Limits::in_bounds))]
fn a_large_transversal_design(rt: HostRuntime) -> Result<(), Fail> {
    let mut scratch = Scratch::new(rt.alloc())?;
    let all = lines(rt.alloc(), 61 * 61)?;
    assert_eq!(rt; check_td(&all, 62, 61, &mut scratch), Finding::Valid);
    let mut rows = lines(rt.alloc(), 61 * 61 - 1)?;
    let missing = Finding::BadPair {
        x: 60,
        y: 120,
        count: 0,
    };
    assert_eq!(rt; check_td(&rows, 62, 61, &mut scratch), missing);
    let mut last = line(60, 60);
    last[61] = 61 * 61 + 59;
    rows.push_row(&last)?;
    let twice = Finding::BadPair {
        x: 60,
        y: 3_780,
        count: 2,
    };
    assert_eq!(rt; check_td(&rows, 62, 61, &mut scratch), twice);
    Ok(())
}

#[test]
#[tactic(auto, unfolding(design_base::specs::Limits::in_bounds))]
fn a_divisible_design(rt: HostRuntime) -> Result<(), Fail> {
    let mut scratch = Scratch::new(rt.alloc())?;
    let list: [&[u16]; 8] = [
        &[0, 2, 5],
        &[0, 3, 6],
        &[0, 4, 7],
        &[1, 2, 7],
        &[1, 3, 4],
        &[1, 5, 6],
        &[2, 4, 6],
        &[3, 5, 7],
    ];
    let rows = packed(rt.alloc(), &list)?;
    assert_eq!(rt; check_gdd(&rows, 3, 2, 4, &mut scratch), Finding::Valid);
    Ok(())
}

#[test]
#[tactic(auto, unfolding(design_base::specs::Limits::in_bounds))]
fn blocks_of_two_sizes(rt: HostRuntime) -> Result<(), Fail> {
    let mut scratch = Scratch::new(rt.alloc())?;
    let list: [&[u16]; 8] = [
        &[0, 1, 2],
        &[0, 3],
        &[0, 4],
        &[1, 3],
        &[1, 4],
        &[2, 3],
        &[2, 4],
        &[3, 4],
    ];
    let mut rows = packed(rt.alloc(), &list)?;
    assert_eq!(rt; check_pbd(&rows, 5, 2, &mut scratch), Finding::Valid);
    rows.push_row(&[4])?;
    assert_eq!(rt;
        check_pbd(&rows, 5, 2, &mut scratch),
        Finding::BadBlock { index: 9 }
    );
    Ok(())
}

#[test]
fn one_checker_serves_all_kinds(rt: HostRuntime) -> Result<(), Fail> {
    let triangle: [&[u16]; 3] = [&[0, 1], &[0, 2], &[1, 2]];
    let rows = packed(rt.alloc(), &triangle)?;
    let mut checker = Checker::new(rt.alloc());
    for (q, finding) in [
        (Query::Bibd { v: 3, k: 2, l: 1 }, Finding::Valid),
        (Query::Td { k: 2, n: 1 }, Finding::BadBlock { index: 2 }),
        (Query::Gdd { k: 2, g: 1, u: 3 }, Finding::Valid),
        (Query::Pbd { v: 3, s: 2 }, Finding::Valid),
        (
            Query::Df {
                group: Group::Field,
                v: 3,
                k: 2,
                l: 3,
            },
            Finding::Valid,
        ),
        (Query::Pbd { v: 2, s: 2 }, Finding::BadBlock { index: 2 }),
    ] {
        assert!(rt; in_bounds(&q));
        assert_eq!(rt; checker.check(&q, &rows)?, finding);
    }
    Ok(())
}

#[test]
fn base_blocks(rt: HostRuntime) -> Result<(), Fail> {
    let mut checker = Checker::new(rt.alloc());
    let twice = Finding::BadPair {
        x: 0,
        y: 1,
        count: 2,
    };
    let table: [(Group, u16, u16, u16, &[u16], Finding); 4] = [
        (Group::Cyclic, 7, 3, 1, &[0, 1, 3], Finding::Valid),
        (Group::Cyclic, 7, 3, 1, &[0, 1, 2], twice),
        (
            Group::Cyclic,
            7,
            3,
            1,
            &[0, 3, 1],
            Finding::BadBlock { index: 1 },
        ),
        (
            Group::Field,
            16,
            6,
            2,
            &[3, 7, 11, 12, 13, 14],
            Finding::Valid,
        ),
    ];
    for (group, v, k, l, block, finding) in table {
        let mut rows = Rows::new(rt.alloc());
        assert!(rt; block.len() < 10);
        rows.push_row(block)?;
        let q = Query::Df { group, v, k, l };
        assert!(rt; in_bounds(&q));
        assert_eq!(rt; checker.check(&q, &rows)?, finding, "of {block:?}");
    }
    Ok(())
}
