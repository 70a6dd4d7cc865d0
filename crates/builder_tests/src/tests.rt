// Small designs block by block, and how many blocks a large one has.
use gdd_pbd::*;
use incidence::Rows;
use std::process::Abort;
use std::test::Fail;
use transversal::cyclic;
use triple_systems::{bose, middle, ordered, skolem};

// Each row stands in the list behind its length.
fn assert_rows(rt: &impl Abort, rows: &Rows, list: &[u16]) {
    let mut at = 0;
    for row in rows.iter() {
        assert!(rt; at < list.len());
        assert_eq!(rt; usize::from(list[at]), row.len());
        assert!(rt; row.len() < list.len() - at);
        assert_eq!(rt; row, &list[at + 1..at + 1 + row.len()]);
        at += row.len() + 1;
    }
    assert_eq!(rt; at, list.len());
}

// Each two of v points stand together l times in the triples.
fn assert_triples(rt: &impl Abort, rows: &Rows, v: u16, l: u64) {
    let pairs = u64::from(v) * u64::from(v.saturating_sub(1)) / 2;
    assert_eq!(rt;
        (rows.len() as u64).saturating_mul(3),
        pairs.saturating_mul(l)
    );
}

#[test]
fn triple_systems_of_each_order(rt: HostRuntime) -> Result<(), Fail> {
    for t in 0..21 {
        assert_triples(&rt, &bose(rt.alloc(), 6 * t + 3)?, 6 * t + 3, 1);
        assert_triples(&rt, &skolem(rt.alloc(), 6 * t + 7)?, 6 * t + 7, 1);
    }
    for t in 1..64 {
        assert_triples(&rt, &middle(rt.alloc(), 2 * t + 1)?, 2 * t + 1, 3);
        assert_triples(&rt, &ordered(rt.alloc(), 2 * t + 2)?, 2 * t + 2, 6);
    }
    Ok(())
}

#[test]
fn complements(rt: HostRuntime) -> Result<(), Fail> {
    let seven = skolem(rt.alloc(), 7)?;
    assert_rows(
        &rt,
        &complement(rt.alloc(), 7, 4, 2, &seven)?,
        &[
            4, 0, 1, 2, 5, 4, 0, 1, 4, 6, 4, 0, 2, 3, 6, 4, 0, 3, 4, 5, 4, 1, 2, 3, 4, 4, 1, 3, 5,
            6, 4, 2, 4, 5, 6,
        ],
    );
    Ok(())
}

#[test]
fn without_a_point(rt: HostRuntime) -> Result<(), Fail> {
    let seven = skolem(rt.alloc(), 7)?;
    assert_rows(
        &rt,
        &drop_point(rt.alloc(), 7, 2, &seven)?,
        &[
            3, 0, 1, 3, 3, 0, 2, 4, 2, 0, 5, 2, 1, 2, 3, 1, 4, 5, 3, 2, 3, 5, 2, 3, 4,
        ],
    );
    let nine = bose(rt.alloc(), 9)?;
    assert_rows(
        &rt,
        &delete_point(rt.alloc(), 9, 3, &nine)?,
        &[
            3, 0, 2, 5, 3, 0, 3, 6, 3, 0, 4, 7, 3, 1, 2, 7, 3, 1, 3, 4, 3, 1, 5, 6, 3, 2, 4, 6, 3,
            3, 5, 7,
        ],
    );
    Ok(())
}

#[test]
fn of_the_most_points(rt: HostRuntime) -> Result<(), Fail> {
    let large = skolem(rt.alloc(), 127)?;
    let groups = delete_point(rt.alloc(), 127, 3, &large)?;
    let triple = whole(rt.alloc(), 3, 1)?;
    let filled = fill_with_point(rt.alloc(), 3, 2, 63, &groups, &triple)?;
    assert_eq!(rt; filled.len(), 2667);
    Ok(())
}

#[test]
fn filled_groups(rt: HostRuntime) -> Result<(), Fail> {
    let two = cyclic(rt.alloc(), 3, 2)?;
    let three = cyclic(rt.alloc(), 3, 3)?;
    let six = cyclic(rt.alloc(), 3, 6)?;
    let triple = whole(rt.alloc(), 3, 1)?;
    let block = whole(rt.alloc(), 4, 1)?;
    let pbd = drop_point(rt.alloc(), 4, 3, &block)?;
    assert_rows(
        &rt,
        &fill(rt.alloc(), 3, 3, 3, &three, &triple)?,
        &[
            3, 0, 1, 2, 3, 0, 3, 6, 3, 0, 4, 7, 3, 0, 5, 8, 3, 1, 3, 7, 3, 1, 4, 8, 3, 1, 5, 6, 3,
            2, 3, 8, 3, 2, 4, 6, 3, 2, 5, 7, 3, 3, 4, 5, 3, 6, 7, 8,
        ],
    );
    assert_rows(
        &rt,
        &fill_with_point(rt.alloc(), 3, 2, 3, &two, &triple)?,
        &[
            3, 0, 1, 6, 3, 0, 2, 4, 3, 0, 3, 5, 3, 1, 2, 5, 3, 1, 3, 4, 3, 2, 3, 6, 3, 4, 5, 6,
        ],
    );
    assert_rows(
        &rt,
        &split(rt.alloc(), 3, 2, 9, 3, &six, &two)?,
        &[
            3, 0, 2, 4, 3, 0, 3, 5, 3, 0, 6, 12, 3, 0, 7, 13, 3, 0, 8, 14, 3, 0, 9, 15, 3, 0, 10,
            16, 3, 0, 11, 17, 3, 1, 2, 5, 3, 1, 3, 4, 3, 1, 6, 13, 3, 1, 7, 14, 3, 1, 8, 15, 3, 1,
            9, 16, 3, 1, 10, 17, 3, 1, 11, 12, 3, 2, 6, 14, 3, 2, 7, 15, 3, 2, 8, 16, 3, 2, 9, 17,
            3, 2, 10, 12, 3, 2, 11, 13, 3, 3, 6, 15, 3, 3, 7, 16, 3, 3, 8, 17, 3, 3, 9, 12, 3, 3,
            10, 13, 3, 3, 11, 14, 3, 4, 6, 16, 3, 4, 7, 17, 3, 4, 8, 12, 3, 4, 9, 13, 3, 4, 10, 14,
            3, 4, 11, 15, 3, 5, 6, 17, 3, 5, 7, 12, 3, 5, 8, 13, 3, 5, 9, 14, 3, 5, 10, 15, 3, 5,
            11, 16, 3, 6, 8, 10, 3, 6, 9, 11, 3, 7, 8, 11, 3, 7, 9, 10, 3, 12, 14, 16, 3, 12, 15,
            17, 3, 13, 14, 17, 3, 13, 15, 16,
        ],
    );
    assert_rows(
        &rt,
        &td_fill(rt.alloc(), 3, 3, &three, &pbd)?,
        &[
            3, 0, 1, 2, 3, 0, 3, 6, 3, 0, 4, 7, 3, 0, 5, 8, 3, 1, 3, 7, 3, 1, 4, 8, 3, 1, 5, 6, 3,
            2, 3, 8, 3, 2, 4, 6, 3, 2, 5, 7, 3, 3, 4, 5, 3, 6, 7, 8,
        ],
    );
    assert_rows(
        &rt,
        &td_fill_with_point(rt.alloc(), 3, 3, 2, &two, &pbd)?,
        &[
            3, 0, 1, 6, 3, 0, 2, 4, 3, 0, 3, 5, 3, 1, 2, 5, 3, 1, 3, 4, 3, 2, 3, 6, 3, 4, 5, 6,
        ],
    );
    Ok(())
}

#[test]
fn truncated_groups(rt: HostRuntime) -> Result<(), Fail> {
    let two = cyclic(rt.alloc(), 3, 2)?;
    let triple = whole(rt.alloc(), 3, 1)?;
    let pair = drop_point(rt.alloc(), 3, 2, &triple)?;
    assert_rows(
        &rt,
        &truncate_pbd(rt.alloc(), 2, 2, 1, &two, &pair, None)?,
        &[2, 0, 1, 3, 0, 2, 4, 2, 0, 3, 2, 1, 2, 3, 1, 3, 4, 2, 2, 3],
    );
    assert_rows(
        &rt,
        &truncate_pbd(rt.alloc(), 2, 2, 2, &two, &pair, Some(&pair))?,
        &[
            2, 0, 1, 3, 0, 2, 4, 3, 0, 3, 5, 3, 1, 2, 5, 3, 1, 3, 4, 2, 2, 3, 2, 4, 5,
        ],
    );
    Ok(())
}

#[test]
fn weights(rt: HostRuntime) -> Result<(), Fail> {
    let two = cyclic(rt.alloc(), 3, 2)?;
    assert_rows(
        &rt,
        &weight(rt.alloc(), 3, 4, 3, 2, 3, &two, &two)?,
        &[
            3, 0, 4, 8, 3, 0, 5, 9, 3, 0, 6, 10, 3, 0, 7, 11, 3, 1, 4, 9, 3, 1, 5, 8, 3, 1, 6, 11,
            3, 1, 7, 10, 3, 2, 4, 10, 3, 2, 5, 11, 3, 2, 6, 8, 3, 2, 7, 9, 3, 3, 4, 11, 3, 3, 5,
            10, 3, 3, 6, 9, 3, 3, 7, 8,
        ],
    );
    let block = whole(rt.alloc(), 4, 1)?;
    let triple = drop_point(rt.alloc(), 4, 3, &block)?;
    let pbd = td_fill_with_point(rt.alloc(), 3, 3, 2, &two, &triple)?;
    let small = skolem(rt.alloc(), 7)?;
    let large = bose(rt.alloc(), 9)?;
    assert_rows(
        &rt,
        &pbd_to_bibd(rt.alloc(), 7, 3, 3, &pbd, &small, &large)?,
        &[
            3, 0, 1, 14, 3, 0, 2, 12, 3, 0, 3, 13, 3, 0, 4, 8, 3, 0, 5, 9, 3, 0, 6, 10, 3, 0, 7,
            11, 3, 1, 2, 13, 3, 1, 3, 12, 3, 1, 4, 9, 3, 1, 5, 8, 3, 1, 6, 11, 3, 1, 7, 10, 3, 2,
            3, 14, 3, 2, 4, 10, 3, 2, 5, 11, 3, 2, 6, 8, 3, 2, 7, 9, 3, 3, 4, 11, 3, 3, 5, 10, 3,
            3, 6, 9, 3, 3, 7, 8, 3, 4, 5, 14, 3, 4, 6, 12, 3, 4, 7, 13, 3, 5, 6, 13, 3, 5, 7, 12,
            3, 6, 7, 14, 3, 8, 9, 14, 3, 8, 10, 12, 3, 8, 11, 13, 3, 9, 10, 13, 3, 9, 11, 12, 3,
            10, 11, 14, 3, 12, 13, 14,
        ],
    );
    Ok(())
}
