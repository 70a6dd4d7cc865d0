// Small designs block by block.
use crate::*;
use incidence::Rows;
use std::process::Abort;
use std::test::Fail;

// Each row stands in the list behind its length.
fn assert_rows(rt: &impl Abort, rows: &Rows, list: &[u16]) {
    let mut at = 0;
    for row in rows.iter() {
        assert!(rt; at < list.len());
        assert_eq!(rt; usize::from(list[at]), row.len());
        assert!(rt; row.len() < list.len() - at);
        assert_eq!(rt; row, &list[at + 1..at + 1 + row.len()]);
        at += row.len() + 1;
    }
    assert_eq!(rt; at, list.len());
}

#[test]
fn all_points_all_pairs_all_but_one(rt: HostRuntime) -> Result<(), Fail> {
    assert_rows(&rt, &whole(rt.alloc(), 3, 2)?, &[3, 0, 1, 2, 3, 0, 1, 2]);
    assert_rows(
        &rt,
        &pairs(rt.alloc(), 3, 2)?,
        &[2, 0, 1, 2, 0, 1, 2, 0, 2, 2, 0, 2, 2, 1, 2, 2, 1, 2],
    );
    assert_rows(
        &rt,
        &omit(rt.alloc(), 4, 4)?,
        &[
            3, 0, 1, 2, 3, 0, 1, 2, 3, 0, 1, 3, 3, 0, 1, 3, 3, 0, 2, 3, 3, 0, 2, 3, 3, 1, 2, 3, 3,
            1, 2, 3,
        ],
    );
    assert_eq!(rt; pairs(rt.alloc(), 128, 6)?.len(), 48768);
    Ok(())
}

#[test]
fn the_sum_keeps_repeats(rt: HostRuntime) -> Result<(), Fail> {
    let once = pairs(rt.alloc(), 3, 1)?;
    let twice = pairs(rt.alloc(), 3, 2)?;
    assert_rows(
        &rt,
        &sum(rt.alloc(), 3, 2, 3, 1, &once, &twice)?,
        &[
            2, 0, 1, 2, 0, 1, 2, 0, 1, 2, 0, 2, 2, 0, 2, 2, 0, 2, 2, 1, 2, 2, 1, 2, 2, 1, 2,
        ],
    );
    Ok(())
}
