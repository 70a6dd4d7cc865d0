// Blocks that were computed elsewhere.
ghost use Rattle.std.specs.Prelude.{◌+◌, ◌≤◌, IfOk};
ghost use Rattle.design_base.specs.Blocks.{IsTd};

use super::*;
use field_tables::open_field;
use incidence::Rows;
use std::alloc::Global;
use std::process::Abort;
use std::test::Fail;
use transversal::{field_td, one};

// The number of blocks, and the first two of them.
fn assert_blocks(rt: &impl Abort, rows: &Rows, len: usize, first: &[u16], second: &[u16]) {
    assert_eq!(rt; rows.len(), len);
    assert!(rt; 1 < len);
    assert_eq!(rt; rows.row(0), first);
    assert_eq!(rt; rows.row(1), second);
}

// The place of the first row that is disjoint from the first one.
fn assert_place(rt: &impl Abort, rows: &Rows, place: Option<usize>) {
    assert!(rt; 0 < rows.len());
    assert_eq!(rt; disjoint_from_first(rows), place);
}

// The transversal design of the lines over the field of `q` elements, in `k` groups.
fn lines_over(alloc: Global, q: u16, k: u16) -> Result<Rows, Fail>
    requires two_groups { 2 ≤ k }
    requires columns { k ≤ q + 1 }
    requires points { q ≤ 64 }
    ensures { IfOk result (λ rows. IsTd rows k q) }
{
    let field = open_field(alloc, q)?.ok_or("no field")?;
    let rows = field_td(alloc, &field, k)?;
    Ok(rows)
}

#[test]
fn disjoint_blocks(rt: HostRuntime) -> Result<(), Fail> {
    let alloc = rt.alloc();
    assert_place(&rt, &lines_over(alloc, 3, 3)?, Some(4));
    assert_place(&rt, &lines_over(alloc, 3, 4)?, None);
    assert_place(&rt, &lines_over(alloc, 4, 3)?, Some(6));
    assert_place(&rt, &lines_over(alloc, 4, 4)?, Some(7));
    assert_place(&rt, &lines_over(alloc, 4, 5)?, None);
    Ok(())
}

#[test]
fn one_truncated_group(rt: HostRuntime) -> Result<(), Fail> {
    let alloc = rt.alloc();
    let master = lines_over(alloc, 5, 5)?;
    let small = lines_over(alloc, 3, 4)?;
    let large = lines_over(alloc, 4, 4)?;
    let rows = truncate_one(alloc, 4, 3, 5, 3, &master, &small, &large, &small)?;
    assert_blocks(&rt, &rows, 324, &[0, 18, 51, 56], &[0, 19, 38, 69]);
    Ok(())
}

#[test]
fn one_group_of_three_points(rt: HostRuntime) -> Result<(), Fail> {
    let alloc = rt.alloc();
    let master = lines_over(alloc, 3, 4)?;
    let small = lines_over(alloc, 2, 3)?;
    let large = lines_over(alloc, 3, 3)?;
    let point = one(alloc, 3)?;
    let rows = truncate_one(alloc, 3, 2, 3, 1, &master, &small, &large, &point)?;
    assert_blocks(&rt, &rows, 49, &[0, 7, 15], &[0, 8, 20]);
    let rows = truncate_one(alloc, 3, 2, 3, 2, &master, &small, &large, &small)?;
    assert_blocks(&rt, &rows, 64, &[0, 8, 17], &[0, 9, 22]);
    let rows = truncate_one(alloc, 3, 2, 3, 3, &master, &small, &large, &large)?;
    assert_blocks(&rt, &rows, 81, &[0, 9, 19], &[0, 10, 24]);
    Ok(())
}

#[test]
fn two_truncated_groups(rt: HostRuntime) -> Result<(), Fail> {
    let alloc = rt.alloc();
    let master = lines_over(alloc, 7, 6)?;
    let small = lines_over(alloc, 3, 4)?;
    let large = lines_over(alloc, 4, 4)?;
    let larger = lines_over(alloc, 5, 4)?;
    let point = one(alloc, 4)?;
    let rows = truncate_two(
        alloc, 4, 3, 7, 4, 1, &master, &small, &large, &larger, &large, &point,
    )?;
    assert_blocks(&rt, &rows, 676, &[0, 26, 54, 78], &[0, 27, 73, 79]);
    Ok(())
}

#[test]
fn two_groups_of_four_points(rt: HostRuntime) -> Result<(), Fail> {
    let alloc = rt.alloc();
    let master = lines_over(alloc, 4, 5)?;
    let small = lines_over(alloc, 2, 3)?;
    let large = lines_over(alloc, 3, 3)?;
    let larger = lines_over(alloc, 4, 3)?;
    let point = one(alloc, 3)?;
    let rows = truncate_two(
        alloc, 3, 2, 4, 2, 1, &master, &small, &large, &larger, &small, &point,
    )?;
    assert_blocks(&rt, &rows, 121, &[0, 11, 32], &[0, 12, 22]);
    Ok(())
}
