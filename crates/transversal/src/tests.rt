// Blocks that were computed elsewhere.
use super::*;
use field_tables::Fields;
use incidence::Rows;
use std::process::Abort;
use std::test::Fail;

// The number of blocks, and the first two of them.
fn assert_blocks(rt: &impl Abort, rows: &Rows, len: usize, first: &[u16], second: &[u16]) {
    assert_eq!(rt; rows.len(), len);
    assert!(rt; 1 < len);
    assert_eq!(rt; rows.row(0), first);
    assert_eq!(rt; rows.row(1), second);
}

#[test]
fn small_orders(rt: HostRuntime) -> Result<(), Fail> {
    let block = one(rt.alloc(), 4)?;
    assert_eq!(rt; block.len(), 1);
    assert_eq!(rt; block.row(0), [0, 1, 2, 3].as_slice());
    let rows = cyclic(rt.alloc(), 3, 2)?;
    assert_eq!(rt; rows.len(), 4);
    assert_eq!(rt; rows.row(0), [0, 2, 4].as_slice());
    assert_eq!(rt; rows.row(1), [0, 3, 5].as_slice());
    assert_eq!(rt; rows.row(2), [1, 2, 5].as_slice());
    assert_eq!(rt; rows.row(3), [1, 3, 4].as_slice());
    Ok(())
}

#[test]
fn compound_orders(rt: HostRuntime) -> Result<(), Fail> {
    let alloc = rt.alloc();
    let fields = Fields::open(alloc)?;
    let three = field_td(alloc, fields.field(3).ok_or("no field")?, 4)?;
    let four = field_td(alloc, fields.field(4).ok_or("no field")?, 4)?;
    assert_blocks(&rt, &three, 9, &[0, 3, 6, 9], &[0, 4, 7, 10]);
    assert_blocks(
        &rt,
        &product(alloc, 4, 3, 4, &three, &four)?,
        144,
        &[0, 12, 24, 36],
        &[0, 13, 25, 37],
    );
    assert_blocks(
        &rt,
        &parker(alloc, 3, &three)?,
        100,
        &[0, 10, 20, 30],
        &[0, 11, 26, 37],
    );
    Ok(())
}
