// Small systems block by block, and how many blocks the largest have.
use super::*;
use std::process::Abort;
use std::test::Fail;

fn assert_blocks(rt: &impl Abort, rows: &Rows, blocks: &[[u16; 3]]) {
    assert_eq!(rt; rows.len(), blocks.len());
    for (i, block) in blocks.iter().enumerate() {
        assert_eq!(rt; rows.row(i), block.as_slice());
    }
}

#[test]
fn bose_of_nine_points(rt: HostRuntime) -> Result<(), Fail> {
    assert_blocks(&rt, &bose(rt.alloc(), 3)?, &[[0, 1, 2]]);
    let nine = [
        [0, 1, 5],
        [0, 2, 4],
        [0, 3, 6],
        [0, 7, 8],
        [1, 2, 3],
        [1, 4, 7],
        [1, 6, 8],
        [2, 5, 8],
        [2, 6, 7],
        [3, 4, 8],
        [3, 5, 7],
        [4, 5, 6],
    ];
    assert_blocks(&rt, &bose(rt.alloc(), 9)?, &nine);
    assert_eq!(rt; bose(rt.alloc(), 123)?.len(), 2501);
    Ok(())
}

#[test]
fn skolem_of_seven_points(rt: HostRuntime) -> Result<(), Fail> {
    let seven = [
        [0, 1, 3],
        [0, 2, 4],
        [0, 5, 6],
        [1, 2, 6],
        [1, 4, 5],
        [2, 3, 5],
        [3, 4, 6],
    ];
    assert_blocks(&rt, &skolem(rt.alloc(), 7)?, &seven);
    assert_eq!(rt; skolem(rt.alloc(), 127)?.len(), 2667);
    Ok(())
}

#[test]
fn double_of_six_points(rt: HostRuntime) -> Result<(), Fail> {
    let six = [
        [0, 1, 2],
        [0, 1, 4],
        [0, 2, 5],
        [0, 3, 4],
        [0, 3, 5],
        [1, 2, 3],
        [1, 3, 5],
        [1, 4, 5],
        [2, 3, 4],
        [2, 4, 5],
    ];
    assert_blocks(&rt, &double(rt.alloc(), 6)?, &six);
    assert_eq!(rt; double(rt.alloc(), 126)?.len(), 5250);
    Ok(())
}

#[test]
fn double_of_nine_points(rt: HostRuntime) -> Result<(), Fail> {
    assert_blocks(&rt, &double(rt.alloc(), 3)?, &[[0, 1, 2], [0, 1, 2]]);
    assert_blocks(
        &rt,
        &double(rt.alloc(), 4)?,
        &[[0, 1, 2], [0, 1, 3], [0, 2, 3], [1, 2, 3]],
    );
    let nine = [
        [0, 1, 5],
        [0, 1, 5],
        [0, 2, 4],
        [0, 2, 4],
        [0, 3, 6],
        [0, 3, 6],
        [0, 7, 8],
        [0, 7, 8],
        [1, 2, 3],
        [1, 2, 3],
        [1, 4, 7],
        [1, 4, 7],
        [1, 6, 8],
        [1, 6, 8],
        [2, 5, 8],
        [2, 5, 8],
        [2, 6, 7],
        [2, 6, 7],
        [3, 4, 8],
        [3, 4, 8],
        [3, 5, 7],
        [3, 5, 7],
        [4, 5, 6],
        [4, 5, 6],
    ];
    assert_blocks(&rt, &double(rt.alloc(), 9)?, &nine);
    assert_eq!(rt; double(rt.alloc(), 127)?.len(), 5334);
    Ok(())
}

#[test]
fn middle_of_five_points(rt: HostRuntime) -> Result<(), Fail> {
    let five = [
        [0, 1, 2],
        [0, 1, 3],
        [0, 1, 4],
        [0, 2, 3],
        [0, 2, 4],
        [0, 3, 4],
        [1, 2, 3],
        [1, 2, 4],
        [1, 3, 4],
        [2, 3, 4],
    ];
    assert_blocks(&rt, &middle(rt.alloc(), 5)?, &five);
    assert_eq!(rt; middle(rt.alloc(), 127)?.len(), 8001);
    Ok(())
}

#[test]
fn ordered_of_four_points(rt: HostRuntime) -> Result<(), Fail> {
    let four = [
        [0, 1, 2],
        [0, 1, 2],
        [0, 1, 2],
        [0, 1, 3],
        [0, 1, 3],
        [0, 1, 3],
        [0, 2, 3],
        [0, 2, 3],
        [0, 2, 3],
        [1, 2, 3],
        [1, 2, 3],
        [1, 2, 3],
    ];
    assert_blocks(&rt, &ordered(rt.alloc(), 4)?, &four);
    assert_eq!(rt; ordered(rt.alloc(), 128)?.len(), 16256);
    Ok(())
}
