// Arrays and quadruple systems row by row, what is known at the ends of each rule, and how many rows the largest have.
ghost use Rattle.std.specs.Prelude.{◌≤◌};

use super::*;
use design_base::POINTS_MAX;
use incidence::Rows;
use std::process::Abort;
use std::test::Fail;

fn assert_row(rt: &impl Abort, rows: &Rows, i: usize, wanted: &[u16]) {
    assert!(rt; i < rows.len());
    assert_eq!(rt; rows.row(i), wanted);
}

fn assert_rows(rt: &impl Abort, rows: &Rows, wanted: &[[u16; 4]]) {
    assert_eq!(rt; rows.len(), wanted.len());
    for (i, row) in wanted.iter().enumerate() {
        assert_row(rt, rows, i, row.as_slice());
    }
}

fn assert_array(rt: &impl Abort, k: u16, n: u16, wanted: ThreeVerdict)
    requires columns { (3 ≤ k) × (k ≤ OA3_K_MAX) }
    requires symbols { (1 ≤ n) × (n ≤ OA3_N_MAX) }
{
    assert_eq!(rt; oa3_verdict(k, n), wanted);
}

fn assert_system(rt: &impl Abort, v: u16, wanted: ThreeVerdict)
    requires { (4 ≤ v) × (v ≤ POINTS_MAX) }
{
    assert_eq!(rt; sqs_verdict(v), wanted);
}

#[test]
fn what_is_known_of_arrays(rt: HostRuntime) -> Result<(), Fail> {
    assert_array(&rt, 3, 1, ThreeVerdict::Yes(ThreeRule::One));
    assert_array(&rt, 18, 1, ThreeVerdict::Yes(ThreeRule::One));
    assert_array(&rt, 4, 2, ThreeVerdict::Yes(ThreeRule::Sum));
    assert_array(&rt, 4, 16, ThreeVerdict::Yes(ThreeRule::Sum));
    assert_array(&rt, 5, 4, ThreeVerdict::Yes(ThreeRule::Polynomials));
    assert_array(&rt, 17, 16, ThreeVerdict::Yes(ThreeRule::Polynomials));
    assert_array(&rt, 5, 2, ThreeVerdict::No);
    assert_array(&rt, 6, 3, ThreeVerdict::No);
    assert_array(&rt, 5, 3, ThreeVerdict::Unknown);
    assert_array(&rt, 5, 6, ThreeVerdict::Unknown);
    assert_array(&rt, 18, 16, ThreeVerdict::Unknown);
    Ok(())
}

#[test]
fn arrays(rt: HostRuntime) -> Result<(), Fail> {
    if let ThreeVerdict::Yes(_) = oa3_verdict(4, 2) {
        let sums = [
            [0, 0, 0, 0],
            [0, 0, 1, 1],
            [0, 1, 0, 1],
            [0, 1, 1, 0],
            [1, 0, 0, 1],
            [1, 0, 1, 0],
            [1, 1, 0, 0],
            [1, 1, 1, 1],
        ];
        assert_rows(&rt, &oa3_rows(rt.alloc(), 4, 2)?, &sums);
    }
    if let ThreeVerdict::Yes(_) = oa3_verdict(5, 4) {
        let rows = oa3_rows(rt.alloc(), 5, 4)?;
        assert_eq!(rt; rows.len(), 64);
        assert_row(&rt, &rows, 0, &[0, 0, 0, 0, 0]);
        assert_row(&rt, &rows, 1, &[0, 0, 1, 1, 1]);
        assert_row(&rt, &rows, 21, &[1, 1, 1, 1, 0]);
        assert_row(&rt, &rows, 37, &[2, 1, 1, 2, 2]);
        assert_row(&rt, &rows, 63, &[3, 3, 3, 3, 0]);
    }
    if let ThreeVerdict::Yes(_) = oa3_verdict(3, 1) {
        let rows = oa3_rows(rt.alloc(), 3, 1)?;
        assert_eq!(rt; rows.len(), 1);
        assert_row(&rt, &rows, 0, &[0, 0, 0]);
    }
    Ok(())
}

#[test]
fn what_is_known_of_quadruple_systems(rt: HostRuntime) -> Result<(), Fail> {
    assert_system(&rt, 4, ThreeVerdict::Yes(ThreeRule::Four));
    assert_system(&rt, 10, ThreeVerdict::Yes(ThreeRule::Ten));
    assert_system(&rt, 8, ThreeVerdict::Yes(ThreeRule::Double));
    assert_system(&rt, 20, ThreeVerdict::Yes(ThreeRule::Double));
    assert_system(&rt, 128, ThreeVerdict::Yes(ThreeRule::Double));
    assert_system(&rt, 5, ThreeVerdict::No);
    assert_system(&rt, 9, ThreeVerdict::No);
    assert_system(&rt, 126, ThreeVerdict::No);
    assert_system(&rt, 14, ThreeVerdict::Unknown);
    assert_system(&rt, 28, ThreeVerdict::Unknown);
    Ok(())
}

#[test]
fn quadruple_systems(rt: HostRuntime) -> Result<(), Fail> {
    if let ThreeVerdict::Yes(_) = sqs_verdict(8) {
        let eight = [
            [0, 1, 2, 3],
            [0, 1, 4, 5],
            [0, 1, 6, 7],
            [0, 2, 4, 6],
            [0, 2, 5, 7],
            [0, 3, 4, 7],
            [0, 3, 5, 6],
            [1, 2, 4, 7],
            [1, 2, 5, 6],
            [1, 3, 4, 6],
            [1, 3, 5, 7],
            [2, 3, 4, 5],
            [2, 3, 6, 7],
            [4, 5, 6, 7],
        ];
        assert_rows(&rt, &sqs_blocks(rt.alloc(), 8)?, &eight);
    }
    if let ThreeVerdict::Yes(_) = sqs_verdict(10) {
        let ten = sqs_blocks(rt.alloc(), 10)?;
        assert_eq!(rt; ten.len(), 30);
        assert_row(&rt, &ten, 0, &[0, 1, 2, 6]);
        assert_row(&rt, &ten, 14, &[1, 2, 8, 9]);
        assert_row(&rt, &ten, 29, &[5, 6, 8, 9]);
    }
    if let ThreeVerdict::Yes(_) = sqs_verdict(128) {
        let blocks = sqs_blocks(rt.alloc(), 128)?;
        assert_eq!(rt; blocks.len(), 85344);
        assert_row(&rt, &blocks, 40000, &[18, 41, 125, 127]);
    }
    Ok(())
}
