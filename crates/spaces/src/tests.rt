ghost use Rattle.std.specs.Prelude.{◌≤◌};

use crate::{affine_lines, projective_lines};
use design_base::{FIELD_ORDERS, POINTS_MAX};
use field_tables::{Field, Fields};
use incidence::Rows;
use std::alloc::Global;
use std::process::Abort;
use std::test::Fail;

// Whether the rows are these.
fn assert_rows(rt: &impl Abort, rows: &Rows, want: &[[u16; 4]]) {
    assert_eq!(rt; rows.len(), want.len());
    for (i, row) in want.iter().enumerate() {
        assert_eq!(rt; rows.row(i), row.as_slice());
    }
}

#[test]
#[tactic(auto, unfolding(design_base::specs::Geometries::point_count, counting::specs::Sums::sum_below))]
fn affine_plane_of_order_four(rt: HostRuntime) -> Result<(), Fail> {
    let lines = [
        [0, 1, 2, 3],
        [0, 4, 8, 12],
        [0, 5, 10, 15],
        [0, 6, 11, 13],
        [0, 7, 9, 14],
        [1, 4, 11, 14],
        [1, 5, 9, 13],
        [1, 6, 8, 15],
        [1, 7, 10, 12],
        [2, 4, 9, 15],
        [2, 5, 11, 12],
        [2, 6, 10, 14],
        [2, 7, 8, 13],
        [3, 4, 10, 13],
        [3, 5, 8, 14],
        [3, 6, 9, 12],
        [3, 7, 11, 15],
        [4, 5, 6, 7],
        [8, 9, 10, 11],
        [12, 13, 14, 15],
    ];
    let fields = Fields::open(rt.alloc())?;
    let field = fields.field(4).ok_or("no field")?;
    assert_eq!(rt; field.order(), 4);
    assert_rows(&rt, &affine_lines(rt.alloc(), field, 2)?, &lines);
    Ok(())
}

#[test]
#[tactic(auto, unfolding(design_base::specs::Geometries::point_count, counting::specs::Sums::sum_below))]
fn projective_plane_of_order_three(rt: HostRuntime) -> Result<(), Fail> {
    let lines = [
        [0, 1, 2, 3],
        [0, 4, 5, 9],
        [0, 6, 7, 12],
        [0, 8, 10, 11],
        [1, 4, 6, 10],
        [1, 5, 7, 8],
        [1, 9, 11, 12],
        [2, 4, 7, 11],
        [2, 5, 10, 12],
        [2, 6, 8, 9],
        [3, 4, 8, 12],
        [3, 5, 6, 11],
        [3, 7, 9, 10],
    ];
    let fields = Fields::open(rt.alloc())?;
    let field = fields.field(3).ok_or("no field")?;
    assert_eq!(rt; field.order(), 3);
    assert_rows(&rt, &projective_lines(rt.alloc(), field, 2)?, &lines);
    Ok(())
}

#[test]
#[tactic(auto, unfolding(design_base::specs::Geometries::point_count, counting::specs::Sums::sum_below))]
fn spaces_of_many_lines(rt: HostRuntime) -> Result<(), Fail> {
    let fields = Fields::open(rt.alloc())?;
    let three = fields.field(3).ok_or("no field")?;
    assert_eq!(rt; three.order(), 3);
    assert_eq!(rt; projective_lines(rt.alloc(), three, 4)?.len(), 1210);
    let five = fields.field(5).ok_or("no field")?;
    assert_eq!(rt; five.order(), 5);
    assert_eq!(rt; affine_lines(rt.alloc(), five, 3)?.len(), 775);
    Ok(())
}

// Each two of v points have one of the lines of k points.
fn assert_count(rt: &impl Abort, lines: &Rows, v: u16, k: u16) {
    let pairs_of = |n: u16| u64::from(n) * u64::from(n.saturating_sub(1));
    let covered = pairs_of(k).saturating_mul(lines.len() as u64);
    assert_eq!(rt; covered, pairs_of(v));
}

// The affine geometry of dimension d over a field, where it has at most POINTS_MAX points.
fn assert_affine(rt: &impl Abort, alloc: Global, field: &Field, d: u16) -> Result<(), Fail>
    requires { 1 ≤ d }
{
    let q = field.order();
    let Some(v) = q.checked_pow(u32::from(d)) else {
        return Ok(());
    };
    if v <= POINTS_MAX {
        let lines = affine_lines(alloc, field, d)?;
        assert_count(rt, &lines, v, q);
    }
    Ok(())
}

#[test]
fn every_affine_geometry(rt: HostRuntime) -> Result<(), Fail> {
    let fields = Fields::open(rt.alloc())?;
    for q in FIELD_ORDERS.iter().copied() {
        let field = fields.field(q).ok_or("no field")?;
        for d in 1..8 {
            assert_affine(&rt, rt.alloc(), field, d)?;
        }
    }
    Ok(())
}
