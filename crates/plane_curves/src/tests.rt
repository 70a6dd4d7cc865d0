// Designs that were listed by another program.
use crate::{arc, unital};
use incidence::Rows;
use std::process::Abort;
use std::test::Fail;

// Whether there are so many rows, with these in the middle and at the end.
fn assert_rows(rt: &impl Abort, rows: &Rows, count: usize, middle: &[u16], last: &[u16]) {
    assert_eq!(rt; rows.len(), count);
    assert!(rt; 0 < rows.len());
    assert_eq!(rt; rows.row(rows.len() / 2), middle);
    assert_eq!(rt; rows.row(rows.len() - 1), last);
}

#[test]
#[tactic(auto, unfolding(design_base::specs::Fields::modulus_of, design_base::specs::Fields::moduli, counting::specs::Search::first_in))]
fn unitals(rt: HostRuntime) -> Result<(), Fail> {
    let alloc = rt.alloc();
    assert_rows(&rt, &unital(alloc, 2)?, 12, &[1, 6, 7], &[4, 6, 8]);
    assert_rows(
        &rt,
        &unital(alloc, 3)?,
        63,
        &[3, 12, 19, 22],
        &[20, 21, 22, 23],
    );
    assert_rows(
        &rt,
        &unital(alloc, 4)?,
        208,
        &[7, 27, 40, 54, 64],
        &[58, 59, 60, 61, 62],
    );
    assert_rows(
        &rt,
        &unital(alloc, 5)?,
        525,
        &[12, 21, 25, 29, 101, 104],
        &[120, 121, 122, 123, 124, 125],
    );
    Ok(())
}

#[test]
fn arcs(rt: HostRuntime) -> Result<(), Fail> {
    let alloc = rt.alloc();
    assert_rows(&rt, &arc(alloc, 1, 2)?, 15, &[1, 4], &[4, 5]);
    assert_rows(&rt, &arc(alloc, 1, 3)?, 45, &[2, 8], &[8, 9]);
    assert_rows(&rt, &arc(alloc, 1, 4)?, 153, &[5, 7], &[16, 17]);
    assert_rows(&rt, &arc(alloc, 1, 5)?, 561, &[9, 29], &[32, 33]);
    assert_rows(&rt, &arc(alloc, 1, 6)?, 2145, &[19, 28], &[64, 65]);
    assert_rows(
        &rt,
        &arc(alloc, 2, 3)?,
        63,
        &[3, 10, 14, 22],
        &[24, 25, 26, 27],
    );
    assert_rows(
        &rt,
        &arc(alloc, 2, 4)?,
        221,
        &[7, 18, 33, 44],
        &[48, 49, 50, 51],
    );
    assert_rows(
        &rt,
        &arc(alloc, 2, 5)?,
        825,
        &[15, 27, 54, 92],
        &[96, 97, 98, 99],
    );
    assert_rows(
        &rt,
        &arc(alloc, 3, 4)?,
        255,
        &[7, 22, 28, 49, 70, 74, 97, 109],
        &[112, 113, 114, 115, 116, 117, 118, 119],
    );
    Ok(())
}
