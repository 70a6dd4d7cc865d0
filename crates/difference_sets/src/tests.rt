// Families and designs that were listed by another program.
use crate::{develop, family, is_family_step};
use design_base::{Group, Query, Rule, Step, in_bounds};
use incidence::Rows;
use std::alloc::Global;
use std::process::Abort;
use std::test::Fail;

// Whether the rows are these.
fn assert_rows(rt: &impl Abort, rows: &Rows, want: &[&[u16]]) {
    assert_eq!(rt; rows.len(), want.len());
    for (i, row) in want.iter().enumerate() {
        assert_eq!(rt; rows.row(i), *row);
    }
}

// The family of a step over the field of v elements, where the step applies.
fn assert_family(
    rt: &impl Abort,
    alloc: Global,
    q: Query,
    step: Step,
    want: &[&[u16]],
) -> Result<(), Fail> {
    assert!(rt; in_bounds(&q));
    assert!(rt; is_family_step(&q, &step));
    assert_rows(rt, &family(alloc, &q, &step)?, want);
    Ok(())
}

#[test]
fn families(rt: HostRuntime) -> Result<(), Fail> {
    let alloc = rt.alloc();
    let over_field = |v: u16, k: u16, l: u16| Query::Df {
        group: Group::Field,
        v,
        k,
        l,
    };
    let step = |rule: Rule| Step::new(rule, 0, 0, 0, 0);
    assert_family(
        &rt,
        alloc,
        over_field(25, 4, 1),
        Step::new(Rule::Table, 6, 0, 0, 0),
        &[&[0, 1, 5, 12], &[0, 2, 10, 24]],
    )?;
    assert_family(
        &rt,
        alloc,
        over_field(13, 4, 1),
        Step::new(Rule::Powers, 4, 1, 0, 0),
        &[&[0, 1, 3, 9]],
    )?;
    assert_family(
        &rt,
        alloc,
        over_field(9, 4, 3),
        step(Rule::Cosets),
        &[&[1, 2, 3, 6], &[4, 5, 7, 8]],
    )?;
    assert_family(
        &rt,
        alloc,
        over_field(5, 3, 3),
        step(Rule::Cosets0),
        &[&[0, 1, 4], &[0, 2, 3]],
    )?;
    assert_family(
        &rt,
        alloc,
        over_field(19, 3, 1),
        step(Rule::Halfcosets),
        &[&[1, 7, 11], &[2, 3, 14], &[4, 6, 9]],
    )
}

#[test]
fn steps_that_do_not_apply(rt: HostRuntime) -> Result<(), Fail> {
    let q = Query::Df {
        group: Group::Field,
        v: 53,
        k: 13,
        l: 3,
    };
    assert!(&rt; in_bounds(&q));
    assert!(&rt; !is_family_step(&q, &Step::new(Rule::Powers, 4, 0, 0, 0)));
    assert!(&rt; !is_family_step(&q, &Step::new(Rule::Table, 12, 0, 0, 0)));
    assert!(&rt; !is_family_step(&q, &Step::new(Rule::Bose, 0, 0, 0, 0)));
    Ok(())
}

#[test]
fn designs(rt: HostRuntime) -> Result<(), Fail> {
    let alloc = rt.alloc();
    let q = Query::Df {
        group: Group::Cyclic,
        v: 7,
        k: 3,
        l: 1,
    };
    let step = Step::new(Rule::Table, 1, 0, 0, 0);
    assert!(&rt; in_bounds(&q));
    assert!(&rt; is_family_step(&q, &step));
    let base = family(alloc, &q, &step)?;
    let want: [&[u16]; 7] = [
        &[0, 1, 3],
        &[0, 2, 6],
        &[0, 4, 5],
        &[1, 2, 4],
        &[1, 5, 6],
        &[2, 3, 5],
        &[3, 4, 6],
    ];
    assert_rows(&rt, &develop(alloc, Group::Cyclic, 7, 3, 1, &base)?, &want);
    let q = Query::Df {
        group: Group::Field,
        v: 4,
        k: 3,
        l: 2,
    };
    let step = Step::new(Rule::Cosets, 0, 0, 0, 0);
    assert!(&rt; in_bounds(&q));
    assert!(&rt; is_family_step(&q, &step));
    let base = family(alloc, &q, &step)?;
    let want: [&[u16]; 4] = [&[0, 1, 2], &[0, 1, 3], &[0, 2, 3], &[1, 2, 3]];
    assert_rows(&rt, &develop(alloc, Group::Field, 4, 3, 2, &base)?, &want);
    Ok(())
}
