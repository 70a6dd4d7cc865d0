// Candidates and premises that were computed elsewhere.
use super::*;
use design_base::{Query, Rule, Step, in_bounds};
use std::process::Abort;
use std::test::Fail;

fn td(k: u16, n: u16) -> Query {
    Query::Td { k, n }
}

// These are the candidates, in this order.
pub(crate) fn assert_candidates(rt: &impl Abort, tools: &Tools, q: &Query, steps: &[Step]) {
    assert!(rt; in_bounds(q));
    let mut found = 0;
    for step in Candidates::new(tools, q) {
        assert!(rt; found < steps.len());
        assert_eq!(rt; step, steps[found]);
        assert!(rt; is_candidate(tools, q, &step));
        found += 1;
    }
    assert_eq!(rt; found, steps.len());
}

// These are the premises of the candidate, in this order.
pub(crate) fn assert_premises(
    rt: &impl Abort,
    tools: &Tools,
    q: &Query,
    step: &Step,
    questions: &[Query],
) {
    assert!(rt; in_bounds(q));
    assert!(rt; is_candidate(tools, q, step));
    assert_eq!(rt; premises(tools, q, step).as_slice(), questions);
}

// The step is no candidate.
pub(crate) fn assert_none(rt: &impl Abort, tools: &Tools, q: &Query, step: &Step) {
    assert!(rt; in_bounds(q));
    assert!(rt; !is_candidate(tools, q, step));
}

#[test]
fn small_orders(rt: HostRuntime) -> Result<(), Fail> {
    let tools = Tools::new(rt.alloc());
    assert_candidates(
        &rt,
        &tools,
        &td(2, 1),
        &[Step::new(Rule::TdOne, 0, 0, 0, 0)],
    );
    assert_candidates(
        &rt,
        &tools,
        &td(2, 2),
        &[
            Step::new(Rule::Cyclic, 0, 0, 0, 0),
            Step::new(Rule::Field, 0, 0, 0, 0),
        ],
    );
    assert_candidates(
        &rt,
        &tools,
        &td(6, 4),
        &[Step::new(Rule::Product, 2, 2, 0, 0)],
    );
    assert_candidates(
        &rt,
        &tools,
        &td(4, 10),
        &[
            Step::new(Rule::Product, 2, 5, 0, 0),
            Step::new(Rule::Parker, 3, 0, 0, 0),
            Step::new(Rule::Wilson1, 2, 4, 2, 0),
        ],
    );
    Ok(())
}

#[test]
fn order_twelve(rt: HostRuntime) -> Result<(), Fail> {
    let tools = Tools::new(rt.alloc());
    assert_candidates(
        &rt,
        &tools,
        &td(3, 12),
        &[
            Step::new(Rule::Cyclic, 0, 0, 0, 0),
            Step::new(Rule::Product, 2, 6, 0, 0),
            Step::new(Rule::Product, 3, 4, 0, 0),
            Step::new(Rule::Wilson1, 2, 4, 4, 0),
            Step::new(Rule::Wilson1, 2, 5, 2, 0),
            Step::new(Rule::Wilson1, 3, 3, 3, 0),
            Step::new(Rule::Wilson2, 2, 4, 2, 2),
            Step::new(Rule::Wilson2, 2, 4, 3, 1),
            Step::new(Rule::Wilson2, 2, 5, 1, 1),
        ],
    );
    Ok(())
}

#[test]
fn order_eighteen(rt: HostRuntime) -> Result<(), Fail> {
    let tools = Tools::new(rt.alloc());
    assert_candidates(
        &rt,
        &tools,
        &td(4, 18),
        &[
            Step::new(Rule::Product, 2, 9, 0, 0),
            Step::new(Rule::Product, 3, 6, 0, 0),
            Step::new(Rule::Wilson1, 2, 6, 6, 0),
            Step::new(Rule::Wilson1, 2, 7, 4, 0),
            Step::new(Rule::Wilson1, 2, 8, 2, 0),
            Step::new(Rule::Wilson1, 3, 5, 3, 0),
            Step::new(Rule::Wilson1, 4, 4, 2, 0),
            Step::new(Rule::Wilson2, 2, 5, 4, 4),
            Step::new(Rule::Wilson2, 2, 5, 5, 3),
            Step::new(Rule::Wilson2, 2, 6, 3, 3),
            Step::new(Rule::Wilson2, 2, 6, 4, 2),
            Step::new(Rule::Wilson2, 2, 6, 5, 1),
            Step::new(Rule::Wilson2, 2, 7, 2, 2),
            Step::new(Rule::Wilson2, 2, 7, 3, 1),
            Step::new(Rule::Wilson2, 2, 8, 1, 1),
            Step::new(Rule::Wilson2, 3, 5, 2, 1),
        ],
    );
    Ok(())
}

#[test]
fn order_twenty_six(rt: HostRuntime) -> Result<(), Fail> {
    let tools = Tools::new(rt.alloc());
    assert_candidates(
        &rt,
        &tools,
        &td(4, 26),
        &[
            Step::new(Rule::Product, 2, 13, 0, 0),
            Step::new(Rule::Wilson1, 2, 9, 8, 0),
            Step::new(Rule::Wilson1, 2, 10, 6, 0),
            Step::new(Rule::Wilson1, 2, 11, 4, 0),
            Step::new(Rule::Wilson1, 2, 12, 2, 0),
            Step::new(Rule::Wilson1, 3, 7, 5, 0),
            Step::new(Rule::Wilson1, 3, 8, 2, 0),
            Step::new(Rule::Wilson1, 4, 6, 2, 0),
            Step::new(Rule::Wilson1, 5, 5, 1, 0),
            Step::new(Rule::Wilson1, 6, 4, 2, 0),
            Step::new(Rule::Wilson2, 2, 7, 6, 6),
            Step::new(Rule::Wilson2, 2, 7, 7, 5),
            Step::new(Rule::Wilson2, 2, 8, 5, 5),
            Step::new(Rule::Wilson2, 2, 8, 6, 4),
            Step::new(Rule::Wilson2, 2, 8, 7, 3),
            Step::new(Rule::Wilson2, 2, 8, 8, 2),
            Step::new(Rule::Wilson2, 2, 9, 4, 4),
            Step::new(Rule::Wilson2, 2, 9, 5, 3),
            Step::new(Rule::Wilson2, 2, 9, 6, 2),
            Step::new(Rule::Wilson2, 2, 9, 7, 1),
            Step::new(Rule::Wilson2, 2, 10, 3, 3),
            Step::new(Rule::Wilson2, 2, 10, 4, 2),
            Step::new(Rule::Wilson2, 2, 10, 5, 1),
            Step::new(Rule::Wilson2, 2, 11, 2, 2),
            Step::new(Rule::Wilson2, 2, 11, 3, 1),
            Step::new(Rule::Wilson2, 2, 12, 1, 1),
            Step::new(Rule::Wilson2, 3, 6, 4, 4),
            Step::new(Rule::Wilson2, 3, 6, 5, 3),
            Step::new(Rule::Wilson2, 3, 6, 6, 2),
            Step::new(Rule::Wilson2, 3, 7, 3, 2),
            Step::new(Rule::Wilson2, 3, 7, 4, 1),
            Step::new(Rule::Wilson2, 3, 8, 1, 1),
            Step::new(Rule::Wilson2, 4, 5, 3, 3),
            Step::new(Rule::Wilson2, 4, 5, 4, 2),
            Step::new(Rule::Wilson2, 4, 5, 5, 1),
            Step::new(Rule::Wilson2, 4, 6, 1, 1),
        ],
    );
    Ok(())
}

#[test]
fn premises_of_candidates(rt: HostRuntime) -> Result<(), Fail> {
    let tools = Tools::new(rt.alloc());
    assert_premises(
        &rt,
        &tools,
        &td(2, 1),
        &Step::new(Rule::TdOne, 0, 0, 0, 0),
        &[],
    );
    assert_premises(
        &rt,
        &tools,
        &td(4, 18),
        &Step::new(Rule::Product, 3, 6, 0, 0),
        &[td(4, 3), td(4, 6)],
    );
    assert_premises(
        &rt,
        &tools,
        &td(4, 10),
        &Step::new(Rule::Parker, 3, 0, 0, 0),
        &[td(4, 3)],
    );
    assert_premises(
        &rt,
        &tools,
        &td(4, 18),
        &Step::new(Rule::Wilson1, 3, 5, 3, 0),
        &[td(5, 5), td(4, 3), td(4, 4), td(4, 3)],
    );
    assert_premises(
        &rt,
        &tools,
        &td(4, 18),
        &Step::new(Rule::Wilson2, 3, 5, 2, 1),
        &[td(6, 5), td(4, 3), td(4, 4), td(4, 5), td(4, 2), td(4, 1)],
    );
    Ok(())
}

// Parameters out of range, in another order, past those of the rule, of a rule of another order or of another kind.
#[test]
fn steps_that_are_none(rt: HostRuntime) -> Result<(), Fail> {
    let tools = Tools::new(rt.alloc());
    assert_none(
        &rt,
        &tools,
        &td(4, 18),
        &Step::new(Rule::Product, 6, 3, 0, 0),
    );
    assert_none(
        &rt,
        &tools,
        &td(4, 18),
        &Step::new(Rule::Product, 1, 18, 0, 0),
    );
    assert_none(
        &rt,
        &tools,
        &td(4, 18),
        &Step::new(Rule::Wilson1, 6, 3, 0, 0),
    );
    assert_none(
        &rt,
        &tools,
        &td(4, 18),
        &Step::new(Rule::Wilson1, 2, 6, 5, 0),
    );
    assert_none(
        &rt,
        &tools,
        &td(4, 18),
        &Step::new(Rule::Wilson1, 2, 5, 8, 0),
    );
    assert_none(
        &rt,
        &tools,
        &td(4, 18),
        &Step::new(Rule::Wilson2, 2, 6, 2, 4),
    );
    assert_none(
        &rt,
        &tools,
        &td(5, 10),
        &Step::new(Rule::Parker, 3, 0, 0, 0),
    );
    assert_none(
        &rt,
        &tools,
        &td(4, 10),
        &Step::new(Rule::Parker, 4, 0, 0, 0),
    );
    assert_none(&rt, &tools, &td(4, 18), &Step::new(Rule::Field, 0, 0, 0, 0));
    assert_none(&rt, &tools, &td(2, 9), &Step::new(Rule::Bose, 0, 0, 0, 0));
    Ok(())
}
