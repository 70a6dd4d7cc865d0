// Candidates and premises of difference families, group divisible and pairwise balanced designs, computed elsewhere.
use crate::tests::{assert_candidates, assert_none, assert_premises};
use design_base::{Group, Query, Rule, Step};
use rule_terms::Tools;
use std::test::Fail;

fn df(group: Group, v: u16, k: u16, l: u16) -> Query {
    Query::Df { group, v, k, l }
}

fn gdd(k: u16, g: u16, u: u16) -> Query {
    Query::Gdd { k, g, u }
}

fn pbd(v: u16, s: u16) -> Query {
    Query::Pbd { v, s }
}

fn td(k: u16, n: u16) -> Query {
    Query::Td { k, n }
}

fn bibd(v: u16, k: u16) -> Query {
    Query::Bibd { v, k, l: 1 }
}

fn step(rule: Rule) -> Step {
    Step::new(rule, 0, 0, 0, 0)
}

#[test]
fn difference_families(rt: HostRuntime) -> Result<(), Fail> {
    let tools = Tools::new(rt.alloc());
    for (q, only) in [
        (
            df(Group::Cyclic, 7, 3, 1),
            Step::new(Rule::Table, 1, 0, 0, 0),
        ),
        (
            df(Group::Field, 13, 4, 1),
            Step::new(Rule::Powers, 4, 1, 0, 0),
        ),
        (df(Group::Field, 9, 4, 3), step(Rule::Cosets)),
    ] {
        assert_candidates(&rt, &tools, &q, &[only]);
        assert_premises(&rt, &tools, &q, &only, &[]);
    }
    assert_candidates(
        &rt,
        &tools,
        &df(Group::Field, 7, 3, 1),
        &[Step::new(Rule::Powers, 2, 0, 0, 0), step(Rule::Halfcosets)],
    );
    Ok(())
}

#[test]
fn group_divisible_designs(rt: HostRuntime) -> Result<(), Fail> {
    let tools = Tools::new(rt.alloc());
    assert_candidates(
        &rt,
        &tools,
        &gdd(3, 4, 6),
        &[
            Step::new(Rule::Weight, 2, 3, 0, 0),
            Step::new(Rule::Weight, 2, 4, 0, 0),
            Step::new(Rule::Weight, 2, 5, 0, 0),
            Step::new(Rule::Weight, 2, 6, 0, 0),
            Step::new(Rule::Weight, 4, 3, 0, 0),
            Step::new(Rule::Weight, 4, 4, 0, 0),
            Step::new(Rule::Weight, 4, 5, 0, 0),
            Step::new(Rule::Split, 2, 0, 0, 0),
            Step::new(Rule::Split, 3, 0, 0, 0),
        ],
    );
    assert_candidates(
        &rt,
        &tools,
        &gdd(3, 2, 4),
        &[
            step(Rule::GddDelete),
            Step::new(Rule::Weight, 2, 3, 0, 0),
            Step::new(Rule::Split, 2, 0, 0, 0),
        ],
    );
    for (q, rule, premise) in [
        (gdd(3, 1, 7), Rule::Points, bibd(7, 3)),
        (gdd(3, 2, 4), Rule::GddDelete, bibd(9, 3)),
    ] {
        assert_premises(&rt, &tools, &q, &step(rule), &[premise]);
    }
    for (chosen, first, second) in [
        (
            Step::new(Rule::Weight, 2, 4, 0, 0),
            gdd(4, 2, 6),
            gdd(3, 2, 4),
        ),
        (
            Step::new(Rule::Weight, 4, 5, 0, 0),
            gdd(5, 1, 6),
            gdd(3, 4, 5),
        ),
        (
            Step::new(Rule::Split, 3, 0, 0, 0),
            gdd(3, 12, 2),
            gdd(3, 4, 3),
        ),
    ] {
        assert_premises(&rt, &tools, &gdd(3, 4, 6), &chosen, &[first, second]);
    }
    Ok(())
}

#[test]
fn pairwise_balanced_designs(rt: HostRuntime) -> Result<(), Fail> {
    let tools = Tools::new(rt.alloc());
    assert_candidates(
        &rt,
        &tools,
        &pbd(12, 3),
        &[
            step(Rule::Bibds),
            step(Rule::Bibdt),
            step(Rule::PbdDelete),
            Step::new(Rule::Truncate, 3, 3, 0, 0),
            Step::new(Rule::Tdfill, 4, 0, 0, 0),
        ],
    );
    assert_premises(
        &rt,
        &tools,
        &pbd(12, 3),
        &step(Rule::PbdDelete),
        &[bibd(13, 4)],
    );
    for (q, chosen, first, second) in [
        (
            pbd(10, 3),
            Step::new(Rule::Truncate, 3, 1, 0, 0),
            td(4, 3),
            pbd(3, 3),
        ),
        (
            pbd(10, 3),
            Step::new(Rule::Tdfill1, 3, 3, 0, 0),
            td(3, 3),
            pbd(4, 3),
        ),
        (
            pbd(12, 3),
            Step::new(Rule::Tdfill, 4, 0, 0, 0),
            td(3, 4),
            pbd(4, 3),
        ),
    ] {
        assert_premises(&rt, &tools, &q, &chosen, &[first, second]);
    }
    assert_premises(
        &rt,
        &tools,
        &pbd(11, 3),
        &Step::new(Rule::Truncate, 3, 2, 0, 0),
        &[td(4, 3), pbd(3, 3), pbd(2, 3)],
    );
    Ok(())
}

// Another entry, a group of another kind, all groups in one block, one group, a truncated group that is too large.
#[test]
fn steps_of_no_part(rt: HostRuntime) -> Result<(), Fail> {
    let tools = Tools::new(rt.alloc());
    for (q, no) in [
        (
            df(Group::Cyclic, 7, 3, 1),
            Step::new(Rule::Table, 2, 0, 0, 0),
        ),
        (
            df(Group::Cyclic, 13, 4, 1),
            Step::new(Rule::Powers, 4, 1, 0, 0),
        ),
        (gdd(3, 4, 6), Step::new(Rule::Weight, 4, 6, 0, 0)),
        (gdd(3, 4, 6), Step::new(Rule::Split, 6, 0, 0, 0)),
        (pbd(11, 3), Step::new(Rule::Truncate, 2, 5, 0, 0)),
    ] {
        assert_none(&rt, &tools, &q, &no);
    }
    Ok(())
}
