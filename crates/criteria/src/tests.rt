// Criteria and numbers that were computed elsewhere.
use super::*;
use design_base::{Group, in_bounds};
use std::process::Abort;

fn bibd(v: u16, k: u16, l: u16) -> Query {
    Query::Bibd { v, k, l }
}

fn td(k: u16, n: u16) -> Query {
    Query::Td { k, n }
}

fn gdd(k: u16, g: u16, u: u16) -> Query {
    Query::Gdd { k, g, u }
}

fn df(v: u16, k: u16, l: u16) -> Query {
    Query::Df {
        group: Group::Cyclic,
        v,
        k,
        l,
    }
}

fn pbd(v: u16, s: u16) -> Query {
    Query::Pbd { v, s }
}

// The first criterion is this one, and these are its numbers.
fn assert_no(rt: &impl Abort, q: &Query, expected: Criterion, first: u32, second: u32) {
    assert!(rt; in_bounds(q));
    let c = criterion(q).expect(rt, "a criterion applies");
    assert_eq!(rt; c, expected);
    assert_eq!(rt; numbers(q, &c), (first, second));
}

// No criterion applies.
fn assert_open(rt: &impl Abort, q: &Query) {
    assert!(rt; in_bounds(q));
    assert_eq!(rt; criterion(q), None);
}

#[test]
fn block_designs(rt: HostRuntime) {
    assert_no(&rt, &bibd(8, 3, 1), Criterion::Replication, 7, 2);
    assert_no(&rt, &bibd(36, 15, 1), Criterion::Replication, 35, 14);
    assert_no(&rt, &bibd(128, 127, 6), Criterion::Replication, 762, 126);
    assert_no(&rt, &bibd(5, 3, 1), Criterion::Count, 10, 3);
    assert_no(&rt, &bibd(16, 6, 1), Criterion::Fisher, 3, 6);
    assert_no(&rt, &bibd(21, 6, 1), Criterion::Fisher, 4, 6);
    assert_open(&rt, &bibd(7, 3, 1));
}

#[test]
fn groups(rt: HostRuntime) {
    assert_no(&rt, &td(6, 4), Criterion::Groups, 6, 5);
    assert_no(&rt, &td(66, 64), Criterion::Groups, 66, 65);
    assert_open(&rt, &td(65, 64));
    assert_open(&rt, &td(66, 1));
    assert_no(&rt, &gdd(4, 3, 2), Criterion::FewGroups, 2, 4);
    assert_no(&rt, &gdd(4, 2, 4), Criterion::Groups, 4, 3);
    assert_no(&rt, &gdd(3, 1, 4), Criterion::GroupReplication, 3, 2);
    assert_no(&rt, &gdd(4, 1, 7), Criterion::GroupCount, 42, 12);
    assert_open(&rt, &gdd(3, 2, 64));
}

#[test]
fn families_and_pairwise_balanced_designs(rt: HostRuntime) {
    assert_no(&rt, &df(12, 3, 1), Criterion::Differences, 11, 6);
    assert_open(&rt, &df(13, 3, 1));
    assert_no(&rt, &pbd(7, 5), Criterion::Points, 6, 5);
    assert_no(&rt, &pbd(2, 16), Criterion::Points, 1, 0);
    assert_open(&rt, &pbd(7, 3));
}
