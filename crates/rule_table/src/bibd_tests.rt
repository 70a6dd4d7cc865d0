// Candidates and premises of block designs, computed elsewhere.
use crate::tests::{assert_candidates, assert_none, assert_premises};
use design_base::{Group, Query, Rule, Step};
use rule_terms::Tools;
use std::test::Fail;

fn bibd(v: u16, k: u16, l: u16) -> Query {
    Query::Bibd { v, k, l }
}

fn gdd(k: u16, g: u16, u: u16) -> Query {
    Query::Gdd { k, g, u }
}

fn pbd(v: u16, s: u16) -> Query {
    Query::Pbd { v, s }
}

fn step(rule: Rule) -> Step {
    Step::new(rule, 0, 0, 0, 0)
}

#[test]
fn candidates_of_few_points(rt: HostRuntime) -> Result<(), Fail> {
    let tools = Tools::new(rt.alloc());
    let developz = step(Rule::Developz);
    let developf = step(Rule::Developf);
    assert_candidates(
        &rt,
        &tools,
        &bibd(3, 3, 1),
        &[step(Rule::Whole), step(Rule::Bose), developz, developf],
    );
    assert_candidates(
        &rt,
        &tools,
        &bibd(7, 3, 2),
        &[developz, developf, Step::new(Rule::Sum, 1, 0, 0, 0)],
    );
    assert_candidates(
        &rt,
        &tools,
        &bibd(13, 9, 6),
        &[
            developz,
            developf,
            Step::new(Rule::Sum, 1, 0, 0, 0),
            Step::new(Rule::Sum, 2, 0, 0, 0),
            Step::new(Rule::Sum, 3, 0, 0, 0),
            step(Rule::Complement),
        ],
    );
    assert_candidates(
        &rt,
        &tools,
        &bibd(15, 5, 2),
        &[developz, Step::new(Rule::Sum, 1, 0, 0, 0)],
    );
    Ok(())
}

#[test]
fn candidates_of_many_points(rt: HostRuntime) -> Result<(), Fail> {
    let tools = Tools::new(rt.alloc());
    assert_candidates(
        &rt,
        &tools,
        &bibd(128, 2, 1),
        &[
            step(Rule::Pairs),
            Step::new(Rule::Affine, 2, 7, 0, 0),
            step(Rule::Developz),
            step(Rule::Developf),
            Step::new(Rule::Fill, 2, 64, 0, 0),
            Step::new(Rule::Fill, 4, 32, 0, 0),
            Step::new(Rule::Fill, 8, 16, 0, 0),
            Step::new(Rule::Fill, 16, 8, 0, 0),
            Step::new(Rule::Fill, 32, 4, 0, 0),
            Step::new(Rule::Fill, 64, 2, 0, 0),
        ],
    );
    assert_candidates(
        &rt,
        &tools,
        &bibd(28, 4, 1),
        &[
            Step::new(Rule::Unital, 3, 0, 0, 0),
            Step::new(Rule::Arc, 2, 3, 0, 0),
            step(Rule::Developz),
            Step::new(Rule::Fill, 4, 7, 0, 0),
            Step::new(Rule::Fill, 7, 4, 0, 0),
            Step::new(Rule::Pbd, 2, 0, 0, 0),
            Step::new(Rule::Pbd, 3, 0, 0, 0),
            Step::new(Rule::Pbd, 4, 0, 0, 0),
            Step::new(Rule::Pbd, 5, 0, 0, 0),
            Step::new(Rule::Pbd, 6, 0, 0, 0),
            Step::new(Rule::Pbd, 7, 0, 0, 0),
        ],
    );
    assert_candidates(
        &rt,
        &tools,
        &bibd(25, 4, 1),
        &[
            step(Rule::Developz),
            step(Rule::Developf),
            Step::new(Rule::Fill, 5, 5, 0, 0),
            Step::new(Rule::Fill1, 4, 6, 0, 0),
            Step::new(Rule::Fill1, 6, 4, 0, 0),
            Step::new(Rule::Pbd, 2, 0, 0, 0),
            Step::new(Rule::Pbd, 3, 0, 0, 0),
            Step::new(Rule::Pbd, 4, 0, 0, 0),
            Step::new(Rule::Pbd, 5, 0, 0, 0),
            Step::new(Rule::Pbd, 6, 0, 0, 0),
        ],
    );
    Ok(())
}

#[test]
fn premises_of_block_designs(rt: HostRuntime) -> Result<(), Fail> {
    let tools = Tools::new(rt.alloc());
    for (q, step, first, second) in [
        (
            bibd(9, 3, 4),
            Step::new(Rule::Sum, 1, 0, 0, 0),
            bibd(9, 3, 1),
            bibd(9, 3, 3),
        ),
        (
            bibd(28, 4, 1),
            Step::new(Rule::Fill, 7, 4, 0, 0),
            gdd(4, 7, 4),
            bibd(7, 4, 1),
        ),
        (
            bibd(25, 4, 1),
            Step::new(Rule::Fill1, 6, 4, 0, 0),
            gdd(4, 6, 4),
            bibd(7, 4, 1),
        ),
    ] {
        assert_premises(&rt, &tools, &q, &step, &[first, second]);
    }
    assert_premises(
        &rt,
        &tools,
        &bibd(25, 4, 1),
        &step(Rule::Developf),
        &[Query::Df {
            group: Group::Field,
            v: 25,
            k: 4,
            l: 1,
        }],
    );
    assert_premises(
        &rt,
        &tools,
        &bibd(85, 4, 1),
        &Step::new(Rule::Pbd, 4, 0, 0, 0),
        &[pbd(28, 4), bibd(13, 4, 1), bibd(16, 4, 1)],
    );
    assert_premises(
        &rt,
        &tools,
        &bibd(13, 9, 6),
        &step(Rule::Complement),
        &[bibd(13, 4, 1)],
    );
    Ok(())
}

// Points of another residue, seven points, blocks of half the points, complements of one point, a sum in another order, an order without a
// field, another dimension, a rule of another kind.
#[test]
fn steps_of_no_block_design(rt: HostRuntime) -> Result<(), Fail> {
    let tools = Tools::new(rt.alloc());
    for (q, no) in [
        (bibd(9, 3, 1), step(Rule::Skolem)),
        (bibd(7, 3, 1), step(Rule::Bose)),
        (bibd(7, 3, 2), step(Rule::Double)),
        (bibd(8, 4, 3), step(Rule::Complement)),
        (bibd(4, 3, 2), step(Rule::Complement)),
        (bibd(9, 3, 4), Step::new(Rule::Sum, 3, 0, 0, 0)),
        (bibd(36, 6, 1), Step::new(Rule::Affine, 6, 2, 0, 0)),
        (bibd(9, 3, 1), Step::new(Rule::Affine, 3, 3, 0, 0)),
        (bibd(9, 3, 1), step(Rule::Cyclic)),
        (bibd(28, 4, 1), Step::new(Rule::Unital, 4, 0, 0, 0)),
        (bibd(28, 4, 1), Step::new(Rule::Arc, 3, 2, 0, 0)),
        (bibd(28, 4, 2), Step::new(Rule::Arc, 2, 3, 0, 0)),
        (bibd(28, 4, 1), Step::new(Rule::Fill, 14, 2, 0, 0)),
        (bibd(28, 4, 1), Step::new(Rule::Pbd, 8, 0, 0, 0)),
        (bibd(21, 5, 1), step(Rule::Powers)),
    ] {
        assert_none(&rt, &tools, &q, &no);
    }
    Ok(())
}
