// The lines of every projective geometry within the limits, built and counted.
use crate::building::build;
use design_base::{Memory, POINTS_MAX, Query, Rule, Step, in_bounds};
use rule_table::{Tools, is_candidate};
use std::alloc::Global;
use std::process::Abort;
use std::test::Fail;

// The geometry of dimension `d` over the field of `q` elements has `v` points and so many lines.
#[tactic(auto, unfolding(rule_table::specs::Candidates::premises, rule_terms::specs::Table::terms, rule_terms::specs::BibdTerms::bibd_terms, rule_terms::specs::RuleTree::premises_at))]
fn assert_lines(
    rt: &impl Abort,
    alloc: Global,
    tools: &Tools,
    q: u16,
    d: u16,
    v: u16,
    lines: usize,
) -> Result<(), Memory> {
    assert!(rt; q < POINTS_MAX);
    assert!(rt; d < POINTS_MAX);
    let query = Query::Bibd { v, k: q + 1, l: 1 };
    let step = Step::new(Rule::Projective, q, d, 0, 0);
    assert!(rt; in_bounds(&query));
    assert!(rt; is_candidate(tools, &query, &step));
    let rows = build(alloc, &query, &step, &[])?;
    assert_eq!(rt; rows.len(), lines);
    Ok(())
}

#[test]
fn every_projective_geometry(rt: HostRuntime) -> Result<(), Fail> {
    let alloc = rt.alloc();
    let tools = Tools::new(alloc);
    for (q, d, v, lines) in [
        (2, 2, 7, 7),
        (2, 3, 15, 35),
        (2, 4, 31, 155),
        (2, 5, 63, 651),
        (2, 6, 127, 2667),
        (3, 2, 13, 13),
        (3, 3, 40, 130),
        (3, 4, 121, 1210),
        (4, 2, 21, 21),
        (4, 3, 85, 357),
        (5, 2, 31, 31),
        (7, 2, 57, 57),
        (8, 2, 73, 73),
        (9, 2, 91, 91),
    ] {
        assert_lines(&rt, alloc, &tools, q, d, v, lines)?;
    }
    Ok(())
}
