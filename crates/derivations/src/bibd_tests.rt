// Block designs and faults of their derivations that were computed elsewhere.
ghost use Rattle.std.specs.Prelude.{◌≡◌, ◌<◌};

use crate::{Derivation, Line, LineFault, Names, ReplayEnd, derive, replay};
use design_base::{Memory, Query, Rule, Step, Verdict, in_bounds};
use rule_table::{PlainAsker, Steps, Tools, evaluate};
use std::alloc::Global;
use std::marker::Brand;
use std::process::Abort;
use std::sync::ledger::{Blank, Ledger};
use std::test::Fail;

// The design of a question: the step of its verdict, how many lines derive it, how many blocks it has, and the first and the last of them.
#[derive(Clone, Copy)]
pub(crate) struct Expected<'a> {
    pub query: Query,
    pub step: Step,
    pub lines: usize,
    pub blocks: usize,
    pub first: &'a [u16],
    pub last: &'a [u16],
}

// The step of a rule without parameters.
pub(crate) fn plain(rule: Rule) -> Step {
    Step::new(rule, 0, 0, 0, 0)
}

// So many lines lead to that design.
pub(crate) fn assert_design(
    rt: &impl Abort,
    alloc: Global,
    tools: &Tools,
    lines: &Derivation,
    expected: &Expected,
) {
    assert_eq!(rt; lines.len(), expected.lines);
    assert!(rt; 0 < lines.len());
    let Ok(design) = replay(alloc, lines, tools) else {
        panic!(rt; "no design");
    };
    let rows = design.blocks();
    assert_eq!(rt; design.query(), expected.query);
    assert_eq!(rt; rows.len(), expected.blocks);
    assert!(rt; 0 < rows.len());
    assert_eq!(rt; rows.row(0), expected.first);
    assert_eq!(rt; rows.row(rows.len() - 1), expected.last);
}

// The verdict of the question is that step, and its derivation leads to that design.
pub(crate) fn assert_built<L: Ledger>(
    rt: &impl Abort,
    alloc: Global,
    tools: &Tools,
    steps: &mut Steps<L>,
    expected: &Expected,
) -> Result<(), Memory> {
    let q = expected.query;
    assert!(rt; in_bounds(&q));
    let Verdict::Yes(step) = evaluate(&q, tools, steps) else {
        panic!(rt; "not yes");
    };
    assert_eq!(rt; step, expected.step);
    let derivation = derive(alloc, &q, &step, tools, &mut PlainAsker, steps)?;
    assert_design(rt, alloc, tools, derivation.lines(), expected);
    Ok(())
}

fn bibd(v: u16, k: u16, l: u16) -> Query {
    Query::Bibd { v, k, l }
}

// One of each rule of small blocks and of all points.
fn assert_small_blocks<L: Ledger>(
    rt: &impl Abort,
    alloc: Global,
    tools: &Tools,
    steps: &mut Steps<L>,
) -> Result<(), Memory> {
    for (query, step, lines, blocks, first, last) in [
        (
            bibd(3, 3, 1),
            plain(Rule::Whole),
            1,
            1,
            [0, 1, 2].as_slice(),
            [0, 1, 2].as_slice(),
        ),
        (
            bibd(9, 2, 1),
            plain(Rule::Pairs),
            1,
            36,
            [0, 1].as_slice(),
            [7, 8].as_slice(),
        ),
        (
            bibd(4, 3, 2),
            plain(Rule::Omit),
            1,
            4,
            [0, 1, 2].as_slice(),
            [1, 2, 3].as_slice(),
        ),
        (
            bibd(9, 3, 1),
            plain(Rule::Bose),
            1,
            12,
            [0, 1, 5].as_slice(),
            [4, 5, 6].as_slice(),
        ),
        (
            bibd(7, 3, 1),
            plain(Rule::Skolem),
            1,
            7,
            [0, 1, 3].as_slice(),
            [3, 4, 6].as_slice(),
        ),
        (
            bibd(6, 3, 2),
            plain(Rule::Double),
            1,
            10,
            [0, 1, 2].as_slice(),
            [2, 4, 5].as_slice(),
        ),
        (
            bibd(5, 3, 3),
            plain(Rule::Middle),
            1,
            10,
            [0, 1, 2].as_slice(),
            [2, 3, 4].as_slice(),
        ),
        (
            bibd(8, 3, 6),
            plain(Rule::Ordered),
            1,
            56,
            [0, 1, 2].as_slice(),
            [5, 6, 7].as_slice(),
        ),
    ] {
        let expected = Expected {
            query,
            step,
            lines,
            blocks,
            first,
            last,
        };
        assert_built(rt, alloc, tools, steps, &expected)?;
    }
    Ok(())
}

// One of each rule of lines and curves.
fn assert_planes<L: Ledger>(
    rt: &impl Abort,
    alloc: Global,
    tools: &Tools,
    steps: &mut Steps<L>,
) -> Result<(), Memory> {
    for (query, step, lines, blocks, first, last) in [
        (
            bibd(16, 4, 1),
            Step::new(Rule::Affine, 4, 2, 0, 0),
            1,
            20,
            [0, 1, 2, 3].as_slice(),
            [12, 13, 14, 15].as_slice(),
        ),
        (
            bibd(13, 4, 1),
            Step::new(Rule::Projective, 3, 2, 0, 0),
            1,
            13,
            [0, 1, 2, 3].as_slice(),
            [3, 7, 9, 10].as_slice(),
        ),
        (
            bibd(28, 4, 1),
            Step::new(Rule::Unital, 3, 0, 0, 0),
            1,
            63,
            [0, 1, 2, 3].as_slice(),
            [20, 21, 22, 23].as_slice(),
        ),
        (
            bibd(52, 4, 1),
            Step::new(Rule::Arc, 2, 4, 0, 0),
            1,
            221,
            [0, 1, 2, 3].as_slice(),
            [48, 49, 50, 51].as_slice(),
        ),
    ] {
        let expected = Expected {
            query,
            step,
            lines,
            blocks,
            first,
            last,
        };
        assert_built(rt, alloc, tools, steps, &expected)?;
    }
    Ok(())
}

// One of each rule with premises.
fn assert_made<L: Ledger>(
    rt: &impl Abort,
    alloc: Global,
    tools: &Tools,
    steps: &mut Steps<L>,
) -> Result<(), Memory> {
    for (query, step, lines, blocks, first, last) in [
        (
            bibd(15, 7, 3),
            plain(Rule::Developz),
            2,
            15,
            [0, 1, 2, 4, 5, 8, 10].as_slice(),
            [4, 5, 6, 8, 9, 12, 14].as_slice(),
        ),
        (
            bibd(7, 3, 2),
            plain(Rule::Developf),
            2,
            14,
            [0, 1, 3].as_slice(),
            [3, 5, 6].as_slice(),
        ),
        (
            bibd(25, 4, 1),
            plain(Rule::Developf),
            2,
            50,
            [0, 1, 5, 12].as_slice(),
            [13, 14, 18, 20].as_slice(),
        ),
        (
            bibd(105, 5, 1),
            Step::new(Rule::Fill, 5, 21, 0, 0),
            7,
            546,
            [0, 1, 2, 3, 4].as_slice(),
            [100, 101, 102, 103, 104].as_slice(),
        ),
        (
            bibd(49, 4, 1),
            Step::new(Rule::Fill1, 12, 4, 0, 0),
            6,
            196,
            [0, 1, 2, 3].as_slice(),
            [39, 43, 45, 46].as_slice(),
        ),
        (
            bibd(124, 4, 1),
            Step::new(Rule::Pbd, 4, 0, 0, 0),
            6,
            1271,
            [0, 1, 2, 123].as_slice(),
            [120, 121, 122, 123].as_slice(),
        ),
        (
            bibd(9, 3, 4),
            Step::new(Rule::Sum, 1, 0, 0, 0),
            3,
            48,
            [0, 1, 2].as_slice(),
            [6, 7, 8].as_slice(),
        ),
        (
            bibd(9, 6, 5),
            plain(Rule::Complement),
            2,
            12,
            [0, 1, 2, 3, 7, 8].as_slice(),
            [2, 3, 4, 6, 7, 8].as_slice(),
        ),
    ] {
        let expected = Expected {
            query,
            step,
            lines,
            blocks,
            first,
            last,
        };
        assert_built(rt, alloc, tools, steps, &expected)?;
    }
    Ok(())
}

fn assert_block_designs<L: Ledger>(
    rt: &impl Abort,
    alloc: Global,
    tools: &Tools,
    blank: Blank,
) -> Result<(), Memory>
    requires name { L.name ≡ blank.name }
    requires parts { L.parts ≡ blank.parts }
    requires some { 0 < blank.parts }
{
    let mut steps = Steps::<L>::new(blank);
    assert_small_blocks(rt, alloc, tools, &mut steps)?;
    assert_planes(rt, alloc, tools, &mut steps)?;
    assert_made(rt, alloc, tools, &mut steps)
}

#[test]
fn block_designs(rt: HostRuntime) -> Result<(), Fail> {
    let tools = Tools::new(rt.alloc());
    assert_block_designs::<Brand>(&rt, rt.alloc(), &tools, Blank::new(1))?;
    Ok(())
}

// A derivation of this one line, whose step is no candidate.
fn assert_no_candidate(
    rt: &impl Abort,
    alloc: Global,
    tools: &Tools,
    query: Query,
    step: Step,
    number: u64,
) -> Result<(), Memory> {
    let mut lines = Derivation::new(alloc);
    let mut from = Names::new(alloc);
    from.push(number)?;
    lines.push(Line { query, step, from })?;
    assert!(rt; 0 < lines.len());
    match replay(alloc, &lines, tools) {
        Ok(_) => panic!(rt; "sound"),
        Err(end) => {
            let fault = LineFault::NotCandidate;
            assert_eq!(rt; end, ReplayEnd::BadLine { number: 1, fault })
        }
    }
    Ok(())
}

// Points of another residue, a rule of another kind, a complement of itself.
#[test]
fn steps_of_no_block_design(rt: HostRuntime) -> Result<(), Fail> {
    let tools = Tools::new(rt.alloc());
    for (v, k, l, rule) in [
        (9, 3, 1, Rule::Skolem),
        (9, 3, 1, Rule::Field),
        (8, 4, 3, Rule::Complement),
    ] {
        let query = Query::Bibd { v, k, l };
        let step = Step::new(rule, 0, 0, 0, 0);
        assert_no_candidate(&rt, rt.alloc(), &tools, query, step, 1)?;
    }
    Ok(())
}
