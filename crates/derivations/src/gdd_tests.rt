// Group divisible and pairwise balanced designs that were computed elsewhere.
ghost use Rattle.std.specs.Prelude.{◌≡◌, ◌<◌};

use crate::bibd_tests::{Expected, assert_built, assert_design, plain};
use crate::{Derivation, Line, Names};
use design_base::{Memory, Query, Rule, Step};
use rule_table::{Steps, Tools};
use std::alloc::Global;
use std::marker::Brand;
use std::process::Abort;
use std::sync::ledger::{Blank, Ledger};
use std::test::Fail;

// A line: the question, the step, and the numbers of the lines that it names.
type Row<'a> = (Query, Step, &'a [u64]);

fn td(k: u16, n: u16) -> Query {
    Query::Td { k, n }
}

fn gdd(k: u16, g: u16, u: u16) -> Query {
    Query::Gdd { k, g, u }
}

fn pbd(v: u16, s: u16) -> Query {
    Query::Pbd { v, s }
}

// One of each rule that is the first candidate of a question.
fn assert_group_divisible<L: Ledger>(
    rt: &impl Abort,
    alloc: Global,
    tools: &Tools,
    steps: &mut Steps<L>,
) -> Result<(), Memory> {
    for (query, step, lines, blocks, first, last) in [
        (
            gdd(4, 3, 4),
            plain(Rule::Td),
            2,
            9,
            [0, 3, 6, 9].as_slice(),
            [2, 5, 7, 9].as_slice(),
        ),
        (
            gdd(3, 1, 7),
            plain(Rule::Points),
            2,
            7,
            [0, 1, 3].as_slice(),
            [3, 4, 6].as_slice(),
        ),
        (
            gdd(3, 2, 4),
            plain(Rule::GddDelete),
            2,
            8,
            [0, 2, 5].as_slice(),
            [3, 5, 7].as_slice(),
        ),
        (
            gdd(3, 4, 4),
            Step::new(Rule::Weight, 2, 3, 0, 0),
            5,
            32,
            [0, 4, 10].as_slice(),
            [7, 11, 14].as_slice(),
        ),
    ] {
        let expected = Expected {
            query,
            step,
            lines,
            blocks,
            first,
            last,
        };
        assert_built(rt, alloc, tools, steps, &expected)?;
    }
    Ok(())
}

fn assert_pairwise_balanced<L: Ledger>(
    rt: &impl Abort,
    alloc: Global,
    tools: &Tools,
    steps: &mut Steps<L>,
) -> Result<(), Memory> {
    for (query, step, lines, blocks, first, last) in [
        (
            pbd(4, 3),
            plain(Rule::PbdOne),
            1,
            1,
            [0, 1, 2, 3].as_slice(),
            [0, 1, 2, 3].as_slice(),
        ),
        (
            pbd(7, 3),
            plain(Rule::Bibds),
            2,
            7,
            [0, 1, 3].as_slice(),
            [3, 4, 6].as_slice(),
        ),
        (
            pbd(16, 3),
            plain(Rule::Bibdt),
            2,
            20,
            [0, 1, 2, 3].as_slice(),
            [12, 13, 14, 15].as_slice(),
        ),
        (
            pbd(12, 3),
            plain(Rule::PbdDelete),
            2,
            13,
            [0, 1, 2, 3].as_slice(),
            [3, 7, 9, 10].as_slice(),
        ),
        (
            pbd(10, 3),
            Step::new(Rule::Truncate, 3, 1, 0, 0),
            3,
            12,
            [0, 1, 2].as_slice(),
            [6, 7, 8].as_slice(),
        ),
        (
            pbd(30, 3),
            Step::new(Rule::Truncate, 9, 3, 0, 0),
            5,
            118,
            [0, 1, 5].as_slice(),
            [27, 28, 29].as_slice(),
        ),
        (
            pbd(42, 6),
            Step::new(Rule::Tdfill, 7, 0, 0, 0),
            3,
            55,
            [0, 1, 2, 3, 4, 5, 6].as_slice(),
            [35, 36, 37, 38, 39, 40, 41].as_slice(),
        ),
    ] {
        let expected = Expected {
            query,
            step,
            lines,
            blocks,
            first,
            last,
        };
        assert_built(rt, alloc, tools, steps, &expected)?;
    }
    Ok(())
}

fn assert_verdicts<L: Ledger>(
    rt: &impl Abort,
    alloc: Global,
    tools: &Tools,
    blank: Blank,
) -> Result<(), Memory>
    requires name { L.name ≡ blank.name }
    requires parts { L.parts ≡ blank.parts }
    requires some { 0 < blank.parts }
{
    let mut steps = Steps::<L>::new(blank);
    assert_group_divisible(rt, alloc, tools, &mut steps)?;
    assert_pairwise_balanced(rt, alloc, tools, &mut steps)
}

#[test]
fn first_candidates(rt: HostRuntime) -> Result<(), Fail> {
    let tools = Tools::new(rt.alloc());
    assert_verdicts::<Brand>(&rt, rt.alloc(), &tools, Blank::new(1))?;
    Ok(())
}

// The lines as a derivation.
fn derivation_of(alloc: Global, rows: &[Row]) -> Result<Derivation, Memory> {
    let mut lines = Derivation::new(alloc);
    for (query, step, numbers) in rows {
        let mut from = Names::new(alloc);
        for number in *numbers {
            from.push(*number)?;
        }
        lines.push(Line {
            query: *query,
            step: *step,
            from,
        })?;
    }
    Ok(lines)
}

// Three groups of six points, each split into three.
#[test]
fn groups_are_split(rt: HostRuntime) -> Result<(), Fail> {
    let tools = Tools::new(rt.alloc());
    let split = Step::new(Rule::Split, 3, 0, 0, 0);
    let lines = derivation_of(
        rt.alloc(),
        &[
            (td(3, 6), plain(Rule::Cyclic), &[]),
            (gdd(3, 6, 3), plain(Rule::Td), &[1]),
            (td(3, 2), plain(Rule::Cyclic), &[]),
            (gdd(3, 2, 3), plain(Rule::Td), &[3]),
            (gdd(3, 2, 9), split, &[2, 4]),
        ],
    )?;
    let expected = Expected {
        query: gdd(3, 2, 9),
        step: split,
        lines: 5,
        blocks: 48,
        first: &[0, 2, 4],
        last: &[13, 15, 16],
    };
    assert_design(&rt, rt.alloc(), &tools, &lines, &expected);
    Ok(())
}

// Four groups of three points, each filled with a block that holds the last point.
#[test]
fn groups_are_filled_with_a_point(rt: HostRuntime) -> Result<(), Fail> {
    let tools = Tools::new(rt.alloc());
    let fill = Step::new(Rule::Tdfill1, 3, 4, 0, 0);
    let lines = derivation_of(
        rt.alloc(),
        &[
            (td(4, 3), plain(Rule::Field), &[]),
            (pbd(4, 3), plain(Rule::PbdOne), &[]),
            (pbd(13, 3), fill, &[1, 2]),
        ],
    )?;
    let expected = Expected {
        query: pbd(13, 3),
        step: fill,
        lines: 3,
        blocks: 13,
        first: &[0, 1, 2, 12],
        last: &[9, 10, 11, 12],
    };
    assert_design(&rt, rt.alloc(), &tools, &lines, &expected);
    Ok(())
}
