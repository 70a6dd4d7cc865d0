// Derivations, faults and designs that were computed elsewhere.
ghost use Rattle.std.specs.Prelude.{◌≡◌, ◌<◌};

use crate::{
    Derivation, Line, LineFault, Names, ReplayEnd, SoundDerivation, derive, replay, replay_sound,
};
use design_base::{Memory, Query, Rule, Step, Verdict, in_bounds};
use proved_designs::Design;
use rule_table::{PlainAsker, Steps, Tools, evaluate};
use std::alloc::Global;
use std::marker::Brand;
use std::process::Abort;
use std::sync::ledger::{Blank, Ledger};
use std::test::Fail;

// A line: k and n, the step, and the numbers of the lines that it names.
type Row<'a> = (u16, u16, Step, &'a [u64]);

// The step by the field.
fn field() -> Step {
    Step::new(Rule::Field, 0, 0, 0, 0)
}

// The lines as a derivation.
fn derivation_of(alloc: Global, rows: &[Row]) -> Result<Derivation, Memory> {
    let mut lines = Derivation::new(alloc);
    for (k, n, step, numbers) in rows {
        let mut from = Names::new(alloc);
        for number in *numbers {
            from.push(*number)?;
        }
        lines.push(Line {
            query: Query::Td { k: *k, n: *n },
            step: *step,
            from,
        })?;
    }
    Ok(lines)
}

// The derivation has these lines.
fn assert_lines(rt: &impl Abort, lines: &Derivation, rows: &[Row]) {
    assert_eq!(rt; lines.len(), rows.len());
    for (i, (k, n, step, numbers)) in rows.iter().enumerate() {
        assert!(rt; i < lines.len());
        let line = lines.line(i);
        assert_eq!(rt; line.query, Query::Td { k: *k, n: *n });
        assert_eq!(rt; line.step, *step);
        assert_eq!(rt; line.from.as_slice(), *numbers);
    }
}

// A design with k groups of n points, whose n * n blocks begin with these two.
fn assert_begins(rt: &impl Abort, design: &Design, k: u16, n: u16, first: &[u16], second: &[u16]) {
    let rows = design.blocks();
    assert_eq!(rt; design.query(), Query::Td { k, n });
    assert_eq!(rt; rows.len(), n as usize * n as usize);
    assert!(rt; 1 < rows.len());
    assert_eq!(rt; rows.row(0), first);
    assert_eq!(rt; rows.row(1), second);
}

// The lines lead to the design with k groups of n points, whose n * n blocks begin with these two.
fn assert_design(
    rt: &impl Abort,
    alloc: Global,
    tools: &Tools,
    lines: &Derivation,
    k: u16,
    n: u16,
    first: &[u16],
    second: &[u16],
) {
    assert!(rt; 0 < lines.len());
    let Ok(design) = replay(alloc, lines, tools) else {
        panic!(rt; "no design");
    };
    assert_begins(rt, &design, k, n, first, second);
}

// The derivation of the question, whose verdict is yes.
fn derived<L: Ledger>(
    rt: &impl Abort,
    alloc: Global,
    tools: &Tools,
    steps: &mut Steps<L>,
    k: u16,
    n: u16,
) -> Result<SoundDerivation, Memory> {
    let q = Query::Td { k, n };
    assert!(rt; in_bounds(&q));
    let Verdict::Yes(step) = evaluate(&q, tools, steps) else {
        panic!(rt; "not yes");
    };
    derive(alloc, &q, &step, tools, &mut PlainAsker, steps)
}

// Each question has these lines, and they lead to its design.
fn assert_derivations<L: Ledger>(
    rt: &impl Abort,
    alloc: Global,
    tools: &Tools,
    blank: Blank,
) -> Result<(), Memory>
    requires name { L.name ≡ blank.name }
    requires parts { L.parts ≡ blank.parts }
    requires some { 0 < blank.parts }
{
    let mut steps = Steps::<L>::new(blank);
    let derivation = derived(rt, alloc, tools, &mut steps, 4, 18)?;
    let lines = derivation.lines();
    assert_lines(
        rt,
        lines,
        &[
            (5, 5, field(), &[]),
            (4, 3, field(), &[]),
            (4, 4, field(), &[]),
            (4, 3, field(), &[]),
            (4, 18, Step::new(Rule::Wilson1, 3, 5, 3, 0), &[1, 2, 3, 4]),
        ],
    );
    let (first, second) = ([0, 18, 51, 56], [0, 19, 38, 69]);
    assert_design(rt, alloc, tools, lines, 4, 18, &first, &second);
    let design = replay_sound(alloc, &derivation)?;
    assert_begins(rt, &design, 4, 18, &first, &second);
    let derivation = derived(rt, alloc, tools, &mut steps, 4, 10)?;
    let lines = derivation.lines();
    assert_lines(
        rt,
        lines,
        &[
            (4, 3, field(), &[]),
            (4, 10, Step::new(Rule::Parker, 3, 0, 0, 0), &[1]),
        ],
    );
    let (first, second) = ([0, 10, 20, 30], [0, 11, 26, 37]);
    assert_design(rt, alloc, tools, lines, 4, 10, &first, &second);
    assert_nested(rt, alloc, tools, &mut steps)
}

// A premise has premises itself.
fn assert_nested<L: Ledger>(
    rt: &impl Abort,
    alloc: Global,
    tools: &Tools,
    steps: &mut Steps<L>,
) -> Result<(), Memory> {
    let derivation = derived(rt, alloc, tools, steps, 4, 30)?;
    let lines = derivation.lines();
    assert_lines(
        rt,
        lines,
        &[
            (4, 3, field(), &[]),
            (4, 3, field(), &[]),
            (4, 10, Step::new(Rule::Parker, 3, 0, 0, 0), &[2]),
            (4, 30, Step::new(Rule::Product, 3, 10, 0, 0), &[1, 3]),
        ],
    );
    let (first, second) = ([0, 30, 60, 90], [0, 31, 66, 97]);
    assert_design(rt, alloc, tools, lines, 4, 30, &first, &second);
    Ok(())
}

#[test]
fn derivations(rt: HostRuntime) -> Result<(), Fail> {
    let tools = Tools::new(rt.alloc());
    assert_derivations::<Brand>(&rt, rt.alloc(), &tools, Blank::new(1))?;
    Ok(())
}

// The verdict itself would truncate to other groups.
#[test]
fn lines_by_hand(rt: HostRuntime) -> Result<(), Fail> {
    let tools = Tools::new(rt.alloc());
    let lines = derivation_of(
        rt.alloc(),
        &[
            (6, 7, field(), &[]),
            (4, 3, field(), &[]),
            (4, 4, field(), &[]),
            (4, 5, field(), &[]),
            (4, 4, field(), &[]),
            (4, 1, Step::new(Rule::TdOne, 0, 0, 0, 0), &[]),
            (
                4,
                26,
                Step::new(Rule::Wilson2, 3, 7, 4, 1),
                &[1, 2, 3, 4, 5, 6],
            ),
        ],
    )?;
    let (first, second) = ([0, 26, 54, 78], [0, 27, 73, 79]);
    assert_design(&rt, rt.alloc(), &tools, &lines, 4, 26, &first, &second);
    assert_eq!(&rt; lines.as_slice().len(), 7);
    Ok(())
}

#[test]
fn more_numbers_than_stand_in_the_value(rt: HostRuntime) -> Result<(), Fail> {
    let mut names = Names::new(rt.alloc());
    for number in 1..11 {
        names.push(number)?;
    }
    let all = [1, 2, 3, 4, 5, 6, 7, 8, 9, 10];
    assert_eq!(&rt; names.as_slice(), all.as_slice());
    Ok(())
}

// The lines have this fault.
fn assert_fault(
    rt: &impl Abort,
    alloc: Global,
    tools: &Tools,
    rows: &[Row],
    number: u64,
    fault: LineFault,
) -> Result<(), Memory> {
    let lines = derivation_of(alloc, rows)?;
    assert!(rt; 0 < lines.len());
    match replay(alloc, &lines, tools) {
        Ok(_) => panic!(rt; "sound"),
        Err(end) => assert_eq!(rt; end, ReplayEnd::BadLine { number, fault }),
    }
    Ok(())
}

// The line of a design from a field.
fn plane<'a>(k: u16, n: u16) -> Row<'a> {
    (k, n, field(), &[])
}

// The line of the product of 3 and 4 with n points in each group.
fn product<'a>(n: u16, numbers: &'a [u64]) -> Row<'a> {
    (4, n, Step::new(Rule::Product, 3, 4, 0, 0), numbers)
}

#[test]
fn faults_of_a_line(rt: HostRuntime) -> Result<(), Fail> {
    let alloc = rt.alloc();
    let tools = Tools::new(alloc);
    assert_fault(
        &rt,
        alloc,
        &tools,
        &[plane(4, 1000)],
        1,
        LineFault::OutOfBounds,
    )?;
    assert_fault(
        &rt,
        alloc,
        &tools,
        &[plane(4, 3), plane(1, 9)],
        2,
        LineFault::OutOfBounds,
    )?;
    assert_fault(
        &rt,
        alloc,
        &tools,
        &[plane(4, 6)],
        1,
        LineFault::NotCandidate,
    )?;
    assert_fault(
        &rt,
        alloc,
        &tools,
        &[plane(4, 3), product(13, &[1, 3])],
        2,
        LineFault::NotCandidate,
    )?;
    assert_fault(
        &rt,
        alloc,
        &tools,
        &[plane(4, 3), product(12, &[1, 3]), plane(4, 4)],
        2,
        LineFault::ForwardReference,
    )?;
    assert_fault(
        &rt,
        alloc,
        &tools,
        &[plane(4, 3), product(12, &[1, 2])],
        2,
        LineFault::ForwardReference,
    )?;
    assert_fault(
        &rt,
        alloc,
        &tools,
        &[plane(4, 3), product(12, &[1, 0])],
        2,
        LineFault::ForwardReference,
    )?;
    Ok(())
}

#[test]
fn faults_of_several_lines(rt: HostRuntime) -> Result<(), Fail> {
    let alloc = rt.alloc();
    let tools = Tools::new(alloc);
    let nine = Step::new(Rule::Product, 3, 3, 0, 0);
    assert_fault(
        &rt,
        alloc,
        &tools,
        &[plane(4, 4), plane(4, 3), product(12, &[1, 2])],
        3,
        LineFault::MissingPremise,
    )?;
    assert_fault(
        &rt,
        alloc,
        &tools,
        &[plane(4, 3), plane(5, 4), product(12, &[1, 2])],
        3,
        LineFault::MissingPremise,
    )?;
    assert_fault(
        &rt,
        alloc,
        &tools,
        &[plane(4, 3), product(12, &[1])],
        2,
        LineFault::MissingPremise,
    )?;
    assert_fault(
        &rt,
        alloc,
        &tools,
        &[plane(4, 3), (4, 9, nine, &[1, 1])],
        2,
        LineFault::UsedTwice,
    )?;
    assert_fault(
        &rt,
        alloc,
        &tools,
        &[
            plane(4, 3),
            plane(4, 4),
            product(12, &[1, 2]),
            product(12, &[1, 2]),
        ],
        4,
        LineFault::UsedTwice,
    )?;
    assert_fault(
        &rt,
        alloc,
        &tools,
        &[
            plane(4, 3),
            plane(4, 3),
            (4, 9, nine, &[1, 2]),
            (4, 9, nine, &[1, 2, 3]),
        ],
        4,
        LineFault::MissingPremise,
    )?;
    assert_fault(
        &rt,
        alloc,
        &tools,
        &[plane(4, 3), plane(4, 4)],
        1,
        LineFault::Surplus,
    )?;
    assert_fault(
        &rt,
        alloc,
        &tools,
        &[plane(4, 3), plane(4, 4), plane(4, 5), product(12, &[1, 2])],
        3,
        LineFault::Surplus,
    )?;
    Ok(())
}
