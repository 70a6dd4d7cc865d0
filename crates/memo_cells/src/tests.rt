// What is decided by way of cells, by one caller and by two at once, and how large closures are.
ghost use Rattle.std.specs.Prelude.{◌≡◌, ◌<◌, IfOk};

use crate::{CellAsker, Cells, Pass, decide, known};
use design_base::{Criterion, Memory, Query, Rule, Step, Verdict, in_bounds};
use rule_table::{Asker, Marks, PlainAsker, Steps, Tools, visit};
use std::alloc::Global;
use std::marker::Brand;
use std::process::Abort;
use std::sync::ledger::{Blank, Ledger};
use std::test::Fail;
use std::thread::{Threads, join};

// A question on transversal designs and what is then known of three others.
fn assert_decided<L: Ledger>(rt: &impl Abort, alloc: Global, tools: &Tools, blank: Blank)
    requires name { L.name ≡ blank.name }
    requires parts { L.parts ≡ blank.parts }
    requires some { 0 < blank.parts }
{
    let mut steps = Steps::<L>::new(blank);
    let Ok((cells, mut pass)) = Cells::open(alloc) else {
        panic!(rt; "no memory");
    };
    let asked = Query::Td { k: 4, n: 18 };
    let open = Query::Td { k: 4, n: 6 };
    let refused = Query::Td { k: 5, n: 2 };
    let other = Query::Td { k: 4, n: 14 };
    assert!(rt; in_bounds(&asked) && in_bounds(&open) && in_bounds(&refused) && in_bounds(&other));
    assert_eq!(rt; known(&cells, &asked, &mut pass), None);
    let told = decide(&cells, &asked, &mut pass, tools, &mut steps);
    assert_eq!(rt; told, Verdict::Yes(Step::new(Rule::Wilson1, 3, 5, 3, 0)));
    assert_eq!(rt; known(&cells, &asked, &mut pass), Some(told));
    assert_eq!(rt; known(&cells, &open, &mut pass), Some(Verdict::Unknown));
    assert_eq!(rt;
        known(&cells, &refused, &mut pass),
        Some(Verdict::No(Criterion::Groups))
    );
    assert_eq!(rt; known(&cells, &other, &mut pass), None);
}

#[test]
fn decides(rt: HostRuntime) -> Result<(), Fail> {
    let tools = Tools::new(rt.alloc());
    assert_decided::<Brand>(&rt, rt.alloc(), &tools, Blank::new(1));
    Ok(())
}

// What an asker over cells answers, by its own pass and then by another of the same memo, is what is computed afresh.
fn assert_asked<L: Ledger>(rt: &impl Abort, alloc: Global, tools: &Tools, blank: Blank)
    requires name { L.name ≡ blank.name }
    requires parts { L.parts ≡ blank.parts }
    requires some { 0 < blank.parts }
{
    let mut steps = Steps::<L>::new(blank);
    let Ok((cells, mut pass)) = Cells::open(alloc) else {
        panic!(rt; "no memory");
    };
    let mut asker = CellAsker::new(&cells, cells.split(&mut pass));
    for v in [9, 25, 28, 52, 15, 10, 25] {
        let q = Query::Bibd { v, k: 4, l: 1 };
        assert!(rt; in_bounds(&q));
        let told = asker.ask(&q, tools, &mut steps);
        assert_eq!(rt; told, PlainAsker.ask(&q, tools, &mut steps));
        assert_eq!(rt; known(&cells, &q, &mut pass), Some(told));
    }
    cells.join(&mut pass, asker.into_pass());
}

#[test]
fn asks(rt: HostRuntime) -> Result<(), Fail> {
    let tools = Tools::new(rt.alloc());
    assert_asked::<Brand>(&rt, rt.alloc(), &tools, Blank::new(1));
    Ok(())
}

// A question is answered, then the size of its closure, and then one of its closure is known.
fn assert_closure<L: Ledger>(rt: &impl Abort, alloc: Global, tools: &Tools, blank: Blank)
    requires name { L.name ≡ blank.name }
    requires parts { L.parts ≡ blank.parts }
    requires some { 0 < blank.parts }
{
    let mut steps = Steps::<L>::new(blank);
    let Ok((cells, pass)) = Cells::open(alloc) else {
        panic!(rt; "no memory");
    };
    let Ok(mut marks) = Marks::open(alloc) else {
        panic!(rt; "no memory");
    };
    let asked = Query::Td { k: 4, n: 18 };
    let open = Query::Td { k: 4, n: 6 };
    assert!(rt; in_bounds(&asked) && in_bounds(&open));
    let mut asker = CellAsker::new(&cells, pass);
    let told = asker.ask(&asked, tools, &mut steps);
    assert_eq!(rt; told, Verdict::Yes(Step::new(Rule::Wilson1, 3, 5, 3, 0)));
    visit(&asked, tools, &mut asker, &mut marks, &mut steps);
    assert_eq!(rt; marks.count(), 10);
    let mut pass = asker.into_pass();
    assert_eq!(rt; known(&cells, &open, &mut pass), Some(Verdict::Unknown));
}

#[test]
fn closures(rt: HostRuntime) -> Result<(), Fail> {
    let tools = Tools::new(rt.alloc());
    assert_closure::<Brand>(&rt, rt.alloc(), &tools, Blank::new(1));
    Ok(())
}

// Question i of a table of 14 rows and 4 columns.
fn question(i: u16) -> Query
    requires { i < 56 }
{
    Query::Td {
        k: i % 4 + 3,
        n: i / 4 + 1,
    }
}

// The verdicts of these questions in order, or from the last to the first.
fn in_turn<L: Ledger>(
    alloc: Global,
    cells: &Cells,
    mut pass: Pass,
    tools: &Tools,
    backwards: bool,
    blank: Blank,
) -> Result<(Vec<Verdict>, Pass), Memory>
    requires name { L.name ≡ blank.name }
    requires parts { L.parts ≡ blank.parts }
    requires some { 0 < blank.parts }
    requires own { pass.memo ≡ cells.now }
    ensures { IfOk result (λ r. r.1.memo ≡ pass.memo) }
{
    let mut steps = Steps::<L>::new(blank);
    let mut verdicts = Vec::new(alloc);
    for i in 0..56 {
        let q = question(if backwards { 55 - i } else { i });
        if in_bounds(&q) {
            verdicts.push(decide(cells, &q, &mut pass, tools, &mut steps))?;
        }
    }
    Ok((verdicts, pass))
}

// The same, on a ledger of its own.
fn caller(
    alloc: Global,
    cells: &Cells,
    pass: Pass,
    tools: &Tools,
    backwards: bool,
) -> Result<(Vec<Verdict>, Pass), Memory>
    requires { pass.memo ≡ cells.now }
    ensures { IfOk result (λ r. r.1.memo ≡ pass.memo) }
{
    in_turn::<Brand>(alloc, cells, pass, tools, backwards, Blank::new(1))
}

// Two callers on one memo, each with a pass of its own, in opposite orders.
fn two_callers<R: Threads>(
    rt: &R,
    alloc: Global,
    cells: &Cells,
    mut pass: Pass,
    tools: &Tools,
) -> Result<(Vec<Verdict>, Vec<Verdict>), Memory>
    requires { pass.memo ≡ cells.now }
{
    let other = cells.split(&mut pass);
    let forwards = move || -> Result<(Vec<Verdict>, Pass), Memory>
        requires { pass.memo ≡ cells.now }
        ensures { IfOk result (λ r. r.1.memo ≡ pass.memo) }
    { caller(alloc, cells, pass, tools, false) };
    let backwards = move || -> Result<(Vec<Verdict>, Pass), Memory>
        requires { other.memo ≡ cells.now }
        ensures { IfOk result (λ r. r.1.memo ≡ other.memo) }
    { caller(alloc, cells, other, tools, true) };
    let (first, second) = join(rt, forwards, backwards);
    let (first, mut pass) = first?;
    let (second, other) = second?;
    cells.join(&mut pass, other);
    Ok((first, second))
}

// The verdicts computed afresh.
fn afresh<L: Ledger>(alloc: Global, tools: &Tools, blank: Blank) -> Result<Vec<Verdict>, Memory>
    requires name { L.name ≡ blank.name }
    requires parts { L.parts ≡ blank.parts }
    requires some { 0 < blank.parts }
{
    let mut steps = Steps::<L>::new(blank);
    let mut verdicts = Vec::new(alloc);
    for i in 0..56 {
        let q = question(i);
        if in_bounds(&q) {
            verdicts.push(PlainAsker.ask(&q, tools, &mut steps))?;
        }
    }
    Ok(verdicts)
}

#[test]
fn two_decide_at_once(rt: HostRuntime) -> Result<(), Fail> {
    let tools = Tools::new(rt.alloc());
    let Ok((cells, pass)) = Cells::open(rt.alloc()) else {
        panic!(rt; "no memory");
    };
    let Ok((first, second)) = two_callers(&rt, rt.alloc(), &cells, pass, &tools) else {
        panic!(rt; "no memory");
    };
    let Ok(plain) = afresh::<Brand>(rt.alloc(), &tools, Blank::new(1)) else {
        panic!(rt; "no memory");
    };
    assert_eq!(rt; plain.len(), 56);
    assert!(rt; first.as_slice() == plain.as_slice());
    assert!(rt; second.iter().rev().eq(plain.iter()));
    Ok(())
}
