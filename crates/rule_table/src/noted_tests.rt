// What is remembered, and how large closures are.
ghost use Rattle.std.specs.Prelude.{◌≡◌, ◌<◌};

use crate::{Asker, Marks, Notes, PlainAsker, Steps, Tools, visit};
use design_base::{
    CELLS, Criterion, Group, Query, Rule, Step, Verdict, cell_of, code, in_bounds, query_of,
    read_code,
};
use std::alloc::Global;
use std::marker::Brand;
use std::process::Abort;
use std::sync::ledger::{Blank, Ledger};
use std::test::Fail;

fn bibd(v: u16, k: u16, l: u16) -> Query {
    Query::Bibd { v, k, l }
}

// The number of a question, and back.
fn assert_cell(rt: &impl Abort, q: &Query, cell: usize) {
    assert!(rt; in_bounds(q));
    assert_eq!(rt; cell_of(q), cell);
    assert_eq!(rt; query_of(cell), Some(*q));
}

#[test]
fn cells(rt: HostRuntime) -> Result<(), Fail> {
    assert_cell(&rt, &Query::Td { k: 2, n: 1 }, 0);
    assert_cell(
        &rt,
        &Query::Df {
            group: Group::Field,
            v: 2,
            k: 2,
            l: 1,
        },
        100_934,
    );
    assert_cell(&rt, &bibd(9, 3, 1), 203_048);
    assert_cell(&rt, &Query::Gdd { k: 2, g: 1, u: 2 }, 294_482);
    assert_cell(&rt, &Query::Pbd { v: 128, s: 16 }, CELLS - 1);
    assert_eq!(rt; query_of(4166), None);
    assert_eq!(rt; query_of(CELLS), None);
    assert_eq!(rt; query_of(usize::MAX), None);
    Ok(())
}

// The code of a verdict, and back.
fn assert_code(rt: &impl Abort, verdict: &Verdict, word: u64) {
    assert_eq!(rt; code(verdict), word);
    assert_eq!(rt; read_code(word), Some(*verdict));
}

#[test]
fn codes(rt: HostRuntime) -> Result<(), Fail> {
    assert_code(&rt, &Verdict::Unknown, 1);
    assert_code(&rt, &Verdict::No(Criterion::Replication), 258);
    assert_code(&rt, &Verdict::Yes(Step::new(Rule::Bose, 0, 0, 0, 0)), 4_099);
    assert_code(
        &rt,
        &Verdict::Yes(Step::new(Rule::Wilson1, 3, 5, 3, 0)),
        3_299_877_258_755,
    );
    for word in [0, 2, 3, 257, 2_562, 11_267, 4_099 + (1 << 16), u64::MAX] {
        assert_eq!(rt; read_code(word), None);
    }
    Ok(())
}

// What is remembered is what is computed afresh, asked twice in turn.
fn assert_remembered<L: Ledger>(rt: &impl Abort, alloc: Global, tools: &Tools, blank: Blank)
    requires name { L.name ≡ blank.name }
    requires parts { L.parts ≡ blank.parts }
    requires some { 0 < blank.parts }
{
    let mut steps = Steps::<L>::new(blank);
    let Ok(mut notes) = Notes::open(alloc) else {
        panic!(rt; "no memory");
    };
    for n in [18, 10, 14, 18, 6, 22, 26, 10] {
        let q = Query::Td { k: 4, n };
        assert!(rt; in_bounds(&q));
        let told = notes.ask(&q, tools, &mut steps);
        assert_eq!(rt; told, PlainAsker.ask(&q, tools, &mut steps));
    }
}

#[test]
fn remembers(rt: HostRuntime) -> Result<(), Fail> {
    let tools = Tools::new(rt.alloc());
    assert_remembered::<Brand>(&rt, rt.alloc(), &tools, Blank::new(1));
    Ok(())
}

// How many questions the closures have.
fn assert_closures<L: Ledger>(rt: &impl Abort, alloc: Global, tools: &Tools, blank: Blank)
    requires name { L.name ≡ blank.name }
    requires parts { L.parts ≡ blank.parts }
    requires some { 0 < blank.parts }
{
    let mut steps = Steps::<L>::new(blank);
    let Ok(mut notes) = Notes::open(alloc) else {
        panic!(rt; "no memory");
    };
    let Ok(mut marks) = Marks::open(alloc) else {
        panic!(rt; "no memory");
    };
    for (q, size) in [
        (Query::Td { k: 4, n: 18 }, 10),
        (bibd(25, 4, 1), 3),
        (bibd(10, 6, 5), 7),
        (bibd(9, 3, 1), 1),
        (Query::Td { k: 4, n: 18 }, 10),
    ] {
        assert!(rt; in_bounds(&q));
        marks.clear();
        visit(&q, tools, &mut notes, &mut marks, &mut steps);
        assert_eq!(rt; marks.count(), size);
    }
}

#[test]
fn closures(rt: HostRuntime) -> Result<(), Fail> {
    let tools = Tools::new(rt.alloc());
    assert_closures::<Brand>(&rt, rt.alloc(), &tools, Blank::new(1));
    Ok(())
}
