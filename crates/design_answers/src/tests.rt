// What is answered on the output, one line after another of one oracle.
ghost use Rattle.std.specs.Prelude.{◌≡◌, ◌<◌, ◌^◌, length};

use crate::{Oracle, answer_request, answer_workload};
use catalogues::{Catalogue, SourceCatalogue};
use design_io::{MemorySink, MemorySource};
use design_lines::{Command, read_words};
use design_reports::Ending;
use rule_table::{Notes, Steps};
use std::alloc::{AllocError, Global};
use std::marker::Brand;
use std::sync::ledger::{Blank, Ledger};
use std::test::Fail;

// A line, the number of the output's call that fails, and what comes of it.
#[derive(Drop)]
struct Case {
    line: &'static str,
    failing: u32,
    output: &'static str,
    ending: Ending,
}

fn told(line: &'static str, output: &'static str, ending: Ending) -> Case {
    Case {
        line,
        failing: 0,
        output,
        ending,
    }
}

fn words_of(alloc: Global, text: &str) -> Result<Vec<String>, AllocError> {
    let mut words = Vec::new(alloc);
    for word in text.split_whitespace() {
        words.push(String::from_str(alloc, word)?)?;
    }
    Ok(words)
}

// Whether the line is answered so.
fn holds<L: Ledger>(
    alloc: Global,
    catalogues: &mut Vec<Box<dyn Catalogue>>,
    oracle: &mut Oracle<Notes, L>,
    row: &Case,
) -> Result<bool, AllocError>
    requires { length catalogues.old.items < 2 ^ 32 }
{
    let words = words_of(alloc, row.line)?;
    let Ok(mut out) = MemorySink::new(alloc, 4096, vec![in alloc; row.failing]?) else {
        return Err(AllocError);
    };
    let ending = match read_words(&words) {
        Ok(Command::On(request)) => answer_request(request, catalogues, oracle, &mut out),
        Ok(Command::Workload { n }) => answer_workload(n, oracle, &mut out),
        _ => return Ok(false),
    };
    Ok(ending == row.ending && out.bytes() == row.output.as_bytes())
}

// How many of the lines are answered so, up to the first that is not, with at most one catalogue at hand and the steps counted on a ledger.
fn count_counted<L: Ledger>(
    alloc: Global,
    catalogues: &mut Vec<Box<dyn Catalogue>>,
    rows: &[Case],
    blank: Blank,
) -> Result<usize, AllocError>
    requires name { L.name ≡ blank.name }
    requires parts { L.parts ≡ blank.parts }
    requires some { 0 < blank.parts }
{
    let mut steps = Steps::<L>::new(blank);
    let Ok(notes) = Notes::open(alloc) else {
        return Err(AllocError);
    };
    let Ok(mut oracle) = Oracle::open(alloc, notes, &mut steps) else {
        return Err(AllocError);
    };
    for (i, row) in rows.iter().enumerate() {
        if catalogues.len() > 1 {
            return Ok(i);
        }
        if !holds(alloc, catalogues, &mut oracle, row)? {
            return Ok(i);
        }
    }
    Ok(rows.len())
}

// How many of the lines are answered so, up to the first that is not, with a catalogue of this text at hand.
fn count_with(alloc: Global, text: &str, rows: &[Case]) -> Result<usize, AllocError> {
    let source = MemorySource::new(text.as_bytes().to_vec(alloc)?, Vec::new(alloc));
    let mut catalogues: Vec<Box<dyn Catalogue>> = Vec::new(alloc);
    catalogues.push(Box::new(alloc, SourceCatalogue::new(alloc, source))?)?;
    count_counted::<Brand>(alloc, &mut catalogues, rows, Blank::new(1))
}

// How many of the lines are answered so, up to the first that is not, with no design at hand.
fn count(alloc: Global, rows: &[Case]) -> Result<usize, AllocError> {
    count_with(alloc, "", rows)
}

const SUM_9: &str = "bibd 9 3 4 yes sum 1
derivation 1
1 bibd 9 3 1 bose
2 bibd 9 3 3 middle
3 bibd 9 3 4 sum 1 from 1 2
end 3
";

const SKOLEM_7: &str = "bibd 7 3 1 yes skolem
derivation 1
1 bibd 7 3 1 skolem
end 1
blocks 7
0 1 3
0 2 4
0 5 6
1 2 6
1 4 5
2 3 5
3 4 6
";

#[test]
fn verdicts_and_designs(rt: HostRuntime) -> Result<(), Fail> {
    let rows = [
        told("ask bibd 10 6 5", "bibd 10 6 5 unknown\n", Ending::Unknown),
        told("ask bibd 8 3 1", "bibd 8 3 1 no replication\n", Ending::No),
        told("explain bibd 9 3 4", SUM_9, Ending::Yes),
        told("build bibd 7 3 1", SKOLEM_7, Ending::Yes),
    ];
    assert_eq!(rt; count(rt.alloc(), &rows)?, rows.len());
    Ok(())
}

const HANDED_13: &str = "df z 13 3 1 unknown
offer 1 valid 2 blocks
blocks 2
0 1 4
0 2 7
";

#[test]
fn designs_are_handed_in(rt: HostRuntime) -> Result<(), Fail> {
    let rows = [
        told("ask bibd 9 3 1", "bibd 9 3 1 yes bose\n", Ending::Yes),
        told("ask bibd 15 5 2", "bibd 15 5 2 unknown\n", Ending::Unknown),
        told("build df z 13 3 1", HANDED_13, Ending::Yes),
        told(
            "ask df z 13 3 1",
            "df z 13 3 1 unknown\noffer 1 invalid pair 0 2 covered 2\n",
            Ending::Unknown,
        ),
        told("ask df z 13 3 1", "df z 13 3 1 unknown\n", Ending::Unknown),
    ];
    let text = "design df z 13 3 1\n0 1 4\n0 2 7\nend\ndesign df z 13 3 1\n0 1 3\n0 2 7\nend\n";
    assert_eq!(rt; count_with(rt.alloc(), text, &rows)?, rows.len());
    let cut = [told("ask df z 13 3 1", "", Ending::CatalogueFault { number: 1 })];
    assert_eq!(rt; count_with(rt.alloc(), "design df z 13 3 1\n", &cut)?, 1);
    Ok(())
}

const CLOSURE_18: &str = "td 4 18 yes wilson1 3 5 3
closure 10
";

// What was asked before is not counted.
#[test]
fn closures(rt: HostRuntime) -> Result<(), Fail> {
    let rows = [
        told("closure td 4 18", CLOSURE_18, Ending::Yes),
        told(
            "closure bibd 25 4 1",
            "bibd 25 4 1 yes developf\nclosure 3\n",
            Ending::Yes,
        ),
        told(
            "closure bibd 10 6 5",
            "bibd 10 6 5 unknown\nclosure 7\n",
            Ending::Unknown,
        ),
        told(
            "closure df z 12 3 1",
            "df z 12 3 1 no differences\nclosure 1\n",
            Ending::No,
        ),
        told("closure td 4 18", CLOSURE_18, Ending::Yes),
        Case {
            line: "closure td 4 18",
            failing: 2,
            output: "td 4 18 yes wilson1 3 5 3\n",
            ending: Ending::WriteFault,
        },
    ];
    assert_eq!(rt; count(rt.alloc(), &rows)?, rows.len());
    Ok(())
}

const WORKLOAD_10: &str = "workload 10
yes 6
no 4
unknown 0
cells 11
";

const WORKLOAD_300: &str = "workload 300
yes 104
no 183
unknown 13
cells 278
";

// A workload is counted afresh each time.
#[test]
fn workloads(rt: HostRuntime) -> Result<(), Fail> {
    let rows = [
        told("closure td 4 18", CLOSURE_18, Ending::Yes),
        told("workload 10", WORKLOAD_10, Ending::Yes),
        told("workload 300", WORKLOAD_300, Ending::Yes),
        told("workload 300", WORKLOAD_300, Ending::Yes),
        told("closure td 4 18", CLOSURE_18, Ending::Yes),
        Case {
            line: "workload 10",
            failing: 3,
            output: "workload 10\nyes 6\n",
            ending: Ending::WriteFault,
        },
    ];
    assert_eq!(rt; count(rt.alloc(), &rows)?, rows.len());
    Ok(())
}

const WORKLOAD_20000: &str = "workload 20000
yes 6404
no 12232
unknown 1364
cells 8321
";

#[test]
fn large_workload(rt: HostRuntime) -> Result<(), Fail> {
    let rows = [
        told("workload 20000", WORKLOAD_20000, Ending::Yes),
        told("workload 20000", WORKLOAD_20000, Ending::Yes),
    ];
    assert_eq!(rt; count(rt.alloc(), &rows)?, rows.len());
    Ok(())
}
