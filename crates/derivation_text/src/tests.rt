ghost use Rattle.std.specs.Prelude.{◌↔◌, IsTrue};
ghost use Rattle.derivations.specs.Spelled.{ArePrintable};

use crate::{ParseEnd, parse_v1, print_v1};
use derivations::{Derivation, Line, Names};
use design_base::{DERIVATION_MAX, Memory, PREMISES_MAX, Query, Rule, Step};
use design_io::{Failed, MemorySink};
use std::alloc::{AllocError, Global};
use std::test::Fail;

// A line of a transversal design with k groups of n points: k, n, the step, and the lines that it names.
type Row = (u16, u16, Step, &'static [u64]);

fn line(alloc: Global, row: &Row) -> Result<Line, Memory> {
    let (k, n, step, named) = *row;
    let mut from = Names::new(alloc);
    for number in named {
        from.push(*number)?;
    }
    Ok(Line {
        query: Query::Td { k, n },
        step,
        from,
    })
}

fn derivation(alloc: Global, rows: &[Row]) -> Result<Derivation, Memory> {
    let mut lines = Derivation::new(alloc);
    for row in rows {
        lines.push(line(alloc, row)?)?;
    }
    Ok(lines)
}

// Whether no line names too many others.
fn are_few(lines: &[Line]) -> bool
    ensures { IsTrue result ↔ ArePrintable lines.now }
{
    lines
        .iter()
        .all(|line| line.from.as_slice().len() <= PREMISES_MAX)
}

// What is printed of the lines, over a sink with so much room whose call number `failing` fails, and what is answered.
fn printed(
    alloc: Global,
    lines: &Derivation,
    room: usize,
    failing: u32,
) -> Result<(Result<(), Failed>, MemorySink), Memory>
    requires { ArePrintable lines.now }
{
    let mut numbers = Vec::new(alloc);
    numbers.push(failing)?;
    let mut sink = MemorySink::new(alloc, room, numbers)?;
    let answer = print_v1(lines, &mut sink);
    Ok((answer, sink))
}

const TD_5_4: &str = "derivation 1
1 td 5 4 field
end 1
";

const TD_4_18: &str = "derivation 1
1 td 5 5 field
2 td 4 3 field
3 td 4 4 field
4 td 4 3 field
5 td 4 18 wilson1 3 5 3 from 1 2 3 4
end 5
";

const TD_4_26: &str = "derivation 1
1 td 6 7 field
2 td 4 3 field
3 td 4 4 field
4 td 4 5 field
5 td 4 4 field
6 td 4 1 one
7 td 4 26 wilson2 3 7 4 1 from 1 2 3 4 5 6
end 7
";

#[test]
fn derivations_are_printed(rt: HostRuntime) -> Result<(), Fail> {
    let alloc = rt.alloc();
    let one = Step::new(Rule::TdOne, 0, 0, 0, 0);
    let field = Step::new(Rule::Field, 0, 0, 0, 0);
    let td_5_4: &[Row] = &[(5, 4, field, &[])];
    let td_4_18: &[Row] = &[
        (5, 5, field, &[]),
        (4, 3, field, &[]),
        (4, 4, field, &[]),
        (4, 3, field, &[]),
        (4, 18, Step::new(Rule::Wilson1, 3, 5, 3, 0), &[1, 2, 3, 4]),
    ];
    let td_4_26: &[Row] = &[
        (6, 7, field, &[]),
        (4, 3, field, &[]),
        (4, 4, field, &[]),
        (4, 5, field, &[]),
        (4, 4, field, &[]),
        (4, 1, one, &[]),
        (
            4,
            26,
            Step::new(Rule::Wilson2, 3, 7, 4, 1),
            &[1, 2, 3, 4, 5, 6],
        ),
    ];
    for (rows, failing, answer, text) in [
        (td_5_4, 0, Ok(()), TD_5_4),
        (td_4_18, 0, Ok(()), TD_4_18),
        (td_4_26, 0, Ok(()), TD_4_26),
        (td_4_18, 2, Err(Failed), "derivation 1\n"),
        (td_5_4, 3, Err(Failed), "derivation 1\n1 td 5 4 field\n"),
    ] {
        let Ok(lines) = derivation(alloc, rows) else {
            return Err(AllocError.into());
        };
        assert!(rt; are_few(lines.as_slice()));
        let Ok((answered, sink)) = printed(alloc, &lines, 4_096, failing) else {
            return Err(AllocError.into());
        };
        assert_eq!(rt; answered, answer, "call {failing} fails");
        assert_eq!(rt; sink.bytes(), text.as_bytes(), "call {failing} fails");
    }
    Ok(())
}

// Texts of questions of all kinds, with the largest numbers that a line may have.
const OTHERS: [&str; 5] = [
    "derivation 1
1 td 4 65535 field
end 1
",
    "derivation 1
1 td 4 12 product 3 4095
2 td 4 3 field from 999999 0
end 2
",
    "derivation 1
1 df z 7 3 1 table 1
2 bibd 7 3 1 developz from 1
end 2
",
    "derivation 1
1 df f 7 3 2 cosets
2 gdd 3 2 4 delete from 1 2 3 4 5 6
end 2
",
    "derivation 1
1 pbd 4 3 one
end 1
",
];

#[test]
fn texts_are_read(rt: HostRuntime) -> Result<(), Fail> {
    let alloc = rt.alloc();
    for text in [TD_5_4, TD_4_18, TD_4_26].iter().chain(OTHERS.iter()) {
        let Ok(lines) = parse_v1(alloc, text.as_bytes()) else {
            return Err(AllocError.into());
        };
        assert!(rt; are_few(lines.as_slice()));
        let Ok((answered, sink)) = printed(alloc, &lines, 4_096, 0) else {
            return Err(AllocError.into());
        };
        assert_eq!(rt; answered, Ok(()));
        assert_eq!(rt; sink.bytes(), text.as_bytes());
    }
    Ok(())
}

#[test]
fn first_bad_lines_are_named(rt: HostRuntime) -> Result<(), Fail> {
    for (text, line) in [
        ("", 1),
        ("\n", 1),
        ("derivation 1", 1),
        ("derivation 2\n", 1),
        ("derivation 1\r\n", 1),
        ("derivation  1\n", 1),
        ("1 td 4 3 field\nend 1\n", 1),
        ("derivation 1\n", 2),
        ("derivation 1\nend 0\n", 2),
        ("derivation 1\n\n1 td 4 3 field\nend 1\n", 2),
        ("derivation 1\n1 td 4 3 field\n2 td 4 4 fi", 3),
        ("derivation 1\n1 td 4 3 field\n", 3),
        ("derivation 1\n1 td 4 3 field\nend 1", 3),
        ("derivation 1\n1 td 4 3 field\nend 2\n", 3),
        ("derivation 1\n1 td 4 3 field\nend 01\n", 3),
        ("derivation 1\n1 td 4 3 field\nend 1\r\n", 3),
        ("derivation 1\n1 td 4 3 field\n2 td 4 4 field\nend 1\n", 4),
        ("derivation 1\n1 td 4 3 field\nend 1\n\n", 4),
        ("derivation 1\n1 td 4 3 field\nend 1\nend 1\n", 4),
        ("derivation 1\n2 td 4 3 field\nend 1\n", 2),
        ("derivation 1\n1 td 4 3 field\n3 td 4 4 field\nend 2\n", 3),
        ("derivation 1\n1 td 4 3 field\n1 td 4 4 field\nend 2\n", 3),
        ("derivation 1\n01 td 4 3 field\nend 1\n", 2),
        ("derivation 1\n1  td 4 3 field\nend 1\n", 2),
        ("derivation 1\n1 td 4 3 field \nend 1\n", 2),
        ("derivation 1\n 1 td 4 3 field\nend 1\n", 2),
        ("derivation 1\n1\ttd 4 3 field\nend 1\n", 2),
        ("derivation 1\n1 td 4 3 field\r\nend 1\n", 2),
        ("derivation 1\n1 td 4 3 fie\0ld\nend 1\n", 2),
        ("derivation 1\n1 td 4 03 field\nend 1\n", 2),
        ("derivation 1\n1 td 4 0000003 field\nend 1\n", 2),
        ("derivation 1\n1 td 4 1234567 field\nend 1\n", 2),
        ("derivation 1\n1 td 4 65536 field\nend 1\n", 2),
        ("derivation 1\n1 td 4 3 bose\nend 1\n", 2),
        ("derivation 1\n1 bibd 4 3 2 one\nend 1\n", 2),
        ("derivation 1\n1 df x 7 3 1 table 1\nend 1\n", 2),
        ("derivation 1\n1 oa 3 2 cyclic\nend 1\n", 2),
        ("derivation 1\n1 sts 7 skolem\nend 1\n", 2),
        ("derivation 1\n1 td 4 12 product 3\nend 1\n", 2),
        ("derivation 1\n1 td 4 12 product 3 4 5\nend 1\n", 2),
        ("derivation 1\n1 td 4 12 product 3 4096\nend 1\n", 2),
        ("derivation 1\n1 td 4 3 field from\nend 1\n", 2),
        ("derivation 1\n1 td 4 3 field from \nend 1\n", 2),
        (
            "derivation 1\n1 td 4 3 field from 1 2 3 4 5 6 7\nend 1\n",
            2,
        ),
        ("derivation 1\n1 td 4 3 field from 01\nend 1\n", 2),
        ("derivation 1\n1 td 4 3 field from 1000000\nend 1\n", 2),
    ] {
        match parse_v1(rt.alloc(), text.as_bytes()) {
            Ok(_) => panic!(rt; "read: {text}"),
            Err(end) => assert_eq!(rt; end, ParseEnd::Spelling { line }, "{text}"),
        }
    }
    Ok(())
}

// A text of so many lines, and what is behind the last of them.
fn long_text(alloc: Global, count: usize, behind: &str) -> Result<Vec<u8>, AllocError> {
    let mut text = Vec::new(alloc);
    text.extend_from_slice(b"derivation 1\n")?;
    for i in 0..count {
        let number = i + 1;
        text.extend_from_slice(format!(in alloc; "{number} td 4 3 field\n")?.as_bytes())?;
    }
    text.extend_from_slice(behind.as_bytes())?;
    Ok(text)
}

#[test]
fn texts_of_too_many_lines_are_told_apart(rt: HostRuntime) -> Result<(), Fail> {
    let alloc = rt.alloc();
    let missing = ParseEnd::Spelling { line: 65_538 };
    for (behind, answer) in [
        ("end 65536\n", Ok(DERIVATION_MAX)),
        ("", Err(missing)),
        ("end 65535\n", Err(ParseEnd::TooLong)),
        ("end 65536", Err(ParseEnd::TooLong)),
        ("65537 td 4 3 field\n", Err(ParseEnd::TooLong)),
        ("65537 td 4 3 field\nend 65537\n", Err(ParseEnd::TooLong)),
        ("?\n", Err(ParseEnd::TooLong)),
    ] {
        let text = long_text(alloc, DERIVATION_MAX, behind)?;
        match (parse_v1(alloc, &text), answer) {
            (Ok(lines), Ok(count)) => assert_eq!(rt; lines.len(), count, "{behind}"),
            (Err(end), Err(wanted)) => assert_eq!(rt; end, wanted, "{behind}"),
            _ => panic!(rt; "{behind}"),
        }
    }
    Ok(())
}
