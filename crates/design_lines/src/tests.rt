use crate::{
    Asked, Command, Reason, Request, RowPrinter, Shape, TextLine, Verb, counted_line,
    question_text, read_line, read_words, step_text,
};
use design_base::{Group, Query, Rule, Step, TableAsk};
use std::alloc::{AllocError, Global};
use std::test::Fail;

// The command of the words of a line with one space between each two.
fn read(alloc: Global, line: &str) -> Result<Result<Command, Reason>, AllocError> {
    let mut words = Vec::new(alloc);
    for word in line.split(' ') {
        words.push(String::from_str(alloc, word)?)?;
    }
    Ok(read_words(&words))
}

#[test]
fn command_lines_are_refused(rt: HostRuntime) -> Result<(), Fail> {
    assert_eq!(rt; read_words(&[]), Err(Reason::Missing { at: 1 }));
    for (line, reason) in [
        ("ask td 129 1", Reason::OutOfBounds),
        ("ask foo 3", Reason::Unknown { at: 2 }),
        ("ask bibd 09 3 1", Reason::Spelling { at: 3 }),
        ("ask bibd 9 3", Reason::Missing { at: 5 }),
        ("ask td 3 4 5", Reason::Surplus { at: 5 }),
        ("ask td 65538 3", Reason::OutOfBounds),
        ("ask plane 999999", Reason::OutOfBounds),
        ("ask gdd 3 65536 65536", Reason::OutOfBounds),
        ("ask mols 4 65534", Reason::OutOfBounds),
        ("ask mols 2 0", Reason::OutOfBounds),
        ("ask td 0 0 x", Reason::Surplus { at: 5 }),
        ("ask td 1234567 3", Reason::Spelling { at: 3 }),
        ("ask df 13 3 1", Reason::Unknown { at: 3 }),
        ("table td 9 2 1 x", Reason::Spelling { at: 6 }),
        ("table td 3 6 1 14 workers", Reason::Missing { at: 8 }),
        ("table td 3 6 1 14 worker 2", Reason::Surplus { at: 7 }),
        ("table td 3 6 1 14 workers 17", Reason::OutOfBounds),
        ("table td 6 3 1 14", Reason::OutOfBounds),
        ("replay now", Reason::Surplus { at: 2 }),
    ] {
        assert_eq!(rt; read(rt.alloc(), line)?, Err(reason), "at {line}");
    }
    Ok(())
}

#[test]
fn command_lines_are_read(rt: HostRuntime) -> Result<(), Fail> {
    let td = Query::Td { k: 4, n: 10 };
    for (line, query, shape) in [
        ("check td 4 10", td, Shape::Blocks),
        ("check oa 4 10", td, Shape::Rows),
        ("check mols 10 2", td, Shape::Squares),
        (
            "check sts 9",
            Query::Bibd { v: 9, k: 3, l: 1 },
            Shape::Blocks,
        ),
        (
            "check plane 3",
            Query::Bibd { v: 13, k: 4, l: 1 },
            Shape::Blocks,
        ),
        (
            "check gdd 3 2 4",
            Query::Gdd { k: 3, g: 2, u: 4 },
            Shape::Blocks,
        ),
        ("check pbd 10 3", Query::Pbd { v: 10, s: 3 }, Shape::Blocks),
    ] {
        let command = Command::Check(Asked { query, shape });
        assert_eq!(rt; read(rt.alloc(), line)?, Ok(command), "at {line}");
    }
    let ask = TableAsk::Td {
        k1: 3,
        k2: 6,
        n1: 1,
        n2: 14,
    };
    assert_eq!(rt;
        read(rt.alloc(), "table td 3 6 1 14")?,
        Ok(Command::Table { ask, workers: 1 })
    );
    assert_eq!(rt;
        read(rt.alloc(), "table td 3 6 1 14 workers 4")?,
        Ok(Command::Table { ask, workers: 4 })
    );
    Ok(())
}

#[test]
fn lines_of_a_batch_are_read(rt: HostRuntime) {
    let query = Query::Df {
        group: Group::Cyclic,
        v: 13,
        k: 3,
        l: 1,
    };
    let request = Request {
        verb: Verb::Build,
        query,
        shape: Shape::Blocks,
    };
    assert_eq!(rt; read_line(b" \tbuild\t df z  13 3 1 "), Ok(Some(request)));
    assert_eq!(rt; read_line(b" \t "), Ok(None));
    assert_eq!(rt; read_line(b"check td 3 2"), Err(Reason::Unknown { at: 1 }));
    assert_eq!(rt;
        read_line(b"ask bibd 9 3 1\r"),
        Err(Reason::Spelling { at: 5 })
    );
}

#[test]
fn questions_and_steps_are_printed(rt: HostRuntime) {
    assert_eq!(rt;
        question_text(&Query::Df {
            group: Group::Field,
            v: 25,
            k: 4,
            l: 1
        })
        .bytes(),
        b"df f 25 4 1".as_slice()
    );
    assert_eq!(rt;
        step_text(&Step::new(Rule::Wilson1, 3, 5, 3, 0)).bytes(),
        b"wilson1 3 5 3".as_slice()
    );
    assert_eq!(rt;
        step_text(&Step::new(Rule::PbdDelete, 0, 0, 0, 0)).bytes(),
        b"delete".as_slice()
    );
    let mut line = TextLine::new();
    line.push_word(b"blocks");
    line.push_number(12);
    line.end();
    assert_eq!(rt; line.bytes(), b"blocks 12\n".as_slice());
    assert_eq!(rt;
        counted_line("end", 65_536).bytes(),
        b"end 65536\n".as_slice()
    );
}

#[test]
fn rows_are_printed(rt: HostRuntime) {
    let mut printer = RowPrinter::new();
    assert_eq!(rt; printer.line(&[0, 9, 10, 99]), b"0 9 10 99\n".as_slice());
    assert_eq!(rt; printer.line(&[999, 1_000]), b"999 1000\n".as_slice());
    assert_eq!(rt; printer.line(&[]), b"\n".as_slice());
    assert_eq!(rt; printer.line(&[4_223, 9_999]), b"4223 9999\n".as_slice());
    assert_eq!(rt; printer.line(&[4_224, 65_535]), b"4224 65535\n".as_slice());
    assert_eq!(rt; printer.line(&[4_223]), b"4223\n".as_slice());
}
