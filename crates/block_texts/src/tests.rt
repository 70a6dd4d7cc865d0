ghost use Rattle.std.specs.Prelude.{◌≤◌, length};
ghost use Rattle.design_base.specs.declared.limits.TheConstants.{INPUT_MAX};

use crate::{BlockLineEnd, BlockTextEnd, push_block_line, read_blocks};
use design_base::INPUT_MAX;
use incidence::Rows;
use std::alloc::Global;
use std::test::Fail;

// What is answered to a line of at most 64 bytes, and the rows that it made.
#[tactic(auto, using(crate::proofs::RowNumbers::room_for_numbers))]
fn added(alloc: Global, line: &[u8]) -> (Result<bool, BlockLineEnd>, Rows) {
    let mut rows = Rows::new(alloc);
    let answer = push_block_line(alloc, &mut rows, &line[..line.len().min(64)]);
    (answer, rows)
}

#[test]
fn block_lines_are_added(rt: HostRuntime) -> Result<(), Fail> {
    let good: [(&[u8], &[u16]); 2] = [
        (b"0 1 3", &[0, 1, 3]),
        (b"\t00012  65535 \r", &[12, 65_535]),
    ];
    for (line, row) in good {
        let (answer, rows) = added(rt.alloc(), line);
        assert_eq!(rt; answer, Ok(true));
        assert_eq!(rt; rows.len(), 1);
        assert_eq!(rt; rows.row(0), row);
    }
    let blank: [&[u8]; 3] = [b"", b" \t\r", b"\r"];
    for line in blank {
        let (answer, rows) = added(rt.alloc(), line);
        assert_eq!(rt; answer, Ok(false));
        assert!(rt; rows.is_empty());
    }
    let bad: [&[u8]; 8] = [
        b"65536",
        b"000001",
        b"1 x 4",
        b"1\r\r",
        b"1\r2",
        b"-1",
        b"1\x00",
        b"\xc2\xa01",
    ];
    for line in bad {
        let (answer, rows) = added(rt.alloc(), line);
        assert_eq!(rt; answer, Err(BlockLineEnd::Bad));
        assert!(rt; rows.is_empty());
    }
    Ok(())
}

// Whether these are the rows of a text up to the first that is too short.
fn reads(alloc: Global, text: &[u8], least: usize, rows: &[&[u16]]) -> bool
    requires { length text.now ≤ INPUT_MAX }
{
    let Ok(list) = read_blocks(alloc, text, least) else {
        return false;
    };
    list.iter().eq(rows.iter().copied())
}

#[test]
fn blocks_of_a_text_are_read(rt: HostRuntime) {
    let text: &[u8] = b"0 1 3\n\n \t07\t 9\r\n5\n1 2";
    let rows: [&[u16]; 4] = [&[0, 1, 3], &[7, 9], &[5], &[1, 2]];
    assert!(rt; reads(rt.alloc(), text, 0, &rows));
    assert!(rt; reads(rt.alloc(), text, 2, &rows[..3]));
}

#[test]
fn first_bad_line_is_named(rt: HostRuntime) {
    let texts: [(&[u8], u32); 6] = [
        (b"1 2\n3 x\n4 y\n", 2),
        (b"5\n\n123456", 3),
        (b"1 2\r\r\n", 1),
        (b"1\n2\r3\n", 2),
        (b"1\n2\n65536", 3),
        (b"1\n-2", 2),
    ];
    for (text, line) in texts {
        let read = read_blocks(rt.alloc(), text, 2);
        assert!(rt; matches!(read, Err(BlockTextEnd::BadLine { line: at }) if at == line));
    }
}
