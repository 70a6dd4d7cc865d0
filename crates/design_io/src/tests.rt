use super::*;
use design_base::Memory;
use std::alloc::{AllocError, Global};
use std::io::{self, ErrorKind, Read, Write};
use std::test::Fail;

// What reading the bytes gives, over a source whose call number `failing` fails.
fn reading(
    alloc: Global,
    bytes: &[u8],
    failing: u32,
    limit: u8,
) -> Result<Result<Vec<u8>, ReadEnd>, AllocError> {
    let mut source = MemorySource::new(bytes.to_vec(alloc)?, vec![in alloc; failing]?);
    Ok(read_all(alloc, &mut source, u32::from(limit)))
}

#[test]
fn reads_within_the_limit(rt: HostRuntime) -> Result<(), Fail> {
    let alloc = rt.alloc();
    for (bytes, failing, limit, want) in [
        ("", 0, 0, Ok("")),
        ("ab\ncd", 0, 5, Ok("ab\ncd")),
        ("ab\ncd", 0, 4, Err(ReadEnd::TooLong { line: 2 })),
        ("ab\ncd", 0, 3, Err(ReadEnd::TooLong { line: 2 })),
        ("ab\ncd", 0, 2, Err(ReadEnd::TooLong { line: 1 })),
        ("ab\ncd", 1, 5, Err(ReadEnd::Failed)),
        ("ab\ncd", 2, 5, Err(ReadEnd::Failed)),
        ("ab\ncd", 3, 5, Ok("ab\ncd")),
    ] {
        let answer = reading(alloc, bytes.as_bytes(), failing, limit)?;
        let is_right = match (&answer, want) {
            (Ok(all), Ok(text)) => all.as_slice() == text.as_bytes(),
            (Err(end), Err(wanted)) => *end == wanted,
            _ => false,
        };
        assert!(rt; is_right, "{bytes} up to {limit}");
    }
    Ok(())
}

#[test]
fn ends_of_readings_are_printed(rt: HostRuntime) -> Result<(), Fail> {
    let alloc = rt.alloc();
    for (end, want) in [
        (ReadEnd::Failed, "read fault"),
        (ReadEnd::TooLong { line: 12 }, "too long at line 12"),
        (ReadEnd::Memory, "no memory"),
    ] {
        let text = format!(in alloc; "{end}")?;
        assert_eq!(rt; text.as_str(), want);
    }
    for (end, want) in [
        (LineEnd::Failed, "read fault"),
        (LineEnd::TooLong { line: 7 }, "too long at line 7"),
    ] {
        let text = format!(in alloc; "{end}")?;
        assert_eq!(rt; text.as_str(), want);
    }
    Ok(())
}

#[test]
fn failed_writes_keep_no_byte(rt: HostRuntime) -> Result<(), Fail> {
    let alloc = rt.alloc();
    for (failing, room, want) in [(0, 6, "abcdef"), (2, 6, "abef"), (0, 3, "abe")] {
        let Ok(mut sink) = MemorySink::new(alloc, room, vec![in alloc; failing]?) else {
            return Err(AllocError.into());
        };
        for piece in ["ab", "cd", "e", "f"] {
            let _ = write_whole(&mut sink, piece.as_bytes());
        }
        assert_eq!(rt;
            sink.bytes(),
            want.as_bytes(),
            "call {failing} fails, room {room}"
        );
    }
    Ok(())
}

// It fails so many calls by an error of this kind. Then it is at the end of input, and takes whole pieces.
#[derive(Drop)]
struct Failing {
    calls: u32,
    kind: ErrorKind,
}

impl Failing {
    fn pass(&mut self) -> io::Result<()> {
        if self.calls == 0 {
            return Ok(());
        }
        self.calls -= 1;
        Err(self.kind.into())
    }
}

impl Read for Failing {
    fn read(&mut self, _buf: &mut [u8]) -> io::Result<usize> {
        self.pass()?;
        Ok(0)
    }
}

impl Write for Failing {
    fn write(&mut self, buf: &[u8]) -> io::Result<usize> {
        self.pass()?;
        Ok(buf.len())
    }

    fn flush(&mut self) -> io::Result<()> {
        Ok(())
    }
}

#[test]
fn only_interrupted_calls_are_made_again(rt: HostRuntime) {
    for (calls, kind, want) in [
        (0, ErrorKind::Interrupted, Ok(())),
        (999, ErrorKind::Interrupted, Ok(())),
        (1_000, ErrorKind::Interrupted, Err(Failed)),
        (1, ErrorKind::WouldBlock, Err(Failed)),
    ] {
        let mut source = StdSource::new(Failing { calls, kind });
        let end = source.read(&mut [0; 2]);
        assert_eq!(rt; end, want.map(|()| 0), "{calls} reads");
        let mut sink = StdSink::new(Failing { calls, kind });
        assert_eq!(rt; write_whole(&mut sink, b"ab"), want, "{calls} writes");
    }
}

// It takes no byte, and counts the calls.
#[derive(Drop)]
struct Idle {
    calls: u32,
}

impl Write for Idle {
    fn write(&mut self, _buf: &[u8]) -> io::Result<usize> {
        self.calls = self.calls.saturating_add(1);
        Ok(0)
    }

    fn flush(&mut self) -> io::Result<()> {
        Ok(())
    }
}

#[test]
fn a_writer_that_takes_nothing_is_called_once(rt: HostRuntime) {
    let mut writer = Idle { calls: 0 };
    assert_eq!(rt;
        write_whole(&mut StdSink::new(&mut writer), b"ab"),
        Err(Failed)
    );
    assert_eq!(rt; writer.calls, 1);
}

#[test]
fn adapters_tell_what_std_tells(rt: HostRuntime) -> Result<(), Fail> {
    let alloc = rt.alloc();
    let mut source = StdSource::new(b"ab\ncd".as_slice());
    assert_eq!(rt;
        read_all(alloc, &mut source, 5)?.as_slice(),
        b"ab\ncd".as_slice()
    );
    let mut written = Vec::new(alloc);
    let mut sink = StdSink::new(&mut written);
    assert!(rt; write_whole(&mut sink, b"ab").is_ok());
    assert!(rt; write_whole(&mut sink, b"cd").is_ok());
    assert_eq!(rt; written.as_slice(), b"abcd".as_slice());
    Ok(())
}
