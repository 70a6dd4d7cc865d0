use super::*;
use std::alloc::{AllocError, Global};
use std::test::Fail;

// The lines that a reader gives of a source, each behind a `|`, and how that ends.
fn lines_read(
    alloc: Global,
    source: &mut MemorySource,
    reader: &mut LineReader,
) -> Result<(Vec<u8>, Result<(), LineEnd>), AllocError> {
    let mut all = Vec::new(alloc);
    for _ in 0..10_000 {
        match reader.next(source) {
            Ok(Some(line)) => {
                all.push(b'|')?;
                all.extend_from_slice(line)?;
            }
            Ok(None) => return Ok((all, Ok(()))),
            Err(end) => return Ok((all, Err(end))),
        }
    }
    Ok((all, Ok(())))
}

#[test]
fn lines_are_read(rt: HostRuntime) -> Result<(), Fail> {
    let alloc = rt.alloc();
    for (bytes, failing, limit, all, end) in [
        ("", 0, 9u8, "", Ok(())),
        ("\n", 0, 9, "|", Ok(())),
        ("ab\ncd", 0, 9, "|ab|cd", Ok(())),
        ("ab\r\n\ncd\r", 0, 9, "|ab||cd\r", Ok(())),
        ("a\rb\r\r\n", 0, 9, "|a\rb\r", Ok(())),
        ("ab\n\n", 0, 4, "|ab|", Ok(())),
        ("ab\n\n", 0, 3, "|ab", Err(LineEnd::TooLong { line: 2 })),
        ("ab\n\n", 0, 2, "", Err(LineEnd::TooLong { line: 1 })),
        ("ab\ncd", 0, 5, "|ab|cd", Ok(())),
        ("ab\ncd", 0, 4, "|ab", Err(LineEnd::TooLong { line: 2 })),
        ("a", 0, 0, "", Err(LineEnd::TooLong { line: 1 })),
        ("ab\ncd", 1, 9, "", Err(LineEnd::Failed)),
        ("ab\ncd", 2, 9, "|ab", Err(LineEnd::Failed)),
        ("ab\ncd\n", 2, 9, "|ab|cd", Err(LineEnd::Failed)),
        ("ab\ncd", 3, 9, "|ab|cd", Ok(())),
    ] {
        let mut source = MemorySource::new(
            bytes.as_bytes().to_vec(alloc)?,
            vec![in alloc; failing]?,
        );
        let mut reader = LineReader::new(u32::from(limit));
        let (given, ended) = lines_read(alloc, &mut source, &mut reader)?;
        assert_eq!(rt; given.as_slice(), all.as_bytes(), "{bytes} up to {limit}");
        assert_eq!(rt; ended, end, "{bytes} up to {limit}");
        assert_eq!(rt; reader.advance(&mut source), Ok(false), "behind {bytes}");
    }
    Ok(())
}

#[test]
fn long_lines_are_refused(rt: HostRuntime) -> Result<(), Fail> {
    let alloc = rt.alloc();
    for (count, more, end) in [
        (1024usize, "\nab\n", Ok(true)),
        (1024, "", Ok(true)),
        (1023, "\r\n", Ok(true)),
        (1025, "\n", Err(LineEnd::TooLong { line: 1 })),
        (1025, "", Err(LineEnd::TooLong { line: 1 })),
        (1024, "\r\n", Err(LineEnd::TooLong { line: 1 })),
        (5000, "\n", Err(LineEnd::TooLong { line: 1 })),
    ] {
        let mut bytes = vec![in alloc; b'x'; count]?;
        bytes.extend_from_slice(more.as_bytes())?;
        let mut source = MemorySource::new(bytes, Vec::new(alloc));
        let mut reader = LineReader::new(20_000);
        assert_eq!(rt; reader.advance(&mut source), end, "{count} bytes");
    }
    Ok(())
}

// So many lines of different lengths, each behind its own letter, and what is to be given of them.
fn lettered(alloc: Global, count: u16) -> Result<(Vec<u8>, Vec<u8>), AllocError> {
    let mut text = Vec::new(alloc);
    let mut want = Vec::new(alloc);
    for i in 0..count {
        let letter = b'a' + (i % 26) as u8;
        let line = vec![in alloc; letter; usize::from(i % 9)]?;
        text.extend_from_slice(&line)?;
        text.push(b'\n')?;
        want.push(b'|')?;
        want.extend_from_slice(&line)?;
    }
    Ok((text, want))
}

#[test]
fn lines_across_the_edges_of_the_buffer(rt: HostRuntime) -> Result<(), Fail> {
    let alloc = rt.alloc();
    let (text, want) = lettered(alloc, 3_000)?;
    let mut source = MemorySource::new(text, Vec::new(alloc));
    let mut reader = LineReader::new(100_000);
    let (given, ended) = lines_read(alloc, &mut source, &mut reader)?;
    assert_eq!(rt; ended, Ok(()));
    assert!(rt; given == want);
    Ok(())
}
