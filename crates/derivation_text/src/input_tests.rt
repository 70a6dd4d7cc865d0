use crate::{InputEnd, parse_input};
use design_base::{DERIVATION_MAX, INPUT_MAX};
use std::alloc::{AllocError, Global};
use std::test::Fail;

// What is read of an input: how many lines its derivation has, or the first bad line.
fn read(alloc: Global, text: &[u8]) -> Result<Result<usize, u32>, AllocError> {
    if text.len() > INPUT_MAX as usize {
        return Err(AllocError);
    }
    match parse_input(alloc, text) {
        Ok(lines) => Ok(Ok(lines.len())),
        Err(InputEnd::BadLine { line }) => Ok(Err(line)),
        Err(InputEnd::Memory) => Err(AllocError),
    }
}

#[test]
fn derivations_stand_among_other_lines(rt: HostRuntime) -> Result<(), Fail> {
    for (text, answer) in [
        ("derivation 1\n1 td 4 3 field\nend 1\n", Ok(1)),
        (
            "td 4 3 yes field\nderivation 1\n1 td 4 3 field\nend 1\n",
            Ok(1),
        ),
        ("\n\n?\0\nderivation 1\n1 td 4 3 field\nend 1\n", Ok(1)),
        (
            "derivation 1\r\nderivation 1\n1 td 4 3 field\nend 1\n",
            Ok(1),
        ),
        (
            "derivation  1\nderivation 1\n1 td 4 3 field\nend 1\n",
            Ok(1),
        ),
        ("end 1\nderivation 1\n1 td 4 3 field\nend 1\n", Ok(1)),
        (
            "derivation 1\n1 td 4 3 field\nend 1\nblocks 9\n0 3\n",
            Ok(1),
        ),
        ("derivation 1\n1 td 4 3 field\nend 1\nend 1\n?", Ok(1)),
        ("derivation 1\n1 td 4 3 field\n2 td 4 1 one\nend 2\n", Ok(2)),
        ("derivation 1\n1 td 4 3 field\nend 1\nderivation 1\n", Ok(1)),
    ] {
        assert_eq!(rt; read(rt.alloc(), text.as_bytes())?, answer, "{text}");
    }
    Ok(())
}

#[test]
fn first_bad_lines_of_inputs_are_named(rt: HostRuntime) -> Result<(), Fail> {
    for (text, line) in [
        ("", 1),
        ("\n", 2),
        ("1 td 4 3 field\nend 1\n", 3),
        ("1 td 4 3 field\nend 1", 3),
        ("derivation 2\n1 td 4 3 field\nend 1\n", 4),
        ("derivation 1\r\n", 2),
        ("derivation 1", 1),
        ("0 1 3\n\nderivation 1", 3),
        ("derivation 1\n", 2),
        ("0 1 3\n\nderivation 1\n", 4),
        ("?\nderivation 1\nderivation 1\n1 td 4 3 field\nend 1\n", 3),
        ("?\nderivation 1\nend 0\n", 3),
        ("?\nderivation 1\n1 td 4 3 field\n", 4),
        ("?\nderivation 1\n1 td 4 3 field\nend 2\n", 4),
        ("?\nderivation 1\n1 td 4 3 field\nend 0\n", 4),
        ("?\nderivation 1\n1 td 4 3 field\nend 01\n", 4),
        ("?\nderivation 1\n1 td 4 3 field\nend 1", 4),
        ("?\nderivation 1\n1 td 4 3 field\nend 1\r\n", 4),
        ("?\nderivation 1\n1 td 4 3 field\n2 td 4 4 fi", 4),
        ("?\nderivation 1\n01 td 4 3 field\nend 1\n", 3),
        ("?\nderivation 1\n1 td 4 03 field\nend 1\n", 3),
        ("?\nderivation 1\n1 td  4 3 field\nend 1\n", 3),
        ("?\nderivation 1\n1 td 4 3 field\r\nend 1\n", 3),
        ("?\nderivation 1\n1 td 4 3 field from\nend 1\n", 3),
        (
            "?\nderivation 1\n1 td 4 3 field from 1 2 3 4 5 6 7\nend 1\n",
            3,
        ),
    ] {
        assert_eq!(rt; read(rt.alloc(), text.as_bytes())?, Err(line), "{text}");
    }
    Ok(())
}

// An input whose derivation has so many lines, and what is behind the last of them.
fn long_input(alloc: Global, count: usize, behind: &str) -> Result<Vec<u8>, AllocError> {
    let mut text = Vec::new(alloc);
    text.extend_from_slice(b"?\n?\nderivation 1\n")?;
    for i in 0..count {
        let number = i + 1;
        text.extend_from_slice(format!(in alloc; "{number} td 4 3 field\n")?.as_bytes())?;
    }
    text.extend_from_slice(behind.as_bytes())?;
    Ok(text)
}

#[test]
fn lines_too_many_are_bad(rt: HostRuntime) -> Result<(), Fail> {
    let alloc = rt.alloc();
    for (behind, answer) in [
        ("end 65536\n", Ok(DERIVATION_MAX)),
        ("end 65536\n65537 td 4 3 field\n", Ok(DERIVATION_MAX)),
        ("", Err(65_540)),
        ("end 65535\n", Err(65_540)),
        ("end 65536", Err(65_540)),
        ("65537 td 4 3 field\nend 65537\n", Err(65_540)),
    ] {
        let text = long_input(alloc, DERIVATION_MAX, behind)?;
        assert_eq!(rt; read(alloc, &text)?, answer, "{behind}");
    }
    Ok(())
}
