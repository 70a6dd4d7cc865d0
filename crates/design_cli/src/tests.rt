//! Words that are refused, and faults of the input and the output.
use crate::cases::{Case, FANO, holds, told};
use std::test::Fail;

#[test]
fn words_are_refused(rt: HostRuntime) -> Result<(), Fail> {
    for (words, message) in [
        ("ask td 129 1", "usage: out of bounds\n"),
        ("", "usage: missing word at 1\n"),
        ("ask foo 3", "usage: unknown word at 2\n"),
        ("ask bibd 09 3 1", "usage: number spelling at 3\n"),
        ("ask bibd 9 3", "usage: missing word at 5\n"),
        ("ask td 3 4 5", "usage: surplus word at 5\n"),
        ("check mols 4 65534", "usage: out of bounds\n"),
        ("workload 0", "usage: out of bounds\n"),
        ("table td 3 6 1 14 workers 4", "usage: not built\n"),
    ] {
        let right = holds(rt.alloc(), &told(words, FANO, "", message, 64))?;
        assert!(rt; right, "at {words}");
    }
    Ok(())
}

#[test]
fn output_that_fails_is_a_write_fault(rt: HostRuntime) -> Result<(), Fail> {
    for (words, failing, output) in [
        ("build bibd 9 3 1", 1, ""),
        ("build bibd 9 3 1", 2, "bibd 9 3 1 yes bose\n"),
        ("build plane 3", 2, "bibd 13 4 1 yes projective 3 2\n"),
        ("build bibd 16 4 1", 2, "bibd 16 4 1 yes affine 4 2\n"),
    ] {
        let row = Case {
            words,
            input: "",
            failing_read: 0,
            failing,
            output,
            message: "write fault\n",
            status: 74,
        };
        let right = holds(rt.alloc(), &row)?;
        assert!(rt; right, "at {words}, where call {failing} fails");
    }
    Ok(())
}

#[test]
fn input_that_fails_is_a_read_fault(rt: HostRuntime) -> Result<(), Fail> {
    let row = Case {
        words: "check bibd 7 3 1",
        input: FANO,
        failing_read: 1,
        failing: 0,
        output: "",
        message: "read fault\n",
        status: 66,
    };
    assert!(rt; holds(rt.alloc(), &row)?);
    Ok(())
}
