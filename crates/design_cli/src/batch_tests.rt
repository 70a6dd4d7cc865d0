//! Batches, and the other commands that `run` hands on.
use crate::cases::{Case, FANO, holds, holds_on, told};
use std::alloc::{AllocError, Global};
use std::test::Fail;

const MIXED: &str =
    "ask td 5 4\n\n \t\nask td 6 4\r\nask foo\nclosure td 5 4\nexplain bibd 9 3 1\nask td 4 6";

const MIXED_ANSWERS: &str = "td 5 4 yes field
td 6 4 no groups
usage: unknown word at 2
td 5 4 yes field
closure 1
bibd 9 3 1 yes bose
derivation 1
1 bibd 9 3 1 bose
end 1
td 4 6 unknown
";

const QUESTIONS: &str =
    "explain td 5 2\nbuild td 3 2\nclosure td 4 18\nclosure bibd 25 4 1\nclosure bibd 10 6 5\nask td 4 18\n";

const ANSWERS: &str = "td 5 2 no groups
because 5 3
td 3 2 yes cyclic
derivation 1
1 td 3 2 cyclic
end 1
blocks 4
0 2 4
0 3 5
1 2 5
1 3 4
td 4 18 yes wilson1 3 5 3
closure 10
bibd 25 4 1 yes developf
closure 3
bibd 10 6 5 unknown
closure 7
td 4 18 yes wilson1 3 5 3
";

#[test]
fn each_line_of_a_batch_is_answered(rt: HostRuntime) -> Result<(), Fail> {
    for (input, output) in [
        (
            "ask bibd 9 3 1\nask bibd 9 3\nask bibd 15 5 2\n",
            "bibd 9 3 1 yes bose\nusage: missing word at 5\nbibd 15 5 2 unknown\n",
        ),
        (MIXED, MIXED_ANSWERS),
        (QUESTIONS, ANSWERS),
        ("", ""),
        ("\n\n", ""),
        ("\task   td\t5 4 ", "td 5 4 yes field\n"),
        ("ask td 5 4\r", "usage: number spelling at 4\n"),
        ("ask td 5 4\r\r\n", "usage: number spelling at 4\n"),
    ] {
        let right = holds(rt.alloc(), &told("batch", input, output, "", 0))?;
        assert!(rt; right, "at {input}");
    }
    Ok(())
}

#[test]
fn other_verbs_are_unknown_in_a_batch(rt: HostRuntime) -> Result<(), Fail> {
    for input in [
        "batch\n",
        "replay\n",
        "check td 3 2\n",
        "workload 10\n",
        "table td 3 6 1 14\n",
    ] {
        let right = holds(
            rt.alloc(),
            &told("batch", input, "usage: unknown word at 1\n", "", 0),
        )?;
        assert!(rt; right, "at {input}");
    }
    Ok(())
}

// A question, a line of so many letters, and a question.
fn with_letters(alloc: Global, count: usize) -> Result<Vec<u8>, AllocError> {
    let mut input = Vec::new(alloc);
    input.extend_from_slice(b"ask bibd 9 3 1\n")?;
    for _ in 0..count {
        input.push(b'a')?;
    }
    input.extend_from_slice(b"\nask td 5 4\n")?;
    Ok(input)
}

#[test]
fn a_line_may_have_so_many_bytes(rt: HostRuntime) -> Result<(), Fail> {
    for (count, output, message, status) in [
        (
            1_024,
            "bibd 9 3 1 yes bose\nusage: unknown word at 1\ntd 5 4 yes field\n",
            "",
            0,
        ),
        (1_025, "bibd 9 3 1 yes bose\n", "bad input at line 2\n", 65),
    ] {
        let row = told("batch", "", output, message, status);
        let right = holds_on(rt.alloc(), &row, with_letters(rt.alloc(), count)?)?;
        assert!(rt; right, "at {count}");
    }
    Ok(())
}

#[test]
fn a_batch_ends_at_a_fault(rt: HostRuntime) -> Result<(), Fail> {
    for (failing_read, failing, output, message, status) in [
        (0, 1, "", "write fault\n", 74),
        (0, 2, "td 5 4 yes field\n", "write fault\n", 74),
        (
            0,
            3,
            "td 5 4 yes field\ntd 6 4 no groups\n",
            "write fault\n",
            74,
        ),
        (1, 0, "", "read fault\n", 66),
        (2, 0, MIXED_ANSWERS_READ, "read fault\n", 66),
    ] {
        let row = Case {
            words: "batch",
            input: MIXED,
            failing_read,
            failing,
            output,
            message,
            status,
        };
        let right = holds(rt.alloc(), &row)?;
        assert!(rt; right, "where call {failing} or read {failing_read} fails");
    }
    Ok(())
}

// The answers to the lines of MIXED that were read whole: the last one lacks its line feed.
const MIXED_ANSWERS_READ: &str = "td 5 4 yes field
td 6 4 no groups
usage: unknown word at 2
td 5 4 yes field
closure 1
bibd 9 3 1 yes bose
derivation 1
1 bibd 9 3 1 bose
end 1
";

#[test]
fn other_commands_are_answered(rt: HostRuntime) -> Result<(), Fail> {
    for (words, input, output, message, status) in [
        (
            "closure td 4 18",
            "",
            "td 4 18 yes wilson1 3 5 3\nclosure 10\n",
            "",
            0,
        ),
        (
            "workload 10",
            "",
            "workload 10\nyes 6\nno 4\nunknown 0\ncells 11\n",
            "",
            0,
        ),
        (
            "replay",
            "a line\nderivation 1\n1 td 3 2 cyclic\nend 1\nmore",
            "td 3 2 valid\nblocks 4\n0 2 4\n0 3 5\n1 2 5\n1 3 4\n",
            "",
            0,
        ),
        (
            "replay",
            "derivation 1\n1 td 4 1000 field\nend 1\n",
            "invalid line 1 out of bounds\n",
            "",
            1,
        ),
        ("replay", FANO, "", "bad input at line 8\n", 65),
    ] {
        let right = holds(rt.alloc(), &told(words, input, output, message, status))?;
        assert!(rt; right, "at {words}");
    }
    Ok(())
}
