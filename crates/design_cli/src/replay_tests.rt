use crate::replaying::answer_replay;
use design_io::{MemorySink, MemorySource};
use design_reports::Ending;
use std::alloc::{AllocError, Global};
use std::test::Fail;

// An input, the number of its call that fails and of the output's, and what comes of it.
#[derive(Drop)]
struct Case {
    input: &'static str,
    failing_read: u32,
    failing: u32,
    output: &'static str,
    message: &'static str,
    status: u8,
}

// What is written to an input of whose calls one fails, over an output of whose calls one fails, and how that ends.
fn answered(
    alloc: Global,
    input: &[u8],
    failing_read: u32,
    failing: u32,
) -> Result<(MemorySink, Ending), AllocError> {
    let mut source = MemorySource::new(input.to_vec(alloc)?, vec![in alloc; failing_read]?);
    let Ok(mut out) = MemorySink::new(alloc, 16_384, vec![in alloc; failing]?) else {
        return Err(AllocError);
    };
    let ending = answer_replay(alloc, &mut source, &mut out);
    Ok((out, ending))
}

// Whether the case comes out so.
fn holds(alloc: Global, case: &Case) -> Result<bool, AllocError> {
    let input = case.input.as_bytes();
    let (out, ending) = answered(alloc, input, case.failing_read, case.failing)?;
    Ok(
        ending.status().number() == case.status
            && out.bytes() == case.output.as_bytes()
            && ending.message().bytes() == case.message.as_bytes(),
    )
}

fn told(input: &'static str, output: &'static str, message: &'static str, status: u8) -> Case {
    Case {
        input,
        failing_read: 0,
        failing: 0,
        output,
        message,
        status,
    }
}

const SMALL: &str = "derivation 1\n1 td 3 2 cyclic\nend 1\n";

const SMALL_BLOCKS: &str = "td 3 2 valid\nblocks 4\n0 2 4\n0 3 5\n1 2 5\n1 3 4\n";

#[test]
fn sound_derivations_lead_to_designs(rt: HostRuntime) -> Result<(), Fail> {
    for (input, output) in [
        (SMALL, SMALL_BLOCKS),
        (
            "td 3 2 yes cyclic\nderivation 1\n1 td 3 2 cyclic\nend 1\nblocks 4\n",
            SMALL_BLOCKS,
        ),
        (
            "derivation 1\n1 df z 7 3 1 table 1\n2 bibd 7 3 1 developz from 1\nend 2\n",
            "bibd 7 3 1 valid\nblocks 7\n0 1 3\n0 2 6\n0 4 5\n1 2 4\n1 5 6\n2 3 5\n3 4 6\n",
        ),
        (
            "derivation 1\n1 df z 7 3 1 table 1\nend 1\n",
            "df z 7 3 1 valid\nblocks 1\n0 1 3\n",
        ),
        (
            "derivation 1\n1 bibd 9 3 1 affine 3 2\nend 1\n",
            "bibd 9 3 1 valid\nblocks 12\n0 1 2\n0 3 6\n0 4 8\n0 5 7\n1 3 8\n1 4 7\n1 5 6\n2 3 7\n2 4 6\n2 5 8\n3 4 5\n6 7 8\n",
        ),
        (
            "derivation 1\n1 bibd 9 3 1 bose\n2 gdd 3 2 4 delete from 1\nend 2\n",
            "gdd 3 2 4 valid\nblocks 8\n0 2 5\n0 3 6\n0 4 7\n1 2 7\n1 3 4\n1 5 6\n2 4 6\n3 5 7\n",
        ),
        (
            "derivation 1\n1 pbd 4 3 one\nend 1\n",
            "pbd 4 3 valid\nblocks 1\n0 1 2 3\n",
        ),
    ] {
        assert!(rt; holds(rt.alloc(), &told(input, output, "", 0))?, "{input}");
    }
    Ok(())
}

// A transversal design by two truncated groups, which the table of rules makes by one.
const TD_4_26: &str = "derivation 1
1 td 6 7 field
2 td 4 3 field
3 td 4 4 field
4 td 4 5 field
5 td 4 4 field
6 td 4 1 one
7 td 4 26 wilson2 3 7 4 1 from 1 2 3 4 5 6
end 7
";

const EXPLAINED_TD_4_26: &str = "td 4 26 yes wilson1 3 7 5
derivation 1
1 td 5 7 field
2 td 4 3 field
3 td 4 4 field
4 td 4 5 field
5 td 4 26 wilson1 3 7 5 from 1 2 3 4
end 5
";

#[test]
fn any_candidate_may_stand_in_a_line(rt: HostRuntime) -> Result<(), Fail> {
    for (input, front) in [
        (
            TD_4_26,
            "td 4 26 valid\nblocks 676\n0 26 54 78\n0 27 73 79\n0 28 52 103\n",
        ),
        (
            EXPLAINED_TD_4_26,
            "td 4 26 valid\nblocks 676\n0 26 73 80\n0 27 54 99\n0 28 53 78\n",
        ),
    ] {
        let (out, ending) = answered(rt.alloc(), input.as_bytes(), 0, 0)?;
        assert_eq!(rt; ending, Ending::Yes, "{input}");
        assert_eq!(rt; out.bytes().len(), 7_981, "{input}");
        assert!(rt; out.bytes().starts_with(front.as_bytes()), "{input}");
    }
    Ok(())
}

#[test]
fn first_faults_are_named(rt: HostRuntime) -> Result<(), Fail> {
    for (input, output) in [
        (
            "derivation 1\n1 td 4 3 field\n2 td 4 12 product 3 4 from 1 3\n3 td 4 4 field\nend 3\n",
            "invalid line 2 forward reference\n",
        ),
        (
            "derivation 1\n1 td 4 3 field\n2 td 4 9 product 3 3 from 1 1\nend 2\n",
            "invalid line 2 used twice\n",
        ),
        (
            "derivation 1\n1 td 4 3 field\n2 bibd 9 3 1 bose\nend 2\n",
            "invalid line 1 surplus line\n",
        ),
        (
            "derivation 1\n1 bibd 9 3 1 skolem\nend 1\n",
            "invalid line 1 not a candidate\n",
        ),
        (
            "derivation 1\n1 td 4 1000 field\nend 1\n",
            "invalid line 1 out of bounds\n",
        ),
        (
            "derivation 1\n1 td 5 5 cyclic\n2 td 4 3 field\n3 td 4 4 field\n4 td 4 3 field\n5 td 4 18 wilson1 3 5 3 from 1 2 3 4\nend 5\n",
            "invalid line 1 not a candidate\n",
        ),
        (
            "derivation 1\n1 td 5 5 field\n2 td 4 3 field\n3 td 4 4 field from 2\n4 td 4 3 field\n5 td 4 18 wilson1 3 5 3 from 1 2 3 4\nend 5\n",
            "invalid line 3 missing premise\n",
        ),
        (
            "derivation 1\n1 td 5 5 field\n2 td 4 3 field\n3 td 4 4 field\n4 td 4 3 field\n5 td 4 18 wilson1 3 5 3 from 1 2 4 3\nend 5\n",
            "invalid line 5 missing premise\n",
        ),
        (
            "derivation 1\n1 td 5 5 field\n2 td 4 3 field\n3 td 4 4 field\n4 td 4 3 field\n5 td 4 18 wilson1 3 5 3 from 1 2 3 0\nend 5\n",
            "invalid line 5 forward reference\n",
        ),
        (
            "derivation 1\n1 td 5 5 field\n2 td 4 3 field\n3 td 4 4 field\n4 td 4 3 field\n5 td 4 18 wilson1 3 5 3 from 1 2 3 2\nend 5\n",
            "invalid line 5 used twice\n",
        ),
        (
            "derivation 1\n1 td 5 5 field\n2 td 4 3 field\n3 td 4 4 field\n4 td 4 3 field\n5 td 4 18 wilson1 3 5 4 from 1 2 3 4\nend 5\n",
            "invalid line 5 not a candidate\n",
        ),
        (
            "derivation 1\n1 td 5 5 field\n2 td 4 3 field\n3 td 4 4 field\n4 td 4 3 field\n5 td 4 200 wilson1 3 5 3 from 1 2 3 4\nend 5\n",
            "invalid line 5 out of bounds\n",
        ),
    ] {
        assert!(rt; holds(rt.alloc(), &told(input, output, "", 1))?, "{input}");
    }
    Ok(())
}

#[test]
fn first_bad_lines_are_named(rt: HostRuntime) -> Result<(), Fail> {
    for (input, message) in [
        ("", "bad input at line 1\n"),
        ("\n?\nderivation 1", "bad input at line 3\n"),
        ("derivation 1\nend 0\n", "bad input at line 2\n"),
        (
            "derivation 1\n1 td 4 3 field\n2 td 4 4 fi",
            "bad input at line 3\n",
        ),
        (
            "derivation 1\n1 bibd 9 3 1 bose\n1 bibd 9 3 1 bose\nend 1\n",
            "bad input at line 3\n",
        ),
        (
            "derivation 1\n1 td 4 70000 field\nend 1\n",
            "bad input at line 2\n",
        ),
        (
            "td 4 9\nderivation 1\n1 td 4 3 cyclic\n2 td 4 9 product 3 3 from 1\nend 3\n",
            "bad input at line 5\n",
        ),
    ] {
        assert!(rt;
            holds(rt.alloc(), &told(input, "", message, 65))?,
            "{input}"
        );
    }
    Ok(())
}

#[test]
fn calls_that_fail_are_told(rt: HostRuntime) -> Result<(), Fail> {
    for (input, failing_read, failing, output, message, status) in [
        (SMALL, 1, 0, "", "read fault\n", 66),
        (SMALL, 2, 0, "", "read fault\n", 66),
        ("derivation 1\n?\n", 2, 0, "", "read fault\n", 66),
        (SMALL, 0, 1, "", "write fault\n", 74),
        (SMALL, 0, 2, "td 3 2 valid\n", "write fault\n", 74),
        (SMALL, 0, 3, "td 3 2 valid\nblocks 4\n", "write fault\n", 74),
        (
            "derivation 1\n1 bibd 9 3 1 skolem\nend 1\n",
            0,
            1,
            "",
            "write fault\n",
            74,
        ),
    ] {
        let case = Case {
            input,
            failing_read,
            failing,
            output,
            message,
            status,
        };
        assert!(rt;
            holds(rt.alloc(), &case)?,
            "reading {failing_read}, writing {failing}"
        );
    }
    Ok(())
}

// A derivation of so many lines of which none is named.
fn unnamed_lines(alloc: Global, count: u32) -> Result<Vec<u8>, AllocError> {
    let mut text = Vec::new(alloc);
    text.extend_from_slice(b"derivation 1\n")?;
    for i in 0..count {
        let number = u64::from(i) + 1;
        text.extend_from_slice(format!(in alloc; "{number} td 65 64 field\n")?.as_bytes())?;
    }
    text.extend_from_slice(format!(in alloc; "end {count}\n")?.as_bytes())?;
    Ok(text)
}

#[test]
fn faults_are_found_before_lists_are_made(rt: HostRuntime) -> Result<(), Fail> {
    let text = unnamed_lines(rt.alloc(), 60_000)?;
    let (out, ending) = answered(rt.alloc(), &text, 0, 0)?;
    assert_eq!(rt; ending, Ending::No);
    assert_eq!(rt; out.bytes(), b"invalid line 1 surplus line\n".as_slice());
    Ok(())
}
