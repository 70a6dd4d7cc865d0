//! What checks find.
use crate::cases::{FANO, holds, told};
use std::test::Fail;

#[test]
fn blocks_are_checked(rt: HostRuntime) -> Result<(), Fail> {
    for (input, output, message, status) in [
        (FANO, "bibd 7 3 1 valid\n", "", 0),
        (
            "0 1 3\n1 2 4\n2 3 5\n3 4 6\n0 4 5\n1 5 6\n0 2 5\n",
            "bibd 7 3 1 invalid pair 0 5 covered 2\n",
            "",
            1,
        ),
        (
            "0 1 3\n1 2 4\n2 3 5\n3 4 6\n0 4 5\n1 5 6\n0 2 2\n",
            "bibd 7 3 1 invalid block 7\n",
            "",
            1,
        ),
        ("0 1 3\n1 x 4\n", "", "bad input at line 2\n", 65),
        ("", "bibd 7 3 1 invalid pair 0 1 covered 0\n", "", 1),
    ] {
        let right = holds(
            rt.alloc(),
            &told("check bibd 7 3 1", input, output, message, status),
        )?;
        assert!(rt; right, "at {input}");
    }
    Ok(())
}

#[test]
fn group_divisible_and_pairwise_balanced_designs_are_checked(rt: HostRuntime) -> Result<(), Fail> {
    for (words, output, status) in [
        ("check gdd 2 1 3", "gdd 2 1 3 valid\n", 0),
        ("check pbd 4 2", "pbd 4 2 invalid pair 0 3 covered 0\n", 1),
    ] {
        let right = holds(
            rt.alloc(),
            &told(words, "0 1\n0 2\n1 2\n", output, "", status),
        )?;
        assert!(rt; right, "at {words}");
    }
    Ok(())
}

#[test]
fn difference_families_are_checked(rt: HostRuntime) -> Result<(), Fail> {
    for (words, input, output, status) in [
        ("check df z 7 3 1", "0 1 3\n", "df z 7 3 1 valid\n", 0),
        ("check df f 7 3 1", "1 2 4\n", "df f 7 3 1 valid\n", 0),
        (
            "check df z 7 3 1",
            "0 1 2\n",
            "df z 7 3 1 invalid pair 0 1 covered 2\n",
            1,
        ),
    ] {
        let right = holds(rt.alloc(), &told(words, input, output, "", status))?;
        assert!(rt; right, "at {words}, {input}");
    }
    Ok(())
}

#[test]
fn arrays_and_squares_are_checked(rt: HostRuntime) -> Result<(), Fail> {
    for (words, input, output, status) in [
        ("check mols 2 1", "0 1\n1 0\n", "td 3 2 valid\n", 0),
        ("check mols 2 1", "0 1\n1\n", "td 3 2 invalid block 2\n", 1),
        (
            "check mols 2 1",
            "0 1\n1 0\n0 1\n",
            "td 3 2 invalid block 3\n",
            1,
        ),
        ("check mols 1 2", "0\n0\n", "td 4 1 valid\n", 0),
        (
            "check oa 3 2",
            "0 0 0\n0 1 1\n1 0 1\n1 1 0\n",
            "td 3 2 valid\n",
            0,
        ),
        (
            "check oa 3 2",
            "0 0 0\n0 1 1\n1 0 1\n1 1 1\n",
            "td 3 2 invalid pair 1 4 covered 0\n",
            1,
        ),
        (
            "check oa 3 2",
            "0 0 0\n0 1 1\n1 0 1\n1 1 0\n1 1 0\n",
            "td 3 2 invalid pair 1 3 covered 2\n",
            1,
        ),
        (
            "check oa 3 2",
            "1 1 0\n0 2 0\n",
            "td 3 2 invalid block 2\n",
            1,
        ),
    ] {
        let right = holds(rt.alloc(), &told(words, input, output, "", status))?;
        assert!(rt; right, "at {words}, {input}");
    }
    Ok(())
}

#[test]
fn lines_behind_a_short_block_are_read(rt: HostRuntime) -> Result<(), Fail> {
    for (words, input, output, message, status) in [
        (
            "check bibd 7 3 1",
            "0 1 3\n5\n1 2 4\n2 x 5\n",
            "",
            "bad input at line 4\n",
            65,
        ),
        (
            "check bibd 7 3 1",
            "0 1 3\n5\n9\n",
            "bibd 7 3 1 invalid block 2\n",
            "",
            1,
        ),
        (
            "check oa 3 2",
            "1 1 0\n7\n0 x\n",
            "",
            "bad input at line 3\n",
            65,
        ),
    ] {
        let right = holds(rt.alloc(), &told(words, input, output, message, status))?;
        assert!(rt; right, "at {words}, {input}");
    }
    Ok(())
}
