//! The answers to questions.
use crate::cases::{holds, told};
use std::alloc::Global;
use std::process::Abort;
use std::test::Fail;

const DOUBLE_6: &str = "bibd 6 3 2 yes double
derivation 1
1 bibd 6 3 2 double
end 1
blocks 10
0 1 2
0 1 4
0 2 5
0 3 4
0 3 5
1 2 3
1 3 5
1 4 5
2 3 4
2 4 5
";

const SKOLEM_7: &str = "bibd 7 3 1 yes skolem
derivation 1
1 bibd 7 3 1 skolem
end 1
blocks 7
0 1 3
0 2 4
0 5 6
1 2 6
1 4 5
2 3 5
3 4 6
";

const SUM_9: &str = "bibd 9 3 4 yes sum 1
derivation 1
1 bibd 9 3 1 bose
2 bibd 9 3 3 middle
3 bibd 9 3 4 sum 1 from 1 2
end 3
";

const PLANE_3: &str = "bibd 13 4 1 yes projective 3 2
derivation 1
1 bibd 13 4 1 projective 3 2
end 1
blocks 13
0 1 2 3
0 4 5 9
0 6 7 12
0 8 10 11
1 4 6 10
1 5 7 8
1 9 11 12
2 4 7 11
2 5 10 12
2 6 8 9
3 4 8 12
3 5 6 11
3 7 9 10
";

const AFFINE_16: &str = "bibd 16 4 1 yes affine 4 2
derivation 1
1 bibd 16 4 1 affine 4 2
end 1
blocks 20
0 1 2 3
0 4 8 12
0 5 10 15
0 6 11 13
0 7 9 14
1 4 11 14
1 5 9 13
1 6 8 15
1 7 10 12
2 4 9 15
2 5 11 12
2 6 10 14
2 7 8 13
3 4 10 13
3 5 8 14
3 6 9 12
3 7 11 15
4 5 6 7
8 9 10 11
12 13 14 15
";

const COSETS_7: &str = "bibd 7 3 2 yes developf
derivation 1
1 df f 7 3 2 cosets
2 bibd 7 3 2 developf from 1
end 2
";

const TRANSLATES_25: &str = "bibd 25 4 1 yes developf
derivation 1
1 df f 25 4 1 table 6
2 bibd 25 4 1 developf from 1
end 2
blocks 50
0 1 5 12
0 2 10 24
0 3 13 22
0 4 9 11
0 6 8 16
0 7 20 21
0 14 15 17
0 18 19 23
1 2 6 13
1 3 11 20
1 4 14 23
1 7 9 17
1 8 21 22
1 10 16 18
1 15 19 24
2 3 7 14
2 4 12 21
2 5 8 18
2 9 22 23
2 11 17 19
2 15 16 20
3 4 8 10
3 5 23 24
3 6 9 19
3 12 15 18
3 16 17 21
4 5 7 15
4 6 20 24
4 13 16 19
4 17 18 22
5 6 10 17
5 9 14 16
5 11 13 21
5 19 20 22
6 7 11 18
6 12 14 22
6 15 21 23
7 8 12 19
7 10 13 23
7 16 22 24
8 9 13 15
8 11 14 24
8 17 20 23
9 10 12 20
9 18 21 24
10 11 15 22
10 14 19 21
11 12 16 23
12 13 17 24
13 14 18 20
";

const FILLED_49: &str = "bibd 49 4 1 yes fill1 12 4
derivation 1
1 td 4 3 field
2 td 4 4 field
3 td 4 12 product 3 4 from 1 2
4 gdd 4 12 4 td from 3
5 bibd 13 4 1 projective 3 2
6 bibd 49 4 1 fill1 12 4 from 4 5
end 6
";

const FAMILY_13: &str = "df z 13 4 1 yes table 2
derivation 1
1 df z 13 4 1 table 2
end 1
blocks 1
0 1 3 9
";

const DELETED_9: &str = "gdd 3 2 4 yes delete
derivation 1
1 bibd 9 3 1 bose
2 gdd 3 2 4 delete from 1
end 2
blocks 8
0 2 5
0 3 6
0 4 7
1 2 7
1 3 4
1 5 6
2 4 6
3 5 7
";

const ARRAY_2: &str = "td 3 2 yes cyclic
derivation 1
1 td 3 2 cyclic
end 1
rows 4
0 0 0
0 1 1
1 0 1
1 1 0
";

const ARRAY_4: &str = "td 5 4 yes field
derivation 1
1 td 5 4 field
end 1
rows 16
0 0 0 0 0
0 1 1 1 1
0 2 2 2 2
0 3 3 3 3
1 0 1 2 3
1 1 0 3 2
1 2 3 0 1
1 3 2 1 0
2 0 2 3 1
2 1 3 2 0
2 2 0 1 3
2 3 1 0 2
3 0 3 1 2
3 1 2 0 3
3 2 1 3 0
3 3 0 2 1
";

const SQUARES_3: &str = "td 4 3 yes field
derivation 1
1 td 4 3 field
end 1
square 1
0 1 2
1 2 0
2 0 1
square 2
0 1 2
2 0 1
1 2 0
";

const DERIVATION_18: &str = "td 4 18 yes wilson1 3 5 3
derivation 1
1 td 5 5 field
2 td 4 3 field
3 td 4 4 field
4 td 4 3 field
5 td 4 18 wilson1 3 5 3 from 1 2 3 4
end 5
";

const SQUARES_10: &str = "td 4 10 yes parker 3
derivation 1
1 td 4 3 field
2 td 4 10 parker 3 from 1
end 2
square 1
0 6 5 4 9 8 7 1 2 3
7 1 0 6 5 9 8 2 3 4
8 7 2 1 0 6 9 3 4 5
9 8 7 3 2 1 0 4 5 6
1 9 8 7 4 3 2 5 6 0
3 2 9 8 7 5 4 6 0 1
5 4 3 9 8 7 6 0 1 2
2 3 4 5 6 0 1 7 8 9
4 5 6 0 1 2 3 8 9 7
6 0 1 2 3 4 5 9 7 8
square 2
0 7 8 9 1 3 5 2 4 6
6 1 7 8 9 2 4 3 5 0
5 0 2 7 8 9 3 4 6 1
4 6 1 3 7 8 9 5 0 2
9 5 0 2 4 7 8 6 1 3
8 9 6 1 3 5 7 0 2 4
7 8 9 0 2 4 6 1 3 5
1 2 3 4 5 6 0 7 8 9
2 3 4 5 6 0 1 9 7 8
3 4 5 6 0 1 2 8 9 7
";

// Asserts what the program answers to words alone, and its status.
fn assert_answer(
    rt: &impl Abort,
    alloc: Global,
    words: &'static str,
    output: &'static str,
    status: u8,
) -> Result<(), Fail> {
    let right = holds(alloc, &told(words, "", output, "", status))?;
    assert!(rt; right, "at {words}");
    Ok(())
}

#[test]
fn questions_are_asked(rt: HostRuntime) -> Result<(), Fail> {
    for (words, output, status) in [
        ("ask td 6 4", "td 6 4 no groups\n", 1),
        ("ask td 5 4", "td 5 4 yes field\n", 0),
        ("ask td 65 64", "td 65 64 yes field\n", 0),
        ("ask td 66 64", "td 66 64 no groups\n", 1),
        ("ask td 4 6", "td 4 6 unknown\n", 2),
        ("ask mols 14 2", "td 4 14 unknown\n", 2),
        ("ask bibd 8 3 5", "bibd 8 3 5 no replication\n", 1),
        ("ask bibd 5 3 1", "bibd 5 3 1 no count\n", 1),
        ("ask bibd 16 6 1", "bibd 16 6 1 no fisher\n", 1),
        ("ask bibd 36 15 1", "bibd 36 15 1 no replication\n", 1),
        ("ask bibd 8 3 6", "bibd 8 3 6 yes ordered\n", 0),
        ("ask bibd 128 2 6", "bibd 128 2 6 yes pairs\n", 0),
        ("ask plane 3", "bibd 13 4 1 yes projective 3 2\n", 0),
        ("ask plane 6", "bibd 43 7 1 unknown\n", 2),
        ("ask bibd 15 5 2", "bibd 15 5 2 unknown\n", 2),
        ("ask bibd 10 6 5", "bibd 10 6 5 unknown\n", 2),
        ("ask bibd 28 4 1", "bibd 28 4 1 yes unital 3\n", 0),
        ("ask bibd 52 4 1", "bibd 52 4 1 yes arc 2 4\n", 0),
        ("ask gdd 4 2 4", "gdd 4 2 4 no groups\n", 1),
        ("ask gdd 4 3 2", "gdd 4 3 2 no fewgroups\n", 1),
        ("ask gdd 3 2 64", "gdd 3 2 64 yes weight 2 4\n", 0),
        ("ask pbd 10 3", "pbd 10 3 yes truncate 3 1\n", 0),
    ] {
        assert_answer(&rt, rt.alloc(), words, output, status)?;
    }
    Ok(())
}

#[test]
fn verdicts_are_explained(rt: HostRuntime) -> Result<(), Fail> {
    for (words, output, status) in [
        ("explain td 6 4", "td 6 4 no groups\nbecause 6 5\n", 1),
        ("explain td 66 64", "td 66 64 no groups\nbecause 66 65\n", 1),
        ("explain oa 4 6", "td 4 6 unknown\n", 2),
        ("explain td 4 18", DERIVATION_18, 0),
        (
            "explain df z 12 3 1",
            "df z 12 3 1 no differences\nbecause 11 6\n",
            1,
        ),
        (
            "explain bibd 16 6 1",
            "bibd 16 6 1 no fisher\nbecause 3 6\n",
            1,
        ),
        (
            "explain bibd 8 3 1",
            "bibd 8 3 1 no replication\nbecause 7 2\n",
            1,
        ),
        ("explain bibd 7 3 2", COSETS_7, 0),
        ("explain bibd 9 3 4", SUM_9, 0),
        ("explain bibd 49 4 1", FILLED_49, 0),
        (
            "explain gdd 4 3 2",
            "gdd 4 3 2 no fewgroups\nbecause 2 4\n",
            1,
        ),
        ("explain pbd 7 5", "pbd 7 5 no points\nbecause 6 5\n", 1),
    ] {
        assert_answer(&rt, rt.alloc(), words, output, status)?;
    }
    Ok(())
}

#[test]
fn designs_are_built(rt: HostRuntime) -> Result<(), Fail> {
    for (words, output, status) in [
        ("build td 6 4", "td 6 4 no groups\n", 1),
        ("build td 4 6", "td 4 6 unknown\n", 2),
        ("build oa 3 2", ARRAY_2, 0),
        ("build oa 5 4", ARRAY_4, 0),
        ("build mols 3 2", SQUARES_3, 0),
        ("build mols 10 2", SQUARES_10, 0),
        ("build df z 13 3 1", "df z 13 3 1 unknown\n", 2),
        ("build df z 13 4 1", FAMILY_13, 0),
        ("build bibd 21 6 1", "bibd 21 6 1 no fisher\n", 1),
        ("build bibd 8 3 1", "bibd 8 3 1 no replication\n", 1),
        (
            "build bibd 3 3 1",
            "bibd 3 3 1 yes whole\nderivation 1\n1 bibd 3 3 1 whole\nend 1\nblocks 1\n0 1 2\n",
            0,
        ),
        ("build bibd 6 3 2", DOUBLE_6, 0),
        ("build sts 7", SKOLEM_7, 0),
        ("build plane 3", PLANE_3, 0),
        ("build bibd 16 4 1", AFFINE_16, 0),
        ("build bibd 25 4 1", TRANSLATES_25, 0),
        ("build gdd 3 2 4", DELETED_9, 0),
    ] {
        assert_answer(&rt, rt.alloc(), words, output, status)?;
    }
    Ok(())
}
