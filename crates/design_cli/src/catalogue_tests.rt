//! Questions that the table of rules leaves open, with catalogues at hand.
ghost use Rattle.std.specs.Prelude.{◌<◌, ◌^◌, length};

use crate::cases::{Case, holds_with, told};
use catalogues::{Catalogue, ListCatalogue, SourceCatalogue, read_catalogue};
use design_base::{Group, Memory, Query};
use design_io::MemorySource;
use incidence::Rows;
use std::alloc::{AllocError, Global};
use std::process::Abort;
use std::test::Fail;

const FAMILY: &str = "design df z 13 3 1\n0 1 4\n0 2 7\nend\n";

const CUT: &str = "design df z 13 3 1\n0 1 4\n0 2 7\n";

const NO_DESIGN: &str = "design bibd 15 5 2\n0 1 2 3 4\n0 1 5 6 7\n0 1 8 9 10\nend\n";

const ANSWERED: &str = "design bibd 9 3 1\nend\ndesign bibd 8 3 1\nend\ndesign bibd 10 4 2\nend\n";

const HANDED: &str = "df z 13 3 1 unknown\noffer 1 valid 2 blocks\nblocks 2\n0 1 4\n0 2 7\n";

// Whether the case comes out so where catalogues that tell their entries have these texts, and how many of them stay.
fn on_lists(
    rt: &impl Abort,
    alloc: Global,
    case: &Case,
    texts: &[&str],
) -> Result<(bool, usize), AllocError> {
    let mut catalogues: Vec<Box<dyn Catalogue>> = Vec::new(alloc);
    for text in texts {
        assert!(rt; text.len() < 1000);
        let Ok(list) = read_catalogue(alloc, text.as_bytes()) else {
            return Err(AllocError);
        };
        catalogues.push(Box::new(alloc, list)?)?;
    }
    assert!(rt; catalogues.len() < 16);
    let right = holds_with(alloc, case, &mut catalogues)?;
    Ok((right, catalogues.len()))
}

// The same over a source, which does not tell them.
fn on_source(alloc: Global, case: &Case, text: &str) -> Result<(bool, usize), AllocError> {
    let source = MemorySource::new(text.as_bytes().to_vec(alloc)?, Vec::new(alloc));
    let mut catalogues: Vec<Box<dyn Catalogue>> = Vec::new(alloc);
    catalogues.push(Box::new(alloc, SourceCatalogue::new(alloc, source))?)?;
    let right = holds_with(alloc, case, &mut catalogues)?;
    Ok((right, catalogues.len()))
}

#[test]
fn open_questions_are_asked(rt: HostRuntime) -> Result<(), Fail> {
    let build = "build df z 13 3 1";
    let rows: [(&str, &[&str], &str, u8, usize); 9] = [
        (build, &[], "df z 13 3 1 unknown\n", 2, 0),
        (build, &[FAMILY], HANDED, 0, 0),
        (
            "ask df z 13 3 1",
            &[FAMILY],
            "df z 13 3 1 unknown\noffer 1 valid 2 blocks\n",
            0,
            0,
        ),
        (
            build,
            &["design df z 13 3 1\n0 1 13\nend\n"],
            "df z 13 3 1 unknown\noffer 1 invalid block 1\n",
            2,
            0,
        ),
        (
            build,
            &["design df z 13 3 1\n0 1 4\n0 2 7\n0 1 4\nend\n"],
            "df z 13 3 1 unknown\noffer 1 invalid pair 0 1 covered 2\n",
            2,
            0,
        ),
        (
            build,
            &["design df z 13 3 1\nend\n", "", FAMILY, FAMILY],
            "df z 13 3 1 unknown\noffer 1 invalid pair 0 1 covered 0\noffer 3 valid 2 blocks\nblocks 2\n0 1 4\n0 2 7\n",
            0,
            1,
        ),
        (
            "ask mols 6 2",
            &["design td 4 6\nend\n"],
            "td 4 6 unknown\noffer 1 invalid pair 0 6 covered 0\n",
            2,
            0,
        ),
        (
            "ask bibd 8 3 1",
            &[ANSWERED],
            "bibd 8 3 1 no replication\n",
            1,
            1,
        ),
        (
            "explain bibd 10 4 2",
            &[ANSWERED],
            "bibd 10 4 2 unknown\n",
            2,
            1,
        ),
    ];
    for (words, texts, output, status, stay) in rows {
        let (right, left) = on_lists(&rt, rt.alloc(), &told(words, "", output, "", status), texts)?;
        assert!(rt; right && left == stay, "at {words}");
    }
    Ok(())
}

const LINES: &str = "ask bibd 9 3 1\nask bibd 9 3\nask bibd 15 5 2\n";

// What is offered is handed from line to line, and a line that is not answered takes nothing.
#[test]
fn lines_hand_catalogues_on(rt: HostRuntime) -> Result<(), Fail> {
    let alloc = rt.alloc();
    let all =
        "bibd 9 3 1 yes bose\nusage: missing word at 5\nbibd 15 5 2 unknown\noffer 1 invalid pair 0 1 covered 3\n";
    let whole = told("batch", LINES, all, "", 0);
    assert_eq!(rt; on_lists(&rt, alloc, &whole, &[NO_DESIGN])?, (true, 0));
    let broken = Case {
        words: "batch",
        input: LINES,
        failing_read: 0,
        failing: 2,
        output: "bibd 9 3 1 yes bose\n",
        message: "write fault\n",
        status: 74,
    };
    assert_eq!(rt; on_lists(&rt, alloc, &broken, &[NO_DESIGN])?, (true, 1));
    let twice = told(
        "batch",
        "ask df z 13 3 1\nbuild df z 13 3 1\nask df z 13 3 1\n",
        "df z 13 3 1 unknown\noffer 1 valid 2 blocks\ndf z 13 3 1 unknown\noffer 1 valid 2 blocks\nblocks 2\n0 1 4\n0 2 7\ndf z 13 3 1 unknown\n",
        "",
        0,
    );
    assert_eq!(rt; on_lists(&rt, alloc, &twice, &[FAMILY, FAMILY])?, (true, 0));
    Ok(())
}

#[test]
fn sources_are_asked(rt: HostRuntime) -> Result<(), Fail> {
    let alloc = rt.alloc();
    let build = "build df z 13 3 1";
    let whole = told(build, "", HANDED, "", 0);
    assert_eq!(rt; on_source(alloc, &whole, FAMILY)?, (true, 0));
    let cut = told(build, "", "", "catalogue fault at 1\n", 69);
    assert_eq!(rt; on_source(alloc, &cut, CUT)?, (true, 1));
    let lines = told(
        "batch",
        "ask bibd 9 3 1\nask df z 13 3 1\nask bibd 9 3 1\n",
        "bibd 9 3 1 yes bose\n",
        "catalogue fault at 1\n",
        69,
    );
    assert_eq!(rt; on_source(alloc, &lines, CUT)?, (true, 1));
    let closed = told("ask bibd 9 3 1", "", "bibd 9 3 1 yes bose\n", "", 0);
    assert_eq!(rt; on_source(alloc, &closed, CUT)?, (true, 1));
    Ok(())
}

// A list whose first offer fails: a difference family for a question that is open.
fn failing_list(alloc: Global) -> Result<ListCatalogue, Memory> {
    let mut rows = Rows::new(alloc);
    rows.push_row(&[0, 1, 4])?;
    rows.push_row(&[0, 2, 7])?;
    let query = Query::Df {
        group: Group::Cyclic,
        v: 13,
        k: 3,
        l: 1,
    };
    let mut list = ListCatalogue::new(alloc, vec![in alloc; 1]?);
    list.add(query, rows)?;
    Ok(list)
}

// It stays, and says that it failed by its number.
#[test]
fn an_offer_that_fails(rt: HostRuntime) -> Result<(), Fail> {
    let alloc = rt.alloc();
    let empty = ListCatalogue::new(alloc, Vec::new(alloc));
    let mut catalogues: Vec<Box<dyn Catalogue>> = Vec::new(alloc);
    catalogues.push(Box::new(alloc, empty)?)?;
    catalogues.push(Box::new(alloc, failing_list(alloc)?)?)?;
    let fails = told("build df z 13 3 1", "", "", "catalogue fault at 2\n", 69);
    assert!(rt; holds_with(alloc, &fails, &mut catalogues)?);
    assert_eq!(rt; catalogues.len(), 1);
    Ok(())
}
