ghost use Rattle.std.specs.Prelude.{◌≤◌, length};
ghost use Rattle.design_base.specs.declared.limits.TheConstants.{INPUT_MAX};

use crate::{
    Catalogue, CatalogueEnd, ConsultEnd, Consulted, ListCatalogue, LoadEnd, OfferEnd, Rejected,
    SourceCatalogue, consult, read_catalogue,
};
use design_base::{Group, INPUT_MAX, Memory, Query, in_bounds};
use design_checks::{Checker, Finding};
use design_io::MemorySource;
use incidence::Rows;
use std::alloc::Global;
use std::process::Abort;
use std::test::Fail;

const FAMILY: &[u8] = b"design df z 13 3 1\n0 1 4\n7 2 0\nend\n";

const CUT: &[u8] = b"design df z 13 3 1\n0 1 4\n0 2 7\n";

const NO_FAMILY: &[u8] = b"design td 3 2\nend\ndesign df z 13 3 1\n0 1 4\nend";

const NO_DESIGN: &[u8] = b"design bibd 15 5 2\n0 1 2 3 4\n0 1 5 6 7\n0 1 8 9 10\nend\n";

// The question of the family.
fn family() -> Query {
    Query::Df {
        group: Group::Cyclic,
        v: 13,
        k: 3,
        l: 1,
    }
}

// What catalogues over these texts offer for a question, and how many of them stay.
fn consulted(
    rt: &impl Abort,
    alloc: Global,
    texts: &[&[u8]],
    q: Query,
) -> Result<(Result<Consulted, ConsultEnd>, usize), Memory> {
    let mut list: Vec<Box<dyn Catalogue>> = Vec::new(alloc);
    for text in texts {
        let source = MemorySource::new(text.to_vec(alloc)?, Vec::new(alloc));
        list.push(Box::new(alloc, SourceCatalogue::new(alloc, source))?)?;
    }
    let mut checker = Checker::new(alloc);
    assert!(rt; list.len() < 16);
    assert!(rt; in_bounds(&q));
    let found = consult(alloc, &mut list, &q, &mut checker);
    Ok((found, list.len()))
}

// The number of offers that were rejected, and the place and the size of the valid one.
fn counted(
    found: &Result<Consulted, ConsultEnd>,
) -> Result<(usize, Option<(u32, usize)>), ConsultEnd> {
    match found {
        Ok(found) => {
            let rejected = found.rejected.as_slice().len();
            match &found.valid {
                Some((number, rows)) => Ok((rejected, Some((*number, rows.len())))),
                None => Ok((rejected, None)),
            }
        }
        Err(end) => Err(*end),
    }
}

#[test]
fn catalogues_are_asked_in_order(rt: HostRuntime) -> Result<(), Fail> {
    let table: [(
        &[&[u8]],
        Result<(usize, Option<(u32, usize)>), ConsultEnd>,
        usize,
    ); 7] = [
        (&[], Ok((0, None)), 0),
        (&[FAMILY], Ok((0, Some((1, 2)))), 0),
        (&[CUT], Err(ConsultEnd::Failed { number: 1 }), 1),
        (&[NO_FAMILY, b"", FAMILY], Ok((1, Some((3, 2)))), 1),
        (&[FAMILY, CUT], Ok((0, Some((1, 2)))), 1),
        (
            &[b"", NO_DESIGN, CUT],
            Err(ConsultEnd::Failed { number: 3 }),
            2,
        ),
        (&[NO_FAMILY, NO_FAMILY], Ok((2, None)), 2),
    ];
    for (texts, want, stay) in table {
        let (found, left) = consulted(&rt, rt.alloc(), texts, family())?;
        assert_eq!(rt; counted(&found), want);
        assert_eq!(rt; left, stay);
    }
    Ok(())
}

#[test]
fn an_offer_that_is_no_design(rt: HostRuntime) -> Result<(), Fail> {
    let q = Query::Bibd { v: 15, k: 5, l: 2 };
    let (found, left) = consulted(&rt, rt.alloc(), &[NO_DESIGN], q)?;
    assert_eq!(rt; left, 0);
    let Ok(found) = found else {
        return Err(Fail::new("refused"));
    };
    let finding = Finding::BadPair {
        x: 0,
        y: 1,
        count: 3,
    };
    assert_eq!(rt;
        found.rejected.as_slice(),
        [Rejected { number: 1, finding }].as_slice()
    );
    Ok(())
}

#[test]
fn offers_of_a_list(rt: HostRuntime) -> Result<(), Fail> {
    let alloc = rt.alloc();
    let mut rows = Rows::new(alloc);
    rows.push_row(&[0, 1, 4])?;
    let mut list = ListCatalogue::new(alloc, vec![in alloc; 2]?);
    assert!(rt; list.spent());
    list.add(family(), rows)?;
    assert!(rt; matches!(list.offer(&Query::Td { k: 3, n: 2 }), Ok(None)));
    assert!(rt; matches!(list.offer(&family()), Err(OfferEnd::Failed)));
    assert!(rt; !list.spent());
    let Ok(Some(rows)) = list.offer(&family()) else {
        return Err(Fail::new("nothing"));
    };
    assert_eq!(rt; rows.len(), 1);
    assert!(rt; list.spent());
    Ok(())
}

// How a source of these bytes is loaded, of whose reads this one fails, and what it offers then.
fn loaded(
    alloc: Global,
    bytes: Vec<u8>,
    failing: u32,
) -> Result<(Result<(), LoadEnd>, bool, bool), Memory> {
    let mut catalogue = SourceCatalogue::new(
        alloc,
        MemorySource::new(bytes, vec![in alloc; failing]?),
    );
    let end = catalogue.load();
    let first = matches!(catalogue.offer(&family()), Err(OfferEnd::Failed));
    let second = matches!(catalogue.offer(&family()), Err(OfferEnd::Failed));
    Ok((end, first && second, catalogue.spent()))
}

#[test]
fn sources_are_loaded(rt: HostRuntime) -> Result<(), Fail> {
    let alloc = rt.alloc();
    assert_eq!(rt;
        loaded(alloc, FAMILY.to_vec(alloc)?, 0)?,
        (Ok(()), false, true)
    );
    let bad = LoadEnd::BadLine { line: 4 };
    assert_eq!(rt;
        loaded(alloc, CUT.to_vec(alloc)?, 0)?,
        (Err(bad), true, false)
    );
    assert_eq!(rt;
        loaded(alloc, FAMILY.to_vec(alloc)?, 2)?,
        (Err(LoadEnd::Failed), true, false)
    );
    let long = LoadEnd::TooLong {
        line: INPUT_MAX + 1,
    };
    let feeds = vec![in alloc; b'\n'; INPUT_MAX as usize + 1]?;
    assert_eq!(rt; loaded(alloc, feeds, 0)?, (Err(long), true, false));
    Ok(())
}

#[test]
fn the_first_bad_line_is_named(rt: HostRuntime) {
    let texts: [(&[u8], u32); 15] = [
        (CUT, 4),
        (b"design df z 13 3 1\n0 1 4", 3),
        (b"design bibd 129 3 1\nend\n", 1),
        (b"design bibd 70000 3 1\nend\n", 1),
        (b"design bibd 07 3 1\nend", 1),
        (b"design sts 9\nend", 1),
        (b"design\nend", 1),
        (b"end\n", 1),
        (b"\n\r\n0 1 3\n", 3),
        (b"design td 3 2\n0 x\n1 y\nend", 2),
        (b"design td 3 2\n65536\nend", 2),
        (b"design td 3 2\ndesign td 3 2\nend", 2),
        (b"design td 3 2\nend 1\n", 2),
        (b"design td 3 2\nend\r\r\n", 2),
        (b"design td 3 2\nend\nend\n", 3),
    ];
    for (text, line) in texts {
        let read = read_catalogue(rt.alloc(), text);
        assert!(rt; matches!(read, Err(CatalogueEnd::BadLine { line: at }) if at == line));
    }
}

// How many rows are offered for a question, one offer after another.
fn offered(
    rt: &impl Abort,
    alloc: Global,
    text: &[u8],
    q: Query,
) -> (Option<usize>, Option<usize>, bool)
    requires { length text.now ≤ INPUT_MAX }
{
    let Ok(mut list) = read_catalogue(alloc, text) else {
        panic!(rt; "no catalogue text");
    };
    let first = list.offer(&q).ok().flatten().map(|rows| rows.len());
    let second = list.offer(&q).ok().flatten().map(|rows| rows.len());
    (first, second, list.spent())
}

#[test]
fn entries_of_a_text_are_read(rt: HostRuntime) {
    let q = Query::Pbd { v: 3, s: 2 };
    let texts: [(&[u8], (Option<usize>, Option<usize>, bool)); 5] = [
        (b"", (None, None, true)),
        (b" \t\r\n\n\r", (None, None, true)),
        (
            b"  design\tpbd  3 2 \r\n\n007 1\t2 \r\n \t\n1 2\nend\r",
            (Some(2), None, true),
        ),
        (
            b"design pbd 3 2\nend\n\ndesign pbd 3 2\n0 1 2\n end \n",
            (Some(0), Some(1), true),
        ),
        (NO_DESIGN, (None, None, false)),
    ];
    for (text, want) in texts {
        assert_eq!(rt; offered(&rt, rt.alloc(), text, q), want);
    }
}
