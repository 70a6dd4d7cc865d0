use crate::Rows;
use crate::order::pack;
use std::test::Fail;

// Whether the rows are those of the list.
fn are(rows: &Rows, list: &[&[u16]]) -> bool {
    rows.iter().eq(list.iter().copied())
}

#[test]
fn rows_are_pushed(rt: HostRuntime) -> Result<(), Fail> {
    let mut rows = Rows::new(rt.alloc());
    assert!(rt; rows.is_empty());
    rows.reserve(3, 4)?;
    rows.push_row(&[9, 4])?;
    rows.push_row(&[])?;
    rows.push_row(&[65_535, 0])?;
    assert!(rt; are(&rows, &[&[9, 4], &[], &[65_535, 0]]));
    assert_eq!(rt; rows.len(), 3);
    assert!(rt; rows.row(1).is_empty());
    assert!(rt; !rows.is_empty());
    rows.sort_each();
    assert!(rt; are(&rows, &[&[4, 9], &[], &[0, 65_535]]));
    Ok(())
}

#[test]
fn lists_are_appended(rt: HostRuntime) -> Result<(), Fail> {
    let front: [&[u16]; 2] = [&[3, 1], &[]];
    let other: [&[u16]; 2] = [&[65_535], &[0, 2, 4]];
    let mut rows = pack(rt.alloc(), &front, 2)?;
    rows.push_all(&Rows::new(rt.alloc()))?;
    assert!(rt; are(&rows, &front));
    let more = pack(rt.alloc(), &other, 4)?;
    rows.push_all(&more)?;
    assert!(rt; are(&rows, &[&[3, 1], &[], &[65_535], &[0, 2, 4]]));
    assert!(rt; are(&more, &other));
    assert!(rt; are(&more.copied()?, &other));
    Ok(())
}

#[test]
fn rows_are_given_up(rt: HostRuntime) -> Result<(), Fail> {
    let list: [&[u16]; 4] = [&[5, 1], &[], &[2], &[7, 3, 9]];
    let mut rows = pack(rt.alloc(), &list, 6)?;
    rows.truncate(5);
    assert!(rt; are(&rows, &list));
    rows.truncate(3);
    assert!(rt; are(&rows, &list[..3]));
    rows.push_row(&[4])?;
    assert!(rt; are(&rows, &[&[5, 1], &[], &[2], &[4]]));
    rows.truncate(0);
    assert!(rt; rows.is_empty());
    Ok(())
}

#[test]
fn rows_have_a_canonical_form(rt: HostRuntime) -> Result<(), Fail> {
    let list: [&[u16]; 6] = [&[5, 1, 3], &[2, 0], &[], &[10, 9], &[3, 5, 1], &[2, 0, 7]];
    let rows = pack(rt.alloc(), &list, 13)?;
    let rows = rows.canonical()?;
    assert!(rt;
        are(
            &rows,
            &[&[], &[0, 2], &[0, 2, 7], &[1, 3, 5], &[1, 3, 5], &[9, 10]]
        )
    );
    Ok(())
}

#[test]
fn pairs_are_covered(rt: HostRuntime) -> Result<(), Fail> {
    let list: [&[u16]; 4] = [&[0, 1, 3], &[3, 2, 0], &[], &[3]];
    let rows = pack(rt.alloc(), &list, 7)?;
    for (x, y, times) in [
        (0, 3, 2),
        (3, 0, 2),
        (1, 3, 1),
        (1, 2, 0),
        (3, 3, 3),
        (4, 3, 0),
    ] {
        assert_eq!(rt; rows.cover(x, y), times, "at {x} and {y}");
    }
    Ok(())
}

#[test]
fn rows_are_put_in_order(rt: HostRuntime) -> Result<(), Fail> {
    let list: [&[u16]; 5] = [&[5, 1, 3], &[2, 0], &[], &[2, 0, 7], &[2, 0]];
    let rows = pack(rt.alloc(), &list, 10)?;
    let rows = rows.in_order()?;
    assert!(rt; are(&rows, &[&[], &[2, 0], &[2, 0], &[2, 0, 7], &[5, 1, 3]]));
    Ok(())
}
