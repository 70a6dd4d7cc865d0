ghost use Rattle.std.specs.Prelude.{◌≡◌, [], Some};

use super::*;
use std::alloc::{AllocError, Global};
use std::marker::Brand;
use std::test::Fail;

// More than half of what a buffer holds.
const MORE_THAN_HALF: usize = 10_000;

// What comes of pieces that are written to a buffer, before a sink whose call number `failing` fails.
#[derive(Drop)]
struct Outcome {
    written: u32,
    is_flushed: bool,
    arrived: MemorySink,
}

// Writes so many pieces, and then flushes the buffer so often.
fn collected<O: Origin>(
    alloc: Global,
    failing: u32,
    piece: &[u8],
    count: u32,
    flushes: u32,
) -> Result<Outcome, AllocError>
    requires { O.start ≡ Some [] }
{
    let Ok(sink) = MemorySink::new(alloc, 65_536, vec![in alloc; failing]?) else {
        return Err(AllocError);
    };
    let mut buffered = Buffered::<MemorySink, O>::new(sink);
    let mut written = 0_u32;
    for _ in 0..count {
        if write_whole(&mut buffered, piece).is_ok() {
            written = written.saturating_add(1);
        }
    }
    let mut is_flushed = false;
    for _ in 0..flushes {
        is_flushed = buffered.flush().is_ok();
    }
    Ok(Outcome {
        written,
        is_flushed,
        arrived: buffered.into_inner(),
    })
}

fn written(
    alloc: Global,
    failing: u32,
    piece: &[u8],
    count: u32,
    flushes: u32,
) -> Result<Outcome, AllocError> {
    collected::<Brand>(alloc, failing, piece, count, flushes)
}

#[test]
fn short_pieces_wait_for_the_flush(rt: HostRuntime) -> Result<(), Fail> {
    for (failing, flushes, is_flushed, want) in [
        (0, 0, false, ""),
        (0, 1, true, "ab\nab\n"),
        (0, 2, true, "ab\nab\n"),
        (1, 1, false, ""),
        (1, 2, true, "ab\nab\n"),
    ] {
        let end = written(rt.alloc(), failing, b"ab\n", 2, flushes)?;
        assert_eq!(rt; end.written, 2);
        assert_eq!(rt; end.is_flushed, is_flushed, "{failing} fails");
        assert_eq!(rt; end.arrived.bytes(), want.as_bytes(), "{failing} fails");
    }
    Ok(())
}

// Bytes that differ from place to place.
fn long_piece(alloc: Global, size: usize) -> Result<Vec<u8>, AllocError> {
    let mut piece = Vec::new(alloc);
    for place in 0..size {
        piece.push((place % 251) as u8)?;
    }
    Ok(piece)
}

#[test]
fn a_piece_may_be_longer_than_the_buffer(rt: HostRuntime) -> Result<(), Fail> {
    let piece = long_piece(rt.alloc(), 40_000)?;
    let end = written(rt.alloc(), 0, &piece, 1, 1)?;
    assert!(rt; end.arrived.bytes() == piece.as_slice());
    Ok(())
}

#[test]
fn a_full_buffer_passes_on_in_order(rt: HostRuntime) -> Result<(), Fail> {
    let piece = long_piece(rt.alloc(), MORE_THAN_HALF)?;
    let end = written(rt.alloc(), 0, &piece, 3, 1)?;
    let arrived = end.arrived.bytes();
    assert_eq!(rt; arrived.len(), 3 * MORE_THAN_HALF);
    for part in arrived.chunks(MORE_THAN_HALF) {
        assert!(rt; part == piece.as_slice());
    }
    Ok(())
}

#[test]
fn a_write_fails_where_the_buffer_cannot_be_emptied(rt: HostRuntime) -> Result<(), Fail> {
    let piece = long_piece(rt.alloc(), MORE_THAN_HALF)?;
    let end = written(rt.alloc(), 1, &piece, 2, 1)?;
    assert_eq!(rt; end.written, 1);
    assert!(rt; end.is_flushed);
    assert_eq!(rt; end.arrived.bytes().len(), 16_384);
    assert!(rt; end.arrived.bytes().starts_with(&piece));
    Ok(())
}
