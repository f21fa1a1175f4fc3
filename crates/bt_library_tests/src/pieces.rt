//! Streams that come whole, in single bytes, and in two pieces cut at every place: each gives the same items.
use crate::feed::{HAND, Refused, joined, own, refusal};
use crate::pumps::MESSAGES;
use bt_feed::{FeedError, Transcript, read_all};
use bt_wire::{Item, Reason};
use std::alloc::Global;

/// The messages after a handshake, the items' offsets, the refused message with its place and reason, and how many bytes are
/// held at the end.
type Row = (&'static [u8], &'static [u64], Option<Refused>, u64);

const STREAMS: &[Row] = &[
    (b"", &[0], None, 0),
    (
        MESSAGES,
        &[0, 68, 72, 81, 98, 147, 151, 182, 187, 237],
        None,
        0,
    ),
    (b"\0\0\0\0\0\0\0\x05\x04\0\0", &[0, 68], None, 7),
    (
        b"\0\x04\0\x01\0\0\0\0\0",
        &[0],
        Some((1, 68, Reason::TooLong)),
        4,
    ),
    (
        b"\0\0\0\0\0\0\0\x04\x04\0\0\0\0\0",
        &[0, 68],
        Some((2, 72, Reason::WrongLength)),
        5,
    ),
    (
        b"\0\0\0\x0b\x14\0d1:pi-0ee\0\0\0\0\0",
        &[0],
        Some((1, 80, Reason::BadBencode)),
        15,
    ),
];

fn has_offsets(items: &[(u64, Item)], offsets: &[u64]) -> bool {
    let mut left = offsets.iter();
    for (at, _) in items {
        if left.next() != Some(at) {
            return false;
        }
    }
    left.next().is_none()
}

fn read(alloc: Global, pieces: &[Vec<u8>]) -> Result<Transcript, FeedError> {
    read_all(alloc, own(262_144), pieces)
}

/// Whether what follows the items is so.
fn ends_so(transcript: &Transcript, refused: Option<Refused>, rest: u64) -> bool {
    let refused = match refused {
        Some(refused) => Some(refusal(refused)),
        None => None,
    };
    transcript.refused == refused && transcript.rest == rest
}

/// Whether these pieces are read so.
fn reads_as(alloc: Global, pieces: &[Vec<u8>], row: &Row) -> bool {
    match read(alloc, pieces) {
        Ok(transcript) => {
            ends_so(&transcript, row.2, row.3) && has_offsets(&transcript.items, row.1)
        }
        Err(_) => false,
    }
}

/// Adds a piece, and says whether there was memory.
fn add_piece(alloc: Global, pieces: &mut Vec<Vec<u8>>, piece: &[u8]) -> bool {
    match piece.to_vec(alloc) {
        Ok(piece) => pieces.push(piece).is_ok(),
        Err(_) => false,
    }
}

/// Whether the stream is read so in single bytes.
fn is_read_in_bytes(alloc: Global, stream: &[u8], row: &Row) -> bool {
    let mut pieces = Vec::new(alloc);
    for byte in stream.chunks(1) {
        if !add_piece(alloc, &mut pieces, byte) {
            return false;
        }
    }
    reads_as(alloc, &pieces, row)
}

/// Whether the stream is read so in two pieces.
fn is_read_cut(alloc: Global, front: &[u8], back: &[u8], row: &Row) -> bool {
    let mut pieces = Vec::new(alloc);
    add_piece(alloc, &mut pieces, front)
        && add_piece(alloc, &mut pieces, back)
        && reads_as(alloc, &pieces, row)
}

/// Whether the stream is read so in two pieces, wherever it is cut.
fn is_read_in_two(alloc: Global, stream: &[u8], row: &Row) -> bool {
    for cut in 0..=stream.len() {
        let (front, back) = stream.split_at(cut);
        if !is_read_cut(alloc, front, back, row) {
            return false;
        }
    }
    true
}

fn is_right(alloc: Global, row: &Row) -> bool {
    match joined(alloc, HAND, row.0) {
        Ok(stream) => is_read_in_bytes(alloc, &stream, row) && is_read_in_two(alloc, &stream, row),
        Err(_) => false,
    }
}

#[test]
fn streams(rt: HostRuntime) {
    for row in STREAMS {
        assert!(rt; is_right(rt.alloc(), row), "{:?}", row.0);
    }
}
