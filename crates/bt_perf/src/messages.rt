//! Handshakes and messages, as peers send them.

use crate::dicts::{
    put_asking, put_greatest, put_greeting, put_nested, put_pairs, put_peers, put_unsorted,
};
use crate::draft::Draft;
use crate::draw::Draw;
use std::alloc::Global;

/// How many pieces the torrent has. Both a receiver that knows it and one that doesn't accept the streams.
pub const PIECES: u32 = 4_000;

/// The id under which the receivers want metadata messages.
pub const METADATA_ID: u8 = 3;

/// The id of peer exchanges, which the receivers didn't register.
const PEERS_ID: u8 = 1;

/// The message `have` without its piece index.
pub const HAVE: [u8; 5] = [0, 0, 0, 5, 4];

/// Which messages a segment of a stream has.
#[derive(Clone, Copy)]
pub enum Kind {
    /// Haves, requests, cancels, keep-alives and others of 4 to 17 bytes.
    Small,
    /// Blocks of 16 KiB, with a small message after each.
    Blocks,
    /// Extended handshakes as clients send them.
    Greetings,
    /// Metadata requests and rejections.
    Askings,
    /// A dictionary of 2,000 to 8,000 short pairs.
    ManyPairs,
    /// Dictionaries that nest deep.
    Nested,
    /// Peer exchanges, under an id that the receivers didn't register.
    Strange,
    /// Metadata requests with the greatest integers.
    Greatest,
    /// Extended handshakes whose keys aren't in order.
    Unsorted,
}

/// Appends a handshake (BEP 3) with the bits of BEP 5, 6 and 10.
pub fn put_handshake(bytes: &mut Draft, info_hash: &[u8; 20], draw: &mut Draw) {
    bytes.put(b"\x13BitTorrent protocol\0\0\0\0\0\x10\0\x05");
    bytes.put(info_hash);
    bytes.put(b"-qB4600-");
    for _number in 0..3 {
        bytes.put_number(draw.next());
    }
}

/// Appends a message that begins with these bytes and then has a piece index.
pub fn put_index(bytes: &mut Draft, front: &[u8], draw: &mut Draw) {
    bytes.put(front);
    bytes.put_number(draw.below(PIECES));
}

/// Appends a message that begins with these bytes, and then has a piece index and an offset.
fn put_place(bytes: &mut Draft, front: &[u8], draw: &mut Draw) {
    put_index(bytes, front, draw);
    bytes.put_number(draw.below(64) * 16_384);
}

/// Appends a message of this id that has three numbers.
fn put_part(bytes: &mut Draft, id: u8, draw: &mut Draw) {
    put_place(bytes, &[0, 0, 0, 13, id], draw);
    bytes.put_number(16_384);
}

/// Appends a small message: mostly haves and requests.
fn put_small(bytes: &mut Draft, draw: &mut Draw) {
    match draw.below(100) {
        0..=44 => put_index(bytes, &HAVE, draw),
        45..=79 => put_part(bytes, 6, draw),
        80..=86 => bytes.put(&[0, 0, 0, 0]),
        87..=91 => put_part(bytes, 8, draw),
        92 => bytes.put(&[0, 0, 0, 1, 0]),
        93 => bytes.put(&[0, 0, 0, 1, 1]),
        94 => bytes.put(&[0, 0, 0, 1, 2]),
        95 => bytes.put(&[0, 0, 0, 1, 3]),
        96 => put_index(bytes, &[0, 0, 0, 5, 13], draw),
        97 => put_index(bytes, &[0, 0, 0, 5, 17], draw),
        98 => put_part(bytes, 16, draw),
        _ => bytes.put(&[0, 0, 0, 3, 9, 0x1A, 0xE1]),
    }
}

/// Appends an extended message of a dictionary and the bytes after it.
pub fn put_extended(bytes: &mut Draft, id: u8, dict: &Draft, rest: &[u8]) {
    let length = dict
        .bytes()
        .len()
        .saturating_add(rest.len())
        .saturating_add(2);
    bytes.put_number(u32::try_from(length).unwrap_or(u32::MAX));
    bytes.put(&[20, id]);
    bytes.put_draft(dict);
    bytes.put(rest);
}

/// Appends the dictionary of an extended message of this kind; returns the message's id.
fn put_dict(dict: &mut Draft, kind: Kind, draw: &mut Draw) -> u8 {
    match kind {
        Kind::Small | Kind::Blocks | Kind::Greetings => put_greeting(dict, 31_000, draw),
        Kind::ManyPairs => put_pairs(dict, 2_000 + draw.below(6_000), b"e", draw),
        Kind::Nested => put_nested(dict, draw),
        Kind::Unsorted => put_unsorted(dict, draw),
        Kind::Strange => {
            put_peers(dict, draw);
            return PEERS_ID;
        }
        Kind::Greatest => {
            put_greatest(dict, draw.below(4_096));
            return METADATA_ID;
        }
        Kind::Askings => {
            let asks = draw.below(3) * 2 / 3;
            put_asking(dict, asks * 2, draw.below(4_096));
            return METADATA_ID;
        }
    }
    0
}

/// Appends a message of a segment of this kind; of blocks one of this block, and a small message.
fn put_message(alloc: Global, bytes: &mut Draft, kind: Kind, block: &Draft, draw: &mut Draw) {
    match kind {
        Kind::Small => put_small(bytes, draw),
        Kind::Blocks => {
            put_place(bytes, &[0, 0, 0x40, 9, 7], draw);
            bytes.put_draft(block);
            put_small(bytes, draw);
        }
        _ => {
            let mut dict = Draft::new(alloc);
            let id = put_dict(&mut dict, kind, draw);
            put_extended(bytes, id, &dict, &[]);
        }
    }
}

/// Returns a segment of this kind.
pub fn segment(alloc: Global, kind: Kind, draw: &mut Draw) -> Draft {
    let (count, length) = match kind {
        Kind::Small => (500, 0),
        Kind::Blocks => (16, 16_384),
        Kind::ManyPairs => (1, 0),
        _ => (100, 0),
    };
    let mut block = Draft::new(alloc);
    block.put_drawn(length, draw);
    let mut bytes = Draft::new(alloc);
    for _message in 0..count {
        put_message(alloc, &mut bytes, kind, &block, draw);
    }
    bytes
}
