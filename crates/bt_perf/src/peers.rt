//! What peers send to an end: honest ones that fetch or serve metadata, and hostile ones.

use crate::dicts::{put_asking, put_data, put_greeting, put_renaming, put_strangers};
use crate::draft::Draft;
use crate::draw::Draw;
use crate::messages::{HAVE, METADATA_ID, put_extended, put_handshake, put_index};
use std::alloc::{AllocError, Global};

/// How many bytes a block of metadata has.
pub const BLOCK: usize = 16_384;

/// How many names of nobody's a peer uses.
pub const NAMES: u32 = 300;

/// The greatest size of metadata that an end fetches.
pub const GREATEST: u32 = 67_108_864;

/// Appends a metadata request (`kind` 0) or a rejection (2) of a block.
fn put_ask(alloc: Global, bytes: &mut Draft, kind: u32, piece: u32) {
    let mut dict = Draft::new(alloc);
    put_asking(&mut dict, kind, piece);
    put_extended(bytes, METADATA_ID, &dict, &[]);
}

/// Appends a block of metadata.
fn put_block(alloc: Global, bytes: &mut Draft, piece: u32, total: u32, block: &[u8]) {
    let mut dict = Draft::new(alloc);
    put_data(&mut dict, piece, total);
    put_extended(bytes, METADATA_ID, &dict, block);
}

/// Returns a handshake, a have-none (BEP 6) and two extended handshakes.
pub fn opening(alloc: Global, info_hash: &[u8; 20], size: u32, draw: &mut Draw) -> Draft {
    let mut bytes = Draft::new(alloc);
    put_handshake(&mut bytes, info_hash, draw);
    bytes.put(&[0, 0, 0, 1, 15]);
    for _greeting in 0..2 {
        let mut dict = Draft::new(alloc);
        put_greeting(&mut dict, size, draw);
        put_extended(&mut bytes, 0, &dict, &[]);
    }
    bytes
}

/// Returns what a peer sends that has pieces and fetches metadata of two blocks: haves, and requests in order.
pub fn leecher(alloc: Global, draw: &mut Draw) -> Draft {
    let mut bytes = Draft::new(alloc);
    for _have in 0..40 {
        put_index(&mut bytes, &HAVE, draw);
    }
    put_ask(alloc, &mut bytes, 0, 0);
    put_ask(alloc, &mut bytes, 0, 1);
    bytes
}

/// Returns the blocks of the metadata as messages, in order.
pub fn seed(alloc: Global, metadata: &[u8], total: u32) -> Draft {
    let mut bytes = Draft::new(alloc);
    let mut piece: u32 = 0;
    for block in metadata.chunks(BLOCK) {
        put_block(alloc, &mut bytes, piece, total, block);
        piece = piece.wrapping_add(1);
    }
    bytes
}

/// Returns the first `count` blocks of metadata of the greatest size, each with these bytes.
pub fn great_seed(alloc: Global, count: u32, block: &Draft) -> Draft {
    let mut bytes = Draft::new(alloc);
    for piece in 0..count {
        put_block(alloc, &mut bytes, piece, GREATEST, block.bytes());
    }
    bytes
}

/// Returns `count` messages of a peer that announced much metadata: blocks that nobody asked for, rejections and requests.
pub fn nuisance(alloc: Global, count: u32, draw: &mut Draw) -> Draft {
    let mut bytes = Draft::new(alloc);
    for _message in 0..count {
        let piece = draw.below(4_096);
        match draw.below(4) {
            0 => put_ask(alloc, &mut bytes, 2, piece),
            1 => put_ask(alloc, &mut bytes, 0, piece),
            2 => put_index(&mut bytes, &HAVE, draw),
            _ => put_ask(alloc, &mut bytes, 2, 9),
        }
    }
    bytes
}

/// Returns the dictionaries of a handshake with `count` names of nobody's from `first` on, and of `changes` handshakes with 1 to 4
/// names, of these or others.
///
/// # Errors
/// `AllocError` when out of memory.
pub fn renamings(
    alloc: Global,
    first: u32,
    count: u32,
    changes: u32,
    draw: &mut Draw,
) -> Result<Vec<Draft>, AllocError> {
    let mut dict = Draft::new(alloc);
    put_strangers(&mut dict, first, count);
    let mut dicts = Vec::new(alloc);
    dicts.push(dict)?;
    for _handshake in 0..changes {
        let name = first.wrapping_add(draw.below(NAMES));
        let mut dict = Draft::new(alloc);
        put_renaming(&mut dict, name, draw);
        dicts.push(dict)?;
    }
    Ok(dicts)
}

/// Returns extended handshakes with these dictionaries.
pub fn hellos(alloc: Global, dicts: &[Draft]) -> Draft {
    let mut bytes = Draft::new(alloc);
    for dict in dicts {
        put_extended(&mut bytes, 0, dict, &[]);
    }
    bytes
}
