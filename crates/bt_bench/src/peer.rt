//! What the other side of a connection says, as bytes that are made once. The jobs bring them to an end.

use crate::draft::Draft;
use crate::setting::{BLOCK, END_ID};
use std::alloc::Global;

/// Returns the peer's handshake and extended handshake.
///
/// The first has the bits of the Fast Extension and the Extension Protocol. The second has the id 7 for metadata messages, and
/// the size of the metadata, if the peer has it.
pub fn greeting(alloc: Global, info_hash: [u8; 20], size: Option<u32>) -> Draft {
    let mut dict = Draft::new(alloc);
    dict.put(b"d1:md11:ut_metadatai7ee");
    match size {
        Some(size) => {
            dict.put(b"13:metadata_sizei");
            dict.put_decimal(size);
            dict.put(b"ee");
        }
        None => dict.put(b"e"),
    }
    let mut bytes = Draft::new(alloc);
    bytes.put(b"\x13BitTorrent protocol\0\0\0\0\0\x10\0\x04");
    bytes.put(&info_hash);
    bytes.put(b"-PE0001-PPPPPPPPPPPP");
    bytes.put_extended(0, &dict, &[]);
    bytes
}

/// Returns requests for the blocks from 0 to `count`, in order (BEP 9).
pub fn requests(alloc: Global, count: u32) -> Draft {
    let mut bytes = Draft::new(alloc);
    for piece in 0..count {
        let mut dict = Draft::new(alloc);
        dict.put(b"d8:msg_typei0e5:piecei");
        dict.put_decimal(piece);
        dict.put(b"ee");
        bytes.put_extended(END_ID, &dict, &[]);
    }
    bytes
}

/// Appends a data message with a block (BEP 9).
fn put_data(alloc: Global, bytes: &mut Draft, piece: u32, total: u32, block: &[u8]) {
    let mut dict = Draft::new(alloc);
    dict.put(b"d8:msg_typei1e5:piecei");
    dict.put_decimal(piece);
    dict.put(b"e10:total_sizei");
    dict.put_decimal(total);
    dict.put(b"ee");
    bytes.put_extended(END_ID, &dict, block);
}

/// Returns the blocks of the metadata as data messages, in order.
pub fn blocks(alloc: Global, metadata: &[u8], total: u32) -> Draft {
    let mut bytes = Draft::new(alloc);
    let mut piece = 0u32;
    for block in metadata.chunks(BLOCK) {
        put_data(alloc, &mut bytes, piece, total, block);
        piece = piece.wrapping_add(1);
    }
    bytes
}
