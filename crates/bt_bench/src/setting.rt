//! The ends that are measured, and the metadata that they serve and fetch.
use crate::moving::Stopped;
use bt_end::{Announce, Config, End, EndError, Role, Window};
use bt_ext::{ExtId, Registered, Rules};
use bt_wire::{Own, Reserved};
use std::alloc::{AllocError, Global};

/// How many bytes a block of metadata has.
pub const BLOCK: usize = 16_384;

/// The id under which the end wants metadata messages.
pub const END_ID: u8 = 3;

/// The greatest length of a message that an end receives, if the command line gives none.
pub const LIMIT: u32 = 262_144;

/// Returns metadata of `blocks` blocks, always with the same bytes.
///
/// # Errors
/// `AllocError` when out of memory.
pub fn metadata(alloc: Global, blocks: u32) -> Result<Vec<u8>, AllocError> {
    let count = blocks.saturating_mul(16_384);
    let mut bytes = Vec::with_capacity(alloc, count as usize)?;
    for k in 0..count {
        let [byte, ..] = k.wrapping_mul(2_654_435_761).to_be_bytes();
        bytes.push(byte)?;
    }
    Ok(bytes)
}

/// Makes an end in this role under the strict rules, without a piece count.
///
/// Its reserved bits are those of the Fast Extension and of the Extension Protocol.
///
/// # Errors
/// `Stopped` if it can't be made, or when out of memory.
pub fn made(alloc: Global, info_hash: [u8; 20], limit: u32, role: Role) -> Result<End, Stopped> {
    let own = Own {
        reserved: Reserved(0x10_0004),
        info_hash: Some(info_hash),
        pieces: None,
        reg: Registered::metadata_only(ExtId::new(END_ID)),
        rules: Rules::Bep,
        limit,
    };
    let config = Config {
        own,
        peer_id: *b"-BT0001-EEEEEEEEEEEE",
        announce: Announce::Silent,
        window: Window::default(),
        role,
    };
    match End::new(alloc, config) {
        Ok(end) => Ok(end),
        Err(EndError::Memory) => Err(Stopped::Memory),
        Err(_) => Err(Stopped::Unmade),
    }
}
