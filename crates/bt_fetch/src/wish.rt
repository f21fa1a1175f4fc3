//! What is to be fetched, and the end that fetches it.
ghost use Rattle.std.specs.Prelude.{◌≡◌, IfOk};
ghost use Rattle.bt_fetch.specs.Wishes.{IsWish, own_of, first_window as first_window_of, fetching_end as fetching_end_of};

use bt_end::{Announce, Config, End, Role, Window};
use bt_ext::{ExtId, Registered, Rules};
use bt_io::Memory;
use bt_wire::{Own, Reserved};
use std::alloc::Global;

/// The reserved bits of an end that fetches: the Extension Protocol.
///
/// Without the Fast Extension a request for a block of a piece needs no reject (BEP 6). It can't reject one: it doesn't know how
/// many pieces there are.
const RESERVED: u64 = 0x10_0000;

/// The id under which an end that fetches wants `ut_metadata`.
const METADATA_ID: u8 = 3;

/// What is to be fetched, and how.
#[derive(Clone, Copy, Debug)]
pub struct Wish {
    /// The SHA-1 of the metadata.
    pub info_hash: [u8; 20],
    pub peer_id: [u8; 20],
    /// The rules by which peers are judged.
    pub rules: Rules,
    /// The greatest length of a message in bytes, 32,768 to 1,048,576.
    pub limit: u32,
    /// The seconds without progress after which a connection ends.
    pub patience: u64,
    /// How many blocks are asked for at once. `None` is 8; and 1 for rtorrent, and on a second connection to a peer that fell silent.
    pub window: Option<Window>,
    /// The greatest size of metadata in bytes that is taken.
    pub most: u64,
}

/// Returns how the end that fetches receives.
pub fn own_of(wish: &Wish) -> Own
    ensures { result ≡ own_of wish.now }
{
    Own {
        reserved: Reserved(RESERVED),
        info_hash: Some(wish.info_hash),
        pieces: None,
        reg: Registered::metadata_only(ExtId::new(METADATA_ID)),
        rules: wish.rules,
        limit: wish.limit,
    }
}

/// Returns how many blocks are asked for at once on a first connection.
pub fn first_window(wish: &Wish) -> Window
    ensures { result ≡ first_window_of wish.now }
{
    match wish.window {
        Some(window) => window,
        None => Window::default(),
    }
}

/// Returns a new end that fetches.
///
/// # Errors
/// `Memory` if its buffers are refused.
pub fn fetching_end(alloc: Global, wish: &Wish) -> Result<End, Memory>
    requires { IsWish wish.now }
    ensures { IfOk result (λ end. end ≡ fetching_end_of wish.now) }
{
    let config = Config {
        own: own_of(wish),
        peer_id: wish.peer_id,
        announce: Announce::Silent,
        window: first_window(wish),
        role: Role::FetchUpTo(wish.most),
    };
    match End::new(alloc, config) {
        Ok(end) => Ok(end),
        Err(_) => Err(Memory),
    }
}
