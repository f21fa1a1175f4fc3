//! What an end is made of, and why one can't be made.
ghost use Rattle.std.specs.Prelude.{◌≡◌, ◌<◌, ◌≤◌};
ghost use Rattle.std.specs.Option.{SomeIff};
ghost use Rattle.bt_metadata.specs.Blocks.{window};

use bt_metadata::WINDOW;
use bt_wire::Own;
use std::alloc::{Allocator, Global};
use std::marker::Model;
use std::rc::Rc;
use thiserror::Error;

/// What an end says about its pieces after the handshakes (BEP 6).
///
/// It says it if both peers support the Fast Extension.
#[derive(Clone, Copy, PartialEq, Eq, Debug)]
pub enum Announce {
    /// It says nothing.
    Silent,
    /// It has all pieces: have all.
    All,
    /// It has no piece: have none.
    Nothing,
}

/// What an end does with metadata (BEP 9).
#[derive(Debug, Drop)]
pub enum Role<A: Allocator = Global> {
    /// It neither serves nor fetches metadata.
    Watch,
    /// It serves this metadata, of 1 to `MAX_METADATA` bytes.
    Serve(Vec<u8, A>),
    /// It serves this metadata, of 1 to `MAX_METADATA` bytes, as other ends do.
    Share(Rc<Vec<u8, A>, A>),
    /// It fetches metadata.
    Fetch,
    /// It fetches metadata of at most this many bytes.
    ///
    /// A greater size isn't fetched, and nothing is allocated for it.
    FetchUpTo(u64),
}

/// How many requests an end has outstanding at once, 1 to `WINDOW`.
///
/// Some peers answer one request at a time, others are slow with one. A contract sees the number.
#[derive(Clone, Copy, Debug, PartialEq, Eq)]
pub struct Window {
    blocks: u8,
}

impl Model for Window {
    ghost use Rattle.std.specs.Prelude.{ℕ, ◌<◌, ◌≤◌};
    ghost use Rattle.bt_metadata.specs.Blocks.{window};

    ghost Value = { ℕ };

    ghost view = { λ a. a.blocks };

    ghost invariant = { λ a. (0 < a.blocks) × (a.blocks ≤ window) };

    ghost inverse = { λ n. record { blocks = n } };
}

impl Window {
    /// Makes a window of this many blocks; `None` if they aren't 1 to `WINDOW`.
    pub fn new(blocks: u8) -> Option<Window>
        ensures { SomeIff result ((0 < blocks) × (blocks ≤ window)) blocks }
    {
        if blocks == 0 || blocks as usize > WINDOW {
            None
        } else {
            Some(Window { blocks })
        }
    }

    /// Returns the number of blocks, 1 to `WINDOW`.
    pub fn get(self) -> usize
        ensures same { result ≡ self }
        ensures bounds { (0 < result) × (result ≤ window) }
    {
        self.blocks as usize
    }
}

impl Default for Window {
    ghost is_default = { λ w. w ≡ window };

    fn default() -> Window {
        Window { blocks: 8 }
    }
}

/// What an end is made of.
#[derive(Debug, Drop)]
pub struct Config<A: Allocator = Global> {
    /// The end as a receiver.
    ///
    /// It needs an info hash and a limit of 32,768 to 1,048,576 bytes.
    pub own: Own,
    pub peer_id: [u8; 20],
    pub announce: Announce,
    /// How many requests an end that fetches has outstanding at once.
    pub window: Window,
    pub role: Role<A>,
}

/// Why an end can't be made. If several causes apply, the first is returned.
#[derive(Clone, Copy, PartialEq, Eq, Debug, Error)]
pub enum EndError {
    /// The limit isn't 32,768 to 1,048,576.
    #[error("the limit isn't 32,768 to 1,048,576")]
    BadLimit,
    /// There is no info hash.
    #[error("there is no info hash")]
    BadConfig,
    /// The metadata to serve doesn't have 1 to 67,108,864 bytes.
    #[error("the size of the metadata isn't 1 to 67,108,864")]
    BadSize,
    #[error("out of memory")]
    Memory,
}
