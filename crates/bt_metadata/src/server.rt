//! Metadata that is served in blocks (BEP 9).
ghost use Rattle.std.specs.Prelude.{◌≡◌, ◌⊎◌, ◌↔◌, ◌<◌, ◌≤◌, length, IfOk, IsErr};
ghost use Rattle.bt_metadata.specs.Blocks.{max_metadata};
ghost use Rattle.bt_metadata.specs.Replies.{IsReply, IsBounded};
ghost use Rattle.bt_metadata.specs.Served.{stored};

use crate::assembly::{BLOCK, MAX_METADATA};
use std::alloc::{Allocator, Global};
use std::marker::Model;
use std::rc::Rc;
use thiserror::Error;

/// Metadata of this size isn't served: it isn't 1 to 67,108,864 bytes.
#[derive(Clone, Copy, PartialEq, Eq, Debug, Error)]
#[error("the size isn't 1 to 67,108,864")]
pub struct BadSize;

/// The answer to a request for a block (BEP 9, "extension message").
#[derive(Clone, Copy, Debug)]
pub enum Reply<'a> {
    /// The block, and the size of the whole metadata in bytes.
    Data { total: u64, block: &'a [u8] },
    /// There is no such block.
    Reject,
}

/// Where the metadata of a server is stored.
#[derive(Drop)]
enum Store<A: Allocator> {
    /// By only this server.
    Own(Vec<u8, A>),
    /// By several servers.
    Shared(Rc<Vec<u8, A>, A>),
}

impl<A: Allocator> Store<A> {
    /// The metadata.
    fn bytes(&self) -> &[u8]
        ensures { result.now ≡ stored self.now }
    {
        match self {
            Store::Own(metadata) => metadata.as_slice(),
            Store::Shared(metadata) => Rc::as_ref(metadata).as_slice(),
        }
    }
}

/// Serves metadata in blocks (BEP 9). A contract sees its bytes.
///
/// The length of a block of sevens, in a test:
///
/// ```rust
/// match server.answer(piece) {
///     Reply::Data { total, block } if total == server.size() && block.ends_with(b"\x07") => {
///         Some(block.len())
///     }
///     _ => None,
/// }
/// ```
#[derive(Drop)]
pub struct Server<A: Allocator = Global> {
    store: Store<A>,
}

impl<A: Allocator> Model for Server<A> {
    ghost use Rattle.std.specs.Prelude.{List, ℕ};
    ghost use Rattle.bt_metadata.specs.Served.{IsServed, stored};

    ghost Value = { List ℕ };

    ghost view = { λ s. stored s.store };

    ghost invariant = { IsServed };
}

impl<A: Allocator> Server<A> {
    /// Makes a server of this metadata, without an allocation.
    ///
    /// # Errors
    /// `BadSize` exactly if the metadata doesn't have 1 to `MAX_METADATA` bytes.
    pub fn new(metadata: Vec<u8, A>) -> Result<Server<A>, BadSize>
        ensures ok { IfOk result (λ server. server ≡ metadata.items) }
        ensures size { IsErr result ↔ ((length metadata.items ≡ 0) ⊎ (max_metadata < length metadata.items)) }
    {
        if metadata.is_empty() || metadata.len() > MAX_METADATA {
            return Err(BadSize);
        }
        Ok(Server {
            store: Store::Own(metadata),
        })
    }

    /// Makes a server of metadata that others serve too, without an allocation.
    ///
    /// # Errors
    /// `BadSize` exactly if the metadata doesn't have 1 to `MAX_METADATA` bytes.
    pub fn shared(metadata: Rc<Vec<u8, A>, A>) -> Result<Server<A>, BadSize>
        ensures ok { IfOk result (λ server. server ≡ metadata.value.items) }
        ensures size { IsErr result ↔ ((length metadata.value.items ≡ 0) ⊎ (max_metadata < length metadata.value.items)) }
    {
        let size = Rc::as_ref(&metadata).len();
        if size == 0 || size > MAX_METADATA {
            return Err(BadSize);
        }
        Ok(Server {
            store: Store::Shared(metadata),
        })
    }

    /// Returns the size of the metadata in bytes, 1 to `MAX_METADATA`.
    pub fn size(&self) -> u64
        ensures value { result ≡ length self.now }
        ensures bounds { (0 < result) × (result ≤ max_metadata) }
    {
        self.store.bytes().len() as u64
    }

    /// Returns the answer to a request for the block `piece`.
    ///
    /// It is a reject if there is no such block (BEP 9).
    pub fn answer(&self, piece: u32) -> Reply<'_>
        ensures reply { IsReply self.now piece result }
        ensures bounds { IsBounded result }
    {
        let at = BLOCK * piece as usize;
        let metadata = self.store.bytes();
        let size = metadata.len();
        if at >= size {
            return Reply::Reject;
        }
        Reply::Data {
            total: size as u64,
            block: &metadata[at..(at + BLOCK).min(size)],
        }
    }
}
