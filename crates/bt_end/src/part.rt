//! The metadata of an end: none, served, or fetched so far.
ghost use Rattle.std.specs.Prelude.{◌≡◌, ◌<◌, ◌≤◌, option_map, option_copied, IfOk, IfSome};
ghost use Rattle.bt_metadata.specs.Blocks.{max_metadata};
ghost use Rattle.bt_end.specs.Ends.{served_size, wanted, with_asked, new_assembly, assembly_of, anew, with_block, with_refused, part_kept, metadata_of, progress_of, is_fetching, is_settled, fetched_block};
ghost use Rattle.bt_end.specs.Events.{block_event, reject_event};
ghost use Rattle.bt_end.specs.Sturdy.{IsFetched};
ghost use Rattle.bt_end.specs.Parts.{part_of, shown_slice, IsReplyOf};
ghost use Rattle.bt_metadata.specs.Replies.{IsBounded};

use crate::config::Window;
use crate::event::Event;
use bt_metadata::{Assembly, MAX_METADATA, NewError, Reply, Server, Unfinished, block_count};
use std::alloc::{AllocError, Allocator};

/// What an end does with metadata.
#[derive(Drop)]
pub enum Part<A: Allocator> {
    /// It neither serves nor fetches metadata.
    Watching,
    Serving(Server<A>),
    /// It fetches metadata whose size isn't known yet, and is at most this many bytes.
    Awaiting(u64),
    Fetching(Assembly<A>),
    Fetched(Vec<u8, A>),
}

/// How far an end has come with the metadata that it fetches.
#[derive(Clone, Copy, PartialEq, Eq, Debug)]
pub struct Progress {
    /// The size of the metadata in bytes.
    pub size: u64,
    /// How many blocks the metadata has.
    pub blocks: usize,
    /// How many of them have come.
    pub held: usize,
}

/// Makes the assembly of a fetch that begins with this size.
///
/// `None` if it isn't the size of metadata, or is above `most`.
fn new_assembly<A: Allocator + Copy>(
    alloc: A,
    most: u64,
    info_hash: [u8; 20],
    size: u64,
) -> Result<Option<Assembly<A>>, AllocError>
    ensures { IfOk result (λ a. a ≡ new_assembly most info_hash size) }
{
    if size > most {
        return Ok(None);
    }
    match Assembly::new(alloc, info_hash, size) {
        Ok(assembly) => Ok(Some(assembly)),
        Err(NewError::BadSize) => Ok(None),
        Err(NewError::Memory) => Err(AllocError),
    }
}

impl<A: Allocator + Copy> Part<A> {
    /// Returns the size in bytes of the metadata that is served.
    pub fn served_size(&self) -> Option<u64>
        ensures value { result ≡ served_size (part_of self.now) }
    {
        match self {
            Part::Serving(server) => Some(server.size()),
            _ => None,
        }
    }

    /// Returns the metadata that was fetched.
    pub fn metadata(&self) -> Option<&[u8]>
        ensures { shown_slice result ≡ metadata_of (part_of self.now) }
    {
        match self {
            Part::Fetched(metadata) => Some(metadata.as_slice()),
            _ => None,
        }
    }

    /// Returns the block `piece`, if it has come and the metadata isn't complete.
    pub fn block(&self, piece: u32) -> Option<&[u8]>
        ensures value { option_copied result ≡ fetched_block (part_of self.now) piece }
        ensures assembly { IsFetched (part_of self.now) }
    {
        match self {
            Part::Fetching(assembly) => assembly.block(piece),
            _ => None,
        }
    }

    /// Returns the answer to a request for the block `piece`.
    pub fn answer(&self, piece: u32) -> Reply<'_>
        ensures reply { IsReplyOf (part_of self.now) piece result }
        ensures bounds { IsBounded result }
    {
        match self {
            Part::Serving(server) => server.answer(piece),
            _ => Reply::Reject,
        }
    }

    /// Makes the assembly for metadata of this size in bytes.
    ///
    /// `None` if none is awaited, or the size isn't one of metadata or is above the greatest that is fetched.
    ///
    /// # Errors
    /// `AllocError` when out of memory.
    pub fn assembly(
        &self,
        alloc: A,
        info_hash: [u8; 20],
        size: Option<u64>,
    ) -> Result<Option<Assembly<A>>, AllocError>
        ensures { IfOk result (λ a. a ≡ assembly_of info_hash (part_of self.now) size) }
    {
        let (Part::Awaiting(most), Some(size)) = (self, size) else {
            return Ok(None);
        };
        new_assembly(alloc, *most, info_hash, size)
    }

    /// Makes the assembly with which a fetch starts over with this size in bytes.
    ///
    /// `None` if nothing is fetched, or the size isn't one of metadata.
    ///
    /// # Errors
    /// `AllocError` when out of memory.
    pub fn anew(
        &self,
        alloc: A,
        info_hash: [u8; 20],
        size: u64,
    ) -> Result<Option<Assembly<A>>, AllocError>
        ensures { IfOk result (λ a. a ≡ anew info_hash (part_of self.now) size) }
    {
        if !self.is_fetching() {
            return Ok(None);
        }
        new_assembly(alloc, MAX_METADATA as u64, info_hash, size)
    }

    /// Returns the next block to request, and marks it as requested.
    ///
    /// `None` while as many requests are outstanding as `window` allows, or if there is no such block.
    pub fn ask(&mut self, window: Window) -> Option<u32>
        ensures value { result ≡ wanted window (part_of self.old) }
        ensures state { part_of self.new ≡ with_asked result (part_of self.old) }
    {
        match self {
            Part::Fetching(assembly) if assembly.asked() < window.get() => assembly.ask(),
            _ => None,
        }
    }

    /// Stores a block that was requested, and returns what it did.
    ///
    /// The metadata is complete when each block has come and the SHA-1 is the info hash; if it is another, the fetch starts over.
    pub fn with_block(self, piece: u32, total: u64, block: &[u8]) -> (Part<A>, Event)
        ensures part { part_of result.0 ≡ with_block piece total block.now (part_of self) }
        ensures event { result.1 ≡ block_event piece total block.now (part_of self) }
    {
        match self {
            Part::Fetching(mut assembly) => {
                let lacking = match assembly.data(piece, total, block) {
                    Ok(()) => Event::Block(piece),
                    Err(_) => Event::Other,
                };
                match assembly.finish() {
                    Ok(metadata) => (Part::Fetched(metadata), Event::Fetched),
                    Err(Unfinished::Lacking(assembly)) => (Part::Fetching(assembly), lacking),
                    Err(Unfinished::Mismatch(assembly)) => {
                        (Part::Fetching(assembly), Event::Mismatched)
                    }
                }
            }
            other => (other, Event::Other),
        }
    }

    /// Marks a block as rejected, and returns what that did.
    pub fn reject(&mut self, piece: u32) -> Event
        ensures part { part_of self.new ≡ with_refused piece (part_of self.old) }
        ensures event { result ≡ reject_event piece (part_of self.old) }
    {
        match self {
            Part::Fetching(assembly) => match assembly.reject(piece) {
                Ok(()) => Event::Rejected(piece),
                Err(_) => Event::Other,
            },
            _ => Event::Other,
        }
    }

    /// Forgets what is requested and rejected, for a new connection.
    pub fn disconnect(&mut self)
        ensures { part_of self.new ≡ part_kept (part_of self.old) }
    {
        if let Part::Fetching(assembly) = self {
            assembly.disconnect();
        }
    }

    /// Returns how far the fetch has come.
    ///
    /// `None` if no size is known, or nothing is fetched.
    pub fn progress(&self) -> Option<Progress>
        ensures { result ≡ progress_of (part_of self.now) }
    {
        match self {
            Part::Fetching(assembly) => Some(Progress {
                size: assembly.size(),
                blocks: assembly.blocks(),
                held: assembly.held(),
            }),
            Part::Fetched(metadata) => Some(Progress {
                size: metadata.len() as u64,
                blocks: block_count(metadata.len()),
                held: block_count(metadata.len()),
            }),
            _ => None,
        }
    }

    /// Returns whether it fetches metadata that isn't complete.
    pub fn is_fetching(&self) -> bool
        ensures { result ≡ is_fetching (part_of self.now) }
    {
        matches!(self, Part::Awaiting(_) | Part::Fetching(_))
    }

    /// Returns whether each block has come, or the peer rejected it.
    pub fn is_settled(&self) -> bool
        ensures { result ≡ is_settled (part_of self.now) }
    {
        match self {
            Part::Fetching(assembly) => assembly.is_settled(),
            _ => false,
        }
    }
}
