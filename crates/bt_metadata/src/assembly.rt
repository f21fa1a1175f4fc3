//! Reassembly of metadata from its blocks (BEP 9).
ghost use Rattle.std.specs.Prelude.{◌≡◌, ◌⊎◌, ◌↔◌, ◌+◌, ◌*◌, ◌^◌, ◌<◌, ◌≤◌, ◌++◌, Some, None, length, min, max, slice_set, map, take, drop, count_by, position, slice_get, option_copied, IfOk, IfSome, IsErrOf, MatchResult};
ghost use Rattle.std.specs.List.{list_all};
ghost use Rattle.bt_ext.specs.Metadata.{block_count};
ghost use Rattle.bt_metadata.specs.Blocks.{block_size, max_metadata, window};
ghost use Rattle.bt_metadata.specs.Assemblies.{is_asked, is_held, is_settled, started, ask_of, asking, with_slots, data_error, with_data, piece_error, with_reject, disconnected, IsFinished, held_block};
ghost use Rattle.bt_metadata.specs.Unfinished.{IsUnfinished};
ghost use Rattle.bt_metadata.specs.Sound.{IsAssembly, lacks, holds, settles, kept_status, error_at, holds_at};
ghost use Rattle.bt_metadata.specs.Sound.{IsTallied, no_tally, after_ask, after_hold, after_reject, after_forget};

use crate::arriving::Arriving;
use sha1::Sha1;
use std::alloc::{AllocError, Allocator, Global};
use std::marker::Model;
use thiserror::Error;

/// The greatest size of metadata, in bytes.
pub const MAX_METADATA: usize = 67_108_864;

/// The length of a block in bytes, except the last one.
pub(crate) const BLOCK: usize = 16_384;

/// The greatest number of outstanding requests.
pub const WINDOW: usize = 8;

/// What is known of a block.
#[derive(Clone, Copy, PartialEq, Eq, Debug)]
pub(crate) enum Status {
    Lacking,
    Asked,
    Rejected,
    Held,
}

impl Status {
    /// Returns what is known of the block on another connection.
    fn kept(self) -> Status
        ensures { result ≡ kept_status self }
    {
        match self {
            Status::Held => Status::Held,
            _ => Status::Lacking,
        }
    }
}

/// Why no assembly of a size is made.
#[derive(Clone, Copy, PartialEq, Eq, Debug, Error)]
pub enum NewError {
    /// The size isn't 1 to 67,108,864.
    #[error("the size isn't 1 to 67,108,864")]
    BadSize,
    #[error("out of memory")]
    Memory,
}

/// Why a block isn't accepted.
#[derive(Clone, Copy, PartialEq, Eq, Debug, Error)]
pub enum BlockError {
    /// The metadata has no block of this number.
    #[error("there is no such block")]
    PieceRange,
    /// The block wasn't requested, or has been answered.
    #[error("the block wasn't asked for")]
    NotAsked,
    /// The message announces another size of the metadata.
    #[error("another size of the metadata")]
    WrongTotal,
    /// The block has another length.
    #[error("another length of the block")]
    WrongSize,
}

impl From<AllocError> for NewError {
    ghost use Rattle.bt_metadata.specs.declared.assembly.NewError.TheVariants.{Memory};

    ghost from_gives = { λ _ e. e ≡ Memory };

    fn from(_: AllocError) -> NewError {
        NewError::Memory
    }
}

/// Counts the blocks by what is known of them, so that no call has to look at each.
#[derive(Clone, Copy)]
struct Tally {
    asked: usize,
    held: usize,
    rejected: usize,
    /// No block before this one is lacking.
    lowest: usize,
}

impl Tally {
    /// Makes the tally of blocks that are all lacking.
    fn new() -> Tally
        ensures { result ≡ no_tally }
    {
        Tally {
            asked: 0,
            held: 0,
            rejected: 0,
            lowest: 0,
        }
    }

    /// Returns the first lacking block of these, without a look at those before `lowest`.
    fn first_lacking(&self, states: &[Status]) -> Option<usize>
        requires { IsTallied self.now states.now }
        ensures first { result ≡ position lacks states.now }
        ensures within { IfSome result (λ k. k < length states.now) }
    {
        let k = first_lacking(&states[self.lowest..])?;
        Some(self.lowest + k)
    }

    /// Returns whether each of these blocks has come or was rejected.
    fn is_settled(&self, states: &[Status]) -> bool
        requires { IsTallied self.now states.now }
        ensures { result ≡ list_all settles states.now }
    {
        self.held + self.rejected == states.len()
    }

    /// Returns whether each of these blocks has come.
    fn is_whole(&self, states: &[Status]) -> bool
        requires { IsTallied self.now states.now }
        ensures { result ≡ list_all holds states.now }
    {
        self.held == states.len()
    }

    /// Counts the first lacking block, the one at `k`, as requested.
    fn ask(&mut self, k: usize)
        requires asked { self.old.asked < window }
        requires place { k < max_metadata }
        ensures { self.new ≡ after_ask self.old k }
    {
        self.asked += 1;
        self.lowest = k + 1;
    }

    /// Counts a requested block as one that has come.
    fn hold(&mut self)
        requires asked { 0 < self.old.asked }
        requires held { self.old.held < max_metadata }
        ensures { self.new ≡ after_hold self.old }
    {
        self.asked -= 1;
        self.held += 1;
    }

    /// Counts a requested block as rejected.
    fn reject(&mut self)
        requires asked { 0 < self.old.asked }
        requires rejected { self.old.rejected < max_metadata }
        ensures { self.new ≡ after_reject self.old }
    {
        self.asked -= 1;
        self.rejected += 1;
    }

    /// Counts what is requested and rejected as lacking.
    fn forget(&mut self)
        ensures { self.new ≡ after_forget self.old }
    {
        self.asked = 0;
        self.rejected = 0;
        self.lowest = 0;
    }
}

/// Reassembles metadata from blocks; each block is requested once (BEP 9).
///
/// A contract sees its size, its SHA-1, and what is known of each block. `bt_end` handles the answer to a request like this:
///
/// ```rust
/// let lacking = match assembly.data(piece, total, block) {
///     Ok(()) => Event::Block(piece),
///     Err(_) => Event::Other,
/// };
/// match assembly.finish() {
///     Ok(metadata) => (Part::Fetched(metadata), Event::Fetched),
///     Err(Unfinished::Lacking(assembly)) => (Part::Fetching(assembly), lacking),
///     Err(Unfinished::Mismatch(assembly)) => {
///         (Part::Fetching(assembly), Event::Mismatched)
///     }
/// }
/// ```
#[derive(Drop)]
pub struct Assembly<A: Allocator = Global> {
    info_hash: [u8; 20],
    bytes: Arriving<A>,
    states: Vec<Status, A>,
    tally: Tally,
}

impl<A: Allocator> Model for Assembly<A> {
    ghost use Rattle.bt_metadata.specs.Assemblies.{AssemblyState};
    ghost use Rattle.bt_metadata.specs.Sound.{IsSound, state_of};

    ghost Value = { AssemblyState };

    ghost view = { λ a. state_of a.info_hash a.bytes.whole a.states.items };

    ghost invariant = { IsSound };
}

/// Why `finish` returns no metadata. It gives the assembly back.
#[derive(Drop)]
pub enum Unfinished<A: Allocator = Global> {
    /// A block hasn't come. The assembly is unchanged.
    Lacking(Assembly<A>),
    /// The SHA-1 isn't the info hash. The assembly has no block any more.
    ///
    /// None is requested or rejected either.
    Mismatch(Assembly<A>),
}

/// Returns the first block that hasn't come, isn't requested and wasn't rejected.
fn first_lacking(states: &[Status]) -> Option<usize>
    ensures first { result ≡ position lacks states.now }
    ensures within { IfSome result (λ k. k < length states.now) }
{
    states.iter().position(|state| *state == Status::Lacking)
}

/// Returns the index of a block that was requested.
fn asked_at(states: &[Status], piece: u32) -> Result<usize, BlockError>
    ensures { MatchResult result (λ k. (k ≡ piece) × (k < length states.now) × (error_at states.now piece ≡ None)) (λ e. error_at states.now piece ≡ Some e) }
{
    let k = piece as usize;
    if k >= states.len() {
        return Err(BlockError::PieceRange);
    }
    match states[k] {
        Status::Asked => Ok(k),
        _ => Err(BlockError::NotAsked),
    }
}

/// Returns whether the block of this number has come.
fn is_held(states: &[Status], piece: usize) -> bool
    ensures { result ≡ holds_at (slice_get states.now piece) }
{
    piece < states.len() && states[piece] == Status::Held
}

/// Marks the requested block `k` as rejected; memory is written up to its end, and no further.
fn reject_asked<A: Allocator>(
    bytes: &mut Arriving<A>,
    states: &mut Vec<Status, A>,
    tally: &mut Tally,
    k: usize,
)
    requires asked { 0 < tally.old.asked }
    requires rejected { tally.old.rejected < max_metadata }
    requires place { (k < length states.old.items) × (k < 2 ^ 32) }
    ensures states { states.new.items ≡ slice_set states.old.items k Status.Rejected }
    ensures tally { tally.new ≡ after_reject tally.old }
    ensures whole { bytes.new.whole ≡ bytes.old.whole }
    ensures written { bytes.new.written ≡ max bytes.old.written (min (block_size * k + block_size) (length bytes.old.whole)) }
{
    states[k] = Status::Rejected;
    tally.reject();
    let size = bytes.len();
    bytes.reach((BLOCK * k + BLOCK).min(size));
}

/// Forgets what is requested and rejected.
fn forget(states: &mut [Status])
    ensures { states.new ≡ map kept_status states.old }
{
    for state in states.iter_mut() {
        *state = state.kept();
    }
}

/// Returns how many blocks metadata of `size` bytes has.
pub fn block_count(size: usize) -> usize
    ensures { result ≡ block_count size }
{
    size.div_ceil(BLOCK)
}

impl<A: Allocator + Copy> Assembly<A> {
    /// Makes an assembly of `size` bytes with this info hash, and no block.
    ///
    /// All memory is allocated here.
    ///
    /// # Errors
    /// `BadSize` exactly if the size isn't 1 to `MAX_METADATA`, `Memory` when out of memory.
    pub fn new(alloc: A, info_hash: [u8; 20], size: u64) -> Result<Assembly<A>, NewError>
        ensures ok { IfOk result (λ a. a ≡ started info_hash size) }
        ensures size { IsErrOf result NewError.BadSize ↔ ((size ≡ 0) ⊎ (max_metadata < size)) }
    {
        if size == 0 || size > MAX_METADATA as u64 {
            return Err(NewError::BadSize);
        }
        let size = size as usize;
        Ok(Assembly {
            info_hash,
            bytes: Arriving::new(alloc, size)?,
            states: vec![in alloc; Status::Lacking; block_count(size)]?,
            tally: Tally::new(),
        })
    }
}

impl<A: Allocator> Assembly<A> {
    /// Returns the size of the metadata in bytes, 1 to `MAX_METADATA`.
    pub fn size(&self) -> u64
        ensures value { result ≡ self.now.size }
        ensures assembly { IsAssembly self.now }
    {
        self.bytes.len() as u64
    }

    /// Returns how many requests are outstanding, at most `WINDOW`.
    pub fn asked(&self) -> usize
        ensures { result ≡ count_by is_asked self.now.slots }
    {
        self.tally.asked
    }

    /// Returns how many blocks the metadata has.
    pub fn blocks(&self) -> usize
        ensures { result ≡ block_count self.now.size }
    {
        self.states.len()
    }

    /// Returns how many blocks have come.
    pub fn held(&self) -> usize
        ensures { result ≡ count_by is_held self.now.slots }
    {
        self.tally.held
    }

    /// Returns whether each block has come or was rejected, so that no more can come.
    pub fn is_settled(&self) -> bool
        ensures { result ≡ list_all is_settled self.now.slots }
    {
        self.tally.is_settled(&self.states)
    }

    /// Returns the block `piece`, if it has come.
    pub fn block(&self, piece: u32) -> Option<&[u8]>
        ensures value { option_copied result ≡ held_block self.now piece }
        ensures assembly { IsAssembly self.now }
    {
        let piece = piece as usize;
        if !is_held(&self.states, piece) {
            return None;
        }
        let at = BLOCK * piece;
        Some(self.bytes.part(at, (at + BLOCK).min(self.bytes.len())))
    }

    /// Returns the next block to request, and marks it as requested.
    ///
    /// It is the lowest one that hasn't come, isn't requested and wasn't rejected. `None` while `WINDOW` requests are outstanding,
    /// or if there is no such block.
    pub fn ask(&mut self) -> Option<u32>
        ensures value { result ≡ ask_of self.old.slots }
        ensures state { self.new ≡ with_slots self.old (asking result self.old.slots) }
    {
        if self.tally.asked >= WINDOW {
            return None;
        }
        let Some(k) = self.tally.first_lacking(&self.states) else {
            // None is left, so the next call looks at none.
            self.tally.lowest = self.states.len();
            return None;
        };
        self.states[k] = Status::Asked;
        self.tally.ask(k);
        Some(k as u32)
    }

    /// Stores the block `piece`, which was requested.
    ///
    /// `total` is the size in bytes that the message announces.
    ///
    /// # Errors
    /// The first that applies; the assembly is then unchanged. `PieceRange` if there is no such block, `NotAsked` if it isn't
    /// requested, `WrongTotal` if `total` isn't the size, `WrongSize` if the block has another length.
    pub fn data(&mut self, piece: u32, total: u64, block: &[u8]) -> Result<(), BlockError>
        ensures value { MatchResult result (λ _. data_error self.old piece total block.now ≡ None) (λ e. data_error self.old piece total block.now ≡ Some e) }
        ensures state { self.new ≡ with_data self.old piece total block.now }
    {
        let k = asked_at(&self.states, piece)?;
        let size = self.bytes.len();
        if total != size as u64 {
            return Err(BlockError::WrongTotal);
        }
        let at = BLOCK * k;
        if block.len() != BLOCK.min(size - at) {
            return Err(BlockError::WrongSize);
        }
        self.bytes.write(at, block);
        self.states[k] = Status::Held;
        self.tally.hold();
        Ok(())
    }

    /// Marks the requested block `piece` as rejected.
    ///
    /// It isn't requested again on this connection.
    ///
    /// # Errors
    /// `PieceRange` if there is no such block, else `NotAsked` if it isn't requested; the assembly is then unchanged.
    pub fn reject(&mut self, piece: u32) -> Result<(), BlockError>
        ensures value { MatchResult result (λ _. piece_error self.old piece ≡ None) (λ e. piece_error self.old piece ≡ Some e) }
        ensures state { self.new ≡ with_reject self.old piece }
    {
        let place = asked_at(&self.states, piece)?;
        reject_asked(&mut self.bytes, &mut self.states, &mut self.tally, place);
        Ok(())
    }

    /// Forgets what is requested and rejected, for a new connection. Blocks stay.
    pub fn disconnect(&mut self)
        ensures { self.new ≡ disconnected self.old }
    {
        forget(&mut self.states);
        self.tally.forget();
    }

    /// Returns the metadata, if each block has come and their SHA-1 is the info hash.
    ///
    /// # Errors
    /// `Lacking` if a block hasn't come, with the assembly unchanged. `Mismatch` if the SHA-1 isn't the info hash, with an
    /// assembly that has no block.
    pub fn finish(mut self) -> Result<Vec<u8, A>, Unfinished<A>>
        ensures { MatchResult result (λ v. IsFinished self v.items) (IsUnfinished self) }
    {
        if !self.tally.is_whole(&self.states) {
            return Err(Unfinished::Lacking(self));
        }
        if Sha1::digest(self.bytes.as_slice()) != self.info_hash {
            self.states.fill(Status::Lacking);
            self.tally = Tally::new();
            return Err(Unfinished::Mismatch(self));
        }
        Ok(self.bytes.into_vec())
    }
}
