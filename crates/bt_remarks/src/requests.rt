//! The pending requests of a side.
ghost use Rattle.std.specs.Prelude.{◌≡◌, ◌==◌, ◌||◌, ◌≤◌, ℕ, None, Some, OnOk, OnErr, count_by, fold, filter, max};
ghost use Rattle.std.specs.BTreeMap.{btree_map_len, values, IsOrdered};
ghost use Rattle.std.specs.Ordering.{nat_cmp, ordering_then};
ghost use Rattle.bt_remarks.specs.Requests.{has_length, is_unasked, is_dropped, is_again, is_too_much, is_late, sooner, request_of};
ghost use Rattle.bt_remarks.specs.Ends.{late_of, AreFoundOf};
ghost use Rattle.bt_remarks.specs.Tables.{request_at, IsNew, IsAfter};

use crate::events::Block;
use crate::tallies::{Request, Unanswered};
use std::alloc::{AllocError, Global};
use std::collections::BTreeMap;

/// A side with this many pending requests takes no further one.
const LIMIT: usize = 65536;

/// How many bytes of memory a pending request takes at most, in a node of the map that is half full.
const ENTRY: usize = 96;

/// A request that was made.
#[derive(Clone, Copy, Debug, PartialEq, Eq)]
pub struct Asked {
    /// The number of its event.
    pub number: u64,
    pub length: u32,
    pub mark: u64,
    pub is_cancelled: bool,
}

/// Tells whether a request should have been answered before a later event.
fn is_late(asked: Asked, closed: bool, later: u64) -> bool
    ensures { result ≡ is_late closed later asked }
{
    closed || asked.number < later
}

/// Returns a request after a cancel of its block and of this length.
fn marked(asked: Asked, length: u32) -> Asked
    ensures { result ≡ record asked { is_cancelled = asked.length == length || asked.is_cancelled } }
{
    Asked {
        is_cancelled: asked.length == length || asked.is_cancelled,
        ..asked
    }
}

/// Tells whether the other side may have dropped a request.
///
/// `fast` says whether both sides have the Fast Extension, `choking` whether the other side chokes, and `unchoke` is the number of the
/// event with which it stopped.
fn is_dropped(asked: Asked, fast: bool, choking: bool, unchoke: u64) -> bool
    ensures { result ≡ is_dropped fast choking unchoke asked }
{
    !fast && (choking || asked.number < unchoke || asked.is_cancelled)
}

/// Returns the earlier of two requests, which have their keys.
fn sooner(
    first: Option<((u32, u32), Asked)>,
    entry: ((u32, u32), Asked),
) -> Option<((u32, u32), Asked)>
    ensures { result ≡ sooner first entry }
{
    match first {
        Some(found) if found.1.number <= entry.1.number => Some(found),
        _ => Some(entry),
    }
}

/// Returns a request with its key as a block with its mark.
fn request_of(entry: ((u32, u32), Asked)) -> Request
    ensures { result ≡ request_of entry }
{
    let ((index, begin), asked) = entry;
    Request {
        mark: asked.mark,
        block: Block {
            index,
            begin,
            length: asked.length,
        },
    }
}

/// The pending requests of a side, by their pieces' indexes and their begins.
#[derive(Debug, Drop)]
pub struct Requests {
    pending: BTreeMap<(u32, u32), Asked>,
    overflowed: bool,
    /// The newest request that was answered.
    answered: u64,
}

impl Requests {
    /// Returns no requests.
    pub fn new(alloc: Global) -> Requests
        ensures { IsNew result }
    {
        Requests {
            pending: BTreeMap::new(alloc),
            overflowed: false,
            answered: 0,
        }
    }

    /// Tells whether there were too many pending requests.
    pub fn overflowed(&self) -> bool
        ensures { result ≡ self.now.overflowed }
    {
        self.overflowed
    }

    /// Tells whether a request of the block and of its length is pending.
    fn has(&self, block: Block) -> bool
        ensures { result ≡ has_length block.length (request_at self.now block.index block.begin) }
    {
        match self.pending.get(&(block.index, block.begin)) {
            Some(asked) => asked.length == block.length,
            None => false,
        }
    }

    /// Tells whether nobody asked for a block that comes.
    pub fn is_unasked(&self, block: Block) -> bool
        ensures { result ≡ is_unasked (Some block) self.now.overflowed (request_at self.now) }
    {
        !self.overflowed && !self.has(block)
    }

    /// Tells whether a request of a block is pending that the other side hasn't dropped.
    ///
    /// `fast`, `choking` and `unchoke` are those of `is_dropped`.
    pub fn is_again(&self, block: Block, fast: bool, choking: bool, unchoke: u64) -> bool
        ensures { result ≡ is_again (Some block) self.now.overflowed (is_dropped fast choking unchoke) (request_at self.now) }
    {
        if self.overflowed {
            return false;
        }
        match self.pending.get(&(block.index, block.begin)) {
            Some(asked) => !is_dropped(*asked, fast, choking, unchoke),
            None => false,
        }
    }

    /// Tells whether a request finds no room.
    fn is_full(&self, block: Block) -> bool
        ensures { result ≡ is_too_much (Some block) (request_at self.now) (btree_map_len self.now.pending) }
    {
        self.pending.len() >= LIMIT && !self.pending.contains_key(&(block.index, block.begin))
    }

    /// Opens a request.
    ///
    /// # Errors
    /// `AllocError` if memory runs out. The requests are as before.
    pub fn ask(&mut self, block: Block, number: u64, mark: u64) -> Result<(), AllocError>
        ensures ok { OnOk result (IsAfter (Some block) None None number mark self.old self.new) }
        ensures err { OnErr result (IsAfter None None None number mark self.old self.new) }
    {
        if self.overflowed {
            return Ok(());
        }
        if self.is_full(block) {
            self.overflowed = true;
            self.pending.clear();
            return Ok(());
        }
        let asked = Asked {
            number,
            length: block.length,
            mark,
            is_cancelled: false,
        };
        self.pending.insert((block.index, block.begin), asked)?;
        Ok(())
    }

    /// Marks the request of a block as cancelled, if it is pending and of the block's length.
    pub fn cancel(&mut self, block: Block)
        ensures { (number mark : ℕ) → IsAfter None (Some block) None number mark self.old self.new }
    {
        if let Some(asked) = self.pending.get_mut(&(block.index, block.begin)) {
            *asked = marked(*asked, block.length);
        }
    }

    /// Closes the request of a block, if it is pending and of the block's length.
    pub fn answer(&mut self, block: Block)
        ensures { (number mark : ℕ) → IsAfter None None (Some block) number mark self.old self.new }
    {
        let key = (block.index, block.begin);
        let number = match self.pending.get(&key) {
            Some(asked) if asked.length == block.length => asked.number,
            _ => return,
        };
        let _ = self.pending.remove(&key);
        self.answered = self.answered.max(number);
    }

    /// Counts the pending requests that are late.
    fn count_late(&self, closed: bool, later: u64) -> usize
        ensures count { result ≡ count_by (is_late closed later) (values self.now.pending) }
        ensures ordered { IsOrdered (λ x y. ordering_then (nat_cmp x.0 y.0) (nat_cmp x.1 y.1)) self.now.pending }
    {
        self.pending
            .values()
            .filter(|asked| is_late(**asked, closed, later))
            .count()
    }

    /// Returns the first of the pending requests that are late, with its key.
    fn first_late(&self, closed: bool, later: u64) -> Option<((u32, u32), Asked)>
        ensures { result ≡ fold sooner None (filter (λ e. is_late closed later e.1) self.now.pending.entries) }
    {
        self.pending
            .iter()
            .filter(|entry| is_late(*entry.1, closed, later))
            .fold(None, |first, entry| sooner(first, (*entry.0, *entry.1)))
    }

    /// Returns about how many bytes of memory it takes.
    pub fn size(&self) -> usize
        ensures { btree_map_len self.now.pending ≤ result }
    {
        self.pending.len().saturating_mul(ENTRY)
    }

    /// Returns how many pending requests are late, and the first one.
    pub fn late(&self, closed: bool, later: u64) -> Unanswered
        ensures { AreFoundOf (late_of self.now.overflowed closed (max later self.now.answered) (request_at self.now)) result }
    {
        if self.overflowed {
            return Unanswered::NOTHING;
        }
        let later = later.max(self.answered);
        let count = self.count_late(closed, later) as u64;
        match self.first_late(closed, later) {
            Some(entry) => Unanswered {
                count,
                first: Some(request_of(entry)),
            },
            None => Unanswered { count, first: None },
        }
    }
}
