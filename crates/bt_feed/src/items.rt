//! Iteration over the items that a chunk of a stream completes.
ghost use Rattle.std.specs.Prelude.{◌≡◌, ◌≤◌, ◌<◌, ◌-◌, ◌∷◌, ℕ, length, IfOk, IfSome, false};
ghost use Rattle.bt_feed.specs.Items.{GivesItem, work, IsStart, GivesAll, GivesUpTo};

use crate::feed::Feed;
use crate::view::{refusal_in, to_item};
use bt_wire::{Item, Refusal};
use std::alloc::{AllocError, Allocator, Global};
use thiserror::Error;

/// Why a chunk has no further item.
#[derive(Clone, Copy, PartialEq, Eq, Debug, Error)]
pub enum ItemError {
    #[error("message {} at {}: {}", .0.message, .0.at, .0.reason)]
    Refused(Refusal),
    /// Out of memory: the item is lost.
    #[error("out of memory")]
    Memory,
}

impl From<AllocError> for ItemError {
    ghost use Rattle.bt_feed.specs.declared.items.ItemError.TheVariants.{Memory};

    ghost from_gives = { λ _ e. e ≡ Memory };

    fn from(_: AllocError) -> ItemError {
        ItemError::Memory
    }
}

/// Takes bytes up to the end of the next item; returns how many, and the item.
fn next_item<A: Allocator>(
    alloc: Global,
    feed: &mut Feed<A>,
    piece: &[u8],
) -> (usize, Result<Option<(u64, Item)>, ItemError>)
    ensures given { GivesItem feed.old piece.now result.0 result.1 feed.new }
    ensures within { result.0 ≤ length piece.now }
    ensures less { IfOk result.1 (λ found. IfSome found (λ _.
        work feed.new (length piece.now - result.0) < work feed.old (length piece.now))) }
{
    let taken = feed.push(piece);
    let start = feed.start();
    let given = match feed.take() {
        Ok(Some(view)) => match to_item(alloc, &view) {
            Ok(item) => Ok(Some((start, item))),
            Err(_) => Err(ItemError::Memory),
        },
        Ok(None) => Ok(None),
        Err(error) => Err(ItemError::Refused(refusal_in(error))),
    };
    (taken, given)
}

/// An iterator over the items of a chunk, which [`Feed::items`] makes.
///
/// It ends after the last item that the chunk completes, and after the first error.
#[derive(Drop)]
pub struct Items<'a, A: Allocator = Global> {
    alloc: Global,
    feed: &'a mut Feed<A>,
    rest: &'a [u8],
    over: bool,
}

impl<A: Allocator> Feed<A> {
    /// Parses a chunk: returns the items that it completes, copied.
    ///
    /// Each comes with the offset at which it starts on the stream. A loop over them takes all bytes of the chunk, up to a refusal.
    /// The bytes of an incomplete item are buffered. An item is `Err` if the stream is refused (`Refused`), or when out of memory
    /// (`Memory`); the iterator then ends.
    pub fn items<'a>(&'a mut self, alloc: Global, piece: &'a [u8]) -> Items<'a, A>
        ensures start { IsStart result self.old piece.now }
        ensures all { GivesAll result self.old piece.now }
        ensures refused { GivesUpTo result self.old piece.now }
    {
        Items {
            alloc,
            feed: self,
            rest: piece,
            over: false,
        }
    }
}

impl<'a, A: Allocator> Iterator for Items<'a, A> {
    ghost use Rattle.std.specs.Iterator.{at_most};
    ghost use Rattle.bt_feed.specs.Items.{GivesNext, items_left};

    type Item = Result<(u64, Item), ItemError>;

    ghost next_gives = { GivesNext };

    ghost remaining = { λ s. at_most (items_left s) };

    fn next(&mut self) -> Option<Result<(u64, Item), ItemError>> {
        if self.over {
            return None;
        }
        let (taken, given) = next_item(self.alloc, self.feed, self.rest);
        self.rest = &self.rest[taken..];
        match given {
            Ok(Some(found)) => Some(Ok(found)),
            Ok(None) => {
                self.over = true;
                None
            }
            Err(error) => {
                self.over = true;
                Some(Err(error))
            }
        }
    }
}
