//! What is known of a side.
ghost use Rattle.std.specs.Prelude.{◌≡◌, ◌&&◌, ◌||◌, not, ℕ, Bool, List, [], OnOk, OnErr};
ghost use Rattle.bt_remarks.specs.declared.events.Side.{Side};
ghost use Rattle.bt_remarks.specs.Said.{Told, Other, message_of, other, metadata_piece};
ghost use Rattle.bt_remarks.specs.Sets.{is_noted};
ghost use Rattle.bt_remarks.specs.Remarked.{is_choked, is_elsewhere};
ghost use Rattle.bt_remarks.specs.Ends.{unanswered, AreFoundOf};
ghost use Rattle.bt_remarks.specs.Steps.{has, unasks, asks_again, IsHalfAfter};
ghost use Rattle.bt_remarks.specs.Matched.{IsHalf};

use crate::events::{Block, Ending, Event};
use crate::pieces::{self, PieceSet};
use crate::requests::Requests;
use crate::tallies::Unanswered;
use std::alloc::{AllocError, Global};

/// Returns a piece of the metadata as a block.
fn metadata_piece(piece: u32) -> Block
    ensures { result ≡ metadata_piece piece }
{
    Block {
        index: piece,
        begin: 0,
        length: 0,
    }
}

/// What is known of a side.
#[derive(Debug, Drop)]
pub struct Half {
    /// Whether its handshake has the bit of the Fast Extension.
    has_fast: bool,
    is_choking: bool,
    /// The number of its last choke, or 0.
    choke: u64,
    /// The number of the unchoke with which it last stopped choking, or 0.
    unchoke: u64,
    has_all: bool,
    /// The pieces that it has named.
    named: PieceSet,
    /// The pieces that the other side has allowed it.
    allowed: PieceSet,
    /// The pieces of which the other side has sent it a block.
    came: PieceSet,
    blocks: Requests,
    metadata: Requests,
}

impl Half {
    /// Returns what is known of a side that has said nothing.
    pub fn new(alloc: Global) -> Half
        ensures { (side : Side) → IsHalf side [] result }
    {
        Half {
            has_fast: false,
            is_choking: true,
            choke: 0,
            unchoke: 0,
            has_all: false,
            named: PieceSet::new(alloc),
            allowed: PieceSet::new(alloc),
            came: PieceSet::new(alloc),
            blocks: Requests::new(alloc),
            metadata: Requests::new(alloc),
        }
    }

    /// Tells whether there were too many pending requests.
    pub fn has_overflowed(&self) -> bool
        ensures { result ≡ (self.now.blocks.overflowed || self.now.metadata.overflowed) }
    {
        self.blocks.overflowed() || self.metadata.overflowed()
    }

    /// Takes an event of this side.
    ///
    /// # Errors
    /// `AllocError` if memory runs out. What is known is as before.
    #[inline(always)]
    pub fn say(
        &mut self,
        event: &Event,
        known: bool,
        number: u64,
        mark: u64,
    ) -> Result<(), AllocError>
        ensures ok { OnOk result (IsHalfAfter (message_of event.now) Other known number mark self.old self.new) }
        ensures err { OnErr result (IsHalfAfter Other Other known number mark self.old self.new) }
    {
        match *event {
            Event::Handshake { fast } => {
                self.has_fast = fast;
                Ok(())
            }
            Event::Choke => {
                self.is_choking = true;
                self.choke = number;
                Ok(())
            }
            Event::Unchoke => {
                if self.is_choking {
                    self.unchoke = number;
                }
                self.is_choking = false;
                Ok(())
            }
            Event::HaveAll => {
                self.has_all = known || self.has_all;
                Ok(())
            }
            Event::Bitfield(field) if known => self.named.insert_all(field),
            Event::Have(piece) if known => self.named.insert(piece),
            Event::Request(block) => self.blocks.ask(block, number, mark),
            Event::Cancel(block) => {
                self.blocks.cancel(block);
                Ok(())
            }
            Event::MetadataRequest(piece) => self.metadata.ask(metadata_piece(piece), number, mark),
            _ => Ok(()),
        }
    }

    /// Takes an event of the other side.
    ///
    /// # Errors
    /// `AllocError` if memory runs out. What is known is as before.
    #[inline(always)]
    pub fn hear(&mut self, event: &Event) -> Result<(), AllocError>
        ensures ok { OnOk result ((known : Bool) → (number mark : ℕ) → IsHalfAfter Other (message_of event.now) known number mark self.old self.new) }
        ensures err { OnErr result ((known : Bool) → (number mark : ℕ) → IsHalfAfter Other Other known number mark self.old self.new) }
    {
        match *event {
            Event::AllowedFast(piece) => self.allowed.insert(piece),
            Event::Piece(block) => {
                self.came.insert(block.index)?;
                self.blocks.answer(block);
                Ok(())
            }
            Event::Reject(block) => {
                self.blocks.answer(block);
                Ok(())
            }
            Event::MetadataAnswer(piece) => {
                self.metadata.answer(metadata_piece(piece));
                Ok(())
            }
            _ => Ok(()),
        }
    }

    /// Tells whether an answer of the other side has no pending request of this side.
    #[inline(always)]
    pub fn is_unasked(&self, event: &Event, known: bool) -> bool
        ensures { result ≡ (known && unasks self.now (message_of event.now)) }
    {
        if !known {
            return false;
        }
        match *event {
            Event::Piece(block) => self.blocks.is_unasked(block),
            Event::Reject(block) => self.blocks.is_unasked(block),
            Event::MetadataAnswer(piece) => self.metadata.is_unasked(metadata_piece(piece)),
            _ => false,
        }
    }

    /// Tells whether a request of this side is of a block with a pending one that the other side hasn't dropped.
    #[inline(always)]
    pub fn is_again(&self, theirs: &Half, event: &Event, known: bool) -> bool
        ensures { result ≡ (known && asks_again self.now theirs.now (message_of event.now)) }
    {
        if !known {
            return false;
        }
        match *event {
            Event::Request(block) => {
                let fast = self.has_fast && theirs.has_fast;
                self.blocks
                    .is_again(block, fast, theirs.is_choking, theirs.unchoke)
            }
            Event::MetadataRequest(piece) => {
                let block = metadata_piece(piece);
                self.metadata.is_again(block, true, false, 0)
            }
            _ => false,
        }
    }

    /// Tells whether a request of this side comes while the other one chokes.
    #[inline(always)]
    pub fn is_choked(&self, theirs: &Half, event: &Event, known: bool) -> bool
        ensures { result ≡ (known && is_choked (message_of event.now) theirs.now.is_choking (has self.now.allowed)) }
    {
        match *event {
            Event::Request(block) => known
                && theirs.is_choking
                && !self.allowed.contains(block.index),
            _ => false,
        }
    }

    /// Tells whether this side has a piece from elsewhere.
    #[inline(always)]
    pub fn is_elsewhere(&self, event: &Event, known: bool) -> bool
        ensures { result ≡ (known && is_elsewhere (message_of event.now) self.now.has_all (has self.now.named) (has self.now.came)) }
    {
        match *event {
            Event::Have(piece) => known && self.is_new(piece),
            _ => false,
        }
    }

    /// Tells whether a piece is neither named by this side nor has come to it.
    fn is_new(&self, piece: u32) -> bool
        ensures { result ≡ (is_noted piece && not self.now.has_all && not (has self.now.named piece) && not (has self.now.came piece)) }
    {
        pieces::is_noted(piece)
            && !self.has_all
            && !self.named.contains(piece)
            && !self.came.contains(piece)
    }

    /// Returns about how many bytes of memory it takes besides its own fields.
    pub fn size(&self) -> usize {
        let sets = self
            .named
            .size()
            .saturating_add(self.allowed.size())
            .saturating_add(self.came.size());
        sets.saturating_add(self.blocks.size())
            .saturating_add(self.metadata.size())
    }

    /// Returns how many requests of blocks got no answer, and the first one.
    pub fn unanswered(&self, theirs: &Half, ending: Ending) -> Unanswered
        ensures { (side : Side) → (events : List Told) → IsHalf side events self.now → IsHalf (other side) events theirs.now
            → AreFoundOf (unanswered ending.closed_first ending.stopped side events) result }
    {
        if ending.stopped {
            return Unanswered::NOTHING;
        }
        self.blocks.late(ending.closed_first, theirs.choke)
    }
}
