//! What the items of both sides show together, as they come.
ghost use Rattle.std.specs.Prelude.{◌≡◌, [], ◌∷◌, ◌++◌, ℕ, List, OnOk, if◌then◌else◌};
ghost use Rattle.bt_bencode.specs.Trees.{dictionary};
ghost use Rattle.bt_ext.specs.Metadata.{kind_of};
ghost use Rattle.bt_ext.specs.Payloads.{seen as seen_ext};
ghost use Rattle.bt_feed.specs.Views.{item_of};
ghost use Rattle.bt_remarks.specs.declared.events.Side.{Side};
ghost use Rattle.bt_remarks.specs.declared.events.Side.TheVariants as sides;
ghost use Rattle.bt_remarks.specs.Said.{Told, is_same, message_of as said_in};
ghost use Rattle.bt_wire.specs.declared.item.Item.{Item};
ghost use Rattle.bt_wire.specs.Messages.{message_of};
ghost use Rattle.bt_talk.specs.Events.{block_of, metadata_event, extended_event, message_event, event_of as event_by};
ghost use Rattle.bt_talk.specs.Courses.{refusal_rows, close_rows};
ghost use Rattle.bt_talk.specs.Rows.{row_at};
ghost use Rattle.bt_talk.specs.Shows.{Appends};
ghost use Rattle.bt_rows.specs.declared.rows.Deed.TheVariants as deed;
ghost use Rattle.bt_talk.specs.Kept.{noted as noted_by};
ghost use Rattle.bt_talk.specs.Watching.{IsItemAt, IsNoted};

use crate::closing::When;
use crate::notes::Notes;
use crate::rows::{NO_HEADING, NO_REMARKS, Rows};
use bitflags::Flags;
use bt_bencode::DictRef;
use bt_ext::{ExtView, Kind};
use bt_feed::{Sink, SinkFault, View};
use bt_remarks::{Block, Event, Found, Heard, Matcher, Remarks, Side};
use bt_rows::{Deed, Means, Noted, Remarked, Said, Words};
use bt_text::words::Dictionary;
use bt_wire::{MessageView, Refusal, Reserved};
use std::alloc::{AllocError, Global};
use std::mem;

/// The greatest length of a message, which has 32 bits.
const MOST: usize = u32::MAX as usize;

/// Returns a block.
fn block_of(index: u32, begin: u32, length: u32) -> Block
    ensures { result ≡ block_of index begin length }
{
    Block {
        index,
        begin,
        length,
    }
}

/// Returns a metadata message as an event (BEP 9).
fn metadata_event<'a>(dict: &DictRef) -> Event<'a>
    ensures { said_in result ≡ metadata_event (kind_of (dictionary dict.now.tree.0)) }
{
    match dict.kind() {
        Kind::Request(piece) => Event::MetadataRequest(piece),
        Kind::Data { piece, .. } => Event::MetadataAnswer(piece),
        Kind::Reject(piece) => Event::MetadataAnswer(piece),
        Kind::Other => Event::Other,
        Kind::Malformed => Event::Other,
    }
}

/// Returns an extended message as an event.
fn extended_event<'a>(payload: &ExtView) -> Event<'a>
    ensures { said_in result ≡ extended_event (seen_ext payload.now) }
{
    match payload {
        ExtView::Handshake { .. } => Event::Other,
        ExtView::Metadata { dict, .. } => metadata_event(dict),
        ExtView::DontHave(_) => Event::Other,
        ExtView::Raw { .. } => Event::Other,
    }
}

/// Returns a message as an event.
#[inline(always)]
fn message_event<'a>(message: &MessageView<'a>) -> Event<'a>
    ensures { said_in result ≡ message_event (message_of message.now) }
{
    match message {
        MessageView::Choke => Event::Choke,
        MessageView::Unchoke => Event::Unchoke,
        MessageView::Have(index) => Event::Have(*index),
        MessageView::Bitfield(bits) => Event::Bitfield(bits),
        MessageView::Request {
            index,
            begin,
            length,
        } => Event::Request(block_of(*index, *begin, *length)),
        MessageView::Cancel {
            index,
            begin,
            length,
        } => Event::Cancel(block_of(*index, *begin, *length)),
        MessageView::Piece {
            index,
            begin,
            block,
        } => Event::Piece(block_of(*index, *begin, block.len().min(MOST) as u32)),
        MessageView::HaveAll => Event::HaveAll,
        MessageView::Reject {
            index,
            begin,
            length,
        } => Event::Reject(block_of(*index, *begin, *length)),
        MessageView::AllowedFast(index) => Event::AllowedFast(*index),
        MessageView::Extended(payload) => extended_event(payload),
        _ => Event::Other,
    }
}

/// Returns an item as an event.
#[inline(always)]
fn event_of<'a>(view: &View<'a>) -> Event<'a>
    ensures { said_in result ≡ event_by (item_of view.now) }
{
    match view {
        View::Handshake(handshake) => Event::Handshake {
            fast: handshake.reserved.contains(Reserved::FAST),
        },
        View::Message(message) => message_event(message),
    }
}

/// The packet of a connection that has none.
const NO_PACKET: When = When {
    nanos: 0,
    packet: 0,
};

/// Keeps an item of a side with its remarks.
#[inline(always)]
fn note(
    side: Side,
    a: &mut Notes,
    b: &mut Notes,
    said: Said,
    remarks: Remarks,
) -> Result<(), AllocError>
    ensures a { OnOk result (a.new ≡ (if is_same side sides.A then noted_by remarks said a.old else a.old)) }
    ensures b { OnOk result (b.new ≡ (if is_same side sides.B then noted_by remarks said b.old else b.old)) }
{
    match side {
        Side::A => a.note(said, remarks),
        Side::B => b.note(said, remarks),
    }
}

/// Returns how many items have a remark, with the first one.
fn noted(found: Found, first: &Option<Said>) -> Option<Noted>
    ensures { (xs : List (ℕ × Item)) → IsItemAt xs found.first first.now → IsNoted found xs result }
{
    match first {
        Some(first) => Some(Noted {
            count: found.count,
            first: *first,
        }),
        None => None,
    }
}

/// A sink for the items of both sides, which keeps what they show together.
#[derive(Drop)]
pub(crate) struct Watch {
    pub(crate) matcher: Matcher,
    pub(crate) a: Notes,
    pub(crate) b: Notes,
    /// The side whose bytes are read.
    side: Side,
    /// Whether all that the other side has said up to here is known.
    known: bool,
    /// The packet whose bytes are read.
    pub(crate) when: When,
    /// The rows of what came with it.
    pub(crate) rows: Rows,
    calls: u64,
    failed: u64,
}

impl Watch {
    ghost use Rattle.bt_talk.specs.Watching.{IsWatched, AreRemarked, notes_of};

    /// Returns that of no item.
    pub(crate) fn new(alloc: Global) -> Watch
        ensures { IsWatched [] (λ _. []) result }
    {
        Watch {
            matcher: Matcher::new(alloc),
            a: Notes::new(alloc),
            b: Notes::new(alloc),
            side: Side::A,
            known: false,
            when: NO_PACKET,
            rows: Rows::new(alloc, NO_HEADING),
            calls: 0,
            failed: 0,
        }
    }

    /// Returns what is kept of a side's items.
    pub(crate) fn notes(&self, side: Side) -> &Notes
        ensures { result.now ≡ notes_of side self.now }
    {
        match side {
            Side::A => &self.a,
            Side::B => &self.b,
        }
    }

    /// Returns the last item of the side whose bytes are read.
    pub(crate) fn last(&self) -> &Option<Said>
        ensures { result.now ≡ (notes_of self.now.side self.now).last }
    {
        match self.side {
            Side::A => self.a.last(),
            Side::B => self.b.last(),
        }
    }

    /// Returns the items of a side with a remark, except requests that got no answer.
    pub(crate) fn remarked(&self, side: Side) -> Remarked
        ensures { (events : List Told) (items : Side → List (ℕ × Item)) → IsWatched events items self.now
            → AreRemarked side events (items side) result }
    {
        let tally = self.matcher.tally(side);
        let firsts = self.notes(side).firsts();
        Remarked {
            unasked: noted(tally.unasked, &firsts.unasked),
            choked: noted(tally.choked, &firsts.choked),
            again: noted(tally.again, &firsts.again),
            unanswered: None,
            elsewhere: noted(tally.elsewhere, &firsts.elsewhere),
        }
    }

    /// Turns to a side, whose items follow.
    pub(crate) fn turn_to(&mut self, side: Side, known: bool)
        ensures { self.new ≡ record self.old { side = side; known = known } }
    {
        self.side = side;
        self.known = known;
    }

    /// Swaps its rows with others.
    pub(crate) fn swap_rows(&mut self, rows: &mut Rows)
        ensures mine { self.new ≡ record self.old { rows = rows.old } }
        ensures others { rows.new ≡ self.old.rows }
    {
        mem::swap(&mut self.rows, rows);
    }

    /// Sets the packet with which what follows came.
    pub(crate) fn come_to(&mut self, when: When)
        ensures { self.new ≡ record self.old { when = when } }
    {
        self.when = when;
    }

    /// Keeps an item of the side whose bytes are read, with its remarks, and appends its row.
    #[inline(always)]
    fn keep(&mut self, said: &Said, remarks: Remarks) -> Result<(), AllocError>
        ensures a { OnOk result (self.new.a ≡ (if is_same self.old.side sides.A then noted_by remarks said.now self.old.a else self.old.a)) }
        ensures b { OnOk result (self.new.b ≡ (if is_same self.old.side sides.B then noted_by remarks said.now self.old.b else self.old.b)) }
        ensures rows { OnOk result (Appends (row_at self.old.rows.heading self.old.when self.old.side said.now.offset (deed.Item said.now.words) remarks ∷ [])
            self.old.rows self.new.rows) }
        ensures rest { self.new ≡ record self.old { a = self.new.a; b = self.new.b; rows = self.new.rows } }
    {
        note(self.side, &mut self.a, &mut self.b, *said, remarks)?;
        self.rows.put_item(self.when, self.side, said, remarks)?;
        Ok(())
    }

    /// Returns about how many bytes of memory it takes besides its own fields.
    pub(crate) fn size(&self) -> usize {
        let notes = self.a.size().saturating_add(self.b.size());
        notes.saturating_add(self.matcher.size())
    }

    /// Appends the row of a refusal that stands now, if none stood before.
    fn show_refusal(
        &mut self,
        side: Side,
        before: Option<Refusal>,
        now: Option<Refusal>,
    ) -> Result<(), AllocError>
        ensures rows { OnOk result (Appends (refusal_rows self.old.rows.heading self.old.when side before now) self.old.rows self.new.rows) }
        ensures rest { self.new ≡ record self.old { rows = self.new.rows } }
    {
        match (before, now) {
            (None, Some(refusal)) => {
                let deed = Deed::Refused(refusal);
                self.rows.put(self.when, side, refusal.at, deed, NO_REMARKS)
            }
            (None, None) => Ok(()),
            (Some(_), _) => Ok(()),
        }
    }

    /// Appends the row of a close, if there is one, after so many bytes of the side.
    fn show_close(
        &mut self,
        side: Side,
        offset: u64,
        closed: Option<Means>,
    ) -> Result<(), AllocError>
        ensures rows { OnOk result (Appends (close_rows self.old.rows.heading self.old.when side offset closed) self.old.rows self.new.rows) }
        ensures rest { self.new ≡ record self.old { rows = self.new.rows } }
    {
        match closed {
            Some(by) => {
                let deed = Deed::Closed(by);
                self.rows.put(self.when, side, offset, deed, NO_REMARKS)
            }
            None => Ok(()),
        }
    }

    /// Appends the rows of what a side did besides items: a refusal that stands now, if none stood before, and then a close.
    ///
    /// # Errors
    /// `AllocError` when out of memory.
    pub(crate) fn show(
        &mut self,
        side: Side,
        before: Option<Refusal>,
        now: Option<Refusal>,
        offset: u64,
        closed: Option<Means>,
    ) -> Result<(), AllocError>
        ensures rows { OnOk result (Appends (refusal_rows self.old.rows.heading self.old.when side before now
            ++ close_rows self.old.rows.heading self.old.when side offset closed) self.old.rows self.new.rows) }
        ensures rest { self.new ≡ record self.old { rows = self.new.rows } }
    {
        self.show_refusal(side, before, now)?;
        self.show_close(side, offset, closed)?;
        Ok(())
    }
}

impl Sink for Watch {
    ghost use Rattle.bt_feed.specs.declared.sink.SinkFault.TheVariants as faults;
    ghost use Rattle.bt_talk.specs.Watching.{Watches};

    ghost takes = { Watches };

    ghost misses = { λ _ _ fault _. fault ≡ faults.Memory };

    ghost calls = { λ w. w.calls };

    ghost failed = { λ w. w.failed };

    #[inline(always)]
    fn item(&mut self, at: u64, view: &View<'_>) -> Result<(), SinkFault> {
        self.calls = self.calls.saturating_add(1);
        let heard = Heard {
            side: self.side,
            event: event_of(view),
            known: self.known,
            mark: at,
        };
        match self.matcher.take(&heard) {
            Ok(remarks) => {
                let said = Said {
                    offset: at,
                    words: Words::of(view),
                };
                match self.keep(&said, remarks) {
                    Ok(()) => Ok(()),
                    Err(_) => {
                        self.failed = self.failed.saturating_add(1);
                        Err(SinkFault::Memory)
                    }
                }
            }
            Err(_) => {
                self.failed = self.failed.saturating_add(1);
                Err(SinkFault::Memory)
            }
        }
    }
}
