//! What a connection tells of its sides, and the rows at its end.
ghost use Rattle.std.specs.Prelude.{is_some, ◌≡◌, [], ◌-◌, ℕ, List, length, OnOk, OnErr, Option, Bool};
ghost use Rattle.bt_talk.specs.Pasts.{Past};
ghost use Rattle.bt_remarks.specs.declared.events.Side.{Side};

use crate::closing::{Closed, heeded, opens};
use crate::inside::ended_inside;
use crate::refused::Judgement;
use crate::replay::Mark;
use crate::room::Room;
use crate::rows::NO_REMARKS;
use crate::talk::Talk;
use crate::unanswered::{has_closed, has_fast, is_accepted, other, unanswered_of};
use bt_intro::Receiver;
use bt_jobs::Announced;
use bt_packet::Segment;
use bt_remarks::{Ending, Side};
use bt_rows::{Deed, Last, Noted, Remarked};
use bt_tcp::Gaps;
use bt_wire::{Handshake, Refusal};
use std::alloc::AllocError;
use std::mem::size_of;

impl Talk {
    ghost use Rattle.bt_wire.specs.Streams.{Outcome};
    ghost use Rattle.bt_jobs.specs.Others.{first_of, own_of_other};
    ghost use Rattle.bt_flow.specs.Flows.{AreGapsOf, HasHole, IsClosed, conflicts_in, high_in, is_lost_stream};
    ghost use Rattle.bt_intro.specs.Hellos.{IsStartOf};
    ghost use Rattle.bt_intro.specs.Hearing.{IsSaid};
    ghost use Rattle.bt_intro.specs.Listening.{handshake_of, last_client};
    ghost use Rattle.bt_remarks.specs.Said.{other};
    ghost use Rattle.std.specs.Prelude.{option_map, unwrap_or};
    ghost use Rattle.bt_tcp.specs.Heard.{opening_of};
    ghost use Rattle.bt_talk.specs.Closing.{high_at, is_quiet, opens_by};
    ghost use Rattle.bt_talk.specs.Strays.{IsStrayReset, heeded as heeded_by};
    ghost use Rattle.bt_talk.specs.Talks.{IsTalk, ShowsGap, terms_of, closing_of, IsSender, is_in_opening, flow_of, cut_of, of_side, strays_of};
    ghost use Rattle.bt_talk.specs.Receivers.{AreVerdicts, IsReceiverNow};
    ghost use Rattle.bt_talk.specs.Cuts.{IsLastBefore};
    ghost use Rattle.bt_talk.specs.Inside.{AreEndRows, AreLastRows, EndsInside, ShowsInside};
    ghost use Rattle.bt_talk.specs.Rooms.{rows_in};
    ghost use Rattle.bt_talk.specs.Courses.{end_of, no_remarks, rows_at};
    ghost use Rattle.bt_talk.specs.Rows.{Shown, row_at};
    ghost use Rattle.bt_talk.specs.Shows.{Appends};
    ghost use Rattle.bt_talk.specs.Watching.{AreRemarked};
    ghost use Rattle.bt_talk.specs.Unanswered.{HaveFast, IsEnding, AreUnanswered};

    /// Appends to the rows of the room a row at the packet with which a side's stream grew last.
    fn show_end(
        &self,
        side: Side,
        offset: u64,
        deed: Deed,
        room: &mut Room,
    ) -> Result<(), AllocError>
        ensures row { OnOk result (Appends (rows_at (end_of side self.now.courses) (λ when. row_at room.old.rows.heading when side offset deed no_remarks))
            (rows_in room.old) (rows_in room.new)) }
        ensures err { OnErr result (Appends [] (rows_in room.old) (rows_in room.new)) }
    {
        match self.courses.end(side) {
            Some(when) => room.rows.put(when, side, offset, deed, NO_REMARKS),
            None => Ok(()),
        }
    }

    /// Appends to the rows of the room the row of a side's first gap, if it has one.
    fn show_gap(&self, side: Side, room: &mut Room) -> Result<(), AllocError>
        ensures gap { OnOk result (ShowsGap side self.now (rows_in room.old) (rows_in room.new)) }
        ensures err { OnErr result (Appends [] (rows_in room.old) (rows_in room.new)) }
    {
        let start = self.start(side);
        let Some(gap) = self.gaps(side).first else {
            return Ok(());
        };
        let start = start.unwrap_or(0) as u64;
        let offset = gap.place.saturating_sub(start);
        self.show_end(side, offset, Deed::Gap(gap.length), room)?;
        Ok(())
    }

    /// Returns the refusal of a side's stream that ends inside an item, though nothing cut it.
    fn end_inside(&self, side: Side) -> Option<Refusal>
        ensures { (a b : Past) → IsTalk a b self.now → EndsInside side a b self.now result }
    {
        let closed = has_closed(side, &self.closing.closed);
        let gaps = self.gaps(side);
        ended_inside(closed, &gaps.first, &self.verdicts(side))
    }

    /// Appends to the rows of the room the row of a side's stream that ends inside an item, though nothing cut it.
    fn show_inside(&self, side: Side, room: &mut Room) -> Result<(), AllocError>
        ensures inside { OnOk result (ShowsInside side self.now (rows_in room.old) (rows_in room.new)) }
        ensures err { OnErr result (Appends [] (rows_in room.old) (rows_in room.new)) }
    {
        let Some(refusal) = self.end_inside(side) else {
            return Ok(());
        };
        self.show_end(side, refusal.at, Deed::Refused(refusal), room)?;
        Ok(())
    }

    /// Appends to the rows of the room the last ones of a side.
    fn show_last(&self, side: Side, room: &mut Room) -> Result<(), AllocError>
        ensures last { OnOk result ((rows : List Shown) × Appends rows (rows_in room.old) (rows_in room.new)
            × ((a b : Past) → IsTalk a b self.now → AreLastRows (rows_in room.old).heading side a b self.now rows)) }
        ensures err { OnErr result ((rows : List Shown) × Appends rows (rows_in room.old) (rows_in room.new)) }
    {
        self.show_inside(side, room)?;
        self.show_gap(side, room)?;
        Ok(())
    }

    /// Appends to the rows of the room the row of each side's first gap, at the packet with which the last byte before it came, or
    /// at the connection's first packet if no byte of the side was captured.
    ///
    /// If a side closed first and its stream, which has no gap, ends inside an item, that refusal has a row in its place. Without a
    /// handshake there are none.
    ///
    /// # Errors
    /// `AllocError` when out of memory.
    pub fn show_gaps(&self, room: &mut Room) -> Result<(), AllocError>
        ensures ends { OnOk result ((rows : List Shown) × Appends rows (rows_in room.old) (rows_in room.new)
            × ((a b : Past) → IsTalk a b self.now → AreEndRows (rows_in room.old).heading a b self.now rows)) }
        ensures err { OnErr result ((rows : List Shown) × Appends rows (rows_in room.old) (rows_in room.new)) }
    {
        if !self.is_torrent() {
            return Ok(());
        }
        self.show_last(Side::A, room)?;
        self.show_last(Side::B, room)?;
        Ok(())
    }

    /// Returns the verdicts of a side's stream, as if it ended here, and what is there of the messages that they refuse.
    ///
    /// The stream is that from the side's handshake on, and its receiver is the one that the other side announced in the opening.
    /// There are none in the opening, and without a whole handshake of the side.
    pub fn verdicts(&self, side: Side) -> Option<Judgement>
        ensures { (a b : Past) → IsTalk a b self.now
            → AreVerdicts (is_in_opening self.now) (terms_of self.now) (of_side side a b) (of_side (other side) a b) result }
    {
        self.direction(side).verdicts()
    }

    /// Returns the receiver by which a side's stream is judged.
    ///
    /// There is none in the opening, and without a whole handshake of the side.
    pub fn receiver(&self, side: Side) -> Option<Receiver>
        ensures { (a b : Past) → IsTalk a b self.now
            → IsReceiverNow (is_in_opening self.now) (terms_of self.now) (of_side side a b) (of_side (other side) a b) result }
    {
        self.direction(side).receiver()
    }

    /// Tells whether both sides have the Fast Extension (BEP 6).
    fn have_fast(&self) -> bool
        ensures { (a b : Past) → IsTalk a b self.now → HaveFast a b result }
    {
        let a = self.handshake(Side::A);
        let b = self.handshake(Side::B);
        has_fast(&a) && has_fast(&b)
    }

    /// Returns how a side's direction ended, if nothing more comes.
    fn ending(&self, side: Side) -> Ending
        ensures { (a b : Past) → IsTalk a b self.now → IsEnding side a b self.now result }
    {
        let verdicts = self.verdicts(side);
        let has_hole = self.has_hole(side);
        Ending {
            closed_first: has_closed(side, &self.closing.closed),
            stopped: !is_accepted(&verdicts) || has_hole,
        }
    }

    /// Returns the requests of a side that got no answer.
    fn unanswered(&self, side: Side) -> Option<Noted>
        ensures { (a b : Past) (i : IsTalk a b self.now) → AreUnanswered side a b self.now i.said.events (i.said.items side) result }
    {
        if !self.have_fast() {
            return None;
        }
        unanswered_of(&self.sides.watch.matcher, side, self.ending(other(side)))
    }

    /// Returns the remarks on what a side sent, as if the connection ended here.
    ///
    /// There are none in the opening. Requests that got no answer are told only if both sides have the Fast Extension (BEP 6), and only
    /// those that the other side should have answered: it answered a later one, choked after them, or closed first. They aren't told
    /// if the other side's stream ends inside a message, is refused by the lenient rules, or lacks bytes that were sent.
    pub fn remarked(&self, side: Side) -> Remarked
        ensures remarked { (a b : Past) (i : IsTalk a b self.now) → AreRemarked side i.said.events (i.said.items side) result }
        ensures unanswered { (a b : Past) (i : IsTalk a b self.now)
            → AreUnanswered side a b self.now i.said.events (i.said.items side) result.unanswered }
    {
        let unanswered = self.unanswered(side);
        Remarked {
            unanswered,
            ..self.sides.watch.remarked(side)
        }
    }

    /// Returns the handshake of a side, once all of it came in the opening.
    pub fn handshake(&self, side: Side) -> Option<Handshake>
        ensures { (a b : Past) → IsTalk a b self.now
            → (v : Outcome) × IsSaid (of_side side a b).front v × (result ≡ first_of handshake_of v.items) }
    {
        self.direction(side).intro.handshake()
    }

    /// Returns what a side announced in the opening.
    pub fn announced(&self, side: Side) -> Option<Announced>
        ensures { (a b : Past) → IsTalk a b self.now
            → (v : Outcome) × IsSaid (of_side side a b).front v × (result ≡ own_of_other v.items) }
    {
        self.direction(side).intro.announced()
    }

    /// Returns the first 240 bytes of the client's name that a side announced in the opening (BEP 10, `v`).
    pub fn client(&self, side: Side) -> &[u8]
        ensures { (a b : Past) → IsTalk a b self.now
            → (v : Outcome) × IsSaid (of_side side a b).front v × (result.now ≡ last_client v.items) }
    {
        self.direction(side).intro.client()
    }

    /// Returns how many bytes a side sent before its handshake, if one started in the opening.
    pub fn start(&self, side: Side) -> Option<usize>
        ensures { (a b : Past) → IsTalk a b self.now → IsStartOf (of_side side a b).front result }
    {
        self.direction(side).intro.start()
    }

    /// Returns how many bytes of a side's stream are put together.
    pub fn length(&self, side: Side) -> u64
        ensures { (a b : Past) → IsTalk a b self.now → result ≡ length (of_side side a b).out }
    {
        self.direction(side).flow.next()
    }

    /// Returns how far a side's captured bytes reach: the greatest offset, and one.
    pub fn high(&self, side: Side) -> u64
        ensures { (a b : Past) → IsTalk a b self.now → result ≡ high_in (of_side side a b).heard (flow_of side self.now).stream }
    {
        self.direction(side).flow.high()
    }

    /// Returns the runs of bytes that a side sent and that weren't captured.
    pub fn gaps(&self, side: Side) -> Gaps
        ensures { (a b : Past) → IsTalk a b self.now → let p = of_side side a b in AreGapsOf p.heard p.segs p.out (flow_of side self.now) result }
    {
        self.direction(side).flow.gaps()
    }

    /// Tells whether a side's first gap is final: a segment ended more than 15 MiB past it, so nothing more of the side is put together.
    pub fn is_final(&self, side: Side) -> bool
        ensures { result ≡ is_lost_stream (flow_of side self.now).stream }
    {
        self.direction(side).flow.is_lost()
    }

    /// Returns how many captured bytes of a side differed from those that came first.
    pub fn conflicts(&self, side: Side) -> u64
        ensures { result ≡ conflicts_in (flow_of side self.now).stream }
    {
        self.direction(side).flow.conflicts()
    }

    /// Returns how many segments of a side were strays, up to 2^64 - 1: a RST with a number that the other side couldn't expect next, or
    /// another segment that wasn't in the other side's window (RFC 9293 3.4, 3.5.3).
    pub fn strays(&self, side: Side) -> u64
        ensures { result ≡ strays_of side self.now }
    {
        self.courses.of(side).strays
    }

    /// Tells whether bytes of a side are known to be sent that aren't put together.
    pub fn has_hole(&self, side: Side) -> bool
        ensures { (a b : Past) → IsTalk a b self.now → let p = of_side side a b in HasHole p.heard p.out (flow_of side self.now).stream result }
    {
        self.direction(side).flow.has_hole()
    }

    /// Tells whether a side's FIN was reached and acknowledged (RFC 9293 3.6).
    pub fn is_closed(&self, side: Side) -> bool
        ensures { (a b : Past) → IsTalk a b self.now → let p = of_side side a b in IsClosed p.heard p.out (flow_of side self.now).stream result }
    {
        self.direction(side).flow.is_closed()
    }

    /// Returns the first FIN or RST, if one came.
    pub fn closed(&self) -> Option<Closed>
        ensures { result ≡ (closing_of self.now).closed }
    {
        self.closing.closed
    }

    /// Returns how many bytes from its handshake on a side had sent at the first FIN or RST.
    pub fn had_sent(&self, side: Side) -> Option<u64>
        ensures { (a b : Past) → IsTalk a b self.now → (start : Option ℕ) × IsStartOf (of_side side a b).front start
            × (result ≡ option_map (λ c. high_at side c - unwrap_or start 0) (closing_of self.now).closed) }
    {
        let start = self.start(side).unwrap_or(0);
        match &self.closing.closed {
            Some(closed) => Some(closed.high(side).saturating_sub(start as u64)),
            None => None,
        }
    }

    /// Returns the last that a side had sent at the first FIN or RST, from its handshake on.
    ///
    /// It is that of the bytes that were put together then. In the opening there is none.
    pub fn last_before_close(&self, side: Side) -> Option<Last>
        ensures { (a b : Past) → IsTalk a b self.now → IsLastBefore (is_in_opening self.now) (terms_of self.now) (of_side side a b) (of_side (other side) a b)
            (cut_of side self.now) result }
    {
        self.direction(side).last_before()
    }

    /// Tells whether the connection has ended: there was a RST, or both FINs were reached and acknowledged.
    pub fn has_ended(&self) -> bool
        ensures { result ≡ is_some (closing_of self.now).over }
    {
        self.closing.has_ended()
    }

    /// Tells whether the connection is over at this time, so that no segment of it is awaited.
    ///
    /// That is after four seconds without a segment, once there was a RST, or both FINs were reached and acknowledged.
    pub fn is_over(&self, nanos: u64) -> bool
        ensures { result ≡ is_quiet (closing_of self.now).over nanos }
    {
        self.closing.is_quiet(nanos)
    }

    /// Tells whether a segment begins another connection between the same ends.
    ///
    /// It does if it is a SYN without ACK of a side that has sent something, and not that side's SYN again. A stray RST never does.
    pub fn opens_again(&self, segment: &Segment) -> bool
        ensures { (a b : Past) → IsTalk a b self.now → (side : Side) × IsSender segment.now self.now side × (let p = of_side side a b in
            (stray : Bool) × IsStrayReset segment.now p stray × (result ≡ opens_by (heeded_by stray segment.now.flags) (high_in p.heard (flow_of side self.now).stream) (opening_of p.heard) segment.now.sequence)) }
    {
        let side = self.ends.sender(segment);
        let stray = self.is_stray_reset(side, segment);
        let flags = heeded(segment.flags, stray);
        let flow = &self.direction(side).flow;
        opens(flags, flow.high(), flow.opening(), segment.sequence)
    }

    /// Returns about how many bytes of memory the connection takes besides its own fields.
    pub fn size(&self) -> usize {
        let marks = self
            .sides
            .marks
            .capacity()
            .saturating_mul(size_of::<Mark>());
        self.sides
            .a
            .size()
            .saturating_add(self.sides.b.size())
            .saturating_add(marks)
            .saturating_add(self.sides.watch.size())
    }
}
