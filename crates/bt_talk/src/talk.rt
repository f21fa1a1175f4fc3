//! One captured connection.
ghost use Rattle.std.specs.Prelude.{◌≡◌, [], List, true, false, OnOk, OnErr, alloc_error};
ghost use Rattle.bt_talk.specs.Pasts.{Past};
ghost use Rattle.bt_remarks.specs.declared.events.Side.{Side};
ghost use Rattle.bt_remarks.specs.declared.events.Side.TheVariants.{A, B};
ghost use Rattle.std.specs.Prelude.{◌++◌};
ghost use Rattle.bt_talk.specs.declared.replay.Mark.{Mark};
ghost use Rattle.bt_talk.specs.Talks.{is_plain as is_plain_by};

use crate::closing::{Closed, Closing, When, heeded, is_end};
use crate::course::Courses;
use crate::direction::Direction;
use crate::ends::Ends;
use crate::replay::Mark;
use crate::room::Room;
use crate::sides::{Sides, given_of};
use crate::terms::Terms;
use crate::unanswered::other;
use crate::watch::Watch;
use bt_packet::{Flags, Segment};
use bt_remarks::Side;
use bt_rows::Means;
use bt_wire::Refusal;
use std::alloc::{AllocError, Global};

/// Tells whether a segment has no data, and doesn't close its side.
fn is_plain(segment: &Segment, closed: Option<Means>) -> bool
    ensures { result ≡ is_plain_by segment.now.payload.now closed }
{
    segment.payload.is_empty() && closed.is_none()
}

/// One captured connection.
///
/// Its *opening* is over when both sides have described themselves. Up to there their bytes are kept; then each side's receiver is
/// known, and its stream is judged as it comes.
#[derive(Drop)]
pub struct Talk {
    pub(crate) ends: Ends,
    terms: Terms,
    pub(crate) courses: Courses,
    pub(crate) closing: Closing,
    is_lost: bool,
    pub(crate) sides: Sides,
}

impl Talk {
    ghost use Rattle.std.specs.Prelude.{Err, Some, length as length_of};
    ghost use Rattle.std.specs.Option.{option_or};
    ghost use Rattle.bt_talk.specs.Closing.{Closes};
    ghost use Rattle.bt_talk.specs.Talks.{IsTalk, IsBegun, ShowsTurn, turn_by, HasSettled, Takes, TakesAll, ends_of};
    ghost use Rattle.bt_talk.specs.Talks.{terms_of, closing_of, is_in_opening, is_lost, flow_of, cut_of, direction_of, of_side};
    ghost use Rattle.bt_talk.specs.Talks.{began_with, grown_after, grown_with, watch_of, strays_after, strays_of};
    ghost use Rattle.bt_talk.specs.Marks.{HasBegun};
    ghost use Rattle.bt_talk.specs.Talks.{AreDeeds, IsReachOf, marks_of, has_closed, closed_after, IsMark, IsMarkedBy};
    ghost use Rattle.bt_talk.specs.Courses.{closes_by, course_of};
    ghost use Rattle.bt_talk.specs.Replays.{HasOpened};
    ghost use Rattle.bt_talk.specs.Rooms.{rows_in, wanted_in, sent_in};
    ghost use Rattle.bt_talk.specs.Sent.{SendsOn};
    ghost use Rattle.bt_talk.specs.Strays.{IsStray, IsStrayReset};
    ghost use Rattle.bt_talk.specs.Rows.{Shown};
    ghost use Rattle.bt_talk.specs.Shown.{Deeds, deed_rows};
    ghost use Rattle.bt_talk.specs.Shows.{Appends, HasNone};

    /// Returns the connection that begins with a segment, of which nothing was taken yet.
    ///
    /// `terms` says what is known of it besides its bytes.
    pub fn new(alloc: Global, first: &Segment, terms: Terms) -> Talk
        ensures { IsBegun terms first.now result }
    {
        Talk {
            ends: Ends::of(first),
            terms,
            courses: Courses::new(),
            closing: Closing::new(),
            is_lost: false,
            sides: Sides {
                alloc,
                a: Direction::new(alloc),
                b: Direction::new(alloc),
                segments: 0,
                marks: Vec::new(alloc),
                watch: Watch::new(alloc),
            },
        }
    }

    /// Notes a segment that a side sent, whose stream had this length before. It returns how the side closes with it.
    ///
    /// `flags` are those that count, and `stray` says whether it is a stray.
    fn go_on(
        &mut self,
        side: Side,
        length: u64,
        segment: &Segment,
        flags: Flags,
        stray: bool,
        when: When,
    ) -> Option<Means>
        ensures closes { result ≡ closes_by flags (course_of side self.old.courses).is_closed }
        ensures first { self.new.courses.first ≡ option_or self.old.courses.first (Some when) }
        ensures shut { (k : Side) → has_closed k self.new ≡ closed_after flags side self.old k }
        ensures grown { (a b : Past) → IsTalk a b self.old → (k : Side)
            → grown_with k self.new ≡ grown_after segment.now when side length (length_of (of_side side a b).out) self.old k }
        ensures strays { (k : Side) → strays_of k self.new ≡ strays_after stray side self.old k }
        ensures rest { self.new ≡ record self.old { courses = self.new.courses } }
    {
        let has_data = !segment.flags.rst && !segment.payload.is_empty();
        let begins = has_data && self.courses.of(side).grown.is_none();
        let grows = begins || self.length(side) > length;
        self.courses.take(side, flags, stray, grows, when)
    }

    /// Returns how far a side's stream is put together now.
    fn mark(&self, side: Side, closed: Option<Means>) -> Mark
        ensures { (a b : Past) → IsTalk a b self.now → IsMark self.now.sides.watch.when side closed a b self.now result }
    {
        Mark {
            side,
            length: self.length(side),
            is_whole: !self.has_hole(other(side)),
            when: self.sides.watch.when,
            high: self.high(side),
            closed,
        }
    }

    /// Marks in the opening where a segment's bytes end, and whether its sender closes with it.
    fn keep_mark(
        &mut self,
        side: Side,
        segment: &Segment,
        closed: Option<Means>,
    ) -> Result<(), AllocError>
        ensures rest { self.new ≡ record self.old { sides = record self.old.sides { marks = self.new.sides.marks } } }
        ensures marked { OnOk result ((a b : Past) → IsTalk a b self.old → (marks : List Mark) × (is_in_opening self.old ≡ true
            → IsMarkedBy (is_plain_by segment.now.payload.now closed) self.old.sides.watch.when side closed a b self.old marks)
            × (marks_of self.new ≡ marks_of self.old ++ marks)) }
    {
        if is_plain(segment, closed) || !self.sides.a.is_opening() {
            return Ok(());
        }
        let mark = self.mark(side, closed);
        self.sides.marks.push(mark)?;
        Ok(())
    }

    /// Tells whether a side has begun a handshake.
    pub(crate) fn is_torrent(&self) -> bool
        ensures { (a b : Past) → IsTalk a b self.now → HasBegun a b result }
    {
        let a = self.start(Side::A);
        let b = self.start(Side::B);
        a.is_some() || b.is_some()
    }

    /// Returns how far a side's captured bytes reach, from its handshake on.
    fn reach(&self, side: Side) -> u64
        ensures { (a b : Past) → IsTalk a b self.now → IsReachOf side a b self.now result }
    {
        let start = self.start(side).unwrap_or(0);
        self.high(side).saturating_sub(start as u64)
    }

    /// Appends the rows of what a side did with a segment besides items, after the opening.
    fn show(
        &mut self,
        side: Side,
        before: Option<Refusal>,
        closed: Option<Means>,
    ) -> Result<(), AllocError>
        ensures deeds { OnOk result (is_in_opening self.old ≡ false → (deeds : Deeds)
            × Appends (deed_rows self.old.sides.watch.rows.heading self.old.sides.watch.when side deeds) self.old.sides.watch.rows self.new.sides.watch.rows
            × ((a b : Past) → IsTalk a b self.old → AreDeeds side before closed a b self.old deeds)) }
        ensures opening { is_in_opening self.old ≡ true → self.new ≡ self.old }
        ensures rest { self.new ≡ record self.old { sides = record self.old.sides { watch = record self.old.sides.watch { rows = self.new.sides.watch.rows } } } }
    {
        if self.sides.a.is_opening() {
            return Ok(());
        }
        if !self.is_torrent() {
            return Ok(());
        }
        let now = self.direction(side).refusal();
        let offset = self.reach(side);
        self.sides.watch.show(side, before, now, offset, closed)?;
        Ok(())
    }

    /// Notes whether a segment with these flags closes the connection, and whether that is over.
    fn note(&mut self, side: Side, flags: Flags, when: When)
        ensures closes { (a b : Past) → IsTalk a b self.old
            → Closes flags when side a b (flow_of A self.old) (flow_of B self.old) self.old.closing self.new.closing }
        ensures rest { self.new ≡ record self.old { closing = self.new.closing } }
    {
        let now = Closed {
            side,
            by_reset: flags.rst,
            when,
            high_a: self.sides.a.flow.high(),
            high_b: self.sides.b.flow.high(),
        };
        let over = is_end(
            flags.rst,
            self.sides.a.flow.is_closed(),
            self.sides.b.flow.is_closed(),
        );
        self.closing.close(flags, now);
        self.closing.end(over, when.nanos);
    }

    /// Tells whether a segment of a side is a stray RST: one with a number that the other side can't expect next.
    pub(crate) fn is_stray_reset(&self, side: Side, segment: &Segment) -> bool
        ensures { (a b : Past) → IsTalk a b self.now → IsStrayReset segment.now (of_side side a b) result }
    {
        segment.flags.rst && !self.direction(side).flow.may_be_next(segment.sequence)
    }

    /// Tells whether a segment of a side is a stray: such a RST, or another segment that isn't in the window of the other side.
    pub(crate) fn is_stray(&self, side: Side, segment: &Segment) -> bool
        ensures { (a b : Past) → IsTalk a b self.now → IsStray segment.now (of_side side a b) result }
    {
        let flow = &self.direction(side).flow;
        if segment.flags.rst {
            !flow.may_be_next(segment.sequence)
        } else {
            flow.passes(&given_of(segment))
        }
    }

    /// Takes the next segment; the watch has its packet.
    fn take_next(
        &mut self,
        segment: &Segment,
        when: When,
        room: &mut Room,
    ) -> Result<(), AllocError>
        ensures taken { OnOk result ((a b : Past) → self.old.sides.watch.when ≡ when → IsTalk a b self.old → (took : Takes segment.now when a b self.old self.new)
            × (is_in_opening self.old ≡ true → HasSettled segment.now when a b self.old self.new took self.old.sides.watch.rows self.new.sides.watch.rows)
            × (room.old.out.items ≡ [] → (side : Side) → room.old.wanted ≡ Some side
            → SendsOn (is_in_opening self.old) (of_side side a b) (is_in_opening self.new) (of_side side took.a' took.b') room.new.out.items)
            × ((o : is_in_opening self.old ≡ false)
            → ShowsTurn (turn_by when (took.said o) (took.did o)) self.old self.old.sides.watch.rows self.new.sides.watch.rows)) }
        ensures ends { self.new.ends ≡ self.old.ends }
        ensures terms { self.new.terms ≡ self.old.terms }
        ensures began { OnOk result (self.new.courses.first ≡ option_or self.old.courses.first (Some when)) }
        ensures is_lost { self.new.is_lost ≡ self.old.is_lost }
        ensures room { room.new ≡ record room.old { out = room.new.out } }
    {
        let side = self.ends.sender(segment);
        let stray = self.is_stray(side, segment);
        let flags = heeded(segment.flags, stray);
        let before = self.direction(side).refusal();
        let length = self.length(side);
        self.sides.exchange(side, segment, room)?;
        let closed = self.go_on(side, length, segment, flags, stray, when);
        self.keep_mark(side, segment, closed)?;
        self.show(side, before, closed)?;
        self.sides.cut(flags, &self.closing);
        self.note(side, flags, when);
        self.sides.settle(&self.terms, room)?;
        Ok(())
    }

    /// Takes the next segment of the connection, in the order of capture.
    ///
    /// In the opening it may end that: then both sides have described themselves, or have sent 1 MiB, or 4,096 segments came.
    ///
    /// Rows are appended to those of the room: after the opening a row for each item that the segment completes, then one for the
    /// refusal, if the stream is refused with it, and one if the side closes with it; at the end of the opening the rows of all that
    /// came in it.
    ///
    /// A RST that the other side couldn't take closes nothing, and isn't the connection's end (RFC 9293 3.5.3). Another segment that isn't in
    /// the other side's window is passed over with its FIN or SYN (RFC 9293 3.4).
    ///
    /// If the room wants a side, it has the bytes that this segment adds to that side's stream; in the opening there are none, and at
    /// its end all that came in it, from the handshake on, or from the first byte if no handshake started in it.
    ///
    /// # Errors
    /// `AllocError` when out of memory. The connection is lost then: it takes nothing more, and nothing is promised of what it tells.
    /// The room has no rows then.
    pub fn take(&mut self, segment: &Segment, when: When, room: &mut Room) -> Result<(), AllocError>
        ensures taken { OnOk result ((a b : Past) → IsTalk a b self.old → Takes segment.now when a b self.old self.new) }
        ensures all { OnOk result ((a b : Past) → IsTalk a b self.old
            → TakesAll segment.now when a b self.old self.new (rows_in room.old) (rows_in room.new) (wanted_in room.old) (sent_in room.new)) }
        ensures wanted { wanted_in room.new ≡ wanted_in room.old }
        ensures began { OnOk result (began_with self.new ≡ option_or (began_with self.old) (Some when)) }
        ensures rows { OnOk result ((a b : Past) → IsTalk a b self.old → (rows : List Shown) × Appends rows (rows_in room.old) (rows_in room.new)) }
        ensures none { OnErr result (HasNone (rows_in room.old) (rows_in room.new)) }
        ensures unsent { OnErr result (sent_in room.new ≡ []) }
        ensures there { OnOk result (is_lost self.new ≡ false) }
        ensures lost { OnErr result (is_lost self.new ≡ true) }
        ensures stays { is_lost self.old ≡ true → result ≡ Err alloc_error }
        ensures ends { ends_of self.new ≡ ends_of self.old }
        ensures terms { terms_of self.new ≡ terms_of self.old }
    {
        let heading = room.rows.heading;
        room.out.clear();
        if self.is_lost {
            room.rows.begin(heading);
            return Err(AllocError);
        }
        self.is_lost = true;
        self.sides.watch.swap_rows(&mut room.rows);
        self.sides.watch.come_to(when);
        let taken = self.take_next(segment, when, room);
        self.sides.watch.swap_rows(&mut room.rows);
        match taken {
            Ok(()) => {
                self.is_lost = false;
                Ok(())
            }
            Err(error) => {
                room.rows.begin(heading);
                room.out.clear();
                Err(error)
            }
        }
    }

    /// Ends the opening of a connection that is over, so that what came in it is judged. Its rows are appended to those of the room.
    ///
    /// If the room wants a side, it has what that side sent in the opening, as after [`Talk::take`]; without an opening, nothing.
    ///
    /// # Errors
    /// `AllocError` when out of memory. The connection is lost then, and the room has no rows.
    pub fn end_opening(&mut self, room: &mut Room) -> Result<(), AllocError>
        ensures kept { OnOk result ((a b : Past) → IsTalk a b self.old → IsTalk a b self.new) }
        ensures cuts { OnOk result ((a b : Past) (side : Side) → IsTalk a b self.old → cut_of side self.new ≡ cut_of side self.old) }
        ensures flows { OnOk result ((side : Side) → flow_of side self.new ≡ flow_of side self.old) }
        ensures over { OnOk result (is_in_opening self.new ≡ false) }
        ensures watch { OnOk result (is_in_opening self.old ≡ false → watch_of self.new ≡ watch_of self.old) }
        ensures directions { OnOk result (is_in_opening self.old ≡ false → (side : Side) → direction_of side self.new ≡ direction_of side self.old) }
        ensures closing { closing_of self.new ≡ closing_of self.old }
        ensures began { began_with self.new ≡ began_with self.old }
        ensures grown { (k : Side) → grown_with k self.new ≡ grown_with k self.old }
        ensures opened { OnOk result ((a b : Past) → IsTalk a b self.old → is_in_opening self.old ≡ true
            → HasOpened (marks_of self.old) a b (direction_of A self.new).stage (direction_of B self.new).stage (watch_of self.new) (rows_in room.old) (rows_in room.new)) }
        ensures open_already { OnOk result (is_in_opening self.old ≡ false → rows_in room.new ≡ rows_in room.old) }
        ensures rows { OnOk result ((a b : Past) → IsTalk a b self.old → (rows : List Shown) × Appends rows (rows_in room.old) (rows_in room.new)) }
        ensures none { OnErr result (HasNone (rows_in room.old) (rows_in room.new)) }
        ensures unsent { OnErr result (sent_in room.new ≡ []) }
        ensures there { OnOk result (is_lost self.new ≡ false) }
        ensures lost { OnErr result (is_lost self.new ≡ true) }
        ensures stays { is_lost self.old ≡ true → result ≡ Err alloc_error }
        ensures ends { ends_of self.new ≡ ends_of self.old }
        ensures terms { terms_of self.new ≡ terms_of self.old }
        ensures sent { OnOk result ((a b : Past) (side : Side) → IsTalk a b self.old → wanted_in room.old ≡ Some side
            → SendsOn (is_in_opening self.old) (of_side side a b) (is_in_opening self.new) (of_side side a b) (sent_in room.new)) }
        ensures wanted { wanted_in room.new ≡ wanted_in room.old }
    {
        let heading = room.rows.heading;
        room.out.clear();
        if self.is_lost {
            room.rows.begin(heading);
            return Err(AllocError);
        }
        self.is_lost = true;
        self.sides.watch.swap_rows(&mut room.rows);
        let opened = self.sides.open(&self.terms, room);
        self.sides.watch.swap_rows(&mut room.rows);
        match opened {
            Ok(()) => {
                self.is_lost = false;
                Ok(())
            }
            Err(error) => {
                room.rows.begin(heading);
                room.out.clear();
                Err(error)
            }
        }
    }

    /// Tells whether memory ran out, so that nothing more is taken.
    pub fn is_lost(&self) -> bool
        ensures { result ≡ is_lost self.now }
    {
        self.is_lost
    }

    /// Tells whether the opening isn't over.
    pub fn is_opening(&self) -> bool
        ensures { result ≡ is_in_opening self.now }
    {
        self.sides.a.is_opening()
    }

    /// Returns the addresses of both sides.
    pub fn ends(&self) -> Ends
        ensures { result ≡ ends_of self.now }
    {
        self.ends
    }

    /// Returns what is kept of a side's stream.
    pub(crate) fn direction(&self, side: Side) -> &Direction
        ensures { result.now ≡ direction_of side self.now }
    {
        self.sides.direction(side)
    }
}
