//! The connections of a capture, and the reports of those that are over.
ghost use Rattle.std.specs.Prelude.{◌≡◌, ◌∷◌, ◌++◌, [], ◌+◌, ◌<◌, ◌≤◌, ℕ, List, Option, length, false, true, None, Some, IfOk, OnOk, OnErr};
ghost use Rattle.std.specs.Map.{lookup};
ghost use Rattle.std.specs.List.{All, Contains};
ghost use Rattle.std.specs.List.Sorted.{IsNonDecreasing, IsPermutation};
ghost use Rattle.bt_io.specs.Seen.{TargetSeen};
ghost use Rattle.bt_capture.specs.Arrivals.{AreEarlier, Arrival, Clock, arrived, clock_of, with_packet};
ghost use Rattle.bt_capture.specs.Connections.{Begins, IsOpen, is_opener};
ghost use Rattle.bt_remarks.specs.declared.events.Side.{Side};
ghost use Rattle.bt_talk.specs.Pasts.{Past};
ghost use Rattle.bt_talk.specs.Rooms.{heading_by, rows_in};
ghost use Rattle.bt_talk.specs.Rows.{Shown, shown_texts};
ghost use Rattle.bt_talk.specs.Talks.{IsTalk, closing_of, is_lost};
ghost use Rattle.bt_capture.specs.Shown.{AreOfSegment};
ghost use Rattle.bt_capture.specs.Sending.{HasSent, IsSentOff};
ghost use Rattle.bt_capture.specs.Rowed.{HasShown, ShowsOn, heading_of};
ghost use Rattle.bt_capture.specs.Forms.{absent_from, handed, is_stream, showing_by, wanted_by};
ghost use Rattle.bt_capture.specs.Bounds.{IsBounded, IsCounted};
ghost use Rattle.bt_capture.specs.Following.{Phase, Coming, Cause, FollowsIn, GoesIn, Follows, Goes, Finds, MayEnd, Since};
ghost use Rattle.bt_capture.specs.Following.{asked_of, given_up_by, left_in, numbers, over_for, since, with_over};
ghost use Rattle.bt_capture.specs.Tellings.{TellsOn};
ghost use Rattle.bt_capture.specs.Tables.{Held, IsQuiet, same_pair, IsApart};
ghost use Rattle.bt_capture.specs.declared.pair.Pair.{Pair};

use crate::connection::Connection;
use crate::ended::Ended;
use crate::ending::Form;
use crate::pair::Pair;
use crate::table::Table;
use crate::telling::Teller;
use bt_packet::Segment;
use bt_report::Left;
use bt_talk::{Room, Talk, Terms, When};
use std::alloc::{AllocError, Global};
use std::hash::RandomState;

/// How many bytes of memory the connections may take together. Past that one of them is over.
///
/// The process takes more: what is given back isn't all used again, if it is in other parts than are asked for next.
const BYTES: u64 = 128_000_000;

/// How many connections there may be.
const MOST: usize = 16_384;

/// How many of them may be silent: no byte of them came.
const SILENT: usize = 8_192;

/// Tells whether a segment between the same ends begins another connection.
///
/// It does if this one ended and four seconds without a segment have passed, or if it is another SYN. If memory ran out with this one
/// its state isn't known: each SYN without ACK does then, and nothing else.
fn begins_another(talk: &Talk, segment: &Segment, when: When) -> bool
    ensures there { (link : Option ℕ) → is_lost talk.now ≡ false → (a b : Past) → IsTalk a b talk.now → Begins result (arrived link segment.now when) a b talk.now }
    ensures lost { is_lost talk.now ≡ true → result ≡ is_opener (arrived None segment.now when) }
{
    if talk.is_lost() {
        return segment.flags.syn && !segment.flags.ack;
    }
    if talk.is_over(when.nanos) {
        return true;
    }
    talk.opens_again(segment)
}

/// How a connection is over, for its report and for the counts.
#[derive(Clone, Copy, PartialEq, Eq, Debug)]
pub enum Over {
    /// It had ended, or the capture did.
    Open,
    /// There were too many at once, and it had ended less than four seconds before.
    Early,
    /// There were too many at once, and it hadn't ended.
    Unread,
    /// Another connection began between the same ends.
    Replaced,
}

impl Over {
    /// Returns how the connection was left, if it hadn't ended.
    fn left(self) -> Left
        ensures { result ≡ left_in self }
    {
        match self {
            Over::Open | Over::Early => Left::Open,
            Over::Unread => Left::Unread,
            Over::Replaced => Left::Replaced,
        }
    }
}

/// Tells how a connection is over that is given up at this packet, since there are too many.
///
/// If memory ran out with it nobody knows whether it had ended: it counts as one that hadn't.
fn left_given_up(talk: &Talk, when: When) -> Over
    ensures { result ≡ over_for (given_up_by (is_lost talk.now) (closing_of talk.now).over when) }
{
    if talk.is_lost() {
        return Over::Unread;
    }
    let in_time = talk.is_over(when.nanos);
    if in_time {
        Over::Open
    } else if talk.has_ended() {
        Over::Early
    } else {
        Over::Unread
    }
}

/// How many connections weren't read to their end, or were given up early.
#[derive(Clone, Copy, PartialEq, Eq, Debug)]
pub struct Losses {
    /// Memory ran out with them.
    pub memory: u64,
    /// There were too many at once, and they hadn't ended.
    pub crowd: u64,
    /// There were too many at once, and they had ended less than four seconds before.
    pub early: u64,
}

impl Losses {
    /// Returns these and a connection that is over so.
    fn with(self, over: Over) -> Losses
        ensures { result ≡ with_over over self }
    {
        match over {
            Over::Early => Losses {
                memory: self.memory,
                crowd: self.crowd,
                early: self.early.saturating_add(1),
            },
            Over::Unread => Losses {
                memory: self.memory,
                crowd: self.crowd.saturating_add(1),
                early: self.early,
            },
            Over::Open | Over::Replaced => self,
        }
    }

    /// Returns these and a connection that is over so, if it was told.
    fn with_told(self, told: &Result<(), AllocError>, over: Over) -> Losses
        ensures some { OnOk told.now (result ≡ with_over over self) }
        ensures none { OnErr told.now (result ≡ self) }
    {
        match told {
            Ok(()) => self.with(over),
            Err(_) => self,
        }
    }
}

/// The connections of a capture, and what is told of them.
///
/// Those that tell take the time of the first packet as `from`.
#[derive(Drop)]
pub struct Connections {
    alloc: Global,
    terms: Terms,
    table: Table,
    /// About how many bytes of memory those in the table take.
    bytes: u64,
    /// Those that have ended.
    ended: Ended,
    /// How many connections have begun.
    begun: u64,
    pub teller: Teller,
    room: Room,
    pub lost: Losses,
}

impl Connections {
    /// Starts before a capture's first packet. `keys` are those of the table of connections.
    ///
    /// # Errors
    /// `AllocError` when out of memory.
    pub fn new(
        alloc: Global,
        keys: RandomState,
        terms: Terms,
        form: Form,
    ) -> Result<Connections, AllocError>
        ensures follows { IfOk result (λ all. (start : Since) → Follows start start.target (clock_of []) [] all.table all) }
        ensures asked { IfOk result (λ all. asked_of all ≡ record { terms = terms; form = form }) }
        ensures bounded { IfOk result IsBounded }
    {
        Ok(Connections {
            alloc,
            terms,
            table: Table::new(alloc, keys)?,
            bytes: 0,
            ended: Ended::new(alloc),
            begun: 0,
            teller: Teller::new(alloc, form),
            room: Room::new(alloc),
            lost: Losses {
                memory: 0,
                crowd: 0,
                early: 0,
            },
        })
    }

    /// Tells of a connection that is over, if a byte of it was captured.
    ///
    /// `over` says how it is over, and `from` is the time of the first packet.
    ///
    /// # Errors
    /// `AllocError` when out of memory. The connection isn't told then.
    pub fn report(
        &mut self,
        mut connection: Box<Connection>,
        over: Over,
        from: u64,
    ) -> Result<(), AllocError>
        ensures goes { (ph : Phase) (start now : TargetSeen) (clock : Clock) (came : List Arrival) (p : Pair) (es : List (Pair × Held)) (cause : Cause)
            → lookup (same_pair p) es ≡ None → MayEnd ph clock came cause p connection.value → over ≡ over_for cause
            → FollowsIn ph (since start from) now clock came ((p, connection) ∷ es) self.old
            → GoesIn ph (since start from) now clock came es self.new result }
        ensures sent { OnOk result ((terms : Terms) (taken : List Arrival) (side : Side) (sent : List ℕ) → connection.value.has_payload ≡ true
            → wanted_by self.old.teller.form connection.value.number ≡ Some side → HasSent side sent terms taken [] connection.value
            → IsSentOff side sent terms taken connection.value self.old self.new) }
        ensures others { OnOk result (is_stream self.old.teller.form ≡ true → wanted_by self.old.teller.form connection.value.number ≡ None
            → (terms : Terms) (taken : List Arrival) → IsOpen terms taken [] connection.value → self.new.teller.text.items ≡ self.old.teller.text.items) }
        ensures table { self.new.table ≡ self.old.table }
        ensures bytes { self.new.bytes ≡ self.old.bytes }
        ensures asked { asked_of self.new ≡ asked_of self.old }
    {
        if connection.is_silent() {
            self.lost = self.lost.with(over);
            return Ok(());
        }
        let wanted = self.teller.wanted(connection.number);
        self.room
            .turn_to(self.teller.showing(), connection.number, from, wanted);
        match connection.talk.end_opening(&mut self.room) {
            Ok(()) => {
                let told = self.teller.report(
                    &connection.talk,
                    connection.number,
                    from,
                    over.left(),
                    &mut self.room,
                );
                self.lost = self.lost.with_told(&told, over);
                told
            }
            Err(_) => {
                self.lost.memory = self.lost.memory.saturating_add(1);
                Ok(())
            }
        }
    }

    /// Ends the connection that was used least recently, if there is one.
    fn end_oldest(&mut self, when: When, from: u64) -> Result<(), AllocError>
        ensures goes { (start now : TargetSeen) (clock : Clock) (came : List Arrival) → Contains clock.packets when → when.packet ≡ clock.number
            → All (λ x. x.when.packet ≤ when.packet) came → Follows (since start from) now clock came self.old.table self.old
            → Goes (since start from) now clock came self.new.table self.new result }
        ensures shorter { 0 < length self.old.table → length self.new.table < length self.old.table }
        ensures counted { IsCounted self.old → IsCounted self.new }
        ensures asked { asked_of self.new ≡ asked_of self.old }
    {
        match self.table.take_oldest() {
            Some((_, oldest)) => {
                self.bytes = self.bytes.saturating_sub(oldest.size());
                let over = left_given_up(&oldest.talk, when);
                self.report(oldest, over, from)
            }
            None => Ok(()),
        }
    }

    /// Tells whether there are too many connections, or they take too much memory together.
    fn is_full(&self) -> bool
        ensures bytes { result ≡ false → self.now.bytes ≤ 128000000 }
        ensures count { result ≡ false → length self.now.table ≤ 16384 }
    {
        self.bytes > BYTES || self.table.len() > MOST || self.table.count_silent() > SILENT
    }

    /// Ends connections, as long as there are too many, or they take too much memory together: first the silent ones.
    ///
    /// The one that was used least recently is the first.
    fn shrink(&mut self, when: When, from: u64) -> Result<(), AllocError>
        ensures goes { (start now : TargetSeen) (clock : Clock) (came : List Arrival) → Contains clock.packets when → when.packet ≡ clock.number
            → All (λ x. x.when.packet ≤ when.packet) came → Follows (since start from) now clock came self.old.table self.old
            → Goes (since start from) now clock came self.new.table self.new result }
        ensures bounded { OnOk result (IsCounted self.old → IsBounded self.new) }
        ensures asked { asked_of self.new ≡ asked_of self.old }
    {
        'oldest: while self.is_full() && self.table.len() > 0 {
            self.end_oldest(when, from)?;
        }
        Ok(())
    }

    /// Puts a connection into the table, which has none of the same ends.
    ///
    /// # Errors
    /// `AllocError` when out of memory.
    fn put(
        &mut self,
        pair: Pair,
        connection: Box<Connection>,
        when: When,
        from: u64,
    ) -> Result<(), AllocError>
        requires { lookup (same_pair pair) self.old.table ≡ None }
        ensures goes { (start now : TargetSeen) (clock : Clock) (came : List Arrival) → Contains clock.packets when → when.packet ≡ clock.number
            → All (λ x. x.when.packet ≤ when.packet) came → Follows (since start from) now clock came ((pair, connection) ∷ self.old.table) self.old
            → Goes (since start from) now clock came self.new.table self.new result }
        ensures bounded { OnOk result (IsBounded self.old → IsBounded self.new) }
        ensures asked { asked_of self.new ≡ asked_of self.old }
    {
        self.bytes = self.bytes.saturating_add(connection.size());
        self.table.put(pair, connection)?;
        self.shrink(when, from)
    }

    /// Begins the connection of a segment.
    fn begin(&mut self, segment: &Segment) -> Result<Box<Connection>, AllocError>
        ensures finds { (link : Option ℕ) (start : Since) (now : TargetSeen) (clock : Clock) (came : List Arrival) (when : When) (p : Pair) (es : List (Pair × Held))
            → lookup (same_pair p) es ≡ None → let x = arrived link segment.now when in FollowsIn (Coming p x) start now clock came es self.old
            → Finds start now clock came x p es self.new result }
        ensures number { IfOk result (λ c. c.value.number ≡ self.old.begun) }
        ensures sent { IfOk result (λ c. (link : Option ℕ) (when : When) (side : Side) → HasSent side [] self.old.terms [] (arrived link segment.now when ∷ []) c.value) }
        ensures table { self.new.table ≡ self.old.table }
        ensures bytes { self.new.bytes ≡ self.old.bytes }
        ensures asked { asked_of self.new ≡ asked_of self.old }
    {
        let connection = Connection::new(self.alloc, self.begun, segment, self.terms);
        self.begun = self.begun.saturating_add(1);
        match Box::new(self.alloc, connection) {
            Ok(connection) => Ok(connection),
            Err(_) => Err(AllocError),
        }
    }

    /// Returns the connection to which a segment belongs: this one between the same ends, or another that it begins.
    ///
    /// This one is over if it was closed four seconds ago, or if the segment begins another.
    fn goes_on(
        &mut self,
        connection: Box<Connection>,
        segment: &Segment,
        when: When,
        from: u64,
    ) -> Result<Box<Connection>, AllocError>
        ensures finds { (link : Option ℕ) (start now : TargetSeen) (clock : Clock) (came : List Arrival) (p : Pair) (es : List (Pair × Held))
            → lookup (same_pair p) es ≡ None → AreEarlier clock when.packet → when.packet ≡ clock.number
            → Follows (since start from) now clock came ((p, connection) ∷ es) self.old
            → Finds (since start from) now clock came (arrived link segment.now when) p es self.new result }
        ensures table { self.new.table ≡ self.old.table }
        ensures bytes { self.new.bytes ≡ self.old.bytes }
        ensures asked { asked_of self.new ≡ asked_of self.old }
    {
        if !begins_another(&connection.talk, segment, when) {
            return Ok(connection);
        }
        self.report(connection, Over::Replaced, from)?;
        self.begin(segment)
    }

    /// Takes out the connection to which a segment belongs, or begins it.
    fn connection_of(
        &mut self,
        pair: Pair,
        segment: &Segment,
        when: When,
        from: u64,
    ) -> Result<Box<Connection>, AllocError>
        ensures finds { (link : Option ℕ) (start now : TargetSeen) (clock : Clock) (came : List Arrival) → AreEarlier clock when.packet → when.packet ≡ clock.number
            → Follows (since start from) now clock came self.old.table self.old → Finds (since start from) now clock came (arrived link segment.now when) pair self.new.table self.new result }
        ensures absent { lookup (same_pair pair) self.new.table ≡ None }
        ensures bounded { IsBounded self.old → IsBounded self.new }
        ensures asked { asked_of self.new ≡ asked_of self.old }
    {
        match self.table.take_out(pair) {
            Some(connection) => {
                self.bytes = self.bytes.saturating_sub(connection.size());
                self.goes_on(connection, segment, when, from)
            }
            None => self.begin(segment),
        }
    }

    /// Gives a segment to its connection, and tells the rows of it.
    ///
    /// # Errors
    /// `AllocError` when out of memory. The rows aren't told then.
    fn give(
        &mut self,
        pair: Pair,
        connection: &mut Connection,
        segment: &Segment,
        when: When,
        from: u64,
    ) -> Result<(), AllocError>
        ensures takes { (link : Option ℕ) (terms : Terms) (taken : List Arrival) → let a = arrived link segment.now when in IsOpen terms taken (a ∷ []) connection.old
            → IsOpen terms (taken ++ a ∷ []) [] connection.new }
        ensures tells { (link : Option ℕ) (terms : Terms) (taken : List Arrival) → IsOpen terms taken (arrived link segment.now when ∷ []) connection.old
            → TellsOn self.old.teller self.new.teller }
        ensures text { OnOk result (self.new.teller.text.items ≡ (self.old.teller.text.items ++ (rows_in self.new.room).text.items)
            ++ handed self.old.teller.form connection.new.number self.new.room) }
        ensures told { OnOk result ((link : Option ℕ) (terms : Terms) (taken : List Arrival) → IsOpen terms taken (arrived link segment.now when ∷ []) connection.old
            → is_stream self.old.teller.form ≡ true
            → self.new.teller.text.items ≡ self.old.teller.text.items ++ handed self.old.teller.form connection.new.number self.new.room) }
        ensures kept { OnErr result ((link : Option ℕ) (terms : Terms) (taken : List Arrival) → IsOpen terms taken (arrived link segment.now when ∷ []) connection.old
            → is_stream self.old.teller.form ≡ true → self.new.teller.text.items ≡ self.old.teller.text.items) }
        ensures shows { (a b : Past) → IsTalk a b connection.old.talk → is_lost connection.new.talk ≡ false
            → AreOfSegment (heading_by (showing_by self.old.teller.form) connection.old.number from) segment.now when a b
            connection.old.talk connection.new.talk (rows_in self.new.room) }
        ensures shown { OnOk result ((link : Option ℕ) (terms : Terms) (taken : List Arrival) (before : List Shown) → let a = arrived link segment.now when in
            let h = heading_of self.old.teller.form connection.old.number from in HasShown h before terms taken (a ∷ []) connection.old
            → (rows : List Shown) × ShowsOn h before rows terms taken a connection.old connection.new
            × (self.new.teller.text.items ≡ self.old.teller.text.items ++ (shown_texts (showing_by self.old.teller.form) rows
            ++ handed self.old.teller.form connection.new.number self.new.room))) }
        ensures number { connection.new.number ≡ connection.old.number }
        ensures sent { (link : Option ℕ) (terms : Terms) (taken : List Arrival) (side : Side) (sent : List ℕ) → let a = arrived link segment.now when in
            wanted_by self.old.teller.form connection.old.number ≡ Some side → HasSent side sent terms taken (a ∷ []) connection.old
            → HasSent side (sent ++ handed self.old.teller.form connection.new.number self.new.room) terms (taken ++ a ∷ []) [] connection.new }
        ensures form { self.new.teller.form ≡ self.old.teller.form }
        ensures rest { self.new ≡ record self.old { teller = self.new.teller; room = self.new.room; ended = self.new.ended } }
    {
        let wanted = self.teller.wanted(connection.number);
        self.room
            .turn_to(self.teller.showing(), connection.number, from, wanted);
        let had_ended = connection.talk.has_ended();
        connection.take(segment, when, &mut self.room);
        let has_ended = connection.talk.has_ended();
        self.ended.note_end(pair, had_ended, has_ended, when.nanos);
        self.teller.show(connection.number, &self.room)
    }

    /// Ends the connection of these ends, which is over, if there is one.
    fn end(&mut self, pair: Pair, from: u64) -> Result<(), AllocError>
        ensures goes { (start now : TargetSeen) (clock : Clock) (came : List Arrival) (at : When) → IsQuiet pair at.nanos self.old.table
            → Contains clock.packets at → at.packet ≡ clock.number → All (λ x. x.when.packet ≤ at.packet) came → Follows (since start from) now clock came self.old.table self.old
            → Goes (since start from) now clock came self.new.table self.new result }
        ensures bounded { IsBounded self.old → IsBounded self.new }
        ensures asked { asked_of self.new ≡ asked_of self.old }
    {
        match self.table.take_out(pair) {
            Some(connection) => {
                self.bytes = self.bytes.saturating_sub(connection.size());
                self.report(connection, Over::Open, from)
            }
            None => Ok(()),
        }
    }

    /// Ends a connection that is over at this time, if there is one.
    ///
    /// With each packet one is looked at of those that have ended.
    pub fn end_quiet(&mut self, when: When, from: u64) -> Result<(), AllocError>
        ensures goes { (start now : TargetSeen) (clock : Clock) (came : List Arrival) → Contains clock.packets when → when.packet ≡ clock.number
            → All (λ x. x.when.packet ≤ when.packet) came → Follows (since start from) now clock came self.old.table self.old
            → Goes (since start from) now clock came self.new.table self.new result }
        ensures bounded { IsBounded self.old → IsBounded self.new }
        ensures asked { asked_of self.new ≡ asked_of self.old }
    {
        let Some(pair) = self.ended.take_due(when.nanos) else {
            return Ok(());
        };
        match self.table.is_over(pair, when.nanos) {
            Some(true) => self.end(pair, from),
            Some(false) => {
                self.ended.note(pair, when.nanos);
                Ok(())
            }
            None => Ok(()),
        }
    }

    /// Takes a segment of TCP, or of the connection of uTP with the number `link`.
    pub fn take_segment(
        &mut self,
        segment: &Segment,
        link: Option<u64>,
        when: When,
        from: u64,
    ) -> Result<(), AllocError>
        ensures goes { (start now : TargetSeen) (clock : Clock) (came : List Arrival) → AreEarlier clock when.packet → when.packet ≡ clock.number
            → All (λ x. x.when.packet ≤ when.packet) came → Follows (since start from) now clock came self.old.table self.old
            → Goes (since start from) now (with_packet when clock) (came ++ arrived link segment.now when ∷ []) self.new.table self.new result }
        ensures bounded { OnOk result (IsBounded self.old → IsBounded self.new) }
        ensures asked { asked_of self.new ≡ asked_of self.old }
    {
        let pair = Pair::of(segment.source, segment.target).with_link(link);
        let mut connection = self.connection_of(pair, segment, when, from)?;
        self.give(pair, &mut connection, segment, when, from)?;
        self.put(pair, connection, when, from)
    }

    /// Takes out the connections that aren't over, in the order of their numbers.
    ///
    /// # Errors
    /// `AllocError` when out of memory.
    pub fn rest(&mut self) -> Result<Vec<(Pair, Box<Connection>)>, AllocError>
        ensures all { IfOk result (λ all. IsPermutation self.old.table all.items) }
        ensures apart { IfOk result (λ all. IsApart all.items) }
        ensures sorted { IfOk result (λ all. IsNonDecreasing (numbers all.items)) }
        ensures same { self.new ≡ record self.old { table = self.new.table } }
    {
        let mut rest = Vec::with_capacity(self.alloc, self.table.len())?;
        'table: while let Some(oldest) = self.table.take_oldest() {
            rest.push(oldest)?;
        }
        rest.sort_by_key(|(_, connection)| connection.number)?;
        Ok(rest)
    }

    /// Returns the number of the connection whose stream is told, if none of that number has begun.
    pub fn absent(&self) -> Option<u64>
        ensures { result ≡ absent_from self.now.teller.form self.now.begun }
    {
        match self.teller.form.stream {
            Some((number, _)) => {
                if self.begun <= number {
                    Some(number)
                } else {
                    None
                }
            }
            None => None,
        }
    }
}
