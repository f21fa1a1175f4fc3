//! One direction of a captured TCP connection.
ghost use Rattle.std.specs.Prelude.{◌≡◌, ℕ, ◌+◌, ◌<◌, ◌≤◌, ◌^◌, List, [], ◌∷◌, ◌++◌, length, IsSome, IfOk, OnOk, OnErr, take, drop, true, false};
ghost use Rattle.std.specs.List.{slice_rotate_right};
ghost use Rattle.bt_flow.specs.Counts.{counts, is_closed_at, from_base};

use crate::noted::Noted;
use crate::stream::Stream;
use crate::window::MOST;
use bt_tcp::{Gap, Gaps, Half, Spans};
use std::alloc::{AllocError, Global};

/// The last place.
const LAST: u64 = 0x4000_0000_0000_0000;

/// A segment as it was captured (RFC 9293 3.1).
#[derive(Clone, Copy)]
pub struct Given<'a> {
    pub sequence: u32,
    pub syn: bool,
    pub fin: bool,
    /// The captured bytes.
    pub payload: &'a [u8],
    /// How many data bytes it had.
    pub length: u64,
}

/// One direction of a connection, with the memory that it owns.
#[derive(Drop)]
pub struct Flow {
    alloc: Global,
    half: Half,
    /// The stream, from the first captured byte on.
    stream: Option<Stream>,
    /// What was captured past the first gap, from when there was one on.
    noted: Option<Noted>,
}

/// Tells whether bytes at a place count: there are some, and they end in range.
fn has_bytes(at: u64, size: usize) -> bool
    ensures { result ≡ counts at size }
{
    size > 0 && at <= LAST && size as u64 <= LAST - at
}

/// Turns the bytes from `from` on, so that the last `count` of them come first.
fn turn(bytes: &mut [u8], from: usize, count: usize)
    requires { from + count ≤ length bytes.old }
    ensures { bytes.new ≡ take from bytes.old ++ slice_rotate_right (drop from bytes.old) count }
{
    bytes[from..].rotate_right(count);
}

/// Tells whether a FIN was reached and acknowledged.
fn is_reached(fin: Option<u64>, place: Option<u64>, acked: u64) -> bool
    ensures { result ≡ is_closed_at fin place acked }
{
    match (fin, place) {
        (Some(fin), Some(place)) => fin <= place && fin < acked,
        _ => false,
    }
}

/// Returns gaps with offsets from the base.
fn offsets(gaps: Gaps, base: u64) -> Gaps
    ensures { result ≡ from_base base gaps }
{
    match gaps.first {
        Some(gap) => Gaps {
            first: Some(Gap {
                place: gap.place.saturating_sub(base),
                length: gap.length,
            }),
            count: gaps.count,
            sum: gaps.sum,
        },
        None => gaps,
    }
}

impl Flow {
    ghost use Rattle.bt_tcp.specs.Heard.{Heard, opening_of, sent_of};
    ghost use Rattle.bt_tcp.specs.Segments.{Segment};
    ghost use Rattle.bt_flow.specs.Flows.{IsFlow, FlowTakes, FlowTakesNext, HasHeard, IsPassedBy, is_left_out_of, IsLost, Begins, StreamOnly, IsBaseNow, IsPlaceNow, HasHole, IsClosed, conflicts_in, held_in, high_in, is_lost_stream, NotesFrom, NotesIn, NotesSomeIn, FillsIn, AreGapsOf, FlowPasses, IsHoleIn, MaySkip, Skips, gaps_end, past_filling, sent_within};
    ghost use Rattle.bt_flow.specs.Views.{AppendsAfter};
    ghost use Rattle.bt_flow.specs.Notes.{spans_noted};
    ghost use Rattle.bt_tcp.specs.Covered.{is_covered, AreGaps, IsFirstFrom, sent_end};
    ghost use Rattle.bt_tcp.specs.Halves.{IsHalf};
    ghost use Rattle.bt_tcp.specs.Resets.{MayBeNext};

    /// Returns a direction of which nothing was captured.
    pub fn new(alloc: Global) -> Flow
        ensures { IsFlow [] [] [] result }
    {
        Flow {
            alloc,
            half: Half::new(),
            stream: None,
            noted: None,
        }
    }

    /// Begins the stream, if it isn't there: after the SYN if that is known, else at a place.
    fn begin(&mut self, at: u64) -> Result<(), AllocError>
        ensures half { self.new.half ≡ self.old.half }
        ensures noted { self.new.noted ≡ self.old.noted }
        ensures there { OnOk result (IsSome self.new.stream) }
        ensures begins { OnOk result (Begins at self.old self.new) }
        ensures kept { IsLost self.old → IsLost self.new }
    {
        match &self.stream {
            Some(_) => Ok(()),
            None => {
                let base = self.half.base().unwrap_or(at);
                self.stream = Some(Stream::new(self.alloc, base)?);
                Ok(())
            }
        }
    }

    /// Takes bytes at a place.
    fn go_on<'a>(
        &mut self,
        at: u64,
        part: &'a [u8],
        later: &mut Vec<u8>,
    ) -> Result<&'a [u8], AllocError>
        requires end { at + length part.now < 2 ^ 63 }
        requires there { IsSome self.old.stream }
        ensures half { self.new.half ≡ self.old.half }
        ensures noted { self.new.noted ≡ self.old.noted }
        ensures taken { IfOk result (λ fresh. AppendsAfter fresh.now later.old.items later.new.items (λ more. StreamOnly at part.now self.old more self.new)) }
        ensures lost { OnErr result (IsLost self.new) }
    {
        match &mut self.stream {
            Some(stream) => stream.take(at, part, later),
            None => unreachable!(),
        }
    }

    /// Returns the first place from `next` on that is noted, if there is one.
    fn first_noted(&self, next: u64) -> Option<u64>
        ensures { IsFirstFrom (is_covered (spans_noted self.now.noted)) next result }
    {
        match &self.noted {
            Some(noted) => noted.first_from(next),
            None => None,
        }
    }

    /// Returns the place from which on a segment is noted. Once a gap is final, its places aren't noted any more.
    ///
    /// `was_lost` says whether one was final before this segment came.
    fn noted_from(&self, was_lost: bool, at: u64, end: u64) -> u64
        ensures { NotesFrom was_lost at end self.now.stream self.now.noted result }
    {
        let Some(stream) = &self.stream else {
            return at;
        };
        if !stream.is_lost() {
            return at;
        }
        let next = stream.next();
        if !was_lost {
            return at.max(next.saturating_add(1));
        }
        at.max(self.first_noted(next).unwrap_or(end))
    }

    /// Notes captured places, if some are ahead.
    fn note(&mut self, at: u64, end: u64) -> Result<(), AllocError>
        ensures half { self.new.half ≡ self.old.half }
        ensures stream { self.new.stream ≡ self.old.stream }
        ensures noted { OnOk result (NotesIn at end self.old.stream self.old.noted self.new.noted) }
        ensures some { OnOk result (NotesSomeIn at end self.old.stream self.old.noted self.new.noted) }
        ensures full { OnOk result (FillsIn at end self.old.stream self.old.noted self.new.noted) }
    {
        let Some(stream) = &self.stream else {
            return Ok(());
        };
        let (base, next) = (stream.base(), stream.next());
        if end <= next {
            return Ok(());
        }
        match &mut self.noted {
            Some(noted) => noted.note(base, next, at, end),
            None => {
                let mut noted = Noted::new(self.alloc)?;
                noted.note(base, next, at, end);
                self.noted = Some(noted);
            }
        }
        Ok(())
    }

    /// Tells whether bytes at a place are left out: they end more than `MOST` places past a gap that may still be filled.
    fn leaves_out(&self, at: u64, size: usize) -> bool
        requires { at + size < 2 ^ 63 }
        ensures is { (heard : List Heard) → IsHalf heard self.now.half → result ≡ is_left_out_of heard at size self.now.stream }
        ensures open { result ≡ true → is_lost_stream self.now.stream ≡ false }
    {
        match &self.stream {
            Some(stream) => {
                let next = stream.next();
                let reach = (at + size as u64).saturating_sub(next);
                !stream.is_lost() && reach > MOST && !self.half.is_past_filling(next)
            }
            None => false,
        }
    }

    /// Takes a segment that this side sent, which has no RST, and returns those of its bytes that come next in the stream.
    ///
    /// What follows them from the memory, since they fill a gap, is appended to `later`. So a segment in order isn't copied to it.
    ///
    /// A segment that [`Flow::passes`] is passed over. One that ends more than `MOST` places past the next byte isn't kept. The gap
    /// before it is final then, if its first byte was acknowledged, or if no acknowledgement was ever captured: nothing is handed out
    /// from then on.
    ///
    /// # Errors
    /// `AllocError` when out of memory. Nothing is promised of the direction then.
    pub fn take_next<'a>(
        &mut self,
        given: &Given<'a>,
        later: &mut Vec<u8>,
    ) -> Result<&'a [u8], AllocError>
        ensures { IfOk result (λ fresh. FlowTakesNext given.now self.old fresh.now later.old.items self.new later.new.items) }
    {
        let part = given.payload;
        let taken = self.half.take(
            given.sequence,
            given.syn,
            given.fin,
            part.len(),
            given.length,
        );
        let at = match taken {
            Ok(at) => at,
            Err(_) => return Ok(&[]),
        };
        if !has_bytes(at, part.len()) {
            return Ok(&[]);
        }
        let was_lost = self.is_lost();
        self.begin(at)?;
        if self.leaves_out(at, part.len()) {
            return Ok(&[]);
        }
        let fresh = self.go_on(at, part, later)?;
        let end = at + part.len() as u64;
        let from = self.noted_from(was_lost, at, end);
        self.note(from, end)?;
        Ok(fresh)
    }

    /// Takes a segment as [`Flow::take_next`] does, and appends all the bytes that are ready now.
    ///
    /// # Errors
    /// `AllocError` when out of memory. Nothing is promised of the direction then.
    pub fn take(&mut self, given: &Given, out: &mut Vec<u8>) -> Result<(), AllocError>
        ensures { OnOk result (FlowTakes given.now self.old out.old.items self.new out.new.items) }
    {
        let before = out.len();
        let fresh = self.take_next(given, out)?;
        out.extend_from_slice(fresh)?;
        // What follows these bytes was appended first.
        turn(out, before, fresh.len());
        Ok(())
    }

    /// Counts the missing bytes from the next place on, up to the first one that is there.
    ///
    /// They are known to be sent, and are before `acked`, if that is given.
    fn hole_to(&self, acked: Option<u64>) -> usize
        ensures hole { (heard : List Heard) → (segs : List Segment) → (out : List ℕ) → IsFlow heard segs out self.now
            → IsHoleIn (sent_within acked heard) segs out self.now.stream result }
        ensures may { 0 < result → MaySkip result self.now.stream }
    {
        match &self.stream {
            Some(stream) => {
                if stream.is_lost() {
                    return 0;
                }
                let next = stream.next();
                let sent = self.half.sent(next);
                let end = acked.unwrap_or(sent).min(sent);
                stream.count_missing(end.saturating_sub(next) as usize)
            }
            None => 0,
        }
    }

    /// Returns the length of the hole at the next place, if no segment fills it any more.
    ///
    /// Its bytes were sent and acknowledged (RFC 9293 3.4), but not captured. It ends at the first byte that is there. It is 0 if no
    /// acknowledgement was captured, and after [`Flow::is_lost`].
    pub fn hole(&self) -> usize
        ensures { (heard : List Heard) → (segs : List Segment) → (out : List ℕ) → IsFlow heard segs out self.now
            → IsHoleIn (past_filling heard) segs out self.now.stream result }
    {
        let acked = self.half.acked();
        if self.half.is_past_filling(acked) {
            return 0; // no acknowledgement was captured
        }
        self.hole_to(Some(acked))
    }

    /// Returns the length of the hole at the next place, if the connection is over.
    ///
    /// Its bytes are known to be sent, but weren't captured. It is 0 after [`Flow::is_lost`].
    pub fn last_hole(&self) -> usize
        ensures { (heard : List Heard) → (segs : List Segment) → (out : List ℕ) → IsFlow heard segs out self.now
            → IsHoleIn (sent_of heard) segs out self.now.stream result }
    {
        self.hole_to(None)
    }

    /// Passes places whose bytes aren't there, and appends what is ready then.
    fn skip(&mut self, count: usize, later: &mut Vec<u8>) -> Result<(), AllocError>
        requires { MaySkip count self.old.stream }
        ensures half { self.new.half ≡ self.old.half }
        ensures noted { self.new.noted ≡ self.old.noted }
        ensures skipped { OnOk result (Skips count self.old.stream later.old.items self.new.stream later.new.items) }
    {
        match &mut self.stream {
            Some(stream) => stream.pass(count, later),
            None => unreachable!(),
        }
    }

    /// Passes at most `n` bytes of the hole at the next place, and returns how many.
    ///
    /// If all of the hole is passed, the bytes that are ready after it are appended to `later`. A passed byte that comes later is
    /// late, and no conflict.
    ///
    /// The hole is that of [`Flow::last_hole`]. While the connection goes on, pass no more than [`Flow::hole`].
    ///
    /// # Errors
    /// `AllocError` when out of memory. Nothing is promised of the direction then.
    #[cold]
    pub fn pass(&mut self, n: usize, later: &mut Vec<u8>) -> Result<usize, AllocError>
        ensures { IfOk result (λ count. FlowPasses n self.old later.old.items count self.new later.new.items) }
    {
        let count = n.min(self.hole_to(None));
        if count == 0 {
            return Ok(0);
        }
        self.skip(count, later)?;
        Ok(count)
    }

    /// Takes an acknowledgement by the other side. `opens` says whether it came with that side's SYN.
    ///
    /// One of what can't have been sent yet is passed over (RFC 9293 3.10.7.4).
    pub fn hear(&mut self, acked: u32, opens: bool)
        ensures stream { self.new.stream ≡ self.old.stream }
        ensures noted { self.new.noted ≡ self.old.noted }
        ensures heard { (heard : List Heard) → (segs : List Segment) → (out : List ℕ) → IsFlow heard segs out self.old
            → HasHeard acked opens heard segs out self.new }
    {
        self.half.hear(acked, opens);
    }

    /// Returns where the stream begins. Before its first captured byte that is after the SYN, or at the first number that is known.
    pub fn base(&self) -> Option<u64>
        ensures { (heard : List Heard) → (segs : List Segment) → (out : List ℕ) → IsFlow heard segs out self.now → IsBaseNow heard self.now.stream result }
    {
        match &self.stream {
            Some(stream) => Some(stream.base()),
            None => self.half.start(),
        }
    }

    /// Returns how many bytes were handed out or passed.
    pub fn next(&self) -> u64
        ensures { (heard : List Heard) → (segs : List Segment) → (out : List ℕ) → IsFlow heard segs out self.now → result ≡ length out }
    {
        match &self.stream {
            Some(stream) => stream.next().saturating_sub(stream.base()),
            None => 0,
        }
    }

    /// Returns the place that is handed out next, if that is known.
    fn place(&self) -> Option<u64>
        ensures { (heard : List Heard) → (segs : List Segment) → (out : List ℕ) → IsFlow heard segs out self.now → IsPlaceNow heard out self.now.stream result }
    {
        match &self.stream {
            Some(stream) => Some(stream.next()),
            None => self.half.start(),
        }
    }

    /// Tells whether bytes are known to be sent that weren't handed out.
    pub fn has_hole(&self) -> bool
        ensures { (heard : List Heard) → (segs : List Segment) → (out : List ℕ) → IsFlow heard segs out self.now → HasHole heard out self.now.stream result }
    {
        match self.place() {
            Some(place) => place < self.half.sent(place),
            None => false,
        }
    }

    /// Returns the gaps from a place on.
    fn gaps_from(&self, next: u64) -> Gaps
        ensures { (heard : List Heard) → IsHalf heard self.now.half → AreGaps (is_covered (spans_noted self.now.noted)) next (sent_end (spans_noted self.now.noted) (gaps_end heard next)) result }
    {
        let high = self.half.high();
        let sent = self.half.sent(next.max(high)).max(high);
        match &self.noted {
            Some(noted) => noted.gaps(next, sent),
            None => Spans::new(&[]).gaps(&[], next, sent),
        }
    }

    /// Returns the runs of bytes that were sent but not captured, with offsets from the base. Passed ones aren't among them.
    ///
    /// Once there were 1,024 spans of captured bytes past the next one, some that were captured may not be noted. These count as
    /// not captured. So do bytes that are left out, and those of a gap that is final, if they come later.
    pub fn gaps(&self) -> Gaps
        ensures { (heard : List Heard) → (segs : List Segment) → (out : List ℕ) → IsFlow heard segs out self.now → AreGapsOf heard segs out self.now result }
    {
        match self.place() {
            Some(next) => offsets(self.gaps_from(next), self.base().unwrap_or(next)),
            None => Gaps {
                first: None,
                count: 0,
                sum: 0,
            },
        }
    }

    /// Returns how many captured bytes differed from those that came first, as far as these were still in memory.
    ///
    /// Bytes before the end of a passed hole aren't compared any more.
    pub fn conflicts(&self) -> u64
        ensures { result ≡ conflicts_in self.now.stream }
    {
        match &self.stream {
            Some(stream) => stream.conflicts(),
            None => 0,
        }
    }

    /// Returns how far captured bytes reach: the greatest offset from the base, and one.
    pub fn high(&self) -> u64
        ensures { (heard : List Heard) → (segs : List Segment) → (out : List ℕ) → IsFlow heard segs out self.now → result ≡ high_in heard self.now.stream }
    {
        match &self.stream {
            Some(stream) => self.half.high().saturating_sub(stream.base()),
            None => 0,
        }
    }

    /// Returns the number of this side's SYN, if it is known.
    pub fn opening(&self) -> Option<u32>
        ensures { (heard : List Heard) → (segs : List Segment) → (out : List ℕ) → IsFlow heard segs out self.now → result ≡ opening_of heard }
    {
        self.half.opening()
    }

    /// Tells whether the receiver of this side may expect a number next (RFC 9293 3.3.1).
    ///
    /// It may, if that is from what it acknowledged up to what was sent. If no number of the side is known, it may expect any.
    pub fn may_be_next(&self, sequence: u32) -> bool
        ensures { (heard : List Heard) → (segs : List Segment) → (out : List ℕ) → IsFlow heard segs out self.now → MayBeNext heard sequence result }
    {
        self.half.may_be_next(sequence)
    }

    /// Tells whether [`Flow::take`] passes a segment over, which has no RST: it isn't in the window of its receiver (RFC 9293 3.4).
    pub fn passes(&self, given: &Given) -> bool
        ensures { (heard : List Heard) → (segs : List Segment) → (out : List ℕ) → IsFlow heard segs out self.now → IsPassedBy heard given.now result }
    {
        self.half.passes(
            given.sequence,
            given.syn,
            given.fin,
            given.payload.len(),
            given.length,
        )
    }

    /// Tells whether the FIN was reached and acknowledged (RFC 9293 3.6).
    pub fn is_closed(&self) -> bool
        ensures { (heard : List Heard) → (segs : List Segment) → (out : List ℕ) → IsFlow heard segs out self.now → IsClosed heard out self.now.stream result }
    {
        is_reached(self.half.fin(), self.place(), self.half.acked())
    }

    /// Tells whether a gap is final, so that nothing more is handed out.
    pub fn is_lost(&self) -> bool
        ensures { result ≡ is_lost_stream self.now.stream }
    {
        match &self.stream {
            Some(stream) => stream.is_lost(),
            None => false,
        }
    }

    /// Returns how many places its ring has past the first eight. What is far past a gap isn't in it.
    pub fn held(&self) -> usize
        ensures { result ≡ held_in self.now.stream }
    {
        match &self.stream {
            Some(stream) => stream.held(),
            None => 0,
        }
    }

    /// Returns how many bytes of memory it takes besides its own fields.
    pub fn size(&self) -> usize
        ensures { held_in self.now.stream ≤ result }
    {
        let stream = match &self.stream {
            Some(stream) => stream.size(),
            None => 0,
        };
        match &self.noted {
            Some(noted) => stream.saturating_add(noted.size()),
            None => stream,
        }
    }
}
