//! A connection of a capture, with its number.
ghost use Rattle.bt_talk.specs.declared.terms.Terms.{Terms};
ghost use Rattle.std.specs.Prelude.{false, not, ◌&&◌, ◌≡◌, ◌<◌, ◌^◌, ◌++◌, ◌∷◌, List, [], Option, None, Some, ℕ};
ghost use Rattle.bt_talk.specs.declared.closing.When.{When};
ghost use Rattle.bt_talk.specs.declared.rows.Heading.{Heading};
ghost use Rattle.bt_capture.specs.Arrivals.{Arrival, arrived, has_data};
ghost use Rattle.bt_remarks.specs.declared.events.Side.{Side};
ghost use Rattle.bt_talk.specs.Rooms.{rows_in, sent_in, showing_in, wanted_in};
ghost use Rattle.bt_capture.specs.Sending.{HasSent};
ghost use Rattle.bt_capture.specs.Rowed.{HasShown, ShowsOn};
ghost use Rattle.bt_capture.specs.Connections.{IsOpen};
ghost use Rattle.bt_capture.specs.Shown.{AreOfSegment, HasRows};
ghost use Rattle.bt_talk.specs.Pasts.{Past};
ghost use Rattle.bt_talk.specs.Rows.{Shown, shown_texts};
ghost use Rattle.bt_talk.specs.Talks.{IsTalk, is_lost};

use bt_packet::Segment;
use bt_talk::{Room, Talk, Terms, When};
use std::alloc::Global;
use std::mem::size_of;

/// How many bytes of memory a connection takes besides its fields and what it owns: its places in the table.
const PLACES: usize = 256;

/// A connection, with its number among those of the capture.
#[derive(Drop)]
pub struct Connection {
    pub number: u64,
    pub talk: Talk,
    /// Whether a byte of a stream was captured.
    pub has_payload: bool,
    /// About how many bytes of memory it takes.
    pub size: u32,
}

/// Returns about how many bytes of memory a connection takes.
fn size_with(talk: &Talk) -> u32 {
    let size = size_of::<Connection>()
        .saturating_add(PLACES)
        .saturating_add(talk.size());
    size.min(u32::MAX as usize) as u32
}

/// Tells whether a segment has a byte of its sender's stream.
fn has_payload(segment: &Segment) -> bool
    ensures { (when : When) → result ≡ has_data (arrived None segment.now when) }
{
    !segment.flags.rst && !segment.payload.is_empty()
}

impl Connection {
    /// Begins a connection; nothing of it was taken yet.
    pub fn new(alloc: Global, number: u64, first: &Segment, terms: Terms) -> Connection
        ensures open { (link : Option ℕ) (when : When) → IsOpen terms [] (arrived link first.now when ∷ []) result }
        ensures sent { (link : Option ℕ) (when : When) (side : Side) → HasSent side [] terms [] (arrived link first.now when ∷ []) result }
        ensures shown { (link : Option ℕ) (when : When) (h : Heading) → HasShown h [] terms [] (arrived link first.now when ∷ []) result }
        ensures there { is_lost result.talk ≡ false }
        ensures number { result.number ≡ number }
    {
        Connection {
            number,
            talk: Talk::new(alloc, first, terms),
            has_payload: false,
            size: 0,
        }
    }

    /// Takes a segment.
    ///
    /// If memory runs out the connection is lost. The room had no rows before; then it has those of the segment, and the bytes of the
    /// wanted side's stream that come with it.
    pub fn take(&mut self, segment: &Segment, when: When, room: &mut Room)
        ensures takes { (link : Option ℕ) (terms : Terms) (taken : List Arrival) → let a = arrived link segment.now when in IsOpen terms taken (a ∷ []) self.old
            → IsOpen terms (taken ++ a ∷ []) [] self.new }
        ensures rows { (link : Option ℕ) (terms : Terms) (taken : List Arrival) → IsOpen terms taken (arrived link segment.now when ∷ []) self.old
            → (rows_in room.old).text.items ≡ [] → HasRows (showing_in room.old) room.new }
        ensures shows { (a b : Past) → IsTalk a b self.old.talk → is_lost self.new.talk ≡ false → (rows_in room.old).text.items ≡ []
            → AreOfSegment (rows_in room.old).heading segment.now when a b self.old.talk self.new.talk (rows_in room.new) }
        ensures sent { (link : Option ℕ) (terms : Terms) (taken : List Arrival) (side : Side) (sent : List ℕ) → let a = arrived link segment.now when in wanted_in room.old ≡ Some side
            → HasSent side sent terms taken (a ∷ []) self.old → HasSent side (sent ++ sent_in room.new) terms (taken ++ a ∷ []) [] self.new }
        ensures shown { (link : Option ℕ) (terms : Terms) (taken : List Arrival) (before : List Shown) → let a = arrived link segment.now when in (rows_in room.old).text.items ≡ []
            → HasShown (rows_in room.old).heading before terms taken (a ∷ []) self.old
            → (rows : List Shown) × ((rows_in room.new).text.items ≡ shown_texts (showing_in room.old) rows)
            × ShowsOn (rows_in room.old).heading before rows terms taken a self.old self.new }
        ensures number { self.new.number ≡ self.old.number }
    {
        self.has_payload |= has_payload(segment);
        let _taken = self.talk.take(segment, when, room);
        self.size = size_with(&self.talk);
    }

    /// Tells whether no byte of a stream was captured, and memory didn't run out.
    pub fn is_silent(&self) -> bool
        ensures { result ≡ (not self.now.has_payload && not (is_lost self.now.talk)) }
    {
        !self.has_payload && !self.talk.is_lost()
    }

    /// Returns about how many bytes of memory it took after its last segment.
    pub fn size(&self) -> u64
        ensures size { result ≡ self.now.size }
        ensures range { result < 2 ^ 32 }
    {
        u64::from(self.size)
    }
}
