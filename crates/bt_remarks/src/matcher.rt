//! What the events of a connection show together.
ghost use Rattle.std.specs.Prelude.{◌≡◌, ◌||◌, ℕ, Bool, List, [], ◌∷◌, OnOk, OnErr, IfOk, IfSome};
ghost use Rattle.bt_remarks.specs.declared.events.Side.{Side};
ghost use Rattle.bt_remarks.specs.Said.{Told, Other, Have, Request, Piece, told, message_of, other, Blocks, Metadata};
ghost use Rattle.bt_remarks.specs.Known.{overflowed};
ghost use Rattle.bt_remarks.specs.Remarked.{remarks_on, tally_of};
ghost use Rattle.bt_remarks.specs.Steps.{IsHalfAfter};
ghost use Rattle.bt_remarks.specs.Ends.{unanswered, AreFoundOf, IsAsked};
ghost use Rattle.bt_remarks.specs.Matched.{IsHalf, Turns, Stays};

use crate::events::{Block, Ending, Event, Heard, Remarks, Side};
use crate::halves::Half;
use crate::tallies::{Tally, Unanswered};
use std::alloc::{AllocError, Global};

/// No remark.
const NO_REMARKS: Remarks = Remarks {
    unasked: false,
    choked: false,
    again: false,
    elsewhere: false,
};

/// Takes an event of the first side.
#[inline(always)]
fn note(mine: &mut Half, theirs: &mut Half, heard: &Heard, number: u64) -> Result<(), AllocError>
    ensures mine { OnOk result (IsHalfAfter (message_of heard.now.event) Other heard.now.known number heard.now.mark mine.old mine.new) }
    ensures theirs { OnOk result ((known : Bool) → (n mark : ℕ) → IsHalfAfter Other (message_of heard.now.event) known n mark theirs.old theirs.new) }
    ensures mine_err { OnErr result (IsHalfAfter Other Other heard.now.known number heard.now.mark mine.old mine.new) }
    ensures theirs_err { OnErr result ((known : Bool) → (n mark : ℕ) → IsHalfAfter Other Other known n mark theirs.old theirs.new) }
{
    match heard.event {
        Event::AllowedFast(_) => theirs.hear(&heard.event),
        Event::Piece(_) => theirs.hear(&heard.event),
        Event::Reject(_) => theirs.hear(&heard.event),
        Event::MetadataAnswer(_) => theirs.hear(&heard.event),
        _ => mine.say(&heard.event, heard.known, number, heard.mark),
    }
}

/// Returns the remarks on an event of the first side.
#[inline(always)]
fn remarks_on(mine: &Half, theirs: &Half, heard: &Heard) -> Remarks
    ensures { (events : List Told) → IsHalf heard.now.side events mine.now → IsHalf (other heard.now.side) events theirs.now
        → result ≡ remarks_on (told heard.now) events }
{
    Remarks {
        unasked: theirs.is_unasked(&heard.event, heard.known),
        choked: mine.is_choked(theirs, &heard.event, heard.known),
        again: mine.is_again(theirs, &heard.event, heard.known),
        elsewhere: mine.is_elsewhere(&heard.event, heard.known),
    }
}

/// Takes an event of the first side, and returns its remarks.
///
/// It is inlined where the event's kind is known, so that the kind isn't looked at again.
#[inline(always)]
fn turn_of(
    mine: &mut Half,
    theirs: &mut Half,
    tally: &mut Tally,
    heard: &Heard,
    number: u64,
) -> Result<Remarks, AllocError>
    ensures ok { IfOk result (λ remarks. Turns (told heard.now) number remarks mine.old mine.new theirs.old theirs.new tally.old tally.new) }
    ensures mine { OnErr result (Stays mine.old mine.new) }
    ensures theirs { OnErr result (Stays theirs.old theirs.new) }
    ensures tally { OnErr result (tally.new ≡ tally.old) }
{
    let remarks = remarks_on(mine, theirs, heard);
    if !tally.has_room(remarks) {
        return Err(AllocError);
    }
    note(mine, theirs, heard, number)?;
    tally.add(remarks, heard.mark);
    Ok(remarks)
}

/// Takes a have of the first side, and returns its remarks.
#[inline(never)]
fn turn_have(
    mine: &mut Half,
    theirs: &mut Half,
    tally: &mut Tally,
    side: Side,
    piece: u32,
    known: bool,
    mark: u64,
    number: u64,
) -> Result<Remarks, AllocError>
    ensures ok { IfOk result (λ remarks. Turns (record { side = side; message = Have piece; known = known; mark = mark }) number remarks
        mine.old mine.new theirs.old theirs.new tally.old tally.new) }
    ensures mine { OnErr result (Stays mine.old mine.new) }
    ensures theirs { OnErr result (Stays theirs.old theirs.new) }
    ensures tally { OnErr result (tally.new ≡ tally.old) }
{
    let heard = Heard {
        side,
        event: Event::Have(piece),
        known,
        mark,
    };
    turn_of(mine, theirs, tally, &heard, number)
}

/// Takes a request of the first side, and returns its remarks.
#[inline(never)]
fn turn_request(
    mine: &mut Half,
    theirs: &mut Half,
    tally: &mut Tally,
    side: Side,
    block: Block,
    known: bool,
    mark: u64,
    number: u64,
) -> Result<Remarks, AllocError>
    ensures ok { IfOk result (λ remarks. Turns (record { side = side; message = Request block; known = known; mark = mark }) number remarks
        mine.old mine.new theirs.old theirs.new tally.old tally.new) }
    ensures mine { OnErr result (Stays mine.old mine.new) }
    ensures theirs { OnErr result (Stays theirs.old theirs.new) }
    ensures tally { OnErr result (tally.new ≡ tally.old) }
{
    let heard = Heard {
        side,
        event: Event::Request(block),
        known,
        mark,
    };
    turn_of(mine, theirs, tally, &heard, number)
}

/// Takes a block of the first side, and returns its remarks.
#[inline(never)]
fn turn_piece(
    mine: &mut Half,
    theirs: &mut Half,
    tally: &mut Tally,
    side: Side,
    block: Block,
    known: bool,
    mark: u64,
    number: u64,
) -> Result<Remarks, AllocError>
    ensures ok { IfOk result (λ remarks. Turns (record { side = side; message = Piece block; known = known; mark = mark }) number remarks
        mine.old mine.new theirs.old theirs.new tally.old tally.new) }
    ensures mine { OnErr result (Stays mine.old mine.new) }
    ensures theirs { OnErr result (Stays theirs.old theirs.new) }
    ensures tally { OnErr result (tally.new ≡ tally.old) }
{
    let heard = Heard {
        side,
        event: Event::Piece(block),
        known,
        mark,
    };
    turn_of(mine, theirs, tally, &heard, number)
}

/// Takes an event of the first side of another kind, and returns its remarks.
#[inline(never)]
fn turn_rest(
    mine: &mut Half,
    theirs: &mut Half,
    tally: &mut Tally,
    heard: &Heard,
    number: u64,
) -> Result<Remarks, AllocError>
    ensures ok { IfOk result (λ remarks. Turns (told heard.now) number remarks mine.old mine.new theirs.old theirs.new tally.old tally.new) }
    ensures mine { OnErr result (Stays mine.old mine.new) }
    ensures theirs { OnErr result (Stays theirs.old theirs.new) }
    ensures tally { OnErr result (tally.new ≡ tally.old) }
{
    turn_of(mine, theirs, tally, heard, number)
}

/// Takes an event of the first side, and returns its remarks.
#[inline(always)]
fn turn(
    mine: &mut Half,
    theirs: &mut Half,
    tally: &mut Tally,
    heard: &Heard,
    number: u64,
) -> Result<Remarks, AllocError>
    ensures ok { IfOk result (λ remarks. Turns (told heard.now) number remarks mine.old mine.new theirs.old theirs.new tally.old tally.new) }
    ensures mine { OnErr result (Stays mine.old mine.new) }
    ensures theirs { OnErr result (Stays theirs.old theirs.new) }
    ensures tally { OnErr result (tally.new ≡ tally.old) }
{
    let Heard {
        side,
        event,
        known,
        mark,
    } = *heard;
    match event {
        Event::Other => Ok(NO_REMARKS),
        Event::Have(piece) => turn_have(mine, theirs, tally, side, piece, known, mark, number),
        Event::Request(block) => turn_request(
            mine, theirs, tally, side, block, known, mark, number,
        ),
        Event::Piece(block) => turn_piece(mine, theirs, tally, side, block, known, mark, number),
        event => turn_rest(
            mine,
            theirs,
            tally,
            &Heard {
                side,
                event,
                known,
                mark,
            },
            number,
        ),
    }
}

/// What the events of a connection show together.
///
/// Both sides have sent a handshake.
#[derive(Debug, Drop)]
pub struct Matcher {
    events: u64,
    a: Half,
    b: Half,
    tally_a: Tally,
    tally_b: Tally,
}

impl Matcher {
    ghost use Rattle.bt_remarks.specs.Matched.{IsMatched};

    /// Returns a matcher that has taken no event.
    pub fn new(alloc: Global) -> Matcher
        ensures { IsMatched [] result }
    {
        Matcher {
            events: 0,
            a: Half::new(alloc),
            b: Half::new(alloc),
            tally_a: Tally::new(),
            tally_b: Tally::new(),
        }
    }

    /// Takes the next event, and returns its remarks.
    ///
    /// # Errors
    /// `AllocError` if memory runs out, or after 2^64 - 1 events. The matcher is as before.
    #[inline(always)]
    pub fn take(&mut self, heard: &Heard) -> Result<Remarks, AllocError>
        ensures remarks { IfOk result (λ remarks. (events : List Told) → IsMatched events self.old → remarks ≡ remarks_on (told heard.now) events) }
        ensures ok { OnOk result ((events : List Told) → IsMatched events self.old → IsMatched (told heard.now ∷ events) self.new) }
        ensures err { OnErr result ((events : List Told) → IsMatched events self.old → IsMatched events self.new) }
    {
        let Some(number) = self.events.checked_add(1) else {
            return Err(AllocError);
        };
        match heard.side {
            Side::A => {
                let remarks = turn(&mut self.a, &mut self.b, &mut self.tally_a, heard, number)?;
                self.events = number;
                Ok(remarks)
            }
            Side::B => {
                let remarks = turn(&mut self.b, &mut self.a, &mut self.tally_b, heard, number)?;
                self.events = number;
                Ok(remarks)
            }
        }
    }

    /// Returns how many events of a side have each remark, and the first of each.
    pub fn tally(&self, side: Side) -> Tally
        ensures { (events : List Told) → IsMatched events self.now → result ≡ tally_of side events }
    {
        match side {
            Side::A => self.tally_a,
            Side::B => self.tally_b,
        }
    }

    /// Tells whether a side ever had more than 65,536 requests pending.
    ///
    /// From then on `unasked`, `again` and `unanswered` aren't said of its requests.
    pub fn has_overflowed(&self, side: Side) -> bool
        ensures { (events : List Told) → IsMatched events self.now → result ≡ (overflowed Blocks side events || overflowed Metadata side events) }
    {
        match side {
            Side::A => self.a.has_overflowed(),
            Side::B => self.b.has_overflowed(),
        }
    }

    /// Returns about how many bytes of memory it takes besides its own fields: sets of pieces, and pending requests.
    pub fn size(&self) -> usize {
        self.a.size().saturating_add(self.b.size())
    }

    /// Returns how many requests of a side got no answer, and the first one.
    ///
    /// Only requests of blocks count. Call it at the end of a connection in which both sides have the Fast Extension.
    pub fn unanswered(&self, side: Side, ending: Ending) -> Unanswered
        ensures found { (events : List Told) → IsMatched events self.now → AreFoundOf (unanswered ending.closed_first ending.stopped side events) result }
        ensures asked { IfSome result.first (λ request. (events : List Told) → IsMatched events self.now → IsAsked side events request) }
    {
        match side {
            Side::A => self.a.unanswered(&self.b, ending),
            Side::B => self.b.unanswered(&self.a, ending),
        }
    }
}
