//! Requests that got no answer, at the end of a connection.
ghost use Rattle.std.specs.Prelude.{◌≡◌, ℕ, List};
ghost use Rattle.bt_remarks.specs.Ends.{unanswered};
ghost use Rattle.bt_remarks.specs.Matched.{IsMatched};
ghost use Rattle.bt_remarks.specs.Said.{Told, is_same as is_same_side, other as other_side};
ghost use Rattle.bt_wire.specs.declared.item.Item.{Item};
ghost use Rattle.bt_talk.specs.Unanswered.{has_fast, has_closed, is_accepted, request_said, AreNoted};
ghost use Rattle.bt_talk.specs.Watching.{said_by, messages_of};

use crate::closing::Closed;
use crate::refused::Judgement;
use bitflags::Flags;
use bt_remarks::{Ending, Matcher, Request, Side};
use bt_rows::{Name, Noted, Numbers, Said, Words};
use bt_text::ended::Ended;
use bt_wire::{Handshake, Reserved};

/// Returns the other side.
pub(crate) fn other(side: Side) -> Side
    ensures { result ≡ other_side side }
{
    match side {
        Side::A => Side::B,
        Side::B => Side::A,
    }
}

/// Tells whether there is a handshake, and it has the bit of the Fast Extension (BEP 6).
pub(crate) fn has_fast(handshake: &Option<Handshake>) -> bool
    ensures { result ≡ has_fast handshake.now }
{
    match handshake {
        Some(handshake) => handshake.reserved.contains(Reserved::FAST),
        None => false,
    }
}

/// Tells whether a side sent the first FIN or RST.
pub(crate) fn has_closed(side: Side, closed: &Option<Closed>) -> bool
    ensures { result ≡ has_closed side closed.now }
{
    match closed {
        Some(closed) => closed.side == side,
        None => false,
    }
}

/// Tells whether the lenient rules accept a stream, which ends after a whole message then.
pub(crate) fn is_accepted(verdicts: &Option<Judgement>) -> bool
    ensures { result ≡ is_accepted verdicts.now }
{
    match verdicts {
        Some(verdicts) => match verdicts.free {
            Ended::Accepted { .. } => true,
            Ended::Refused(_) => false,
        },
        None => false,
    }
}

/// Returns the offset and the words of a request.
fn request_said(request: Request) -> Said
    ensures { result ≡ request_said request }
{
    let block = request.block;
    Said {
        offset: request.mark,
        words: Words::Message(
            Name::Request,
            Numbers::Three(
                u64::from(block.index),
                u64::from(block.begin),
                u64::from(block.length),
            ),
        ),
    }
}

/// Returns how many requests of a side got no answer, with the first one.
///
/// `ending` says how the other side's direction ended.
pub(crate) fn unanswered_of(matcher: &Matcher, side: Side, ending: Ending) -> Option<Noted>
    ensures { (events : List Told) (xs : List (ℕ × Item)) → IsMatched events matcher.now → said_by side events ≡ messages_of xs
        → AreNoted (unanswered ending.closed_first ending.stopped side events) xs result }
{
    let found = matcher.unanswered(side, ending);
    match found.first {
        Some(request) => Some(Noted {
            count: found.count,
            first: request_said(request),
        }),
        None => None,
    }
}
