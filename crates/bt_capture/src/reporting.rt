//! From a captured connection to its report.
ghost use Rattle.std.specs.Prelude.{◌≡◌, ◌&&◌, ℕ, List, is_some, unwrap_or};
ghost use Rattle.bt_intro.specs.Hellos.{IsStartOf};
ghost use Rattle.bt_talk.specs.Pasts.{Past};
ghost use Rattle.bt_talk.specs.Shown.{Turn};
ghost use Rattle.bt_talk.specs.Talks.{HasHeard, IsTalk, closing_of};
ghost use Rattle.bt_report.specs.Names.{title_text};
ghost use Rattle.bt_capture.specs.Reportings.{IsSenderOf, IsDirectionOf, IsBodyOf, HasBegun, IsBeforeOf, IsClosedBy, AreRemarksOf};
ghost use Rattle.bt_capture.specs.Reportings.{left_after, offset_gap, shifted as shifted_by, title_by, means_by};

use bt_intro::Receiver;
use bt_remarks::Side;
use bt_report::{Before, Body, Closed, Direction, Judged, Left, Sender, Title, Told};
use bt_rows::{Means, Remarked};
use bt_talk::Talk;
use bt_tcp::{Gap, Gaps};
use bt_wire::Handshake;

/// No remark.
const UNREMARKED: Remarked = Remarked {
    unasked: None,
    choked: None,
    again: None,
    unanswered: None,
    elsewhere: None,
};

/// Returns a gap whose place counts from the handshake on.
fn from_handshake(start: u64, gap: Gap) -> Gap
    ensures { result ≡ offset_gap start gap }
{
    Gap {
        place: gap.place.saturating_sub(start),
        length: gap.length,
    }
}

/// Returns the gaps; the place of the first counts from the handshake on.
fn shifted(start: u64, gaps: Gaps) -> Gaps
    ensures { result ≡ shifted_by start gaps }
{
    let first = match gaps.first {
        Some(gap) => Some(from_handshake(start, gap)),
        None => None,
    };
    Gaps { first, ..gaps }
}

/// Returns what a side calls itself: its client's name, or its peer id.
fn title_of(client: &[u8], handshake: &Handshake) -> Title
    ensures { title_text result ≡ title_by client.now handshake.now }
{
    if client.is_empty() {
        Title::PeerId(handshake.peer_id)
    } else {
        Title::of_client(client)
    }
}

/// Returns who sends a direction.
fn sender_of(talk: &Talk, side: Side) -> Sender
    ensures { (a b : Past) → IsTalk a b talk.now → IsSenderOf side a b talk.now result }
{
    let Some(verdicts) = talk.verdicts(side) else {
        return Sender::Unknown(talk.length(side));
    };
    let Some(receiver) = talk.receiver(side) else {
        return Sender::Unknown(talk.length(side));
    };
    let Some(handshake) = talk.handshake(side) else {
        return Sender::Unknown(talk.length(side));
    };
    Sender::Known(Judged {
        title: title_of(talk.client(side), &handshake),
        free: verdicts.free,
        bep: verdicts.bep,
        free_message: verdicts.free_message,
        bep_message: verdicts.bep_message,
        receiver: receiver.own,
        is_guessed: receiver.is_guessed,
    })
}

/// Returns how many bytes a side sent before its handshake.
fn exchange_of(start: Option<usize>) -> u64
    ensures { result ≡ unwrap_or start 0 }
{
    match start {
        Some(start) => start as u64,
        None => 0,
    }
}

/// Returns what is said of a direction.
fn direction_of(talk: &Talk, side: Side) -> Direction
    ensures { (a b : Past) → IsTalk a b talk.now → IsDirectionOf side a b talk.now result }
{
    let exchange = exchange_of(talk.start(side));
    Direction {
        sender: sender_of(talk, side),
        exchange,
        conflicts: talk.conflicts(side),
        strays: talk.strays(side),
        gaps: shifted(exchange, talk.gaps(side)),
        is_final: talk.is_final(side),
    }
}

/// Tells whether a side has begun a handshake.
fn has_begun(a: Option<usize>, b: Option<usize>) -> bool
    ensures { (front back : List ℕ) → IsStartOf front a → IsStartOf back b → HasBegun front back result }
{
    match (a, b) {
        (None, None) => false,
        (Some(_), _) => true,
        (None, Some(_)) => true,
    }
}

/// Returns how a side closed.
fn means(by_reset: bool) -> Means
    ensures { result ≡ means_by by_reset }
{
    if by_reset { Means::Rst } else { Means::Fin }
}

/// Returns what a side had sent before the connection was closed, if it has a whole handshake.
fn before_of(talk: &Talk, side: Side) -> Option<Before>
    ensures { (a b : Past) → IsTalk a b talk.now → IsBeforeOf side a b talk.now result }
{
    if talk.receiver(side).is_none() {
        return None;
    }
    let sent = talk.had_sent(side)?;
    let last = talk.last_before_close(side)?;
    Some(Before { sent, last })
}

/// Returns how a connection was closed. Its time counts from the capture's start.
fn closed_of(talk: &Talk, from: u64) -> Option<Closed>
    ensures { (a b : Past) → IsTalk a b talk.now → IsClosedBy from a b talk.now (closing_of talk.now).closed result }
{
    match talk.closed() {
        Some(closed) => Some(Closed {
            first: closed.side,
            by: means(closed.by_reset),
            at: closed.when.nanos.saturating_sub(from),
            a: before_of(talk, Side::A),
            b: before_of(talk, Side::B),
        }),
        None => None,
    }
}

/// Tells whether both sides have a whole handshake.
fn are_both_judged(a: &Option<Receiver>, b: &Option<Receiver>) -> bool
    ensures { result ≡ (is_some a.now && is_some b.now) }
{
    a.is_some() && b.is_some()
}

/// Returns the remarks on what both sides sent. There are none if a side has no whole handshake.
fn remarks_of(talk: &Talk) -> (Remarked, Remarked)
    ensures { (a b : Past) (turns : List Turn) → IsTalk a b talk.now → HasHeard turns a b talk.now → AreRemarksOf a b talk.now turns result.0 result.1 }
{
    if !are_both_judged(&talk.receiver(Side::A), &talk.receiver(Side::B)) {
        return (UNREMARKED, UNREMARKED);
    }
    (talk.remarked(Side::A), talk.remarked(Side::B))
}

/// Returns how a connection was left.
fn left_of(talk: &Talk, left: Left) -> Left
    ensures { result ≡ left_after (closing_of talk.now).over left }
{
    if talk.has_ended() { Left::Open } else { left }
}

/// Returns what is known of a connection, in a capture that starts at this time.
///
/// `left` says how the connection was left, if it hasn't ended.
pub fn body_of(talk: &Talk, from: u64, left: Left) -> Body
    ensures { (a b : Past) (turns : List Turn) → IsTalk a b talk.now → HasHeard turns a b talk.now → IsBodyOf from left a b talk.now turns result }
{
    match has_begun(talk.start(Side::A), talk.start(Side::B)) {
        false => Body::NotBitTorrent,
        true => {
            let (remarked_a, remarked_b) = remarks_of(talk);
            Body::Told(Told {
                a: direction_of(talk, Side::A),
                b: direction_of(talk, Side::B),
                closed: closed_of(talk, from),
                left: left_of(talk, left),
                remarked_a,
                remarked_b,
            })
        }
    }
}
