//! What a report's verdicts come to.
ghost use Rattle.std.specs.Prelude.{◌≡◌};
ghost use Rattle.bt_report.specs.Findings.{closes_first, finding_of, is_left_unread, is_partial, is_partly_read, is_refusal, is_refused_by, may_be_cut, told_finding, told_partial};

use crate::printing::closer_of;
use crate::report::{Body, Direction, Left, Report, Sender, Told};
use bt_remarks::Side;
use bt_text::ended::Ended;
use bt_wire::Reason;

/// What a report's verdicts come to.
#[derive(Clone, Copy)]
pub enum Finding {
    /// No side began a handshake.
    NotBitTorrent,
    /// The lenient rules refuse nothing.
    Accepted,
    /// The lenient rules refuse a direction, and not only because it was cut.
    Refused,
}

/// Returns whether this side closed first.
fn closes_first_of(closer: Option<Side>, side: Side) -> bool
    ensures { result ≡ closes_first closer side }
{
    match (closer, side) {
        (Some(Side::A), Side::A) => true,
        (Some(Side::B), Side::B) => true,
        _ => false,
    }
}

/// Returns whether a side's stream may end inside a message for a reason that isn't its sender's.
fn may_be_cut_of(has_gap: bool, closer: Option<Side>, side: Side) -> bool
    ensures { result ≡ may_be_cut has_gap closer side }
{
    has_gap || !closes_first_of(closer, side)
}

/// Returns whether a verdict is a refusal, and not only a cut.
fn is_refusal_of(ended: &Ended, is_cut: bool) -> bool
    ensures { result ≡ is_refusal ended.now is_cut }
{
    match ended {
        Ended::Accepted { .. } => false,
        Ended::Refused(refusal) => match refusal.reason {
            Reason::EndInside => !is_cut,
            _ => true,
        },
    }
}

/// Returns whether the lenient rules refuse a direction.
fn is_refused(side: Side, closer: Option<Side>, direction: &Direction) -> bool
    ensures { result ≡ is_refused_by side closer direction.now }
{
    let is_cut = may_be_cut_of(direction.gaps.first.is_some(), closer, side);
    match &direction.sender {
        Sender::Unknown(_) => false,
        Sender::Known(judged) => is_refusal_of(&judged.free, is_cut),
    }
}

/// Returns what is found of a BitTorrent connection.
fn finding_in(told: &Told) -> Finding
    ensures { result ≡ told_finding told.now }
{
    let closer = closer_of(&told.closed);
    let a = is_refused(Side::A, closer, &told.a);
    let b = is_refused(Side::B, closer, &told.b);
    if a || b {
        Finding::Refused
    } else {
        Finding::Accepted
    }
}

/// Returns whether a connection wasn't read further.
fn is_unread(left: Left) -> bool
    ensures { result ≡ is_left_unread left }
{
    match left {
        Left::Open | Left::Replaced => false,
        Left::Unread => true,
    }
}

/// Returns whether only a part of what a side sent was read: it has a gap, or it sent bytes and no whole handshake.
fn is_partly_read_of(direction: &Direction) -> bool
    ensures { result ≡ is_partly_read direction.now }
{
    let is_unread = match &direction.sender {
        Sender::Unknown(sent) => *sent > 0,
        Sender::Known(_) => false,
    };
    is_unread || direction.gaps.first.is_some()
}

/// Returns whether only a part of a BitTorrent connection was read.
fn is_partial_in(told: &Told) -> bool
    ensures { result ≡ told_partial told.now }
{
    is_unread(told.left) || is_partly_read_of(&told.a) || is_partly_read_of(&told.b)
}

impl Report {
    /// Returns whether it is on a BitTorrent connection of which only a part was read.
    ///
    /// A direction has a gap, or bytes and no whole handshake; or the connection wasn't read further.
    pub fn is_partial(&self) -> bool
        ensures { result ≡ is_partial self.now }
    {
        match &self.body {
            Body::NotBitTorrent => false,
            Body::Told(told) => is_partial_in(told),
        }
    }

    /// Returns what the report's verdicts come to.
    pub fn finding(&self) -> Finding
        ensures { result ≡ finding_of self.now }
    {
        match &self.body {
            Body::NotBitTorrent => Finding::NotBitTorrent,
            Body::Told(told) => finding_in(told),
        }
    }
}
