//! How a connection was closed, and what each side had sent then.
ghost use Rattle.std.specs.Prelude.{◌≡◌, Some};
ghost use Rattle.bt_remarks.specs.Said.{other as other_side};
ghost use Rattle.bt_report.specs.Closings.{before_of, before_text, closed_text, closing_text, gap_of, last_name, last_text, left_text, unread_text};

use crate::report::{Before, Closed, Left};
use bt_remarks::Side;
use bt_rows::{Last, RefusalText, Time, letter_text};
use bt_tcp::Gap;
use std::fmt;

/// Returns the other side.
fn other(side: Side) -> Side
    ensures { result ≡ other_side side }
{
    match side {
        Side::A => Side::B,
        Side::B => Side::A,
    }
}

/// The last that a side had sent, in words.
#[derive(Clone, Copy)]
struct LastWords<'a>(&'a Last);

impl fmt::Display for LastWords<'_> {
    ghost output = { λ w. Some (last_text w.0.now) };

    fn fmt<W: fmt::Write>(&self, f: &mut fmt::Formatter<W>) -> fmt::Result {
        match self.0 {
            Last::Nothing => f.write_str("nothing"),
            Last::Item(said) => write!(f, "{said}"),
            Last::Refused(refusal) => {
                let refused = RefusalText(*refusal);
                write!(f, "{refused}")
            }
        }
    }
}

/// Returns how the last is called. It is only the last that was read if bytes of the side are missing.
fn last_name(gap: &Option<Gap>) -> &'static str
    ensures { result.now ≡ last_name gap.now }
{
    match gap {
        Some(_) => "last read",
        None => "last",
    }
}

/// The line of what a side had sent, if it has a whole handshake. The second is the side's first gap.
#[derive(Clone, Copy)]
struct BeforeLine<'a>(Side, &'a Option<Gap>, &'a Option<Before>);

impl fmt::Display for BeforeLine<'_> {
    ghost output = { λ l. Some (before_text l.0 l.1.now l.2.now) };

    fn fmt<W: fmt::Write>(&self, f: &mut fmt::Formatter<W>) -> fmt::Result {
        let BeforeLine(side, gap, before) = *self;
        let Some(Before { sent, last }) = before else {
            return Ok(());
        };
        let (letter, name, words) = (letter_text(side), last_name(gap), LastWords(last));
        write!(f, "    {letter} had sent {sent} bytes, {name}: {words}\n")
    }
}

/// Returns what a side had sent when the connection was closed.
fn sent_before(side: Side, closed: &Closed) -> &Option<Before>
    ensures { result.now ≡ before_of side closed.now }
{
    match side {
        Side::A => &closed.a,
        Side::B => &closed.b,
    }
}

/// Returns a side's first gap.
fn gap_of<'a>(side: Side, a: &'a Option<Gap>, b: &'a Option<Gap>) -> &'a Option<Gap>
    ensures { result.now ≡ gap_of side a.now b.now }
{
    match side {
        Side::A => a,
        Side::B => b,
    }
}

/// The lines on how a connection was closed.
#[derive(Clone, Copy)]
struct ClosedLines<'a> {
    closed: &'a Closed,
    /// A's first gap.
    a: &'a Option<Gap>,
    /// B's first gap.
    b: &'a Option<Gap>,
}

impl fmt::Display for ClosedLines<'_> {
    ghost output = { λ l. Some (closed_text l.a.now l.b.now l.closed.now) };

    fn fmt<W: fmt::Write>(&self, f: &mut fmt::Formatter<W>) -> fmt::Result {
        let closed = self.closed;
        let (first, last) = (closed.first, other(closed.first));
        let (letter, by, at) = (letter_text(first), closed.by, Time(closed.at));
        let (theirs, own) = (sent_before(last, closed), sent_before(first, closed));
        let theirs = BeforeLine(last, gap_of(last, self.a, self.b), theirs);
        let own = BeforeLine(first, gap_of(first, self.a, self.b), own);
        write!(
            f,
            "  {letter} closed first, by {by}, at {at} s\n{theirs}{own}"
        )
    }
}

/// Returns the line on how a connection that no side closed was left.
fn left_line(left: Left) -> &'static str
    ensures { result.now ≡ left_text left }
{
    match left {
        Left::Open => "  still open at the capture's end\n",
        Left::Unread => "  not read further: too many connections at once\n",
        Left::Replaced => "  not closed; a later connection has the same ports\n",
    }
}

/// Returns the line if a closed connection wasn't read further, or nothing.
fn unread_line(left: Left) -> &'static str
    ensures { result.now ≡ unread_text left }
{
    match left {
        Left::Open => "",
        Left::Unread => left_line(left),
        Left::Replaced => "",
    }
}

/// The lines on how a connection ended.
#[derive(Clone, Copy)]
pub(crate) struct Closing<'a> {
    pub(crate) closed: &'a Option<Closed>,
    pub(crate) left: Left,
    /// A's first gap.
    pub(crate) a: &'a Option<Gap>,
    /// B's first gap.
    pub(crate) b: &'a Option<Gap>,
}

impl fmt::Display for Closing<'_> {
    ghost output = { λ c. Some (closing_text c.a.now c.b.now c.closed.now c.left) };

    fn fmt<W: fmt::Write>(&self, f: &mut fmt::Formatter<W>) -> fmt::Result {
        let left = self.left;
        match self.closed {
            None => f.write_str(left_line(left)),
            Some(closed) => {
                let lines = ClosedLines {
                    closed,
                    a: self.a,
                    b: self.b,
                };
                let unread = unread_line(left);
                write!(f, "{lines}{unread}")
            }
        }
    }
}
