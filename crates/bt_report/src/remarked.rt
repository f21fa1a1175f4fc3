//! The remarks on what a side sent.
ghost use Rattle.std.specs.Prelude.{◌≡◌, Some};
ghost use Rattle.bt_report.specs.Remarked.{how_many, many_text, noted_text, one_text, remarked_text};

use bt_remarks::Side;
use bt_rows::{Noted, Remarked, letter_text};
use std::fmt;

/// A remark on an event.
#[derive(Clone, Copy)]
pub(crate) enum Remark {
    Unasked,
    Choked,
    Again,
    Unanswered,
    Elsewhere,
}

/// Returns the words for one event.
fn one(remark: Remark) -> &'static str
    ensures { result.now ≡ one_text remark }
{
    match remark {
        Remark::Unasked => "an answer that nobody asked for",
        Remark::Choked => "a request while it was choked",
        Remark::Again => "a request again before its answer",
        Remark::Unanswered => "a request that got no answer",
        Remark::Elsewhere => "a have of a piece that never came here",
    }
}

/// Returns the words after the number of events.
fn many(remark: Remark) -> &'static str
    ensures { result.now ≡ many_text remark }
{
    match remark {
        Remark::Unasked => " answers that nobody asked for",
        Remark::Choked => " requests while it was choked",
        Remark::Again => " requests again before their answers",
        Remark::Unanswered => " requests that got no answer",
        Remark::Elsewhere => " haves of pieces that never came here",
    }
}

/// How many events have a remark.
#[derive(Clone, Copy)]
struct HowMany(Remark, u64);

impl fmt::Display for HowMany {
    ghost output = { λ h. Some (how_many h.0 h.1) };

    fn fmt<W: fmt::Write>(&self, f: &mut fmt::Formatter<W>) -> fmt::Result {
        let HowMany(remark, count) = *self;
        if count < 2 {
            return f.write_str(one(remark));
        }
        let words = many(remark);
        write!(f, "{count}{words}, the first")
    }
}

/// The line of a side's remark, if there are events that have it.
#[derive(Clone, Copy)]
struct NotedLine<'a>(Side, Remark, &'a Option<Noted>);

impl fmt::Display for NotedLine<'_> {
    ghost output = { λ l. Some (noted_text l.0 l.1 l.2.now) };

    fn fmt<W: fmt::Write>(&self, f: &mut fmt::Formatter<W>) -> fmt::Result {
        let NotedLine(side, remark, noted) = *self;
        let Some(Noted { count, first }) = noted else {
            return Ok(());
        };
        let (letter, many) = (letter_text(side), HowMany(remark, *count));
        write!(f, "  {letter} sent {many}: {first}\n")
    }
}

/// The lines of a side's remarks.
#[derive(Clone, Copy)]
pub(crate) struct RemarkedLines<'a>(pub(crate) Side, pub(crate) &'a Remarked);

impl fmt::Display for RemarkedLines<'_> {
    ghost output = { λ l. Some (remarked_text l.0 l.1.now) };

    fn fmt<W: fmt::Write>(&self, f: &mut fmt::Formatter<W>) -> fmt::Result {
        let RemarkedLines(side, remarked) = *self;
        let unasked = NotedLine(side, Remark::Unasked, &remarked.unasked);
        let choked = NotedLine(side, Remark::Choked, &remarked.choked);
        let again = NotedLine(side, Remark::Again, &remarked.again);
        let unanswered = NotedLine(side, Remark::Unanswered, &remarked.unanswered);
        let elsewhere = NotedLine(side, Remark::Elsewhere, &remarked.elsewhere);
        write!(f, "{unasked}{choked}{again}{unanswered}{elsewhere}")
    }
}
