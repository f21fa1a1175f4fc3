//! The lines of one direction of a connection.
ghost use Rattle.std.specs.Prelude.{◌≡◌};
ghost use Rattle.bt_report.specs.Sides.{cut_note, guess_text, late_text, note, segments_word as segments_word_of};

use crate::report::{Direction, End, Judged, Left, Sender};
use crate::why::WhyLine;
use bt_remarks::Side;
use bt_rows::{HexNumber, IfNumber, RefusalText, letter_text};
use bt_tcp::Gaps;
use bt_text::ended::Ended;
use bt_wire::{Own, Reason};
use std::fmt;

/// Who the sender is.
#[derive(Clone, Copy)]
struct SenderLine<'a>(Side, &'a Sender);

impl fmt::Display for SenderLine<'_> {
    ghost use Rattle.std.specs.Prelude.{Some};
    ghost use Rattle.bt_report.specs.Sides.{sender_text};

    ghost output = { λ s. Some (sender_text s.0 s.1.now) };

    fn fmt<W: fmt::Write>(&self, f: &mut fmt::Formatter<W>) -> fmt::Result {
        let letter = letter_text(self.0);
        match self.1 {
            Sender::Unknown(sent) => {
                write!(f, "  {letter} sent {sent} bytes and no whole handshake\n")
            }
            Sender::Known(judged) => {
                let title = judged.title;
                write!(f, "  {letter} {title}\n")
            }
        }
    }
}

/// Where the handshake is, if a key exchange comes before it.
#[derive(Clone, Copy)]
struct Exchange(u64);

impl fmt::Display for Exchange {
    ghost use Rattle.std.specs.Prelude.{Some};
    ghost use Rattle.bt_report.specs.Sides.{exchange_text};

    ghost output = { λ e. Some (exchange_text e.0) };

    fn fmt<W: fmt::Write>(&self, f: &mut fmt::Formatter<W>) -> fmt::Result {
        let exchange = self.0;
        if exchange == 0 {
            return Ok(());
        }
        write!(
            f,
            "    handshake after {exchange} bytes of a key exchange; offsets count from it\n"
        )
    }
}

/// How many bytes came again with another value, if any did.
#[derive(Clone, Copy)]
struct Conflicts(u64);

impl fmt::Display for Conflicts {
    ghost use Rattle.std.specs.Prelude.{Some};
    ghost use Rattle.bt_report.specs.Sides.{conflicts_text};

    ghost output = { λ c. Some (conflicts_text c.0) };

    fn fmt<W: fmt::Write>(&self, f: &mut fmt::Formatter<W>) -> fmt::Result {
        let conflicts = self.0;
        if conflicts == 0 {
            return Ok(());
        }
        write!(
            f,
            "    repeated with other bytes: {conflicts}; the first ones count\n"
        )
    }
}

/// Returns the word for so many segments.
fn segments_word(count: u64) -> &'static str
    ensures { result.now ≡ segments_word_of count }
{
    if count == 1 { " segment" } else { " segments" }
}

/// How many segments weren't in the window of their receiver, if any weren't.
#[derive(Clone, Copy)]
struct Strays(u64);

impl fmt::Display for Strays {
    ghost use Rattle.std.specs.Prelude.{Some};
    ghost use Rattle.bt_report.specs.Sides.{strays_text};

    ghost output = { λ s. Some (strays_text s.0) };

    fn fmt<W: fmt::Write>(&self, f: &mut fmt::Formatter<W>) -> fmt::Result {
        let strays = self.0;
        if strays == 0 {
            return Ok(());
        }
        let word = segments_word(strays);
        write!(f, "    {strays}{word} outside the window\n")
    }
}

/// How many gaps there are and how many bytes they have, if there is more than one.
#[derive(Clone, Copy)]
struct More(u64, u64);

impl fmt::Display for More {
    ghost use Rattle.std.specs.Prelude.{Some};
    ghost use Rattle.bt_report.specs.Sides.{more_text};

    ghost output = { λ m. Some (more_text m.0 m.1) };

    fn fmt<W: fmt::Write>(&self, f: &mut fmt::Formatter<W>) -> fmt::Result {
        let More(count, sum) = *self;
        if count < 2 {
            return Ok(());
        }
        write!(f, "; {count} gaps, {sum} bytes in all")
    }
}

/// Returns that bytes of a gap may have come too late, if it is final.
fn late(is_final: bool) -> &'static str
    ensures { result.now ≡ late_text is_final }
{
    if is_final {
        ", or came more than 15 MiB late"
    } else {
        ""
    }
}

/// The first gap, if there is one, and whether it is final.
#[derive(Clone, Copy)]
struct GapsLine(Gaps, bool);

impl fmt::Display for GapsLine {
    ghost use Rattle.std.specs.Prelude.{Some};
    ghost use Rattle.bt_report.specs.Sides.{gaps_text};

    ghost output = { λ g. Some (gaps_text g.0 g.1) };

    fn fmt<W: fmt::Write>(&self, f: &mut fmt::Formatter<W>) -> fmt::Result {
        let GapsLine(gaps, is_final) = *self;
        let Some(gap) = gaps.first else {
            return Ok(());
        };
        let (place, length) = (gap.place, gap.length);
        let (late, more) = (late(is_final), More(gaps.count, gaps.sum));
        write!(
            f,
            "    gap at {place}: {length} bytes aren't in the capture{late}{more}\n"
        )
    }
}

/// A verdict.
#[derive(Clone, Copy)]
struct Verdict(Ended);

impl fmt::Display for Verdict {
    ghost use Rattle.std.specs.Prelude.{Some};
    ghost use Rattle.bt_report.specs.Sides.{verdict_text};

    ghost output = { λ v. Some (verdict_text v.0) };

    fn fmt<W: fmt::Write>(&self, f: &mut fmt::Formatter<W>) -> fmt::Result {
        match self.0 {
            Ended::Accepted { messages, bytes } => {
                write!(f, "ok messages={messages} bytes={bytes}")
            }
            Ended::Refused(refusal) => {
                let refusal = RefusalText(refusal);
                write!(f, "{refusal}")
            }
        }
    }
}

/// Returns why a stream may end inside a message for a reason that isn't its sender's.
///
/// `close` says how the connection ended.
fn cut_note_of(has_gap: bool, close: End, side: Side) -> &'static str
    ensures { result.now ≡ cut_note has_gap close side }
{
    if has_gap {
        return "cut by the gap";
    }
    match (close, side) {
        (End::Not(Left::Open), _) => "cut by the capture's end",
        (End::Not(Left::Unread), _) => "cut: not read further",
        (End::Not(Left::Replaced), _) => "cut by a later connection",
        (End::By(Side::A), Side::A) => "",
        (End::By(Side::B), Side::B) => "",
        (End::By(_), _) => "cut by the close of the other end",
        (End::Half(Side::A), Side::A) => "",
        (End::Half(Side::B), Side::B) => "",
        (End::Half(_), _) => "cut: not read further",
    }
}

/// Returns what a verdict is limited by.
pub(crate) fn note_of(ended: &Ended, has_gap: bool, close: End, side: Side) -> &'static str
    ensures { result.now ≡ note ended.now has_gap close side }
{
    match ended {
        Ended::Accepted { .. } => { if has_gap { "up to the gap" } else { "" } }
        Ended::Refused(refusal) => match refusal.reason {
            Reason::EndInside => cut_note_of(has_gap, close, side),
            _ => "",
        },
    }
}

/// What a verdict is limited by in brackets, if it is.
#[derive(Clone, Copy)]
struct Note(&'static str);

impl fmt::Display for Note {
    ghost use Rattle.std.specs.Prelude.{Some};
    ghost use Rattle.bt_report.specs.Sides.{note_text};

    ghost output = { λ n. Some (note_text n.0.now) };

    fn fmt<W: fmt::Write>(&self, f: &mut fmt::Formatter<W>) -> fmt::Result {
        let note = self.0;
        match note.as_bytes() {
            [] => Ok(()),
            _ => write!(f, " ({note})"),
        }
    }
}

/// The line of a verdict.
#[derive(Clone, Copy)]
struct VerdictLine(&'static str, Ended, &'static str);

impl fmt::Display for VerdictLine {
    ghost use Rattle.std.specs.Prelude.{Some};
    ghost use Rattle.bt_report.specs.Sides.{verdict_line};

    ghost output = { λ v. Some (verdict_line v.0.now v.1 v.2.now) };

    fn fmt<W: fmt::Write>(&self, f: &mut fmt::Formatter<W>) -> fmt::Result {
        let VerdictLine(rules, ended, note) = *self;
        let (verdict, note) = (Verdict(ended), Note(note));
        write!(f, "{rules}{verdict}{note}\n")
    }
}

/// Returns the line's end of a receiver's options, after a hint if the receiver is a guess.
fn guess(is_guessed: bool) -> &'static str
    ensures { result.now ≡ guess_text is_guessed }
{
    if is_guessed {
        " (guessed: its receiver's handshake isn't there)\n"
    } else {
        "\n"
    }
}

/// Returns the number of an id.
pub(crate) fn number_of(id: Option<bt_ext::ExtId>) -> Option<u64>
    ensures { result ≡ id }
{
    match id {
        Some(id) => Some(u64::from(id.get())),
        None => None,
    }
}

/// Returns a count of pieces as a number of a text.
pub(crate) fn count_of(pieces: Option<u32>) -> Option<u64>
    ensures { result ≡ pieces }
{
    match pieces {
        Some(pieces) => Some(u64::from(pieces)),
        None => None,
    }
}

/// The options that describe the receiver, and whether it is a guess.
#[derive(Clone, Copy)]
struct Options<'a>(&'a Own, bool);

impl fmt::Display for Options<'_> {
    ghost use Rattle.std.specs.Prelude.{Some};
    ghost use Rattle.bt_report.specs.Sides.{options_text};

    ghost output = { λ o. Some (options_text o.0.now o.1) };

    fn fmt<W: fmt::Write>(&self, f: &mut fmt::Formatter<W>) -> fmt::Result {
        let Options(own, is_guessed) = *self;
        let reserved = HexNumber(own.reserved.0);
        let metadata = number_of(own.reg.metadata()).unwrap_or(0);
        let donthave = IfNumber(" --donthave-id ", number_of(own.reg.donthave()));
        let pieces = IfNumber(" --pieces ", count_of(own.pieces));
        let guess = guess(is_guessed);
        write!(
            f,
            "    options --reserved {reserved} --metadata-id {metadata}{donthave}{pieces}{guess}"
        )
    }
}

/// The lenient rules' verdict and its limit, and why they refuse, unless the strict rules refuse alike.
#[derive(Clone, Copy)]
struct Free<'a>(&'a Judged, &'static str);

impl fmt::Display for Free<'_> {
    ghost use Rattle.std.specs.Prelude.{Some};
    ghost use Rattle.bt_report.specs.Sides.{free_text};

    ghost output = { λ v. Some (free_text v.0.now v.1.now) };

    #[tactic(auto, unfolding(crate::specs::Sides::free_text))]
    fn fmt<W: fmt::Write>(&self, f: &mut fmt::Formatter<W>) -> fmt::Result {
        let Free(judged, note) = *self;
        let line = VerdictLine("    free ", judged.free, note);
        if judged.free == judged.bep {
            return write!(f, "{line}");
        }
        let why = WhyLine {
            ended: judged.free,
            note,
            message: judged.free_message,
            own: &judged.receiver,
        };
        write!(f, "{line}{why}")
    }
}

/// The strict rules' verdict and its limit, and why they refuse.
#[derive(Clone, Copy)]
struct Bep<'a>(&'a Judged, &'static str);

impl fmt::Display for Bep<'_> {
    ghost use Rattle.std.specs.Prelude.{Some};
    ghost use Rattle.bt_report.specs.Sides.{bep_text};

    ghost output = { λ v. Some (bep_text v.0.now v.1.now) };

    #[tactic(auto, unfolding(crate::specs::Sides::bep_text))]
    fn fmt<W: fmt::Write>(&self, f: &mut fmt::Formatter<W>) -> fmt::Result {
        let Bep(judged, note) = *self;
        let line = VerdictLine("    bep  ", judged.bep, note);
        let why = WhyLine {
            ended: judged.bep,
            note,
            message: judged.bep_message,
            own: &judged.receiver,
        };
        write!(f, "{line}{why}")
    }
}

/// The verdicts and the options of a direction, if it has a handshake.
#[derive(Clone, Copy)]
struct Verdicts<'a> {
    side: Side,
    has_gap: bool,
    close: End,
    sender: &'a Sender,
}

impl fmt::Display for Verdicts<'_> {
    ghost use Rattle.std.specs.Prelude.{Some};
    ghost use Rattle.bt_report.specs.Sides.{verdicts_text};

    ghost output = { λ v. Some (verdicts_text v.side v.has_gap v.close v.sender.now) };

    fn fmt<W: fmt::Write>(&self, f: &mut fmt::Formatter<W>) -> fmt::Result {
        let Verdicts {
            side,
            has_gap,
            close,
            sender,
        } = *self;
        let Sender::Known(judged) = sender else {
            return Ok(());
        };
        let free = Free(judged, note_of(&judged.free, has_gap, close, side));
        let bep = Bep(judged, note_of(&judged.bep, has_gap, close, side));
        let options = Options(&judged.receiver, judged.is_guessed);
        write!(f, "{free}{bep}{options}")
    }
}

/// The lines of a direction. `close` says how the connection ended.
#[derive(Clone, Copy)]
pub(crate) struct DirectionLines<'a> {
    pub(crate) side: Side,
    pub(crate) close: End,
    pub(crate) direction: &'a Direction,
}

impl fmt::Display for DirectionLines<'_> {
    ghost use Rattle.std.specs.Prelude.{Some};
    ghost use Rattle.bt_report.specs.Sides.{direction_text};

    ghost output = { λ d. Some (direction_text d.side d.close d.direction.now) };

    fn fmt<W: fmt::Write>(&self, f: &mut fmt::Formatter<W>) -> fmt::Result {
        let DirectionLines {
            side,
            close,
            direction,
        } = *self;
        let sender = SenderLine(side, &direction.sender);
        let exchange = Exchange(direction.exchange);
        let conflicts = Conflicts(direction.conflicts);
        let strays = Strays(direction.strays);
        let gaps = GapsLine(direction.gaps, direction.is_final);
        let verdicts = Verdicts {
            side,
            has_gap: direction.gaps.first.is_some(),
            close,
            sender: &direction.sender,
        };
        write!(f, "{sender}{exchange}{conflicts}{strays}{gaps}{verdicts}")
    }
}
