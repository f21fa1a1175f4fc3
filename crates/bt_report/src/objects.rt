//! A report as a JSON object on a line (RFC 8259).
ghost use Rattle.std.specs.Prelude.{◌≡◌, ◌++◌, Some, codes, decimal};
ghost use Rattle.bt_report.specs.Objects.{before_member, body_members, closed_member, count_member, direction_object, final_member, gap_members, guess_member};
ghost use Rattle.bt_report.specs.Objects.{judged_members, last_member, left_member, note_member, noted_member, odd_members, receiver_object, remarked_members};
ghost use Rattle.bt_report.specs.Objects.{report_object, sender_member, told_members, unread_member, verdict_object, why_member};

use crate::ends::Ends;
use crate::printing::end_of;
use crate::quoted::Quoted;
use crate::report::{Before, Body, Closed, Direction, End, Left, Report, Sender, Told};
use crate::sides::{count_of, note_of, number_of};
use crate::why::Why;
use bt_remarks::Side;
use bt_rows::{
    HexNumber, IfNumber, Last, Noted, RefusedMessage, Remarked, SaidObject, Time, VerdictMembers,
    letter_text,
};
use bt_tcp::{Gap, Gaps};
use bt_text::ended::Ended;
use bt_wire::Own;
use std::fmt;

/// Who the sender is.
#[derive(Clone, Copy)]
struct SenderMember<'a>(&'a Sender);

impl fmt::Display for SenderMember<'_> {
    ghost output = { λ s. Some (sender_member s.0.now) };

    fn fmt<W: fmt::Write>(&self, f: &mut fmt::Formatter<W>) -> fmt::Result {
        match self.0 {
            Sender::Unknown(sent) => write!(f, "{{\"sent\":{sent}"),
            Sender::Known(judged) => {
                let name = Quoted(&judged.title);
                write!(f, "{{\"name\":\"{name}\"")
            }
        }
    }
}

/// A count under its key, if there is something.
#[derive(Clone, Copy)]
struct IfCounted(&'static str, u64);

impl fmt::Display for IfCounted {
    ghost output = { λ c. Some (count_member c.0.now c.1) };

    fn fmt<W: fmt::Write>(&self, f: &mut fmt::Formatter<W>) -> fmt::Result {
        let IfCounted(key, count) = *self;
        if count == 0 {
            return Ok(());
        }
        write!(f, "{key}{count}")
    }
}

/// Returns the member that says that a gap is final, if it is.
fn if_final(is_final: bool) -> &'static str
    ensures { result.now ≡ final_member is_final }
{
    if is_final { ",\"final\":true" } else { "" }
}

/// The first gap and how many there are, if there is one.
#[derive(Clone, Copy)]
struct GapMembers<'a> {
    gaps: &'a Gaps,
    is_final: bool,
}

impl fmt::Display for GapMembers<'_> {
    ghost output = { λ g. Some (gap_members g.gaps.now.first g.is_final g.gaps.now.count g.gaps.now.sum) };

    fn fmt<W: fmt::Write>(&self, f: &mut fmt::Formatter<W>) -> fmt::Result {
        let Gaps { first, count, sum } = self.gaps;
        let Some(Gap { place, length }) = first else {
            return Ok(());
        };
        let last = if_final(self.is_final);
        write!(
            f,
            ",\"gap\":{{\"offset\":{place},\"bytes\":{length}{last}}},\"gaps\":{count},\"missing\":{sum}"
        )
    }
}

/// Why a verdict is a refusal, if nothing limits it and what is refused is there.
#[derive(Clone, Copy)]
struct WhyMember<'a> {
    ended: &'a Ended,
    note: &'static str,
    message: &'a Option<RefusedMessage>,
    own: &'a Own,
}

impl fmt::Display for WhyMember<'_> {
    ghost output = { λ w. Some (why_member w.ended.now w.note.now w.message.now w.own.now) };

    fn fmt<W: fmt::Write>(&self, f: &mut fmt::Formatter<W>) -> fmt::Result {
        match (self.ended, self.note.as_bytes(), self.message) {
            (Ended::Refused(refusal), [], Some(message)) => {
                let why = Why {
                    refusal: *refusal,
                    message: *message,
                    own: self.own,
                };
                let sentence = Quoted(&why);
                write!(f, ",\"why\":\"{sentence}\"")
            }
            _ => Ok(()),
        }
    }
}

/// What a verdict is limited by, if it is.
#[derive(Clone, Copy)]
struct NoteMember(&'static str);

impl fmt::Display for NoteMember {
    ghost output = { λ n. Some (note_member n.0.now) };

    fn fmt<W: fmt::Write>(&self, f: &mut fmt::Formatter<W>) -> fmt::Result {
        let note = self.0;
        if note.is_empty() {
            return Ok(());
        }
        write!(f, ",\"note\":\"{note}\"")
    }
}

/// A verdict as an object under its key.
#[derive(Clone, Copy)]
struct VerdictObject<'a>(&'static str, WhyMember<'a>);

impl fmt::Display for VerdictObject<'_> {
    ghost output = { λ v. Some (verdict_object v.0.now v.1.ended.now v.1.note.now v.1.message.now v.1.own.now) };

    fn fmt<W: fmt::Write>(&self, f: &mut fmt::Formatter<W>) -> fmt::Result {
        let VerdictObject(key, why) = *self;
        let (verdict, note) = (VerdictMembers(*why.ended), NoteMember(why.note));
        write!(f, "{key}{verdict}{why}{note}}}")
    }
}

/// Returns the end of a receiver's object, after whether it is a guess.
fn guess(is_guessed: bool) -> &'static str
    ensures { result.now ≡ guess_member is_guessed }
{
    if is_guessed {
        ",\"guessed\":true}"
    } else {
        "}"
    }
}

/// The receiver as an object under its key.
#[derive(Clone, Copy)]
struct ReceiverObject<'a> {
    own: &'a Own,
    is_guessed: bool,
}

impl fmt::Display for ReceiverObject<'_> {
    ghost output = { λ r. Some (receiver_object r.own.now r.is_guessed) };

    fn fmt<W: fmt::Write>(&self, f: &mut fmt::Formatter<W>) -> fmt::Result {
        let own = self.own;
        let reserved = HexNumber(own.reserved.0);
        let metadata = IfNumber(",\"metadata_id\":", number_of(own.reg.metadata()));
        let donthave = IfNumber(",\"donthave_id\":", number_of(own.reg.donthave()));
        let pieces = IfNumber(",\"pieces\":", count_of(own.pieces));
        let last = guess(self.is_guessed);
        write!(
            f,
            ",\"receiver\":{{\"reserved\":\"{reserved}\"{metadata}{donthave}{pieces}{last}"
        )
    }
}

/// The verdicts and the receiver, if the side has a handshake.
#[derive(Clone, Copy)]
struct JudgedMembers<'a> {
    side: Side,
    has_gap: bool,
    close: End,
    sender: &'a Sender,
}

impl fmt::Display for JudgedMembers<'_> {
    ghost output = { λ j. Some (judged_members j.side j.has_gap j.close j.sender.now) };

    fn fmt<W: fmt::Write>(&self, f: &mut fmt::Formatter<W>) -> fmt::Result {
        let Sender::Known(judged) = self.sender else {
            return Ok(());
        };
        let own = &judged.receiver;
        let free = WhyMember {
            ended: &judged.free,
            note: note_of(&judged.free, self.has_gap, self.close, self.side),
            message: &judged.free_message,
            own,
        };
        let bep = WhyMember {
            ended: &judged.bep,
            note: note_of(&judged.bep, self.has_gap, self.close, self.side),
            message: &judged.bep_message,
            own,
        };
        let free = VerdictObject(",\"free\":{", free);
        let bep = VerdictObject(",\"bep\":{", bep);
        let receiver = ReceiverObject {
            own,
            is_guessed: judged.is_guessed,
        };
        write!(f, "{free}{bep}{receiver}")
    }
}

/// How many events have a remark, under its key.
#[derive(Clone, Copy)]
struct NotedCount(&'static str, u64);

impl fmt::Display for NotedCount {
    ghost output = { λ n. Some (n.0.now ++ (decimal n.1 ++ codes ",\"first\":")) };

    fn fmt<W: fmt::Write>(&self, f: &mut fmt::Formatter<W>) -> fmt::Result {
        let NotedCount(key, count) = *self;
        write!(f, "{key}{count},\"first\":")
    }
}

/// A remark under its key, if there are events that have it.
#[derive(Clone, Copy)]
struct NotedMember<'a>(&'static str, &'a Option<Noted>);

impl fmt::Display for NotedMember<'_> {
    ghost output = { λ n. Some (noted_member n.0.now n.1.now) };

    fn fmt<W: fmt::Write>(&self, f: &mut fmt::Formatter<W>) -> fmt::Result {
        let NotedMember(key, noted) = *self;
        let Some(noted) = noted else {
            return Ok(());
        };
        let (count, first) = (NotedCount(key, noted.count), SaidObject(noted.first));
        write!(f, "{count}{first}}}")
    }
}

/// A side's remarks.
#[derive(Clone, Copy)]
struct RemarkedMembers<'a>(&'a Remarked);

impl fmt::Display for RemarkedMembers<'_> {
    ghost output = { λ r. Some (remarked_members r.0.now) };

    fn fmt<W: fmt::Write>(&self, f: &mut fmt::Formatter<W>) -> fmt::Result {
        let remarked = self.0;
        let unasked = NotedMember(",\"unasked\":{\"count\":", &remarked.unasked);
        let choked = NotedMember(",\"choked\":{\"count\":", &remarked.choked);
        let again = NotedMember(",\"again\":{\"count\":", &remarked.again);
        let unanswered = NotedMember(",\"unanswered\":{\"count\":", &remarked.unanswered);
        let elsewhere = NotedMember(",\"elsewhere\":{\"count\":", &remarked.elsewhere);
        write!(f, "{unasked}{choked}{again}{unanswered}{elsewhere}")
    }
}

/// What is odd in a direction's bytes.
#[derive(Clone, Copy)]
struct OddMembers<'a>(&'a Direction);

impl fmt::Display for OddMembers<'_> {
    ghost output = { λ o. Some (odd_members o.0.now) };

    fn fmt<W: fmt::Write>(&self, f: &mut fmt::Formatter<W>) -> fmt::Result {
        let direction = self.0;
        let exchange = IfCounted(",\"exchange\":", direction.exchange);
        let conflicts = IfCounted(",\"conflicts\":", direction.conflicts);
        let strays = IfCounted(",\"strays\":", direction.strays);
        write!(f, "{exchange}{conflicts}{strays}")
    }
}

/// A direction and its side's remarks.
#[derive(Clone, Copy)]
struct DirectionObject<'a> {
    side: Side,
    close: End,
    direction: &'a Direction,
    remarked: &'a Remarked,
}

impl fmt::Display for DirectionObject<'_> {
    ghost output = { λ d. Some (direction_object d.side d.close d.direction.now d.remarked.now) };

    fn fmt<W: fmt::Write>(&self, f: &mut fmt::Formatter<W>) -> fmt::Result {
        let direction = self.direction;
        let sender = SenderMember(&direction.sender);
        let odd = OddMembers(direction);
        let gaps = GapMembers {
            gaps: &direction.gaps,
            is_final: direction.is_final,
        };
        let judged = JudgedMembers {
            side: self.side,
            has_gap: direction.gaps.first.is_some(),
            close: self.close,
            sender: &direction.sender,
        };
        let remarked = RemarkedMembers(self.remarked);
        write!(f, "{sender}{odd}{gaps}{judged}{remarked}}}")
    }
}

/// The last that a side had sent, if it had sent something.
#[derive(Clone, Copy)]
struct LastMember<'a>(&'a Last);

impl fmt::Display for LastMember<'_> {
    ghost output = { λ l. Some (last_member l.0.now) };

    fn fmt<W: fmt::Write>(&self, f: &mut fmt::Formatter<W>) -> fmt::Result {
        match self.0 {
            Last::Nothing => Ok(()),
            Last::Item(said) => {
                let item = SaidObject(*said);
                write!(f, ",\"last\":{item}")
            }
            Last::Refused(refusal) => {
                let refused = VerdictMembers(Ended::Refused(*refusal));
                write!(f, ",\"last\":{{{refused}}}")
            }
        }
    }
}

/// What a side had sent under its key, if it has a whole handshake.
#[derive(Clone, Copy)]
struct BeforeMember<'a>(&'static str, &'a Option<Before>);

impl fmt::Display for BeforeMember<'_> {
    ghost output = { λ b. Some (before_member b.0.now b.1.now) };

    #[tactic(auto, using(std::proofs::lemmas::List::append_assoc))]
    fn fmt<W: fmt::Write>(&self, f: &mut fmt::Formatter<W>) -> fmt::Result {
        let BeforeMember(key, before) = *self;
        let Some(Before { sent, last }) = before else {
            return Ok(());
        };
        let last = LastMember(last);
        write!(f, "{key}{sent}{last}}}")
    }
}

/// Returns how an open connection was left; nothing if the capture ended.
fn if_left(left: Left) -> &'static str
    ensures { result.now ≡ left_member left }
{
    match left {
        Left::Open => "",
        Left::Unread => ",\"not_read_further\":true",
        Left::Replaced => ",\"replaced\":true",
    }
}

/// Returns the member if a closed connection wasn't read further, or nothing.
fn if_unread(left: Left) -> &'static str
    ensures { result.now ≡ unread_member left }
{
    match left {
        Left::Open => "",
        Left::Unread => if_left(left),
        Left::Replaced => "",
    }
}

/// How a connection was closed, and how it was left.
#[derive(Clone, Copy)]
struct ClosedMember<'a> {
    closed: &'a Option<Closed>,
    left: Left,
}

impl fmt::Display for ClosedMember<'_> {
    ghost output = { λ c. Some (closed_member c.closed.now c.left) };

    fn fmt<W: fmt::Write>(&self, f: &mut fmt::Formatter<W>) -> fmt::Result {
        let left = self.left;
        let Some(closed) = self.closed else {
            return f.write_str(if_left(left));
        };
        let (side, by, time) = (letter_text(closed.first), closed.by, Time(closed.at));
        let a = BeforeMember(",\"a\":{\"sent\":", &closed.a);
        let b = BeforeMember(",\"b\":{\"sent\":", &closed.b);
        let unread = if_unread(left);
        write!(
            f,
            ",\"closed\":{{\"side\":\"{side}\",\"by\":\"{by}\",\"time\":{time}{a}{b}}}{unread}"
        )
    }
}

/// What is told of a BitTorrent connection.
#[derive(Clone, Copy)]
struct ToldMembers<'a>(&'a Told);

impl fmt::Display for ToldMembers<'_> {
    ghost output = { λ t. Some (told_members t.0.now) };

    fn fmt<W: fmt::Write>(&self, f: &mut fmt::Formatter<W>) -> fmt::Result {
        let told = self.0;
        let close = end_of(told);
        let a = DirectionObject {
            side: Side::A,
            close,
            direction: &told.a,
            remarked: &told.remarked_a,
        };
        let b = DirectionObject {
            side: Side::B,
            close,
            direction: &told.b,
            remarked: &told.remarked_b,
        };
        let closed = ClosedMember {
            closed: &told.closed,
            left: told.left,
        };
        write!(f, ",\"from_a\":{a},\"from_b\":{b}{closed}}}\n")
    }
}

/// What comes after the addresses.
#[derive(Clone, Copy)]
struct BodyMembers<'a>(&'a Body);

impl fmt::Display for BodyMembers<'_> {
    ghost output = { λ b. Some (body_members b.0.now) };

    fn fmt<W: fmt::Write>(&self, f: &mut fmt::Formatter<W>) -> fmt::Result {
        match self.0 {
            Body::NotBitTorrent => f.write_str("\",\"bittorrent\":false}\n"),
            Body::Told(told) => {
                let told = ToldMembers(told);
                write!(f, "\",\"bittorrent\":true{told}")
            }
        }
    }
}

/// A report as a JSON object on a line.
///
/// What isn't known is left out.
#[derive(Clone, Copy)]
pub struct ReportObject<'a>(pub &'a Report);

impl fmt::Display for ReportObject<'_> {
    ghost output = { λ o. Some (report_object o.0.now) };

    #[tactic(auto, using(std::proofs::lemmas::List::append_assoc))]
    fn fmt<W: fmt::Write>(&self, f: &mut fmt::Formatter<W>) -> fmt::Result {
        let report = self.0;
        let ends = Ends {
            first: &report.a,
            between: "\",\"b\":\"",
            second: &report.b,
        };
        let (number, body) = (report.number, BodyMembers(&report.body));
        write!(f, "{{\"connection\":{number},\"a\":\"{ends}{body}")
    }
}
