//! Both sides of a captured connection: what was captured of each, and what was judged of it.
//!
//! What belongs to the connection itself, as its ends and its close, isn't kept here.
ghost use Rattle.bt_talk.specs.declared.terms.Terms.{Terms};
ghost use Rattle.std.specs.Prelude.{◌≡◌, [], Bool, true, false, IfOk, OnOk, Some};
ghost use Rattle.bt_talk.specs.Pasts.{Past, IsAcked, given_of as given_by};
ghost use Rattle.bt_talk.specs.Sent.{IsReady, is_wanted};
ghost use Rattle.bt_remarks.specs.declared.events.Side.{Side};
ghost use Rattle.bt_remarks.specs.declared.events.Side.TheVariants.{A, B};
ghost use Rattle.bt_talk.specs.Stages.{IsDirection, IsKnown, SpeaksAs, is_opening};
ghost use Rattle.bt_talk.specs.Talks.{is_over as is_over_by, IsEnd, Turns};

use crate::closing::Closing;
use crate::direction::Direction;
use crate::replay::{Mark, Opened, judge_both};
use crate::room::Room;
use crate::stage::receiver_between;
use crate::terms::Terms;
use crate::watch::Watch;
use bt_flow::Given;
use bt_intro::is_settled;
use bt_packet::{Flags, Segment};
use bt_remarks::Side;
use std::alloc::{AllocError, Global};

/// How many bytes of both sides an opening has at most, before it ends.
const OPENING: usize = 1_048_576;

/// How many segments an opening has.
const SEGMENTS: u32 = 4_096;

/// Returns what a segment says of its sender's stream.
pub(crate) fn given_of<'a>(segment: &Segment<'a>) -> Given<'a>
    ensures { result ≡ given_by segment.now }
{
    Given {
        sequence: segment.sequence,
        syn: segment.flags.syn,
        fin: segment.flags.fin,
        payload: segment.payload,
        length: segment.length,
    }
}

/// Takes the acknowledgement of a segment by the other side, if it has one.
fn hear(to: &mut Direction, segment: &Segment)
    ensures heard { (terms : Terms) (p other : Past) → segment.now.flags.rst ≡ false → IsDirection terms p other to.old
        → (q : Past) × IsDirection terms q other to.new × IsAcked segment.now p q × (q.front ≡ p.front) }
    ensures stage { to.new.stage ≡ to.old.stage }
    ensures cut { to.new.cut ≡ to.old.cut }
    ensures stream { to.new.flow.stream ≡ to.old.flow.stream }
    ensures noted { to.new.flow.noted ≡ to.old.flow.noted }
{
    if let Some(acked) = segment.acked {
        to.hear(acked, segment.flags.syn);
    }
}

/// Takes a segment that one side sent.
///
/// What it acknowledges comes first: an answer often acknowledges what it answers.
fn turn(
    alloc: Global,
    side: Side,
    from: &mut Direction,
    to: &mut Direction,
    segment: &Segment,
    watch: &mut Watch,
    room: &mut Room,
) -> Result<(), AllocError>
    ensures taken { OnOk result ((terms : Terms) (p q : Past) → IsDirection terms p q from.old → IsDirection terms q p to.old
        → is_opening from.old.stage ≡ is_opening to.old.stage → (t : Turns segment.now terms p q from.old to.old from.new to.new)
        × ((known : Bool) × (segment.now.flags.rst ≡ false → IsKnown to.new.stage t.q' to.new.flow known)
        × SpeaksAs side known from.old.stage p watch.old from.new.stage t.p' watch.new)
        × (room.old.out.items ≡ [] → IsReady (is_opening from.old.stage) (is_wanted side room.old.wanted) p t.p' room.new.out.items)) }
    ensures from { OnOk result (is_opening from.new.stage ≡ is_opening from.old.stage) }
    ensures to { OnOk result (to.new.stage ≡ to.old.stage) }
    ensures cut { OnOk result (from.new.cut ≡ from.old.cut) }
    ensures cut_to { OnOk result (to.new.cut ≡ to.old.cut) }
    ensures room { room.new ≡ record room.old { out = room.new.out } }
{
    if segment.flags.rst {
        return Ok(());
    }
    hear(to, segment);
    watch.turn_to(side, to.is_known());
    let is_wanted = room.wants(side);
    let given = given_of(segment);
    from.take(alloc, &given, watch, is_wanted, &mut room.out)?;
    Ok(())
}

/// Tells whether an opening is over.
fn is_long(settled: bool, bytes: usize, segments: u32) -> bool
    ensures { result ≡ is_over_by settled bytes segments }
{
    settled || bytes >= OPENING || segments >= SEGMENTS
}

/// Tells whether the opening of these directions is over.
fn is_over(a: &Direction, b: &Direction, segments: u32) -> bool
    ensures { (terms : Terms) (p q : Past) → IsDirection terms p q a.now → IsDirection terms q p b.now → is_opening a.now.stage ≡ true
        → is_opening b.now.stage ≡ true → IsEnd p q segments result }
{
    let bytes = a.kept().saturating_add(b.kept());
    is_long(is_settled(&a.intro, &b.intro), bytes, segments)
}

/// Both sides of a captured connection.
///
/// In the opening their bytes are kept. At its end each side's receiver is known; after it each stream is judged as it comes.
#[derive(Drop)]
pub(crate) struct Sides {
    pub(crate) alloc: Global,
    pub(crate) a: Direction,
    pub(crate) b: Direction,
    /// How many segments came in the opening.
    pub(crate) segments: u32,
    pub(crate) marks: Vec<Mark>,
    pub(crate) watch: Watch,
}

impl Sides {
    ghost use Rattle.std.specs.Prelude.{length};
    ghost use Rattle.bt_talk.specs.Cuts.{cut_after};
    ghost use Rattle.bt_talk.specs.Replays.{IsOpened, HasOpened};
    ghost use Rattle.bt_talk.specs.Sent.{IsSent};
    ghost use Rattle.bt_talk.specs.Shows.{Appends};
    ghost use Rattle.bt_talk.specs.Talks.{AreSides, HasExchanged, Opens, Settles, are_in_opening, cut_in, direction_in, flow_in, of_side};

    /// Returns what is kept of a side's stream.
    pub(crate) fn direction(&self, side: Side) -> &Direction
        ensures { result.now ≡ direction_in side self.now }
    {
        match side {
            Side::A => &self.a,
            Side::B => &self.b,
        }
    }

    /// Takes a segment that a side sent.
    pub(crate) fn exchange(
        &mut self,
        side: Side,
        segment: &Segment,
        room: &mut Room,
    ) -> Result<(), AllocError>
        ensures taken { OnOk result (HasExchanged segment.now side room.old room.new self.old self.new) }
        ensures opening { OnOk result (are_in_opening self.new ≡ are_in_opening self.old) }
        ensures cuts { OnOk result ((k : Side) → cut_in k self.new ≡ cut_in k self.old) }
        ensures silent { OnOk result ((terms : Terms) (a b : Past) → AreSides terms a b self.old → are_in_opening self.old ≡ true
            → Appends [] self.old.watch.rows self.new.watch.rows) }
        ensures segments { self.new.segments ≡ self.old.segments }
        ensures marks { self.new.marks ≡ self.old.marks }
        ensures room { room.new ≡ record room.old { out = room.new.out } }
    {
        match side {
            Side::A => {
                turn(
                    self.alloc,
                    Side::A,
                    &mut self.a,
                    &mut self.b,
                    segment,
                    &mut self.watch,
                    room,
                )?;
                Ok(())
            }
            Side::B => {
                turn(
                    self.alloc,
                    Side::B,
                    &mut self.b,
                    &mut self.a,
                    segment,
                    &mut self.watch,
                    room,
                )?;
                Ok(())
            }
        }
    }

    /// Judges what came in the opening, each side by its receiver.
    fn judge_opening(&mut self, terms: &Terms) -> Result<(Opened, Opened), AllocError>
        ensures open { IfOk result (λ both. (is_opening both.0.stage ≡ false) × (is_opening both.1.stage ≡ false)) }
        ensures judged { IfOk result (λ both. (a b : Past) → AreSides terms.now a b self.old → are_in_opening self.old ≡ true
            → IsOpened terms.now a b (cut_in A self.old) both.0 × IsOpened terms.now b a (cut_in B self.old) both.1
            × HasOpened self.old.marks.items a b both.0.stage both.1.stage self.new.watch self.old.watch.rows self.new.watch.rows) }
        ensures rest { self.new ≡ record self.old { watch = self.new.watch } }
    {
        let of_a = receiver_between(&self.b.intro, &self.a.intro, terms);
        let of_b = receiver_between(&self.a.intro, &self.b.intro, terms);
        let a = self.a.replay(self.alloc, of_a)?;
        let b = self.b.replay(self.alloc, of_b)?;
        let both = judge_both(a, b, &self.marks, &mut self.watch)?;
        Ok(both)
    }

    /// Hands out what the wanted side sent in the opening, from its handshake on, or from its first byte if none started in it.
    fn hand_out(&self, room: &mut Room) -> Result<(), AllocError>
        ensures sent { OnOk result ((terms : Terms) (a b : Past) (side : Side) → AreSides terms a b self.now → are_in_opening self.now ≡ true → room.old.wanted ≡ Some side
            → room.old.out.items ≡ [] → IsSent false (of_side side a b) room.new.out.items) }
        ensures room { room.new ≡ record room.old { out = room.new.out } }
    {
        match room.wanted {
            Some(side) => {
                self.direction(side).hand_out(&mut room.out)?;
                Ok(())
            }
            None => Ok(()),
        }
    }

    /// Gives each side its receiver, and judges what came in the opening.
    pub(crate) fn open(&mut self, terms: &Terms, room: &mut Room) -> Result<(), AllocError>
        ensures open { OnOk result (are_in_opening self.new ≡ false) }
        ensures kept { OnOk result ((a b : Past) → AreSides terms.now a b self.old → AreSides terms.now a b self.new) }
        ensures opened { OnOk result ((a b : Past) → AreSides terms.now a b self.old → are_in_opening self.old ≡ true
            → HasOpened self.old.marks.items a b self.new.a.stage self.new.b.stage self.new.watch self.old.watch.rows self.new.watch.rows) }
        ensures open_already { OnOk result (are_in_opening self.old ≡ false → self.new ≡ self.old) }
        ensures cuts { OnOk result ((a b : Past) (side : Side) → AreSides terms.now a b self.old → cut_in side self.new ≡ cut_in side self.old) }
        ensures flows { OnOk result ((side : Side) → flow_in side self.new ≡ flow_in side self.old) }
        ensures segments { self.new.segments ≡ self.old.segments }
        ensures sent { OnOk result ((a b : Past) (side : Side) → AreSides terms.now a b self.old → are_in_opening self.old ≡ true → room.old.wanted ≡ Some side
            → room.old.out.items ≡ [] → IsSent (are_in_opening self.new) (of_side side a b) room.new.out.items) }
        ensures room_already { OnOk result (are_in_opening self.old ≡ false → room.new ≡ room.old) }
        ensures room { room.new ≡ record room.old { out = room.new.out } }
    {
        if !self.a.is_opening() {
            return Ok(());
        }
        self.hand_out(room)?;
        let (of_a, of_b) = self.judge_opening(terms)?;
        self.a.open(of_a);
        self.b.open(of_b);
        self.marks = Vec::new(self.alloc);
        Ok(())
    }

    /// Ends the opening, if it is over.
    pub(crate) fn settle(&mut self, terms: &Terms, room: &mut Room) -> Result<(), AllocError>
        ensures settles { OnOk result ((a b : Past) → AreSides terms.now a b self.old → Settles terms.now a b self.old self.new) }
        ensures watch { OnOk result (are_in_opening self.old ≡ false → self.new.watch ≡ self.old.watch) }
        ensures opened { OnOk result ((a b : Past) → AreSides terms.now a b self.old → are_in_opening self.old ≡ true → Opens a b self.old self.new) }
        ensures marks { OnOk result (are_in_opening self.new ≡ true → self.new.marks ≡ self.old.marks) }
        ensures after { OnOk result (are_in_opening self.old ≡ false → are_in_opening self.new ≡ false) }
        ensures stages { OnOk result (are_in_opening self.old ≡ false → (self.new.a.stage ≡ self.old.a.stage) × (self.new.b.stage ≡ self.old.b.stage)) }
        ensures cuts { OnOk result ((a b : Past) (side : Side) → AreSides terms.now a b self.old → cut_in side self.new ≡ cut_in side self.old) }
        ensures flows { OnOk result ((side : Side) → flow_in side self.new ≡ flow_in side self.old) }
        ensures sent { OnOk result ((a b : Past) (side : Side) → AreSides terms.now a b self.old → are_in_opening self.old ≡ true → room.old.wanted ≡ Some side
            → room.old.out.items ≡ [] → IsSent (are_in_opening self.new) (of_side side a b) room.new.out.items) }
        ensures room_already { OnOk result (are_in_opening self.old ≡ false → room.new ≡ room.old) }
        ensures room { room.new ≡ record room.old { out = room.new.out } }
    {
        if !self.a.is_opening() {
            return Ok(());
        }
        self.segments = self.segments.saturating_add(1);
        if !is_over(&self.a, &self.b, self.segments) {
            return Ok(());
        }
        self.open(terms, room)?;
        Ok(())
    }

    /// Notes what both sides had sent, if these flags close the connection first.
    pub(crate) fn cut(&mut self, flags: Flags, closing: &Closing)
        ensures kept { (terms : Terms) (a b : Past) → AreSides terms a b self.old → AreSides terms a b self.new }
        ensures cuts { (terms : Terms) (a b : Past) (side : Side) → AreSides terms a b self.old
            → cut_in side self.new ≡ cut_after flags closing.now.closed (length (of_side side a b).out) (cut_in side self.old) }
        ensures flows { (side : Side) → flow_in side self.new ≡ flow_in side self.old }
        ensures opening { are_in_opening self.new ≡ are_in_opening self.old }
        ensures stages { (self.new.a.stage ≡ self.old.a.stage) × (self.new.b.stage ≡ self.old.b.stage) }
        ensures watch { self.new.watch ≡ self.old.watch }
        ensures segments { self.new.segments ≡ self.old.segments }
        ensures marks { self.new.marks ≡ self.old.marks }
    {
        if closing.closes_first(flags) {
            self.a.close(self.watch.a.last());
            self.b.close(self.watch.b.last());
        }
    }
}
