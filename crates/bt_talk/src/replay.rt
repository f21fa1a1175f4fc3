//! The bytes of the opening, which are judged at its end in the order of the packets.
ghost use Rattle.bt_talk.specs.declared.terms.Terms.{Terms};
ghost use Rattle.std.specs.Prelude.{◌≡◌, ◌<◌, ◌≤◌, ◌++◌, ◌∷◌, ℕ, List, [], Bool, true, false, drop, length, max, reverse, IfOk, OnOk, IfSome, Option};
ghost use Rattle.bt_intro.specs.declared.settling.Receiver.{Receiver};
ghost use Rattle.bt_intro.specs.Hellos.{IsStartOf};
ghost use Rattle.bt_feed.specs.Pumps.{Took};
ghost use Rattle.bt_remarks.specs.declared.events.Side.{Side};
ghost use Rattle.bt_remarks.specs.Said.{other};
ghost use Rattle.bt_wire.specs.declared.item.Item.{Item};
ghost use Rattle.bt_talk.specs.Cuts.{IsCutBy, cut_length};
ghost use Rattle.bt_talk.specs.Pasts.{Past};
ghost use Rattle.bt_talk.specs.Receivers.{IsReceiver};
ghost use Rattle.bt_talk.specs.Marks.{AreMarkDeeds, HasBegun, IsKnownTo, IsRefusedBy, upto};
ghost use Rattle.bt_talk.specs.Stages.{AreItemsIn, is_opening, receiver_in};
ghost use Rattle.bt_talk.specs.Replays.{Aim, IsReplay, IsReplayBy, IsReplayOf, IsParted, IsOpened, IsFinished, GoesTo, PassesAt, PassesTo};
ghost use Rattle.bt_talk.specs.Replays.{HasOpened, Replays, AreReplayed, AreReplays, close_length, closes_to, is_passed};
ghost use Rattle.bt_talk.specs.declared.rows.Rows.{Rows};
ghost use Rattle.bt_talk.specs.Shown.{Deeds, IsSeen, Turn, deed_rows, items_by};
ghost use Rattle.bt_talk.specs.Shows.{Appends};
ghost use Rattle.bt_talk.specs.Watching.{IsLast, Watches};

use crate::closing::When;
use crate::stage::{Cut, Judged, Stage, judge_bytes};
use crate::watch::Watch;
use bt_intro::Receiver;
use bt_judge::Judge;
use bt_remarks::Side;
use bt_rows::{Last, Means, Said};
use bt_wire::Refusal;
use std::alloc::{AllocError, Global};

/// A segment of the opening that made bytes of its sender ready, or closed.
#[derive(Clone, Copy)]
pub(crate) struct Mark {
    /// Its sender.
    pub(crate) side: Side,
    /// How many bytes of the sender's stream were put together then.
    pub(crate) length: u64,
    /// Whether no byte that the other side had sent was missing.
    pub(crate) is_whole: bool,
    /// Its packet.
    pub(crate) when: When,
    /// How far the sender's captured bytes reached then.
    pub(crate) high: u64,
    /// How the sender closed with it, if it hadn't closed before.
    pub(crate) closed: Option<Means>,
}

/// Where the connection was closed in what a side sent.
#[derive(Clone, Copy)]
pub(crate) enum Close<'a> {
    /// It wasn't closed in the opening, or what came before that is judged.
    Passed(Option<Cut>),
    /// After so many bytes, which are judged next; these follow.
    Ahead(u64, &'a [u8]),
}

/// The bytes of a side's opening from its handshake on, of which the first ones are judged.
#[derive(Drop)]
pub(crate) struct Replay<'a> {
    /// How many bytes come before its handshake, if that has begun.
    start: Option<usize>,
    /// What is judged next, at most up to the close.
    rest: &'a [u8],
    /// How many bytes of the side's stream come before them.
    at: u64,
    judged: Option<Box<Judged>>,
    close: Close<'a>,
}

/// Returns where the connection is closed, and what comes before that of the bytes that start at this place.
fn part_at<'a>(bytes: &'a [u8], start: u64, cut: &Option<Cut>) -> (&'a [u8], Close<'a>)
    ensures parted { (out : List ℕ) → bytes.now ≡ drop start out → IsParted start out result.0.now result.1 }
    ensures cut { close_length result.1 ≡ cut_length cut.now }
{
    match cut {
        None => (bytes, Close::Passed(None)),
        Some(cut) => {
            let count = (cut.length.saturating_sub(start) as usize).min(bytes.len());
            let (before, after) = bytes.split_at(count);
            (before, Close::Ahead(cut.length, after))
        }
    }
}

/// What is done with the bytes of one direction after its opening.
#[derive(Drop)]
pub(crate) struct Opened {
    pub(crate) stage: Stage,
    pub(crate) cut: Option<Cut>,
}

/// Returns the last of a stream up to here, if it is judged; `item` is its last item.
fn last_of(judged: &Option<Box<Judged>>, item: &Option<Said>) -> Last
    ensures { (p : Past) (receiver : Option Receiver) (start : ℕ) (taken : List ℕ) (xs : List (ℕ × Item))
        → IsReplayBy p receiver start taken xs [] judged.now → IsLast xs item.now → IsCutBy receiver p.front p.out result }
{
    match judged {
        Some(judged) => judged.last(item),
        None => Last::Nothing,
    }
}

/// Judges the next bytes, if the stream is judged.
fn judge_more(
    judged: &mut Option<Box<Judged>>,
    bytes: &[u8],
    watch: &mut Watch,
) -> Result<(), AllocError>
    ensures { OnOk result ((p : Past) (receiver : Option Receiver) (start : ℕ) (taken : List ℕ) (xs : List (ℕ × Item)) (left : List ℕ)
        → IsReplayBy p receiver start taken xs (bytes.now ++ left) judged.old
        → (more : List (ℕ × Item)) × IsReplayBy p receiver start (taken ++ bytes.now) (xs ++ more) left judged.new × Took Watches watch.old more watch.new) }
{
    match judged {
        Some(judged) => {
            judge_bytes(&mut judged.judge, bytes, watch)?;
            Ok(())
        }
        None => Ok(()),
    }
}

impl<'a> Replay<'a> {
    /// Returns that of a side without a handshake.
    pub(crate) fn none(start: Option<usize>, cut: Option<Cut>) -> Replay<'a>
        ensures { (p : Past) → IsStartOf p.front start → IsReplay p None (cut_length cut) 0 [] result }
    {
        Replay {
            start,
            rest: &[],
            at: 0,
            judged: None,
            close: Close::Passed(cut),
        }
    }

    /// Returns that of a side which sent these bytes in the opening, before one is judged.
    ///
    /// # Errors
    /// `AllocError` when out of memory.
    pub(crate) fn new(
        alloc: Global,
        front: &'a [u8],
        start: Option<usize>,
        receiver: Option<Receiver>,
        cut: &Option<Cut>,
    ) -> Result<Replay<'a>, AllocError>
        requires { IfSome receiver (λ r. (1 ≤ r.own.limit) × (r.own.limit ≤ 1048576)) }
        ensures { IfOk result (λ replay. (terms : Terms) (p q : Past) → front.now ≡ p.out → p.front ≡ p.out → IsStartOf p.front start
            → IsReceiver terms p q receiver → IsReplay p receiver (cut_length cut.now) 0 [] replay) }
    {
        let Some(receiver) = receiver else {
            return Ok(Replay::none(start, *cut));
        };
        let Some(begin) = start else {
            return Ok(Replay::none(start, *cut));
        };
        let Some(bytes) = front.get(begin..) else {
            return Ok(Replay::none(start, *cut));
        };
        let judge = Judge::new(alloc, receiver.own)?;
        let judged = Box::new(alloc, Judged { receiver, judge })?;
        let (rest, close) = part_at(bytes, begin as u64, cut);
        Ok(Replay {
            start,
            rest,
            at: begin as u64,
            judged: Some(judged),
            close,
        })
    }

    /// Tells whether the stream is judged, and isn't refused.
    fn is_known(&self) -> bool
        ensures { (p : Past) (receiver : Option Receiver) (cut : Option ℕ) (n : ℕ) (xs : List (ℕ × Item)) → IsReplay p receiver cut n xs self.now
            → IsKnownTo receiver n p true result }
    {
        match &self.judged {
            Some(judged) => judged.is_known(),
            None => false,
        }
    }

    /// Returns the refusal of the stream under the lenient rules, if there is one.
    fn refusal(&self) -> Option<Refusal>
        ensures { (p : Past) (receiver : Option Receiver) (cut : Option ℕ) (n : ℕ) (xs : List (ℕ × Item)) → IsReplay p receiver cut n xs self.now
            → IsRefusedBy receiver (upto n p) result }
    {
        match &self.judged {
            Some(judged) => judged.judge.refusal(),
            None => None,
        }
    }

    /// Appends the rows of what a mark shows besides items, if one of the sides has begun a handshake: a refusal that stands since then,
    /// and a close.
    ///
    /// # Errors
    /// `AllocError` when out of memory.
    fn show(
        &self,
        theirs: &Replay,
        before: Option<Refusal>,
        mark: &Mark,
        watch: &mut Watch,
    ) -> Result<(), AllocError>
        ensures deeds { OnOk result ((p q : Past) (x y : Aim) (n k m : ℕ) (xs ys : List (ℕ × Item)) → IsReplay p x.receiver x.cut n xs self.now
            → IsReplay q y.receiver y.cut k ys theirs.now → IsRefusedBy x.receiver (upto m p) before
            → (deeds : Deeds) × (begun : Bool) × HasBegun p q begun × AreMarkDeeds begun x.receiver m n p mark.now deeds
            × Appends (deed_rows watch.old.rows.heading watch.old.when mark.now.side deeds) watch.old.rows watch.new.rows) }
        ensures rest { watch.new ≡ record watch.old { rows = watch.new.rows } }
    {
        let is_torrent = self.start.is_some() || theirs.start.is_some();
        if !is_torrent {
            return Ok(());
        }
        let start = self.start.unwrap_or(0) as u64;
        let offset = mark.high.saturating_sub(start);
        watch.show(mark.side, before, self.refusal(), offset, mark.closed)?;
        Ok(())
    }

    /// Judges the bytes up to this length of the side's stream, or all that are left.
    fn judge_to(&mut self, upto: u64, watch: &mut Watch) -> Result<(), AllocError>
        ensures { OnOk result ((p : Past) (receiver : Option Receiver) (cut : Option ℕ) (n : ℕ) (xs : List (ℕ × Item)) → closes_to upto self.old.close ≡ false
            → IsReplay p receiver cut n xs self.old
            → (more : List (ℕ × Item)) × IsReplay p receiver cut (max upto n) (xs ++ more) self.new × Took Watches watch.old more watch.new) }
    {
        let count = (upto.saturating_sub(self.at) as usize).min(self.rest.len());
        let (bytes, rest) = self.rest.split_at(count);
        judge_more(&mut self.judged, bytes, watch)?;
        self.rest = rest;
        self.at = self.at.saturating_add(count as u64);
        Ok(())
    }

    /// Tells whether the close is awaited, and before this length of the side's stream.
    fn closes_by(&self, upto: u64) -> bool
        ensures { result ≡ closes_to upto self.now.close }
    {
        match self.close {
            Close::Passed(_) => false,
            Close::Ahead(count, _) => count <= upto,
        }
    }

    /// Judges the bytes up to the close, if it is awaited.
    fn pass_close(&mut self, watch: &mut Watch) -> Result<(), AllocError>
        ensures passed { OnOk result (is_passed self.new.close ≡ true) }
        ensures goes_on { OnOk result (Replays (PassesAt self.old.close) self.old watch.old self.new watch.new) }
    {
        let Close::Ahead(count, after) = self.close else {
            return Ok(());
        };
        judge_more(&mut self.judged, self.rest, watch)?;
        let last = last_of(&self.judged, watch.last());
        self.at = self.at.saturating_add(self.rest.len() as u64);
        self.rest = after;
        self.close = Close::Passed(Some(Cut {
            length: count,
            last,
        }));
        Ok(())
    }

    /// Judges the bytes up to the close, if it comes before this length of the side's stream.
    fn pass_to(&mut self, upto: u64, watch: &mut Watch) -> Result<(), AllocError>
        ensures short { OnOk result (closes_to upto self.new.close ≡ false) }
        ensures goes_on { OnOk result (Replays (PassesTo upto) self.old watch.old self.new watch.new) }
    {
        if !self.closes_by(upto) {
            return Ok(());
        }
        self.pass_close(watch)?;
        Ok(())
    }
}

/// Returns where the connection was closed, once that is passed.
fn cut_in(close: Close) -> Option<Cut>
    ensures { is_passed close.entry ≡ true → close.entry ≡ Close.Passed result }
{
    match close {
        Close::Passed(cut) => cut,
        Close::Ahead(_, _) => None,
    }
}

/// Returns what is done with the bytes that follow, once all are judged.
fn after_opening(judged: Option<Box<Judged>>, close: Close) -> Opened
    ensures open { is_opening result.stage ≡ false }
    ensures opened { (terms : Terms) (p q : Past) (receiver : Option Receiver) (cut : Option ℕ) (start : ℕ) (taken : List ℕ) (xs : List (ℕ × Item))
        → IsReceiver terms p q receiver → IsReplayOf p receiver cut start taken xs [] judged close.entry → is_passed close.entry ≡ true
        → IsOpened terms p q cut result × AreItemsIn result.stage p xs × (receiver_in result.stage ≡ receiver) }
{
    let cut = cut_in(close);
    match judged {
        Some(judged) => Opened {
            stage: Stage::Open(judged),
            cut,
        },
        None => Opened {
            stage: Stage::Stranger,
            cut,
        },
    }
}

/// Judges the bytes that are left, and returns what is done with those that follow.
fn finish(mut replay: Replay, side: Side, watch: &mut Watch) -> Result<Opened, AllocError>
    ensures open { IfOk result (λ opened. is_opening opened.stage ≡ false) }
    ensures opened { IfOk result (λ opened. (since : Rows) (terms : Terms) (p q : Past) (receiver : Option Receiver) (cut : Option ℕ) (n : ℕ)
        (before : List Turn) → IsReceiver terms p q receiver → IsReplay p receiver cut n (items_by side before) replay.entry
        → IsSeen since before watch.old → IsFinished since terms p q receiver cut side before opened watch.old watch.new) }
{
    watch.turn_to(side, false);
    replay.pass_close(watch)?;
    let rest = replay.rest;
    judge_more(&mut replay.judged, rest, watch)?;
    Ok(after_opening(replay.judged, replay.close))
}

/// Judges what a segment of the first side made ready, and appends its rows.
fn go_to(
    mine: &mut Replay,
    theirs: &Replay,
    mark: &Mark,
    watch: &mut Watch,
) -> Result<(), AllocError>
    ensures { OnOk result ((since : Rows) (p q : Past) (x y : Aim) (n k : ℕ) (before : List Turn)
        → IsReplay p x.receiver x.cut n (items_by mark.now.side before) mine.old
        → IsReplay q y.receiver y.cut k (items_by (other mark.now.side) before) theirs.now → IsSeen since before watch.old
        → GoesTo since mark.now p q x.receiver y.receiver x.cut n k before mine.new watch.new) }
{
    let before = mine.refusal();
    let is_known = theirs.is_known();
    watch.turn_to(mark.side, mark.is_whole && is_known);
    watch.come_to(mark.when);
    mine.pass_to(mark.length, watch)?;
    mine.judge_to(mark.length, watch)?;
    mine.show(theirs, before, mark, watch)?;
    Ok(())
}

/// Judges what a segment made ready.
fn step(mark: &Mark, a: &mut Replay, b: &mut Replay, watch: &mut Watch) -> Result<(), AllocError>
    ensures { OnOk result (AreReplays (mark.now ∷ []) a.old b.old watch.old a.new b.new watch.new) }
{
    match mark.side {
        Side::A => {
            go_to(a, b, mark, watch)?;
            Ok(())
        }
        Side::B => {
            go_to(b, a, mark, watch)?;
            Ok(())
        }
    }
}

/// Judges what the segments of the opening made ready, in their order.
fn go_through(
    marks: &[Mark],
    a: &mut Replay,
    b: &mut Replay,
    watch: &mut Watch,
) -> Result<(), AllocError>
    ensures { OnOk result (AreReplays (reverse marks.now) a.old b.old watch.old a.new b.new watch.new) }
{
    for mark in marks {
        step(mark, a, b, watch)?;
    }
    Ok(())
}

/// Judges what came in both openings in the order of the packets, and returns what is done with the bytes that follow.
///
/// # Errors
/// `AllocError` when out of memory.
pub(crate) fn judge_both(
    mut a: Replay,
    mut b: Replay,
    marks: &[Mark],
    watch: &mut Watch,
) -> Result<(Opened, Opened), AllocError>
    ensures open { IfOk result (λ both. (is_opening both.0.stage ≡ false) × (is_opening both.1.stage ≡ false)) }
    ensures judged { IfOk result (λ both. (since : Rows) (terms : Terms) (p q : Past) (x y : Aim) → IsReceiver terms p q x.receiver
        → IsReceiver terms q p y.receiver → AreReplayed since p q x y [] a.entry b.entry watch.old
        → IsOpened terms p q x.cut both.0 × IsOpened terms q p y.cut both.1
        × HasOpened marks.now p q both.0.stage both.1.stage watch.new since watch.new.rows) }
{
    go_through(marks, &mut a, &mut b, watch)?;
    let of_a = finish(a, Side::A, watch)?;
    let of_b = finish(b, Side::B, watch)?;
    Ok((of_a, of_b))
}
