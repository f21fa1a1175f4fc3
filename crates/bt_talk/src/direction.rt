//! One direction of a captured connection.
ghost use Rattle.bt_talk.specs.declared.terms.Terms.{Terms};
ghost use Rattle.std.specs.Prelude.{◌≡◌, ◌<◌, ◌≤◌, ◌++◌, ◌∷◌, ℕ, List, [], Bool, false};
ghost use Rattle.std.specs.Prelude.{true, length, drop, unwrap_or, if◌then◌else◌, OnOk, IfOk, IfSome, Option, Some};
ghost use Rattle.bt_flow.specs.declared.flow.Flow.{Flow};
ghost use Rattle.bt_intro.specs.Hearing.{IsHeardOf, HasNoMemory};
ghost use Rattle.bt_intro.specs.Hellos.{IsStartOf};
ghost use Rattle.bt_judge.specs.Judges.{AreJudged};
ghost use Rattle.bt_feed.specs.Pumps.{Took};
ghost use Rattle.bt_wire.specs.declared.context.Own.{Own};
ghost use Rattle.bt_wire.specs.declared.item.Item.{Item};
ghost use Rattle.bt_talk.specs.Pasts.{Past, no_past, IsFlowOf, Adds};
ghost use Rattle.bt_talk.specs.Sent.{IsReady};
ghost use Rattle.bt_talk.specs.Receivers.{IsReceiver, IsJudgedBy, IsReceiverNow, AreItems, AreVerdicts};
ghost use Rattle.bt_talk.specs.Replays.{IsReplay, IsOpenedBy};
ghost use Rattle.bt_talk.specs.Stages.{HearsOf, IsDirection, IsStage, AreItemsIn, Speaks, is_opening, receiver_in, IsRefusedIn, IsKnown};
ghost use Rattle.bt_talk.specs.Cuts.{IsCutBy, IsLastBefore, cut_length};
ghost use Rattle.bt_talk.specs.Watching.{IsLast, Watches};

use crate::refused::{Judgement, judgement_of};
use crate::replay::{Opened, Replay};
use crate::stage::{Cut, Judged, PAGE, Stage, judge_bytes};
use crate::watch::Watch;
use bt_flow::{Flow, Given};
use bt_intro::{Introduction, Receiver};
use bt_judge::Judge;
use bt_rows::{Last, Said};
use bt_wire::Refusal;
use std::alloc::{AllocError, Global};
use std::mem::size_of;

/// One direction of a captured connection: its stream, what its sender announces, and what is done with its bytes.
#[derive(Drop)]
pub(crate) struct Direction {
    pub(crate) flow: Flow,
    pub(crate) intro: Introduction,
    pub(crate) stage: Stage,
    pub(crate) cut: Option<Cut>,
    /// How many bytes of a parser's memory were in use at most, once the stream is judged.
    used: usize,
}

/// Takes a segment of the opening.
fn take_opening(
    alloc: Global,
    flow: &mut Flow,
    intro: &mut Introduction,
    front: &mut Vec<u8>,
    given: &Given,
) -> Result<(), AllocError>
    ensures { OnOk result ((p : Past) → IsFlowOf p flow.old → IsHeardOf p.front intro.old → front.old.items ≡ p.out → p.front ≡ p.out
        → (q : Past) × IsFlowOf q flow.new × IsHeardOf q.front intro.new × (front.new.items ≡ q.out) × Adds given.now true p flow.old q flow.new) }
{
    flow.take(given, front)?;
    intro.hear(alloc, front)?;
    Ok(())
}

/// Judges bytes, and those that follow them. Mostly none do.
fn judge_parts(
    judge: &mut Judge,
    fresh: &[u8],
    later: &[u8],
    watch: &mut Watch,
) -> Result<(), AllocError>
    ensures { OnOk result ((own : Own) (b : List ℕ) (xs ys : List (ℕ × Item)) → AreJudged own b xs ys judge.old
        → (more strict : List (ℕ × Item)) × AreJudged own (b ++ (fresh.now ++ later.now)) (xs ++ more) (ys ++ strict) judge.new
        × Took Watches watch.old more watch.new) }
{
    judge_bytes(judge, fresh, watch)?;
    if later.is_empty() {
        return Ok(());
    }
    judge_bytes(judge, later, watch)?;
    Ok(())
}

/// Puts bytes before those that follow them, if they are wanted; otherwise it drops these.
fn put_first(fresh: &[u8], is_wanted: bool, out: &mut Vec<u8>) -> Result<(), AllocError>
    ensures { OnOk result (out.new.items ≡ (if is_wanted then fresh.now ++ out.old.items else [])) }
{
    if !is_wanted {
        out.clear();
        return Ok(());
    }
    out.extend_from_slice(fresh)?;
    out.rotate_right(fresh.len());
    Ok(())
}

/// Takes a segment of a stream that is judged, and hands its bytes out if they are wanted.
fn take_judged(
    flow: &mut Flow,
    judge: &mut Judge,
    given: &Given,
    watch: &mut Watch,
    is_wanted: bool,
    out: &mut Vec<u8>,
) -> Result<(), AllocError>
    ensures { OnOk result ((own : Own) (p : Past) (later : List ℕ) → IsFlowOf p flow.old → p.out ≡ p.front ++ later → IsJudgedBy own p judge.old
        → (q : Past) × IsFlowOf q flow.new × IsJudgedBy own q judge.new × Adds given.now false p flow.old q flow.new
        × ((xs : List (ℕ × Item)) → AreItems own p xs → (more : List (ℕ × Item)) × AreItems own q (xs ++ more) × Took Watches watch.old more watch.new)
        × IsReady false is_wanted p q out.new.items) }
{
    out.clear();
    let fresh = flow.take_next(given, out)?;
    judge_parts(judge, fresh, out, watch)?;
    put_first(fresh, is_wanted, out)?;
    Ok(())
}

/// Takes a segment of a stream that isn't judged, and hands its bytes out if they are wanted.
fn take_only(
    flow: &mut Flow,
    given: &Given,
    is_wanted: bool,
    out: &mut Vec<u8>,
) -> Result<(), AllocError>
    ensures { OnOk result ((p : Past) → IsFlowOf p flow.old → (q : Past) × IsFlowOf q flow.new × Adds given.now false p flow.old q flow.new
        × IsReady false is_wanted p q out.new.items) }
{
    out.clear();
    let fresh = flow.take_next(given, out)?;
    put_first(fresh, is_wanted, out)?;
    Ok(())
}

/// Returns the last of a stream up to here, if it is judged; `item` is its last item.
fn last_in(stage: &Stage, item: &Option<Said>) -> Last
    ensures { (terms : Terms) (p other : Past) (xs : List (ℕ × Item)) → IsStage terms p other stage.now → AreItemsIn stage.now p xs
        → IsLast xs item.now → IsCutBy (receiver_in stage.now) p.front p.out result }
{
    match stage {
        Stage::Opening(_) => Last::Nothing,
        Stage::Open(judged) => judged.last(item),
        Stage::Stranger => Last::Nothing,
    }
}

impl Direction {
    /// Returns a direction of which nothing was captured.
    pub(crate) fn new(alloc: Global) -> Direction
        ensures is { (terms : Terms) (other : Past) → IsDirection terms no_past other result }
        ensures opening { is_opening result.stage ≡ true }
    {
        Direction {
            flow: Flow::new(alloc),
            intro: Introduction::new(),
            stage: Stage::Opening(Vec::new(alloc)),
            cut: None,
            used: 0,
        }
    }

    /// Tells whether the opening isn't over.
    pub(crate) fn is_opening(&self) -> bool
        ensures { result ≡ is_opening self.now.stage }
    {
        match &self.stage {
            Stage::Opening(_) => true,
            Stage::Open(_) => false,
            Stage::Stranger => false,
        }
    }

    /// Returns how many bytes of the opening are kept.
    pub(crate) fn kept(&self) -> usize
        ensures { (terms : Terms) (p other : Past) → IsDirection terms p other self.now → is_opening self.now.stage ≡ true → result ≡ length p.front }
    {
        match &self.stage {
            Stage::Opening(front) => front.len(),
            Stage::Open(_) => 0,
            Stage::Stranger => 0,
        }
    }

    /// Takes an acknowledgement by the other side, unless it is of what can't have been sent yet.
    pub(crate) fn hear(&mut self, acked: u32, opens: bool)
        ensures heard { (terms : Terms) (p other : Past) → IsDirection terms p other self.old
            → HearsOf acked opens terms p other self.new }
        ensures stage { self.new.stage ≡ self.old.stage }
        ensures cut { self.new.cut ≡ self.old.cut }
        ensures stream { self.new.flow.stream ≡ self.old.flow.stream }
        ensures noted { self.new.flow.noted ≡ self.old.flow.noted }
    {
        self.flow.hear(acked, opens);
    }

    /// Takes a segment that this side sent, which has no RST, and hands its bytes out if they are wanted.
    pub(crate) fn take(
        &mut self,
        alloc: Global,
        given: &Given,
        watch: &mut Watch,
        is_wanted: bool,
        out: &mut Vec<u8>,
    ) -> Result<(), AllocError>
        ensures taken { OnOk result ((terms : Terms) (p other : Past) → IsDirection terms p other self.old
            → (q : Past) × IsDirection terms q other self.new × Adds given.now (is_opening self.old.stage) p self.old.flow q self.new.flow
            × Speaks self.old.stage p watch.old self.new.stage q watch.new
            × (out.old.items ≡ [] → IsReady (is_opening self.old.stage) is_wanted p q out.new.items)) }
        ensures stage { OnOk result (is_opening self.new.stage ≡ is_opening self.old.stage) }
        ensures cut { OnOk result (self.new.cut ≡ self.old.cut) }
    {
        match &mut self.stage {
            Stage::Opening(front) => {
                take_opening(alloc, &mut self.flow, &mut self.intro, front, given)?;
                Ok(())
            }
            Stage::Open(judged) => {
                let flow = &mut self.flow;
                take_judged(flow, &mut judged.judge, given, watch, is_wanted, out)?;
                self.used = self.used.max(judged.used());
                Ok(())
            }
            Stage::Stranger => {
                take_only(&mut self.flow, given, is_wanted, out)?;
                Ok(())
            }
        }
    }

    /// Returns the bytes of the opening, before one is judged by this receiver.
    ///
    /// # Errors
    /// `AllocError` when out of memory.
    pub(crate) fn replay(
        &self,
        alloc: Global,
        receiver: Option<Receiver>,
    ) -> Result<Replay<'_>, AllocError>
        requires { IfSome receiver (λ r. (1 ≤ r.own.limit) × (r.own.limit ≤ 1048576)) }
        ensures { IfOk result (λ replay. (terms : Terms) (p other : Past) → is_opening self.now.stage ≡ true → IsDirection terms p other self.now
            → IsReceiver terms p other receiver → IsReplay p receiver (cut_length self.now.cut) 0 [] replay) }
    {
        match &self.stage {
            Stage::Opening(front) => {
                let replay = Replay::new(alloc, front, self.intro.start(), receiver, &self.cut)?;
                Ok(replay)
            }
            Stage::Open(_) => Ok(Replay::none(None, self.cut)),
            Stage::Stranger => Ok(Replay::none(None, self.cut)),
        }
    }

    /// Appends the bytes of the opening from the handshake on, or all of them if none started in it.
    ///
    /// # Errors
    /// `AllocError` when out of memory.
    pub(crate) fn hand_out(&self, out: &mut Vec<u8>) -> Result<(), AllocError>
        ensures { OnOk result ((terms : Terms) (p other : Past) → IsDirection terms p other self.now → is_opening self.now.stage ≡ true
            → (start : Option ℕ) × IsStartOf p.front start × (out.new.items ≡ out.old.items ++ drop (unwrap_or start 0) p.out)) }
    {
        match &self.stage {
            Stage::Opening(front) => {
                let start = self.intro.start().unwrap_or(0).min(front.len());
                let (_, kept) = front.split_at(start);
                out.extend_from_slice(kept)?;
                Ok(())
            }
            Stage::Open(_) => Ok(()),
            Stage::Stranger => Ok(()),
        }
    }

    /// Ends the opening. What this side announced stays, and takes no memory.
    pub(crate) fn open(&mut self, opened: Opened)
        ensures opens { IsOpenedBy self.old opened self.new }
        ensures free { HasNoMemory self.new.intro }
    {
        self.used = self.kept();
        self.intro.settle();
        self.stage = opened.stage;
        self.cut = opened.cut;
    }

    /// Tells whether all that this side has said up to here is known.
    pub(crate) fn is_known(&self) -> bool
        ensures { (terms : Terms) (p other : Past) → IsDirection terms p other self.now → IsKnown self.now.stage p self.now.flow result }
    {
        match &self.stage {
            Stage::Opening(_) => false,
            Stage::Open(judged) => judged.is_known() && !self.flow.has_hole(),
            Stage::Stranger => false,
        }
    }

    /// Notes what this side has sent, since the connection is closed; `item` is the last item that was judged.
    pub(crate) fn close(&mut self, item: &Option<Said>)
        ensures cut { (terms : Terms) (p other : Past) (xs : List (ℕ × Item)) → IsDirection terms p other self.old → AreItemsIn self.old.stage p xs
            → IsLast xs item.now → IsDirection terms p other self.new }
        ensures upto { (terms : Terms) (p other : Past) → IsDirection terms p other self.old → cut_length self.new.cut ≡ Some (length p.out) }
        ensures rest { self.new ≡ record self.old { cut = self.new.cut } }
    {
        self.cut = Some(Cut {
            length: self.flow.next(),
            last: last_in(&self.stage, item),
        });
    }

    /// Returns the last that this side had sent when the connection was closed.
    pub(crate) fn last_before(&self) -> Option<Last>
        ensures { (terms : Terms) (p other : Past) → IsDirection terms p other self.now
            → IsLastBefore (is_opening self.now.stage) terms p other (cut_length self.now.cut) result }
    {
        match (&self.stage, &self.cut) {
            (Stage::Opening(_), _) => None,
            (_, Some(cut)) => Some(cut.last),
            (_, None) => None,
        }
    }

    /// Returns the verdicts of the stream, if it is judged, and what is there of the messages that they refuse.
    pub(crate) fn verdicts(&self) -> Option<Judgement>
        ensures { (terms : Terms) (p other : Past) → IsDirection terms p other self.now
            → AreVerdicts (is_opening self.now.stage) terms p other result }
    {
        match &self.stage {
            Stage::Opening(_) => None,
            Stage::Open(judged) => Some(judgement_of(&judged.judge)),
            Stage::Stranger => None,
        }
    }

    /// Returns the refusal of the stream under the lenient rules, if it is judged and there is one.
    pub(crate) fn refusal(&self) -> Option<Refusal>
        ensures { (terms : Terms) (p other : Past) → IsDirection terms p other self.now → IsRefusedIn self.now.stage p result }
    {
        match &self.stage {
            Stage::Opening(_) => None,
            Stage::Open(judged) => judged.judge.refusal(),
            Stage::Stranger => None,
        }
    }

    /// Returns the receiver of the stream, if it is judged.
    pub(crate) fn receiver(&self) -> Option<Receiver>
        ensures { (terms : Terms) (p other : Past) → IsDirection terms p other self.now
            → IsReceiverNow (is_opening self.now.stage) terms p other result }
    {
        match &self.stage {
            Stage::Opening(_) => None,
            Stage::Open(judged) => Some(judged.receiver),
            Stage::Stranger => None,
        }
    }

    /// Returns about how many bytes of memory the reader takes of what this side announces, in the opening.
    fn reader_size(&self) -> usize {
        match self.intro.start() {
            Some(_) => self.kept().saturating_add(PAGE),
            None => 0,
        }
    }

    /// Returns about how many bytes of memory it takes besides its own fields.
    ///
    /// In the opening its bytes are kept twice: as they are, and by the reader of what the side announces.
    pub(crate) fn size(&self) -> usize {
        let stage = match &self.stage {
            Stage::Opening(front) => front.capacity().saturating_add(self.reader_size()),
            Stage::Open(judged) => judged.size(self.used).saturating_add(size_of::<Judged>()),
            Stage::Stranger => 0,
        };
        stage
            .saturating_add(self.intro.size())
            .saturating_add(self.flow.size())
    }
}
