//! A stream that is read by one rule set, and its verdict.
ghost use Rattle.std.specs.Prelude.{◌≡◌, ◌<◌, ◌≤◌, ◌+◌, ◌++◌, ℕ, List, [], length, replicate, take, None, MatchResult, IfOk, OnOk, OnErr};
ghost use Rattle.bt_ext.specs.declared.ids.Rules.TheVariants.{Free};
ghost use Rattle.bt_wire.specs.declared.context.Own.{Own};
ghost use Rattle.bt_wire.specs.declared.item.Item.{Item};
ghost use Rattle.bt_feed.specs.declared.stage.Stage.{Stage};
ghost use Rattle.bt_feed.specs.Pumps.{Took, IsMissed, IsFed};
ghost use Rattle.bt_feed.specs.Stages.{start_of, limit_of};
ghost use Rattle.bt_io.specs.Counts.{Grew};
ghost use Rattle.bt_judge.specs.Holes.{free_after, MayBeAny};
ghost use Rattle.bt_judge.specs.Judges.{IsStopped, HasFailed};
ghost use Rattle.bt_judge.specs.Readings.{IsJudged, IsJudgedTo, Begins, BeginsWith, IsTold, IsStanding, IsUnread, IsPieceTaken};

use crate::fault::JudgeFault;
use crate::zeros::{lacks, push_zeros};
use bt_ext::Rules;
use bt_feed::{Feed, Finish, PumpError, Sink, SinkFault, pump_piece};
use bt_text::ended::Ended;
use bt_wire::{Own, Refusal};
use std::alloc::{AllocError, Global};
use std::marker::Model;

/// The item of a stream that isn't read.
#[derive(Clone, Copy)]
pub struct Unread<'a> {
    /// The offset at which it starts.
    pub start: u64,
    /// Its bytes that have come.
    pub bytes: &'a [u8],
}

/// Returns how many bytes a message has that begins with this length (BEP 3, peer messages).
fn awaited_by(length: [u8; 4]) -> usize {
    (u32::from_be_bytes(length) as usize).saturating_add(4)
}

/// Reads the next bytes, and returns the refusal if the stream is refused in them.
fn read<S: Sink>(feed: &mut Feed, bytes: &[u8], sink: &mut S) -> Result<Option<Refusal>, SinkFault>
    ensures read { (xs : List (ℕ × Item)) × MatchResult result
        (λ refused. Took S.takes sink.old xs sink.new × IsPieceTaken feed.old bytes.now xs feed.new refused)
        (λ e. IsMissed S.takes S.misses e sink.old xs sink.new × ((n : ℕ) × IsFed feed.old (take n bytes.now) xs feed.new)) }
    ensures emptied { OnErr result (feed.new.held ≡ []) }
    ensures limit { limit_of feed.new.stage ≤ 1048576 }
    ensures calm { OnOk result (S.failed sink.new ≡ S.failed sink.old) }
    ensures sink { OnErr result (Grew (S.failed sink.old) (S.failed sink.new)) }
{
    match pump_piece(feed, sink, bytes) {
        Ok(()) => Ok(None),
        Err(PumpError::Refused(refusal)) => Ok(Some(refusal)),
        Err(PumpError::Sink(fault)) => Err(fault),
        Err(PumpError::ReadFault) => unreachable!(),
        Err(PumpError::Turns) => unreachable!(),
    }
}

/// A stream that is read by one rule set, as its bytes come.
///
/// It has a parser, whose buffer is reserved once. However the stream is split into pieces, the items and the verdict are the same.
#[derive(Drop)]
pub struct Reading {
    feed: Feed,
    refused: Option<Refusal>,
}

impl Model for Reading {
    ghost use Rattle.bt_judge.specs.Readings.{ReadingState, reading_state, HoldsNoItem};

    ghost Value = { ReadingState };

    ghost view = { λ r. reading_state r.feed r.refused };

    ghost invariant = { λ r. HoldsNoItem (reading_state r.feed r.refused) };
}

impl Reading {
    /// Makes a reading of a stream of which no byte has come.
    ///
    /// `own` describes the receiver of the stream. The larger of 68 and `own.limit` + 4 bytes are reserved; nothing else takes memory.
    ///
    /// # Errors
    /// `AllocError` when out of memory.
    pub fn new(alloc: Global, own: Own) -> Result<Reading, AllocError>
        requires { (1 ≤ own.limit) × (own.limit ≤ 1048576) }
        ensures judged { IfOk result (λ reading. IsJudged own [] [] reading) }
        ensures open { IfOk result (λ reading. reading.refused ≡ None) }
    {
        match Feed::new(alloc, own) {
            Ok(feed) => Ok(Reading {
                feed,
                refused: None,
            }),
            Err(_) => Err(AllocError),
        }
    }

    /// Returns how many bytes were taken, but for those after a refusal.
    fn count(&self) -> u64
        ensures { result ≡ start_of self.now.feed.stage + length self.now.feed.held }
    {
        self.feed.start() + self.feed.held() as u64
    }

    /// Takes the next bytes up to the one with which the stream is refused, and returns how many these are.
    ///
    /// # Errors
    /// The fault of the sink.
    pub(crate) fn take_front<S: Sink>(
        &mut self,
        bytes: &[u8],
        sink: &mut S,
    ) -> Result<usize, SinkFault>
        ensures judged { (own : Own) (b : List ℕ) (xs : List (ℕ × Item)) → IsJudged own b xs self.old → self.old.refused ≡ None
            → (ys : List (ℕ × Item))
            × MatchResult result
            (λ n. Took S.takes sink.old ys sink.new × (self.new.refused ≡ None → n ≡ length bytes.now) × IsJudgedTo own (b ++ take n bytes.now) (xs ++ ys) self.new)
            (λ e. IsMissed S.takes S.misses e sink.old ys sink.new × Begins own (b ++ bytes.now) (xs ++ ys) self.new.feed.stage) }
        ensures within { IfOk result (λ n. n ≤ length bytes.now) }
        ensures calm { OnOk result (S.failed sink.new ≡ S.failed sink.old) }
        ensures sink { OnErr result (Grew (S.failed sink.old) (S.failed sink.new)) }
    {
        let before = self.count();
        match read(&mut self.feed, bytes, sink) {
            Ok(None) => Ok(bytes.len()),
            Ok(Some(refusal)) => {
                self.refused = Some(refusal);
                Ok(self.count().saturating_sub(before) as usize)
            }
            Err(fault) => Err(fault),
        }
    }

    /// Takes the next bytes of the stream, and gives the sink each item that they complete.
    ///
    /// Each item comes with the offset at which it starts. After a refusal the bytes are passed over. It takes no memory, except what
    /// the sink does.
    ///
    /// # Errors
    /// The fault of the sink, which didn't take the last item that it was given. Nothing more is known of the stream then.
    pub fn take<S: Sink>(&mut self, bytes: &[u8], sink: &mut S) -> Result<(), SinkFault>
        ensures judged { (own : Own) (b : List ℕ) (xs : List (ℕ × Item)) → IsJudged own b xs self.old
            → (ys : List (ℕ × Item))
            × MatchResult result (λ _. Took S.takes sink.old ys sink.new × IsJudged own (b ++ bytes.now) (xs ++ ys) self.new)
            (λ e. IsMissed S.takes S.misses e sink.old ys sink.new × BeginsWith own (b ++ bytes.now) (xs ++ ys)) }
        ensures calm { OnOk result (S.failed sink.new ≡ S.failed sink.old) }
        ensures sink { OnErr result (Grew (S.failed sink.old) (S.failed sink.new)) }
    {
        if self.refused.is_some() {
            return Ok(());
        }
        match self.take_front(bytes, sink) {
            Ok(_) => Ok(()),
            Err(fault) => Err(fault),
        }
    }

    /// Reads the current item anew by the lenient rules, and gives it to the sink if it is whole by them.
    ///
    /// The items before it are the same by both rule sets. As much memory is reserved as for this reading.
    ///
    /// # Errors
    /// `Memory` when out of memory. `Sink` with the fault of the sink.
    pub(crate) fn lenient<S: Sink>(
        &self,
        alloc: Global,
        sink: &mut S,
    ) -> Result<Reading, JudgeFault>
        ensures judged { (own : Own) (b : List ℕ) (xs : List (ℕ × Item)) → IsJudgedTo own b xs self.now
            → (more : List (ℕ × Item))
            × MatchResult result
            (λ free. Took S.takes sink.old more sink.new × IsJudged (record own { rules = Free }) b (xs ++ more) free)
            (λ e. IsStopped S.takes S.misses e sink.old more sink.new × ((u : Stage) × Begins (record own { rules = Free }) b (xs ++ more) u)) }
        ensures failed { HasFailed result (S.failed sink.old) (S.failed sink.new) }
    {
        let Ok(mut feed) = self.feed.by_rules(alloc, Rules::Free) else {
            return Err(JudgeFault::Memory);
        };
        match read(&mut feed, self.feed.buffered(), sink) {
            Ok(refused) => Ok(Reading { feed, refused }),
            Err(fault) => Err(JudgeFault::Sink(fault)),
        }
    }

    /// Returns the verdict of the stream, if it ends here.
    ///
    /// Inside an item that is a refusal (`EndInside`), which further bytes may undo.
    pub fn ended(&self) -> Ended
        ensures { (own : Own) (b : List ℕ) (xs : List (ℕ × Item)) → IsJudged own b xs self.now → IsTold own b xs result }
    {
        if let Some(refusal) = self.refused {
            return Ended::Refused(refusal);
        }
        let number = self.feed.number();
        match self.feed.finish() {
            Ok(bytes) => Ended::Accepted {
                messages: number - 1,
                bytes,
            },
            Err(Finish::Refused(refusal)) => Ended::Refused(refusal),
            Err(Finish::Untaken) => unreachable!(),
        }
    }

    /// Returns how many bytes the item has that isn't whole, if that is known, or how many of it came.
    ///
    /// The feed's memory is in use up to there.
    pub fn awaited(&self) -> usize
        ensures { length self.now.feed.held ≤ result }
    {
        let held = self.feed.buffered();
        match held {
            [a, b, c, d, ..] if self.refused.is_none() && self.feed.number() > 0 => {
                awaited_by([*a, *b, *c, *d]).max(held.len())
            }
            _ => held.len(),
        }
    }

    /// Returns how many of the next bytes may be any bytes.
    ///
    /// Whatever they are, the items are the same, except the bytes of a block, and so is the refusal. If the first 13 bytes of a
    /// `piece` have come, it is what the piece lacks; after a refusal it is `usize::MAX`, and else 0.
    pub fn free(&self) -> usize
        ensures exact { result ≡ free_after self.now }
        ensures any { (own : Own) (b : List ℕ) (xs : List (ℕ × Item)) → IsJudged own b xs self.now → MayBeAny own b result }
    {
        if self.refused.is_some() {
            return usize::MAX;
        }
        if self.feed.number() == 0 {
            return 0;
        }
        lacks(self.feed.buffered())
    }

    /// Takes `n` zeros, with which nothing is completed or refused.
    pub(crate) fn fill(&mut self, n: usize)
        requires { n < free_after self.old }
        ensures judged { (own : Own) (b : List ℕ) (xs : List (ℕ × Item)) → IsJudged own b xs self.old → IsJudged own (b ++ replicate n 0) xs self.new }
        ensures kept { self.new.refused ≡ self.old.refused }
    {
        if self.refused.is_some() {
            return;
        }
        push_zeros(&mut self.feed, n);
    }

    /// Returns the refusal of the stream that no further byte undoes, if there is one.
    pub fn refusal(&self) -> Option<Refusal>
        ensures stands { (own : Own) (b : List ℕ) (xs : List (ℕ × Item)) → IsJudged own b xs self.now → IsStanding own b result }
        ensures kept { result ≡ self.now.refused }
    {
        self.refused
    }

    /// Returns what follows the items that were read.
    ///
    /// After a refusal that is the refused item, with its bytes up to the one with which it is refused. Else it is the item that
    /// isn't whole yet, with all bytes of it that have come.
    pub fn unread(&self) -> Unread<'_>
        ensures { (own : Own) (b : List ℕ) (xs : List (ℕ × Item)) → IsJudged own b xs self.now
            → IsUnread own b xs self.now.refused result.start result.bytes.now }
    {
        Unread {
            start: self.feed.start(),
            bytes: self.feed.buffered(),
        }
    }
}
