//! A stream that is judged by both rule sets of its receiver at once.
ghost use Rattle.std.specs.Prelude.{◌≡◌, ◌<◌, ◌≤◌, ◌++◌, ℕ, List, [], length, replicate, IfSome, MatchResult, IfOk};
ghost use Rattle.bt_ext.specs.declared.ids.Rules.TheVariants.{Free};
ghost use Rattle.bt_wire.specs.declared.context.Own.{Own};
ghost use Rattle.bt_wire.specs.declared.item.Item.{Item};
ghost use Rattle.bt_feed.specs.Pumps.{Took};
ghost use Rattle.bt_judge.specs.Readings.{BeginsWith, IsStanding};
ghost use Rattle.bt_judge.specs.Holes.{free_of, MayBeAnyByBoth};
ghost use Rattle.bt_judge.specs.Judges.{under as by_rules, IsStopped, HasFailed};

use crate::fault::JudgeFault;
use crate::reading::{Reading, Unread};
use bt_ext::Rules;
use bt_feed::Sink;
use bt_text::ended::Ended;
use bt_wire::{Own, Refusal};
use std::alloc::{AllocError, Global};

/// A stream that is judged by the lenient and by the strict rules.
///
/// What the strict rules accept, the lenient ones read as the same items. So there is one parser, until the strict rules refuse the
/// stream; from there on another one reads it by the lenient rules.
#[derive(Drop)]
pub struct Judge {
    alloc: Global,
    /// The reading by the strict rules.
    bep: Reading,
    /// The reading by the lenient rules, once the strict ones have refused the stream.
    free: Option<Reading>,
}

/// The verdicts of a stream by both rule sets.
#[derive(Clone, Copy, PartialEq, Eq, Debug)]
pub struct Verdicts {
    /// The verdict by the lenient rules.
    pub free: Ended,
    /// The verdict by the strict rules.
    pub bep: Ended,
}

/// What both rule sets don't read of a stream.
#[derive(Clone, Copy)]
pub struct Unreads<'a> {
    /// What follows the items by the lenient rules.
    pub free: Unread<'a>,
    /// What follows the items by the strict rules.
    pub bep: Unread<'a>,
}

/// Returns the receiver under these rules.
fn under(rules: Rules, own: &Own) -> Own
    ensures { result ≡ by_rules rules own.now }
{
    Own { rules, ..*own }
}

impl Judge {
    ghost use Rattle.std.specs.Prelude.{None};
    ghost use Rattle.bt_judge.specs.Judges.{AreJudged, AreTold, AreUnread};

    /// Makes a judge of a stream of which no byte has come.
    ///
    /// `own` describes the receiver of the stream; its rules have no effect. The larger of 68 and `own.limit` + 4 bytes are reserved.
    ///
    /// # Errors
    /// `AllocError` when out of memory.
    pub fn new(alloc: Global, own: Own) -> Result<Judge, AllocError>
        requires { (1 ≤ own.limit) × (own.limit ≤ 1048576) }
        ensures { IfOk result (λ judge. AreJudged own [] [] [] judge) }
    {
        let bep = Reading::new(alloc, under(Rules::Bep, &own))?;
        Ok(Judge {
            alloc,
            bep,
            free: None,
        })
    }

    /// Takes the next bytes, while the strict rules refuse nothing.
    fn take_both<S: Sink>(&mut self, bytes: &[u8], sink: &mut S) -> Result<(), JudgeFault>
        ensures judged { (own : Own) (b : List ℕ) (xs ys : List (ℕ × Item)) → AreJudged own b xs ys self.old → self.old.free ≡ None
            → (more : List (ℕ × Item))
            × MatchResult result (λ _. Took S.takes sink.old more sink.new
            × ((strict : List (ℕ × Item)) × AreJudged own (b ++ bytes.now) (xs ++ more) (ys ++ strict) self.new))
            (λ e. IsStopped S.takes S.misses e sink.old more sink.new × BeginsWith (by_rules Free own) (b ++ bytes.now) (xs ++ more)) }
        ensures failed { HasFailed result (S.failed sink.old) (S.failed sink.new) }
    {
        let count = match self.bep.take_front(bytes, sink) {
            Ok(count) => count,
            Err(fault) => return Err(JudgeFault::Sink(fault)),
        };
        if self.bep.refusal().is_none() {
            return Ok(());
        }
        let mut free = match self.bep.lenient(self.alloc, sink) {
            Ok(free) => free,
            Err(fault) => return Err(fault),
        };
        match free.take(&bytes[count..], sink) {
            Ok(()) => {}
            Err(fault) => return Err(JudgeFault::Sink(fault)),
        }
        self.free = Some(free);
        Ok(())
    }

    /// Takes the next bytes of the stream, and gives the sink each item that they complete by the lenient rules.
    ///
    /// Each item comes with the offset at which it starts. A rule set that refuses the stream passes over further bytes, and the other
    /// one goes on. When the strict rules refuse the stream, as much memory is reserved as by `new`; nothing else takes memory, except
    /// what the sink does.
    ///
    /// # Errors
    /// `Sink` with the fault of the sink, which didn't take the last item that it was given. `Memory` when out of memory. Nothing more
    /// is known of the stream then.
    pub fn take<S: Sink>(&mut self, bytes: &[u8], sink: &mut S) -> Result<(), JudgeFault>
        ensures judged { (own : Own) (b : List ℕ) (xs ys : List (ℕ × Item)) → AreJudged own b xs ys self.old
            → (more : List (ℕ × Item))
            × MatchResult result (λ _. Took S.takes sink.old more sink.new
            × ((strict : List (ℕ × Item)) × AreJudged own (b ++ bytes.now) (xs ++ more) (ys ++ strict) self.new))
            (λ e. IsStopped S.takes S.misses e sink.old more sink.new × BeginsWith (by_rules Free own) (b ++ bytes.now) (xs ++ more)) }
        ensures failed { HasFailed result (S.failed sink.old) (S.failed sink.new) }
    {
        match &mut self.free {
            Some(free) => match free.take(bytes, sink) {
                Ok(()) => Ok(()),
                Err(fault) => Err(JudgeFault::Sink(fault)),
            },
            None => self.take_both(bytes, sink),
        }
    }

    /// Returns how many of the next bytes may be any bytes.
    ///
    /// Whatever they are, the items are the same by both rule sets, except the bytes of a block, and so are the refusals. If the first
    /// 13 bytes of a `piece` have come, it is what the piece lacks; once both rule sets refuse the stream, it is `usize::MAX`, and
    /// else 0.
    pub fn free(&self) -> usize
        ensures exact { result ≡ free_of self.now }
        ensures any { (own : Own) (b : List ℕ) (xs ys : List (ℕ × Item)) → AreJudged own b xs ys self.now → MayBeAnyByBoth own b result }
    {
        match &self.free {
            Some(free) => free.free(),
            None => self.bep.free(),
        }
    }

    /// Takes `n` zeros, with which nothing is completed or refused.
    fn fill(&mut self, n: usize)
        requires { n < free_of self.old }
        ensures { (own : Own) (b : List ℕ) (xs ys : List (ℕ × Item)) → AreJudged own b xs ys self.old → AreJudged own (b ++ replicate n 0) xs ys self.new }
    {
        match &mut self.free {
            Some(free) => free.fill(n),
            None => self.bep.fill(n),
        }
    }

    /// Passes over `n` missing bytes of the stream, at most as many as [`Judge::free`] returns.
    ///
    /// It has the effect of [`Judge::take`] for `n` zeros: if they complete a piece, its block has zeros for them.
    ///
    /// # Errors
    /// Those of [`Judge::take`].
    pub fn pass<S: Sink>(&mut self, n: usize, sink: &mut S) -> Result<(), JudgeFault>
        requires { n ≤ free_of self.old }
        ensures judged { (own : Own) (b : List ℕ) (xs ys : List (ℕ × Item)) → AreJudged own b xs ys self.old
            → (more : List (ℕ × Item))
            × MatchResult result (λ _. Took S.takes sink.old more sink.new
            × ((strict : List (ℕ × Item)) × AreJudged own (b ++ replicate n 0) (xs ++ more) (ys ++ strict) self.new))
            (λ e. IsStopped S.takes S.misses e sink.old more sink.new × BeginsWith (by_rules Free own) (b ++ replicate n 0) (xs ++ more)) }
        ensures failed { HasFailed result (S.failed sink.old) (S.failed sink.new) }
    {
        if n == 0 {
            return Ok(());
        }
        self.fill(n - 1);
        self.take(&[0], sink)
    }

    /// Returns the verdicts of the stream, if it ends here.
    pub fn ended(&self) -> Verdicts
        ensures { (own : Own) (b : List ℕ) (xs ys : List (ℕ × Item)) → AreJudged own b xs ys self.now → AreTold own b xs ys result }
    {
        let bep = self.bep.ended();
        Verdicts {
            free: match &self.free {
                Some(free) => free.ended(),
                None => bep,
            },
            bep,
        }
    }

    /// Returns the refusal by the lenient rules that no further byte undoes, if there is one.
    pub fn refusal(&self) -> Option<Refusal>
        ensures { (own : Own) (b : List ℕ) (xs ys : List (ℕ × Item)) → AreJudged own b xs ys self.now → IsStanding (by_rules Free own) b result }
    {
        match &self.free {
            Some(free) => free.refusal(),
            None => None,
        }
    }

    /// Returns what follows the items that were read.
    pub fn unread(&self) -> Unreads<'_>
        ensures { (own : Own) (b : List ℕ) (xs ys : List (ℕ × Item)) → AreJudged own b xs ys self.now → AreUnread own b xs ys result }
    {
        let bep = self.bep.unread();
        match &self.free {
            Some(free) => {
                let free = free.unread();
                Unreads { free, bep }
            }
            None => Unreads { free: bep, bep },
        }
    }

    /// Returns how many parsers it has.
    pub fn parsers(&self) -> usize {
        if self.free.is_some() { 2 } else { 1 }
    }

    /// Returns how many bytes the item has that isn't whole, if that is known, or how many of it came; the greater number of both.
    ///
    /// The memory of the parsers is in use up to there.
    pub fn awaited(&self) -> usize
        ensures bep { length self.now.bep.feed.held ≤ result }
        ensures free { IfSome self.now.free (λ free. length free.feed.held ≤ result) }
    {
        match &self.free {
            Some(free) => self.bep.awaited().max(free.awaited()),
            None => self.bep.awaited(),
        }
    }
}
