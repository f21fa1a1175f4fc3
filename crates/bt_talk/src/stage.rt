//! What is done with the bytes of one direction: in the opening they are kept, after that they are judged.
ghost use Rattle.std.specs.Prelude.{◌≡◌, ◌<◌, ◌≤◌, ◌++◌, ℕ, List, length, not, OnOk, IfSome, Option, is_some};
ghost use Rattle.bt_ext.specs.declared.ids.Rules.TheVariants.{Free};
ghost use Rattle.bt_feed.specs.Pumps.{Took};
ghost use Rattle.bt_intro.specs.Hearing.{IsHeardOf};
ghost use Rattle.bt_judge.specs.Judges.{AreJudged, under};
ghost use Rattle.bt_judge.specs.Readings.{IsStanding};
ghost use Rattle.bt_wire.specs.declared.context.Own.{Own};
ghost use Rattle.bt_wire.specs.declared.item.Item.{Item};
ghost use Rattle.bt_wire.specs.declared.item.Refusal.{Refusal};
ghost use Rattle.bt_talk.specs.Pasts.{Past};
ghost use Rattle.bt_talk.specs.Receivers.{IsReceiver};
ghost use Rattle.bt_talk.specs.Cuts.{IsLastIn};
ghost use Rattle.bt_talk.specs.Watching.{IsLast, Watches};

use crate::terms::Terms;
use crate::watch::Watch;
use bt_intro::{Introduction, Receiver, receiver_of};
use bt_judge::Judge;
use bt_rows::{Last, Said};
use bt_wire::Own;
use std::alloc::{AllocError, Global};

/// How many bytes a page of memory has: a parser's buffer, of which few bytes are used, takes one.
pub(crate) const PAGE: usize = 4_096;

/// A stream with its receiver.
#[derive(Drop)]
pub(crate) struct Judged {
    pub(crate) receiver: Receiver,
    pub(crate) judge: Judge,
}

impl Judged {
    /// Tells whether the stream isn't refused under the lenient rules.
    pub(crate) fn is_known(&self) -> bool
        ensures { (own : Own) (b : List ℕ) (xs ys : List (ℕ × Item)) → AreJudged own b xs ys self.now.judge
            → (r : Option Refusal) × IsStanding (under Free own) b r × (result ≡ not (is_some r)) }
    {
        self.judge.refusal().is_none()
    }

    /// Returns how many bytes a parser's buffer has.
    fn room(&self) -> usize {
        (self.receiver.own.limit as usize).saturating_add(4)
    }

    /// Returns about how many bytes of a parser's buffer are in use.
    ///
    /// A message that begins and ends in the same segment isn't copied.
    pub(crate) fn used(&self) -> usize {
        self.judge.awaited()
    }

    /// Returns about how many bytes of memory its parsers take, of which at most `used` bytes each were in use.
    ///
    /// The rest of a buffer is reserved, and was never written.
    pub(crate) fn size(&self, used: usize) -> usize {
        used.min(self.room())
            .saturating_add(PAGE)
            .saturating_mul(self.judge.parsers())
    }

    /// Returns the last of the stream up to here: the refusal under the lenient rules, or else its last item, which is this one.
    pub(crate) fn last(&self, item: &Option<Said>) -> Last
        ensures { (own : Own) (b : List ℕ) (xs ys : List (ℕ × Item)) → AreJudged own b xs ys self.now.judge → IsLast xs item.now → IsLastIn own b result }
    {
        if let Some(refusal) = self.judge.refusal() {
            return Last::Refused(refusal);
        }
        match item {
            Some(said) => Last::Item(*said),
            None => Last::Nothing,
        }
    }
}

/// What a side had sent when the connection was closed.
#[derive(Clone, Copy)]
pub(crate) struct Cut {
    /// How many bytes of its stream were put together.
    pub(crate) length: u64,
    /// The last of these, once they are judged.
    pub(crate) last: Last,
}

/// What is done with the bytes of one direction.
#[derive(Drop)]
pub(crate) enum Stage {
    /// They are kept, until both sides have described themselves.
    Opening(Vec<u8>),
    /// They are judged from the handshake on, in memory of its own: a connection that says nothing needs none of it.
    Open(Box<Judged>),
    /// They aren't judged: there is no handshake.
    Stranger,
}

/// Returns the receiver of the stream that `sender` sends, by what both sides have announced so far.
pub(crate) fn receiver_between(
    other: &Introduction,
    sender: &Introduction,
    terms: &Terms,
) -> Option<Receiver>
    ensures limit { IfSome result (λ r. (1 ≤ r.own.limit) × (r.own.limit ≤ 1048576)) }
    ensures is { (p q : Past) → IsHeardOf p.front sender.now → IsHeardOf q.front other.now → IsReceiver terms.now p q result }
{
    let limit = terms.limit();
    let receiver = receiver_of(other, sender, terms.pieces(&sender.handshake()), limit)?;
    // The limit is the one that was given; so the judge knows it, too.
    Some(Receiver {
        own: Own {
            limit,
            ..receiver.own
        },
        is_guessed: receiver.is_guessed,
    })
}

/// Judges bytes, and tells the watch their items.
pub(crate) fn judge_bytes(
    judge: &mut Judge,
    bytes: &[u8],
    watch: &mut Watch,
) -> Result<(), AllocError>
    ensures { OnOk result ((own : Own) (b : List ℕ) (xs ys : List (ℕ × Item)) → AreJudged own b xs ys judge.old
        → (more strict : List (ℕ × Item)) × AreJudged own (b ++ bytes.now) (xs ++ more) (ys ++ strict) judge.new × Took Watches watch.old more watch.new) }
{
    match judge.take(bytes, watch) {
        Ok(()) => Ok(()),
        Err(_) => Err(AllocError),
    }
}
