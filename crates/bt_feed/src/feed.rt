//! The incremental parser of a stream. Reading from a source and iterating over items are in other modules.
ghost use Rattle.std.specs.Prelude.{◌≡◌, ◌+◌, ◌<◌, ◌≤◌, ◌^◌, ◌⊎◌, ◌↔◌, ℕ, List, [], length, take, None, Err, IfOk, IfSome, IsErrOf, OnOk, OnErr, is_err};

use crate::buffer::Buffer;
use crate::judged::Judged;
use crate::progress::Progress;
use crate::sink::{Sink, SinkFault};
use crate::stage::{END, Stage};
use crate::view::{Finish, TakeError, View, dict_len_of};
use bt_ext::Rules;
use bt_io::{Failed, Source};
use bt_wire::{Context, Order, Own, Refusal};
use std::alloc::{AllocError, Allocator, Global};
use std::marker::Model;
use thiserror::Error;

/// The greatest limit that a receiver may have, in bytes.
const MAX_LIMIT: u32 = 1_048_576;

/// Why a feed can't be made.
#[derive(Clone, Copy, PartialEq, Eq, Debug, Error)]
pub enum FeedError {
    /// The limit isn't 1 to 1,048,576.
    #[error("the limit isn't 1 to 1,048,576")]
    BadLimit,
    /// The stream starts after offset 2^62.
    #[error("the stream starts after offset 2^62")]
    BadBase,
    #[error("out of memory")]
    Memory,
}

impl From<AllocError> for FeedError {
    ghost use Rattle.bt_feed.specs.declared.feed.FeedError.TheVariants.{Memory};

    ghost from_gives = { λ _ e. e ≡ Memory };

    fn from(_: AllocError) -> FeedError {
        FeedError::Memory
    }
}

/// An incremental parser of a stream of one peer.
///
/// It has the item that it awaits and the bytes of that item that have come; the buffer is reserved once. However the stream is
/// split into chunks, the items, the refusal and its offset are the same. A loop over the items of a chunk:
///
/// ```rust
/// for item in feed.items(rt.alloc(), bytes) {
///     let (at, item) = item?;
///     answer(rt, sender, at, &item)?;
/// }
/// ```
#[derive(Drop)]
pub struct Feed<A: Allocator = Global> {
    progress: Progress,
    buffer: Buffer<A>,
    /// Whether the last read of a pump went directly into the buffer.
    is_direct: bool,
}

impl<A: Allocator> Model for Feed<A> {
    ghost use Rattle.bt_feed.specs.Feeds.{FeedState, state_of};

    ghost Value = { FeedState };

    ghost view = { λ a. state_of a.progress a.buffer.items };

    ghost use Rattle.bt_feed.specs.Sound.{IsSound};

    ghost invariant = { IsSound };
}

ghost use Rattle.bt_feed.specs.Stages.{limit_of, start_of, number_of, capacity_of, with_rules, is_closed, IsItem, stage_after};
ghost use Rattle.bt_feed.specs.Feeds.{taken, pushed, waiting};
ghost use Rattle.bt_wire.specs.declared.item.Item.{Item};
ghost use Rattle.bt_io.specs.Counts.{Grew, one_more, counted, is_end};
ghost use Rattle.bt_feed.specs.Pumps.{IsHanded, IsFed, IsRead};
ghost use Rattle.bt_feed.specs.Views.{shown, item_of};
ghost use Rattle.bt_feed.specs.Judged.{IsJudged, WasJudged};
ghost use Rattle.bt_feed.specs.Progress.{IsPartial, IsFeed};
ghost use Rattle.bt_feed.specs.Answers.{IsAnswer, IsFollowing, followed, after, standing, finish_of};
ghost use Rattle.std.specs.Io.BufRead.{Rests};
ghost use types.Logic.{sem};
ghost use Rattle.bt_feed.specs.contracts.feed.Feed.{the_row};

impl<A: Allocator> Feed<A> {
    /// Makes a parser of a whole stream, which begins with a handshake.
    ///
    /// `own` describes the receiver of the stream. The larger of 68 and `own.limit` + 4 bytes are reserved.
    ///
    /// # Errors
    /// `BadLimit` exactly if the limit isn't 1 to 1,048,576, `Memory` when out of memory.
    pub fn new(alloc: A, own: Own) -> Result<Feed<A>, FeedError>
        ensures ok { IfOk result (λ feed. feed ≡ record { stage = Stage.Handshake own; held = []; refused = None }) }
        ensures limit { IsErrOf result FeedError.BadLimit ↔ ((own.limit ≡ 0) ⊎ (1048576 < own.limit)) }
        ensures base { IsErrOf result FeedError.BadBase → ⊥ }
    {
        if own.limit == 0 || own.limit > MAX_LIMIT {
            return Err(FeedError::BadLimit);
        }
        Ok(Feed {
            progress: Progress::new(Stage::Handshake(own)),
            buffer: Buffer::with_capacity(alloc, (own.limit as usize + 4).max(68))?,
            is_direct: false,
        })
    }

    /// Makes a parser of the messages from the offset `base` of a stream on.
    ///
    /// `order` is the order of the messages before them. The larger of 68 and `context.limit` + 4 bytes are reserved.
    ///
    /// # Errors
    /// `BadLimit` exactly if the limit isn't 1 to 1,048,576; else `BadBase` exactly if `base` is above 2^62. `Memory` when out of
    /// memory.
    pub fn new_at(alloc: A, context: Context, order: Order, base: u64) -> Result<Feed<A>, FeedError>
        ensures ok { IfOk result (λ feed. feed ≡ record { stage = Stage.Message context order base 1; held = []; refused = None }) }
        ensures limit { IsErrOf result FeedError.BadLimit ↔ ((context.limit ≡ 0) ⊎ (1048576 < context.limit)) }
        ensures base { IsErrOf result FeedError.BadBase ↔ ((0 < context.limit) × (context.limit ≤ 1048576) × (2 ^ 62 < base)) }
    {
        if context.limit == 0 || context.limit > MAX_LIMIT {
            return Err(FeedError::BadLimit);
        }
        if base > END {
            return Err(FeedError::BadBase);
        }
        Ok(Feed {
            progress: Progress::new(Stage::Message {
                context,
                order,
                start: base,
                number: 1,
            }),
            buffer: Buffer::with_capacity(alloc, (context.limit as usize + 4).max(68))?,
            is_direct: false,
        })
    }

    /// Makes a parser of the same stream by these rules, from the start of the current item on.
    ///
    /// It has none of the item's bytes: they are to be pushed anew. As many bytes are reserved as for this parser.
    ///
    /// # Errors
    /// `AllocError` when out of memory.
    pub fn by_rules<B: Allocator>(&self, alloc: B, rules: Rules) -> Result<Feed<B>, AllocError>
        ensures { IfOk result (λ feed. feed ≡ waiting (with_rules rules self.now.stage)) }
    {
        let stage = self.progress.stage.by_rules(rules);
        Ok(Feed {
            buffer: Buffer::with_capacity(alloc, stage.capacity())?,
            progress: Progress::new(stage),
            is_direct: false,
        })
    }

    /// Returns the offset at which the current item starts.
    #[inline(always)]
    pub fn start(&self) -> u64
        ensures value { result ≡ start_of self.now.stage }
        ensures feed { IsFeed self.now }
    {
        self.progress.stage.start()
    }

    /// Returns the number of the current item: 0 for the handshake, then 1, 2, ..
    pub fn number(&self) -> u64
        ensures value { result ≡ number_of self.now.stage }
        ensures feed { IsFeed self.now }
    {
        self.progress.stage.number()
    }

    /// Returns the bytes of the current item that are buffered.
    ///
    /// After a refusal they go up to the byte with which it is refused.
    pub fn buffered(&self) -> &[u8]
        ensures { result.now ≡ self.now.held }
    {
        self.progress.held(self.buffer.as_slice())
    }

    /// Returns how many bytes of the current item are buffered.
    pub fn held(&self) -> usize
        ensures { result ≡ length self.now.held }
    {
        self.buffered().len()
    }

    /// Takes bytes up to the end of the current item, and returns how many.
    ///
    /// If the item is refused, it takes them up to the byte with which it is. It takes none while a whole item is buffered,
    /// and none after a refusal. It doesn't allocate.
    #[inline(always)]
    pub fn push(&mut self, piece: &[u8]) -> usize
        ensures taken { result ≡ taken self.old piece.now }
        ensures held { self.new ≡ pushed self.old piece.now }
        ensures in_range { result ≤ length piece.now }
        ensures bound { length self.new.held ≤ capacity_of self.new.stage }
        ensures partial { IsPartial self.new.stage self.new.held }
    {
        self.progress.fill(&mut self.buffer, piece)
    }

    /// Gives the sink the whole messages that the chunk begins with.
    ///
    /// It copies none of them. It does so if no byte is buffered and nothing was refused, and has the effect of pushing and
    /// taking them. It returns how many bytes they have, and whether the sink took them all.
    #[inline(always)]
    pub(crate) fn pass<S: Sink>(
        &mut self,
        sink: &mut S,
        piece: &[u8],
    ) -> (usize, Result<(), SinkFault>)
        ensures within { result.0 ≤ length piece.now }
        ensures held { self.new.held ≡ self.old.held }
        ensures emptied { OnErr result.1 (self.new.held ≡ []) }
        ensures items { (xs : List (ℕ × Item)) × IsHanded S.takes S.misses sink.old xs sink.new result.1 × IsFed self.old (take result.0 piece.now) xs self.new }
        ensures calm { OnOk result.1 (S.failed sink.new ≡ S.failed sink.old) }
        ensures sink { OnErr result.1 (Grew (S.failed sink.old) (S.failed sink.new)) }
        ensures limit { limit_of self.new.stage ≤ 1048576 }
    {
        self.progress.pass(self.buffer.as_slice(), sink, piece)
    }

    /// Reads at most `most` bytes of the current message directly into the buffer.
    ///
    /// It does so if a part of the message is buffered and at least 32,768 bytes are missing; `None` if it doesn't.
    #[inline(always)]
    pub(crate) fn read<R: Source>(
        &mut self,
        reader: &mut R,
        most: usize,
    ) -> Option<Result<usize, Failed>>
        requires { 0 < most }
        ensures none { result ≡ None → (self.new ≡ self.old) × (reader.new ≡ reader.old) }
        ensures few { IfSome result (λ r. IfOk r (λ n. n ≤ most)) }
        ensures read { IfSome result (λ r. IsRead self.old self.new (R.seen reader.old) (R.seen reader.new) r) }
        ensures reads { IfSome result (λ _. (R.seen reader.new).reads ≡ one_more (R.seen reader.old).reads) }
        ensures failed { IfSome result (λ r. (R.seen reader.new).failed ≡ counted (is_err r) (R.seen reader.old).failed) }
        ensures ends { IfSome result (λ r. (R.seen reader.new).ends ≡ counted (is_end r 1) (R.seen reader.old).ends) }
    {
        let read = self.progress.read(&mut self.buffer, reader, most);
        self.is_direct = read.is_some();
        read
    }

    /// Returns whether the last [`Feed::read`] did read.
    #[inline(always)]
    pub(crate) fn is_direct(&self) -> bool {
        self.is_direct
    }

    /// Returns the current item if it is whole, and goes on to the next one.
    ///
    /// `None` if it isn't whole yet. It doesn't allocate.
    ///
    /// # Errors
    /// `Refused` if the item is refused. The refusal stays: each later call returns it again.
    #[inline(always)]
    pub fn take(&mut self) -> Result<Option<View<'_>>, TakeError>
        ensures value { IsAnswer self.old (shown result) }
        ensures again { IfSome self.old.refused (λ r. result ≡ Err (TakeError.Refused r)) }
        ensures* after { sem 𝓛 (Rests (the_row A.row A.Allocator) self.entry (λ new. new ≡ after self.old (shown result))) }
    {
        self.progress.give(self.buffer.as_slice())
    }

    /// Returns what [`Feed::take`] would return, and changes nothing.
    ///
    /// # Errors
    /// `Refused` if the item is refused, now or before.
    pub fn look(&self) -> Result<Option<View<'_>>, TakeError>
        ensures value { IsAnswer self.now (shown result) }
        ensures feed { IsFeed self.now }
    {
        self.progress.answer(self.buffer.as_slice())
    }

    /// Returns what is awaited after the item that [`Feed::look`] returned as `view`.
    #[inline(always)]
    pub fn following(&self, view: &View) -> Stage
        requires { IsItem self.now.stage self.now.held (item_of view.now) }
        ensures { result ≡ stage_after self.now.stage (length self.now.held) (item_of view.now) }
    {
        let mut next = self.progress.stage;
        next.advance(view, self.held());
        next
    }

    /// Goes on to the next item without a second check of the current one.
    ///
    /// `next` is what [`Feed::following`] returned for it. It has the effect of [`Feed::take`].
    #[inline(always)]
    pub fn commit(&mut self, next: Stage)
        requires { IsFollowing self.old next }
        ensures { self.new ≡ followed self.old next }
    {
        self.progress.commit(self.buffer.as_slice(), next);
    }

    /// Returns what [`Feed::hand`] needs of the item that [`Feed::look`] returned as `view`.
    #[inline(always)]
    pub fn judged(&self, view: &View) -> Judged
        requires { IsItem self.now.stage self.now.held (item_of view.now) }
        ensures { IsJudged self.now (item_of view.now) result }
    {
        Judged {
            next: self.following(view),
            dict_len: dict_len_of(view),
        }
    }

    /// Returns the current item without a second check, and goes on to the next one.
    ///
    /// `judged` is what [`Feed::judged`] returned for it. It has the effect of [`Feed::take`], and scans nothing.
    #[inline(always)]
    pub fn hand(&mut self, judged: Judged) -> View<'_>
        requires { WasJudged self.old judged }
        ensures value { IsItem self.old.stage self.old.held (item_of result) }
        ensures* after { sem 𝓛 (Rests (the_row A.row A.Allocator) self.entry (λ new. new ≡ followed self.old judged.next)) }
    {
        self.progress.hand(self.buffer.as_slice(), judged)
    }

    /// Makes a refusal that [`Feed::look`] returned stay, as [`Feed::take`] does.
    pub fn refuse(&mut self, refusal: Refusal)
        requires { IsAnswer self.old (Err refusal) }
        ensures { self.new ≡ after self.old (Err refusal) }
    {
        self.progress.refused = Some(refusal);
    }

    /// Returns the refusal of the stream, if there is one.
    ///
    /// It is the one that [`Feed::take`] returned, or that of buffered bytes that can't begin an item.
    pub fn refusal(&self) -> Option<Refusal>
        ensures { result ≡ standing self.now }
    {
        self.progress.refusal(self.buffer.as_slice())
    }

    /// Returns the length of the stream in bytes, if it may end here.
    ///
    /// # Errors
    /// `Refused` if the stream is refused, or ends inside an item (`EndInside`). `Untaken` if a whole item is buffered that
    /// [`Feed::take`] hasn't checked.
    pub fn finish(&self) -> Result<u64, Finish>
        ensures { result ≡ finish_of self.now }
    {
        self.progress.finish(self.buffer.as_slice())
    }
}
