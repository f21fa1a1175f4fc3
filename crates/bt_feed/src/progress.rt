//! The current item of a feed: how much of it has come, and what its bytes are.
ghost use Rattle.std.specs.Prelude.{◌≡◌, ◌+◌, ◌-◌, ◌<◌, ◌≤◌, ◌⊎◌, ◌++◌, false, true, List, ℕ, length, take, min, [], None, Err, IfOk, IfSome, OnOk, OnErr, is_err};
ghost use Rattle.bt_wire.specs.declared.item.Item.{Item};
ghost use Rattle.bt_io.specs.Counts.{Grew, one_more, counted, is_end};
ghost use Rattle.bt_feed.specs.Pumps.{IsHanded, IsFed, IsRead};
ghost use Rattle.bt_feed.specs.Stages.{limit_of, capacity_of, is_closed, IsItem};
ghost use Rattle.bt_feed.specs.Feeds.{held_of, state_of};
ghost use Rattle.bt_feed.specs.Views.{shown, item_of};
ghost use Rattle.bt_feed.specs.Judged.{WasJudged};
ghost use Rattle.bt_feed.specs.Answers.{IsAnswer, IsFound, IsFollowing, followed, after, standing, finish_of};
ghost use Rattle.bt_feed.specs.Progress.{IsPartial, HasWindow, Fills, IsProgress, IsSameItem};

use crate::buffer::Buffer;
use crate::judged::Judged;
use crate::passing::pass_messages;
use crate::sink::{Sink, SinkFault};
use crate::stage::{Goal, Stage};
use crate::view::{Finish, TakeError, View};
use bt_bencode::suffix;
use bt_io::{Failed, Source};
use bt_wire::{Reason, Refusal, Refused, view_window};
use std::alloc::Allocator;

/// What is known of the bytes in the buffer.
#[derive(Drop)]
pub struct Progress {
    pub stage: Stage,
    /// Whether they belong to an item that was taken.
    pub spent: bool,
    /// How many bytes the current message has; 0 before its header is checked.
    pub wanted: usize,
    /// The refusal that was returned.
    pub refused: Option<Refusal>,
}

/// From this many missing bytes on, they are read directly into the buffer.
const MANY: usize = 32_768;

/// Appends bytes up to a length within the capacity, and returns how many.
#[inline(always)]
fn append_up_to<A: Allocator>(buffer: &mut Buffer<A>, goal: usize, bytes: &[u8]) -> usize
    requires held { length buffer.old.items ≤ goal }
    requires room { goal ≤ buffer.old.capacity }
    ensures count { result ≡ min (goal - length buffer.old.items) (length bytes.now) }
    ensures items { buffer.new.items ≡ buffer.old.items ++ take result bytes.now }
    ensures capacity { buffer.old.capacity ≤ buffer.new.capacity }
{
    let count = (goal - buffer.len()).min(bytes.len());
    buffer.append_front(bytes, count);
    count
}

impl Progress {
    /// Makes the progress of a feed to which nothing has come.
    pub fn new(stage: Stage) -> Progress
        ensures { result ≡ record { stage = stage; spent = false; wanted = 0; refused = None } }
    {
        Progress {
            stage,
            spent: false,
            wanted: 0,
            refused: None,
        }
    }

    /// Returns the bytes of the current item.
    #[inline(always)]
    pub fn held<'a>(&self, buffer: &'a [u8]) -> &'a [u8]
        ensures { result.now ≡ held_of self.now buffer.now }
    {
        if self.spent { &[] } else { buffer }
    }

    /// Appends bytes up to the next place where they are checked; returns how many.
    fn step<A: Allocator>(&mut self, buffer: &mut Buffer<A>, piece: &[u8]) -> usize
        requires sound { IsProgress self.old buffer.old.items }
        requires room { capacity_of self.old.stage ≤ buffer.old.capacity }
        requires fresh { self.old.spent ≡ false }
        requires unjudged { self.old.wanted ≡ 0 }
        ensures fills { Fills self.old.stage buffer.old.items piece.now buffer.new.items result }
        ensures stops { (result ≡ 0) ⊎ (0 < self.new.wanted) → result < length piece.now → is_closed self.old.stage buffer.new.items ≡ true }
        ensures sound { IsProgress self.new buffer.new.items }
        ensures room { buffer.old.capacity ≤ buffer.new.capacity }
        ensures same { IsSameItem self.old self.new }
    {
        match self.stage.next_goal(buffer.as_slice()) {
            Goal::Closed => 0,
            Goal::Until(count) => append_up_to(buffer, count, piece),
            Goal::Window(length) => {
                self.wanted = length;
                append_up_to(buffer, length, piece)
            }
        }
    }

    /// Appends to the buffer until the item is closed, or all.
    ///
    /// Its header isn't checked yet.
    #[cold]
    #[inline(never)]
    fn fill_by_steps<A: Allocator>(&mut self, buffer: &mut Buffer<A>, piece: &[u8]) -> usize
        requires sound { IsProgress self.old buffer.old.items }
        requires room { capacity_of self.old.stage ≤ buffer.old.capacity }
        requires fresh { self.old.spent ≡ false }
        requires unjudged { self.old.wanted ≡ 0 }
        ensures fills { Fills self.old.stage buffer.old.items piece.now buffer.new.items result }
        ensures stops { result < length piece.now → is_closed self.old.stage buffer.new.items ≡ true }
        ensures sound { IsProgress self.new buffer.new.items }
        ensures room { buffer.old.capacity ≤ buffer.new.capacity }
        ensures same { IsSameItem self.old self.new }
    {
        let mut at = 0;
        'steps: loop {
            let more = self.step(buffer, suffix(piece, at));
            at += more;
            if more == 0 || self.wanted > 0 {
                return at;
            }
        }
    }

    /// Drops the bytes of an item that was taken.
    #[inline(always)]
    fn refresh<A: Allocator>(&mut self, buffer: &mut Buffer<A>)
        requires sound { IsProgress self.old buffer.old.items }
        ensures held { buffer.new.items ≡ held_of self.old buffer.old.items }
        ensures sound { IsProgress self.new buffer.new.items }
        ensures room { buffer.old.capacity ≤ buffer.new.capacity }
        ensures same { IsSameItem self.old self.new }
    {
        if self.spent {
            buffer.clear();
            self.spent = false;
            self.wanted = 0;
        }
    }

    /// Returns how many bytes the current message has; 0 if that isn't known.
    ///
    /// It is checked in the chunk if nothing is buffered.
    #[inline(always)]
    fn length(&self, buffer: &[u8], piece: &[u8]) -> usize
        requires sound { IsProgress self.now buffer.now }
        requires fresh { self.now.spent ≡ false }
        ensures window { 0 < result → HasWindow self.now.stage (buffer.now ++ piece.now) result × (length buffer.now ≤ result) }
        ensures unjudged { result ≡ 0 → self.now.wanted ≡ 0 }
    {
        if self.wanted == 0 && buffer.is_empty() {
            self.stage.window_of(piece)
        } else {
            self.wanted
        }
    }

    /// Appends to the buffer until the item is closed, or all; returns how many bytes.
    #[inline(always)]
    pub fn fill<A: Allocator>(&mut self, buffer: &mut Buffer<A>, piece: &[u8]) -> usize
        requires sound { IsProgress self.old buffer.old.items }
        requires room { capacity_of self.old.stage ≤ buffer.old.capacity }
        ensures fills { Fills self.old.stage (held_of self.old buffer.old.items) piece.now buffer.new.items result }
        ensures stops { result < length piece.now → is_closed self.old.stage buffer.new.items ≡ true }
        ensures sound { IsProgress self.new buffer.new.items }
        ensures room { buffer.old.capacity ≤ buffer.new.capacity }
        ensures same { IsSameItem self.old self.new }
    {
        self.refresh(buffer);
        let length = self.length(buffer.as_slice(), piece);
        if length == 0 {
            return self.fill_by_steps(buffer, piece);
        }
        self.wanted = length;
        append_up_to(buffer, length, piece)
    }

    /// Reads at most `most` bytes of the current message directly into the buffer.
    ///
    /// It does so if at least 32,768 bytes of it are missing; `None` if it doesn't.
    #[inline(always)]
    pub fn read<R: Source, A: Allocator>(
        &self,
        buffer: &mut Buffer<A>,
        reader: &mut R,
        most: usize,
    ) -> Option<Result<usize, Failed>>
        requires sound { IsProgress self.now buffer.old.items }
        requires room { capacity_of self.now.stage ≤ buffer.old.capacity }
        requires most { 0 < most }
        ensures none { result ≡ None → (buffer.new ≡ buffer.old) × (reader.new ≡ reader.old) }
        ensures few { IfSome result (λ r. IfOk r (λ n. n ≤ most)) }
        ensures read { IfSome result (λ r. IsRead (state_of self.now buffer.old.items) (state_of self.now buffer.new.items)
            (R.seen reader.old) (R.seen reader.new) r) }
        ensures reads { IfSome result (λ _. (R.seen reader.new).reads ≡ one_more (R.seen reader.old).reads) }
        ensures failed { IfSome result (λ r. (R.seen reader.new).failed ≡ counted (is_err r) (R.seen reader.old).failed) }
        ensures ends { IfSome result (λ r. (R.seen reader.new).ends ≡ counted (is_end r 1) (R.seen reader.old).ends) }
        ensures sound { IsProgress self.now buffer.new.items }
        ensures room { buffer.old.capacity ≤ buffer.new.capacity }
    {
        if self.spent || self.wanted < buffer.len() + MANY {
            return None;
        }
        let goal = self.wanted.min(buffer.len().saturating_add(most));
        Some(buffer.read(reader, goal))
    }

    /// Gives the sink the whole messages that a chunk begins with.
    ///
    /// It does so if nothing is buffered or refused. It returns how many bytes they have, and whether the sink took them all.
    ///
    /// # Errors
    /// The error of the sink, which didn't take the last one.
    #[inline(always)]
    pub fn pass<S: Sink>(
        &mut self,
        buffer: &[u8],
        sink: &mut S,
        piece: &[u8],
    ) -> (usize, Result<(), SinkFault>)
        requires { IsProgress self.old buffer.now }
        ensures within { result.0 ≤ length piece.now }
        ensures held { held_of self.new buffer.now ≡ held_of self.old buffer.now }
        ensures emptied { OnErr result.1 (held_of self.new buffer.now ≡ []) }
        ensures items { (xs : List (ℕ × Item)) × IsHanded S.takes S.misses sink.old xs sink.new result.1
            × IsFed (state_of self.old buffer.now) (take result.0 piece.now) xs (state_of self.new buffer.now) }
        ensures calm { OnOk result.1 (S.failed sink.new ≡ S.failed sink.old) }
        ensures sink { OnErr result.1 (Grew (S.failed sink.old) (S.failed sink.new)) }
        ensures sound { IsProgress self.new buffer.now }
        ensures limit { limit_of self.new.stage ≡ limit_of self.old.stage }
    {
        if self.refused.is_some() || self.held(buffer).len() > 0 {
            return (0, Ok(()));
        }
        let Stage::Message {
            context,
            order,
            start,
            number,
        } = &mut self.stage
        else {
            return (0, Ok(()));
        };
        let passed = pass_messages(context, *order, *start, sink, piece);
        *order = passed.order;
        *start += passed.bytes as u64;
        *number += passed.messages;
        (passed.bytes, passed.taken)
    }

    /// Returns the item that the bytes are, if they are a whole one.
    ///
    /// # Errors
    /// The fault of the item, with its offset in it.
    #[inline(always)]
    fn find<'a>(&self, held: &'a [u8]) -> Result<Option<View<'a>>, Refused>
        requires limit { limit_of self.now.stage ≤ 1048576 }
        requires partial { IsPartial self.now.stage held.now }
        requires wanted { 0 < self.now.wanted → HasWindow self.now.stage held.now self.now.wanted × (length held.now ≤ self.now.wanted) }
        ensures { IsFound self.now.stage held.now result }
    {
        if self.wanted > 0 {
            if held.len() < self.wanted {
                return Ok(None);
            }
            if let Stage::Message { context, order, .. } = &self.stage {
                return match view_window(context, *order, held) {
                    Ok(view) => Ok(Some(View::Message(view))),
                    Err(fault) => Err(fault),
                };
            }
        }
        self.stage.judge(held)
    }

    /// Returns the current item, if it is whole.
    ///
    /// # Errors
    /// `Refused` if the item is refused.
    #[inline(always)]
    pub fn answer<'a>(&self, buffer: &'a [u8]) -> Result<Option<View<'a>>, TakeError>
        requires { IsProgress self.now buffer.now }
        ensures { IsAnswer (state_of self.now buffer.now) (shown result) }
    {
        match self.find(self.held(buffer)) {
            Ok(found) => Ok(found),
            Err(fault) => Err(TakeError::Refused(self.stage.refusal(fault))),
        }
    }

    /// Returns the current item, if it is whole, and goes on to the next one.
    ///
    /// # Errors
    /// `Refused` if the item is refused, now or before.
    #[inline(always)]
    pub fn give<'a>(&mut self, buffer: &'a [u8]) -> Result<Option<View<'a>>, TakeError>
        requires { IsProgress self.old buffer.now }
        ensures value { IsAnswer (state_of self.old buffer.now) (shown result) }
        ensures again { IfSome self.old.refused (λ r. result ≡ Err (TakeError.Refused r)) }
        ensures after { state_of self.new buffer.now ≡ after (state_of self.old buffer.now) (shown result) }
        ensures sound { IsProgress self.new buffer.now }
        ensures limit { limit_of self.new.stage ≡ limit_of self.old.stage }
    {
        if let Some(refusal) = self.refused {
            return Err(TakeError::Refused(refusal));
        }
        match self.answer(buffer) {
            Ok(Some(view)) => {
                let size = self.held(buffer).len();
                self.stage.advance(&view, size);
                self.spent = true;
                self.wanted = 0;
                Ok(Some(view))
            }
            Ok(None) => Ok(None),
            Err(TakeError::Refused(refusal)) => {
                self.refused = Some(refusal);
                Err(TakeError::Refused(refusal))
            }
        }
    }

    /// Goes on to what follows the item that the bytes are, without a second check.
    #[inline(always)]
    pub fn commit(&mut self, buffer: &[u8], next: Stage)
        requires sound { IsProgress self.old buffer.now }
        requires item { IsFollowing (state_of self.old buffer.now) next }
        ensures after { state_of self.new buffer.now ≡ followed (state_of self.old buffer.now) next }
        ensures sound { IsProgress self.new buffer.now }
        ensures limit { limit_of self.new.stage ≡ limit_of self.old.stage }
    {
        let _ = buffer;
        *self = Progress {
            stage: next,
            spent: true,
            wanted: 0,
            refused: self.refused,
        };
    }

    /// Returns the item that was judged, without a second check, and goes on to the next one.
    #[inline(always)]
    pub fn hand<'a>(&mut self, buffer: &'a [u8], judged: Judged) -> View<'a>
        requires sound { IsProgress self.old buffer.now }
        requires judged { WasJudged (state_of self.old buffer.now) judged }
        ensures value { IsItem self.old.stage (held_of self.old buffer.now) (item_of result) }
        ensures after { state_of self.new buffer.now ≡ followed (state_of self.old buffer.now) judged.next }
        ensures sound { IsProgress self.new buffer.now }
        ensures limit { limit_of self.new.stage ≡ limit_of self.old.stage }
    {
        let view = self.stage.view_judged(self.held(buffer), judged.dict_len);
        self.commit(buffer, judged.next);
        view
    }

    /// Returns the refusal that was returned, or that of an early fault.
    ///
    /// An early fault is found before all of the item has come.
    #[cold]
    #[inline(never)]
    pub fn refusal(&self, buffer: &[u8]) -> Option<Refusal>
        requires { IsProgress self.now buffer.now }
        ensures { result ≡ standing (state_of self.now buffer.now) }
    {
        if let Some(refusal) = self.refused {
            return Some(refusal);
        }
        match self.stage.early(self.held(buffer)) {
            Err(fault) => Some(self.stage.refusal(fault)),
            Ok(_) => None,
        }
    }

    /// Returns the length of the stream in bytes, if it may end here.
    ///
    /// # Errors
    /// `Refused` if the stream is refused, or ends inside an item. `Untaken` if a whole item is buffered.
    #[cold]
    #[inline(never)]
    pub fn finish(&self, buffer: &[u8]) -> Result<u64, Finish>
        requires { IsProgress self.now buffer.now }
        ensures { result ≡ finish_of (state_of self.now buffer.now) }
    {
        if let Some(refusal) = self.refused {
            return Err(Finish::Refused(refusal));
        }
        let held = self.held(buffer);
        match self.stage.early(held) {
            Err(fault) => Err(Finish::Refused(self.stage.refusal(fault))),
            Ok(true) => Err(Finish::Untaken),
            Ok(false) => match self.stage {
                Stage::Message { start, .. } if held.is_empty() => Ok(start),
                _ => Err(Finish::Refused(
                    self.stage.refusal(Refused {
                        at: held.len() as u64,
                        reason: Reason::EndInside,
                    }),
                )),
            },
        }
    }
}
