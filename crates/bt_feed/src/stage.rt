//! The item that a feed awaits, and what its bytes say about it.
ghost use Rattle.std.specs.Prelude.{◌≡◌, ◌+◌, ◌<◌, ◌≤◌, ◌^◌, length};
ghost use Rattle.bt_feed.specs.Stages.{start_of, number_of, limit_of, capacity_of, with_rules, refusal_of, stage_after};
ghost use Rattle.bt_feed.specs.Views.{item_of};
ghost use Rattle.bt_feed.specs.Answers.{IsFound, IsEarly};
ghost use Rattle.bt_feed.specs.Judged.{WasItem, IsItemOf};
ghost use Rattle.bt_feed.specs.Progress.{IsPartial, HasWindow, IsGoal, IsStart};

use crate::view::View;
use bt_ext::Rules;
use bt_wire::{
    Context, Front, Header, Opening, Order, Own, Reason, Refusal, Refused, handshake_judged,
    judge_handshake, judge_header, negotiate, next_of_view, read_front, read_opening, view_judged,
};

/// The offset below which a message starts.
pub(crate) const END: u64 = 1 << 62;

/// What a feed awaits: the handshake, or the message `number` from `start` on.
#[derive(Clone, Copy, PartialEq, Eq)]
pub enum Stage {
    Handshake(Own),
    Message {
        context: Context,
        order: Order,
        start: u64,
        number: u64,
    },
}

/// How many bytes of an item are checked together.
#[derive(Clone, Copy)]
pub(crate) enum Goal {
    /// Nothing may be added.
    Closed,
    /// This many bytes; the item may be closed then.
    Until(usize),
    /// All bytes of the message.
    Window(usize),
}

/// Returns what the first bytes say of the message that starts at an offset, or its fault.
#[inline(always)]
fn judge_start(context: &Context, order: Order, start: u64, bytes: &[u8]) -> Header
    ensures { IsStart context.now order start bytes.now result }
{
    if start >= END {
        return Header::Refused {
            at: 0,
            reason: Reason::StreamFull,
        };
    }
    judge_header(context, order, bytes)
}

impl Stage {
    /// Returns the number of the item: 0 for the handshake.
    #[inline(always)]
    pub fn number(&self) -> u64
        ensures { result ≡ number_of self.now }
    {
        match self {
            Stage::Handshake(_) => 0,
            Stage::Message { number, .. } => *number,
        }
    }

    /// Returns the offset at which the item starts.
    #[inline(always)]
    pub(crate) fn start(&self) -> u64
        ensures { result ≡ start_of self.now }
    {
        match self {
            Stage::Handshake(_) => 0,
            Stage::Message { start, .. } => *start,
        }
    }

    /// Returns the same, judged by these rules.
    pub(crate) fn by_rules(&self, rules: Rules) -> Stage
        ensures { result ≡ with_rules rules self.now }
    {
        match self {
            Stage::Handshake(own) => Stage::Handshake(Own { rules, ..*own }),
            Stage::Message {
                context,
                order,
                start,
                number,
            } => Stage::Message {
                context: Context { rules, ..*context },
                order: *order,
                start: *start,
                number: *number,
            },
        }
    }

    /// Returns how many bytes an item may have.
    pub(crate) fn capacity(&self) -> usize
        ensures { result ≡ capacity_of self.now }
    {
        let limit = match self {
            Stage::Handshake(own) => own.limit,
            Stage::Message { context, .. } => context.limit,
        };
        (limit as usize + 4).max(68)
    }

    /// Returns the refusal for a fault of the item.
    #[cold]
    #[inline(never)]
    pub(crate) fn refusal(&self, fault: Refused) -> Refusal
        requires { start_of self.now + fault.at < 2 ^ 64 }
        ensures { result ≡ refusal_of self.now fault }
    {
        Refusal {
            message: self.number(),
            at: self.start() + fault.at,
            reason: fault.reason,
        }
    }

    /// Goes on to what follows an item of `size` bytes.
    #[inline(always)]
    pub(crate) fn advance(&mut self, view: &View, size: usize)
        requires start { start_of self.old + size < 2 ^ 64 }
        requires number { number_of self.old + 1 < 2 ^ 64 }
        ensures { self.new ≡ stage_after self.old size (item_of view.now) }
    {
        match view {
            View::Handshake(handshake) => {
                if let Stage::Handshake(own) = self {
                    *self = Stage::Message {
                        context: negotiate(own, handshake.reserved),
                        order: Order::Fresh,
                        start: size as u64,
                        number: 1,
                    };
                }
            }
            View::Message(message) => {
                if let Stage::Message {
                    order,
                    start,
                    number,
                    ..
                } = self
                {
                    *order = next_of_view(*order, message);
                    *start += size as u64;
                    *number += 1;
                }
            }
        }
    }

    /// Returns the item that the bytes are, if they are a whole one.
    ///
    /// # Errors
    /// The fault of the item, with its offset in it.
    #[cold]
    #[inline(never)]
    pub(crate) fn judge<'a>(&self, held: &'a [u8]) -> Result<Option<View<'a>>, Refused>
        requires limit { limit_of self.now ≤ 1048576 }
        requires partial { IsPartial self.now held.now }
        ensures { IsFound self.now held.now result }
    {
        match self {
            Stage::Handshake(own) => match read_opening(own, held) {
                Opening::Refused(fault) => Err(fault),
                Opening::Partial => Ok(None),
                Opening::Whole(handshake) => Ok(Some(View::Handshake(handshake))),
            },
            Stage::Message {
                context,
                order,
                start,
                ..
            } => match read_front(context, *order, *start, held) {
                Front::Refused(fault) => Err(fault),
                Front::Partial => Ok(None),
                Front::Whole(message, _) => Ok(Some(View::Message(message))),
            },
        }
    }

    /// Returns the item that the bytes are, without a second check.
    ///
    /// Its dictionary has `dict_len` bytes (0 if it has none).
    #[inline(always)]
    pub(crate) fn view_judged<'a>(&self, held: &'a [u8], dict_len: usize) -> View<'a>
        requires { WasItem self.now held.now dict_len }
        ensures { IsItemOf self.now held.now (item_of result) }
    {
        match self {
            Stage::Handshake(_) => View::Handshake(handshake_judged(held)),
            Stage::Message { context, .. } => View::Message(view_judged(context, held, dict_len)),
        }
    }

    /// Returns whether all of the item is there.
    ///
    /// # Errors
    /// The fault that is found before all of the item is there.
    #[cold]
    #[inline(never)]
    pub(crate) fn early(&self, held: &[u8]) -> Result<bool, Refused>
        ensures { IsEarly self.now held.now result }
    {
        match self {
            Stage::Handshake(own) => match judge_handshake(own, held) {
                Some(fault) => Err(fault),
                None => Ok(held.len() >= 68),
            },
            Stage::Message {
                context,
                order,
                start,
                ..
            } => match judge_start(context, *order, *start, held) {
                Header::Need(_) => Ok(false),
                Header::Window(length) => Ok(held.len() as u64 >= length),
                Header::Refused { at, reason } => Err(Refused { at, reason }),
            },
        }
    }

    /// Returns how many bytes of the item are checked together, after these.
    #[cold]
    #[inline(never)]
    pub(crate) fn next_goal(&self, held: &[u8]) -> Goal
        requires limit { limit_of self.now ≤ 1048576 }
        requires partial { IsPartial self.now held.now }
        ensures { IsGoal self.now held.now result }
    {
        match self {
            Stage::Handshake(own) => {
                if judge_handshake(own, held).is_some() || held.len() >= 68 {
                    Goal::Closed
                } else if held.len() < 20 {
                    Goal::Until(held.len() + 1)
                } else if held.len() < 48 {
                    Goal::Until(48)
                } else {
                    Goal::Until(68)
                }
            }
            Stage::Message {
                context,
                order,
                start,
                ..
            } => match judge_start(context, *order, *start, held) {
                Header::Need(count) => Goal::Until(count as usize),
                Header::Window(length) => Goal::Window(length as usize),
                Header::Refused { .. } => Goal::Closed,
            },
        }
    }

    /// Returns how many bytes the message has; 0 if too few of them are there.
    #[inline(always)]
    pub(crate) fn window_of(&self, bytes: &[u8]) -> usize
        ensures { 0 < result → HasWindow self.now bytes.now result }
    {
        match self {
            Stage::Message {
                context,
                order,
                start,
                ..
            } => match judge_start(context, *order, *start, bytes) {
                Header::Window(length) => length as usize,
                _ => 0,
            },
            Stage::Handshake(_) => 0,
        }
    }
}
