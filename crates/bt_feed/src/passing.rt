//! Whole messages in a chunk, given to a sink without a copy.
ghost use Rattle.std.specs.Prelude.{◌≡◌, ◌+◌, ◌^◌, ◌≤◌, ◌<◌, ℕ, List, length, take, None, OnOk, OnErr, IfSome, is_err};
ghost use Rattle.bt_wire.specs.declared.item.Item.{Item};
ghost use Rattle.bt_wire.specs.declared.item.Item.TheVariants as items;
ghost use Rattle.bt_wire.specs.Messages.{Message};
ghost use Rattle.bt_feed.specs.declared.stage.Stage.TheVariants as stages;
ghost use Rattle.bt_io.specs.Counts.{Grew, counted};
ghost use Rattle.bt_feed.specs.Pumps.{IsHanded, IsFed, IsOffered, IsPassed};
ghost use Rattle.bt_feed.specs.Feeds.{waiting};

use crate::sink::{Sink, SinkFault};
use crate::stage::END;
use crate::view::View;
use bt_bencode::suffix;
use bt_wire::{Context, Header, Order, judge_header, next_of_view, number_at_front, view_window};

/// The id of an extended message (BEP 10).
const EXTENDED: u8 = 20;

/// The number of the copy of [`pass_one`] for a keep-alive, which has no id.
const KEEP_ALIVE: u8 = 254;

/// The number of the copy for ids that have no meaning.
const OTHER: u8 = 255;

/// What was given to a sink.
///
/// How many messages, how many bytes they have, the order after them, and whether the sink took them all.
#[derive(Drop)]
pub struct Passed {
    pub messages: u64,
    pub bytes: usize,
    pub order: Order,
    pub taken: Result<(), SinkFault>,
}

/// A message that the sink was given: how many bytes it has, the order after it, and whether the sink took it.
#[derive(Drop)]
struct Given {
    bytes: usize,
    order: Order,
    taken: Result<(), SinkFault>,
}

/// Gives the sink the message in front, which is at offset `at` of the stream.
///
/// `None`: no whole message is there, or it is refused.
///
/// `COPY` has no meaning of its own: the compiler makes a copy of this function for each number, and inlines it at its one call.
/// There the message's id is known, so its kind isn't looked at again.
#[inline(always)]
fn pass_one<S: Sink, const COPY: u8>(
    context: &Context,
    order: Order,
    at: u64,
    sink: &mut S,
    rest: &[u8],
) -> Option<Given>
    ensures none { result ≡ None → sink.new ≡ sink.old }
    ensures some { IfSome result (λ g. (m : Message) × IsPassed context.now order rest.now g.bytes g.order m × IsOffered S.takes S.misses sink.old (at, items.Message m) sink.new g.taken) }
    ensures failed { IfSome result (λ g. S.failed sink.new ≡ counted (is_err g.taken) (S.failed sink.old)) }
{
    let Header::Window(length) = judge_header(context, order, rest) else {
        return None;
    };
    let Some(window) = rest.get(..length as usize) else {
        return None;
    };
    let Ok(message) = view_window(context, order, window) else {
        return None;
    };
    let order = next_of_view(order, &message);
    let taken = sink.item(at, &View::Message(message));
    Some(Given {
        bytes: length as usize,
        order,
        taken,
    })
}

/// Gives the sink the message in front, if it is an extended message.
///
/// Other messages are left. The test, which holds at the one call, tells the compiler the id.
#[inline(never)]
fn pass_extended<S: Sink>(
    context: &Context,
    order: Order,
    at: u64,
    sink: &mut S,
    rest: &[u8],
) -> Option<Given>
    ensures none { result ≡ None → sink.new ≡ sink.old }
    ensures some { IfSome result (λ g. (m : Message) × IsPassed context.now order rest.now g.bytes g.order m × IsOffered S.takes S.misses sink.old (at, items.Message m) sink.new g.taken) }
    ensures failed { IfSome result (λ g. S.failed sink.new ≡ counted (is_err g.taken) (S.failed sink.old)) }
{
    match rest.get(4) {
        Some(20) => pass_one::<S, EXTENDED>(context, order, at, sink, rest),
        _ => None,
    }
}

/// Gives the sink the message in front, by a copy of [`pass_one`] for each id.
#[inline(always)]
fn pass_by_id<S: Sink>(
    context: &Context,
    order: Order,
    at: u64,
    sink: &mut S,
    rest: &[u8],
) -> Option<Given>
    ensures none { result ≡ None → sink.new ≡ sink.old }
    ensures some { IfSome result (λ g. (m : Message) × IsPassed context.now order rest.now g.bytes g.order m × IsOffered S.takes S.misses sink.old (at, items.Message m) sink.new g.taken) }
    ensures failed { IfSome result (λ g. S.failed sink.new ≡ counted (is_err g.taken) (S.failed sink.old)) }
{
    match rest.get(4) {
        Some(0) => pass_one::<S, 0>(context, order, at, sink, rest),
        Some(1) => pass_one::<S, 1>(context, order, at, sink, rest),
        Some(2) => pass_one::<S, 2>(context, order, at, sink, rest),
        Some(3) => pass_one::<S, 3>(context, order, at, sink, rest),
        Some(4) => pass_one::<S, 4>(context, order, at, sink, rest),
        Some(5) => pass_one::<S, 5>(context, order, at, sink, rest),
        Some(6) => pass_one::<S, 6>(context, order, at, sink, rest),
        Some(7) => pass_one::<S, 7>(context, order, at, sink, rest),
        Some(8) => pass_one::<S, 8>(context, order, at, sink, rest),
        Some(9) => pass_one::<S, 9>(context, order, at, sink, rest),
        Some(13) => pass_one::<S, 13>(context, order, at, sink, rest),
        Some(14) => pass_one::<S, 14>(context, order, at, sink, rest),
        Some(15) => pass_one::<S, 15>(context, order, at, sink, rest),
        Some(16) => pass_one::<S, 16>(context, order, at, sink, rest),
        Some(17) => pass_one::<S, 17>(context, order, at, sink, rest),
        Some(20) => pass_extended(context, order, at, sink, rest),
        _ => pass_one::<S, OTHER>(context, order, at, sink, rest),
    }
}

/// Gives the sink the message in front, which may be a keep-alive.
#[inline(always)]
fn pass_next<S: Sink>(
    context: &Context,
    order: Order,
    at: u64,
    sink: &mut S,
    rest: &[u8],
) -> Option<Given>
    ensures none { result ≡ None → sink.new ≡ sink.old }
    ensures some { IfSome result (λ g. (m : Message) × IsPassed context.now order rest.now g.bytes g.order m × IsOffered S.takes S.misses sink.old (at, items.Message m) sink.new g.taken) }
    ensures failed { IfSome result (λ g. S.failed sink.new ≡ counted (is_err g.taken) (S.failed sink.old)) }
{
    if rest.len() >= 4 && number_at_front(rest) == 0 {
        return pass_one::<S, KEEP_ALIVE>(context, order, at, sink, rest);
    }
    pass_by_id(context, order, at, sink, rest)
}

/// Gives the sink the messages that a chunk begins with.
///
/// The chunk begins at the offset `start` of the stream. It goes on up to a message that isn't whole or is refused.
#[inline(always)]
pub fn pass_messages<S: Sink>(
    context: &Context,
    order: Order,
    start: u64,
    sink: &mut S,
    piece: &[u8],
) -> Passed
    requires limit { context.now.limit ≤ 1048576 }
    requires start { start ≤ 2 ^ 62 + 1048580 }
    ensures within { result.bytes ≤ length piece.now }
    ensures start { start + result.bytes ≤ 2 ^ 62 + 1048580 }
    ensures count { result.messages ≤ result.bytes }
    ensures items { (n : ℕ) → (xs : List (ℕ × Item)) × IsHanded S.takes S.misses sink.old xs sink.new result.taken
        × IsFed (waiting (stages.Message context.now order start n)) (take result.bytes piece.now) xs (waiting (stages.Message context.now result.order (start + result.bytes) (n + result.messages))) }
    ensures calm { OnOk result.taken (S.failed sink.new ≡ S.failed sink.old) }
    ensures sink { OnErr result.taken (Grew (S.failed sink.old) (S.failed sink.new)) }
{
    let mut passed = Passed {
        messages: 0,
        bytes: 0,
        order,
        taken: Ok(()),
    };
    'messages: loop {
        let at = start + passed.bytes as u64;
        if at >= END {
            return passed;
        }
        let rest = suffix(piece, passed.bytes);
        let given = match pass_next(context, passed.order, at, sink, rest) {
            Some(given) => given,
            None => return passed,
        };
        passed.order = given.order;
        passed.bytes += given.bytes;
        passed.messages += 1;
        match given.taken {
            Ok(()) => {}
            Err(fault) => {
                passed.taken = Err(fault);
                return passed;
            }
        }
    }
}
