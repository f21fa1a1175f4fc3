//! Two ends over one connection, in rounds.
ghost use Rattle.std.specs.Prelude.{◌≡◌, ◌≤◌, ◌<◌, false, length, Ok, Err, IfOk, OnErr};
ghost use Rattle.bt_io.specs.Counts.{Grew};
ghost use Rattle.bt_end.specs.Halves.{received, IsTurned};
ghost use Rattle.bt_feed.specs.Feeds.{taken};
ghost use Rattle.bt_loop.specs.Rounds.{Exchanges, HasRun, IsFilled, IsSent, IsTaken, Passes, capped, halt_of, is_quiet as is_quiet_by};

use crate::wire::{Wire, WireFault, other};
use bt_end::{End, Turn, TurnError};
use bt_session::Side;
use std::alloc::Allocator;
use thiserror::Error;

/// The greatest number of bytes that a call sends.
const PIECE: usize = 4_096;

/// How many items the ends handled, each up to 2^64 - 1.
#[derive(Clone, Copy, PartialEq, Eq, Debug)]
pub struct Handled {
    pub left: u64,
    pub right: u64,
}

/// Why two ends were stopped.
#[derive(Clone, Copy, PartialEq, Eq, Debug, Error)]
pub enum Halt {
    /// An end refused what came, or too much waited to be sent there.
    #[error("stopped")]
    Stopped,
    /// A call of the connection failed, or moved no byte.
    #[error("net")]
    Net,
    /// The given number of rounds was made.
    #[error("rounds")]
    Rounds,
    #[error("out of memory")]
    Memory,
}

/// Sends once what the end has to send, and drops what was taken.
fn send_front<W: Wire, A: Allocator + Copy>(
    wire: &mut W,
    from: Side,
    end: &mut End<A>,
) -> Result<usize, WireFault>
    requires { 0 < length end.old.outbox }
    ensures sent { IfOk result (IsSent from (W.seen wire.old) (W.seen wire.new) end.old end.new) }
    ensures failed { OnErr result (Grew (W.seen wire.old).failed (W.seen wire.new).failed) }
{
    let bytes = end.outgoing();
    let count = bytes.len().min(PIECE);
    match wire.send(from, &bytes[..count]) {
        Ok(0) | Err(_) => Err(WireFault),
        Ok(n) => {
            end.sent(n);
            Ok(n)
        }
    }
}

/// Receives until all of the buffer is filled.
fn fill<W: Wire>(wire: &mut W, at: Side, into: &mut [u8]) -> Result<(), WireFault>
    ensures size { length into.new ≡ length into.old }
    ensures filled { IfOk result (λ _. IsFilled at (W.seen wire.old) (W.seen wire.new) into.new) }
    ensures failed { OnErr result (Grew (W.seen wire.old).failed (W.seen wire.new).failed) }
{
    let mut filled = 0;
    'calls: while filled < into.len() {
        match wire.receive(at, &mut into[filled..]) {
            Ok(0) | Err(_) => return Err(WireFault),
            Ok(n) => filled += n,
        }
    }
    Ok(())
}

/// Gives the end what it takes of the bytes, and handles one item.
fn take_turn<A: Allocator + Copy>(
    end: &mut End<A>,
    bytes: &[u8],
) -> (usize, Result<Turn, TurnError>)
    ensures taken { result.0 ≡ taken end.old.feed bytes.now }
    ensures turned { IsTurned (received end.old bytes.now) result.1 end.new }
    ensures in_range { result.0 ≤ length bytes.now }
{
    let taken = end.receive(bytes);
    (taken, end.turn())
}

/// Gives the end these bytes, until all are used and no whole item is left.
///
/// It returns how many items were handled, up to 2^64 - 1, and why it stopped before.
fn take_turns<A: Allocator + Copy>(end: &mut End<A>, bytes: &[u8]) -> (u64, Result<(), TurnError>)
    ensures { IsTaken end.old bytes.now result.0 result.1 end.new }
{
    let mut items = 0u64;
    let mut used = 0;
    'turns: loop {
        let (taken, turn) = take_turn(end, &bytes[used..]);
        used += taken;
        match turn {
            Ok(Turn::Handled) => items = items.saturating_add(1),
            Ok(Turn::Idle) => return (items, Ok(())),
            Err(error) => return (items, Err(error)),
        }
    }
}

/// Returns what a turn's error means for the run.
fn halt_by(error: TurnError) -> Halt
    ensures { result ≡ halt_of error }
{
    match error {
        TurnError::Refused(_) | TurnError::Busy => Halt::Stopped,
        TurnError::Memory => Halt::Memory,
    }
}

/// Sends bytes of the sender, and lets the receiver handle them.
///
/// It returns how many items the receiver handled.
fn pass<W: Wire, A: Allocator + Copy>(
    wire: &mut W,
    from: Side,
    sender: &mut End<A>,
    receiver: &mut End<A>,
    buffer: &mut [u8; PIECE],
) -> Result<u64, Halt>
    ensures { Passes from (W.seen wire.old) (W.seen wire.new) sender.old sender.new receiver.old receiver.new result }
{
    if sender.outgoing().is_empty() {
        return Ok(0);
    }
    let Ok(count) = send_front(wire, from, sender) else {
        return Err(Halt::Net);
    };
    let Ok(()) = fill(wire, other(from), &mut buffer[..count]) else {
        return Err(Halt::Net);
    };
    match take_turns(receiver, &buffer[..count]) {
        (items, Ok(())) => Ok(items),
        (_, Err(error)) => Err(halt_by(error)),
    }
}

/// Lets bytes go from left to right, and then from right to left.
fn round<W: Wire, A: Allocator + Copy>(
    wire: &mut W,
    left: &mut End<A>,
    right: &mut End<A>,
    buffer: &mut [u8; PIECE],
) -> Result<Handled, Halt>
    requires { is_quiet_by left.old right.old ≡ false }
    ensures { Exchanges (W.seen wire.old) (W.seen wire.new) left.old left.new right.old right.new result }
{
    match pass(wire, Side::Left, left, right, buffer) {
        Ok(at_right) => match pass(wire, Side::Right, right, left, buffer) {
            Ok(at_left) => Ok(Handled {
                left: at_left,
                right: at_right,
            }),
            Err(halt) => Err(halt),
        },
        Err(halt) => Err(halt),
    }
}

/// Whether no end has anything to send.
fn is_quiet<A: Allocator + Copy>(left: &End<A>, right: &End<A>) -> bool
    ensures { result ≡ is_quiet_by left.now right.now }
{
    left.outgoing().is_empty() && right.outgoing().is_empty()
}

/// Runs two ends against each other, in rounds, until none has anything to send.
///
/// In a round each side, the left one first, sends at most 4,096 bytes by one call. They are received at the other side, which
/// handles all whole items in them. So nothing is on its way between two rounds. It returns how many items the ends handled.
///
/// # Errors
/// `Stopped` if an end refuses what comes, or if too much waits to be sent there. `Net` if a call of the connection fails or moves
/// no byte. `Rounds` after `rounds` rounds. `Memory` when out of memory.
pub fn run_both<W: Wire, A: Allocator + Copy>(
    wire: &mut W,
    left: &mut End<A>,
    right: &mut End<A>,
    rounds: u64,
) -> Result<Handled, Halt>
    ensures { HasRun rounds (W.seen wire.old) (W.seen wire.new) left.old left.new right.old right.new result }
{
    let mut buffer = [0; PIECE];
    let mut handled = Handled { left: 0, right: 0 };
    for _round in 0..rounds {
        if is_quiet(left, right) {
            return Ok(handled);
        }
        match round(wire, left, right, &mut buffer) {
            Ok(more) => {
                handled = Handled {
                    left: handled.left.saturating_add(more.left),
                    right: handled.right.saturating_add(more.right),
                };
            }
            Err(halt) => return Err(halt),
        }
    }
    if is_quiet(left, right) {
        Ok(handled)
    } else {
        Err(Halt::Rounds)
    }
}
