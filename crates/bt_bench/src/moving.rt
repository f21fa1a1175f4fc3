//! Moves bytes between memory and an end.
ghost use Rattle.std.specs.Prelude.{◌<◌, ◌≤◌, length, IfOk};

use crate::draft::Draft;
use bt_end::{End, Turn, TurnError};
use bt_feed::Memory;
use std::alloc::AllocError;
use std::fmt;

/// From how many waiting bytes on they are taken from an end.
pub const PORTION: usize = 65_536;

/// Why a job stops before its end.
#[derive(Clone, Copy)]
pub enum Stopped {
    /// An end refuses its peer's bytes.
    Refused,
    /// An end takes nothing more.
    Stuck,
    /// An end can't be made so.
    Unmade,
    Memory,
    /// The words are no command line.
    Usage,
}

impl From<AllocError> for Stopped {
    fn from(_: AllocError) -> Stopped {
        Stopped::Memory
    }
}

impl From<Memory> for Stopped {
    fn from(_: Memory) -> Stopped {
        Stopped::Memory
    }
}

impl fmt::Display for Stopped {
    fn fmt<W: fmt::Write>(&self, f: &mut fmt::Formatter<W>) -> fmt::Result {
        f.write_str(match self {
            Stopped::Refused => "an end refuses its peer's bytes",
            Stopped::Stuck => "an end takes nothing more",
            Stopped::Unmade => "an end can't be made so",
            Stopped::Memory => "out of memory",
            Stopped::Usage => "no command line",
        })
    }
}

/// How many items an end handled, and how many bytes it sent.
#[derive(Clone, Copy, Default)]
pub struct Tally {
    pub handled: u64,
    pub sent: u64,
}

/// Handles the item that the end holds if it is whole, and counts it.
fn turn(end: &mut End, tally: &mut Tally) -> Result<(), Stopped> {
    match end.turn() {
        Ok(Turn::Handled) => {
            tally.handled = tally.handled.saturating_add(1);
            Ok(())
        }
        Ok(Turn::Idle) => Ok(()),
        Err(TurnError::Refused(_)) => Err(Stopped::Refused),
        Err(TurnError::Busy) => Err(Stopped::Stuck),
        Err(TurnError::Memory) => Err(Stopped::Memory),
    }
}

/// Takes bytes up to the end of the end's present item, handles it if it is whole, and says how many were taken.
fn step(end: &mut End, bytes: &[u8], tally: &mut Tally) -> Result<usize, Stopped>
    ensures { IfOk result (λ n. (0 < n) × (n ≤ length bytes.now)) }
{
    let taken = end.receive(bytes);
    if taken == 0 {
        return Err(Stopped::Stuck);
    }
    turn(end, tally)?;
    Ok(taken)
}

/// Takes what waits to be sent.
pub fn empty(end: &mut End, tally: &mut Tally) {
    let waiting = end.outgoing().len();
    end.sent(waiting);
    tally.sent = tally.sent.saturating_add(waiting as u64);
}

/// Brings all the bytes to an end, and takes what it sends when so many bytes wait.
///
/// # Errors
/// `Stopped` if the end refuses them, or when out of memory.
pub fn bring(
    end: &mut End,
    bytes: &[u8],
    portion: usize,
    tally: &mut Tally,
) -> Result<(), Stopped> {
    let mut rest = bytes;
    'items: while !rest.is_empty() {
        let taken = step(end, rest, tally)?;
        rest = &rest[taken..];
        if end.outgoing().len() >= portion {
            empty(end, tally);
        }
    }
    Ok(())
}

/// Brings a draft to an end several times, and takes what it sends as it fills.
///
/// # Errors
/// As [`bring`].
pub fn bring_draft(
    end: &mut End,
    draft: &Draft,
    times: u32,
    tally: &mut Tally,
) -> Result<(), Stopped> {
    let bytes = draft.whole()?;
    for _round in 0..times {
        bring(end, bytes, PORTION, tally)?;
    }
    Ok(())
}

/// Brings all that one end sends to the other.
///
/// # Errors
/// `Stopped` if the other end refuses it, or when out of memory.
pub fn deliver(from: &mut End, to: &mut End, tally: &mut Tally) -> Result<(), Stopped> {
    bring(to, from.outgoing(), usize::MAX, tally)?;
    empty(from, tally);
    Ok(())
}
