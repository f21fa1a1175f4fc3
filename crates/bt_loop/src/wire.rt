//! What the two ends of `loop` talk over.
ghost use Rattle.std.specs.Prelude.{◌≡◌, length};
ghost use Rattle.bt_io.specs.Counts.{counted as raised, is_stuck as is_stuck_by};
ghost use Rattle.bt_loop.specs.Wires.{IsCall, Receives, Sends, WireSeen, other as other_side};

use bt_session::Side;
use thiserror::Error;

/// A call of a connection failed.
#[derive(Clone, Copy, PartialEq, Eq, Debug, Error)]
#[error("a call of the wire failed")]
pub struct WireFault;

/// A connection of two ends of one process: one receives what the other sends.
pub trait Wire {
    /// What contracts see: the bytes on their way, if known, and the counts of calls.
    ghost seen: { Self → WireSeen };

    /// Sends bytes from the front of `bytes`, as the side `from`; returns how many.
    ///
    /// # Errors
    /// `WireFault` if the call failed.
    fn send(&mut self, from: Side, bytes: &[u8]) -> Result<usize, WireFault>
        ensures bytes { Sends from (seen self.old) (seen self.new) result bytes.now }
        ensures counts { IsCall (seen self.old) (seen self.new) result (length bytes.now) };

    /// Receives bytes at the side `at` to the front of `into`; returns how many.
    ///
    /// # Errors
    /// `WireFault` if the call failed.
    fn receive(&mut self, at: Side, into: &mut [u8]) -> Result<usize, WireFault>
        ensures bytes { Receives at (seen self.old) (seen self.new) result into.new }
        ensures size { length into.new ≡ length into.old }
        ensures counts { IsCall (seen self.old) (seen self.new) result (length into.old) };
}

/// Returns the other side.
pub(crate) fn other(side: Side) -> Side
    ensures { result ≡ other_side side }
{
    match side {
        Side::Left => Side::Right,
        Side::Right => Side::Left,
    }
}

/// Returns the count of failed calls after this one, at most 2^64 - 1.
///
/// A call failed if it says so, or if it moved no byte of some.
pub(crate) fn failed_after(moved: Result<usize, WireFault>, room: usize, failed: u64) -> u64
    ensures { result ≡ raised (is_stuck_by moved room) failed }
{
    match moved {
        Ok(0) if room > 0 => failed.saturating_add(1),
        Ok(_) => failed,
        Err(_) => failed.saturating_add(1),
    }
}
