//! The hint that the first bytes of a refused stream give.
ghost use Rattle.std.specs.Prelude.{◌≡◌, true, IfSome};
ghost use Rattle.bt_run.specs.Hints.{HasMark, begins as begins_with, protocol};

use crate::hint::kind::{Kind, PROTOCOL, begins, kind_of};
use crate::hint::places::{find_handshake, find_keep_alives};

/// What the first bytes say. Numbers are offsets in the stream, and in bytes.
#[derive(Clone, Copy, PartialEq, Eq, Debug)]
pub enum Hint {
    /// They begin as another kind of file.
    Is(Kind),
    /// They begin with no handshake, and one begins at this offset.
    Handshake(u64),
    /// They begin with a handshake, and a second one begins at this offset.
    SecondHandshake(u64),
    /// A long run of keep-alives, which are zeros: its offset and its length.
    KeepAlives(u64, u64),
}

/// Returns a hint for bytes that begin with no handshake.
fn outside(bytes: &[u8]) -> Option<Hint>
    ensures { IfSome result (HasMark bytes.now) }
{
    if let Some(kind) = kind_of(bytes) {
        return Some(Hint::Is(kind));
    }
    let place = find_handshake(bytes)?;
    Some(Hint::Handshake(place as u64))
}

/// Returns a hint for a stream that begins with a handshake and is refused at `at`.
fn inside(bytes: &[u8], at: u64) -> Option<Hint>
    requires { begins_with protocol bytes.now ≡ true }
    ensures { IfSome result (HasMark bytes.now) }
{
    if let Some(place) = find_handshake(bytes) {
        if place as u64 <= at {
            return Some(Hint::SecondHandshake(place as u64));
        }
    }
    let (start, size) = find_keep_alives(bytes)?;
    if start as u64 > at {
        return None;
    }
    Some(Hint::KeepAlives(start as u64, size as u64))
}

/// Returns what the first bytes say of a stream that is refused at offset `at`.
///
/// An offset in it is within these bytes, and not after `at`, unless there is no handshake at the start.
pub fn hint_of(bytes: &[u8], at: u64) -> Option<Hint>
    ensures { IfSome result (HasMark bytes.now) }
{
    if begins(bytes, PROTOCOL) {
        inside(bytes, at)
    } else {
        outside(bytes)
    }
}
