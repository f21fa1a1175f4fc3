//! Offsets in a stream: a handshake further on, and a long run of keep-alives.
ghost use Rattle.std.specs.Prelude.{◌≡◌, ◌<◌, ◌≤◌, ◌+◌, IfSome, drop, length};
ghost use Rattle.std.specs.Int.{w32, from_be_bytes};
ghost use Rattle.bt_run.specs.Hints.{AreKeepAlives, HandshakeAt};

use crate::hint::kind::{PROTOCOL, begins};

/// The least bytes of keep-alives in a row that count as many.
const MANY: usize = 1024;

/// Returns the first offset above 0 at which a handshake begins.
pub fn find_handshake(bytes: &[u8]) -> Option<usize>
    ensures found { IfSome result (λ n. (0 < n) × HandshakeAt bytes.now n) }
    ensures within { IfSome result (λ n. n < length bytes.now) }
{
    for place in 1..bytes.len() {
        if begins(&bytes[place..], PROTOCOL) {
            return Some(place);
        }
    }
    None
}

/// Returns the length of the message at this place, its four bytes of length counted, if all of it is there.
fn span(bytes: &[u8], place: usize) -> Option<usize>
    ensures { IfSome result (λ n. (place + n ≤ length bytes.now) × (n ≡ 4 + from_be_bytes w32 (drop place bytes.now))) }
{
    let rest = bytes.get(place..)?;
    let digits = rest.first_chunk::<4>()?;
    let size = 4 + u32::from_be_bytes(*digits) as usize;
    if size <= rest.len() { Some(size) } else { None }
}

/// Returns the offset and the size in bytes of the first long run of keep-alives.
pub fn find_keep_alives(bytes: &[u8]) -> Option<(usize, usize)>
    ensures { IfSome result (λ p. (1024 ≤ p.1) × AreKeepAlives bytes.now p.0 p.1) }
{
    let mut start = 68;
    let mut place = 68;
    'messages: for _message in 0..bytes.len() {
        let Some(size) = span(bytes, place) else {
            break 'messages;
        };
        if size != 4 {
            if place - start >= MANY {
                return Some((start, place - start));
            }
            start = place + size;
        }
        place += size;
    }
    if place - start >= MANY {
        return Some((start, place - start));
    }
    None
}
