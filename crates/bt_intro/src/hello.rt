//! The search for the place at which a handshake starts.
ghost use Rattle.std.specs.Prelude.{◌≡◌, ◌++◌, ◌≤◌, ℕ, List, true, length};
ghost use Rattle.bt_wire.specs.Handshakes.{protocol};
ghost use Rattle.bt_intro.specs.Hellos.{BeginsAsHello, IsFirstFrom};

/// What a handshake begins with (BEP 3).
const HELLO: &[u8; 20] = b"\x13BitTorrent protocol";

/// One more than the bytes of a key exchange (message stream encryption, with an empty initial payload).
const PLACES: usize = 2_049;

/// Returns whether the bytes begin as a handshake does.
fn begins_as_hello(bytes: &[u8]) -> bool
    ensures yes { result ≡ true → BeginsAsHello bytes.now }
    ensures no { (after : List ℕ) → bytes.now ≡ protocol ++ after → result ≡ true }
{
    bytes.starts_with(HELLO)
}

/// Returns the first place from `low` on at which a handshake starts, if it is near enough.
pub(crate) fn find_hello(front: &[u8], low: usize) -> Option<usize>
    ensures { IsFirstFrom front.now low result }
{
    let high = front.len().min(PLACES);
    for place in low..high {
        if begins_as_hello(&front[place..]) {
            return Some(place);
        }
    }
    None
}
