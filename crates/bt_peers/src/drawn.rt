//! What is drawn at random for a connection or a search.
ghost use Rattle.std.specs.Prelude.{◌≡◌};

use bt_seek::Ids;
use std::random::RandomSource;

/// The beginning of a peer id: this project's prefix and version. Twelve random digits follow.
const PEER_PREFIX: &[u8; 8] = b"-TZ0001-";

/// Returns a peer id of this project's prefix and twelve digits.
///
/// The digits are random, or zeros if the system's random source fails.
pub fn drawn_peer_id<R: RandomSource>(random: &R) -> [u8; 20] {
    let mut drawn = [0u8; 12];
    if random.fill_bytes(&mut drawn).is_err() {
        drawn = [0; 12];
    }
    let mut peer_id = [48u8; 20];
    peer_id[..8].copy_from_slice(PEER_PREFIX);
    for (digit, byte) in peer_id[8..].iter_mut().zip(drawn.iter()) {
        *digit = 48 + *byte % 10;
    }
    peer_id
}

/// Draws random bytes; zeros if the system's random source fails.
fn drawn<const N: usize, R: RandomSource>(random: &R) -> [u8; N] {
    let mut bytes = [0; N];
    if random.fill_bytes(&mut bytes).is_err() {
        bytes = [0; N];
    }
    bytes
}

/// Draws who asks for the peers of a torrent.
pub fn drawn_ids<R: RandomSource>(random: &R, info_hash: [u8; 20]) -> Ids
    ensures { result.info_hash ≡ info_hash }
{
    Ids {
        info_hash,
        peer_id: drawn_peer_id(random),
        node_id: drawn(random),
        key: drawn(random),
    }
}
