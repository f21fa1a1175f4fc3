//! Zeros in place of the missing bytes of a block.
ghost use Rattle.std.specs.Prelude.{◌≡◌, min, replicate};
ghost use Rattle.bt_judge.specs.Holes.{lacked_by, AreZerosPushed};

use bt_feed::Feed;
use bt_wire::number_at_front;

/// The id of a `piece`.
const PIECE: u8 = 7;

/// Where its block begins: its length, its id, its index and its begin come before it (BEP 3, peer messages).
const BLOCK_AT: usize = 13;

/// The zeros that are pushed together.
static ZEROS: [u8; 4096] = [0; 4096];

/// Returns how many bytes of its block a message lacks.
///
/// 0 if these bytes of it aren't at least the first 13 of a `piece`.
pub(crate) fn lacks(held: &[u8]) -> usize
    ensures { result ≡ lacked_by held.now }
{
    if held.len() < BLOCK_AT || held[4] != PIECE {
        return 0;
    }
    (number_at_front(held) as usize + 4).saturating_sub(held.len())
}

/// Returns `n` zeros, or as many as are pushed together.
fn zeros(n: usize) -> &'static [u8]
    ensures { result.now ≡ replicate (min n 4096) 0 }
{
    &ZEROS[..n.min(ZEROS.len())]
}

/// Pushes `n` zeros that don't complete the item.
pub(crate) fn push_zeros(feed: &mut Feed, n: usize)
    ensures { AreZerosPushed feed.old n feed.new }
{
    let mut left = n;
    'zeros: while left > 0 {
        let piece = zeros(left);
        feed.push(piece);
        left -= piece.len();
    }
}
