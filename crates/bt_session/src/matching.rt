//! Whether two configs match, so that their ends can be linked.
ghost use Rattle.std.specs.Prelude.{◌≡◌, true, false};
ghost use Rattle.bt_session.specs.LinkLaws.{SamePieces};
ghost use Rattle.bt_session.specs.Reports.{IsRightFor, AreLike, DoMatch};

use bt_end::{Config, Role};
use bt_wire::Own;

/// Whether two piece counts differ.
fn differ(left: Option<u32>, right: Option<u32>) -> bool
    ensures same { result ≡ false → SamePieces left right }
    ensures other { result ≡ true → SamePieces left right → ⊥ }
{
    match (left, right) {
        (Some(left), Some(right)) => left != right,
        _ => false,
    }
}

/// Whether the metadata that is to be served has another SHA-1 than the info hash.
fn is_other(config: &Config) -> bool
    ensures right { result ≡ false → IsRightFor config.now.role config.now.own.info_hash }
    ensures wrong { result ≡ true → IsRightFor config.now.role config.now.own.info_hash → ⊥ }
{
    match (&config.role, config.own.info_hash) {
        (Role::Serve(metadata), Some(hash)) => sha1::Sha1::digest(metadata.as_slice()) != hash,
        (Role::Share(metadata), Some(hash)) => sha1::Sha1::digest(metadata.as_slice()) != hash,
        _ => false,
    }
}

/// Whether two receivers want different things.
fn are_apart(left: &Own, right: &Own) -> bool
    ensures alike { result ≡ false → AreLike left.now right.now }
    ensures apart { result ≡ true → AreLike left.now right.now → ⊥ }
{
    left.info_hash != right.info_hash
        || left.limit != right.limit
        || left.rules != right.rules
        || differ(left.pieces, right.pieces)
}

/// Returns whether two configs don't match.
///
/// They match if their limits, rules and info hashes are the same, the piece counts are the same if both are known, and the
/// metadata to serve has the info hash as its SHA-1.
pub fn is_mismatch(left: &Config, right: &Config) -> bool
    ensures same { result ≡ false → DoMatch left.now right.now }
    ensures other { result ≡ true → DoMatch left.now right.now → ⊥ }
{
    are_apart(&left.own, &right.own) || is_other(left) || is_other(right)
}
