//! The digits of an info hash. The module `link` and `bt_cli` call it.
ghost use Rattle.std.specs.Prelude.{◌≡◌};
ghost use Rattle.bt_magnet.specs.Hashes.{hash_of};

use crate::base32::base32;
use hex::FromHex;

/// Returns the bytes of an info hash: 40 hex digits, or 32 base32 digits.
pub fn info_hash_of(digits: &[u8]) -> Option<[u8; 20]>
    ensures { result ≡ hash_of digits.now }
{
    if digits.len() == 40 {
        return <[u8; 20] as FromHex>::from_hex(digits).ok();
    }
    base32(digits)
}
