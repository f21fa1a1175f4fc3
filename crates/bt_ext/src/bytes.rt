//! Copies of bytes.
ghost use Rattle.std.specs.Prelude.{◌≡◌, IfOk};

use bt_bencode::ByteString;
use std::alloc::{AllocError, Global};

/// Copies bytes into a byte string of its own.
///
/// # Errors
/// `AllocError` when out of memory.
pub fn copy_bytes(alloc: Global, bytes: &[u8]) -> Result<ByteString, AllocError>
    ensures { IfOk result (λ s. s ≡ bytes.now) }
{
    Ok(ByteString::from_vec(bytes.to_vec(alloc)?))
}
