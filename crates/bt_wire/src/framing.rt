//! Encoding of a message with any id and any fields. Nothing is checked here.
ghost use Rattle.std.specs.Prelude.{◌≡◌, ◌+◌, ◌-◌, ◌<◌, ◌^◌, ◌∷◌, ◌++◌, length, IfOk};
ghost use Rattle.bt_wire.specs.Numbers.{be32};

use crate::fields::Fields;
use crate::head::head_and_tail;
use std::alloc::{AllocError, Global};

/// Encodes a message with this id and these fields (BEP 3, "peer messages").
///
/// It writes the length of both in four bytes, the id and the fields. Nothing is checked, and the id may be any. The
/// fields have fewer than 2^32 - 1 bytes, so that the length fits.
///
/// # Errors
/// `AllocError` when out of memory.
pub fn frame(alloc: Global, id: u8, fields: &[u8]) -> Result<Vec<u8>, AllocError>
    requires { length fields.now < 2 ^ 32 - 1 }
    ensures { IfOk result (λ bytes. bytes.items ≡ be32 (1 + length fields.now) ++ id ∷ fields.now) }
{
    let length = 1 + fields.len() as u32;
    let (head, tail) = head_and_tail(length, Some(id), &Fields::Payload(fields));
    let mut bytes = Vec::with_capacity(alloc, 5 + fields.len())?;
    bytes.extend_from_slice(head.as_slice())?;
    bytes.extend_from_slice(tail)?;
    Ok(bytes)
}
