//! The dictionaries that an end sends (BEP 9, BEP 10), as values. `dict_text` encodes them.
ghost use Rattle.std.specs.Prelude.{◌≡◌, ◌<◌, ◌^◌, IfOk};
ghost use Rattle.std.specs.Option.{ForSome};
ghost use Rattle.bt_bencode.specs.Trees.{Pairs};
ghost use Rattle.bt_bencode.specs.Bencoding.{IsSpelling, Spells};
ghost use Rattle.bt_bencode.specs.Views.{tree_of};
ghost use Rattle.bt_ext.specs.Made.{IsMade, message_tree, handshake_tree};

use crate::dict_text::{handshake_text, message_text};
use crate::ids::Registered;
use crate::metadata::Kind;
use bt_bencode::{Value, check};
use std::alloc::{AllocError, Global};

/// Copies the dictionary that the text encodes into a value.
fn value_of(alloc: Global, text: &[u8]) -> Result<Value, AllocError>
    requires { IsSpelling text.now }
    ensures { IfOk result (λ v. (ps : Pairs) → Spells ps text.now → v ≡ Value.Dict ps) }
{
    match check(text) {
        Ok((dict, _)) => dict.to_value(alloc),
        Err(_) => unreachable!(),
    }
}

/// Makes the dictionary of a request, a data message or a reject (BEP 9).
///
/// The `total` of a data message, in bytes, is 1 to 2^63 - 1.
///
/// # Errors
/// `AllocError` when out of memory.
pub fn dict_of(alloc: Global, kind: Kind) -> Result<Value, AllocError>
    requires { IsMade kind }
    ensures { IfOk result (λ v. tree_of v ≡ message_tree kind) }
{
    let mut text = [0; 220];
    let start = message_text(kind, &mut text);
    value_of(alloc, &text[start..])
}

/// Makes the dictionary of an extended handshake (BEP 10).
///
/// It has `m` with the registered ids, if there are any. `size` is the size in bytes of the metadata that the sender serves;
/// it is below 2^63.
///
/// # Errors
/// `AllocError` when out of memory.
pub fn handshake_dict(
    alloc: Global,
    reg: Registered,
    size: Option<u64>,
) -> Result<Value, AllocError>
    requires { ForSome size (λ n. n < 2 ^ 63) }
    ensures { IfOk result (λ v. tree_of v ≡ handshake_tree reg size) }
{
    let mut text = [0; 220];
    let start = handshake_text(reg, size, &mut text);
    value_of(alloc, &text[start..])
}
