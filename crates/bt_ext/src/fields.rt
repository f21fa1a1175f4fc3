//! The fields of an extended handshake (BEP 10, BEP 9), in values and in validated slices.
ghost use Rattle.std.specs.Prelude.{◌≡◌, Option, option_and_then, option_map};
ghost use Rattle.bt_bencode.specs.Trees.{Tree, dictionary};
ghost use Rattle.bt_bencode.specs.LookUps.{dictionary_of, integer_of};
ghost use Rattle.bt_bencode.specs.Views.{tree_of};
ghost use Rattle.bt_ext.specs.Fields.{byte_of, has_bad_id, is_bad_m, size_of, is_bad_size, has_bad_field, natural, told_id, told_as};

use crate::dict::Dict;
use bt_bencode::{DictRef, IntPairs, Value, lookup};

/// Returns an integer that is an id of one byte, 0 to 255.
pub fn byte_of(value: Option<i64>) -> Option<u8>
    ensures { result ≡ byte_of value }
{
    let n = value?;
    u8::try_from(n).ok()
}

/// Returns an integer that is at least 0.
pub fn natural(value: Option<i64>) -> Option<u64>
    ensures { result ≡ option_and_then natural value }
{
    let n = value?;
    u64::try_from(n).ok()
}

/// Returns the size of the metadata that a dictionary announces.
#[inline(always)]
fn size_in<'a, D: Dict<'a>>(dict: D) -> Option<u64>
    ensures { result ≡ size_of (D.tree dict) }
{
    natural(dict.int(b"metadata_size"))
}

/// Returns the size of the metadata that an extended handshake announces (BEP 9).
///
/// It is the value in bytes of the first pair `metadata_size`, if that is an integer of at least 0.
pub fn metadata_size(dict: &Value) -> Option<u64>
    ensures { result ≡ size_of (tree_of dict.now) }
{
    size_in(dict)
}

/// Returns the size of the metadata that an extended handshake announces (BEP 9).
///
/// It is what [`metadata_size`] returns for the dictionary as a value.
pub fn metadata_size_ref(dict: &DictRef) -> Option<u64>
    ensures { result ≡ size_of (dictionary dict.now.tree.0) }
{
    size_in(*dict)
}

/// Returns the id that an extended handshake announces for an extension's name (BEP 10).
///
/// It is the value of the first pair with the name in the first `m`, if that is an integer from 0 to 255. With the id 0 a
/// peer switches the extension off.
pub fn announced_id(dict: &DictRef, name: &[u8]) -> Option<u8>
    ensures { result ≡ told_as name.now (dictionary dict.now.tree.0) }
{
    let m = dict.lookup_dict(b"m")?;
    byte_of(m.lookup_int(name))
}

/// Returns the id of `ut_metadata` in a dictionary's `m`.
fn metadata_id(dict: &Value) -> Option<u8>
    ensures { result ≡ told_id (tree_of dict.now) }
{
    let id = lookup(lookup(dict, b"m")?, b"ut_metadata")?;
    byte_of(id.as_int())
}

/// Returns the id of `ut_metadata` and the size of the metadata that an extended handshake announces.
///
/// They are those of BEP 10 and BEP 9; with the id 0 a peer switches the extension off.
pub fn announced(dict: &Value) -> (Option<u8>, Option<u64>)
    ensures id { result.0 ≡ told_id (tree_of dict.now) }
    ensures size { result.1 ≡ size_of (tree_of dict.now) }
{
    (metadata_id(dict), metadata_size(dict))
}

/// Returns the id of `ut_metadata` and the size of the metadata that an extended handshake announces.
///
/// They are what [`announced`] returns for the dictionary as a value.
#[inline(always)]
pub fn announced_ref(dict: &DictRef) -> (Option<u8>, Option<u64>)
    ensures id { result.0 ≡ told_id (dictionary dict.now.tree.0) }
    ensures size { result.1 ≡ size_of (dictionary dict.now.tree.0) }
{
    let (id, size) = dict.lookup_ints(b"m", b"ut_metadata", b"metadata_size");
    (byte_of(id), natural(size))
}

fn bad_id(m: IntPairs) -> bool
    ensures { result ≡ has_bad_id m.entry }
{
    for (_, value) in m {
        if byte_of(value).is_none() {
            return true;
        }
    }
    false
}

/// Returns whether the value of `m`, if there is one, is of the wrong kind.
pub fn bad_m(m: Option<Option<IntPairs>>) -> bool
    ensures { (value : Option Tree) → m.entry ≡ option_map dictionary_of value → result ≡ is_bad_m value }
{
    match m {
        None => false,
        Some(None) => true,
        Some(Some(m)) => bad_id(m),
    }
}

/// Returns whether the value of `metadata_size`, if there is one, is of the wrong kind.
pub fn bad_size(size: Option<Option<i64>>) -> bool
    ensures { (value : Option Tree) → size ≡ option_map integer_of value → result ≡ is_bad_size value }
{
    match size {
        None => false,
        Some(size) => natural(size).is_none(),
    }
}

/// Returns whether an extended handshake has a field of the wrong kind (BEP 10).
pub fn bad_field(dict: &Value) -> bool
    ensures { result ≡ has_bad_field (tree_of dict.now) }
{
    let m = match lookup(dict, b"m") {
        None => None,
        Some(Value::Dict(pairs)) => Some(Some(pairs.int_pairs())),
        Some(_) => Some(None),
    };
    let size = match lookup(dict, b"metadata_size") {
        None => None,
        Some(value) => Some(value.as_int()),
    };
    bad_m(m) || bad_size(size)
}
