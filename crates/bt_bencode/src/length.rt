//! The length of a value's encoding.
//!
//! `ben_len` recurses by the value's nesting, which has no limit in a value that a caller makes.
ghost use Rattle.std.specs.Prelude.{◌≡◌, ◌+◌, ◌-◌, ◌^◌, ◌≤◌, length, min};
ghost use Rattle.std.specs.Fmt.{decimal, signed_decimal};
ghost use Rattle.bt_bencode.specs.Bencoding.{ben, ben_all, ben_pairs};
ghost use Rattle.bt_bencode.specs.Views.{tree_of};

use crate::tree::{Pairs, Value, Values};

/// Returns how many decimal digits a number has.
fn decimal_len(n: u64) -> u64
    ensures value { result ≡ length (decimal n) }
    ensures short { result ≤ 20 }
{
    if n < 10 { 1 } else { decimal_len(n / 10) + 1 }
}

/// Returns how many bytes the decimal text of a signed number has.
fn int_len(n: i64) -> u64
    ensures value { result ≡ length (signed_decimal n) }
    ensures short { result ≤ 21 }
{
    if n < 0 {
        decimal_len(n.unsigned_abs()) + 1
    } else {
        decimal_len(n.unsigned_abs())
    }
}

/// Returns the length of a string's encoding, at most 2^64 - 1.
fn string_len(len: usize) -> u64
    ensures { result ≡ min (length (decimal len) + 1 + len) (2 ^ 64 - 1) }
{
    (decimal_len(len as u64) + 1).saturating_add(len as u64)
}

/// Returns the length of a value's encoding in bytes, at most 2^64 - 1.
///
/// It doesn't allocate.
#[cycle(ben_len)]
pub fn ben_len(value: &Value) -> u64
    ensures { result ≡ min (length (ben (tree_of value.now))) (2 ^ 64 - 1) }
{
    match value {
        Value::Int(n) => int_len(*n) + 2,
        Value::Bytes(text) => string_len(text.len()),
        Value::List(values) => all_ben_len(values).saturating_add(2),
        Value::Dict(pairs) => pairs_ben_len(pairs).saturating_add(2),
    }
}

#[cycle(ben_len)]
fn all_ben_len(values: &Values) -> u64
    ensures { result ≡ min (length (ben_all values.now)) (2 ^ 64 - 1) }
{
    let mut sum: u64 = 0;
    for value in &values.values {
        sum = sum.saturating_add(ben_len(value));
    }
    sum
}

#[cycle(ben_len)]
fn pairs_ben_len(pairs: &Pairs) -> u64
    ensures { result ≡ min (length (ben_pairs pairs.now)) (2 ^ 64 - 1) }
{
    let mut sum: u64 = 0;
    for (key, value) in &pairs.pairs {
        sum = sum
            .saturating_add(string_len(key.len()))
            .saturating_add(ben_len(value));
    }
    sum
}
