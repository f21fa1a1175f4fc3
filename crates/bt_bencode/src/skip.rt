//! Skipping a value in validated bytes, and finding the value of a key.
//!
//! It doesn't allocate. Skipping recurses by the value's nesting, which is at most 32 after validation.
ghost use Rattle.std.specs.Prelude.{◌≡◌, ℕ, ◌<◌, ◌∷◌, ◌++◌, List, length, Option, IfSome, option_map};
ghost use Rattle.bt_bencode.specs.Trees.{Tree, Trees, Pairs};
ghost use Rattle.bt_bencode.specs.Bencoding.{ben, ben_all, ben_pairs, InRange, AllInRange, PairsInRange};
ghost use Rattle.bt_bencode.specs.Keys.{value_at};
ghost use Rattle.bt_bencode.specs.LookUps.{integer_of, string_of, inner_integer};
ghost use Rattle.bt_bencode.specs.Readable.{FindsValue, HasValue, HasItems, HasPairs};

use crate::read::{following, read_int, split_string};

/// Returns what follows the value that `bytes` begins with.
#[cycle(skip)]
pub fn skip_value(bytes: &[u8]) -> &[u8]
    requires { HasValue bytes.now }
    ensures following { (t : Tree) (more : List ℕ) → InRange t → bytes.now ≡ ben t ++ more → result.now ≡ more }
    ensures shorter { length result.now < length bytes.now }
{
    match bytes[0] {
        b'i' => read_int(following(bytes)).1,
        b'l' => skip_items(following(bytes)),
        b'd' => skip_pairs(following(bytes)),
        _ => split_string(bytes).1,
    }
}

/// Returns what follows the value that `bytes` begins with.
///
/// Inline, so that an integer or a byte string costs no call.
#[cycle(skip)]
#[inline(always)]
fn pass_value(bytes: &[u8]) -> &[u8]
    requires { HasValue bytes.now }
    ensures following { (t : Tree) (more : List ℕ) → InRange t → bytes.now ≡ ben t ++ more → result.now ≡ more }
    ensures shorter { length result.now < length bytes.now }
{
    match bytes[0] {
        b'i' => read_int(following(bytes)).1,
        b'l' => skip_value(bytes),
        b'd' => skip_value(bytes),
        _ => split_string(bytes).1,
    }
}

#[cycle(skip)]
fn skip_items(bytes: &[u8]) -> &[u8]
    requires { HasItems bytes.now }
    ensures following { (ts : Trees) (more : List ℕ) → AllInRange ts → bytes.now ≡ ben_all ts ++ 101 ∷ more → result.now ≡ more }
    ensures shorter { length result.now < length bytes.now }
{
    let mut rest = bytes;
    while rest[0] != b'e' {
        rest = pass_value(rest);
    }
    following(rest)
}

#[cycle(skip)]
fn skip_pairs(bytes: &[u8]) -> &[u8]
    requires { HasPairs bytes.now }
    ensures following { (ps : Pairs) (more : List ℕ) → PairsInRange ps → bytes.now ≡ ben_pairs ps ++ 101 ∷ more → result.now ≡ more }
    ensures shorter { length result.now < length bytes.now }
{
    let mut rest = bytes;
    while rest[0] != b'e' {
        let (_, value) = split_string(rest);
        rest = pass_value(value);
    }
    following(rest)
}

/// Returns the bytes from the value of the first pair with the key on.
// Inline, so that a literal key is compared by its length first, and mostly by nothing else.
#[inline(always)]
pub fn find<'a>(pairs: &'a [u8], key: &[u8]) -> Option<&'a [u8]>
    requires { HasPairs pairs.now }
    ensures { (ps : Pairs) (more : List ℕ) → PairsInRange ps → pairs.now ≡ ben_pairs ps ++ 101 ∷ more → FindsValue result (value_at key.now ps) }
{
    let mut rest = pairs;
    while rest[0] != b'e' {
        let (name, value) = split_string(rest);
        if name == key {
            return Some(value);
        }
        rest = pass_value(value);
    }
    None
}

/// Returns the integer at `key` in the value that `value` begins with.
///
/// `None` if that is no dictionary, or has no integer at the key.
pub fn inner_int(value: &[u8], key: &[u8]) -> Option<i64>
    requires { HasValue value.now }
    ensures { (t : Tree) (more : List ℕ) → InRange t → value.now ≡ ben t ++ more → result ≡ inner_integer key.now t }
{
    if value[0] != b'd' {
        return None;
    }
    match find(following(value), key) {
        None => None,
        Some(inner) => int_in(inner),
    }
}

/// Returns the value in front, if it is an integer, and what follows it.
#[inline(always)]
pub fn split_int(value: &[u8]) -> (Option<i64>, &[u8])
    requires { HasValue value.now }
    ensures number { (t : Tree) (more : List ℕ) → InRange t → value.now ≡ ben t ++ more → result.0 ≡ integer_of t }
    ensures following { (t : Tree) (more : List ℕ) → InRange t → value.now ≡ ben t ++ more → result.1.now ≡ more }
{
    if value[0] == b'i' {
        let (number, rest) = read_int(following(value));
        (Some(number), rest)
    } else {
        (None, skip_value(value))
    }
}

/// Returns the value that `value` begins with, if it is an integer.
#[inline(always)]
pub fn int_in(value: &[u8]) -> Option<i64>
    requires { HasValue value.now }
    ensures { (t : Tree) (more : List ℕ) → InRange t → value.now ≡ ben t ++ more → result ≡ integer_of t }
{
    if value[0] == b'i' {
        Some(read_int(following(value)).0)
    } else {
        None
    }
}

/// Returns whether there is a value, and which integer it is if it is one.
#[inline(always)]
pub fn int_if_any(value: Option<&[u8]>) -> Option<Option<i64>>
    requires { IfSome value (λ bytes. HasValue bytes.now) }
    ensures { (found : Option Tree) → FindsValue value.entry found → result ≡ option_map integer_of found }
{
    match value {
        None => None,
        Some(value) => Some(int_in(value)),
    }
}

/// Returns the value that `value` begins with, if it is a byte string.
#[inline(always)]
pub fn text_in(value: &[u8]) -> Option<&[u8]>
    requires { HasValue value.now }
    ensures { (t : Tree) (more : List ℕ) → InRange t → value.now ≡ ben t ++ more → option_map (λ s. s.now) result ≡ string_of t }
{
    match value[0] {
        b'i' => None,
        b'l' => None,
        b'd' => None,
        _ => Some(split_string(value).0),
    }
}
