//! The order of keys: whether a value's keys rise, and the first key in encoded bytes that isn't above the one before.
ghost use Rattle.std.specs.Prelude.{◌≡◌, ◌↔◌, IsTrue, ℕ, ◌≤◌, min, length, None, Some};
ghost use Rattle.std.specs.Option.{option_copied};
ghost use Rattle.bt_bencode.specs.Trees.{Pairs as PairsOfTrees, dictionary};
ghost use Rattle.bt_bencode.specs.Bencoding.{BeginsWith};
ghost use Rattle.bt_bencode.specs.Keys.{IsSorted, AllAreSorted, PairsAreSorted, is_above, unsorted};
ghost use Rattle.bt_bencode.specs.Views.{tree_of};
ghost use Rattle.bt_bencode.specs.Words.{IsWord};

use crate::one_pass::after_value;
use crate::read::suffix;
use crate::scan::Open;
use crate::tree::{Pairs, Value, Values};
use std::cmp::Ordering;

/// Returns whether the keys of each dictionary, at any depth, are sorted.
///
/// BEP 3: keys "appear in sorted order (sorted as raw strings)", so each is above the one before it. It doesn't allocate,
/// and recurses by the value's nesting.
#[cycle(is_sorted)]
pub fn is_sorted(value: &Value) -> bool
    ensures { IsTrue result ↔ IsSorted (tree_of value.now) }
{
    match value {
        Value::Int(_) | Value::Bytes(_) => true,
        Value::List(values) => all_are_sorted(values),
        Value::Dict(pairs) => pairs_are_sorted(pairs),
    }
}

#[cycle(is_sorted)]
fn all_are_sorted(values: &Values) -> bool
    ensures { IsTrue result ↔ AllAreSorted values.now }
{
    for value in &values.values {
        if !is_sorted(value) {
            return false;
        }
    }
    true
}

#[cycle(is_sorted)]
fn pairs_are_sorted(pairs: &Pairs) -> bool
    ensures { IsTrue result ↔ PairsAreSorted None pairs.now }
{
    let mut last: Option<&[u8]> = None;
    for (key, value) in &pairs.pairs {
        let key = key.as_slice();
        if !is_above(last, key) || !is_sorted(value) {
            return false;
        }
        last = Some(key);
    }
    true
}

/// How many bytes of two longer keys are compared at once.
const WORD: usize = 8;

/// How many bytes of two shorter keys are compared at once.
const HALF: usize = 4;

/// Returns the number of the first eight bytes, in big-endian order.
#[inline(always)]
fn word(bytes: &[u8]) -> u64
    requires { 8 ≤ length bytes.now }
    ensures { IsWord 8 bytes.now result }
{
    let (a, b, c, d) = (bytes[0], bytes[1], bytes[2], bytes[3]);
    let (e, f, g, h) = (bytes[4], bytes[5], bytes[6], bytes[7]);
    u64::from_be_bytes([a, b, c, d, e, f, g, h])
}

/// Returns the number of the first four bytes, in big-endian order.
#[inline(always)]
fn half(bytes: &[u8]) -> u32
    requires { 4 ≤ length bytes.now }
    ensures { IsWord 4 bytes.now result }
{
    let (a, b, c, d) = (bytes[0], bytes[1], bytes[2], bytes[3]);
    u32::from_be_bytes([a, b, c, d])
}

/// Returns the length of the shorter key.
#[inline(always)]
fn shared_len(last: &[u8], key: &[u8]) -> usize
    ensures { result ≡ min (length last.now) (length key.now) }
{
    if last.len() < key.len() {
        last.len()
    } else {
        key.len()
    }
}

/// Returns whether the key is above the last one, byte by byte.
#[inline(always)]
fn is_above_bytewise(last: &[u8], key: &[u8]) -> bool
    ensures { result ≡ is_above (Some last.now) key.now }
{
    let shared = shared_len(last, key);
    let mut at = 0;
    while at < shared {
        let (a, b) = (last[at], key[at]);
        if a != b {
            return a < b;
        }
        at += 1;
    }
    last.len() < key.len()
}

/// Returns whether the key is above the last one.
///
/// The shorter of the two has four to eight bytes: its first four and its last four are all of it.
#[inline(always)]
fn is_above_by_halves(last: &[u8], key: &[u8]) -> bool
    requires low { 4 ≤ min (length last.now) (length key.now) }
    requires high { min (length last.now) (length key.now) ≤ 8 }
    ensures { result ≡ is_above (Some last.now) key.now }
{
    let (a, b) = (half(last), half(key));
    if a != b {
        return a < b;
    }
    let end = shared_len(last, key) - HALF;
    let (c, d) = (half(suffix(last, end)), half(suffix(key, end)));
    if c != d {
        return c < d;
    }
    last.len() < key.len()
}

/// Returns whether the key is above the last one.
///
/// The shorter of the two has eight to sixteen bytes: its first eight and its last eight are all of it.
#[inline(always)]
fn is_above_by_words(last: &[u8], key: &[u8]) -> bool
    requires low { 8 ≤ min (length last.now) (length key.now) }
    requires high { min (length last.now) (length key.now) ≤ 16 }
    ensures { result ≡ is_above (Some last.now) key.now }
{
    let (a, b) = (word(last), word(key));
    if a != b {
        return a < b;
    }
    let end = shared_len(last, key) - WORD;
    let (c, d) = (word(suffix(last, end)), word(suffix(key, end)));
    if c != d {
        return c < d;
    }
    last.len() < key.len()
}

/// Returns whether the key is above the last one, which may begin as the key does.
#[inline(always)]
fn is_above_alike(last: &[u8], key: &[u8]) -> bool
    ensures { result ≡ is_above (Some last.now) key.now }
{
    let shared = shared_len(last, key);
    if shared < HALF {
        is_above_bytewise(last, key)
    } else if shared <= 2 * HALF {
        is_above_by_halves(last, key)
    } else if shared <= 2 * WORD {
        is_above_by_words(last, key)
    } else if word(last) != word(key) {
        word(last) < word(key)
    } else {
        matches!(last.cmp(key), Ordering::Less)
    }
}

/// Returns whether the key is above the last one, or there is no last one.
// Inline, since mostly the first bytes differ, and nothing else is compared then.
#[inline(always)]
pub fn is_above(last: Option<&[u8]>, key: &[u8]) -> bool
    ensures { result ≡ is_above (option_copied last.entry) key.now }
{
    match last {
        None => true,
        Some(last) if last.len() > 0 && key.len() > 0 && last[0] != key[0] => last[0] < key[0],
        Some(last) => is_above_alike(last, key),
    }
}

/// Returns the offset of the first key, at any depth, that is out of order.
///
/// A key is out of order if it isn't above the key before it. The payload begins with a dictionary within the limits. It
/// doesn't allocate.
pub fn first_unsorted(payload: &[u8]) -> Option<usize>
    requires { (ps : PairsOfTrees) × (n : ℕ) × BeginsWith payload.now ps n }
    ensures { (ps : PairsOfTrees) (n : ℕ) → BeginsWith payload.now ps n → result ≡ unsorted (dictionary ps) }
{
    let mut stack = Open::new();
    let mut left = 0;
    match after_value(payload, &mut stack, &mut left) {
        Some(_) => None,
        None => Some(payload.len() - left),
    }
}
