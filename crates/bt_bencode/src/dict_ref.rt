//! Dictionaries as validated slices of a payload: look-ups and pairs. Only `to_value` allocates.
ghost use Rattle.std.specs.Prelude.{◌≡◌, IfOk, IfErr, IfSome, option_map, option_and_then, is_some};
ghost use Rattle.bt_bencode.specs.Trees.{dictionary};
ghost use Rattle.bt_bencode.specs.Bencoding.{BeginsWith, Fits, Spells, IsSpelling};
ghost use Rattle.bt_bencode.specs.Keys.{value_at, unsorted};
ghost use Rattle.bt_bencode.specs.LookUps.{integer_of, string_of, dictionary_of, inner_integer};
ghost use Rattle.bt_bencode.specs.Payloads.{Refuses};
ghost use Rattle.bt_bencode.specs.Readable.{FindsValue, HasValue};
ghost use Rattle.bt_bencode.specs.OneSpelling.{IsSpelling-prop};

use crate::pairs::{IntPairs, Left, pairs_in};
use crate::read::{following, read_value};
use crate::scan::{Bad, scan};
use crate::skip::{find, inner_int, int_in, text_in};
use crate::sorted::first_unsorted;
use crate::tree::Value;
use std::alloc::{AllocError, Global};

/// A slice that was validated: it encodes one dictionary within the limits.
///
/// A contract sees the dictionary's pairs as its `tree`. The integer at `e` of the dictionary at a key:
///
/// ```rust
/// let (dict, _) = check(PAYLOAD).ok()?;
/// dict.lookup_dict(key)?.lookup_int(b"e")
/// ```
// It has no `impl Model`: a value inside a view that borrows from a `&mut self` must have none.
#[derive(Clone, Copy)]
pub struct DictRef<'a> {
    bytes: &'a [u8],
    pub ghost tree: { IsSpelling bytes.now } by { IsSpelling-prop bytes.now },
}

impl<'a> DictRef<'a> {
    /// Makes the dictionary that bytes encode, without a second scan.
    ///
    /// The bytes encode one dictionary within the limits, as those of [`DictRef::spelled`] do.
    #[inline(always)]
    pub fn of_spelled(bytes: &'a [u8]) -> DictRef<'a>
        requires { IsSpelling bytes.now }
        ensures { Spells result.tree.0 bytes.now }
    {
        DictRef { bytes }
    }

    /// Returns the bytes that encode the dictionary.
    pub fn spelled(&self) -> &'a [u8]
        ensures { Spells self.now.tree.0 result.now }
    {
        self.bytes
    }

    /// Copies the dictionary into a value.
    ///
    /// It allocates for each string, each list and each dictionary that isn't empty.
    ///
    /// # Errors
    /// `AllocError` when out of memory.
    pub fn to_value(&self, alloc: Global) -> Result<Value, AllocError>
        ensures { IfOk result (λ v. v ≡ Value.Dict self.now.tree.0) }
    {
        let (value, _) = read_value(alloc, self.spelled())?;
        Ok(value)
    }

    /// Returns the offset of the first key, at any depth, that is out of order.
    ///
    /// A key is out of order if it isn't above the key before it (BEP 3: keys "appear in sorted order").
    pub fn first_unsorted(&self) -> Option<usize>
        ensures { result ≡ unsorted (dictionary self.now.tree.0) }
    {
        first_unsorted(self.spelled())
    }

    /// Returns whether a pair has the key.
    pub fn has(&self, key: &[u8]) -> bool
        ensures { result ≡ is_some (value_at key.now self.now.tree.0) }
    {
        self.value_after(key).is_some()
    }

    /// Returns the integer of the first pair with the key.
    ///
    /// `None`: no pair has the key, or its value is of another kind.
    #[inline(always)]
    pub fn lookup_int(&self, key: &[u8]) -> Option<i64>
        ensures { result ≡ option_and_then integer_of (value_at key.now self.now.tree.0) }
    {
        match self.value_after(key) {
            None => None,
            Some(value) => int_in(value),
        }
    }

    /// Looks up two integers.
    ///
    /// The first is the integer at `inner` in the dictionary at `outer`, the second the integer at `key`. They are those that
    /// [`DictRef::lookup_dict`] and [`DictRef::lookup_int`] find.
    pub fn lookup_ints(&self, outer: &[u8], inner: &[u8], key: &[u8]) -> (Option<i64>, Option<i64>)
        ensures inner { result.0 ≡ option_and_then (inner_integer inner.now) (value_at outer.now self.now.tree.0) }
        ensures own { result.1 ≡ option_and_then integer_of (value_at key.now self.now.tree.0) }
    {
        // Only the inner dictionary's start is needed, so it isn't checked again.
        let nested = match self.value_after(outer) {
            None => None,
            Some(value) => inner_int(value, inner),
        };
        (nested, self.lookup_int(key))
    }

    /// Returns the byte string of the first pair with the key.
    ///
    /// `None`: no pair has the key, or its value is of another kind.
    pub fn lookup_bytes(&self, key: &[u8]) -> Option<&'a [u8]>
        ensures { option_map (λ s. s.now) result ≡ option_and_then string_of (value_at key.now self.now.tree.0) }
    {
        match self.value_after(key) {
            None => None,
            Some(value) => text_in(value),
        }
    }

    /// Returns the dictionary of the first pair with the key.
    ///
    /// `None`: no pair has the key, or its value is of another kind.
    pub fn lookup_dict(&self, key: &[u8]) -> Option<DictRef<'a>>
        ensures { option_map (λ d. d.tree.0) result ≡ option_and_then dictionary_of (value_at key.now self.now.tree.0) }
    {
        let value = self.value_after(key)?;
        match check(value) {
            Ok((found, _)) => Some(found),
            Err(_) => None,
        }
    }

    /// Returns the pairs of the dictionary of the first pair with the key.
    ///
    /// They are those of the dictionary that [`DictRef::lookup_dict`] finds, which isn't checked again. `None`: no pair has the
    /// key, or its value is of another kind.
    pub fn lookup_pairs(&self, key: &[u8]) -> Option<IntPairs<'a>>
        ensures { result ≡ option_and_then dictionary_of (value_at key.now self.now.tree.0) }
    {
        match self.value_after(key) {
            None => None,
            Some(value) => pairs_in(value),
        }
    }

    /// Returns the pairs in order: each key, and the value if it is an integer.
    pub fn int_pairs(&self) -> IntPairs<'a>
        ensures { result ≡ self.now.tree.0 }
    {
        IntPairs {
            left: Left::Encoded(following(self.spelled())),
        }
    }

    /// Returns the bytes from the value of the first pair with the key on.
    #[inline(always)]
    fn value_after(&self, key: &[u8]) -> Option<&'a [u8]>
        ensures value { FindsValue result (value_at key.now self.now.tree.0) }
        ensures fits { Fits (dictionary self.now.tree.0) }
        ensures whole { IfSome result (λ bytes. HasValue bytes.now) }
    {
        let bytes = self.spelled();
        find(following(bytes), key)
    }
}

/// Parses the dictionary that the payload begins with; returns its length too.
///
/// See BEP 3, "bencoding". The length is in bytes. What follows the dictionary isn't looked at. Nothing is copied.
///
/// # Errors
/// `Impossible` with the offset of the first byte that can't be part of a dictionary within the limits. `Cut` if the payload
/// is truncated: it begins such a dictionary and ends before the dictionary does.
#[inline(always)]
pub fn check(payload: &[u8]) -> Result<(DictRef<'_>, usize), Bad>
    ensures ok { IfOk result (λ x. BeginsWith payload.now x.0.tree.0 x.1) }
    ensures err { IfErr result (Refuses payload.now) }
{
    let n = scan(payload)?;
    Ok((
        DictRef {
            bytes: &payload[..n],
        },
        n,
    ))
}
