//! Bencoded data: integers, byte strings, lists and dictionaries.
ghost use Rattle.std.specs.Prelude.{◌≡◌, ◌==◌, ◌<◌, ◌^◌, length, option_map};
ghost use Rattle.bt_bencode.specs.Keys.{lookup_of, value_at};
ghost use Rattle.bt_bencode.specs.LookUps.{integer_of};
ghost use Rattle.bt_bencode.specs.Views.{tree_of, trees_of, pairs_of};

use crate::pairs::{IntPairs, Left};
use std::marker::Model;

/// A byte string, seen as the list of its bytes.
#[derive(Debug, Drop)]
pub struct ByteString {
    bytes: Vec<u8>,
}

impl Model for ByteString {
    ghost use Rattle.std.specs.Prelude.{List, ℕ};

    ghost Value = { List ℕ };

    ghost view = { λ b. b.bytes.items };
}

/// A value of bencoded data (BEP 3, "bencoding").
#[cycle(value)]
#[derive(Debug, Drop)]
pub enum Value {
    /// An integer, from -2^63 to 2^63 - 1.
    Int(i64),
    /// A byte string of any length.
    ///
    /// One of more than `MAX_STRING` bytes isn't within the limits.
    Bytes(ByteString),
    /// A list.
    List(Values),
    /// A dictionary.
    Dict(Pairs),
}

/// The values of a list, seen as trees.
#[cycle(value)]
#[derive(Debug, Drop)]
pub struct Values {
    pub(crate) values: Vec<Value>,
}

impl Model for Values {
    ghost use Rattle.bt_bencode.specs.Trees.{Trees, trees_nesting};
    ghost use Rattle.bt_bencode.specs.Codes.{trees_code};

    ghost Value = { Trees };

    ghost coded = { trees_code };

    ghost use Rattle.bt_bencode.specs.Views.{trees_of};

    ghost view = { λ a. trees_of a.values.items };

    ghost size = { trees_nesting };

    ghost use Rattle.bt_bencode.specs.Falls.{trees_fall};

    ghost size_decreases = { λ a h. trees_fall a.values.items };
}

/// The pairs of a dictionary in the order in which they are written.
///
/// A contract sees them as pairs of a key and a tree.
#[cycle(value)]
#[derive(Debug, Drop)]
pub struct Pairs {
    pub(crate) pairs: Vec<(ByteString, Value)>,
}

impl Model for Pairs {
    ghost use Rattle.bt_bencode.specs.Trees.{Pairs as PairsOfTrees, pairs_nesting};
    ghost use Rattle.bt_bencode.specs.Codes.{pairs_code};

    ghost Value = { PairsOfTrees };

    ghost coded = { pairs_code };

    ghost use Rattle.bt_bencode.specs.Views.{pairs_of};

    ghost view = { λ a. pairs_of a.pairs.items };

    ghost size = { pairs_nesting };

    ghost use Rattle.bt_bencode.specs.Falls.{pairs_fall};

    ghost size_decreases = { λ a h. pairs_fall a.pairs.items };
}

impl ByteString {
    /// Makes a byte string of these bytes, without an allocation.
    pub fn from_vec(bytes: Vec<u8>) -> ByteString
        ensures { result ≡ bytes.items }
    {
        ByteString { bytes }
    }

    /// Returns the bytes, without an allocation.
    pub fn into_vec(self) -> Vec<u8>
        ensures { result.items ≡ self }
    {
        self.bytes
    }

    /// Returns the bytes.
    pub fn as_slice(&self) -> &[u8]
        ensures { result.now ≡ self.now }
    {
        &self.bytes
    }

    /// Returns how many bytes it has.
    pub fn len(&self) -> usize
        ensures value { result ≡ length self.now }
        ensures small { result < 2 ^ 63 }
    {
        let bytes = &self.bytes;
        bytes.len()
    }

    /// Returns whether it has no byte.
    pub fn is_empty(&self) -> bool
        ensures { result ≡ (length self.now == 0) }
    {
        self.len() == 0
    }
}

impl Values {
    /// Makes a list of these values, without an allocation.
    pub fn from_vec(values: Vec<Value>) -> Values
        ensures { result ≡ trees_of values.items }
    {
        Values { values }
    }

    /// Returns the values, without an allocation.
    pub fn into_vec(self) -> Vec<Value>
        ensures { trees_of result.items ≡ self }
    {
        self.values
    }

    /// Returns the values in order.
    pub fn as_slice(&self) -> &[Value]
        ensures { trees_of result.now ≡ self.now }
    {
        &self.values
    }
}

impl Pairs {
    /// Makes a dictionary of these pairs, without an allocation.
    pub fn from_vec(pairs: Vec<(ByteString, Value)>) -> Pairs
        ensures { result ≡ pairs_of pairs.items }
    {
        Pairs { pairs }
    }

    /// Returns the pairs, without an allocation.
    pub fn into_vec(self) -> Vec<(ByteString, Value)>
        ensures { pairs_of result.items ≡ self }
    {
        self.pairs
    }

    /// Returns the pairs in order.
    pub fn as_slice(&self) -> &[(ByteString, Value)]
        ensures { pairs_of result.now ≡ self.now }
    {
        &self.pairs
    }

    /// Returns the pairs in order: each key, and the value if it is an integer.
    pub fn int_pairs(&self) -> IntPairs<'_>
        ensures { result ≡ self.now }
    {
        IntPairs {
            left: Left::Values(&self.pairs),
        }
    }
}

impl Value {
    /// Returns the integer that the value is.
    pub fn as_int(&self) -> Option<i64>
        ensures { result ≡ integer_of (tree_of self.now) }
    {
        match self {
            Value::Int(n) => Some(*n),
            _ => None,
        }
    }
}

/// Returns the value of the first pair with the key, without an allocation.
///
/// `None` if no pair has the key, or `value` is no dictionary.
pub fn lookup<'a>(value: &'a Value, key: &[u8]) -> Option<&'a Value>
    ensures { option_map (λ v. tree_of v.now) result ≡ lookup_of key.now (tree_of value.now) }
{
    match value {
        Value::Dict(pairs) => value_at(pairs, key),
        _ => None,
    }
}

fn value_at<'a>(pairs: &'a Pairs, key: &[u8]) -> Option<&'a Value>
    ensures { option_map (λ v. tree_of v.now) result ≡ value_at key.now pairs.now }
{
    for (k, value) in &pairs.pairs {
        if k.as_slice() == key {
            return Some(value);
        }
    }
    None
}
