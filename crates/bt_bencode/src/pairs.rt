//! Walks over the pairs of a dictionary, encoded or as values.
ghost use Rattle.std.specs.Prelude.{◌≡◌, ℕ, ◌++◌, List, Option, IfSome, option_map};
ghost use Rattle.bt_bencode.specs.Trees.{Tree};
ghost use Rattle.bt_bencode.specs.Bencoding.{ben, InRange};
ghost use Rattle.bt_bencode.specs.LookUps.{dictionary_of};
ghost use Rattle.bt_bencode.specs.Readable.{AreLeft, FindsValue, HasValue};
ghost use Rattle.bt_bencode.specs.OneSpelling.{AreLeft-prop};

use crate::read::{following, split_string};
use crate::skip::split_int;
use crate::tree::{ByteString, Value};
use std::marker::Model;

/// The pairs that are left; if they are encoded, the end of their dictionary and what may follow it come after them.
#[derive(Clone, Copy)]
pub(crate) enum Left<'a> {
    Encoded(&'a [u8]),
    Values(&'a [(ByteString, Value)]),
}

/// Iterates over pairs: each key, and its value if it is an integer.
///
/// A contract sees the pairs that are left as pairs of a key and a tree.
#[derive(Drop)]
pub struct IntPairs<'a> {
    pub(crate) left: Left<'a>,
    ghost pairs: { AreLeft left } by { AreLeft-prop left },
}

impl<'a> Model for IntPairs<'a> {
    ghost use Rattle.bt_bencode.specs.Trees.{Pairs};
    ghost use Rattle.bt_bencode.specs.Codes.{pairs_code};

    ghost Value = { Pairs };

    ghost coded = { pairs_code };

    ghost view = { λ p. p.pairs.0 };
}

/// Returns the pairs of the dictionary that `value` begins with.
///
/// `None` if it is a value of another kind.
#[inline(always)]
pub(crate) fn pairs_in(value: &[u8]) -> Option<IntPairs<'_>>
    requires { HasValue value.now }
    ensures { (t : Tree) (more : List ℕ) → InRange t → value.now ≡ ben t ++ more → result ≡ dictionary_of t }
{
    if value[0] != b'd' {
        return None;
    }
    Some(IntPairs {
        left: Left::Encoded(following(value)),
    })
}

/// Returns whether there is a value, and its pairs if it is a dictionary.
#[inline(always)]
pub(crate) fn pairs_if_any(value: Option<&[u8]>) -> Option<Option<IntPairs<'_>>>
    requires { IfSome value (λ bytes. HasValue bytes.now) }
    ensures { (found : Option Tree) → FindsValue value.entry found → result ≡ option_map dictionary_of found }
{
    match value {
        None => None,
        Some(value) => Some(pairs_in(value)),
    }
}

impl<'a> Iterator for IntPairs<'a> {
    type Item = (&'a [u8], Option<i64>);

    ghost use Rattle.std.specs.Iterator.{at_most};
    ghost use Rattle.bt_bencode.specs.LookUps.{GivesPair};
    ghost use Rattle.bt_bencode.specs.LookUps.{pairs_count};

    ghost next_gives = { GivesPair };

    ghost remaining = { λ s. at_most (pairs_count s) };

    fn next(&mut self) -> Option<(&'a [u8], Option<i64>)> {
        match self.left {
            Left::Encoded(rest) => {
                if rest[0] == b'e' {
                    return None;
                }
                let (key, value) = split_string(rest);
                let (number, rest) = split_int(value);
                self.left = Left::Encoded(rest);
                Some((key, number))
            }
            Left::Values(values) => {
                let ((key, value), rest) = values.split_first()?;
                self.left = Left::Values(rest);
                Some((key.as_slice(), value.as_int()))
            }
        }
    }
}
