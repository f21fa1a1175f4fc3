//! Which values are within the limits. The functions here recurse by the value's nesting, and by no more than 33 levels.
ghost use Rattle.std.specs.Prelude.{◌↔◌, IsTrue};
ghost use Rattle.bt_bencode.specs.Bencoding.{Fits};
ghost use Rattle.bt_bencode.specs.Room.{FitsIn, AllFitIn, PairsFitIn};
ghost use Rattle.bt_bencode.specs.Views.{tree_of};

use crate::tree::{Pairs, Value, Values};
use crate::{MAX_NESTING, MAX_STRING};

/// Returns whether a value's strings are short enough and its nesting flat enough.
///
/// Strings and keys have at most `MAX_STRING` bytes. Lists and dictionaries nest at most `MAX_NESTING` deep, and the
/// outermost counts as 1. It doesn't allocate.
pub fn fits(value: &Value) -> bool
    ensures { IsTrue result ↔ Fits (tree_of value.now) }
{
    fits_in(MAX_NESTING, value)
}

/// Returns whether the value fits if `room` more lists and dictionaries may nest.
#[cycle(fits)]
fn fits_in(room: usize, value: &Value) -> bool
    ensures { IsTrue result ↔ FitsIn room (tree_of value.now) }
{
    match value {
        Value::Int(n) => {
            // What a reference refers to is known to be in its type's range once it is read.
            let _n = *n;
            true
        }
        Value::Bytes(text) => text.len() <= MAX_STRING,
        Value::List(values) => room > 0 && all_fit_in(room - 1, values),
        Value::Dict(pairs) => room > 0 && pairs_fit_in(room - 1, pairs),
    }
}

#[cycle(fits)]
fn all_fit_in(room: usize, values: &Values) -> bool
    ensures { IsTrue result ↔ AllFitIn room values.now }
{
    for value in &values.values {
        if !fits_in(room, value) {
            return false;
        }
    }
    true
}

#[cycle(fits)]
fn pairs_fit_in(room: usize, pairs: &Pairs) -> bool
    ensures { IsTrue result ↔ PairsFitIn room pairs.now }
{
    for (key, value) in &pairs.pairs {
        if key.len() > MAX_STRING || !fits_in(room, value) {
            return false;
        }
    }
    true
}
