//! Look-ups in a dictionary, be it a value or a validated slice.
ghost use Rattle.std.specs.Prelude.{◌≡◌, option_and_then, option_map};
ghost use Rattle.bt_bencode.specs.Trees.{Tree, dictionary};
ghost use Rattle.bt_bencode.specs.Keys.{lookup_of};
ghost use Rattle.bt_bencode.specs.LookUps.{dictionary_of, integer_of};
ghost use Rattle.bt_bencode.specs.Views.{tree_of};
ghost use Rattle.bt_ext.specs.Fields.{int_at};

use bt_bencode::{DictRef, IntPairs, Value, lookup};

/// A dictionary that is looked into. Nothing is found in a value of another kind.
pub trait Dict<'a>: Copy {
    ghost tree: { Self → Tree };

    /// Returns the integer of the first pair with the key.
    fn int(self, key: &[u8]) -> Option<i64>
        ensures { result ≡ int_at key.now (tree self) };

    /// Returns the pairs of the dictionary of the first pair with the key.
    fn pairs(self, key: &[u8]) -> Option<IntPairs<'a>>
        ensures { result ≡ option_and_then dictionary_of (lookup_of key.now (tree self)) };
}

impl<'a> Dict<'a> for &'a Value {
    ghost tree = { λ v. tree_of v.now };

    fn int(self, key: &[u8]) -> Option<i64> {
        match lookup(self, key) {
            Some(value) => value.as_int(),
            None => None,
        }
    }

    fn pairs(self, key: &[u8]) -> Option<IntPairs<'a>> {
        match lookup(self, key) {
            Some(Value::Dict(pairs)) => Some(pairs.int_pairs()),
            _ => None,
        }
    }
}

impl<'a> Dict<'a> for DictRef<'a> {
    ghost tree = { λ d. dictionary d.tree.0 };

    // Inline, so that a literal key is compared by its length first.
    #[inline(always)]
    fn int(self, key: &[u8]) -> Option<i64> {
        self.lookup_int(key)
    }

    fn pairs(self, key: &[u8]) -> Option<IntPairs<'a>> {
        self.lookup_pairs(key)
    }
}
