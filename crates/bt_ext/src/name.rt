//! A name that a table stores, over the table's allocator.
ghost use Rattle.std.specs.Prelude.{◌≡◌, IfOk};

use std::alloc::{AllocError, Allocator};
use std::marker::Model;

/// A name, seen as the list of its bytes.
#[derive(Debug, Drop)]
pub struct Name<A: Allocator> {
    bytes: Vec<u8, A>,
}

impl<A: Allocator> Model for Name<A> {
    ghost use Rattle.std.specs.Prelude.{List, ℕ};

    ghost Value = { List ℕ };

    ghost view = { λ a. a.bytes.items };
}

impl<A: Allocator> Name<A> {
    /// Copies these bytes into a name.
    ///
    /// # Errors
    /// `AllocError` when out of memory.
    pub fn copied(alloc: A, bytes: &[u8]) -> Result<Name<A>, AllocError>
        ensures { IfOk result (λ name. name ≡ bytes.now) }
    {
        Ok(Name {
            bytes: bytes.to_vec(alloc)?,
        })
    }

    /// Returns the bytes.
    pub fn as_slice(&self) -> &[u8]
        ensures { result.now ≡ self.now }
    {
        self.bytes.as_slice()
    }
}
