//! The values of extended payloads, owned or as parts of the payload, and the errors of parsing them.
ghost use Rattle.std.specs.Prelude.{◌≡◌};

use bt_bencode::{ByteString, DictRef, Value};
use std::alloc::AllocError;
use thiserror::Error;

/// An extended payload.
#[derive(Debug, Drop)]
pub enum Ext {
    /// The extended handshake (BEP 10): a dictionary, and the bytes after it.
    Handshake { dict: Value, rest: ByteString },
    /// A metadata message (BEP 9): a dictionary, and the block after it.
    Metadata { dict: Value, rest: ByteString },
    /// The sender doesn't have the piece of this index any more (`lt_donthave`).
    DontHave(u32),
    /// A message under an id that the receiver didn't register.
    Raw { id: u8, payload: ByteString },
}

/// An extended payload as parts of the slice that was parsed.
#[derive(Clone, Copy)]
pub enum ExtView<'a> {
    /// The extended handshake (BEP 10): a dictionary, and the bytes after it.
    Handshake { dict: DictRef<'a>, rest: &'a [u8] },
    /// A metadata message (BEP 9): a dictionary, and the block after it.
    Metadata { dict: DictRef<'a>, rest: &'a [u8] },
    /// The sender doesn't have the piece of this index any more (`lt_donthave`).
    DontHave(u32),
    /// A message under an id that the receiver didn't register.
    Raw { id: u8, payload: &'a [u8] },
}

/// Why a payload is refused. Offsets are counted from its start.
#[derive(Clone, Copy, Debug, PartialEq, Eq, Error)]
pub enum ViewError {
    /// The payload has to be a piece index, and doesn't have four bytes.
    #[error("a piece index has four bytes")]
    BadExtLength,
    /// The payload has to begin with a dictionary within the limits, and doesn't.
    ///
    /// `at` is the offset of the first byte that can't be part of one, or the payload's length if it is truncated.
    #[error("no dictionary goes on at byte {at}")]
    BadBencode { at: usize },
    /// The key at offset `at` isn't above the key before it.
    #[error("the key at byte {at} is out of order")]
    Unsorted { at: usize },
    /// A field of the dictionary has the wrong kind.
    #[error("a field is of the wrong kind")]
    BadField,
    /// The dictionary ends at offset `at`, and what follows has the wrong length.
    #[error("the block at byte {at} has the wrong length")]
    BadBlock { at: usize },
}

/// Why no value is parsed. Offsets are counted from the payload's start.
#[derive(Clone, Copy, Debug, PartialEq, Eq, Error)]
pub enum ExtError {
    /// The payload has to be a piece index, and doesn't have four bytes.
    #[error("a piece index has four bytes")]
    BadExtLength,
    /// The payload has to begin with a dictionary within the limits, and doesn't.
    ///
    /// `at` is the offset of the first byte that can't be part of one, or the payload's length if it is truncated.
    #[error("no dictionary goes on at byte {at}")]
    BadBencode { at: usize },
    /// The key at offset `at` isn't above the key before it.
    #[error("the key at byte {at} is out of order")]
    Unsorted { at: usize },
    /// A field of the dictionary has the wrong kind.
    #[error("a field is of the wrong kind")]
    BadField,
    /// The dictionary ends at offset `at`, and what follows has the wrong length.
    #[error("the block at byte {at} has the wrong length")]
    BadBlock { at: usize },
    /// Out of memory.
    #[error("out of memory")]
    Memory,
}

impl From<ViewError> for ExtError {
    ghost use Rattle.bt_ext.specs.Faults.{read_error_of};
    ghost use Rattle.std.specs.Prelude.{◌≡◌};

    ghost from_gives = { λ fault e. e ≡ read_error_of fault };

    fn from(fault: ViewError) -> ExtError {
        match fault {
            ViewError::BadExtLength => ExtError::BadExtLength,
            ViewError::BadBencode { at } => ExtError::BadBencode { at },
            ViewError::Unsorted { at } => ExtError::Unsorted { at },
            ViewError::BadField => ExtError::BadField,
            ViewError::BadBlock { at } => ExtError::BadBlock { at },
        }
    }
}

impl From<AllocError> for ExtError {
    ghost use Rattle.bt_ext.specs.declared.ext.ExtError.TheVariants.{Memory};
    ghost use Rattle.std.specs.Prelude.{◌≡◌};

    ghost from_gives = { λ _ e. e ≡ Memory };

    fn from(_: AllocError) -> ExtError {
        ExtError::Memory
    }
}

/// Why rules refuse a value that can be encoded.
#[derive(Clone, Copy, Debug, PartialEq, Eq)]
pub enum ExtReason {
    /// A key isn't above the key before it.
    Unsorted,
    /// A field is of the wrong kind.
    BadField,
    /// The block after the dictionary has the wrong length.
    BadBlock,
}
