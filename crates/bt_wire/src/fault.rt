//! Why bytes or a message are refused: reasons, faults and their offsets.
ghost use Rattle.std.specs.Prelude.{◌≡◌, ◌≤◌, length};
ghost use Rattle.bt_wire.specs.Reasons.{reason_name};
ghost use Rattle.bt_wire.specs.declared.fault.DecodeError.TheVariants as decode;
ghost use Rattle.bt_wire.specs.declared.fault.EncodeError.TheVariants as encode;

use std::alloc::AllocError;
use std::fmt::{self, Display};
use thiserror::Error;

/// Why a stream is refused. `Rules::Bep` are the strict rules.
#[derive(Clone, Copy, PartialEq, Eq, Debug)]
pub enum Reason {
    /// The stream doesn't begin with the protocol's length and name (BEP 3).
    BadProtocol,
    /// The handshake has another info hash than the receiver's (BEP 3).
    WrongInfoHash,
    /// The length prefix is above the receiver's limit.
    TooLong,
    /// Only with strict rules: an id without a meaning.
    UnknownId,
    /// The id belongs to an extension that not both peers support (BEP 6, BEP 10).
    NotNegotiated,
    /// The message's length isn't one that its id allows.
    WrongLength,
    /// The piece index isn't below the known piece count.
    BadIndex,
    /// A bit of the bitfield after the last piece is 1 (BEP 3).
    SpareBits,
    /// Only with strict rules: a bitfield, have all or have none comes too late.
    ///
    /// It has to be the first message, except keep-alive, port, extended and unknown messages (BEP 3, BEP 6).
    Late,
    /// Only with strict rules: another message comes before one of these three.
    ///
    /// With the Fast Extension one of them has to come first (BEP 6).
    Missing,
    /// The extended payload doesn't begin with a dictionary (BEP 10).
    BadBencode,
    /// Only with strict rules: a key isn't above the one before it (BEP 3).
    Unsorted,
    /// Only with strict rules: a field has the wrong kind (BEP 9, BEP 10).
    BadField,
    /// Only with strict rules: the block has the wrong length (BEP 9).
    BadBlock,
    /// The message would start at offset 2^62 or later.
    StreamFull,
    /// The stream ends inside its handshake or a message.
    EndInside,
    /// The extended payload has to be a piece index, and doesn't have four bytes.
    BadExtLength,
}

impl Reason {
    /// Returns the reason's name, as the commands print it. It has at most 20 bytes.
    pub fn name(self) -> &'static str
        ensures name { result.now ≡ reason_name self }
        ensures short { length result.now ≤ 20 }
    {
        match self {
            Reason::BadProtocol => "BadProtocol",
            Reason::WrongInfoHash => "WrongInfoHash",
            Reason::TooLong => "TooLong",
            Reason::UnknownId => "UnknownId",
            Reason::NotNegotiated => "NotNegotiated",
            Reason::WrongLength => "WrongLength",
            Reason::BadIndex => "BadIndex",
            Reason::SpareBits => "SpareBits",
            Reason::Late => "Late",
            Reason::Missing => "Missing",
            Reason::BadBencode => "BadBencode",
            Reason::Unsorted => "Unsorted",
            Reason::BadField => "BadField",
            Reason::BadBlock => "BadBlock",
            Reason::StreamFull => "StreamFull",
            Reason::EndInside => "EndInside",
            Reason::BadExtLength => "BadExtLength",
        }
    }
}

impl Display for Reason {
    ghost use Rattle.std.specs.Prelude.{Some};
    ghost use Rattle.bt_wire.specs.Reasons.{reason_name};

    ghost output = { λ reason. Some (reason_name reason) };

    fn fmt<W: fmt::Write>(&self, f: &mut fmt::Formatter<W>) -> fmt::Result {
        f.write_str(self.name())
    }
}

impl std::error::Error for Reason {}

/// The offset of a message's id: after the four bytes of its length.
pub(crate) const ID_AT: u64 = 4;

/// The offset of a message's fields: after the id.
pub(crate) const FIELDS_AT: u64 = 5;

/// The offset of an extended payload: after the extended id.
pub(crate) const PAYLOAD_AT: u64 = 6;

/// Why bytes are refused, and where.
#[derive(Clone, Copy, PartialEq, Eq, Debug, Error)]
#[error("{reason} at {at}")]
pub struct Refused {
    /// The offset, counted from the start of the message or of the handshake.
    pub at: u64,
    pub reason: Reason,
}

impl Refused {
    /// Makes the refusal at this offset, for this reason.
    #[inline(always)]
    pub(crate) fn new(at: u64, reason: Reason) -> Refused
        ensures { result ≡ record { at = at; reason = reason } }
    {
        Refused { at, reason }
    }
}

/// Why a message isn't legal for a receiver.
///
/// It can't be encoded (`Shape`), or the receiver refuses its encoding.
#[derive(Clone, Copy, PartialEq, Eq, Debug, Error)]
pub enum Fault {
    #[error("the value has no spelling of its own")]
    Shape,
    #[error("{0}")]
    Reason(Reason),
}

/// Why a message isn't encoded.
#[derive(Clone, Copy, PartialEq, Eq, Debug, Error)]
pub enum EncodeError {
    #[error("{0}")]
    Illegal(Fault),
    #[error("out of memory")]
    Memory,
}

/// Why the bytes of a message aren't parsed.
///
/// They have this fault at this offset, or memory ran out.
#[derive(Clone, Copy, PartialEq, Eq, Debug, Error)]
pub enum DecodeError {
    #[error("{reason} at {at}")]
    Refused { at: u64, reason: Reason },
    #[error("out of memory")]
    Memory,
}

/// What the first bytes of a message say about it.
#[derive(Clone, Copy, PartialEq, Eq)]
pub enum Header {
    /// More bytes are needed: this many in all, 4 or 5.
    Need(u8),
    /// The message has this many bytes, with its length prefix.
    Window(u64),
    Refused { at: u64, reason: Reason },
}

impl From<AllocError> for DecodeError {
    ghost from_gives = { λ _ e. e ≡ decode.Memory };

    fn from(_e: AllocError) -> DecodeError {
        DecodeError::Memory
    }
}

impl From<AllocError> for EncodeError {
    ghost from_gives = { λ _ e. e ≡ encode.Memory };

    fn from(_e: AllocError) -> EncodeError {
        EncodeError::Memory
    }
}
