//! One error for all calls of a program that talks to a peer, so that it needs none of its own.
ghost use Rattle.std.specs.Prelude.{◌≡◌};
ghost use Rattle.bt_feed.specs.Errors.{of_feed, of_item, of_take, of_finish, of_sink, of_pump, of_encode, of_kind};
ghost use Rattle.std.specs.IoError.{error_kind};
ghost use Rattle.bt_feed.specs.declared.peer_error.PeerError.TheVariants as peer;

use crate::feed::FeedError;
use crate::items::ItemError;
use crate::pumping::PumpError;
use crate::sink::SinkFault;
use crate::view::{Finish, TakeError};
use bt_io::{Failed, Memory, WriteFault};
use bt_wire::{EncodeError, Fault, Refusal};
use std::alloc::{AllocError, AllocFailed};
use std::io;
use thiserror::Error;

/// Why a conversation with a peer ends.
///
/// `?` makes it of the error of each call of this crate and of `bt_end`, of the error of `encode`, and of an I/O error.
#[derive(Clone, Copy, PartialEq, Eq, Debug, Error)]
pub enum PeerError {
    #[error("out of memory")]
    Memory,
    /// The peer broke the rules: the number of the message, the offset in the peer's stream, and the reason.
    #[error("message {} is refused at {}: {}", .0.message, .0.at, .0.reason)]
    Refused(Refusal),
    /// Your message isn't legal for the peer.
    #[error("a message can't be sent: {0}")]
    Illegal(Fault),
    /// The limit isn't 1 to 1,048,576, or for an end 32,768 to 1,048,576.
    #[error("the limit isn't 1 to 1,048,576, or for an end 32,768 to 1,048,576")]
    BadLimit,
    /// The stream starts after offset 2^62.
    #[error("the stream starts after offset 2^62")]
    BadBase,
    #[error("a read failed")]
    Read,
    #[error("a write failed")]
    Write,
    /// An I/O error that doesn't say whether it came from a read or a write.
    #[error("a device failed")]
    Device,
    /// The given number of reads was made, and the stream hasn't ended.
    #[error("too many reads")]
    Turns,
    /// At the end of the stream a whole item was buffered that wasn't taken.
    #[error("an item is held that wasn't taken")]
    Untaken,
    /// Too much waits to be sent: write some of it, and call again.
    #[error("too much waits to be sent")]
    Busy,
    /// The connection of an end isn't open.
    ///
    /// The peer's handshake hasn't come, or the peer was refused.
    #[error("the connection isn't open")]
    NotOpen,
    /// An end doesn't send this message.
    ///
    /// It is extended, or it has a piece index or is a bitfield and the piece count isn't known.
    #[error("an end doesn't say this message")]
    NotSaid,
    /// No end can be made of this config.
    #[error("an end can't be made of this config")]
    BadConfig,
}

impl From<AllocError> for PeerError {
    ghost from_gives = { λ _ e. e ≡ peer.Memory };

    fn from(_: AllocError) -> PeerError {
        PeerError::Memory
    }
}

impl From<Memory> for PeerError {
    ghost from_gives = { λ _ e. e ≡ peer.Memory };

    fn from(_: Memory) -> PeerError {
        PeerError::Memory
    }
}

impl From<WriteFault> for PeerError {
    ghost from_gives = { λ _ e. e ≡ peer.Write };

    fn from(_: WriteFault) -> PeerError {
        PeerError::Write
    }
}

impl From<FeedError> for PeerError {
    ghost from_gives = { λ a e. e ≡ of_feed a };

    fn from(error: FeedError) -> PeerError {
        match error {
            FeedError::BadLimit => PeerError::BadLimit,
            FeedError::BadBase => PeerError::BadBase,
            FeedError::Memory => PeerError::Memory,
        }
    }
}

impl From<ItemError> for PeerError {
    ghost from_gives = { λ a e. e ≡ of_item a };

    fn from(error: ItemError) -> PeerError {
        match error {
            ItemError::Refused(refusal) => PeerError::Refused(refusal),
            ItemError::Memory => PeerError::Memory,
        }
    }
}

impl From<TakeError> for PeerError {
    ghost from_gives = { λ a e. e ≡ of_take a };

    fn from(error: TakeError) -> PeerError {
        match error {
            TakeError::Refused(refusal) => PeerError::Refused(refusal),
        }
    }
}

impl From<Finish> for PeerError {
    ghost from_gives = { λ a e. e ≡ of_finish a };

    fn from(error: Finish) -> PeerError {
        match error {
            Finish::Refused(refusal) => PeerError::Refused(refusal),
            Finish::Untaken => PeerError::Untaken,
        }
    }
}

impl From<SinkFault> for PeerError {
    ghost from_gives = { λ a e. e ≡ of_sink a };

    fn from(error: SinkFault) -> PeerError {
        match error {
            SinkFault::Write => PeerError::Write,
            SinkFault::Memory => PeerError::Memory,
        }
    }
}

impl From<PumpError> for PeerError {
    ghost from_gives = { λ a e. e ≡ of_pump a };

    fn from(error: PumpError) -> PeerError {
        match error {
            PumpError::ReadFault => PeerError::Read,
            PumpError::Turns => PeerError::Turns,
            PumpError::Refused(refusal) => PeerError::Refused(refusal),
            PumpError::Sink(fault) => fault.into(),
        }
    }
}

impl From<EncodeError> for PeerError {
    ghost from_gives = { λ a e. e ≡ of_encode a };

    fn from(error: EncodeError) -> PeerError {
        match error {
            EncodeError::Illegal(fault) => PeerError::Illegal(fault),
            EncodeError::Memory => PeerError::Memory,
        }
    }
}

impl From<Failed> for PeerError {
    ghost from_gives = { λ _ e. e ≡ peer.Device };

    fn from(_: Failed) -> PeerError {
        PeerError::Device
    }
}

impl From<io::Error> for PeerError {
    ghost from_gives = { λ a e. e ≡ of_kind (error_kind a) };

    fn from(error: io::Error) -> PeerError {
        match error.kind() {
            io::ErrorKind::OutOfMemory => PeerError::Memory,
            _ => PeerError::Device,
        }
    }
}

impl<T: Drop> From<AllocFailed<T>> for PeerError {
    ghost from_gives = { λ _ e. e ≡ peer.Memory };

    fn from(_: AllocFailed<T>) -> PeerError {
        PeerError::Memory
    }
}
