//! The errors of an end, as the one error of a program that talks to a peer.
ghost use Rattle.std.specs.Prelude.{◌≡◌};
ghost use Rattle.bt_end.specs.Errors.{of_turn, of_say, of_end};

use crate::config::EndError;
use crate::end::{SayError, TurnError};
use bt_feed::PeerError;

impl From<TurnError> for PeerError {
    ghost from_gives = { λ a e. e ≡ of_turn a };

    fn from(error: TurnError) -> PeerError {
        match error {
            TurnError::Refused(refusal) => PeerError::Refused(refusal),
            TurnError::Busy => PeerError::Busy,
            TurnError::Memory => PeerError::Memory,
        }
    }
}

impl From<SayError> for PeerError {
    ghost from_gives = { λ a e. e ≡ of_say a };

    fn from(error: SayError) -> PeerError {
        match error {
            SayError::NotOpen => PeerError::NotOpen,
            SayError::Busy => PeerError::Busy,
            SayError::Extended | SayError::PiecesUnknown => PeerError::NotSaid,
            SayError::Illegal(fault) => PeerError::Illegal(fault),
            SayError::Memory => PeerError::Memory,
        }
    }
}

impl From<EndError> for PeerError {
    ghost from_gives = { λ a e. e ≡ of_end a };

    fn from(error: EndError) -> PeerError {
        match error {
            EndError::BadLimit => PeerError::BadLimit,
            EndError::BadConfig | EndError::BadSize => PeerError::BadConfig,
            EndError::Memory => PeerError::Memory,
        }
    }
}
