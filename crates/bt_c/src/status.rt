//! What the calls return.
ghost use Rattle.std.specs.Prelude.{◌≡◌, Err};
ghost use Rattle.bt_c.specs.Statuses.{status_of, made_status, begun_status, ShowsStop};

use crate::check::BtVerdict;
use crate::item::number_of;
use bt_end::{BeginError, EndError, TurnError};

/// Done.
pub const OK: u32 = 0;
/// What came is refused.
pub const REFUSED: u32 = 2;
/// Too much waits to be sent.
pub const BUSY: u32 = 5;

pub const MEMORY: u32 = 6;
/// There is no end.
pub const NO_END: u32 = 7;

pub const BAD_LIMIT: u32 = 8;

pub const BAD_CONFIG: u32 = 9;

pub const BAD_SIZE: u32 = 10;
/// Nothing is fetched, the metadata is there, or it can't have the size.
pub const NOT_BEGUN: u32 = 14;

/// Returns how handling ended, and stores a refusal.
pub fn stop(answer: Result<(), TurnError>, verdict: &mut BtVerdict) -> u32
    ensures status { result ≡ status_of answer }
    ensures verdict { ShowsStop answer verdict.old verdict.new }
{
    match answer {
        Ok(()) => OK,
        Err(error) => refuse(error, verdict),
    }
}

/// Returns why nothing was handled, and stores a refusal.
pub fn refuse(error: TurnError, verdict: &mut BtVerdict) -> u32
    ensures status { result ≡ status_of (Err error) }
    ensures verdict { ShowsStop (Err error) verdict.old verdict.new }
{
    match error {
        TurnError::Refused(refusal) => {
            *verdict = BtVerdict {
                message: refusal.message,
                at: refusal.at,
                reason: number_of(refusal.reason),
            };
            REFUSED
        }
        TurnError::Busy => BUSY,
        TurnError::Memory => MEMORY,
    }
}

/// Returns why no end was made.
pub fn made_status(error: EndError) -> u32
    ensures { result ≡ made_status error }
{
    match error {
        EndError::BadLimit => BAD_LIMIT,
        EndError::BadConfig => BAD_CONFIG,
        EndError::BadSize => BAD_SIZE,
        EndError::Memory => MEMORY,
    }
}

/// Returns whether a fetch began, or why it didn't.
pub fn begun_status(answer: Result<bool, BeginError>) -> u32
    ensures { result ≡ begun_status answer }
{
    match answer {
        Ok(true) => OK,
        Ok(false) => NOT_BEGUN,
        Err(BeginError::Busy) => BUSY,
        Err(BeginError::Memory) => MEMORY,
    }
}
