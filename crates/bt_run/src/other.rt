//! The receiver, completed by what its own stream announces: `--other`.
ghost use Rattle.std.specs.Prelude.{◌≡◌, IfOk, if◌then◌else◌};
ghost use Rattle.bt_ext.specs.Ids.{metadata_id, donthave_id};
ghost use Rattle.bt_run.specs.Commands.{HasLimit};
ghost use Rattle.bt_run.specs.Others.{IsInformed, informed as informed_by_rule};

use crate::commands::Given;
use bt_ext::{ExtId, Registered};
use bt_feed::Source;
use bt_jobs::{Announced, OtherError, read_other};
use bt_wire::Own;
use std::alloc::Global;

/// Returns the id of `ut_metadata`: the option's, else the announced one.
fn metadata_by(own: &Own, given: Given, said: &Announced) -> Option<ExtId>
    ensures { result ≡ (if given.metadata_id then metadata_id own.now.reg else said.now.metadata) }
{
    if given.metadata_id {
        own.reg.metadata()
    } else {
        said.metadata
    }
}

/// Returns the id of `lt_donthave`: the option's, else the announced one.
fn donthave_by(own: &Own, given: Given, said: &Announced) -> Option<ExtId>
    ensures { result ≡ (if given.donthave_id then donthave_id own.now.reg else said.now.donthave) }
{
    if given.donthave_id {
        own.reg.donthave()
    } else {
        said.donthave
    }
}

/// Returns the receiver, with what its own stream announces.
///
/// That takes the place of the defaults. What an option gives stays.
fn informed(own: &Own, given: Given, said: &Announced) -> Own
    ensures { result ≡ informed_by_rule own.now given said.now }
{
    Own {
        reserved: if given.reserved {
            own.reserved
        } else {
            said.reserved
        },
        reg: Registered::preferring_metadata(
            metadata_by(own, given, said),
            donthave_by(own, given, said),
        ),
        ..*own
    }
}

/// Returns the receiver with what its own stream, that of `reader`, announces.
///
/// What an option gives stays.
///
/// # Errors
/// `NoHandshake` if the stream doesn't begin with a whole handshake. `Fault(Read)` if a read failed, `Fault(Memory)` when out of
/// memory, `Fault(Turns)` after 4,294,967,296 reads.
pub fn receiver_by<R: Source>(
    alloc: Global,
    own: &Own,
    given: Given,
    reader: &mut R,
) -> Result<Own, OtherError>
    requires { HasLimit own.now }
    ensures informed { IsInformed own.now given (R.seen reader.old) (R.seen reader.new) result }
    ensures limited { IfOk result HasLimit }
{
    match read_other(alloc, reader) {
        Ok(said) => Ok(informed(own, given, &said)),
        Err(error) => Err(error),
    }
}
