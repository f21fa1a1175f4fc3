//! The receivers by which the streams are read.
ghost use Rattle.std.specs.Prelude.{◌≤◌};

use crate::messages::{METADATA_ID, PIECES};
use bt_ext::{ExtId, Registered, Rules};
use bt_wire::{Own, Reserved};

/// What a receiver knows and takes.
#[derive(Clone, Copy)]
pub enum Receiver {
    /// It doesn't know how many pieces there are.
    Plain,
    /// It knows how many pieces there are.
    Knowing,
    /// It doesn't know how many pieces there are, and takes the longest messages.
    Patient,
}

/// Returns a receiver with these rules.
pub fn receiver_of(rules: Rules, kind: Receiver) -> Own
    ensures { (1 ≤ result.limit) × (result.limit ≤ 1048576) }
{
    let (pieces, limit) = match kind {
        Receiver::Plain => (None, 262_144),
        Receiver::Knowing => (Some(PIECES), 262_144),
        Receiver::Patient => (None, 1_048_576),
    };
    Own {
        reserved: Reserved(0x10_0005),
        info_hash: None,
        pieces,
        reg: Registered::metadata_only(ExtId::new(METADATA_ID)),
        rules,
        limit,
    }
}
