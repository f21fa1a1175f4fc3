//! What one direction of a connection announces about its sender, which is the receiver of the other one (`--other`).
ghost use Rattle.std.specs.Prelude.{◌≡◌, ◌+◌, ◌-◌, ◌≤◌, ◌^◌, ◌<◌, ℕ, min, List, length, false, Ok, OnOk, IfErr, ok_or, option_and_then};
ghost use Rattle.bt_io.specs.Seen.{ReadFailed};
ghost use Rattle.bt_jobs.specs.Printed.{so_far};
ghost use Rattle.bt_wire.specs.declared.item.Item.{Item};
ghost use Rattle.bt_ext.specs.Ids.{extension_id};
ghost use Rattle.bt_jobs.specs.Others.{IsFaultOfOther, IsUnknown, IsHeard, IsLearnt, IsListening, IsOpenAfter, IsTurnHeard, announced, reader_of_other as reader_by_rule};

use crate::show::MAX_READS;
use bt_ext::{ExtId, ExtView, Registered, Rules, announced_id};
use bt_feed::{Feed, PumpError, Sink, SinkFault, Source, View, pump_with};
use bt_text::ended::ToolFault;
use bt_wire::{MessageView, Own, Reserved, laws};
use std::alloc::Global;
use thiserror::Error;

/// What a sender's stream announces about it as a receiver.
#[derive(Clone, Copy, PartialEq, Eq, Debug)]
pub struct Announced {
    /// The reserved bits of its handshake.
    pub reserved: Reserved,
    /// The id under which it wants `ut_metadata` (BEP 10).
    ///
    /// It is that of the first extended handshake that has one.
    pub metadata: Option<ExtId>,
    /// The id under which it wants `lt_donthave`.
    ///
    /// It is that of the first extended handshake that has one.
    pub donthave: Option<ExtId>,
}

/// Why a stream doesn't say how its sender receives.
#[derive(Clone, Copy, PartialEq, Eq, Debug, Error)]
pub enum OtherError {
    /// The stream doesn't begin with a whole handshake.
    #[error("no handshake")]
    NoHandshake,
    /// The stream can't be read.
    #[error("{0}")]
    Fault(ToolFault),
}

/// A sink that keeps what the items so far say of their sender.
#[derive(Drop)]
struct Listener {
    reserved: Option<Reserved>,
    metadata: Option<u8>,
    donthave: Option<u8>,
    items: u64,
}

/// Returns the id of an extension by its number, of which 0 is none.
fn extension(id: Option<u8>) -> Option<ExtId>
    ensures { result ≡ option_and_then extension_id id }
{
    match id {
        Some(id) => ExtId::new(id),
        None => None,
    }
}

impl Listener {
    ghost use Rattle.std.specs.Prelude.{[], IsSome, true, false};

    /// A listener that has heard nothing.
    fn new() -> Listener
        ensures { IsHeard [] result }
    {
        Listener {
            reserved: None,
            metadata: None,
            donthave: None,
            items: 0,
        }
    }

    /// Returns whether nothing more has to be heard.
    fn knows_all(&self) -> bool
        ensures yes { result ≡ true → IsSome self.now.reserved × IsSome self.now.metadata × IsSome self.now.donthave }
        ensures no { result ≡ false → IsUnknown self.now.reserved self.now.metadata self.now.donthave }
    {
        self.reserved.is_some() && self.metadata.is_some() && self.donthave.is_some()
    }

    /// Returns what was heard.
    ///
    /// # Errors
    /// `NoHandshake` if there was none.
    fn answer(&self) -> Result<Announced, OtherError>
        ensures { result ≡ ok_or (announced self.now.reserved self.now.metadata self.now.donthave) OtherError.NoHandshake }
    {
        let Some(reserved) = self.reserved else {
            return Err(OtherError::NoHandshake);
        };
        let metadata = extension(self.metadata);
        let donthave = extension(self.donthave);
        Ok(Announced {
            reserved,
            metadata,
            donthave,
        })
    }
}

impl Sink for Listener {
    ghost use Rattle.bt_jobs.specs.Others.{Hears};

    ghost takes = { Hears };

    ghost misses = { λ _ _ _ _. ⊥ };

    ghost calls = { λ l. l.items };

    ghost failed = { λ _. 0 };

    fn item(&mut self, _at: u64, view: &View<'_>) -> Result<(), SinkFault> {
        self.items = self.items.saturating_add(1);
        match view {
            View::Handshake(handshake) => {
                if self.reserved.is_none() {
                    self.reserved = Some(handshake.reserved);
                }
            }
            View::Message(MessageView::Extended(ExtView::Handshake { dict, rest: _ })) => {
                if self.metadata.is_none() {
                    self.metadata = announced_id(dict, b"ut_metadata");
                }
                if self.donthave.is_none() {
                    self.donthave = announced_id(dict, b"lt_donthave");
                }
            }
            View::Message(_) => {}
        }
        Ok(())
    }
}

/// Returns the receiver by which the other direction is read.
fn reader_of_other() -> Own
    ensures { result ≡ reader_by_rule }
{
    Own {
        reserved: Reserved(0x10_0005),
        info_hash: None,
        pieces: None,
        reg: Registered::metadata_only(None),
        rules: Rules::Free,
        limit: 1_048_576,
    }
}

/// Reads once into the buffer, and handles the items that the read completes; returns whether that settles the answer.
fn turn<R: Source>(
    reader: &mut R,
    feed: &mut Feed,
    listener: &mut Listener,
    buffer: &mut [u8],
) -> Result<bool, ToolFault>
    requires { 0 < length buffer.old }
    ensures heard { (b : List ℕ) (xs : List (ℕ × Item)) → IsListening b xs feed.old listener.old
        → IsTurnHeard (so_far b xs) (R.seen reader.old) (R.seen reader.new) feed.new listener.new result }
    ensures reads { (R.seen reader.new).reads ≤ (R.seen reader.old).reads + 1 }
    ensures turns { result ≡ Ok false → (min ((R.seen reader.old).reads + 1) (2 ^ 64 - 1) ≤ (R.seen reader.new).reads) × ((R.seen reader.new).ends ≡ (R.seen reader.old).ends) }
    ensures fault { IfErr result (λ fault. (fault ≡ ToolFault.Read) × ReadFailed (R.seen reader.old) (R.seen reader.new)) }
    ensures calm { OnOk result ((R.seen reader.new).failed ≡ (R.seen reader.old).failed) }
{
    match pump_with(reader, feed, listener, 1, buffer) {
        Ok(_) => Ok(true),
        Err(PumpError::Refused(_)) => Ok(true),
        Err(PumpError::Turns) => Ok(listener.knows_all()),
        Err(PumpError::ReadFault) => Err(ToolFault::Read),
        Err(PumpError::Sink(_)) => unreachable!(),
    }
}

/// Returns what the stream that `reader` has announces about its sender.
///
/// It reads until all is known, to the end of the stream, or to a refusal.
///
/// # Errors
/// `NoHandshake` if the stream doesn't begin with a whole handshake. `Fault(Read)` if a read failed, `Fault(Memory)` when out of
/// memory, `Fault(Turns)` after 4,294,967,296 reads.
pub fn read_other<R: Source>(alloc: Global, reader: &mut R) -> Result<Announced, OtherError>
    ensures learnt { IsLearnt (R.seen reader.old) (R.seen reader.new) result }
    ensures faults { IsFaultOfOther result (R.seen reader.old) (R.seen reader.new) }
    ensures reads { (R.seen reader.new).reads ≤ (R.seen reader.old).reads + 2 ^ 32 }
    ensures needed { (before : R) × IsOpenAfter (R.seen reader.old).left (R.seen before).left × ((R.seen reader.new).reads ≤ (R.seen before).reads + 1) }
{
    laws::one_verdict();
    let Ok(mut feed) = Feed::new(alloc, reader_of_other()) else {
        return Err(OtherError::Fault(ToolFault::Memory));
    };
    let mut listener = Listener::new();
    let mut buffer = [0; 65536];
    for _turn in 0..MAX_READS {
        match turn(reader, &mut feed, &mut listener, &mut buffer) {
            Ok(false) => {}
            Ok(true) => return listener.answer(),
            Err(fault) => return Err(OtherError::Fault(fault)),
        }
    }
    Err(OtherError::Fault(ToolFault::Turns))
}
