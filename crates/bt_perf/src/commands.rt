//! What `show`, `show --json`, `check`, `unpack` and `pack` do, on streams in memory.
ghost use Rattle.std.specs.Prelude.{◌≤◌};

use crate::digest::Digest;
use crate::receivers::{Receiver, receiver_of};
use crate::stopped::Stopped;
use bt_ext::Rules;
use bt_feed::{MemSource, MemTarget};
use bt_jobs::{run_check, run_json, run_pack, run_show, run_unpack};
use bt_text::ended::{Ended, PackEnd, ToolFault};
use bt_wire::Own;
use std::alloc::{AllocError, Global};

/// What reads a stream.
#[derive(Clone, Copy)]
pub enum Command {
    Show,
    Json,
    Check,
    Unpack,
}

/// A command, the rules and the receiver by which it reads a stream, and whether it has to refuse it.
#[derive(Clone, Copy)]
pub struct Reading(pub Command, pub Rules, pub Receiver, pub bool);

/// A source of all these bytes.
fn source(alloc: Global, bytes: &[u8]) -> Result<MemSource, AllocError> {
    Ok(MemSource::new(bytes.to_vec(alloc)?, 1 << 30, None))
}

/// A target that takes all.
fn target(alloc: Global) -> MemTarget {
    MemTarget::new(Vec::new(alloc), 1 << 30, None)
}

/// Does a command.
fn run(
    alloc: Global,
    command: Command,
    source: &mut MemSource,
    target: &mut MemTarget,
    own: &Own,
) -> Result<Ended, ToolFault>
    requires { (1 ≤ own.now.limit) × (own.now.limit ≤ 1048576) }
{
    match command {
        Command::Show => run_show(alloc, source, target, own),
        Command::Json => run_json(alloc, source, target, own),
        Command::Check => run_check(alloc, source, target, own),
        Command::Unpack => run_unpack(alloc, source, target, own),
    }
}

/// Returns the number of the last message that was read.
fn last_message(ended: Result<Ended, ToolFault>, is_refused: bool) -> Result<u64, Stopped> {
    match ended {
        Ok(Ended::Refused(refusal)) if is_refused => Ok(refusal.message),
        Ok(Ended::Refused(refusal)) => Err(Stopped::Refused(refusal)),
        Ok(Ended::Accepted { .. }) if is_refused => Err(Stopped::Accepted),
        Ok(Ended::Accepted { messages, bytes: _ }) => Ok(messages),
        Err(_) => Err(Stopped::Device),
    }
}

/// Reads a stream, counts its messages, and adds what was written; returns that.
fn read(
    alloc: Global,
    stream: &[u8],
    reading: Reading,
    digest: &mut Digest,
) -> Result<MemTarget, Stopped> {
    let Reading(command, rules, kind, is_refused) = reading;
    let mut source = source(alloc, stream)?;
    let mut target = target(alloc);
    let own = receiver_of(rules, kind);
    let ended = run(alloc, command, &mut source, &mut target, &own);
    digest.count(last_message(ended, is_refused)?);
    digest.add_bytes(target.bytes());
    Ok(target)
}

/// Reads a stream several times.
///
/// # Errors
/// `Stopped` if the stream is refused and has not to be, or the other way, or when out of memory.
pub fn read_all(
    alloc: Global,
    stream: &[u8],
    readings: &[Reading],
    digest: &mut Digest,
) -> Result<(), Stopped> {
    for reading in readings {
        let _written = read(alloc, stream, *reading, digest)?;
    }
    Ok(())
}

/// Packs a script.
fn pack(alloc: Global, script: &[u8], digest: &mut Digest) -> Result<(), Stopped> {
    let mut source = source(alloc, script)?;
    let mut target = target(alloc);
    let own = receiver_of(Rules::Bep, Receiver::Knowing);
    match run_pack(alloc, &mut source, &mut target, &own) {
        Ok(PackEnd::Accepted { messages, bytes: _ }) => {
            digest.count(messages);
            digest.add_bytes(target.bytes());
            Ok(())
        }
        Ok(PackEnd::Refused { .. }) => Err(Stopped::Script),
        Err(_) => Err(Stopped::Device),
    }
}

/// Unpacks a stream and packs its script.
///
/// # Errors
/// `Stopped` if the stream or the script is refused, or when out of memory.
pub fn there_and_back(alloc: Global, stream: &[u8], digest: &mut Digest) -> Result<(), Stopped> {
    let unpack = Reading(Command::Unpack, Rules::Bep, Receiver::Knowing, false);
    let script = read(alloc, stream, unpack, digest)?;
    pack(alloc, script.bytes(), digest)
}
