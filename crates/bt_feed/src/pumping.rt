//! Parsing of all that a source has, into a sink.
ghost use Rattle.std.specs.Prelude.{◌≡◌, ◌⊎◌, ◌+◌, ◌-◌, ◌^◌, ◌≤◌, ◌≢◌, ℕ, List, ◌<◌, min, length, false, Err, OnOk};
ghost use Rattle.std.specs.Prelude.{[], take, IfOk, OnErr, is_err};
ghost use Rattle.std.specs.Io.KnownBytes.{Consumes, Keeps};
ghost use Rattle.bt_wire.specs.declared.fault.Reason.TheVariants as reasons;
ghost use Rattle.bt_wire.specs.declared.item.Item.{Item};
ghost use Rattle.bt_io.specs.Counts.{Grew, one_more, counted, is_end};
ghost use Rattle.bt_io.specs.Seen.{EndRead, ReadFailed};
ghost use Rattle.bt_feed.specs.Pumps.{IsGiven, IsEnd, IsEndOf, IsPump, pump_state, IsOpenTo, IsPieceEnd, IsSinkFault, IsReadOn, IsReadBy, ConsumesAtMost, came};
ghost use Rattle.bt_feed.specs.Stages.{limit_of, is_closed};

use crate::feed::Feed;
use crate::sink::{Sink, SinkFault};
use crate::view::{Finish, refusal_in};
use bt_bencode::suffix;
use bt_io::{Failed, Source};
use bt_wire::Refusal;
use std::alloc::Allocator;
use thiserror::Error;

/// Why a pump stopped before the end of a legal stream.
#[derive(Clone, Copy, PartialEq, Eq, Debug, Error)]
pub enum PumpError {
    /// A read failed.
    #[error("read")]
    ReadFault,
    /// The given number of reads was made, and the stream hasn't ended.
    #[error("turns")]
    Turns,
    /// The stream is refused.
    #[error("message {} at {}: {}", .0.message, .0.at, .0.reason)]
    Refused(Refusal),
    /// The sink didn't take an item.
    #[error("{0}")]
    Sink(SinkFault),
}

/// Parses the next piece of a stream, and gives the sink each item that it completes, with its offset.
///
/// A whole message of the piece isn't copied, if nothing is buffered before it. It doesn't allocate, except what the sink does.
///
/// # Errors
/// `Refused` if the stream is refused. `Sink` if the sink didn't take an item. After both the rest of the piece is lost.
pub fn pump_piece<S: Sink, A: Allocator>(
    feed: &mut Feed<A>,
    sink: &mut S,
    piece: &[u8],
) -> Result<(), PumpError>
    ensures items { (xs : List (ℕ × Item)) × IsGiven S.takes S.misses sink.old xs sink.new result × IsPieceEnd feed.old piece.now xs feed.new result }
    ensures sink { IsSinkFault result → Grew (S.failed sink.old) (S.failed sink.new) }
    ensures quiet { (IsSinkFault result → ⊥) → S.failed sink.new ≡ S.failed sink.old }
    ensures emptied { IsSinkFault result → feed.new.held ≡ [] }
    ensures limit { limit_of feed.new.stage ≤ 1048576 }
{
    let mut at = 0;
    'items: loop {
        let (passed, taken) = feed.pass(sink, suffix(piece, at));
        at += passed;
        if let Err(fault) = taken {
            return Err(PumpError::Sink(fault));
        }
        at += feed.push(suffix(piece, at));
        let start = feed.start();
        match feed.take() {
            Ok(Some(view)) => match sink.item(start, &view) {
                Ok(()) => {}
                Err(fault) => return Err(PumpError::Sink(fault)),
            },
            Ok(None) => return Ok(()),
            Err(error) => return Err(PumpError::Refused(refusal_in(error))),
        }
    }
}

/// Returns the length of the stream if it may end here; no whole item is buffered.
fn end<A: Allocator>(feed: &Feed<A>) -> Result<u64, PumpError>
    requires { is_closed feed.now.stage feed.now.held ≡ false }
    ensures end { IsEndOf feed.now result }
{
    let _ = feed.start();
    match feed.finish() {
        Ok(bytes) => Ok(bytes),
        Err(Finish::Refused(refusal)) => Err(PumpError::Refused(refusal)),
        Err(Finish::Untaken) => unreachable!(),
    }
}

/// How many bytes are read at most after a read directly into the feed.
///
/// Another long message may begin there.
const PEEK: usize = 4_096;

/// Reads once: into the feed if it has part of a long message, else into `buffer`.
///
/// It returns how many bytes came, and how many of them are in the buffer. After a read directly into the feed at most [`PEEK`]
/// bytes are read into the buffer, so that no more of a long message is copied from there.
#[inline(always)]
fn read_once<R: Source, A: Allocator>(
    reader: &mut R,
    feed: &mut Feed<A>,
    buffer: &mut [u8],
) -> Result<(usize, usize), Failed>
    requires { 0 < length buffer.old }
    ensures some { IfOk result (λ x. (x.1 ≤ length buffer.new) × (length buffer.new ≡ length buffer.old)
        × IsReadOn feed.old feed.new (R.seen reader.old) (R.seen reader.new) (take x.1 buffer.new)) }
    ensures few { IfOk result (λ x. x.0 ≤ length buffer.old) }
    ensures consumed { ConsumesAtMost (length buffer.old) (R.seen reader.old).left (R.seen reader.new).left }
    ensures none { IfOk result (λ x. x.0 ≡ 0 → (feed.new ≡ feed.old) × Consumes (R.seen reader.old).left (R.seen reader.new).left []) }
    ensures err { OnErr result ((feed.new ≡ feed.old) × Keeps (R.seen reader.old).left (R.seen reader.new).left) }
    ensures reads { (R.seen reader.new).reads ≡ one_more (R.seen reader.old).reads }
    ensures failed { (R.seen reader.new).failed ≡ counted (is_err result) (R.seen reader.old).failed }
    ensures ends { (R.seen reader.new).ends ≡ counted (is_end (came result) 1) (R.seen reader.old).ends }
{
    let is_peek = feed.is_direct();
    match feed.read(reader, buffer.len()) {
        Some(Ok(count)) => Ok((count, 0)),
        Some(Err(failed)) => Err(failed),
        None => {
            let most = if is_peek {
                PEEK.min(buffer.len())
            } else {
                buffer.len()
            };
            let count = reader.read(&mut buffer[..most])?;
            Ok((count, count))
        }
    }
}

/// Parses a source to its end, gives the sink each item, and returns the length.
///
/// The length is that of the stream, in bytes. Each item comes with its offset. `buffer` isn't empty. A read takes at most as many
/// bytes as the buffer has, into the buffer, or directly into the feed if many bytes of a message are missing; the read after
/// such a one takes 4,096 bytes at most. It doesn't allocate, except what the sink does.
///
/// # Errors
/// Each stops it at once; no read follows.
///
/// `Refused` if the stream is refused, or ends inside an item. `Sink` if the sink didn't take an item. After these two, the rest of
/// the chunk in the buffer is lost. `ReadFault` if a read failed. `Turns` after `max_turns` reads. After these two nothing is
/// lost, and another call goes on.
pub fn pump_with<R: Source, S: Sink, A: Allocator>(
    reader: &mut R,
    feed: &mut Feed<A>,
    sink: &mut S,
    max_turns: u64,
    buffer: &mut [u8],
) -> Result<u64, PumpError>
    requires { 0 < length buffer.old }
    ensures moved { IsPump S.takes S.misses (length buffer.old) (pump_state (R.seen reader.old) feed.old sink.old) (pump_state (R.seen reader.new) feed.new sink.new) result }
    ensures reads { (R.seen reader.new).reads ≤ (R.seen reader.old).reads + max_turns }
    ensures turns { result ≡ Err PumpError.Turns → min ((R.seen reader.old).reads + max_turns) (2 ^ 64 - 1) ≤ (R.seen reader.new).reads }
    ensures end { IsEnd result → EndRead (R.seen reader.old) (R.seen reader.new) }
    ensures inside { (IsEnd result → ⊥) → (R.seen reader.new).ends ≡ (R.seen reader.old).ends }
    ensures read { result ≡ Err PumpError.ReadFault → ReadFailed (R.seen reader.old) (R.seen reader.new) }
    ensures calm { result ≢ Err PumpError.ReadFault → (R.seen reader.new).failed ≡ (R.seen reader.old).failed }
    ensures sink { IsSinkFault result → Grew (S.failed sink.old) (S.failed sink.new) }
    ensures quiet { (IsSinkFault result → ⊥) → S.failed sink.new ≡ S.failed sink.old }
    ensures emptied { IsSinkFault result → feed.new.held ≡ [] }
    ensures share { IsReadBy (length buffer.old) (R.seen reader.old) (R.seen reader.new) }
    ensures needed { ((R.seen reader.new).reads ≡ (R.seen reader.old).reads)
        ⊎ ((before : R) × IsOpenTo feed.old (R.seen reader.old) (R.seen before) × ((R.seen reader.new).reads ≤ (R.seen before).reads + 1)) }
{
    if let Err(error) = pump_piece(feed, sink, &[]) {
        return Err(error);
    }
    for _turn in 0..max_turns {
        match read_once(reader, feed, buffer) {
            Ok((0, _)) => return end(feed),
            Ok((_, count)) => {
                if let Err(error) = pump_piece(feed, sink, &buffer[..count]) {
                    return Err(error);
                }
            }
            Err(_) => return Err(PumpError::ReadFault),
        }
    }
    Err(PumpError::Turns)
}

/// Parses a source to its end, with reads of at most 4,096 bytes.
///
/// It gives the sink each item with its offset, and returns the length of the stream in bytes. It doesn't allocate, except what
/// the sink does.
///
/// # Errors
/// Each stops it at once; no read follows.
///
/// `Refused` if the stream is refused, or ends inside an item. `Sink` if the sink didn't take an item. After these two, the rest of
/// the chunk that was read is lost. `ReadFault` if a read failed. `Turns` after `max_turns` reads. After these two nothing is
/// lost, and another call goes on.
pub fn pump<R: Source, S: Sink, A: Allocator>(
    reader: &mut R,
    feed: &mut Feed<A>,
    sink: &mut S,
    max_turns: u64,
) -> Result<u64, PumpError>
    ensures moved { IsPump S.takes S.misses 4096 (pump_state (R.seen reader.old) feed.old sink.old) (pump_state (R.seen reader.new) feed.new sink.new) result }
    ensures reads { (R.seen reader.new).reads ≤ (R.seen reader.old).reads + max_turns }
    ensures turns { result ≡ Err PumpError.Turns → min ((R.seen reader.old).reads + max_turns) (2 ^ 64 - 1) ≤ (R.seen reader.new).reads }
    ensures end { IsEnd result → EndRead (R.seen reader.old) (R.seen reader.new) }
    ensures inside { (IsEnd result → ⊥) → (R.seen reader.new).ends ≡ (R.seen reader.old).ends }
    ensures read { result ≡ Err PumpError.ReadFault → ReadFailed (R.seen reader.old) (R.seen reader.new) }
    ensures calm { result ≢ Err PumpError.ReadFault → (R.seen reader.new).failed ≡ (R.seen reader.old).failed }
    ensures sink { IsSinkFault result → Grew (S.failed sink.old) (S.failed sink.new) }
    ensures quiet { (IsSinkFault result → ⊥) → S.failed sink.new ≡ S.failed sink.old }
    ensures emptied { IsSinkFault result → feed.new.held ≡ [] }
    ensures share { IsReadBy 4096 (R.seen reader.old) (R.seen reader.new) }
    ensures needed { ((R.seen reader.new).reads ≡ (R.seen reader.old).reads)
        ⊎ ((before : R) × IsOpenTo feed.old (R.seen reader.old) (R.seen before) × ((R.seen reader.new).reads ≤ (R.seen before).reads + 1)) }
{
    let mut buffer = [0; 4096];
    pump_with(reader, feed, sink, max_turns, &mut buffer)
}
