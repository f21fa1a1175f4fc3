//! A connection over a stream of std, as a TCP stream whose reads and writes have a time limit.
ghost use Rattle.std.specs.Prelude.{◌≡◌, length};
ghost use Rattle.std.specs.IoError.{error_kind};
ghost use Rattle.bt_exchange.specs.Streams.{IsMovedBy, IsReadOnce, IsWrittenOnce, is_wait as is_wait_by, seconds_of};

use crate::connection::{Connection, counted};
use bt_io::Failed;
use std::io;
use std::io::{ErrorKind, Read, Write};
use std::time::{Clock, Duration};

/// A connection over a stream. A call that meets the stream's time limit finds that nothing can be moved yet.
#[derive(Drop)]
pub struct Stream<S: Read + Write + Drop, K: Clock + Drop> {
    stream: S,
    clock: K,
    calls: u64,
    ends: u64,
    failed: u64,
    time: u64,
}

/// Whether the error says that nothing can be moved yet.
fn is_wait(error: &io::Error) -> bool
    ensures { result ≡ is_wait_by (error_kind error.now) }
{
    matches!(
        error.kind(),
        ErrorKind::WouldBlock | ErrorKind::TimedOut | ErrorKind::Interrupted
    )
}

/// What a call of the stream makes a call of the connection.
fn moved_by(answer: io::Result<usize>) -> Result<Option<usize>, Failed>
    ensures { IsMovedBy answer result }
{
    match answer {
        Ok(count) => Ok(Some(count)),
        Err(error) if is_wait(&error) => Ok(None),
        Err(_) => Err(Failed),
    }
}

/// Reads once.
fn read_once<S: Read>(stream: &mut S, into: &mut [u8]) -> Result<Option<usize>, Failed>
    ensures size { length into.new ≡ length into.old }
    ensures once { IsReadOnce (S.remaining stream.old) (S.remaining stream.new) result into.new }
{
    moved_by(stream.read(into))
}

/// Writes once.
fn write_once<S: Write>(stream: &mut S, from: &[u8]) -> Result<Option<usize>, Failed>
    ensures once { IsWrittenOnce (S.contents stream.old) (S.contents stream.new) result from.now }
{
    moved_by(stream.write(from))
}

/// Returns the seconds of a clock's answer, or `last` after an error.
fn seconds(time: io::Result<Duration>, last: u64) -> u64
    ensures { result ≡ seconds_of time last }
{
    match time {
        Ok(time) => time.as_secs(),
        Err(_) => last,
    }
}

impl<S: Read + Write + Drop, K: Clock + Drop> Stream<S, K> {
    /// Makes a connection of the stream, with no call made.
    pub fn new(stream: S, clock: K) -> Stream<S, K>
        ensures { (⟦<Stream<S, K> as Connection>⟧.seen result).counts.calls ≡ 0 }
    {
        Stream {
            stream,
            clock,
            calls: 0,
            ends: 0,
            failed: 0,
            time: 0,
        }
    }

    /// Returns the stream.
    pub(crate) fn stream(&self) -> &S {
        &self.stream
    }
}

impl<S: Read + Write + Drop, K: Clock + Drop> Connection for Stream<S, K> {
    ghost use Rattle.std.specs.Prelude.{None, false};

    ghost seen = { λ s. record {
      coming = None;
      gone = None;
      counts = record { calls = s.calls; ends = s.ends; failed = s.failed; clock = s.time };
    } };

    ghost prompt = { false };

    fn read(&mut self, into: &mut [u8]) -> Result<Option<usize>, Failed> {
        self.calls = self.calls.saturating_add(1);
        let moved = read_once(&mut self.stream, into);
        self.ends = counted(moved == Ok(Some(0)) && !into.is_empty(), self.ends);
        self.failed = counted(moved.is_err(), self.failed);
        moved
    }

    fn write(&mut self, from: &[u8]) -> Result<Option<usize>, Failed> {
        self.calls = self.calls.saturating_add(1);
        let moved = write_once(&mut self.stream, from);
        let is_stuck = moved == Ok(Some(0)) && !from.is_empty();
        self.failed = counted(is_stuck || moved.is_err(), self.failed);
        moved
    }

    fn now(&mut self) -> u64 {
        self.time = seconds(self.clock.monotonic(), self.time);
        self.time
    }
}
