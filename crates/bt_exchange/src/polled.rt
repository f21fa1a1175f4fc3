//! A connection that makes no system call until its socket may be ready.
ghost use Rattle.std.specs.Prelude.{◌≡◌, ◌&&◌, not, is_some, if◌then◌else◌, Some, None, IfOk, true};
ghost use Rattle.std.specs.IoError.{error_kind};
ghost use Rattle.bt_exchange.specs.Streams.{would_wait as would_wait_by};

use crate::connection::Connection;
use crate::stream::Stream;
use bt_io::Failed;
use std::alloc::AllocError;
use std::cell::Cell;
use std::io;
use std::io::{ErrorKind, Read, Write};
use std::rc::Rc;
use std::time::Clock;

/// Whether a socket may be ready, as its connection and who waits for it share it.
///
/// Only a call that would have to wait lowers it, and only who waits for the socket raises it. One that nobody shares is always up.
#[derive(Drop)]
pub struct Flag {
    shared: Option<Rc<Cell<bool>>>,
    /// The number of the slot that shares it, if one does.
    slot: usize,
}

impl Flag {
    /// Returns a flag that is always up: each call is made.
    pub fn always() -> Flag {
        Flag {
            shared: None,
            slot: 0,
        }
    }

    /// Returns a flag that is up, and that is shared with the one of this slot.
    ///
    /// # Errors
    /// `AllocError` if it has too many owners.
    pub(crate) fn of(shared: &Rc<Cell<bool>>, slot: usize) -> Result<Flag, AllocError>
        ensures shared { IfOk result (λ flag. is_some flag.shared ≡ true) }
        ensures slot { IfOk result (λ flag. flag.slot ≡ slot) }
    {
        shared.set(true);
        Ok(Flag {
            shared: Some(shared.clone()?),
            slot,
        })
    }

    /// Returns the number of the slot that shares the flag, if one does.
    pub(crate) fn slot(&self) -> Option<usize>
        ensures { result ≡ (if is_some self.now.shared then Some self.now.slot else None) }
    {
        if self.shared.is_none() {
            return None;
        }
        Some(self.slot)
    }

    /// Returns whether the socket may be ready.
    pub fn is_up(&self) -> bool {
        match &self.shared {
            Some(flag) => flag.get(),
            None => true,
        }
    }

    /// Hears that a call failed, and lowers the flag if the call would have to wait.
    ///
    /// A call that a signal broke off, or that met a time limit, leaves it up: the socket may be ready, and nobody would raise it.
    pub fn failed(&self, error: &io::Error) {
        if let Some(flag) = &self.shared {
            flag.set(stays_up(flag.get(), error));
        }
    }
}

/// Returns whether a flag is up after a call that failed.
fn stays_up(is_up: bool, error: &io::Error) -> bool
    ensures { result ≡ (is_up && not (would_wait_by (error_kind error.now))) }
{
    is_up && !would_wait(error)
}

/// Returns whether the error says that the call would have to wait.
fn would_wait(error: &io::Error) -> bool
    ensures { result ≡ would_wait_by (error_kind error.now) }
{
    error.kind() == ErrorKind::WouldBlock
}

/// A stream of whose calls only those are made that may not have to wait.
#[derive(Drop)]
struct Flagged<S: Read + Write + Drop> {
    stream: S,
    flag: Flag,
}

impl<S: Read + Write + Drop> Read for Flagged<S> {
    ghost remaining = { λ s. S.Read.remaining s.stream };

    fn read(&mut self, into: &mut [u8]) -> io::Result<usize> {
        if !self.flag.is_up() {
            return Err(io::Error::from(ErrorKind::WouldBlock));
        }
        let answer = self.stream.read(into);
        if let Err(error) = &answer {
            self.flag.failed(error);
        }
        answer
    }
}

impl<S: Read + Write + Drop> Write for Flagged<S> {
    ghost contents = { λ s. S.Write.contents s.stream };

    fn write(&mut self, from: &[u8]) -> io::Result<usize> {
        if !self.flag.is_up() {
            return Err(io::Error::from(ErrorKind::WouldBlock));
        }
        let answer = self.stream.write(from);
        if let Err(error) = &answer {
            self.flag.failed(error);
        }
        answer
    }

    fn flush(&mut self) -> io::Result<()> {
        self.stream.flush()
    }
}

/// A connection over a stream whose calls don't wait, and that are made only while its flag is up.
///
/// A call of it is one call of the stream at most. It counts as a call in either case.
#[derive(Drop)]
pub struct Polled<S: Read + Write + Drop, K: Clock + Drop> {
    line: Stream<Flagged<S>, K>,
}

impl<S: Read + Write + Drop, K: Clock + Drop> Polled<S, K> {
    /// Makes a connection of the stream, with no call made.
    pub fn new(stream: S, clock: K, flag: Flag) -> Polled<S, K>
        ensures { (⟦<Polled<S, K> as Connection>⟧.seen result).counts.calls ≡ 0 }
    {
        Polled {
            line: Stream::new(Flagged { stream, flag }, clock),
        }
    }

    /// Returns its flag.
    pub fn flag(&self) -> &Flag {
        &self.line.stream().flag
    }
}

impl<S: Read + Write + Drop, K: Clock + Drop> Connection for Polled<S, K> {
    ghost seen = { λ s. ⟦<Stream<Flagged<S>, K> as Connection>⟧.seen s.line };

    ghost prompt = { ⟦<Stream<Flagged<S>, K> as Connection>⟧.prompt };

    fn read(&mut self, into: &mut [u8]) -> Result<Option<usize>, Failed> {
        self.line.read(into)
    }

    fn write(&mut self, from: &[u8]) -> Result<Option<usize>, Failed> {
        self.line.write(from)
    }

    fn now(&mut self) -> u64 {
        self.line.now()
    }

    fn may_go_on(&self) -> bool {
        self.flag().is_up()
    }
}
