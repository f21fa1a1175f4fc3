//! A TCP connection that tells whether it is open.
ghost use Rattle.std.specs.Prelude.{◌≡◌, ◌≢◌, true, false, None, Some, Ok, IfOk};

use bt_exchange::{Connection, Flag, Polled};
use bt_io::Failed;
use mio::net::TcpStream;
use std::alloc::{AllocError, Global};
use std::io;
use std::io::{ErrorKind, Read, Write};
use std::rc::Rc;
use std::time::Clock;

/// A stream that its connection shares.
#[derive(Drop)]
pub struct Shared {
    stream: Rc<TcpStream>,
}

impl Read for Shared {
    fn read(&mut self, into: &mut [u8]) -> io::Result<usize> {
        let mut stream = &*self.stream;
        stream.read(into)
    }
}

impl Write for Shared {
    fn write(&mut self, from: &[u8]) -> io::Result<usize> {
        let mut stream = &*self.stream;
        stream.write(from)
    }

    fn flush(&mut self) -> io::Result<()> {
        Ok(())
    }
}

/// A connection over TCP whose calls don't wait.
#[derive(Drop)]
pub struct TcpLink<K: Clock + Drop> {
    line: Polled<Shared, K>,
    stream: Rc<TcpStream>,
}

/// Returns whether a stream without a peer failed, by its error; `None` if it has none yet.
fn unopened(error: io::Result<Option<io::Error>>) -> Option<bool>
    ensures waits { result ≡ None → error ≡ Ok None }
    ensures failed { error ≢ Ok None → result ≡ Some false }
    ensures opens { result ≢ Some true }
{
    match error {
        Ok(None) => None,
        _ => Some(false),
    }
}

impl<K: Clock + Drop> TcpLink<K> {
    /// Makes a connection of the stream, with no call made.
    ///
    /// # Errors
    /// `AllocError` if memory is refused.
    pub fn new(
        alloc: Global,
        stream: TcpStream,
        clock: K,
        flag: Flag,
    ) -> Result<TcpLink<K>, AllocError>
        ensures { IfOk result (λ link. (⟦<TcpLink<K> as Connection>⟧.seen link).counts.calls ≡ 0) }
    {
        let stream = Rc::new(alloc, stream)?;
        let shared = Shared {
            stream: stream.clone()?,
        };
        Ok(TcpLink {
            line: Polled::new(shared, clock, flag),
            stream,
        })
    }

    /// Returns whether the connection is open; `None` if that isn't known yet.
    ///
    /// A failure is told once. While the socket can't be ready nothing is known, and the system isn't asked.
    pub fn is_open(&self) -> Option<bool> {
        if !self.line.may_go_on() {
            return None;
        }
        let stream = &*self.stream;
        if stream.peer_addr().is_ok() {
            return Some(true);
        }
        let is_open = unopened(stream.take_error());
        if is_open.is_none() {
            self.line
                .flag()
                .failed(&io::Error::from(ErrorKind::WouldBlock));
        }
        is_open
    }
}

impl<K: Clock + Drop> Connection for TcpLink<K> {
    ghost seen = { λ s. ⟦<Polled<Shared, K> as Connection>⟧.seen s.line };

    ghost prompt = { ⟦<Polled<Shared, K> as Connection>⟧.prompt };

    fn read(&mut self, into: &mut [u8]) -> Result<Option<usize>, Failed> {
        self.line.read(into)
    }

    fn write(&mut self, from: &[u8]) -> Result<Option<usize>, Failed> {
        self.line.write(from)
    }

    fn now(&mut self) -> u64 {
        self.line.now()
    }

    fn may_go_on(&self) -> bool {
        self.line.may_go_on()
    }
}
