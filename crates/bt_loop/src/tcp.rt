//! A TCP connection of the process to itself.
ghost use Rattle.std.specs.Prelude.{◌≡◌, ◌≤◌, true, length, IfOk};
ghost use Rattle.std.specs.Io.KnownBytes.{ReadConsumes, WriteAppends};

use crate::wire::{Wire, WireFault, failed_after};
use bt_session::Side;
use std::io;
use std::io::{ErrorKind, Read, Write};
use std::net::{Ipv4Addr, Net, OpenListener, OpenStream, SocketAddr, TcpListener, TcpStream};

/// The two ends of a connection. A call blocks.
#[derive(Drop)]
pub struct TcpWire<S: Read + Write + Drop> {
    left: S,
    right: S,
    calls: u64,
    failed: u64,
}

/// Returns whether the one who connected is the process itself.
fn is_own(peer: SocketAddr, own: SocketAddr) -> bool
    ensures own { result ≡ true → peer ≡ own }
    ensures all { peer ≡ own → result ≡ true }
{
    peer == own
}

/// Connects the process to itself on 127.0.0.1; another process is refused.
///
/// # Errors
/// The I/O error of the call that failed; `ConnectionRefused` if another process connected.
pub fn open_tcp<R: Net>(net: &R) -> io::Result<TcpWire<R::Stream>> {
    let listener = TcpListener::bind(net, SocketAddr::from((Ipv4Addr::LOCALHOST, 0u16)))?;
    let left = TcpStream::connect(net, listener.local_addr()?)?;
    let (right, peer) = listener.accept()?;
    if !is_own(peer, left.local_addr()?) {
        return Err(io::Error::from(ErrorKind::ConnectionRefused));
    }
    left.set_nodelay(true)?;
    right.set_nodelay(true)?;
    Ok(TcpWire {
        left,
        right,
        calls: 0,
        failed: 0,
    })
}

/// Writes once.
fn write<S: Write>(stream: &mut S, bytes: &[u8]) -> Result<usize, WireFault>
    ensures bound { IfOk result (λ n. n ≤ length bytes.now) }
    ensures once { WriteAppends (S.contents stream.old) (S.contents stream.new) result bytes.now }
{
    match stream.write(bytes) {
        Ok(count) => Ok(count),
        Err(_) => Err(WireFault),
    }
}

/// Reads once.
fn read<S: Read>(stream: &mut S, into: &mut [u8]) -> Result<usize, WireFault>
    ensures size { length into.new ≡ length into.old }
    ensures bound { IfOk result (λ n. n ≤ length into.new) }
    ensures once { ReadConsumes (S.remaining stream.old) (S.remaining stream.new) result into.new }
{
    match stream.read(into) {
        Ok(count) => Ok(count),
        Err(_) => Err(WireFault),
    }
}

impl<S: Read + Write + Drop> Wire for TcpWire<S> {
    ghost use Rattle.std.specs.Prelude.{None};

    ghost seen = { λ w. record { to_left = None; to_right = None; calls = w.calls; failed = w.failed } };

    fn send(&mut self, from: Side, bytes: &[u8]) -> Result<usize, WireFault> {
        self.calls = self.calls.saturating_add(1);
        let moved = match from {
            Side::Left => write(&mut self.left, bytes),
            Side::Right => write(&mut self.right, bytes),
        };
        self.failed = failed_after(moved, bytes.len(), self.failed);
        moved
    }

    fn receive(&mut self, at: Side, into: &mut [u8]) -> Result<usize, WireFault> {
        self.calls = self.calls.saturating_add(1);
        let moved = match at {
            Side::Left => read(&mut self.left, into),
            Side::Right => read(&mut self.right, into),
        };
        self.failed = failed_after(moved, into.len(), self.failed);
        moved
    }
}
