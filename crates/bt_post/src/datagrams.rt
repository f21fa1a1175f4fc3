//! A socket for datagrams, whose calls don't wait.
ghost use Rattle.std.specs.Prelude.{◌≤◌, IfSome, length};

use bt_exchange::Flag;
use mio::net::UdpSocket;
use std::net::{Net, SocketAddr};
use std::os::fd::{AsRawFd, RawFd};

/// How much of a datagram is read.
const MOST: usize = 4096;

/// A socket for the datagrams of a family of addresses.
#[derive(Drop)]
pub struct Datagrams {
    socket: UdpSocket,
    flag: Flag,
}

impl Datagrams {
    /// Returns a socket at a free port of this address, unless the system gives none.
    pub fn open<R: Net>(net: &R, at: SocketAddr) -> Option<Datagrams> {
        let socket = UdpSocket::bind(net, at).ok()?;
        Some(Datagrams {
            socket,
            flag: Flag::always(),
        })
    }

    /// Returns its descriptor.
    pub fn descriptor(&self) -> RawFd {
        self.socket.as_raw_fd()
    }

    /// Hears by which flag it is told that the socket may be ready.
    pub fn set_flag(&mut self, flag: Flag) {
        self.flag = flag;
    }

    /// Sends a datagram. If the system can't take it now it is lost.
    pub fn send(&self, to: SocketAddr, datagram: &[u8]) {
        let _ = self.socket.send_to(datagram, to);
    }

    /// Returns who sent the next datagram, and how many of its bytes stand at the buffer's front; `None` if none is there.
    pub fn receive(&self, buffer: &mut [u8]) -> Option<(SocketAddr, usize)>
        ensures { IfSome result (λ it. it.1 ≤ length buffer.old) }
    {
        if !self.flag.is_up() {
            return None;
        }
        let room = buffer.len().min(MOST);
        match self.socket.recv_from(&mut buffer[..room]) {
            Ok((count, from)) => Some((from, count)),
            Err(error) => {
                self.flag.failed(&error);
                None
            }
        }
    }
}
