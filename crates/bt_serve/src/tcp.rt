//! Connections over TCP that are let in by a listener.
ghost use Rattle.std.specs.Prelude.{◌≡◌};
ghost use Rattle.std.specs.IoError.{error_kind};
ghost use Rattle.bt_serve.specs.Arrivals.{is_lost as is_lost_by};
ghost use Rattle.bt_exchange.specs.Lists.{IsAdded};

use crate::door::{Door, Parting};
use bt_exchange::{Flag, Naps, Polled, Sleeper};
use std::alloc::Global;
use std::io;
use std::io::ErrorKind;
use std::net::{Net, OpenListener, OpenStream, SocketAddr};
use std::os::fd::AsRawFd;
use std::time::Clock;

/// How long a loop sleeps at most if no socket is ready, in milliseconds.
const LONGEST: u64 = 200;

/// How many connections that were lost before they were let in a round passes over, so that others need not wait for the next one.
const LOST: u32 = 128;

/// Takes note of how each connection over TCP ended.
pub trait Farewell {
    ghost use Rattle.std.specs.Prelude.{List, Option, None};
    ghost use Rattle.std.specs.declared.net.socket_addr.SocketAddr.{SocketAddr};
    ghost use Rattle.bt_serve.specs.declared.door.Parting.{Parting};

    /// The connections whose end was reported to it, in order, if they are known.
    ghost told: { Self → Option (List (SocketAddr × Parting)) } = { λ _. None };

    /// The connection with this other end ended.
    fn ended(&mut self, peer: SocketAddr, parting: Parting)
        ensures { IsAdded (told self.old) (told self.new) (peer, parting) };
}

/// Lets in connections over TCP.
#[derive(Drop)]
pub struct TcpDoor<'a, R: Net + Clock, F: Farewell + Drop> {
    runtime: &'a R,
    listener: R::Listener,
    farewell: F,
    inside: usize,
    places: usize,
    rounds: u64,
    /// What sleeps until a socket is ready; without it the loop naps.
    sleeper: Option<Sleeper>,
    /// Whether a connection may wait at the listener.
    arrivals: Flag,
    /// The naps. They begin short after an item and a busy round, since a peer that is near sends the next item soon.
    naps: Naps,
}

impl<'a, R: Net + Clock, F: Farewell + Drop> TcpDoor<'a, R, F> {
    /// Returns a door with `places` places at this listener, whose calls don't wait.
    pub fn new(
        runtime: &'a R,
        listener: R::Listener,
        farewell: F,
        places: usize,
    ) -> TcpDoor<'a, R, F>
        ensures inside { ⟦<TcpDoor<'a, R, F> as Door>⟧.inside result ≡ 0 }
        ensures places { ⟦<TcpDoor<'a, R, F> as Door>⟧.places result ≡ places }
        ensures told { ⟦<TcpDoor<'a, R, F> as Door>⟧.told result ≡ F.told farewell }
    {
        TcpDoor {
            runtime,
            listener,
            farewell,
            inside: 0,
            places,
            rounds: 0,
            sleeper: None,
            arrivals: Flag::always(),
            naps: Naps::new(),
        }
    }

    /// Returns a door whose loop sleeps until a socket is ready.
    ///
    /// If the system has no descriptor for that, or when out of memory, it naps as that of [`TcpDoor::new`].
    pub fn sleeping(
        runtime: &'a R,
        alloc: Global,
        listener: R::Listener,
        farewell: F,
        places: usize,
    ) -> TcpDoor<'a, R, F>
        ensures inside { ⟦<TcpDoor<'a, R, F> as Door>⟧.inside result ≡ 0 }
        ensures places { ⟦<TcpDoor<'a, R, F> as Door>⟧.places result ≡ places }
        ensures told { ⟦<TcpDoor<'a, R, F> as Door>⟧.told result ≡ F.told farewell }
    {
        let mut door = TcpDoor::new(runtime, listener, farewell, places);
        let sockets = places.saturating_add(1);
        if let Some(sleeper) = Sleeper::new(runtime, alloc, sockets, LONGEST) {
            let mut sleeper = sleeper;
            door.arrivals = sleeper.watch(door.listener.as_raw_fd());
            door.sleeper = Some(sleeper);
        }
        door
    }

    /// Returns the time of the clock in milliseconds; 0 if it fails.
    fn time(&self) -> u64 {
        match self.runtime.monotonic() {
            Ok(time) => u64::try_from(time.as_millis()).unwrap_or(u64::MAX),
            Err(_) => 0,
        }
    }
}

/// What a look at the listener gave.
enum Arrival<S> {
    /// A connection whose calls don't wait, and its other end.
    Came(S, SocketAddr),
    /// A connection was lost before it was let in. Others may wait.
    Lost,
    /// None waits, or none can be let in now.
    Nobody,
}

/// Returns whether an error of the listener is that of one connection, and not of the listener, the limit of descriptors or the memory.
fn is_lost(error: &io::Error) -> bool
    ensures { result ≡ is_lost_by (error_kind error.now) }
{
    !matches!(
        error.kind(),
        ErrorKind::WouldBlock
            | ErrorKind::OutOfMemory
            | ErrorKind::InvalidInput
            | ErrorKind::Uncategorized
    )
}

/// Looks whether a connection waits at the listener. The flag falls if none does.
fn look<R: Net>(listener: &R::Listener, arrivals: &Flag) -> Arrival<R::Stream> {
    if !arrivals.is_up() {
        return Arrival::Nobody;
    }
    match listener.accept() {
        Ok((stream, peer)) => match ready(&stream) {
            Ok(()) => Arrival::Came(stream, peer),
            Err(_) => Arrival::Lost,
        },
        Err(error) => {
            arrivals.failed(&error);
            if is_lost(&error) {
                return Arrival::Lost;
            }
            Arrival::Nobody
        }
    }
}

/// Returns the connection that waits at the listener, if one does. It passes over those that were lost.
fn arrived<R: Net>(listener: &R::Listener, arrivals: &Flag) -> Option<(R::Stream, SocketAddr)> {
    for _lost in 0..LOST {
        match look::<R>(listener, arrivals) {
            Arrival::Came(stream, peer) => return Some((stream, peer)),
            Arrival::Lost => {}
            Arrival::Nobody => return None,
        }
    }
    None
}

/// Returns a listener at an address, and the address at which it listens.
///
/// Its calls don't wait.
///
/// # Errors
/// The operating system's, if it can't listen there.
pub fn listen<R: Net>(net: &R, address: SocketAddr) -> io::Result<(R::Listener, SocketAddr)> {
    let listener = net.bind(address)?;
    listener.set_nonblocking(true)?;
    let address = listener.local_addr()?;
    Ok((listener, address))
}

/// Makes ready a stream whose calls don't wait.
fn ready<S: OpenStream>(stream: &S) -> io::Result<()> {
    stream.set_nodelay(true)?;
    stream.set_nonblocking(true)
}

impl<'a, R: Net + Clock, F: Farewell + Drop> Door for TcpDoor<'a, R, F> {
    type Link = Polled<R::Stream, &'a R>;

    type Name = SocketAddr;

    ghost inside = { λ d. d.inside };

    ghost places = { λ d. d.places };

    ghost told = { λ d. F.told d.farewell };

    ghost rounds = { λ d. d.rounds };

    fn has_place(&self) -> bool {
        self.inside < self.places
    }

    fn enter(&mut self) -> Option<(Polled<R::Stream, &'a R>, SocketAddr)> {
        let (stream, peer) = arrived::<R>(&self.listener, &self.arrivals)?;
        self.inside += 1;
        let flag = match &mut self.sleeper {
            Some(sleeper) => sleeper.watch(stream.as_raw_fd()),
            None => Flag::always(),
        };
        Some((Polled::new(stream, self.runtime, flag), peer))
    }

    fn handled(&mut self) {
        self.naps.came();
    }

    fn placed(&mut self, link: &Polled<R::Stream, &'a R>, at: usize) {
        if let Some(sleeper) = &mut self.sleeper {
            sleeper.place(link.flag(), at);
        }
    }

    fn due(&mut self, next: usize) -> Option<usize> {
        match &mut self.sleeper {
            Some(sleeper) => sleeper.due(next),
            None => Some(next),
        }
    }

    fn rest(&mut self, is_idle: bool) {
        self.rounds = self.rounds.saturating_add(1);
        let time = self.time();
        if let Some(sleeper) = &mut self.sleeper {
            if sleeper.sleep(is_idle, time) {
                return;
            }
        }
        if !is_idle {
            self.naps.came();
            return;
        }
        self.naps.take(self.runtime, self.inside);
    }

    fn ended(&mut self, name: SocketAddr, parting: Parting) {
        self.inside -= 1;
        self.farewell.ended(name, parting);
    }
}
