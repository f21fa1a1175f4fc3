//! Connections over TCP to many addresses at the same time.
ghost use Rattle.std.specs.Prelude.{◌≡◌, ◌+◌, ◌<◌, length, IfSome};
ghost use Rattle.bt_exchange.specs.Lists.{IsAdded};
ghost use Rattle.bt_fetch.specs.Links.{opening};
ghost use Rattle.bt_fetch.specs.Listings.{fixed};
ghost use Rattle.bt_fetch.specs.declared.device.Happening.{Happening};

use crate::device::{Device, Ending};
use crate::dialler::Dialler;
use crate::link::TcpLink;
use bt_end::Progress;
use bt_exchange::{Connection, Flag, Naps, Sleeper};
use mio::net::TcpStream;
use std::alloc::Global;
use std::io;
use std::net::{Net, SocketAddr};
use std::os::fd::{AsRawFd, RawFd};
use std::time::Clock;

/// How long a loop sleeps at most if no socket is ready, in milliseconds.
const LONGEST: u64 = 50;

/// Hears what happens at the addresses, each by its number.
pub trait Watcher {
    ghost use Rattle.std.specs.Prelude.{List, Option};
    ghost use Rattle.bt_fetch.specs.declared.device.Happening.{Happening};

    /// What it heard of dials and ends, in order, if it is known.
    ghost heard: { Self → Option (List Happening) };

    /// The address got the next number, while the fetch goes on.
    fn added(&mut self, _address: SocketAddr)
        ensures { heard self.new ≡ heard self.old }
    {}

    /// The address was dialled. `is_begun` says whether a connection to it was begun.
    fn dialled(&mut self, address: usize, is_begun: bool)
        ensures { IsAdded (heard self.old) (heard self.new) (Happening.Dialled address) };

    /// The fetch over the connection to the address has come this far, at this time in milliseconds.
    fn came(&mut self, address: usize, progress: Progress, time: u64)
        ensures { heard self.new ≡ heard self.old };

    /// The connection to the address ended.
    fn ended(&mut self, address: usize, ending: Ending)
        ensures { IsAdded (heard self.old) (heard self.new) (Happening.Ended address ending) };
}

/// Opens TCP connections to the addresses of a list, whose calls don't wait.
#[derive(Drop)]
pub struct TcpSwarm<'a, R: Net + Clock, T: Watcher + Drop> {
    runtime: &'a R,
    alloc: Global,
    addresses: &'a [SocketAddr],
    watcher: T,
    inside: usize,
    places: usize,
    time: u64,
    /// What sleeps until a socket is ready; without it the loop naps.
    sleeper: Option<Sleeper>,
    /// The naps. They begin short after a block and a dial, since a peer that is near sends the next block soon.
    naps: Naps,
}

impl<'a, R: Net + Clock, T: Watcher + Drop> TcpSwarm<'a, R, T> {
    /// Returns a device with `places` places for connections to these addresses.
    pub fn new(
        runtime: &'a R,
        alloc: Global,
        addresses: &'a [SocketAddr],
        watcher: T,
        places: usize,
    ) -> TcpSwarm<'a, R, T>
        ensures inside { ⟦<TcpSwarm<'a, R, T> as Device>⟧.inside result ≡ 0 }
        ensures places { ⟦<TcpSwarm<'a, R, T> as Device>⟧.places result ≡ places }
        ensures list { ⟦<TcpSwarm<'a, R, T> as Device>⟧.list result ≡ fixed (length addresses.now) }
        ensures log { ⟦<TcpSwarm<'a, R, T> as Device>⟧.log result ≡ T.heard watcher }
    {
        TcpSwarm {
            runtime,
            alloc,
            addresses,
            watcher,
            inside: 0,
            places,
            time: 0,
            sleeper: None,
            naps: Naps::new(),
        }
    }

    /// Returns a device whose loop sleeps until a socket is ready: one of its own, or one of `others` that are watched besides.
    ///
    /// If the system has no descriptor for that, or when out of memory, it naps as that of [`TcpSwarm::new`].
    pub fn sleeping(
        runtime: &'a R,
        alloc: Global,
        addresses: &'a [SocketAddr],
        watcher: T,
        places: usize,
        others: usize,
    ) -> TcpSwarm<'a, R, T>
        ensures inside { ⟦<TcpSwarm<'a, R, T> as Device>⟧.inside result ≡ 0 }
        ensures places { ⟦<TcpSwarm<'a, R, T> as Device>⟧.places result ≡ places }
        ensures list { ⟦<TcpSwarm<'a, R, T> as Device>⟧.list result ≡ fixed (length addresses.now) }
        ensures log { ⟦<TcpSwarm<'a, R, T> as Device>⟧.log result ≡ T.heard watcher }
    {
        let mut swarm = TcpSwarm::new(runtime, alloc, addresses, watcher, places);
        let sockets = places.saturating_add(others);
        swarm.sleeper = Sleeper::new(runtime, alloc, sockets, LONGEST);
        swarm
    }

    /// Returns the flag of a socket: one that ends a sleep, if the loop can sleep.
    fn flag_of(&mut self, socket: RawFd) -> Flag
        ensures inside { self.new.inside ≡ self.old.inside }
        ensures places { self.new.places ≡ self.old.places }
        ensures addresses { self.new.addresses ≡ self.old.addresses }
        ensures watcher { self.new.watcher ≡ self.old.watcher }
    {
        match &mut self.sleeper {
            Some(sleeper) => sleeper.watch(socket),
            None => Flag::always(),
        }
    }

    /// Begins a connection to an address.
    fn begin(&mut self, at: SocketAddr) -> Option<TcpLink<&'a R>>
        ensures fresh { IfSome result (λ link. (⟦<TcpLink<&'a R> as Connection>⟧.seen link).counts.calls ≡ 0) }
        ensures inside { self.new.inside ≡ self.old.inside }
        ensures places { self.new.places ≡ self.old.places }
        ensures addresses { self.new.addresses ≡ self.old.addresses }
        ensures watcher { self.new.watcher ≡ self.old.watcher }
    {
        let stream = begin(self.runtime, at).ok()?;
        let flag = self.flag_of(stream.as_raw_fd());
        TcpLink::new(self.alloc, stream, self.runtime, flag).ok()
    }

    /// Tells that an address was dialled, and counts its connection, if one was begun.
    fn told(&mut self, address: usize, begun: Option<TcpLink<&'a R>>) -> Option<TcpLink<&'a R>>
        requires room { self.old.inside < self.old.places }
        requires fresh { IfSome begun (λ link. (⟦<TcpLink<&'a R> as Connection>⟧.seen link).counts.calls ≡ 0) }
        ensures log { IsAdded (T.heard self.old.watcher) (T.heard self.new.watcher) (Happening.Dialled address) }
        ensures inside { self.new.inside ≡ self.old.inside + opening result }
        ensures fresh { IfSome result (λ link. (⟦<TcpLink<&'a R> as Connection>⟧.seen link).counts.calls ≡ 0) }
        ensures places { self.new.places ≡ self.old.places }
        ensures addresses { self.new.addresses ≡ self.old.addresses }
    {
        self.watcher.dialled(address, begun.is_some());
        let link = begun?;
        self.inside += 1;
        self.naps.came();
        Some(link)
    }

    /// Returns who heard what happened.
    pub fn watcher(self) -> T
        ensures { T.heard result ≡ ⟦<TcpSwarm<'a, R, T> as Device>⟧.log self.entry }
    {
        self.watcher
    }
}

/// Begins a connection whose calls don't wait, also while it isn't there yet.
fn begin<R: Net>(net: &R, address: SocketAddr) -> io::Result<TcpStream> {
    let stream = TcpStream::connect(net, address)?;
    stream.set_nodelay(true)?;
    Ok(stream)
}

impl<'a, R: Net + Clock, T: Watcher + Drop> Device for TcpSwarm<'a, R, T> {
    type Link = TcpLink<&'a R>;

    ghost log = { λ d. T.heard d.watcher };

    ghost inside = { λ d. d.inside };

    ghost places = { λ d. d.places };

    ghost list = { λ d. fixed (length d.addresses.now) };

    fn known(&self) -> usize {
        self.addresses.len()
    }

    fn most(&self) -> usize {
        self.addresses.len()
    }

    fn more(&mut self) -> bool {
        false
    }

    fn dial(&mut self, address: usize) -> Option<TcpLink<&'a R>> {
        let at = self.addresses.get(address).copied();
        let begun = match at {
            Some(at) => self.begin(at),
            None => None,
        };
        self.told(address, begun)
    }

    fn ended(&mut self, address: usize, _link: TcpLink<&'a R>, ending: Ending) {
        self.inside -= 1;
        self.watcher.ended(address, ending);
    }

    fn is_open(&self, link: &TcpLink<&'a R>) -> Option<bool> {
        link.is_open()
    }

    fn came(&mut self, address: usize, progress: Progress) {
        self.naps.came();
        self.watcher.came(address, progress, self.time);
    }

    fn time(&mut self) -> u64 {
        if let Ok(time) = self.runtime.monotonic() {
            self.time = u64::try_from(time.as_millis()).unwrap_or(u64::MAX);
        }
        self.time
    }

    fn look(&mut self) {
        if let Some(sleeper) = &mut self.sleeper {
            let _ = sleeper.sleep(false, self.time);
        }
    }

    fn rest(&mut self) {
        if let Some(sleeper) = &mut self.sleeper {
            if sleeper.sleep(true, self.time) {
                return;
            }
        }
        self.naps.take(self.runtime, self.inside);
    }
}

impl<'a, R: Net + Clock, T: Watcher + Drop> Dialler for TcpSwarm<'a, R, T> {
    fn dial_at(&mut self, number: usize, address: SocketAddr) -> Option<TcpLink<&'a R>> {
        let begun = self.begin(address);
        self.told(number, begun)
    }

    fn added(&mut self, address: SocketAddr) {
        self.watcher.added(address);
    }

    fn watch(&mut self, socket: RawFd) -> Flag {
        self.flag_of(socket)
    }
}
