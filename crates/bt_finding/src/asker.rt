//! The post of a search, and the places that are asked first.
ghost use Rattle.std.specs.Prelude.{◌≡◌};
ghost use Rattle.bt_finding.specs.Places.{is_look_up_due};

use crate::place::{Place, Places, What};
use bt_address::is_takeable;
use bt_exchange::Flag;
use bt_gather::Names;
use bt_post::{Sockets, look_up};
use bt_seek::{Came, Post, Question, Seek};
use std::alloc::AllocError;
use std::net::{Net, SocketAddr};
use std::os::fd::RawFd;
use std::random::RandomSource;
use std::time::Clock;

/// The sockets of a search, and the places that are asked first.
#[derive(Drop)]
pub struct Asker<'a, R: Net + Clock + RandomSource> {
    runtime: &'a R,
    sockets: Sockets<'a, R>,
    places: Places<'a>,
    is_local: bool,
    /// How many trackers of a link were passed over because their address is private.
    private: usize,
    /// When the clock was read first, in milliseconds.
    begun: Option<u64>,
    /// When it was read last.
    time: u64,
}

/// How long no name is looked up if an address is known that is asked, in milliseconds.
///
/// A name for which nobody answers holds everything up, and those at known addresses answer sooner.
const FIRST: u64 = 500;

/// For how long names are looked up, in milliseconds. A search isn't longer.
const LOOK_UPS: u64 = 15_000;

/// Returns whether a name may be looked up so many milliseconds after the beginning.
fn is_due(has_known: bool, passed: u64) -> bool
    ensures { result ≡ is_look_up_due has_known passed }
{
    (!has_known || passed >= FIRST) && passed < LOOK_UPS
}

impl<'a, R: Net + Clock + RandomSource> Asker<'a, R> {
    /// Returns the sockets with places of which none was asked yet.
    ///
    /// If `is_local` is set, a link may name trackers at private addresses.
    pub fn new(
        runtime: &'a R,
        sockets: Sockets<'a, R>,
        places: Places<'a>,
        is_local: bool,
    ) -> Asker<'a, R> {
        Asker {
            runtime,
            sockets,
            places,
            is_local,
            private: 0,
            begun: None,
            time: 0,
        }
    }

    /// Adds an address of a place to a search, unless it may not be asked.
    fn add_address(
        &mut self,
        seek: &mut Seek,
        place: &Place<'_>,
        address: Option<SocketAddr>,
    ) -> Result<(), AllocError> {
        let Some(address) = address else {
            return Ok(());
        };
        if !place.is_allowed(address, self.is_local) {
            if is_takeable(address, true) {
                self.private = self.private.saturating_add(1);
            }
            return Ok(());
        }
        match place.what {
            What::Tracker => seek.add_tracker(address),
            What::Node => seek.add_node(address),
            What::Page(target) => {
                let _number = seek.add_page(place.host, place.port, target)?;
                self.sockets.add_page(address)
            }
        }
    }

    /// Adds the addresses of a place to a search. If it has none, nobody is asked.
    fn add_place(&mut self, seek: &mut Seek, place: &Place<'_>) -> Result<(), AllocError> {
        let Ok(found) = look_up(self.runtime, place.host, place.port) else {
            return Ok(());
        };
        self.add_address(seek, place, found.four)?;
        self.add_address(seek, place, found.six)
    }

    /// Adds all places whose address is known to a search.
    ///
    /// # Errors
    /// `AllocError` when out of memory.
    pub fn add_known(&mut self, seek: &mut Seek) -> Result<(), AllocError> {
        for number in 0..self.places.known_count() {
            if let Some(place) = self.places.known(number) {
                self.add_place(seek, &place)?;
            }
        }
        Ok(())
    }

    /// Returns the descriptors of the sockets for datagrams, as [`Sockets::descriptors`].
    pub fn descriptors(&self) -> [Option<RawFd>; 2] {
        self.sockets.descriptors()
    }

    /// Hears by which flags others tell that these sockets may be ready, as [`Sockets::watched`].
    pub fn watched(&mut self, flags: [Option<Flag>; 2]) {
        self.sockets.watched(flags);
    }

    /// Returns whether a name may be looked up now: one is left, and it is time for it.
    pub fn is_name_due(&self) -> bool {
        let begun = self.begun.unwrap_or(self.time);
        let has_known = self.places.known_count() > 0;
        self.places.has_name() && is_due(has_known, self.time.saturating_sub(begun))
    }

    /// Returns whether a name may be looked up, now or later.
    pub fn has_name(&self) -> bool {
        let begun = self.begun.unwrap_or(self.time);
        self.places.has_name() && self.time.saturating_sub(begun) < LOOK_UPS
    }

    /// Returns how many trackers of a link were passed over because their address is private.
    pub fn private(&self) -> usize {
        self.private
    }

    /// Waits until something may have come, for 50 milliseconds at most.
    pub fn rest(&mut self) {
        self.sockets.rest();
    }
}

impl<'a, R: Net + Clock + RandomSource> Names for Asker<'a, R> {
    fn look_up(&mut self, seek: &mut Seek) -> Result<bool, AllocError> {
        if !self.is_name_due() {
            return Ok(self.has_name());
        }
        if let Some(place) = self.places.next_named() {
            self.add_place(seek, &place)?;
        }
        Ok(true)
    }

    fn part(&mut self) {
        self.sockets.part();
    }
}

impl<'a, R: Net + Clock + RandomSource> Post for Asker<'a, R> {
    ghost log = { λ a. ⟦<Sockets<'a, R> as Post>⟧.log a.sockets };

    fn send(&mut self, to: SocketAddr, question: Question, datagram: &[u8]) {
        self.sockets.send(to, question, datagram);
    }

    fn ask(&mut self, page: usize, question: &[u8]) {
        self.sockets.ask(page, question);
    }

    fn stop(&mut self, page: usize, question: &[u8]) {
        self.sockets.stop(page, question);
    }

    fn receive(&mut self, buffer: &mut [u8]) -> Option<Came> {
        self.sockets.receive(buffer)
    }

    fn draw(&mut self) -> [u8; 4] {
        self.sockets.draw()
    }

    fn time(&mut self) -> u64 {
        self.time = self.sockets.time();
        if self.begun.is_none() {
            self.begun = Some(self.time);
        }
        self.time
    }
}
