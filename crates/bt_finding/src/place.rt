//! Who is asked first: trackers and nodes of the DHT, as a link or the user names them.
ghost use Rattle.std.specs.Prelude.{◌≡◌};
ghost use Rattle.bt_finding.specs.Places.{is_allowed as is_allowed_by};

use bt_address::is_takeable;
use bt_post::is_address;
use bt_tracker::Tracker;
use std::alloc::{AllocError, Global};
use std::net::SocketAddr;

/// What is asked at a place.
#[derive(Clone, Copy, PartialEq, Eq, Debug)]
pub enum What<'a> {
    /// A tracker over UDP.
    Tracker,
    /// A tracker over HTTP, with the path and the query of its URL.
    Page(&'a [u8]),
    /// A node of the DHT.
    Node,
}

/// A place that is asked.
#[derive(Clone, Copy, PartialEq, Eq, Debug)]
pub struct Place<'a> {
    pub what: What<'a>,
    /// A name, or an address without brackets.
    pub host: &'a str,
    pub port: u16,
    /// A link names it, and not the user: so it is asked only at an address that a stranger may name.
    pub is_told: bool,
}

impl<'a> Place<'a> {
    /// Returns the place of a tracker, unless that isn't asked.
    pub fn of_tracker(tracker: Tracker<'a>, is_told: bool) -> Option<Place<'a>> {
        match tracker {
            Tracker::Udp { host, port } => Some(Place {
                what: What::Tracker,
                host,
                port,
                is_told,
            }),
            Tracker::Http { host, port, target } => Some(Place {
                what: What::Page(target),
                host,
                port,
                is_told,
            }),
            Tracker::Unasked => None,
        }
    }

    /// Returns whether the place is asked at this address.
    pub fn is_allowed(&self, address: SocketAddr, is_local: bool) -> bool
        ensures { result ≡ is_allowed_by self.now.is_told is_local address }
    {
        !self.is_told || is_takeable(address, is_local)
    }
}

/// Places in the order in which they are asked: first those whose address is known, then those whose name has to be looked up.
#[derive(Drop)]
pub struct Places<'a> {
    known: Vec<Place<'a>>,
    named: Vec<Place<'a>>,
    /// How many names were given out.
    given: usize,
}

impl<'a> Places<'a> {
    /// Returns no places.
    pub fn new(alloc: Global) -> Places<'a> {
        Places {
            known: Vec::new(alloc),
            named: Vec::new(alloc),
            given: 0,
        }
    }

    /// Adds a place, after those of its kind.
    ///
    /// # Errors
    /// `AllocError` when out of memory.
    pub fn add(&mut self, place: Place<'a>) -> Result<(), AllocError> {
        if is_address(place.host) {
            self.known.push(place)?;
        } else {
            self.named.push(place)?;
        }
        Ok(())
    }

    /// Returns how many places there are.
    pub fn len(&self) -> usize {
        self.known.len().saturating_add(self.named.len())
    }

    /// Returns whether nobody is to be asked.
    pub fn is_empty(&self) -> bool {
        self.len() == 0
    }

    /// Returns how many places have an address that is known.
    pub fn known_count(&self) -> usize {
        self.known.len()
    }

    /// Returns a place whose address is known, by its number from 0 on.
    pub fn known(&self, number: usize) -> Option<Place<'a>> {
        Some(*self.known.get(number)?)
    }

    /// Returns the next place whose name has to be looked up.
    pub fn next_named(&mut self) -> Option<Place<'a>> {
        let place = *self.named.get(self.given)?;
        self.given += 1;
        Some(place)
    }

    /// Returns whether a name was not given out yet.
    pub fn has_name(&self) -> bool {
        self.given < self.named.len()
    }
}
