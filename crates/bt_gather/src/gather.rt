//! The device of a fetch that seeks.
ghost use Rattle.std.specs.Prelude.{◌≡◌, ◌≤◌, true, false, length, take, vec_len};
ghost use Rattle.bt_gather.specs.Gathers.{gathered};

use crate::adding::add_found;
use crate::finder::Finder;
use bt_end::Progress;
use bt_fetch::{Device, Dialler, Ending};
use std::net::SocketAddr;

/// How many addresses are added to those that were named at most.
pub const MOST_FOUND: usize = 200;

/// How often a fetch may hear that more addresses may come.
const LOOKS: u64 = 1 << 32;

/// A device whose addresses are those that were named, and those that a search finds while the fetch goes on.
#[derive(Drop)]
pub struct Gather<D: Dialler + Drop, F: Finder + Drop> {
    /// The addresses, by their numbers.
    pub addresses: Vec<SocketAddr>,
    /// How many of them were named: the first ones.
    pub named: usize,
    /// The device of the connections.
    pub swarm: D,
    /// The search.
    pub finder: F,
    /// How many of the found addresses were looked at.
    pub taken: usize,
    /// How many addresses may be known at most.
    most: usize,
    /// Whether more addresses may be found.
    seeks: bool,
    /// Whether a peer told a size or gave a block.
    has_come: bool,
    /// How often it may still say that more addresses may come.
    left: u64,
    is_all: bool,
    ghost starts: { named ≤ vec_len addresses },
    ghost order: { addresses.items ≡ gathered (take named addresses.items) (take taken (F.found finder)) },
    ghost within: { taken ≤ length (F.found finder) },
    ghost goes_on: { F.has_ended finder ≡ false },
    ghost fits: { vec_len addresses ≤ most },
}

impl<D: Dialler + Drop, F: Finder + Drop> Gather<D, F> {
    /// Returns the device of a fetch from the named addresses, and from those that are found. `swarm` dials them.
    pub fn new(addresses: Vec<SocketAddr>, swarm: D, finder: F) -> Gather<D, F>
        requires { F.has_ended finder ≡ false }
        ensures inside { ⟦<Gather<D, F> as Device>⟧.inside result ≡ D.inside swarm }
        ensures places { ⟦<Gather<D, F> as Device>⟧.places result ≡ D.places swarm }
        ensures log { ⟦<Gather<D, F> as Device>⟧.log result ≡ D.log swarm }
        ensures addresses { result.addresses.items ≡ addresses.items }
        ensures named { result.named ≡ vec_len addresses }
    {
        let named = addresses.len();
        Gather {
            addresses,
            named,
            swarm,
            finder,
            taken: 0,
            most: named.saturating_add(MOST_FOUND),
            seeks: true,
            has_come: false,
            left: LOOKS,
            is_all: false,
        }
    }

    /// Gives the search its turn, if it goes on.
    fn turn(&mut self)
        ensures addresses { self.new.addresses ≡ self.old.addresses }
        ensures swarm { self.new.swarm ≡ self.old.swarm }
        ensures over { self.old.seeks ≡ false → self.new.finder ≡ self.old.finder }
        ensures most { self.new.most ≡ self.old.most }
        ensures left { self.new.left ≡ self.old.left }
        ensures is_all { self.new.is_all ≡ self.old.is_all }
    {
        if self.seeks {
            self.seeks = self.finder.turn(!self.has_come);
        }
    }

    /// Ends the search, and returns the device of the connections and the search.
    pub fn finish(self) -> (D, F)
        ensures swarm { result.0 ≡ self.swarm }
        ensures found { F.found result.1 ≡ F.found self.finder }
        ensures ended { F.has_ended result.1 ≡ true }
    {
        let Gather { swarm, finder, .. } = self;
        let mut finder = finder;
        finder.end();
        (swarm, finder)
    }
}

impl<D: Dialler + Drop, F: Finder + Drop> Device for Gather<D, F> {
    type Link = D::Link;

    ghost log = { λ d. D.log d.swarm };

    ghost inside = { λ d. D.inside d.swarm };

    ghost places = { λ d. D.places d.swarm };

    ghost list = { λ d. record {
      known = vec_len d.addresses;
      most = d.most;
      is_all = d.is_all;
      looks = d.left;
    } };

    fn known(&self) -> usize {
        self.addresses.len()
    }

    fn most(&self) -> usize {
        self.most
    }

    fn more(&mut self) -> bool {
        if self.is_all {
            return false;
        }
        let found = self.finder.found();
        self.taken = add_found(
            &mut self.addresses,
            self.named,
            found,
            self.taken,
            self.most,
            &mut self.swarm,
        );
        let is_full = self.taken < found.len();
        if is_full || !self.seeks || self.left == 0 {
            self.is_all = true;
            return false;
        }
        self.left -= 1;
        true
    }

    fn dial(&mut self, address: usize) -> Option<D::Link> {
        match self.addresses.get(address).copied() {
            Some(at) => self.swarm.dial_at(address, at),
            None => self.swarm.dial(address),
        }
    }

    fn ended(&mut self, address: usize, link: D::Link, ending: Ending) {
        self.swarm.ended(address, link, ending);
    }

    fn is_open(&self, link: &D::Link) -> Option<bool> {
        self.swarm.is_open(link)
    }

    fn came(&mut self, address: usize, progress: Progress) {
        self.has_come = true;
        self.swarm.came(address, progress);
    }

    fn time(&mut self) -> u64 {
        self.swarm.time()
    }

    fn look(&mut self) {
        self.turn();
        self.swarm.look();
    }

    fn rest(&mut self) {
        self.turn();
        if !self.is_all && self.taken < self.finder.found().len() {
            return;
        }
        self.swarm.rest();
    }
}
