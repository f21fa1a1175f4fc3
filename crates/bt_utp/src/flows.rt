//! The datagrams of uTP between each two ends.
ghost use Rattle.std.specs.Prelude.{◌≡◌, ◌++◌, ◌∷◌, [], List, Option, Some, None, OnOk, OnErr, length};
ghost use Rattle.std.specs.List.{slice_get};
ghost use Rattle.bt_packet.specs.Utp.{UtpPacket, utp_packet};
ghost use Rattle.bt_utp.specs.Flows.{firsts, flows, kept, same_ends};
ghost use Rattle.bt_utp.specs.States.{AreCounted, IsPlace};

use crate::flow::{Counted, Flow};
use bt_packet::{Address, Utp};
use std::alloc::{AllocError, Global};
use std::collections::BTreeMap;

/// How many ids there are at most, of all flows together.
const LIMIT: usize = 65536;

/// The datagrams of uTP between each two ends, and how many there are.
#[derive(Drop)]
pub struct UtpFlows {
    alloc: Global,
    flows: Vec<Flow>,
    /// The place of each flow, by the source and the target of its first datagram.
    places: BTreeMap<(Address, Address), usize>,
    /// How many ids the flows have together.
    ids: usize,
}

impl UtpFlows {
    /// Returns no flows.
    pub fn new(alloc: Global) -> UtpFlows
        ensures { AreCounted [] result }
    {
        UtpFlows {
            alloc,
            flows: Vec::new(alloc),
            places: BTreeMap::new(alloc),
            ids: 0,
        }
    }

    /// Returns the place of a datagram's flow.
    fn find(&self, datagram: &Utp) -> Option<usize>
        ensures { (ds : List UtpPacket) → AreCounted ds self.now → IsPlace (firsts same_ends (kept ds)) (utp_packet datagram.now) result }
    {
        match self.places.get(&(datagram.source, datagram.target)) {
            Some(place) => Some(*place),
            None => self
                .places
                .get(&(datagram.target, datagram.source))
                .copied(),
        }
    }

    /// Takes a datagram of a flow that is there.
    fn go_on(&mut self, place: usize, datagram: &Utp) -> Result<(), AllocError>
        ensures ok { OnOk result ((ds : List UtpPacket) → AreCounted ds self.old
            → IsPlace (firsts same_ends (kept ds)) (utp_packet datagram.now) (Some place) → AreCounted (ds ++ utp_packet datagram.now ∷ []) self.new) }
        ensures err { OnErr result ((ds : List UtpPacket) → AreCounted ds self.old → AreCounted ds self.new) }
    {
        let has_room = self.ids < LIMIT;
        let Some(flow) = self.flows.get_mut(place) else {
            return Ok(());
        };
        match flow.take(datagram, has_room) {
            Ok(true) => {
                self.ids += 1;
                Ok(())
            }
            Ok(false) => Ok(()),
            Err(error) => Err(error),
        }
    }

    /// Begins a flow with its first datagram. Without room nothing is told of it.
    fn begin(&mut self, first: &Utp) -> Result<(), AllocError>
        ensures ok { OnOk result ((ds : List UtpPacket) → AreCounted ds self.old
            → IsPlace (firsts same_ends (kept ds)) (utp_packet first.now) None → AreCounted (ds ++ utp_packet first.now ∷ []) self.new) }
        ensures err { OnErr result ((ds : List UtpPacket) → AreCounted ds self.old → AreCounted ds self.new) }
    {
        if self.ids >= LIMIT {
            return Ok(());
        }
        self.flows.reserve(1)?;
        let flow = Flow::new(self.alloc, first)?;
        let place = self.flows.len();
        self.places.insert((first.source, first.target), place)?;
        self.flows.push(flow)?;
        self.ids += 1;
        Ok(())
    }

    /// Takes a datagram.
    ///
    /// # Errors
    /// `AllocError` if out of memory. The flows are as before.
    pub fn take(&mut self, datagram: &Utp) -> Result<(), AllocError>
        ensures ok { OnOk result ((ds : List UtpPacket) → AreCounted ds self.old → AreCounted (ds ++ utp_packet datagram.now ∷ []) self.new) }
        ensures err { OnErr result ((ds : List UtpPacket) → AreCounted ds self.old → AreCounted ds self.new) }
    {
        match self.find(datagram) {
            Some(place) => self.go_on(place, datagram),
            None => self.begin(datagram),
        }
    }

    /// Returns how many flows there are.
    pub fn len(&self) -> usize
        ensures { (ds : List UtpPacket) → AreCounted ds self.now → result ≡ length (flows ds) }
    {
        self.flows.len()
    }

    /// Returns how many datagrams of a flow there are. The flows are in the order of their first datagrams.
    pub fn counted(&self, place: usize) -> Option<Counted>
        ensures { (ds : List UtpPacket) → AreCounted ds self.now → result ≡ slice_get (flows ds) place }
    {
        match self.flows.get(place) {
            Some(flow) => Some(flow.counted()),
            None => None,
        }
    }
}
