//! A search over sockets, turn by turn.
use crate::asker::Asker;
use crate::finding::Finding;
use crate::summary::Counts;
use bt_gather::Names;
use bt_seek::{Seek, Turn};
use std::alloc::AllocError;
use std::net::{Net, SocketAddr};
use std::random::RandomSource;
use std::time::Clock;

/// How many peers end a search.
const PEERS: usize = 200;

/// A search over sockets.
#[derive(Drop)]
pub struct Finder<'a, R: Net + Clock + RandomSource> {
    seek: Seek,
    asker: Asker<'a, R>,
    /// The places whose addresses are known were added.
    has_begun: bool,
}

impl<'a, R: Net + Clock + RandomSource> Finder<'a, R> {
    /// Returns a search that has asked nobody yet.
    pub fn new(seek: Seek, asker: Asker<'a, R>) -> Finder<'a, R> {
        Finder {
            seek,
            asker,
            has_begun: false,
        }
    }

    /// Returns whether names are still of use.
    fn wants_names(&self) -> bool {
        self.asker.has_name() && self.seek.peers().len() < PEERS
    }

    /// Adds the places whose addresses are known in the first turn, and looks up a name in each later one.
    fn add_places(&mut self) -> Result<(), AllocError> {
        if !self.has_begun {
            self.has_begun = true;
            return self.asker.add_known(&mut self.seek);
        }
        if self.wants_names() {
            let _is_left = self.asker.look_up(&mut self.seek)?;
        }
        Ok(())
    }

    /// Tells the trackers that this peer has stopped, and returns what the search has done.
    ///
    /// # Errors
    /// `AllocError` when out of memory.
    pub fn finish(&mut self) -> Result<Counts, AllocError> {
        self.seek.goodbye(&mut self.asker)?;
        self.asker.part();
        let summary = self.seek.summary();
        Ok(Counts {
            trackers: summary.trackers,
            nodes: summary.nodes,
            private: summary.private.saturating_add(self.asker.private()),
        })
    }
}

impl<'a, R: Net + Clock + RandomSource> Finding for Finder<'a, R> {
    fn turn(&mut self) -> Result<bool, AllocError> {
        self.add_places()?;
        let turn = self.seek.turn(&mut self.asker)?;
        Ok(turn == Turn::Going || self.wants_names())
    }

    fn peers(&self) -> &[SocketAddr] {
        self.seek.peers()
    }

    fn rest(&mut self) {
        if !self.asker.is_name_due() {
            self.asker.rest();
        }
    }
}
