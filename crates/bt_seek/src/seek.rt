//! The search, as its callers see it.
ghost use Rattle.std.specs.Prelude.{◌≡◌, ◌<◌, IfOk, List, Ok, OnOk, Option, length};
ghost use Rattle.bt_seek.specs.Courses.{start};
ghost use Rattle.bt_seek.specs.Mails.{Mail};
ghost use Rattle.bt_seek.specs.Names.{nobody, with_named_node, with_page, with_tracker};
ghost use Rattle.bt_seek.specs.Runs.{IsTold};

use crate::named::Named;
use crate::post::Post;
use crate::search::{Ask, Due, Ids, Search, Summary};
use crate::sending::{ask_all, look, send_stops, stop_pages, take_mail};
use bt_tracker::MAX_HTTP_ANSWER;
use std::alloc::{AllocError, Global};
use std::marker::Model;
use std::net::SocketAddr;

/// Whether a search goes on.
#[derive(Clone, Copy, PartialEq, Eq, Debug)]
pub enum Turn {
    /// An answer may come, or something is to be sent later.
    Going,
    /// No answer is awaited, and nobody is left to ask; or there are 200 peers, or 15 seconds have passed.
    Over,
}

/// A search for the peers of a torrent.
#[derive(Drop)]
pub struct Seek {
    named: Named,
    search: Search,
    buffer: Vec<u8>,
}

impl Model for Seek {
    ghost use Rattle.bt_seek.specs.Names.{names_of};
    ghost use Rattle.bt_seek.specs.Runs.{Seeking};
    ghost use Rattle.bt_seek.specs.Tables.{course_of};

    ghost Value = { Seeking };

    ghost view = { λ s. record { names = names_of s.named; course = course_of s.search.table } };
}

impl Seek {
    /// Returns a search that has asked nobody yet.
    ///
    /// If `is_local` is set, told peers and nodes may have private addresses.
    ///
    /// # Errors
    /// `AllocError` when out of memory.
    pub fn new(alloc: Global, ids: Ids, is_local: bool) -> Result<Seek, AllocError>
        ensures { IfOk result (λ s. s ≡ record { names = nobody ids; course = start is_local }) }
    {
        let mut buffer = Vec::new(alloc);
        buffer.resize(MAX_HTTP_ANSWER, 0)?;
        Ok(Seek {
            named: Named::new(alloc, ids),
            search: Search::new(alloc, ids.info_hash, is_local),
            buffer,
        })
    }

    /// Adds a tracker over UDP, which is asked in the next turn.
    ///
    /// # Errors
    /// `AllocError` when out of memory.
    pub fn add_tracker(&mut self, address: SocketAddr) -> Result<(), AllocError>
        ensures names { OnOk result (self.new.names ≡ with_tracker address self.old.names) }
        ensures course { self.new.course ≡ self.old.course }
        ensures told { OnOk result ((log : Option (List Mail)) → IsTold log self.old.names self.old.course → IsTold log self.new.names self.new.course) }
    {
        self.named.add_tracker(address)?;
        self.search.due.push(Due {
            to: address,
            ask: Ask::Connect,
            at: 0,
            again: None,
        })?;
        Ok(())
    }

    /// Adds a tracker over HTTP, which is asked in the next turn, and returns its number.
    ///
    /// `host`, `port` and `target` are those of [`bt_tracker::Tracker::Http`]. Numbers count from 0.
    ///
    /// # Errors
    /// `AllocError` when out of memory.
    pub fn add_page(&mut self, host: &str, port: u16, target: &[u8]) -> Result<usize, AllocError>
        ensures names { OnOk result (self.new.names ≡ with_page (record { host = host.now; port = port; target = target.now }) self.old.names) }
        ensures course { self.new.course ≡ self.old.course }
        ensures told { OnOk result ((log : Option (List Mail)) → IsTold log self.old.names self.old.course → IsTold log self.new.names self.new.course) }
        ensures number { IfOk result (λ n. n ≡ length self.old.names.pages) }
    {
        let number = self.named.pages.len();
        self.named.add_page(self.search.alloc, host, port, target)?;
        Ok(number)
    }

    /// Adds a node of the DHT, which is asked before all nodes that answers told.
    ///
    /// # Errors
    /// `AllocError` when out of memory.
    pub fn add_node(&mut self, address: SocketAddr) -> Result<(), AllocError>
        ensures names { OnOk result (self.new.names ≡ with_named_node address self.old.names) }
        ensures course { self.new.course ≡ self.old.course }
        ensures told { OnOk result ((log : Option (List Mail)) → IsTold log self.old.names self.old.course → IsTold log self.new.names self.new.course) }
    {
        self.named.add_node(address)?;
        self.search.nodes.add(address, None)?;
        Ok(())
    }

    /// Returns the peers that were found so far, in the order in which they were found.
    pub fn peers(&self) -> &[SocketAddr]
        ensures { result.now ≡ self.now.course.peers }
    {
        &self.search.table.peers
    }

    /// Returns what the search has done so far.
    pub fn summary(&self) -> Summary
        ensures { result.datagrams ≡ length self.now.course.sent }
    {
        let mut summary = self.search.summary;
        summary.datagrams = self.search.table.sent.len();
        summary
    }

    /// Takes the mail that is there, and sends what is due. It doesn't wait.
    ///
    /// The log of the mail is that of the machine of BEP 15 and BEP 5, and what was found is what the log tells. Only those are asked
    /// who were added, or of whom an answer told that counts.
    ///
    /// # Errors
    /// `AllocError` when out of memory. The search can't go on then.
    pub fn turn<P: Post>(&mut self, post: &mut P) -> Result<Turn, AllocError>
        ensures few { result ≡ Ok Turn.Going → length self.new.course.peers < 200 }
        ensures names { self.new.names ≡ self.old.names }
        ensures told { OnOk result (IsTold (P.log post.old) self.old.names self.old.course → IsTold (P.log post.new) self.new.names self.new.course) }
    {
        look(&mut self.search, post);
        take_mail(&mut self.search, post, &mut self.buffer)?;
        if !self.search.is_ended() {
            ask_all(&self.named, &mut self.search, post)?;
        }
        if self.search.is_over(self.named.pages.len()) {
            return Ok(Turn::Over);
        }
        Ok(Turn::Going)
    }

    /// Tells each tracker that was told of this peer that it has stopped. The answers aren't awaited.
    ///
    /// # Errors
    /// `AllocError` when out of memory.
    pub fn goodbye<P: Post>(&mut self, post: &mut P) -> Result<(), AllocError>
        ensures names { self.new.names ≡ self.old.names }
        ensures told { OnOk result (IsTold (P.log post.old) self.old.names self.old.course → IsTold (P.log post.new) self.new.names self.new.course) }
    {
        send_stops(&self.named, &mut self.search, post)?;
        stop_pages(&self.named, &mut self.search, post)
    }
}
