//! What a search knows, what it is going to ask, and what it makes of an answer.
ghost use Rattle.std.specs.Prelude.{◌≡◌, ◌<◌, ◌≤◌, false, IfOk, OnOk, length, unwrap_or};
ghost use Rattle.bt_seek.specs.Answers.{ArePagePeers};
ghost use Rattle.bt_seek.specs.Courses.{is_past as is_past_by, start};
ghost use Rattle.bt_seek.specs.Mails.{Answered, Failed, Heard, length_of, mail_of};
ghost use Rattle.bt_seek.specs.Questions.{announce_by, kind_by};
ghost use Rattle.bt_seek.specs.Runs.{IsTaken};
ghost use Rattle.bt_seek.specs.Tables.{course_of};

use crate::node::Nodes;
use crate::post::Came;
use crate::question::{Given, Kind};
use crate::said::{Answer, Said, addresses_in, read};
use crate::table::{PEERS, Table, is_past};
use bt_address::{Family, is_takeable};
use bt_dht::Node;
use bt_tracker::{Announce, Event, HttpAnswer, read_http_answer};
use std::alloc::{AllocError, Global};
use std::net::SocketAddr;

/// How long the search lasts at most, in milliseconds.
const SEARCH: u64 = 15_000;

/// Who asks, and for what. The caller draws all but the info hash at random for each search.
#[derive(Clone, Copy)]
pub struct Ids {
    /// The info hash of the torrent whose peers are searched.
    pub info_hash: [u8; 20],
    /// The peer id that trackers are told.
    pub peer_id: [u8; 20],
    /// The id that nodes of the DHT are told.
    pub node_id: [u8; 20],
    /// The key that trackers over UDP are told (BEP 15).
    pub key: [u8; 4],
}

/// What a search has done.
#[derive(Clone, Copy, PartialEq, Eq, Debug)]
pub struct Summary {
    /// How many trackers were asked.
    pub trackers: usize,
    /// How many trackers answered, with peers or with a refusal.
    pub trackers_answered: usize,
    /// How many nodes of the DHT were asked.
    pub nodes: usize,
    /// How many nodes of the DHT answered.
    pub nodes_answered: usize,
    /// How many datagrams were sent.
    pub datagrams: usize,
    /// How many told peers were passed over because their address is private.
    pub private: usize,
}

/// What a datagram is to ask.
#[derive(Clone, Copy)]
pub enum Ask {
    Connect,
    Announce([u8; 8]),
    Stop([u8; 8]),
    Nodes,
}

/// A question that is to be sent.
#[derive(Clone, Copy)]
pub struct Due {
    pub to: SocketAddr,
    pub ask: Ask,
    /// Not before this time, in milliseconds.
    pub at: u64,
    /// The id of the question that is sent once more, if it is still open.
    pub again: Option<[u8; 4]>,
}

/// What a search knows, and what it is going to ask.
#[derive(Drop)]
pub struct Search {
    pub alloc: Global,
    /// When it began, in milliseconds.
    pub begun: Option<u64>,
    pub table: Table,
    pub due: Vec<Due>,
    pub nodes: Nodes,
    /// The trackers over UDP that were told of this peer, and not yet that it has stopped.
    pub announced: Vec<Given>,
    /// How many of the pages were told that this peer has stopped.
    pub stopped: usize,
    pub summary: Summary,
}

/// Returns the kind of a question.
pub fn kind_of(ask: Ask) -> Kind
    ensures { result ≡ kind_by ask }
{
    match ask {
        Ask::Connect => Kind::Connect,
        Ask::Announce(_) => Kind::Announce,
        Ask::Stop(_) => Kind::Stop,
        Ask::Nodes => Kind::Nodes,
    }
}

/// Returns what a tracker is told.
pub fn announce_of(ids: &Ids, event: Event, wanted: u32) -> Announce
    ensures { result ≡ announce_by ids.now event wanted }
{
    Announce {
        info_hash: ids.info_hash,
        peer_id: ids.peer_id,
        left: 1,
        event,
        wanted,
        port: 1,
    }
}

/// Returns the peers that a page's answer tells.
fn peers_of(alloc: Global, answer: &[u8]) -> Result<Vec<SocketAddr>, AllocError>
    ensures { IfOk result (λ peers. ArePagePeers answer.now peers.items) }
{
    match read_http_answer(answer) {
        Ok(HttpAnswer::Peers { v4, v6 }) => {
            let mut peers = addresses_in(alloc, Family::V4, v4)?;
            let others = addresses_in(alloc, Family::V6, v6)?;
            peers.extend_from_slice(&others)?;
            Ok(peers)
        }
        _ => Ok(Vec::new(alloc)),
    }
}

/// Adds the told nodes that a stranger may name.
fn add_nodes(nodes: &mut Nodes, told: &[Node], is_local: bool) -> Result<(), AllocError> {
    for node in told {
        if is_takeable(node.address, is_local) {
            nodes.add(node.address, Some(node.id))?;
        }
    }
    Ok(())
}

/// Returns how many of the told peers are passed over only because their address is private.
fn count_private(told: &[SocketAddr], is_local: bool) -> usize {
    let mut count: usize = 0;
    for address in told {
        if !is_local && is_takeable(*address, true) && !is_takeable(*address, false) {
            count = count.saturating_add(1);
        }
    }
    count
}

impl Summary {
    /// Counts a tracker that answered, and the told peers that are passed over.
    fn note_tracker(&mut self, private: usize) {
        self.trackers_answered = self.trackers_answered.saturating_add(1);
        self.private = self.private.saturating_add(private);
    }

    /// Counts a node that answered, and the told peers that are passed over.
    fn note_node(&mut self, private: usize) {
        self.nodes_answered = self.nodes_answered.saturating_add(1);
        self.private = self.private.saturating_add(private);
    }
}

impl Search {
    /// Returns the search that has asked nobody yet.
    pub fn new(alloc: Global, info_hash: [u8; 20], is_local: bool) -> Search
        ensures { course_of result.table ≡ start is_local }
    {
        Search {
            alloc,
            begun: None,
            table: Table::new(alloc, is_local),
            due: Vec::new(alloc),
            nodes: Nodes::new(alloc, info_hash),
            announced: Vec::new(alloc),
            stopped: 0,
            summary: Summary {
                trackers: 0,
                trackers_answered: 0,
                nodes: 0,
                nodes_answered: 0,
                datagrams: 0,
                private: 0,
            },
        }
    }

    /// Returns whether nobody is asked any more.
    pub fn is_ended(&self) -> bool
        ensures few { result ≡ false → length self.now.table.peers.items < 200 }
        ensures brief { result ≡ false → is_past_by (unwrap_or self.now.begun self.now.table.time) 15000 self.now.table.time ≡ false }
    {
        let begun = self.begun.unwrap_or(self.table.time);
        self.table.peers.len() >= PEERS || is_past(begun, SEARCH, self.table.time)
    }

    /// Returns whether a question is done: it was sent, and isn't open any more. So it isn't sent once more.
    pub fn is_done(&self, due: &Due) -> bool {
        match due.again {
            Some(id) => !self.table.is_open(due.to, id),
            None => false,
        }
    }

    /// Returns whether a question is still to be sent.
    fn waits(&self) -> bool {
        for due in &self.due {
            if !self.is_done(due) {
                return true;
            }
        }
        false
    }

    /// Returns whether no answer is awaited, and nobody is left to ask, if there are so many pages.
    pub fn is_over(&self, pages: usize) -> bool
        ensures { result ≡ false → length self.now.table.peers.items < 200 }
    {
        if self.is_ended() {
            return true;
        }
        self.table.asked.is_empty()
            && self.table.pages.is_empty()
            && !self.waits()
            && self.table.begun >= pages
            && self.nodes.next(!self.table.peers.is_empty()).is_none()
    }

    /// Takes what came, whose bytes stand at the buffer's front.
    ///
    /// # Errors
    /// `AllocError` when out of memory.
    pub fn take(&mut self, came: Came, buffer: &[u8]) -> Result<(), AllocError>
        requires { length_of came ≤ length buffer.now }
        ensures { OnOk result (IsTaken (course_of self.old.table) (mail_of came buffer.now) (course_of self.new.table)) }
    {
        match came {
            Came::Datagram { from, length } => self.hear(from, &buffer[..length]),
            Came::Page { page, length } => self.hear_page(page, &buffer[..length]),
            Came::Failed { page } => self.fail_page(page),
        }
    }

    /// Takes a datagram.
    fn hear(&mut self, from: SocketAddr, bytes: &[u8]) -> Result<(), AllocError>
        ensures { OnOk result (IsTaken (course_of self.old.table) (Heard from bytes.now) (course_of self.new.table)) }
    {
        let Some(answer) = read(self.alloc, from, bytes)? else {
            return Ok(());
        };
        if self.table.hear(from, &answer)? {
            self.follow(from, &answer)?;
        }
        Ok(())
    }

    /// Follows an answer that counts: a connection is announced over, and told nodes may be asked.
    fn follow(&mut self, from: SocketAddr, answer: &Answer) -> Result<(), AllocError>
        ensures { course_of self.new.table ≡ course_of self.old.table }
    {
        match &answer.said {
            Said::Connected(connection) => self.announce(from, *connection),
            Said::Announced(peers) => {
                let private = count_private(peers, self.table.is_local);
                self.summary.note_tracker(private);
                Ok(())
            }
            Said::Refused => {
                self.summary.note_tracker(0);
                Ok(())
            }
            Said::Told(told) => {
                let private = count_private(&told.peers, self.table.is_local);
                self.summary.note_node(private);
                self.nodes.answered(from, told.id);
                add_nodes(&mut self.nodes, &told.nodes, self.table.is_local)
            }
            Said::Failed => Ok(()),
        }
    }

    /// Has a tracker told of this peer, over the connection that it gave.
    fn announce(&mut self, to: SocketAddr, connection: [u8; 8]) -> Result<(), AllocError>
        ensures { course_of self.new.table ≡ course_of self.old.table }
    {
        let ask = Ask::Announce(connection);
        self.due.push(Due {
            to,
            ask,
            at: self.table.time,
            again: None,
        })?;
        Ok(())
    }

    /// Takes the answer of a page.
    fn hear_page(&mut self, page: usize, bytes: &[u8]) -> Result<(), AllocError>
        ensures { OnOk result (IsTaken (course_of self.old.table) (Answered page bytes.now) (course_of self.new.table)) }
    {
        let peers = peers_of(self.alloc, bytes)?;
        if self.table.hear_page(page, &peers)? {
            let private = count_private(&peers, self.table.is_local);
            self.summary.note_tracker(private);
        }
        Ok(())
    }

    /// Gives up a page.
    fn fail_page(&mut self, page: usize) -> Result<(), AllocError>
        ensures { OnOk result (IsTaken (course_of self.old.table) (Failed page) (course_of self.new.table)) }
    {
        self.table.hear_page(page, &[])?;
        Ok(())
    }
}
