//! What is open, what was sent and what was found.
ghost use Rattle.std.specs.Prelude.{◌≡◌, ◌==◌, ◌<◌, ◌^◌, OnOk, count_by, filter, not};
ghost use Rattle.bt_seek.specs.Addresses.{found_in, has as has_by, is_new_peer as is_new_peer_by, is_same as is_same_by};
ghost use Rattle.bt_seek.specs.Addresses.{is_same_ip as is_same_ip_by, with_peer};
ghost use Rattle.bt_seek.specs.Courses.{at_time, answered, closed, counts, heard, is_asked, is_given as is_given_by, is_page_open};
ghost use Rattle.bt_seek.specs.Courses.{is_past as is_past_by, may_send as may_send_by, with_given, with_node, with_nodes};
ghost use Rattle.bt_seek.specs.Courses.{most_to as most_to_by, nodes_told, page_closed, peers_told, start, with_asked, with_sent};
ghost use Rattle.bt_seek.specs.Replies.{saying_of};
ghost use Rattle.bt_seek.specs.Tables.{SameButPeers, course_of};

use crate::address::{is_same, is_same_ip};
use crate::question::{Given, Kind, Open, OpenPage, Question};
use crate::said::{Answer, Said, fits};
use bt_address::is_takeable;
use bt_dht::Node;
use std::alloc::{AllocError, Global};
use std::net::SocketAddr;

/// How many datagrams are sent at most.
pub const DATAGRAMS: usize = 256;

/// How many peers are taken at most.
pub const PEERS: usize = 200;

/// How many ports of an IP are taken at most.
const PORTS: usize = 4;

/// How long an answer to a datagram may take, in milliseconds.
const DATAGRAM_PATIENCE: u64 = 3000;

/// How long a page's answer may take, in milliseconds.
const PAGE_PATIENCE: u64 = 10_000;

/// The open questions, the addresses that were sent to, and the peers.
#[derive(Drop)]
pub struct Table {
    pub is_local: bool,
    /// The time at the last look at the clock.
    pub time: u64,
    pub asked: Vec<Open>,
    pub pages: Vec<OpenPage>,
    /// How many pages were asked.
    pub begun: usize,
    pub sent: Vec<SocketAddr>,
    /// The connections that trackers gave.
    pub given: Vec<Given>,
    /// The nodes that answers told and that a stranger may name.
    pub nodes: Vec<SocketAddr>,
    pub peers: Vec<SocketAddr>,
}

/// Returns whether so long has passed.
pub fn is_past(since: u64, patience: u64, now: u64) -> bool
    ensures { result ≡ is_past_by since patience now }
{
    now.saturating_sub(since) >= patience
}

/// Returns whether an answer is one to this question.
fn answers(open: &Open, from: SocketAddr, answer: &Answer) -> bool
    ensures { result ≡ is_asked from answer.now.id (saying_of answer.now.said) open.now }
{
    is_same(open.to, from)
        && open.question.id == answer.id
        && fits(open.question.kind, &answer.said)
}

/// Returns how many datagrams may go to an address.
fn most_to(kind: Kind) -> usize
    ensures { result ≡ most_to_by kind }
{
    match kind {
        Kind::Nodes => 2,
        _ => 5,
    }
}

/// Returns how many of the addresses are this one.
fn count_same(addresses: &[SocketAddr], wanted: SocketAddr) -> usize
    ensures { result ≡ count_by (λ a. is_same_by wanted a) addresses.now }
{
    let mut count: usize = 0;
    for address in addresses {
        if is_same(wanted, *address) {
            count += 1;
        }
    }
    count
}

/// Returns how many of the addresses have this IP.
fn count_ip(addresses: &[SocketAddr], wanted: SocketAddr) -> usize
    ensures { result ≡ count_by (λ a. is_same_ip_by wanted a) addresses.now }
{
    let mut count: usize = 0;
    for address in addresses {
        if is_same_ip(wanted, *address) {
            count += 1;
        }
    }
    count
}

/// Returns whether one of the addresses is this one.
pub fn has(addresses: &[SocketAddr], wanted: SocketAddr) -> bool
    ensures { result ≡ has_by addresses.now wanted }
{
    addresses.iter().any(|address| is_same(wanted, *address))
}

/// Gives up the questions that are open too long.
fn keep_fresh(asked: &mut Vec<Open>, now: u64)
    ensures { asked.new.items ≡ filter (λ o. not (is_past_by o.since 3000 now)) asked.old.items }
{
    asked.retain(|open| !is_past(open.since, DATAGRAM_PATIENCE, now));
}

/// Gives up the pages that are open too long.
fn keep_fresh_pages(pages: &mut Vec<OpenPage>, now: u64)
    ensures { pages.new.items ≡ filter (λ o. not (is_past_by o.since 10000 now)) pages.old.items }
{
    pages.retain(|open| !is_past(open.since, PAGE_PATIENCE, now));
}

/// Closes the questions to an address.
fn keep_others(asked: &mut Vec<Open>, from: SocketAddr)
    ensures { asked.new.items ≡ filter (λ o. not (is_same_by o.to from)) asked.old.items }
{
    asked.retain(|open| !is_same(open.to, from));
}

/// Closes the question to a page.
fn keep_other_pages(pages: &mut Vec<OpenPage>, page: usize)
    ensures { pages.new.items ≡ filter (λ o. not (o.page == page)) pages.old.items }
{
    pages.retain(|open| !(open.page == page));
}

/// Returns whether a told address becomes a peer.
fn is_new_peer(is_local: bool, peers: &[SocketAddr], address: SocketAddr) -> bool
    ensures { result ≡ is_new_peer_by is_local peers.now address }
{
    is_takeable(address, is_local)
        && !has(peers, address)
        && peers.len() < PEERS
        && count_ip(peers, address) < PORTS
}

/// Adds a told node if a stranger may name it.
fn add_node(nodes: &mut Vec<SocketAddr>, is_local: bool, node: Node) -> Result<(), AllocError>
    ensures { OnOk result (nodes.new.items ≡ with_node is_local nodes.old.items node) }
{
    if is_takeable(node.address, is_local) {
        nodes.push(node.address)?;
    }
    Ok(())
}

/// Adds the told nodes that a stranger may name.
fn add_nodes(nodes: &mut Vec<SocketAddr>, is_local: bool, told: &[Node]) -> Result<(), AllocError>
    ensures { OnOk result (nodes.new.items ≡ with_nodes is_local nodes.old.items told.now) }
{
    for node in told {
        add_node(nodes, is_local, *node)?;
    }
    Ok(())
}

/// Adds the connection that an answer gives.
fn add_given(given: &mut Vec<Given>, to: SocketAddr, said: &Said) -> Result<(), AllocError>
    ensures { OnOk result (given.new.items ≡ with_given to given.old.items (saying_of said.now)) }
{
    if let Said::Connected(connection) = said {
        let connection = *connection;
        given.push(Given { to, connection })?;
    }
    Ok(())
}

/// Returns the nodes that an answer tells.
fn nodes_of(said: &Said) -> &[Node]
    ensures { result.now ≡ nodes_told (saying_of said.now) }
{
    match said {
        Said::Told(told) => &told.nodes,
        _ => &[],
    }
}

/// Returns the peers that an answer tells.
fn peers_of(said: &Said) -> &[SocketAddr]
    ensures { result.now ≡ peers_told (saying_of said.now) }
{
    match said {
        Said::Announced(peers) => peers,
        Said::Told(told) => &told.peers,
        _ => &[],
    }
}

impl Table {
    /// Returns the table of a search that begins.
    pub fn new(alloc: Global, is_local: bool) -> Table
        ensures { course_of result ≡ start is_local }
    {
        Table {
            is_local,
            time: 0,
            asked: Vec::new(alloc),
            pages: Vec::new(alloc),
            begun: 0,
            sent: Vec::new(alloc),
            given: Vec::new(alloc),
            nodes: Vec::new(alloc),
            peers: Vec::new(alloc),
        }
    }

    /// Takes the time, and gives up what is open too long.
    pub fn tick(&mut self, now: u64)
        ensures { course_of self.new ≡ at_time now (course_of self.old) }
    {
        self.time = now;
        keep_fresh(&mut self.asked, now);
        keep_fresh_pages(&mut self.pages, now);
    }

    /// Returns whether a question of this kind may be sent to an address.
    pub fn may_send(&self, to: SocketAddr, kind: Kind) -> bool
        ensures { result ≡ may_send_by to kind (course_of self.now) }
    {
        self.sent.len() < DATAGRAMS && count_same(&self.sent, to) < most_to(kind)
    }

    /// Notes that a question was sent.
    ///
    /// # Errors
    /// `AllocError` when out of memory.
    pub fn sent(&mut self, to: SocketAddr, question: Question) -> Result<(), AllocError>
        ensures { OnOk result (course_of self.new ≡ with_sent to question (course_of self.old)) }
    {
        self.asked.push(Open {
            to,
            question,
            since: self.time,
        })?;
        self.sent.push(to)?;
        Ok(())
    }

    /// Returns whether a question to this address with this id is open.
    pub fn is_open(&self, to: SocketAddr, id: [u8; 4]) -> bool {
        self.asked
            .iter()
            .any(|open| is_same(open.to, to) && open.question.id == id)
    }

    /// Returns how many questions to nodes are open.
    pub fn open_nodes(&self) -> usize {
        let mut count: usize = 0;
        for open in &self.asked {
            if open.question.kind == Kind::Nodes {
                count = count.saturating_add(1);
            }
        }
        count
    }

    /// Returns whether a tracker gave this connection.
    pub fn is_given(&self, to: SocketAddr, connection: [u8; 8]) -> bool
        ensures { result ≡ is_given_by self.now.given.items to connection }
    {
        self.given.iter().any(|given| is_same(to, given.to) && given.connection == connection)
    }

    /// Returns whether an answer counts: it is one to an open question.
    fn counts(&self, from: SocketAddr, answer: &Answer) -> bool
        ensures { result ≡ counts from answer.now.id (saying_of answer.now.said) (course_of self.now) }
    {
        self.asked.iter().any(|open| answers(open, from, answer))
    }

    /// Closes all questions to an address, and takes what its answer says.
    fn close(&mut self, from: SocketAddr, said: &Said) -> Result<(), AllocError>
        ensures { OnOk result (course_of self.new ≡ closed from (saying_of said.now) (course_of self.old)) }
    {
        keep_others(&mut self.asked, from);
        add_given(&mut self.given, from, said)?;
        add_nodes(&mut self.nodes, self.is_local, nodes_of(said))?;
        self.add_peers(peers_of(said))
    }

    /// Adds a told address if it becomes a peer.
    fn add_peer(&mut self, address: SocketAddr) -> Result<(), AllocError>
        ensures peers { OnOk result (self.new.peers.items ≡ with_peer self.old.is_local self.old.peers.items address) }
        ensures others { SameButPeers self.old self.new }
    {
        if is_new_peer(self.is_local, &self.peers, address) {
            self.peers.push(address)?;
        }
        Ok(())
    }

    /// Adds the told addresses that become peers.
    fn add_peers(&mut self, told: &[SocketAddr]) -> Result<(), AllocError>
        ensures peers { OnOk result (self.new.peers.items ≡ found_in self.old.is_local self.old.peers.items told.now) }
        ensures others { SameButPeers self.old self.new }
    {
        for address in told {
            self.add_peer(*address)?;
        }
        Ok(())
    }

    /// Takes an answer; returns whether it counts.
    ///
    /// # Errors
    /// `AllocError` when out of memory.
    pub fn hear(&mut self, from: SocketAddr, answer: &Answer) -> Result<bool, AllocError>
        ensures { OnOk result (course_of self.new ≡ heard from answer.now.id (saying_of answer.now.said) (course_of self.old)) }
    {
        if !self.counts(from, answer) {
            return Ok(false);
        }
        self.close(from, &answer.said)?;
        Ok(true)
    }

    /// Notes that the next page was asked.
    ///
    /// # Errors
    /// `AllocError` when out of memory.
    pub fn ask_page(&mut self) -> Result<(), AllocError>
        requires { self.old.begun < 2 ^ 63 }
        ensures { OnOk result (course_of self.new ≡ with_asked self.old.begun (course_of self.old)) }
    {
        self.pages.push(OpenPage {
            page: self.begun,
            since: self.time,
        })?;
        self.begun += 1;
        Ok(())
    }

    /// Returns whether a page was asked and its answer is awaited.
    fn is_page_open(&self, page: usize) -> bool
        ensures { result ≡ is_page_open page (course_of self.now) }
    {
        self.pages.iter().any(|open| open.page == page)
    }

    /// Closes the question to a page, and adds the told addresses that become peers.
    fn close_page(&mut self, page: usize, told: &[SocketAddr]) -> Result<(), AllocError>
        ensures { OnOk result (course_of self.new ≡ page_closed page told.now (course_of self.old)) }
    {
        keep_other_pages(&mut self.pages, page);
        self.add_peers(told)
    }

    /// Takes the peers of a page's answer, none if it has failed; returns whether the answer counts.
    ///
    /// # Errors
    /// `AllocError` when out of memory.
    pub fn hear_page(&mut self, page: usize, told: &[SocketAddr]) -> Result<bool, AllocError>
        ensures { OnOk result (course_of self.new ≡ answered page told.now (course_of self.old)) }
    {
        if !self.is_page_open(page) {
            return Ok(false);
        }
        self.close_page(page, told)?;
        Ok(true)
    }
}
