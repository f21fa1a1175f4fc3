//! What a datagram answers.
ghost use Rattle.std.specs.Prelude.{◌≡◌, IfOk, option_map};
ghost use Rattle.bt_bencode.specs.Views.{trees_of};
ghost use Rattle.bt_dht.specs.Messages.{peers_in as peers_in_by};
ghost use Rattle.bt_seek.specs.Answers.{AreIn, AreInfos, AreNodes, AreOf, IsNodeRead, IsRead, family_of as family_of_by};
ghost use Rattle.bt_seek.specs.Courses.{fits as fits_by};
ghost use Rattle.bt_seek.specs.Replies.{IsBodySaid, IsMessageOf, IsSaidBy, reply_of, saying_of};

use crate::question::Kind;
use bt_address::{Family, read_addresses};
use bt_bencode::Value;
use bt_dht::{Body, Message, Node, message_in, next_peer, read_datagram, split_node};
use bt_tracker::{UdpAnswer, read_answer};
use std::alloc::{AllocError, Global};
use std::net::SocketAddr;

/// How many nodes of an answer are taken.
const NODES: usize = 16;

/// What a node answers.
#[derive(Drop)]
pub struct Told {
    pub id: [u8; 20],
    pub nodes: Vec<Node>,
    pub peers: Vec<SocketAddr>,
}

/// What an answer says.
#[derive(Drop)]
pub enum Said {
    /// A tracker gives a connection.
    Connected([u8; 8]),
    /// A tracker tells peers.
    Announced(Vec<SocketAddr>),
    /// A tracker refuses.
    Refused,
    /// A node tells nodes and peers.
    Told(Told),
    /// A node refuses.
    Failed,
}

/// An answer.
#[derive(Drop)]
pub struct Answer {
    /// The transaction id.
    pub id: [u8; 4],
    pub said: Said,
}

/// Returns whether a question of this kind has such an answer.
pub fn fits(kind: Kind, said: &Said) -> bool
    ensures { result ≡ fits_by kind (saying_of said.now) }
{
    match said {
        Said::Connected(_) => kind == Kind::Connect,
        Said::Announced(_) => kind == Kind::Announce,
        Said::Refused => kind != Kind::Nodes,
        Said::Told(_) | Said::Failed => kind == Kind::Nodes,
    }
}

/// Returns the family of an address.
fn family_of(address: SocketAddr) -> Family
    ensures { result ≡ family_of_by address }
{
    match address {
        SocketAddr::V4(_) => Family::V4,
        SocketAddr::V6(_) => Family::V6,
    }
}

/// Returns all addresses that bytes begin with.
pub fn addresses_in(
    alloc: Global,
    family: Family,
    bytes: &[u8],
) -> Result<Vec<SocketAddr>, AllocError>
    ensures { IfOk result (λ told. AreIn family bytes.now told.items) }
{
    let (addresses, _) = read_addresses(alloc, family, bytes, usize::MAX)?;
    Ok(addresses)
}

/// Returns what a tracker's answer says.
fn tracker_said(alloc: Global, from: SocketAddr, answer: UdpAnswer<'_>) -> Result<Said, AllocError>
    ensures { IfOk result (λ said. IsSaidBy from answer.entry (saying_of said)) }
{
    match answer {
        UdpAnswer::Connected(connection) => Ok(Said::Connected(connection)),
        UdpAnswer::Announced { peers, .. } => Ok(Said::Announced(addresses_in(
            alloc,
            family_of(from),
            peers,
        )?)),
        UdpAnswer::Error(_) => Ok(Said::Refused),
    }
}

/// Returns a tracker's answer.
fn tracker_answer(
    alloc: Global,
    from: SocketAddr,
    read: ([u8; 4], UdpAnswer<'_>),
) -> Result<Answer, AllocError>
    ensures id { IfOk result (λ answer. answer.id ≡ read.entry.0) }
    ensures said { IfOk result (λ answer. IsSaidBy from read.entry.1 (saying_of answer.said)) }
{
    let id = read.0;
    let said = tracker_said(alloc, from, read.1)?;
    Ok(Answer { id, said })
}

/// Returns the nodes that infos begin with, at most so many.
fn nodes_in(
    alloc: Global,
    family: Family,
    infos: &[u8],
    most: usize,
) -> Result<Vec<Node>, AllocError>
    ensures { IfOk result (λ nodes. AreInfos family most infos.now nodes.items) }
{
    let mut nodes = Vec::new(alloc);
    let mut rest = infos;
    for _ in 0..most {
        let Some((node, more)) = split_node(family, rest) else {
            break;
        };
        nodes.push(node)?;
        rest = more;
    }
    Ok(nodes)
}

/// Returns the nodes of an answer: those of IPv4, and then those of IPv6, until there are as many as are taken.
fn told_nodes(alloc: Global, infos: &[u8], infos6: &[u8]) -> Result<Vec<Node>, AllocError>
    ensures { IfOk result (λ nodes. AreNodes infos.now infos6.now nodes.items) }
{
    let mut nodes = nodes_in(alloc, Family::V4, infos, NODES)?;
    let others = nodes_in(alloc, Family::V6, infos6, NODES - nodes.len())?;
    nodes.extend_from_slice(&others)?;
    Ok(nodes)
}

/// Returns the peers among values.
fn peers_in(alloc: Global, values: &[Value]) -> Result<Vec<SocketAddr>, AllocError>
    ensures { IfOk result (λ told. AreOf (peers_in_by (trees_of values.now)) told.items) }
{
    let mut peers = Vec::new(alloc);
    let mut rest = values;
    for _ in 0..values.len() {
        let Some((peer, more)) = next_peer(rest) else {
            break;
        };
        peers.push(peer)?;
        rest = more;
    }
    Ok(peers)
}

/// Returns what a node's message says; `None` if it is no answer and no error.
fn node_said(alloc: Global, body: &Body<'_>) -> Result<Option<Said>, AllocError>
    ensures { IfOk result (λ said. IsBodySaid body.now (option_map saying_of said)) }
{
    match body {
        Body::Answer(answer) => {
            let id = answer.id;
            let nodes = told_nodes(alloc, answer.nodes, answer.nodes6)?;
            let peers = peers_in(alloc, answer.values)?;
            Ok(Some(Said::Told(Told { id, nodes, peers })))
        }
        Body::Error(_) => Ok(Some(Said::Failed)),
        Body::Other => Ok(None),
    }
}

/// Returns the answer that a node's message is.
fn node_answer(alloc: Global, message: &Message<'_>) -> Result<Option<Answer>, AllocError>
    ensures { IfOk result (λ answer. IsMessageOf message.now (option_map reply_of answer)) }
{
    let Ok(id) = <[u8; 4]>::try_from(message.transaction) else {
        return Ok(None);
    };
    match node_said(alloc, &message.body)? {
        Some(said) => Ok(Some(Answer { id, said })),
        None => Ok(None),
    }
}

/// Returns the answer that a datagram is as a node's message.
fn read_node(alloc: Global, bytes: &[u8]) -> Result<Option<Answer>, AllocError>
    ensures { IfOk result (λ answer. IsNodeRead bytes.now (option_map reply_of answer)) }
{
    let Some(value) = read_datagram(alloc, bytes)? else {
        return Ok(None);
    };
    match message_in(&value) {
        Some(message) => node_answer(alloc, &message),
        None => Ok(None),
    }
}

/// Returns the answer that a datagram from an address is; `None` if it is none.
///
/// # Errors
/// `AllocError` when out of memory.
pub fn read(alloc: Global, from: SocketAddr, bytes: &[u8]) -> Result<Option<Answer>, AllocError>
    ensures { IfOk result (λ answer. IsRead from bytes.now (option_map reply_of answer)) }
{
    if let Some(read) = read_answer(bytes) {
        return Ok(Some(tracker_answer(alloc, from, read)?));
    }
    read_node(alloc, bytes)
}
