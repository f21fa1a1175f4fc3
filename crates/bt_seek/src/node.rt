//! The nodes of the DHT that are known, and which of them is asked next.
ghost use Rattle.std.specs.Prelude.{◌≡◌, ◌<◌, IfSome, Some, true};
ghost use Rattle.bt_seek.specs.Nodes.{IsBest, IsNext, better_of, is_nearer as is_nearer_by, nearer_answers};

use crate::address::is_same;
use bt_dht::nearness;
use std::alloc::{AllocError, Global};
use std::cmp::Ordering;
use std::net::SocketAddr;

/// How many nearer nodes have to have answered for a node not to be asked.
const CLOSE: usize = 8;

/// A node that may be asked.
#[derive(Clone, Copy)]
pub struct Known {
    pub address: SocketAddr,
    /// Its id; `None` if the user named it.
    pub id: Option<[u8; 20]>,
    pub is_asked: bool,
    pub has_answered: bool,
}

/// The nodes that are known.
#[derive(Drop)]
pub struct Nodes {
    info_hash: [u8; 20],
    known: Vec<Known>,
}

/// Returns whether the first of two nodes is nearer. One with no id is nearer than all that have one.
fn is_nearer(info_hash: [u8; 20], a: &Known, b: &Known) -> bool
    ensures { result ≡ is_nearer_by info_hash a.now b.now }
{
    match (a.id, b.id) {
        (None, Some(_)) => true,
        (Some(a), Some(b)) => nearness(info_hash, a, b) == Ordering::Less,
        _ => false,
    }
}

/// Returns the better of the best node so far and another: the nearer one that wasn't asked.
fn better(info_hash: [u8; 20], best: Option<Known>, node: &Known) -> Option<Known>
    ensures { result ≡ better_of info_hash best node.now }
{
    match best {
        None => {
            if node.is_asked {
                return None;
            }
            Some(*node)
        }
        Some(other) => {
            if !node.is_asked && is_nearer(info_hash, node, &other) {
                return Some(*node);
            }
            Some(other)
        }
    }
}

impl Nodes {
    /// Returns the list that has no node yet.
    pub fn new(alloc: Global, info_hash: [u8; 20]) -> Nodes {
        Nodes {
            info_hash,
            known: Vec::new(alloc),
        }
    }

    /// Adds a node, unless one of this address is known.
    ///
    /// # Errors
    /// `AllocError` when out of memory.
    pub fn add(&mut self, address: SocketAddr, id: Option<[u8; 20]>) -> Result<(), AllocError> {
        if self.known.iter().any(|node| is_same(node.address, address)) {
            return Ok(());
        }
        self.known.push(Known {
            address,
            id,
            is_asked: false,
            has_answered: false,
        })?;
        Ok(())
    }

    /// Notes that the node at an address has answered, with its id.
    pub fn answered(&mut self, address: SocketAddr, id: [u8; 20]) {
        for node in &mut self.known {
            if is_same(node.address, address) {
                node.id = Some(id);
                node.has_answered = true;
            }
        }
    }

    /// Returns the nearest node that wasn't asked.
    fn nearest(&self) -> Option<Known>
        ensures { IsBest self.now.info_hash self.now.known.items result }
    {
        let mut best: Option<Known> = None;
        for node in &self.known {
            best = better(self.info_hash, best, node);
        }
        best
    }

    /// Returns how many nodes that have answered are nearer than a node.
    fn nearer(&self, than: &Known) -> usize
        ensures { result ≡ nearer_answers self.now.info_hash self.now.known.items than.now }
    {
        let mut count: usize = 0;
        for node in &self.known {
            if node.has_answered && is_nearer(self.info_hash, node, than) {
                count += 1;
            }
        }
        count
    }

    /// Returns the node that is asked next.
    ///
    /// Once there is a peer, a node isn't asked if eight nearer ones have answered.
    pub fn next(&self, has_peer: bool) -> Option<Known>
        ensures next { IfSome result (λ n. IsBest self.now.info_hash self.now.known.items (Some n)) }
        ensures close { has_peer ≡ true → IfSome result (λ n. nearer_answers self.now.info_hash self.now.known.items n < 8) }
    {
        let node = self.nearest()?;
        if has_peer && self.nearer(&node) >= CLOSE {
            return None;
        }
        Some(node)
    }

    /// Returns the address of the node that is asked next, and notes that it is asked.
    pub fn take_next(&mut self, has_peer: bool) -> Option<SocketAddr>
        ensures { IfSome result (λ a. IsNext self.old.info_hash self.old.known.items a) }
    {
        let next = self.next(has_peer)?;
        for node in &mut self.known {
            if is_same(node.address, next.address) {
                node.is_asked = true;
            }
        }
        Some(next.address)
    }
}
