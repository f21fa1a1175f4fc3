//! Nodes of the DHT (BEP 5): the question for the peers of a torrent, what a node answers, and which node is nearer.
//!
//! Nothing is sent here, and nothing is stored: the nodes and peers of an answer are taken one at a time.
#![tactic(auto)]

mod answer;
mod datagram;
mod near;
mod node;
mod question;

pub use answer::{Answer, Body, Failure, Message, message_in};
pub use datagram::read_datagram;
pub use near::{distance, nearness};
pub use node::{Node, next_peer, split_node};
pub use question::get_peers;
