//! Questions by datagram.
use std::net::SocketAddr;

/// What a datagram asks for.
#[derive(Clone, Copy, PartialEq, Eq, Debug)]
pub enum Kind {
    /// A connection, from a tracker (BEP 15, "Connect").
    Connect,
    /// Peers, from a tracker (BEP 15, "Announce").
    Announce,
    /// Nothing: it tells a tracker that this peer has stopped (BEP 15, "Announce").
    Stop,
    /// Peers or nearer nodes, from a node of the DHT (BEP 5, "get_peers").
    Nodes,
}

/// A question by datagram.
#[derive(Clone, Copy, PartialEq, Eq, Debug)]
pub struct Question {
    /// The transaction id, which was drawn for this question. Its answer has it too.
    pub id: [u8; 4],
    pub kind: Kind,
}

/// A question that was sent and whose answer may still come.
#[derive(Clone, Copy)]
pub struct Open {
    pub to: SocketAddr,
    pub question: Question,
    /// When it was sent, in milliseconds.
    pub since: u64,
}

/// A connection that a tracker gave (BEP 15, "Connect").
#[derive(Clone, Copy)]
pub struct Given {
    pub to: SocketAddr,
    pub connection: [u8; 8],
}

/// A question to a page whose answer may still come.
#[derive(Clone, Copy)]
pub struct OpenPage {
    pub page: usize,
    /// When it was asked, in milliseconds.
    pub since: u64,
}
