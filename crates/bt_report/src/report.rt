//! The facts of a report on a connection.
use bt_packet::Address;
use bt_remarks::Side;
use bt_rows::{Last, Means, RefusedMessage, Remarked};
use bt_tcp::Gaps;
use bt_text::ended::Ended;
use bt_wire::Own;

/// What a sender calls itself.
#[derive(Clone, Copy)]
pub enum Title {
    /// The peer id of its handshake.
    PeerId([u8; 20]),
    /// The client's name of its extended handshake (BEP 10, `v`): the first bytes of the array, as many as the number says.
    Client([u8; 60], usize),
}

/// A direction with a whole handshake.
#[derive(Clone, Copy)]
pub struct Judged {
    pub title: Title,
    /// The verdict under the lenient rules.
    pub free: Ended,
    /// The verdict under the strict rules.
    pub bep: Ended,
    /// The message that the lenient rules refuse, if it is there.
    pub free_message: Option<RefusedMessage>,
    /// The message that the strict rules refuse, if it is there.
    pub bep_message: Option<RefusedMessage>,
    /// The receiver that the verdicts are for.
    pub receiver: Own,
    /// Whether the receiver is a guess: its handshake isn't there.
    pub is_guessed: bool,
}

/// Who sends a direction.
#[derive(Clone, Copy)]
pub enum Sender {
    /// It sent this many bytes, and no whole handshake.
    Unknown(u64),
    Known(Judged),
}

/// One direction of a connection.
#[derive(Clone, Copy)]
pub struct Direction {
    pub sender: Sender,
    /// How many bytes of a key exchange come before the handshake.
    pub exchange: u64,
    /// How many bytes came again with another value.
    pub conflicts: u64,
    /// How many segments were passed over, since they weren't in the window of the other side (RFC 9293 3.4).
    pub strays: u64,
    /// The gaps; the first one's place is an offset in the stream.
    pub gaps: Gaps,
    /// Whether the first gap is final: a segment ended more than 15 MiB past it, so its bytes don't count, even if they come.
    pub is_final: bool,
}

/// What a side had sent before the connection was closed.
#[derive(Clone, Copy)]
pub struct Before {
    pub sent: u64,
    pub last: Last,
}

/// How a connection was closed.
#[derive(Clone, Copy)]
pub struct Closed {
    /// The side that closed first.
    pub first: Side,
    pub by: Means,
    /// Nanoseconds after the capture's first packet.
    pub at: u64,
    /// What A had sent, if it has a whole handshake.
    pub a: Option<Before>,
    /// What B had sent, if it has a whole handshake.
    pub b: Option<Before>,
}

/// Why nothing more is told of a connection that hasn't ended.
#[derive(Clone, Copy)]
pub enum Left {
    /// The capture ended, or the connection did.
    Open,
    /// It wasn't read further, since there were too many connections at once.
    Unread,
    /// Another connection began between the same ends.
    Replaced,
}

/// How a connection ended.
#[derive(Clone, Copy)]
pub enum End {
    /// This side closed first.
    By(Side),
    /// This side closed first, and what came then wasn't read to its end.
    Half(Side),
    /// No side closed.
    Not(Left),
}

/// What is told of a BitTorrent connection.
#[derive(Clone, Copy)]
pub struct Told {
    pub a: Direction,
    pub b: Direction,
    /// How it was closed, if it was.
    pub closed: Option<Closed>,
    /// How it was left.
    pub left: Left,
    pub remarked_a: Remarked,
    pub remarked_b: Remarked,
}

/// What is known of a connection.
#[derive(Clone, Copy)]
pub enum Body {
    /// No side began a handshake.
    NotBitTorrent,
    Told(Told),
}

/// A report on a connection.
///
/// Its text is lines. `ReportObject` writes it as a JSON object.
#[derive(Clone, Copy)]
pub struct Report {
    /// The connection's number, counted from 0.
    pub number: u64,
    /// The end that opened the connection, or sent the first captured packet.
    pub a: Address,
    pub b: Address,
    pub body: Body,
}
