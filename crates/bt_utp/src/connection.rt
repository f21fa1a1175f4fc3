//! A connection of uTP, and what is told of its packets.
ghost use Rattle.std.specs.Prelude.{◌≡◌};
ghost use Rattle.bt_packet.specs.Utp.{utp_packet};
ghost use Rattle.bt_utp.specs.Channels.{later};
ghost use Rattle.bt_utp.specs.Taken.{link_kind, IsCame};

use bt_order::{Came, Kind, Turned};
use bt_packet::{Address, Utp, UtpKind};

/// A connection: the ends, the id and the number of the SYN that began it.
#[derive(Clone, Copy, Debug, PartialEq, Eq)]
pub struct Connection {
    /// How many connections began before it.
    pub number: u64,
    /// The source of the SYN.
    pub initiator: Address,
    /// The target of the SYN.
    pub acceptor: Address,
    /// The SYN's connection id: the acceptor sends with it, and the initiator with the next one.
    pub id: u16,
    /// The SYN's number (`seq_nr`).
    pub syn: u16,
}

/// A packet's connection, and the segment that it was turned into.
#[derive(Clone, Copy, Debug, PartialEq, Eq)]
pub struct Told {
    pub connection: Connection,
    /// Whether the initiator sent the packet.
    pub is_initiator: bool,
    /// The segment. `Links::bytes` returns its payload.
    pub turned: Turned,
}

/// Returns the type of a packet as `Link` takes it.
pub fn link_kind(kind: UtpKind) -> Kind
    ensures { result ≡ link_kind kind }
{
    match kind {
        UtpKind::Data => Kind::Data,
        UtpKind::Fin => Kind::Fin,
        UtpKind::State => Kind::State,
        UtpKind::Reset => Kind::Reset,
        UtpKind::Syn => Kind::Syn,
    }
}

/// Returns a packet as `Link` takes it.
pub fn came_of<'a>(datagram: &Utp<'a>, is_initiator: bool) -> Came<'a>
    ensures { IsCame (utp_packet datagram.now) is_initiator result }
{
    Came {
        is_initiator,
        kind: link_kind(datagram.kind),
        number: datagram.number,
        acked: datagram.acked,
        bytes: datagram.payload,
        size: datagram.length as usize,
    }
}

/// Returns the later one of two connections.
pub fn later(one: Option<Connection>, other: Option<Connection>) -> Option<Connection>
    ensures { result ≡ later one other }
{
    match (one, other) {
        (Some(one), Some(other)) if one.number < other.number => Some(other),
        (None, other) => other,
        (one, _) => one,
    }
}
