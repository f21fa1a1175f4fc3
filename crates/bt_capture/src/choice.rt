//! Which connections are told.
ghost use Rattle.std.specs.Prelude.{◌≡◌};
ghost use Rattle.bt_capture.specs.Tellings.{has_end, is_chosen, is_end, is_port, is_refused_with, is_same_host};

use bt_packet::{Address, Host};
use bt_report::{Finding, Report};

/// An end of connections.
#[derive(Clone, Copy, PartialEq, Eq, Debug)]
pub struct Peer {
    pub host: Host,
    /// Its port, or `None` for each port.
    pub port: Option<u16>,
}

/// Which connections are told: those that meet each condition.
#[derive(Clone, Copy, PartialEq, Eq, Debug)]
pub struct Choice {
    /// Only connections of which a direction is refused under the lenient rules.
    pub refused: bool,
    /// Only connections with this end.
    pub peer: Option<Peer>,
}

impl Choice {
    /// All connections.
    pub const ALL: Choice = Choice {
        refused: false,
        peer: None,
    };
}

/// Tells whether a direction of a report with this finding is refused under the lenient rules.
pub(crate) fn is_refused(finding: Finding) -> bool
    ensures { result ≡ is_refused_with finding }
{
    match finding {
        Finding::NotBitTorrent => false,
        Finding::Accepted => false,
        Finding::Refused => true,
    }
}

/// Tells whether two hosts are the same.
fn is_same_host(one: Host, other: Host) -> bool
    ensures { result ≡ is_same_host one other }
{
    match (one, other) {
        (Host::V4(a), Host::V4(b)) => a == b,
        (Host::V6(a), Host::V6(b)) => a == b,
        (Host::V4(_), Host::V6(_)) => false,
        (Host::V6(_), Host::V4(_)) => false,
    }
}

/// Tells whether a port is the wanted one, if one is wanted.
fn is_port(wanted: Option<u16>, port: u16) -> bool
    ensures { result ≡ is_port wanted port }
{
    match wanted {
        Some(wanted) => wanted == port,
        None => true,
    }
}

/// Tells whether an end of a connection is the wanted one.
fn is_end(peer: Peer, end: Address) -> bool
    ensures { result ≡ is_end peer end }
{
    is_same_host(peer.host, end.host) && is_port(peer.port, end.port)
}

/// Tells whether the connection of a report has the wanted end, if one is wanted.
fn has_end(peer: Option<Peer>, report: &Report) -> bool
    ensures { result ≡ has_end peer report.now }
{
    match peer {
        Some(peer) => is_end(peer, report.a) || is_end(peer, report.b),
        None => true,
    }
}

/// Tells whether a report is told.
pub(crate) fn is_chosen(choice: Choice, report: &Report) -> bool
    ensures { result ≡ is_chosen choice report.now }
{
    (!choice.refused || is_refused(report.finding())) && has_end(choice.peer, report)
}
