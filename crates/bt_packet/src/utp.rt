//! Packets of uTP (BEP 29).
ghost use Rattle.std.specs.Prelude.{◌≡◌, get_or, length, option_map};
ghost use Rattle.std.specs.Option.{option_or};
ghost use Rattle.bt_packet.specs.Datagrams.{IsUtpTold};
ghost use Rattle.bt_packet.specs.Ip.{contents};
ghost use Rattle.bt_packet.specs.Utp.{after_header, chain, kind_of as kind_by_rule, later_reason, may_carry as may_carry_by_rule, packet_in};
ghost use Rattle.bt_packet.specs.Utp.{reason_in, reason_pair, said_by, utp, utp_in as utp_in_contents, utp_of as utp_of_frame, utp_packet};

use crate::address::{Address, Host};
use crate::bytes::{after, front};
use crate::ip::{Carried, carried_of};

/// The type of a packet of uTP.
#[derive(Clone, Copy, PartialEq, Eq, Debug)]
pub enum UtpKind {
    Data,
    Fin,
    State,
    Reset,
    Syn,
}

/// A packet of uTP.
#[derive(Clone, Copy)]
pub struct Utp<'a> {
    pub source: Address,
    pub target: Address,
    pub kind: UtpKind,
    /// The connection id.
    pub id: u16,
    /// The packet's number (`seq_nr`).
    pub number: u16,
    /// The number of the packet that it acknowledges (`ack_nr`).
    pub acked: u16,
    /// Why the sender closes, as libtorrent numbers the reasons. It is never 0.
    pub reason: Option<u16>,
    /// The payload, as far as it was captured.
    pub payload: &'a [u8],
    /// The payload's length on the wire.
    pub length: u64,
}

/// Returns the type that a header's first byte says, if the version is 1.
fn kind_of(first: u8) -> Option<UtpKind>
    ensures { result ≡ kind_by_rule first }
{
    if first % 16 != 1 {
        return None;
    }
    match first / 16 {
        0 => Some(UtpKind::Data),
        1 => Some(UtpKind::Fin),
        2 => Some(UtpKind::State),
        3 => Some(UtpKind::Reset),
        4 => Some(UtpKind::Syn),
        _ => None,
    }
}

/// Tells whether a packet of this type may have a payload of this length.
fn may_carry(kind: UtpKind, length: u64) -> bool
    ensures { result ≡ may_carry_by_rule kind length }
{
    match kind {
        UtpKind::Data => length > 0,
        UtpKind::Fin => true,
        UtpKind::State | UtpKind::Reset | UtpKind::Syn => length == 0,
    }
}

/// Returns the reason of a close that an extension says, or else the one before.
fn later(before: Option<u16>, kind: u8, content: &[u8]) -> Option<u16>
    ensures { result ≡ later_reason before (record { kind = kind; content = content.now }) }
{
    if kind != 3 {
        return before;
    }
    let [_, _, a, b] = content else {
        return before;
    };
    match u16::from_be_bytes([*a, *b]) {
        0 => before,
        reason => Some(reason),
    }
}

/// Returns the reason of a close that a chain of extensions says, and what follows the chain.
#[tactic(auto, using(crate::proofs::Chains::chain_ends, crate::proofs::Chains::chain_cut))]
fn after_chain(kind: u8, bytes: &[u8]) -> Option<(Option<u16>, &[u8])>
    ensures { option_map reason_pair result ≡ option_map said_by (chain (length bytes.now) kind bytes.now) }
{
    let (mut reason, mut kind, mut bytes) = (None, kind, bytes);
    while kind != 0 {
        let [next, size, rest @ ..] = bytes else {
            return None;
        };
        bytes = after(rest, usize::from(*size))?;
        reason = later(reason, kind, front(rest, u64::from(*size)));
        kind = *next;
    }
    Some((reason, bytes))
}

/// Returns the packet of a header, of which `size` bytes follow on the wire, and of them these were captured.
fn read_after<'a>(
    source: Address,
    target: Address,
    kind: UtpKind,
    header: &[u8; 20],
    size: u64,
    rest: &'a [u8],
) -> Option<Utp<'a>>
    ensures { option_map utp_packet result ≡ after_header source target kind header.now size rest.now }
{
    let (reason, payload) = after_chain(header[1], rest)?;
    let before = rest.len().saturating_sub(payload.len());
    let length = size.saturating_sub(before as u64);
    if !may_carry(kind, length) {
        return None;
    }
    Some(Utp {
        source,
        target,
        kind,
        id: u16::from_be_bytes([header[2], header[3]]),
        number: u16::from_be_bytes([header[16], header[17]]),
        acked: u16::from_be_bytes([header[18], header[19]]),
        reason,
        payload,
        length,
    })
}

/// Returns the packet that begins bytes, and is `size` bytes long on the wire.
fn read_packet(source: Address, target: Address, size: u64, bytes: &[u8]) -> Option<Utp<'_>>
    ensures { option_map utp_packet result ≡ packet_in source target size bytes.now }
{
    let (header, rest) = bytes.split_first_chunk::<20>()?;
    let kind = kind_of(header[0])?;
    read_after(source, target, kind, header, size.saturating_sub(20), rest)
}

/// Returns the packet of uTP in a datagram of UDP, which is `size` bytes long on the wire.
fn read_utp(source: Host, target: Host, size: u64, bytes: &[u8]) -> Option<Utp<'_>>
    ensures { option_map utp_packet result ≡ utp source target size bytes.now }
{
    let (header, rest) = bytes.split_first_chunk::<8>()?;
    let said = u64::from(u16::from_be_bytes([header[4], header[5]]));
    let length = said.min(size).saturating_sub(8);
    let source = Address {
        host: source,
        port: u16::from_be_bytes([header[0], header[1]]),
    };
    let target = Address {
        host: target,
        port: u16::from_be_bytes([header[2], header[3]]),
    };
    read_packet(source, target, length, front(rest, length))
}

/// Returns the packet of uTP that a packet of IP carries.
pub fn utp_in<'a>(carried: &Carried<'a>) -> Option<Utp<'a>>
    ensures { option_map utp_packet result ≡ utp_in_contents (contents carried.now) }
{
    if carried.protocol != 17 {
        return None;
    }
    read_utp(
        carried.source,
        carried.target,
        carried.length,
        carried.payload,
    )
}

/// Returns the packet of uTP that a frame carries, as `segment_of` does a segment.
pub fn utp_of(link: u32, bytes: &[u8], wire: u32) -> Option<Utp<'_>>
    ensures told { IsUtpTold link bytes.now wire (option_map utp_packet result) }
    ensures value { option_map utp_packet result ≡ utp_of_frame link bytes.now wire }
{
    utp_in(&carried_of(link, bytes, wire)?)
}
