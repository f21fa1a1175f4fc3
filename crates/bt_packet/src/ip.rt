//! Packets of IP (RFC 791, RFC 8200).
ghost use Rattle.std.specs.Prelude.{◌≡◌, ◌≤◌, ◌^◌, ◌<◌, OnSome, length, option_map};
ghost use Rattle.bt_packet.specs.Ip.{contents, ip as ip_of, carried, ipv4 as ipv4_of, ipv4_payload as ipv4_payload_of};
ghost use Rattle.bt_packet.specs.Ip.{content_size as content_size_of, ipv6 as ipv6_of, is_atomic as is_atomic_of, is_extension as is_extension_of};
ghost use Rattle.bt_packet.specs.Ip.{is_fragment as is_fragment_of, outer as outer_of, past as past_of, total_of, upper as upper_of, pair_of};
ghost use Rattle.bt_packet.specs.Segments.{AreContentsTold};

use crate::address::Host;
use crate::bytes::{after, front};
use crate::link::packet_of;
use crate::tunnel::{innermost, is_wrapped};

/// What a packet of IP carries.
#[derive(Clone, Copy)]
pub struct Carried<'a> {
    pub protocol: u8,
    pub source: Host,
    pub target: Host,
    /// As far as it was captured.
    pub payload: &'a [u8],
    /// The payload's length on the wire.
    pub length: u64,
}

/// Returns a length that a header says, or that of the wire if it says 0.
fn total(said: u16, wire: u64) -> u64
    ensures { result ≡ total_of said wire }
{
    if said == 0 { wire } else { u64::from(said) }
}

pub fn is_fragment(flags: u16) -> bool
    ensures { result ≡ is_fragment_of flags }
{
    flags & 0x3fff > 0
}

/// Returns the payload after the first 20 bytes of a header.
#[tactic(auto, unfolding(crate::specs::Ip::ipv4_payload))]
fn ipv4_payload(rest: &[u8], header: u64, total: u64) -> Option<&[u8]>
    requires { header < 2 ^ 32 }
    ensures payload { option_map (λ b. b.now) result ≡ ipv4_payload_of header total rest.now }
    ensures fits { OnSome result (header ≤ total) }
{
    if header < 20 || total < header {
        return None;
    }
    let rest = after(rest, header as usize - 20)?;
    Some(front(rest, total - header))
}

/// Returns what a packet of version 4 carries, which is `wire` bytes long on the wire.
#[tactic(auto, using(crate::proofs::Packets::ipv4_short))]
fn ipv4(packet: &[u8], wire: u64) -> Option<Carried<'_>>
    ensures { option_map contents result ≡ ipv4_of wire packet.now }
{
    let [first, _, t0, t1, _, _, f0, f1, _, kind, _, _, rest @ ..] = packet else {
        return None;
    };
    let (source, rest) = rest.split_first_chunk::<4>()?;
    let (target, rest) = rest.split_first_chunk::<4>()?;
    if is_fragment(u16::from_be_bytes([*f0, *f1])) {
        return None;
    }
    let header = 4 * u64::from(*first % 16);
    let total = total(u16::from_be_bytes([*t0, *t1]), wire);
    let payload = ipv4_payload(rest, header, total)?;
    Some(Carried {
        protocol: *kind,
        source: Host::V4(*source),
        target: Host::V4(*target),
        payload,
        length: total - header,
    })
}

fn is_extension(protocol: u8) -> bool
    ensures { result ≡ is_extension_of protocol }
{
    matches!(protocol, 0 | 43 | 44 | 51 | 60)
}

/// Returns the size of an extension header without its first two bytes.
fn content_size(protocol: u8, words: u8) -> usize
    ensures { result ≡ content_size_of protocol words }
{
    match protocol {
        44 => 6,
        51 => 4 * usize::from(words) + 6,
        _ => 8 * usize::from(words) + 6,
    }
}

/// Tells whether a fragment header, after its first two bytes, says that the packet is whole.
#[tactic(auto, using(crate::proofs::Extensions::atomic_cut, crate::proofs::Extensions::atomic_is))]
pub fn is_atomic(content: &[u8]) -> bool
    ensures { result ≡ is_atomic_of content.now }
{
    let [a, b, ..] = content else {
        return false;
    };
    u16::from_be_bytes([*a, *b]) & 0xfff9 == 0
}

/// Returns what follows an extension header, after whose first two bytes `rest` comes.
fn past(protocol: u8, words: u8, rest: &[u8]) -> Option<&[u8]>
    ensures { option_map (λ b. b.now) result ≡ past_of protocol words rest.now }
{
    if protocol == 44 && !is_atomic(rest) {
        return None;
    }
    after(rest, content_size(protocol, words))
}

/// Returns the first protocol that is no extension, and what follows the extension headers.
#[tactic(auto, using(crate::proofs::Extensions::upper_above, crate::proofs::Extensions::upper_cut))]
fn upper(protocol: u8, bytes: &[u8]) -> Option<(u8, &[u8])>
    ensures { option_map pair_of result ≡ upper_of (length bytes.now) protocol bytes.now }
{
    let (mut protocol, mut bytes) = (protocol, bytes);
    while is_extension(protocol) {
        let [next, words, rest @ ..] = bytes else {
            return None;
        };
        bytes = past(protocol, *words, rest)?;
        protocol = *next;
    }
    Some((protocol, bytes))
}

/// Returns what a packet of version 6 carries, which is `wire` bytes long on the wire.
#[tactic(auto, using(crate::proofs::Packets::ipv6_short))]
fn ipv6(packet: &[u8], wire: u64) -> Option<Carried<'_>>
    ensures { option_map contents result ≡ ipv6_of wire packet.now }
{
    let [_, _, _, _, l0, l1, next, _, rest @ ..] = packet else {
        return None;
    };
    let (source, rest) = rest.split_first_chunk::<16>()?;
    let (target, rest) = rest.split_first_chunk::<16>()?;
    let size = total(u16::from_be_bytes([*l0, *l1]), wire.saturating_sub(40));
    let payload = front(rest, size);
    let (protocol, above) = upper(*next, payload)?;
    Some(Carried {
        protocol,
        source: Host::V6(*source),
        target: Host::V6(*target),
        payload: above,
        length: size.saturating_sub(payload.len().saturating_sub(above.len()) as u64),
    })
}

/// Returns what a packet carries, which is `wire` bytes long on the wire.
#[tactic(auto, using(crate::proofs::Packets::ip_empty, crate::proofs::Packets::ip_four, crate::proofs::Packets::ip_six, crate::proofs::Packets::ip_other))]
#[inline(always)]
pub fn ip(packet: &[u8], wire: u64) -> Option<Carried<'_>>
    ensures { option_map contents result ≡ ip_of wire packet.now }
{
    let [first, ..] = packet else {
        return None;
    };
    match *first / 16 {
        4 => ipv4(packet, wire),
        6 => ipv6(packet, wire),
        _ => None,
    }
}

/// Returns what the first packet of IP in a frame carries.
#[inline(always)]
fn outer(link: u32, bytes: &[u8], wire: u32) -> Option<Carried<'_>>
    ensures { option_map contents result ≡ outer_of link bytes.now wire }
{
    let packet = packet_of(link, bytes)?;
    let before = bytes.len().saturating_sub(packet.len());
    ip(packet, u64::from(wire).saturating_sub(before as u64))
}

/// Returns what a frame carries over IP, if it is no fragment. Of a packet in another one it is what the inner one carries.
///
/// `link` is the frame's link type, `bytes` what was captured of it, and `wire` its length on the wire.
pub fn carried_of(link: u32, bytes: &[u8], wire: u32) -> Option<Carried<'_>>
    ensures told { AreContentsTold link bytes.now wire (option_map contents result) }
    ensures value { option_map contents result ≡ carried link bytes.now wire }
{
    let outer = outer(link, bytes, wire)?;
    if is_wrapped(outer.protocol) {
        innermost(outer)
    } else {
        Some(outer)
    }
}
