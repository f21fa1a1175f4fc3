//! Why nothing of a frame is read.
ghost use Rattle.std.specs.Prelude.{◌≡◌, option_map};
ghost use Rattle.bt_packet.specs.Bytes.{after as after_of};
ghost use Rattle.bt_packet.specs.Unread.{by_packet, first_type as first_type_of};
ghost use Rattle.bt_packet.specs.Unread.{is_fragmented as is_fragmented_of, is_link as is_link_of, is_part as is_part_of};
ghost use Rattle.bt_packet.specs.Unread.{is_read_type as is_read_type_of, is_unread_type as is_unread_type_of};
ghost use Rattle.bt_packet.specs.Unread.{type_after as type_after_of, type_in as type_in_frame, unread};

use crate::bytes::after;
use crate::ip::{is_atomic, is_fragment};
use crate::link::{is_tag, packet_of};

/// Why nothing of a frame is read.
#[derive(Clone, Copy, PartialEq, Eq, Debug)]
pub enum Unread {
    /// Its link type isn't read.
    LinkType(u32),
    /// What follows the VLAN tags of a frame of Ethernet has a type that isn't read.
    EtherType(u16),
    /// The first packet of IP is a fragment.
    Fragment,
    /// Anything else: it was cut short, or carries another protocol than those that are read.
    Other,
}

fn is_link(link: u32) -> bool
    ensures { result ≡ is_link_of link }
{
    matches!(
        link,
        0 | 1 | 9 | 12 | 14 | 50 | 51 | 101 | 105 | 108 | 113 | 127 | 228 | 229 | 239 | 258 | 276
    )
}

fn is_read_type(kind: u16) -> bool
    ensures { result ≡ is_read_type_of kind }
{
    matches!(kind, 0x0800 | 0x86dd | 0x8847 | 0x8848 | 0x8864)
}

/// Tells whether this is a type that isn't read, and no length.
fn is_unread_type(kind: u16) -> bool
    ensures { result ≡ is_unread_type_of kind }
{
    kind >= 1536 && !is_read_type(kind)
}

/// Returns the type after VLAN tags, if it was captured.
#[tactic(auto, using(crate::proofs::EtherTypes::cut_tag, crate::proofs::EtherTypes::no_tag))]
fn type_after(kind: u16, bytes: &[u8]) -> Option<u16>
    ensures { result ≡ type_after_of kind bytes.now }
{
    let (mut kind, mut bytes) = (kind, bytes);
    while is_tag(kind) {
        let [_, _, a, b, rest @ ..] = bytes else {
            return None;
        };
        kind = u16::from_be_bytes([*a, *b]);
        bytes = rest;
    }
    Some(kind)
}

/// Returns the type that bytes begin with, or the one after VLAN tags.
#[tactic(auto, using(crate::proofs::EtherTypes::first_cut))]
fn first_type(bytes: &[u8]) -> Option<u16>
    ensures { result ≡ first_type_of bytes.now }
{
    let [a, b, rest @ ..] = bytes else {
        return None;
    };
    type_after(u16::from_be_bytes([*a, *b]), rest)
}

/// Returns the type of a frame of Ethernet.
fn type_in(link: u32, bytes: &[u8]) -> Option<u16>
    ensures { result ≡ type_in_frame link bytes.now }
{
    if link != 1 {
        return None;
    }
    let rest = after(bytes, 12)?;
    first_type(rest)
}

/// Tells whether a header of a fragment comes so far into a packet, and says that it doesn't hold the whole packet.
fn is_part(rest: &[u8]) -> bool
    ensures { result ≡ is_part_of (after_of 34 rest.now) }
{
    match after(rest, 34) {
        Some(content) => !is_atomic(content),
        None => false,
    }
}

/// Tells whether a packet is a fragment.
#[tactic(auto, using(crate::proofs::EtherTypes::fragmented_cut, crate::proofs::EtherTypes::fragmented_four, crate::proofs::EtherTypes::fragmented_six, crate::proofs::EtherTypes::fragmented_other))]
fn is_fragmented(packet: &[u8]) -> bool
    ensures { result ≡ is_fragmented_of packet.now }
{
    let [first, _, _, _, _, _, next, low, rest @ ..] = packet else {
        return false;
    };
    match *first / 16 {
        4 => is_fragment(u16::from_be_bytes([*next, *low])),
        6 => *next == 44 && is_part(rest),
        _ => false,
    }
}

/// Returns why a frame with this packet of IP carries nothing that is read.
fn unread_packet(packet: Option<&[u8]>) -> Unread
    ensures { result ≡ by_packet (option_map (λ b. b.now) packet.entry) }
{
    match packet {
        Some(packet) if is_fragmented(packet) => Unread::Fragment,
        _ => Unread::Other,
    }
}

/// Returns why nothing of a frame is read, if `carried_of` and `segment_in` find nothing in it.
pub fn unread_of(link: u32, bytes: &[u8]) -> Unread
    ensures { result ≡ unread link bytes.now }
{
    if !is_link(link) {
        return Unread::LinkType(link);
    }
    match type_in(link, bytes) {
        Some(kind) if is_unread_type(kind) => Unread::EtherType(kind),
        _ => unread_packet(packet_of(link, bytes)),
    }
}
