//! The headers of link types, as <https://www.tcpdump.org/linktypes.html> numbers them.
ghost use Rattle.std.specs.Prelude.{◌≡◌, option_map};
ghost use Rattle.bt_packet.specs.Links.{after_type as after_type_of, cooked as cooked_of};
ghost use Rattle.bt_packet.specs.Links.{is_bottom as is_bottom_of, is_tag as is_tag_of, network as network_of};
ghost use Rattle.bt_packet.specs.Links.{packet_in, plain_packet_in, tapped as tapped_of, typed as typed_of, unlabelled as unlabelled_of};

use crate::bytes::after;
use crate::nflog::packet_in_attributes;
use crate::ppp::{ppp, session, unframed};
use crate::wireless::{radiotap, wireless};

const ETHERNET: u32 = 1;

const COOKED: u32 = 113;

const COOKED_2: u32 = 276;

const TAP: u32 = 258;

pub fn is_tag(kind: u16) -> bool
    ensures { result ≡ is_tag_of kind }
{
    matches!(kind, 0x8100 | 0x88a8 | 0x9100)
}

fn is_bottom(bits: u8) -> bool
    ensures { result ≡ is_bottom_of bits }
{
    bits % 2 == 1
}

/// Returns what follows a label stack of MPLS.
#[tactic(auto, using(crate::proofs::Labels::labels_cut))]
#[inline(never)]
fn unlabelled(bytes: &[u8]) -> Option<&[u8]>
    ensures { option_map (λ b. b.now) result ≡ unlabelled_of bytes.now }
{
    let (mut bytes, mut is_last) = (bytes, false);
    while !is_last {
        let [_, _, bits, _, rest @ ..] = bytes else {
            return None;
        };
        is_last = is_bottom(*bits);
        bytes = rest;
    }
    Some(bytes)
}

/// Returns the packet that follows a type that is no VLAN tag.
#[tactic(auto, unfolding(crate::specs::Links::network))]
fn network(kind: u16, bytes: &[u8]) -> Option<&[u8]>
    ensures { option_map (λ b. b.now) result ≡ network_of kind bytes.now }
{
    match kind {
        0x0800 | 0x86dd => Some(bytes),
        0x8847 | 0x8848 => unlabelled(bytes),
        0x8864 => session(bytes),
        _ => None,
    }
}

/// Returns the packet that follows a type, after VLAN tags.
#[tactic(auto, using(crate::proofs::Types::cut_tag, crate::proofs::Types::after_network))]
pub fn after_type(kind: u16, bytes: &[u8]) -> Option<&[u8]>
    ensures { option_map (λ b. b.now) result ≡ after_type_of kind bytes.now }
{
    let (mut kind, mut bytes) = (kind, bytes);
    while is_tag(kind) {
        let [_, _, a, b, rest @ ..] = bytes else {
            return None;
        };
        kind = u16::from_be_bytes([*a, *b]);
        bytes = rest;
    }
    network(kind, bytes)
}

/// Returns the packet after a type and VLAN tags.
#[tactic(auto, using(crate::proofs::Types::typed_cut))]
pub fn typed(bytes: &[u8]) -> Option<&[u8]>
    ensures { option_map (λ b. b.now) result ≡ typed_of bytes.now }
{
    let [a, b, rest @ ..] = bytes else {
        return None;
    };
    after_type(u16::from_be_bytes([*a, *b]), rest)
}

/// Returns the packet of a Linux cooked capture, version 2, whose header begins with the type.
#[tactic(auto, using(crate::proofs::Types::cooked_cut, crate::proofs::Types::cooked_short))]
fn cooked(bytes: &[u8]) -> Option<&[u8]>
    ensures { option_map (λ b. b.now) result ≡ cooked_of bytes.now }
{
    let [a, b, rest @ ..] = bytes else {
        return None;
    };
    let rest = after(rest, 18)?;
    after_type(u16::from_be_bytes([*a, *b]), rest)
}

/// Returns the packet of IP in a frame without a header of PKTAP.
#[inline(always)]
fn plain_packet_of(link: u32, bytes: &[u8]) -> Option<&[u8]>
    ensures { option_map (λ b. b.now) result ≡ plain_packet_in link bytes.now }
{
    match link {
        ETHERNET => typed(after(bytes, 12)?),
        COOKED => typed(after(bytes, 14)?),
        COOKED_2 => cooked(bytes),
        0 | 108 => after(bytes, 4),
        12 | 14 | 101 | 228 | 229 => Some(bytes),
        9 | 50 => ppp(unframed(bytes)),
        51 => session(bytes),
        105 => wireless(bytes),
        127 => radiotap(bytes),
        239 => packet_in_attributes(after(bytes, 4)?),
        _ => None,
    }
}

/// Returns the packet of IP after a header of PKTAP.
#[tactic(auto, using(crate::proofs::Taps::tapped_cut, crate::proofs::Taps::tapped_short))]
#[inline(never)]
fn tapped(bytes: &[u8]) -> Option<&[u8]>
    ensures { option_map (λ b. b.now) result ≡ tapped_of bytes.now }
{
    let [a, b, c, d, _, _, _, _, i, j, k, l, ..] = bytes else {
        return None;
    };
    let rest = after(bytes, u32::from_le_bytes([*a, *b, *c, *d]) as usize)?;
    plain_packet_of(u32::from_le_bytes([*i, *j, *k, *l]), rest)
}

/// Returns the packet of IP in a frame.
pub fn packet_of(link: u32, bytes: &[u8]) -> Option<&[u8]>
    ensures { option_map (λ b. b.now) result ≡ packet_in link bytes.now }
{
    if link == TAP {
        tapped(bytes)
    } else {
        plain_packet_of(link, bytes)
    }
}
