//! Packets of IP in packets of IP: IP in IP (RFC 2003, RFC 4213), GRE (RFC 2784, RFC 2890), and what is authenticated (RFC 4302).
ghost use Rattle.std.specs.Prelude.{◌≡◌, option_map};
ghost use Rattle.bt_packet.specs.Ip.{authenticated as authenticated_of, contents, innermost as innermost_of, is_wrapped as is_wrapped_of};
ghost use Rattle.bt_packet.specs.Ip.{tunnelled as tunnelled_of, unwrap as unwrap_of};
ghost use Rattle.bt_packet.specs.Links.{bridged as bridged_of, field as field_of, gre as gre_of, gre_fields as gre_fields_of, is_gre as is_gre_of};

use crate::bytes::after;
use crate::ip::{Carried, ip};
use crate::link::{after_type, typed};

const GRE: u8 = 47;

const AUTHENTICATION: u8 = 51;

const BRIDGING: u16 = 0x6558;

fn is_gre(first: u8, second: u8) -> bool
    ensures { result ≡ is_gre_of first second }
{
    first & 0x4c == 0 && second % 8 == 0
}

/// Returns the size of the field that a flag announces.
fn field(first: u8, bit: u8) -> usize
    ensures { result ≡ field_of first bit }
{
    if first & bit > 0 { 4 } else { 0 }
}

/// Returns the size of the fields that the flags announce.
fn gre_fields(first: u8) -> usize
    ensures { result ≡ gre_fields_of first }
{
    field(first, 0x80) + (field(first, 0x20) + field(first, 0x10))
}

/// Returns the packet after a protocol type of GRE.
#[tactic(auto, unfolding(crate::specs::Links::bridged))]
fn bridged(kind: u16, bytes: &[u8]) -> Option<&[u8]>
    ensures { option_map (λ b. b.now) result ≡ bridged_of kind bytes.now }
{
    if kind == BRIDGING {
        typed(after(bytes, 12)?)
    } else {
        after_type(kind, bytes)
    }
}

/// Returns the packet after a header of GRE.
#[tactic(auto, using(crate::proofs::Tunnels::gre_cut, crate::proofs::Tunnels::gre_other))]
fn gre(bytes: &[u8]) -> Option<&[u8]>
    ensures { option_map (λ b. b.now) result ≡ gre_of bytes.now }
{
    let [first, second, a, b, rest @ ..] = bytes else {
        return None;
    };
    if !is_gre(*first, *second) {
        return None;
    }
    let rest = after(rest, gre_fields(*first))?;
    bridged(u16::from_be_bytes([*a, *b]), rest)
}

/// Returns the packet that a payload carries, if it is one of a tunnel.
fn tunnelled(protocol: u8, payload: &[u8]) -> Option<&[u8]>
    ensures { option_map (λ b. b.now) result ≡ tunnelled_of protocol payload.now }
{
    if protocol == GRE {
        gre(payload)
    } else {
        Some(payload)
    }
}

/// Returns what follows a header of authentication.
#[tactic(auto, using(crate::proofs::Tunnels::authenticated_cut))]
fn authenticated<'a>(carried: &Carried<'a>) -> Option<Carried<'a>>
    ensures { option_map contents result ≡ authenticated_of (contents carried.now) carried.now.payload.now }
{
    let [next, words, rest @ ..] = carried.payload else {
        return None;
    };
    let payload = after(rest, 4 * usize::from(*words) + 6)?;
    Some(Carried {
        protocol: *next,
        source: carried.source,
        target: carried.target,
        payload,
        length: carried.length.saturating_sub(4 * u64::from(*words) + 8),
    })
}

/// Tells whether a payload of this protocol has another header before what is carried.
pub fn is_wrapped(protocol: u8) -> bool
    ensures { result ≡ is_wrapped_of protocol }
{
    matches!(protocol, 4 | 41 | 47 | 51)
}

/// Returns what is in a payload that is wrapped.
fn unwrap<'a>(carried: &Carried<'a>) -> Option<Carried<'a>>
    ensures { option_map contents result ≡ unwrap_of (contents carried.now) }
{
    if carried.protocol == AUTHENTICATION {
        return authenticated(carried);
    }
    let packet = tunnelled(carried.protocol, carried.payload)?;
    let before = carried.payload.len().saturating_sub(packet.len());
    ip(packet, carried.length.saturating_sub(before as u64))
}

/// Returns what the innermost packet carries.
#[tactic(auto, using(crate::proofs::Tunnels::unwrapped_plain))]
#[inline(never)]
pub fn innermost<'a>(carried: Carried<'a>) -> Option<Carried<'a>>
    ensures { option_map contents result ≡ innermost_of (contents carried.entry) }
{
    let mut carried = carried;
    while is_wrapped(carried.protocol) {
        carried = unwrap(&carried)?;
    }
    Some(carried)
}
