//! Which addresses a stranger may name.
ghost use Rattle.std.specs.Prelude.{◌≡◌};
ghost use Rattle.std.specs.Net.Addr.{ipv4_octets, ipv6_segments};
ghost use Rattle.bt_address.specs.Takeable.{is_for_tests as is_for_tests_by, is_local_v4 as is_local_v4_by, is_local_v6 as is_local_v6_by};
ghost use Rattle.bt_address.specs.Takeable.{has_v4_last as has_v4_last_by, is_no_peer_v4 as is_no_peer_v4_by, is_no_peer_v6 as is_no_peer_v6_by};
ghost use Rattle.bt_address.specs.Takeable.{is_takeable as is_takeable_by, is_takeable_front as is_takeable_front_by, is_takeable_v4 as is_takeable_v4_by};
ghost use Rattle.bt_address.specs.Takeable.{is_takeable_v6 as is_takeable_v6_by, octets_of_two};

use std::net::{Ipv4Addr, Ipv6Addr, SocketAddr};

/// Returns whether the first octet is of this network, of loopback, of multicast, or reserved.
fn is_no_peer_v4(a: u8) -> bool
    ensures { result ≡ is_no_peer_v4_by a }
{
    a == 0 || a == 127 || 224 <= a
}

/// Returns whether the first two octets are of private use, shared, or local to a link.
fn is_local_v4(a: u8, b: u8) -> bool
    ensures { result ≡ is_local_v4_by a b }
{
    a == 10
        || a == 100 && 64 <= b && b <= 127
        || a == 169 && b == 254
        || a == 172 && 16 <= b && b <= 31
        || a == 192 && b == 168
}

/// Returns whether the first three octets are of protocol assignments, benchmarking or documentation.
fn is_for_tests(a: u8, b: u8, c: u8) -> bool
    ensures { result ≡ is_for_tests_by a b c }
{
    a == 192 && b == 0 && (c == 0 || c == 2)
        || a == 198 && (b == 18 || b == 19 || b == 51 && c == 100)
        || a == 203 && b == 0 && c == 113
}

/// Returns whether a stranger may name an IPv4 address.
fn is_takeable_v4(ip: Ipv4Addr, is_local: bool) -> bool
    ensures { result ≡ is_takeable_v4_by is_local (ipv4_octets ip) }
{
    let [a, b, c, _] = ip.octets();
    !is_no_peer_v4(a) && !is_for_tests(a, b, c) && (is_local || !is_local_v4(a, b))
}

/// Returns whether the first six segments are those of an address whose last two hold an IPv4 address.
fn has_v4_last(a: u16, b: u16, c: u16, d: u16, e: u16, f: u16) -> bool
    ensures { result ≡ has_v4_last_by a b c d e f }
{
    c == 0
        && d == 0
        && e == 0
        && (a == 0 && b == 0 && (f == 0 || f == 0xffff) || a == 0x64 && b == 0xff9b && f == 0)
}

/// Returns whether the first two segments are of multicast or documentation.
fn is_no_peer_v6(a: u16, b: u16) -> bool
    ensures { result ≡ is_no_peer_v6_by a b }
{
    0xff00 <= a || a == 0x2001 && b == 0xdb8
}

/// Returns whether the first three segments are of a unique-local address, of one that is local to a link, or of one that is
/// translated locally.
fn is_local_v6(a: u16, b: u16, c: u16) -> bool
    ensures { result ≡ is_local_v6_by a b c }
{
    0xfc00 <= a && a <= 0xfdff || 0xfe80 <= a && a <= 0xfebf || a == 0x64 && b == 0xff9b && c == 1
}

/// Returns the IPv4 address of two segments.
fn v4_of(high: u16, low: u16) -> Ipv4Addr
    ensures { ipv4_octets result ≡ octets_of_two high low }
{
    Ipv4Addr::new(
        (high / 256) as u8,
        (high % 256) as u8,
        (low / 256) as u8,
        (low % 256) as u8,
    )
}

/// Returns whether a stranger may name an IPv6 address that begins with these segments, and whose last two hold no IPv4 address.
fn is_takeable_front(a: u16, b: u16, c: u16, is_local: bool) -> bool
    ensures { result ≡ is_takeable_front_by is_local a b c }
{
    if a == 0x2002 {
        return is_takeable_v4(v4_of(b, c), is_local);
    }
    !is_no_peer_v6(a, b) && (is_local || !is_local_v6(a, b, c))
}

/// Returns whether a stranger may name an IPv6 address.
fn is_takeable_v6(ip: Ipv6Addr, is_local: bool) -> bool
    ensures { result ≡ is_takeable_v6_by is_local (ipv6_segments ip) }
{
    let [a, b, c, d, e, f, g, h] = ip.segments();
    if has_v4_last(a, b, c, d, e, f) {
        return is_takeable_v4(v4_of(g, h), is_local);
    }
    is_takeable_front(a, b, c, is_local)
}

/// Returns whether a stranger may name the address, as a tracker or a node of the DHT does.
///
/// Ports 0 and 1 are refused, since a fetch announces port 1. So are the special-purpose addresses of RFC 6890 that no peer has:
/// this network, loopback, multicast, reserved, protocol assignments, benchmarking and documentation. Those of private use, shared
/// ones and those that are local to a link are refused unless `is_local`. An IPv6 address that holds an IPv4 address is judged by that
/// one: IPv4-mapped, IPv4-compatible, translated (RFC 6052) and 6to4 (RFC 3056) addresses.
pub fn is_takeable(address: SocketAddr, is_local: bool) -> bool
    ensures { result ≡ is_takeable_by is_local address }
{
    let is_known = match address {
        SocketAddr::V4(v4) => is_takeable_v4(*v4.ip(), is_local),
        SocketAddr::V6(v6) => is_takeable_v6(*v6.ip(), is_local),
    };
    is_known && 1 < address.port()
}
