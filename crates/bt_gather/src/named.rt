//! Which addresses were named.
ghost use Rattle.std.specs.Prelude.{◌≡◌};
ghost use Rattle.bt_seek.specs.Addresses.{is_same as is_same_by, is_same_ip as is_same_ip_by};
ghost use Rattle.bt_gather.specs.Gathers.{is_named as is_named_by};

use std::net::SocketAddr;

/// Returns whether two addresses have one IP.
fn is_same_ip(a: SocketAddr, b: SocketAddr) -> bool
    ensures { result ≡ is_same_ip_by a b }
{
    match (a, b) {
        (SocketAddr::V4(a), SocketAddr::V4(b)) => a.ip().octets() == b.ip().octets(),
        (SocketAddr::V6(a), SocketAddr::V6(b)) => a.ip().octets() == b.ip().octets(),
        _ => false,
    }
}

/// Returns whether two addresses have one IP and one port.
fn is_same(a: SocketAddr, b: SocketAddr) -> bool
    ensures { result ≡ is_same_by a b }
{
    is_same_ip(a, b) && a.port() == b.port()
}

/// Returns whether one of the named addresses is this one.
pub fn is_named(named: &[SocketAddr], address: SocketAddr) -> bool
    ensures { result ≡ is_named_by named.now address }
{
    named.iter().any(|it| is_same(*it, address))
}
