//! Which addresses are the same.
ghost use Rattle.std.specs.Prelude.{◌≡◌};
ghost use Rattle.bt_seek.specs.Addresses.{is_same as is_same_by, is_same_ip as is_same_ip_by};

use std::net::SocketAddr;

/// Returns whether two addresses have one IP.
pub fn is_same_ip(a: SocketAddr, b: SocketAddr) -> bool
    ensures { result ≡ is_same_ip_by a b }
{
    match (a, b) {
        (SocketAddr::V4(a), SocketAddr::V4(b)) => a.ip().octets() == b.ip().octets(),
        (SocketAddr::V6(a), SocketAddr::V6(b)) => a.ip().octets() == b.ip().octets(),
        _ => false,
    }
}

/// Returns whether two addresses have one IP and one port.
pub fn is_same(a: SocketAddr, b: SocketAddr) -> bool
    ensures { result ≡ is_same_by a b }
{
    is_same_ip(a, b) && a.port() == b.port()
}
