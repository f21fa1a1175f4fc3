//! The addresses of a host's name.
ghost use Rattle.std.specs.Prelude.{◌≡◌, Some, None, is_some, if◌then◌else◌};
ghost use Rattle.bt_post.specs.Lookups.{noted as noted_by};

use std::io;
use std::net::{IpAddr, Net, SocketAddr, ToSocketAddrs};

/// Addresses of a host: the first of each family.
#[derive(Clone, Copy, PartialEq, Eq)]
pub struct Found {
    /// The first address of IPv4.
    pub four: Option<SocketAddr>,
    /// The first address of IPv6.
    pub six: Option<SocketAddr>,
}

/// Returns what was found, with one more address.
fn noted(found: Found, address: SocketAddr) -> Found
    ensures { result ≡ noted_by found address }
{
    match address {
        SocketAddr::V4(_) if found.four.is_none() => Found {
            four: Some(address),
            six: found.six,
        },
        SocketAddr::V6(_) if found.six.is_none() => Found {
            four: found.four,
            six: Some(address),
        },
        _ => found,
    }
}

/// Returns whether a host is an IP address, so that nobody has to be asked for it.
pub fn is_address(host: &str) -> bool {
    host.parse::<IpAddr>().is_ok()
}

/// Returns the first address of each family that the system knows of a host.
///
/// It waits for the system's answer if the host is a name.
///
/// # Errors
/// Those of the system.
pub fn look_up<R: Net>(net: &R, host: &str, port: u16) -> io::Result<Found> {
    let mut found = Found {
        four: None,
        six: None,
    };
    for address in (host, port).to_socket_addrs(net)? {
        found = noted(found, address);
    }
    Ok(found)
}
