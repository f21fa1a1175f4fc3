//! Addresses in compact form (BEP 23, BEP 7, BEP 32).
ghost use Rattle.std.specs.Prelude.{◌≡◌, ◌++◌, ◌<◌, ◌≤◌, All, IfOk, IfSome, None, drop, length, take};
ghost use Rattle.std.specs.List.{flat_map};
ghost use Rattle.bt_address.specs.Compact.{IsPlainOf, compact_of, size_of};
ghost use Rattle.bt_address.specs.declared.compact.Family.TheVariants as family;

use std::alloc::{AllocError, Global};
use std::net::{Ipv4Addr, Ipv6Addr, SocketAddr, SocketAddrV4, SocketAddrV6};

/// The family of an address.
#[derive(Clone, Copy, PartialEq, Eq, Debug)]
pub enum Family {
    /// IPv4: an address has 6 bytes.
    V4,
    /// IPv6: an address has 18 bytes.
    V6,
}

/// Returns the address of six bytes.
fn address_v4(six: [u8; 6]) -> SocketAddr
    ensures bytes { compact_of result ≡ six }
    ensures plain { IsPlainOf family.V4 result }
{
    let [a, b, c, d, high, low] = six;
    let port = u16::from_be_bytes([high, low]);
    SocketAddr::V4(SocketAddrV4::new(Ipv4Addr::new(a, b, c, d), port))
}

/// Returns the address of 16 bytes and the two of its port.
fn address_v6(ip: [u8; 16], port: [u8; 2]) -> SocketAddr
    ensures bytes { compact_of result ≡ ip ++ port }
    ensures plain { IsPlainOf family.V6 result }
{
    let [high, low] = port;
    let port = u16::from_be_bytes([high, low]);
    SocketAddr::V6(SocketAddrV6::new(Ipv6Addr::from_octets(ip), port, 0, 0))
}

/// Returns the address that bytes begin with, and the bytes after it.
///
/// Returns `None` if there are fewer bytes than an address of the family has. An IPv6 address has no flow information and no scope.
pub fn split_address(family: Family, bytes: &[u8]) -> Option<(SocketAddr, &[u8])>
    ensures address { IfSome result (λ x. compact_of x.0 ≡ take (size_of family) bytes.now) }
    ensures plain { IfSome result (λ x. IsPlainOf family x.0) }
    ensures rest { IfSome result (λ x. x.1.now ≡ drop (size_of family) bytes.now) }
    ensures whole { IfSome result (λ x. size_of family ≤ length bytes.now) }
    ensures none { result ≡ None → length bytes.now < size_of family }
{
    match family {
        Family::V4 => {
            let (six, rest) = bytes.split_first_chunk::<6>()?;
            Some((address_v4(*six), rest))
        }
        Family::V6 => {
            let (ip, rest) = bytes.split_first_chunk::<16>()?;
            let (port, rest) = rest.split_first_chunk::<2>()?;
            Some((address_v6(*ip, *port), rest))
        }
    }
}

/// Returns the addresses that bytes consist of, at most `most`, in order, and the bytes after them.
///
/// If there are fewer addresses than `most`, the bytes after them are fewer than an address has.
///
/// # Errors
/// `AllocError` when out of memory.
pub fn read_addresses<'a>(
    alloc: Global,
    family: Family,
    bytes: &'a [u8],
    most: usize,
) -> Result<(Vec<SocketAddr>, &'a [u8]), AllocError>
    ensures addresses { IfOk result (λ x. flat_map compact_of x.0.items ++ x.1.now ≡ bytes.now) }
    ensures plain { IfOk result (λ x. All (IsPlainOf family) x.0.items) }
    ensures most { IfOk result (λ x. length x.0.items ≤ most) }
    ensures rest { IfOk result (λ x. length x.0.items < most → length x.1.now < size_of family) }
{
    let mut found = Vec::new(alloc);
    let mut rest = bytes;
    for _ in 0..most {
        let Some((address, more)) = split_address(family, rest) else {
            break;
        };
        found.push(address)?;
        rest = more;
    }
    Ok((found, rest))
}
