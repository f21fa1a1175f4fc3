//! Addresses of hosts, and ports.
ghost use Rattle.std.specs.Prelude.{◌≡◌, ◌++◌, OnErr, OnOk};
ghost use Rattle.bt_packet.specs.Addresses.{address_text};

use std::alloc::AllocError;
use std::fmt;
use std::net::{Ipv4Addr, Ipv6Addr};

/// An address of IPv4 or IPv6.
///
/// Its text is `10.0.0.1`, or `[2001:db8::1]`.
#[derive(Clone, Copy, PartialEq, Eq, PartialOrd, Ord, Hash, Debug)]
pub enum Host {
    V4([u8; 4]),
    V6([u8; 16]),
}

/// A host and a port.
///
/// Its text is `10.0.0.1:80`, or `[2001:db8::1]:80`.
#[derive(Clone, Copy, PartialEq, Eq, PartialOrd, Ord, Hash, Debug)]
pub struct Address {
    pub host: Host,
    pub port: u16,
}

impl fmt::Display for Host {
    ghost use Rattle.std.specs.Prelude.{Some};
    ghost use Rattle.bt_packet.specs.Addresses.{host_text};

    ghost output = { λ h. Some (host_text h) };

    #[tactic(auto, unfolding(crate::specs::Addresses::host_text))]
    fn fmt<W: fmt::Write>(&self, f: &mut fmt::Formatter<W>) -> fmt::Result {
        match self {
            Host::V4(bytes) => {
                let four = Ipv4Addr::from_octets(*bytes);
                write!(f, "{four}")
            }
            Host::V6(bytes) => {
                let six = Ipv6Addr::from_octets(*bytes);
                write!(f, "[{six}]")
            }
        }
    }
}

impl fmt::Display for Address {
    ghost use Rattle.std.specs.Prelude.{Some};
    ghost use Rattle.bt_packet.specs.Addresses.{address_text};

    ghost output = { λ a. Some (address_text a) };

    fn fmt<W: fmt::Write>(&self, f: &mut fmt::Formatter<W>) -> fmt::Result {
        let (host, port) = (self.host, self.port);
        write!(f, "{host}:{port}")
    }
}
