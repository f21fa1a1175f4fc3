//! A device that dials addresses which its caller has a list of.
ghost use Rattle.std.specs.Prelude.{◌≡◌, ◌+◌, ◌<◌};
ghost use Rattle.bt_exchange.specs.Lists.{IsAdded};
ghost use Rattle.bt_fetch.specs.Links.{opening};

use crate::device::Device;
use bt_exchange::Flag;
use std::net::SocketAddr;
use std::os::fd::RawFd;

/// A device that dials any address. A device around it has the list, and gives each address its number.
pub trait Dialler: Device {
    ghost use Rattle.std.specs.Prelude.{IfSome};
    ghost use Rattle.bt_fetch.specs.declared.device.Happening.{Happening};

    /// Begins a connection to an address that has this number, as [`Device::dial`].
    fn dial_at(&mut self, number: usize, address: SocketAddr) -> Option<Self::Link>
        requires { Self.inside self.old < Self.places self.old }
        ensures log { IsAdded (Self.log self.old) (Self.log self.new) (Happening.Dialled number) }
        ensures inside { Self.inside self.new ≡ Self.inside self.old + opening result }
        ensures fresh { IfSome result (λ link. (Self.Link.seen link).counts.calls ≡ 0) }
        ensures places { Self.places self.new ≡ Self.places self.old };

    /// Hears that an address got the next number.
    fn added(&mut self, address: SocketAddr)
        ensures log { Self.log self.new ≡ Self.log self.old }
        ensures inside { Self.inside self.new ≡ Self.inside self.old }
        ensures places { Self.places self.new ≡ Self.places self.old };

    /// Returns the flag of another socket, which from now on ends a wait when it may be ready.
    fn watch(&mut self, socket: RawFd) -> Flag
        ensures log { Self.log self.new ≡ Self.log self.old }
        ensures inside { Self.inside self.new ≡ Self.inside self.old }
        ensures places { Self.places self.new ≡ Self.places self.old };
}
