//! The source of a server's connections, to which it reports how each ended.
ghost use Rattle.std.specs.Prelude.{◌≡◌, ◌+◌, ◌<◌, nat_lt};
ghost use Rattle.bt_io.specs.Counts.{one_more};
ghost use Rattle.bt_exchange.specs.Lists.{IsAdded};
ghost use Rattle.bt_serve.specs.Doors.{entering};

use crate::guest::Ending;
use bt_exchange::Connection;

/// How a served connection ended.
#[derive(Clone, Copy, PartialEq, Eq, Debug)]
pub struct Parting {
    pub ending: Ending,
    /// How many items were sent to the peer, with the handshake.
    pub sent: u64,
    /// How many items of the peer were handled, with the handshake.
    pub handled: u64,
}

/// Lets connections in, as long as it has a place for them.
pub trait Door {
    ghost use Rattle.std.specs.Prelude.{ℕ, List, Option, None};
    ghost use Rattle.bt_serve.specs.declared.door.Parting.{Parting};

    type Link: Connection + Drop;

    /// What is said of a connection once it has ended, as an address.
    type Name: Copy + Drop;

    /// How many connections are inside: they entered, and their end wasn't reported yet.
    ghost inside: { Self → ℕ };

    /// How many connections may be inside at the same time.
    ghost places: { Self → ℕ };

    /// The connections whose end was reported to it, in order, if they are known.
    ghost told: { Self → Option (List (Self.Name × Parting)) } = { λ _. None };

    /// How many rounds were made, up to 2^64 - 1.
    ghost rounds: { Self → ℕ };

    /// Whether one more connection may be inside.
    fn has_place(&self) -> bool
        ensures { result ≡ nat_lt (inside self.now) (places self.now) };

    /// Returns a connection that waits to be served; `None` if there is none.
    fn enter(&mut self) -> Option<(Self::Link, Self::Name)>
        requires { inside self.old < places self.old }
        ensures inside { inside self.new ≡ inside self.old + entering result }
        ensures places { places self.new ≡ places self.old }
        ensures told { told self.new ≡ told self.old }
        ensures rounds { rounds self.new ≡ rounds self.old };

    /// Hears that a connection handled an item in its turn.
    fn handled(&mut self)
        ensures inside { inside self.new ≡ inside self.old }
        ensures places { places self.new ≡ places self.old }
        ensures told { told self.new ≡ told self.old }
        ensures rounds { rounds self.new ≡ rounds self.old }
    {}

    /// Hears which index a connection has from now on.
    fn placed(&mut self, _link: &Self::Link, _at: usize)
        ensures inside { inside self.new ≡ inside self.old }
        ensures places { places self.new ≡ places self.old }
        ensures told { told self.new ≡ told self.old }
        ensures rounds { rounds self.new ≡ rounds self.old }
    {}

    /// Returns the index of the next connection in this round that may be able to go on; `None` if no other one may.
    ///
    /// `next` is the index after the one that had its turn last. A door that doesn't know which can go on returns it, so that each
    /// has its turn. An index that no connection has is passed over.
    fn due(&mut self, next: usize) -> Option<usize>
        ensures inside { inside self.new ≡ inside self.old }
        ensures places { places self.new ≡ places self.old }
        ensures told { told self.new ≡ told self.old }
        ensures rounds { rounds self.new ≡ rounds self.old }
    {
        Some(next)
    }

    /// Ends a round, in which each connection that was due had its turn. Waits a moment, if none of them can go on.
    fn rest(&mut self, is_idle: bool)
        ensures inside { inside self.new ≡ inside self.old }
        ensures places { places self.new ≡ places self.old }
        ensures told { told self.new ≡ told self.old }
        ensures rounds { rounds self.new ≡ one_more (rounds self.old) };

    /// Takes note of how an open connection ended.
    fn ended(&mut self, name: Self::Name, parting: Parting)
        requires { 0 < inside self.old }
        ensures inside { inside self.new + 1 ≡ inside self.old }
        ensures places { places self.new ≡ places self.old }
        ensures told { IsAdded (told self.old) (told self.new) (name, parting) }
        ensures rounds { rounds self.new ≡ rounds self.old };
}
