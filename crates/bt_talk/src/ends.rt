//! The two ends of a connection, and which of them sent a segment.
ghost use Rattle.std.specs.Prelude.{◌≡◌, ◌↔◌, IsTrue};
ghost use Rattle.bt_remarks.specs.declared.events.Side.TheVariants.{A};
ghost use Rattle.bt_talk.specs.Ends.{ends_by, address_of};

use bt_packet::{Address, Segment};
use bt_remarks::Side;

/// The addresses of both sides of a connection.
#[derive(Clone, Copy, PartialEq, Eq, Debug)]
pub struct Ends {
    /// The side that began it, as far as the capture shows.
    pub a: Address,
    pub b: Address,
}

/// Tells whether two addresses are the same.
fn is_same(one: &Address, other: &Address) -> bool
    ensures { IsTrue result ↔ (one.now ≡ other.now) }
{
    *one == *other
}

impl Ends {
    /// Returns the ends of the connection of which this is the first segment.
    ///
    /// A is its source, or its target if it answers a SYN (RFC 9293 3.5).
    pub fn of(first: &Segment) -> Ends
        ensures { result ≡ ends_by first.now }
    {
        if first.flags.syn && first.flags.ack {
            Ends {
                a: first.target,
                b: first.source,
            }
        } else {
            Ends {
                a: first.source,
                b: first.target,
            }
        }
    }

    /// Returns which side sent a segment of the connection.
    pub fn sender(&self, segment: &Segment) -> Side
        ensures { (result ≡ A) ↔ (segment.now.source ≡ self.now.a) }
    {
        if is_same(&segment.source, &self.a) {
            Side::A
        } else {
            Side::B
        }
    }

    /// Returns the address of a side.
    pub fn address(&self, side: Side) -> Address
        ensures { result ≡ address_of side self.now }
    {
        match side {
            Side::A => self.a,
            Side::B => self.b,
        }
    }
}
