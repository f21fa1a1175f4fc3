//! The two ends of a connection.
ghost use Rattle.std.specs.Prelude.{◌++◌, Some};
ghost use Rattle.bt_packet.specs.Addresses.{address_text};

use bt_packet::Address;
use std::fmt;

/// Two addresses with words between them.
#[derive(Clone, Copy)]
pub(crate) struct Ends<'a> {
    pub(crate) first: &'a Address,
    pub(crate) between: &'static str,
    pub(crate) second: &'a Address,
}

impl fmt::Display for Ends<'_> {
    ghost output = { λ e. Some (address_text e.first.now ++ (e.between.now ++ address_text e.second.now)) };

    fn fmt<W: fmt::Write>(&self, f: &mut fmt::Formatter<W>) -> fmt::Result {
        let Ends {
            first,
            between,
            second,
        } = *self;
        write!(f, "{first}{between}{second}")
    }
}
