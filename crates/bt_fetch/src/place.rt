//! A place for a connection of a fetch from many peers. What was fetched stays at it from connection to connection.
ghost use Rattle.std.specs.Prelude.{◌≡◌, None, IfOk};
ghost use Rattle.bt_fetch.specs.Wishes.{IsWish, handshake_of};

use crate::visit::Visit;
use crate::wish::{Wish, fetching_end};
use bt_end::End;
use bt_exchange::{Connection, Hearing};
use bt_io::Memory;
use std::alloc::Global;

/// A place for a connection, with the end that fetches over it.
#[derive(Drop)]
pub struct Place<L: Connection + Drop> {
    pub end: End,
    pub hearing: Hearing,
    /// The connection, if one is open.
    pub visit: Option<Visit<L>>,
}

impl<L: Connection + Drop> Place<L> {
    /// Returns a place with no connection.
    ///
    /// # Errors
    /// `Memory` if its buffers are refused.
    pub fn new(alloc: Global, wish: &Wish) -> Result<Place<L>, Memory>
        requires { IsWish wish.now }
        ensures handshake { IfOk result (λ place. place.end.end.handshake ≡ handshake_of wish.now) }
        ensures visit { IfOk result (λ place. place.visit ≡ None) }
    {
        Ok(Place {
            end: fetching_end(alloc, wish)?,
            hearing: Hearing::new(alloc)?,
            visit: None,
        })
    }
}
