//! A fetch that finds its peers while it goes on.
//!
//! [`Gather`] is a device of `bt_fetch`: it gives a [`Finder`] its turns between those of the connections, and adds the addresses that it
//! finds to the list. [`Search`] is such a finder, by `bt_seek`. Nothing here opens a socket.
#![tactic(auto)]

mod adding;
mod finder;
mod gather;
mod named;
mod search;

pub use finder::Finder;
pub use gather::{Gather, MOST_FOUND};
pub use search::{Names, Search};
