//! The packets of a uTP connection (BEP 29) in order, as segments whose numbers count bytes.
//!
//! The numbers of uTP count packets, those of TCP bytes. `Link` turns each packet into one segment as of TCP, with the bytes that come next
//! now: none for an early packet, and all that follow for the one that was missing. How many bytes a missing packet had isn't on the wire,
//! so a segment only says that a byte is missing.
//!
//! Packets that wait for a missing one take at most 1 MiB in a direction, and no more than the caller has room for.
#![tactic(auto)]

mod direction;
mod held;
pub mod laws;
mod link;
mod numbers;

pub use direction::Direction;
pub use held::Payload;
pub use link::{Came, Kind, Link, Turned};
