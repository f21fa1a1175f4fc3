//! What the two directions of a BitTorrent connection show together, event by event.
#![tactic(auto)]

mod events;
mod halves;
pub mod laws;
mod matcher;
mod pieces;
mod requests;
mod tallies;

pub use events::{Block, Ending, Event, Heard, Remarks, Side};
pub use matcher::Matcher;
pub use tallies::{Found, Request, Tally, Unanswered};
