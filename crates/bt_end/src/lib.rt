//! A peer without its socket: it answers the other peer, and fetches or serves metadata (BEP 9).
//!
//! Bytes from the peer go in by [`End::receive`], [`End::turn`] handles an item of them, and [`End::outgoing`] has the bytes
//! that the peer is to get. The caller moves the bytes.
#![tactic(auto)]

mod config;
mod end;
mod errors;
mod event;
pub mod laws;
mod part;
mod queueing;
mod reactor;

pub use config::{Announce, Config, EndError, Role, Window};
pub use end::{BeginError, End, HIGH_WATER, Heard, SayError, Turn, TurnError};
pub use event::Event;
pub use part::Progress;
