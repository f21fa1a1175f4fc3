//! The sockets of a search for peers: datagrams, questions over HTTP, random bytes and the clock; and the addresses of names.
//!
//! What is asked and which answer counts is decided in `bt_seek`.
#![tactic(auto)]

mod datagrams;
mod exchange;
mod lookup;
mod sockets;

pub use lookup::{Found, is_address, look_up};
pub use sockets::Sockets;
