//! Ends of connections over devices: the loop that sends, reads and takes turns.
#![tactic(auto)]

mod connection;
mod hearing;
mod polled;
mod resting;
mod sleeping;
mod slots;
mod stream;
mod talking;
mod watch;

pub use connection::Connection;
pub use hearing::Hearing;
pub use polled::{Flag, Polled};
pub use resting::{Naps, rest_after};
pub use sleeping::Sleeper;
pub use stream::Stream;
pub use talking::{Step, Stop, advance, exchange, is_piece};
pub use watch::Watch;
