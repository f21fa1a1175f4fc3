//! One direction of a captured TCP connection, with the memory that it owns: segments in the order of capture become a stream.
#![tactic(auto)]

mod far;
mod flow;
mod noted;
mod pages;
mod stream;
mod wide;
mod window;

pub use flow::{Flow, Given};
pub use window::MOST;
