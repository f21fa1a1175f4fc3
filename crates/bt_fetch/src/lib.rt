//! Fetching the metadata of a torrent from many peers at the same time.
//!
//! [`fetch`] takes connections from a [`Device`], over TCP from a [`TcpSwarm`], and writes to a target.
#![tactic(auto)]

mod device;
mod dial;
mod dialler;
mod dialling;
mod fetching;
mod file;
mod line;
mod link;
mod place;
mod queue;
mod talk;
mod tcp;
mod turn;
mod visit;
mod wish;

pub use device::{Device, Ending, Happening, Outcome};
pub use dialler::Dialler;
pub use dialling::DIALS;
pub use fetching::fetch;
pub use file::FetchError;
pub use link::TcpLink;
pub use tcp::{TcpSwarm, Watcher};
pub use wish::Wish;
