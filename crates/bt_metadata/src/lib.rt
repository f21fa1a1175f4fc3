//! The metadata of a torrent (BEP 9): reassembled from blocks that come in any order, and served in blocks.
//!
//! Messages and connections don't belong here.
#![tactic(auto)]

mod arriving;
mod assembly;
pub mod laws;
mod server;

pub use assembly::{Assembly, BlockError, MAX_METADATA, NewError, Unfinished, WINDOW, block_count};
pub use server::{BadSize, Reply, Server};
