//! What a fetch is asked for in words: an info hash or a magnet link (BEP 9), and lists of peers.
//!
//! Nothing is opened or resolved here. The module `fetch` of `bt_cli` calls it.
#![tactic(auto)]

mod base32;
mod hash;
mod link;
mod list;
mod pairs;
mod peer;

pub use hash::info_hash_of;
pub use link::{Magnet, MagnetError, Passed, read_magnet};
pub use list::{ListError, read_list};
pub use peer::is_peer;
