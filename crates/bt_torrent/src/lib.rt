//! The files of torrents (BEP 3, "metainfo files"): the info dictionary in one, its info hash, and the piece count.
//!
//! [`read_torrent`] reads a .torrent. [`info_in`] finds the info dictionary, byte by byte as it stands in the file.
//!
//! Keys may stand in any order, and strings may be of any length, longer than those of a message.
#![tactic(auto)]

mod bencoded;
mod file;
mod torrent;

pub use bencoded::is_dictionary;
pub use file::{info_in, into_info, piece_count};
pub use torrent::{TorrentError, TorrentFile, read_torrent};
