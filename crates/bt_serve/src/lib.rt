//! Serving the metadata of a torrent to many peers at the same time.
//!
//! [`serve`] takes connections from a [`Door`], over TCP from a [`TcpDoor`].
#![tactic(auto)]

mod door;
mod guest;
mod serving;
mod tcp;

pub use bt_torrent::{info_in, into_info, is_dictionary, piece_count};
pub use door::{Door, Parting};
pub use guest::{Ending, Hospitality};
pub use serving::serve;
pub use tcp::{Farewell, TcpDoor, listen};
