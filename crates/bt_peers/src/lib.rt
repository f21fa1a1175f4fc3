//! The command `peers`; a fetch whose peers are found while it goes on; and the words of the command line that both share.
#![tactic(auto)]

mod drawn;
mod search;
mod seeking;
mod words;

pub use drawn::{drawn_ids, drawn_peer_id};
pub use search::{
    PeersJob, SearchJob, UNASKED, WRONG, asks_nobody, end_peers, peers_asked, run_peers, search_in,
    wanted_of,
};
pub use seeking::{Order, Sought, seek_and_fetch};
pub use words::{Mistake, copied, is_given, magnet_in, peers_in};
