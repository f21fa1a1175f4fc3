//! The packets of a capture file from a source, the segments in them, and the table of their connections.
#![tactic(auto)]

mod buffer;
mod choice;
mod connection;
mod connections;
mod ended;
mod ending;
mod fault;
pub mod laws;
mod packets;
mod pair;
mod reporting;
mod run;
mod sight;
mod table;
mod telling;
mod unread;
mod utp;
mod walk;

pub use choice::{Choice, Peer};
pub use ending::{CaptureEnd, CaptureJob, Ending, Form};
pub use fault::ReadFault;
pub use packets::{FileEnd, Packets};
pub use pair::Pair;
pub use run::run_capture;
pub use sight::{Sight, sight_of};
pub use unread::{Tally, UnreadPackets};
