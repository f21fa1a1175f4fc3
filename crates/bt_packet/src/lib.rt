//! From a captured frame to the TCP segment or packet of uTP in it.
#![tactic(auto)]

mod address;
mod bytes;
mod ip;
pub mod laws;
mod link;
mod nflog;
mod ppp;
mod tcp;
mod tunnel;
mod unread;
mod utp;
mod wireless;

pub use address::{Address, Host};
pub use ip::{Carried, carried_of};
pub use tcp::{Flags, Segment, segment_in, segment_of};
pub use unread::{Unread, unread_of};
pub use utp::{Utp, UtpKind, utp_in, utp_of};
