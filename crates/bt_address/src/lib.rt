//! Addresses of peers: in compact form, and which of them a stranger may name.
//!
//! An address is in compact form 6 bytes for IPv4 (BEP 23), and 18 for IPv6 (BEP 7, BEP 32): the IP, and then the port. Both have
//! the high byte first. Trackers and nodes of the DHT answer with them.
#![tactic(auto)]

mod compact;
mod takeable;

pub use compact::{Family, read_addresses, split_address};
pub use takeable::is_takeable;
