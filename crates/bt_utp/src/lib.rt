//! The packets of uTP (BEP 29) between each two ends: how many there are, and the connection of each.
//!
//! `UtpFlows` counts datagrams. A datagram counts if another one between the same ends, in either direction, has the same id, the next one
//! or the one before: the two ends of a connection use an id and the next one. Other datagrams may only look like uTP.
//!
//! Of each flow the last reason of a close that each end sent in a counted datagram is kept.
//!
//! There is room for 65,536 ids of all ends together, which take at most 32 MiB. A datagram with a further id isn't counted: its
//! flow has at least what is told then.
//!
//! `Links` finds the connection of each packet and turns the packet into a segment, as `bt_order::Link` does. A connection begins with an
//! ST_SYN. Later packets are found by their channel: the source, the target and the connection id. There is room for 65,536 connections
//! at once, and for 32 MiB of packets that wait for a missing one.
#![tactic(auto)]

mod connection;
mod entries;
mod flow;
mod flows;
mod ids;
pub mod laws;
mod links;

pub use connection::{Connection, Told};
pub use flow::Counted;
pub use flows::UtpFlows;
pub use links::Links;
