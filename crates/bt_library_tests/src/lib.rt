//! Tests of the crates that an embedder calls: `bt_bencode`, `bt_ext`, `bt_wire`, `bt_io`, `bt_feed`, `bt_metadata` and `bt_end`.
//!
//! `rt ci` proves and runs them. While you write, `rt try --test` in this crate's folder runs them without a proof.
#![tactic(auto)]

#[cfg(test)]
mod bencode;
#[cfg(test)]
mod bencode_parts;
#[cfg(test)]
mod devices;
#[cfg(test)]
mod embedding;
#[cfg(test)]
mod end_setting;
#[cfg(test)]
mod ends;
#[cfg(test)]
mod ends_memory;
#[cfg(test)]
mod events;
#[cfg(test)]
mod ext;
#[cfg(test)]
mod ext_parts;
#[cfg(test)]
mod feed;
#[cfg(test)]
mod feed_memory;
#[cfg(test)]
mod metadata;
#[cfg(test)]
mod outbox;
#[cfg(test)]
mod pieces;
#[cfg(test)]
mod pumps;
#[cfg(test)]
mod tables;
#[cfg(test)]
mod wire_handshakes;
#[cfg(test)]
mod wire_messages;
