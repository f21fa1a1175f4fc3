//! Tests of the crates that find peers: `bt_address`, `bt_tracker`, `bt_dht`, `bt_seek`, `bt_post` and `bt_finding`.
//!
//! `rt ci` proves and runs them. While you write, `rt try --test` in this crate's folder runs them without a proof.
#![tactic(auto)]

#[cfg(test)]
mod addresses;
#[cfg(test)]
mod nodes;
#[cfg(test)]
mod pages;
#[cfg(test)]
mod places;
#[cfg(test)]
mod seeks;
#[cfg(test)]
mod trackers;
