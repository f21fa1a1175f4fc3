//! Tests of the crates that read captures, in a crate of their own, so that no code is proved twice for them.
#![tactic(auto)]

#[cfg(test)]
mod captures;
#[cfg(test)]
mod connections;
#[cfg(test)]
mod datagrams;
#[cfg(test)]
mod files;
#[cfg(test)]
mod flows;
#[cfg(test)]
mod frames;
#[cfg(test)]
mod halves;
#[cfg(test)]
mod late;
#[cfg(test)]
mod objects;
#[cfg(test)]
mod order;
#[cfg(test)]
mod remarks;
#[cfg(test)]
mod rings;
#[cfg(test)]
mod runs;
#[cfg(test)]
mod streams;
#[cfg(test)]
mod told;
#[cfg(test)]
mod torrents;
