//! The command line of the program: what its words ask for, and the ends of the commands that are no jobs.
//!
//! `main` of the program gives [`options::asked`] the words. Jobs, their receivers and their ends stand in `bt_run`, whose
//! modules are passed on.
#![tactic(auto)]

mod announced;
pub mod capture;
mod chosen;
pub mod commands;
pub mod ending;
pub mod fetch;
pub mod fetching;
pub mod input;
pub mod link;
pub mod looped;
pub mod options;
pub mod packed;
pub mod peers;
pub mod reading;
pub mod report;
pub mod serve;
pub mod stream;
mod texts;
pub mod torrent;
mod unread;

pub use bt_run::{hints, notice, other, run, values};
