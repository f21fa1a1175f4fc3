//! A session of two peers: two ends linked to each other in memory, run by a list of steps.
//!
//! [`run_link`] runs them. The ends, the steps and the theorems about links are in crates below.
#![tactic(auto)]

mod facts;
pub mod laws;
mod link;
mod matching;
mod node;
mod report;
mod run;

pub use bt_end::{
    Announce, Config, End, EndError, HIGH_WATER, Role, SayError, Turn, TurnError, Window,
};
pub use bt_metadata::{
    Assembly, BadSize, BlockError, MAX_METADATA, NewError, Reply, Server, Unfinished, WINDOW,
};
pub use link::{Outcome, Side, Step};
pub use report::{LinkError, LinkReport, MOST_STEPS, run_link};
pub use run::Connection;
