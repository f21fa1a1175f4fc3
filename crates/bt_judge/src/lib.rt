//! Verdicts of a stream whose bytes come piece by piece, by both rule sets.
//!
//! What follows a piece isn't known, so a verdict that stands only at the stream's end is told on request. Capture files and
//! segments don't belong here.
#![tactic(auto)]

mod fault;
mod judge;
pub mod laws;
mod reading;
mod zeros;

pub use fault::JudgeFault;
pub use judge::{Judge, Unreads, Verdicts};
pub use reading::{Reading, Unread};
