//! TCP as a capture shows it: where a sequence number stands, and one direction's bytes put in order.
#![tactic(auto)]

mod bits;
mod covered;
mod halves;
pub mod history;
pub mod laws;
mod places;
mod rings;

pub use covered::{Gap, Gaps, Span, Spans, TableFull};
pub use halves::{Half, PlaceFault};
pub use places::place;
pub use rings::{Put, Ring};
