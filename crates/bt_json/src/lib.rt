//! The lines of `show --json`: a JSON object (RFC 8259) for each item, and one for the verdict.
//!
//! A line is written into a text that has [`LINE_ROOM`] for it, and ends with its only text of any length; or it is appended.
#![tactic(auto)]

mod announced;
mod lines;
mod members;
mod texts;

pub use lines::{add_handshake_line, handshake_line, message_line, verdict_line};
pub use members::add_message_line;
pub use texts::LINE_ROOM;
