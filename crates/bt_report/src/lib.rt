//! What is reported of a captured connection, as text.
//!
//! Of a client's name the first 60 bytes are told, and a dot for each that isn't printable ASCII.
#![tactic(auto)]

mod closing;
mod ends;
mod finding;
mod names;
mod objects;
mod printing;
mod quoted;
mod reasons;
mod remarked;
mod report;
mod sides;
mod utp;
mod why;

pub use finding::Finding;
pub use objects::ReportObject;
pub use report::{Before, Body, Closed, Direction, Judged, Left, Report, Sender, Title, Told};
pub use utp::{UtpObject, UtpPackets};
