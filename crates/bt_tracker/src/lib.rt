//! Trackers: where a link's tracker is, what it is asked, and what its answer says.
//!
//! Over UDP (BEP 15) a tracker is asked for a connection, and then by an announce for the peers of an info hash. Nothing is sent or
//! received here.
#![tactic(auto)]

mod announce;
mod answer;
mod question;
mod udp;
mod url;

pub use announce::{Announce, Event};
pub use answer::{HttpAnswer, HttpError, MAX_HTTP_ANSWER, read_http_answer};
pub use question::http_question;
pub use udp::{UdpAnswer, announce_question, connect_question, read_answer};
pub use url::{Tracker, UrlError, read_tracker};
