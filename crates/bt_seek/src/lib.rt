//! The search for the peers of a torrent: it asks trackers (BEP 3, BEP 15) and nodes of the DHT (BEP 5), and takes peers from answers.
//!
//! [`Seek`] decides what is asked and which answer counts. A [`Post`] sends, receives, draws random bytes and has the clock: nothing
//! here opens a socket or waits.
#![tactic(auto)]

mod address;
mod laws;
mod named;
mod node;
mod post;
mod question;
mod said;
mod search;
mod seek;
mod sending;
mod table;

pub use laws::{few, grows, one_course, sparing};
pub use post::{Came, Post};
pub use question::{Kind, Question};
pub use search::{Ids, Summary};
pub use seek::{Seek, Turn};
