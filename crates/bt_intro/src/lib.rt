//! What each side of a connection announces about itself, as its bytes come, and when both have.
//!
//! Addresses, segments and times don't belong here.
#![tactic(auto)]

mod hello;
mod introduction;
mod listener;
mod name;
mod settling;
mod voice;

pub use introduction::Introduction;
pub use settling::{Receiver, is_settled, receiver_of};
