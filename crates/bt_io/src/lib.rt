//! Where bytes come from and where they go: sources and targets that count their calls, and an outbox of bytes to be sent.
//!
//! Nothing here knows of BitTorrent.
#![tactic(auto)]

mod counts;
mod failed;
mod host;
mod memory;
mod outbox;
mod source;
mod target;

pub use failed::Failed;
pub use host::Host;
pub use memory::{MemSource, MemTarget};
pub use outbox::{Memory, Outbox, WriteFault, write_front};
pub use source::Source;
pub use target::Target;
