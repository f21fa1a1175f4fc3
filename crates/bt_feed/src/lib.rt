//! Incremental parsing of a stream: its items, however it is split into chunks, over one buffer that is reserved once.
//!
//! What is sent isn't parsed here; `peer_context` is what encoding needs to know of the peer.
#![tactic(auto)]

mod buffer;
mod discard;
mod feed;
mod items;
mod judged;
pub mod laws;
mod passing;
mod peer_error;
mod progress;
mod pumping;
mod sender;
mod sink;
mod stage;
mod transcript;
mod view;

pub use bt_io::{
    Failed, Host, MemSource, MemTarget, Memory, Outbox, Source, Target, WriteFault, write_front,
};
pub use discard::Discard;
pub use feed::{Feed, FeedError};
pub use items::{ItemError, Items};
pub use judged::Judged;
pub use peer_error::PeerError;
pub use pumping::{PumpError, pump, pump_piece, pump_with};
pub use sender::peer_context;
pub use sink::{Sink, SinkFault};
pub use stage::Stage;
pub use transcript::{Transcript, read_all};
pub use view::{Finish, TakeError, View, refusal_in, to_item};
