//! An item of a stream, and where and why one is refused.
use crate::fault::Reason;
use crate::handshake::Handshake;
use crate::message::Message;

/// An item of a stream: the handshake, or a message after it.
#[derive(Debug, Drop)]
pub enum Item {
    Handshake(Handshake),
    Message(Message),
}

/// Where and why a stream is refused.
#[derive(Clone, Copy, PartialEq, Eq, Debug)]
pub struct Refusal {
    /// The number of the message; 0 for the handshake.
    pub message: u64,
    /// The offset, counted from the start of the stream.
    pub at: u64,
    pub reason: Reason,
}
