//! What an item did to an end.
ghost use Rattle.std.specs.Prelude.{◌≡◌};
ghost use Rattle.bt_wire.specs.Messages.{message_of};
ghost use Rattle.bt_end.specs.Events.{plain_event, is_mismatched};

use bt_wire::{Handshake, MessageView};

/// What an item did to an end.
#[derive(Clone, Copy, PartialEq, Eq, Debug)]
pub enum Event {
    /// The peer's handshake was handled, and is this one: the connection is open.
    Opened(Handshake),
    /// The peer's extended handshake was handled.
    Announced {
        /// The id under which the peer wants metadata messages from now on.
        id: Option<u8>,
        /// The size of metadata in bytes that this handshake announces.
        size: Option<u64>,
        /// Whether metadata of this size is fetched from now on.
        begins: bool,
    },
    /// The block of this number was requested, and has come. Others are missing.
    Block(u32),
    /// The block of this number was requested, and the peer rejected it.
    Rejected(u32),
    /// The last block came, and the metadata is complete.
    Fetched,
    /// The last block came, and the SHA-1 isn't the info hash. The fetch started over.
    Mismatched,
    /// The peer requested the block of this number, which is queued.
    Served(u32),
    /// The peer requested a block of this number, and a reject is queued.
    Declined(u32),
    /// The peer requested a block of a piece: answering is up to the caller.
    Requested {
        index: u32,
        begin: u32,
        length: u32,
    },
    /// A block of a piece came. An end never requests one itself.
    Piece {
        index: u32,
        begin: u32,
    },
    /// The item did none of these.
    Other,
}

/// Returns what a message that isn't extended does to an end.
pub(crate) fn plain_event(message: &MessageView) -> Event
    ensures { result ≡ plain_event (message_of message.now) }
{
    match message {
        MessageView::Request {
            index,
            begin,
            length,
        } => Event::Requested {
            index: *index,
            begin: *begin,
            length: *length,
        },
        MessageView::Piece { index, begin, .. } => Event::Piece {
            index: *index,
            begin: *begin,
        },
        _ => Event::Other,
    }
}

impl Event {
    /// Returns whether the blocks that came are those of other metadata.
    pub fn is_mismatched(self) -> bool
        ensures { result ≡ is_mismatched self }
    {
        matches!(self, Event::Mismatched)
    }
}
