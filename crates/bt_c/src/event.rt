//! What an item made of an end, as a struct of C. The next call fills it.
ghost use Rattle.std.specs.Prelude.{◌≡◌};
ghost use Rattle.bt_c.specs.Nexts.{ShowsEvent};
ghost use Rattle.bt_end.specs.declared.event.Event.TheVariants.{Announced};

use crate::reader::flag_of;
use bt_end::Event;

/// What an item made of an end. A flag is on if it isn't 0.
#[repr(C)]
#[derive(Clone, Copy)]
pub struct BtEvent {
    /// The size of metadata that the peer announced, if `has_size` is on.
    pub size: u64,
    /// Which event it is, 0 to 10.
    pub kind: u32,
    /// The number of a block of metadata.
    pub piece: u32,
    /// The id under which the peer wants metadata messages, if `has_id` is on.
    pub id: u8,
    pub has_id: u8,
    pub has_size: u8,
    /// Metadata of this size is fetched from now on.
    pub begins: u8,
    /// The peer's id.
    pub peer_id: [u8; 20],
}

/// Nothing but a kind and a block.
fn plain(kind: u32, piece: u32) -> BtEvent
    ensures { (result.kind ≡ kind) × (result.piece ≡ piece) × (result.has_id ≡ 0) × (result.has_size ≡ 0) }
{
    BtEvent {
        size: 0,
        kind,
        piece,
        id: 0,
        has_id: 0,
        has_size: 0,
        begins: 0,
        peer_id: [0; 20],
    }
}

/// What the peer's extended handshake announced.
fn announced(id: Option<u8>, size: Option<u64>, begins: bool) -> BtEvent
    ensures { ShowsEvent result (Announced id size begins) }
{
    let mut event = plain(2, 0);
    if let Some(id) = id {
        event.id = id;
        event.has_id = 1;
    }
    if let Some(size) = size {
        event.size = size;
        event.has_size = 1;
    }
    event.begins = flag_of(begins);
    event
}

/// Returns the event by numbers.
pub fn event_of(event: Event) -> BtEvent
    ensures { ShowsEvent result event }
{
    match event {
        Event::Opened(handshake) => {
            let peer_id = handshake.peer_id;
            BtEvent {
                peer_id,
                ..plain(1, 0)
            }
        }
        Event::Announced { id, size, begins } => announced(id, size, begins),
        Event::Block(piece) => plain(3, piece),
        Event::Rejected(piece) => plain(4, piece),
        Event::Fetched => plain(5, 0),
        Event::Mismatched => plain(6, 0),
        Event::Served(piece) => plain(7, piece),
        Event::Declined(piece) => plain(8, piece),
        Event::Requested { .. } => plain(9, 0),
        Event::Piece { .. } => plain(10, 0),
        Event::Other => plain(0, 0),
    }
}
