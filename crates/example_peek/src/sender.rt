//! What this program sends: each message is checked as the peer would check it.
use bt_bencode::{ByteString, Value};
use bt_ext::{Ext, Kind, Table, dict_of, handshake_dict};
use bt_feed::{Outbox, PeerError, Target, peer_context};
use bt_text::shown::shown_message;
use bt_wire::{Handshake, Message, Order, Own, Reserved, encode, next, spell_handshake};
use std::alloc::Global;

/// The one piece that is served.
const PIECE: &[u8] = b"These are the bytes of piece 0.";

/// The sender, what is known of the peer, the order of what was sent, and the bytes that wait to be written.
#[derive(Drop)]
pub struct Sender {
    own: Own,
    theirs: Reserved,
    table: Table,
    order: Order,
    out: Outbox,
}

impl Sender {
    /// Makes a sender that has sent nothing, and knows nothing of the peer.
    pub fn new(alloc: Global, own: Own) -> Sender {
        Sender {
            own,
            theirs: Reserved(0),
            table: Table::new(alloc),
            order: Order::Fresh,
            out: Outbox::new(alloc),
        }
    }

    /// Queues the handshake, which comes first.
    ///
    /// # Errors
    /// `Memory` when out of memory.
    pub fn begin(&mut self, peer_id: [u8; 20]) -> Result<(), PeerError> {
        let handshake = Handshake {
            reserved: self.own.reserved,
            info_hash: self.own.info_hash.unwrap_or([0; 20]),
            peer_id,
        };
        self.out.queue(&spell_handshake(&handshake))?;
        Ok(())
    }

    /// Queues a message, if it is legal for the peer.
    fn queue(&mut self, alloc: Global, message: &Message) -> Result<(), PeerError> {
        let context = peer_context(&self.own, self.theirs, &self.table);
        let bytes = encode(alloc, &context, self.order, message)?;
        self.out.queue(bytes.as_slice())?;
        self.order = next(self.order, message);
        Ok(())
    }

    /// Queues a message, if it is legal for the peer, and prints it.
    ///
    /// # Errors
    /// `Illegal` if it isn't legal for the peer, `Memory` when out of memory.
    pub fn send(&mut self, rt: &HostRuntime, message: &Message) -> Result<(), PeerError> {
        self.queue(rt.alloc(), message)?;
        let _ = println!(rt; "> {}", shown_message(message));
        Ok(())
    }

    /// Writes all that waits.
    ///
    /// # Errors
    /// `Write` if a write failed or took no byte.
    pub fn flush<W: Target>(&mut self, writer: &mut W) -> Result<(), PeerError> {
        let waiting = self.out.bytes().len();
        self.out.drain(writer, waiting)?;
        Ok(())
    }

    /// Queues an extended handshake, with the ids under which this program wants extended messages.
    fn announce(&mut self, rt: &HostRuntime) -> Result<(), PeerError> {
        let dict = handshake_dict(rt.alloc(), self.own.reg, None)?;
        let rest = ByteString::from_vec(Vec::new(rt.alloc()));
        self.send(rt, &Message::Extended(Ext::Handshake { dict, rest }))
    }

    /// Answers the peer's handshake with what this program has and wants.
    ///
    /// # Errors
    /// As [`Sender::send`].
    pub fn greet(&mut self, rt: &HostRuntime, theirs: &Handshake) -> Result<(), PeerError> {
        self.theirs = theirs.reserved;
        let context = peer_context(&self.own, self.theirs, &self.table);
        if context.fast {
            self.send(rt, &Message::HaveAll)?;
        }
        if context.ext {
            self.announce(rt)?;
        }
        Ok(())
    }

    /// Learns the ids under which the peer wants extended messages.
    ///
    /// # Errors
    /// `Memory` when out of memory.
    pub fn learn(&mut self, dict: &Value) -> Result<(), PeerError> {
        self.table.apply(dict)?;
        Ok(())
    }

    /// Answers a request for a block.
    ///
    /// # Errors
    /// As [`Sender::send`].
    pub fn serve(
        &mut self,
        rt: &HostRuntime,
        index: u32,
        begin: u32,
        length: u32,
    ) -> Result<(), PeerError> {
        let start = begin as usize;
        let end = start.saturating_add(length as usize);
        let message = match PIECE.get(start..end) {
            Some(block) if index == 0 => Message::Piece {
                index,
                begin,
                block: ByteString::from_vec(Vec::from_slice(rt.alloc(), block)?),
            },
            _ => Message::Reject {
                index,
                begin,
                length,
            },
        };
        self.send(rt, &message)
    }

    /// Rejects a request for metadata, under the peer's id.
    ///
    /// # Errors
    /// As [`Sender::send`].
    pub fn refuse(&mut self, rt: &HostRuntime, kind: Kind) -> Result<(), PeerError> {
        let Kind::Request(piece) = kind else {
            return Ok(());
        };
        let dict = dict_of(rt.alloc(), Kind::Reject(piece))?;
        let rest = ByteString::from_vec(Vec::new(rt.alloc()));
        self.send(rt, &Message::Extended(Ext::Metadata { dict, rest }))
    }
}
