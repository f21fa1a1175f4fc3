//! What a packet carries.
ghost use Rattle.std.specs.Prelude.{◌≡◌};
ghost use Rattle.bt_capture.specs.Sights.{seen, seen_in};

use bt_packet::{Segment, Unread, Utp, carried_of, segment_in, unread_of, utp_in};
use bt_pcap::Packet;

/// What a packet carries.
#[derive(Clone, Copy)]
pub enum Sight<'a> {
    /// A segment of TCP.
    Segment(Segment<'a>),
    /// A packet of uTP.
    Utp(Utp<'a>),
    /// Neither, and why.
    Other(Unread),
}

/// Tells what a packet carries.
pub fn sight_of<'a>(packet: &Packet<'a>) -> Sight<'a>
    ensures { seen result ≡ seen_in packet.now.link packet.now.bytes.now packet.now.length }
{
    let Some(carried) = carried_of(packet.link, packet.bytes, packet.length) else {
        return Sight::Other(unread_of(packet.link, packet.bytes));
    };
    if let Some(segment) = segment_in(&carried) {
        return Sight::Segment(segment);
    }
    match utp_in(&carried) {
        Some(utp) => Sight::Utp(utp),
        None => Sight::Other(unread_of(packet.link, packet.bytes)),
    }
}
