//! The bodies of pcapng blocks.
ghost use Rattle.std.specs.Prelude.{◌≡◌, ◌≤◌, length, min};
ghost use Rattle.std.specs.Option.{option_map};
ghost use Rattle.bt_pcap.specs.Interfaces.{interfaces_of};
ghost use Rattle.bt_pcap.specs.Packets.{packet_at as at_time, packet_on, simple_on, snapped};
ghost use Rattle.bt_pcap.specs.Reading.{differs, lacks, read_stamped, read_packet, read_interface, read_interfaces, least, most};
ghost use Rattle.bt_pcap.specs.Steps.{captured};

use crate::fronts::{KEEP, LONGEST, NEED, Packet};
use crate::interfaces::{Interface, Interfaces};
use crate::numbers::{Order, at_most, u16_at, u32_at};
use crate::options::{nanos, offset, resolution};

/// The type of an interface description block.
const INTERFACE: u32 = 1;
/// The type of an obsolete packet block.
const OBSOLETE: u32 = 2;
/// The type of a simple packet block.
const SIMPLE: u32 = 3;
/// The type of an enhanced packet block.
const ENHANCED: u32 = 6;

/// Returns the length of the fields that a body of that type has at least.
#[tactic(auto, unfolding(crate::specs::Reading::least))]
pub(crate) fn least_body(kind: u32) -> u32
    ensures { result ≡ least kind }
{
    match kind {
        INTERFACE => 8,
        OBSOLETE | ENHANCED => 20,
        SIMPLE => 4,
        _ => 0,
    }
}

/// Returns the length that a body of that type has at most.
#[tactic(auto, unfolding(crate::specs::Reading::most))]
pub(crate) fn most_body(kind: u32) -> u32
    ensures { result ≡ most kind }
{
    match kind {
        OBSOLETE | ENHANCED => 20 + LONGEST,
        SIMPLE => 4 + LONGEST,
        _ => u32::MAX,
    }
}

/// Tells whether the length after a block's body is another one than that before it, if it is looked at.
pub(crate) fn is_unlike(order: Order, total: u32, bytes: &[u8]) -> bool
    requires size { 4 ≤ total }
    requires enough { min total 1048604 ≤ length bytes.now }
    ensures { result ≡ differs order total bytes.now }
{
    let size = total as usize;
    if size > NEED {
        return false;
    }
    let (again, _) = u32_at(order, &bytes[size - 4..]);
    again != total
}

/// Tells whether a block of that type has no packet, though it should: its interface isn't described.
pub(crate) fn is_lacking(kind: u32, packet: &Option<Packet>) -> bool
    ensures { result ≡ lacks kind (option_map captured packet.now) }
{
    packet.is_none() && matches!(kind, OBSOLETE | SIMPLE | ENHANCED)
}

/// Reads an interface description.
fn interface(order: Order, body: &[u8]) -> Interface
    requires { 8 ≤ length body.now }
    ensures { result ≡ read_interface order body.now }
{
    let (link, rest) = u16_at(order, body);
    let (_, rest) = u16_at(order, rest);
    let (snap, options) = u32_at(order, rest);
    let options = at_most(options, KEEP);
    Interface {
        link,
        resolution: resolution(order, options),
        offset: offset(order, options),
        snap,
    }
}

/// Notes the interface that a block describes, if it does.
#[tactic(auto, unfolding(crate::specs::Reading::read_interfaces, crate::specs::Reading::least))]
pub(crate) fn note(interfaces: &mut Interfaces, order: Order, kind: u32, body: &[u8])
    requires { least kind ≤ length body.now }
    ensures { interfaces_of interfaces.new ≡ read_interfaces order (interfaces_of interfaces.old) kind body.now }
{
    if kind == INTERFACE {
        interfaces.note(interface(order, body));
    }
}

/// Makes a packet of an interface, at a time.
fn packet_at(interface: Interface, nanos: u64, bytes: &[u8], length: u32) -> Packet<'_>
    ensures { captured result ≡ at_time interface nanos bytes.now length }
{
    Packet {
        link: u32::from(interface.link),
        nanos,
        bytes: at_most(bytes, KEEP),
        length,
    }
}

/// Makes a packet of an interface, if the interface is noted.
fn packet(interface: Option<Interface>, ticks: u64, bytes: &[u8], length: u32) -> Option<Packet<'_>>
    ensures { option_map captured result ≡ packet_on interface ticks bytes.now length }
{
    match interface {
        None => None,
        Some(interface) => {
            let nanos = nanos(ticks, interface.resolution, interface.offset);
            Some(packet_at(interface, nanos, bytes, length))
        }
    }
}

/// Returns how many bytes of a simple packet were captured, by its interface's snap length and its own.
fn captured_length(snap: u32, length: u32) -> u32
    ensures { result ≡ snapped snap length }
{
    if snap == 0 { length } else { snap.min(length) }
}

/// Makes a simple packet of an interface, if the interface is noted. It has no time, and what follows its bytes is padding.
fn simple(interface: Option<Interface>, bytes: &[u8], length: u32) -> Option<Packet<'_>>
    ensures { option_map captured result ≡ simple_on interface bytes.now length }
{
    match interface {
        None => None,
        Some(interface) => {
            let size = captured_length(interface.snap, length);
            Some(packet_at(interface, 0, at_most(bytes, size as usize), length))
        }
    }
}

/// Reads a packet from its time stamp on.
#[tactic(auto, unfolding(crate::specs::Reading::read_stamped))]
fn stamped<'a>(
    order: Order,
    interfaces: &Interfaces,
    number: usize,
    bytes: &'a [u8],
) -> Option<Packet<'a>>
    requires { 16 ≤ length bytes.now }
    ensures { option_map captured result ≡ read_stamped order (interfaces_of interfaces.now) number bytes.now }
{
    let (high, rest) = u32_at(order, bytes);
    let (low, rest) = u32_at(order, rest);
    let (captured, rest) = u32_at(order, rest);
    let (length, rest) = u32_at(order, rest);
    let ticks = u64::from(high) * 0x1_0000_0000 + u64::from(low);
    let bytes = at_most(rest, captured as usize);
    packet(interfaces.get(number), ticks, bytes, length)
}

/// Reads the packet of a block, if it has one.
#[tactic(auto, unfolding(crate::specs::Reading::read_packet, crate::specs::Reading::least))]
pub(crate) fn packet_of<'a>(
    order: Order,
    interfaces: &Interfaces,
    kind: u32,
    body: &'a [u8],
) -> Option<Packet<'a>>
    requires { least kind ≤ length body.now }
    ensures { option_map captured result ≡ read_packet order (interfaces_of interfaces.now) kind body.now }
{
    match kind {
        ENHANCED => {
            let (number, rest) = u32_at(order, body);
            stamped(order, interfaces, number as usize, rest)
        }
        OBSOLETE => {
            let (number, rest) = u16_at(order, body);
            let (_, rest) = u16_at(order, rest);
            stamped(order, interfaces, usize::from(number), rest)
        }
        SIMPLE => {
            let (length, rest) = u32_at(order, body);
            simple(interfaces.get(0), rest, length)
        }
        _ => None,
    }
}
