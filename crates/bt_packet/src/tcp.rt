//! Segments of TCP (RFC 9293).
ghost use Rattle.std.specs.Prelude.{◌≡◌, option_map};
ghost use Rattle.bt_packet.specs.Ip.{contents};
ghost use Rattle.bt_packet.specs.Segments.{IsTold};
ghost use Rattle.bt_packet.specs.Tcp.{acked_of, flags_of as flags_by_rule, segment, segment_in as segment_in_contents, segment_of as segment_of_frame, tcp};

use crate::address::{Address, Host};
use crate::bytes::back;
use crate::ip::{Carried, carried_of};

/// The control bits of a segment that a connection's state depends on.
#[derive(Clone, Copy, PartialEq, Eq, Debug)]
pub struct Flags {
    pub fin: bool,
    pub syn: bool,
    pub rst: bool,
    pub ack: bool,
}

/// A segment of TCP.
#[derive(Clone, Copy)]
pub struct Segment<'a> {
    pub source: Address,
    pub target: Address,
    pub sequence: u32,
    /// The acknowledgment number, if the segment has one.
    pub acked: Option<u32>,
    pub flags: Flags,
    /// The data, as far as it was captured.
    pub payload: &'a [u8],
    /// The data's length on the wire.
    pub length: u64,
}

/// Returns the flags of a byte of control bits.
fn flags_of(bits: u8) -> Flags
    ensures { result ≡ flags_by_rule bits }
{
    Flags {
        fin: bits & 0x01 > 0,
        syn: bits & 0x02 > 0,
        rst: bits & 0x04 > 0,
        ack: bits & 0x10 > 0,
    }
}

/// Returns an acknowledgment number, if the flag says that it counts.
fn acked(ack: bool, number: u32) -> Option<u32>
    ensures { result ≡ acked_of ack number }
{
    if ack { Some(number) } else { None }
}

/// Returns the segment that begins bytes, and is `length` bytes long on the wire.
#[tactic(auto, using(crate::proofs::Segments::tcp_short, crate::proofs::Segments::tcp_cut, crate::proofs::Segments::tcp_low))]
fn read_segment(source: Host, target: Host, length: u64, bytes: &[u8]) -> Option<Segment<'_>>
    ensures { option_map segment result ≡ tcp source target length bytes.now }
{
    let [s0, s1, d0, d1, n0, n1, n2, n3, a0, a1, a2, a3, rest @ ..] = bytes else {
        return None;
    };
    let [offset, bits, _, _, _, _, _, _, rest @ ..] = rest else {
        return None;
    };
    if *offset / 16 < 5 {
        return None;
    }
    let header = 4 * usize::from(*offset / 16);
    let flags = flags_of(*bits);
    Some(Segment {
        source: Address {
            host: source,
            port: u16::from_be_bytes([*s0, *s1]),
        },
        target: Address {
            host: target,
            port: u16::from_be_bytes([*d0, *d1]),
        },
        sequence: u32::from_be_bytes([*n0, *n1, *n2, *n3]),
        acked: acked(flags.ack, u32::from_be_bytes([*a0, *a1, *a2, *a3])),
        flags,
        payload: back(rest, header - 20),
        length: length.saturating_sub(header as u64),
    })
}

/// Returns the segment of TCP that a packet carries.
pub fn segment_in<'a>(carried: &Carried<'a>) -> Option<Segment<'a>>
    ensures { option_map segment result ≡ segment_in_contents (contents carried.now) }
{
    if carried.protocol != 6 {
        return None;
    }
    read_segment(
        carried.source,
        carried.target,
        carried.length,
        carried.payload,
    )
}

/// Returns the segment of TCP that a frame carries.
///
/// `link` is the frame's link type, `bytes` what was captured of it, and `wire` its length on the wire. A fragment carries none.
pub fn segment_of(link: u32, bytes: &[u8], wire: u32) -> Option<Segment<'_>>
    ensures told { IsTold link bytes.now wire (option_map segment result) }
    ensures value { option_map segment result ≡ segment_of_frame link bytes.now wire }
{
    segment_in(&carried_of(link, bytes, wire)?)
}
