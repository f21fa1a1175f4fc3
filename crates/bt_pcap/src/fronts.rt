//! What a step hands out, and the front of an item that it looks at.
ghost use Rattle.std.specs.Prelude.{◌≡◌, ◌≤◌, ◌<◌, ◌+◌, min, length, take, IfSome, IfNone};
ghost use Rattle.bt_pcap.specs.Steps.{IsOf};

/// The most bytes of a packet that are kept.
pub const KEEP: usize = 1_048_576;

/// The most bytes that a step needs: `CaptureFile::step` never asks for more of them.
pub const NEED: usize = KEEP + 28;

/// The most bytes of a packet: a longer one is a fault of the file.
pub(crate) const LONGEST: u32 = 16_777_216;

/// A packet as it was captured.
#[derive(Clone, Copy, Debug, PartialEq, Eq)]
pub struct Packet<'a> {
    /// The link type of its interface.
    pub link: u32,
    /// Nanoseconds since 1970.
    pub nanos: u64,
    /// Its captured bytes, the first `KEEP` of them.
    pub bytes: &'a [u8],
    /// Its length on the wire.
    pub length: u32,
}

/// What a step found at the front of the bytes.
///
/// After an item go on after `used` of the bytes and `skip` more of the file, which needn't be read.
#[derive(Clone, Copy, Debug, PartialEq, Eq)]
pub enum Step<'a> {
    /// A packet.
    Packet {
        packet: Packet<'a>,
        used: usize,
        skip: u64,
    },
    /// A header, or a block without a packet.
    Passed {
        used: usize,
        skip: u64,
    },
    /// The bytes end inside the item. Nothing has changed.
    More,
}

/// Returns what of an item of that size is looked at, if all of it has come.
pub(crate) fn front(bytes: &[u8], size: usize) -> Option<&[u8]>
    ensures none { IfNone result (length bytes.now < min size NEED) }
    ensures whole { IfSome result (λ f. min size NEED ≤ length bytes.now) }
    ensures front { IfSome result (λ f. f.now ≡ take (min size NEED) bytes.now) }
{
    bytes.get(..size.min(NEED))
}

/// Passes over an item of that size, or hands out its packet.
pub(crate) fn item<'a>(packet: Option<Packet<'a>>, size: u64) -> Step<'a>
    ensures { IsOf packet.entry size result }
{
    let used = (size as usize).min(NEED);
    let skip = size - used as u64;
    match packet {
        Some(packet) => Step::Packet { packet, used, skip },
        None => Step::Passed { used, skip },
    }
}
