//! Numbers of two, four and eight bytes in the byte order of a file or a section.
ghost use Rattle.std.specs.Prelude.{◌≡◌, ◌≤◌, ◌<◌, ◌^◌, length, drop, take};
ghost use Rattle.bt_pcap.specs.Numbers.{number16, number32, signed64};

/// The byte order of a file or a section.
#[derive(Clone, Copy, Debug, PartialEq, Eq)]
pub(crate) enum Order {
    /// The lowest byte comes first.
    Little,
    /// The highest byte comes first.
    Big,
}

/// Reads the number of the first two bytes, and returns the bytes after it.
#[tactic(auto, unfolding(crate::specs::Numbers::number16))]
pub(crate) fn u16_at(order: Order, bytes: &[u8]) -> (u16, &[u8])
    requires { 2 ≤ length bytes.now }
    ensures number { result.0 ≡ number16 order bytes.now }
    ensures rest { result.1.now ≡ drop 2 bytes.now }
{
    let field = [bytes[0], bytes[1]];
    let number = match order {
        Order::Little => u16::from_le_bytes(field),
        Order::Big => u16::from_be_bytes(field),
    };
    (number, &bytes[2..])
}

/// Reads the number of the first four bytes, and returns the bytes after it.
#[tactic(auto, unfolding(crate::specs::Numbers::number32))]
pub(crate) fn u32_at(order: Order, bytes: &[u8]) -> (u32, &[u8])
    requires { 4 ≤ length bytes.now }
    ensures number { result.0 ≡ number32 order bytes.now }
    ensures rest { result.1.now ≡ drop 4 bytes.now }
{
    let field = [bytes[0], bytes[1], bytes[2], bytes[3]];
    let number = match order {
        Order::Little => u32::from_le_bytes(field),
        Order::Big => u32::from_be_bytes(field),
    };
    (number, &bytes[4..])
}

/// Reads the signed number of eight bytes.
#[tactic(auto, unfolding(crate::specs::Numbers::signed64))]
pub(crate) fn i64_of(order: Order, field: [u8; 8]) -> i64
    ensures { result ≡ signed64 order field }
{
    match order {
        Order::Little => i64::from_le_bytes(field),
        Order::Big => i64::from_be_bytes(field),
    }
}

/// Returns the first `most` bytes, or all if there are fewer.
pub(crate) fn at_most(bytes: &[u8], most: usize) -> &[u8]
    ensures { result.now ≡ take most bytes.now }
{
    if most < bytes.len() {
        &bytes[..most]
    } else {
        bytes
    }
}
