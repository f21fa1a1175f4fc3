//! What is there of a message that is refused.
ghost use Rattle.std.specs.Prelude.{◌≡◌, drop};
ghost use Rattle.bt_rows.specs.Refused.{byte_inside, first_or_zero, message_in, number_or_zero};

use bt_wire::number_at_front;

/// What is there of a message that is refused. A number that isn't there is 0.
#[derive(Clone, Copy)]
pub struct RefusedMessage {
    /// Its offset in the stream.
    pub start: u64,
    /// Its length prefix.
    pub length: u32,
    pub id: u8,
    /// The extended id, of an extended message (BEP 10).
    pub ext: u8,
    /// The number of the four bytes at the refusal's offset.
    pub index: u32,
    /// The message's byte at the refusal's offset.
    pub byte: Option<u8>,
}

/// Returns the bytes from a place on.
fn from(bytes: &[u8], place: usize) -> &[u8]
    ensures { result.now ≡ drop place bytes.now }
{
    &bytes[place.min(bytes.len())..]
}

/// Returns the first byte, or 0.
fn first(bytes: &[u8]) -> u8
    ensures { result ≡ first_or_zero bytes.now }
{
    match bytes {
        [byte, ..] => *byte,
        [] => 0,
    }
}

/// Returns the number of the first four bytes, or 0.
fn number(bytes: &[u8]) -> u32
    ensures { result ≡ number_or_zero bytes.now }
{
    if bytes.len() < 4 {
        0
    } else {
        number_at_front(bytes)
    }
}

/// Returns the byte at a place of a message of this length prefix.
fn byte_at(size: u32, place: usize, bytes: &[u8]) -> Option<u8>
    ensures { result ≡ byte_inside size place bytes.now }
{
    if (place as u64) < 4 + u64::from(size) {
        bytes.get(place).copied()
    } else {
        None
    }
}

impl RefusedMessage {
    /// Returns what is there of the message at the offset `start` that is refused at the offset `at`.
    ///
    /// `bytes` has the stream's bytes from `start` on, at least up to the offset `at`, if the stream goes so far.
    pub fn of(start: u64, bytes: &[u8], at: u64) -> RefusedMessage
        ensures { result ≡ message_in start bytes.now at }
    {
        let place = at.saturating_sub(start) as usize;
        let length = number(bytes);
        RefusedMessage {
            start,
            length,
            id: first(from(bytes, 4)),
            ext: first(from(bytes, 5)),
            index: number(from(bytes, place)),
            byte: byte_at(length, place, bytes),
        }
    }
}
