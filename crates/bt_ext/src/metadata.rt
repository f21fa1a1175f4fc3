//! Metadata messages (BEP 9), except their parsing.
ghost use Rattle.std.specs.Prelude.{◌≡◌};
ghost use Rattle.bt_ext.specs.Metadata.{is_malformed, is_block_ok};

/// What a metadata message is.
#[derive(Clone, Copy, PartialEq, Eq)]
pub enum Kind {
    /// Requests a block (BEP 9 calls it a piece).
    Request(u32),
    /// Has a block, and announces the size of the whole metadata in bytes, at least 1.
    Data { piece: u32, total: u64 },
    /// Rejects a request for a block.
    Reject(u32),
    /// Of a type that BEP 9 doesn't have.
    Other,
    /// A key that its type needs is missing, or its value is no integer in range.
    Malformed,
}

/// The length of a block, except the last one.
const BLOCK: u64 = 16_384;

/// Returns whether a message is of the kind `Malformed`.
pub fn is_malformed(kind: Kind) -> bool
    ensures { result ≡ is_malformed kind }
{
    matches!(kind, Kind::Malformed)
}

/// Returns whether `rest_len` bytes may follow the dictionary of a message.
///
/// The block of a data message is one of the metadata's and has its length: 16,384 bytes, or what is left for the last block.
/// Nothing follows the dictionary of a request or a reject.
pub fn block_ok(kind: Kind, rest_len: usize) -> bool
    ensures { result ≡ is_block_ok kind rest_len }
{
    match kind {
        Kind::Request(_) | Kind::Reject(_) => rest_len == 0,
        Kind::Data { piece, total } => {
            let whole = total / BLOCK;
            let left = total % BLOCK;
            let piece = piece as u64;
            if piece < whole {
                rest_len as u64 == BLOCK
            } else if piece == whole && left > 0 {
                rest_len as u64 == left
            } else {
                false
            }
        }
        Kind::Other | Kind::Malformed => true,
    }
}
