//! What the sides of a connection say, as a caller tells it.

/// One of the two sides of a connection.
#[derive(Clone, Copy, Debug, PartialEq, Eq)]
pub enum Side {
    A,
    B,
}

/// A block of a piece, as a request names it.
#[derive(Clone, Copy, Debug, PartialEq, Eq)]
pub struct Block {
    pub index: u32,
    pub begin: u32,
    pub length: u32,
}

/// A message, as far as remarks need it.
///
/// The numbers are indexes of pieces, for `MetadataRequest` and `MetadataAnswer` of the metadata's pieces.
#[derive(Clone, Copy, Debug)]
pub enum Event<'a> {
    Handshake {
        /// Whether it has the bit of the Fast Extension.
        fast: bool,
    },
    Choke,
    Unchoke,
    AllowedFast(u32),
    HaveAll,
    Bitfield(&'a [u8]),
    Have(u32),
    Request(Block),
    Cancel(Block),
    /// A block with its data.
    Piece(Block),
    Reject(Block),
    MetadataRequest(u32),
    /// A piece of the metadata with its data, or a reject of it.
    MetadataAnswer(u32),
    /// Any other message.
    Other,
}

/// A message with its sender.
#[derive(Clone, Copy, Debug)]
pub struct Heard<'a> {
    pub side: Side,
    pub event: Event<'a>,
    /// Whether all that the other side has said up to here is known.
    pub known: bool,
    /// A number by which the caller finds the event again, for example its offset.
    pub mark: u64,
}

/// The remarks on an event.
#[derive(Clone, Copy, Debug, PartialEq, Eq)]
pub struct Remarks {
    /// An answer that nobody asked for.
    pub unasked: bool,
    /// A request while its sender was choked.
    pub choked: bool,
    /// A request again before its answer, though the other side hasn't dropped the first one.
    pub again: bool,
    /// A have of a piece that never came here.
    pub elsewhere: bool,
}

/// How the other side's direction ended.
#[derive(Clone, Copy, Debug, PartialEq, Eq)]
pub struct Ending {
    /// It closed the connection first.
    pub closed_first: bool,
    /// What it said isn't known up to its end.
    pub stopped: bool,
}
