//! Who receives: the receiver, what two peers have agreed on, and the order of messages.
ghost use Rattle.std.specs.Prelude.{◌≡◌};
ghost use Rattle.bt_wire.specs.Handshakes.{negotiated};

use crate::reserved::Reserved;
use bitflags::Flags;
use bt_ext::{Registered, Rules};

/// The receiver of a stream. Without an info hash it accepts every info hash.
///
/// A receiver with the Fast Extension and the Extension Protocol, for a torrent of one piece:
///
/// ```rust
/// Own {
///     reserved: Reserved(Reserved::FAST.0 | Reserved::EXT.0),
///     info_hash: Some(*b"\xa9\x99>6G\x06\x81j\xba>%qxP\xc2l\x9c\xd0\xd8\x9d"),
///     pieces: Some(1),
///     reg: Registered::metadata_only(ExtId::new(3)),
///     rules: Rules::Free,
///     limit: 32_768,
/// }
/// ```
#[derive(Clone, Copy, PartialEq, Eq, Debug)]
pub struct Own {
    /// The extensions that the receiver supports.
    pub reserved: Reserved,
    /// The only info hash that it accepts.
    pub info_hash: Option<[u8; 20]>,
    /// How many pieces the torrent has, if that is known.
    pub pieces: Option<u32>,
    /// The ids under which the receiver wants extensions.
    pub reg: Registered,
    /// The rules by which the receiver checks: lenient or strict.
    pub rules: Rules,
    /// The greatest length prefix that a message may have, in bytes.
    ///
    /// A feed takes 1 to 1,048,576.
    pub limit: u32,
}

/// What both peers have agreed on, as the receiver of one direction checks by it.
#[derive(Clone, Copy, PartialEq, Eq, Debug)]
pub struct Context {
    /// Both peers support the Fast Extension (BEP 6).
    pub fast: bool,
    /// Both peers support the Extension Protocol (BEP 10).
    pub ext: bool,
    /// How many pieces the torrent has, if that is known.
    pub pieces: Option<u32>,
    /// The receiver's ids of extensions.
    pub reg: Registered,
    /// The rules by which the receiver checks: lenient or strict.
    pub rules: Rules,
    /// The greatest length prefix that a message may have, in bytes.
    ///
    /// A feed takes 1 to 1,048,576.
    pub limit: u32,
}

/// Whether a bitfield, have all or have none may still come (BEP 3, BEP 6).
#[derive(Clone, Copy, PartialEq, Eq, Debug)]
pub enum Order {
    /// It may: only keep-alive, port, extended and unknown messages have come.
    Fresh,
    /// It may not: another message has come.
    Past,
}

/// Returns the context of messages that you receive from a peer.
///
/// `peer` has the reserved bits of the peer's handshake (BEP 3). Don't send by this context: metadata messages would carry
/// your extension id in place of the peer's.
pub fn negotiate(own: &Own, peer: Reserved) -> Context
    ensures { result ≡ negotiated own.now peer }
{
    Context {
        fast: own.reserved.contains(Reserved::FAST) && peer.contains(Reserved::FAST),
        ext: own.reserved.contains(Reserved::EXT) && peer.contains(Reserved::EXT),
        pieces: own.pieces,
        reg: own.reg,
        rules: own.rules,
        limit: own.limit,
    }
}
