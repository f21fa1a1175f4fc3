//! The handshake of BEP 3: parsing and encoding.
ghost use Rattle.std.specs.Prelude.{◌≡◌, ◌≤◌, ◌<◌, ◌^◌, length, take, drop};
ghost use Rattle.bt_wire.specs.Numbers.{be64};
ghost use Rattle.bt_wire.specs.Judged.{AreHandshake, IsHandshakeIn};
ghost use Rattle.bt_wire.specs.Fronts.{IsOpening};
ghost use Rattle.bt_wire.specs.Handshakes.{hand, hand_fault, first_difference as first_of, is_other_hash};

use crate::context::Own;
use crate::fault::{Reason, Refused};
use crate::reserved::Reserved;

/// What a peer sends first (BEP 3, "peer protocol").
#[derive(Clone, Copy, PartialEq, Eq, Debug)]
pub struct Handshake {
    pub reserved: Reserved,
    pub info_hash: [u8; 20],
    pub peer_id: [u8; 20],
}

/// What a handshake begins with: the length of the protocol's name, and the name.
const PROTOCOL: &[u8; 20] = b"\x13BitTorrent protocol";

/// Encodes a handshake (BEP 3, "peer protocol").
pub fn spell_handshake(handshake: &Handshake) -> [u8; 68]
    ensures { result ≡ hand handshake.now }
{
    let mut bytes = [0u8; 68];
    bytes[..20].copy_from_slice(PROTOCOL);
    bytes[20..28].copy_from_slice(&handshake.reserved.0.to_be_bytes());
    bytes[28..48].copy_from_slice(&handshake.info_hash);
    bytes[48..].copy_from_slice(&handshake.peer_id);
    bytes
}

/// Returns the fault of the bytes of a handshake, as far as they have come.
///
/// The fault is the first byte that differs from the fixed ones; or, once 48 bytes are there, the info hash if it isn't
/// the wanted one. Its offset is counted from the start of the handshake.
#[tactic(auto, unfolding(crate::specs::Handshakes::hand_fault))]
pub fn judge_handshake(own: &Own, bytes: &[u8]) -> Option<Refused>
    ensures { result ≡ hand_fault own.now bytes.now }
{
    if let Some(place) = first_difference(PROTOCOL, bytes) {
        return Some(Refused::new(place as u64, Reason::BadProtocol));
    }
    if bytes.len() >= 48 && has_other_hash(own, &bytes[28..48]) {
        return Some(Refused::new(28, Reason::WrongInfoHash));
    }
    None
}

/// The first place at which the bytes differ from fixed ones.
fn first_difference(fixed: &[u8], bytes: &[u8]) -> Option<usize>
    ensures { result ≡ first_of fixed.now bytes.now }
{
    let count = fixed.len().min(bytes.len());
    for i in 0..count {
        if fixed[i] != bytes[i] {
            return Some(i);
        }
    }
    None
}

/// Whether another info hash is wanted.
fn has_other_hash(own: &Own, hash: &[u8]) -> bool
    ensures { result ≡ is_other_hash own.now.info_hash hash.now }
{
    match &own.info_hash {
        Some(wanted) => wanted.as_slice() != hash,
        None => false,
    }
}

/// What a stream begins with: a fault, less than a handshake, or a handshake.
#[derive(Clone, Copy)]
pub enum Opening {
    Refused(Refused),
    Partial,
    Whole(Handshake),
}

/// Parses the handshake that a stream begins with (BEP 3).
pub fn read_opening(own: &Own, bytes: &[u8]) -> Opening
    ensures { IsOpening own.now bytes.now result }
{
    if let Some(refused) = judge_handshake(own, bytes) {
        return Opening::Refused(refused);
    }
    if bytes.len() < 68 {
        return Opening::Partial;
    }
    Opening::Whole(fields_in(bytes))
}

/// Returns the handshake that the bytes are, without a second check.
///
/// They are those of a handshake, as if [`read_opening`] returned it before.
pub fn handshake_judged(bytes: &[u8]) -> Handshake
    requires { AreHandshake bytes.now }
    ensures { IsHandshakeIn bytes.now result }
{
    fields_in(bytes)
}

/// The handshake with the fields that the bytes after the protocol's name are.
#[inline(always)]
fn fields_in(bytes: &[u8]) -> Handshake
    requires { 68 ≤ length bytes.now }
    ensures small { result.reserved.0 < 2 ^ 64 }
    ensures reserved { be64 result.reserved.0 ≡ take 8 (drop 20 bytes.now) }
    ensures info_hash { result.info_hash ≡ take 20 (drop 28 bytes.now) }
    ensures peer_id { result.peer_id ≡ take 20 (drop 48 bytes.now) }
{
    let mut info_hash = [0u8; 20];
    info_hash.copy_from_slice(&bytes[28..48]);
    let mut peer_id = [0u8; 20];
    peer_id.copy_from_slice(&bytes[48..68]);
    Handshake {
        reserved: Reserved(reserved_of(&bytes[20..28])),
        info_hash,
        peer_id,
    }
}

/// The number that eight bytes say, the highest byte first.
fn reserved_of(bytes: &[u8]) -> u64
    requires { length bytes.now ≡ 8 }
    ensures { be64 result ≡ bytes.now }
{
    u64::from_be_bytes([
        bytes[0], bytes[1], bytes[2], bytes[3], bytes[4], bytes[5], bytes[6], bytes[7],
    ])
}
