//! The handshake and the messages that are sent to a peer, written into the caller's bytes.
//!
//! A message is judged by a reader that stands for the peer: it reads what was written.
ghost use Rattle.std.specs.Prelude.{◌≡◌, ◌≢◌, ◌+◌, ◌-◌, ◌<◌, ◌≤◌, ◌++◌, ◌^◌, length, drop, true, Some, None, MatchOption, IfSome};
ghost use Rattle.bt_bencode.specs.Bencoding.{ben};
ghost use Rattle.bt_ext.specs.Ids.{metadata_only};
ghost use Rattle.bt_ext.specs.Made.{IsMade, message_tree, handshake_tree};
ghost use Rattle.bt_wire.specs.Handshakes.{hand};
ghost use Rattle.bt_wire.specs.Ids.{kind_of, shape_by};
ghost use Rattle.bt_c.specs.Readers.{context_of, flagged, is_on};
ghost use Rattle.bt_c.specs.declared.item.BtItem.{BtItem};
ghost use Rattle.bt_ext.specs.declared.metadata.Kind.{Kind};
ghost use Rattle.bt_c.specs.Writing.{handshake_of as handshake_by, peer_context, head_by, rest_of, message_bytes, DoesNotFit, Writes, made_kind, IsExtendedItem};

use crate::item::{BtItem, bare, shape_of};
use crate::reader::{BtReader, flag_of, next_item};
use crate::receiver::{BtOwn, id_of, own_of};
use bt_bencode::{put_bytes, suffix};
use bt_ext::{DictText, Kind, Registered, handshake_text, message_text};
use bt_wire::{Handshake, Reserved, Shape, negotiate, spell_handshake};

/// Nothing is written.
const UNWRITTEN: u32 = 4;
/// The id of the keep-alive in an item.
const KEEP_ALIVE: u16 = 256;

/// What an end sends first.
#[repr(C)]
#[derive(Clone, Copy)]
pub struct BtHandshake {
    /// The reserved bits, as a big-endian number.
    pub reserved: u64,
    pub info_hash: [u8; 20],
    pub peer_id: [u8; 20],
}

fn handshake_of(handshake: &BtHandshake) -> Handshake
    ensures { result ≡ handshake_by handshake.now }
{
    Handshake {
        reserved: Reserved(handshake.reserved),
        info_hash: handshake.info_hash,
        peer_id: handshake.peer_id,
    }
}

/// Writes a handshake, and returns 68.
///
/// Returns 0 and writes nothing if there is less room.
#[unsafe(no_mangle)]
pub extern "C" fn bt_write_handshake(handshake: &BtHandshake, out: &mut [u8]) -> usize
    ensures written { 68 ≤ length out.old → (result ≡ 68) × (out.new ≡ hand (handshake_by handshake.now) ++ drop 68 out.old) }
    ensures unwritten { length out.old < 68 → (result ≡ 0) × (out.new ≡ out.old) }
{
    if out.len() < 68 {
        return 0;
    }
    let bytes = spell_handshake(&handshake_of(handshake));
    put_bytes(&bytes, out, 68);
    68
}

/// Makes the reader that stands for the peer.
///
/// It is made of own values and of the reserved bits of the peer's handshake.
#[unsafe(no_mangle)]
pub extern "C" fn bt_writer_init(peer: &mut BtReader, own: &BtOwn, reserved: u64)
    ensures context { context_of peer.new ≡ peer_context own.now reserved }
    ensures opened { is_on peer.new.opened ≡ true }
    ensures past { peer.new.past ≡ 0 }
    ensures start { peer.new.start ≡ 68 }
{
    let context = negotiate(&own_of(own), Reserved(reserved));
    *peer = BtReader {
        own: *own,
        opened: 1,
        fast: flag_of(context.fast),
        ext: flag_of(context.ext),
        past: 0,
        start: 68,
    };
    peer.own.metadata_id = 0;
    peer.own.donthave_id = 0;
}

/// Writes a message by the numbers of an item and the bytes that it keeps.
///
/// These are a bitfield, a block or a payload.
///
/// Returns 1 if it may be sent, and `written` has it; 2 if the peer would refuse it, and `written` has the offset and the
/// reason; 4 if it doesn't fit, and then nothing is written.
#[unsafe(no_mangle)]
pub extern "C" fn bt_write(
    peer: &mut BtReader,
    message: &BtItem,
    body: &[u8],
    out: &mut [u8],
    written: &mut BtItem,
) -> u32
    ensures { Writes peer.old message.now body.now peer.new out.old out.new written.new result }
{
    write(peer, message, &[], body, out, written)
}

/// Writes a message that keeps `front` and then `back`.
fn write(
    peer: &mut BtReader,
    message: &BtItem,
    front: &[u8],
    back: &[u8],
    out: &mut [u8],
    written: &mut BtItem,
) -> u32
    requires { length front.now ≤ 220 }
    ensures { Writes peer.old message.now (front.now ++ back.now) peer.new out.old out.new written.new result }
{
    match size_of(message, front, back, out.len()) {
        None => UNWRITTEN,
        Some(size) => {
            put_message(message, front, back, out, size);
            next_item(peer, &out[..size], written)
        }
    }
}

/// Returns how many bytes a message has, if it fits.
fn size_of(message: &BtItem, front: &[u8], back: &[u8], room: usize) -> Option<usize>
    requires { length front.now ≤ 220 }
    ensures { MatchOption result (DoesNotFit message.now (front.now ++ back.now) room)
        (λ n. (message.now.id ≤ 256) × (n ≡ length (message_bytes message.now (front.now ++ back.now))) × (n ≤ room) × (n < 2 ^ 32 + 4)) }
{
    // Before any sum, since a caller in C may say any length.
    let too_long = back.len() > u32::MAX as usize;
    if message.id > KEEP_ALIVE || message.id < KEEP_ALIVE && too_long {
        return None;
    }
    let rest = rest_length(message, front, back);
    if rest > u64::from(u32::MAX) || rest + 4 > room as u64 {
        return None;
    }
    Some(rest as usize + 4)
}

/// How many bytes follow the length.
fn rest_length(message: &BtItem, front: &[u8], back: &[u8]) -> u64
    requires { length front.now ≤ 220 }
    ensures value { result ≡ length (rest_of message.now (front.now ++ back.now)) }
    ensures small { result < 2 ^ 64 - 4 }
{
    if message.id == KEEP_ALIVE {
        return 0;
    }
    1 + head_length(shape_of(message.id)) as u64 + front.len() as u64 + back.len() as u64
}

/// How many bytes the numbers of a shape have.
fn head_length(shape: Option<Shape>) -> usize
    ensures value { (message : BtItem) → result ≡ length (head_by shape message) }
    ensures small { result ≤ 12 }
{
    match shape {
        None | Some(Shape::Nothing) | Some(Shape::Field) => 0,
        Some(Shape::Index) => 4,
        Some(Shape::Part) => 12,
        Some(Shape::Block) => 8,
        Some(Shape::Port) => 2,
        Some(Shape::Extended) => 1,
    }
}

/// Puts a message into the first `size` bytes.
fn put_message(message: &BtItem, front: &[u8], back: &[u8], out: &mut [u8], size: usize)
    requires id { message.now.id ≤ 256 }
    requires size { size ≡ length (message_bytes message.now (front.now ++ back.now)) }
    requires room { (size ≤ length out.old) × (size < 2 ^ 32 + 4) }
    ensures len { length out.new ≡ length out.old }
    ensures text { out.new ≡ message_bytes message.now (front.now ++ back.now) ++ drop size out.old }
{
    put_rest(message, front, back, out, size);
    let length = (size - 4) as u32;
    put_bytes(&length.to_be_bytes(), out, 4);
}

/// Puts the id, the numbers and the bytes of a message before the place.
fn put_rest(message: &BtItem, front: &[u8], back: &[u8], out: &mut [u8], at: usize)
    requires id { message.now.id ≤ 256 }
    requires size { at ≡ 4 + length (rest_of message.now (front.now ++ back.now)) }
    requires room { at ≤ length out.old }
    ensures len { length out.new ≡ length out.old }
    ensures text { drop 4 out.new ≡ rest_of message.now (front.now ++ back.now) ++ drop at out.old }
{
    if message.id == KEEP_ALIVE {
        return;
    }
    let place = put_bytes(back, out, at);
    let place = put_bytes(front, out, place);
    let place = put_head(shape_of(message.id), message, out, place);
    put_bytes(&[message.id as u8], out, place);
}

/// Puts the numbers of a message before the place.
fn put_head(shape: Option<Shape>, message: &BtItem, out: &mut [u8], at: usize) -> usize
    requires { (length (head_by shape message.now) ≤ at) × (at ≤ length out.old) }
    ensures room { result + length (head_by shape message.now) ≡ at }
    ensures len { length out.new ≡ length out.old }
    ensures text { drop result out.new ≡ head_by shape message.now ++ drop at out.old }
{
    match shape {
        None | Some(Shape::Nothing) | Some(Shape::Field) => at,
        Some(Shape::Index) => put_bytes(&message.index.to_be_bytes(), out, at),
        Some(Shape::Part) => {
            let place = put_bytes(&message.length.to_be_bytes(), out, at);
            let place = put_bytes(&message.begin.to_be_bytes(), out, place);
            put_bytes(&message.index.to_be_bytes(), out, place)
        }
        Some(Shape::Block) => {
            let place = put_bytes(&message.begin.to_be_bytes(), out, at);
            put_bytes(&message.index.to_be_bytes(), out, place)
        }
        Some(Shape::Port) => put_bytes(&message.port.to_be_bytes(), out, at),
        Some(Shape::Extended) => put_bytes(&[message.extended_id], out, at),
    }
}

/// The numbers of an extended message.
fn extended_item(id: u8) -> BtItem
    ensures { IsExtendedItem id result }
{
    BtItem {
        extended_id: id,
        ..bare(0, 0, 20)
    }
}

/// Writes an extended message of a dictionary and a block.
fn write_extended(
    peer: &mut BtReader,
    id: u8,
    dict: &[u8],
    block: &[u8],
    out: &mut [u8],
    written: &mut BtItem,
) -> u32
    requires { length dict.now ≤ 220 }
    ensures { (i : BtItem) × IsExtendedItem id i × Writes peer.old i (dict.now ++ block.now) peer.new out.old out.new written.new result }
{
    write(peer, &extended_item(id), dict, block, out, written)
}

/// Returns the size, if its flag is on.
fn size_from(has_size: u8, size: u64) -> Option<u64>
    ensures { result ≡ flagged has_size size }
{
    if has_size == 0 { None } else { Some(size) }
}

/// Returns the metadata message of this number, if it can be written.
fn kind_from(number: u8, piece: u32, total: u64) -> Option<Kind>
    ensures value { result ≡ made_kind number piece total }
    ensures made { IfSome result IsMade }
{
    match number {
        2 => Some(Kind::Request(piece)),
        3 if total > 0 && total < 1 << 63 => Some(Kind::Data { piece, total }),
        4 => Some(Kind::Reject(piece)),
        _ => None,
    }
}

/// Writes a metadata message under the id that the peer announced.
///
/// 2 is a request, 3 data with its block, 4 a reject.
///
/// Returns what [`bt_write`] returns, and 4 also if the peer announced no id, for any other number, and for a total size that
/// isn't 1 to 2^63 - 1.
#[unsafe(no_mangle)]
pub extern "C" fn bt_write_metadata(
    peer: &mut BtReader,
    kind: u8,
    piece: u32,
    total_size: u64,
    block: &[u8],
    out: &mut [u8],
    written: &mut BtItem,
) -> u32
    ensures told { (k : Kind) → made_kind kind piece total_size ≡ Some k → peer.old.own.metadata_id ≢ 0 → (i : BtItem) × IsExtendedItem peer.old.own.metadata_id i
        × Writes peer.old i (ben (message_tree k) ++ block.now) peer.new out.old out.new written.new result }
    ensures unmade { made_kind kind piece total_size ≡ None → (result ≡ 4) × (out.new ≡ out.old) × (peer.new ≡ peer.old) }
    ensures untold { peer.old.own.metadata_id ≡ 0 → (result ≡ 4) × (out.new ≡ out.old) × (peer.new ≡ peer.old) }
{
    if peer.own.metadata_id == 0 {
        return UNWRITTEN;
    }
    match kind_from(kind, piece, total_size) {
        None => UNWRITTEN,
        Some(kind) => {
            let mut text: DictText = [0; 220];
            let place = message_text(kind, &mut text);
            let id = peer.own.metadata_id;
            write_extended(peer, id, suffix(&text, place), block, out, written)
        }
    }
}

/// Writes the extended handshake.
///
/// It has the own id of `ut_metadata`, unless that is 0, and the size of the metadata that is served, if `has_size` is on.
///
/// Returns what [`bt_write`] returns.
#[unsafe(no_mangle)]
pub extern "C" fn bt_write_extended_handshake(
    peer: &mut BtReader,
    metadata_id: u8,
    has_size: u8,
    size: u64,
    out: &mut [u8],
    written: &mut BtItem,
) -> u32
    ensures { (i : BtItem) × IsExtendedItem 0 i
        × Writes peer.old i (ben (handshake_tree (metadata_only (flagged metadata_id metadata_id)) (flagged has_size size))) peer.new out.old out.new written.new result }
{
    let mut text: DictText = [0; 220];
    let place = handshake_text(
        Registered::metadata_only(id_of(metadata_id)),
        size_from(has_size, size),
        &mut text,
    );
    write_extended(peer, 0, suffix(&text, place), &[], out, written)
}
