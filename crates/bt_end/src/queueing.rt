//! Messages that are encoded into an outbox that has room for them, without an allocation.
ghost use Rattle.std.specs.Prelude.{◌≡◌, ℕ, ◌+◌, ◌-◌, ◌<◌, ◌≤◌, ◌^◌, ◌++◌, ◌∷◌, [], List, length, length as list_length, OnOk, OnErr};
ghost use Rattle.std.specs.Option.{ForSome};
ghost use Rattle.bt_bencode.specs.Bencoding.{ben};
ghost use Rattle.bt_ext.specs.Payloads.{index_bytes};
ghost use Rattle.bt_ext.specs.Made.{IsMade, message_tree, handshake_tree};
ghost use Rattle.bt_wire.specs.Messages.{framed as framed_by, seen, spell_fields};
ghost use Rattle.bt_wire.specs.Numbers.{be32};
ghost use Rattle.bt_end.specs.Parts.{framed};

use bt_ext::{DictText, Kind, Registered, handshake_text, message_text};
use bt_feed::{Memory, Outbox};
use bt_wire::{Fields, head_and_tail};
use std::alloc::Allocator;

/// More bytes than any message that an end makes.
///
/// The longest has a block and the dictionary before it.
pub const ROOM: usize = 16_610;

/// Appends bytes to those that are to be sent.
pub fn put<A: Allocator>(outbox: &mut Outbox<A>, bytes: &[u8])
    requires { length bytes.now ≤ outbox.old.room }
    ensures bytes { outbox.new.bytes ≡ outbox.old.bytes ++ bytes.now }
    ensures room { outbox.old.room ≤ outbox.new.room + length bytes.now }
{
    match outbox.queue(bytes) {
        Ok(()) => {}
        Err(_) => unreachable!(),
    }
}

/// Puts an extended message of a dictionary and the bytes after it.
fn put_extended<A: Allocator>(outbox: &mut Outbox<A>, id: u8, dict: &[u8], rest: &[u8])
    requires dict { length dict.now ≤ 220 }
    requires rest { length rest.now ≤ 16384 }
    requires room { 6 + length dict.now + length rest.now ≤ outbox.old.room }
    ensures bytes { outbox.new.bytes ≡ outbox.old.bytes ++ framed id (dict.now ++ rest.now) }
    ensures bound { length outbox.new.bytes ≤ length outbox.old.bytes + (6 + length dict.now + length rest.now) }
    ensures room { outbox.old.room ≤ outbox.new.room + (6 + length dict.now + length rest.now) }
{
    let length = (2 + dict.len() + rest.len()) as u32;
    put(outbox, &length.to_be_bytes());
    put(outbox, &[20, id]);
    put(outbox, dict);
    put(outbox, rest);
}

/// Queues a metadata message, with the bytes `rest` after its dictionary.
pub fn put_message<A: Allocator>(outbox: &mut Outbox<A>, id: u8, kind: Kind, rest: &[u8])
    requires kind { IsMade kind }
    requires rest { length rest.now ≤ 16384 }
    requires room { 226 + length rest.now ≤ outbox.old.room }
    ensures bytes { outbox.new.bytes ≡ outbox.old.bytes ++ framed id (ben (message_tree kind) ++ rest.now) }
    ensures bound { length outbox.new.bytes ≤ length outbox.old.bytes + (226 + length rest.now) }
    ensures room { outbox.old.room ≤ outbox.new.room + (226 + length rest.now) }
{
    let mut text: DictText = [0; 220];
    let start = message_text(kind, &mut text);
    put_extended(outbox, id, &text[start..], rest);
}

/// Queues an extended handshake (BEP 10).
///
/// It has the end's registered ids and the size in bytes of the metadata that it serves, if it serves any.
pub fn put_handshake<A: Allocator>(outbox: &mut Outbox<A>, reg: Registered, size: Option<u64>)
    requires room { 226 ≤ outbox.old.room }
    ensures bytes { outbox.new.bytes ≡ outbox.old.bytes ++ framed 0 (ben (handshake_tree reg size) ++ []) }
    ensures bound { length outbox.new.bytes ≤ length outbox.old.bytes + 226 }
    ensures room { outbox.old.room ≤ outbox.new.room + 226 }
{
    let mut text: DictText = [0; 220];
    let start = handshake_text(reg, size, &mut text);
    put_extended(outbox, 0, &text[start..], &[]);
}

/// Queues `lt_donthave` for a piece, under the peer's id.
///
/// It makes room for it.
///
/// # Errors
/// `Memory` when out of memory; the bytes to be sent are then unchanged.
pub fn put_donthave<A: Allocator>(outbox: &mut Outbox<A>, id: u8, index: u32) -> Result<(), Memory>
    ensures ok { OnOk result (outbox.new.bytes ≡ outbox.old.bytes ++ framed id (index_bytes index)) }
    ensures err { OnErr result (outbox.new.bytes ≡ outbox.old.bytes) }
{
    outbox.reserve(10)?;
    put_extended(outbox, id, &index.to_be_bytes(), &[]);
    Ok(())
}

/// Queues a message that isn't extended; `length` is its length prefix.
///
/// It makes room for it.
///
/// # Errors
/// `Memory` when out of memory; the bytes to be sent are then unchanged.
pub fn put_plain<A: Allocator>(
    outbox: &mut Outbox<A>,
    length: u32,
    id: Option<u8>,
    fields: &Fields,
) -> Result<(), Memory>
    requires { length ≡ list_length (framed_by id (spell_fields (seen fields.now))) }
    ensures ok { OnOk result (outbox.new.bytes ≡ outbox.old.bytes ++ (be32 length ++ framed_by id (spell_fields (seen fields.now)))) }
    ensures err { OnErr result (outbox.new.bytes ≡ outbox.old.bytes) }
{
    let (head, tail) = head_and_tail(length, id, fields);
    outbox.reserve(4 + length as usize)?;
    put(outbox, head.as_slice());
    put(outbox, tail);
    Ok(())
}
