//! The names of items and of reasons as text of C.
ghost use Rattle.std.specs.Prelude.{◌≡◌, ◌≤◌, ◌<◌, length, codes, None, IfSome, option_map, unwrap_or};
ghost use Rattle.bt_wire.specs.Ids.{ids, row_in};
ghost use Rattle.bt_wire.specs.Reasons.{reason_name};
ghost use Rattle.bt_c.specs.Names.{extended_name, item_name, IsPut};
ghost use Rattle.bt_c.specs.Readers.{reason_number};
ghost use Rattle.bt_wire.specs.declared.fault.Reason.{Reason};

use crate::item::BtItem;
use bt_bencode::put_bytes;
use bt_wire::{Reason, id_name};

/// Writes the name of a reason's number, as `WrongLength`, and a zero after it.
///
/// It writes nothing where there is no room for both.
///
/// Returns the length of the name, and 0 for a number that no reason has.
#[unsafe(no_mangle)]
pub extern "C" fn bt_reason_name(reason: u32, text: &mut [u8]) -> usize
    ensures name { (r : Reason) → reason ≡ reason_number r → (result ≡ length (reason_name r)) × IsPut (reason_name r) text.old text.new }
    ensures none { ((r : Reason) → reason ≡ reason_number r → ⊥) → result ≡ 0 }
{
    match reason_at(reason) {
        Some(reason) => put_name(reason.name().as_bytes(), text),
        None => put_name(b"", text),
    }
}

/// The reason of a number.
fn reason_at(number: u32) -> Option<Reason>
    ensures some { IfSome result (λ r. reason_number r ≡ number) }
    ensures none { result ≡ None → (r : Reason) → number ≡ reason_number r → ⊥ }
{
    match number {
        1 => Some(Reason::BadProtocol),
        2 => Some(Reason::WrongInfoHash),
        3 => Some(Reason::TooLong),
        4 => Some(Reason::UnknownId),
        5 => Some(Reason::NotNegotiated),
        6 => Some(Reason::WrongLength),
        7 => Some(Reason::BadIndex),
        8 => Some(Reason::SpareBits),
        9 => Some(Reason::Late),
        10 => Some(Reason::Missing),
        11 => Some(Reason::BadBencode),
        12 => Some(Reason::Unsorted),
        13 => Some(Reason::BadField),
        14 => Some(Reason::BadBlock),
        15 => Some(Reason::StreamFull),
        16 => Some(Reason::EndInside),
        17 => Some(Reason::BadExtLength),
        _ => None,
    }
}

/// Writes the name of an item, as `have`, and a zero after it.
///
/// It writes nothing where there is no room for both.
///
/// Returns the length of the name.
#[unsafe(no_mangle)]
pub extern "C" fn bt_item_name(item: &BtItem, text: &mut [u8]) -> usize
    ensures length { result ≡ length (item_name item.now.id item.now.extended.kind) }
    ensures text { IsPut (item_name item.now.id item.now.extended.kind) text.old text.new }
{
    put_name(name_at(item.id, item.extended.kind), text)
}

/// The name of an item.
fn name_at(id: u16, kind: u8) -> &'static [u8]
    ensures name { result.now ≡ item_name id kind }
    ensures short { length result.now ≤ 20 }
{
    match id {
        20 => extended_name(kind),
        256 => b"keep-alive",
        257 => b"handshake",
        _ => message_name(id),
    }
}

/// The name of a message by its id.
fn message_name(id: u16) -> &'static [u8]
    ensures name { result.now ≡ unwrap_or (option_map (λ row. row.name) (row_in id ids)) (codes "unknown") }
    ensures short { length result.now ≤ 20 }
{
    match u8::try_from(id) {
        Ok(id) => match id_name(id) {
            Some(name) => name.as_bytes(),
            None => b"unknown",
        },
        Err(_) => b"unknown",
    }
}

/// The name of a kind of extended messages.
fn extended_name(kind: u8) -> &'static [u8]
    ensures name { result.now ≡ extended_name kind }
    ensures short { length result.now ≤ 20 }
{
    match kind {
        1 => b"ext-handshake",
        2 => b"metadata-request",
        3 => b"metadata-data",
        4 => b"metadata-reject",
        5 => b"metadata-other",
        6 => b"metadata-malformed",
        8 => b"donthave",
        _ => b"extended",
    }
}

/// Writes a name and a zero after it, if there is room for both; returns the name's length.
fn put_name(name: &[u8], text: &mut [u8]) -> usize
    ensures length { result ≡ length name.now }
    ensures text { IsPut name.now text.old text.new }
{
    if name.len() < text.len() {
        let place = put_bytes(&[0], text, name.len() + 1);
        put_bytes(name, text, place);
    }
    name.len()
}

/// Returns the number of this version of the structs and calls, 2.
#[unsafe(no_mangle)]
pub extern "C" fn bt_abi() -> u32
    ensures { result ≡ 2 }
{
    2
}
