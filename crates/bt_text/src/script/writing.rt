//! The line of an item, with all of its bytes.
//!
//! A line is written directly into a text that has room for it; the call returns the offset after the line. Or it is
//! appended, with at most one allocation.
ghost use Rattle.std.specs.Prelude.{◌≡◌, ◌≤◌, ◌+◌, ◌-◌, ◌*◌, ◌^◌, ◌++◌, length, take, min, codes, decimal, unwrap_or, OnOk};
ghost use Rattle.hex.specs.Hex.{encode_lower};
ghost use Rattle.bt_ext.specs.Payloads.{ext_id, payload_of, seen as seen_ext};
ghost use Rattle.bt_wire.specs.Messages.{message_of};
ghost use Rattle.bt_wire.specs.declared.context.Own.{Own as Receiver};
ghost use Rattle.bt_wire.specs.declared.item.Item.TheVariants as items;
ghost use Rattle.bt_text.specs.Lines.{spaced, handshake_words};
ghost use Rattle.bt_text.specs.Script.{spaced_hex, script_line, kept as kept_of};

use crate::putting::{grow, put_hex, put_number, put_word};
use crate::words::put_words;
use bt_ext::{ExtView, Registered};
use bt_wire::{Handshake, MessageView, Own};
use std::alloc::AllocError;

/// How many bytes of room the line of a handshake needs.
pub const HANDSHAKE_ROOM: usize = 109;

/// Puts a space, two parts of bytes in hex, or `-` for no bytes, and the line's end.
#[inline(never)]
fn put_bytes(front: &[u8], rest: &[u8], text: &mut [u8], at: usize) -> usize
    requires { at + (3 + 2 * (length front.now + length rest.now)) ≤ length text.old }
    ensures size { length text.new ≡ length text.old }
    ensures text { take result text.new ≡ take at text.old ++ (spaced_hex (front.now ++ rest.now) ++ codes "\n") }
{
    if front.is_empty() && rest.is_empty() {
        return put_word(b" -\n", text, at);
    }
    let place = put_word(b" ", text, at);
    let place = put_hex(front, text, place);
    let place = put_hex(rest, text, place);
    put_word(b"\n", text, place)
}

/// Puts a name, an id, the bytes of its payload and the line's end.
#[inline(always)]
fn put_payload<const N: usize>(
    name: &[u8; N],
    id: u8,
    front: &[u8],
    rest: &[u8],
    text: &mut [u8],
    at: usize,
) -> usize
    requires { at + (23 + length name.now + 2 * (length front.now + length rest.now)) ≤ length text.old }
    ensures size { length text.new ≡ length text.old }
    ensures text { take result text.new ≡ take at text.old ++ (name.now ++ (decimal id ++ (spaced_hex (front.now ++ rest.now) ++ codes "\n"))) }
{
    let place = put_word(name, text, at);
    let place = put_number(u64::from(id), text, place);
    put_bytes(front, rest, text, place)
}

/// Puts the words of a block and the line's end.
#[inline(always)]
fn put_block(index: u32, begin: u32, block: &[u8], text: &mut [u8], at: usize) -> usize
    requires { at + (50 + 2 * length block.now) ≤ length text.old }
    ensures size { length text.new ≡ length text.old }
    ensures text { take result text.new ≡ take at text.old ++ (codes "piece " ++ (decimal index ++ (spaced begin ++ (spaced_hex block.now ++ codes "\n")))) }
{
    let place = put_word(b"piece ", text, at);
    let place = put_number(u64::from(index), text, place);
    let place = put_word(b" ", text, place);
    let place = put_number(u64::from(begin), text, place);
    put_bytes(b"", block, text, place)
}

/// Returns the extended id of a payload; 0 if it has none.
fn extended_id(reg: Registered, payload: &ExtView) -> u8
    ensures { result ≡ unwrap_or (ext_id reg (seen_ext payload.now)) 0 }
{
    match payload {
        ExtView::Handshake { .. } => 0,
        ExtView::Metadata { .. } => match reg.metadata() {
            Some(id) => id.get(),
            None => 0,
        },
        ExtView::DontHave(_) => match reg.donthave() {
            Some(donthave) => donthave.get(),
            None => 0,
        },
        ExtView::Raw { id, .. } => {
            let id = *id;
            if reg.is_known(id) { 0 } else { id }
        }
    }
}

/// Puts the words of an extended message and the line's end.
#[inline(never)]
fn put_extended(reg: Registered, payload: &ExtView, text: &mut [u8], at: usize) -> usize
    requires { at + (32 + 2 * length (payload_of (seen_ext payload.now))) ≤ length text.old }
    ensures size { length text.new ≡ length text.old }
    ensures text { take result text.new ≡ take at text.old ++ (codes "extended " ++ (decimal (unwrap_or (ext_id reg (seen_ext payload.now)) 0)
        ++ (spaced_hex (payload_of (seen_ext payload.now)) ++ codes "\n"))) }
{
    let id = extended_id(reg, payload);
    match payload {
        ExtView::Handshake { dict, rest } => {
            put_payload(b"extended ", id, dict.spelled(), rest, text, at)
        }
        ExtView::Metadata { dict, rest } => {
            put_payload(b"extended ", id, dict.spelled(), rest, text, at)
        }
        ExtView::DontHave(index) => {
            put_payload(b"extended ", id, b"", &index.to_be_bytes(), text, at)
        }
        ExtView::Raw { payload, .. } => put_payload(b"extended ", id, b"", payload, text, at),
    }
}

/// Returns how many bytes a message keeps, of one that may keep some.
#[inline(never)]
fn kept_bytes(view: &MessageView) -> usize
    ensures { result ≡ kept_of (message_of view.now) }
{
    match view {
        MessageView::Bitfield(bits) => bits.len(),
        MessageView::Piece { block, .. } => block.len(),
        MessageView::Extended(ExtView::Handshake { dict, rest }) => dict.spelled().len()
            + rest.len(),
        MessageView::Extended(ExtView::Metadata { dict, rest }) => dict.spelled().len()
            + rest.len(),
        MessageView::Extended(ExtView::DontHave(_)) => 4,
        MessageView::Extended(ExtView::Raw { payload, .. }) => payload.len(),
        MessageView::Unknown { payload, .. } => payload.len(),
        _ => 0,
    }
}

/// Returns how many bytes of room a message's line needs, at most 2^64 - 1.
#[inline(always)]
pub fn room_for(view: &MessageView) -> usize
    ensures { result ≡ min (160 + 2 * kept_of (message_of view.now)) (2 ^ 64 - 1) }
{
    // (most messages take no jump by their kind)
    let kept = match view {
        MessageView::Bitfield(_)
        | MessageView::Piece { .. }
        | MessageView::Extended(_)
        | MessageView::Unknown { .. } => kept_bytes(view),
        _ => 0,
    };
    kept.saturating_mul(2).saturating_add(160)
}

/// Writes the line of a message at the offset `at`; returns the offset after it.
///
/// It ends with a line feed, and `read_line` parses it. The id of a metadata message (BEP 9) is the one that the receiver
/// registers.
#[inline(always)]
pub fn put_message_line(own: &Own, view: &MessageView, text: &mut [u8], at: usize) -> usize
    requires { at + (160 + 2 * kept_of (message_of view.now)) ≤ length text.old }
    ensures size { length text.new ≡ length text.old }
    ensures text { take result text.new ≡ take at text.old ++ script_line own.now (items.Message (message_of view.now)) }
{
    match view {
        MessageView::Bitfield(bits) => {
            let place = put_word(b"bitfield", text, at);
            put_bytes(b"", bits, text, place)
        }
        MessageView::Piece {
            index,
            begin,
            block,
        } => put_block(*index, *begin, block, text, at),
        MessageView::Extended(payload) => put_extended(own.reg, payload, text, at),
        MessageView::Unknown { id, payload } => put_payload(
            b"unknown ",
            *id,
            b"",
            payload,
            text,
            at,
        ),
        _ => put_words(view, text, at),
    }
}

/// Appends the line of a message, with its line feed.
///
/// `read_line` parses it. The id of a metadata message (BEP 9) is the one that the receiver registers.
///
/// # Errors
/// `AllocError` when out of memory. At most one allocation is made.
pub fn push_message_line(
    own: &Own,
    view: &MessageView,
    text: &mut Vec<u8>,
) -> Result<(), AllocError>
    ensures { OnOk result (text.new.items ≡ text.old.items ++ script_line own.now (items.Message (message_of view.now))) }
{
    let at = grow(text, room_for(view))?;
    let end = put_message_line(own, view, text.as_mut_slice(), at);
    text.truncate(end);
    Ok(())
}

/// Writes the line of a handshake at the offset `at`; returns the offset after it.
///
/// It ends with a line feed.
pub fn put_handshake_line(handshake: &Handshake, text: &mut [u8], at: usize) -> usize
    requires { at + 109 ≤ length text.old }
    ensures room { result ≡ at + 109 }
    ensures size { length text.new ≡ length text.old }
    ensures text { take result text.new ≡ take at text.old ++ (handshake_words handshake.now ++ codes "\n") }
{
    let place = put_word(b"handshake ", text, at);
    let place = put_hex(&handshake.reserved.0.to_be_bytes(), text, place);
    let place = put_word(b" ", text, place);
    let place = put_hex(&handshake.info_hash, text, place);
    let place = put_word(b" ", text, place);
    let place = put_hex(&handshake.peer_id, text, place);
    put_word(b"\n", text, place)
}

/// Appends the line of a handshake, with its line feed.
///
/// # Errors
/// `AllocError` when out of memory. At most one allocation is made.
pub fn push_handshake_line(handshake: &Handshake, text: &mut Vec<u8>) -> Result<(), AllocError>
    ensures { OnOk result ((own : Receiver) → text.new.items ≡ text.old.items ++ script_line own (items.Handshake handshake.now)) }
{
    let at = grow(text, HANDSHAKE_ROOM)?;
    let end = put_handshake_line(handshake, text.as_mut_slice(), at);
    text.truncate(end);
    Ok(())
}
