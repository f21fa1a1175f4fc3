//! Lines of JSON: an object for an item, and one for the verdict.
ghost use Rattle.std.specs.Prelude.{◌≡◌, ◌+◌, ◌*◌, ◌<◌, ◌≤◌, ◌++◌, IfOk, OnErr, OnOk, codes, length, take, vec_capacity, vec_len, Some};
ghost use Rattle.hex.specs.Hex.{encode_lower};
ghost use Rattle.json.specs.Print.{escape, quoted, token_text};
ghost use Rattle.bt_wire.specs.Messages.{message_of};
ghost use Rattle.bt_wire.specs.Reasons.{reason_name};
ghost use Rattle.bt_wire.specs.declared.context.Own.{Own};
ghost use Rattle.bt_wire.specs.declared.item.Item.TheVariants as items;
ghost use Rattle.bt_json.specs.Members.{client_of as client_in_line, text_room};
ghost use Rattle.bt_json.specs.Objects.{a_number, handshake_fields, line as line_of, object_line, text_or_null, verdict_line as verdict_words};
ghost use Rattle.bt_text.specs.declared.ended.Ended.TheVariants as ended_by;

use crate::members::{add_message_line, put_two};
use crate::texts::{LINE_ROOM, add_last};
use bt_text::ended::Ended;
use bt_text::putting::{Offset, grow, put_hex, put_number, put_word};
use bt_wire::{Handshake, MessageView, Refusal};
use std::alloc::{AllocError, Global};

/// Appends the line of a message at the offset `at` of its stream.
///
/// It asks for memory only if the capacity has no room for 254 bytes and, in an extended handshake, the client's name with its
/// escapes.
///
/// # Errors
/// `AllocError` when out of memory; `lines` is then as before.
pub fn message_line(
    _alloc: Global,
    at: u64,
    view: &MessageView,
    lines: &mut Vec<u8>,
) -> Result<(), AllocError>
    ensures line { OnOk result ((own : Own) → lines.new.items ≡ lines.old.items ++ line_of own (at, items.Message (message_of view.now))) }
    ensures kept { OnErr result (lines.new.items ≡ lines.old.items) }
    ensures full { OnErr result (vec_capacity lines.old < vec_len lines.old + (254 + text_room (client_in_line (message_of view.now)))) }
{
    let place = grow(lines, LINE_ROOM)?;
    match add_message_line(&mut Offset::new(), at, view, lines, place) {
        Ok(end) => {
            lines.truncate(end);
            Ok(())
        }
        Err(error) => {
            lines.truncate(place);
            Err(error)
        }
    }
}

/// Puts bytes in hex, which needs no escape.
#[inline(always)]
fn put_digits(bytes: &[u8], text: &mut [u8], at: usize) -> usize
    requires { at + 2 * length bytes.now ≤ length text.old }
    ensures room { result ≡ at + 2 * length bytes.now }
    ensures size { length text.new ≡ length text.old }
    ensures text { take result text.new ≡ take at text.old ++ escape (encode_lower bytes.now) }
{
    put_hex(bytes, text, at)
}

/// Puts a handshake's line up to the peer id as text.
fn put_handshake(at: u64, handshake: &Handshake, text: &mut [u8], place: usize) -> usize
    requires { place + 247 ≤ length text.old }
    ensures room { (place ≤ result) × (result ≤ place + 247) }
    ensures size { length text.new ≡ length text.old }
    ensures text { take result text.new ++ (token_text (text_or_null (Some handshake.now.peer_id)) ++ codes "}\n")
        ≡ take place text.old ++ object_line (a_number (codes "offset") at ++ handshake_fields handshake.now) }
{
    let place = put_word(b"{\"offset\":", text, place);
    let place = put_number(at, text, place);
    let place = put_word(b",\"item\":\"handshake\",\"reserved\":\"", text, place);
    let place = put_digits(&handshake.reserved.0.to_be_bytes(), text, place);
    let place = put_word(b"\",\"info_hash\":\"", text, place);
    let place = put_digits(&handshake.info_hash, text, place);
    let place = put_word(b"\",\"peer_id\":\"", text, place);
    let place = put_digits(&handshake.peer_id, text, place);
    put_word(b"\",\"peer_id_text\":", text, place)
}

/// Writes a handshake's line from the offset `place` on; returns its end.
///
/// `at` is the handshake's offset in its stream. The text has room for 254 bytes from there on. The call asks for memory only if
/// the capacity has no room for 254 bytes and the peer id with its escapes.
///
/// # Errors
/// `AllocError` when out of memory; the bytes before `place` are then as before.
pub fn add_handshake_line(
    at: u64,
    handshake: &Handshake,
    text: &mut Vec<u8>,
    place: usize,
) -> Result<usize, AllocError>
    requires { place + 254 ≤ vec_len text.old }
    ensures line { IfOk result (λ n. take n text.new.items
        ≡ take place text.old.items ++ object_line (a_number (codes "offset") at ++ handshake_fields handshake.now)) }
    ensures kept { take place text.new.items ≡ take place text.old.items }
    ensures full { OnErr result (vec_capacity text.old < place + (254 + length (escape handshake.now.peer_id))) }
{
    let end = put_handshake(at, handshake, text.as_mut_slice(), place);
    add_last(Some(&handshake.peer_id), text, end)
}

/// Appends the line of a handshake at the offset `at` of its stream.
///
/// It asks for memory only if the capacity has no room for 254 bytes and the peer id with its escapes.
///
/// # Errors
/// `AllocError` when out of memory; `lines` is then as before.
pub fn handshake_line(
    _alloc: Global,
    at: u64,
    handshake: &Handshake,
    lines: &mut Vec<u8>,
) -> Result<(), AllocError>
    ensures line { OnOk result ((own : Own) → lines.new.items ≡ lines.old.items ++ line_of own (at, items.Handshake handshake.now)) }
    ensures kept { OnErr result (lines.new.items ≡ lines.old.items) }
    ensures full { OnErr result (vec_capacity lines.old < vec_len lines.old + (254 + length (escape handshake.now.peer_id))) }
{
    let place = grow(lines, LINE_ROOM)?;
    match add_handshake_line(at, handshake, lines, place) {
        Ok(end) => {
            lines.truncate(end);
            Ok(())
        }
        Err(error) => {
            lines.truncate(place);
            Err(error)
        }
    }
}

/// Puts the line of a refusal up to its reason.
fn put_refusal(refusal: Refusal, text: &mut [u8], at: usize) -> usize
    requires { at + 100 ≤ length text.old }
    ensures room { (at ≤ result) × (result ≤ at + 100) }
    ensures size { length text.new ≡ length text.old }
    ensures text { take result text.new ++ (quoted (reason_name refusal.reason) ++ codes "}\n") ≡ take at text.old ++ verdict_words (ended_by.Refused refusal) }
{
    let place = put_word(b"{\"verdict\":\"refused\",\"message\":", text, at);
    let place = put_number(refusal.message, text, place);
    let place = put_word(b",\"offset\":", text, place);
    let place = put_number(refusal.at, text, place);
    put_word(b",\"reason\":", text, place)
}

/// Writes the line of a verdict after the first `place` bytes of the text; returns its end.
fn add_verdict(ended: Ended, text: &mut Vec<u8>, place: usize) -> Result<usize, AllocError>
    requires { place + 254 ≤ vec_len text.old }
    ensures line { IfOk result (λ n. take n text.new.items ≡ take place text.old.items ++ verdict_words ended) }
    ensures full { OnErr result (vec_capacity text.old < place + 254) }
{
    match ended {
        Ended::Accepted { messages, bytes } => {
            let front = b"{\"verdict\":\"ok\",\"messages\":";
            let text = text.as_mut_slice();
            Ok(put_two(front, messages, b",\"bytes\":", bytes, text, place))
        }
        Ended::Refused(refusal) => {
            let end = put_refusal(refusal, text.as_mut_slice(), place);
            add_last(Some(refusal.reason.name().as_bytes()), text, end)
        }
    }
}

/// Appends the line of a verdict.
///
/// It asks for memory only if the capacity has no room for 254 bytes.
///
/// # Errors
/// `AllocError` when out of memory; `lines` is then as before.
pub fn verdict_line(_alloc: Global, ended: Ended, lines: &mut Vec<u8>) -> Result<(), AllocError>
    ensures line { OnOk result (lines.new.items ≡ lines.old.items ++ verdict_words ended) }
    ensures kept { OnErr result (lines.new.items ≡ lines.old.items) }
    ensures full { OnErr result (vec_capacity lines.old < vec_len lines.old + 254) }
{
    let start = grow(lines, LINE_ROOM)?;
    // (the room is enough for each reason)
    let Ok(end) = add_verdict(ended, lines, start) else {
        unreachable!();
    };
    lines.truncate(end);
    Ok(())
}
