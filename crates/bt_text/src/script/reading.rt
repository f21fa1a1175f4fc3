//! Parsing of a script's line into its bytes. Only the bytes are allocated.
ghost use Rattle.std.specs.Prelude.{◌≡◌, ◌+◌, ◌<◌, ◌≤◌, ◌^◌, length, IfOk, OnOk, option_map, option_and_then, ◌++◌, ◌∷◌, true};
ghost use Rattle.std.specs.Result.{result_ok};
ghost use Rattle.hex.specs.Hex.{decode_of};
ghost use Rattle.bt_wire.specs.Numbers.{be32, be64};
ghost use Rattle.bt_wire.specs.Ids.{ids, row_named};
ghost use Rattle.bt_text.specs.Fronts.{IsFront};
ghost use Rattle.bt_text.specs.Script.{framed_by, IsAnswer, IsAdded};
ghost use Rattle.bt_text.specs.ScriptReading.{
  bytes_in_word,
  closed,
  with_bytes,
  fields_in,
  row_in_text,
  unknown_in,
  message_in,
  array_after as array_read,
  handshake_in,
  parts_of,
  line_in,
  seen,
  Adds,
};

use crate::script::front::append_short;
pub use crate::script::numbers::plain_number;
use crate::script::numbers::{is, number_following, split_word, three_numbers, two_numbers};
use crate::splitting::split_line;
use bt_wire::{Handshake, Reserved, Shape, id_named, kind_of, spell_handshake};
use hex::FromHex;
use std::alloc::AllocError;

/// What the front of a text is to the reader of a script.
#[derive(Drop)]
pub enum LineFront<'a> {
    /// A line; this text follows its line feed.
    Line(&'a [u8]),
    /// Up to a line feed no line of a script, or one that is too long.
    Syntax,
    /// The text has no line feed.
    Unended,
}

/// Appends the bytes of hex digits of either case; returns whether they are hex digits.
fn push_decoded(digits: &[u8], bytes: &mut Vec<u8>) -> Result<bool, AllocError>
    ensures { IfOk result (Adds (result_ok (decode_of digits.now)) bytes.old.items bytes.new.items) }
{
    let start = bytes.len();
    bytes.resize(start + digits.len() / 2, 0)?;
    if hex::decode_to_slice(digits, &mut bytes[start..]).is_ok() {
        return Ok(true);
    }
    bytes.truncate(start);
    Ok(false)
}

/// Appends the length, the id and the bytes of the numbers of a message.
///
/// `size` bytes follow. The numbers' count is known at the place where this is inlined, so one copy of fixed size appends all
/// of it.
#[inline(always)]
pub(crate) fn push_begin(
    id: u8,
    numbers: &[u8],
    size: usize,
    bytes: &mut Vec<u8>,
) -> Result<(), AllocError>
    requires { (length numbers.now ≤ 12) × (size < 2 ^ 31) }
    ensures { OnOk result (bytes.new.items ≡ bytes.old.items ++ (be32 (1 + length numbers.now + size) ++ (id ∷ numbers.now))) }
{
    let end = 5 + numbers.len();
    let length = 1 + numbers.len() + size;
    let mut front = [0u8; 17];
    front[..4].copy_from_slice(&(length as u32).to_be_bytes());
    front[4] = id;
    front[5..end].copy_from_slice(numbers);
    bytes.extend_from_slice(&front[..end])
}

/// Appends the message of an id and the bytes of its numbers, if nothing follows.
#[inline(always)]
fn put_numbers(id: u8, numbers: &[u8], rest: &[u8], bytes: &mut Vec<u8>) -> Result<bool, AllocError>
    requires { length numbers.now ≤ 12 }
    ensures { IfOk result (Adds (option_map (framed_by id) (closed numbers.now rest.now)) bytes.old.items bytes.new.items) }
{
    if !rest.is_empty() {
        return Ok(false);
    }
    push_begin(id, numbers, 0, bytes)?;
    Ok(true)
}

/// Appends the message of an id, the bytes of its numbers, and the bytes that hex digits say.
#[inline(always)]
fn put_digits(
    id: u8,
    numbers: &[u8],
    digits: &[u8],
    bytes: &mut Vec<u8>,
) -> Result<bool, AllocError>
    requires { (length numbers.now ≤ 12) × (length digits.now < 2 ^ 32) }
    ensures { IfOk result (Adds (option_map (framed_by id) (option_map (λ b. numbers.now ++ b) (result_ok (decode_of digits.now)))) bytes.old.items bytes.new.items) }
{
    let start = bytes.len();
    bytes.reserve(17 + digits.len() / 2)?;
    push_begin(id, numbers, digits.len() / 2, bytes)?;
    if push_decoded(digits, bytes)? {
        return Ok(true);
    }
    bytes.truncate(start);
    Ok(false)
}

/// Appends the message of an id, the bytes of its numbers, and the bytes of a word: hex digits, or `-` for no bytes.
#[tactic(auto, unfolding(crate::specs::ScriptReading::bytes_in_word))]
#[inline(always)]
fn put_word(id: u8, numbers: &[u8], word: &[u8], bytes: &mut Vec<u8>) -> Result<bool, AllocError>
    requires { (length numbers.now ≤ 12) × (length word.now < 2 ^ 32) }
    ensures { IfOk result (Adds (option_map (framed_by id) (option_map (λ b. numbers.now ++ b) (bytes_in_word word.now))) bytes.old.items bytes.new.items) }
{
    if is(word, b"-") {
        return put_numbers(id, numbers, b"", bytes);
    }
    if word.is_empty() {
        return Ok(false);
    }
    put_digits(id, numbers, word, bytes)
}

/// Appends the message of an id, the bytes of its numbers, and the bytes of a word after a space.
#[inline(always)]
fn put_bytes(id: u8, numbers: &[u8], rest: &[u8], bytes: &mut Vec<u8>) -> Result<bool, AllocError>
    requires { (length numbers.now ≤ 12) × (length rest.now < 2 ^ 32) }
    ensures { IfOk result (Adds (option_map (framed_by id) (with_bytes numbers.now rest.now)) bytes.old.items bytes.new.items) }
{
    match rest.split_first() {
        Some((b' ', word)) => put_word(id, numbers, word, bytes),
        _ => Ok(false),
    }
}

/// Appends the message of an id that has no fields.
#[inline(never)]
fn put_nothing(id: u8, text: &[u8], bytes: &mut Vec<u8>) -> Result<bool, AllocError>
    ensures { IfOk result (Adds (option_map (framed_by id) (fields_in Shape.Nothing text.now)) bytes.old.items bytes.new.items) }
{
    put_numbers(id, b"", text, bytes)
}

/// Appends the message of an id and a piece index.
#[inline(never)]
fn put_index(id: u8, text: &[u8], bytes: &mut Vec<u8>) -> Result<bool, AllocError>
    ensures { IfOk result (Adds (option_map (framed_by id) (fields_in Shape.Index text.now)) bytes.old.items bytes.new.items) }
{
    match number_following(text) {
        Some((index, rest)) => put_numbers(id, &index.to_be_bytes(), rest, bytes),
        None => Ok(false),
    }
}

/// Appends the message of an id and the bytes of a field.
#[inline(never)]
fn put_field(id: u8, text: &[u8], bytes: &mut Vec<u8>) -> Result<bool, AllocError>
    requires { length text.now < 2 ^ 32 }
    ensures { IfOk result (Adds (option_map (framed_by id) (fields_in Shape.Field text.now)) bytes.old.items bytes.new.items) }
{
    put_bytes(id, b"", text, bytes)
}

/// Appends the message of an id and three numbers.
#[inline(never)]
fn put_part(id: u8, text: &[u8], bytes: &mut Vec<u8>) -> Result<bool, AllocError>
    ensures { IfOk result (Adds (option_map (framed_by id) (fields_in Shape.Part text.now)) bytes.old.items bytes.new.items) }
{
    let Some(found) = three_numbers(text) else {
        return Ok(false);
    };
    let (numbers, rest) = found;
    put_numbers(id, &numbers, rest, bytes)
}

/// Appends the message of an id, two numbers and bytes.
#[inline(never)]
fn put_block(id: u8, text: &[u8], bytes: &mut Vec<u8>) -> Result<bool, AllocError>
    requires { length text.now < 2 ^ 32 }
    ensures { IfOk result (Adds (option_map (framed_by id) (fields_in Shape.Block text.now)) bytes.old.items bytes.new.items) }
{
    let Some(found) = two_numbers(text) else {
        return Ok(false);
    };
    let (numbers, rest) = found;
    put_bytes(id, &numbers, rest, bytes)
}

/// Appends the message of an id whose fields have this shape.
///
/// If the compiler knows the shape, this is one call.
#[inline(always)]
fn put_fields(shape: Shape, id: u8, text: &[u8], bytes: &mut Vec<u8>) -> Result<bool, AllocError>
    requires { length text.now < 2 ^ 32 }
    ensures { IfOk result (Adds (option_map (framed_by id) (fields_in shape text.now)) bytes.old.items bytes.new.items) }
{
    match shape {
        Shape::Nothing => put_nothing(id, text, bytes),
        Shape::Index => put_index(id, text, bytes),
        Shape::Part => put_part(id, text, bytes),
        Shape::Block => put_block(id, text, bytes),
        Shape::Port => put_port(id, text, bytes),
        Shape::Field => put_field(id, text, bytes),
        Shape::Extended => put_extended(id, text, bytes),
    }
}

/// Appends the message of an id and a port.
#[inline(never)]
fn put_port(id: u8, text: &[u8], bytes: &mut Vec<u8>) -> Result<bool, AllocError>
    ensures { IfOk result (Adds (option_map (framed_by id) (fields_in Shape.Port text.now)) bytes.old.items bytes.new.items) }
{
    match number_following(text) {
        Some((port, rest)) if port < 65_536 => {
            put_numbers(id, &(port as u16).to_be_bytes(), rest, bytes)
        }
        _ => Ok(false),
    }
}

/// Appends the message of an id, an extended id and its payload.
#[inline(never)]
fn put_extended(id: u8, text: &[u8], bytes: &mut Vec<u8>) -> Result<bool, AllocError>
    requires { length text.now < 2 ^ 32 }
    ensures { IfOk result (Adds (option_map (framed_by id) (fields_in Shape.Extended text.now)) bytes.old.items bytes.new.items) }
{
    match number_following(text) {
        Some((extended, rest)) if extended < 256 => put_bytes(id, &[extended as u8], rest, bytes),
        _ => Ok(false),
    }
}

/// Appends the message of an id that has no meaning and its payload.
fn put_unknown(text: &[u8], bytes: &mut Vec<u8>) -> Result<bool, AllocError>
    requires { length text.now < 2 ^ 32 }
    ensures { IfOk result (Adds (unknown_in text.now) bytes.old.items bytes.new.items) }
{
    match number_following(text) {
        Some((id, rest)) if id < 256 && kind_of(id as u8).is_none() => {
            put_bytes(id as u8, b"", rest, bytes)
        }
        _ => Ok(false),
    }
}

/// Returns the id of a name, and the shape of its fields.
pub(crate) fn row_of(name: &[u8]) -> Option<(u8, Shape)>
    ensures { result ≡ option_map (λ i. (i.number, i.kind.shape)) (row_named name.now ids) }
{
    let id = id_named(name)?;
    let kind = kind_of(id)?;
    Some((id, kind.shape))
}

/// Appends the message of a name and of the fields that follow it.
#[inline(always)]
fn put_named(name: &[u8], rest: &[u8], bytes: &mut Vec<u8>) -> Result<bool, AllocError>
    requires { length rest.now < 2 ^ 32 }
    ensures { IfOk result (Adds (option_and_then (row_in_text rest.now) (row_named name.now ids)) bytes.old.items bytes.new.items) }
{
    match row_of(name) {
        Some((id, shape)) => put_fields(shape, id, rest, bytes),
        None => Ok(false),
    }
}

/// Appends the message of a line.
#[inline(always)]
fn put_message(text: &[u8], bytes: &mut Vec<u8>) -> Result<bool, AllocError>
    requires { length text.now < 2 ^ 32 }
    ensures { IfOk result (Adds (message_in text.now) bytes.old.items bytes.new.items) }
{
    if is(text, b"keep-alive") {
        bytes.extend_from_slice(&[0; 4])?;
        return Ok(true);
    }
    let (name, rest) = split_word(text);
    if is(name, b"unknown") {
        return put_unknown(rest, bytes);
    }
    put_named(name, rest, bytes)
}

/// Reads a space and the hex digits of `N` bytes, of either case, and returns the bytes and what follows them.
fn array_after<const N: usize>(text: &[u8]) -> Option<([u8; N], &[u8])>
    ensures { seen result ≡ array_read N text.now }
{
    let (space, digits) = text.split_first()?;
    if *space != b' ' {
        return None;
    }
    let (word, rest) = split_word(digits);
    let bytes = <[u8; N] as FromHex>::from_hex(word).ok()?;
    Some((bytes, rest))
}

/// Returns the number of eight bytes, in big-endian order.
fn reserved_of(bytes: &[u8]) -> u64
    requires { length bytes.now ≡ 8 }
    ensures { be64 result ≡ bytes.now }
{
    u64::from_be_bytes([
        bytes[0], bytes[1], bytes[2], bytes[3], bytes[4], bytes[5], bytes[6], bytes[7],
    ])
}

/// Reads the handshake of a line.
fn read_handshake(text: &[u8]) -> Option<Handshake>
    ensures { option_map parts_of result ≡ handshake_in text.now }
{
    let (name, rest) = split_word(text);
    if !is(name, b"handshake") {
        return None;
    }
    let (reserved, rest) = array_after::<8>(rest)?;
    let (info_hash, rest) = array_after::<20>(rest)?;
    let (peer_id, rest) = array_after::<20>(rest)?;
    if !rest.is_empty() {
        return None;
    }
    Some(Handshake {
        reserved: Reserved(reserved_of(&reserved)),
        info_hash,
        peer_id,
    })
}

/// Appends the handshake of a line.
///
/// It isn't inlined, so that its arrays aren't filled for each message.
#[inline(never)]
fn put_handshake(text: &[u8], bytes: &mut Vec<u8>) -> Result<bool, AllocError>
    ensures { IfOk result (Adds (line_in true text.now) bytes.old.items bytes.new.items) }
{
    match read_handshake(text) {
        Some(handshake) => {
            bytes.extend_from_slice(&spell_handshake(&handshake))?;
            Ok(true)
        }
        None => Ok(false),
    }
}

/// Parses a line of a script, and replaces `bytes` by those that it names.
///
/// The text is without its line feed. The first line of a script names the 68 bytes of a handshake (BEP 3), each other one
/// the length, id and fields of a message, whether that is legal or not. It returns false for what is no line; `bytes` is
/// then of no use.
///
/// # Errors
/// `AllocError` when out of memory. At most one allocation is made.
pub fn read_line(text: &[u8], first: bool, bytes: &mut Vec<u8>) -> Result<bool, AllocError>
    requires { length text.now < 2 ^ 32 }
    ensures { IfOk result (IsAnswer first text.now bytes.new.items) }
{
    bytes.clear();
    append_line(text, first, bytes)
}

/// Parses a line of a script, and appends the bytes that it names to `out`.
///
/// The text is without its line feed. The first line of a script names the 68 bytes of a handshake (BEP 3), each other one the
/// length, id and fields of a message, whether that is legal or not. It returns false for what is no line; `out` is then unchanged.
///
/// # Errors
/// `AllocError` when out of memory. At most one allocation is made.
#[inline(always)]
pub fn append_line(text: &[u8], first: bool, out: &mut Vec<u8>) -> Result<bool, AllocError>
    requires { length text.now < 2 ^ 32 }
    ensures { IfOk result (IsAdded first text.now out.old.items out.new.items) }
{
    if !first {
        return put_message(text, out);
    }
    put_handshake(text, out)
}

/// Parses the line that a text begins with, and appends the bytes that it names to `out`.
///
/// `first` says that the line is the first of its script. A line has at most `2 * limit + 256` bytes before its line feed. If the
/// answer is another than a line, `out` is unchanged.
///
/// # Errors
/// `AllocError` when out of memory. At most one allocation is made.
#[inline(always)]
pub fn append_front<'a>(
    text: &'a [u8],
    first: bool,
    limit: u32,
    out: &mut Vec<u8>,
) -> Result<LineFront<'a>, AllocError>
    requires { limit ≤ 1048576 }
    ensures { IfOk result (IsFront first limit text.now out.old.items out.new.items) }
{
    if !first {
        if let Some(rest) = append_short(text, out)? {
            return Ok(LineFront::Line(rest));
        }
    }
    let Some((line, rest)) = split_line(text) else {
        return Ok(LineFront::Unended);
    };
    if line.len() as u64 > 2 * u64::from(limit) + 256 {
        return Ok(LineFront::Syntax);
    }
    if append_line(line, first, out)? {
        Ok(LineFront::Line(rest))
    } else {
        Ok(LineFront::Syntax)
    }
}
