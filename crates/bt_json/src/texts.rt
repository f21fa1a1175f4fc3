//! The offset that a line begins with, and the text of any length between quotes (RFC 8259, "strings") that it may end with.
//!
//! A run of bytes that need no escape is copied by one call. From the first that needs one on 16 are put one by one.
ghost use Rattle.std.specs.Prelude.{◌≡◌, ◌+◌, ◌<◌, ◌≤◌, ◌++◌, take, length, codes, map, decimal, option_map, vec_capacity, vec_len, OnErr, OnOk, IfOk};
ghost use Rattle.std.specs.Char.{digit_char};
ghost use Rattle.std.specs.Simd.Lanes.{mask_l};
ghost use Rattle.json.specs.Print.{escape, escape_byte, escape_letter, token_text};
ghost use Rattle.json.specs.Run.{is_plain, is_stop};
ghost use Rattle.json.specs.Written.{PlainBetween};
ghost use Rattle.bt_json.specs.Members.{text_room};
ghost use Rattle.bt_json.specs.Objects.{text_or_null};

use bt_text::putting::{Offset, put_word};
use std::alloc::AllocError;
use std::simd::prelude::*;
use std::str::from_utf8;

/// How many bytes of room a line needs besides its text of any length.
pub const LINE_ROOM: usize = 254;

/// How many bytes are tested in one step.
const LANES: usize = 32;

/// How many bytes are put one by one from the first on that needs an escape.
const FEW: usize = 16;

/// How long a run is at most: the C library copies a longer one in another way.
const PIECE: usize = 1984;

/// Puts the offset of a message, with which its line begins.
#[inline(always)]
pub(crate) fn put_offset(offset: &mut Offset, at: u64, text: &mut [u8], place: usize) -> usize
    requires { place + 34 ≤ length text.old }
    ensures room { (place ≤ result) × (result ≤ place + 34) }
    ensures size { length text.new ≡ length text.old }
    ensures text { take result text.new ≡ take place text.old ++ (codes "{\"offset\":" ++ decimal at) }
{
    let place = put_word(b"{\"offset\":", text, place);
    offset.put(at, text, place)
}

/// Returns the hex digit of a number below 16.
fn hex_digit(n: u8) -> u8
    requires { n < 16 }
    ensures { result ≡ digit_char n }
{
    if n < 10 { b'0' + n } else { b'a' - 10 + n }
}

/// Returns the letter of a byte's short escape, 0 if it has none.
fn escape_letter(byte: u8) -> u8
    ensures { result ≡ escape_letter byte }
{
    match byte {
        b'"' | b'\\' => byte,
        0x08 => b'b',
        0x0C => b'f',
        b'\n' => b'n',
        b'\r' => b'r',
        b'\t' => b't',
        _ => 0,
    }
}

/// Returns what stands between quotes for a byte, and how many bytes that is.
#[tactic(auto, unfolding(json::specs::Print::escape_byte))]
fn escape_of(byte: u8) -> ([u8; 6], usize)
    ensures value { take result.1 result.0 ≡ escape_byte byte }
    ensures bound { result.1 ≤ 6 }
{
    let letter = escape_letter(byte);
    if letter > 0 {
        return ([b'\\', letter, 0, 0, 0, 0], 2);
    }
    if byte < 0x20 {
        let (high, low) = (hex_digit(byte / 16), hex_digit(byte % 16));
        return ([b'\\', b'u', b'0', b'0', high, low], 6);
    }
    ([byte, 0, 0, 0, 0, 0], 1)
}

/// Puts what stands between quotes for the bytes in front, at most 16.
///
/// It returns how many bytes these are, and how long it is.
fn put_few(bytes: &[u8], text: &mut [u8]) -> (usize, usize)
    requires some { 0 < length bytes.now }
    requires room { length text.old ≡ 96 }
    ensures taken { (0 < result.0) × (result.0 ≤ length bytes.now) }
    ensures size { (result.1 ≤ 96) × (length text.new ≡ 96) }
    ensures text { take result.1 text.new ≡ escape (take result.0 bytes.now) }
{
    let (mut taken, mut size) = (0, 0);
    while taken < FEW && taken < bytes.len() {
        let (escape, more) = escape_of(bytes[taken]);
        put_word(&escape, text, size);
        size += more;
        taken += 1;
    }
    (taken, size)
}

/// Returns whether a byte stands for itself between quotes.
#[inline(always)]
fn is_plain(byte: u8) -> bool
    ensures { result ≡ is_plain byte }
{
    byte >= 0x20 && byte != b'"' && byte != b'\\'
}

/// Returns a bit for each of the bytes that need an escape.
#[inline(always)]
fn stops(lanes: u8x32) -> u64
    ensures { result ≡ mask_l (map is_stop lanes) }
{
    (lanes.simd_eq(u8x32::splat(b'"'))
        | lanes.simd_eq(u8x32::splat(b'\\'))
        | lanes.simd_lt(u8x32::splat(0x20))).to_bitmask()
}

/// Returns how far a run goes on at the offset `from`.
#[tactic(auto, using(crate::proofs::EscapeLaws::plain_more))]
fn plain_few(bytes: &[u8], from: usize) -> usize
    requires { (from ≤ length bytes.now) × PlainBetween bytes.now 0 from }
    ensures within { result ≤ length bytes.now }
    ensures plain { PlainBetween bytes.now 0 result }
{
    let mut end = from;
    while end < bytes.len() && end < PIECE && is_plain(bytes[end]) {
        end += 1;
    }
    end
}

/// Returns the length of a run, of bytes at the front that need no escape.
#[inline(always)]
fn plain_run(bytes: &[u8]) -> usize
    ensures within { result ≤ length bytes.now }
    ensures plain { PlainBetween bytes.now 0 result }
{
    let mut run = 0;
    while run < PIECE && bytes.len() - run >= LANES {
        let found = stops(u8x32::from_slice(&bytes[run..]));
        if found != 0 {
            return run + found.trailing_zeros() as usize;
        }
        run += LANES;
    }
    plain_few(bytes, run)
}

/// Appends a run from the front and a few bytes after it as they stand between quotes; returns how many bytes that is.
#[tactic(auto, using(crate::proofs::EscapeLaws::plain_front, crate::proofs::EscapeLaws::run_and_few, crate::proofs::EscapeLaws::plain_size, crate::proofs::EscapeLaws::few_size))]
fn push_front(bytes: &[u8], lines: &mut Vec<u8>) -> Result<usize, AllocError>
    requires { 0 < length bytes.now }
    ensures taken { IfOk result (λ n. (0 < n) × (n ≤ length bytes.now) × (lines.new.items ≡ lines.old.items ++ escape (take n bytes.now))) }
    ensures kept { take (length lines.old.items) lines.new.items ≡ lines.old.items }
    ensures full { OnErr result (vec_capacity lines.old < vec_len lines.old + length (escape bytes.now)) }
    ensures capacity { vec_capacity lines.old ≤ vec_capacity lines.new }
{
    let run = plain_run(bytes);
    lines.extend_from_slice(&bytes[..run])?;
    if run == bytes.len() || run == PIECE {
        return Ok(run);
    }
    // (mostly more escapes follow soon)
    let mut few = [0; 6 * FEW];
    let (taken, size) = put_few(&bytes[run..], &mut few);
    lines.extend_from_slice(&few[..size])?;
    Ok(run + taken)
}

/// Appends bytes as they stand between quotes.
fn push_escaped(bytes: &[u8], lines: &mut Vec<u8>) -> Result<(), AllocError>
    ensures added { OnOk result (lines.new.items ≡ lines.old.items ++ escape bytes.now) }
    ensures kept { take (length lines.old.items) lines.new.items ≡ lines.old.items }
    ensures full { OnErr result (vec_capacity lines.old < vec_len lines.old + length (escape bytes.now)) }
    ensures capacity { vec_capacity lines.old ≤ vec_capacity lines.new }
{
    let mut rest = bytes;
    while !rest.is_empty() {
        let taken = push_front(rest, lines)?;
        rest = rest.split_at(taken).1;
    }
    Ok(())
}

/// Appends a text between quotes, or null for `None` and for bytes that aren't UTF-8, and the end of the object and its line.
#[tactic(auto, using(crate::proofs::EscapeLaws::text_token, crate::proofs::EscapeLaws::no_text_token))]
fn push_last(bytes: Option<&[u8]>, lines: &mut Vec<u8>) -> Result<(), AllocError>
    ensures added { OnOk result (lines.new.items ≡ lines.old.items ++ (token_text (text_or_null (option_map (λ s. s.now) bytes.entry)) ++ codes "}\n")) }
    ensures kept { take (length lines.old.items) lines.new.items ≡ lines.old.items }
    ensures full { OnErr result (vec_capacity lines.old < vec_len lines.old + (7 + text_room (option_map (λ s. s.now) bytes.entry))) }
{
    let Some(bytes) = bytes else {
        return lines.extend_from_slice(b"null}\n");
    };
    if from_utf8(bytes).is_err() {
        return lines.extend_from_slice(b"null}\n");
    }
    // (a long text without escapes is then copied once)
    lines.reserve(bytes.len() + 4)?;
    lines.extend_from_slice(b"\"")?;
    push_escaped(bytes, lines)?;
    lines.extend_from_slice(b"\"}\n")
}

/// Writes the last text of a line, and the end of the object and its line, after the first `place` bytes of the text.
///
/// It returns the end.
pub(crate) fn add_last(
    bytes: Option<&[u8]>,
    text: &mut Vec<u8>,
    place: usize,
) -> Result<usize, AllocError>
    requires { place ≤ vec_len text.old }
    ensures line { IfOk result (λ n. take n text.new.items
        ≡ take place text.old.items ++ (token_text (text_or_null (option_map (λ s. s.now) bytes.entry)) ++ codes "}\n")) }
    ensures kept { take place text.new.items ≡ take place text.old.items }
    ensures full { OnErr result (vec_capacity text.old < place + (7 + text_room (option_map (λ s. s.now) bytes.entry))) }
{
    text.truncate(place);
    push_last(bytes, text)?;
    Ok(text.len())
}
