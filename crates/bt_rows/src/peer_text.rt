//! A peer id as a JSON string (RFC 8259, "strings"), or null.
ghost use Rattle.std.specs.Prelude.{◌≡◌, ◌+◌, ◌*◌, ◌<◌, ◌≤◌, ◌++◌, Some, length, take};
ghost use Rattle.std.specs.Char.{digit_char};
ghost use Rattle.json.specs.Print.{escape, escape_byte, escape_letter, token_text};
ghost use Rattle.bt_json.specs.Objects.{text_or_null};

use bt_text::putting::{put, put_word};
use std::str::from_utf8;

/// Returns the hex digit of a number below 16.
fn hex_digit(n: u8) -> u8
    requires { n < 16 }
    ensures { result ≡ digit_char n }
{
    if n < 10 { b'0' + n } else { b'a' - 10 + n }
}

/// Returns the letter of a byte's short escape, 0 if it has none.
fn escape_letter(byte: u8) -> u8
    ensures { result ≡ escape_letter byte }
{
    match byte {
        b'"' | b'\\' => byte,
        0x08 => b'b',
        0x0C => b'f',
        b'\n' => b'n',
        b'\r' => b'r',
        b'\t' => b't',
        _ => 0,
    }
}

/// Returns what stands between quotes for a byte, and how many bytes that is.
#[tactic(auto, unfolding(json::specs::Print::escape_byte))]
fn escape_of(byte: u8) -> ([u8; 6], usize)
    ensures value { take result.1 result.0 ≡ escape_byte byte }
    ensures bound { result.1 ≤ 6 }
{
    let letter = escape_letter(byte);
    if letter > 0 {
        return ([b'\\', letter, 0, 0, 0, 0], 2);
    }
    if byte < 0x20 {
        let (high, low) = (hex_digit(byte / 16), hex_digit(byte % 16));
        return ([b'\\', b'u', b'0', b'0', high, low], 6);
    }
    ([byte, 0, 0, 0, 0, 0], 1)
}

/// Puts bytes as they stand between quotes.
fn put_string(bytes: &[u8], text: &mut [u8], at: usize) -> usize
    requires { at + 6 * length bytes.now ≤ length text.old }
    ensures room { (at ≤ result) × (result ≤ at + 6 * length bytes.now) }
    ensures size { length text.new ≡ length text.old }
    ensures text { take result text.new ≡ take at text.old ++ escape bytes.now }
{
    let [byte, rest @ ..] = bytes else {
        return at;
    };
    let (escape, size) = escape_of(*byte);
    let at = put(&escape[..size], text, at);
    put_string(rest, text, at)
}

/// Puts a peer id between quotes, or null if it isn't UTF-8.
#[tactic(auto, using(bt_json::proofs::EscapeLaws::text_token, bt_json::proofs::EscapeLaws::no_text_token))]
pub(crate) fn put_peer_text(id: &[u8; 20], text: &mut [u8], at: usize) -> usize
    requires { at + 122 ≤ length text.old }
    ensures room { (at ≤ result) × (result ≤ at + 122) }
    ensures size { length text.new ≡ length text.old }
    ensures text { take result text.new ≡ take at text.old ++ token_text (text_or_null (Some id.now)) }
{
    if from_utf8(id).is_err() {
        return put_word(b"null", text, at);
    }
    let at = put_word(b"\"", text, at);
    let at = put_string(id, text, at);
    put_word(b"\"", text, at)
}
