//! Members of JSON objects (RFC 8259): an item and a verdict, as `show --json` has them.
ghost use Rattle.std.specs.Prelude.{◌≡◌, ◌+◌, ◌≤◌, ◌++◌, codes, decimal, length, take};
ghost use Rattle.hex.specs.Hex.{encode_lower};
ghost use Rattle.bt_rows.specs.Members.{first_key, key_text, number_members, said_object, second_key, third_key, verdict_members, words_members};
ghost use Rattle.bt_rows.specs.Numbers.{option_text};
ghost use Rattle.bt_rows.specs.declared.said.Words.TheVariants as words;
ghost use Rattle.bt_text.specs.declared.ended.Ended.TheVariants as ended_by;

use crate::numbers::put_option;
use crate::parts::put_between;
use crate::peer_text::put_peer_text;
use crate::said::{Name, Numbers, Said, Words, put_name};
use bt_text::putting::{put, put_hex, put_number, put_word};
use bt_wire::{Handshake, Refusal};

/// Puts the key of the first number after a name.
#[inline(always)]
fn put_first_key(name: Name, text: &mut [u8], at: usize) -> usize
    requires { at + 14 ≤ length text.old }
    ensures room { (at ≤ result) × (result ≤ at + 14) }
    ensures size { length text.new ≡ length text.old }
    ensures text { take result text.new ≡ take at text.old ++ key_text (first_key name) }
{
    match name {
        Name::Bitfield => put_word(b",\"bytes\":", text, at),
        Name::Port => put_word(b",\"port\":", text, at),
        Name::Extended | Name::Unknown => put_word(b",\"id\":", text, at),
        Name::MetadataRequest | Name::MetadataData | Name::MetadataReject => {
            put_word(b",\"piece\":", text, at)
        }
        Name::MetadataOther | Name::MetadataMalformed => put_word(b",\"dictionary\":", text, at),
        _ => put_word(b",\"index\":", text, at),
    }
}

/// Puts the key of the second number after a name.
#[inline(always)]
fn put_second_key(name: Name, text: &mut [u8], at: usize) -> usize
    requires { at + 14 ≤ length text.old }
    ensures room { (at ≤ result) × (result ≤ at + 14) }
    ensures size { length text.new ≡ length text.old }
    ensures text { take result text.new ≡ take at text.old ++ key_text (second_key name) }
{
    match name {
        Name::Extended | Name::Unknown => put_word(b",\"bytes\":", text, at),
        Name::MetadataData => put_word(b",\"total_size\":", text, at),
        Name::MetadataOther | Name::MetadataMalformed => put_word(b",\"rest\":", text, at),
        _ => put_word(b",\"begin\":", text, at),
    }
}

/// Puts the key of the third number after a name.
#[inline(always)]
fn put_third_key(name: Name, text: &mut [u8], at: usize) -> usize
    requires { at + 14 ≤ length text.old }
    ensures room { (at ≤ result) × (result ≤ at + 14) }
    ensures size { length text.new ≡ length text.old }
    ensures text { take result text.new ≡ take at text.old ++ key_text (third_key name) }
{
    match name {
        Name::Piece | Name::MetadataData => put_word(b",\"bytes\":", text, at),
        _ => put_word(b",\"length\":", text, at),
    }
}

/// Puts the numbers after a name.
#[inline(always)]
fn put_numbers(name: Name, numbers: Numbers, text: &mut [u8], at: usize) -> usize
    requires { at + 102 ≤ length text.old }
    ensures room { (at ≤ result) × (result ≤ at + 102) }
    ensures size { length text.new ≡ length text.old }
    ensures text { take result text.new ≡ take at text.old ++ number_members name numbers }
{
    match numbers {
        Numbers::Zero => at,
        Numbers::One(n) => {
            let at = put_first_key(name, text, at);
            put_number(n, text, at)
        }
        Numbers::Two(n, m) => {
            let at = put_first_key(name, text, at);
            let at = put_number(n, text, at);
            let at = put_second_key(name, text, at);
            put_number(m, text, at)
        }
        Numbers::Three(n, m, k) => {
            let at = put_first_key(name, text, at);
            let at = put_number(n, text, at);
            let at = put_second_key(name, text, at);
            let at = put_number(m, text, at);
            let at = put_third_key(name, text, at);
            put_number(k, text, at)
        }
    }
}

/// Puts a handshake's three fields in hex, and the peer id as text.
#[inline(never)]
fn put_handshake(handshake: &Handshake, text: &mut [u8], at: usize) -> usize
    requires { at + 300 ≤ length text.old }
    ensures room { (at ≤ result) × (result ≤ at + 300) }
    ensures size { length text.new ≡ length text.old }
    ensures text { take result text.new ≡ take at text.old ++ words_members (words.Handshake handshake.now) }
{
    let at = put_word(b",\"item\":\"handshake\",\"reserved\":\"", text, at);
    let at = put_hex(&handshake.reserved.0.to_be_bytes(), text, at);
    let at = put_word(b"\",\"info_hash\":\"", text, at);
    let at = put_hex(&handshake.info_hash, text, at);
    let at = put_word(b"\",\"peer_id\":\"", text, at);
    let at = put_hex(&handshake.peer_id, text, at);
    let at = put_word(b"\",\"peer_id_text\":", text, at);
    put_peer_text(&handshake.peer_id, text, at)
}

/// Puts what an extended handshake announces.
#[inline(never)]
fn put_announced(
    dict: u64,
    rest: u64,
    size: Option<u64>,
    id: Option<u64>,
    text: &mut [u8],
    at: usize,
) -> usize
    requires { at + 170 ≤ length text.old }
    ensures room { (at ≤ result) × (result ≤ at + 170) }
    ensures size { length text.new ≡ length text.old }
    ensures text { take result text.new ≡ take at text.old ++ words_members (words.Announced dict rest size id) }
{
    let before = b",\"item\":\"ext-handshake\",\"dictionary\":";
    let at = put_between(before, dict, b",\"rest\":", text, at);
    let at = put_number(rest, text, at);
    let at = put_option(b",\"metadata_size\":", size, text, at);
    put_option(b",\"ut_metadata\":", id, text, at)
}

/// Puts an item's kind and fields.
#[inline(always)]
pub(crate) fn put_item(words: &Words, text: &mut [u8], at: usize) -> usize
    requires { at + 300 ≤ length text.old }
    ensures room { (at ≤ result) × (result ≤ at + 300) }
    ensures size { length text.new ≡ length text.old }
    ensures text { take result text.new ≡ take at text.old ++ words_members words.now }
{
    match words {
        Words::Handshake(handshake) => put_handshake(handshake, text, at),
        Words::Announced {
            dict,
            rest,
            size,
            id,
        } => put_announced(*dict, *rest, *size, *id, text, at),
        Words::Message(name, numbers) => {
            let at = put_word(b",\"item\":\"", text, at);
            let at = put_name(*name, text, at);
            let at = put_word(b"\"", text, at);
            put_numbers(*name, *numbers, text, at)
        }
    }
}

/// Puts an item and its offset as an object.
pub(crate) fn put_said_object(said: &Said, text: &mut [u8], at: usize) -> usize
    requires { at + 331 ≤ length text.old }
    ensures room { (at ≤ result) × (result ≤ at + 331) }
    ensures size { length text.new ≡ length text.old }
    ensures text { take result text.new ≡ take at text.old ++ said_object said.now }
{
    let at = put_between(b"{\"offset\":", said.offset, b"", text, at);
    let at = put_item(&said.words, text, at);
    put_word(b"}", text, at)
}

/// Puts where and why a stream is refused.
pub(crate) fn put_refusal_members(refusal: &Refusal, text: &mut [u8], at: usize) -> usize
    requires { at + 120 ≤ length text.old }
    ensures room { (at ≤ result) × (result ≤ at + 120) }
    ensures size { length text.new ≡ length text.old }
    ensures text { take result text.new ≡ take at text.old ++ verdict_members (ended_by.Refused refusal.now) }
{
    let before = b"\"verdict\":\"refused\",\"message\":";
    let at = put_between(before, refusal.message, b",\"offset\":", text, at);
    let at = put_number(refusal.at, text, at);
    let at = put_word(b",\"reason\":\"", text, at);
    let at = put(refusal.reason.name().as_bytes(), text, at);
    put_word(b"\"", text, at)
}
