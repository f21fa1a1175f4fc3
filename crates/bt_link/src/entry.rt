//! Parsing of a line of a link script.
ghost use Rattle.std.specs.Prelude.{◌≡◌, ◌==◌, ◌≤◌, ◌<◌, ◌^◌, ◌+◌, length, position, option_map, option_and_then, IfOk, IfSome};
ghost use Rattle.std.specs.Str.{bytes_eq};
ghost use Rattle.bt_text.specs.ScriptReading.{seen, number_in_word, bytes_in_word};
ghost use Rattle.bt_link.specs.Entries.{
  cut_of,
  side_of,
  sided_of,
  hash_of,
  bits_of,
  id_of,
  window_of,
  rules_of,
  announce_of,
  numbered_of,
  short_setting_of,
  setting_of,
  setting_in,
  entry_in,
  said_in,
  delivery_of,
  entry_by,
  IsReading,
};

use crate::message::read_message;
use bt_bencode::ByteString;
use bt_ext::{ExtId, Rules};
use bt_session::{Announce, Side, Step, Window};
use bt_text::script::reading::plain_number;
use hex::{FromHex, FromHexError};
use std::alloc::{AllocError, Global};

/// What a line sets for an end.
#[derive(Debug, Drop)]
pub enum Setting {
    /// The end serves this metadata, whose SHA-1 is its info hash.
    Serve(ByteString),
    /// The end neither serves nor fetches the metadata of this info hash.
    Watch([u8; 20]),
    /// The end fetches the metadata of this info hash.
    Fetch([u8; 20]),
    /// The end's info hash.
    InfoHash([u8; 20]),
    /// The end's peer id.
    PeerId([u8; 20]),
    /// The end's reserved bits, as a big-endian number.
    Reserved(u64),
    /// The rules by which the end checks.
    Rules(Rules),
    /// What the end says about its pieces after the handshakes (BEP 6).
    Announce(Announce),
    /// How many pieces the torrent has.
    Pieces(u32),
    /// The greatest length prefix of a message, in bytes.
    Limit(u32),
    /// The end's id of `ut_metadata` (BEP 9), or none.
    MetadataId(Option<ExtId>),
    /// The end's id of `lt_donthave`, or none.
    DonthaveId(Option<ExtId>),
    /// How many requests a fetching end has outstanding at once.
    Window(Window),
}

/// What a line asks for.
#[derive(Debug, Drop)]
pub enum Entry {
    /// A setting of an end.
    Set(Side, Setting),
    /// A step of the run.
    Do(Step),
}

/// Returns the offset of the first space.
fn first_space(text: &[u8]) -> Option<usize>
    ensures value { result ≡ position (λ c. c == 32) text.now }
    ensures within { IfSome result (λ n. n < length text.now) }
{
    text.iter().position(|byte| *byte == b' ')
}

/// Splits a text at its first space.
#[tactic(auto, using(std::proofs::lemmas::List::take_rest))]
fn cut(text: &[u8]) -> Option<(&[u8], &[u8])>
    ensures value { option_map (λ p. (p.0.now, p.1.now)) result ≡ cut_of text.now }
    ensures short { IfSome result (λ p. length p.1.now ≤ length text.now) }
{
    match first_space(text) {
        Some(end) => Some((&text[..end], &text[end + 1..])),
        None => None,
    }
}

#[inline(always)]
fn is(text: &[u8], word: &[u8]) -> bool
    ensures { result ≡ bytes_eq text.now word.now }
{
    text == word
}

/// The side that a word names.
fn side(word: &[u8]) -> Option<Side>
    ensures { result ≡ side_of word.now }
{
    if is(word, b"left") {
        Some(Side::Left)
    } else if is(word, b"right") {
        Some(Side::Right)
    } else {
        None
    }
}

/// A side, and what stands after it.
fn sided(text: &[u8]) -> Option<(Side, &[u8])>
    ensures value { seen result ≡ sided_of text.now }
    ensures short { IfSome result (λ p. length p.1.now ≤ length text.now) }
{
    let (word, rest) = cut(text)?;
    Some((side(word)?, rest))
}

/// The bytes of 40 hex digits.
fn hash(word: &[u8]) -> Option<[u8; 20]>
    ensures { result ≡ hash_of word.now }
{
    <[u8; 20] as FromHex>::from_hex(word).ok()
}

/// The number of 16 hex digits.
fn bits(word: &[u8]) -> Option<u64>
    ensures { result ≡ bits_of word.now }
{
    let bytes = <[u8; 8] as FromHex>::from_hex(word).ok()?;
    Some(u64::from_be_bytes(bytes))
}

/// The id of a number, of which 0 is none.
fn id(n: u32) -> Option<Option<ExtId>>
    ensures { result ≡ id_of n }
{
    if n < 256 {
        Some(ExtId::new(n as u8))
    } else {
        None
    }
}

/// The window of `n` blocks.
fn window(n: u32) -> Option<Window>
    ensures { result ≡ window_of n }
{
    Window::new(u8::try_from(n).ok()?)
}

/// The rules that a word names.
fn rules(word: &[u8]) -> Option<Rules>
    ensures { result ≡ rules_of word.now }
{
    if is(word, b"free") {
        Some(Rules::Free)
    } else if is(word, b"bep") {
        Some(Rules::Bep)
    } else {
        None
    }
}

/// Returns what an end says about its pieces, by a word.
fn announce(word: &[u8]) -> Option<Announce>
    ensures { result ≡ announce_of word.now }
{
    if is(word, b"silent") {
        Some(Announce::Silent)
    } else if is(word, b"all") {
        Some(Announce::All)
    } else if is(word, b"nothing") {
        Some(Announce::Nothing)
    } else {
        None
    }
}

/// Returns the bytes that hex digits of either case name, or `-` for none.
#[tactic(auto, unfolding(bt_text::specs::ScriptReading::bytes_in_word))]
fn bytes(alloc: Global, word: &[u8]) -> Result<Option<ByteString>, AllocError>
    ensures { IfOk result (λ bytes. bytes ≡ bytes_in_word word.now) }
{
    if is(word, b"-") {
        return Ok(Some(ByteString::from_vec(Vec::new(alloc))));
    }
    if word.is_empty() {
        return Ok(None);
    }
    match hex::decode(alloc, word) {
        Ok(bytes) => Ok(Some(ByteString::from_vec(bytes))),
        Err(FromHexError::OutOfMemory) => Err(AllocError),
        Err(_) => Ok(None),
    }
}

/// Returns the setting of a name and its value, if it keeps no bytes.
fn short_setting(name: &[u8], value: &[u8]) -> Option<Setting>
    ensures { result ≡ short_setting_of name.now value.now }
{
    if is(name, b"watch") {
        hash(value).map(Setting::Watch)
    } else if is(name, b"fetch") {
        hash(value).map(Setting::Fetch)
    } else if is(name, b"info-hash") {
        hash(value).map(Setting::InfoHash)
    } else if is(name, b"peer-id") {
        hash(value).map(Setting::PeerId)
    } else if is(name, b"reserved") {
        bits(value).map(Setting::Reserved)
    } else if is(name, b"rules") {
        rules(value).map(Setting::Rules)
    } else if is(name, b"announce") {
        announce(value).map(Setting::Announce)
    } else {
        numbered(name, plain_number(value)?)
    }
}

/// The setting of a name and a number.
fn numbered(name: &[u8], n: u32) -> Option<Setting>
    ensures { result ≡ numbered_of name.now n }
{
    if is(name, b"pieces") {
        Some(Setting::Pieces(n))
    } else if is(name, b"limit") {
        Some(Setting::Limit(n))
    } else if is(name, b"metadata-id") {
        id(n).map(Setting::MetadataId)
    } else if is(name, b"donthave-id") {
        id(n).map(Setting::DonthaveId)
    } else if is(name, b"window") {
        window(n).map(Setting::Window)
    } else {
        None
    }
}

/// The setting of a name and its value.
fn setting_named(alloc: Global, name: &[u8], value: &[u8]) -> Result<Option<Setting>, AllocError>
    ensures { IfOk result (λ setting. setting ≡ setting_of name.now value.now) }
{
    if is(name, b"serve") {
        return Ok(bytes(alloc, value)?.map(Setting::Serve));
    }
    Ok(short_setting(name, value))
}

/// The setting of a text, a name and its value.
fn read_setting(alloc: Global, text: &[u8]) -> Result<Option<Setting>, AllocError>
    ensures { IfOk result (λ setting. setting ≡ setting_in text.now) }
{
    match cut(text) {
        Some((name, value)) => setting_named(alloc, name, value),
        None => Ok(None),
    }
}

/// The delivery of a side and a number of bytes.
fn delivery(text: &[u8]) -> Option<Entry>
    ensures { result ≡ option_and_then delivery_of (sided_of text.now) }
{
    let (side, word) = sided(text)?;
    let count = plain_number(word)?;
    Some(Entry::Do(Step::Deliver(side, u64::from(count))))
}

/// Returns what a line asks for, if it queues no message.
///
/// `word` is the line's first word, and `rest` is what follows it.
fn entry_by(alloc: Global, word: &[u8], rest: &[u8]) -> Result<Option<Entry>, AllocError>
    ensures { IfOk result (λ entry. entry ≡ entry_by (word.now, rest.now)) }
{
    if is(word, b"turn") {
        return Ok(side(rest).map(|side| Entry::Do(Step::Turn(side))));
    }
    if is(word, b"deliver") {
        return Ok(delivery(rest));
    }
    match side(word) {
        Some(side) => Ok(read_setting(alloc, rest)?.map(|setting| Entry::Set(side, setting))),
        None => Ok(None),
    }
}

/// Returns what a line asks for, if it queues no message.
fn plain_entry(alloc: Global, text: &[u8]) -> Result<Option<Entry>, AllocError>
    ensures { IfOk result (λ entry. entry ≡ entry_in text.now) }
{
    if is(text, b"reset") {
        return Ok(Some(Entry::Do(Step::Reset)));
    }
    match cut(text) {
        Some((word, rest)) => entry_by(alloc, word, rest),
        None => Ok(None),
    }
}

/// Returns the side that queues a message, and the words of the message.
fn said(text: &[u8]) -> Option<(Side, &[u8])>
    ensures value { seen result ≡ said_in text.now }
    ensures short { IfSome result (λ p. length p.1.now ≤ length text.now) }
{
    let (word, rest) = cut(text)?;
    if is(word, b"say") { sided(rest) } else { None }
}

/// Parses a line, which is given without its line feed; `None` if it is none.
///
/// # Errors
/// `AllocError` when out of memory.
pub fn read_entry(alloc: Global, text: &[u8]) -> Result<Option<Entry>, AllocError>
    requires { length text.now < 2 ^ 32 }
    ensures { IfOk result (IsReading text.now) }
{
    match said(text) {
        Some((side, words)) => match read_message(alloc, words)? {
            Some(message) => Ok(Some(Entry::Do(Step::Say(side, message)))),
            None => Ok(None),
        },
        None => plain_entry(alloc, text),
    }
}
