//! The first word of a script's line that can't stand in its place, and what is expected there.
ghost use Rattle.std.specs.Prelude.{◌≡◌, ◌↔◌, [], ◌∷◌, ◌++◌, decimal, length, false, true, None, IfOk, IsTrue, MatchOption, OnOk};
ghost use Rattle.bt_text.specs.Misfits.{sample as sample_of, samples, expected_words as words_of, IsCompleted, IsCompletedOr, expected_of as words_of_fields, IsNoName, IsMisfitOr, misfit_line as line_of, IsShortNumber, HasNoDecimalBlock, IsDecimalBlock, block_size as size_of_block, block_line as block_line_of};
ghost use Rattle.bt_text.specs.ScriptReading.{after_word, ends};

use crate::script::numbers::{is, split_word};
use crate::script::reading::{read_line, row_of};
use bt_wire::Shape;
use itoa::write_digits;
use std::alloc::{AllocError, Global};

/// What is expected in a place of a line.
#[derive(Clone, Copy, PartialEq, Eq, Debug)]
pub enum Expected {
    /// The word `handshake`.
    Handshake,
    /// The name of a message.
    Name,
    /// The reserved bytes of a handshake.
    Reserved,
    /// The info hash of a handshake.
    InfoHash,
    /// The peer id of a handshake.
    PeerId,
    /// A number of 32 bits.
    Number,
    /// A port.
    Port,
    /// An extended id.
    Byte,
    /// An id that has no meaning.
    FreeId,
    /// Bytes in hex, or `-` for none.
    Bytes,
    /// The end of the line.
    End,
}

/// A place of a line, and what is expected there.
#[derive(Clone, Copy, PartialEq, Eq, Debug)]
pub struct Misfit {
    /// The column, counted from 1.
    pub column: u64,
    /// What is expected there.
    pub expected: Expected,
}

/// Returns a word that may stand where this is expected.
fn sample(expected: Expected) -> &'static [u8]
    ensures { result.now ≡ sample_of expected }
{
    match expected {
        Expected::Handshake => b"handshake",
        Expected::Name => b"choke",
        Expected::Reserved => b"0000000000000000",
        Expected::InfoHash | Expected::PeerId => b"0000000000000000000000000000000000000000",
        Expected::Number | Expected::Port | Expected::Byte => b"0",
        Expected::FreeId => b"10",
        Expected::Bytes => b"-",
        Expected::End => b"",
    }
}

/// Appends samples of what is expected, each after a space.
fn push_samples(expected: &[Expected], line: &mut Vec<u8>) -> Result<(), AllocError>
    ensures { OnOk result (line.new.items ≡ line.old.items ++ samples expected.now) }
{
    match expected.split_first() {
        None => Ok(()),
        Some((next, after)) => {
            line.push(b' ')?;
            line.extend_from_slice(sample(*next))?;
            push_samples(after, line)
        }
    }
}

/// Returns whether these words, with samples of the expected ones, are a line.
fn is_completed(
    alloc: Global,
    front: &[u8],
    expected: &[Expected],
    first: bool,
) -> Result<bool, AllocError>
    ensures { IfOk result (IsCompletedOr first front.now expected.now) }
{
    let mut line = Vec::from_slice(alloc, front)?;
    push_samples(expected, &mut line)?;
    if line.len() as u64 >= 1 << 32 {
        return Err(AllocError);
    }
    let mut bytes = Vec::new(alloc);
    read_line(line.as_slice(), first, &mut bytes)
}

/// Returns what is expected after the name of a message, by the shape of its fields.
fn words_of_shape(shape: Shape) -> &'static [Expected]
    ensures { result.now ≡ words_of_fields shape }
{
    match shape {
        Shape::Nothing => &[],
        Shape::Index => &[Expected::Number],
        Shape::Part => &[Expected::Number, Expected::Number, Expected::Number],
        Shape::Block => &[Expected::Number, Expected::Number, Expected::Bytes],
        Shape::Port => &[Expected::Port],
        Shape::Field => &[Expected::Bytes],
        Shape::Extended => &[Expected::Byte, Expected::Bytes],
    }
}

/// Returns what is expected after a message's name; `None` if no message has it.
fn words_of_message(name: &[u8]) -> Option<&'static [Expected]>
    ensures { MatchOption result (IsNoName false name.now) (λ es. IsCompleted false name.now es.now) }
{
    if is(name, b"keep-alive") {
        return Some(&[]);
    }
    if is(name, b"unknown") {
        return Some(&[Expected::FreeId, Expected::Bytes]);
    }
    let (_, shape) = row_of(name)?;
    Some(words_of_shape(shape))
}

/// Returns what is expected after a line's name; `None` if no such line has it.
fn words_after(name: &[u8], first: bool) -> Option<&'static [Expected]>
    ensures { MatchOption result (IsNoName first name.now) (λ es. IsCompleted first name.now es.now) }
{
    if !first {
        return words_of_message(name);
    }
    if is(name, b"handshake") {
        Some(&[Expected::Reserved, Expected::InfoHash, Expected::PeerId])
    } else {
        None
    }
}

/// Goes on through a line whose first words are `front`, and of which `text` follows.
fn follow(
    alloc: Global,
    front: &mut Vec<u8>,
    text: &[u8],
    expected: &[Expected],
    first: bool,
) -> Result<Option<Misfit>, AllocError>
    requires completed { IsCompleted first front.old.items expected.now }
    requires ends { ends text.now ≡ true }
    ensures { IfOk result (IsMisfitOr first (front.old.items ++ text.now)) }
{
    let mut rest = text;
    for k in 0..expected.len() {
        let column = front.len() as u64 + 1;
        let Some((_, tail)) = rest.split_first() else {
            return Ok(Some(Misfit {
                column,
                expected: expected[k],
            }));
        };
        let (word, next) = split_word(tail);
        front.push(b' ')?;
        front.extend_from_slice(word)?;
        if !is_completed(alloc, front.as_slice(), &expected[k + 1..], first)? {
            return Ok(Some(Misfit {
                column: column + 1,
                expected: expected[k],
            }));
        }
        rest = next;
    }
    if rest.is_empty() {
        return Ok(None);
    }
    Ok(Some(Misfit {
        column: front.len() as u64 + 2,
        expected: Expected::End,
    }))
}

/// Returns the first word of a text that can't stand there; `None` if the text is a line.
///
/// It is named by its column and by what is expected in its place. `first` says that the line is the first of its script.
///
/// # Errors
/// `AllocError` when out of memory, or if the text has 2^32 - 256 bytes or more.
pub fn find_misfit(alloc: Global, text: &[u8], first: bool) -> Result<Option<Misfit>, AllocError>
    ensures { IfOk result (IsMisfitOr first text.now) }
{
    let (name, rest) = split_word(text);
    let Some(expected) = words_after(name, first) else {
        return Ok(Some(Misfit {
            column: 1,
            expected: if first {
                Expected::Handshake
            } else {
                Expected::Name
            },
        }));
    };
    let mut front = Vec::from_slice(alloc, name)?;
    follow(alloc, &mut front, rest, expected, first)
}

/// Returns the words for what is expected.
fn expected_words(expected: Expected) -> &'static [u8]
    ensures { result.now ≡ words_of expected }
{
    match expected {
        Expected::Handshake => b"the word handshake",
        Expected::Name => b"the name of a message",
        Expected::Reserved => b"the reserved bytes, 16 hex digits",
        Expected::InfoHash => b"the info hash, 40 hex digits",
        Expected::PeerId => b"the peer id, 40 hex digits",
        Expected::Number => b"a number from 0 to 4294967295",
        Expected::Port => b"a number from 0 to 65535",
        Expected::Byte => b"a number from 0 to 255",
        Expected::FreeId => b"a number from 0 to 255 that is the id of no message",
        Expected::Bytes => b"bytes in hex, two digits each, or -",
        Expected::End => b"the end of the line",
    }
}

/// Appends a text and a number.
fn push_numbered(text: &[u8], n: u64, line: &mut Vec<u8>) -> Result<(), AllocError>
    ensures { OnOk result (line.new.items ≡ line.old.items ++ (text.now ++ decimal n)) }
{
    let mut digits = [0u8; 20];
    let place = write_digits(n, &mut digits, 20);
    line.extend_from_slice(text)?;
    line.extend_from_slice(&digits[place..])
}

/// Appends the line that says which word of a script's line can't stand there.
///
/// It has the line's `number`, counted from 1, and what is expected there.
///
/// # Errors
/// `AllocError` when out of memory.
pub fn push_misfit_line(number: u64, misfit: Misfit, line: &mut Vec<u8>) -> Result<(), AllocError>
    ensures { OnOk result (line.new.items ≡ line.old.items ++ line_of number misfit) }
{
    push_numbered(b"hint: line ", number, line)?;
    push_numbered(b", column ", misfit.column, line)?;
    line.extend_from_slice(b": expected ")?;
    line.extend_from_slice(expected_words(misfit.expected))?;
    line.push(b'\n')?;
    Ok(())
}

/// Returns what follows the first space.
fn after_space(text: &[u8]) -> Option<&[u8]>
    ensures { MatchOption result (after_word text.now ≡ []) (λ rest. after_word text.now ≡ 32 ∷ rest.now) }
{
    let (_, rest) = split_word(text);
    let (_, rest) = rest.split_first()?;
    Some(rest)
}

/// Returns whether a word is at most eight decimal digits, two for each byte.
fn is_short_number(word: &[u8]) -> bool
    ensures { IsTrue result ↔ IsShortNumber word.now }
{
    matches!(word.len(), 2 | 4 | 6 | 8) && word.iter().all(|byte| byte.is_ascii_digit())
}

/// Returns the hex of a short block that has only decimal digits, as a length has.
///
/// `None` for another line.
pub fn decimal_block(text: &[u8]) -> Option<&[u8]>
    ensures { MatchOption result (HasNoDecimalBlock text.now) (λ block. IsDecimalBlock text.now block.now) }
{
    let rest = text.strip_prefix(b"piece ")?;
    let rest = after_space(rest)?;
    let block = after_space(rest)?;
    if is_short_number(block) {
        Some(block)
    } else {
        None
    }
}

/// Returns the words for how many bytes these digits of hex name.
fn block_size(block: &[u8]) -> &'static [u8]
    ensures { result.now ≡ size_of_block (length block.now) }
{
    match block.len() {
        2 => b"one byte",
        4 => b"two bytes",
        6 => b"three bytes",
        _ => b"four bytes",
    }
}

/// Appends the line that says that decimal digits are a block, and no length.
///
/// It has the line's `number`, counted from 1.
///
/// # Errors
/// `AllocError` when out of memory.
pub fn push_block_line(number: u64, block: &[u8], line: &mut Vec<u8>) -> Result<(), AllocError>
    ensures { OnOk result (line.new.items ≡ line.old.items ++ block_line_of number block.now) }
{
    push_numbered(b"hint: line ", number, line)?;
    line.extend_from_slice(b": piece INDEX BEGIN HEX: \"")?;
    line.extend_from_slice(block)?;
    line.extend_from_slice(b"\" is ")?;
    line.extend_from_slice(block_size(block))?;
    line.extend_from_slice(b" of a block; a request has a length\n")?;
    Ok(())
}
