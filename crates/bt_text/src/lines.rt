//! The lines of `show`, and those that commands write on standard error.
//!
//! An item's line is written directly into a text. The others of variable length are written into an array, from its end to
//! its start; the call returns the offset at which the line starts.
ghost use Rattle.std.specs.Prelude.{◌≡◌, ◌≤◌, ◌+◌, ◌++◌, length, take, drop, codes, decimal, OnOk};
ghost use Rattle.bt_wire.specs.Messages.{message_of};
ghost use Rattle.bt_wire.specs.declared.item.Item.TheVariants as items;
ghost use Rattle.bt_text.specs.Lines.{script_reason_name, item_line, words as words_of, verdict_line as verdict_words, refused_line as refused_words, fault_line as fault_words};
ghost use Rattle.bt_text.specs.Words.{HasLengths};

use crate::ended::{Ended, ScriptReason, ToolFault};
use crate::putting::{Offset, grow, put_number, put_word};
use crate::script::writing::put_handshake_line;
use crate::words::put_words;
use bt_wire::{Handshake, Item, MessageView};
use itoa::write_digits;
use std::alloc::AllocError;

/// An array with room for a line.
pub type Line = [u8; 160];

/// Puts a number before the place.
#[inline(always)]
fn number(n: u64, line: &mut Line, at: usize) -> usize
    requires { (20 ≤ at) × (at ≤ 160) }
    ensures room { (result ≤ at) × (at ≤ result + 20) }
    ensures text { drop result line.new ≡ decimal n ++ drop at line.old }
{
    write_digits(n, line, at)
}

/// Puts a word before the place.
#[inline(always)]
fn word(text: &[u8], line: &mut Line, at: usize) -> usize
    requires { (length text.now ≤ at) × (at ≤ 160) }
    ensures room { result + length text.now ≡ at }
    ensures text { drop result line.new ≡ text.now ++ drop at line.old }
{
    let front = at - text.len();
    line[front..at].copy_from_slice(text);
    front
}

/// Writes a message's line at the offset `place` of the text; returns its end.
///
/// `at` is the message's offset in its stream. There is room for 160 bytes.
#[inline(always)]
pub fn put_message(
    offset: &mut Offset,
    at: u64,
    view: &MessageView,
    text: &mut [u8],
    place: usize,
) -> usize
    requires { place + 160 ≤ length text.old }
    ensures room { (place ≤ result) × (result ≤ place + 160) }
    ensures size { length text.new ≡ length text.old }
    ensures text { take result text.new ≡ take place text.old ++ item_line (at, items.Message (message_of view.now)) }
{
    let place = offset.put(at, text, place);
    let place = put_word(b" ", text, place);
    put_words(view, text, place)
}

/// Writes a handshake's line at the offset `place` of the text; returns its end.
///
/// `at` is the handshake's offset in its stream. There is room for 160 bytes.
pub fn put_handshake(at: u64, handshake: &Handshake, text: &mut [u8], place: usize) -> usize
    requires { place + 160 ≤ length text.old }
    ensures size { length text.new ≡ length text.old }
    ensures text { take result text.new ≡ take place text.old ++ item_line (at, items.Handshake handshake.now) }
{
    let place = put_number(at, text, place);
    let place = put_word(b" ", text, place);
    put_handshake_line(handshake, text, place)
}

/// Puts the words of an owned item and the line's end.
fn put_item_words(item: &Item, text: &mut [u8], at: usize) -> usize
    requires { at + 120 ≤ length text.old }
    ensures room { result ≤ at + 120 }
    ensures size { length text.new ≡ length text.old }
    ensures text { HasLengths item.now → take result text.new ≡ take at text.old ++ (words_of item.now ++ codes "\n") }
{
    match item {
        Item::Handshake(handshake) => put_handshake_line(handshake, text, at),
        Item::Message(message) => put_words(message, text, at),
    }
}

/// Puts the line of an owned item.
fn put_item(at: u64, item: &Item, text: &mut [u8], place: usize) -> usize
    requires { place + 160 ≤ length text.old }
    ensures size { length text.new ≡ length text.old }
    ensures text { HasLengths item.now → take result text.new ≡ take place text.old ++ item_line (at, item.now) }
{
    let place = put_number(at, text, place);
    let place = put_word(b" ", text, place);
    put_item_words(item, text, place)
}

/// Appends the line of an owned item, if the length of its dictionary is below 2^64.
///
/// `at` is the item's offset in its stream.
///
/// # Errors
/// `AllocError` when out of memory.
pub fn push_item(at: u64, item: &Item, text: &mut Vec<u8>) -> Result<(), AllocError>
    ensures { OnOk result (HasLengths item.now → text.new.items ≡ text.old.items ++ item_line (at, item.now)) }
{
    let place = grow(text, 160)?;
    let end = put_item(at, item, text.as_mut_slice(), place);
    text.truncate(end);
    Ok(())
}

/// Writes the verdict's line at the end of the array; returns where it starts.
pub fn verdict_line(ended: Ended, line: &mut Line) -> usize
    ensures room { result ≤ 160 }
    ensures text { drop result line.new ≡ verdict_words ended }
{
    let place = word(b"\n", line, 160);
    match ended {
        Ended::Accepted { messages, bytes } => {
            let place = number(bytes, line, place);
            let place = word(b" bytes=", line, place);
            let place = number(messages, line, place);
            word(b"ok messages=", line, place)
        }
        Ended::Refused(refusal) => {
            let place = word(refusal.reason.name().as_bytes(), line, place);
            let place = word(b" ", line, place);
            let place = number(refusal.at, line, place);
            let place = word(b" at=", line, place);
            let place = number(refusal.message, line, place);
            word(b"refused message=", line, place)
        }
    }
}

/// Returns the name of the reason why a line of a script isn't taken.
fn script_name_of(reason: ScriptReason) -> &'static [u8]
    ensures name { result.now ≡ script_reason_name reason }
    ensures short { length result.now ≤ 20 }
{
    match reason {
        ScriptReason::Syntax => b"Syntax",
        ScriptReason::Reason(reason) => reason.name().as_bytes(),
    }
}

/// Writes why a line of a script is refused; returns where the text starts.
///
/// It is at the end of the array. `number_of_line` is counted from 1.
pub fn refused_line(number_of_line: u64, reason: ScriptReason, line: &mut Line) -> usize
    ensures room { result ≤ 160 }
    ensures text { drop result line.new ≡ refused_words number_of_line reason }
{
    let place = word(b"\n", line, 160);
    let place = word(script_name_of(reason), line, place);
    let place = word(b" ", line, place);
    let place = number(number_of_line, line, place);
    word(b"refused line=", line, place)
}

/// Returns the line for a fault, which goes to standard error.
pub fn fault_line(fault: ToolFault) -> &'static [u8]
    ensures { result.now ≡ fault_words fault }
{
    match fault {
        ToolFault::Read => b"fault: read\n",
        ToolFault::Write => b"fault: write\n",
        ToolFault::Memory => b"fault: memory\n",
        ToolFault::Turns => b"fault: turns\n",
        ToolFault::Net => b"fault: net\n",
    }
}
