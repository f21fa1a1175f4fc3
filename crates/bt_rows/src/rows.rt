//! A row: something that one side did, at its time.
ghost use Rattle.std.specs.Prelude.{◌≡◌, ◌+◌, ◌*◌, ◌<◌, ◌≤◌, ◌||◌, ◌++◌, OnErr, OnOk, codes, decimal, length, take, vec_capacity, vec_len};
ghost use Rattle.bt_rows.specs.Rows.{back_if, clock_text, deed_members, deed_text, name_if, pad_text, remarks_in, row_object, row_text};

use crate::members::{put_item, put_refusal_members};
use crate::numbers::put_time;
use crate::parts::{Means, flag_of, letter, put_between, put_refusal};
use crate::said::{Words, put_words};
use bt_remarks::{Remarks, Side};
use bt_text::putting::{grow, put_number, put_word};
use bt_wire::Refusal;
use std::alloc::AllocError;

/// What a side did.
#[derive(Clone, Copy)]
pub enum Deed {
    /// It sent an item.
    Item(Words),
    /// It sent what the lenient rules refuse.
    Refused(Refusal),
    /// It sent this many bytes that aren't in the capture.
    Gap(u64),
    /// It closed.
    Closed(Means),
}

/// What a side did, and when.
#[derive(Clone, Copy)]
pub struct Row {
    /// The connection's number.
    pub connection: u64,
    /// Nanoseconds after the capture's first packet.
    pub at: u64,
    pub side: Side,
    /// The offset in the side's stream.
    pub offset: u64,
    pub deed: Deed,
    /// The remarks that are known at this packet.
    pub remarks: Remarks,
}

/// Puts spaces so that the seconds end in the fourth column.
fn put_pad(seconds: u64, text: &mut [u8], at: usize) -> usize
    requires { at + 3 ≤ length text.old }
    ensures room { (at ≤ result) × (result ≤ at + 3) }
    ensures size { length text.new ≡ length text.old }
    ensures text { take result text.new ≡ take at text.old ++ pad_text seconds }
{
    match seconds {
        0..10 => put_word(b"   ", text, at),
        10..100 => put_word(b"  ", text, at),
        100..1000 => put_word(b" ", text, at),
        _ => at,
    }
}

/// Puts a time with spaces before it.
pub(crate) fn put_clock(nanoseconds: u64, text: &mut [u8], at: usize) -> usize
    requires { at + 30 ≤ length text.old }
    ensures room { (at ≤ result) × (result ≤ at + 30) }
    ensures size { length text.new ≡ length text.old }
    ensures text { take result text.new ≡ take at text.old ++ clock_text nanoseconds }
{
    let at = put_pad(nanoseconds / 1_000_000_000, text, at);
    put_time(nanoseconds, text, at)
}

/// Puts what a side did.
fn put_deed(deed: &Deed, text: &mut [u8], at: usize) -> usize
    requires { at + 120 ≤ length text.old }
    ensures room { (at ≤ result) × (result ≤ at + 120) }
    ensures size { length text.new ≡ length text.old }
    ensures text { take result text.new ≡ take at text.old ++ deed_text deed.now }
{
    match deed {
        Deed::Item(words) => put_words(words, text, at),
        Deed::Refused(refusal) => put_refusal(refusal, text, at),
        Deed::Gap(bytes) => {
            let after = b" bytes; nothing after it is shown)";
            put_between(b"(gap of ", *bytes, after, text, at)
        }
        Deed::Closed(by) => {
            let at = put_word(b"(", text, at);
            let at = put_word(flag_of(*by), text, at);
            put_word(b")", text, at)
        }
    }
}

/// Puts a remark's name if the row has it, after `between` if another one stands before it, or else after `front`.
fn put_name_if<const F: usize, const B: usize, const N: usize>(
    has_it: bool,
    has_one: bool,
    front: &[u8; F],
    between: &[u8; B],
    name: &[u8; N],
    text: &mut [u8],
    at: usize,
) -> usize
    requires { at + (length front.now + length between.now + length name.now) ≤ length text.old }
    ensures room { (at ≤ result) × (result ≤ at + (length front.now + length between.now + length name.now)) }
    ensures size { length text.new ≡ length text.old }
    ensures text { take result text.new ≡ take at text.old ++ name_if has_it has_one front.now between.now name.now }
{
    if !has_it {
        return at;
    }
    let at = if has_one {
        put_word(between, text, at)
    } else {
        put_word(front, text, at)
    };
    put_word(name, text, at)
}

/// Puts what stands after the remarks, if the row has one.
fn put_back<const N: usize>(has_one: bool, back: &[u8; N], text: &mut [u8], at: usize) -> usize
    requires { at + length back.now ≤ length text.old }
    ensures room { (at ≤ result) × (result ≤ at + length back.now) }
    ensures size { length text.new ≡ length text.old }
    ensures text { take result text.new ≡ take at text.old ++ back_if has_one back.now }
{
    if has_one {
        put_word(back, text, at)
    } else {
        at
    }
}

/// Puts the remarks, if there are some: `front`, the names with `between` between them, and `back`.
fn put_remarks<const F: usize, const B: usize, const K: usize>(
    front: &[u8; F],
    between: &[u8; B],
    back: &[u8; K],
    remarks: &Remarks,
    text: &mut [u8],
    at: usize,
) -> usize
    requires { at + (27 + 4 * (length front.now + length between.now) + length back.now) ≤ length text.old }
    ensures room { (at ≤ result) × (result ≤ at + (27 + 4 * (length front.now + length between.now) + length back.now)) }
    ensures size { length text.new ≡ length text.old }
    ensures text { take result text.new ≡ take at text.old ++ remarks_in front.now between.now back.now remarks.now }
{
    let one = remarks.unasked;
    let two = one || remarks.choked;
    let three = two || remarks.again;
    let four = three || remarks.elsewhere;
    let at = put_name_if(remarks.unasked, false, front, between, b"unasked", text, at);
    let at = put_name_if(remarks.choked, one, front, between, b"choked", text, at);
    let at = put_name_if(remarks.again, two, front, between, b"again", text, at);
    let at = put_name_if(
        remarks.elsewhere,
        three,
        front,
        between,
        b"elsewhere",
        text,
        at,
    );
    put_back(four, back, text, at)
}

/// Puts the remarks on a line, if there are some.
pub(crate) fn put_line_remarks(remarks: &Remarks, text: &mut [u8], at: usize) -> usize
    requires { at + 50 ≤ length text.old }
    ensures room { (at ≤ result) × (result ≤ at + 50) }
    ensures size { length text.new ≡ length text.old }
    ensures text { take result text.new ≡ take at text.old ++ remarks_in (codes "  (") (codes ", ") (codes ")") remarks.now }
{
    put_remarks(b"  (", b", ", b")", remarks, text, at)
}

/// Puts the remarks as a member, if there are some.
pub(crate) fn put_object_remarks(remarks: &Remarks, text: &mut [u8], at: usize) -> usize
    requires { at + 97 ≤ length text.old }
    ensures room { (at ≤ result) × (result ≤ at + 97) }
    ensures size { length text.new ≡ length text.old }
    ensures text { take result text.new ≡ take at text.old ++ remarks_in (codes ",\"remarks\":[\"") (codes "\",\"") (codes "\"]") remarks.now }
{
    put_remarks(b",\"remarks\":[\"", b"\",\"", b"\"]", remarks, text, at)
}

/// Puts a row.
fn put_row_text(row: &Row, text: &mut [u8], at: usize) -> usize
    requires { at + 260 ≤ length text.old }
    ensures size { length text.new ≡ length text.old }
    ensures text { take result text.new ≡ take at text.old ++ row_text row.now }
{
    let at = put_number(row.connection, text, at);
    let at = put_word(b"  ", text, at);
    let at = put_clock(row.at, text, at);
    let at = put_word(b" ", text, at);
    let at = put_word(letter(row.side), text, at);
    let at = put_between(b" ", row.offset, b" ", text, at);
    let at = put_deed(&row.deed, text, at);
    let at = put_line_remarks(&row.remarks, text, at);
    put_word(b"\n", text, at)
}

/// Appends a row as text.
///
/// # Errors
/// `AllocError` if the capacity has no room for 260 bytes and out of memory; the text is then as before.
pub fn put_row(row: &Row, out: &mut Vec<u8>) -> Result<(), AllocError>
    ensures ok { OnOk result (out.new.items ≡ out.old.items ++ row_text row.now) }
    ensures err { OnErr result (out.new.items ≡ out.old.items) }
    ensures full { OnErr result (vec_capacity out.old < vec_len out.old + 260) }
{
    let place = grow(out, 260)?;
    let end = put_row_text(row, out.as_mut_slice(), place);
    out.truncate(end);
    Ok(())
}

/// Puts what a side did as members.
fn put_deed_members(offset: u64, deed: &Deed, text: &mut [u8], at: usize) -> usize
    requires { at + 340 ≤ length text.old }
    ensures room { (at ≤ result) × (result ≤ at + 340) }
    ensures size { length text.new ≡ length text.old }
    ensures text { take result text.new ≡ take at text.old ++ deed_members offset deed.now }
{
    match deed {
        Deed::Item(words) => {
            let at = put_between(b",\"offset\":", offset, b"", text, at);
            put_item(words, text, at)
        }
        Deed::Refused(refusal) => {
            let at = put_word(b",", text, at);
            put_refusal_members(refusal, text, at)
        }
        Deed::Gap(bytes) => {
            let at = put_between(b",\"offset\":", offset, b",\"gap\":", text, at);
            put_number(*bytes, text, at)
        }
        Deed::Closed(by) => {
            let at = put_between(b",\"offset\":", offset, b",\"closed\":\"", text, at);
            let word = flag_of(*by);
            let at = put_word(word, text, at);
            put_word(b"\"", text, at)
        }
    }
}

/// Puts a row as an object.
fn put_object(packet: u64, row: &Row, text: &mut [u8], at: usize) -> usize
    requires { at + 550 ≤ length text.old }
    ensures size { length text.new ≡ length text.old }
    ensures text { take result text.new ≡ take at text.old ++ row_object packet row.now }
{
    let at = put_between(b"{\"connection\":", row.connection, b",\"time\":", text, at);
    let at = put_time(row.at, text, at);
    let at = put_between(b",\"packet\":", packet, b",\"side\":\"", text, at);
    let at = put_word(letter(row.side), text, at);
    let at = put_word(b"\"", text, at);
    let at = put_deed_members(row.offset, &row.deed, text, at);
    let at = put_object_remarks(&row.remarks, text, at);
    put_word(b"}\n", text, at)
}

/// Appends a row as a JSON object on a line: what `show --json` has of it, and its packet's number, counted from 1.
///
/// # Errors
/// `AllocError` if the capacity has no room for 550 bytes and out of memory; the text is then as before.
pub fn put_row_object(packet: u64, row: &Row, out: &mut Vec<u8>) -> Result<(), AllocError>
    ensures ok { OnOk result (out.new.items ≡ out.old.items ++ row_object packet row.now) }
    ensures err { OnErr result (out.new.items ≡ out.old.items) }
    ensures full { OnErr result (vec_capacity out.old < vec_len out.old + 550) }
{
    let place = grow(out, 550)?;
    let end = put_object(packet, row, out.as_mut_slice(), place);
    out.truncate(end);
    Ok(())
}
