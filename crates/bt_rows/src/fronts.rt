//! The front of the rows of items, up to the item's offset.
//!
//! It is kept as text, since rows of a side that come with one packet share it.
ghost use Rattle.std.specs.Prelude.{◌≡◌, ◌+◌, ◌%◌, ◌<◌, ◌≤◌, ℕ, ◌++◌, decimal, length, take};
ghost use Rattle.bt_rows.specs.Fronts.{front_text, high_text, line_front, low_text, object_front};

use crate::numbers::{put_four, put_time};
use crate::parts::{letter, put_between};
use crate::rows::put_clock;
use bt_remarks::Side;
use bt_text::putting::{put_number, put_word};

/// How a row is written.
#[derive(Clone, Copy, PartialEq, Eq, Debug)]
pub enum RowForm {
    /// As a line of text.
    Text,
    /// As a JSON object on a line.
    Object,
}

/// What the rows of a side's items have in common if they come with one packet.
#[derive(Clone, Copy, PartialEq, Eq, Debug)]
pub struct Stamp {
    pub form: RowForm,
    /// The connection's number.
    pub connection: u64,
    /// The packet's number, counted from 1.
    pub packet: u64,
    /// Nanoseconds after the capture's first packet.
    pub at: u64,
    pub side: Side,
}

/// The front of an item's row, with the offset's digits but the last four.
///
/// The next row with the same stamp mostly has these digits, too.
#[derive(Drop)]
pub(crate) struct Front {
    stamp: Stamp,
    /// The least offset that has the digits.
    base: u64,
    /// The text stands at the start.
    bytes: [u8; 160],
    count: usize,
    ghost short: { count ≤ 148 },
    ghost whole: { base % 10000 ≡ 0 },
    ghost written: { take count bytes ≡ front_text stamp ++ high_text base },
}

/// Puts the front of a line of text.
#[inline(always)]
fn put_line_front(stamp: &Stamp, text: &mut [u8], at: usize) -> usize
    requires { at + 60 ≤ length text.old }
    ensures room { (at ≤ result) × (result ≤ at + 60) }
    ensures size { length text.new ≡ length text.old }
    ensures text { take result text.new ≡ take at text.old ++ line_front stamp.now }
{
    let at = put_number(stamp.connection, text, at);
    let at = put_word(b"  ", text, at);
    let at = put_clock(stamp.at, text, at);
    let at = put_word(b" ", text, at);
    let at = put_word(letter(stamp.side), text, at);
    put_word(b" ", text, at)
}

/// Puts the front of an object.
fn put_object_front(stamp: &Stamp, text: &mut [u8], at: usize) -> usize
    requires { at + 128 ≤ length text.old }
    ensures room { (at ≤ result) × (result ≤ at + 128) }
    ensures size { length text.new ≡ length text.old }
    ensures text { take result text.new ≡ take at text.old ++ object_front stamp.now }
{
    let at = put_between(
        b"{\"connection\":",
        stamp.connection,
        b",\"time\":",
        text,
        at,
    );
    let at = put_time(stamp.at, text, at);
    let at = put_between(b",\"packet\":", stamp.packet, b",\"side\":\"", text, at);
    let at = put_word(letter(stamp.side), text, at);
    put_word(b"\",\"offset\":", text, at)
}

/// Puts the front of a row.
#[inline(always)]
fn put_front(stamp: &Stamp, text: &mut [u8], at: usize) -> usize
    requires { at + 128 ≤ length text.old }
    ensures room { (at ≤ result) × (result ≤ at + 128) }
    ensures size { length text.new ≡ length text.old }
    ensures text { take result text.new ≡ take at text.old ++ front_text stamp.now }
{
    match stamp.form {
        RowForm::Text => put_line_front(stamp, text, at),
        RowForm::Object => put_object_front(stamp, text, at),
    }
}

/// Puts the digits of an offset but the last four, if it has more.
#[inline(always)]
fn put_high(base: u64, text: &mut [u8], at: usize) -> usize
    requires { at + 20 ≤ length text.old }
    ensures room { (at ≤ result) × (result ≤ at + 20) }
    ensures size { length text.new ≡ length text.old }
    ensures text { take result text.new ≡ take at text.old ++ high_text base }
{
    if base == 0 {
        return at;
    }
    put_number(base / 10_000, text, at)
}

/// Puts the last digits of an offset.
#[inline(always)]
fn put_low(base: u64, low: u64, text: &mut [u8], at: usize) -> usize
    requires { (low < 10000) × (at + 20 ≤ length text.old) }
    ensures room { (at ≤ result) × (result ≤ at + 20) }
    ensures size { length text.new ≡ length text.old }
    ensures text { take result text.new ≡ take at text.old ++ low_text base low }
{
    if base == 0 {
        return put_number(low, text, at);
    }
    put_four(low, text, at)
}

/// Puts the first `many` bytes of a front.
#[inline(always)]
fn put_first(bytes: &[u8; 160], many: usize, text: &mut [u8], at: usize)
    requires { (many ≤ 160) × (at + many ≤ length text.old) }
    ensures size { length text.new ≡ length text.old }
    ensures text { (count : ℕ) → count ≤ many → take (at + count) text.new ≡ take at text.old ++ take count bytes.now }
{
    // a copy of its own, as in put_word
    let bytes = *bytes;
    text[at..at + many].copy_from_slice(&bytes[..many]);
}

impl Front {
    /// Makes the front of the rows with this stamp.
    #[inline(never)]
    pub(crate) fn new(stamp: &Stamp) -> Front {
        let mut bytes = [0; 160];
        let count = put_front(stamp, &mut bytes, 0);
        Front {
            stamp: *stamp,
            base: 0,
            bytes,
            count,
        }
    }

    /// Takes another stamp, and the digits of another offset; returns what the last four are worth.
    #[inline(never)]
    fn renew(&mut self, stamp: &Stamp, offset: u64) -> u64
        ensures stamp { self.new.stamp ≡ stamp.now }
        ensures offset { self.new.base + result ≡ offset }
        ensures low { result < 10000 }
    {
        let low = offset % 10_000;
        let base = offset - low;
        let at = put_front(stamp, &mut self.bytes, 0);
        let count = put_high(base, &mut self.bytes, at);
        self.stamp = *stamp;
        self.base = base;
        self.count = count;
        low
    }

    /// Takes a stamp and the digits of an offset, if it has others; returns what the last four are worth.
    #[inline(always)]
    fn turn_to(&mut self, stamp: &Stamp, offset: u64) -> u64
        ensures stamp { self.new.stamp ≡ stamp.now }
        ensures offset { self.new.base + result ≡ offset }
        ensures low { result < 10000 }
    {
        if offset >= self.base && offset - self.base < 10_000 && self.stamp == *stamp {
            return offset - self.base;
        }
        self.renew(stamp, offset)
    }

    /// Puts what it has.
    #[inline(always)]
    fn put_same(&self, text: &mut [u8], place: usize) -> usize
        requires { place + 160 ≤ length text.old }
        ensures room { (place ≤ result) × (result ≤ place + 148) }
        ensures size { length text.new ≡ length text.old }
        ensures text { take result text.new ≡ take place text.old ++ (front_text self.now.stamp ++ high_text self.now.base) }
    {
        match self.count {
            0..=32 => put_first(&self.bytes, 32, text, place),
            33..=96 => put_first(&self.bytes, 96, text, place),
            _ => put_first(&self.bytes, 160, text, place),
        }
        place + self.count
    }

    /// Puts the front of the row with this stamp, and the offset.
    #[inline(always)]
    pub(crate) fn put(&mut self, stamp: &Stamp, offset: u64, text: &mut [u8], place: usize) -> usize
        requires { place + 168 ≤ length text.old }
        ensures room { (place ≤ result) × (result ≤ place + 168) }
        ensures size { length text.new ≡ length text.old }
        ensures text { take result text.new ≡ take place text.old ++ (front_text stamp.now ++ decimal offset) }
    {
        let low = self.turn_to(stamp, offset);
        let place = self.put_same(text, place);
        put_low(self.base, low, text, place)
    }
}
