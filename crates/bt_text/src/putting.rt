//! Words and numbers written into a buffer that has room for them, from an offset on.
//!
//! A call returns the offset after what it wrote.
ghost use Rattle.std.specs.Prelude.{◌≡◌, ◌+◌, ◌-◌, ◌*◌, ◌/◌, ◌%◌, ◌^◌, ◌<◌, ◌≤◌, [], ◌∷◌, ◌++◌, length, take, codes, decimal, vec_capacity, vec_len, IfOk, OnErr};
ghost use Rattle.hex.specs.Hex.{encode_lower};
ghost use Rattle.bt_text.specs.Lines.{spaced};

use itoa::write_digits;
use std::alloc::AllocError;

/// The digits of each number below 100, two of them.
static PAIRS: [u8; 200] =
    *b"0001020304050607080910111213141516171819202122232425262728293031323334353637383940414243444546474849\
5051525354555657585960616263646566676869707172737475767778798081828384858687888990919293949596979899";

/// Writes a word at the offset `at`; returns the offset after it.
#[inline(always)]
pub fn put(word: &[u8], text: &mut [u8], at: usize) -> usize
    requires { at + length word.now ≤ length text.old }
    ensures room { result ≡ at + length word.now }
    ensures size { length text.new ≡ length text.old }
    ensures text { take result text.new ≡ take at text.old ++ word.now }
{
    let end = at + word.len();
    text[at..end].copy_from_slice(word);
    end
}

/// Writes a word of known length at the offset `at`; returns the offset after it.
///
/// It is copied from a place of its own, which the compiler sees to be apart from the text. So it doesn't test that before it
/// copies.
#[inline(always)]
pub fn put_word<const N: usize>(word: &[u8; N], text: &mut [u8], at: usize) -> usize
    requires { at + length word.now ≤ length text.old }
    ensures room { result ≡ at + length word.now }
    ensures size { length text.new ≡ length text.old }
    ensures text { take result text.new ≡ take at text.old ++ word.now }
{
    let word = *word;
    put(&word, text, at)
}

/// Writes bytes in hex at the offset `at`; returns the offset after them.
#[inline(always)]
pub fn put_hex(bytes: &[u8], text: &mut [u8], at: usize) -> usize
    requires { at + 2 * length bytes.now ≤ length text.old }
    ensures room { result ≡ at + 2 * length bytes.now }
    ensures size { length text.new ≡ length text.old }
    ensures text { take result text.new ≡ take at text.old ++ encode_lower bytes.now }
{
    let end = at + 2 * bytes.len();
    let _ = hex::encode_to_slice(bytes, &mut text[at..end]);
    end
}

/// Puts the two digits of a number below 100.
#[inline(always)]
fn put_pair(pair: u64, text: &mut [u8], at: usize) -> usize
    requires { (pair < 100) × (at + 2 ≤ length text.old) }
    ensures room { result ≡ at + 2 }
    ensures size { length text.new ≡ length text.old }
    ensures text { take result text.new ≡ take at text.old ++ ((48 + pair / 10) ∷ (48 + pair % 10) ∷ []) }
{
    let from = pair as usize * 2;
    let (tens, ones) = (PAIRS[from], PAIRS[from + 1]);
    text[at] = tens;
    text[at + 1] = ones;
    at + 2
}

/// Puts four digits of a number below 10,000.
#[inline(always)]
fn put_four(four: u64, text: &mut [u8], at: usize) -> usize
    requires { (four < 10000) × (at + 4 ≤ length text.old) }
    ensures room { result ≡ at + 4 }
    ensures size { length text.new ≡ length text.old }
    ensures text { take result text.new ≡ take at text.old
        ++ (((48 + four / 100 / 10) ∷ (48 + four / 100 % 10) ∷ []) ++ ((48 + four % 100 / 10) ∷ (48 + four % 100 % 10) ∷ [])) }
{
    let at = put_pair(four / 100, text, at);
    put_pair(four % 100, text, at)
}

/// Puts a number below 100.
#[inline(always)]
fn put_first(n: u64, text: &mut [u8], at: usize) -> usize
    requires { (n < 100) × (at + 2 ≤ length text.old) }
    ensures room { (at ≤ result) × (result ≤ at + 2) }
    ensures size { length text.new ≡ length text.old }
    ensures text { take result text.new ≡ take at text.old ++ decimal n }
{
    if n < 10 {
        text[at] = b'0' + n as u8;
        return at + 1;
    }
    put_pair(n, text, at)
}

/// Puts a number below 10,000.
#[inline(always)]
fn put_short(n: u64, text: &mut [u8], at: usize) -> usize
    requires { (n < 10000) × (at + 4 ≤ length text.old) }
    ensures room { (at ≤ result) × (result ≤ at + 4) }
    ensures size { length text.new ≡ length text.old }
    ensures text { take result text.new ≡ take at text.old ++ decimal n }
{
    if n < 100 {
        return put_first(n, text, at);
    }
    let at = put_first(n / 100, text, at);
    put_pair(n % 100, text, at)
}

/// Puts a number that may be long.
#[inline(never)]
fn put_long(n: u64, text: &mut [u8], at: usize) -> usize
    requires { at + 20 ≤ length text.old }
    ensures room { (at ≤ result) × (result ≤ at + 20) }
    ensures size { length text.new ≡ length text.old }
    ensures text { take result text.new ≡ take at text.old ++ decimal n }
{
    let mut digits = [0; 20];
    let from = write_digits(n, &mut digits, 20);
    put(&digits[from..], text, at)
}

/// Writes a number at the offset `at`; returns the offset after it.
///
/// There is room for 20 bytes.
#[inline(never)]
pub fn put_number(n: u64, text: &mut [u8], at: usize) -> usize
    requires { at + 20 ≤ length text.old }
    ensures room { (at ≤ result) × (result ≤ at + 20) }
    ensures size { length text.new ≡ length text.old }
    ensures text { take result text.new ≡ take at text.old ++ decimal n }
{
    if n < 10_000 {
        return put_short(n, text, at);
    }
    if n >= 100_000_000 {
        return put_long(n, text, at);
    }
    let at = put_short(n / 10_000, text, at);
    put_four(n % 10_000, text, at)
}

/// Writes a name, a number and a line feed; returns the offset after them.
#[inline(always)]
pub fn put_one<const N: usize>(name: &[u8; N], n: u64, text: &mut [u8], at: usize) -> usize
    requires { at + (21 + length name.now) ≤ length text.old }
    ensures room { (at ≤ result) × (result ≤ at + (21 + length name.now)) }
    ensures size { length text.new ≡ length text.old }
    ensures text { take result text.new ≡ take at text.old ++ (name.now ++ (decimal n ++ codes "\n")) }
{
    let place = put_word(name, text, at);
    let place = put_number(n, text, place);
    put_word(b"\n", text, place)
}

/// Puts two numbers and the line's end.
#[inline(never)]
fn end_two(n: u64, m: u64, text: &mut [u8], at: usize) -> usize
    requires { at + 42 ≤ length text.old }
    ensures room { (at ≤ result) × (result ≤ at + 42) }
    ensures size { length text.new ≡ length text.old }
    ensures text { take result text.new ≡ take at text.old ++ (decimal n ++ (spaced m ++ codes "\n")) }
{
    let place = put_number(n, text, at);
    put_one(b" ", m, text, place)
}

/// Writes a name, two numbers and a line feed; returns the offset after them.
#[inline(always)]
pub fn put_two<const N: usize>(name: &[u8; N], n: u64, m: u64, text: &mut [u8], at: usize) -> usize
    requires { at + (42 + length name.now) ≤ length text.old }
    ensures room { (at ≤ result) × (result ≤ at + (42 + length name.now)) }
    ensures size { length text.new ≡ length text.old }
    ensures text { take result text.new ≡ take at text.old ++ (name.now ++ (decimal n ++ (spaced m ++ codes "\n"))) }
{
    let place = put_word(name, text, at);
    end_two(n, m, text, place)
}

/// Puts three numbers and the line's end.
#[inline(never)]
fn end_three(n: u64, m: u64, k: u64, text: &mut [u8], at: usize) -> usize
    requires { at + 63 ≤ length text.old }
    ensures room { (at ≤ result) × (result ≤ at + 63) }
    ensures size { length text.new ≡ length text.old }
    ensures text { take result text.new ≡ take at text.old ++ (decimal n ++ (spaced m ++ (spaced k ++ codes "\n"))) }
{
    let place = put_number(n, text, at);
    put_two(b" ", m, k, text, place)
}

/// Writes a name, three numbers and a line feed; returns the offset after them.
#[inline(always)]
pub fn put_three<const N: usize>(
    name: &[u8; N],
    n: u64,
    m: u64,
    k: u64,
    text: &mut [u8],
    at: usize,
) -> usize
    requires { at + (63 + length name.now) ≤ length text.old }
    ensures room { (at ≤ result) × (result ≤ at + (63 + length name.now)) }
    ensures size { length text.new ≡ length text.old }
    ensures text { take result text.new ≡ take at text.old ++ (name.now ++ (decimal n ++ (spaced m ++ (spaced k ++ codes "\n")))) }
{
    let place = put_word(name, text, at);
    end_three(n, m, k, text, place)
}

/// Makes a text longer by this room, and returns the offset of the room.
///
/// # Errors
/// `AllocError` if the capacity lacks the room and out of memory; the text is then as before.
pub fn grow(text: &mut Vec<u8>, room: usize) -> Result<usize, AllocError>
    ensures room { IfOk result (λ at. (at + room ≤ vec_len text.new) × (take at text.new.items ≡ text.old.items)) }
    ensures place { IfOk result (λ at. at ≡ vec_len text.old) }
    ensures kept { OnErr result (text.new.items ≡ text.old.items) }
    ensures full { OnErr result (vec_capacity text.old < vec_len text.old + room) }
    ensures capacity { vec_capacity text.old ≤ vec_capacity text.new }
{
    let at = text.len();
    match text.resize(at.saturating_add(room), 0) {
        Ok(()) => Ok(at),
        Err(error) => Err(error),
    }
}

/// The digits of an offset without the last four: nearby offsets share them.
#[derive(Drop)]
pub struct Offset {
    /// The least offset that has these digits.
    base: u64,
    /// They stand at the front.
    digits: [u8; 20],
    count: usize,
    ghost short: { count ≤ 20 },
    ghost whole: { (10000 ≤ base) × (base < 2 ^ 63) × (base % 10000 ≡ 0) },
    ghost written: { take count digits ≡ decimal (base / 10000) },
}

impl Offset {
    /// Makes the digits of 10,000.
    pub fn new() -> Offset {
        let mut digits = [0; 20];
        digits[0] = b'1';
        Offset {
            base: 10_000,
            digits,
            count: 1,
        }
    }

    /// Takes the digits of this offset.
    #[inline(never)]
    fn renew(&mut self, at: u64)
        requires { (10000 ≤ at) × (at < 2 ^ 63) }
        ensures { (self.new.base ≤ at) × (at < self.new.base + 10000) }
    {
        let high = at / 10_000;
        let mut digits = [0; 20];
        let count = put_long(high, &mut digits, 0);
        self.base = high * 10_000;
        self.digits = digits;
        self.count = count;
    }

    /// Puts an offset that has the digits.
    #[inline(always)]
    fn put_near(&self, low: u64, text: &mut [u8], place: usize) -> usize
        requires { (place + 24 ≤ length text.old) × (low < 10000) }
        ensures room { (place ≤ result) × (result ≤ place + 24) }
        ensures size { length text.new ≡ length text.old }
        ensures text { take result text.new ≡ take place text.old ++ decimal (self.now.base + low) }
    {
        // a copy of its own, as in put_word
        let digits = self.digits;
        text[place..place + 20].copy_from_slice(&digits);
        put_four(low, text, place + self.count)
    }

    /// Puts an offset that may have other digits.
    #[inline(never)]
    fn put_far(&mut self, at: u64, text: &mut [u8], place: usize) -> usize
        requires { place + 24 ≤ length text.old }
        ensures room { (place ≤ result) × (result ≤ place + 24) }
        ensures size { length text.new ≡ length text.old }
        ensures text { take result text.new ≡ take place text.old ++ decimal at }
    {
        if at >= 10_000 && at < 1 << 63 {
            self.renew(at);
        }
        put_long(at, text, place)
    }

    /// Writes the offset `at` at the offset `place` of the text; returns the end.
    ///
    /// There is room for 24 bytes.
    #[inline(never)]
    pub fn put(&mut self, at: u64, text: &mut [u8], place: usize) -> usize
        requires { place + 24 ≤ length text.old }
        ensures room { (place ≤ result) × (result ≤ place + 24) }
        ensures size { length text.new ≡ length text.old }
        ensures text { take result text.new ≡ take place text.old ++ decimal at }
    {
        let low = at.wrapping_sub(self.base);
        if low >= 10_000 {
            return self.put_far(at, text, place);
        }
        self.put_near(low, text, place)
    }
}
