//! Times and optional numbers, written into a text that has room for them.
ghost use Rattle.std.specs.Prelude.{◌≡◌, ◌+◌, ◌<◌, ◌≤◌, ◌++◌, codes, decimal, length, take};
ghost use Rattle.bt_rows.specs.Numbers.{four_digits, option_text, six_digits, time_text, two_digits};

use bt_text::putting::{put_number, put_word};

/// The digits of each number below 100, two of them.
static PAIRS: [u8; 200] =
    *b"0001020304050607080910111213141516171819202122232425262728293031323334353637383940414243444546474849\
5051525354555657585960616263646566676869707172737475767778798081828384858687888990919293949596979899";

/// Puts the two digits of a number below 100.
#[inline(always)]
fn put_two(n: u64, text: &mut [u8], at: usize) -> usize
    requires { (n < 100) × (at + 2 ≤ length text.old) }
    ensures room { result ≡ at + 2 }
    ensures size { length text.new ≡ length text.old }
    ensures text { take result text.new ≡ take at text.old ++ two_digits n }
{
    let from = n as usize * 2;
    let (tens, ones) = (PAIRS[from], PAIRS[from + 1]);
    text[at] = tens;
    text[at + 1] = ones;
    at + 2
}

/// Puts four digits of a number below 10,000.
#[inline(always)]
pub(crate) fn put_four(n: u64, text: &mut [u8], at: usize) -> usize
    requires { (n < 10000) × (at + 4 ≤ length text.old) }
    ensures room { result ≡ at + 4 }
    ensures size { length text.new ≡ length text.old }
    ensures text { take result text.new ≡ take at text.old ++ four_digits n }
{
    let at = put_two(n / 100, text, at);
    put_two(n % 100, text, at)
}

/// Puts the last six digits of a number.
#[inline(always)]
fn put_six(n: u64, text: &mut [u8], at: usize) -> usize
    requires { at + 6 ≤ length text.old }
    ensures room { result ≡ at + 6 }
    ensures size { length text.new ≡ length text.old }
    ensures text { take result text.new ≡ take at text.old ++ six_digits n }
{
    let at = put_two(n / 10_000 % 100, text, at);
    put_four(n % 10_000, text, at)
}

/// Puts a time of nanoseconds as seconds with six digits after the point; what is left is cut.
pub(crate) fn put_time(nanoseconds: u64, text: &mut [u8], at: usize) -> usize
    requires { at + 27 ≤ length text.old }
    ensures room { (at ≤ result) × (result ≤ at + 27) }
    ensures size { length text.new ≡ length text.old }
    ensures text { take result text.new ≡ take at text.old ++ time_text nanoseconds }
{
    let at = put_number(nanoseconds / 1_000_000_000, text, at);
    let at = put_word(b".", text, at);
    put_six(nanoseconds / 1_000, text, at)
}

/// Puts words and a number, if there is a number.
pub(crate) fn put_option<const N: usize>(
    words: &[u8; N],
    n: Option<u64>,
    text: &mut [u8],
    at: usize,
) -> usize
    requires { at + (20 + length words.now) ≤ length text.old }
    ensures room { (at ≤ result) × (result ≤ at + (20 + length words.now)) }
    ensures size { length text.new ≡ length text.old }
    ensures text { take result text.new ≡ take at text.old ++ option_text words.now n }
{
    let Some(n) = n else {
        return at;
    };
    let at = put_word(words, text, at);
    put_number(n, text, at)
}
