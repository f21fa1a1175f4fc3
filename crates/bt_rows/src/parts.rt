//! Parts that rows and reports share: a side, how it closed, a refusal.
ghost use Rattle.std.specs.Prelude.{◌≡◌, ◌+◌, ◌≤◌, ◌++◌, decimal, length, take};
ghost use Rattle.bt_rows.specs.Parts.{means_text, refusal_text, side_text};

use bt_remarks::Side;
use bt_text::putting::{put, put_number, put_word};
use bt_wire::Refusal;

/// How a side closed.
#[derive(Clone, Copy)]
pub enum Means {
    Fin,
    Rst,
}

/// Returns a side's letter.
pub(crate) fn letter(side: Side) -> &'static [u8; 1]
    ensures letter { result.now ≡ side_text side }
    ensures one { length result.now ≡ 1 }
{
    match side {
        Side::A => b"A",
        Side::B => b"B",
    }
}

/// Returns the flag of TCP by which a side closed.
pub(crate) fn flag_of(by: Means) -> &'static [u8; 3]
    ensures flag { result.now ≡ means_text by }
    ensures three { length result.now ≡ 3 }
{
    match by {
        Means::Fin => b"FIN",
        Means::Rst => b"RST",
    }
}

/// Puts a number between words.
pub(crate) fn put_between<const N: usize, const M: usize>(
    before: &[u8; N],
    n: u64,
    after: &[u8; M],
    text: &mut [u8],
    at: usize,
) -> usize
    requires { at + (20 + length before.now + length after.now) ≤ length text.old }
    ensures room { (at ≤ result) × (result ≤ at + (20 + length before.now + length after.now)) }
    ensures size { length text.new ≡ length text.old }
    ensures text { take result text.new ≡ take at text.old ++ (before.now ++ (decimal n ++ after.now)) }
{
    let at = put_word(before, text, at);
    let at = put_number(n, text, at);
    put_word(after, text, at)
}

/// Puts where and why a stream is refused.
pub(crate) fn put_refusal(refusal: &Refusal, text: &mut [u8], at: usize) -> usize
    requires { at + 90 ≤ length text.old }
    ensures room { (at ≤ result) × (result ≤ at + 90) }
    ensures size { length text.new ≡ length text.old }
    ensures text { take result text.new ≡ take at text.old ++ refusal_text refusal.now }
{
    let at = put_between(b"refused message=", refusal.message, b" at=", text, at);
    let at = put_number(refusal.at, text, at);
    let at = put_word(b" ", text, at);
    put(refusal.reason.name().as_bytes(), text, at)
}
