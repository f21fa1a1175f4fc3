//! A pass that validates bytes and compares the keys at once.
//!
//! It costs about what the validation alone does. If it fails, it has noted how many bytes were left at the item at which it
//! did, and what was open there, so that the scanner can go on from there. It recurses by the nesting, at most 32 deep, and
//! doesn't allocate.
ghost use Rattle.std.specs.Prelude.{◌≡◌, ◌↔◌, IsTrue, ℕ, ◌<◌, ◌≤◌, ◌^◌, ◌+◌, ◌-◌, ◌*◌, ◌∷◌, ◌++◌, List, length, drop, Some, None, IfSome, slice_get};
ghost use Rattle.std.specs.Fmt.{decimal};
ghost use Rattle.bt_bencode.specs.Bencoding.{ben_string, longest_string};
ghost use Rattle.bt_bencode.specs.OnePass.{PassesInteger, PassesValue, PassesItems, PassesPairs, StopsValue, StopsItems, StopsPairs, Halts, HaltsValue};
ghost use Rattle.bt_bencode.specs.Readable.{HasInteger, HasString};
ghost use Rattle.bt_bencode.specs.Scanner.{IsDigit, room_in};

use crate::read::following;
use crate::scan::{Container, Open, is_digit};
use crate::sorted::is_above;
use crate::{MAX_NESTING, MAX_STRING};

/// The greatest integer, 2^63 - 1.
const MAX_INTEGER: u64 = (1 << 63) - 1;

/// Returns whether the number stays within the limit with one digit more.
///
/// It is called only for a number next to the limit.
#[inline(never)]
fn keeps_limit(n: u64, digit: u8, high: u64) -> bool
    requires digit { IsDigit digit }
    requires fits { high ≤ 2 ^ 63 }
    ensures { IsTrue result ↔ n * 10 + (digit - 48) ≤ high }
{
    n <= high / 10 && n * 10 + (digit - b'0') as u64 <= high
}

/// Returns whether the number stays within the limit with one digit more.
#[inline(always)]
fn may_grow(n: u64, digit: u8, high: u64) -> bool
    requires digit { IsDigit digit }
    requires large { 9 ≤ high }
    requires fits { high ≤ 2 ^ 63 }
    ensures { IsTrue result ↔ n * 10 + (digit - 48) ≤ high }
{
    // Mostly each digit would do.
    n <= (high - 9) / 10 || keeps_limit(n, digit, high)
}

/// Returns the number in front, at most `high`, and what follows the byte `stop` after it; `None` if there is none.
#[inline(always)]
fn number_in_front(bytes: &[u8], stop: u8, high: u64) -> Option<(u64, &[u8])>
    requires digit { 9 ≤ high }
    requires fits { high ≤ 2 ^ 63 }
    ensures bound { IfSome result (λ x. x.0 ≤ high) }
    ensures split { IfSome result (λ x. bytes.now ≡ decimal x.0 ++ stop ∷ x.1.now) }
    ensures none { result ≡ None → (m : ℕ) (more : List ℕ) → m ≤ high → bytes.now ≡ decimal m ++ stop ∷ more → ⊥ }
{
    if bytes.len() == 0 || !is_digit(bytes[0]) {
        return None;
    }
    let mut n = (bytes[0] - b'0') as u64;
    let mut rest = following(bytes);
    while rest.len() > 0 {
        let byte = rest[0];
        if byte == stop {
            return Some((n, following(rest)));
        }
        if !is_digit(byte) || n == 0 || !may_grow(n, byte, high) {
            return None;
        }
        n = n * 10 + (byte - b'0') as u64;
        rest = following(rest);
    }
    None
}

/// Returns the byte string in front and what follows it; `None` if there is none.
#[inline(always)]
pub fn text_in_front(bytes: &[u8]) -> Option<(&[u8], &[u8])>
    ensures short { IfSome result (λ x. length x.0.now ≤ longest_string) }
    ensures split { IfSome result (λ x. bytes.now ≡ ben_string x.0.now ++ x.1.now) }
    ensures none { result ≡ None → HasString bytes.now → ⊥ }
{
    let (n, rest) = number_in_front(bytes, b':', MAX_STRING as u64)?;
    let len = n as usize;
    if len > rest.len() {
        return None;
    }
    Some(rest.split_at(len))
}

/// Returns what follows the integer in front, whose `i` is passed; `None` if there is none.
#[inline(always)]
fn after_integer(bytes: &[u8]) -> Option<&[u8]>
    ensures passes { IfSome result (λ rest. PassesInteger bytes.now rest.now) }
    ensures none { result ≡ None → HasInteger bytes.now → ⊥ }
{
    if bytes.len() > 0 && bytes[0] == b'-' {
        let (n, rest) = number_in_front(following(bytes), b'e', MAX_INTEGER + 1)?;
        if n == 0 {
            return None;
        }
        return Some(rest);
    }
    let (_, rest) = number_in_front(bytes, b'e', MAX_INTEGER)?;
    Some(rest)
}

/// Returns what follows the value in front, inside the lists and dictionaries that are open.
///
/// If it returns `None`, the value is none, or has a key out of order. If that is in a list or a dictionary of it, `left`
/// becomes how many bytes there were from the item on that has it, and `stack` what is open there; otherwise both stay.
/// Inline, so that an integer or a byte string costs no call.
#[cycle(one_pass)]
#[inline(always)]
pub fn after_value<'a>(bytes: &'a [u8], stack: &mut Open, left: &mut usize) -> Option<&'a [u8]>
    ensures passes { IfSome result (λ rest. PassesValue (room_in stack.old) bytes.now rest.now) }
    ensures shorter { IfSome result (λ rest. length rest.now < length bytes.now) }
    ensures closes { IfSome result (λ rest. stack.new ≡ stack.old) }
    ensures stops { result ≡ None → StopsValue (room_in stack.old) bytes.now left.new }
    ensures halts { result ≡ None → HaltsValue stack.old left.old bytes.now left.new stack.new }
{
    if bytes.len() == 0 {
        return None;
    }
    match bytes[0] {
        b'i' => after_integer(following(bytes)),
        // By `?`, so that what follows a value is kept in registers.
        b'l' if stack.depth() < MAX_NESTING => {
            stack.push(Container::List);
            let rest = after_items(following(bytes), stack, left)?;
            Some(rest)
        }
        b'd' if stack.depth() < MAX_NESTING => {
            stack.push(Container::Dict);
            let rest = after_pairs(following(bytes), stack, left)?;
            Some(rest)
        }
        _ => {
            let (_, rest) = text_in_front(bytes)?;
            Some(rest)
        }
    }
}

/// Returns what follows the list whose further values are in front, and which is the innermost that is open.
#[cycle(one_pass)]
fn after_items<'a>(bytes: &'a [u8], stack: &mut Open, left: &mut usize) -> Option<&'a [u8]>
    requires { slice_get stack.old 0 ≡ Some Container.List }
    ensures passes { IfSome result (λ rest. PassesItems (room_in stack.old) bytes.now rest.now) }
    ensures shorter { IfSome result (λ rest. length rest.now < length bytes.now) }
    ensures closes { IfSome result (λ rest. stack.new ≡ drop 1 stack.old) }
    ensures stops { result ≡ None → StopsItems (room_in stack.old) bytes.now left.new }
    ensures halts { result ≡ None → Halts stack.old bytes.now left.new stack.new }
{
    let mut rest = bytes;
    while rest.len() > 0 {
        if rest[0] == b'e' {
            stack.pop();
            return Some(following(rest));
        }
        *left = rest.len();
        rest = after_value(rest, stack, left)?;
    }
    *left = 0;
    None
}

/// Returns what follows the dictionary whose pairs are in front, and which is the innermost that is open.
#[cycle(one_pass)]
fn after_pairs<'a>(bytes: &'a [u8], stack: &mut Open, left: &mut usize) -> Option<&'a [u8]>
    requires { slice_get stack.old 0 ≡ Some Container.Dict }
    ensures passes { IfSome result (λ rest. PassesPairs (room_in stack.old) None bytes.now rest.now) }
    ensures shorter { IfSome result (λ rest. length rest.now < length bytes.now) }
    ensures closes { IfSome result (λ rest. stack.new ≡ drop 1 stack.old) }
    ensures stops { result ≡ None → StopsPairs (room_in stack.old) None bytes.now left.new }
    ensures halts { result ≡ None → Halts stack.old bytes.now left.new stack.new }
{
    let mut rest = bytes;
    let mut last: Option<&[u8]> = None;
    while rest.len() > 0 {
        if rest[0] == b'e' {
            stack.pop();
            return Some(following(rest));
        }
        *left = rest.len();
        let (key, value) = text_in_front(rest)?;
        if !is_above(last, key) {
            return None;
        }
        last = Some(key);
        rest = after_value(value, stack, left)?;
    }
    *left = 0;
    None
}
