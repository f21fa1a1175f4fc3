//! The pass over a dictionary whose keys are in order, which also finds the values of some keys, so that they need no second walk.
//!
//! It recurses as [`after_value`](crate::one_pass::after_value) does, and doesn't allocate.
ghost use Rattle.std.specs.Prelude.{◌≡◌, ◌-◌, ◌≤◌, [], ◌∷◌, length, take, Option, None, IfOk, IfErr, IfSome, option_map, option_and_then};
ghost use Rattle.std.specs.Option.{option_or};
ghost use Rattle.std.specs.Bool.{then_some};
ghost use Rattle.bt_bencode.specs.Trees.{Tree, dictionary};
ghost use Rattle.bt_bencode.specs.Bencoding.{BeginsWith};
ghost use Rattle.bt_bencode.specs.Keys.{unsorted, value_at};
ghost use Rattle.bt_bencode.specs.LookUps.{integer_of, dictionary_of};
ghost use Rattle.bt_bencode.specs.Readable.{FindsValue, HasValue};
ghost use Rattle.bt_bencode.specs.OnePass.{PassesNoted, StopsValue, StopsPairs, Halts};
ghost use Rattle.bt_bencode.specs.Scanner.{HasRead};
ghost use Rattle.bt_bencode.specs.Disorders.{RefusesSorted};

use crate::dict_ref::DictRef;
use crate::one_pass::{after_value, text_in_front};
use crate::pairs::{IntPairs, pairs_if_any};
use crate::read::following;
use crate::scan::{Bad, Container, Expect, Open, scan_on};
use crate::skip::{int_if_any, int_in};
use crate::sorted::is_above;

/// Why a payload begins with no dictionary whose keys are in order.
#[derive(Clone, Copy)]
pub enum Disorder {
    /// The payload begins with no dictionary within the limits, and why: what [`check`](crate::check) returns.
    Bytes(Bad),
    /// It begins with one, and the first key out of order, at any depth, is at `at`.
    Order { at: usize },
}

/// What follows a dictionary, and the bytes from the values of the first pairs with three keys on.
#[derive(Clone, Copy)]
pub(crate) struct Noted<'a> {
    rest: &'a [u8],
    first: Option<&'a [u8]>,
    second: Option<&'a [u8]>,
    third: Option<&'a [u8]>,
}

/// Returns what was found before, or the value if nothing was and its key is the one that is sought.
///
/// Where the key is another, nothing is computed.
#[inline(always)]
fn note<'a>(found: Option<&'a [u8]>, is_sought: bool, value: &'a [u8]) -> Option<&'a [u8]>
    ensures { result ≡ option_or found.entry (then_some is_sought value.entry) }
{
    if is_sought && found.is_none() {
        Some(value)
    } else {
        found
    }
}

/// Returns what follows the outermost dictionary, whose pairs are in front, and what three keys have in it.
///
/// If it returns `None`, there is none, or a key is out of order: `left` becomes how many bytes there were from the item on at
/// which it stopped, and `stack` what is open there.
// Inline, so that a literal key is compared by its length first, and mostly by nothing else.
#[inline(always)]
fn after_noted<'a>(
    bytes: &'a [u8],
    one: &[u8],
    two: &[u8],
    three: &[u8],
    stack: &mut Open,
    left: &mut usize,
) -> Option<Noted<'a>>
    requires { stack.old ≡ Container.Dict ∷ [] }
    ensures passes { IfSome result (PassesNoted one.now two.now three.now bytes.now) }
    ensures stops { result ≡ None → StopsPairs 31 None bytes.now left.new }
    ensures halts { result ≡ None → Halts stack.old bytes.now left.new stack.new }
{
    let mut rest = bytes;
    let mut last: Option<&[u8]> = None;
    let mut first: Option<&[u8]> = None;
    let mut second: Option<&[u8]> = None;
    let mut third: Option<&[u8]> = None;
    while rest.len() > 0 {
        if rest[0] == b'e' {
            let rest = following(rest);
            return Some(Noted {
                rest,
                first,
                second,
                third,
            });
        }
        *left = rest.len();
        let (key, value) = text_in_front(rest)?;
        if !is_above(last, key) {
            return None;
        }
        last = Some(key);
        first = note(first, key == one, value);
        second = note(second, key == two, value);
        third = note(third, key == three, value);
        rest = after_value(value, stack, left)?;
    }
    *left = 0;
    None
}

/// Returns why the pass stopped, with `left` bytes left, inside what is open there.
///
/// The scanner goes on from there, so that no byte before is read again.
#[cold]
#[inline(never)]
fn disorder_at(payload: &[u8], left: usize, stack: Open) -> Disorder
    requires within { left ≤ length payload.now }
    requires stops { StopsValue 32 payload.now left }
    requires read { HasRead (take (length payload.now - left) payload.now) Expect.Item stack }
    ensures { RefusesSorted payload.now result }
{
    let at = payload.len() - left;
    match scan_on(payload, at, stack) {
        Err(bad) => Disorder::Bytes(bad),
        Ok(_) => Disorder::Order { at },
    }
}

/// Parses the dictionary that the payload begins with, if its keys are in order at any depth; returns its length and what
/// three keys have in it too.
///
/// # Errors
/// `Bytes` if no dictionary is in front; `Order` if one has a key out of order.
#[inline(always)]
fn check_noted<'a>(
    payload: &'a [u8],
    one: &[u8],
    two: &[u8],
    three: &[u8],
) -> Result<(DictRef<'a>, usize, Noted<'a>), Disorder>
    ensures begins { IfOk result (λ x. BeginsWith payload.now x.0.tree.0 x.1) }
    ensures rises { IfOk result (λ x. unsorted (dictionary x.0.tree.0) ≡ None) }
    ensures first { IfOk result (λ x. FindsValue x.2.first (value_at one.now x.0.tree.0)) }
    ensures second { IfOk result (λ x. FindsValue x.2.second (value_at two.now x.0.tree.0)) }
    ensures third { IfOk result (λ x. FindsValue x.2.third (value_at three.now x.0.tree.0)) }
    ensures err { IfErr result (RefusesSorted payload.now) }
{
    if payload.len() == 0 {
        return Err(Disorder::Bytes(Bad::Cut));
    }
    if payload[0] != b'd' {
        return Err(Disorder::Bytes(Bad::Impossible { at: 0 }));
    }
    let mut stack = Open::new();
    stack.push(Container::Dict);
    let mut left = 0;
    match after_noted(following(payload), one, two, three, &mut stack, &mut left) {
        Some(noted) => {
            let n = payload.len() - noted.rest.len();
            Ok((DictRef::of_spelled(&payload[..n]), n, noted))
        }
        None => Err(disorder_at(payload, left, stack)),
    }
}

/// Parses a dictionary whose keys are in order at any depth, and looks up two keys in the same pass.
///
/// The dictionary is the one that [`check`](crate::check) returns, and [`DictRef::first_unsorted`] finds no key in it. Its
/// length is returned too, the pairs of the dictionary at `outer`, as [`DictRef::lookup_pairs`] finds them, and the integer at
/// `key`, as [`DictRef::lookup_int`] does. `None`: no pair has the key. `Some(None)`: its value is of another kind.
///
/// # Errors
/// `Bytes` if the payload begins with no dictionary, and why. `Order` with the offset of the first key that is out of order, if
/// it begins with one.
#[inline(always)]
pub fn check_sorted_pairs_and_int<'a>(
    payload: &'a [u8],
    outer: &[u8],
    key: &[u8],
) -> Result<
    (
        DictRef<'a>,
        usize,
        Option<Option<IntPairs<'a>>>,
        Option<Option<i64>>,
    ),
    Disorder,
>
    ensures begins { IfOk result (λ x. BeginsWith payload.now x.0.tree.0 x.1) }
    ensures rises { IfOk result (λ x. unsorted (dictionary x.0.tree.0) ≡ None) }
    ensures pairs { IfOk result (λ x. x.2 ≡ option_map dictionary_of (value_at outer.now x.0.tree.0)) }
    ensures int { IfOk result (λ x. x.3 ≡ option_map integer_of (value_at key.now x.0.tree.0)) }
    ensures err { IfErr result (RefusesSorted payload.now) }
{
    let (dict, n, noted) = check_noted(payload, outer, key, outer)?;
    Ok((dict, n, pairs_if_any(noted.first), int_if_any(noted.second)))
}

/// Returns the value as an integer, if there is one and it is one.
#[inline(always)]
fn int_found(value: Option<&[u8]>) -> Option<i64>
    requires { IfSome value (λ bytes. HasValue bytes.now) }
    ensures { (found : Option Tree) → FindsValue value.entry found → result ≡ option_and_then integer_of found }
{
    match value {
        None => None,
        Some(value) => int_in(value),
    }
}

/// Parses a dictionary whose keys are in order at any depth, and looks up three integers in the same pass.
///
/// The dictionary is the one that [`check`](crate::check) returns, and [`DictRef::first_unsorted`] finds no key in it. Its
/// length is returned too, and the integers, which are those that [`DictRef::lookup_int`] finds.
///
/// # Errors
/// Those of [`check_sorted_pairs_and_int`].
#[inline(always)]
pub fn check_sorted_ints<'a>(
    payload: &'a [u8],
    one: &[u8],
    two: &[u8],
    three: &[u8],
) -> Result<(DictRef<'a>, usize, Option<i64>, Option<i64>, Option<i64>), Disorder>
    ensures begins { IfOk result (λ x. BeginsWith payload.now x.0.tree.0 x.1) }
    ensures rises { IfOk result (λ x. unsorted (dictionary x.0.tree.0) ≡ None) }
    ensures one { IfOk result (λ x. x.2 ≡ option_and_then integer_of (value_at one.now x.0.tree.0)) }
    ensures two { IfOk result (λ x. x.3 ≡ option_and_then integer_of (value_at two.now x.0.tree.0)) }
    ensures three { IfOk result (λ x. x.4 ≡ option_and_then integer_of (value_at three.now x.0.tree.0)) }
    ensures err { IfErr result (RefusesSorted payload.now) }
{
    let (dict, n, noted) = check_noted(payload, one, two, three)?;
    let first = int_found(noted.first);
    let second = int_found(noted.second);
    let third = int_found(noted.third);
    Ok((dict, n, first, second, third))
}
