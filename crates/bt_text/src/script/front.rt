//! The line in front of a text, if it is one of `have`, `request`, `cancel` or `reject`, or of a message without fields, read and encoded
//! in one pass.
//!
//! It may give up on any line: [`append_front`](crate::script::reading::append_front) goes on.
ghost use Rattle.std.specs.Prelude.{◌≡◌, ◌<◌, ◌^◌, ◌++◌, ◌∷◌, [], None, IfOk, IfSome};
ghost use Rattle.bt_text.specs.Script.{framed_by};
ghost use Rattle.std.specs.Fmt.{decimal};
ghost use Rattle.bt_text.specs.Fronts.{IsShortLine, AddsBare, AddsIndex, HasPart, AddsPart};

use crate::script::numbers::leading_number;
use crate::script::reading::push_begin;
use std::alloc::AllocError;

/// Returns what follows `front`, if the text begins with it.
#[inline(always)]
fn after<'a, const N: usize>(text: &'a [u8], front: &[u8; N]) -> Option<&'a [u8]>
    ensures { IfSome result (λ rest. text.now ≡ front.now ++ rest.now) }
{
    let (head, rest) = text.split_first_chunk::<N>()?;
    if head == front { Some(rest) } else { None }
}

/// Returns the number in front, and what follows the byte `stop` after it.
#[inline(always)]
fn number_until(text: &[u8], stop: u8) -> Option<(u32, &[u8])>
    ensures range { IfSome result (λ x. x.0 < 2 ^ 32) }
    ensures split { IfSome result (λ x. text.now ≡ decimal x.0 ++ stop ∷ x.1.now) }
{
    let (n, rest) = leading_number(text)?;
    match rest.split_first() {
        Some((byte, rest)) if *byte == stop => Some((n, rest)),
        _ => None,
    }
}

/// Appends the message of an id that has no fields.
#[inline(never)]
fn append_id<'a>(id: u8, rest: &'a [u8], out: &mut Vec<u8>) -> Result<Option<&'a [u8]>, AllocError>
    ensures none { IfOk result (λ found. found ≡ None → out.new.items ≡ out.old.items) }
    ensures added { IfOk result (λ found. IfSome found (λ after. (after.now ≡ rest.now) × (out.new.items ≡ out.old.items ++ framed_by id []))) }
{
    push_begin(id, b"", 0, out)?;
    Ok(Some(rest))
}

/// Appends the message of an id that has no fields, if the text begins with its line.
#[inline(always)]
fn append_bare<'a, const N: usize>(
    id: u8,
    line: &[u8; N],
    text: &'a [u8],
    out: &mut Vec<u8>,
) -> Result<Option<&'a [u8]>, AllocError>
    ensures none { IfOk result (λ found. found ≡ None → out.new.items ≡ out.old.items) }
    ensures added { IfOk result (λ found. IfSome found (λ rest. AddsBare id line.now text.now rest.now out.old.items out.new.items)) }
{
    match after(text, line) {
        Some(rest) => append_id(id, rest, out),
        None => Ok(None),
    }
}

/// Appends the message of an id and of the number in front, if a line feed ends it.
#[inline(never)]
fn append_index<'a>(
    id: u8,
    text: &'a [u8],
    out: &mut Vec<u8>,
) -> Result<Option<&'a [u8]>, AllocError>
    ensures none { IfOk result (λ found. found ≡ None → out.new.items ≡ out.old.items) }
    ensures added { IfOk result (λ found. IfSome found (λ rest. AddsIndex id text.now rest.now out.old.items out.new.items)) }
{
    let Some((index, rest)) = number_until(text, b'\n') else {
        return Ok(None);
    };
    push_begin(id, &index.to_be_bytes(), 0, out)?;
    Ok(Some(rest))
}

/// Returns the bytes of the three numbers in front, and what follows the line feed after them.
#[inline(always)]
fn part_in_front(text: &[u8]) -> Option<([u8; 12], &[u8])>
    ensures { IfSome result (λ x. HasPart x.0 text.now x.1.now) }
{
    let (index, rest) = number_until(text, b' ')?;
    let (begin, rest) = number_until(rest, b' ')?;
    let (length, rest) = number_until(rest, b'\n')?;
    let mut numbers = [0u8; 12];
    numbers[..4].copy_from_slice(&index.to_be_bytes());
    numbers[4..8].copy_from_slice(&begin.to_be_bytes());
    numbers[8..].copy_from_slice(&length.to_be_bytes());
    Some((numbers, rest))
}

/// Appends the message of an id and of the three numbers in front, if a line feed ends the last.
#[inline(never)]
fn append_part<'a>(
    id: u8,
    text: &'a [u8],
    out: &mut Vec<u8>,
) -> Result<Option<&'a [u8]>, AllocError>
    ensures none { IfOk result (λ found. found ≡ None → out.new.items ≡ out.old.items) }
    ensures added { IfOk result (λ found. IfSome found (λ rest. AddsPart id text.now rest.now out.old.items out.new.items)) }
{
    let Some(found) = part_in_front(text) else {
        return Ok(None);
    };
    let (numbers, rest) = found;
    push_begin(id, &numbers, 0, out)?;
    Ok(Some(rest))
}

/// Does what [`append_short`] does for `unchoke`, `interested`, `not-interested` and `keep-alive`.
#[inline(never)]
fn append_state<'a>(text: &'a [u8], out: &mut Vec<u8>) -> Result<Option<&'a [u8]>, AllocError>
    ensures none { IfOk result (λ found. found ≡ None → out.new.items ≡ out.old.items) }
    ensures added { IfOk result (λ found. IfSome found (λ rest. IsShortLine text.now rest.now out.old.items out.new.items)) }
{
    match text.first() {
        Some(b'u') => append_bare(1, b"unchoke\n", text, out),
        Some(b'i') => append_bare(2, b"interested\n", text, out),
        Some(b'n') => append_bare(3, b"not-interested\n", text, out),
        _ => match after(text, b"keep-alive\n") {
            Some(rest) => {
                out.extend_from_slice(&[0; 4])?;
                Ok(Some(rest))
            }
            None => Ok(None),
        },
    }
}

/// Does what [`append_short`] does for `have-all` and `have-none`.
#[inline(never)]
fn append_all<'a>(text: &'a [u8], out: &mut Vec<u8>) -> Result<Option<&'a [u8]>, AllocError>
    ensures none { IfOk result (λ found. found ≡ None → out.new.items ≡ out.old.items) }
    ensures added { IfOk result (λ found. IfSome found (λ rest. IsShortLine text.now rest.now out.old.items out.new.items)) }
{
    match after(text, b"have-all\n") {
        Some(rest) => append_id(14, rest, out),
        None => append_bare(15, b"have-none\n", text, out),
    }
}

/// Does what [`append_short`] does for `cancel` and `choke`.
#[inline(always)]
fn append_cancel<'a>(text: &'a [u8], out: &mut Vec<u8>) -> Result<Option<&'a [u8]>, AllocError>
    ensures none { IfOk result (λ found. found ≡ None → out.new.items ≡ out.old.items) }
    ensures added { IfOk result (λ found. IfSome found (λ rest. IsShortLine text.now rest.now out.old.items out.new.items)) }
{
    match after(text, b"cancel ") {
        Some(rest) => append_part(8, rest, out),
        None => append_bare(0, b"choke\n", text, out),
    }
}

/// Does what [`append_short`] does for `request` and `reject`.
#[inline(always)]
fn append_request<'a>(text: &'a [u8], out: &mut Vec<u8>) -> Result<Option<&'a [u8]>, AllocError>
    ensures none { IfOk result (λ found. found ≡ None → out.new.items ≡ out.old.items) }
    ensures added { IfOk result (λ found. IfSome found (λ rest. IsShortLine text.now rest.now out.old.items out.new.items)) }
{
    if let Some(rest) = after(text, b"request ") {
        return append_part(6, rest, out);
    }
    match after(text, b"reject ") {
        Some(rest) => append_part(16, rest, out),
        None => Ok(None),
    }
}

/// Appends the bytes of the line in front, if it is `have`, `request`, `cancel` or `reject`, or of a message without fields; returns what
/// follows it.
///
/// The line isn't the first of its script. `None` promises nothing, and `out` is then unchanged.
#[inline(always)]
pub(super) fn append_short<'a>(
    text: &'a [u8],
    out: &mut Vec<u8>,
) -> Result<Option<&'a [u8]>, AllocError>
    ensures none { IfOk result (λ found. found ≡ None → out.new.items ≡ out.old.items) }
    ensures added { IfOk result (λ found. IfSome found (λ rest. IsShortLine text.now rest.now out.old.items out.new.items)) }
{
    // (other lines cost no more than the look at their first byte)
    match text.first() {
        Some(b'h') => match after(text, b"have ") {
            Some(rest) => append_index(4, rest, out),
            None => append_all(text, out),
        },
        Some(b'r') => append_request(text, out),
        Some(b'c') => append_cancel(text, out),
        Some(b'u' | b'i' | b'n' | b'k') => append_state(text, out),
        _ => Ok(None),
    }
}
