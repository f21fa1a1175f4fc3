//! The first five bytes of a message: its length, or why it is refused. The fields after them are checked elsewhere.
ghost use Rattle.std.specs.Prelude.{◌≡◌, ◌≤◌, ℕ, true, Some, None};
ghost use Rattle.bt_wire.specs.Ids.{shape_by, kind_of as kind_at};
ghost use Rattle.bt_wire.specs.Faults.{allows, size_by, field_size, is_agreed as agrees, is_strict as judges_strictly, is_late as comes_late, is_missing as lacks_opening};
ghost use Rattle.bt_wire.specs.Rules.{broken_by, broken_any};
ghost use Rattle.bt_wire.specs.Headers.{header_of};
ghost use Rattle.bt_wire.specs.declared.context.Context.{Context};

use crate::context::{Context, Order};
use crate::fault::{Header, ID_AT, Reason, Refused};
use crate::ids::{Kind, Needs, Shape, Turn, kind_of};
use crate::numbers::number_at_front;
use bt_ext::Rules;

/// Returns whether a message of this kind may have this length prefix.
#[inline(always)]
fn is_allowed(context: &Context, kind: Option<Kind>, length: u32) -> bool
    ensures { result ≡ allows (size_by context.now (shape_by kind)) length }
{
    match kind {
        None => length >= 1,
        Some(kind) => match kind.shape {
            Shape::Nothing => length == 1,
            Shape::Index => length == 5,
            Shape::Part => length == 13,
            Shape::Block => length >= 9,
            Shape::Port => length == 3,
            Shape::Field => is_field_length(context.pieces, length),
            Shape::Extended => length >= 2,
        },
    }
}

/// Returns whether a bitfield may have this length prefix.
#[inline(always)]
fn is_field_length(pieces: Option<u32>, length: u32) -> bool
    ensures { result ≡ allows (field_size pieces) length }
{
    match pieces {
        None => length >= 1,
        Some(pieces) => u64::from(length) == 1 + (u64::from(pieces) + 7) / 8,
    }
}

/// Returns whether both peers support the extension that the message needs.
#[inline(always)]
fn is_agreed(context: &Context, kind: Option<Kind>) -> bool
    ensures { result ≡ agrees context.now kind }
{
    match kind {
        None => true,
        Some(kind) => match kind.needs {
            Needs::Neither => true,
            Needs::Fast => context.fast,
            Needs::Extension => context.ext,
        },
    }
}

#[inline(always)]
fn is_strict(context: &Context) -> bool
    ensures { result ≡ judges_strictly context.now }
{
    matches!(context.rules, Rules::Bep)
}

/// Returns whether a bitfield, have all or have none is late (BEP 3, BEP 6).
#[inline(always)]
fn is_late(order: Order, kind: Option<Kind>) -> bool
    ensures { result ≡ comes_late order kind }
{
    match kind {
        None => false,
        Some(kind) => match kind.turn {
            Turn::Apart | Turn::Counted => false,
            Turn::Opening => matches!(order, Order::Past),
        },
    }
}

/// Returns whether the Fast Extension asks for one of these three first (BEP 6).
#[inline(always)]
fn is_missing(context: &Context, order: Order, kind: Option<Kind>) -> bool
    ensures { result ≡ lacks_opening context.now order kind }
{
    match kind {
        None => false,
        Some(kind) => match kind.turn {
            Turn::Counted => context.fast && matches!(order, Order::Fresh),
            Turn::Apart | Turn::Opening => false,
        },
    }
}

/// Returns the least and the greatest length prefix of a message of this shape.
///
/// A bitfield's is checked elsewhere.
#[inline(always)]
fn span(shape: Shape) -> (u32, u32)
    ensures { (c : Context) (n : ℕ) → result.0 ≤ n → n ≤ result.1 → allows (size_by c (Some shape)) n ≡ true }
{
    match shape {
        Shape::Nothing => (1, 1),
        Shape::Index => (5, 5),
        Shape::Part => (13, 13),
        Shape::Block => (9, u32::MAX),
        Shape::Port => (3, 3),
        Shape::Field => (1, 0),
        Shape::Extended => (2, u32::MAX),
    }
}

/// Returns true only if no rule on the id and the length is broken.
///
/// False says nothing. It has no branch for the kind.
#[inline(always)]
fn is_plain(context: &Context, order: Order, kind: Kind, length: u32) -> bool
    ensures { result ≡ true → broken_by context.now order (Some kind) length ≡ None }
{
    let (least, most) = span(kind.shape);
    let is_fast = matches!(kind.needs, Needs::Fast);
    let is_extension = matches!(kind.needs, Needs::Extension);
    let is_opening = matches!(kind.turn, Turn::Opening);
    let is_fresh = matches!(order, Order::Fresh);
    (least <= length)
        & (length <= most)
        & (!is_fast | context.fast)
        & (!is_extension | context.ext)
        & (!is_strict(context) | !(is_opening | (is_fresh & context.fast)))
}

/// Returns the first rule on the id and the length that is broken.
#[inline(always)]
fn judge_id(context: &Context, order: Order, id: u8, length: u32) -> Option<Refused>
    ensures { result ≡ broken_by context.now order (kind_at id) length }
{
    let kind = kind_of(id);
    if let Some(kind) = kind {
        if is_plain(context, order, kind, length) {
            return None;
        }
    }
    judge_kind(context, order, kind, length)
}

/// Returns the first rule on the kind of an id and the length that is broken.
#[cold]
#[inline(never)]
fn judge_kind(context: &Context, order: Order, kind: Option<Kind>, length: u32) -> Option<Refused>
    ensures { result ≡ broken_by context.now order kind length }
{
    let strict = is_strict(context);
    if strict && kind.is_none() {
        return refused(ID_AT, Reason::UnknownId);
    }
    if !is_agreed(context, kind) {
        return refused(ID_AT, Reason::NotNegotiated);
    }
    if !is_allowed(context, kind, length) {
        return refused(0, Reason::WrongLength);
    }
    if strict && is_late(order, kind) {
        return refused(ID_AT, Reason::Late);
    }
    if strict && is_missing(context, order, kind) {
        return refused(ID_AT, Reason::Missing);
    }
    None
}

/// Returns the first rule on the id and the length prefix that a message breaks.
///
/// A keep-alive has no id.
pub fn judge_any_id(context: &Context, order: Order, id: Option<u8>, length: u32) -> Option<Refused>
    ensures { result ≡ broken_any context.now order id length }
{
    match id {
        None => None,
        Some(id) => judge_id(context, order, id, length),
    }
}

#[inline(always)]
fn refused(at: u64, reason: Reason) -> Option<Refused>
    ensures { result ≡ Some (record { at = at; reason = reason }) }
{
    Some(Refused { at, reason })
}

/// Checks a message by its first five bytes, or by fewer if fewer have come.
///
/// See BEP 3, "peer protocol". It returns how many bytes the message has, how many it needs to know that, or the fault.
#[tactic(auto, unfolding(crate::specs::Headers::header_of, crate::specs::Faults::header_fault))]
#[inline(always)]
pub fn judge_header(context: &Context, order: Order, head: &[u8]) -> Header
    ensures { result ≡ header_of context.now order head.now }
{
    if head.len() < 4 {
        return Header::Need(4);
    }
    let length = number_at_front(head);
    if length == 0 {
        return Header::Window(4);
    }
    if length > context.limit {
        return Header::Refused {
            at: 0,
            reason: Reason::TooLong,
        };
    }
    if head.len() < 5 {
        return Header::Need(5);
    }
    match judge_id(context, order, head[4], length) {
        Some(Refused { at, reason }) => Header::Refused { at, reason },
        None => Header::Window(4 + u64::from(length)),
    }
}
