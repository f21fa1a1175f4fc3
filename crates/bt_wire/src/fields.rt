//! What follows a message's id, by its shape, and the checks of indexes and spare bits.
ghost use Rattle.std.specs.Prelude.{◌≡◌, ◌+◌, nat_le, IfSome, Some, None, length as list_length, true, if◌then◌else◌};
ghost use Rattle.bt_wire.specs.Bitfields.{field_bytes, has_spare};
ghost use Rattle.bt_wire.specs.Messages.{seen, fields_of, AreInRange};
ghost use Rattle.bt_wire.specs.Faults.{allows, size_of};
ghost use Rattle.bt_wire.specs.Ids.{shape_by, kind_of as kind_at};
ghost use Rattle.bt_wire.specs.Parts.{broken_field, bound_of, reading_by, IsSized};

use crate::context::Context;
use crate::fault::{FIELDS_AT, Reason, Refused};
use crate::ids::{Shape, kind_of};
use crate::message::Message;
use crate::numbers::number_at_front;

/// The fields of a message, by their shape.
#[derive(Clone, Copy)]
pub enum Fields<'a> {
    Nothing,
    /// A piece index.
    Index(u32),
    /// A part of a piece.
    Part {
        index: u32,
        begin: u32,
        length: u32,
    },
    /// The bytes of a part of a piece.
    Block {
        index: u32,
        begin: u32,
        block: &'a [u8],
    },
    Port(u16),
    /// A bit for each piece.
    Field(&'a [u8]),
    /// The bytes after an id without a meaning.
    Payload(&'a [u8]),
}

/// Returns the fault of the fields of a message; `length` is its length prefix.
///
/// It is an index that isn't below the known piece count, or a bit after the last piece.
#[inline(always)]
fn judge_fields(pieces: Option<u32>, length: u32, fields: &Fields) -> Option<Refused>
    requires { IsSized pieces (seen fields.now) }
    ensures { result ≡ broken_field pieces length (seen fields.now) }
{
    let Some(pieces) = pieces else {
        return None;
    };
    match fields {
        Fields::Index(index) | Fields::Part { index, .. } | Fields::Block { index, .. } =>
            judge_index(pieces, *index),
        Fields::Field(bits) => judge_bits(pieces, length, bits),
        Fields::Nothing | Fields::Port(_) | Fields::Payload(_) => None,
    }
}

/// Returns the fault of a message's fields; `length` is its length prefix.
///
/// It is an index that isn't below the known piece count, or a bit after the last piece. An extended message has no such
/// fields.
pub fn judge_message(context: &Context, length: u32, message: &Message) -> Option<Refused>
    requires { IsSized context.now.pieces (fields_of context.now message.now) }
    ensures value { result ≡ broken_field context.now.pieces length (fields_of context.now message.now) }
    ensures in_range { IfSome result (λ _. AreInRange (fields_of context.now message.now)) }
{
    match message.fields() {
        Some(fields) => judge_fields(context.pieces, length, &fields),
        None => None,
    }
}

/// Returns the fault of the fields after the id; `length` is the length prefix.
///
/// It is an index that isn't below the known piece count, or a bit after the last piece.
#[inline(always)]
pub fn judge_bytes(context: &Context, id: u8, length: u32, bytes: &[u8]) -> Option<Refused>
    requires { allows (size_of context.now id) (list_length bytes.now + 1) ≡ true }
    ensures { result ≡ broken_field context.now.pieces length (reading_by (shape_by (kind_at id)) bytes.now) }
{
    let Some(pieces) = context.pieces else {
        return None;
    };
    let Some(kind) = kind_of(id) else {
        return None;
    };
    match kind.shape {
        Shape::Index | Shape::Part | Shape::Block => judge_index(pieces, number_at_front(bytes)),
        Shape::Field => judge_bits(pieces, length, bytes),
        Shape::Nothing | Shape::Port | Shape::Extended => None,
    }
}

#[inline(always)]
fn judge_index(pieces: u32, index: u32) -> Option<Refused>
    ensures { result ≡ (if nat_le pieces index then Some (record { at = 5; reason = Reason.BadIndex }) else None) }
{
    if index >= pieces {
        return Some(Refused::new(FIELDS_AT, Reason::BadIndex));
    }
    None
}

/// Returns the fault of a bitfield in a message with this length prefix.
fn judge_bits(pieces: u32, length: u32, bits: &[u8]) -> Option<Refused>
    requires { list_length bits.now ≡ field_bytes pieces }
    ensures { result ≡ (if has_spare (Some pieces) bits.now then Some (record { at = 3 + length; reason = Reason.SpareBits }) else None) }
{
    if has_spare_bits(pieces, bits) {
        return Some(Refused::new(3 + u64::from(length), Reason::SpareBits));
    }
    None
}

/// Returns whether a bit after the last piece is 1.
///
/// BEP 3: "Spare bits at the end are set to zero".
fn has_spare_bits(pieces: u32, field: &[u8]) -> bool
    requires { list_length field.now ≡ field_bytes pieces }
    ensures { result ≡ has_spare (Some pieces) field.now }
{
    match field.last() {
        None => false,
        Some(last) => last % spare_bound((pieces % 8) as u8) != 0,
    }
}

/// 2 to the number of spare bits of the last byte, of which `used` bits are used (0 for all).
fn spare_bound(used: u8) -> u8
    ensures { result ≡ bound_of used }
{
    match used {
        1 => 128,
        2 => 64,
        3 => 32,
        4 => 16,
        5 => 8,
        6 => 4,
        7 => 2,
        _ => 1,
    }
}
