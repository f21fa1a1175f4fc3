//! Which messages are legal for a receiver, and their encoding.
ghost use Rattle.std.specs.Prelude.{◌≡◌, ◌↔◌, ◌+◌, ◌-◌, ◌<◌, ◌≤◌, ◌^◌, ◌∷◌, ◌++◌, min, unwrap_or, option_map, IsTrue, IsOk, IfErr, IfOk, OnOk, MatchOption, length as list_length};
ghost use Rattle.bt_wire.specs.Numbers.{be32};
ghost use Rattle.bt_wire.specs.Legal.{IsLegal, IsRefusedFor, Refuses, IsEncoded};
ghost use Rattle.bt_ext.specs.Payloads.{ext_id, payload_of, HasSpelling};
ghost use Rattle.bt_wire.specs.Messages.{spell, body, framed, seen, spell_fields, IsShaped};
ghost use Rattle.bt_wire.specs.Faults.{index_fault};
ghost use Rattle.bt_wire.specs.Parts.{IsJudged, IsJudgedExt, reason_from};

use crate::context::{Context, Order};
use crate::fault::{EncodeError, Fault, Reason, Refused};
use crate::fields::{Fields, judge_message};
use crate::head::head_and_tail;
use crate::header::judge_any_id;
use crate::ids::{EXTENDED, kind_of};
use crate::message::Message;
use bt_ext::{Ext, ExtReason, Registered, append_ext, ext_len, ext_reason};
use std::alloc::{AllocError, Global};

/// How many bytes the fields have.
fn fields_length(fields: &Fields) -> usize
    ensures value { result ≡ list_length (spell_fields (seen fields.now)) }
    ensures small { result < 2 ^ 63 + 8 }
{
    match fields {
        Fields::Nothing => 0,
        Fields::Index(_) => 4,
        Fields::Part { .. } => 12,
        Fields::Block { block, .. } => 8 + block.len(),
        Fields::Port(_) => 2,
        Fields::Field(bits) => bits.len(),
        Fields::Payload(bytes) => bytes.len(),
    }
}

/// Returns how many bytes follow the length prefix, at most 2^64 - 1.
///
/// `None` if the message can't be encoded.
fn shaped_length(context: &Context, message: &Message) -> Option<u64>
    ensures { MatchOption result (¬ IsShaped context.now message.now)
        (λ length. IsShaped context.now message.now × (length ≡ min (list_length (body context.now message.now)) (2 ^ 64 - 1))) }
{
    match message {
        Message::KeepAlive => Some(0),
        Message::Unknown { id, .. } if kind_of(*id).is_some() => None,
        Message::Extended(value) => match ext_len(context.reg, value) {
            Some(length) => Some(length.saturating_add(2)),
            None => None,
        },
        _ => match message.fields() {
            Some(fields) => Some(1 + fields_length(&fields) as u64),
            None => None,
        },
    }
}

/// Checks whether a message is legal for the receiver.
///
/// # Errors
/// `Shape` if the message can't be encoded: its extended value has no id or no dictionary within the limits, or an id with a
/// meaning is given as unknown. Else the reason for which the receiver refuses its encoding: the first of `TooLong`,
/// `UnknownId`, `NotNegotiated`, `WrongLength`, `Late`, `Missing`, `BadIndex`, `SpareBits`, and of an extended message
/// `Unsorted`, `BadField`, `BadBlock` and `BadIndex`.
pub fn legal(context: &Context, order: Order, message: &Message) -> Result<(), Fault>
    ensures exactly { IsOk result ↔ IsLegal context.now order message.now }
    ensures fault { IfErr result (Refuses context.now order message.now) }
{
    legal_length(context, order, message)?;
    Ok(())
}

/// Returns how many bytes follow the length prefix of a legal message.
///
/// It doesn't allocate.
///
/// # Errors
/// `Shape` if the message can't be encoded, else the reason for which the receiver refuses it, as [`legal`] returns them.
pub fn legal_length(context: &Context, order: Order, message: &Message) -> Result<u32, Fault>
    ensures legal { IfOk result (λ _. IsLegal context.now order message.now) }
    ensures length { IfOk result (λ length. length ≡ list_length (body context.now message.now)) }
    ensures illegal { IfErr result (λ _. ¬ IsLegal context.now order message.now) }
    ensures fault { IfErr result (Refuses context.now order message.now) }
{
    let Some(length) = shaped_length(context, message) else {
        return Err(Fault::Shape);
    };
    if length > u64::from(context.limit) {
        return Err(Fault::Reason(Reason::TooLong));
    }
    let length = length as u32;
    match judge_value(context, order, message, length) {
        Some(reason) => Err(Fault::Reason(reason)),
        None => Ok(length),
    }
}

/// Why a message of this length may not be sent.
fn judge_value(context: &Context, order: Order, message: &Message, length: u32) -> Option<Reason>
    requires shaped { IsShaped context.now message.now }
    requires size { length ≡ list_length (body context.now message.now) }
    requires short { length ≤ context.now.limit }
    ensures { MatchOption result (IsLegal context.now order message.now)
        (λ reason. ¬ IsLegal context.now order message.now × IsRefusedFor context.now order message.now reason) }
{
    if let Some(Refused { reason, .. }) = judge_any_id(context, order, message.id(), length) {
        return Some(reason);
    }
    if let Some(Refused { reason, .. }) = judge_message(context, length, message) {
        return Some(reason);
    }
    judge_extended(context, message)
}

/// Why the rules don't allow an extended message.
fn judge_extended(context: &Context, message: &Message) -> Option<Reason>
    ensures { IsJudged context.now message.now result }
{
    match message {
        Message::Extended(value) => judge_ext(context, value),
        _ => None,
    }
}

/// Why the rules don't allow an extended value.
fn judge_ext(context: &Context, value: &Ext) -> Option<Reason>
    ensures { IsJudgedExt context.now value.now result }
{
    match ext_reason(context.rules, value) {
        Some(reason) => Some(reason_from(reason)),
        None => judge_index(context.pieces, value),
    }
}

/// The reason of a message for that of its extended value.
fn reason_from(reason: ExtReason) -> Reason
    ensures { result ≡ reason_from reason }
{
    match reason {
        ExtReason::Unsorted => Reason::Unsorted,
        ExtReason::BadField => Reason::BadField,
        ExtReason::BadBlock => Reason::BadBlock,
    }
}

/// Returns why a piece index isn't legal, if the value is one.
fn judge_index(pieces: Option<u32>, value: &Ext) -> Option<Reason>
    ensures { result ≡ option_map (λ f. f.reason) (index_fault pieces value.now) }
{
    match (pieces, value) {
        (Some(pieces), Ext::DontHave(index)) if *index >= pieces => Some(Reason::BadIndex),
        _ => None,
    }
}

/// Encodes a message if it is legal for the receiver.
///
/// See BEP 3, "peer messages". `context` is the receiver's: to send to a peer, that of `bt_feed::peer_context`. `order` is
/// the order of what was sent before. With an `Outbox`, in a struct that sends:
///
/// ```rust
/// let context = peer_context(&self.own, self.theirs, &self.table);
/// let bytes = encode(alloc, &context, self.order, message)?;
/// self.out.queue(bytes.as_slice())?;
/// self.order = next(self.order, message);
/// ```
///
/// # Errors
/// `Illegal` if the message isn't legal, with the fault that [`legal`] returns. `Memory` if it is legal and memory runs out.
pub fn encode(
    alloc: Global,
    context: &Context,
    order: Order,
    message: &Message,
) -> Result<Vec<u8>, EncodeError>
    ensures { IsEncoded context.now order message.now result }
{
    match legal_length(context, order, message) {
        Ok(length) => Ok(spelled(alloc, context, message, length)?),
        Err(fault) => Err(EncodeError::Illegal(fault)),
    }
}

/// The bytes of a message of this length.
fn spelled(
    alloc: Global,
    context: &Context,
    message: &Message,
    length: u32,
) -> Result<Vec<u8>, AllocError>
    requires shaped { IsShaped context.now message.now }
    requires size { length ≡ list_length (body context.now message.now) }
    ensures { IfOk result (λ bytes. bytes.items ≡ spell context.now message.now) }
{
    let mut bytes = Vec::with_capacity(alloc, 4 + length as usize)?;
    match message.fields() {
        Some(fields) => push_plain(&mut bytes, length, message.id(), &fields)?,
        None => match message {
            Message::Extended(value) => push_extended(&mut bytes, length, context.reg, value)?,
            _ => {}
        },
    }
    Ok(bytes)
}

/// Appends a message that isn't extended.
fn push_plain(
    bytes: &mut Vec<u8>,
    length: u32,
    id: Option<u8>,
    fields: &Fields,
) -> Result<(), AllocError>
    ensures { OnOk result (bytes.new.items ≡ bytes.old.items ++ (be32 length ++ framed id (spell_fields (seen fields.now)))) }
{
    let (head, tail) = head_and_tail(length, id, fields);
    bytes.extend_from_slice(head.as_slice())?;
    bytes.extend_from_slice(tail)
}

/// Appends an extended message.
fn push_extended(
    bytes: &mut Vec<u8>,
    length: u32,
    reg: Registered,
    value: &Ext,
) -> Result<(), AllocError>
    requires { HasSpelling reg value.now }
    ensures { OnOk result (bytes.new.items ≡ bytes.old.items ++ (be32 length ++ (20 ∷ (unwrap_or (ext_id reg value.now) 0 ∷ payload_of value.now)))) }
{
    bytes.extend_from_slice(&length.to_be_bytes())?;
    bytes.push(EXTENDED)?;
    append_ext(bytes, reg, value)
}
