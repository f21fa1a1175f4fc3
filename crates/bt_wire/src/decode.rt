//! Parsing of one message, once its header is checked.
ghost use Rattle.std.specs.Prelude.{◌≡◌, ◌≢◌, ◌<◌, ◌^◌, ◌+◌, ◌∷◌, ◌≤◌, ◌-◌, length, drop, IfOk, IfErr, true, Some};
ghost use Rattle.bt_wire.specs.Faults.{IsFault, said_id, said_ext_id, said_payload, allows, size_of, placed_by, index_fault};
ghost use Rattle.bt_ext.specs.Payloads.{seen};
ghost use Rattle.bt_wire.specs.Headers.{header_of, IsWindow, IsRead, RefusesWindow};
ghost use Rattle.bt_wire.specs.Judged.{dict_length, WasJudged, IsMessageOf};
ghost use Rattle.bt_ext.specs.Judged.{WasJudged as WasExtJudged, IsValueOf};
ghost use Rattle.bt_wire.specs.declared.context.Context.{Context};
ghost use Rattle.bt_wire.specs.declared.fault.Header.TheVariants as headers;
ghost use Rattle.bt_wire.specs.Messages.{message_of, fields_of, keeps_bytes};
ghost use Rattle.bt_wire.specs.Numbers.{number32};
ghost use Rattle.bt_wire.specs.Ids.{shape_by, kind_of as kind_at};
ghost use Rattle.bt_wire.specs.Parts.{made, reading_by, place_in};

use crate::context::{Context, Order};
use crate::fault::{DecodeError, PAYLOAD_AT, Reason, Refused};
use crate::fields::judge_bytes;
use crate::ids::EXTENDED;
use crate::message::{Message, MessageView};
use crate::numbers::{number_at_front, port_at_front};
use bt_bencode::{ByteString, suffix};
use bt_ext::{ExtView, ViewError, copy_bytes, copy_ext, view_ext, view_judged as judged_ext};
use std::alloc::{AllocError, Global};

/// Parses the bytes of one message as parts of them.
///
/// See BEP 3, "peer messages". `judge_header` returned `Window` for these bytes, with their length. It doesn't allocate.
///
/// # Errors
/// The first fault of the fields, and its offset in the message: `BadIndex` or `SpareBits`, and of an extended message
/// `BadIndex`, `BadExtLength`, `BadBencode`, `Unsorted`, `BadField` or `BadBlock`, in this order.
#[inline(always)]
pub fn view_window<'a>(
    context: &Context,
    order: Order,
    window: &'a [u8],
) -> Result<MessageView<'a>, Refused>
    requires { header_of context.now order window.now ≡ headers.Window (length window.now) }
    ensures ok { IfOk result (λ v. IsRead context.now order window.now (message_of v)) }
    ensures err { IfErr result (λ f. IsFault context.now order 0 window.now (Some f)) }
{
    let length = number_at_front(window);
    if length == 0 {
        return Ok(MessageView::KeepAlive);
    }
    let id = id_at(window);
    if id == EXTENDED {
        return view_extended(context, order, window);
    }
    let view = read_fields(window);
    // Checked on the bytes, so that a view that nobody reads needn't be made.
    match judge_bytes(context, id, length, suffix(window, 5)) {
        Some(refused) => Err(refused),
        None => Ok(view),
    }
}

/// Returns the message that the bytes are, without a second check.
///
/// They are those of a message, as if [`view_window`] returned it before, and its dictionary has `dict_len` bytes: see
/// [`dict_len`]. It scans nothing.
#[inline(always)]
pub fn view_judged<'a>(context: &Context, window: &'a [u8], dict_len: usize) -> MessageView<'a>
    requires { WasJudged context.now window.now dict_len }
    ensures { IsMessageOf context.now window.now (message_of result) }
{
    let _limit = context.limit;
    if number_at_front(window) == 0 {
        return MessageView::KeepAlive;
    }
    if id_at(window) == EXTENDED {
        return MessageView::Extended(view_extended_judged(context, window, dict_len));
    }
    read_fields(window)
}

/// The extended value of a window that was judged.
#[inline(always)]
fn view_extended_judged<'a>(context: &Context, window: &'a [u8], dict_len: usize) -> ExtView<'a>
    requires long { 6 ≤ length window.now }
    requires judged { WasExtJudged context.now.reg (said_ext_id window.now) (said_payload window.now) dict_len }
    ensures { IsValueOf context.now.reg (said_ext_id window.now) (said_payload window.now) (seen result) }
{
    judged_ext(context.reg, window[5], suffix(window, 6), dict_len)
}

/// Returns how many bytes the dictionary of a message has; 0 if it has none.
#[inline(always)]
pub fn dict_len(view: &MessageView) -> usize
    ensures { result ≡ dict_length (message_of view.now) }
{
    match view {
        MessageView::Extended(extended) => extended.dict_len(),
        _ => 0,
    }
}

/// The id after the length.
#[inline(always)]
fn id_at(window: &[u8]) -> u8
    requires { 5 ≤ length window.now }
    ensures { result ≡ said_id window.now }
{
    window[4]
}

/// The extended message of a window.
#[inline(always)]
fn view_extended<'a>(
    context: &Context,
    _order: Order,
    window: &'a [u8],
) -> Result<MessageView<'a>, Refused>
    requires whole { IsWindow context.now _order window.now }
    requires long { 6 ≤ length window.now }
    requires id { said_id window.now ≡ 20 }
    ensures ok { IfOk result (λ v. IsRead context.now _order window.now (message_of v)) }
    ensures err { IfErr result (λ f. IsFault context.now _order 0 window.now (Some f)) }
{
    match view_ext(context.reg, context.rules, window[5], suffix(window, 6)) {
        Ok(view) => match judge_view(context.pieces, &view) {
            None => Ok(MessageView::Extended(view)),
            Some(beyond) => Err(beyond),
        },
        Err(fault) => Err(placed(fault, window.len())),
    }
}

/// Returns the fault of an extended value: its piece index isn't below the count.
fn judge_view(pieces: Option<u32>, view: &ExtView) -> Option<Refused>
    ensures { result ≡ index_fault pieces (seen view.now) }
{
    match (pieces, view) {
        (Some(pieces), ExtView::DontHave(index)) if *index >= pieces => Some(Refused {
            at: PAYLOAD_AT,
            reason: Reason::BadIndex,
        }),
        _ => None,
    }
}

/// The fault of a payload, by its place in the message, which has `_length` bytes.
fn placed(fault: ViewError, _length: usize) -> Refused
    requires { place_in fault + 6 ≤ _length }
    ensures { result ≡ placed_by fault }
{
    match fault {
        ViewError::BadExtLength => Refused::new(PAYLOAD_AT, Reason::BadExtLength),
        ViewError::BadBencode { at } => Refused::new(PAYLOAD_AT + at as u64, Reason::BadBencode),
        ViewError::Unsorted { at } => Refused::new(PAYLOAD_AT + at as u64, Reason::Unsorted),
        ViewError::BadField => Refused::new(PAYLOAD_AT, Reason::BadField),
        ViewError::BadBlock { at } => Refused::new(PAYLOAD_AT + at as u64, Reason::BadBlock),
    }
}

/// The message of a window, by its id, except an extended one.
#[tactic(auto, unfolding(crate::specs::Parts::made))]
#[inline(always)]
fn read_fields<'a>(window: &'a [u8]) -> MessageView<'a>
    requires some { 5 ≤ length window.now }
    requires sized { (context : Context) × (allows (size_of context (said_id window.now)) (length window.now - 4) ≡ true) }
    requires plain { said_id window.now ≢ 20 }
    ensures message { message_of result ≡ made (said_id window.now) (drop 5 window.now) }
    ensures fields { (c : Context) → fields_of c (message_of result) ≡ reading_by (shape_by (kind_at (said_id window.now))) (drop 5 window.now) }
{
    let fields = suffix(window, 5);
    match window[4] {
        0 => MessageView::Choke,
        1 => MessageView::Unchoke,
        2 => MessageView::Interested,
        3 => MessageView::NotInterested,
        4 => MessageView::Have(number_at_front(fields)),
        5 => MessageView::Bitfield(fields),
        6 => {
            let (index, begin, length) = part_of(fields);
            MessageView::Request {
                index,
                begin,
                length,
            }
        }
        7 => MessageView::Piece {
            index: number_at_front(fields),
            begin: number_at_front(suffix(fields, 4)),
            block: suffix(fields, 8),
        },
        8 => {
            let (index, begin, length) = part_of(fields);
            MessageView::Cancel {
                index,
                begin,
                length,
            }
        }
        9 => MessageView::Port(port_at_front(fields)),
        13 => MessageView::Suggest(number_at_front(fields)),
        14 => MessageView::HaveAll,
        15 => MessageView::HaveNone,
        16 => {
            let (index, begin, length) = part_of(fields);
            MessageView::Reject {
                index,
                begin,
                length,
            }
        }
        17 => MessageView::AllowedFast(number_at_front(fields)),
        id => MessageView::Unknown {
            id,
            payload: fields,
        },
    }
}

/// A piece index, and begin and length of a part of the piece.
#[inline(always)]
fn part_of(fields: &[u8]) -> (u32, u32, u32)
    requires { 12 ≤ length fields.now }
    ensures index { result.0 ≡ number32 fields.now }
    ensures begin { result.1 ≡ number32 (drop 4 fields.now) }
    ensures length { result.2 ≡ number32 (drop 8 fields.now) }
{
    (
        number_at_front(fields),
        number_at_front(suffix(fields, 4)),
        number_at_front(suffix(fields, 8)),
    )
}

#[inline(always)]
fn copy_bitfield(alloc: Global, bits: &[u8]) -> Result<Message, AllocError>
    ensures { IfOk result (λ m. m ≡ Message.Bitfield bits.now) }
{
    Ok(Message::Bitfield(copy_bytes(alloc, bits)?))
}

#[inline(always)]
fn copy_piece(alloc: Global, index: u32, begin: u32, block: &[u8]) -> Result<Message, AllocError>
    ensures { IfOk result (λ m. m ≡ Message.Piece index begin block.now) }
{
    let block = copy_bytes(alloc, block)?;
    Ok(Message::Piece {
        index,
        begin,
        block,
    })
}

#[inline(always)]
fn copy_extended(alloc: Global, view: &ExtView) -> Result<Message, AllocError>
    ensures { IfOk result (λ m. m ≡ Message.Extended (seen view.now)) }
{
    Ok(Message::Extended(copy_ext(alloc, view)?))
}

#[inline(always)]
fn copy_unknown(alloc: Global, id: u8, payload: &[u8]) -> Result<Message, AllocError>
    ensures { IfOk result (λ m. m ≡ Message.Unknown id payload.now) }
{
    let payload = copy_bytes(alloc, payload)?;
    Ok(Message::Unknown { id, payload })
}

/// Copies a view into a message. It allocates only for bytes of variable length.
///
/// # Errors
/// `AllocError` when out of memory; it comes only for a message that keeps bytes, as a bitfield or a block.
pub fn copy_message(alloc: Global, view: &MessageView) -> Result<Message, AllocError>
    ensures ok { IfOk result (λ m. m ≡ message_of view.now) }
    ensures err { IfErr result (λ _. (c : Context) → keeps_bytes (fields_of c (message_of view.now)) ≡ true) }
{
    match view {
        MessageView::KeepAlive => Ok(Message::KeepAlive),
        MessageView::Choke => Ok(Message::Choke),
        MessageView::Unchoke => Ok(Message::Unchoke),
        MessageView::Interested => Ok(Message::Interested),
        MessageView::NotInterested => Ok(Message::NotInterested),
        MessageView::Have(index) => Ok(Message::Have(*index)),
        MessageView::Bitfield(bits) => copy_bitfield(alloc, bits),
        MessageView::Request {
            index,
            begin,
            length,
        } => Ok(Message::Request {
            index: *index,
            begin: *begin,
            length: *length,
        }),
        MessageView::Piece {
            index,
            begin,
            block,
        } => copy_piece(alloc, *index, *begin, block),
        MessageView::Cancel {
            index,
            begin,
            length,
        } => Ok(Message::Cancel {
            index: *index,
            begin: *begin,
            length: *length,
        }),
        MessageView::Port(port) => Ok(Message::Port(*port)),
        MessageView::Suggest(index) => Ok(Message::Suggest(*index)),
        MessageView::HaveAll => Ok(Message::HaveAll),
        MessageView::HaveNone => Ok(Message::HaveNone),
        MessageView::Reject {
            index,
            begin,
            length,
        } => Ok(Message::Reject {
            index: *index,
            begin: *begin,
            length: *length,
        }),
        MessageView::AllowedFast(index) => Ok(Message::AllowedFast(*index)),
        MessageView::Extended(view) => copy_extended(alloc, view),
        MessageView::Unknown { id, payload } => copy_unknown(alloc, *id, payload),
    }
}

/// Parses the bytes of one message.
///
/// See BEP 3, "peer messages". `judge_header` returned `Window` for these bytes, with their length.
///
/// # Errors
/// `Refused` with the first fault of the fields and its offset in the message, as [`view_window`] returns it. `Memory` if
/// there is no fault and memory runs out.
pub fn decode_window(
    alloc: Global,
    context: &Context,
    order: Order,
    window: &[u8],
) -> Result<Message, DecodeError>
    requires { header_of context.now order window.now ≡ headers.Window (length window.now) }
    ensures ok { IfOk result (IsRead context.now order window.now) }
    ensures err { IfErr result (RefusesWindow context.now order window.now) }
{
    match view_window(context, order, window) {
        Ok(view) => Ok(copy_message(alloc, &view)?),
        Err(Refused { at, reason }) => Err(DecodeError::Refused { at, reason }),
    }
}
