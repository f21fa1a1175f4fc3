//! The lines of the items that an end sent, as `show` prints them.
ghost use Rattle.std.specs.Prelude.{◌≡◌, ◌+◌, ◌-◌, ◌^◌, min, ◌++◌, IfOk, OnOk, length as list_length};
ghost use Rattle.bt_ext.specs.Payloads.{payload_of};
ghost use Rattle.bt_wire.specs.declared.item.Item.TheVariants as items;
ghost use Rattle.bt_session.specs.MessageLinks.{size};
ghost use Rattle.bt_text.specs.Lines.{item_line};
ghost use Rattle.bt_link.specs.Shown.{item_lines};

use bt_bencode::ben_len;
use bt_ext::Ext;
use bt_text::lines::push_item;
use bt_wire::{Item, Message};
use std::alloc::AllocError;

/// How many bytes an extended payload has, at most 2^64 - 1.
fn payload_size(payload: &Ext) -> u64
    ensures { result ≡ min (list_length (payload_of payload.now)) (2 ^ 64 - 1) }
{
    match payload {
        Ext::Handshake { dict, rest } | Ext::Metadata { dict, rest } => ben_len(
            dict,
        ).saturating_add(rest.len() as u64),
        Ext::DontHave(_) => 4,
        Ext::Raw { payload, .. } => payload.len() as u64,
    }
}

/// How many bytes a message has, at most 2^64 - 1.
fn message_size(message: &Message) -> u64
    ensures { result ≡ min (size (items.Message message.now)) (2 ^ 64 - 1) }
{
    match message {
        Message::KeepAlive => 4,
        Message::Choke
        | Message::Unchoke
        | Message::Interested
        | Message::NotInterested
        | Message::HaveAll
        | Message::HaveNone => 5,
        Message::Have(_) | Message::Suggest(_) | Message::AllowedFast(_) => 9,
        Message::Request { .. } | Message::Cancel { .. } | Message::Reject { .. } => 17,
        Message::Port(_) => 7,
        Message::Bitfield(bits) => 5 + bits.len() as u64,
        Message::Piece { block, .. } => 13 + block.len() as u64,
        Message::Unknown { payload, .. } => 5 + payload.len() as u64,
        Message::Extended(payload) => payload_size(payload).saturating_add(6),
    }
}

/// How many bytes an item has, at most 2^64 - 1.
fn item_size(item: &Item) -> u64
    ensures { result ≡ min (size item.now) (2 ^ 64 - 1) }
{
    match item {
        Item::Handshake(_) => 68,
        Item::Message(message) => message_size(message),
    }
}

/// Appends the line of an item at the offset `at`, and returns the offset after the item.
///
/// # Errors
/// `AllocError` when out of memory, as items of 2^64 bytes would be.
fn push_line(at: u64, item: &Item, text: &mut Vec<u8>) -> Result<u64, AllocError>
    ensures end { IfOk result (λ end. end ≡ at + size item.now) }
    ensures text { OnOk result (text.new.items ≡ text.old.items ++ item_line (at, item.now)) }
{
    let end = at.saturating_add(item_size(item));
    if end == u64::MAX {
        return Err(AllocError);
    }
    push_item(at, item, text)?;
    Ok(end)
}

/// Appends a line for each item of a direction, with its offset.
///
/// # Errors
/// `AllocError` when out of memory.
pub fn push_items(sent: &[Item], text: &mut Vec<u8>) -> Result<(), AllocError>
    ensures { OnOk result (text.new.items ≡ text.old.items ++ item_lines 0 sent.now) }
{
    let mut at: u64 = 0;
    'items: for item in sent {
        at = push_line(at, item, text)?;
    }
    Ok(())
}
