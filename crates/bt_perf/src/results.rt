//! What a digest has of an item: its id and all its fields, of bytes their number and both ends, in the first round all of them.

use crate::digest::Digest;
use bt_bencode::{Value, ben_len, spell};
use bt_ext::{Ext, ExtView};
use bt_feed::View;
use bt_wire::{Fields, Handshake, Item, Message, MessageView};
use std::alloc::Global;

/// Adds bytes: how many they are, the first eight and the last eight; or all.
#[inline(always)]
fn add_ends(bytes: &[u8], digest: &mut Digest) {
    if digest.is_whole {
        return digest.add_bytes(bytes);
    }
    digest.add(bytes.len() as u64);
    if let Some(first) = bytes.first_chunk::<8>() {
        digest.add(u64::from_le_bytes(*first));
    }
    if let Some(last) = bytes.last_chunk::<8>() {
        digest.add(u64::from_le_bytes(*last));
    }
}

/// Adds two numbers.
#[inline(always)]
fn add_both(first: u32, second: u32, digest: &mut Digest) {
    digest.add((u64::from(first) << 32) | u64::from(second));
}

fn add_handshake(handshake: &Handshake, digest: &mut Digest) {
    let Handshake {
        reserved,
        info_hash,
        peer_id,
    } = handshake;
    digest.add(reserved.0);
    add_ends(info_hash, digest);
    add_ends(peer_id, digest);
}

/// Adds an extended payload.
fn add_ext(ext: &ExtView, digest: &mut Digest) {
    match ext {
        ExtView::Handshake { dict, rest } | ExtView::Metadata { dict, rest } => {
            add_ends(dict.spelled(), digest);
            add_ends(rest, digest);
        }
        ExtView::DontHave(index) => digest.add(u64::from(*index)),
        ExtView::Raw { id, payload } => {
            digest.add(u64::from(*id));
            add_ends(payload, digest);
        }
    }
}

/// Adds a message.
#[inline(always)]
fn add_message(message: &MessageView, digest: &mut Digest) {
    digest.add(u64::from(message.id().unwrap_or(255)));
    match message {
        Message::Have(index) | Message::Suggest(index) | Message::AllowedFast(index) => {
            digest.add(u64::from(*index));
        }
        Message::Request {
            index,
            begin,
            length,
        }
        | Message::Cancel {
            index,
            begin,
            length,
        }
        | Message::Reject {
            index,
            begin,
            length,
        } => {
            add_both(*index, *begin, digest);
            digest.add(u64::from(*length));
        }
        Message::Piece {
            index,
            begin,
            block,
        } => {
            add_both(*index, *begin, digest);
            add_ends(block, digest);
        }
        Message::Bitfield(bytes) => add_ends(bytes, digest),
        Message::Unknown { id: _, payload } => add_ends(payload, digest),
        Message::Port(port) => digest.add(u64::from(*port)),
        Message::Extended(ext) => add_ext(ext, digest),
        Message::KeepAlive
        | Message::Choke
        | Message::Unchoke
        | Message::Interested
        | Message::NotInterested
        | Message::HaveAll
        | Message::HaveNone => {}
    }
}

/// Adds an item as a view.
#[inline(always)]
pub fn add_view(view: &View, digest: &mut Digest) {
    match view {
        View::Handshake(handshake) => add_handshake(handshake, digest),
        View::Message(message) => add_message(message, digest),
    }
}

/// Adds the fields of a message's copy.
fn add_fields(fields: &Fields, digest: &mut Digest) {
    match fields {
        Fields::Nothing => {}
        Fields::Index(index) => digest.add(u64::from(*index)),
        Fields::Part {
            index,
            begin,
            length,
        } => {
            add_both(*index, *begin, digest);
            digest.add(u64::from(*length));
        }
        Fields::Block {
            index,
            begin,
            block,
        } => {
            add_both(*index, *begin, digest);
            add_ends(block, digest);
        }
        Fields::Port(port) => digest.add(u64::from(*port)),
        Fields::Field(bytes) | Fields::Payload(bytes) => add_ends(bytes, digest),
    }
}

/// Adds the copy of a dictionary: how long it is, or all of it.
fn add_dict(alloc: Global, dict: &Value, digest: &mut Digest) {
    digest.add(ben_len(dict));
    if digest.is_whole
        && let Ok(bytes) = spell(alloc, dict)
    {
        digest.add_bytes(bytes.as_slice());
    }
}

/// Adds the copy of an extended payload.
fn add_ext_copy(alloc: Global, ext: &Ext, digest: &mut Digest) {
    match ext {
        Ext::Handshake { dict, rest } | Ext::Metadata { dict, rest } => {
            add_dict(alloc, dict, digest);
            add_ends(rest.as_slice(), digest);
        }
        Ext::DontHave(index) => digest.add(u64::from(*index)),
        Ext::Raw { id, payload } => {
            digest.add(u64::from(*id));
            add_ends(payload.as_slice(), digest);
        }
    }
}

/// Adds an item's copy.
pub fn add_item(alloc: Global, item: &Item, digest: &mut Digest) {
    match item {
        Item::Handshake(handshake) => add_handshake(handshake, digest),
        Item::Message(Message::Extended(ext)) => add_ext_copy(alloc, ext, digest),
        Item::Message(message) => {
            digest.add(u64::from(message.id().unwrap_or(255)));
            if let Some(fields) = message.fields() {
                add_fields(&fields, digest);
            }
        }
    }
}
