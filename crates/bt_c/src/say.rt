//! What C has an end say.
ghost use Rattle.std.specs.Prelude.{◌≡◌, ◌≢◌, Some, None, MatchResult};
ghost use Rattle.bt_c.specs.Sayings.{said_by, say_status, IsSaidBy, IsSaidTo};

use crate::held::BtEnd;
use crate::item::BtItem;
use crate::status::{MEMORY, NO_END};
use bt_bencode::ByteString;
use bt_end::{End, SayError};
use bt_ext::Ext;
use bt_wire::Message;
use std::alloc::Global;

/// The item is no message that an end says.
const NOT_SAID: u32 = 4;

/// The kind of the extended message that takes a piece back.
const DONTHAVE: u8 = 8;

/// A copy of the bytes.
fn copied(alloc: Global, bytes: &[u8]) -> Result<ByteString, u32>
    ensures { MatchResult result (λ b. b ≡ bytes.now) (λ n. n ≡ 6) }
{
    match Vec::from_slice(alloc, bytes) {
        Ok(bytes) => Ok(ByteString::from_vec(bytes)),
        Err(_) => Err(MEMORY),
    }
}

/// The message of this id, by the numbers that it has and a copy of the body.
fn message_of(alloc: Global, item: &BtItem, body: &[u8]) -> Result<Message, u32>
    ensures { MatchResult result (λ m. said_by item.now body.now ≡ Some m) (λ n. n ≢ 6 → (n ≡ 4) × (said_by item.now body.now ≡ None)) }
{
    let index = item.index;
    let begin = item.begin;
    let length = item.length;
    match item.id {
        0 => Ok(Message::Choke),
        1 => Ok(Message::Unchoke),
        2 => Ok(Message::Interested),
        3 => Ok(Message::NotInterested),
        4 => Ok(Message::Have(index)),
        5 => Ok(Message::Bitfield(copied(alloc, body)?)),
        6 => Ok(Message::Request {
            index,
            begin,
            length,
        }),
        7 => Ok(Message::Piece {
            index,
            begin,
            block: copied(alloc, body)?,
        }),
        8 => Ok(Message::Cancel {
            index,
            begin,
            length,
        }),
        9 => Ok(Message::Port(item.port)),
        13 => Ok(Message::Suggest(index)),
        14 => Ok(Message::HaveAll),
        15 => Ok(Message::HaveNone),
        16 => Ok(Message::Reject {
            index,
            begin,
            length,
        }),
        17 => Ok(Message::AllowedFast(index)),
        20 if item.extended.kind == DONTHAVE => {
            Ok(Message::Extended(Ext::DontHave(item.extended.piece)))
        }
        256 => Ok(Message::KeepAlive),
        _ => Err(NOT_SAID),
    }
}

/// How saying ended.
fn status_of(answer: &Result<(), SayError>) -> u32
    ensures { result ≡ say_status answer.now }
{
    match answer {
        Ok(()) => 0,
        Err(SayError::NotOpen) => 11,
        Err(SayError::Busy) => 5,
        Err(SayError::Extended) => 4,
        Err(SayError::PiecesUnknown) => 12,
        Err(SayError::Illegal(_)) => 13,
        Err(SayError::Memory) => 6,
    }
}

fn say(alloc: Global, end: &mut End, item: &BtItem, body: &[u8]) -> u32
    ensures { IsSaidBy end.old (said_by item.now body.now) end.new result }
{
    match message_of(alloc, item, body) {
        Ok(message) => status_of(&end.say(&message)),
        Err(status) => status,
    }
}

/// Has an end say a message, by the numbers that its id has and a body.
#[unsafe(no_mangle)]
pub extern "C" fn bt_end_say(alloc: Global, end: &mut BtEnd, item: &BtItem, body: &[u8]) -> u32
    ensures { IsSaidTo end.old.slot.value (said_by item.now body.now) end.new.slot.value result }
{
    match end.take(alloc) {
        None => NO_END,
        Some(mut held) => {
            let status = say(alloc, &mut held, item, body);
            end.put(held);
            status
        }
    }
}
