//! Facts about numbers and lengths that the types of values imply, for contracts of a run.
ghost use Rattle.std.specs.Prelude.{◌≡◌, ◌<◌, ◌^◌, None, length, IfSome};
ghost use Rattle.bt_ext.specs.Ids.{metadata_id, donthave_id};
ghost use Rattle.bt_wire.specs.Messages.{IsInRange, AreInRange, IsIdInRange, fields_of, id_of};
ghost use Rattle.bt_end.specs.Configs.{end_for, config_error};
ghost use Rattle.bt_session.specs.LinkLaws.{IsNew};
ghost use Rattle.bt_session.specs.MessageLinks.{bare};

use bt_end::Config;
use bt_ext::{Ext, Registered};
use bt_wire::{Message, Reserved};

/// The numbers of a message are those of its fields.
fn has_numbers(message: &Message)
    ensures { AreInRange (fields_of bare message.now) }
{
    match message {
        Message::Have(index) | Message::Suggest(index) | Message::AllowedFast(index) => {
            let _index = *index;
        }
        Message::Request {
            index,
            begin,
            length,
        }
        | Message::Cancel {
            index,
            begin,
            length,
        }
        | Message::Reject {
            index,
            begin,
            length,
        } => {
            let _part = (*index, *begin, *length);
        }
        Message::Piece { index, begin, .. } => {
            let _place = (*index, *begin);
        }
        Message::Port(port) => {
            let _port = *port;
        }
        Message::Extended(Ext::Raw { id, .. }) => {
            let _id = *id;
        }
        _ => {}
    }
}

/// Does nothing: states that a message's id and numbers are in their ranges.
pub fn is_written(message: &Message)
    ensures { IsInRange bare message.now }
{
    let _id = message.id();
    has_numbers(message);
}

/// The length of a hash.
fn is_twenty(hash: &[u8; 20])
    ensures { length hash.now ≡ 20 }
{
    let _hash = *hash;
}

/// The length of an info hash.
fn has_length(hash: &Option<[u8; 20]>)
    ensures { IfSome hash.now (λ h. length h ≡ 20) }
{
    match hash {
        Some(hash) => is_twenty(hash),
        None => {}
    }
}

/// The number of reserved bits has 64 bits.
fn is_wide(reserved: &Reserved)
    ensures { reserved.now.0 < 2 ^ 64 }
{
    let _bits = reserved.0;
}

/// The id of `ut_metadata` is a byte.
fn has_metadata_byte(registered: &Registered)
    ensures { IfSome (metadata_id registered.now) (λ n. n < 256) }
{
    if let Some(id) = registered.metadata() {
        let _id = id.get();
    }
}

/// The id of `lt_donthave` is a byte.
fn has_donthave_byte(registered: &Registered)
    ensures { IfSome (donthave_id registered.now) (λ n. n < 256) }
{
    if let Some(id) = registered.donthave() {
        let _id = id.get();
    }
}

/// Does nothing: states that an end that is made of a config is a new one.
pub fn is_new(config: &Config)
    ensures { config_error config.now ≡ None → IsNew (end_for config.now) }
{
    is_twenty(&config.peer_id);
    is_wide(&config.own.reserved);
    has_length(&config.own.info_hash);
    has_metadata_byte(&config.own.reg);
    has_donthave_byte(&config.own.reg);
}
