//! Items as text, in the words of `show`, and the names of ids.
ghost use Rattle.std.specs.Prelude.{◌≡◌};
ghost use Rattle.bt_text.specs.Shown.{item_in};

use crate::script::writing::put_handshake_line;
use crate::words::put_words;
pub use bt_wire::id_name;
use bt_wire::{Handshake, Item, Message};
use std::fmt;
use std::str::from_utf8;

/// What is printed of an item.
///
/// [`shown`] and [`shown_message`] make it, and `{}` prints it.
#[derive(Clone, Copy)]
pub enum ItemText<'a> {
    Handshake(&'a Handshake),
    Message(&'a Message),
}

/// Makes an item printable as `show` prints it, without its offset.
///
/// ```rust
/// let _ = println!(rt; "< {at} {}", shown(item));
/// ```
pub fn shown(item: &Item) -> ItemText<'_>
    ensures { item_in result ≡ item.now }
{
    match item {
        Item::Handshake(handshake) => ItemText::Handshake(handshake),
        Item::Message(message) => ItemText::Message(message),
    }
}

/// Makes a message printable as `show` prints it, without its offset.
pub fn shown_message(message: &Message) -> ItemText<'_>
    ensures { item_in result ≡ Item.Message message.now }
{
    ItemText::Message(message)
}

impl fmt::Display for ItemText<'_> {
    fn fmt<W: fmt::Write>(&self, f: &mut fmt::Formatter<W>) -> fmt::Result {
        let mut line = [0; 160];
        let end = match self {
            ItemText::Handshake(handshake) => put_handshake_line(handshake, &mut line, 0),
            ItemText::Message(message) => put_words(*message, &mut line, 0),
        };
        let words = &line[..end.saturating_sub(1)];
        match from_utf8(words) {
            Ok(words) => f.write_str(words),
            Err(_) => Err(fmt::Error),
        }
    }
}
