//! What a feed returns: views of items, refusals, and what is wrong at the end of a stream.
ghost use Rattle.std.specs.Prelude.{◌≡◌, IfOk, IfErr};
ghost use Rattle.bt_feed.specs.Views.{item_of, KeepsBytes};
ghost use Rattle.bt_feed.specs.Judged.{dict_length};

use bt_wire::{Handshake, Item, MessageView, Refusal, copy_message, dict_len};
use std::alloc::{AllocError, Global};
use thiserror::Error;

/// An item whose bytes are those of the feed's buffer, valid until the next push.
#[derive(Drop)]
pub enum View<'a> {
    Handshake(Handshake),
    Message(MessageView<'a>),
}

/// Why a feed returns no item.
#[derive(Clone, Copy, PartialEq, Eq, Debug, Error)]
pub enum TakeError {
    #[error("message {} at {}: {}", .0.message, .0.at, .0.reason)]
    Refused(Refusal),
}

/// Why a stream may not end here.
#[derive(Clone, Copy, PartialEq, Eq, Debug, Error)]
pub enum Finish {
    #[error("message {} at {}: {}", .0.message, .0.at, .0.reason)]
    Refused(Refusal),
    /// A whole item is buffered that wasn't taken.
    #[error("an item is held that wasn't taken")]
    Untaken,
}

/// Returns the refusal that the error is.
pub fn refusal_in(error: TakeError) -> Refusal
    ensures { error ≡ TakeError.Refused result }
{
    match error {
        TakeError::Refused(refusal) => refusal,
    }
}

/// Returns how many bytes the dictionary of an item has; 0 if it has none.
#[inline(always)]
pub(crate) fn dict_len_of(view: &View) -> usize
    ensures { result ≡ dict_length (item_of view.now) }
{
    match view {
        View::Handshake(_) => 0,
        View::Message(message) => dict_len(message),
    }
}

/// Copies a view into an item. It allocates only for bytes that a message keeps.
///
/// # Errors
/// `AllocError` when out of memory; it comes only for a message that keeps bytes, as a bitfield or a block.
pub fn to_item(alloc: Global, view: &View) -> Result<Item, AllocError>
    ensures ok { IfOk result (λ item. item ≡ item_of view.now) }
    ensures err { IfErr result (λ _. KeepsBytes view.now) }
{
    match view {
        View::Handshake(handshake) => Ok(Item::Handshake(*handshake)),
        View::Message(message) => Ok(Item::Message(copy_message(alloc, message)?)),
    }
}
