//! A message that an end of a link is to send, from the words of a script's line.
ghost use Rattle.std.specs.Prelude.{◌≡◌, ◌<◌, ◌^◌, length, IfOk};
ghost use Rattle.bt_link.specs.Entries.{lenient, IsMessageReading, IsSpelledBy};

use bt_ext::{Registered, Rules};
use bt_text::script::laws::one_reading;
use bt_text::script::reading::read_line;
use bt_wire::laws::prefixes;
use bt_wire::{Context, Front, Message, Order, copy_message, read_front};
use std::alloc::{AllocError, Global};

/// Returns a context that allows every message that any end's limit does.
fn lenient_context() -> Context
    ensures { result ≡ lenient }
{
    Context {
        fast: true,
        ext: true,
        pieces: None,
        reg: Registered::metadata_only(None),
        rules: Rules::Free,
        limit: 1_048_576,
    }
}

/// Returns the message that all of the bytes encode.
fn spelled(alloc: Global, bytes: &[u8]) -> Result<Option<Message>, AllocError>
    ensures { IfOk result (IsSpelledBy bytes.now) }
{
    prefixes();
    match read_front(&lenient_context(), Order::Past, 0, bytes) {
        Front::Whole(view, length) => {
            if length < bytes.len() {
                return Ok(None);
            }
            Ok(Some(copy_message(alloc, &view)?))
        }
        Front::Refused(_) => Ok(None),
        Front::Partial => Ok(None),
    }
}

/// Returns the message whose line in a script these words are.
///
/// `None` if they are no line, or the line's bytes are no message.
///
/// # Errors
/// `AllocError` when out of memory.
pub fn read_message(alloc: Global, words: &[u8]) -> Result<Option<Message>, AllocError>
    requires { length words.now < 2 ^ 32 }
    ensures { IfOk result (IsMessageReading words.now) }
{
    one_reading();
    let mut bytes = Vec::new(alloc);
    if !read_line(words, false, &mut bytes)? {
        return Ok(None);
    }
    spelled(alloc, bytes.as_slice())
}
