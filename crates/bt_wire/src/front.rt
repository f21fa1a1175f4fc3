//! The message that bytes begin with, for a caller that has them in one slice.
ghost use Rattle.std.specs.Prelude.{◌≡◌, ◌<◌, ◌^◌};
ghost use Rattle.bt_wire.specs.Fronts.{IsFront};

use crate::context::{Context, Order};
use crate::decode::view_window;
use crate::fault::{Header, Reason, Refused};
use crate::header::judge_header;
use crate::message::MessageView;

/// What bytes begin with.
///
/// A fault, less than a message, or a message and its length in bytes.
#[derive(Drop)]
pub enum Front<'a> {
    Refused(Refused),
    Partial,
    Whole(MessageView<'a>, usize),
}

/// The offset below which a message starts.
pub const END: u64 = 1 << 62;

/// Parses the message that the bytes begin with.
///
/// See BEP 3, "peer messages". It starts at the offset `start` of its stream. It doesn't allocate.
#[inline(always)]
pub fn read_front<'a>(context: &Context, order: Order, start: u64, bytes: &'a [u8]) -> Front<'a>
    ensures { IsFront context.now order start bytes.now result }
{
    if start >= END {
        return Front::Refused(Refused {
            at: 0,
            reason: Reason::StreamFull,
        });
    }
    match judge_header(context, order, bytes) {
        Header::Need(_) => Front::Partial,
        Header::Refused { at, reason } => Front::Refused(Refused { at, reason }),
        Header::Window(length) => {
            if length > bytes.len() as u64 {
                return Front::Partial;
            }
            let length = length as usize;
            match view_window(context, order, &bytes[..length]) {
                Ok(view) => Front::Whole(view, length),
                Err(refused) => Front::Refused(refused),
            }
        }
    }
}
