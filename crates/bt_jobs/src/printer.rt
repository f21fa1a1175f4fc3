//! The text of a stream's items, until it is written.
ghost use Rattle.std.specs.Prelude.{◌≡◌, ◌≢◌, ◌+◌, ◌<◌, ◌≤◌, ℕ, List, [], ◌++◌, length, take, vec_len, OnOk, OnErr, IfOk, IfErr};
ghost use Rattle.std.specs.Io.KnownBytes.{Appends};
ghost use Rattle.bt_io.specs.Seen.{WriteFailed};
ghost use Rattle.bt_feed.specs.Views.{item_of};
ghost use Rattle.bt_wire.specs.declared.context.Own.{Own as Receiver};
ghost use Rattle.bt_wire.specs.declared.item.Item.TheVariants as items;
ghost use Rattle.bt_wire.specs.Messages.{message_of};
ghost use Rattle.bt_text.specs.Script.{script_line};
ghost use Rattle.bt_text.specs.Lines.{item_line, verdict_line as verdict_words};
ghost use Rattle.bt_json.specs.Objects.{line as object_of, verdict_line as verdict_object};
ghost use Rattle.bt_jobs.specs.Printed.{IsFlushed, Prints, form_of, text_in, text_of};
ghost use Rattle.bt_jobs.specs.declared.printer.Form.TheVariants as shape;

use crate::output::write_out;
use bt_feed::{Sink, SinkFault, Target, View};
use bt_json::{add_handshake_line, add_message_line};
use bt_text::ended::{Ended, ToolFault};
use bt_text::lines::{put_handshake, put_message, verdict_line};
use bt_text::putting::{self, Offset, put};
use bt_text::script::writing::{HANDSHAKE_ROOM, put_handshake_line, put_message_line, room_for};
use bt_wire::{Handshake, MessageView, Own};
use std::alloc::{AllocError, Global};

/// The form in which an item is written.
#[derive(Clone, Copy, PartialEq, Eq, Debug)]
pub enum Form {
    /// A line with its offset.
    Show,
    /// A JSON object with its offset.
    Json,
    /// A script's line with all of its bytes, as this receiver's registered ids have it.
    Unpack(Own),
}

/// How many bytes of room a message's line needs.
const LINE_ROOM: usize = 160;

/// How many bytes the text grows by if it has no room, besides the room.
const GROWTH: usize = 1024;

/// A sink that turns items into text, and keeps the text until it is written.
#[derive(Drop)]
pub struct Printer {
    alloc: Global,
    form: Form,
    /// The text, and room after it.
    text: Vec<u8>,
    /// The length of the text.
    used: usize,
    offset: Offset,
    calls: u64,
    failed: u64,
}

/// Makes room after what is used of the text; returns the place of the room.
#[inline(always)]
fn make_room(text: &mut Vec<u8>, used: usize, room: usize) -> Result<usize, AllocError>
    requires { 0 < room }
    ensures { IfOk result (λ n. (n + room ≤ vec_len text.new) × (take n text.new.items ≡ take used text.old.items)) }
{
    if text.len().saturating_sub(used) >= room {
        return Ok(used);
    }
    grow(text, used, room)
}

/// Makes the text longer, by this room and more after what is used.
#[inline(never)]
fn grow(text: &mut Vec<u8>, used: usize, room: usize) -> Result<usize, AllocError>
    ensures { IfOk result (λ n. (n + room ≤ vec_len text.new) × (take n text.new.items ≡ take used text.old.items)) }
{
    text.truncate(used);
    putting::grow(text, room.saturating_add(GROWTH))
}

/// Returns what is used of the text.
fn used_part(text: &Vec<u8>, used: usize) -> &[u8]
    ensures { result.now ≡ take used text.now.items }
{
    if used < text.len() {
        &text.as_slice()[..used]
    } else {
        text.as_slice()
    }
}

/// Adds the line of an item to what is used of the text; returns how much is used then.
#[inline(always)]
fn push_item(
    at: u64,
    view: &View,
    offset: &mut Offset,
    text: &mut Vec<u8>,
    used: usize,
) -> Result<usize, AllocError>
    ensures { IfOk result (λ n. take n text.new.items ≡ take used text.old.items ++ item_line (at, item_of view.now)) }
{
    let place = make_room(text, used, LINE_ROOM)?;
    match view {
        View::Handshake(handshake) => {
            Ok(put_handshake(at, handshake, text.as_mut_slice(), place))
        }
        View::Message(message) => {
            Ok(put_message(offset, at, message, text.as_mut_slice(), place))
        }
    }
}

/// Adds the object of an item to what is used of the text; returns how much is used then.
#[inline(never)]
fn add_object(
    at: u64,
    view: &View,
    offset: &mut Offset,
    text: &mut Vec<u8>,
    used: usize,
) -> Result<usize, AllocError>
    ensures { IfOk result (λ n. (own : Receiver) → take n text.new.items ≡ take used text.old.items ++ object_of own (at, item_of view.now)) }
{
    let place = make_room(text, used, bt_json::LINE_ROOM)?;
    match view {
        View::Handshake(handshake) => add_handshake_line(at, handshake, text, place),
        View::Message(message) => add_message_line(offset, at, message, text, place),
    }
}

/// Returns the same message.
#[inline(always)]
fn copied_message<'a>(message: &MessageView<'a>) -> MessageView<'a>
    ensures { message_of result ≡ message_of message.now }
{
    match message {
        MessageView::KeepAlive => MessageView::KeepAlive,
        MessageView::Choke => MessageView::Choke,
        MessageView::Unchoke => MessageView::Unchoke,
        MessageView::Interested => MessageView::Interested,
        MessageView::NotInterested => MessageView::NotInterested,
        MessageView::Have(index) => MessageView::Have(*index),
        MessageView::Bitfield(bits) => MessageView::Bitfield(bits),
        MessageView::Request {
            index,
            begin,
            length,
        } => MessageView::Request {
            index: *index,
            begin: *begin,
            length: *length,
        },
        MessageView::Piece {
            index,
            begin,
            block,
        } => MessageView::Piece {
            index: *index,
            begin: *begin,
            block,
        },
        MessageView::Cancel {
            index,
            begin,
            length,
        } => MessageView::Cancel {
            index: *index,
            begin: *begin,
            length: *length,
        },
        MessageView::Port(port) => MessageView::Port(*port),
        MessageView::Suggest(index) => MessageView::Suggest(*index),
        MessageView::HaveAll => MessageView::HaveAll,
        MessageView::HaveNone => MessageView::HaveNone,
        MessageView::Reject {
            index,
            begin,
            length,
        } => MessageView::Reject {
            index: *index,
            begin: *begin,
            length: *length,
        },
        MessageView::AllowedFast(index) => MessageView::AllowedFast(*index),
        MessageView::Extended(payload) => MessageView::Extended(*payload),
        MessageView::Unknown { id, payload } => MessageView::Unknown { id: *id, payload },
    }
}

/// Returns the same item, in a place of its own.
///
/// A call that is handed this one leaves the parts of the other in registers. Without it a line of `show` takes a tenth more
/// instructions.
#[inline(always)]
fn copied<'a>(view: &View<'a>) -> View<'a>
    ensures { item_of result ≡ item_of view.now }
{
    match view {
        View::Handshake(handshake) => View::Handshake(*handshake),
        View::Message(message) => View::Message(copied_message(message)),
    }
}

/// Adds the script's line of an item to what is used of the text; returns how much is used then.
#[inline(never)]
fn add_script(own: &Own, view: &View, text: &mut Vec<u8>, used: usize) -> Result<usize, AllocError>
    ensures { IfOk result (λ n. take n text.new.items ≡ take used text.old.items ++ script_line own.now (item_of view.now)) }
{
    match view {
        View::Handshake(handshake) => {
            let place = make_room(text, used, HANDSHAKE_ROOM)?;
            Ok(put_handshake_line(handshake, text.as_mut_slice(), place))
        }
        View::Message(message) => {
            let place = make_room(text, used, room_for(message))?;
            Ok(put_message_line(own, message, text.as_mut_slice(), place))
        }
    }
}

/// Adds an item in another form than that of `show` to what is used of the text; returns how much is used then.
#[inline(always)]
fn add_other(
    form: Form,
    at: u64,
    view: &View,
    offset: &mut Offset,
    text: &mut Vec<u8>,
    used: usize,
) -> Result<usize, AllocError>
    requires { form ≢ shape.Show }
    ensures { IfOk result (λ n. (own : Receiver) → take n text.new.items ≡ take used text.old.items ++ text_of form own (at, item_of view.now)) }
{
    let view = copied(view);
    match form {
        Form::Show => unreachable!(),
        Form::Json => add_object(at, &view, offset, text, used),
        Form::Unpack(own) => add_script(&own, &view, text, used),
    }
}

impl Printer {
    /// Makes a printer without text.
    pub fn new(alloc: Global, form: Form) -> Printer
        ensures form { form_of result ≡ form }
        ensures text { text_in result ≡ [] }
    {
        Printer {
            alloc,
            form,
            text: Vec::new(alloc),
            used: 0,
            offset: Offset::new(),
            calls: 0,
            failed: 0,
        }
    }

    /// Appends the verdict's line.
    ///
    /// # Errors
    /// `AllocError` when out of memory.
    pub fn verdict(&mut self, ended: Ended) -> Result<(), AllocError>
        ensures { OnOk result (text_in self.new ≡ text_in self.old ++ verdict_words ended) }
    {
        let place = make_room(&mut self.text, self.used, LINE_ROOM)?;
        let mut line = [0; LINE_ROOM];
        let from = verdict_line(ended, &mut line);
        self.used = put(&line[from..], self.text.as_mut_slice(), place);
        Ok(())
    }

    /// Appends the verdict's JSON object.
    ///
    /// # Errors
    /// `AllocError` when out of memory.
    pub fn verdict_object(&mut self, ended: Ended) -> Result<(), AllocError>
        ensures { OnOk result (text_in self.new ≡ text_in self.old ++ verdict_object ended) }
    {
        self.text.truncate(self.used);
        bt_json::verdict_line(self.alloc, ended, &mut self.text)?;
        self.used = self.text.len();
        Ok(())
    }

    /// Writes the text, which is then empty, and returns `answer`.
    ///
    /// # Errors
    /// `Write` if a write failed or took no byte; a prefix of the text is written then.
    pub fn flush<W: Target, T: Drop>(&mut self, writer: &mut W, answer: T) -> Result<T, ToolFault>
        ensures flushed { IsFlushed answer (text_in self.old) (W.seen writer.old).held (W.seen writer.new).held (text_in self.new) result }
        ensures failed { OnErr result (WriteFailed (W.seen writer.old) (W.seen writer.new)) }
        ensures calm { OnOk result ((W.seen writer.new).failed ≡ (W.seen writer.old).failed) }
        ensures form { form_of self.new ≡ form_of self.old }
        ensures fault { IfErr result (λ fault. fault ≡ ToolFault.Write) }
    {
        match write_out(writer, used_part(&self.text, self.used), answer) {
            Ok(answer) => {
                self.used = 0;
                Ok(answer)
            }
            Err(fault) => Err(fault),
        }
    }
}

impl Sink for Printer {
    ghost use Rattle.std.specs.Prelude.{◌≡◌};
    ghost use Rattle.bt_feed.specs.declared.sink.SinkFault.TheVariants as faults;
    ghost use Rattle.bt_jobs.specs.Printed.{Prints};

    ghost takes = { Prints };

    ghost misses = { λ _ _ fault _. fault ≡ faults.Memory };

    ghost calls = { λ p. p.calls };

    ghost failed = { λ p. p.failed };

    #[inline(always)]
    fn item(&mut self, at: u64, view: &View<'_>) -> Result<(), SinkFault> {
        self.calls = self.calls.saturating_add(1);
        let added = match self.form {
            Form::Show => push_item(at, view, &mut self.offset, &mut self.text, self.used),
            form => add_other(form, at, view, &mut self.offset, &mut self.text, self.used),
        };
        match added {
            Ok(used) => {
                self.used = used;
                Ok(())
            }
            Err(_) => {
                self.failed = self.failed.saturating_add(1);
                Err(SinkFault::Memory)
            }
        }
    }
}
