//! The commands `show`, `show --json` and `unpack`: the text of a stream's items, and its verdict.
ghost use Rattle.std.specs.Prelude.{◌≡◌, ◌≢◌, ◌+◌, ◌-◌, ◌≤◌, ◌^◌, ◌<◌, ℕ, List, [], ◌++◌, length, OnOk, Err};
ghost use Rattle.bt_io.specs.Seen.{devices, WriteFailed};
ghost use Rattle.bt_wire.specs.declared.item.Item.{Item};
ghost use Rattle.bt_jobs.specs.declared.printer.Form.TheVariants as shape;
ghost use Rattle.bt_json.specs.Objects.{lines_of as json_lines_of};
ghost use Rattle.bt_text.specs.Lines.{lines_of};
ghost use Rattle.bt_jobs.specs.Printed.{IsWritten, IsUnrefused, IsReadTo, so_far, turn_end, IsTurn, IsEndOfReads, IsEndOfTurn, form_of, text_in, items_in, all_in, verdict_of, unpacked};

use crate::printer::{Form, Printer};
use bt_feed::{Feed, PumpError, Source, Target, pump_with};
use bt_text::ended::{Ended, ToolFault};
use bt_wire::{Own, laws};
use std::alloc::{AllocError, Global};

/// The greatest number of reads that a command makes.
pub const MAX_READS: u64 = 1 << 32;

/// Reads once into the buffer, and writes the text of the items that the read completes. At the stream's end it returns how
/// the stream ends.
fn turn<R: Source, W: Target>(
    reader: &mut R,
    feed: &mut Feed,
    printer: &mut Printer,
    writer: &mut W,
    buffer: &mut [u8],
) -> Result<Option<Ended>, ToolFault>
    requires { 0 < length buffer.old }
    ensures faults { IsEndOfTurn result (R.seen reader.old) (R.seen reader.new) }
    ensures write { result ≡ Err ToolFault.Write → WriteFailed (W.seen writer.old) (W.seen writer.new) }
    ensures calm { OnOk result ((W.seen writer.new).failed ≡ (W.seen writer.old).failed) }
    ensures reads { (R.seen reader.new).reads ≤ (R.seen reader.old).reads + 1 }
    ensures unfailed { result ≢ Err ToolFault.Read → (R.seen reader.new).failed ≡ (R.seen reader.old).failed }
    ensures told { (own : Own) (b : List ℕ) (xs : List (ℕ × Item)) → own.limit ≤ 1048576 → IsReadTo own b xs feed.old → text_in printer.old ≡ []
        → IsTurn (form_of printer.old) own (so_far b xs) (devices (R.seen reader.old) (W.seen writer.old))
        (turn_end (devices (R.seen reader.new) (W.seen writer.new)) feed.new printer.new) result }
{
    laws::one_verdict();
    match pump_with(reader, feed, printer, 1, buffer) {
        Ok(bytes) => {
            let messages = feed.number() - 1;
            printer.flush(writer, Some(Ended::Accepted { messages, bytes }))
        }
        Err(PumpError::Refused(refusal)) => printer.flush(writer, Some(Ended::Refused(refusal))),
        Err(PumpError::Turns) => printer.flush(writer, None),
        Err(PumpError::ReadFault) => Err(ToolFault::Read),
        Err(PumpError::Sink(_)) => Err(ToolFault::Memory),
    }
}

/// Reads the stream to its end, and writes the text of its items after each read.
#[inline(never)]
fn tell<R: Source, W: Target>(
    alloc: Global,
    reader: &mut R,
    printer: &mut Printer,
    writer: &mut W,
    own: &Own,
) -> Result<Ended, ToolFault>
    requires limit { (1 ≤ own.now.limit) × (own.now.limit ≤ 1048576) }
    requires empty { text_in printer.old ≡ [] }
    ensures told { IsWritten (items_in (form_of printer.old) own.now) (items_in (form_of printer.old) own.now) own.now (devices (R.seen reader.old) (W.seen writer.old)) (devices (R.seen reader.new) (W.seen writer.new)) result }
    ensures empty { OnOk result (text_in printer.new ≡ []) }
    ensures reads { (R.seen reader.new).reads ≤ (R.seen reader.old).reads + 2 ^ 32 }
    ensures needed { (before : R) × IsUnrefused own.now (R.seen reader.old).left (R.seen before).left × ((R.seen reader.new).reads ≤ (R.seen before).reads + 1) }
    ensures unfailed { result ≢ Err ToolFault.Read → (R.seen reader.new).failed ≡ (R.seen reader.old).failed }
    ensures calm { OnOk result ((W.seen writer.new).failed ≡ (W.seen writer.old).failed) }
    ensures faults { IsEndOfReads result (R.seen reader.old) (R.seen reader.new) }
    ensures write { result ≡ Err ToolFault.Write → WriteFailed (W.seen writer.old) (W.seen writer.new) }
{
    laws::one_verdict();
    let Ok(mut feed) = Feed::new(alloc, *own) else {
        return Err(ToolFault::Memory);
    };
    let mut buffer = [0; 65536];
    for _turn in 0..MAX_READS {
        match turn(reader, &mut feed, printer, writer, &mut buffer) {
            Ok(None) => {}
            Ok(Some(ended)) => return Ok(ended),
            Err(fault) => return Err(fault),
        }
    }
    Err(ToolFault::Turns)
}

/// Adds the text that a verdict has in this form.
fn push_verdict(printer: &mut Printer, form: &Form, ended: Ended) -> Result<(), AllocError>
    ensures { OnOk result (text_in printer.new ≡ text_in printer.old ++ verdict_of form.now ended) }
{
    match form {
        Form::Show => printer.verdict(ended),
        Form::Json => printer.verdict_object(ended),
        Form::Unpack(_) => Ok(()),
    }
}

/// Writes the text of each item in this form, and then that of the verdict.
///
/// It returns the verdict. Its errors are those of [`run_show`].
fn run_form<R: Source, W: Target>(
    alloc: Global,
    form: &Form,
    reader: &mut R,
    writer: &mut W,
    own: &Own,
) -> Result<Ended, ToolFault>
    requires { (1 ≤ own.now.limit) × (own.now.limit ≤ 1048576) }
    ensures unfailed { result ≢ Err ToolFault.Read → (R.seen reader.new).failed ≡ (R.seen reader.old).failed }
    ensures reads { (R.seen reader.new).reads ≤ (R.seen reader.old).reads + 2 ^ 32 }
    ensures needed { (before : R) × IsUnrefused own.now (R.seen reader.old).left (R.seen before).left × ((R.seen reader.new).reads ≤ (R.seen before).reads + 1) }
    ensures shown { IsWritten (items_in form.now own.now) (all_in form.now own.now) own.now (devices (R.seen reader.old) (W.seen writer.old)) (devices (R.seen reader.new) (W.seen writer.new)) result }
    ensures faults { IsEndOfReads result (R.seen reader.old) (R.seen reader.new) }
    ensures write { result ≡ Err ToolFault.Write → WriteFailed (W.seen writer.old) (W.seen writer.new) }
{
    laws::one_verdict();
    let mut printer = Printer::new(alloc, *form);
    match tell(alloc, reader, &mut printer, writer, own) {
        Ok(ended) => match push_verdict(&mut printer, form, ended) {
            Ok(()) => printer.flush(writer, ended),
            Err(_) => Err(ToolFault::Memory),
        },
        Err(fault) => Err(fault),
    }
}

/// Writes a line for each item and then the verdict's line; returns the verdict.
///
/// The lines of what was read are written before more is read. `own` describes the receiver of the stream.
///
/// # Errors
/// `Read` if a read failed. `Write` if a write failed or took no byte. `Memory` when out of memory. `Turns` after 4,294,967,296
/// reads without the end.
pub fn run_show<R: Source, W: Target>(
    alloc: Global,
    reader: &mut R,
    writer: &mut W,
    own: &Own,
) -> Result<Ended, ToolFault>
    requires { (1 ≤ own.now.limit) × (own.now.limit ≤ 1048576) }
    ensures unfailed { result ≢ Err ToolFault.Read → (R.seen reader.new).failed ≡ (R.seen reader.old).failed }
    ensures reads { (R.seen reader.new).reads ≤ (R.seen reader.old).reads + 2 ^ 32 }
    ensures needed { (before : R) × IsUnrefused own.now (R.seen reader.old).left (R.seen before).left × ((R.seen reader.new).reads ≤ (R.seen before).reads + 1) }
    ensures shown { IsWritten (items_in shape.Show own.now) (lines_of own.now) own.now (devices (R.seen reader.old) (W.seen writer.old)) (devices (R.seen reader.new) (W.seen writer.new)) result }
    ensures faults { IsEndOfReads result (R.seen reader.old) (R.seen reader.new) }
    ensures write { result ≡ Err ToolFault.Write → WriteFailed (W.seen writer.old) (W.seen writer.new) }
{
    run_form(alloc, &Form::Show, reader, writer, own)
}

/// Writes a JSON object for each item and for the verdict; returns the verdict.
///
/// Each has a line of its own. The objects of what was read are written before more is read. `own` describes the receiver of the
/// stream.
///
/// # Errors
/// `Read` if a read failed. `Write` if a write failed or took no byte. `Memory` when out of memory. `Turns` after 4,294,967,296
/// reads without the end.
pub fn run_json<R: Source, W: Target>(
    alloc: Global,
    reader: &mut R,
    writer: &mut W,
    own: &Own,
) -> Result<Ended, ToolFault>
    requires { (1 ≤ own.now.limit) × (own.now.limit ≤ 1048576) }
    ensures unfailed { result ≢ Err ToolFault.Read → (R.seen reader.new).failed ≡ (R.seen reader.old).failed }
    ensures reads { (R.seen reader.new).reads ≤ (R.seen reader.old).reads + 2 ^ 32 }
    ensures needed { (before : R) × IsUnrefused own.now (R.seen reader.old).left (R.seen before).left × ((R.seen reader.new).reads ≤ (R.seen before).reads + 1) }
    ensures shown { IsWritten (items_in shape.Json own.now) (json_lines_of own.now) own.now (devices (R.seen reader.old) (W.seen writer.old)) (devices (R.seen reader.new) (W.seen writer.new)) result }
    ensures faults { IsEndOfReads result (R.seen reader.old) (R.seen reader.new) }
    ensures write { result ≡ Err ToolFault.Write → WriteFailed (W.seen writer.old) (W.seen writer.new) }
{
    run_form(alloc, &Form::Json, reader, writer, own)
}

/// Writes the script of a stream's items, and returns the verdict.
///
/// The script goes up to the end of the stream or a refusal. `own` describes the receiver of the stream.
///
/// # Errors
/// `Read` if a read failed. `Write` if a write failed or took no byte. `Memory` when out of memory. `Turns` after 4,294,967,296
/// reads without the end.
pub fn run_unpack<R: Source, W: Target>(
    alloc: Global,
    reader: &mut R,
    writer: &mut W,
    own: &Own,
) -> Result<Ended, ToolFault>
    requires { (1 ≤ own.now.limit) × (own.now.limit ≤ 1048576) }
    ensures unfailed { result ≢ Err ToolFault.Read → (R.seen reader.new).failed ≡ (R.seen reader.old).failed }
    ensures reads { (R.seen reader.new).reads ≤ (R.seen reader.old).reads + 2 ^ 32 }
    ensures needed { (before : R) × IsUnrefused own.now (R.seen reader.old).left (R.seen before).left × ((R.seen reader.new).reads ≤ (R.seen before).reads + 1) }
    ensures unpacked { IsWritten (unpacked own.now) (unpacked own.now) own.now (devices (R.seen reader.old) (W.seen writer.old)) (devices (R.seen reader.new) (W.seen writer.new)) result }
    ensures faults { IsEndOfReads result (R.seen reader.old) (R.seen reader.new) }
    ensures write { result ≡ Err ToolFault.Write → WriteFailed (W.seen writer.old) (W.seen writer.new) }
{
    let mut printer = Printer::new(alloc, Form::Unpack(*own));
    tell(alloc, reader, &mut printer, writer, own)
}
