//! The command `check`: only the verdict of a stream, or the stream's name and the verdict.
ghost use Rattle.std.specs.Prelude.{◌≡◌, ◌≢◌, ◌≤◌, ◌+◌, ◌^◌, ◌++◌, Err, IfErr};
ghost use Rattle.bt_io.specs.Seen.{devices, WriteFailed};
ghost use Rattle.bt_text.specs.Lines.{verdict_line as verdict_words};
ghost use Rattle.bt_jobs.specs.Printed.{IsWritten, IsWrittenOut, IsUnrefused, IsEndOfReads, nothing, checked, prefixed};

use crate::output::write_out;
use crate::show::MAX_READS;
use bt_feed::{Discard, Feed, PumpError, Source, Target, pump_with};
use bt_text::ended::{Ended, ToolFault};
use bt_text::lines::verdict_line;
use bt_wire::{Own, laws};
use std::alloc::Global;

/// Checks a stream and writes its verdict's line; returns the verdict.
///
/// `own` describes the receiver of the stream.
///
/// # Errors
/// `Read` if a read failed. `Write` if a write failed or took no byte. `Memory` when out of memory. `Turns` after 4,294,967,296
/// reads without the end.
pub fn run_check<R: Source, W: Target>(
    alloc: Global,
    reader: &mut R,
    writer: &mut W,
    own: &Own,
) -> Result<Ended, ToolFault>
    requires { (1 ≤ own.now.limit) × (own.now.limit ≤ 1048576) }
    ensures checked { IsWritten nothing checked own.now (devices (R.seen reader.old) (W.seen writer.old)) (devices (R.seen reader.new) (W.seen writer.new)) result }
    ensures faults { IsEndOfReads result (R.seen reader.old) (R.seen reader.new) }
    ensures write { result ≡ Err ToolFault.Write → WriteFailed (W.seen writer.old) (W.seen writer.new) }
    ensures reads { (R.seen reader.new).reads ≤ (R.seen reader.old).reads + 2 ^ 32 }
    ensures needed { (before : R) × IsUnrefused own.now (R.seen reader.old).left (R.seen before).left × ((R.seen reader.new).reads ≤ (R.seen before).reads + 1) }
    ensures calm { result ≢ Err ToolFault.Read → (R.seen reader.new).failed ≡ (R.seen reader.old).failed }
{
    run_check_after(alloc, b"", reader, writer, own)
}

/// Checks a stream, writes `prefix` and its verdict's line; returns the verdict.
///
/// `own` describes the receiver of the stream.
///
/// # Errors
/// `Read` if a read failed. `Write` if a write failed or took no byte. `Memory` when out of memory. `Turns` after 4,294,967,296
/// reads without the end.
#[inline(never)]
pub fn run_check_after<R: Source, W: Target>(
    alloc: Global,
    prefix: &[u8],
    reader: &mut R,
    writer: &mut W,
    own: &Own,
) -> Result<Ended, ToolFault>
    requires { (1 ≤ own.now.limit) × (own.now.limit ≤ 1048576) }
    ensures checked { IsWritten nothing (prefixed prefix.now) own.now (devices (R.seen reader.old) (W.seen writer.old)) (devices (R.seen reader.new) (W.seen writer.new)) result }
    ensures faults { IsEndOfReads result (R.seen reader.old) (R.seen reader.new) }
    ensures write { result ≡ Err ToolFault.Write → WriteFailed (W.seen writer.old) (W.seen writer.new) }
    ensures reads { (R.seen reader.new).reads ≤ (R.seen reader.old).reads + 2 ^ 32 }
    ensures needed { (before : R) × IsUnrefused own.now (R.seen reader.old).left (R.seen before).left × ((R.seen reader.new).reads ≤ (R.seen before).reads + 1) }
    ensures calm { result ≢ Err ToolFault.Read → (R.seen reader.new).failed ≡ (R.seen reader.old).failed }
{
    laws::one_verdict();
    let Ok(mut feed) = Feed::new(alloc, *own) else {
        return Err(ToolFault::Memory);
    };
    let mut buffer = [0; 65536];
    match pump_with(
        reader,
        &mut feed,
        &mut Discard::new(),
        MAX_READS,
        &mut buffer,
    ) {
        Ok(bytes) => {
            let messages = feed.number() - 1;
            say_after(prefix, writer, Ended::Accepted { messages, bytes })
        }
        Err(PumpError::Refused(refusal)) => say_after(prefix, writer, Ended::Refused(refusal)),
        Err(PumpError::Turns) => Err(ToolFault::Turns),
        Err(PumpError::ReadFault) => Err(ToolFault::Read),
        Err(PumpError::Sink(_)) => unreachable!(),
    }
}

/// Writes `prefix` and the verdict's line, and returns the verdict.
fn say_after<W: Target>(prefix: &[u8], writer: &mut W, ended: Ended) -> Result<Ended, ToolFault>
    ensures written { IsWrittenOut ended (prefix.now ++ verdict_words ended) (W.seen writer.old).held (W.seen writer.new).held result }
    ensures fault { IfErr result (λ fault. (fault ≡ ToolFault.Write) × WriteFailed (W.seen writer.old) (W.seen writer.new)) }
{
    let mut line = [0; 160];
    let place = verdict_line(ended, &mut line);
    match write_out(writer, prefix, ()) {
        Ok(()) => write_out(writer, &line[place..], ended),
        Err(fault) => Err(fault),
    }
}
