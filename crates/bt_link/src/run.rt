//! A script that is read, run and reported.
ghost use Rattle.std.specs.Prelude.{◌≡◌, ◌<◌, ◌^◌, length, IfOk, IfErr};
ghost use Rattle.bt_io.specs.Seen.{devices};
ghost use Rattle.bt_link.specs.Runs.{
  IsInput,
  IsRunOf,
  IsFinished,
  IsWritten,
  IsPrinted,
  IsTextRun,
  IsRigRun,
  status_of,
};
ghost use Rattle.bt_session.specs.Reports.{IsUnrun};

use crate::report::push_report;
use crate::script::{Script, read_script};
use bt_io::{Source, Target, write_front};
use bt_session::{LinkError, LinkReport, run_link};
use bt_text::ended::ToolFault;
use std::alloc::Global;

/// The greatest length of a script in bytes.
pub const MAX_SCRIPT: usize = 16_777_216;

/// How a run of a script ended.
#[derive(Clone, Copy, PartialEq, Eq, Debug)]
pub enum RigEnd {
    /// The script was run, and its report is written.
    Ran,
    /// The line `line` is the first that is none or may not stand there.
    ///
    /// Lines are counted from 1.
    Syntax { line: u64 },
    /// The script has more than `MAX_SCRIPT` bytes.
    Size,
    /// The script wasn't run: its configs don't match, or an end can't be made.
    Unrun(LinkError),
}

/// Reads the whole input, if it isn't too long.
fn read_input<R: Source>(alloc: Global, reader: &mut R) -> Result<Option<Vec<u8>>, ToolFault>
    ensures { IsInput (R.seen reader.old) (R.seen reader.new) result }
{
    let mut text = Vec::new(alloc);
    let mut buffer = [0; 65536];
    'reads: loop {
        match reader.read(&mut buffer) {
            Ok(0) => return Ok(Some(text)),
            Ok(count) => {
                match text.extend_from_slice(&buffer[..count]) {
                    Ok(()) => {
                        if text.len() > MAX_SCRIPT {
                            return Ok(None);
                        }
                    }
                    Err(_) => return Err(ToolFault::Memory),
                }
            }
            Err(_) => return Err(ToolFault::Read),
        }
    }
}

/// Runs the link of a script.
fn run_script(alloc: Global, script: Script) -> Result<LinkReport, LinkError>
    ensures run { IfOk result (IsRunOf script) }
    ensures unrun { IfErr result (λ e. IsUnrun script.left script.right script.steps.items e) }
{
    let Script { left, right, steps } = script;
    run_link(alloc, left, right, steps.as_slice())
}

/// Writes the bytes.
fn write_all<W: Target>(writer: &mut W, bytes: &[u8]) -> Result<RigEnd, ToolFault>
    ensures { IsWritten bytes.now (W.seen writer.old) (W.seen writer.new) result }
{
    if write_front(writer, bytes) < bytes.len() {
        return Err(ToolFault::Write);
    }
    Ok(RigEnd::Ran)
}

/// Writes the lines of a report.
fn print<W: Target>(alloc: Global, report: &LinkReport, writer: &mut W) -> Result<RigEnd, ToolFault>
    ensures { IsPrinted report.now (W.seen writer.old) (W.seen writer.new) result }
{
    let mut text = Vec::new(alloc);
    match push_report(report, &mut text) {
        Ok(()) => write_all(writer, text.as_slice()),
        Err(_) => Err(ToolFault::Memory),
    }
}

/// Runs the link of a script, and writes its report.
fn finish<W: Target>(alloc: Global, script: Script, writer: &mut W) -> Result<RigEnd, ToolFault>
    ensures { IsFinished script (W.seen writer.old) (W.seen writer.new) result }
{
    match run_script(alloc, script) {
        Ok(report) => print(alloc, &report, writer),
        Err(LinkError::Memory) => Err(ToolFault::Memory),
        Err(error) => Ok(RigEnd::Unrun(error)),
    }
}

/// Runs the link of a script, which is given as its text, and writes what came of it.
fn run_text<W: Target>(alloc: Global, text: &[u8], writer: &mut W) -> Result<RigEnd, ToolFault>
    requires { length text.now < 2 ^ 32 }
    ensures { IsTextRun text.now (W.seen writer.old) (W.seen writer.new) result }
{
    match read_script(alloc, text) {
        Ok(Ok(script)) => finish(alloc, script, writer),
        Ok(Err(line)) => Ok(RigEnd::Syntax { line }),
        Err(_) => Err(ToolFault::Memory),
    }
}

/// Reads a script to its end, runs it, and writes its report.
///
/// A script that isn't run is no error: [`RigEnd`] says why.
///
/// # Errors
/// `Read` if a read failed. `Write` if a write failed or took no byte. `Memory` when out of memory. After `Write` a prefix of the
/// report is written, after the others nothing.
pub fn run_rig<R: Source, W: Target>(
    alloc: Global,
    reader: &mut R,
    writer: &mut W,
) -> Result<RigEnd, ToolFault>
    ensures { IsRigRun (devices (R.seen reader.old) (W.seen writer.old)) (devices (R.seen reader.new) (W.seen writer.new)) result }
{
    match read_input(alloc, reader) {
        Ok(Some(text)) => run_text(alloc, text.as_slice(), writer),
        Ok(None) => Ok(RigEnd::Size),
        Err(fault) => Err(fault),
    }
}

/// Returns the exit status of a run.
///
/// It is 0 if the script was run, 1 if it wasn't, and 3 after a fault.
pub fn status(end: &Result<RigEnd, ToolFault>) -> u8
    ensures { result ≡ status_of end.now }
{
    match end {
        Ok(RigEnd::Ran) => 0,
        Ok(RigEnd::Syntax { .. } | RigEnd::Size | RigEnd::Unrun(_)) => 1,
        Err(_) => 3,
    }
}
