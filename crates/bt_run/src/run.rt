//! A command on any source and target: what it writes, what standard error gets, and the exit status.
ghost use Rattle.std.specs.Prelude.{◌≡◌, ◌≢◌, ◌≤◌, ◌+◌, ◌^◌, Some};
ghost use Rattle.bt_io.specs.Seen.{devices, WriteFailed};
ghost use Rattle.bt_text.specs.Lines.{verdict_line as verdict_words, refused_line as refused_words};
ghost use Rattle.bt_run.specs.Commands.{HasLimit};
ghost use Rattle.bt_run.specs.Runs.{IsDone, IsEndOfInput, IsSaid, complaint, exit_status_of, fault_in};

use crate::commands::{Job, pack_status, status};
use bt_feed::{Source, Target};
use bt_jobs::output::write_out;
use bt_jobs::{run_check, run_json, run_pack, run_show, run_unpack};
use bt_text::ended::{Ended, PackEnd, ScriptReason, ToolFault};
use bt_text::lines::{fault_line, refused_line, verdict_line};
use bt_wire::Own;
use std::alloc::Global;

/// How a command ended.
#[derive(Clone, Copy, PartialEq, Eq, Debug)]
pub enum JobEnd {
    /// The end of `show`, `check` or `unpack`.
    Stream(Result<Ended, ToolFault>),
    /// The end of `pack`.
    Script(Result<PackEnd, ToolFault>),
}

/// Runs a command for the receiver `own`.
///
/// It reads `reader`, and writes the command's output on `writer`.
pub fn do_job<R: Source, W: Target>(
    alloc: Global,
    job: Job,
    own: &Own,
    reader: &mut R,
    writer: &mut W,
) -> JobEnd
    requires { HasLimit own.now }
    ensures done { IsDone job own.now (devices (R.seen reader.old) (W.seen writer.old)) (devices (R.seen reader.new) (W.seen writer.new)) result }
    ensures input { IsEndOfInput result (R.seen reader.old) (R.seen reader.new) }
    ensures write { fault_in result ≡ Some ToolFault.Write → WriteFailed (W.seen writer.old) (W.seen writer.new) }
    ensures reads { (R.seen reader.new).reads ≤ (R.seen reader.old).reads + 2 ^ 32 }
    ensures unfailed { fault_in result ≢ Some ToolFault.Read → (R.seen reader.new).failed ≡ (R.seen reader.old).failed }
{
    match job {
        Job::Show => JobEnd::Stream(run_show(alloc, reader, writer, own)),
        Job::Json => JobEnd::Stream(run_json(alloc, reader, writer, own)),
        Job::Check => JobEnd::Stream(run_check(alloc, reader, writer, own)),
        Job::Unpack => JobEnd::Stream(run_unpack(alloc, reader, writer, own)),
        Job::Pack => JobEnd::Script(run_pack(alloc, reader, writer, own)),
    }
}

/// Writes a text on standard error, as far as it takes it.
pub fn say<E: Target>(text: &[u8], errors: &mut E)
    ensures { IsSaid text.now (E.seen errors.old) (E.seen errors.new) }
{
    match write_out(errors, text, ()) {
        Ok(()) => {}
        Err(_) => {}
    }
}

/// Writes the verdict's line on standard error.
fn say_verdict<E: Target>(ended: Ended, errors: &mut E)
    ensures { IsSaid (verdict_words ended) (E.seen errors.old) (E.seen errors.new) }
{
    let mut line = [0; 160];
    let place = verdict_line(ended, &mut line);
    say(&line[place..], errors);
}

/// Prints on standard error which line of a script is refused, and why.
///
/// `number` is counted from 1.
pub fn say_refused<E: Target>(number: u64, reason: ScriptReason, errors: &mut E)
    ensures { IsSaid (refused_words number reason) (E.seen errors.old) (E.seen errors.new) }
{
    let mut line = [0; 160];
    let place = refused_line(number, reason, &mut line);
    say(&line[place..], errors);
}

/// Prints on standard error what a command's end asks for.
pub(crate) fn report<E: Target>(job: Job, end: JobEnd, errors: &mut E)
    ensures { IsSaid (complaint job end) (E.seen errors.old) (E.seen errors.new) }
{
    match (job, end) {
        (_, JobEnd::Stream(Err(fault)) | JobEnd::Script(Err(fault))) => {
            say(fault_line(fault), errors);
        }
        (Job::Unpack, JobEnd::Stream(Ok(Ended::Refused(refusal)))) => {
            say_verdict(Ended::Refused(refusal), errors);
        }
        (_, JobEnd::Script(Ok(PackEnd::Refused { line, reason }))) => {
            say_refused(line, reason, errors);
        }
        _ => say(b"", errors),
    }
}

/// Returns the exit status for a command's end.
pub fn exit_status(end: JobEnd) -> u8
    ensures { result ≡ exit_status_of end }
{
    match end {
        JobEnd::Stream(end) => status(&end),
        JobEnd::Script(end) => pack_status(&end),
    }
}
