//! What the program prints at its end, and its exit status.
//!
//! `prefix` comes before the line of a failed read: the input's name, or nothing for standard input.
//! `is_gone` says that a write failed since the output pipe is closed. The program prints nothing then, as other tools of a
//! shell do.
ghost use Rattle.std.specs.Prelude.{◌≡◌, ◌++◌};
ghost use Rattle.bt_run.specs.Runs.{IsSaid, fault_in};
ghost use Rattle.bt_run.specs.Endings.{fault_status, fault_words, job_status, job_words, text_status, text_words};

use crate::commands::Job;
use crate::run::{JobEnd, exit_status, report, say};
use bt_feed::Target;
use bt_jobs::output::write_out;
use bt_text::ended::ToolFault;
use bt_text::lines::fault_line;

/// The exit status if the output pipe is closed, as after SIGPIPE.
const CUT: u8 = 141;

/// Writes two texts on standard error, as far as it takes them.
pub fn say_both<E: Target>(prefix: &[u8], text: &[u8], errors: &mut E)
    ensures { IsSaid (prefix.now ++ text.now) (E.seen errors.old) (E.seen errors.new) }
{
    match write_out(errors, prefix, ()) {
        Ok(()) => say(text, errors),
        Err(_) => {}
    }
}

/// Prints which fault ended the program, and returns the exit status.
pub fn end_by_fault<E: Target>(fault: ToolFault, prefix: &[u8], is_gone: bool, errors: &mut E) -> u8
    ensures said { IsSaid (fault_words is_gone prefix.now fault) (E.seen errors.old) (E.seen errors.new) }
    ensures status { result ≡ fault_status is_gone fault }
{
    match fault {
        ToolFault::Write if is_gone => {
            say(b"", errors);
            CUT
        }
        ToolFault::Read => {
            say_both(prefix, fault_line(fault), errors);
            3
        }
        _ => {
            say(fault_line(fault), errors);
            3
        }
    }
}

/// Returns the fault that ended a job, if one did.
fn fault_of(end: JobEnd) -> Option<ToolFault>
    ensures { result ≡ fault_in end }
{
    match end {
        JobEnd::Stream(end) => end.err(),
        JobEnd::Script(end) => end.err(),
    }
}

/// Prints on standard error what a command's end asks for; returns the status.
pub fn end_job<E: Target>(job: Job, end: JobEnd, prefix: &[u8], is_gone: bool, errors: &mut E) -> u8
    ensures said { IsSaid (job_words is_gone prefix.now job end) (E.seen errors.old) (E.seen errors.new) }
    ensures status { result ≡ job_status is_gone end }
{
    match fault_of(end) {
        Some(fault) => end_by_fault(fault, prefix, is_gone, errors),
        None => {
            report(job, end, errors);
            exit_status(end)
        }
    }
}

/// Prints why a text wasn't printed, if it wasn't, and returns the exit status.
pub fn end_text<E: Target>(end: Result<(), ToolFault>, is_gone: bool, errors: &mut E) -> u8
    ensures said { IsSaid (text_words is_gone end) (E.seen errors.old) (E.seen errors.new) }
    ensures status { result ≡ text_status is_gone end }
{
    match end {
        Ok(()) => {
            say(b"", errors);
            0
        }
        Err(failed) => end_by_fault(failed, b"", is_gone, errors),
    }
}
