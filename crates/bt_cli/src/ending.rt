//! What the program prints at the end of a link and of a loop, and its exit status.
//!
//! The ends of other jobs are in `bt_run`. As there, `prefix` comes before the line of a failed read, and `is_gone` says that
//! a write failed since the output pipe is closed.
ghost use Rattle.std.specs.Prelude.{◌≡◌};
ghost use Rattle.bt_run.specs.Runs.{IsSaid};
ghost use Rattle.bt_cli.specs.Endings.{link_status as link_status_by_rule, link_words, loop_status as loop_status_by_rule, loop_words};

use crate::link::report_link;
use crate::looped::report_loop;
use bt_feed::Target;
use bt_link::{RigEnd, status as link_status};
use bt_loop::{LoopEnd, status as loop_status};
pub use bt_run::ending::{end_by_fault, end_job, end_text, say_both};
use bt_text::ended::ToolFault;

/// Says the end of a link on standard error, and returns the exit status.
pub fn end_link<E: Target>(
    end: Result<RigEnd, ToolFault>,
    prefix: &[u8],
    is_gone: bool,
    errors: &mut E,
) -> u8
    ensures said { IsSaid (link_words is_gone prefix.now end) (E.seen errors.old) (E.seen errors.new) }
    ensures status { result ≡ link_status_by_rule is_gone end }
{
    match end {
        Ok(_) => {
            report_link(end, errors);
            link_status(&end)
        }
        Err(fault) => end_by_fault(fault, prefix, is_gone, errors),
    }
}

/// Says the end of a loop on standard error, and returns the exit status.
pub fn end_loop<E: Target>(end: Result<LoopEnd, ToolFault>, is_gone: bool, errors: &mut E) -> u8
    ensures said { IsSaid (loop_words is_gone end) (E.seen errors.old) (E.seen errors.new) }
    ensures status { result ≡ loop_status_by_rule is_gone end }
{
    match end {
        Ok(_) => {
            report_loop(end, errors);
            loop_status(&end)
        }
        Err(fault) => end_by_fault(fault, b"", is_gone, errors),
    }
}
