//! What `loop` prints on standard error at its end.
ghost use Rattle.bt_run.specs.Runs.{IsSaid};
ghost use Rattle.bt_cli.specs.Endings.{loop_complaint};

use bt_feed::Target;
use bt_loop::LoopEnd;
use bt_run::run::say;
use bt_text::ended::ToolFault;
use bt_text::lines::fault_line;

/// Writes on standard error what the end of a loop has to say there.
pub(crate) fn report_loop<E: Target>(end: Result<LoopEnd, ToolFault>, errors: &mut E)
    ensures { IsSaid (loop_complaint end) (E.seen errors.old) (E.seen errors.new) }
{
    match end {
        Ok(LoopEnd::Fetched | LoopEnd::Unfetched) => say(b"", errors),
        Ok(LoopEnd::BadSize) => say(b"refused size\n", errors),
        Err(fault) => say(fault_line(fault), errors),
    }
}
