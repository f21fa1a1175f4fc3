//! The command `link`: what it prints on standard error at its end.
ghost use Rattle.std.specs.Prelude.{◌≡◌};
ghost use Rattle.bt_run.specs.Runs.{IsSaid};
ghost use Rattle.bt_cli.specs.Endings.{link_complaint, unrun_line as unrun_words};

use bt_feed::Target;
use bt_link::RigEnd;
use bt_run::run::{say, say_refused};
use bt_session::{EndError, LinkError};
use bt_text::ended::{ScriptReason, ToolFault};
use bt_text::lines::fault_line;

/// Returns the line on why a link isn't run.
fn unrun_line(error: LinkError) -> &'static [u8]
    ensures { result.now ≡ unrun_words error }
{
    match error {
        LinkError::ConfigMismatch => b"refused config ConfigMismatch\n",
        LinkError::End(EndError::BadLimit) => b"refused config BadLimit\n",
        LinkError::End(EndError::BadConfig) => b"refused config BadConfig\n",
        LinkError::End(EndError::BadSize) => b"refused config BadSize\n",
        LinkError::End(EndError::Memory) => b"refused config Memory\n",
        LinkError::TooManySteps => b"refused config TooManySteps\n",
        LinkError::Memory => b"refused config Memory\n",
    }
}

/// Writes on standard error why a link isn't run.
fn say_unrun<E: Target>(error: LinkError, errors: &mut E)
    ensures { IsSaid (unrun_words error) (E.seen errors.old) (E.seen errors.new) }
{
    say(unrun_line(error), errors);
}

/// Writes on standard error what the end of a link has to say there.
pub(crate) fn report_link<E: Target>(end: Result<RigEnd, ToolFault>, errors: &mut E)
    ensures { IsSaid (link_complaint end) (E.seen errors.old) (E.seen errors.new) }
{
    match end {
        Ok(RigEnd::Ran) => say(b"", errors),
        Ok(RigEnd::Syntax { line }) => say_refused(line, ScriptReason::Syntax, errors),
        Ok(RigEnd::Size) => say(b"refused size\n", errors),
        Ok(RigEnd::Unrun(error)) => say_unrun(error, errors),
        Err(fault) => say(fault_line(fault), errors),
    }
}
