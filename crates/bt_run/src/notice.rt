//! Texts that are printed in place of a command's output.
ghost use Rattle.std.specs.Prelude.{◌≡◌};
ghost use Rattle.bt_run.specs.Runs.{IsSaid};

use crate::commands::{Notice, status_of};
use crate::run::say;
use bt_feed::Target;

/// Prints what is wrong with the arguments, and returns the exit status, 2.
pub fn refuse_words<E: Target>(text: &str, errors: &mut E) -> u8
    ensures said { IsSaid text.now (E.seen errors.old) (E.seen errors.new) }
    ensures status { result ≡ 2 }
{
    say(text.as_bytes(), errors);
    status_of(Notice::Usage)
}
