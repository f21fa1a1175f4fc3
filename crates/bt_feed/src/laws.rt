//! Theorems about the definitions. Each is the contract of a function with an empty body, except `closed_has_ended`.
ghost use Rattle.std.specs.Prelude.{◌≡◌, ◌≤◌, true};
ghost use Rattle.bt_feed.specs.Stages.{limit_of, is_closed};
ghost use Rattle.bt_feed.specs.Progress.{IsPartial};
ghost use Rattle.bt_feed.specs.Laws.{IsEnded, EndedIsClosed, ClosedStays, TakenIsLeast, PushesJoin, AnswerIsOne, ItemComes, FaultComes, OpenComes, OutcomeIsOne, FinishIsVerdict};

use crate::stage::Stage;

/// States that bytes that encode an item or have a fault are closed, and stay so.
pub fn ended_is_closed()
    ensures ended { EndedIsClosed }
    ensures stays { ClosedStays }
{}

/// States that closed bytes encode a legal item or have a fault.
///
/// The bytes are those of one item, up to the first with which they are closed. The function finds which of both, and keeps
/// nothing.
pub fn closed_has_ended(stage: &Stage, held: &[u8])
    requires limit { limit_of stage.now ≤ 1048576 }
    requires partial { IsPartial stage.now held.now }
    ensures { is_closed stage.now held.now ≡ true → IsEnded stage.now held.now }
{
    let _ = stage.judge(held);
}

/// States that a push takes the fewest bytes with which the item is closed.
///
/// Two pushes leave what one push of the joined bytes leaves.
pub fn pushes()
    ensures least { TakenIsLeast }
    ensures join { PushesJoin }
{}

/// States that a feed has one answer.
pub fn one_answer()
    ensures { AnswerIsOne }
{}

/// States what comes of the buffered bytes and those that follow.
///
/// It is an item and what comes after it, a refusal, or nothing yet; and at the end of the stream what `finish` returns.
pub fn outcomes()
    ensures item { ItemComes }
    ensures fault { FaultComes }
    ensures waiting { OpenComes }
    ensures one { OutcomeIsOne }
    ensures finish { FinishIsVerdict }
{}
