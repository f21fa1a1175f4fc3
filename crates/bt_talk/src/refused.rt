//! The verdicts of a stream, and what is there of the messages that they refuse.
ghost use Rattle.std.specs.Prelude.{◌≤◌, ℕ, List, Option};
ghost use Rattle.bt_judge.specs.Judges.{AreJudged};
ghost use Rattle.bt_judge.specs.Readings.{IsUnread, IsTold};
ghost use Rattle.bt_wire.specs.declared.context.Own.{Own};
ghost use Rattle.bt_wire.specs.declared.item.Item.{Item};
ghost use Rattle.bt_wire.specs.declared.item.Refusal.{Refusal};
ghost use Rattle.bt_talk.specs.Refusals.{IsMessageOf, AreExplained};

use bt_judge::{Judge, Unread};
use bt_rows::RefusedMessage;
use bt_text::ended::Ended;

/// The verdicts of a stream by both rule sets, and what is there of the messages that they refuse.
#[derive(Clone, Copy)]
pub struct Judgement {
    /// The verdict by the lenient rules.
    pub free: Ended,
    /// The verdict by the strict rules.
    pub bep: Ended,
    /// The message that the lenient rules refuse, if they refuse one.
    pub free_message: Option<RefusedMessage>,
    /// The message that the strict rules refuse, if they refuse one.
    pub bep_message: Option<RefusedMessage>,
}

/// Returns what is there of the message with which a stream ends so, if it is refused.
fn message_of(unread: &Unread, ended: &Ended) -> Option<RefusedMessage>
    ensures { (own : Own) (b : List ℕ) (xs : List (ℕ × Item)) (refused : Option Refusal) → own.limit ≤ 1048576
        → IsUnread own b xs refused unread.now.start unread.now.bytes.now → IsTold own b xs ended.now → IsMessageOf own b ended.now result }
{
    match ended {
        Ended::Accepted { .. } => None,
        Ended::Refused(refusal) => {
            Some(RefusedMessage::of(unread.start, unread.bytes, refusal.at))
        }
    }
}

/// Returns the verdicts of a stream, if it ends here, and what is there of the messages that they refuse.
pub(crate) fn judgement_of(judge: &Judge) -> Judgement
    ensures { (own : Own) (b : List ℕ) (xs ys : List (ℕ × Item)) → AreJudged own b xs ys judge.now → AreExplained own b xs ys result }
{
    let verdicts = judge.ended();
    let unread = judge.unread();
    Judgement {
        free: verdicts.free,
        bep: verdicts.bep,
        free_message: message_of(&unread.free, &verdicts.free),
        bep_message: message_of(&unread.bep, &verdicts.bep),
    }
}
