//! A stream that ends inside an item, though nothing cut it.
ghost use Rattle.std.specs.Prelude.{◌≡◌};
ghost use Rattle.bt_talk.specs.Inside.{inside_in as inside_of, inside_by};

use crate::refused::Judgement;
use bt_tcp::Gap;
use bt_text::ended::Ended;
use bt_wire::{Reason, Refusal};

/// Returns the refusal of a stream that ends inside an item.
fn inside_in(ended: &Ended) -> Option<Refusal>
    ensures { result ≡ inside_of ended.now }
{
    match ended {
        Ended::Accepted { .. } => None,
        Ended::Refused(refusal) => match refusal.reason {
            Reason::EndInside => Some(*refusal),
            _ => None,
        },
    }
}

/// Returns the refusal of a stream that ends inside an item, if its sender closed first and there is no gap.
pub(crate) fn ended_inside(
    has_closed: bool,
    gap: &Option<Gap>,
    judgement: &Option<Judgement>,
) -> Option<Refusal>
    ensures { result ≡ inside_by has_closed gap.now judgement.now }
{
    match (has_closed, gap, judgement) {
        (true, None, Some(judgement)) => inside_in(&judgement.free),
        (true, None, None) => None,
        (true, Some(_), _) => None,
        (false, _, _) => None,
    }
}
