//! The end of a connection's opening, and the receiver of each side's stream.
ghost use Rattle.std.specs.Prelude.{◌≡◌, ◌↔◌, ℕ, List, Bool};
ghost use Rattle.bt_ext.specs.Ids.{registered};
ghost use Rattle.bt_jobs.specs.Others.{own_of_other};
ghost use Rattle.bt_wire.specs.Streams.{Outcome};
ghost use Rattle.bt_intro.specs.Hearing.{IsHeardOf, IsSaid};
ghost use Rattle.bt_intro.specs.declared.settling.Side.{Side};
ghost use Rattle.bt_intro.specs.Settling.{IsSideOf, have_both_told, is_settled as is_settled_by_rule, own_by, receiver_by};

use crate::introduction::Introduction;
use bitflags::Flags;
use bt_ext::{Registered, Rules};
use bt_jobs::Announced;
use bt_wire::{Handshake, Own, Reserved};

/// The receiver of one side's stream.
#[derive(Clone, Copy, PartialEq, Eq, Debug)]
pub struct Receiver {
    /// The receiver.
    pub own: Own,
    /// Whether it is a guess: the other side has no handshake.
    pub is_guessed: bool,
}

/// How far a side has described itself.
#[derive(Clone, Copy)]
struct Side {
    handshake: Option<Handshake>,
    has_said_all: bool,
    is_stranger: bool,
}

/// Returns how far a side has described itself.
fn side_of(side: &Introduction) -> Side
    ensures { (front : List ℕ) → IsHeardOf front side.now → IsSideOf front result }
{
    Side {
        handshake: side.handshake(),
        has_said_all: side.has_said_all(),
        is_stranger: side.is_stranger(),
    }
}

/// Returns whether two sides have told of themselves as they agree to (BEP 10).
fn have_both_told(first: &Handshake, second: &Handshake, said: bool) -> bool
    ensures { result ≡ have_both_told first.now second.now said }
{
    let extended = first.reserved.contains(Reserved::EXT)
        && second.reserved.contains(Reserved::EXT);
    !extended || said
}

/// Returns whether the opening of a connection of these sides is over.
fn are_settled(a: &Side, b: &Side) -> bool
    ensures { result ≡ is_settled_by_rule a.now b.now }
{
    match (a.handshake, b.handshake) {
        (Some(first), Some(second)) => {
            have_both_told(&first, &second, a.has_said_all && b.has_said_all)
        }
        (Some(_), None) => b.is_stranger,
        (None, Some(_)) => a.is_stranger,
        (None, None) => a.is_stranger && b.is_stranger,
    }
}

/// Returns whether the opening of a connection is over.
///
/// That is so if both sides have a whole handshake and, if both have the bit of the Extension Protocol, each has said all; and if
/// at least one is a stranger, and the other is one too or has a whole handshake.
pub fn is_settled(first: &Introduction, second: &Introduction) -> bool
    ensures { (front back : List ℕ) → IsHeardOf front first.now → IsHeardOf back second.now → (a b : Side) × IsSideOf front a × IsSideOf back b
        × (result ≡ is_settled_by_rule a b) }
{
    are_settled(&side_of(first), &side_of(second))
}

/// Returns the receiver that announces this.
fn own_by(said: &Announced, pieces: Option<u32>, limit: u32) -> Own
    ensures { result ≡ own_by said.now pieces limit }
{
    Own {
        reserved: said.reserved,
        info_hash: None,
        pieces,
        reg: Registered::preferring_metadata(said.metadata, said.donthave),
        rules: Rules::Free,
        limit,
    }
}

/// Returns the receiver of the stream that `sender` sends: what `other` announces.
///
/// Without a whole handshake of `other` it is a guess: the sender's own reserved bits, and no ids. There is none without a whole
/// handshake of the sender.
pub fn receiver_of(
    other: &Introduction,
    sender: &Introduction,
    pieces: Option<u32>,
    limit: u32,
) -> Option<Receiver>
    ensures { (front sent : List ℕ) → IsHeardOf front other.now → IsHeardOf sent sender.now → (v w : Outcome) × IsSaid front v × IsSaid sent w
        × (result ≡ receiver_by (own_of_other v.items) (own_of_other w.items) pieces limit) }
{
    let said = other.announced();
    let own = sender.announced()?;
    match said {
        Some(said) => Some(Receiver {
            own: own_by(&said, pieces, limit),
            is_guessed: false,
        }),
        None => Some(Receiver {
            own: own_by(
                &Announced {
                    metadata: None,
                    donthave: None,
                    ..own
                },
                pieces,
                limit,
            ),
            is_guessed: true,
        }),
    }
}
