//! Theorems about the definitions. Each is the contract of a function with an empty body, except the walk over a stream.
ghost use Rattle.bt_wire.specs.Contexts.{LegalElsewhere, LegalIsNotRefused, RefusalIsOne};
ghost use Rattle.bt_wire.specs.Laws.{LegalHasNoFault, FaultlessIsLegal, FaultIsOne, FaultStays, FaultIsFinal, NoneBeginsAnother, VerdictIsOne, RefusalStays, ItemsStay};
ghost use Rattle.bt_wire.specs.Streams.{Outcome, IsOutcome, IsVerdict};

use crate::context::{Context, Order, Own, negotiate};
use crate::front::{Front, read_front};
use crate::handshake::{Opening, read_opening};
use crate::order::next_of_view as next;
use bt_bencode::suffix;

/// States that a whole window has one fault, or its message is legal, never both.
pub fn legal_or_fault()
    ensures legal { LegalHasNoFault }
    ensures faultless { FaultlessIsLegal }
    ensures one { FaultIsOne }
{}

/// States that a fault stays, and that no encoding begins another.
///
/// A fault stays, whatever follows.
pub fn prefixes()
    ensures fault { FaultStays }
    ensures last { FaultIsFinal }
    ensures spelling { NoneBeginsAnother }
{}

/// States that each stream has a verdict.
///
/// The walk that finds it keeps nothing.
pub fn each_has_a_verdict(own: &Own, stream: &[u8])
    ensures { (v : Outcome) × IsVerdict own.now stream.now v }
{
    match read_opening(own, stream) {
        Opening::Refused(_) => {}
        Opening::Partial => {}
        Opening::Whole(handshake) => {
            walk(&negotiate(own, handshake.reserved), suffix(stream, 68));
        }
    }
}

/// The messages after a handshake have an outcome.
fn walk(context: &Context, messages: &[u8])
    ensures { (v : Outcome) × IsOutcome context.now Order.Fresh 68 1 messages.now v }
{
    let _limit = context.limit;
    let mut order = Order::Fresh;
    let mut at: usize = 0;
    let mut number: u64 = 1;
    'messages: loop {
        let front = read_front(context, order, 68 + at as u64, suffix(messages, at));
        match front {
            Front::Whole(message, length) => {
                order = next(order, &message);
                at += length;
                number += 1;
            }
            Front::Refused(_) => return,
            Front::Partial => return,
        }
    }
}

/// States that a stream has one verdict.
///
/// It keeps its items and its refusal, whatever follows.
pub fn one_verdict()
    ensures one { VerdictIsOne }
    ensures refused { RefusalStays }
    ensures items { ItemsStay }
{}

/// States that a message is legal or is refused for one fault, never both.
///
/// A legal message stays legal, with the same encoding, if the receiver's context differs in what the message doesn't
/// use.
pub fn legal_elsewhere()
    ensures stays { LegalElsewhere }
    ensures apart { LegalIsNotRefused }
    ensures one { RefusalIsOne }
{}
