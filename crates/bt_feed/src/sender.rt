//! The context for sending to a peer.
ghost use Rattle.std.specs.Prelude.{◌≡◌};
ghost use Rattle.bt_feed.specs.Senders.{peer_context};

use bt_ext::Table;
use bt_wire::{Context, Own, Reserved, negotiate};
use std::alloc::Allocator;

/// Returns the context to use for encoding messages to the peer.
///
/// `own` describes you, `theirs` is from the peer's handshake (`Reserved(0)` before it has come), and `table` has what the peer's
/// extended handshakes announced. The context has the ids that the peer announced, and none for an extension without one.
///
/// What you receive is checked by another context, that of `bt_wire::negotiate`. See the example of `bt_wire::encode`.
pub fn peer_context<A: Allocator + Copy>(own: &Own, theirs: Reserved, table: &Table<A>) -> Context
    ensures { result ≡ peer_context own.now theirs table.now }
{
    let mut context = negotiate(own, theirs);
    context.reg = table.registered();
    context
}
