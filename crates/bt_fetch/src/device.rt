//! Where a fetch from many peers gets its connections from, and who hears how each ended.
ghost use Rattle.std.specs.Prelude.{◌≡◌, ◌+◌, ◌<◌};
ghost use Rattle.bt_exchange.specs.Lists.{IsAdded};
ghost use Rattle.bt_fetch.specs.Links.{opening};

use bt_end::Progress;
use bt_exchange::Connection;
use bt_wire::Refusal;

/// How a try at an address ended.
#[derive(Clone, Copy, PartialEq, Eq, Debug)]
pub enum Outcome {
    /// The metadata is there.
    Fetched,
    /// What the peer sent is refused.
    Refused(Refusal),
    /// The patience passed without progress, or as many steps were made as may be.
    Silent,
    /// The peer closed the connection, or a call of it failed.
    Closed,
    /// No connection was opened.
    Unreachable,
    /// Each block that isn't held was rejected.
    Rejected,
    /// The blocks were those of other metadata, twice.
    Mismatch,
    /// The peer sent a block of a piece, which was never asked for.
    Unasked,
    /// The peer knows no Extension Protocol, told a size that isn't taken, or told no size or no id until the patience passed.
    NoMetadata,
}

/// How a connection ended.
#[derive(Clone, Copy, PartialEq, Eq, Debug)]
pub enum Ending {
    /// As the only connection of a fetch would have ended.
    By(Outcome),
    /// This side closed it: another peer gave the metadata, memory was refused, or an address that wasn't dialled yet needed its place.
    Left,
}

/// What a fetch did with its device.
#[derive(Clone, Copy, PartialEq, Eq, Debug)]
pub enum Happening {
    /// The address of this number was dialled.
    Dialled(usize),
    /// The connection to the address of this number ended.
    Ended(usize, Ending),
}

/// Opens connections to the addresses of a list, many at the same time. The list may grow.
pub trait Device {
    ghost use Rattle.std.specs.Prelude.{ℕ, ◌≤◌, ◌^◌, not, true, List, Option, IfSome};
    ghost use Rattle.bt_fetch.specs.Listings.{Listing};
    ghost use Rattle.bt_fetch.specs.Queues.{one};
    ghost use Rattle.bt_fetch.specs.declared.device.Happening.{Happening};

    type Link: Connection + Drop;

    /// What happened, in order, if it is known.
    ghost log: { Self → Option (List Happening) };

    /// How many connections are open: they were given out, and their end wasn't told yet.
    ghost inside: { Self → ℕ };

    /// How many connections may be open at the same time.
    ghost places: { Self → ℕ };

    /// What is known of the list of addresses.
    ghost list: { Self → Listing };

    /// Returns how many addresses are known. They are dialled by their numbers, from 0 on.
    fn known(&self) -> usize
        ensures known { result ≡ (list self.now).known }
        ensures fits { result ≤ (list self.now).most };

    /// Returns how many addresses may be known at most.
    fn most(&self) -> usize
        ensures { result ≡ (list self.now).most };

    /// Adds the addresses to the list that were found since the last call, and returns whether more may come.
    ///
    /// Once it returned `false`, the list stays as it is.
    fn more(&mut self) -> bool
        ensures grown { (list self.old).known ≤ (list self.new).known }
        ensures most { (list self.new).most ≡ (list self.old).most }
        ensures looks { (list self.new).looks + one result ≤ (list self.old).looks }
        ensures all { (list self.new).is_all ≡ not result }
        ensures ended { (list self.old).is_all ≡ true → list self.new ≡ list self.old }
        ensures log { log self.new ≡ log self.old }
        ensures inside { inside self.new ≡ inside self.old }
        ensures places { places self.new ≡ places self.old };

    /// Begins a connection to the address of this number, whose calls don't wait; `None` if that fails.
    ///
    /// Numbers count from 0. No call of it was made yet.
    fn dial(&mut self, address: usize) -> Option<Self::Link>
        requires { inside self.old < places self.old }
        ensures log { IsAdded (log self.old) (log self.new) (Happening.Dialled address) }
        ensures inside { inside self.new ≡ inside self.old + opening result }
        ensures fresh { IfSome result (λ link. (Self.Link.seen link).counts.calls ≡ 0) }
        ensures places { places self.new ≡ places self.old }
        ensures list { list self.new ≡ list self.old };

    /// Hears how a connection ended, over which at most 2^32 calls were made, and closes it.
    fn ended(&mut self, address: usize, link: Self::Link, ending: Ending)
        requires open { 0 < inside self.old }
        requires brief { (Self.Link.seen link).counts.calls ≤ 2 ^ 32 }
        ensures log { IsAdded (log self.old) (log self.new) (Happening.Ended address ending) }
        ensures inside { inside self.new + 1 ≡ inside self.old }
        ensures places { places self.new ≡ places self.old }
        ensures list { list self.new ≡ list self.old };

    /// Returns whether a connection over which no call was made yet is open; `None` if that isn't known yet.
    ///
    /// `Some(false)` says that it failed.
    fn is_open(&self, link: &Self::Link) -> Option<bool>;

    /// Hears how far the fetch over a connection has come.
    fn came(&mut self, address: usize, progress: Progress)
        ensures log { log self.new ≡ log self.old }
        ensures inside { inside self.new ≡ inside self.old }
        ensures places { places self.new ≡ places self.old }
        ensures list { list self.new ≡ list self.old };

    /// Returns the time in milliseconds, by the device's own clock. Only differences count.
    fn time(&mut self) -> u64
        ensures log { log self.new ≡ log self.old }
        ensures inside { inside self.new ≡ inside self.old }
        ensures places { places self.new ≡ places self.old }
        ensures list { list self.new ≡ list self.old };

    /// Ends a round in which a connection could go on. Looks which others can, without a wait.
    fn look(&mut self)
        ensures log { log self.new ≡ log self.old }
        ensures inside { inside self.new ≡ inside self.old }
        ensures places { places self.new ≡ places self.old }
        ensures list { list self.new ≡ list self.old }
    {}

    /// Waits a moment, since no connection can go on.
    fn rest(&mut self)
        ensures log { log self.new ≡ log self.old }
        ensures inside { inside self.new ≡ inside self.old }
        ensures places { places self.new ≡ places self.old }
        ensures list { list self.new ≡ list self.old };
}
