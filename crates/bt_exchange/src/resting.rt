//! How long a loop over connections waits if none of them can go on.
ghost use Rattle.std.specs.Prelude.{◌≡◌, ◌*◌, ◌<◌, max, min};
ghost use Rattle.std.specs.Duration.{as_nanos};

use std::time::{Clock, Duration};

/// The longest wait, in microseconds.
const LONGEST: u64 = 5_000;

/// The first wait for each open connection, in microseconds.
///
/// A look at a connection costs about a twentieth of it.
const FIRST: u64 = 20;

/// Returns how long to wait if no connection can go on, in microseconds.
///
/// `last` is how long the wait before was, or 0 if something came since. A peer that is near answers soon, so the waits begin
/// short and double up to 5 milliseconds. The first one is longer if more connections are open, since each is looked at after it.
/// Without a connection it is 5 milliseconds.
pub fn rest_after(last: u64, connections: usize) -> u64
    ensures open { 0 < connections → result ≡ min 5000 (max (20 * connections) (2 * last)) }
    ensures idle { connections ≡ 0 → result ≡ 5000 }
{
    if connections == 0 {
        return LONGEST;
    }
    let first = FIRST.saturating_mul(connections as u64);
    last.saturating_mul(2).max(first).min(LONGEST)
}

/// The naps of a loop that can't sleep until something comes.
#[derive(Drop)]
pub struct Naps {
    /// How long the last one was, in microseconds; 0 if something came since.
    pub last: u64,
}

impl Naps {
    /// Returns the naps of a loop that had none.
    pub fn new() -> Naps
        ensures { result.last ≡ 0 }
    {
        Naps { last: 0 }
    }

    /// Hears that something came: the next nap is a first one.
    pub fn came(&mut self)
        ensures { self.new.last ≡ 0 }
    {
        self.last = 0;
    }

    /// Returns how long the next nap is.
    fn next(&mut self, connections: usize) -> Duration
        ensures open { 0 < connections → self.new.last ≡ min 5000 (max (20 * connections) (2 * self.old.last)) }
        ensures idle { connections ≡ 0 → self.new.last ≡ 5000 }
        ensures unit { as_nanos result ≡ 1000 * self.new.last }
    {
        self.last = rest_after(self.last, connections);
        Duration::from_micros(self.last)
    }

    /// Takes a nap, since no connection can go on. So many are open.
    pub fn take<K: Clock>(&mut self, clock: &K, connections: usize)
        ensures open { 0 < connections → self.new.last ≡ min 5000 (max (20 * connections) (2 * self.old.last)) }
        ensures idle { connections ≡ 0 → self.new.last ≡ 5000 }
    {
        clock.sleep(self.next(connections));
    }
}
