//! What an end talks over: reads, writes and the time.
ghost use Rattle.std.specs.Prelude.{◌≡◌, ℕ, Bool, true, [], None, Ok, length};
ghost use Rattle.std.specs.Io.KnownBytes.{IsAtEnd};
ghost use Rattle.bt_io.specs.Counts.{counted as raised};
ghost use Rattle.bt_exchange.specs.Connections.{Seen, read_counts, write_counts, at_time, Reads, Writes};

use bt_io::Failed;

/// A connection to a peer. Its calls may find that nothing can be moved yet, as a socket with a time limit does.
pub trait Connection {
    /// What was seen of it: the bytes that are left to be read and those that it took, if they are known, the counts of
    /// its calls, and the time that it gave last.
    ghost seen: { Self → Seen };

    /// Whether a read gives bytes wherever some are left to be read, and a write takes bytes wherever some are given.
    ghost prompt: { Bool };

    /// Reads bytes into the front of `into`, and returns how many.
    ///
    /// `None` if nothing is there yet.
    ///
    /// A read of 0 into what isn't empty is the end: the peer closed the connection.
    fn read(&mut self, into: &mut [u8]) -> Result<Option<usize>, Failed>
        ensures bytes { Reads (seen self.old) (seen self.new) result into.new }
        ensures size { length into.new ≡ length into.old }
        ensures counts { (seen self.new).counts ≡ read_counts result (length into.old) (seen self.old).counts }
        ensures none { prompt ≡ true → result ≡ Ok None → IsAtEnd (seen self.old).coming };

    /// Takes bytes from the front of `from`, and returns how many.
    ///
    /// `None` if nothing is taken yet.
    fn write(&mut self, from: &[u8]) -> Result<Option<usize>, Failed>
        ensures bytes { Writes (seen self.old) (seen self.new) result from.now }
        ensures counts { (seen self.new).counts ≡ write_counts result (length from.now) (seen self.old).counts }
        ensures none { prompt ≡ true → result ≡ Ok None → from.now ≡ [] };

    /// The time in seconds, by the connection's own clock. Only differences count.
    fn now(&mut self) -> u64
        ensures { seen self.new ≡ at_time result (seen self.old) };

    /// Returns whether a read or a write may move something. A loop over many connections passes by those that can't go on.
    fn may_go_on(&self) -> bool {
        true
    }
}

/// The count after a call that is counted or isn't.
pub(crate) fn counted(is_counted: bool, count: u64) -> u64
    ensures { result ≡ raised is_counted count }
{
    if is_counted {
        count.saturating_add(1)
    } else {
        count
    }
}
