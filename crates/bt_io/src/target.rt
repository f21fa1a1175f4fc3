//! Where bytes go.
ghost use Rattle.std.specs.Prelude.{◌≡◌, length};
ghost use Rattle.std.specs.Io.{WritesAtMost};
ghost use Rattle.std.specs.Io.KnownBytes.{WriteAppends};
ghost use Rattle.bt_io.specs.Counts.{one_more, counted, is_stuck};
ghost use Rattle.bt_io.specs.Seen.{TargetSeen};

use crate::failed::Failed;

/// What bytes are written to.
pub trait Target {
    /// The bytes that it has, if they are known, and the counts of the writes.
    ghost seen: { Self → TargetSeen };

    /// Writes bytes from the front of `from`, and returns how many.
    ///
    /// # Errors
    /// `Failed` if the write failed.
    fn write(&mut self, from: &[u8]) -> Result<usize, Failed>
        ensures bound { WritesAtMost result from.now }
        ensures bytes { WriteAppends (seen self.old).held (seen self.new).held result from.now }
        ensures writes { (seen self.new).writes ≡ one_more (seen self.old).writes }
        ensures failed { (seen self.new).failed ≡ counted (is_stuck result (length from.now)) (seen self.old).failed };
}
