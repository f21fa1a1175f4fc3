//! Where bytes come from.
ghost use Rattle.std.specs.Prelude.{◌≡◌, length, is_err};
ghost use Rattle.std.specs.Io.{ReadsAtMost};
ghost use Rattle.std.specs.Io.KnownBytes.{ReadConsumes};
ghost use Rattle.bt_io.specs.Counts.{one_more, counted, is_end};
ghost use Rattle.bt_io.specs.Seen.{SourceSeen};

use crate::failed::Failed;

/// What bytes are read from.
pub trait Source {
    /// The bytes that are left, if they are known, and the counts of the reads.
    ghost seen: { Self → SourceSeen };

    /// Reads bytes to the front of `into`, and returns how many.
    ///
    /// A read of 0 bytes into a buffer that isn't empty is the end. A source that knows its bytes returns it only if none is left.
    ///
    /// # Errors
    /// `Failed` if the read failed.
    fn read(&mut self, into: &mut [u8]) -> Result<usize, Failed>
        ensures bound { ReadsAtMost result into.new }
        ensures bytes { ReadConsumes (seen self.old).left (seen self.new).left result into.new }
        ensures reads { (seen self.new).reads ≡ one_more (seen self.old).reads }
        ensures failed { (seen self.new).failed ≡ counted (is_err result) (seen self.old).failed }
        ensures ends { (seen self.new).ends ≡ counted (is_end result (length into.old)) (seen self.old).ends };
}
