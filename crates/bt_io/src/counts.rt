//! Counts of calls. They stay at 2^64 - 1.
ghost use Rattle.std.specs.Prelude.{◌≡◌};
ghost use Rattle.bt_io.specs.Counts.{counted as raised};

/// Returns the count, one more if `is_counted`, at most 2^64 - 1.
pub fn counted(is_counted: bool, count: u64) -> u64
    ensures { result ≡ raised is_counted count }
{
    if is_counted {
        count.saturating_add(1)
    } else {
        count
    }
}
