//! How long a connection may go without a sign of life.
ghost use Rattle.std.specs.Prelude.{◌≡◌, ◌+◌, ◌<◌, ◌≤◌, true, false};

/// When the last sign of life was seen, in seconds of the connection's clock.
#[derive(Clone, Copy, Debug)]
pub struct Watch {
    pub since: u64,
}

impl Watch {
    /// Returns whether more than `patience` seconds have passed at the time `now`.
    pub fn is_over(self, now: u64, patience: u64) -> bool
        ensures over { result ≡ true → self.since + patience < now }
        ensures waits { result ≡ false → now ≤ self.since + patience }
    {
        now >= self.since && now - self.since > patience
    }
}
