//! A link that was dialled and has no place yet, and what becomes of it.
ghost use Rattle.std.specs.Prelude.{◌≡◌, ◌+◌, ◌*◌, ◌<◌, ◌≤◌, ◌⊎◌, ◌^◌, true, false, None, Some, min};
ghost use Rattle.bt_fetch.specs.Signs.{is_late as is_late_by};

use bt_exchange::Connection;

/// How many times a link may be looked at.
const LOOKS: u64 = 1 << 32;

/// How long an address may take until a connection to it is open, in seconds.
const CONNECT: u64 = 5;

/// How long it may take while addresses wait that weren't dialled yet, in milliseconds.
const LATE: u64 = 500;

/// A link to an address that was dialled, over which no call was made yet.
#[derive(Drop)]
pub struct Dial<L: Connection + Drop> {
    pub address: usize,
    pub link: L,
    /// When it was dialled, in milliseconds of the device's clock.
    since: u64,
    /// How many more times it may be looked at.
    pub left: u64,
    ghost fresh: { (L.seen link).counts.calls ≡ 0 },
    ghost few: { left ≤ 2 ^ 32 },
}

/// What becomes of a link.
#[derive(Clone, Copy)]
pub enum Fate {
    /// It is open, and takes a place.
    Opens,
    /// It isn't open yet.
    Waits,
    /// An address that wasn't dialled yet needs its slot.
    Late,
    /// No connection was opened.
    Dead,
}

impl<L: Connection + Drop> Dial<L> {
    /// Returns the link of an address that was dialled at this time of the device's clock.
    pub fn new(address: usize, link: L, time: u64) -> Dial<L>
        requires { (L.seen link).counts.calls ≡ 0 }
        ensures left { result.left ≡ 2 ^ 32 }
        ensures since { result.since ≡ time }
    {
        Dial {
            address,
            link,
            since: time,
            left: LOOKS,
        }
    }

    /// Returns whether another address, if one waits, needs its slot.
    fn is_late(&self, time: u64) -> bool
        ensures { result ≡ is_late_by self.now.since time }
    {
        time.saturating_sub(self.since) > LATE
    }

    /// Returns whether it waited for longer than an address may take.
    ///
    /// `patience` is in seconds.
    fn is_over(&self, patience: u64, time: u64) -> bool
        ensures over { result ≡ true → self.now.since + 1000 * min 5 patience < time }
        ensures waits { result ≡ false → time ≤ self.now.since + 1000 * min 5 patience }
    {
        time.saturating_sub(self.since) > 1000 * patience.min(CONNECT)
    }

    /// Returns what becomes of the link, of which `is_open` says whether it is open. To wait counts as a look.
    ///
    /// `is_needed` says that an address waits that wasn't dialled yet.
    pub fn fate(&mut self, is_open: Option<bool>, is_needed: bool, patience: u64, time: u64) -> Fate
        ensures open { is_open ≡ Some true → result ≡ Fate.Opens }
        ensures opens { result ≡ Fate.Opens → is_open ≡ Some true }
        ensures failed { is_open ≡ Some false → result ≡ Fate.Dead }
        ensures patient { result ≡ Fate.Waits → time ≤ self.old.since + 1000 * min 5 patience }
        ensures late { result ≡ Fate.Waits → is_needed ≡ true → is_late_by self.old.since time ≡ false }
        ensures left_late { result ≡ Fate.Late → (is_needed ≡ true) × (is_late_by self.old.since time ≡ true) }
        ensures dead { result ≡ Fate.Dead → (is_open ≡ Some false) ⊎ (self.old.since + 1000 * min 5 patience < time) ⊎ (self.old.left ≡ 0) }
        ensures left { result ≡ Fate.Waits → self.new.left + 1 ≡ self.old.left }
        ensures since { self.new.since ≡ self.old.since }
        ensures address { self.new.address ≡ self.old.address }
    {
        match is_open {
            Some(true) => return Fate::Opens,
            Some(false) => return Fate::Dead,
            None => {}
        }
        if is_needed && self.is_late(time) {
            return Fate::Late;
        }
        if self.left == 0 || self.is_over(patience, time) {
            return Fate::Dead;
        }
        self.left -= 1;
        Fate::Waits
    }
}
