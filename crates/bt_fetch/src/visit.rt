//! One connection of a fetch from many peers.
ghost use Rattle.std.specs.Prelude.{◌≡◌, ◌+◌, ◌*◌, ◌<◌, ◌≤◌, ◌^◌, ℕ, true, false, Ok};
ghost use Rattle.bt_exchange.specs.Courses.{Moment};
ghost use Rattle.bt_exchange.specs.Stops.{IsStopped};
ghost use Rattle.bt_fetch.specs.Outcomes.{is_untaken as is_untaken_by};
ghost use Rattle.bt_fetch.specs.Signs.{is_late as is_late_by, is_progress};
ghost use Rattle.bt_fetch.specs.Queues.{one};
ghost use Rattle.bt_fetch.specs.Visits.{IsEnded, goes_on, waits};

use crate::device::Outcome;
use crate::line::Line;
use crate::talk::{Talk, heed, is_untaken, outcome_of};
use crate::wish::Wish;
use bt_end::{End, Event};
use bt_exchange::{Connection, Hearing, Stop, exchange};
use bt_io::Memory;

/// How many steps a connection may have.
const STEPS: u64 = 1 << 32;

/// How many steps a connection makes before another has its turn.
const TURN: u32 = 64;

/// How long an address may take until bytes are moved, in seconds.
const CONNECT: u64 = 5;

/// A connection to an address, and what its peer has told.
#[derive(Drop)]
pub struct Visit<L: Connection + Drop> {
    pub address: usize,
    pub line: Line<L>,
    talk: Talk,
    /// How many steps are left.
    pub left: u64,
    /// There was news at the last turn.
    pub has_news: bool,
    ghost brief: { (L.seen line.link).counts.calls + left ≤ 2 ^ 32 },
}

/// Whether a connection can go on at once.
#[derive(Clone, Copy)]
pub enum Pace {
    /// It waits for its peer.
    Waits,
    /// It was given its turn, and can go on.
    GoesOn,
    /// The fetch over it ended so.
    Ended(Outcome),
}

impl<L: Connection + Drop> Visit<L> {
    /// Returns a visit over a new connection, at this time of the device's clock.
    pub fn new(address: usize, link: L, is_wide: bool, time: u64) -> Visit<L>
        requires { (L.seen link).counts.calls ≡ 0 }
        ensures { result.left ≡ 2 ^ 32 }
    {
        let mut link = link;
        let talk = Talk::new(link.now(), time, is_wide);
        Visit {
            address,
            line: Line {
                link,
                waits: false,
                has_moved: false,
            },
            talk,
            left: STEPS,
            has_news: false,
        }
    }

    /// Returns whether the fetch over it has made no progress for so long that its place is given to another address, if one waits.
    pub fn is_late(&self, time: u64) -> bool
        ensures { result ≡ is_late_by self.now.talk.heard time }
    {
        self.talk.is_late(time)
    }

    /// Returns the seconds without a sign of life after which the connection ends.
    fn patience(&self, wish: &Wish) -> u64
        ensures { result ≤ wish.now.patience }
    {
        if self.line.has_moved {
            wish.patience
        } else {
            wish.patience.min(CONNECT)
        }
    }

    /// Returns how the fetch over it ended whose exchange stopped so. Until bytes were moved there was no connection.
    ///
    /// # Errors
    /// `Memory` if the exchange ran out of memory.
    fn stopped(&self, end: &End, stop: Stop) -> Result<Pace, Memory>
        ensures ended { (until : ℕ) (old new : Moment) → new.half ≡ end.now → IsStopped until old new stop → IsEnded end.now result }
        ensures over { goes_on result ≡ false }
        ensures none { waits result ≡ false }
    {
        match outcome_of(end, stop, self.talk.lacks)? {
            Outcome::Closed | Outcome::Silent if !self.line.has_moved => {
                Ok(Pace::Ended(Outcome::Unreachable))
            }
            outcome => Ok(Pace::Ended(outcome)),
        }
    }

    /// Acts on news.
    ///
    /// # Errors
    /// `Memory` if memory for what came is refused.
    fn act(&mut self, wish: &Wish, end: &mut End, event: Event, time: u64) -> Result<Pace, Memory>
        ensures handshake { end.new.end.handshake ≡ end.old.end.handshake }
        ensures ended { IsEnded end.new result }
        ensures untaken { is_untaken_by event wish.now.most ≡ true → result ≡ Ok (Pace.Ended Outcome.NoMetadata) }
        ensures spent { (L.seen self.new.line.link).counts.calls ≡ (L.seen self.old.line.link).counts.calls }
        ensures left { self.new.left ≡ self.old.left }
        ensures address { self.new.address ≡ self.old.address }
        ensures still { is_progress event true ≡ false → (self.new.talk.watch ≡ self.old.talk.watch) × (self.new.talk.heard ≡ self.old.talk.heard) }
        ensures none { waits result ≡ false }
    {
        if is_untaken(event, wish.most) {
            return Ok(Pace::Ended(Outcome::NoMetadata));
        }
        match heed(wish, end, self.talk, event, self.line.now(), time)? {
            Some(talk) => {
                self.talk = talk;
                self.has_news = true;
                Ok(Pace::GoesOn)
            }
            None => self.stopped(end, Stop::Silent),
        }
    }

    /// Returns whether the connection waits, or ended since nothing was told for too long.
    fn idle(&mut self, wish: &Wish, end: &End) -> Result<Pace, Memory>
        ensures ended { IsEnded end.now result }
        ensures spent { (L.seen self.new.line.link).counts.calls ≡ (L.seen self.old.line.link).counts.calls }
        ensures left { self.new.left ≡ self.old.left }
        ensures address { self.new.address ≡ self.old.address }
        ensures patient { waits result ≡ true → (L.seen self.new.line.link).counts.clock ≤ self.new.talk.watch.since + wish.now.patience }
    {
        if !self.line.waits {
            return Ok(Pace::GoesOn);
        }
        let now = self.line.now();
        if self.talk.watch.is_over(now, self.patience(wish)) {
            return self.stopped(end, Stop::Silent);
        }
        Ok(Pace::Waits)
    }

    /// Makes a step, and acts on what came.
    ///
    /// # Errors
    /// `Memory` if memory for what came is refused.
    fn step(
        &mut self,
        wish: &Wish,
        end: &mut End,
        hearing: &mut Hearing,
        time: u64,
    ) -> Result<Pace, Memory>
        ensures handshake { end.new.end.handshake ≡ end.old.end.handshake }
        ensures ended { IsEnded end.new result }
        ensures spent { (L.seen self.new.line.link).counts.calls + self.new.left ≤ (L.seen self.old.line.link).counts.calls + self.old.left }
        ensures left { goes_on result ≡ true → self.new.left + 1 ≤ self.old.left }
        ensures address { self.new.address ≡ self.old.address }
        ensures patient { waits result ≡ true → (L.seen self.new.line.link).counts.clock ≤ self.new.talk.watch.since + wish.now.patience }
    {
        if self.left == 0 {
            return self.stopped(end, Stop::Silent);
        }
        self.left -= 1;
        let patience = self.patience(wish);
        let mut one = 1;
        let _ = end.outgoing();
        match exchange(
            &mut self.line,
            end,
            hearing,
            self.talk.watch,
            patience,
            &mut one,
        ) {
            Ok(event) => self.act(wish, end, event, time),
            Err(Stop::Rounds) => self.idle(wish, end),
            Err(stop) => self.stopped(end, stop),
        }
    }

    /// Returns whether its turn passes by it: nothing can be moved, and no time is up. That counts as a step.
    ///
    /// `is_needed` says that another address waits for the place.
    pub fn passes_by(&mut self, wish: &Wish, is_needed: bool, time: u64) -> bool
        ensures spent { (L.seen self.new.line.link).counts.calls + self.new.left ≤ (L.seen self.old.line.link).counts.calls + self.old.left }
        ensures left { self.new.left + one result ≡ self.old.left }
        ensures address { self.new.address ≡ self.old.address }
        ensures late { result ≡ true → is_needed ≡ true → is_late_by self.new.talk.heard time ≡ false }
        ensures patient { result ≡ true → time < self.new.talk.heard + 1000 * wish.now.patience }
    {
        let Some(left) = self.left.checked_sub(1) else {
            return false;
        };
        if self.line.may_go_on() {
            return false;
        }
        if is_needed && self.is_late(time) {
            return false;
        }
        if !self.talk.is_recent(self.patience(wish), time) {
            return false;
        }
        self.left = left;
        true
    }

    /// Makes steps until the peer has to be waited for, or others are to have their turn.
    ///
    /// # Errors
    /// `Memory` if memory for what came is refused.
    pub fn go_on(
        &mut self,
        wish: &Wish,
        end: &mut End,
        hearing: &mut Hearing,
        time: u64,
    ) -> Result<Pace, Memory>
        ensures handshake { end.new.end.handshake ≡ end.old.end.handshake }
        ensures ended { IsEnded end.new result }
        ensures spent { (L.seen self.new.line.link).counts.calls + self.new.left ≤ (L.seen self.old.line.link).counts.calls + self.old.left }
        ensures left { goes_on result ≡ true → self.new.left + 1 ≤ self.old.left }
        ensures address { self.new.address ≡ self.old.address }
        ensures patient { waits result ≡ true → (L.seen self.new.line.link).counts.clock ≤ self.new.talk.watch.since + wish.now.patience }
    {
        self.has_news = false;
        for _step in 0..TURN {
            match self.step(wish, end, hearing, time)? {
                Pace::GoesOn => {}
                pace => return Ok(pace),
            }
        }
        Ok(Pace::GoesOn)
    }
}
