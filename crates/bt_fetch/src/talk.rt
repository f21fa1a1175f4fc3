//! What the peer of a connection tells, and what is made of it. The module `visit` calls it.
ghost use Rattle.std.specs.Prelude.{◌≡◌, ◌+◌, ◌*◌, ◌<◌, ◌≤◌, ◌⊎◌, nat_lt, ℕ, true, false, Some, IfOk, IfSome, OnErr};
ghost use Rattle.bt_end.specs.Ends.{belief};
ghost use Rattle.bt_exchange.specs.Courses.{Moment};
ghost use Rattle.bt_exchange.specs.Stops.{IsStopped};
ghost use Rattle.bt_fetch.specs.Outcomes.{IsOutcome, is_untaken as is_untaken_by, outcome_by};
ghost use Rattle.bt_fetch.specs.Signs.{IsRestarted, IsTried, is_late as is_late_by, is_progress as is_progress_by};

use crate::device::Outcome;
use crate::wish::Wish;
use bt_end::{BeginError, End, Event, Window};
use bt_exchange::{Stop, Watch};
use bt_io::Memory;
use bt_wire::Handshake;

/// How often a fetch may begin anew on one connection, if the peer announces another size than before.
const RESTARTS: u8 = 2;

/// How long a fetch may make no progress while other addresses wait, in milliseconds.
const LATE: u64 = 500;

/// How the peer ids of rtorrent's library begin (BEP 20). It stops for good if a second request comes before it has
/// answered the first, and then doesn't notice the end of the connection either.
const ONE_AT_A_TIME: &[u8] = b"-lt";

/// What the peer of a connection has announced so far.
#[derive(Clone, Copy)]
pub struct Talk {
    /// When the fetch over it made progress last.
    pub watch: Watch,
    /// The same in milliseconds of the device's clock.
    heard: u64,
    /// How often the fetch has begun anew.
    restarts: u8,
    /// The peer has announced, and lacks an id for metadata messages, or no size is known.
    pub lacks: bool,
    /// Several blocks are asked for at once, and the wish doesn't say so.
    pub is_wide: bool,
}

impl Talk {
    /// Returns what a peer has told over a new connection: nothing.
    ///
    /// `time` is that of the device's clock in milliseconds.
    pub fn new(now: u64, time: u64, is_wide: bool) -> Talk
        ensures since { result.watch.since ≡ now }
        ensures heard { result.heard ≡ time }
    {
        Talk {
            watch: Watch { since: now },
            heard: time,
            restarts: 0,
            lacks: false,
            is_wide,
        }
    }

    /// Returns whether the fetch has made no progress for so long that the place is given to another address, if one waits.
    pub fn is_late(self, time: u64) -> bool
        ensures { result ≡ is_late_by self.heard time }
    {
        time.saturating_sub(self.heard) > LATE
    }

    /// Returns whether the fetch made progress less than `patience` seconds ago, by the device's clock.
    pub fn is_recent(self, patience: u64, time: u64) -> bool
        ensures { result ≡ true → time < self.heard + 1000 * patience }
    {
        time.saturating_sub(self.heard) < patience.saturating_mul(1000)
    }
}

/// Returns how a try ended whose exchange stopped so.
///
/// # Errors
/// `Memory` if the exchange ran out of memory.
pub fn outcome_of(end: &End, stop: Stop, lacks: bool) -> Result<Outcome, Memory>
    ensures outcome { (until : ℕ) (old new : Moment) → new.half ≡ end.now → IsStopped until old new stop → IfOk result (λ outcome. IsOutcome end.now outcome) }
    ensures value { IfOk result (λ outcome. outcome_by stop (belief end.now.end).ext lacks ≡ Some outcome) }
    ensures memory { OnErr result (stop ≡ Stop.Memory) }
{
    match stop {
        Stop::Done => Ok(Outcome::Fetched),
        Stop::Refused(refusal) => Ok(Outcome::Refused(refusal)),
        Stop::Hopeless if end.belief().ext => Ok(Outcome::Rejected),
        Stop::Hopeless => Ok(Outcome::NoMetadata),
        Stop::Mismatch => Ok(Outcome::Mismatch),
        Stop::Unasked => Ok(Outcome::Unasked),
        Stop::Silent | Stop::Rounds if lacks => Ok(Outcome::NoMetadata),
        Stop::Silent | Stop::Rounds => Ok(Outcome::Silent),
        Stop::Closed | Stop::Failed => Ok(Outcome::Closed),
        Stop::Memory => Err(Memory),
    }
}

/// Returns whether the peer announces a size that isn't 1 to `most`.
pub fn is_untaken(event: Event, most: u64) -> bool
    ensures { result ≡ is_untaken_by event most }
{
    match event {
        Event::Announced {
            size: Some(size),
            ..
        } => size == 0 || size > most,
        _ => false,
    }
}

/// Asks for one block at a time from a client that takes no more, and returns whether it is one.
fn narrow(end: &mut End, handshake: &Handshake) -> bool
    ensures handshake { end.new.end.handshake ≡ end.old.end.handshake }
{
    if !handshake.peer_id.starts_with(ONE_AT_A_TIME) {
        return false;
    }
    let Some(one) = Window::new(1) else {
        return false;
    };
    end.set_window(one);
    true
}

/// Begins anew with a size, and returns whether it did.
///
/// The requests that wait to be sent are those of another size: they are dropped, so that no more are outstanding than the window has.
fn begin_anew(end: &mut End, size: u64) -> Result<bool, Memory>
    ensures handshake { end.new.end.handshake ≡ end.old.end.handshake }
    ensures anew { IfOk result (λ begins. IsTried end.old size begins end.new) }
{
    let queued = end.outgoing().len();
    match end.begin(size) {
        Ok(true) => {
            end.sent(queued);
            Ok(true)
        }
        Ok(false) | Err(BeginError::Busy) => Ok(false),
        Err(BeginError::Memory) => Err(Memory),
    }
}

/// Begins anew if the peer announces another size than that of the fetch, and returns whether it did.
fn restart(end: &mut End, size: Option<u64>) -> Result<bool, Memory>
    ensures handshake { end.new.end.handshake ≡ end.old.end.handshake }
    ensures anew { IfOk result (λ begins. IsRestarted end.old size begins end.new) }
{
    let (Some(size), Some(progress)) = (size, end.progress()) else {
        return Ok(false);
    };
    if size == progress.size {
        return Ok(false);
    }
    begin_anew(end, size)
}

/// Returns whether an event is progress of a fetch.
///
/// `is_anew` says that the fetch began anew with the size that it announces.
fn is_progress(event: Event, is_anew: bool) -> bool
    ensures { result ≡ is_progress_by event is_anew }
{
    match event {
        Event::Opened(_) => true,
        Event::Announced { begins, .. } => begins || is_anew,
        Event::Block(_) | Event::Rejected(_) | Event::Fetched | Event::Mismatched => true,
        _ => false,
    }
}

/// Acts on news, and returns what the peer has announced by then; `None` if the patience is over.
///
/// `now` is the time of the connection's clock in seconds, and `time` that of the device's in milliseconds.
pub fn heed(
    wish: &Wish,
    end: &mut End,
    talk: Talk,
    event: Event,
    now: u64,
    time: u64,
) -> Result<Option<Talk>, Memory>
    ensures handshake { end.new.end.handshake ≡ end.old.end.handshake }
    ensures patient { IfOk result (λ o. IfSome o (λ t. now ≤ t.watch.since + wish.now.patience)) }
    ensures restarts { IfOk result (λ o. IfSome o (λ t. (t.restarts ≡ talk.restarts) ⊎ ((t.restarts ≡ talk.restarts + 1) × (t.restarts ≤ 2)))) }
    ensures progress { IfOk result (λ o. IfSome o (λ t. is_progress_by event (nat_lt talk.restarts t.restarts) ≡ true
        → (t.watch.since ≡ now) × (t.heard ≡ time))) }
    ensures still { IfOk result (λ o. IfSome o (λ t. is_progress_by event (nat_lt talk.restarts t.restarts) ≡ false
        → (t.watch ≡ talk.watch) × (t.heard ≡ talk.heard))) }
{
    let mut next = talk;
    let mut is_anew = false;
    if let Event::Opened(handshake) = event {
        next.is_wide = talk.is_wide && !narrow(end, &handshake);
    }
    if let Event::Announced { id, size, begins } = event {
        next.lacks = id.is_none() || end.progress().is_none();
        is_anew = !begins && talk.restarts < RESTARTS && restart(end, size)?;
        next.restarts += is_anew as u8;
    }
    if is_progress(event, is_anew) {
        next.watch = Watch { since: now };
        next.heard = time;
    } else if talk.watch.is_over(now, wish.patience) {
        return Ok(None);
    }
    Ok(Some(next))
}
