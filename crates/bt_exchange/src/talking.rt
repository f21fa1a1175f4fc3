//! The loop over one connection. Fetching calls [`exchange`], and serving calls [`advance`].
ghost use Rattle.std.specs.Prelude.{◌≡◌, ◌≢◌, ◌<◌, ◌≤◌, ◌+◌, ℕ, Bool, true, false, List, [], length, is_some, Ok, Err, IfOk, IfSome};
ghost use Rattle.bt_feed.specs.Progress.{IsFeed};
ghost use Rattle.bt_end.specs.Ends.{metadata_of};
ghost use Rattle.bt_end.specs.Halves.{high_water};
ghost use Rattle.bt_exchange.specs.Connections.{Seen};
ghost use Rattle.bt_exchange.specs.Steps.{IsExact, IsNext, after_write, at_read, at_write, at_turn};
ghost use Rattle.bt_exchange.specs.Stops.{HasListened, IsAdvanced, IsExchanged, IsOpen, is_news as is_news_by, is_piece as is_piece_by};
ghost use Rattle.bt_exchange.specs.Watches.{IsJudged, IsRounded, IsVerdict, is_over};

use crate::connection::Connection;
use crate::hearing::Hearing;
use crate::watch::Watch;
use bt_end::{End, Event, HIGH_WATER, TurnError};
use bt_io::Failed;
use bt_wire::Refusal;
use std::alloc::Allocator;

/// What a step did.
#[derive(Clone, Copy, PartialEq, Eq, Debug)]
pub enum Step {
    /// Bytes were written or read.
    Moved,
    /// The connection could move nothing yet.
    Waited,
    /// Bytes that were read went to the end, which handled an item. This is what the item made of it.
    Handled(Event),
    /// Bytes that were read went to the end, which holds no whole item yet.
    Held,
}

/// Why an exchange stopped.
#[derive(Clone, Copy, PartialEq, Eq, Debug)]
pub enum Stop {
    /// The metadata is there.
    Done,
    /// No block can come any more on this connection: see [`End::is_hopeless`].
    Hopeless,
    /// The blocks that came were twice those of other metadata.
    Mismatch,
    /// A block of a piece came, which was never asked for.
    Unasked,
    /// The peer closed the connection.
    Closed,
    /// There was no news, and the patience is over.
    Silent,
    /// A call of the connection failed.
    Failed,
    /// What came is refused.
    Refused(Refusal),
    /// As many steps were made as may be.
    Rounds,
    /// Out of memory.
    Memory,
}

/// Makes one step.
///
/// It is a write, if the end has something to send and `may_send` says that it may; else a turn, if bytes wait for it; else a
/// read. While nothing may be sent, less than `HIGH_WATER` bytes wait to be sent.
///
/// # Errors
/// `Closed` if the peer closed the connection, `Failed` if a call failed or a write took nothing, `Refused` if the peer broke a rule,
/// `Memory` when out of memory.
pub fn advance<C: Connection, A: Allocator + Copy>(
    connection: &mut C,
    end: &mut End<A>,
    hearing: &mut Hearing<A>,
    may_send: bool,
) -> Result<Step, Stop>
    requires { may_send ≡ false → length end.old.outbox < high_water }
    ensures advanced { IsAdvanced (record { seen = C.seen connection.old; pending = hearing.old; half = end.old })
        (record { seen = C.seen connection.new; pending = hearing.new; half = end.new }) result }
    ensures exact { may_send ≡ true → IsExact C.prompt (record { seen = C.seen connection.old; pending = hearing.old; half = end.old })
        (record { seen = C.seen connection.new; pending = hearing.new; half = end.new }) result }
    ensures listens { may_send ≡ false → HasListened (record { seen = C.seen connection.old; pending = hearing.old; half = end.old })
        (record { seen = C.seen connection.new; pending = hearing.new; half = end.new }) result }
{
    let waiting = sendable(end, may_send);
    if waiting > 0 {
        return send(connection, end);
    }
    if !hearing.bytes().is_empty() {
        return take_turn(end, hearing);
    }
    read_step(hearing.fill(connection))
}

/// Returns how many bytes may be sent.
fn sendable<A: Allocator + Copy>(end: &End<A>, may_send: bool) -> usize
    ensures feed { IsFeed end.now.feed }
    ensures most { result ≤ length end.now.outbox }
    ensures all { may_send ≡ true → result ≡ length end.now.outbox }
    ensures none { may_send ≡ false → result ≡ 0 }
{
    let waiting = end.outgoing().len();
    if may_send { waiting } else { 0 }
}

/// What a read makes a step.
fn read_step(got: Result<Option<usize>, Failed>) -> Result<Step, Stop>
    ensures { result ≡ at_read got }
{
    match got {
        Ok(Some(0)) => Err(Stop::Closed),
        Ok(Some(_)) => Ok(Step::Moved),
        Ok(None) => Ok(Step::Waited),
        Err(_) => Err(Stop::Failed),
    }
}

/// Drops what a write took. Returns what the write makes a step.
fn write_step<A: Allocator + Copy>(
    end: &mut End<A>,
    wrote: Result<Option<usize>, Failed>,
) -> Result<Step, Stop>
    requires { IfOk wrote (λ o. IfSome o (λ n. n ≤ length end.old.outbox)) }
    ensures end { end.new ≡ after_write wrote end.old }
    ensures step { result ≡ at_write wrote }
{
    match wrote {
        Ok(Some(0)) => Err(Stop::Failed),
        Ok(Some(n)) => {
            end.sent(n);
            Ok(Step::Moved)
        }
        Ok(None) => Ok(Step::Waited),
        Err(_) => Err(Stop::Failed),
    }
}

/// Handles the next item, and returns what it made of the end.
fn next_event<A: Allocator + Copy>(end: &mut End<A>) -> Result<Option<Event>, TurnError>
    ensures { IsNext end.old result end.new }
{
    let _ = end.outgoing();
    match end.next() {
        Ok(Some(heard)) => Ok(Some(heard.event)),
        Ok(None) => Ok(None),
        Err(error) => Err(error),
    }
}

/// What a turn makes a step.
fn turn_step(turned: Result<Option<Event>, TurnError>) -> Result<Step, Stop>
    requires { turned ≢ Err TurnError.Busy }
    ensures { result ≡ at_turn turned }
{
    match turned {
        Ok(Some(event)) => Ok(Step::Handled(event)),
        Ok(None) => Ok(Step::Held),
        Err(TurnError::Refused(refusal)) => Err(Stop::Refused(refusal)),
        Err(TurnError::Busy) => unreachable!(),
        Err(TurnError::Memory) => Err(Stop::Memory),
    }
}

/// Writes once.
fn send<C: Connection, A: Allocator + Copy>(
    connection: &mut C,
    end: &mut End<A>,
) -> Result<Step, Stop>
    requires { 0 < length end.old.outbox }
    ensures advanced { (pending : List ℕ) → IsAdvanced (record { seen = C.seen connection.old; pending = pending; half = end.old })
        (record { seen = C.seen connection.new; pending = pending; half = end.new }) result }
    ensures exact { (pending : List ℕ) → IsExact C.prompt (record { seen = C.seen connection.old; pending = pending; half = end.old })
        (record { seen = C.seen connection.new; pending = pending; half = end.new }) result }
{
    let wrote = connection.write(end.outgoing());
    write_step(end, wrote)
}

/// Returns how many bytes wait to be sent after a block, all of them requests; 0 after anything else.
fn requests_after<A: Allocator + Copy>(
    turned: Result<Option<Event>, TurnError>,
    end: &End<A>,
) -> usize {
    match turned {
        Ok(Some(Event::Block(_))) => end.outgoing().len(),
        _ => 0,
    }
}

/// Gives the end bytes, up to the end of an item, and handles it if it is whole.
fn take_turn<A: Allocator + Copy>(end: &mut End<A>, hearing: &mut Hearing<A>) -> Result<Step, Stop>
    requires feed { IsFeed end.old.feed }
    requires room { length end.old.outbox < high_water }
    requires pending { 0 < length hearing.old }
    ensures listened { (seen : Seen) → HasListened (record { seen = seen; pending = hearing.old; half = end.old })
        (record { seen = seen; pending = hearing.new; half = end.new }) result }
    ensures exact { (seen : Seen) (prompt : Bool) → length end.old.outbox ≡ 0 → IsExact prompt (record { seen = seen; pending = hearing.old; half = end.old })
        (record { seen = seen; pending = hearing.new; half = end.new }) result }
{
    let n = end.receive(hearing.bytes());
    let turned = next_event(end);
    hearing.pass_item(n, requests_after(turned, end));
    turn_step(turned)
}

/// Whether, and why, a fetch is over.
fn verdict<A: Allocator + Copy>(end: &End<A>) -> Option<Stop>
    ensures { IsVerdict end.now.end result }
{
    if end.metadata().is_some() {
        Some(Stop::Done)
    } else if end.mismatches() >= 2 {
        Some(Stop::Mismatch)
    } else if end.is_hopeless() {
        Some(Stop::Hopeless)
    } else {
        None
    }
}

/// Returns whether a block of a piece came, which an end never asks for.
pub fn is_piece(event: Event) -> bool
    ensures { result ≡ is_piece_by event }
{
    matches!(event, Event::Piece { .. })
}

/// Returns whether an event is reported to the driver of a fetch.
fn is_news(event: Event) -> bool
    ensures { result ≡ is_news_by event }
{
    match event {
        Event::Opened(_) | Event::Announced { .. } => true,
        Event::Block(_) | Event::Rejected(_) | Event::Fetched | Event::Mismatched => true,
        _ => false,
    }
}

/// What a step says: the event if that is news, or why the fetch is over.
fn judge<A: Allocator + Copy>(step: Step, end: &End<A>) -> Result<Option<Event>, Stop>
    ensures { IsJudged step end.now.end result }
{
    let Step::Handled(event) = step else {
        return Ok(None);
    };
    if is_piece(event) {
        return Err(Stop::Unasked);
    }
    match verdict(end) {
        Some(stop) => Err(stop),
        None if is_news(event) => Ok(Some(event)),
        None => Ok(None),
    }
}

/// Returns whether what waits to be sent goes out before what was read goes to the end.
fn sends_first<A: Allocator + Copy>(end: &End<A>, hearing: &Hearing<A>) -> bool
    ensures { result ≡ false → length end.now.outbox < high_water }
{
    let waiting = end.outgoing().len();
    waiting >= HIGH_WATER || !hearing.holds_back(waiting)
}

/// Makes a step, and keeps watch. Returns the event if it is news.
fn round<C: Connection, A: Allocator + Copy>(
    connection: &mut C,
    end: &mut End<A>,
    hearing: &mut Hearing<A>,
    watch: Watch,
    patience: u64,
) -> Result<Option<Event>, Stop>
    requires { IsOpen end.old.end }
    ensures rounded { IsRounded (watch.since + patience) (record { seen = C.seen connection.old; pending = hearing.old; half = end.old })
        (record { seen = C.seen connection.new; pending = hearing.new; half = end.new }) result }
    ensures done { is_over result ≡ is_some (metadata_of end.new.end.part) }
{
    let may_send = sends_first(end, hearing);
    let step = advance(connection, end, hearing, may_send)?;
    if let Some(event) = judge(step, end)? {
        return Ok(Some(event));
    }
    let now = connection.now();
    if watch.is_over(now, patience) {
        return Err(Stop::Silent);
    }
    Ok(None)
}

/// Makes steps until there is news of a fetch, and returns it.
///
/// News is each item that does something for the fetch: the peer's handshake, an extended handshake, and a block that was asked
/// for, which came or was rejected. At most `steps` steps are made, each of which writes once, reads once or handles an item;
/// `steps` is then the number of those that are left. After a block, requests are sent once all that was read with it is handled.
///
/// # Errors
/// `Done` if the metadata is there, `Hopeless` or `Mismatch` if no more of it can come, `Unasked` if a block of a piece came, `Silent` if
/// `patience` seconds have passed since the time of the watch, `Rounds` if no steps are left, and what the connection, what came or the
/// memory stopped.
pub fn exchange<C: Connection, A: Allocator + Copy>(
    connection: &mut C,
    end: &mut End<A>,
    hearing: &mut Hearing<A>,
    watch: Watch,
    patience: u64,
    steps: &mut u64,
) -> Result<Event, Stop>
    ensures exchanged { IsExchanged (watch.since + patience) steps.old steps.new
        (record { seen = C.seen connection.old; pending = hearing.old; half = end.old })
        (record { seen = C.seen connection.new; pending = hearing.new; half = end.new }) result }
    ensures done { is_over result ≡ is_some (metadata_of end.new.end.part) }
{
    if let Some(stop) = verdict(end) {
        return Err(stop);
    }
    let may = *steps;
    for made in 0..may {
        *steps = may - made - 1;
        if let Some(event) = round(connection, end, hearing, watch, patience)? {
            return Ok(event);
        }
    }
    Err(Stop::Rounds)
}
