//! A fetch over many connections at the same time.
ghost use Rattle.std.specs.Prelude.{◌≡◌, ◌≢◌, ◌+◌, ◌<◌, ◌≤◌, ℕ, true, false, None, Ok, Err, length, vec_len, not, List, Option, option_map, is_some, count_by, sum_by, All, HoldsAt, max, IfOk, IfSome};
ghost use Rattle.bt_io.specs.Seen.{WriteFailed};
ghost use Rattle.bt_end.specs.Ends.{metadata_of};
ghost use Rattle.bt_fetch.specs.Wishes.{IsWish, handshake_of};
ghost use Rattle.bt_fetch.specs.Fetches.{IsWritten};
ghost use Rattle.bt_fetch.specs.Queues.{dials_of, rest_of, one};
ghost use Rattle.bt_exchange.specs.Lists.{IsAdded};
ghost use Rattle.bt_fetch.specs.Logs.{IsCourse, IsLogged, IsStage, Stage, Going, is_fetched as is_fetched_by, stage_after};
ghost use Rattle.bt_fetch.specs.Dials.{burden};
ghost use Rattle.bt_fetch.specs.Signs.{is_late};
ghost use Rattle.bt_fetch.specs.Swarms.{IfWon, IsPatient, cost, is_free, is_over, is_won, outlook, stage_at, stage_by, stage_when, weight};
ghost use Rattle.bt_fetch.specs.declared.device.Happening.{Happening};
ghost use Rattle.bt_fetch.specs.declared.device.Happening.TheVariants.{Ended as EndedSo};

use crate::device::{Device, Ending, Outcome};
use crate::dialling::{Dials, dial_for, has_open, leave_dials};
use crate::file::{FetchError, put_out};
use crate::place::Place;
use crate::queue::Queue;
use crate::turn::{Round, Turn};
use crate::visit::{Pace, Visit};
use crate::wish::Wish;
use bt_io::{Memory, Target};
use std::alloc::Global;

/// The places of a fetch over a device.
type Places<D> = Vec<Place<<D as Device>::Link>>;

/// Whether the metadata is there.
fn is_fetched(outcome: Outcome) -> bool
    ensures { result ≡ is_fetched_by outcome }
{
    matches!(outcome, Outcome::Fetched)
}

/// Frees a place whose connection ended, and puts its address back.
///
/// # Errors
/// `Memory` if memory is refused.
fn free<D: Device>(
    visit: Visit<D::Link>,
    ending: Ending,
    place: &mut Place<D::Link>,
    queue: &mut Queue,
    device: &mut D,
) -> Result<Turn, Memory>
    requires unwon { stage_after Going (EndedSo visit.address ending) ≡ Going }
    requires none { place.old.visit ≡ None }
    requires inside { 0 < D.inside device.old }
    ensures handshake { place.new.end.end.handshake ≡ place.old.end.end.handshake }
    ensures visit { place.new.visit ≡ None }
    ensures inside { D.inside device.new + 1 ≡ D.inside device.old }
    ensures places { D.places device.new ≡ D.places device.old }
    ensures list { D.list device.new ≡ D.list device.old }
    ensures ended { IfOk result (λ t. t ≡ Turn.Ended) }
    ensures unwon { stage_by result ≡ Going }
    ensures told { IsAdded (D.log device.old) (D.log device.new) (EndedSo visit.address ending) }
    ensures next { queue.new.next ≡ queue.old.next }
    ensures again { queue.new.again.items ≡ queue.old.again.items }
    ensures len { vec_len queue.new.again ≡ vec_len queue.old.again }
{
    let address = visit.address;
    device.ended(address, visit.line.link, ending);
    place.hearing.clear();
    place.end.reset()?;
    queue.put_back(address)?;
    Ok(Turn::Ended)
}

/// Tells how far the fetch over a connection has come, if there was news.
fn tell<D: Device>(visit: &Visit<D::Link>, place: &Place<D::Link>, device: &mut D)
    ensures log { D.log device.new ≡ D.log device.old }
    ensures inside { D.inside device.new ≡ D.inside device.old }
    ensures places { D.places device.new ≡ D.places device.old }
    ensures list { D.list device.new ≡ D.list device.old }
{
    if !visit.has_news {
        return;
    }
    if let Some(progress) = place.end.progress() {
        device.came(visit.address, progress);
    }
}

/// Gives the connection of a place its turn, or passes by it as long as nothing can be moved and no time is up.
///
/// `is_needed` says that another address waits for the place.
///
/// # Errors
/// `Memory` if memory is refused.
fn tend<D: Device>(
    wish: &Wish,
    time: u64,
    is_needed: bool,
    visit: Visit<D::Link>,
    place: &mut Place<D::Link>,
    queue: &mut Queue,
    device: &mut D,
) -> Result<Turn, Memory>
    requires none { place.old.visit ≡ None }
    requires inside { 0 < D.inside device.old }
    ensures handshake { place.new.end.end.handshake ≡ place.old.end.end.handshake }
    ensures inside { D.inside device.new + 1 ≡ D.inside device.old + one (is_some place.new.visit) }
    ensures places { D.places device.new ≡ D.places device.old }
    ensures list { D.list device.new ≡ D.list device.old }
    ensures late { is_needed ≡ true → IfSome place.new.visit (λ v. is_late v.talk.heard time ≡ false) }
    ensures patient { result ≡ Ok Turn.Waits → IfSome place.new.visit (λ v. IsPatient wish.now.patience time (D.Link.seen v.line.link).counts.clock v.talk) }
    ensures weight { IfOk result (λ t. weight (option_map (λ v. v.left) place.new.visit) ≤ visit.left) }
    ensures free { result ≢ Ok Turn.Free }
    ensures won { result ≡ Ok Turn.Won → is_some (metadata_of place.new.end.end.part) ≡ true }
    ensures next { queue.new.next ≡ queue.old.next }
    ensures again { queue.new.again.items ≡ queue.old.again.items }
    ensures len { vec_len queue.new.again ≡ vec_len queue.old.again }
    ensures log { (start : Option (List Happening)) (dials : ℕ → ℕ) → IsCourse Going start (D.log device.old) dials
        → IsCourse (stage_by result) start (D.log device.new) dials }
{
    let mut visit = visit;
    if visit.passes_by(wish, is_needed, time) {
        place.visit = Some(visit);
        return Ok(Turn::Waits);
    }
    let pace = visit.go_on(wish, &mut place.end, &mut place.hearing, time);
    tell(&visit, place, device);
    let is_late = is_needed && visit.is_late(time);
    match pace {
        Ok(Pace::GoesOn) if is_late => free(visit, Ending::Left, place, queue, device),
        Ok(Pace::GoesOn) => {
            place.visit = Some(visit);
            Ok(Turn::GoesOn)
        }
        Ok(Pace::Ended(outcome)) => {
            if is_fetched(outcome) {
                device.ended(visit.address, visit.line.link, Ending::By(outcome));
                return Ok(Turn::Won);
            }
            free(visit, Ending::By(outcome), place, queue, device)
        }
        Ok(Pace::Waits) if is_late => free(visit, Ending::Left, place, queue, device),
        Ok(Pace::Waits) => {
            place.visit = Some(visit);
            Ok(Turn::Waits)
        }
        Err(memory) => {
            device.ended(visit.address, visit.line.link, Ending::Left);
            Err(memory)
        }
    }
}

/// Gives a place its turn: its connection, or else a link that is open.
///
/// # Errors
/// `Memory` if memory is refused.
fn give_turn<D: Device>(
    wish: &Wish,
    time: u64,
    is_needed: bool,
    place: &mut Place<D::Link>,
    dials: &mut Dials<D::Link>,
    queue: &mut Queue,
    device: &mut D,
) -> Result<Turn, Memory>
    requires inside { one (is_some place.old.visit) + count_by (λ s. is_some s) dials.old.slots.items ≤ D.inside device.old }
    requires room { is_some place.old.visit ≡ false
        → D.inside device.old + vec_len dials.old.slots ≤ D.places device.old + count_by (λ s. is_some s) dials.old.slots.items }
    ensures handshake { place.new.end.end.handshake ≡ place.old.end.end.handshake }
    ensures inside { D.inside device.new + one (is_some place.old.visit) + count_by (λ s. is_some s) dials.old.slots.items
        ≡ D.inside device.old + one (is_some place.new.visit) + count_by (λ s. is_some s) dials.new.slots.items }
    ensures places { D.places device.new ≡ D.places device.old }
    ensures list { D.list device.new ≡ D.list device.old }
    ensures held { vec_len dials.new.slots ≡ vec_len dials.old.slots }
    ensures weight { IfOk result (λ t. weight (option_map (λ v. v.left) place.new.visit) + sum_by (λ s. burden (option_map (λ d. d.left) s)) dials.new.slots.items
        + cost (rest_of queue.new.next queue.new.again.items) + one (not (is_free t))
        ≤ weight (option_map (λ v. v.left) place.old.visit) + sum_by (λ s. burden (option_map (λ d. d.left) s)) dials.old.slots.items
        + cost (rest_of queue.old.next queue.old.again.items)) }
    ensures free { result ≡ Ok Turn.Free → queue.new.next ≡ vec_len queue.new.again }
    ensures won { result ≡ Ok Turn.Won → is_some (metadata_of place.new.end.end.part) ≡ true }
    ensures len { vec_len queue.new.again ≡ vec_len queue.old.again }
    ensures log { (start : Option (List Happening)) → IsCourse Going start (D.log device.old) (dials_of queue.old.next queue.old.again.items)
        → IsCourse (stage_by result) start (D.log device.new) (dials_of queue.new.next queue.new.again.items) }
{
    match place.visit.take() {
        Some(visit) => tend(wish, time, is_needed, visit, place, queue, device),
        None => dial_for(wish, time, place, dials, queue, device),
    }
}

/// Returns how many places are to be given up: for the addresses that have not come yet, and for a link that is open.
///
/// None while a place is free.
fn needed<D: Device>(
    places: &Places<D>,
    dials: &Dials<D::Link>,
    queue: &Queue,
    device: &D,
) -> usize {
    for place in places {
        if place.visit.is_none() {
            return 0;
        }
    }
    let waiting = has_open(dials, queue, device) as usize;
    queue.unseen().saturating_add(waiting)
}

/// Gives each place its turn, until an end has the metadata.
///
/// # Errors
/// `Memory` if memory is refused.
fn give_turns<D: Device>(
    wish: &Wish,
    places: &mut Places<D>,
    dials: &mut Dials<D::Link>,
    queue: &mut Queue,
    device: &mut D,
) -> Result<Round, Memory>
    requires some { 0 < vec_len places.old }
    requires kept { All (λ p. p.end.end.handshake ≡ handshake_of wish.now) places.old.items }
    requires inside { count_by (λ p. is_some p.visit) places.old.items + count_by (λ s. is_some s) dials.old.slots.items ≤ D.inside device.old }
    requires room { D.inside device.old + vec_len places.old + vec_len dials.old.slots
        ≤ D.places device.old + count_by (λ p. is_some p.visit) places.old.items + count_by (λ s. is_some s) dials.old.slots.items }
    ensures kept { All (λ p. p.end.end.handshake ≡ handshake_of wish.now) places.new.items }
    ensures inside { D.inside device.new + count_by (λ p. is_some p.visit) places.old.items + count_by (λ s. is_some s) dials.old.slots.items
        ≡ D.inside device.old + count_by (λ p. is_some p.visit) places.new.items + count_by (λ s. is_some s) dials.new.slots.items }
    ensures places { D.places device.new ≡ D.places device.old }
    ensures list { D.list device.new ≡ D.list device.old }
    ensures held { vec_len places.new ≡ vec_len places.old }
    ensures slots { vec_len dials.new.slots ≡ vec_len dials.old.slots }
    ensures weight { IfOk result (λ r. is_won r ≡ false → sum_by (λ p. weight (option_map (λ v. v.left) p.visit)) places.new.items
        + sum_by (λ s. burden (option_map (λ d. d.left) s)) dials.new.slots.items
        + cost (rest_of queue.new.next queue.new.again.items) + one (not (is_over r))
        ≤ sum_by (λ p. weight (option_map (λ v. v.left) p.visit)) places.old.items
        + sum_by (λ s. burden (option_map (λ d. d.left) s)) dials.old.slots.items + cost (rest_of queue.old.next queue.old.again.items)) }
    ensures over { result ≡ Ok Round.Over → queue.new.next ≡ vec_len queue.new.again }
    ensures won { IfOk result (λ r. IfWon r (λ k. (k < vec_len places.new) × HoldsAt (λ p. is_some (metadata_of p.end.end.part) ≡ true) places.new.items k)) }
    ensures len { vec_len queue.new.again ≡ vec_len queue.old.again }
    ensures log { (start : Option (List Happening)) → IsCourse Going start (D.log device.old) (dials_of queue.old.next queue.old.again.items)
        → IsCourse (stage_at result) start (D.log device.new) (dials_of queue.new.next queue.new.again.items) }
{
    let time = device.time();
    dials.widen(time);
    let mut needed = needed(places, dials, queue, device);
    let mut seeks = true;
    let mut is_over = true;
    let mut waits = true;
    for at in 0..places.len() {
        if !seeks && places[at].visit.is_none() {
            continue;
        }
        let turned = give_turn(
            wish,
            time,
            needed > 0,
            &mut places[at],
            dials,
            queue,
            device,
        )?;
        seeks = seeks && places[at].visit.is_some();
        match turned {
            Turn::Free => {}
            Turn::Waits => is_over = false,
            Turn::GoesOn => {
                is_over = false;
                waits = false;
            }
            Turn::Ended => {
                is_over = false;
                waits = false;
                needed = needed.saturating_sub(1);
            }
            Turn::Won => return Ok(Round::Won(at)),
        }
    }
    if is_over {
        return Ok(Round::Over);
    }
    if waits {
        return Ok(Round::Waits);
    }
    Ok(Round::GoesOn)
}

/// Adds the addresses to the queue that the device knows by now, and returns whether more may come.
///
/// # Errors
/// `Memory` if memory is refused.
fn grow<D: Device>(queue: &mut Queue, device: &mut D) -> Result<bool, Memory>
    requires fits { vec_len queue.old.again ≤ (D.list device.old).known }
    ensures fits { vec_len queue.new.again ≤ (D.list device.new).known }
    ensures known { IfOk result (λ more. vec_len queue.new.again ≡ (D.list device.new).known) }
    ensures all { result ≡ Ok false → (D.list device.new).is_all ≡ true }
    ensures weight { IfOk result (λ more. cost (rest_of queue.new.next queue.new.again.items) + outlook (D.list device.new) (vec_len queue.new.again) + one more
        ≤ cost (rest_of queue.old.next queue.old.again.items) + outlook (D.list device.old) (vec_len queue.old.again)) }
    ensures inside { D.inside device.new ≡ D.inside device.old }
    ensures places { D.places device.new ≡ D.places device.old }
    ensures log { (start : Option (List Happening)) → IsCourse Going start (D.log device.old) (dials_of queue.old.next queue.old.again.items)
        → IsCourse Going start (D.log device.new) (dials_of queue.new.next queue.new.again.items) }
{
    let more = device.more();
    queue.grow(device.known())?;
    Ok(more)
}

/// Fetches at places until an end has the metadata, and returns at which; `None` if no address is left and no more come.
///
/// # Errors
/// `Memory` if memory is refused.
fn fetch_at<D: Device>(
    wish: &Wish,
    places: &mut Places<D>,
    dials: &mut Dials<D::Link>,
    queue: &mut Queue,
    device: &mut D,
) -> Result<Option<usize>, Memory>
    requires some { 0 < vec_len places.old }
    requires kept { All (λ p. p.end.end.handshake ≡ handshake_of wish.now) places.old.items }
    requires inside { count_by (λ p. is_some p.visit) places.old.items + count_by (λ s. is_some s) dials.old.slots.items ≤ D.inside device.old }
    requires room { D.inside device.old + vec_len places.old + vec_len dials.old.slots
        ≤ D.places device.old + count_by (λ p. is_some p.visit) places.old.items + count_by (λ s. is_some s) dials.old.slots.items }
    requires fits { vec_len queue.old.again ≤ (D.list device.old).known }
    ensures kept { All (λ p. p.end.end.handshake ≡ handshake_of wish.now) places.new.items }
    ensures inside { D.inside device.new + count_by (λ p. is_some p.visit) places.old.items + count_by (λ s. is_some s) dials.old.slots.items
        ≡ D.inside device.old + count_by (λ p. is_some p.visit) places.new.items + count_by (λ s. is_some s) dials.new.slots.items }
    ensures all { result ≡ Ok None → queue.new.next ≡ vec_len queue.new.again }
    ensures won { IfOk result (λ o. IfSome o (λ k. (k < vec_len places.new) × HoldsAt (λ p. is_some (metadata_of p.end.end.part) ≡ true) places.new.items k)) }
    ensures known { result ≡ Ok None → vec_len queue.new.again ≡ (D.list device.new).known }
    ensures over { result ≡ Ok None → (D.list device.new).is_all ≡ true }
    ensures fits { vec_len queue.new.again ≤ (D.list device.new).known }
    ensures log { (start : Option (List Happening)) → IsCourse Going start (D.log device.old) (dials_of queue.old.next queue.old.again.items)
        → IsCourse (stage_when result) start (D.log device.new) (dials_of queue.new.next queue.new.again.items) }
{
    'rounds: loop {
        let more = grow(queue, device)?;
        match give_turns(wish, places, dials, queue, device)? {
            Round::Over => {
                if !more {
                    return Ok(None);
                }
                device.rest();
            }
            Round::Waits => device.rest(),
            Round::GoesOn => device.look(),
            Round::Won(at) => return Ok(Some(at)),
        }
    }
}

/// Closes the connection of a place, if one is open.
fn leave<D: Device>(place: Place<D::Link>, device: &mut D)
    requires { one (is_some place.visit) ≤ D.inside device.old }
    ensures inside { D.inside device.new + one (is_some place.visit) ≡ D.inside device.old }
    ensures list { D.list device.new ≡ D.list device.old }
    ensures log { (s : Stage) (start : Option (List Happening)) (dials : ℕ → ℕ) → IsCourse s start (D.log device.old) dials → IsCourse s start (D.log device.new) dials }
{
    let mut place = place;
    match place.visit.take() {
        Some(visit) => device.ended(visit.address, visit.line.link, Ending::Left),
        None => {}
    }
}

/// Closes the connections that are left.
fn leave_all<D: Device>(places: &mut Places<D>, device: &mut D)
    requires inside { count_by (λ p. is_some p.visit) places.old.items ≤ D.inside device.old }
    ensures inside { D.inside device.new + count_by (λ p. is_some p.visit) places.old.items ≡ D.inside device.old }
    ensures list { D.list device.new ≡ D.list device.old }
    ensures log { (s : Stage) (start : Option (List Happening)) (dials : ℕ → ℕ) → IsCourse s start (D.log device.old) dials → IsCourse s start (D.log device.new) dials }
{
    while let Some(place) = places.pop() {
        leave(place, device);
    }
}

/// Returns `count` places, one at least.
///
/// # Errors
/// `Memory` if memory is refused.
fn places_for<D: Device>(alloc: Global, wish: &Wish, count: usize) -> Result<Places<D>, Memory>
    requires { IsWish wish.now }
    ensures kept { IfOk result (λ places. All (λ p. p.end.end.handshake ≡ handshake_of wish.now) places.items) }
    ensures none { IfOk result (λ places. count_by (λ p. is_some p.visit) places.items ≡ 0) }
    ensures least { IfOk result (λ places. 0 < vec_len places) }
    ensures most { IfOk result (λ places. vec_len places ≤ max 1 count) }
{
    let count = count.max(1);
    let mut places = Vec::new(alloc);
    for _place in 0..count {
        let made = Place::new(alloc, wish)?;
        match places.push(made) {
            Ok(()) => {}
            Err(_) => return Err(Memory),
        }
    }
    Ok(places)
}

/// Writes the file of the metadata that the end at a place has, if one has.
fn write_out<D: Device, W: Target>(
    alloc: Global,
    wish: &Wish,
    pairs: Option<&[u8]>,
    fetched: Result<Option<usize>, Memory>,
    places: &Places<D>,
    writer: &mut W,
) -> Result<usize, FetchError>
    requires kept { All (λ p. p.end.end.handshake ≡ handshake_of wish.now) places.now.items }
    requires won { IfOk fetched (λ o. IfSome o (λ k. (k < vec_len places.now) × HoldsAt (λ p. is_some (metadata_of p.end.end.part) ≡ true) places.now.items k)) }
    ensures written { IsWritten (option_map (λ p. p.now) pairs.entry) wish.now.info_hash (W.seen writer.old).held (W.seen writer.new).held result }
    ensures fault { result ≡ Err FetchError.Write → WriteFailed (W.seen writer.old) (W.seen writer.new) }
    ensures stage { IsStage result (stage_when fetched) }
    ensures missing { result ≡ Err FetchError.NotFetched → fetched ≡ Ok None }
{
    match fetched? {
        Some(at) => put_out(alloc, pairs, &places[at].end, writer),
        None => Err(FetchError::NotFetched),
    }
}

/// Fetches metadata from a device's addresses, from up to `at_once` at the same time, and writes its file.
///
/// The file is the metadata; or, if there are `pairs`, a .torrent with these bencoded pairs before `info`: those of other keys, each less
/// than `info`, in order (BEP 3). While a place is free, up to [`DIALS`] addresses are dialled besides, and the first
/// connection that is open takes it: an address at which nobody answers takes no place. An address that failed comes again once after
/// all others that are known. While more addresses may come, the fetch waits for them. Nothing is written before all of the metadata
/// is there, and its SHA-1 is the info hash. All connections are closed when it returns. It returns how many bytes were written.
///
/// # Errors
/// `NotFetched` if no more addresses come, each was dialled and no connection gave the metadata, `Write` if a write failed, `Memory` if memory was refused.
pub fn fetch<D: Device, W: Target>(
    alloc: Global,
    wish: &Wish,
    pairs: Option<&[u8]>,
    at_once: usize,
    device: &mut D,
    writer: &mut W,
) -> Result<usize, FetchError>
    requires wish { IsWish wish.now }
    requires least { 0 < at_once }
    requires places { D.inside device.old + at_once + 256 ≤ D.places device.old }
    ensures written { IsWritten (option_map (λ p. p.now) pairs.entry) wish.now.info_hash (W.seen writer.old).held (W.seen writer.new).held result }
    ensures fault { result ≡ Err FetchError.Write → WriteFailed (W.seen writer.old) (W.seen writer.new) }
    ensures closed { D.inside device.new ≡ D.inside device.old }
    ensures over { result ≡ Err FetchError.NotFetched → (D.list device.new).is_all ≡ true }
    ensures log { IsLogged (D.list device.new).known (D.log device.old) (D.log device.new) result }
{
    let most = device.most();
    let mut queue = Queue::new(alloc);
    let mut places = places_for::<D>(alloc, wish, at_once.min(most))?;
    let mut dials = Dials::new(alloc, most, at_once)?;
    let fetched = fetch_at(wish, &mut places, &mut dials, &mut queue, device);
    let written = write_out::<D, W>(alloc, wish, pairs, fetched, &places, writer);
    leave_all::<D>(&mut places, device);
    leave_dials(dials, device);
    written
}
