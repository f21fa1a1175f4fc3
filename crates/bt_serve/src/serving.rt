//! The loop over all connections that are served.
ghost use Rattle.std.specs.Prelude.{◌≡◌, ◌+◌, ◌-◌, ◌<◌, ◌≤◌, vec_len, true, false, Some, IfOk, OnOk, OnErr, if◌then◌else◌};
ghost use Rattle.std.specs.Result.{is_ok};
ghost use Rattle.bt_exchange.specs.Boths.{capped};
ghost use Rattle.bt_exchange.specs.Courses.{Moment};
ghost use Rattle.bt_serve.specs.Doors.{AreAdmitted, AreEnough, AreMore, AreServed, AreTold, AreToldOf, AreToldUpTo, AreWithin, IsWithin, leaving};
ghost use Rattle.bt_serve.specs.Guests.{IsHospitality, IsServed, IsTurned};

use crate::door::{Door, Parting};
use crate::guest::{Ending, Guest, Hospitality, Pace};
use bt_exchange::Connection;
use bt_io::Memory;
use bt_torrent::piece_count;
use std::alloc::Global;
use std::rc::Rc;

/// The connections that are served at the moment, each with its name.
type Guests<D> = Vec<(Guest<<D as Door>::Link>, <D as Door>::Name)>;

/// What is said of a connection whose buffers were refused.
const UNSERVED: Parting = Parting {
    ending: Ending::Unserved,
    sent: 0,
    handled: 0,
};

/// What a visit returns if no connection has the index.
const PASSED: Option<Pace> = Some(Pace::Waits);

/// Lets a connection in, if one more may enter, there is a place and one waits. It returns whether one came.
fn let_in<D: Door>(
    alloc: Global,
    hospitality: &Hospitality,
    pieces: Option<u32>,
    metadata: &Rc<Vec<u8>>,
    may_enter: bool,
    door: &mut D,
    guests: &mut Guests<D>,
) -> Result<bool, Memory>
    requires { IsHospitality hospitality.now }
    ensures inside { D.inside door.new + vec_len guests.old ≡ D.inside door.old + vec_len guests.new }
    ensures guests { IfOk result (λ came. vec_len guests.new ≡ vec_len guests.old + (if came then 1 else 0)) }
    ensures may { IfOk result (λ came. came ≡ true → may_enter ≡ true) }
    ensures told { OnOk result (D.told door.new ≡ D.told door.old) }
    ensures unserved { OnErr result (AreToldOf (D.told door.old) (D.told door.new) false) }
    ensures left { OnErr result ((may_enter ≡ true) × (vec_len guests.new ≡ vec_len guests.old) × AreMore 1 (D.told door.old) (D.told door.new)) }
    ensures rounds { D.rounds door.new ≡ D.rounds door.old }
{
    if !may_enter || !door.has_place() {
        return Ok(false);
    }
    let Some((link, name)) = door.enter() else {
        return Ok(false);
    };
    let Ok(guest) = Guest::new(alloc, hospitality, pieces, metadata, link) else {
        door.ended(name, UNSERVED);
        return Err(Memory);
    };
    if guests.push((guest, name)).is_err() {
        door.ended(name, UNSERVED);
        return Err(Memory);
    }
    tell_place(door, guests, guests.len() - 1);
    Ok(true)
}

/// Lets a connection in, as [`let_in`] does. If its buffers were refused it is gone at once, and the others inside go on.
///
/// It returns how many came, and how many of them are gone.
///
/// # Errors
/// `Memory` if nobody else is inside: no end of a connection would give memory back.
fn admit<D: Door>(
    alloc: Global,
    hospitality: &Hospitality,
    pieces: Option<u32>,
    metadata: &Rc<Vec<u8>>,
    may_enter: bool,
    door: &mut D,
    guests: &mut Guests<D>,
) -> Result<(u64, u64), Memory>
    requires { IsHospitality hospitality.now }
    ensures inside { D.inside door.new + vec_len guests.old ≡ D.inside door.old + vec_len guests.new }
    ensures guests { IfOk result (λ r. vec_len guests.new + r.1 ≡ vec_len guests.old + r.0) }
    ensures may { IfOk result (λ r. r.0 ≤ (if may_enter then 1 else 0)) }
    ensures told { IfOk result (λ r. AreAdmitted r.1 (vec_len guests.new) (D.told door.old) (D.told door.new)) }
    ensures more { IfOk result (λ r. AreMore r.1 (D.told door.old) (D.told door.new)) }
    ensures unserved { OnErr result (AreToldOf (D.told door.old) (D.told door.new) false) }
    ensures left { OnErr result ((may_enter ≡ true) × (vec_len guests.old ≡ 0) × (vec_len guests.new ≡ 0) × AreMore 1 (D.told door.old) (D.told door.new)) }
    ensures rounds { D.rounds door.new ≡ D.rounds door.old }
{
    match let_in(
        alloc,
        hospitality,
        pieces,
        metadata,
        may_enter,
        door,
        guests,
    ) {
        Ok(came) => Ok((u64::from(came), 0)),
        Err(_) if guests.is_empty() => Err(Memory),
        Err(_) => Ok((1, 1)),
    }
}

/// Tells the door which connection has this index, if one has it.
fn tell_place<D: Door>(door: &mut D, guests: &Guests<D>, at: usize)
    ensures inside { D.inside door.new ≡ D.inside door.old }
    ensures told { D.told door.new ≡ D.told door.old }
    ensures rounds { D.rounds door.new ≡ D.rounds door.old }
{
    if let Some((guest, _)) = guests.get(at) {
        door.placed(guest.link(), at);
    }
}

/// Gives a connection its turn. If it ends, reports that to the door, and returns `None`.
fn tend_one<D: Door>(door: &mut D, name: D::Name, guest: &mut Guest<D::Link>) -> Option<Pace>
    requires { 0 < D.inside door.old }
    ensures inside { D.inside door.new + leaving result ≡ D.inside door.old }
    ensures patience { guest.new.patience ≡ guest.old.patience }
    ensures patient { result ≡ Some Pace.Waits → (D.Link.seen guest.new.link).counts.clock ≤ guest.new.watch.since + guest.old.patience }
    ensures told { AreTold (D.told door.old) (D.told door.new) true }
    ensures more { AreMore (leaving result) (D.told door.old) (D.told door.new) }
    ensures rounds { D.rounds door.new ≡ D.rounds door.old }
    ensures turned { (start : Moment)
        → IsServed start (record { seen = D.Link.seen guest.old.link; pending = guest.old.hearing; half = guest.old.end }) guest.old.watch.since guest.old.tally
        → IsTurned guest.old.patience start (record { seen = D.Link.seen guest.new.link; pending = guest.new.hearing; half = guest.new.end })
        guest.new.watch.since guest.new.tally name (D.told door.old) (D.told door.new) result }
{
    match guest.tend() {
        Ok(pace) => Some(pace),
        Err(parting) => {
            door.ended(name, parting);
            None
        }
    }
}

/// Tells the door of a connection that handled an item.
fn tell_handled<D: Door>(door: &mut D, has_handled: bool)
    ensures inside { D.inside door.new ≡ D.inside door.old }
    ensures told { D.told door.new ≡ D.told door.old }
    ensures rounds { D.rounds door.new ≡ D.rounds door.old }
{
    if has_handled {
        door.handled();
    }
}

/// Gives a connection its turn, if its socket may be ready. Else it passes by, at the price of a look at a flag.
fn visit<D: Door>(door: &mut D, guest: &mut (Guest<D::Link>, D::Name)) -> Option<Pace>
    requires { 0 < D.inside door.old }
    ensures inside { D.inside door.new + leaving result ≡ D.inside door.old }
    ensures patience { guest.new.0.patience ≡ guest.old.0.patience }
    ensures told { AreTold (D.told door.old) (D.told door.new) true }
    ensures more { AreMore (leaving result) (D.told door.old) (D.told door.new) }
    ensures rounds { D.rounds door.new ≡ D.rounds door.old }
    ensures turned { (start : Moment)
        → IsServed start (record { seen = D.Link.seen guest.old.0.link; pending = guest.old.0.hearing; half = guest.old.0.end }) guest.old.0.watch.since guest.old.0.tally
        → IsTurned guest.old.0.patience start (record { seen = D.Link.seen guest.new.0.link; pending = guest.new.0.hearing; half = guest.new.0.end })
        guest.new.0.watch.since guest.new.0.tally guest.old.1 (D.told door.old) (D.told door.new) result }
{
    if !guest.0.may_go_on() {
        return Some(Pace::Waits);
    }
    let before = guest.0.handled();
    let pace = tend_one(door, guest.1, &mut guest.0);
    tell_handled(door, guest.0.handled() != before);
    pace
}

/// Returns 1 after a turn that ended its connection, else 0.
fn one_if_gone(pace: Option<Pace>) -> u64
    ensures { result ≡ leaving pace }
{
    match pace {
        Some(_) => 0,
        None => 1,
    }
}

/// Returns the index after the connection that had its turn: if it ended, another one has its index.
fn after(pace: Option<Pace>, at: usize) -> usize
    ensures { result ≡ capped (at + (1 - leaving pace)) }
{
    match pace {
        Some(_) => at.saturating_add(1),
        None => at,
    }
}

/// Visits the connection of this index, if one has it, and drops it if it ended. Then the last one has its index.
fn visit_at<D: Door>(door: &mut D, at: usize, guests: &mut Guests<D>) -> Option<Pace>
    requires { vec_len guests.old ≤ D.inside door.old }
    ensures inside { D.inside door.new + leaving result ≡ D.inside door.old }
    ensures guests { vec_len guests.new + leaving result ≡ vec_len guests.old }
    ensures told { AreTold (D.told door.old) (D.told door.new) true }
    ensures more { AreMore (leaving result) (D.told door.old) (D.told door.new) }
    ensures rounds { D.rounds door.new ≡ D.rounds door.old }
{
    if at >= guests.len() {
        return PASSED;
    }
    let pace = visit(door, &mut guests[at]);
    if pace.is_none() {
        let _ = guests.swap_remove(at);
        tell_place(door, guests, at);
    }
    pace
}

/// Gives each connection that is due its turn, and drops those that ended.
///
/// It returns how many ended, and whether one can go on at once.
fn tend_all<D: Door>(door: &mut D, guests: &mut Guests<D>) -> (u64, bool)
    requires { vec_len guests.old ≤ D.inside door.old }
    ensures inside { D.inside door.new + vec_len guests.old ≡ D.inside door.old + vec_len guests.new }
    ensures told { AreTold (D.told door.old) (D.told door.new) true }
    ensures ended { vec_len guests.new + result.0 ≡ vec_len guests.old }
    ensures more { AreMore result.0 (D.told door.old) (D.told door.new) }
    ensures rounds { D.rounds door.new ≡ D.rounds door.old }
{
    let mut ended = 0u64;
    let mut is_busy = false;
    let mut next = 0;
    for _ in 0..guests.len() {
        let Some(at) = door.due(next) else {
            return (ended, is_busy);
        };
        let pace = visit_at(door, at, guests);
        is_busy |= pace == Some(Pace::GoesOn);
        ended += one_if_gone(pace);
        next = after(pace, at);
    }
    (ended, is_busy)
}

/// Reports how each connection that is left ended.
fn part_all<D: Door>(door: &mut D, guests: &mut Guests<D>)
    requires { vec_len guests.old ≤ D.inside door.old }
    ensures inside { D.inside door.new + vec_len guests.old ≡ D.inside door.old }
    ensures told { AreTold (D.told door.old) (D.told door.new) true }
    ensures more { AreMore (vec_len guests.old) (D.told door.old) (D.told door.new) }
    ensures rounds { D.rounds door.new ≡ D.rounds door.old }
{
    while let Some((guest, name)) = guests.pop() {
        door.ended(name, guest.parting(Ending::Closed));
    }
}

/// Returns whether one more connection may enter, after `entered` of as many as are asked for.
fn may_enter(connections: Option<u64>, entered: u64) -> bool
    requires { IsWithin connections entered }
    ensures more { result ≡ true → IsWithin connections (entered + 1) }
    ensures none { result ≡ false → connections ≡ Some entered }
{
    match connections {
        None => true,
        Some(most) => entered < most,
    }
}

/// Serves metadata to `connections` connections, or without end.
fn serve_all<D: Door>(
    alloc: Global,
    hospitality: &Hospitality,
    pieces: Option<u32>,
    metadata: &Rc<Vec<u8>>,
    connections: Option<u64>,
    door: &mut D,
    guests: &mut Guests<D>,
) -> Result<(), Memory>
    requires hospitality { IsHospitality hospitality.now }
    requires inside { vec_len guests.old ≤ D.inside door.old }
    requires nobody { vec_len guests.old ≡ 0 }
    ensures inside { D.inside door.new + vec_len guests.old ≡ D.inside door.old + vec_len guests.new }
    ensures told { AreToldUpTo (vec_len guests.new) (D.told door.old) (D.told door.new) (is_ok result) }
    ensures enough { OnOk result (AreServed connections (vec_len guests.new) (D.told door.old) (D.told door.new) (D.rounds door.new)) }
    ensures within { AreWithin connections (D.told door.old) (D.told door.new) (vec_len guests.new) }
{
    let mut entered = 0u64;
    let mut left = 0u64;
    for _round in 0..u64::MAX {
        if connections == Some(left) {
            return Ok(());
        }
        let may_enter = may_enter(connections, entered);
        let (came, gone) = admit(
            alloc,
            hospitality,
            pieces,
            metadata,
            may_enter,
            door,
            guests,
        )?;
        entered += came;
        let (ended, is_busy) = tend_all(door, guests);
        left += gone + ended;
        door.rest(came == 0 && !is_busy && ended == 0);
    }
    Ok(())
}

/// Serves metadata to `connections` connections, or without end.
///
/// At most as many are served at the same time as the door has places. Each connection that entered has ended when it
/// returns, and [`Door::ended`] was called for it. One for whose buffers there is no memory ends at once, and is reported to the door
/// as `Unserved`; the others go on.
///
/// # Errors
/// `Memory` if there is no memory for the buffers of a connection while no other is inside.
pub fn serve<D: Door>(
    alloc: Global,
    hospitality: &Hospitality,
    metadata: &Rc<Vec<u8>>,
    connections: Option<u64>,
    door: &mut D,
) -> Result<(), Memory>
    requires hospitality { IsHospitality hospitality.now }
    ensures inside { D.inside door.new ≡ D.inside door.old }
    // A connection without memory for its buffers is no error while others are inside: the last end that is told is one that was served.
    ensures told { AreToldOf (D.told door.old) (D.told door.new) (is_ok result) }
    ensures enough { OnOk result (AreEnough connections (D.told door.old) (D.told door.new) (D.rounds door.new)) }
    ensures within { AreWithin connections (D.told door.old) (D.told door.new) 0 }
{
    let pieces = piece_count(Rc::as_ref(metadata).as_slice());
    let mut guests: Guests<D> = Vec::new(alloc);
    let served = serve_all(
        alloc,
        hospitality,
        pieces,
        metadata,
        connections,
        door,
        &mut guests,
    );
    part_all(door, &mut guests);
    served
}
