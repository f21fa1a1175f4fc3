//! The links that were dialled and wait for a place.
ghost use Rattle.std.specs.Prelude.{◌≡◌, ◌≢◌, ◌+◌, ◌*◌, ◌<◌, ◌≤◌, ◌^◌, ℕ, true, false, None, Some, Ok, vec_len, not, List, Option, option_map, is_some, count_by, sum_by, min, IfOk, IfSome};
ghost use Rattle.bt_exchange.specs.Lists.{IsAdded};
ghost use Rattle.bt_fetch.specs.Dials.{burden};
ghost use Rattle.bt_fetch.specs.Logs.{IsCourse, Stage, Going, stage_after};
ghost use Rattle.bt_fetch.specs.Queues.{dials_of, rest_of, one};
ghost use Rattle.bt_fetch.specs.Signs.{is_late};
ghost use Rattle.bt_fetch.specs.Swarms.{cost, is_free, stage_by, weight};
ghost use Rattle.bt_fetch.specs.declared.device.Happening.{Happening};
ghost use Rattle.bt_fetch.specs.declared.device.Happening.TheVariants.{Ended as EndedSo};

use crate::device::{Device, Ending, Outcome};
use crate::dial::{Dial, Fate};
use crate::place::Place;
use crate::queue::Queue;
use crate::turn::Turn;
use crate::visit::Visit;
use crate::wish::{Wish, first_window};
use bt_end::Window;
use bt_exchange::Connection;
use bt_io::Memory;
use std::alloc::Global;

/// How many links may wait for a place at the same time.
pub const DIALS: usize = 256;

/// After how long twice as many links may wait as before, in milliseconds. A loop sleeps longer.
const WIDENS: u64 = 40;

/// The slots of the links that wait for a place.
#[derive(Drop)]
pub struct Dials<L: Connection + Drop> {
    pub slots: Vec<Option<Dial<L>>>,
    /// How many of the slots are used so far.
    used: usize,
    /// When that number was last changed, in milliseconds of the device's clock; `None` before the first round.
    widened: Option<u64>,
    ghost some: { 0 < vec_len slots },
    ghost least: { 0 < used },
}

impl<L: Connection + Drop> Dials<L> {
    /// Returns free slots for the links of a fetch from at most so many addresses, one at least. `used` of them are used at first.
    ///
    /// # Errors
    /// `Memory` if memory is refused.
    pub fn new(alloc: Global, addresses: usize, used: usize) -> Result<Dials<L>, Memory>
        ensures none { IfOk result (λ d. count_by (λ s. is_some s) d.slots.items ≡ 0) }
        ensures most { IfOk result (λ d. vec_len d.slots ≤ 256) }
    {
        let count = addresses.min(DIALS).max(1);
        let mut slots = Vec::new(alloc);
        for _slot in 0..count {
            if slots.push(None).is_err() {
                return Err(Memory);
            }
        }
        Ok(Dials {
            slots,
            used: used.max(1),
            widened: None,
        })
    }

    /// Uses twice as many slots as before, if the last change was long enough ago.
    ///
    /// So no more addresses are dialled than places are free if peers answer soon.
    pub fn widen(&mut self, time: u64)
        ensures { self.new.slots ≡ self.old.slots }
    {
        if let Some(last) = self.widened {
            if time.saturating_sub(last) < WIDENS {
                return;
            }
            self.used = self.used.saturating_mul(2);
        }
        self.widened = Some(time);
    }
}

/// Returns how many blocks are asked for at once: one at a time from an address that comes again.
fn window_for(wish: &Wish, is_again: bool) -> Window {
    if wish.window.is_some() || !is_again {
        return first_window(wish);
    }
    match Window::new(1) {
        Some(one) => one,
        None => first_window(wish),
    }
}

/// Dials the next address for a slot that is free, and returns whether an address waited.
///
/// # Errors
/// `Memory` if memory is refused.
fn dial_next<D: Device>(
    time: u64,
    slot: &mut Option<Dial<D::Link>>,
    queue: &mut Queue,
    device: &mut D,
) -> Result<bool, Memory>
    requires free { slot.old ≡ None }
    requires room { D.inside device.old < D.places device.old }
    ensures inside { D.inside device.new ≡ D.inside device.old + one (is_some slot.new) }
    ensures places { D.places device.new ≡ D.places device.old }
    ensures list { D.list device.new ≡ D.list device.old }
    ensures weight { IfOk result (λ b. burden (option_map (λ d. d.left) slot.new) + cost (rest_of queue.new.next queue.new.again.items) + one b
        ≤ cost (rest_of queue.old.next queue.old.again.items)) }
    ensures free { result ≡ Ok false → (queue.new.next ≡ vec_len queue.new.again) × (slot.new ≡ None) }
    ensures len { vec_len queue.new.again ≡ vec_len queue.old.again }
    ensures log { (start : Option (List Happening)) → IsCourse Going start (D.log device.old) (dials_of queue.old.next queue.old.again.items)
        → IsCourse Going start (D.log device.new) (dials_of queue.new.next queue.new.again.items) }
{
    let Some(address) = queue.take() else {
        return Ok(false);
    };
    match device.dial(address) {
        Some(link) => *slot = Some(Dial::new(address, link, time)),
        None => queue.put_back(address)?,
    }
    Ok(true)
}

/// Gives a place to a link that is open.
fn seat<L: Connection + Drop>(
    wish: &Wish,
    time: u64,
    dial: Dial<L>,
    place: &mut Place<L>,
    queue: &Queue,
)
    requires none { place.old.visit ≡ None }
    ensures handshake { place.new.end.end.handshake ≡ place.old.end.end.handshake }
    ensures visit { option_map (λ v. v.left) place.new.visit ≡ Some (2 ^ 32) }
{
    let window = window_for(wish, queue.is_again(dial.address));
    let is_wide = wish.window.is_none() && window.get() > 1;
    place.end.set_window(window);
    place.visit = Some(Visit::new(dial.address, dial.link, is_wide, time));
}

/// Closes a link that gets no place, and puts its address back.
///
/// # Errors
/// `Memory` if memory is refused.
fn give_up<D: Device>(
    dial: Dial<D::Link>,
    ending: Ending,
    queue: &mut Queue,
    device: &mut D,
) -> Result<Turn, Memory>
    requires inside { 0 < D.inside device.old }
    ensures inside { D.inside device.new + 1 ≡ D.inside device.old }
    ensures places { D.places device.new ≡ D.places device.old }
    ensures list { D.list device.new ≡ D.list device.old }
    ensures ended { IfOk result (λ t. t ≡ Turn.Ended) }
    ensures told { IsAdded (D.log device.old) (D.log device.new) (EndedSo dial.address ending) }
    ensures next { queue.new.next ≡ queue.old.next }
    ensures again { queue.new.again.items ≡ queue.old.again.items }
    ensures len { vec_len queue.new.again ≡ vec_len queue.old.again }
{
    let address = dial.address;
    device.ended(address, dial.link, ending);
    queue.put_back(address)?;
    Ok(Turn::Ended)
}

/// Looks at a link: it takes the place, waits on, or ends.
///
/// # Errors
/// `Memory` if memory is refused.
fn look_at<D: Device>(
    wish: &Wish,
    time: u64,
    dial: Dial<D::Link>,
    slot: &mut Option<Dial<D::Link>>,
    place: &mut Place<D::Link>,
    queue: &mut Queue,
    device: &mut D,
) -> Result<Turn, Memory>
    requires free { slot.old ≡ None }
    requires none { place.old.visit ≡ None }
    requires inside { 0 < D.inside device.old }
    ensures handshake { place.new.end.end.handshake ≡ place.old.end.end.handshake }
    ensures inside { D.inside device.new + 1 ≡ D.inside device.old + one (is_some slot.new) + one (is_some place.new.visit) }
    ensures places { D.places device.new ≡ D.places device.old }
    ensures list { D.list device.new ≡ D.list device.old }
    ensures patient { IfSome slot.new (λ d. time ≤ d.since + 1000 * min 5 wish.now.patience) }
    ensures late { queue.old.next < vec_len queue.old.again → IfSome slot.new (λ d. is_late d.since time ≡ false) }
    ensures weight { IfOk result (λ t. burden (option_map (λ d. d.left) slot.new) + weight (option_map (λ v. v.left) place.new.visit) + 1
        ≤ burden (Some dial.left)) }
    ensures free { result ≢ Ok Turn.Free }
    ensures unwon { stage_by result ≡ Going }
    ensures next { queue.new.next ≡ queue.old.next }
    ensures again { queue.new.again.items ≡ queue.old.again.items }
    ensures len { vec_len queue.new.again ≡ vec_len queue.old.again }
    ensures log { (start : Option (List Happening)) (dials : ℕ → ℕ) → IsCourse Going start (D.log device.old) dials → IsCourse Going start (D.log device.new) dials }
{
    let mut dial = dial;
    let is_open = device.is_open(&dial.link);
    match dial.fate(is_open, queue.unseen() > 0, wish.patience, time) {
        Fate::Opens => {
            seat(wish, time, dial, place, queue);
            Ok(Turn::GoesOn)
        }
        Fate::Waits => {
            *slot = Some(dial);
            Ok(Turn::Waits)
        }
        Fate::Late => give_up(dial, Ending::Left, queue, device),
        Fate::Dead => give_up(dial, Ending::By(Outcome::Unreachable), queue, device),
    }
}

/// Gives a slot its turn: if it is free the next address is dialled, and then its link is looked at.
///
/// # Errors
/// `Memory` if memory is refused.
fn take_turn<D: Device>(
    wish: &Wish,
    time: u64,
    slot: &mut Option<Dial<D::Link>>,
    place: &mut Place<D::Link>,
    queue: &mut Queue,
    device: &mut D,
) -> Result<Turn, Memory>
    requires none { place.old.visit ≡ None }
    requires inside { one (is_some slot.old) ≤ D.inside device.old }
    requires room { is_some slot.old ≡ false → D.inside device.old < D.places device.old }
    ensures handshake { place.new.end.end.handshake ≡ place.old.end.end.handshake }
    ensures inside { D.inside device.new + one (is_some slot.old) ≡ D.inside device.old + one (is_some slot.new) + one (is_some place.new.visit) }
    ensures places { D.places device.new ≡ D.places device.old }
    ensures list { D.list device.new ≡ D.list device.old }
    ensures weight { IfOk result (λ t. burden (option_map (λ d. d.left) slot.new) + weight (option_map (λ v. v.left) place.new.visit)
        + cost (rest_of queue.new.next queue.new.again.items) + one (not (is_free t))
        ≤ burden (option_map (λ d. d.left) slot.old) + cost (rest_of queue.old.next queue.old.again.items)) }
    ensures free { result ≡ Ok Turn.Free → (queue.new.next ≡ vec_len queue.new.again) × (place.new.visit ≡ None) }
    ensures len { vec_len queue.new.again ≡ vec_len queue.old.again }
    ensures log { (start : Option (List Happening)) → IsCourse Going start (D.log device.old) (dials_of queue.old.next queue.old.again.items)
        → IsCourse Going start (D.log device.new) (dials_of queue.new.next queue.new.again.items) }
{
    if slot.is_none() && !dial_next::<D>(time, slot, queue, device)? {
        return Ok(Turn::Free);
    }
    match slot.take() {
        Some(dial) => look_at(wish, time, dial, slot, place, queue, device),
        None => Ok(Turn::Ended),
    }
}

/// Gives each slot that is used its turn, until a link takes the place, which is free.
///
/// # Errors
/// `Memory` if memory is refused.
pub fn dial_for<D: Device>(
    wish: &Wish,
    time: u64,
    place: &mut Place<D::Link>,
    dials: &mut Dials<D::Link>,
    queue: &mut Queue,
    device: &mut D,
) -> Result<Turn, Memory>
    requires none { place.old.visit ≡ None }
    requires inside { count_by (λ s. is_some s) dials.old.slots.items ≤ D.inside device.old }
    requires room { D.inside device.old + vec_len dials.old.slots ≤ D.places device.old + count_by (λ s. is_some s) dials.old.slots.items }
    ensures handshake { place.new.end.end.handshake ≡ place.old.end.end.handshake }
    ensures inside { D.inside device.new + count_by (λ s. is_some s) dials.old.slots.items
        ≡ D.inside device.old + count_by (λ s. is_some s) dials.new.slots.items + one (is_some place.new.visit) }
    ensures places { D.places device.new ≡ D.places device.old }
    ensures list { D.list device.new ≡ D.list device.old }
    ensures held { vec_len dials.new.slots ≡ vec_len dials.old.slots }
    ensures weight { IfOk result (λ t. sum_by (λ s. burden (option_map (λ d. d.left) s)) dials.new.slots.items
        + weight (option_map (λ v. v.left) place.new.visit) + cost (rest_of queue.new.next queue.new.again.items) + one (not (is_free t))
        ≤ sum_by (λ s. burden (option_map (λ d. d.left) s)) dials.old.slots.items + cost (rest_of queue.old.next queue.old.again.items)) }
    ensures free { result ≡ Ok Turn.Free → queue.new.next ≡ vec_len queue.new.again }
    ensures unwon { stage_by result ≡ Going }
    ensures len { vec_len queue.new.again ≡ vec_len queue.old.again }
    ensures log { (start : Option (List Happening)) → IsCourse Going start (D.log device.old) (dials_of queue.old.next queue.old.again.items)
        → IsCourse Going start (D.log device.new) (dials_of queue.new.next queue.new.again.items) }
{
    let mut is_over = true;
    let mut waits = true;
    let used = dials.used.min(dials.slots.len());
    for at in 0..used {
        let turned = take_turn(wish, time, &mut dials.slots[at], place, queue, device)?;
        if place.visit.is_some() {
            return Ok(Turn::GoesOn);
        }
        match turned {
            Turn::Free => {}
            Turn::Waits => is_over = false,
            Turn::GoesOn | Turn::Ended | Turn::Won => {
                is_over = false;
                waits = false;
            }
        }
    }
    if is_over {
        return Ok(Turn::Free);
    }
    if waits {
        return Ok(Turn::Waits);
    }
    Ok(Turn::Ended)
}

/// Returns whether a link is open to an address that comes for the first time.
pub fn has_open<D: Device>(dials: &Dials<D::Link>, queue: &Queue, device: &D) -> bool {
    for slot in &dials.slots {
        if let Some(dial) = slot {
            if !queue.is_again(dial.address) && device.is_open(&dial.link) == Some(true) {
                return true;
            }
        }
    }
    false
}

/// Closes the link of a slot, if it has one.
fn leave_slot<D: Device>(slot: Option<Dial<D::Link>>, device: &mut D)
    requires { one (is_some slot) ≤ D.inside device.old }
    ensures inside { D.inside device.new + one (is_some slot) ≡ D.inside device.old }
    ensures list { D.list device.new ≡ D.list device.old }
    ensures log { (s : Stage) (start : Option (List Happening)) (dials : ℕ → ℕ) → IsCourse s start (D.log device.old) dials → IsCourse s start (D.log device.new) dials }
{
    match slot {
        Some(dial) => device.ended(dial.address, dial.link, Ending::Left),
        None => {}
    }
}

/// Closes the links that are left.
pub fn leave_dials<D: Device>(dials: Dials<D::Link>, device: &mut D)
    requires inside { count_by (λ s. is_some s) dials.slots.items ≤ D.inside device.old }
    ensures inside { D.inside device.new + count_by (λ s. is_some s) dials.slots.items ≡ D.inside device.old }
    ensures list { D.list device.new ≡ D.list device.old }
    ensures log { (s : Stage) (start : Option (List Happening)) (dials : ℕ → ℕ) → IsCourse s start (D.log device.old) dials → IsCourse s start (D.log device.new) dials }
{
    let mut slots = dials.slots;
    while let Some(slot) = slots.pop() {
        leave_slot(slot, device);
    }
}
