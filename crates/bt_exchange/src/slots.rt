//! The slots of the sockets that a loop waits for, and a list of those that may be ready.
ghost use Rattle.std.specs.Prelude.{◌≡◌, ◌==◌, ◌&&◌, ◌<◌, ◌≤◌, ◌+◌, vec_len, length, option_to_list, slice_index_or, take, ℕ, not, None, IfSome};

use crate::polled::Flag;
use std::alloc::{AllocError, Global};
use std::cell::Cell;
use std::rc::Rc;

/// What is kept of a socket.
#[derive(Drop)]
struct Slot {
    /// Up if the socket may be ready. The slot is free while nobody else has it.
    flag: Rc<Cell<bool>>,
    /// The index of the socket's connection in the loop, if the loop told it.
    at: Option<usize>,
    is_listed: bool,
}

/// The slots of a loop's sockets. Each one that the loop placed is listed once it is up, until it was found down.
#[derive(Drop)]
pub(crate) struct Slots {
    slots: Vec<Slot>,
    /// The numbers of the slots that are listed, each once.
    listed: Vec<usize>,
    /// How many of these were given out in this round.
    given: usize,
}

/// Returns whether a slot is free whose flag has so many owners: nobody has it but the slot.
fn is_free(owners: usize) -> bool
    ensures { result ≡ (owners == 1) }
{
    owners == 1
}

/// Returns whether the connection of a slot may be able to go on: its flag is up, and somebody else has it.
fn is_due(is_up: bool, owners: usize) -> bool
    ensures { result ≡ (is_up && not (owners == 1)) }
{
    is_up && !is_free(owners)
}

impl Slot {
    /// Returns the index of the connection, if that may be able to go on.
    fn due(&self) -> Option<usize> {
        if is_due(self.flag.get(), Rc::strong_count(&self.flag)) {
            return self.at;
        }
        None
    }
}

impl Slots {
    /// Returns so many free slots.
    ///
    /// # Errors
    /// `AllocError` when out of memory. No later call takes any.
    pub(crate) fn new(alloc: Global, count: usize) -> Result<Slots, AllocError> {
        let listed = Vec::with_capacity(alloc, count)?;
        let mut slots = Vec::with_capacity(alloc, count)?;
        for _slot in 0..count {
            let slot = Slot {
                flag: Rc::new(alloc, Cell::new(true))?,
                at: None,
                is_listed: false,
            };
            if slots.push(slot).is_err() {
                return Err(AllocError);
            }
        }
        Ok(Slots {
            slots,
            listed,
            given: 0,
        })
    }

    /// Returns the number of the first free slot.
    fn first_free(&self) -> Option<usize>
        ensures { IfSome result (λ number. number < vec_len self.now.slots) }
    {
        for number in 0..self.slots.len() {
            if is_free(Rc::strong_count(&self.slots[number].flag)) {
                return Some(number);
            }
        }
        None
    }

    /// Returns the flag of a free slot, which is up, and the slot's number. The slot has no connection yet.
    pub(crate) fn take(&mut self) -> Option<(Flag, usize)> {
        let number = self.first_free()?;
        let slot = &mut self.slots[number];
        let flag = Flag::of(&slot.flag, number).ok()?;
        slot.at = None;
        Some((flag, number))
    }

    /// Hears the index of a slot's connection, and lists the slot if it is up.
    pub(crate) fn place(&mut self, number: usize, at: usize)
        ensures { take (vec_len self.old.listed) self.new.listed.items ≡ self.old.listed.items }
    {
        if let Some(slot) = self.slots.get_mut(number) {
            slot.at = Some(at);
        }
        self.list(number);
    }

    /// Raises a flag, if there is one of this number, and lists its slot.
    pub(crate) fn raise(&mut self, number: usize)
        ensures { take (vec_len self.old.listed) self.new.listed.items ≡ self.old.listed.items }
    {
        if let Some(slot) = self.slots.get(number) {
            slot.flag.set(true);
        }
        self.list(number);
    }

    /// Raises all flags, and lists all slots.
    pub(crate) fn raise_all(&mut self) {
        for number in 0..self.slots.len() {
            self.raise(number);
        }
    }

    /// Lists a slot whose connection may be able to go on, unless it is listed.
    fn list(&mut self, number: usize)
        ensures { take (vec_len self.old.listed) self.new.listed.items ≡ self.old.listed.items }
    {
        let Some(slot) = self.slots.get_mut(number) else {
            return;
        };
        if !slot.is_listed && slot.due().is_some() {
            slot.is_listed = self.listed.push(number).is_ok();
        }
    }

    /// Begins a round: what is listed is given out once more.
    pub(crate) fn begin(&mut self)
        ensures given { self.new.given ≡ 0 }
        ensures listed { self.new.listed.items ≡ self.old.listed.items }
    {
        self.given = 0;
    }

    /// Returns the index of the connection of a listed slot, if that may be able to go on. Else the slot leaves the list.
    fn still_due(&mut self, number: usize) -> Option<usize>
        ensures listed { self.new.listed ≡ self.old.listed }
        ensures given { self.new.given ≡ self.old.given }
    {
        let slot = self.slots.get_mut(number)?;
        let at = slot.due();
        slot.is_listed = at.is_some();
        at
    }

    /// Returns the index of the next connection that may be able to go on, each once in a round.
    ///
    /// It takes those off the list that can't.
    pub(crate) fn next(&mut self) -> Option<usize>
        ensures once { self.new.given ≡ self.old.given + length (option_to_list result) }
        ensures all { result ≡ None → vec_len self.new.listed ≤ self.old.given }
        ensures kept { (k d : ℕ) → k < self.old.given → k < vec_len self.old.listed
            → slice_index_or self.new.listed.items k d ≡ slice_index_or self.old.listed.items k d }
    {
        while self.given < self.listed.len() {
            let number = self.listed[self.given];
            if let Some(at) = self.still_due(number) {
                self.given += 1;
                return Some(at);
            }
            let _ = self.listed.swap_remove(self.given);
        }
        None
    }
}
