//! The addresses that wait to be dialled.
ghost use Rattle.std.specs.Prelude.{◌≡◌, ◌+◌, ◌-◌, ◌*◌, ◌<◌, ◌≤◌, ℕ, None, Some, true, vec_len, is_some, max, IfOk};
ghost use Rattle.bt_fetch.specs.Queues.{dials_of, rest_of, one, taken};

use bt_io::Memory;
use std::alloc::Global;

/// The addresses of a list that may grow. Each comes once, and once more after all others that are known if it was put back.
#[derive(Drop)]
pub struct Queue {
    /// The first address that hasn't come.
    next: usize,
    /// Whether the address of this number has come again.
    again: Vec<bool>,
    /// The addresses that were put back, in order.
    back: Vec<usize>,
    /// How many of these have come again.
    passed: usize,
    ghost within: { next ≤ vec_len again },
}

impl Queue {
    /// Returns a queue of no addresses.
    pub fn new(alloc: Global) -> Queue
        ensures none { (k : ℕ) → dials_of result.next result.again.items k ≡ 0 }
        ensures len { vec_len result.again ≡ 0 }
    {
        Queue {
            next: 0,
            again: Vec::new(alloc),
            back: Vec::new(alloc),
            passed: 0,
        }
    }

    /// Adds addresses at the end, until there are so many.
    ///
    /// # Errors
    /// `Memory` if memory is refused.
    pub fn grow(&mut self, addresses: usize) -> Result<(), Memory>
        ensures dials { (k : ℕ) → dials_of self.new.next self.new.again.items k ≡ dials_of self.old.next self.old.again.items k }
        ensures rest { rest_of self.new.next self.new.again.items + 2 * vec_len self.old.again ≡ rest_of self.old.next self.old.again.items + 2 * vec_len self.new.again }
        ensures grown { vec_len self.old.again ≤ vec_len self.new.again }
        ensures most { vec_len self.new.again ≤ max (vec_len self.old.again) addresses }
        ensures all { IfOk result (λ _. addresses ≤ vec_len self.new.again) }
    {
        if addresses <= self.again.len() {
            return Ok(());
        }
        match self.again.resize(addresses, false) {
            Ok(()) => Ok(()),
            Err(_) => Err(Memory),
        }
    }

    /// Returns how many addresses have not come yet.
    pub fn unseen(&self) -> usize
        ensures { result ≡ vec_len self.now.again - self.now.next }
    {
        self.again.len() - self.next
    }

    /// Returns the next address; `None` if none waits.
    pub fn take(&mut self) -> Option<usize>
        ensures dials { (k : ℕ) → dials_of self.new.next self.new.again.items k ≡ dials_of self.old.next self.old.again.items k + taken result k }
        ensures rest { rest_of self.new.next self.new.again.items + one (is_some result) ≡ rest_of self.old.next self.old.again.items }
        ensures first { self.old.next < vec_len self.old.again → result ≡ Some self.old.next }
        ensures all { result ≡ None → self.new.next ≡ vec_len self.new.again }
        ensures len { vec_len self.new.again ≡ vec_len self.old.again }
    {
        if self.next < self.again.len() {
            let address = self.next;
            self.next += 1;
            return Some(address);
        }
        let address = *self.back.get(self.passed)?;
        if address >= self.again.len() || self.again[address] {
            return None;
        }
        self.again[address] = true;
        self.passed = self.passed.saturating_add(1);
        Some(address)
    }

    /// Returns whether the address has come again.
    pub fn is_again(&self, address: usize) -> bool {
        self.again.get(address) == Some(&true)
    }

    /// Puts an address back that failed. It comes once more, if it has come once.
    ///
    /// # Errors
    /// `Memory` if memory is refused.
    pub fn put_back(&mut self, address: usize) -> Result<(), Memory>
        ensures next { self.new.next ≡ self.old.next }
        ensures again { self.new.again.items ≡ self.old.again.items }
        ensures len { vec_len self.new.again ≡ vec_len self.old.again }
    {
        if self.is_again(address) {
            return Ok(());
        }
        match self.back.push(address) {
            Ok(()) => Ok(()),
            Err(_) => Err(Memory),
        }
    }
}
