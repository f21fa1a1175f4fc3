//! Bytes that wait far after the next one.
ghost use Rattle.std.specs.Prelude.{◌≡◌, ℕ, ◌+◌, ◌<◌, ◌≤◌, ◌^◌, length, false, None, IsSome, IfOk, OnOk};
ghost use Rattle.bt_tcp.specs.Segments.{or_else, byte_in};
ghost use Rattle.bt_flow.specs.Pages.{byte_of};

use crate::pages::Pages;
use std::alloc::{AllocError, Global};

/// Bytes, each at its place.
#[derive(Drop)]
pub struct Far {
    alloc: Global,
    pages: Pages,
    /// No byte is kept from here on.
    end: u64,
    ghost over: { (i : ℕ) → end ≤ i → byte_of pages i ≡ None },
}

impl Far {
    /// Returns no bytes.
    pub fn new(alloc: Global) -> Far
        ensures { (i : ℕ) → byte_of result.pages i ≡ None }
    {
        Far {
            alloc,
            pages: Pages::new(alloc),
            end: 0,
        }
    }

    /// Returns the byte at a place, if there is one.
    pub fn get(&self, place: u64) -> Option<u8>
        ensures is { result ≡ byte_of self.now.pages place }
        ensures below { IsSome result → place < self.now.end }
        ensures last { IsSome result → place + 1 < 2 ^ 64 }
    {
        if place >= self.end {
            return None;
        }
        self.pages.get(place)
    }

    /// Returns how many bytes of memory they take.
    pub fn size(&self) -> usize {
        self.pages.size()
    }

    /// Tells whether there may be a byte at one of some places.
    pub fn touches(&self, at: u64, len: usize) -> bool
        requires { at + len < 2 ^ 64 }
        ensures { result ≡ false → (i : ℕ) → at ≤ i → i < at + len → byte_of self.now.pages i ≡ None }
    {
        if at >= self.end {
            return false;
        }
        self.pages.touches(at, len)
    }

    /// Counts the places without a byte from one on, at most `most`.
    pub fn count_missing(&self, at: u64, most: usize) -> usize
        ensures most { result ≤ most }
        ensures none { (i : ℕ) → at ≤ i → i < at + result → byte_of self.now.pages i ≡ None }
        ensures ends { result < most → IsSome (byte_of self.now.pages (at + result)) }
    {
        let known = self.end.saturating_sub(at).min(most as u64) as usize;
        let count = self.pages.count_missing(at, known);
        if count < known { count } else { most }
    }

    /// Drops all of them.
    pub fn clear(&mut self)
        ensures { (i : ℕ) → byte_of self.new.pages i ≡ None }
    {
        self.pages = Pages::new(self.alloc);
        self.end = 0;
    }

    /// Keeps a segment's bytes. The earlier copy of a byte stays.
    #[cold]
    pub fn keep(&mut self, at: u64, part: &[u8]) -> Result<(), AllocError>
        requires { at + length part.now < 2 ^ 64 }
        ensures { OnOk result ((i : ℕ) → byte_of self.new.pages i
            ≡ or_else (byte_of self.old.pages i) (byte_in (record { place = at; bytes = part.now }) i)) }
    {
        match self.pages.keep(at, part) {
            Ok(()) => {
                self.end = self.end.max(at + part.len() as u64);
                Ok(())
            }
            Err(error) => {
                let alloc = self.alloc;
                self.pages = Pages::new(alloc);
                self.end = 0;
                Err(error)
            }
        }
    }

    /// Returns a segment's bytes, but those that are kept in place of the later ones.
    #[cold]
    pub fn merged(&self, at: u64, part: &[u8]) -> Result<Vec<u8>, AllocError>
        requires { at + length part.now < 2 ^ 64 }
        ensures len { IfOk result (λ all. length all.items ≡ length part.now) }
        ensures first { IfOk result (λ all. (i : ℕ) → or_else (byte_in (record { place = at; bytes = all.items }) i) (byte_of self.now.pages i)
            ≡ or_else (byte_of self.now.pages i) (byte_in (record { place = at; bytes = part.now }) i)) }
    {
        let mut all = Vec::new(self.alloc);
        for (j, b) in part.iter().enumerate() {
            all.push(self.get(at + j as u64).unwrap_or(*b))?;
        }
        Ok(all)
    }

    /// Drops bytes before a place, as far as that is quickly done.
    pub fn forget(&mut self, before: u64)
        ensures { (i : ℕ) → before ≤ i → byte_of self.new.pages i ≡ byte_of self.old.pages i }
    {
        if self.end <= before {
            if self.end > 0 {
                self.clear();
            }
            return;
        }
        self.pages.forget(before);
    }
}
