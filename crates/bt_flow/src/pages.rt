//! Bytes at places that may be far from one another.
ghost use Rattle.std.specs.Prelude.{◌≡◌, ◌≢◌, ℕ, ◌+◌, ◌*◌, ◌/◌, ◌%◌, ◌<◌, ◌≤◌, ◌^◌, length, true, false, None, IsSome, OnOk};
ghost use Rattle.bt_tcp.specs.Segments.{or_else, byte_in};
ghost use Rattle.std.specs.BTreeMap.{get};
ghost use Rattle.std.specs.Ordering.{nat_cmp};
ghost use Rattle.bt_flow.specs.Pages.{cell, in_page};

use std::alloc::{AllocError, Global};
use std::collections::BTreeMap;

/// How many places a page has.
const PAGE: u64 = 64;

/// How many bytes of memory a page may take, with its share of the map's.
const PAGE_SIZE: usize = 240;

/// Makes a page as long as it may be.
fn lengthen(page: &mut Vec<Option<u8>>) -> Result<(), AllocError>
    ensures cells { OnOk result ((k : ℕ) → cell page.new.items k ≡ cell page.old.items k) }
    ensures long { OnOk result (64 ≤ length page.new.items) }
{
    if page.len() < 64 {
        page.resize(64, None)?;
    }
    Ok(())
}

/// Puts a byte where there is none. The earlier one stays.
fn put(page: &mut Vec<Option<u8>>, index: usize, byte: u8)
    requires { index < length page.old.items }
    ensures here { cell page.new.items index ≡ or_else (cell page.old.items index) (Some byte) }
    ensures others { (k : ℕ) → k ≢ index → cell page.new.items k ≡ cell page.old.items k }
    ensures long { length page.new.items ≡ length page.old.items }
{
    if page[index].is_none() {
        page[index] = Some(byte);
    }
}

/// Puts bytes where there are none from an index on. The earlier copy of a byte stays.
fn fill(page: &mut Vec<Option<u8>>, from: usize, part: &[u8]) -> Result<(), AllocError>
    requires { from + length part.now ≤ 64 }
    ensures { OnOk result ((k : ℕ) → cell page.new.items k ≡ or_else (cell page.old.items k) (byte_in (record { place = from; bytes = part.now }) k)) }
{
    lengthen(page)?;
    for (j, b) in part.iter().enumerate() {
        put(page, from + j, *b);
    }
    Ok(())
}

/// Bytes, each at its place.
#[derive(Drop)]
pub struct Pages {
    alloc: Global,
    pages: BTreeMap<u64, Vec<Option<u8>>>,
}

impl Pages {
    ghost use Rattle.bt_flow.specs.Pages.{byte_of};

    /// Returns no bytes.
    pub fn new(alloc: Global) -> Pages
        ensures { (i : ℕ) → byte_of result i ≡ None }
    {
        Pages {
            alloc,
            pages: BTreeMap::new(alloc),
        }
    }

    /// Returns the byte at a place, if there is one.
    pub fn get(&self, place: u64) -> Option<u8>
        ensures { result ≡ byte_of self.now place }
    {
        match self.pages.get(&(place / PAGE)) {
            Some(page) => match page.get((place % PAGE) as usize) {
                Some(byte) => *byte,
                None => None,
            },
            None => None,
        }
    }

    /// Returns how many bytes of memory they take.
    pub fn size(&self) -> usize {
        self.pages.len().saturating_mul(PAGE_SIZE)
    }

    /// Tells whether there may be a byte at one of some places: whether they share a page with one.
    pub fn touches(&self, at: u64, len: usize) -> bool
        requires { at + len < 2 ^ 64 }
        ensures { result ≡ false → (i : ℕ) → at ≤ i → i < at + len → byte_of self.now i ≡ None }
    {
        if len == 0 {
            return false;
        }
        for number in at / PAGE..(at + len as u64 - 1) / PAGE + 1 {
            if self.pages.contains_key(&number) {
                return true;
            }
        }
        false
    }

    /// Returns how many places from one on are before the first page.
    fn before_first(&self, at: u64) -> u64
        ensures { (i : ℕ) → at ≤ i → i < at + result → byte_of self.now i ≡ None }
    {
        match self.pages.first_key_value() {
            Some((number, _)) => number.saturating_mul(PAGE).saturating_sub(at),
            None => u64::MAX,
        }
    }

    /// Returns how far to step from a place without a byte, past none.
    fn step(&self, place: u64) -> usize
        requires { byte_of self.now place ≡ None }
        ensures some { 0 < result }
        ensures none { (i : ℕ) → place ≤ i → i < place + result → byte_of self.now i ≡ None }
    {
        if self.pages.contains_key(&(place / PAGE)) {
            return 1;
        }
        (PAGE - place % PAGE) as usize
    }

    /// Counts the places without a byte from one on, at most `most`.
    pub fn count_missing(&self, at: u64, most: usize) -> usize
        requires { at + most < 2 ^ 64 }
        ensures most { result ≤ most }
        ensures none { (i : ℕ) → at ≤ i → i < at + result → byte_of self.now i ≡ None }
        ensures ends { result < most → IsSome (byte_of self.now (at + result)) }
    {
        let mut count = self.before_first(at).min(most as u64) as usize;
        while count < most {
            let place = at + count as u64;
            if self.get(place).is_some() {
                return count;
            }
            count += self.step(place).min(most - count);
        }
        most
    }

    /// Takes a page out. If there is none, it is a new one.
    fn take_page(&mut self, number: u64) -> Vec<Option<u8>>
        ensures page { (k : ℕ) → cell result.items k ≡ in_page (get nat_cmp self.old.pages number) k }
        ensures others { (q : ℕ) → q ≢ number → get nat_cmp self.new.pages q ≡ get nat_cmp self.old.pages q }
    {
        match self.pages.remove(&number) {
            Some(page) => page,
            None => Vec::new(self.alloc),
        }
    }

    /// Keeps bytes that lie in one page. The earlier copy of a byte stays.
    fn keep_in_page(&mut self, at: u64, part: &[u8]) -> Result<(), AllocError>
        requires { at % 64 + length part.now ≤ 64 }
        ensures { OnOk result ((i : ℕ) → byte_of self.new i ≡ or_else (byte_of self.old i) (byte_in (record { place = at; bytes = part.now }) i)) }
    {
        let number = at / PAGE;
        let mut page = self.take_page(number);
        fill(&mut page, (at % PAGE) as usize, part)?;
        self.pages.insert(number, page)?;
        Ok(())
    }

    /// Keeps bytes from a place on. The earlier copy of a byte stays.
    pub fn keep(&mut self, at: u64, part: &[u8]) -> Result<(), AllocError>
        requires { at + length part.now < 2 ^ 64 }
        ensures { OnOk result ((i : ℕ) → byte_of self.new i ≡ or_else (byte_of self.old i) (byte_in (record { place = at; bytes = part.now }) i)) }
    {
        let mut done = 0usize;
        while done < part.len() {
            let place = at + done as u64;
            let room = (PAGE - place % PAGE) as usize;
            let count = room.min(part.len() - done);
            self.keep_in_page(place, &part[done..done + count])?;
            done += count;
        }
        Ok(())
    }

    /// Drops the pages whose places are all before this one.
    pub fn forget(&mut self, before: u64)
        ensures { (i : ℕ) → before ≤ i → byte_of self.new i ≡ byte_of self.old i }
    {
        while let Some((number, _)) = self.pages.first_key_value() {
            if *number >= before / PAGE {
                return;
            }
            self.pages.pop_first();
        }
    }
}
