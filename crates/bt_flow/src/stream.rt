//! A stream from its base on, with the memory that it owns.
ghost use Rattle.std.specs.Prelude.{◌≡◌, ℕ, ◌+◌, ◌-◌, ◌<◌, ◌≤◌, ◌^◌, List, [], ◌++◌, length, true, false, min, None, IsSome, IfOk, OnOk, OnErr};
ghost use Rattle.bt_tcp.specs.History.{IsHistory};

use crate::wide::WideWindow;
use bt_tcp::history;
use std::alloc::{AllocError, Global};

/// Remembers bytes that were handed out in two parts, after which there are `end` in all.
fn remember(history: &mut Vec<u8>, end: u64, first: &[u8], rest: &[u8]) -> Result<(), AllocError>
    ensures { OnOk result ((out : List ℕ) → end ≡ length out + length first.now + length rest.now → IsHistory history.old.items out
        → IsHistory history.new.items (out ++ (first.now ++ rest.now))) }
{
    let between = end.saturating_sub(rest.len() as u64);
    let offset = between.saturating_sub(first.len() as u64);
    history::remember(history, offset, first)?;
    history::remember(history, between, rest)?;
    Ok(())
}

/// A stream from its base on.
#[derive(Drop)]
pub struct Stream {
    base: u64,
    /// The place after the last hole that was passed, or the base. Bytes before it aren't compared.
    resumed: u64,
    window: WideWindow,
    history: Vec<u8>,
    conflicts: u64,
    is_lost: bool,
}

impl Stream {
    ghost use Rattle.bt_flow.specs.Wide.{next_of, seen, capacity_of};
    ghost use Rattle.bt_flow.specs.Streams.{IsStreamOf, Advances, StreamPasses, StreamTakes, conflicts_since, is_probe};
    ghost use Rattle.bt_flow.specs.Views.{AppendsAfter};

    /// Returns a stream that begins at a place.
    ///
    /// # Errors
    /// `AllocError` when out of memory.
    pub fn new(alloc: Global, base: u64) -> Result<Stream, AllocError>
        ensures base { IfOk result (λ s. s.base ≡ base) }
        ensures resumed { IfOk result (λ s. s.resumed ≡ base) }
        ensures taken { IfOk result (λ s. IsStreamOf [] [] s) }
        ensures conflicts { IfOk result (λ s. s.conflicts ≡ 0) }
        ensures open { IfOk result (λ s. s.is_lost ≡ false) }
    {
        let window = WideWindow::new(alloc, base)?;
        Ok(Stream {
            base,
            resumed: base,
            window,
            history: Vec::new(alloc),
            conflicts: 0,
            is_lost: false,
        })
    }

    /// Returns where it begins.
    pub fn base(&self) -> u64
        ensures { result ≡ self.now.base }
    {
        self.base
    }

    /// Returns the place that is handed out next.
    pub fn next(&self) -> u64
        ensures { result ≡ next_of self.now.window }
    {
        self.window.next()
    }

    /// Returns how many bytes of segments differed from those that came first.
    pub fn conflicts(&self) -> u64
        ensures { result ≡ self.now.conflicts }
    {
        self.conflicts
    }

    /// Tells whether a gap is final.
    pub fn is_lost(&self) -> bool
        ensures { result ≡ self.now.is_lost }
    {
        self.is_lost
    }

    /// Returns how many places its ring has past the first eight.
    pub fn held(&self) -> usize
        ensures { result + 8 ≡ capacity_of self.now.window }
    {
        self.window.held()
    }

    /// Returns how many bytes of memory it takes.
    pub fn size(&self) -> usize
        ensures { capacity_of self.now.window ≤ result }
    {
        self.window.size().saturating_add(self.history.capacity())
    }

    /// Tells whether a segment may be a keep-alive: it has one byte, before the next one (RFC 1122 4.2.3.6).
    fn is_probe(&self, at: u64, size: usize) -> bool
        requires { at + size < 2 ^ 63 }
        ensures { result ≡ is_probe at size (next_of self.now.window) }
    {
        size == 1 && at + 1 == self.window.next()
    }

    /// Counts the bytes of a segment that differ from those that came first. A keep-alive has none.
    fn count_conflicts(&self, at: u64, part: &[u8]) -> u64
        requires { at + length part.now < 2 ^ 63 }
        ensures { (since : List ℕ) → next_of self.now.window ≡ self.now.resumed + length since → IsHistory self.now.history.items since
            → result ≡ min (2 ^ 64 - 1) (conflicts_since since self.now at part.now) }
    {
        if self.is_probe(at, part.len()) {
            return 0;
        }
        let next = self.window.next();
        let ahead = self.window.count_conflicts(at, part);
        if at >= next {
            return ahead as u64;
        }
        let before = history::count_conflicts(&self.history, self.resumed, next, at, part);
        before.saturating_add(ahead) as u64
    }

    /// Takes a segment while nothing is lost.
    fn go_on<'a>(
        &mut self,
        at: u64,
        part: &'a [u8],
        later: &mut Vec<u8>,
    ) -> Result<&'a [u8], AllocError>
        requires end { at + length part.now < 2 ^ 63 }
        requires open { self.old.is_lost ≡ false }
        ensures { IfOk result (λ fresh. AppendsAfter fresh.now later.old.items later.new.items (λ more. Advances at part.now self.old more self.new)) }
    {
        let before = later.len();
        match self.window.take(at, part, later)? {
            Some(fresh) => {
                let end = self.window.next().saturating_sub(self.resumed);
                remember(&mut self.history, end, fresh, &later[before..])?;
                Ok(fresh)
            }
            None => {
                self.window.close();
                self.is_lost = true;
                Ok(&[])
            }
        }
    }

    /// Takes a segment, and returns those of its bytes that come next. What follows them from the memory is appended to `later`.
    ///
    /// If it needs more than `MOST` places, the gap before it is final: nothing is handed out from then on.
    ///
    /// # Errors
    /// `AllocError` when out of memory.
    pub fn take<'a>(
        &mut self,
        at: u64,
        part: &'a [u8],
        later: &mut Vec<u8>,
    ) -> Result<&'a [u8], AllocError>
        requires { at + length part.now < 2 ^ 63 }
        ensures taken { IfOk result (λ fresh. AppendsAfter fresh.now later.old.items later.new.items (λ more. StreamTakes at part.now self.old more self.new)) }
        ensures lost { OnErr result (self.new.is_lost ≡ true) }
    {
        let count = self.count_conflicts(at, part);
        self.conflicts = self.conflicts.saturating_add(count);
        if self.is_lost {
            return Ok(&[]);
        }
        match self.go_on(at, part, later) {
            Ok(fresh) => Ok(fresh),
            Err(error) => {
                self.is_lost = true;
                Err(error)
            }
        }
    }

    /// Counts the places without a byte from the next one on, at most `most`.
    pub fn count_missing(&self, most: usize) -> usize
        ensures most { result ≤ most }
        ensures none { (k : ℕ) → k < result → seen self.now.window k ≡ None }
        ensures ends { result < most → IsSome (seen self.now.window result) }
    {
        self.window.count_missing(most)
    }

    /// Passes places whose bytes haven't come, and appends what is ready then.
    ///
    /// Later segments are only compared with bytes after these places.
    ///
    /// # Errors
    /// `AllocError` when out of memory.
    #[cold]
    pub fn pass(&mut self, count: usize, later: &mut Vec<u8>) -> Result<(), AllocError>
        requires none { (k : ℕ) → k < count → seen self.old.window k ≡ None }
        requires end { next_of self.old.window + count < 2 ^ 64 }
        requires open { self.old.is_lost ≡ false }
        ensures { OnOk result (StreamPasses count self.old later.old.items self.new later.new.items) }
    {
        let before = later.len();
        let next = self.window.next();
        self.resumed = next + count as u64;
        self.window.pass(count, later)?;
        history::remember(&mut self.history, 0, &later[before..])?;
        Ok(())
    }
}
