//! A window with bytes that wait far after the next one, so that its memory follows the bytes that came.
ghost use Rattle.std.specs.Prelude.{◌≡◌, ℕ, ◌+◌, ◌*◌, ◌<◌, ◌≤◌, ◌^◌, [], length, true, false, Some, None, IsSome, IfOk, OnOk};
ghost use Rattle.bt_tcp.specs.History.{conflicts, held, differs};
ghost use Rattle.bt_tcp.specs.Windows.{IsTaken};
ghost use Rattle.bt_flow.specs.Memory as ring;
ghost use Rattle.bt_flow.specs.Pages.{byte_of};
ghost use Rattle.bt_flow.specs.Views.{Takes, HandsOut, PassesHole};

use crate::far::Far;
use crate::window::{MOST, Window};
use std::alloc::{AllocError, Global};

/// Up to this many places the ring has as many as it needs.
const NEAR: u64 = 65_536;

/// What a segment counts for besides its bytes: about what it takes of a capture.
const HEADER: u64 = 56;

/// For how many places each byte of a capture counts.
const PAID_FOR: u64 = 8;

/// A window, and bytes far after its next one.
#[derive(Drop)]
pub struct WideWindow {
    alloc: Global,
    window: Window,
    far: Far,
    /// How many bytes of a capture have come since the ring grew past `NEAR` places.
    came: u64,
}

impl WideWindow {
    ghost use Rattle.bt_flow.specs.Wide.{next_of, seen, capacity_of, KeepsLittle, TakesAll, AppendsAll};

    /// Returns a window that begins at a place.
    ///
    /// # Errors
    /// `AllocError` when out of memory.
    pub fn new(alloc: Global, base: u64) -> Result<WideWindow, AllocError>
        ensures next { IfOk result (λ w. next_of w ≡ base) }
        ensures taken { IfOk result (λ w. IsTaken [] base [] (next_of w) (seen w)) }
    {
        Ok(WideWindow {
            alloc,
            window: Window::new(alloc, base)?,
            far: Far::new(alloc),
            came: 0,
        })
    }

    /// Returns the place that is handed out next.
    pub fn next(&self) -> u64
        ensures { result ≡ next_of self.now }
    {
        self.window.next()
    }

    /// Returns how many places its ring has past the first eight.
    pub fn held(&self) -> usize
        ensures { result + 8 ≡ capacity_of self.now }
    {
        self.window.held()
    }

    /// Returns how many bytes of memory it takes.
    pub fn size(&self) -> usize
        ensures { capacity_of self.now ≤ result }
    {
        self.window.size().saturating_add(self.far.size())
    }

    /// Drops the bytes ahead, and their memory.
    #[cold]
    pub fn close(&mut self)
        ensures next { next_of self.new ≡ next_of self.old }
        ensures none { (k : ℕ) → seen self.new k ≡ None }
        ensures held { capacity_of self.new ≡ 8 }
    {
        self.window.close();
        self.far.clear();
    }

    /// Tells whether a byte differs from the one in the ring at its place, if there is one.
    fn is_conflict_near(&self, place: u64, byte: u8) -> bool
        requires { place + 1 < 2 ^ 64 }
        ensures { result ≡ differs (held (next_of self.now) (ring.seen self.now.window) place) byte }
    {
        self.window.count_conflicts(place, &[byte]) > 0
    }

    /// Tells whether a byte differs from the one ahead at its place, if there is one.
    fn is_conflict(&self, place: u64, byte: u8) -> bool
        requires { place + 1 < 2 ^ 64 }
        ensures { result ≡ differs (held (next_of self.now) (seen self.now) place) byte }
    {
        if place < self.window.next() {
            return false;
        }
        if self.is_conflict_near(place, byte) {
            return true;
        }
        match self.far.get(place) {
            Some(first) => first != byte && !self.is_conflict_near(place, first),
            None => false,
        }
    }

    /// Counts the bytes of a segment that differ from those ahead, one by one.
    #[cold]
    fn count_each(&self, at: u64, part: &[u8]) -> usize
        requires { at + length part.now < 2 ^ 64 }
        ensures { result ≡ conflicts (held (next_of self.now) (seen self.now)) at part.now }
    {
        let mut count = 0usize;
        for (j, b) in part.iter().enumerate() {
            if self.is_conflict(at + j as u64, *b) {
                count += 1;
            }
        }
        count
    }

    /// Counts the bytes of a segment that differ from those ahead.
    pub fn count_conflicts(&self, at: u64, part: &[u8]) -> usize
        requires { at + length part.now < 2 ^ 64 }
        ensures { result ≡ conflicts (held (next_of self.now) (seen self.now)) at part.now }
    {
        if self.far.touches(at, part.len()) {
            return self.count_each(at, part);
        }
        self.window.count_conflicts(at, part)
    }

    /// Counts the places without a byte from the next one on, at most `most`.
    pub fn count_missing(&self, most: usize) -> usize
        ensures most { result ≤ most }
        ensures none { (k : ℕ) → k < result → seen self.now k ≡ None }
        ensures ends { result < most → IsSome (seen self.now result) }
    {
        let near = self.window.count_missing(most);
        self.far.count_missing(self.window.next(), near)
    }

    /// Tells whether a segment after the next place needs a ring that is longer, and longer than `NEAR` places.
    fn needs_more(&self, at: u64, len: usize) -> bool
        requires { at + len < 2 ^ 64 }
        ensures far { result ≡ true → next_of self.now < at }
        ensures near { result ≡ true → at + len ≤ next_of self.now + 15728640 }
        ensures fits { result ≡ false → next_of self.now < at → at + len ≤ next_of self.now + 15728640
            → next_of self.now + 65536 < at + len → at + len ≤ next_of self.now + capacity_of self.now }
    {
        let next = self.window.next();
        let need = (at + len as u64).saturating_sub(next);
        at > next && need > NEAR && need <= MOST && need > self.window.held() as u64
    }

    /// Returns how many places the bytes are worth that have come, with another segment.
    fn worth(&self, len: usize) -> u64
        ensures { result ≤ 8 * (self.now.came + len + 56) }
    {
        let came = self.came.saturating_add(len as u64).saturating_add(HEADER);
        came.saturating_mul(PAID_FOR)
    }

    /// Tells whether a segment is to wait outside the ring: it needs a longer one, which the bytes that have come aren't worth.
    fn is_far(&self, at: u64, len: usize) -> bool
        requires { at + len < 2 ^ 64 }
        ensures far { result ≡ true → next_of self.now < at }
        ensures near { result ≡ true → at + len ≤ next_of self.now + 15728640 }
        ensures paid { result ≡ false → next_of self.now < at → at + len ≤ next_of self.now + 15728640 → next_of self.now + 65536 < at + len
            → next_of self.now + capacity_of self.now < at + len → at + len ≤ next_of self.now + 8 * (self.now.came + len + 56) }
    {
        if !self.needs_more(at, len) {
            return false;
        }
        (at + len as u64).saturating_sub(self.window.next()) > self.worth(len)
    }

    /// Returns how many bytes have come since the ring grew past `NEAR` places, with another segment, for which it may grow.
    fn came_with(&self, at: u64, len: usize, is_far: bool) -> u64
        requires { at + len < 2 ^ 64 }
        ensures once { is_far ≡ false → next_of self.now < at → at + len ≤ next_of self.now + 15728640 → next_of self.now + 65536 < at + len
            → next_of self.now + capacity_of self.now < at + len → result ≡ 0 }
        ensures more { result ≤ self.now.came + len + 56 }
    {
        if !is_far && self.needs_more(at, len) {
            return 0;
        }
        self.came.saturating_add(len as u64).saturating_add(HEADER)
    }

    /// Takes a segment in the ring, and appends all that is ready there. Returns false if it needs more than `MOST` places.
    fn put_through(&mut self, at: u64, part: &[u8], later: &mut Vec<u8>) -> Result<bool, AllocError>
        requires { at + length part.now < 2 ^ 64 }
        ensures far { self.new.far ≡ self.old.far }
        ensures put { IfOk result (λ is. TakesAll at part.now (ring.next_of self.old.window) (ring.seen self.old.window) later.old.items is
            (ring.next_of self.new.window) (ring.seen self.new.window) later.new.items) }
        ensures held { IfOk result (λ is. is ≡ true → KeepsLittle self.new.window) }
    {
        let mut rest = Vec::new(self.alloc);
        match self.window.take(at, part, &mut rest)? {
            Some(fresh) => {
                later.extend_from_slice(fresh)?;
                later.extend_from_slice(&rest)?;
                Ok(true)
            }
            None => Ok(false),
        }
    }

    /// Returns the byte at the next place, if it is far.
    fn next_far(&self) -> Option<u8>
        ensures is { result ≡ byte_of self.now.far.pages (next_of self.now) }
        ensures below { IsSome result → next_of self.now < self.now.far.end }
        ensures last { IsSome result → next_of self.now + 1 < 2 ^ 64 }
    {
        self.far.get(self.window.next())
    }

    /// Appends what is ready, until nothing is.
    fn drain(&mut self, later: &mut Vec<u8>) -> Result<(), AllocError>
        requires none { ring.seen self.old.window 0 ≡ None }
        requires held { KeepsLittle self.old.window }
        ensures drained { OnOk result (HandsOut (next_of self.old) (seen self.old) later.old.items (next_of self.new) (seen self.new) later.new.items) }
        ensures held { OnOk result (KeepsLittle self.new.window) }
    {
        while let Some(byte) = self.next_far() {
            let next = self.window.next();
            self.put_through(next, &[byte], later)?;
        }
        let next = self.window.next();
        self.far.forget(next);
        Ok(())
    }

    /// Passes places whose bytes haven't come, and appends what is ready then.
    ///
    /// # Errors
    /// `AllocError` when out of memory.
    #[cold]
    pub fn pass(&mut self, count: usize, later: &mut Vec<u8>) -> Result<(), AllocError>
        requires none { (k : ℕ) → k < count → seen self.old k ≡ None }
        requires end { next_of self.old + count < 2 ^ 64 }
        ensures passed { OnOk result (PassesHole count (next_of self.old) (seen self.old) later.old.items (next_of self.new) (seen self.new) later.new.items) }
        ensures held { OnOk result (KeepsLittle self.new.window) }
    {
        self.window.pass(count, later)?;
        self.drain(later)?;
        Ok(())
    }

    /// Takes a segment that is far, and appends what is ready.
    #[cold]
    fn take_far(&mut self, at: u64, part: &[u8], later: &mut Vec<u8>) -> Result<(), AllocError>
        requires far { next_of self.old < at }
        requires near { at + length part.now ≤ next_of self.old + 15728640 }
        requires end { at + length part.now < 2 ^ 64 }
        ensures taken { OnOk result (AppendsAll at part.now (next_of self.old) (seen self.old) later.old.items (next_of self.new) (seen self.new) later.new.items) }
        ensures held { OnOk result (KeepsLittle self.new.window) }
    {
        self.far.keep(at, part)?;
        let next = self.window.next();
        self.put_through(next, &[], later)?;
        self.drain(later)?;
        Ok(())
    }

    /// Takes a segment with places whose bytes may wait outside the ring, and appends what is ready.
    #[cold]
    fn take_among(&mut self, at: u64, part: &[u8], later: &mut Vec<u8>) -> Result<bool, AllocError>
        requires { at + length part.now < 2 ^ 64 }
        ensures taken { IfOk result (λ is. TakesAll at part.now (next_of self.old) (seen self.old) later.old.items is (next_of self.new) (seen self.new) later.new.items) }
        ensures held { IfOk result (λ is. is ≡ true → KeepsLittle self.new.window) }
    {
        let all = self.far.merged(at, part)?;
        if !self.put_through(at, &all, later)? {
            return Ok(false);
        }
        self.drain(later)?;
        Ok(true)
    }

    /// Takes a segment none of whose bytes waits outside the ring.
    fn take_near<'a>(
        &mut self,
        at: u64,
        part: &'a [u8],
        later: &mut Vec<u8>,
    ) -> Result<Option<&'a [u8]>, AllocError>
        requires apart { (i : ℕ) → at ≤ i → i < at + length part.now → byte_of self.old.far.pages i ≡ None }
        requires end { at + length part.now < 2 ^ 64 }
        ensures taken { IfOk result (λ fresh. Takes at part.now (next_of self.old) (seen self.old) later.old.items fresh (next_of self.new) (seen self.new) later.new.items) }
        ensures held { IfOk result (λ fresh. IsSome fresh → KeepsLittle self.new.window) }
    {
        match self.window.take(at, part, later)? {
            Some(fresh) => {
                self.drain(later)?;
                Ok(Some(fresh))
            }
            None => Ok(None),
        }
    }

    /// Takes a segment, and returns those of its bytes that come next. What follows them from the memory is appended to `later`.
    /// If bytes are ready that aren't its own, all that is ready is appended, and none returned.
    ///
    /// It isn't taken if more than `MOST` places are needed. If no byte is ahead then, the ring has memory for at most 65,536 places.
    ///
    /// # Errors
    /// `AllocError` when out of memory.
    pub fn take<'a>(
        &mut self,
        at: u64,
        part: &'a [u8],
        later: &mut Vec<u8>,
    ) -> Result<Option<&'a [u8]>, AllocError>
        requires { at + length part.now < 2 ^ 64 }
        ensures taken { IfOk result (λ fresh. Takes at part.now (next_of self.old) (seen self.old) later.old.items fresh (next_of self.new) (seen self.new) later.new.items) }
        ensures held { IfOk result (λ fresh. IsSome fresh → self.new.window.ring.end ≤ next_of self.new → capacity_of self.new ≤ 65536) }
    {
        let is_far = self.is_far(at, part.len());
        self.came = self.came_with(at, part.len(), is_far);
        if is_far {
            self.take_far(at, part, later)?;
            return Ok(Some(&part[..0]));
        }
        if !self.far.touches(at, part.len()) {
            return self.take_near(at, part, later);
        }
        if self.take_among(at, part, later)? {
            Ok(Some(&part[..0]))
        } else {
            Ok(None)
        }
    }
}
