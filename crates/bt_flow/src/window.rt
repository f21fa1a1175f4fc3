//! A ring with its memory, which grows when a segment needs it.
ghost use Rattle.std.specs.Prelude.{◌≡◌, ℕ, ◌+◌, ◌<◌, ◌≤◌, ◌^◌, [], length, true, false, None, IsSome, IfOk, OnOk};
ghost use Rattle.bt_tcp.specs.Bits.{places};
ghost use Rattle.bt_tcp.specs.Cells.{is_known};
ghost use Rattle.bt_tcp.specs.Rings.{ahead, IsSound};
ghost use Rattle.bt_tcp.specs.History.{conflicts, held};
ghost use Rattle.bt_flow.specs.Views.{Places, HandsOut, PassesHole, Takes};

use bt_tcp::{Put, Ring};
use std::alloc::{AllocError, Global};

/// The most places that a ring may have.
pub const MOST: u64 = 15_728_640;

/// How many places it keeps when no byte is ahead.
const KEPT: usize = 65_536;

/// Appends what is ready, until nothing is.
fn drain(
    ring: &mut Ring,
    known: &mut [u8],
    memory: &[u8],
    out: &mut Vec<u8>,
) -> Result<(), AllocError>
    requires { IsSound ring.old known.old memory.now }
    ensures sound { IsSound ring.new known.new memory.now }
    ensures drained { OnOk result (HandsOut ring.old.next (ahead ring.old known.old memory.now) out.old.items ring.new.next (ahead ring.new known.new memory.now) out.new.items) }
{
    loop {
        if ring.is_empty() {
            return Ok(());
        }
        let part = ring.ready(known, memory);
        if part.is_empty() {
            return Ok(());
        }
        out.extend_from_slice(part)?;
    }
}

/// A ring and its memory.
#[derive(Drop)]
pub struct Window {
    ring: Ring,
    known: Vec<u8>,
    ahead: Vec<u8>,
    ghost inside: { ring.head < places known.items },
    ghost same: { length ahead.items ≡ places known.items },
    ghost most: { length ahead.items ≤ 15728640 },
    ghost over: { (k : ℕ) → ring.end ≤ ring.next + k → is_known known.items ring.head k ≡ false },
}

impl Window {
    ghost use Rattle.bt_tcp.specs.Windows.{IsTaken, IsPutOf, TakesOneMore, GoesOn};
    ghost use Rattle.bt_flow.specs.Memory.{next_of, seen, capacity_of};

    /// Returns a window that begins at a place, with room for eight bytes.
    ///
    /// # Errors
    /// `AllocError` when out of memory.
    pub fn new(alloc: Global, base: u64) -> Result<Window, AllocError>
        ensures next { IfOk result (λ w. next_of w ≡ base) }
        ensures taken { IfOk result (λ w. IsTaken [] base [] (next_of w) (seen w)) }
    {
        let mut known = Vec::new(alloc);
        known.resize(1, 0)?;
        let mut ahead = Vec::new(alloc);
        ahead.resize(8, 0)?;
        let ring = Ring::new(base, &mut known, &ahead);
        Ok(Window { ring, known, ahead })
    }

    /// Returns the place that is handed out next.
    pub fn next(&self) -> u64
        ensures { result ≡ next_of self.now }
    {
        self.ring.next()
    }

    /// Returns how many places it has past the first eight.
    pub fn held(&self) -> usize
        ensures { result + 8 ≡ capacity_of self.now }
    {
        self.ahead.len() - 8
    }

    /// Returns how many bytes of memory it takes.
    pub fn size(&self) -> usize
        ensures { capacity_of self.now ≤ result }
    {
        self.known.capacity().saturating_add(self.ahead.capacity())
    }

    /// Counts the bytes of a segment that differ from those ahead.
    pub fn count_conflicts(&self, at: u64, part: &[u8]) -> usize
        requires { at + length part.now < 2 ^ 64 }
        ensures { result ≡ conflicts (held (next_of self.now) (seen self.now)) at part.now }
    {
        self.ring
            .count_conflicts_ahead(&self.known, &self.ahead, at, part)
    }

    /// Counts the places without a byte from the next one on, at most `most`.
    pub fn count_missing(&self, most: usize) -> usize
        ensures most { result ≤ most }
        ensures none { (k : ℕ) → k < result → seen self.now k ≡ None }
        ensures ends { result < most → IsSome (seen self.now result) }
    {
        self.ring.count_missing(&self.known, &self.ahead, most)
    }

    /// Drops the bytes ahead, and their memory.
    #[cold]
    pub fn close(&mut self)
        ensures next { next_of self.new ≡ next_of self.old }
        ensures none { (k : ℕ) → seen self.new k ≡ None }
        ensures held { capacity_of self.new ≡ 8 }
    {
        let next = self.ring.next();
        self.known.truncate(1);
        self.ahead.truncate(8);
        self.known.shrink_to_fit();
        self.ahead.shrink_to_fit();
        self.ring = Ring::new(next, &mut self.known, &self.ahead);
    }

    /// Takes a segment as the ring is.
    fn put(&mut self, at: u64, part: &[u8]) -> Put
        requires { at + length part.now < 2 ^ 64 }
        ensures put { IsPutOf (capacity_of self.old) at part.now (next_of self.old) (seen self.old) result (next_of self.new) (seen self.new) }
        ensures taken { TakesOneMore at part.now (next_of self.old) (seen self.old) result (next_of self.new) (seen self.new) }
    {
        self.ring.put(&mut self.known, &mut self.ahead, at, part)
    }

    /// Makes room for bytes before a place, if there may be as much. It is at least doubled.
    #[cold]
    fn make_room(&mut self, end: u64) -> Result<(), AllocError>
        ensures next { next_of self.new ≡ next_of self.old }
        ensures room { OnOk result (end ≤ next_of self.old + 15728640 → end ≤ next_of self.new + capacity_of self.new) }
        ensures taken { GoesOn (next_of self.old) (seen self.old) (next_of self.new) (seen self.new) }
    {
        let need = end.saturating_sub(self.next());
        if need > MOST {
            return Ok(());
        }
        let twice = (self.ahead.len() as u64).saturating_mul(2).min(MOST);
        let count = need.max(twice) as usize;
        self.ring.lengthen(&mut self.known, &mut self.ahead, count)
    }

    /// Takes a segment, and makes room if it needs more. It is full only if more than `MOST` places are needed.
    fn place(&mut self, at: u64, part: &[u8]) -> Result<Put, AllocError>
        requires { at + length part.now < 2 ^ 64 }
        ensures { IfOk result (λ put. Places at part.now (next_of self.old) (seen self.old) put (next_of self.new) (seen self.new)) }
    {
        match self.put(at, part) {
            Put::Taken { from, len } => Ok(Put::Taken { from, len }),
            Put::Full => {
                self.make_room(at + part.len() as u64)?;
                Ok(self.put(at, part))
            }
        }
    }

    /// Appends what is ready, until nothing is.
    fn drain(&mut self, later: &mut Vec<u8>) -> Result<(), AllocError>
        ensures { OnOk result (HandsOut (next_of self.old) (seen self.old) later.old.items (next_of self.new) (seen self.new) later.new.items) }
    {
        drain(&mut self.ring, &mut self.known, &self.ahead, later)
    }

    /// Gives memory back, if there is much and no byte is ahead.
    fn release(&mut self)
        ensures next { next_of self.new ≡ next_of self.old }
        ensures same { (k : ℕ) → seen self.new k ≡ seen self.old k }
        ensures held { self.new.ring.end ≤ next_of self.new → capacity_of self.new ≤ 65536 }
    {
        if self.ahead.len() > KEPT && self.ring.is_empty() {
            self.close();
        }
    }

    /// Passes places whose bytes haven't come, and appends what is ready then.
    ///
    /// If no byte is ahead after that, it has memory for at most 65,536 places.
    ///
    /// # Errors
    /// `AllocError` when out of memory.
    #[cold]
    pub fn pass(&mut self, count: usize, later: &mut Vec<u8>) -> Result<(), AllocError>
        requires none { (k : ℕ) → k < count → seen self.old k ≡ None }
        requires end { next_of self.old + count < 2 ^ 64 }
        ensures passed { OnOk result (PassesHole count (next_of self.old) (seen self.old) later.old.items (next_of self.new) (seen self.new) later.new.items) }
        ensures held { OnOk result (self.new.ring.end ≤ next_of self.new → capacity_of self.new ≤ 65536) }
    {
        self.ring.skip(&self.known, &self.ahead, count);
        self.drain(later)?;
        self.release();
        Ok(())
    }

    /// Takes a segment, and returns those of its bytes that come next. What follows them from the memory is appended to `later`.
    ///
    /// It isn't taken if more than `MOST` places are needed. If no byte is ahead then, it has memory for at most 65,536 places.
    ///
    /// # Errors
    /// `AllocError` when out of memory.
    pub fn take<'a>(
        &mut self,
        at: u64,
        part: &'a [u8],
        later: &mut Vec<u8>,
    ) -> Result<Option<&'a [u8]>, AllocError>
        requires { at + length part.now < 2 ^ 64 }
        ensures taken { IfOk result (λ fresh. Takes at part.now (next_of self.old) (seen self.old) later.old.items fresh (next_of self.new) (seen self.new) later.new.items) }
        ensures held { IfOk result (λ fresh. IsSome fresh → self.new.ring.end ≤ next_of self.new → capacity_of self.new ≤ 65536) }
    {
        match self.place(at, part)? {
            Put::Full => Ok(None),
            Put::Taken { from, len } => {
                self.drain(later)?;
                self.release();
                Ok(Some(&part[from..from + len]))
            }
        }
    }
}
