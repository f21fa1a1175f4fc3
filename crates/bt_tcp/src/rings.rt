//! The reassembly window as a ring over the caller's memory.
ghost use Rattle.std.specs.Prelude.{◌≡◌, ℕ, ◌+◌, ◌-◌, ◌<◌, ◌≤◌, ◌^◌, max, true, false, List, [], length, slice_index_or, None, IsSome, OnOk, OnErr, nat_le};
ghost use Rattle.bt_tcp.specs.Bits.{places, flag};
ghost use Rattle.bt_tcp.specs.Segments.{Segment, or_else, byte_in};
ghost use Rattle.bt_tcp.specs.Cells.{slot_of, is_known, ring, IsRing, IsWritten};
ghost use Rattle.bt_tcp.specs.Rings.{ahead, IsSound};
ghost use Rattle.bt_tcp.specs.Windows.{IsTaken, IsPutOf, IsReady, IsSkipped, TakesOneMore, TakesAny, HandsOutMore, EndsStream, GoesOn};
ghost use Rattle.bt_tcp.specs.History.{differs, conflicts, held};

use crate::bits;
use std::alloc::AllocError;

/// What became of a segment.
#[derive(Clone, Copy, Debug, PartialEq, Eq)]
pub enum Put {
    /// It was taken. Its bytes from `from` on, `len` of them, are the next ones of the stream.
    Taken { from: usize, len: usize },
    /// It reaches past the ring. Nothing has changed.
    Full,
}

/// Returns where an offset lies.
fn slot(capacity: usize, head: usize, k: usize) -> usize
    requires head { head < capacity }
    requires k { k < capacity }
    ensures slot { result ≡ slot_of capacity head k }
    ensures within { result < capacity }
{
    if k < capacity - head {
        head + k
    } else {
        k - (capacity - head)
    }
}

/// Tells whether no byte has come from an offset on, for `count` of them.
fn is_free(known: &[u8], capacity: usize, head: usize, gap: usize, count: usize) -> bool
    requires capacity { capacity ≡ places known.now }
    requires head { head < capacity }
    requires gap { gap < capacity }
    requires room { gap + count ≤ capacity }
    ensures { result ≡ true → (k : ℕ) → gap ≤ k → k < gap + count → is_known known.now head k ≡ false }
{
    let from = slot(capacity, head, gap);
    let fitting = count.min(capacity - from);
    let rest = count - fitting;
    bits::end(known, from, from + fitting, false) == from + fitting
        && bits::end(known, 0, rest, false) == rest
}

/// Counts the offsets without a byte from the head on, at most `most`.
///
/// Past the ring there is no byte.
fn count_unknown(known: &[u8], capacity: usize, head: usize, most: usize) -> usize
    requires capacity { capacity ≡ places known.now }
    requires head { head < capacity }
    ensures most { result ≤ most }
    ensures unknown { (k : ℕ) → k < result → is_known known.now head k ≡ false }
    ensures ends { result < most → is_known known.now head result ≡ true }
{
    let fitting = most.min(capacity - head);
    let count = bits::end(known, head, head + fitting, false) - head;
    if count < fitting {
        return count;
    }
    let rest = (most - fitting).min(head);
    let more = bits::end(known, 0, rest, false);
    if more < rest {
        return fitting + more;
    }
    most
}

/// Puts bytes where there are none from an offset on. The earlier copy of a byte stays.
fn store(known: &mut [u8], bytes: &mut [u8], head: usize, gap: usize, part: &[u8])
    requires ring { IsRing known.old bytes.old head }
    requires room { gap + length part.now ≤ places known.old }
    ensures { (k : ℕ) → ring known.new bytes.new head k ≡ or_else (ring known.old bytes.old head k) (byte_in (record { place = gap; bytes = part.now }) k) }
{
    let capacity = bytes.len();
    for (j, b) in part.iter().enumerate() {
        let i = slot(capacity, head, gap + j);
        if !bits::get(known, i) {
            bits::fill(known, i, i + 1, true);
            bytes[i] = *b;
        }
    }
}

/// Writes bytes, and notes that they have come.
fn write(known: &mut [u8], bytes: &mut [u8], from: usize, part: &[u8])
    requires known { from + length part.now ≤ places known.old }
    requires bytes { from + length part.now ≤ length bytes.old }
    ensures { IsWritten known.old bytes.old from part.now known.new bytes.new }
{
    bits::fill(known, from, from + part.len(), true);
    bytes[from..from + part.len()].copy_from_slice(part);
}

/// Puts bytes from an offset on, where there are none.
fn append(known: &mut [u8], bytes: &mut [u8], head: usize, gap: usize, part: &[u8])
    requires ring { IsRing known.old bytes.old head }
    requires room { gap + length part.now ≤ places known.old }
    requires some { 0 < length part.now }
    requires unknown { (k : ℕ) → gap ≤ k → k < gap + length part.now → is_known known.old head k ≡ false }
    ensures { (k : ℕ) → ring known.new bytes.new head k ≡ or_else (ring known.old bytes.old head k) (byte_in (record { place = gap; bytes = part.now }) k) }
{
    let from = slot(bytes.len(), head, gap);
    let (fitting, rest) = part.split_at(part.len().min(bytes.len() - from));
    write(known, bytes, from, fitting);
    write(known, bytes, 0, rest);
}

/// Puts bytes where there are none from an offset on. If `is_last`, there is none from there on.
fn keep(known: &mut [u8], bytes: &mut [u8], head: usize, gap: usize, part: &[u8], is_last: bool)
    requires ring { IsRing known.old bytes.old head }
    requires room { gap + length part.now ≤ places known.old }
    requires some { 0 < length part.now }
    requires last { is_last ≡ true → (k : ℕ) → gap ≤ k → is_known known.old head k ≡ false }
    ensures { (k : ℕ) → ring known.new bytes.new head k ≡ or_else (ring known.old bytes.old head k) (byte_in (record { place = gap; bytes = part.now }) k) }
{
    if is_last || is_free(known, bytes.len(), head, gap, part.len()) {
        append(known, bytes, head, gap, part);
    } else {
        store(known, bytes, head, gap, part);
    }
}

/// Returns the head after offsets without a byte, as many as there may be.
fn advanced(known: &[u8], capacity: usize, head: usize, count: usize) -> usize
    requires capacity { capacity ≡ places known.now }
    requires head { head < capacity }
    requires unknown { (k : ℕ) → k < count → is_known known.now head k ≡ false }
    ensures inside { result < capacity }
    ensures moved { (bytes : List ℕ) → (k : ℕ) → ring known.now bytes result k ≡ ring known.now bytes head (count + k) }
{
    if count < capacity {
        slot(capacity, head, count)
    } else {
        head
    }
}

/// Turns the first bytes, so that the one at `head` is the first.
fn turn(bytes: &mut [u8], len: usize, head: usize)
    requires head { head < len }
    requires len { len ≤ length bytes.old }
    ensures turned { (k : ℕ) → k < len → slice_index_or bytes.new k 0 ≡ slice_index_or bytes.old (slot_of len head k) 0 }
    ensures rest { (k : ℕ) → len ≤ k → slice_index_or bytes.new k 0 ≡ slice_index_or bytes.old k 0 }
{
    bytes[..len].rotate_left(head);
}

/// Copies flags to other memory, so that the one at `head` is the first, and those before it come last.
fn turn_flags(known: &[u8], len: usize, head: usize, to: &mut [u8])
    requires len { len ≡ places known.now }
    requires head { head < len }
    requires room { len ≤ places to.old }
    ensures turned { (k : ℕ) → k < len → flag to.new k ≡ flag known.now (slot_of len head k) }
    ensures rest { (k : ℕ) → len ≤ k → flag to.new k ≡ flag to.old k }
{
    bits::copy(known, head, len - head, to, 0);
    bits::copy(known, 0, head, to, len - head);
}

/// Adds bytes of flags that are 0, and turns the flags, so that the one at `head` is the first.
fn lengthen_flags(
    known: &mut Vec<u8>,
    len: usize,
    head: usize,
    more: usize,
) -> Result<(), AllocError>
    requires len { len ≡ places known.old.items }
    requires head { head < len }
    ensures err { OnErr result (known.new.items ≡ known.old.items) }
    ensures len { OnOk result (length known.new.items ≡ length known.old.items + more) }
    ensures turned { OnOk result ((k : ℕ) → k < len → flag known.new.items k ≡ flag known.old.items (slot_of len head k)) }
    ensures rest { OnOk result ((k : ℕ) → len ≤ k → flag known.new.items k ≡ false) }
{
    let before = known.clone()?;
    known.reserve_exact(more)?;
    known.resize(known.len() + more, 0)?;
    turn_flags(&before, len, head, known);
    Ok(())
}

/// One direction's place in its stream.
///
/// Bytes ahead are in the caller's ring: of each place in it a bit of `known` says whether its byte has come. The bit of the place `k`
/// is the bit `k % 8` of the byte `k / 8`, and bit 0 is the lowest.
#[derive(Clone, Copy, Debug)]
pub struct Ring {
    next: u64,
    head: usize,
    /// No byte is ahead from here on.
    end: u64,
}

impl Ring {
    /// Starts at a place. The ring has no byte.
    pub fn new(base: u64, known: &mut [u8], bytes: &[u8]) -> Ring
        requires room { 0 < length known.old }
        requires same { length bytes.now ≡ places known.old }
        ensures next { result.next ≡ base }
        ensures sound { IsSound result known.new bytes.now }
        ensures taken { IsTaken [] base [] result.next (ahead result known.new bytes.now) }
    {
        bits::fill(known, 0, bytes.len(), false);
        Ring {
            next: base,
            head: 0,
            end: base,
        }
    }

    /// Returns the place that is handed out next.
    pub fn next(&self) -> u64
        ensures { result ≡ self.now.next }
    {
        self.next
    }

    /// Counts the places without a byte from the next one on, at most `most`.
    fn count_fresh(&self, known: &[u8], capacity: usize, most: usize) -> usize
        requires capacity { capacity ≡ places known.now }
        requires inside { self.now.head < capacity }
        requires over { (k : ℕ) → self.now.end ≤ self.now.next + k → is_known known.now self.now.head k ≡ false }
        ensures most { result ≤ most }
        ensures unknown { (k : ℕ) → k < result → is_known known.now self.now.head k ≡ false }
        ensures ends { result < most → is_known known.now self.now.head result ≡ true }
    {
        if self.is_empty() {
            return most;
        }
        count_unknown(known, capacity, self.head, most)
    }

    /// Counts the places whose bytes haven't come from the next one on, at most `most`.
    pub fn count_missing(&self, known: &[u8], bytes: &[u8], most: usize) -> usize
        requires { IsSound self.now known.now bytes.now }
        ensures most { result ≤ most }
        ensures none { (k : ℕ) → k < result → ahead self.now known.now bytes.now k ≡ None }
        ensures ends { result < most → IsSome (ahead self.now known.now bytes.now result) }
    {
        self.count_fresh(known, bytes.len(), most)
    }

    /// Passes `n` places whose bytes haven't come. Nothing is handed out for them.
    ///
    /// Call `ready` then, until it gives nothing. If a byte of theirs comes later, it is passed over.
    pub fn skip(&mut self, known: &[u8], bytes: &[u8], n: usize)
        requires sound { IsSound self.old known.now bytes.now }
        requires none { (k : ℕ) → k < n → ahead self.old known.now bytes.now k ≡ None }
        requires end { self.old.next + n < 2 ^ 64 }
        ensures sound { IsSound self.new known.now bytes.now }
        ensures skipped { IsSkipped n self.old.next (ahead self.old known.now bytes.now) self.new.next (ahead self.new known.now bytes.now) }
        ensures taken { TakesAny n self.old.next (ahead self.old known.now bytes.now) self.new.next (ahead self.new known.now bytes.now) }
    {
        self.head = advanced(known, bytes.len(), self.head, n);
        self.next += n as u64;
    }

    /// Takes a segment, and says which of its bytes are ready now.
    ///
    /// Call `ready` then, until it gives nothing. While nothing is ahead, a segment in order costs no more than this call.
    pub fn put(&mut self, known: &mut [u8], bytes: &mut [u8], at: u64, part: &[u8]) -> Put
        requires sound { IsSound self.old known.old bytes.old }
        requires end { at + length part.now < 2 ^ 64 }
        ensures sound { IsSound self.new known.new bytes.new }
        ensures put { IsPutOf (places known.old) at part.now self.old.next (ahead self.old known.old bytes.old)
            result self.new.next (ahead self.new known.new bytes.new) }
        ensures taken { TakesOneMore at part.now self.old.next (ahead self.old known.old bytes.old) result self.new.next (ahead self.new known.new bytes.new) }
    {
        let done = self.next.saturating_sub(at);
        let from = if done < part.len() as u64 {
            done as usize
        } else {
            part.len()
        };
        let gap = at.saturating_sub(self.next);
        let len = if gap == 0 {
            self.count_fresh(known, bytes.len(), part.len() - from)
        } else {
            0
        };
        let head = advanced(known, bytes.len(), self.head, len);
        let rest = &part[from + len..];
        if rest.len() > 0 {
            if gap > bytes.len() as u64 {
                return Put::Full;
            }
            if rest.len() > bytes.len() - gap as usize {
                return Put::Full;
            }
            keep(known, bytes, head, gap as usize, rest, at >= self.end);
        }
        self.head = head;
        self.next += len as u64;
        self.end = self.end.max(at + part.len() as u64);
        Put::Taken { from, len }
    }

    /// Hands out bytes that a filled gap has made ready, without a copy.
    pub fn ready<'m>(&mut self, known: &mut [u8], bytes: &'m [u8]) -> &'m [u8]
        requires { IsSound self.old known.old bytes.now }
        ensures sound { IsSound self.new known.new bytes.now }
        ensures ready { IsReady self.old.next (ahead self.old known.old bytes.now) result.now self.new.next (ahead self.new known.new bytes.now) }
        ensures taken { HandsOutMore self.old.next (ahead self.old known.old bytes.now) result.now self.new.next (ahead self.new known.new bytes.now) }
        ensures end { self.new.end ≡ self.old.end }
        ensures within { 0 < length result.now → self.new.next ≤ self.new.end }
        ensures stream { result.now ≡ [] → EndsStream self.old.next (ahead self.old known.old bytes.now) result.now }
    {
        let head = self.head;
        let count = bits::end(known, head, bytes.len(), true) - head;
        bits::fill(known, head, head + count, false);
        self.head = advanced(known, bytes.len(), head, count);
        self.next += count as u64;
        &bytes[head..head + count]
    }

    /// Tells whether it is known that no byte is ahead: all that segments covered was handed out.
    pub fn is_empty(&self) -> bool
        ensures { result ≡ nat_le self.now.end self.now.next }
    {
        self.end <= self.next
    }

    /// Tells whether a byte differs from the one ahead at its place, if there is one.
    fn is_conflict_ahead(&self, known: &[u8], bytes: &[u8], place: u64, byte: u8) -> bool
        requires { IsSound self.now known.now bytes.now }
        ensures { result ≡ differs (held self.now.next (ahead self.now known.now bytes.now) place) byte }
    {
        if place < self.next || place - self.next >= bytes.len() as u64 {
            return false;
        }
        let i = slot(bytes.len(), self.head, (place - self.next) as usize);
        bits::get(known, i) && bytes[i] != byte
    }

    /// Tells whether no byte is ahead at `count` places, if that is quickly told.
    fn is_apart(&self, known: &[u8], capacity: usize, at: u64, count: usize) -> bool
        requires capacity { capacity ≡ places known.now }
        requires head { self.now.head < capacity }
        ensures { result ≡ true → (k : ℕ) → at ≤ self.now.next + k → self.now.next + k < at + count → is_known known.now self.now.head k ≡ false }
    {
        if at < self.next || at - self.next >= capacity as u64 {
            return false;
        }
        let gap = (at - self.next) as usize;
        count <= capacity - gap && is_free(known, capacity, self.head, gap, count)
    }

    /// Counts the bytes of a segment that differ from those ahead, which came first.
    ///
    /// It looks at none if nothing is ahead at its place or after it.
    pub fn count_conflicts_ahead(&self, known: &[u8], bytes: &[u8], at: u64, part: &[u8]) -> usize
        requires sound { IsSound self.now known.now bytes.now }
        requires end { at + length part.now < 2 ^ 64 }
        ensures { result ≡ conflicts (held self.now.next (ahead self.now known.now bytes.now)) at part.now }
    {
        if at.max(self.next) >= self.end {
            return 0;
        }
        if self.is_apart(known, bytes.len(), at, part.len()) {
            return 0;
        }
        let mut count = 0usize;
        for (j, b) in part.iter().enumerate() {
            if self.is_conflict_ahead(known, bytes, at + j as u64, *b) {
                count += 1;
            }
        }
        count
    }

    /// Makes the memory longer, if it has less than `count` places. The bytes ahead stay the same.
    ///
    /// So a segment that didn't fit may be put. The places are a multiple of 8.
    ///
    /// # Errors
    /// `AllocError` when out of memory. The bytes ahead are the same then, too.
    #[cold]
    pub fn lengthen(
        &mut self,
        known: &mut Vec<u8>,
        bytes: &mut Vec<u8>,
        count: usize,
    ) -> Result<(), AllocError>
        requires { IsSound self.old known.old.items bytes.old.items }
        ensures sound { IsSound self.new known.new.items bytes.new.items }
        ensures next { self.new.next ≡ self.old.next }
        ensures room { OnOk result (count ≤ places known.new.items) }
        ensures most { places known.new.items ≤ max (places known.old.items) (count + 7) }
        ensures ahead { (k : ℕ) → ahead self.new known.new.items bytes.new.items k ≡ ahead self.old known.old.items bytes.old.items k }
        ensures taken { GoesOn self.old.next (ahead self.old known.old.items bytes.old.items) self.new.next (ahead self.new known.new.items bytes.new.items) }
    {
        let len = bytes.len();
        if count <= len {
            return Ok(());
        }
        let more = (count - len).div_ceil(8);
        bytes.reserve_exact(more.saturating_mul(8))?;
        lengthen_flags(known, len, self.head, more)?;
        bytes.resize(len + more * 8, 0)?;
        turn(bytes, len, self.head);
        self.head = 0;
        Ok(())
    }
}
