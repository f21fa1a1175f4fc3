//! A buffer of bytes to be sent. It grows, and drops what was sent.
ghost use Rattle.std.specs.Prelude.{◌≡◌, ℕ, ◌+◌, ◌-◌, ◌*◌, ◌<◌, ◌≤◌, [], ◌++◌, length, take, drop, min, max, IfOk, OnOk, OnErr, IsOk, vec_len, vec_capacity};
ghost use Rattle.std.specs.Io.KnownBytes.{Appends};
ghost use Rattle.bt_io.specs.Seen.{WriteFailed};
ghost use Rattle.bt_io.specs.Outbox.{without_front, Sends};

use crate::target::Target;
use std::alloc::{Allocator, Global};
use std::marker::Model;
use thiserror::Error;

/// Out of memory.
#[derive(Clone, Copy, PartialEq, Eq, Debug, Error)]
#[error("out of memory")]
pub struct Memory;

/// A write failed, or took no byte.
#[derive(Clone, Copy, PartialEq, Eq, Debug, Error)]
#[error("a write failed")]
pub struct WriteFault;

/// The bytes that are to be sent, in order.
///
/// All that waits is written like this:
///
/// ```rust
/// let waiting = self.out.bytes().len();
/// self.out.drain(writer, waiting)?;
/// ```
#[derive(Drop)]
pub struct Outbox<A: Allocator = Global> {
    buffer: Vec<u8, A>,
    /// How many bytes at the buffer's front were dropped.
    at: usize,
    /// How many bytes the buffer was made for, with those that were dropped.
    size: usize,
}

impl<A: Allocator> Model for Outbox<A> {
    ghost use Rattle.std.specs.Prelude.{◌≤◌, drop, vec_len, vec_capacity};
    ghost use Rattle.bt_io.specs.Outbox.{Outgoing, outgoing};

    ghost Value = { Outgoing };

    ghost view = { λ a. outgoing (drop a.at a.buffer.items) a.size };

    ghost invariant = { λ a. (a.at ≤ vec_len a.buffer) × (vec_len a.buffer ≤ a.size) × (a.size ≤ vec_capacity a.buffer) };
}

/// Moves the bytes from `at` on to the front.
fn close_gap<A: Allocator>(buffer: &mut Vec<u8, A>, at: &mut usize)
    requires { at.old ≤ vec_len buffer.old }
    ensures items { buffer.new.items ≡ drop at.old buffer.old.items }
    ensures capacity { vec_capacity buffer.new ≡ vec_capacity buffer.old }
    ensures at { at.new ≡ 0 }
{
    let rest = buffer.len() - *at;
    buffer.copy_within(*at.., 0);
    buffer.truncate(rest);
    *at = 0;
}

/// Makes the buffer larger, for `n` more bytes.
///
/// It grows to twice its length if there is memory for that.
fn enlarge<A: Allocator>(buffer: &mut Vec<u8, A>, size: &mut usize, n: usize) -> Result<(), Memory>
    requires { size.old < vec_len buffer.old + n }
    ensures items { buffer.new.items ≡ buffer.old.items }
    ensures capacity { vec_capacity buffer.old ≤ vec_capacity buffer.new }
    ensures room { OnOk result ((vec_len buffer.old + n ≤ size.new) × (size.new ≤ vec_capacity buffer.new)) }
    ensures bound { OnOk result (size.new ≤ 2 * vec_len buffer.old + n) }
    ensures same { OnErr result (size.new ≡ size.old) }
{
    let len = buffer.len();
    let most = len.max(n);
    let more = if buffer.reserve_exact(most).is_ok() {
        most
    } else if buffer.reserve_exact(n).is_ok() {
        n
    } else {
        return Err(Memory);
    };
    *size = len + more;
    Ok(())
}

/// Closes the gap before the bytes if no more bytes move than were dropped.
///
/// The bytes are those from `at` on.
fn close_wide_gap<A: Allocator>(buffer: &mut Vec<u8, A>, at: &mut usize)
    requires { at.old ≤ vec_len buffer.old }
    ensures bytes { drop at.new buffer.new.items ≡ drop at.old buffer.old.items }
    ensures within { (at.new ≤ vec_len buffer.new) × (vec_len buffer.new ≤ vec_len buffer.old) }
    ensures near { vec_len buffer.new ≤ 2 * length (drop at.old buffer.old.items) }
    ensures capacity { vec_capacity buffer.new ≡ vec_capacity buffer.old }
{
    if *at >= buffer.len() - *at {
        close_gap(buffer, at);
    }
}

/// Makes room for `n` more bytes after those from `at` on.
///
/// The gap before them is closed if no more bytes move than were dropped, or if memory runs out, so that the buffer never grows
/// for dropped bytes.
fn make_room<A: Allocator>(
    buffer: &mut Vec<u8, A>,
    at: &mut usize,
    size: &mut usize,
    n: usize,
) -> Result<(), Memory>
    requires { (at.old ≤ vec_len buffer.old) × (vec_len buffer.old ≤ size.old) × (size.old ≤ vec_capacity buffer.old) }
    ensures bytes { drop at.new buffer.new.items ≡ drop at.old buffer.old.items }
    ensures within { (at.new ≤ vec_len buffer.new) × (vec_len buffer.new ≤ size.new) × (size.new ≤ vec_capacity buffer.new) }
    ensures grows { size.old ≤ size.new }
    ensures room { OnOk result (vec_len buffer.new + n ≤ size.new) }
    ensures stays { n + 2 * length (drop at.old buffer.old.items) ≤ size.old → size.new ≡ size.old }
    ensures bound { size.new ≤ max size.old (n + 4 * length (drop at.old buffer.old.items)) }
    ensures full { OnErr result (size.old < n + length (drop at.old buffer.old.items)) }
    ensures same { OnErr result (size.new ≡ size.old) }
{
    if n <= *size - buffer.len() {
        return Ok(());
    }
    let rest = buffer.len() - *at;
    close_wide_gap(buffer, at);
    if n <= *size - buffer.len() || enlarge(buffer, size, n).is_ok() {
        return Ok(());
    }
    if n > *size - rest {
        return Err(Memory);
    }
    close_gap(buffer, at);
    Ok(())
}

/// Writes the bytes until a write fails, and returns how many were taken.
pub fn write_front<W: Target>(writer: &mut W, bytes: &[u8]) -> usize
    ensures within { result ≤ length bytes.now }
    ensures sent { Appends (W.seen writer.old).held (W.seen writer.new).held (take result bytes.now) }
    ensures stopped { result < length bytes.now → WriteFailed (W.seen writer.old) (W.seen writer.new) }
    ensures whole { result ≡ length bytes.now → (W.seen writer.new).failed ≡ (W.seen writer.old).failed }
{
    let mut done = 0;
    while done < bytes.len() {
        match writer.write(&bytes[done..]) {
            Ok(0) => return done,
            Ok(count) => done += count,
            Err(_) => return done,
        }
    }
    done
}

impl<A: Allocator> Outbox<A> {
    /// Makes an outbox with no bytes, without an allocation.
    pub fn new(alloc: A) -> Outbox<A>
        ensures { result ≡ record { bytes = []; room = 0 } }
    {
        Outbox {
            buffer: Vec::new(alloc),
            at: 0,
            size: 0,
        }
    }

    /// Makes room for `n` more bytes, so that queuing them doesn't allocate.
    ///
    /// Dropped bytes make no buffer grow: if the room is `n` bytes and as many as are held, the buffer stays. One that
    /// grows has at most four times the bytes that are held, and `n`.
    ///
    /// # Errors
    /// `Memory` when out of memory; the outbox is then unchanged. It never comes if there is room for `n` bytes.
    pub fn reserve(&mut self, n: usize) -> Result<(), Memory>
        ensures bytes { self.new.bytes ≡ self.old.bytes }
        ensures room { self.old.room ≤ self.new.room }
        ensures ok { OnOk result (n ≤ self.new.room) }
        ensures stays { n + length self.old.bytes ≤ self.old.room → self.new.room ≡ self.old.room }
        ensures bound { self.new.room ≤ max self.old.room (n + 3 * length self.old.bytes) }
        ensures err { OnErr result (self.new ≡ self.old) }
        ensures succeeds { n ≤ self.old.room → IsOk result }
    {
        make_room(&mut self.buffer, &mut self.at, &mut self.size, n)
    }

    /// Appends bytes to those that are to be sent.
    ///
    /// The buffer stays or grows as in [`Outbox::reserve`], for as many bytes as these are.
    ///
    /// # Errors
    /// `Memory` when out of memory; the outbox is then unchanged. It never comes if there is room for the bytes.
    pub fn queue(&mut self, bytes: &[u8]) -> Result<(), Memory>
        ensures ok { OnOk result (self.new.bytes ≡ self.old.bytes ++ bytes.now) }
        ensures room { OnOk result (self.old.room ≤ self.new.room + length bytes.now) }
        ensures stays { OnOk result (length bytes.now + length self.old.bytes ≤ self.old.room → self.new.room + length bytes.now ≡ self.old.room) }
        ensures bound { OnOk result (self.new.room + length bytes.now ≤ max self.old.room (length bytes.now + 3 * length self.old.bytes)) }
        ensures err { OnErr result (self.new ≡ self.old) }
        ensures succeeds { length bytes.now ≤ self.old.room → IsOk result }
    {
        make_room(&mut self.buffer, &mut self.at, &mut self.size, bytes.len())?;
        match self.buffer.extend_from_slice(bytes) {
            Ok(()) => Ok(()),
            Err(_) => unreachable!(),
        }
    }

    /// Returns the bytes that are to be sent.
    pub fn bytes(&self) -> &[u8]
        ensures { result.now ≡ self.now.bytes }
    {
        &self.buffer.as_slice()[self.at..]
    }

    /// Drops the first `n` bytes, which are at most all. None of the others moves.
    pub fn drop_front(&mut self, n: usize)
        requires { n ≤ length self.old.bytes }
        ensures { self.new ≡ without_front n self.old }
    {
        self.at += n;
        if self.at == self.buffer.len() {
            self.buffer.clear();
            self.at = 0;
        }
    }

    /// Writes at most `max` bytes from the front, drops them, and returns how many.
    ///
    /// Without an error that is `max`, or all bytes if there are fewer. It doesn't allocate.
    ///
    /// # Errors
    /// `WriteFault` if a write failed or took no byte before that; the bytes that were written are dropped.
    pub fn drain<W: Target>(&mut self, writer: &mut W, max: usize) -> Result<usize, WriteFault>
        ensures count { IfOk result (λ n. n ≡ min max (length self.old.bytes)) }
        ensures sends { IfOk result (λ n. Sends self.old self.new (W.seen writer.old) (W.seen writer.new) n) }
        ensures stops { OnErr result ((n : ℕ) × (n < min max (length self.old.bytes))
            × Sends self.old self.new (W.seen writer.old) (W.seen writer.new) n) }
        ensures failed { OnErr result (WriteFailed (W.seen writer.old) (W.seen writer.new)) }
        ensures whole { OnOk result ((W.seen writer.new).failed ≡ (W.seen writer.old).failed) }
    {
        let bytes = self.bytes();
        let wanted = max.min(bytes.len());
        let taken = write_front(writer, &bytes[..wanted]);
        self.drop_front(taken);
        if taken < wanted {
            return Err(WriteFault);
        }
        Ok(taken)
    }
}
