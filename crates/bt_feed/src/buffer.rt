//! The buffer of a feed: memory that is reserved once, into which a source can read directly.
ghost use Rattle.std.specs.Prelude.{◌≡◌, ℕ, List, ◌+◌, ◌<◌, ◌≤◌, [], ◌++◌, length, take, drop, OnErr, IfOk, is_err, replicate, vec_len, vec_capacity};
ghost use Rattle.std.specs.Io.KnownBytes.{Consumes, Keeps};
ghost use Rattle.bt_io.specs.Counts.{one_more, counted, is_end};

use bt_io::{Failed, Source};
use std::alloc::{AllocError, Allocator};
use std::marker::Model;

/// How many bytes a copy of few bytes moves, whatever their number.
///
/// Messages without bytes of their own have at most 17.
const FEW: usize = 32;

/// The bytes that are buffered.
///
/// Those after them are kept from before, so that they can be lent to a source without being filled again.
#[derive(Drop)]
pub struct Buffer<A: Allocator> {
    bytes: Vec<u8, A>,
    /// How many bytes at the front are buffered.
    size: usize,
}

impl<A: Allocator> Model for Buffer<A> {
    ghost use Rattle.std.specs.Prelude.{take, vec_len, vec_capacity, ◌≤◌};
    ghost use Rattle.bt_feed.specs.Buffers.{Room};

    ghost Value = { Room };

    ghost view = { λ b. record { items = take b.size b.bytes.items; capacity = vec_capacity b.bytes } };

    ghost invariant = { λ b. b.size ≤ vec_len b.bytes };
}

/// Copies the first 32 bytes of a chunk to an offset.
#[inline(always)]
fn copy_few(into: &mut [u8], at: usize, chunk: &[u8])
    requires room { at + 32 ≤ length into.old }
    requires there { 32 ≤ length chunk.now }
    ensures { into.new ≡ take at into.old ++ (take 32 chunk.now ++ drop (at + 32) into.old) }
{
    into[at..at + FEW].copy_from_slice(&chunk[..FEW]);
}

/// Puts zeros after the bytes, so that they are at least `goal`.
fn lengthen<A: Allocator>(bytes: &mut Vec<u8, A>, goal: usize)
    requires { goal ≤ vec_capacity bytes.old }
    ensures items { (n : ℕ) × (bytes.new.items ≡ bytes.old.items ++ replicate n 0) }
    ensures len { (goal ≤ vec_len bytes.new) × (vec_len bytes.old ≤ vec_len bytes.new) }
    ensures capacity { vec_capacity bytes.old ≤ vec_capacity bytes.new }
{
    if bytes.len() >= goal {
        return;
    }
    match bytes.resize(goal, 0) {
        Ok(()) => {}
        Err(_) => unreachable!(),
    }
}

impl<A: Allocator> Buffer<A> {
    /// Makes an empty buffer with room for `n` bytes.
    ///
    /// # Errors
    /// `AllocError` when out of memory.
    pub fn with_capacity(alloc: A, n: usize) -> Result<Buffer<A>, AllocError>
        ensures { IfOk result (λ b. (b.items ≡ []) × (n ≤ b.capacity)) }
    {
        Ok(Buffer {
            bytes: Vec::with_capacity(alloc, n)?,
            size: 0,
        })
    }

    /// Returns the bytes that are buffered.
    #[inline(always)]
    pub fn as_slice(&self) -> &[u8]
        ensures { result.now ≡ self.now.items }
    {
        &self.bytes.as_slice()[..self.size]
    }

    /// Returns how many bytes are buffered.
    #[inline(always)]
    pub fn len(&self) -> usize
        ensures { result ≡ length self.now.items }
    {
        self.size
    }

    /// Drops all bytes. The room stays.
    #[inline(always)]
    pub fn clear(&mut self)
        ensures items { self.new.items ≡ [] }
        ensures capacity { self.new.capacity ≡ self.old.capacity }
    {
        self.size = 0;
    }

    /// Appends bytes for which there is room.
    #[inline(always)]
    pub fn append(&mut self, bytes: &[u8])
        requires { length self.old.items + length bytes.now ≤ self.old.capacity }
        ensures items { self.new.items ≡ self.old.items ++ bytes.now }
        ensures capacity { self.old.capacity ≤ self.new.capacity }
    {
        if bytes.len() > self.bytes.len() - self.size {
            self.append_longer(bytes);
            return;
        }
        let end = self.size + bytes.len();
        self.bytes[self.size..end].copy_from_slice(bytes);
        self.size = end;
    }

    /// Appends bytes for which there is room, past those that are kept from before.
    #[cold]
    #[inline(never)]
    fn append_longer(&mut self, bytes: &[u8])
        requires { length self.old.items + length bytes.now ≤ self.old.capacity }
        ensures items { self.new.items ≡ self.old.items ++ bytes.now }
        ensures capacity { self.old.capacity ≤ self.new.capacity }
    {
        let over = (self.bytes.len() - self.size).min(bytes.len());
        self.bytes[self.size..self.size + over].copy_from_slice(&bytes[..over]);
        match self.bytes.extend_from_slice(&bytes[over..]) {
            Ok(()) => {}
            Err(_) => unreachable!(),
        }
        self.size += bytes.len();
    }

    /// Appends the first `count` bytes of a chunk, for which there is room.
    ///
    /// A few bytes are copied with those after them in one move of a length that the compiler knows, so that it calls nothing.
    #[inline(always)]
    pub fn append_front(&mut self, chunk: &[u8], count: usize)
        requires front { count ≤ length chunk.now }
        requires room { length self.old.items + count ≤ self.old.capacity }
        ensures items { self.new.items ≡ self.old.items ++ take count chunk.now }
        ensures capacity { self.old.capacity ≤ self.new.capacity }
    {
        if count <= FEW && chunk.len() >= FEW && self.bytes.len() - self.size >= FEW {
            copy_few(self.bytes.as_mut_slice(), self.size, chunk);
            self.size += count;
            return;
        }
        self.append(&chunk[..count]);
    }

    /// Reads bytes to the end of the buffer, and returns how many came.
    ///
    /// At most `goal` bytes are buffered then.
    ///
    /// # Errors
    /// `Failed` if the read failed; the buffered bytes are then unchanged.
    pub fn read<R: Source>(&mut self, reader: &mut R, goal: usize) -> Result<usize, Failed>
        requires room { goal ≤ self.old.capacity }
        requires some { length self.old.items < goal }
        ensures within { length self.new.items ≤ goal }
        ensures capacity { self.old.capacity ≤ self.new.capacity }
        ensures read { IfOk result (λ n. (bytes : List ℕ) × (length bytes ≡ n) × (self.new.items ≡ self.old.items ++ bytes)
            × Consumes (R.seen reader.old).left (R.seen reader.new).left bytes) }
        ensures err { OnErr result ((self.new.items ≡ self.old.items) × Keeps (R.seen reader.old).left (R.seen reader.new).left) }
        ensures reads { (R.seen reader.new).reads ≡ one_more (R.seen reader.old).reads }
        ensures failed { (R.seen reader.new).failed ≡ counted (is_err result) (R.seen reader.old).failed }
        ensures ends { (R.seen reader.new).ends ≡ counted (is_end result 1) (R.seen reader.old).ends }
    {
        lengthen(&mut self.bytes, goal);
        let count = reader.read(&mut self.bytes[self.size..goal])?;
        self.size += count;
        Ok(count)
    }
}
