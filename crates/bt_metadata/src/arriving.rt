//! Metadata in memory, written only as far as blocks have come.
ghost use Rattle.std.specs.Prelude.{◌≡◌, ◌+◌, ◌-◌, ◌≤◌, ◌++◌, length, take, drop, max, replicate, vec_len, vec_capacity, IfOk};
ghost use Rattle.bt_metadata.specs.Arrivals.{unwritten};

use std::alloc::{AllocError, Allocator};
use std::marker::Model;

/// Holds metadata of a known size.
///
/// Memory for all of it is reserved at once, but none is touched before a block comes or is rejected: a peer that announces a size and
/// sends nothing makes nobody fill it.
#[derive(Drop)]
pub(crate) struct Arriving<A: Allocator> {
    /// The front, up to the end of the last block that has come or was rejected, with zeros for the others.
    bytes: Vec<u8, A>,
    size: usize,
}

impl<A: Allocator> Model for Arriving<A> {
    ghost use Rattle.std.specs.Prelude.{◌≤◌, vec_len, vec_capacity};
    ghost use Rattle.bt_metadata.specs.Arrivals.{Arrival, padded};

    ghost Value = { Arrival };

    ghost view = { λ a. record { whole = padded a.size a.bytes.items; written = vec_len a.bytes } };

    ghost invariant = { λ a. (vec_len a.bytes ≤ a.size) × (a.size ≤ vec_capacity a.bytes) };
}

/// Puts zeros after the bytes, so that they are at least `goal`.
fn lengthen<A: Allocator>(bytes: &mut Vec<u8, A>, goal: usize)
    requires { goal ≤ vec_capacity bytes.old }
    ensures items { bytes.new.items ≡ bytes.old.items ++ replicate (goal - vec_len bytes.old) 0 }
    ensures len { vec_len bytes.new ≡ max (vec_len bytes.old) goal }
    ensures capacity { vec_capacity bytes.old ≤ vec_capacity bytes.new }
{
    if bytes.len() >= goal {
        return;
    }
    match bytes.resize(goal, 0) {
        Ok(()) => {}
        Err(_) => unreachable!(),
    }
}

/// Puts a block in its place, over the bytes there and past their end.
fn store<A: Allocator>(bytes: &mut Vec<u8, A>, at: usize, block: &[u8])
    requires place { at ≤ vec_len bytes.old }
    requires room { at + length block.now ≤ vec_capacity bytes.old }
    ensures items { bytes.new.items ≡ take at bytes.old.items ++ block.now ++ drop (at + length block.now) bytes.old.items }
    ensures len { vec_len bytes.new ≡ max (vec_len bytes.old) (at + length block.now) }
    ensures capacity { vec_capacity bytes.old ≤ vec_capacity bytes.new }
{
    let over = (bytes.len() - at).min(block.len());
    bytes[at..at + over].copy_from_slice(&block[..over]);
    match bytes.extend_from_slice(&block[over..]) {
        Ok(()) => {}
        Err(_) => unreachable!(),
    }
}

impl<A: Allocator> Arriving<A> {
    /// Reserves memory for metadata of `size` bytes, of which none has come.
    ///
    /// # Errors
    /// `AllocError` when out of memory.
    pub(crate) fn new(alloc: A, size: usize) -> Result<Arriving<A>, AllocError>
        ensures { IfOk result (λ a. a ≡ unwritten size) }
    {
        Ok(Arriving {
            bytes: Vec::with_capacity(alloc, size)?,
            size,
        })
    }

    /// Returns the size of the metadata.
    pub(crate) fn len(&self) -> usize
        ensures { result ≡ length self.now.whole }
    {
        self.size
    }

    /// Returns the bytes from `at` to `end`, where memory is written.
    pub(crate) fn part(&self, at: usize, end: usize) -> &[u8]
        requires order { at ≤ end }
        requires written { end ≤ self.now.written }
        ensures { result.now ≡ take (end - at) (drop at self.now.whole) }
    {
        &self.bytes[at..end]
    }

    /// Returns the metadata, of which all is written.
    pub(crate) fn as_slice(&self) -> &[u8]
        requires { length self.now.whole ≤ self.now.written }
        ensures { result.now ≡ self.now.whole }
    {
        &self.bytes
    }

    /// Returns the metadata, of which all is written, in its memory.
    pub(crate) fn into_vec(self) -> Vec<u8, A>
        requires { length self.whole ≤ self.written }
        ensures { result.items ≡ self.whole }
    {
        self.bytes
    }

    /// Writes zeros up to `end`, as far as no memory is written there.
    ///
    /// It is for a block that doesn't come, so that the next one has no long gap before it to fill. Nothing is written past `end`.
    pub(crate) fn reach(&mut self, end: usize)
        requires { end ≤ length self.old.whole }
        ensures whole { self.new.whole ≡ self.old.whole }
        ensures written { self.new.written ≡ max self.old.written end }
    {
        lengthen(&mut self.bytes, end);
    }

    /// Puts a block in its place.
    ///
    /// What comes in order is written once. A block that comes early has zeros before it until the others come. Nothing is written
    /// past the block's end.
    pub(crate) fn write(&mut self, at: usize, block: &[u8])
        requires { at + length block.now ≤ length self.old.whole }
        ensures whole { self.new.whole ≡ take at self.old.whole ++ block.now ++ drop (at + length block.now) self.old.whole }
        ensures written { self.new.written ≡ max self.old.written (at + length block.now) }
    {
        lengthen(&mut self.bytes, at);
        store(&mut self.bytes, at, block);
    }
}
