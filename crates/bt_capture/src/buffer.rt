//! A buffer of bytes that are read from a source. It grows until an item of a capture file fits.
ghost use Rattle.std.specs.Prelude.{◌≡◌, ℕ, List, ◌+◌, ◌-◌, ◌<◌, ◌≤◌, [], ◌++◌, length, take, drop, Ok, OnOk, OnErr, IfOk, replicate, vec_len};
ghost use Rattle.std.specs.Io.KnownBytes.{Consumes, IsAtEnd, Keeps};
ghost use Rattle.bt_io.specs.Counts.{counted, is_end};
ghost use Rattle.bt_capture.specs.Reads.{was_read, has_failed};

use crate::fault::ReadFault;
use bt_io::Source;
use bt_pcap::NEED;
use std::alloc::{AllocError, Global};
use std::marker::Model;

/// How many bytes the buffer has, if no packet asks for more.
const ROOM: usize = 262_144;

/// The bytes that were read.
#[derive(Drop)]
pub struct Buffer {
    bytes: Vec<u8>,
    /// How many bytes at the front were read.
    size: usize,
}

impl Model for Buffer {
    ghost use Rattle.std.specs.Prelude.{ℕ, List, take, vec_len, ◌≤◌};

    ghost Value = { List ℕ };

    ghost view = { λ b. take b.size b.bytes.items };

    ghost invariant = { λ b. b.size ≤ vec_len b.bytes };
}

/// Makes the memory longer if all of it is used.
fn lengthen(bytes: &mut Vec<u8>, size: usize) -> Result<(), AllocError>
    requires within { size ≤ vec_len bytes.old }
    requires few { size < 1048604 }
    ensures room { OnOk result (size < vec_len bytes.new) }
    ensures within { size ≤ vec_len bytes.new }
    ensures same { take size bytes.new.items ≡ take size bytes.old.items }
{
    if size < bytes.len() {
        return Ok(());
    }
    bytes.resize(NEED, 0)
}

impl Buffer {
    /// Makes an empty buffer.
    ///
    /// # Errors
    /// `AllocError` when out of memory.
    pub fn new(alloc: Global) -> Result<Buffer, AllocError>
        ensures { IfOk result (λ b. b ≡ []) }
    {
        let mut bytes = Vec::new(alloc);
        bytes.resize(ROOM, 0)?;
        Ok(Buffer { bytes, size: 0 })
    }

    /// Returns the bytes.
    pub fn as_slice(&self) -> &[u8]
        ensures { result.now ≡ self.now }
    {
        &self.bytes.as_slice()[..self.size]
    }

    /// Drops `n` bytes, which are at most all, and moves the others to the front.
    pub fn drop_front(&mut self, n: usize)
        requires { n ≤ length self.old }
        ensures { self.new ≡ drop n self.old }
    {
        if n == 0 {
            return;
        }
        self.bytes.copy_within(n..self.size, 0);
        self.size -= n;
    }

    /// Reads once, to the end of the bytes, and returns how many came.
    ///
    /// # Errors
    /// `Failed` if the read failed, `Memory` when out of memory. The bytes are then unchanged.
    pub fn read<R: Source>(&mut self, reader: &mut R) -> Result<usize, ReadFault>
        requires { length self.old < 1048604 }
        ensures read { IfOk result (λ n. (bytes : List ℕ) × (length bytes ≡ n) × (self.new ≡ self.old ++ bytes)
            × Consumes (R.seen reader.old).left (R.seen reader.new).left bytes) }
        ensures err { OnErr result ((self.new ≡ self.old) × Keeps (R.seen reader.old).left (R.seen reader.new).left) }
        ensures reads { (R.seen reader.new).reads ≡ counted (was_read result) (R.seen reader.old).reads }
        ensures failed { (R.seen reader.new).failed ≡ counted (has_failed result) (R.seen reader.old).failed }
        ensures ends { (R.seen reader.new).ends ≡ counted (is_end result 1) (R.seen reader.old).ends }
        ensures none_left { result ≡ Ok 0 → IsAtEnd (R.seen reader.new).left }
    {
        if lengthen(&mut self.bytes, self.size).is_err() {
            return Err(ReadFault::Memory);
        }
        match reader.read(&mut self.bytes[self.size..]) {
            Ok(count) => {
                self.size += count;
                Ok(count)
            }
            Err(_) => Err(ReadFault::Failed),
        }
    }
}
