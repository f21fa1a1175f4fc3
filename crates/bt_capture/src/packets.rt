//! The packets of a capture file that is read from a source.
ghost use Rattle.std.specs.Prelude.{◌≡◌, ℕ, List, ◌+◌, ◌<◌, ◌≤◌, [], ◌∷◌, ◌++◌, length, Ok, Err, OnErr, IfOk};
ghost use Rattle.std.specs.Io.KnownBytes.{Consumes, IsAtEnd, Keeps};
ghost use Rattle.bt_io.specs.Counts.{counted, is_end};
ghost use Rattle.bt_pcap.specs.Formats.{Captured, Unknown};
ghost use Rattle.bt_pcap.specs.Captures.{IsCapture};
ghost use Rattle.bt_pcap.specs.Laws.{joined};
ghost use Rattle.bt_pcap.specs.declared.fault.FileFault.{FileFault};
ghost use Rattle.bt_capture.specs.Reads.{was_read, has_failed};
ghost use Rattle.bt_capture.specs.Readings.{nothing_read, with_bytes, shown, IsReading, GoesOn, Hands, Repeats, IsFaulty};

use crate::buffer::Buffer;
use crate::fault::ReadFault;
use crate::walk::Walk;
use bt_io::Source;
use bt_pcap::{FileFault, Packet};
use std::alloc::{AllocError, Global};
use std::marker::Model;

/// How a capture file ended.
#[derive(Clone, Copy, PartialEq, Eq, Debug)]
pub enum FileEnd {
    /// After a whole item.
    Whole,
    /// Inside an item, which is left out.
    Cut,
}

/// The packets of a capture file, which is read piece by piece.
///
/// Each packet is handed out as soon as it has come. The buffer has 256 KiB, or 1,048,604 bytes from the first longer packet on. A
/// turn of a loop that reads a file:
///
/// ```rust
/// match packets.take() {
///     Ok(Some(packet)) => lengths.push(packet.bytes.len())?,
///     Ok(None) => match packets.read(reader) {
///         Ok(0) => return Ok(Stop::End),
///         Ok(_) => {}
///         Err(fault) => return Ok(Stop::Read(fault)),
///     },
///     Err(fault) => return Ok(Stop::Fault(fault)),
/// }
/// ```
#[derive(Drop)]
pub struct Packets {
    walk: Walk,
    buffer: Buffer,
    /// How many bytes were read.
    bytes: u64,
}

impl Model for Packets {
    ghost use Rattle.std.specs.Prelude.{◌≤◌, length};
    ghost use Rattle.bt_capture.specs.Readings.{Reading};
    ghost use Rattle.bt_capture.specs.Walks.{walk_state};

    ghost Value = { Reading };

    ghost view = { λ p. walk_state p.walk p.buffer p.bytes };

    ghost invariant = { λ p. p.walk.at ≤ length p.buffer };
}

ghost use Rattle.std.specs.Io.BufRead.{Rests};
ghost use types.Logic.{sem};
ghost use Rattle.bt_capture.specs.contracts.packets.Packets.{the_row};
ghost use Rattle.bt_capture.specs.Ends.{IsEnded};

impl Packets {
    /// Starts before a file's first byte.
    ///
    /// # Errors
    /// `AllocError` when out of memory.
    pub fn new(alloc: Global) -> Result<Packets, AllocError>
        ensures nothing { IfOk result (λ p. p ≡ nothing_read) }
        ensures begins { IfOk result (λ p. IsReading [] [] p) }
    {
        let buffer = Buffer::new(alloc)?;
        Ok(Packets {
            walk: Walk::new(),
            buffer,
            bytes: 0,
        })
    }

    /// Hands out the next packet of what was read.
    ///
    /// `None` if more bytes are needed: call [`Packets::read`] then.
    ///
    /// # Errors
    /// `FileFault` if the bytes can't begin an item, whatever follows them. It is told again from then on.
    pub fn take(&mut self) -> Result<Option<Packet<'_>>, FileFault>
        ensures again { (f : FileFault) → IsFaulty self.old f → result ≡ Err f }
        ensures* after { sem 𝓛 (Rests the_row self.entry (λ new. Hands self.old (shown result) new × Repeats self.old (shown result) new)) }
    {
        self.walk.give(self.buffer.as_slice())
    }

    /// Reads once, and returns how many bytes came: 0 at the end of the file.
    ///
    /// It may be called after [`Packets::take`] returned `None`.
    ///
    /// # Errors
    /// `Failed` if the read failed, `Memory` when out of memory. Nothing is lost, and another call goes on.
    pub fn read<R: Source>(&mut self, reader: &mut R) -> Result<usize, ReadFault>
        requires { length self.old.held < 1048604 }
        ensures read { IfOk result (λ n. (bytes : List ℕ) × (length bytes ≡ n) × (self.new ≡ with_bytes self.old bytes)
            × GoesOn self.old bytes [] self.new × Consumes (R.seen reader.old).left (R.seen reader.new).left bytes) }
        ensures err { OnErr result ((self.new ≡ self.old) × Keeps (R.seen reader.old).left (R.seen reader.new).left) }
        ensures reads { (R.seen reader.new).reads ≡ counted (was_read result) (R.seen reader.old).reads }
        ensures failed { (R.seen reader.new).failed ≡ counted (has_failed result) (R.seen reader.old).failed }
        ensures ends { (R.seen reader.new).ends ≡ counted (is_end result 1) (R.seen reader.old).ends }
        ensures none_left { result ≡ Ok 0 → IsAtEnd (R.seen reader.new).left }
    {
        self.buffer.drop_front(self.walk.at);
        self.walk.at = 0;
        let count = self.buffer.read(reader)?;
        self.bytes = self.bytes.saturating_add(count as u64);
        Ok(count)
    }

    /// Tells how the file ended, if what was read is all of it.
    ///
    /// # Errors
    /// `NoCapture` if it has fewer than four bytes.
    pub fn ended(&self) -> Result<FileEnd, FileFault>
        ensures ended { IsEnded self.now result }
        ensures whole { result ≡ Ok FileEnd.Whole → (all : List ℕ) → (packets : List Captured) → IsReading all packets self.now
            → (items : List (List ℕ)) × (joined items ≡ all) × IsCapture Unknown items packets self.now.format }
    {
        if self.bytes < 4 {
            return Err(FileFault::NoCapture);
        }
        if self.walk.skip > 0 || self.walk.at < self.buffer.as_slice().len() {
            return Ok(FileEnd::Cut);
        }
        Ok(FileEnd::Whole)
    }

    /// Returns how many bytes were read, at most 2^64 - 1.
    pub fn bytes(&self) -> u64
        ensures { result ≡ self.now.bytes }
    {
        self.bytes
    }

    /// Returns how many packets were handed out, at most 2^64 - 1.
    pub fn packets(&self) -> u64
        ensures { result ≡ self.now.packets }
    {
        self.walk.packets
    }
}
