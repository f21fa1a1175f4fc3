//! A connection in memory, which moves a given number of bytes a call and fails at a given call.
ghost use Rattle.std.specs.Prelude.{◌≡◌, ◌≤◌, ◌<◌, [], Ok, Some, length};
ghost use Rattle.std.specs.Io.{WritesAtMost};
ghost use Rattle.std.specs.Io.KnownBytes.{ReadConsumes, WriteAppends};
ghost use Rattle.bt_io.specs.Counts.{one_more};
ghost use Rattle.bt_loop.specs.Wires.{Receives, Sends};

use crate::wire::{Wire, WireFault, failed_after};
use bt_session::Side;
use std::alloc::Global;

/// A connection in memory.
///
/// It moves at most `most` bytes a call, and fails once, at the call `fails_at`, counted from 1.
#[derive(Drop)]
pub struct MemWire {
    to_left: Vec<u8>,
    to_right: Vec<u8>,
    most: usize,
    fails_at: Option<u64>,
    calls: u64,
    failed: u64,
    ghost moves: { 0 < most },
}

/// Puts at most `most` bytes after the others.
fn put(lane: &mut Vec<u8>, from: &[u8], most: usize) -> Result<usize, WireFault>
    ensures bound { WritesAtMost result from.now }
    ensures bytes { WriteAppends (Some lane.old.items) (Some lane.new.items) result from.now }
{
    let count = from.len().min(most);
    match lane.extend_from_slice(&from[..count]) {
        Ok(()) => Ok(count),
        Err(_) => Err(WireFault),
    }
}

/// Takes at most `most` bytes from the front.
fn take(lane: &mut Vec<u8>, into: &mut [u8], most: usize) -> usize
    requires { 0 < most }
    ensures bound { result ≤ length into.new }
    ensures size { length into.new ≡ length into.old }
    ensures bytes { ReadConsumes {E = WireFault} (Some lane.old.items) (Some lane.new.items) (Ok result) into.new }
{
    let count = into.len().min(most).min(lane.len());
    into[..count].copy_from_slice(&lane[..count]);
    let rest = lane.len() - count;
    lane.copy_within(count.., 0);
    lane.truncate(rest);
    count
}

impl MemWire {
    ghost use Rattle.bt_loop.specs.MemWires.{wire_seen};

    /// Makes a connection with nothing on its way and no call made. `most` is above 0.
    pub fn new(alloc: Global, most: usize, fails_at: Option<u64>) -> MemWire
        requires { 0 < most }
        ensures to_left { (wire_seen result).to_left ≡ Some [] }
        ensures to_right { (wire_seen result).to_right ≡ Some [] }
        ensures calls { (wire_seen result).calls ≡ 0 }
        ensures failed { (wire_seen result).failed ≡ 0 }
    {
        MemWire {
            to_left: Vec::new(alloc),
            to_right: Vec::new(alloc),
            most,
            fails_at,
            calls: 0,
            failed: 0,
        }
    }

    /// Returns how many calls were made.
    pub fn calls(&self) -> u64
        ensures { result ≡ (wire_seen self.now).calls }
    {
        self.calls
    }

    /// Puts bytes on the way from this side.
    fn put_from(&mut self, from: Side, bytes: &[u8]) -> Result<usize, WireFault>
        ensures bytes { Sends from (wire_seen self.old) (wire_seen self.new) result bytes.now }
        ensures calls { self.new.calls ≡ self.old.calls }
        ensures failed { self.new.failed ≡ self.old.failed }
    {
        match from {
            Side::Left => put(&mut self.to_right, bytes, self.most),
            Side::Right => put(&mut self.to_left, bytes, self.most),
        }
    }

    /// Takes bytes on their way to this side.
    fn take_at(&mut self, at: Side, into: &mut [u8]) -> usize
        ensures bytes { Receives {E = WireFault} at (wire_seen self.old) (wire_seen self.new) (Ok result) into.new }
        ensures size { length into.new ≡ length into.old }
        ensures calls { self.new.calls ≡ self.old.calls }
        ensures failed { self.new.failed ≡ self.old.failed }
    {
        match at {
            Side::Left => take(&mut self.to_left, into, self.most),
            Side::Right => take(&mut self.to_right, into, self.most),
        }
    }

    /// Returns whether this call is the one that fails.
    fn begin(&mut self) -> bool
        ensures calls { self.new.calls ≡ one_more self.old.calls }
        ensures rest { self.new ≡ record self.old { calls = self.new.calls } }
    {
        self.calls = self.calls.saturating_add(1);
        self.fails_at == Some(self.calls)
    }
}

impl Wire for MemWire {
    ghost use Rattle.bt_loop.specs.MemWires.{wire_seen};

    ghost seen = { wire_seen };

    fn send(&mut self, from: Side, bytes: &[u8]) -> Result<usize, WireFault> {
        let moved = if self.begin() {
            Err(WireFault)
        } else {
            self.put_from(from, bytes)
        };
        self.failed = failed_after(moved, bytes.len(), self.failed);
        moved
    }

    fn receive(&mut self, at: Side, into: &mut [u8]) -> Result<usize, WireFault> {
        let moved = if self.begin() {
            Err(WireFault)
        } else {
            Ok(self.take_at(at, into))
        };
        self.failed = failed_after(moved, into.len(), self.failed);
        moved
    }
}
