//! Sources and targets in memory, which move a given number of bytes a call and fail at a given call.
ghost use Rattle.std.specs.Prelude.{◌≡◌, ◌+◌, ◌≤◌, ◌<◌, ◌⊎◌, ◌↔◌, Some, vec_len, length, min, is_err, IfOk, IsErr};
ghost use Rattle.std.specs.Io.{ReadsAtMost, WritesAtMost};
ghost use Rattle.std.specs.Io.KnownBytes.{ReadConsumes, WriteAppends};
ghost use Rattle.bt_io.specs.Counts.{one_more, counted as raised, is_end, is_stuck};

use crate::counts::counted;
use crate::failed::Failed;
use crate::source::Source;
use crate::target::Target;

/// A source in memory, which returns at most `most` bytes a call.
///
/// It fails once, at the call `fails_at`, counted from 1.
#[derive(Drop)]
pub struct MemSource {
    bytes: Vec<u8>,
    at: usize,
    most: usize,
    fails_at: Option<u64>,
    calls: u64,
    failed: u64,
    ends: u64,
    ghost within: { at ≤ vec_len bytes },
    ghost moves: { 0 < most },
}

impl MemSource {
    ghost use Rattle.bt_io.specs.Devices.{source_left, source_most, source_fails_at, source_counts, no_calls};

    /// Makes a source of these bytes. `most` is above 0.
    ///
    /// It returns at most `most` bytes a call, and fails once, at the call `fails_at`, counted from 1.
    pub fn new(bytes: Vec<u8>, most: usize, fails_at: Option<u64>) -> MemSource
        requires { 0 < most }
        ensures left { source_left result ≡ bytes.items }
        ensures most { source_most result ≡ most }
        ensures fails_at { source_fails_at result ≡ fails_at }
        ensures counts { source_counts result ≡ no_calls }
    {
        MemSource {
            bytes,
            at: 0,
            most,
            fails_at,
            calls: 0,
            failed: 0,
            ends: 0,
        }
    }
}

impl Source for MemSource {
    ghost use Rattle.bt_io.specs.Devices.{source_left, source_most, source_fails_at, source_counts, source_seen};

    ghost seen = { λ s. source_seen (Some (source_left s)) (source_counts s) };

    fn read(&mut self, into: &mut [u8]) -> Result<usize, Failed>
        ensures bound { ReadsAtMost result into.new }
        ensures bytes { ReadConsumes (Some (source_left self.old)) (Some (source_left self.new)) result into.new }
        ensures reads { (source_counts self.new).calls ≡ one_more (source_counts self.old).calls }
        ensures failed { (source_counts self.new).failed ≡ raised (is_err result) (source_counts self.old).failed }
        ensures ends { (source_counts self.new).ends ≡ raised (is_end result (length into.old)) (source_counts self.old).ends }
        ensures moved { IfOk result (λ n. n ≡ min (min (length into.old) (source_most self.old)) (length (source_left self.old))) }
        ensures fails { IsErr result ↔ (source_fails_at self.old ≡ Some (source_counts self.new).calls) }
    {
        self.calls = self.calls.saturating_add(1);
        if self.fails_at == Some(self.calls) {
            self.failed = self.failed.saturating_add(1);
            return Err(Failed);
        }
        let count = into.len().min(self.most).min(self.bytes.len() - self.at);
        into[..count].copy_from_slice(&self.bytes[self.at..self.at + count]);
        self.at += count;
        self.ends = counted(count == 0 && !into.is_empty(), self.ends);
        Ok(count)
    }
}

/// A target in memory, which takes at most `most` bytes a call.
///
/// It fails at the call `fails_at`, counted from 1, and if it has to grow and memory runs out. With `most` 0 it takes nothing.
#[derive(Drop)]
pub struct MemTarget {
    bytes: Vec<u8>,
    most: usize,
    fails_at: Option<u64>,
    calls: u64,
    failed: u64,
}

impl MemTarget {
    ghost use Rattle.bt_io.specs.Devices.{target_held, target_most, target_fails_at, target_counts, no_calls};

    /// Makes a target that has these bytes, and appends what is written to them.
    ///
    /// It takes at most `most` bytes a call, and fails at the call `fails_at`, counted from 1.
    pub fn new(bytes: Vec<u8>, most: usize, fails_at: Option<u64>) -> MemTarget
        ensures held { target_held result ≡ bytes.items }
        ensures most { target_most result ≡ most }
        ensures fails_at { target_fails_at result ≡ fails_at }
        ensures counts { target_counts result ≡ no_calls }
    {
        MemTarget {
            bytes,
            most,
            fails_at,
            calls: 0,
            failed: 0,
        }
    }

    /// Returns the bytes that were written, after those that it was made with.
    pub fn bytes(&self) -> &[u8]
        ensures { result.now ≡ target_held self.now }
    {
        self.bytes.as_slice()
    }
}

impl Target for MemTarget {
    ghost use Rattle.bt_io.specs.Devices.{target_held, target_room, target_most, target_fails_at, target_counts, target_seen};

    ghost seen = { λ t. target_seen (Some (target_held t)) (target_counts t) };

    fn write(&mut self, from: &[u8]) -> Result<usize, Failed>
        ensures bound { WritesAtMost result from.now }
        ensures bytes { WriteAppends (Some (target_held self.old)) (Some (target_held self.new)) result from.now }
        ensures writes { (target_counts self.new).calls ≡ one_more (target_counts self.old).calls }
        ensures failed { (target_counts self.new).failed
            ≡ raised (is_stuck result (length from.now)) (target_counts self.old).failed }
        ensures moved { IfOk result (λ n. n ≡ min (length from.now) (target_most self.old)) }
        ensures fails { target_fails_at self.old ≡ Some (target_counts self.new).calls → IsErr result }
        ensures only { IsErr result → (target_fails_at self.old ≡ Some (target_counts self.new).calls)
            ⊎ (target_room self.old < length (target_held self.old) + min (length from.now) (target_most self.old)) }
    {
        self.calls = self.calls.saturating_add(1);
        let count = from.len().min(self.most);
        if self.fails_at == Some(self.calls)
            || self.bytes.extend_from_slice(&from[..count]).is_err()
        {
            self.failed = self.failed.saturating_add(1);
            return Err(Failed);
        }
        self.failed = counted(count == 0 && !from.is_empty(), self.failed);
        Ok(count)
    }
}
