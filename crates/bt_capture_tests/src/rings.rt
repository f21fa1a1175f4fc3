//! A ring with its memory, and calls on it with their answers.
ghost use Rattle.std.specs.Prelude.{◌≡◌, ℕ, ◌+◌, ◌<◌, ◌≤◌, false, length};
ghost use Rattle.bt_tcp.specs.Bits.{places};
ghost use Rattle.bt_tcp.specs.Cells.{is_known};

use bt_tcp::{Put, Ring};
use std::alloc::{AllocError, Global};
use std::process::Abort;
use std::test::Fail;

/// A call on a ring, and what it answers.
#[derive(Clone, Copy)]
pub(crate) enum Step {
    Put(u32, &'static [u8], Put),
    Ready(&'static [u8]),
    Next(u64),
    /// So many bytes of a segment differ from those ahead.
    Conflicts(u32, &'static [u8], usize),
    Lengthen(usize),
    /// How many places there are.
    Places(usize),
}

/// A ring and its memory.
#[derive(Drop)]
pub(crate) struct Window {
    ring: Ring,
    known: Vec<u8>,
    bytes: Vec<u8>,
    ghost inside: { ring.head < places known.items },
    ghost same: { length bytes.items ≡ places known.items },
    ghost over: { (k : ℕ) → ring.end ≤ ring.next + k → is_known known.items ring.head k ≡ false },
}

impl Window {
    /// A ring of eight places from 1000 on. What is in its memory doesn't matter.
    pub(crate) fn new(alloc: Global) -> Result<Window, AllocError> {
        let mut known = Vec::new(alloc);
        known.resize(1, 0xff)?;
        let mut bytes = Vec::new(alloc);
        bytes.resize(8, b'?')?;
        let ring = Ring::new(1000, &mut known, &bytes);
        Ok(Window { ring, known, bytes })
    }

    fn put(&mut self, at: u32, part: &[u8]) -> Put {
        let at = u64::from(at);
        self.ring.put(&mut self.known, &mut self.bytes, at, part)
    }

    fn is_ready(&mut self, wanted: &[u8]) -> bool {
        self.ring.ready(&mut self.known, &self.bytes) == wanted
    }

    pub(crate) fn next(&self) -> u64 {
        self.ring.next()
    }

    fn conflicts(&self, at: u32, part: &[u8]) -> usize {
        let at = u64::from(at);
        self.ring
            .count_conflicts_ahead(&self.known, &self.bytes, at, part)
    }

    fn lengthen(&mut self, count: usize) -> Result<(), AllocError> {
        self.ring.lengthen(&mut self.known, &mut self.bytes, count)
    }

    /// Whether a call answers so.
    fn goes(&mut self, step: &Step) -> Result<bool, AllocError> {
        match *step {
            Step::Put(at, part, answer) => Ok(self.put(at, part) == answer),
            Step::Ready(bytes) => Ok(self.is_ready(bytes)),
            Step::Next(place) => Ok(self.next() == place),
            Step::Conflicts(at, part, count) => Ok(self.conflicts(at, part) == count),
            Step::Lengthen(count) => {
                self.lengthen(count)?;
                Ok(true)
            }
            Step::Places(count) => Ok(self.bytes.len() == count),
        }
    }

    /// Makes the calls, and compares the answers.
    pub(crate) fn check(&mut self, rt: &impl Abort, steps: &[Step]) -> Result<(), Fail> {
        for (n, step) in steps.iter().enumerate() {
            assert!(rt; self.goes(step)?, "at {n}");
        }
        Ok(())
    }
}
