//! The connections that have ended, in the order of their ends.
use crate::pair::Pair;
use std::alloc::Global;
use std::collections::VecDeque;

/// How many there may be. Further ones aren't looked at before the capture's end.
const MOST: usize = 16_384;

/// How long after its end a connection is looked at, in nanoseconds.
const QUIET: u64 = 4_000_000_000;

/// Which connections have ended, and when. It only says when one is looked at.
#[derive(Drop)]
pub struct Ended {
    queue: VecDeque<(u64, Pair)>,
}

impl Ended {
    /// Starts with none.
    pub fn new(alloc: Global) -> Ended {
        Ended {
            queue: VecDeque::new(alloc),
        }
    }

    /// Notes that a connection has ended at this time, unless there are too many, or memory runs out.
    pub fn note(&mut self, pair: Pair, nanos: u64) {
        if self.queue.len() >= MOST {
            return;
        }
        match self.queue.push_back((nanos, pair)) {
            Ok(()) => {}
            Err(_) => {}
        }
    }

    /// Notes whether a connection has ended at this time, which it had not before.
    pub fn note_end(&mut self, pair: Pair, had_ended: bool, has_ended: bool, nanos: u64) {
        if has_ended && !had_ended {
            self.note(pair, nanos);
        }
    }

    /// Takes out the connection that is to be looked at at this time, if there is one.
    pub fn take_due(&mut self, nanos: u64) -> Option<Pair> {
        let due = match self.queue.front() {
            Some((end, _)) => nanos.saturating_sub(*end) >= QUIET,
            None => false,
        };
        if !due {
            return None;
        }
        match self.queue.pop_front() {
            Some((_, pair)) => Some(pair),
            None => None,
        }
    }
}
