//! Sleeps until a socket may be ready, and says which. A loop over many connections calls it.

use crate::polled::Flag;
use crate::slots::Slots;
use mio::unix::SourceFd;
use mio::{Events, Interest, Poll, Token};
use std::alloc::Global;
use std::net::Net;
use std::os::fd::RawFd;
use std::time::Duration;

/// How many sockets one sleep reports at most. The next one reports the others.
const EVENTS: usize = 256;

/// The sockets of a loop, each with a flag that is raised when it may be ready.
#[derive(Drop)]
pub struct Sleeper {
    poll: Poll,
    events: Events,
    slots: Slots,
    /// Whether a socket has a flag that is always up, and so no slot.
    has_unwatched: bool,
    /// How long a sleep lasts at most, in milliseconds.
    longest: u64,
    /// When all flags were raised last, in milliseconds.
    raised: u64,
}

impl Sleeper {
    /// Returns a sleeper for this many sockets, which sleeps for `longest` milliseconds at most.
    ///
    /// `None` if the system has no descriptor for it, or when out of memory.
    pub fn new<R: Net>(net: &R, alloc: Global, sockets: usize, longest: u64) -> Option<Sleeper> {
        let poll = Poll::new(net).ok()?;
        let events = Events::with_capacity(alloc, EVENTS).ok()?;
        let slots = Slots::new(alloc, sockets).ok()?;
        Some(Sleeper {
            poll,
            events,
            slots,
            has_unwatched: false,
            longest,
            raised: 0,
        })
    }

    /// Returns the flag of a socket. It is up, and from now on raised when the socket may be ready.
    ///
    /// A closed socket gives its slot back. If the system or the memory refuses, the flag is always up.
    pub fn watch(&mut self, socket: RawFd) -> Flag {
        if let Some((flag, number)) = self.slots.take() {
            let interest = Interest::READABLE | Interest::WRITABLE;
            let registry = self.poll.registry();
            if registry
                .register(&mut SourceFd(&socket), Token(number), interest)
                .is_ok()
            {
                return flag;
            }
        }
        self.has_unwatched = true;
        Flag::always()
    }

    /// Hears that the connection of this index in the loop has this flag.
    pub fn place(&mut self, flag: &Flag, at: usize) {
        if let Some(number) = flag.slot() {
            self.slots.place(number, at);
        }
    }

    /// Returns the index of the next connection that may be able to go on.
    ///
    /// Between two sleeps it returns each one that was placed once, if its flag is up. If a socket can't be watched it returns `next`.
    pub fn due(&mut self, next: usize) -> Option<usize> {
        if self.has_unwatched {
            return Some(next);
        }
        self.slots.next()
    }

    /// Raises the flags of the sockets that may be ready. If the loop is idle it sleeps until one is.
    ///
    /// `time` is that of a clock in milliseconds. When `longest` milliseconds have passed since it happened last, it raises all flags,
    /// so that an event that was lost costs so much time and no more. It returns whether the system could wait; if not, all flags are up.
    pub fn sleep(&mut self, is_idle: bool, time: u64) -> bool {
        let most = if is_idle { self.longest } else { 0 };
        let waited = self
            .poll
            .poll(&mut self.events, Some(Duration::from_millis(most)));
        self.slots.begin();
        let mut is_woken = false;
        for event in self.events.iter() {
            self.slots.raise(event.token().0);
            is_woken = true;
        }
        if waited.is_err() {
            self.slots.raise_all();
            return false;
        }
        if is_idle && !is_woken {
            self.raised = time.saturating_add(self.longest);
            self.slots.raise_all();
        } else if time.saturating_sub(self.raised) >= self.longest {
            self.raised = time;
            self.slots.raise_all();
        }
        true
    }
}
