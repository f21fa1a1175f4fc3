//! Many ends at once, each as far as is asked for.

use crate::draft::Draft;
use crate::moving::{Stopped, Tally, bring, bring_draft, empty};
use crate::peer::{greeting, requests};
use crate::setting::{made, metadata};
use bt_end::{End, HIGH_WATER, Role};
use sha1::Sha1;
use std::alloc::{AllocError, Global};

/// How far each of many ends is.
#[derive(Clone, Copy)]
pub enum State {
    /// Nothing has come from the peer.
    New,
    /// The peer's handshake and extended handshake are handled, and nothing waits to be sent.
    Open,
    /// As `Open`, and it serves one block.
    Serving,
    /// So much waits to be sent that the end handles nothing more.
    Busy,
    /// As `Busy`, and then all was taken.
    Drained,
    /// Metadata of 64 MiB is fetched, of which nothing has come.
    Fetching,
}

/// The names of the states.
pub const STATES: [(&str, State); 6] = [
    ("new", State::New),
    ("open", State::Open),
    ("serving", State::Serving),
    ("busy", State::Busy),
    ("drained", State::Drained),
    ("fetching", State::Fetching),
];

/// Brings requests, and takes nothing that the end sends, until it is busy.
fn fill(end: &mut End, requests: &[u8]) -> Result<(), Stopped> {
    let mut tally = Tally::default();
    for _request in 0..HIGH_WATER {
        if end.outgoing().len() >= HIGH_WATER {
            break;
        }
        bring(end, requests, usize::MAX, &mut tally)?;
    }
    Ok(())
}

/// How each of many ends is made, and what the peer says to it.
#[derive(Drop)]
struct Plan {
    alloc: Global,
    served: Vec<u8>,
    hash: [u8; 20],
    limit: u32,
    state: State,
    greeting: Draft,
    request: Draft,
}

impl Plan {
    fn new(alloc: Global, limit: u32, state: State) -> Result<Plan, AllocError> {
        let served = metadata(alloc, 1)?;
        let hash = Sha1::digest(&served);
        let size = match state {
            State::Fetching => Some(67_108_864),
            _ => None,
        };
        Ok(Plan {
            alloc,
            served,
            hash,
            limit,
            state,
            greeting: greeting(alloc, hash, size),
            request: requests(alloc, 1),
        })
    }

    /// What an end does with metadata.
    fn role(&self) -> Result<Role, AllocError> {
        match self.state {
            State::New | State::Open => Ok(Role::Watch),
            State::Fetching => Ok(Role::Fetch),
            _ => Ok(Role::Serve(self.served.to_vec(self.alloc)?)),
        }
    }

    /// Brings an end into its state.
    fn bring_to_state(&self, end: &mut End) -> Result<(), Stopped> {
        let mut tally = Tally::default();
        if let State::New = self.state {
            return Ok(());
        }
        bring_draft(end, &self.greeting, 1, &mut tally)?;
        empty(end, &mut tally);
        if let State::Busy | State::Drained = self.state {
            fill(end, self.request.whole()?)?;
        }
        if let State::Drained = self.state {
            empty(end, &mut tally);
        }
        Ok(())
    }

    /// Returns an end in its state.
    fn end(&self) -> Result<End, Stopped> {
        let mut end = made(self.alloc, self.hash, self.limit, self.role()?)?;
        match self.bring_to_state(&mut end) {
            Ok(()) => Ok(end),
            Err(stopped) => Err(stopped),
        }
    }

    /// Adds one more end.
    fn add(&self, ends: &mut Vec<End>) -> Result<(), Stopped> {
        match ends.push(self.end()?) {
            Ok(()) => Ok(()),
            Err(_) => Err(Stopped::Memory),
        }
    }
}

/// Makes `count` ends in this state, whose limit is `limit` bytes.
///
/// # Errors
/// `Stopped` if an end refuses or can't be made, or when out of memory.
pub fn ends(alloc: Global, count: u32, state: State, limit: u32) -> Result<Vec<End>, Stopped> {
    let plan = Plan::new(alloc, limit, state)?;
    let mut ends = Vec::new(alloc);
    for _end in 0..count {
        plan.add(&mut ends)?;
    }
    Ok(ends)
}
