//! The workloads: what each does, and how much of it.

use crate::client::parse;
use crate::commands::{Command, Reading, read_all, there_and_back};
use crate::digest::Digest;
use crate::draw::Draw;
use crate::ends::ends;
use crate::messages::Kind;
use crate::odd::{Flawed, refuse_all};
use crate::receivers::Receiver;
use crate::stopped::Stopped;
use crate::streams::{Part, Streams};
use bt_ext::Rules;
use std::alloc::Global;

/// A job that users wait for.
#[derive(Clone, Copy)]
pub enum Workload {
    /// `show` and `check` of captures.
    Show,
    /// `show --json` of captures.
    Json,
    /// `unpack` of streams, and `pack` of their scripts.
    Script,
    /// Parsing what sockets give, item by item.
    Client,
    /// `check` of streams full of dictionaries, honest and hostile ones.
    Dicts,
    /// Ends that serve and fetch metadata, with honest peers and hostile ones.
    Ends,
    /// Extended messages under other ids, unsorted keys, the greatest integers, and streams of 1 MiB that are refused.
    Odd,
}

/// The names of the workloads.
pub const WORKLOADS: [(&str, Workload); 7] = [
    ("show", Workload::Show),
    ("json", Workload::Json),
    ("script", Workload::Script),
    ("client", Workload::Client),
    ("dicts", Workload::Dicts),
    ("ends", Workload::Ends),
    ("odd", Workload::Odd),
];

const SHOW: [Part; 3] = [
    Part(Kind::Greetings, 1),
    Part(Kind::Small, 60),
    Part(Kind::Blocks, 2),
];

const JSON: [Part; 4] = [
    Part(Kind::Greetings, 2),
    Part(Kind::Small, 20),
    Part(Kind::Blocks, 1),
    Part(Kind::Askings, 5),
];

const SCRIPT: [Part; 3] = [
    Part(Kind::Greetings, 1),
    Part(Kind::Small, 40),
    Part(Kind::Askings, 5),
];

const CLIENT: [Part; 3] = [
    Part(Kind::Greetings, 1),
    Part(Kind::Small, 40),
    Part(Kind::Blocks, 2),
];

const DICTS: [Part; 4] = [
    Part(Kind::Greetings, 10),
    Part(Kind::Askings, 20),
    Part(Kind::ManyPairs, 4),
    Part(Kind::Nested, 2),
];

const SORTED: [Part; 2] = [Part(Kind::Strange, 40), Part(Kind::Greatest, 40)];

const UNSORTED: [Part; 1] = [Part(Kind::Unsorted, 40)];

/// `show` and `check` by both rule sets, with the piece count and without.
const LOOK_AT: [Reading; 4] = [
    Reading(Command::Show, Rules::Free, Receiver::Plain, false),
    Reading(Command::Check, Rules::Bep, Receiver::Plain, false),
    Reading(Command::Check, Rules::Free, Receiver::Knowing, false),
    Reading(Command::Show, Rules::Bep, Receiver::Knowing, false),
];

const AS_JSON: [Reading; 1] = [Reading(Command::Json, Rules::Free, Receiver::Plain, false)];

/// `check` by both rule sets.
const JUDGE: [Reading; 2] = [
    Reading(Command::Check, Rules::Bep, Receiver::Knowing, false),
    Reading(Command::Check, Rules::Free, Receiver::Plain, false),
];

/// `show` and `check` by the lenient rules.
const LENIENTLY: [Reading; 2] = [
    Reading(Command::Show, Rules::Free, Receiver::Plain, false),
    Reading(Command::Check, Rules::Free, Receiver::Plain, false),
];

/// The inputs' seed and numbers, how many rounds are done, and what came of them.
#[derive(Drop)]
struct Job {
    alloc: Global,
    seed: u32,
    rounds: u32,
    draw: Draw,
    digest: Digest,
}

impl Job {
    /// Does a round of a workload with this stream.
    fn round(&mut self, workload: Workload, stream: &[u8]) -> Result<(), Stopped> {
        match workload {
            Workload::Show => read_all(self.alloc, stream, &LOOK_AT, &mut self.digest),
            Workload::Json => read_all(self.alloc, stream, &AS_JSON, &mut self.digest),
            Workload::Script => there_and_back(self.alloc, stream, &mut self.digest),
            Workload::Client => parse(self.alloc, stream, &mut self.draw, &mut self.digest),
            _ => read_all(self.alloc, stream, &JUDGE, &mut self.digest),
        }
    }

    /// Does the rounds of a workload, each with a stream of these parts.
    fn rounds(&mut self, workload: Workload, parts: &[Part]) -> Result<(), Stopped> {
        let mut streams = Streams::new(self.alloc, self.seed, parts)?;
        for _round in 0..self.rounds {
            self.round(workload, streams.next().whole()?)?;
            self.digest.is_whole = false;
        }
        Ok(())
    }

    /// Reads odd streams and refused ones.
    fn odd(&mut self) -> Result<(), Stopped> {
        let alloc = self.alloc;
        let mut sorted = Streams::new(alloc, self.seed, &SORTED)?;
        let mut unsorted = Streams::new(alloc, self.seed, &UNSORTED)?;
        let flawed = Flawed::new(alloc, self.seed);
        for _round in 0..self.rounds {
            read_all(alloc, sorted.next().whole()?, &JUDGE, &mut self.digest)?;
            read_all(
                alloc,
                unsorted.next().whole()?,
                &LENIENTLY,
                &mut self.digest,
            )?;
            refuse_all(alloc, &flawed, &mut self.digest)?;
        }
        Ok(())
    }
}

/// Does so many rounds of a workload on inputs of this seed.
///
/// # Errors
/// `Stopped` if an input is refused, or when out of memory.
pub fn work(alloc: Global, workload: Workload, seed: u32, rounds: u32) -> Result<Digest, Stopped> {
    let mut job = Job {
        alloc,
        seed,
        rounds,
        draw: Draw::new(seed),
        digest: Digest::new(),
    };
    match workload {
        Workload::Show => job.rounds(workload, &SHOW)?,
        Workload::Json => job.rounds(workload, &JSON)?,
        Workload::Script => job.rounds(workload, &SCRIPT)?,
        Workload::Client => job.rounds(workload, &CLIENT)?,
        Workload::Dicts => job.rounds(workload, &DICTS)?,
        Workload::Ends => ends(alloc, rounds, &mut job.draw, &mut job.digest)?,
        Workload::Odd => job.odd()?,
    }
    Ok(job.digest)
}
