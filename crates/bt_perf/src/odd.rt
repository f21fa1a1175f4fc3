//! Streams of up to 1 MiB that end in a fault, as a hostile peer sends them again and again, and a long legal one.

use crate::commands::{Command, Reading, read_all};
use crate::dicts::{put_pairs, put_short_pairs};
use crate::digest::Digest;
use crate::draft::Draft;
use crate::draw::Draw;
use crate::messages::{put_extended, put_handshake};
use crate::receivers::Receiver;
use crate::stopped::Stopped;
use bt_ext::Rules;
use std::alloc::Global;

/// How many pairs a dictionary of nearly 1 MiB has.
const PAIRS: u32 = 69_000;

/// How many pairs the dictionaries of at most 128 KiB have.
const SHORT: [u32; 3] = [20, 1_000, 9_000];

/// How many pairs a legal dictionary of more than 128 KiB has.
const LEGAL: u32 = 13_000;

/// How a stream is read that both rule sets accept.
const WHOLE: [Reading; 2] = [
    Reading(Command::Check, Rules::Bep, Receiver::Patient, false),
    Reading(Command::Check, Rules::Free, Receiver::Patient, false),
];

/// How a stream is read that both rule sets refuse.
const BROKEN: [Reading; 2] = [
    Reading(Command::Check, Rules::Bep, Receiver::Patient, true),
    Reading(Command::Check, Rules::Free, Receiver::Patient, true),
];

/// How a stream is read that only the strict rules refuse.
const UNSORTED: [Reading; 2] = [
    Reading(Command::Check, Rules::Bep, Receiver::Patient, true),
    Reading(Command::Check, Rules::Free, Receiver::Patient, false),
];

/// The streams: an extended handshake each, whose dictionary has a fault at its end but for one.
#[derive(Drop)]
pub struct Flawed {
    /// The dictionary doesn't end.
    cut: Draft,
    /// Its last byte can't be part of a dictionary.
    wrong: Draft,
    /// Its last key is below the one before.
    unsorted: Draft,
    /// That dictionary as the innermost of 31.
    deep: Draft,
    /// Some of at most 128 KiB, whose last byte can't be part of a dictionary.
    short: [Draft; 3],
    /// A legal one.
    legal: Draft,
}

/// Returns a stream of an extended handshake with this dictionary, and `depth` around it.
fn stream(alloc: Global, dict: &Draft, depth: u32, draw: &mut Draw) -> Draft {
    let mut whole = Draft::new(alloc);
    for _level in 0..depth {
        whole.put(b"d1:a");
    }
    whole.put_draft(dict);
    for _level in 0..depth {
        whole.put(b"e");
    }
    let mut bytes = Draft::new(alloc);
    put_handshake(&mut bytes, b"01234567890123456789", draw);
    put_extended(&mut bytes, 0, &whole, &[]);
    bytes
}

/// Returns the pairs of a dictionary, and then these bytes.
fn pairs(alloc: Global, end: &[u8], draw: &mut Draw) -> Draft {
    let mut dict = Draft::new(alloc);
    put_pairs(&mut dict, PAIRS, end, draw);
    dict
}

/// Returns a stream of a dictionary with so many pairs of 11 bytes, and then these bytes.
fn short_pairs(alloc: Global, count: u32, end: &[u8], draw: &mut Draw) -> Draft {
    let mut dict = Draft::new(alloc);
    put_short_pairs(&mut dict, count, end);
    stream(alloc, &dict, 0, draw)
}

impl Flawed {
    /// Makes the streams.
    pub fn new(alloc: Global, seed: u32) -> Flawed {
        let mut draw = Draw::new(seed);
        let cut = pairs(alloc, b"", &mut draw);
        let wrong = pairs(alloc, b"x", &mut draw);
        let unsorted = pairs(alloc, b"1:0i0ee", &mut draw);
        Flawed {
            cut: stream(alloc, &cut, 0, &mut draw),
            wrong: stream(alloc, &wrong, 0, &mut draw),
            unsorted: stream(alloc, &unsorted, 0, &mut draw),
            deep: stream(alloc, &unsorted, 30, &mut draw),
            short: SHORT.map(|count| short_pairs(alloc, count, b"x", &mut draw)),
            legal: short_pairs(alloc, LEGAL, b"e", &mut draw),
        }
    }
}

/// Checks the streams by both rule sets, and adds the verdicts.
///
/// # Errors
/// `Stopped` if a verdict is another one, or when out of memory.
pub fn refuse_all(alloc: Global, flawed: &Flawed, digest: &mut Digest) -> Result<(), Stopped> {
    read_all(alloc, flawed.cut.whole()?, &BROKEN, digest)?;
    read_all(alloc, flawed.wrong.whole()?, &BROKEN, digest)?;
    read_all(alloc, flawed.unsorted.whole()?, &UNSORTED, digest)?;
    read_all(alloc, flawed.deep.whole()?, &UNSORTED, digest)?;
    for short in &flawed.short {
        read_all(alloc, short.whole()?, &BROKEN, digest)?;
    }
    read_all(alloc, flawed.legal.whole()?, &WHOLE, digest)
}
