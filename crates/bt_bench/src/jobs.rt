//! What is measured: an end that serves, one that fetches, and two against each other.
//!
//! A function that owns an end makes it and passes it on, and does nothing more: the drops of an end on many ways out are what
//! takes long to prove.

use crate::draft::Draft;
use crate::moving::{Stopped, Tally, bring_draft, deliver, empty};
use crate::peer::{blocks, greeting, requests};
use crate::setting::{LIMIT, made, metadata};
use bt_end::{End, Role};
use sha1::Sha1;
use std::alloc::{AllocError, Global};

/// Brings the peer's greeting and `rounds` requests to an end that serves metadata of `count` blocks.
fn served_by(
    alloc: Global,
    end: &mut End,
    hash: [u8; 20],
    count: u32,
    rounds: u32,
) -> Result<Tally, Stopped> {
    let count = count.max(1);
    let mut tally = Tally::default();
    bring_draft(end, &greeting(alloc, hash, None), 1, &mut tally)?;
    bring_draft(end, &requests(alloc, count), rounds / count, &mut tally)?;
    bring_draft(end, &requests(alloc, rounds % count), 1, &mut tally)?;
    empty(end, &mut tally);
    Ok(tally)
}

/// Serves metadata of `count` blocks by one end, which answers `rounds` requests.
///
/// # Errors
/// `Stopped` if an end refuses or can't be made, or when out of memory.
pub fn serve(alloc: Global, count: u32, rounds: u32) -> Result<Tally, Stopped> {
    let served = metadata(alloc, count)?;
    let hash = Sha1::digest(&served);
    let mut end = made(alloc, hash, LIMIT, Role::Serve(served))?;
    served_by(alloc, &mut end, hash, count, rounds)
}

/// Returns how long the metadata is that an end fetched; 0 if it fetched none.
fn fetched(end: &End) -> usize {
    match end.metadata() {
        Some(metadata) => metadata.len(),
        None => 0,
    }
}

/// What came of fetches: how many blocks and bytes came in, and how long the metadata was that the last end fetched.
#[derive(Clone, Copy, Default)]
pub struct Fetches {
    pub blocks: u64,
    pub bytes: u64,
    pub length: usize,
}

impl Fetches {
    /// Counts one more fetch.
    fn add(&mut self, blocks: u32, bytes: u64, length: usize) {
        self.blocks = self.blocks.saturating_add(u64::from(blocks));
        self.bytes = self.bytes.saturating_add(bytes);
        self.length = length;
    }
}

/// Brings the peer's greeting and blocks to an end that fetches; returns how long the metadata is.
fn fetched_from(end: &mut End, greeting: &Draft, data: &Draft) -> Result<usize, Stopped> {
    let mut tally = Tally::default();
    bring_draft(end, greeting, 1, &mut tally)?;
    bring_draft(end, data, 1, &mut tally)?;
    Ok(fetched(end))
}

/// An end that fetches from these bytes of its peer; returns how long the metadata is.
fn fetch_once(
    alloc: Global,
    hash: [u8; 20],
    greeting: &Draft,
    data: &Draft,
) -> Result<usize, Stopped> {
    let mut end = made(alloc, hash, LIMIT, Role::Fetch)?;
    fetched_from(&mut end, greeting, data)
}

/// Fetches metadata of `count` blocks by `rounds` ends in turn.
///
/// # Errors
/// `Stopped` if an end refuses or can't be made, or when out of memory.
pub fn fetch(alloc: Global, count: u32, rounds: u32) -> Result<Fetches, Stopped> {
    let served = metadata(alloc, count)?;
    let hash = Sha1::digest(&served);
    let size = count.saturating_mul(16_384);
    let greeting = greeting(alloc, hash, Some(size));
    let data = blocks(alloc, &served, size);
    let bytes = data.whole()?.len() as u64;
    let mut fetches = Fetches::default();
    for _round in 0..rounds {
        let length = fetch_once(alloc, hash, &greeting, &data)?;
        fetches.add(count, bytes, length);
    }
    Ok(fetches)
}

/// What two ends sent, and digests of what each sent, if it is hashed.
#[derive(Drop)]
struct Sent {
    tally: Tally,
    is_hashed: bool,
    left: Sha1,
    right: Sha1,
}

/// Adds what waits to be sent to a digest.
fn update(digest: &mut Sha1, is_hashed: bool, end: &End) {
    if is_hashed {
        digest.update(end.outgoing());
    }
}

impl Sent {
    fn new(is_hashed: bool) -> Sent {
        Sent {
            tally: Tally::default(),
            is_hashed,
            left: Sha1::new(),
            right: Sha1::new(),
        }
    }

    /// Brings what each of two ends sent to the other one.
    fn cross(&mut self, left: &mut End, right: &mut End) -> Result<(), Stopped> {
        update(&mut self.left, self.is_hashed, left);
        deliver(left, right, &mut self.tally)?;
        update(&mut self.right, self.is_hashed, right);
        deliver(right, left, &mut self.tally)
    }
}

/// Brings what each end sent to the other one until the metadata is there; returns its length.
///
/// A fetch of `count` blocks takes fewer than `count` + 4 exchanges: each brings a block at least. What is hashed is exchanged so
/// often.
fn cross_all(
    left: &mut End,
    right: &mut End,
    count: u32,
    sent: &mut Sent,
) -> Result<usize, Stopped> {
    for _exchange in 0..count.saturating_add(4) {
        if !sent.is_hashed && fetched(right) > 0 {
            break;
        }
        sent.cross(left, right)?;
    }
    Ok(fetched(right))
}

/// Moves metadata of `count` blocks from an end to a new one; returns its length.
fn moved_from(
    alloc: Global,
    left: &mut End,
    hash: [u8; 20],
    count: u32,
    sent: &mut Sent,
) -> Result<usize, Stopped> {
    let mut right = made(alloc, hash, LIMIT, Role::Fetch)?;
    cross_all(left, &mut right, count, sent)
}

/// Moves metadata of `count` blocks between two new ends; returns its length.
fn moved(
    alloc: Global,
    served: &[u8],
    hash: [u8; 20],
    count: u32,
    sent: &mut Sent,
) -> Result<usize, Stopped> {
    let role = Role::Serve(served.to_vec(alloc)?);
    let mut left = made(alloc, hash, LIMIT, role)?;
    moved_from(alloc, &mut left, hash, count, sent)
}

/// Moves metadata of `count` blocks by `rounds` pairs of ends in turn.
///
/// # Errors
/// `Stopped` if an end refuses or can't be made, or when out of memory.
pub fn exchange(alloc: Global, count: u32, rounds: u32) -> Result<Fetches, Stopped> {
    let served = metadata(alloc, count)?;
    let hash = Sha1::digest(&served);
    let mut fetches = Fetches::default();
    for _round in 0..rounds {
        let mut sent = Sent::new(false);
        let length = moved(alloc, &served, hash, count, &mut sent)?;
        fetches.add(count, sent.tally.sent, length);
    }
    Ok(fetches)
}

/// Returns the SHA-1 of all that each of two ends sends.
///
/// One of them fetches metadata of `count` blocks from the other.
///
/// # Errors
/// `Stopped` if an end refuses or can't be made, or when out of memory.
pub fn digests(alloc: Global, count: u32) -> Result<([u8; 20], [u8; 20]), Stopped> {
    let served = metadata(alloc, count)?;
    let hash = Sha1::digest(&served);
    let mut sent = Sent::new(true);
    let _length = moved(alloc, &served, hash, count, &mut sent)?;
    let Sent {
        tally: _,
        is_hashed: _,
        left,
        right,
    } = sent;
    Ok((left.finalize(), right.finalize()))
}

/// Returns the SHA-1 of metadata of `count` blocks, taken `rounds` + 1 times.
///
/// # Errors
/// `AllocError` when out of memory.
pub fn hash(alloc: Global, count: u32, rounds: u32) -> Result<[u8; 20], AllocError> {
    let served = metadata(alloc, count)?;
    let mut digest = Sha1::digest(&served);
    for _round in 0..rounds {
        digest = Sha1::digest(&served);
    }
    Ok(digest)
}
