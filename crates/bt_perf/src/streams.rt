//! Streams put together of segments: no two alike, and cheap beside what is done with them.

use crate::draft::Draft;
use crate::draw::Draw;
use crate::messages::{Kind, PIECES, put_handshake, segment};
use std::alloc::{AllocError, Global};

/// How many segments of a kind there are.
const SEGMENTS: u32 = 32;

/// How many segments of a kind a stream has.
#[derive(Clone, Copy)]
pub struct Part(pub Kind, pub u32);

/// Segments of one kind, of which a stream takes some.
#[derive(Drop)]
struct Pool {
    segments: Vec<Draft>,
    count: u32,
}

/// Makes streams of the same kinds of messages, in the same amounts.
#[derive(Drop)]
pub struct Streams {
    alloc: Global,
    draw: Draw,
    pools: Vec<Pool>,
}

/// Returns the pool of a part.
fn pool_of(alloc: Global, part: Part, draw: &mut Draw) -> Result<Pool, AllocError> {
    let Part(kind, count) = part;
    let mut segments = Vec::new(alloc);
    for _segment in 0..SEGMENTS {
        segments.push(segment(alloc, kind, draw))?;
    }
    Ok(Pool { segments, count })
}

/// Appends segments of a pool, drawn at random.
fn put_some(bytes: &mut Draft, pool: &Pool, draw: &mut Draw) {
    for _segment in 0..pool.count {
        if let Some(segment) = pool.segments.get(draw.below(SEGMENTS) as usize) {
            bytes.put_draft(segment);
        }
    }
}

impl Streams {
    /// Makes streams of these parts.
    ///
    /// # Errors
    /// `AllocError` when out of memory.
    pub fn new(alloc: Global, seed: u32, parts: &[Part]) -> Result<Streams, AllocError> {
        let mut draw = Draw::new(seed);
        let mut pools = Vec::new(alloc);
        for part in parts {
            pools.push(pool_of(alloc, *part, &mut draw)?)?;
        }
        Ok(Streams { alloc, draw, pools })
    }

    /// Returns another stream: a handshake, a bitfield without a piece, and segments of each part.
    pub fn next(&mut self) -> Draft {
        let mut bytes = Draft::new(self.alloc);
        put_handshake(&mut bytes, b"01234567890123456789", &mut self.draw);
        bytes.put_number(1 + PIECES / 8);
        bytes.put(&[5]);
        bytes.put(&[0; (PIECES / 8) as usize]);
        for pool in &self.pools {
            put_some(&mut bytes, pool, &mut self.draw);
        }
        bytes
    }
}
