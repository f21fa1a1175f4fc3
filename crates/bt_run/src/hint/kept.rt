//! A source whose first bytes are kept.
ghost use Rattle.std.specs.Prelude.{◌≡◌, ◌⊎◌, ◌++◌, [], take};
ghost use Rattle.bt_run.specs.Windows.{source_of, kept_of, room_of};

use bt_io::{Failed, Source};
use std::alloc::Global;

/// The greatest number of bytes that are kept.
pub const WINDOW: usize = 65_536;

/// A source, and its first bytes, [`WINDOW`] of them at most.
#[derive(Drop)]
pub struct Kept<R> {
    source: R,
    bytes: Vec<u8>,
    room: usize,
}

/// Keeps bytes, as far as there is room; returns how much room is left.
///
/// When memory has run out there is no more room.
fn keep(bytes: &mut Vec<u8>, room: usize, more: &[u8]) -> usize
    ensures { (bytes.new.items ≡ bytes.old.items ++ take room more.now) ⊎ ((bytes.new.items ≡ bytes.old.items) × (result ≡ 0)) }
{
    let count = room.min(more.len());
    match bytes.extend_from_slice(&more[..count]) {
        Ok(()) => room - count,
        Err(_) => 0,
    }
}

impl<R> Kept<R> {
    /// Makes a source of which nothing is kept yet.
    pub fn new(alloc: Global, source: R) -> Kept<R>
        ensures source { source_of result ≡ source }
        ensures kept { kept_of result ≡ [] }
        ensures room { room_of result ≡ 65536 }
    {
        Kept {
            source,
            bytes: Vec::new(alloc),
            room: WINDOW,
        }
    }

    /// Returns the bytes that are kept: the first that were read.
    pub fn window(&self) -> &[u8]
        ensures { result.now ≡ kept_of self.now }
    {
        self.bytes.as_slice()
    }
}

impl<R: Source> Source for Kept<R> {
    ghost seen = { λ k. R.seen (source_of k) };

    fn read(&mut self, into: &mut [u8]) -> Result<usize, Failed> {
        let answer = self.source.read(into);
        if let Ok(count) = answer {
            self.room = keep(&mut self.bytes, self.room, &into[..count]);
        }
        answer
    }
}
