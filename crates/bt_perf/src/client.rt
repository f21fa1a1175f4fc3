//! What a client does with what its sockets give: it parses chunk by chunk, item by item.
ghost use Rattle.std.specs.Prelude.{◌<◌};

use crate::digest::Digest;
use crate::draw::Draw;
use crate::receivers::{Receiver, receiver_of};
use crate::results::{add_item, add_view};
use crate::stopped::Stopped;
use bt_ext::Rules;
use bt_feed::{Feed, FeedError, ItemError, refusal_in};
use std::alloc::Global;

/// How the bytes of a stream come.
#[derive(Clone, Copy)]
enum Way {
    /// In chunks of 1,448 bytes, as a packet has.
    Packets,
    /// In chunks of 64 KiB.
    Buffers,
    /// In chunks of 16 KiB.
    Pages,
    /// In chunks of 1 to 100 bytes.
    Crumbs,
    /// In chunks of 16 KiB, of whose items copies are made.
    Copied,
}

/// How a stream is parsed, by which rules and as which receiver.
const WAYS: [(Way, Rules, Receiver); 5] = [
    (Way::Packets, Rules::Bep, Receiver::Knowing),
    (Way::Pages, Rules::Free, Receiver::Plain),
    (Way::Buffers, Rules::Bep, Receiver::Knowing),
    (Way::Crumbs, Rules::Free, Receiver::Plain),
    (Way::Copied, Rules::Free, Receiver::Plain),
];

/// Takes the items that a chunk completes.
fn take_chunk(feed: &mut Feed, chunk: &[u8], digest: &mut Digest) -> Result<(), Stopped> {
    let mut rest = chunk;
    for _item in 0..=chunk.len() {
        let taken = feed.push(rest);
        let at = feed.start();
        match feed.take() {
            Ok(Some(view)) => {
                digest.add(at);
                add_view(&view, digest);
                digest.count(1);
            }
            Ok(None) => return Ok(()),
            Err(error) => return Err(Stopped::Refused(refusal_in(error))),
        }
        rest = &rest[taken..];
    }
    Ok(())
}

/// Takes the items of a stream that comes in chunks of `size` bytes.
fn take_all(feed: &mut Feed, stream: &[u8], size: usize, digest: &mut Digest) -> Result<(), Stopped>
    requires { 0 < size }
{
    for chunk in stream.chunks(size) {
        take_chunk(feed, chunk, digest)?;
    }
    Ok(())
}

/// Takes the items of a stream that comes in chunks of 1 to 100 bytes.
fn take_crumbs(
    feed: &mut Feed,
    stream: &[u8],
    draw: &mut Draw,
    digest: &mut Digest,
) -> Result<(), Stopped> {
    for chunk in stream.chunks(5_050) {
        let size = 1 + draw.below(100) as usize;
        take_all(feed, chunk, size, digest)?;
    }
    Ok(())
}

/// Takes copies of the items of a chunk.
fn take_copies(
    alloc: Global,
    feed: &mut Feed,
    chunk: &[u8],
    digest: &mut Digest,
) -> Result<(), Stopped> {
    for item in feed.items(alloc, chunk) {
        match item {
            Ok((at, item)) => {
                digest.add(at);
                add_item(alloc, &item, digest);
            }
            Err(ItemError::Refused(refusal)) => return Err(Stopped::Refused(refusal)),
            Err(ItemError::Memory) => return Err(Stopped::Memory),
        }
        digest.count(1);
    }
    Ok(())
}

/// Parses a stream that comes in this way.
fn parse_so(
    alloc: Global,
    feed: &mut Feed,
    stream: &[u8],
    way: Way,
    draw: &mut Draw,
    digest: &mut Digest,
) -> Result<(), Stopped> {
    match way {
        Way::Packets => take_all(feed, stream, 1_448, digest),
        Way::Pages => take_all(feed, stream, 16_384, digest),
        Way::Buffers => take_all(feed, stream, 65_536, digest),
        Way::Crumbs => take_crumbs(feed, stream, draw, digest),
        Way::Copied => {
            for chunk in stream.chunks(16_384) {
                take_copies(alloc, feed, chunk, digest)?;
            }
            Ok(())
        }
    }
}

/// Parses a stream in chunks of several sizes, by both rule sets.
///
/// # Errors
/// `Stopped` if the stream is refused, or when out of memory.
pub fn parse(
    alloc: Global,
    stream: &[u8],
    draw: &mut Draw,
    digest: &mut Digest,
) -> Result<(), Stopped> {
    for (way, rules, kind) in WAYS {
        match Feed::new(alloc, receiver_of(rules, kind)) {
            Ok(mut feed) => parse_so(alloc, &mut feed, stream, way, draw, digest)?,
            Err(FeedError::Memory) => return Err(Stopped::Memory),
            Err(_) => return Err(Stopped::Unmade),
        }
    }
    Ok(())
}
