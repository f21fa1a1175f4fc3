//! A feed on heaps with no room to spare.
use crate::feed::own;
use bt_ext::{ExtView, Kind, kind_ref};
use bt_feed::{Feed, FeedError, View};
use bt_wire::MessageView;
use linked_list_allocator::LocalHeap;
use std::alloc::{Allocator, Global};

/// A handshake, and the block 0 of three bytes of metadata.
const STREAM: &[u8; 118] = b"\x13BitTorrent protocol\0\0\0\0\0\x10\0\x05\
    \xa9\x99\x3e\x36\x47\x06\x81\x6a\xba\x3e\x25\x71\x78\x50\xc2\x6c\x9c\xd0\xd8\x9d-XX0001-000000000000\
    \0\0\0\x2e\x14\x03d8:msg_typei1e5:piecei0e10:total_sizei3eeabc";

fn is_block(view: &View) -> bool {
    match view {
        View::Message(MessageView::Extended(ExtView::Metadata { dict, rest })) => {
            kind_ref(dict) == Kind::Data { piece: 0, total: 3 } && *rest == b"abc".as_slice()
        }
        _ => false,
    }
}

fn push<A: Allocator>(feed: &mut Feed<A>, bytes: &[u8]) -> usize {
    feed.push(bytes)
}

/// Takes an item, if there is one, and counts it if it is the block; says whether the feed isn't refused.
fn take<A: Allocator>(feed: &mut Feed<A>, blocks: &mut u64) -> bool {
    match feed.take() {
        Ok(Some(view)) => {
            *blocks = blocks.wrapping_add(u64::from(is_block(&view)));
            true
        }
        Ok(None) => true,
        Err(_) => false,
    }
}

/// Feeds the piece and counts the blocks that come, and says whether the feed took the piece in three pushes.
fn takes<A: Allocator>(feed: &mut Feed<A>, piece: &[u8], blocks: &mut u64) -> bool {
    let mut rest = piece;
    for _ in 0..3 {
        let taken = push(feed, rest);
        rest = rest.get(taken..).unwrap_or_default();
        if !take(feed, blocks) {
            return false;
        }
    }
    rest.is_empty()
}

/// How many blocks come with the stream in pieces of this size.
fn blocks_of<A: Allocator>(feed: &mut Feed<A>, size: usize) -> u64 {
    let mut blocks = 0;
    for piece in STREAM.chunks(size.max(1)) {
        if !takes(feed, piece, &mut blocks) {
            return 0;
        }
    }
    blocks
}

fn finishes_at<A: Allocator>(feed: &Feed<A>, end: u64) -> bool {
    feed.finish() == Ok(end)
}

/// Whether the feed fills the heap and gives the block.
fn gives_block<A: Allocator>(heap: &LocalHeap, feed: &mut Feed<A>, size: usize) -> bool {
    heap.free() == 0 && blocks_of(feed, size) == 1 && finishes_at(feed, 118) && heap.free() == 0
}

fn gives_block_on(heap: &LocalHeap, size: usize) -> bool {
    match Feed::new(heap, own(64)) {
        Ok(mut feed) => gives_block(heap, &mut feed, size),
        Err(_) => false,
    }
}

fn takes_no_memory(alloc: Global, size: usize) -> bool {
    match LocalHeap::new(alloc, 68) {
        Ok(heap) => gives_block_on(&heap, size),
        Err(_) => false,
    }
}

/// The feed's buffer fills the heap, so that any request for memory after `new` would be refused.
#[test]
fn feed_takes_no_memory(rt: HostRuntime) {
    for size in [1, 7, 68, 118] {
        assert!(rt; takes_no_memory(rt.alloc(), size), "{size}");
    }
}

fn has_no_room(alloc: Global) -> bool {
    match LocalHeap::new(alloc, 48) {
        Ok(heap) => matches!(Feed::new(&heap, own(64)), Err(FeedError::Memory)),
        Err(_) => false,
    }
}

#[test]
fn no_room_for_a_feed(rt: HostRuntime) {
    assert!(rt; has_no_room(rt.alloc()));
}
