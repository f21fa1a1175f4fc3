//! What an end says of each item: every kind of event, and a fetch between two ends that are driven by hand.
use crate::end_setting::{HAND, Who, made};
use bt_end::{End, Event};
use bt_ext::Rules;
use bt_wire::{Handshake, Reserved};
use linked_list_allocator::LocalHeap;
use std::alloc::Global;

const LIMIT: u32 = 262_144;

/// The bytes of an end's heap.
const ROOM: usize = 16_777_216;

/// What is said of an item.
#[derive(Clone, Copy)]
enum News {
    /// The handshake of a peer with this id, with both extensions and the info hash of `abc`.
    Hand([u8; 20]),
    /// An extended handshake with this id for metadata messages, perhaps a size, and whether a fetch begins with it.
    Told(u8, Option<u64>, bool),
    Is(Event),
}

/// An item: its bytes, with so many bytes of a block after them, all 7; and what is said of it.
type Said = (&'static [u8], usize, News);

fn event_of(news: News) -> Event {
    match news {
        News::Hand(peer_id) => Event::Opened(Handshake {
            reserved: Reserved(0x10_0005),
            info_hash: *b"\xa9\x99\x3e\x36\x47\x06\x81\x6a\xba\x3e\x25\x71\x78\x50\xc2\x6c\x9c\xd0\xd8\x9d",
            peer_id,
        }),
        News::Told(id, size, begins) => Event::Announced {
            id: Some(id),
            size,
            begins,
        },
        News::Is(event) => event,
    }
}

const NINE: &[u8] = b"\0\0\0\x1a\x14\0d1:md11:ut_metadatai9eee";

const ASKED: &[u8] = b"\0\0\0\x1b\x14\x03d8:msg_typei0e5:piecei0ee";

/// The first message of a peer whom an end serves `abc`, which has one block, and what comes after it.
const SERVED: &[Said] = &[
    (HAND, 0, News::Hand(*b"-XX0001-000000000000")),
    (ASKED, 0, News::Is(Event::Other)),
    (NINE, 0, News::Told(9, None, false)),
    (ASKED, 0, News::Is(Event::Served(0))),
    (
        b"\0\0\0\x1b\x14\x03d8:msg_typei0e5:piecei1ee",
        0,
        News::Is(Event::Declined(1)),
    ),
    (b"\0\0\0\0", 0, News::Is(Event::Other)),
    (b"\0\0\0\x01\x0f", 0, News::Is(Event::Other)),
    (
        b"\0\0\0\x0d\x06\0\0\0\x01\0\0\x40\0\0\0\x20\0",
        0,
        News::Is(Event::Requested {
            index: 1,
            begin: 16_384,
            length: 8_192,
        }),
    ),
    (
        b"\0\0\0\x0a\x07\0\0\0\x02\0\0\0\x05*",
        0,
        News::Is(Event::Piece { index: 2, begin: 5 }),
    ),
    (b"\0\0\0\x05\x04\0\0\0\x03", 0, News::Is(Event::Other)),
];

const ABC: &[u8] = b"\0\0\0\x2e\x14\x09d8:msg_typei1e5:piecei0e10:total_sizei3eeabc";

const OF_THREE: &[u8] = b"\0\0\0\x2d\x14\0d1:md11:ut_metadatai3ee13:metadata_sizei3ee";

/// A peer gives a block that nobody asked for, other metadata, and then the right one.
const FETCHED: &[Said] = &[
    (HAND, 0, News::Hand(*b"-XX0001-000000000000")),
    (ABC, 0, News::Is(Event::Other)),
    (OF_THREE, 0, News::Told(3, Some(3), true)),
    (
        b"\0\0\0\x2e\x14\x09d8:msg_typei1e5:piecei1e10:total_sizei3eeabc",
        0,
        News::Is(Event::Other),
    ),
    (
        b"\0\0\0\x2e\x14\x09d8:msg_typei1e5:piecei0e10:total_sizei3eeabd",
        0,
        News::Is(Event::Mismatched),
    ),
    (OF_THREE, 0, News::Told(3, Some(3), false)),
    (ABC, 0, News::Is(Event::Fetched)),
    (ABC, 0, News::Is(Event::Other)),
];

/// A peer of whom two blocks are asked gives the first, once, and rejects the second.
const REJECTED: &[Said] = &[
    (HAND, 0, News::Hand(*b"-XX0001-000000000000")),
    (
        b"\0\0\0\x31\x14\0d1:md11:ut_metadatai3ee13:metadata_sizei16385ee",
        0,
        News::Told(3, Some(16_385), true),
    ),
    (
        b"\0\0\x40\x2f\x14\x09d8:msg_typei1e5:piecei0e10:total_sizei16385ee",
        16_384,
        News::Is(Event::Block(0)),
    ),
    (
        b"\0\0\x40\x2f\x14\x09d8:msg_typei1e5:piecei0e10:total_sizei16385ee",
        16_384,
        News::Is(Event::Other),
    ),
    (
        b"\0\0\0\x1b\x14\x09d8:msg_typei2e5:piecei0ee",
        0,
        News::Is(Event::Other),
    ),
    (
        b"\0\0\0\x1b\x14\x09d8:msg_typei2e5:piecei1ee",
        0,
        News::Is(Event::Rejected(1)),
    ),
];

/// The ends that hear of all that, under the rules that ask nothing of the order.
const ROWS: &[(Who, &[Said])] = &[
    (Who::ServingAbc, SERVED),
    (Who::Fetching(8), FETCHED),
    (Who::Fetching(8), REJECTED),
];

/// Whether the end takes these bytes, and the item that ends with them is this, at this place.
fn hears(end: &mut End<&LocalHeap>, said: &Said, start: usize) -> bool {
    if end.receive(said.0) != said.0.len() {
        return false;
    }
    for _ in 0..said.1 / 16 {
        if end.receive(&[7; 16]) != 16 {
            return false;
        }
    }
    match end.next() {
        Ok(Some(heard)) => heard.at == start as u64 && heard.event == event_of(said.2),
        _ => false,
    }
}

/// The first item of which the end says something else.
fn first_wrong(end: &mut End<&LocalHeap>, said: &[Said]) -> Option<usize> {
    let mut start = 0usize;
    for (number, it) in said.iter().enumerate() {
        if !hears(end, it, start) {
            return Some(number);
        }
        start = start.wrapping_add(it.0.len()).wrapping_add(it.1);
    }
    None
}

fn wrong_of(alloc: Global, row: &(Who, &[Said])) -> Option<usize> {
    let Ok(heap) = LocalHeap::new(alloc, ROOM) else {
        return Some(0);
    };
    match made(&heap, row.0, Rules::Free, LIMIT) {
        Ok(mut end) => first_wrong(&mut end, row.1),
        Err(_) => Some(0),
    }
}

#[test]
fn events_of_ends(rt: HostRuntime) {
    for (number, row) in ROWS.iter().enumerate() {
        let wrong = wrong_of(rt.alloc(), row);
        assert!(rt; wrong.is_none(), "row {number}: {wrong:?}");
    }
}

/// What happens to two ends, the left one of which serves `abc` to the right one.
#[derive(Clone, Copy)]
enum Move {
    /// So many bytes that the other sent come to the right end, or to the left one.
    ToRight(usize),
    ToLeft(usize),
    /// An item is handled.
    Right(News),
    Left(News),
    /// A new connection begins.
    Reset,
}

const LEFT: News = News::Hand(*b"-BT0001-LLLLLLLLLLLL");

const RIGHT: News = News::Hand(*b"-BT0001-RRRRRRRRRRRR");

/// A connection is lost with 20 bytes of the block. On the next one the block is asked for again, and comes. The ids are 3 and 9.
const BY_HAND: &[Move] = &[
    Move::ToRight(68),
    Move::Right(LEFT),
    Move::ToLeft(68),
    Move::Left(RIGHT),
    Move::ToLeft(30),
    Move::Left(News::Told(9, None, false)),
    Move::ToRight(49),
    Move::Right(News::Told(3, Some(3), true)),
    Move::ToLeft(31),
    Move::Left(News::Is(Event::Served(0))),
    Move::ToRight(20),
    Move::Reset,
    Move::ToRight(68),
    Move::Right(LEFT),
    Move::ToLeft(68),
    Move::Left(RIGHT),
    Move::ToLeft(30),
    Move::Left(News::Told(9, None, false)),
    Move::ToRight(49),
    Move::Right(News::Told(3, Some(3), false)),
    Move::ToLeft(31),
    Move::Left(News::Is(Event::Served(0))),
    Move::ToRight(50),
    Move::Right(News::Is(Event::Fetched)),
];

type Ends<'a> = (End<&'a LocalHeap>, End<&'a LocalHeap>);

/// Whether one end has so many bytes to send, and the other takes them.
fn delivers(from: &mut End<&LocalHeap>, to: &mut End<&LocalHeap>, count: usize) -> bool {
    let Some(bytes) = from.outgoing().get(..count) else {
        return false;
    };
    let taken = to.receive(bytes);
    from.sent(count);
    taken == count
}

fn is_next(end: &mut End<&LocalHeap>, news: News) -> bool {
    match end.next() {
        Ok(Some(heard)) => heard.event == event_of(news),
        _ => false,
    }
}

fn goes(ends: &mut Ends, next: Move) -> bool {
    match next {
        Move::ToRight(count) => delivers(&mut ends.0, &mut ends.1, count),
        Move::ToLeft(count) => delivers(&mut ends.1, &mut ends.0, count),
        Move::Right(news) => is_next(&mut ends.1, news),
        Move::Left(news) => is_next(&mut ends.0, news),
        Move::Reset => ends.0.reset().is_ok() && ends.1.reset().is_ok(),
    }
}

/// The first move that goes otherwise, and the metadata that the right end has after all of them.
fn driven(ends: &mut Ends) -> (Option<usize>, bool) {
    for (number, next) in BY_HAND.iter().enumerate() {
        if !goes(ends, *next) {
            return (Some(number), false);
        }
    }
    (None, ends.1.metadata() == Some(b"abc"))
}

fn driven_over(heap: &LocalHeap) -> Option<(Option<usize>, bool)> {
    let left = made(heap, Who::ServingAbc, Rules::Bep, LIMIT).ok()?;
    let right = made(heap, Who::Fetching(8), Rules::Bep, LIMIT).ok()?;
    Some(driven(&mut (left, right)))
}

#[test]
fn ends_by_hand(rt: HostRuntime) {
    let driven = match LocalHeap::new(rt.alloc(), ROOM) {
        Ok(heap) => driven_over(&heap),
        Err(_) => None,
    };
    assert!(rt; driven == Some((None, true)), "{driven:?}");
}
