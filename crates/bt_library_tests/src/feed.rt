//! What a push takes, and what is given of it: the handshake, refusals, and each end.
use bt_ext::{ExtId, Registered, Rules};
use bt_feed::{Feed, FeedError, Finish, ItemError, TakeError, View};
use bt_wire::{Context, Item, MessageView, Order, Own, Reason, Refusal, Reserved};
use std::alloc::{AllocError, Global};

const RESERVED: u64 = 0x10_0005;

const INFO_HASH: [u8; 20] = [
    0xa9, 0x99, 0x3e, 0x36, 0x47, 0x06, 0x81, 0x6a, 0xba, 0x3e, 0x25, 0x71, 0x78, 0x50, 0xc2, 0x6c,
    0x9c, 0xd0, 0xd8, 0x9d,
];

/// The handshake of BEP 3, with the reserved bits of both extensions and the DHT.
pub(crate) const HAND: &[u8; 68] = b"\x13BitTorrent protocol\0\0\0\0\0\x10\0\x05\
\xa9\x99\x3e\x36\x47\x06\x81\x6a\xba\x3e\x25\x71\x78\x50\xc2\x6c\x9c\xd0\xd8\x9d-XX0001-000000000000";

/// The handshake, and then two keep-alives.
const WITH_TWO: &[u8; 76] = b"\x13BitTorrent protocol\0\0\0\0\0\x10\0\x05\
\xa9\x99\x3e\x36\x47\x06\x81\x6a\xba\x3e\x25\x71\x78\x50\xc2\x6c\x9c\xd0\xd8\x9d-XX0001-000000000000\
\0\0\0\0\0\0\0\0";

/// The handshake, a keep-alive, and half a length.
const WITH_HALF: &[u8; 74] = b"\x13BitTorrent protocol\0\0\0\0\0\x10\0\x05\
\xa9\x99\x3e\x36\x47\x06\x81\x6a\xba\x3e\x25\x71\x78\x50\xc2\x6c\x9c\xd0\xd8\x9d-XX0001-000000000000\
\0\0\0\0\0\0";

/// The handshake, a keep-alive, and then a length that is refused.
const WITH_LONG: &[u8; 80] = b"\x13BitTorrent protocol\0\0\0\0\0\x10\0\x05\
\xa9\x99\x3e\x36\x47\x06\x81\x6a\xba\x3e\x25\x71\x78\x50\xc2\x6c\x9c\xd0\xd8\x9d-XX0001-000000000000\
\0\0\0\0\xff\xff\xff\xff\0\0\0\0";

/// The handshake whose info hash ends in `_`.
const OTHER_HASH: &[u8; 68] = b"\x13BitTorrent protocol\0\0\0\0\0\x10\0\x05\
\xa9\x99\x3e\x36\x47\x06\x81\x6a\xba\x3e\x25\x71\x78\x50\xc2\x6c\x9c\xd0\xd8_-XX0001-000000000000";

/// The receiver of the rows, which knows both extensions and judges syntax alone.
pub(crate) fn own(limit: u32) -> Own {
    Own {
        reserved: Reserved(RESERVED),
        info_hash: None,
        pieces: None,
        reg: Registered::metadata_only(ExtId::new(3)),
        rules: Rules::Free,
        limit,
    }
}

fn context(limit: u32) -> Context {
    Context {
        fast: true,
        ext: true,
        pieces: None,
        reg: Registered::metadata_only(ExtId::new(3)),
        rules: Rules::Free,
        limit,
    }
}

/// The bytes of both parts.
pub(crate) fn joined(alloc: Global, front: &[u8], back: &[u8]) -> Result<Vec<u8>, AllocError> {
    let mut bytes = front.to_vec(alloc)?;
    bytes.extend_from_slice(back)?;
    Ok(bytes)
}

pub(crate) fn new_feed(alloc: Global) -> Result<Feed, FeedError> {
    Feed::new(alloc, own(262_144))
}

/// The refused message, its place, and the reason.
pub(crate) type Refused = (u64, u64, Reason);

pub(crate) fn refusal((message, at, reason): Refused) -> Refusal {
    Refusal {
        message,
        at,
        reason,
    }
}

/// Where a feed begins.
#[derive(Clone, Copy)]
enum Begin {
    Handshake,
    /// The handshake has to have this info hash.
    InfoHash([u8; 20]),
    /// The messages after the handshake, at this offset of the stream.
    Messages(u64),
}

/// A call of a feed and what it answers, or what is seen then.
#[derive(Clone, Copy)]
enum Step {
    /// It takes this many of the bytes.
    Push(&'static [u8], usize),
    /// It takes each of these bytes alone, and gives no item.
    PushEach(&'static [u8]),
    /// It takes this many of the bytes, an item, and no more before it gives that.
    Item(&'static [u8], usize),
    Nothing,
    Handshake,
    KeepAlive,
    Refused(Refused),
    /// Twice, each call answers the refusal, and none of these bytes is taken.
    StaysRefused(Refused, &'static [u8]),
    /// It gives the items of a piece, with these offsets and ids, and then the refusal, if there is one.
    Items(&'static [u8], &'static [(u64, u8)], Option<Refused>),
    /// So many bytes are held.
    Holds(usize),
    /// The present item starts here.
    Starts(u64),
    /// The verdict if the stream ends here.
    Ends(Result<u64, Refused>),
}

pub(crate) fn push(feed: &mut Feed, bytes: &[u8]) -> usize {
    feed.push(bytes)
}

/// How the feed is refused when its item is looked at, if it is.
fn fault_of_look(feed: &Feed) -> Option<TakeError> {
    feed.look().err()
}

/// How the feed is refused when its item is taken, if it is.
pub(crate) fn fault_of_take(feed: &mut Feed) -> Option<TakeError> {
    feed.take().err()
}

fn shows_item(feed: &Feed) -> bool {
    matches!(feed.look(), Ok(Some(_)))
}

fn takes_item(feed: &mut Feed) -> bool {
    matches!(feed.take(), Ok(Some(_)))
}

fn takes_nothing(feed: &mut Feed) -> bool {
    matches!(feed.take(), Ok(None))
}

fn takes_handshake(feed: &mut Feed) -> bool {
    matches!(feed.take(), Ok(Some(View::Handshake(_))))
}

fn takes_keep_alive(feed: &mut Feed) -> bool {
    matches!(feed.take(), Ok(Some(View::Message(MessageView::KeepAlive))))
}

fn held(feed: &Feed) -> usize {
    feed.held()
}

fn start(feed: &Feed) -> u64 {
    feed.start()
}

fn finish(feed: &Feed) -> Result<u64, Finish> {
    feed.finish()
}

/// Whether it takes each of the bytes alone, and gives nothing.
fn takes_each(feed: &mut Feed, bytes: &[u8]) -> bool {
    for byte in bytes {
        if push(feed, &[*byte]) != 1 || !takes_nothing(feed) {
            return false;
        }
    }
    true
}

/// Whether a push takes `count` bytes, which are one item, and a second one none before the item is taken.
fn takes_one(feed: &mut Feed, bytes: &[u8], count: usize) -> bool {
    push(feed, bytes) == count
        && push(feed, bytes) == 0
        && shows_item(feed)
        && finish(feed) == Err(Finish::Untaken)
        && takes_item(feed)
}

fn ends(feed: &Feed, wanted: Result<u64, Refused>) -> bool {
    match wanted {
        Ok(end) => finish(feed) == Ok(end),
        Err(refused) => finish(feed) == Err(Finish::Refused(refusal(refused))),
    }
}

/// Whether each call answers the refusal, and a push takes none of the bytes.
fn is_refused(feed: &mut Feed, refused: Refused, more: &[u8]) -> bool {
    let wanted = Some(TakeError::Refused(refusal(refused)));
    fault_of_look(feed) == wanted
        && fault_of_take(feed) == wanted
        && ends(feed, Err(refused))
        && push(feed, more) == 0
}

/// The id of an item: 255 for a handshake, and 254 for a keep-alive.
fn id_of(item: &Item) -> u8 {
    match item {
        Item::Handshake(_) => 255,
        Item::Message(message) => message.id().unwrap_or(254),
    }
}

fn told((at, item): (u64, Item)) -> (u64, u8) {
    (at, id_of(&item))
}

/// Adds the offset and the id of each item that a piece completes, and says what error ends them, if one does.
fn read(
    alloc: Global,
    feed: &mut Feed,
    piece: &[u8],
    items: &mut Vec<(u64, u8)>,
) -> Option<ItemError> {
    for item in feed.items(alloc, piece) {
        match item {
            Ok(item) => {
                if items.push(told(item)).is_err() {
                    return Some(ItemError::Memory);
                }
            }
            Err(error) => return Some(error),
        }
    }
    None
}

/// Whether the items of a piece have these offsets and ids, and this refusal follows, or none.
fn gives(
    alloc: Global,
    feed: &mut Feed,
    piece: &[u8],
    wanted: &[(u64, u8)],
    refused: Option<Refused>,
) -> bool {
    let mut items = Vec::new(alloc);
    let error = match refused {
        Some(refused) => Some(ItemError::Refused(refusal(refused))),
        None => None,
    };
    read(alloc, feed, piece, &mut items) == error && items.as_slice() == wanted
}

fn goes(alloc: Global, feed: &mut Feed, step: Step) -> bool {
    match step {
        Step::Push(bytes, count) => push(feed, bytes) == count,
        Step::PushEach(bytes) => takes_each(feed, bytes),
        Step::Item(bytes, count) => takes_one(feed, bytes, count),
        Step::Nothing => takes_nothing(feed),
        Step::Handshake => takes_handshake(feed),
        Step::KeepAlive => takes_keep_alive(feed),
        Step::Refused(refused) => {
            fault_of_take(feed) == Some(TakeError::Refused(refusal(refused)))
        }
        Step::StaysRefused(refused, more) => {
            is_refused(feed, refused, more) && is_refused(feed, refused, more)
        }
        Step::Items(piece, wanted, refused) => gives(alloc, feed, piece, wanted, refused),
        Step::Holds(count) => held(feed) == count,
        Step::Starts(at) => start(feed) == at,
        Step::Ends(wanted) => ends(feed, wanted),
    }
}

/// The number of the first step, counted from 0, that goes otherwise.
fn wrong_step(alloc: Global, feed: &mut Feed, steps: &[Step]) -> Option<usize> {
    for (number, step) in steps.iter().enumerate() {
        if !goes(alloc, feed, *step) {
            return Some(number);
        }
    }
    None
}

/// A feed that begins at `base` of its stream, after the handshake.
fn feed_at(alloc: Global, limit: u32, base: u64) -> Result<Feed, FeedError> {
    Feed::new_at(alloc, context(limit), Order::Fresh, base)
}

fn feed_of(alloc: Global, begin: Begin) -> Result<Feed, FeedError> {
    match begin {
        Begin::Handshake => new_feed(alloc),
        Begin::InfoHash(info_hash) => Feed::new(
            alloc,
            Own {
                info_hash: Some(info_hash),
                ..own(262_144)
            },
        ),
        Begin::Messages(base) => feed_at(alloc, 262_144, base),
    }
}

/// No message starts at this offset or later.
const END: u64 = 4_611_686_018_427_387_904;

const TOO_LONG: Refused = (1, 68, Reason::TooLong);

const LONG_SECOND: Refused = (2, 72, Reason::TooLong);

/// What it shows, where the feed begins, and the steps.
type Row = (&'static str, Begin, &'static [Step]);

const ROWS: &[Row] = &[
    (
        "another protocol: the refusal comes with the byte that shows it, and stays",
        Begin::Handshake,
        &[
            Step::Push(b"\x13BitT_rren", 6),
            Step::StaysRefused(
                (0, 5, Reason::BadProtocol),
                b"rrent protocol\0\0\0\0\0\x10\0\x05\
\xa9\x99\x3e\x36\x47\x06\x81\x6a\xba\x3e\x25\x71\x78\x50\xc2\x6c\x9c\xd0\xd8\x9d-XX0001-000000000000",
            ),
        ],
    ),
    (
        "another info hash: the refusal comes with its last byte, and stays",
        Begin::InfoHash(INFO_HASH),
        &[
            Step::Push(OTHER_HASH, 48),
            Step::StaysRefused((0, 28, Reason::WrongInfoHash), b"-XX0001-000000000000"),
        ],
    ),
    (
        "a push takes one item at most, and none while one is held",
        Begin::Handshake,
        &[
            Step::Starts(0),
            Step::Item(WITH_TWO, 68),
            Step::Ends(Ok(68)),
            Step::Nothing,
            Step::Starts(68),
            Step::Item(b"\0\0\0\0\0\0\0\0", 4),
            Step::Ends(Ok(72)),
            Step::Nothing,
            Step::Starts(72),
            Step::Item(b"\0\0\0\0", 4),
            Step::Ends(Ok(76)),
            Step::Nothing,
        ],
    ),
    (
        "a length above the limit is judged with its fourth byte",
        Begin::Messages(68),
        &[
            Step::PushEach(b"\0\x04\0"),
            Step::Push(b"\x01", 1),
            Step::Refused(TOO_LONG),
            Step::Push(b"\x04", 0),
        ],
    ),
    (
        "a length above the limit, in one piece",
        Begin::Messages(68),
        &[Step::Push(b"\0\x04\0\x01\x04", 4), Step::Refused(TOO_LONG)],
    ),
    (
        "the greatest length is judged with its fourth byte",
        Begin::Messages(68),
        &[
            Step::PushEach(b"\xff\xff\xff"),
            Step::Push(b"\xff", 1),
            Step::Refused(TOO_LONG),
            Step::Push(b"\xff", 0),
        ],
    ),
    (
        "the greatest length, in one piece",
        Begin::Messages(68),
        &[
            Step::Push(b"\xff\xff\xff\xff\xff", 4),
            Step::Refused(TOO_LONG),
        ],
    ),
    (
        "a length at the limit",
        Begin::Messages(68),
        &[
            Step::PushEach(b"\0\x04\0"),
            Step::Push(b"\0", 1),
            Step::Nothing,
            Step::Push(b"\x07", 1),
        ],
    ),
    (
        "a length at the limit, in one piece",
        Begin::Messages(68),
        &[Step::Push(b"\0\x04\0\0\x07", 5), Step::Nothing],
    ),
    (
        "the last message of a full stream starts before the end",
        Begin::Messages(END - 4),
        &[
            Step::Push(b"\0\0\0\0\0\0\0\0", 4),
            Step::KeepAlive,
            Step::Starts(END),
            Step::Push(b"\0\0\0\0", 0),
            Step::Refused((2, END, Reason::StreamFull)),
        ],
    ),
    (
        "a full stream",
        Begin::Messages(END),
        &[
            Step::Ends(Err((1, END, Reason::StreamFull))),
            Step::Push(b"\0\0\0\0\0\0\0\0", 0),
            Step::Refused((1, END, Reason::StreamFull)),
        ],
    ),
    (
        "each end of a stream",
        Begin::Handshake,
        &[
            Step::Ends(Err((0, 0, Reason::EndInside))),
            Step::Item(HAND, 68),
            Step::Ends(Ok(68)),
            Step::Push(b"\0\0\0", 3),
            Step::Nothing,
            Step::Holds(3),
            Step::Ends(Err((1, 71, Reason::EndInside))),
        ],
    ),
    (
        "the first item",
        Begin::Handshake,
        &[Step::Push(HAND, 68), Step::Handshake],
    ),
    (
        "a refusal ends the items of a piece, and is given again",
        Begin::Handshake,
        &[
            Step::Items(WITH_LONG, &[(0, 255), (68, 254)], Some(LONG_SECOND)),
            Step::Items(b"\0\0\0\0", &[], Some(LONG_SECOND)),
        ],
    ),
    (
        "an item that was pushed before is the first of a piece",
        Begin::Handshake,
        &[
            Step::Push(WITH_HALF, 68),
            Step::Items(b"\0\0\0\0\0\0", &[(0, 255), (68, 254)], None),
            Step::Holds(2),
        ],
    ),
];

fn wrong_step_of(alloc: Global, (_, begin, steps): &Row) -> Option<usize> {
    match feed_of(alloc, *begin) {
        Ok(mut feed) => wrong_step(alloc, &mut feed, steps),
        Err(_) => Some(0),
    }
}

#[test]
fn calls(rt: HostRuntime) {
    for row in ROWS {
        let wrong = wrong_step_of(rt.alloc(), row);
        assert!(rt; wrong.is_none(), "{}: {wrong:?}", row.0);
    }
}

/// Why there is no feed for this limit, after the handshake where there is an offset, if there is none.
fn fault(alloc: Global, limit: u32, base: Option<u64>) -> Option<FeedError> {
    match base {
        Some(base) => feed_at(alloc, limit, base).err(),
        None => Feed::new(alloc, own(limit)).err(),
    }
}

const BAD: Option<FeedError> = Some(FeedError::BadLimit);

/// A limit, the offset of the stream, and the error.
const FEEDS: &[(u32, Option<u64>, Option<FeedError>)] = &[
    (262_144, Some(END + 1), Some(FeedError::BadBase)),
    (0, Some(0), BAD),
    (0, Some(END + 1), BAD),
    (1_048_577, Some(0), BAD),
    (1_048_577, Some(END + 1), BAD),
    (0, None, BAD),
    (1_048_577, None, BAD),
    (1, None, None),
    (1_048_576, None, None),
];

/// Limits and offsets for which there is no feed.
#[test]
fn no_feeds(rt: HostRuntime) {
    for (limit, base, wanted) in FEEDS {
        assert!(rt;
            fault(rt.alloc(), *limit, *base) == *wanted,
            "{limit} {base:?}"
        );
    }
}

/// Feeds the piece and takes its items, and says how many there were, and the most bytes that were held.
fn most_held(feed: &mut Feed, piece: &[u8]) -> (u64, usize) {
    let mut at = 0usize;
    let mut items = 0u64;
    let mut most = 0usize;
    for _ in 0..piece.len() {
        let Some(rest) = piece.get(at..) else { break };
        at = at.wrapping_add(push(feed, rest));
        most = most.max(held(feed));
        if takes_item(feed) {
            items = items.wrapping_add(1);
        }
    }
    (items, most)
}

/// The same for a stream in pieces of this size.
fn most_held_of(feed: &mut Feed, stream: &[u8], size: usize) -> (u64, usize) {
    let mut items = 0u64;
    let mut most = 0;
    for piece in stream.chunks(size.max(1)) {
        let (more, held) = most_held(feed, piece);
        items = items.wrapping_add(more);
        most = most.max(held);
    }
    (items, most)
}

/// Whether a feed that gets the stream in pieces of this size gives 100,001 items, and holds no more than a handshake.
fn keeps_little(alloc: Global, stream: &[u8], size: usize) -> bool {
    match new_feed(alloc) {
        Ok(mut feed) => {
            most_held_of(&mut feed, stream, size) == (100_001, 68) && finish(&feed) == Ok(400_068)
        }
        Err(_) => false,
    }
}

/// A handshake, and `count` keep-alives.
fn with_keep_alives(alloc: Global, count: usize) -> Result<Vec<u8>, AllocError> {
    let mut stream = HAND.to_vec(alloc)?;
    for _ in 0..count {
        stream.extend_from_slice(&[0; 4])?;
    }
    Ok(stream)
}

/// Whether 100,000 keep-alives after a handshake, in pieces of this size, are taken so.
fn is_kept_small(alloc: Global, size: usize) -> bool {
    match with_keep_alives(alloc, 100_000) {
        Ok(stream) => keeps_little(alloc, &stream, size),
        Err(_) => false,
    }
}

/// 100,000 keep-alives after a handshake.
#[test]
fn keep_alives(rt: HostRuntime) {
    for size in [1, 4096] {
        assert!(rt; is_kept_small(rt.alloc(), size), "{size}");
    }
}
