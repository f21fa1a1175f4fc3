//! Worked rows of ends that are driven by hand.
use crate::end_setting::*;
use bt_end::{EndError, SayError, Turn, TurnError, Window};
use bt_ext::Rules;
use bt_wire::{Fault, Reason, Refusal};
use linked_list_allocator::LocalHeap;
use std::alloc::Global;

/// What an end says. Its handshakes have 98 bytes.
const SAYINGS: &[Step] = &[
    Step::Says(Saying::Unchoke, Err(SayError::NotOpen)),
    Step::Handles(HAND),
    Step::Waits(98),
    Step::Says(
        Saying::Unchoke,
        Err(SayError::Illegal(Fault::Reason(Reason::Missing))),
    ),
    Step::Waits(98),
    Step::Says(Saying::Have(1), Err(SayError::PiecesUnknown)),
    Step::Waits(98),
    Step::Says(Saying::HaveNone, Ok(())),
    Step::Waits(103),
    Step::Says(Saying::Unchoke, Ok(())),
    Step::Waits(108),
    Step::Says(Saying::Have(1), Err(SayError::PiecesUnknown)),
    Step::Waits(108),
    Step::Sends(98, b"\0\0\0\x01\x0f\0\0\0\x01\x01"),
];

/// A piece is taken back under the peer's id, once that is known, and by a peer under the own one. The end announces both
/// extensions in 47 bytes. A peer that announces an id for `lt_donthave` hears under that id.
const TAKEN_BACK: &[Step] = &[
    Step::Handles(HAND),
    Step::Sends(
        68,
        b"\0\0\0\x2b\x14\0d1:md11:lt_donthavei4e11:ut_metadatai3eee",
    ),
    Step::Says(Saying::DontHave(9), Err(SayError::Illegal(Fault::Shape))),
    Step::Waits(115),
    Step::Handles(b"\0\0\0\x1a\x14\0d1:md11:lt_donthavei5eee"),
    Step::Says(Saying::DontHave(9), Ok(())),
    Step::Sends(115, b"\0\0\0\x06\x14\x05\0\0\0\x09"),
    Step::Handles(b"\0\0\0\x06\x14\x04\0\0\0\x09"),
    Step::Waits(125),
];

const TOLD_THREE: &[u8] = b"\0\0\0\x2d\x14\0d1:md11:ut_metadatai3ee13:metadata_sizei3ee";

/// The block, `abc`, after the dictionary of its data message.
const BLOCK: &[u8] = b"\0\0\0\x2e\x14\x09d8:msg_typei1e5:piecei0e10:total_sizei3eeabc";

/// An end hears of three bytes and requests their block. Blocks that weren't asked for, of a wrong size and of a wrong SHA-1
/// come, and are ignored or asked for again; then 20 bytes of the right block, which are forgotten with their connection; and
/// on a new connection all of it.
const FALSE_BLOCKS: &[Step] = &[
    Step::Handles(HAND),
    Step::Handles(TOLD_THREE),
    Step::Handles(b"\0\0\0\x2e\x14\x09d8:msg_typei1e5:piecei1e10:total_sizei3eeabc"),
    Step::Waits(129),
    Step::Has(None),
    Step::Handles(b"\0\0\0\x2e\x14\x09d8:msg_typei1e5:piecei0e10:total_sizei4eeabc"),
    Step::Waits(129),
    Step::Has(None),
    Step::Handles(b"\0\0\0\x2d\x14\x09d8:msg_typei1e5:piecei0e10:total_sizei3eeab"),
    Step::Waits(129),
    Step::Has(None),
    Step::Handles(b"\0\0\0\x2e\x14\x09d8:msg_typei1e5:piecei0e10:total_sizei3eeabd"),
    Step::Waits(160),
    Step::Has(None),
    Step::Takes(b"\0\0\0\x2e\x14\x09d8:msg_typei1e", 20),
    Step::Resets,
    Step::Waits(68),
    Step::Turns(Ok(Turn::Idle)),
    Step::Handles(HAND),
    Step::Handles(TOLD_THREE),
    Step::Handles(BLOCK),
    Step::Has(Some(b"abc")),
];

const REFUSAL: Refusal = Refusal {
    message: 1,
    at: 68,
    reason: Reason::TooLong,
};

/// A message comes whose length is 262,145. The refusal stands, and nothing is said any more.
const REFUSED: &[Step] = &[
    Step::Handles(HAND),
    Step::Says(Saying::KeepAlive, Ok(())),
    Step::Takes(b"\x00\x04\x00\x01\x00", 4),
    Step::Says(Saying::KeepAlive, Err(SayError::NotOpen)),
    Step::Turns(Err(TurnError::Refused(REFUSAL))),
    Step::Takes(b"\x00", 0),
    Step::Says(Saying::KeepAlive, Err(SayError::NotOpen)),
    Step::Turns(Err(TurnError::Refused(REFUSAL))),
    Step::Takes(b"\x00", 0),
];

/// A request for the block 0, under the id 3.
const REQUEST: &[u8] = b"\0\0\0\x1b\x14\x03d8:msg_typei0e5:piecei0ee";

/// A peer asks and asks, and takes nothing; then what waits is written.
const FLOOD: &[Step] = &[
    Step::Handles(HAND),
    Step::Handles(b"\0\0\0\x1a\x14\0d1:md11:ut_metadatai9eee"),
    Step::Repeats(64, REQUEST),
    Step::Waits(1_051_961),
    Step::Turns(Ok(Turn::Idle)),
    Step::Takes(REQUEST, 31),
    Step::Drains(0),
    Step::Says(Saying::KeepAlive, Err(SayError::Busy)),
    Step::Turns(Err(TurnError::Busy)),
    Step::Drains(3_385),
    Step::Says(Saying::KeepAlive, Err(SayError::Busy)),
    Step::Turns(Err(TurnError::Busy)),
    Step::Drains(1),
    Step::Turns(Ok(Turn::Handled)),
];

const TOLD_NINE: &[u8] = b"\0\0\0\x32\x14\0d1:md11:ut_metadatai3ee13:metadata_sizei147456ee";

/// What the first of nine blocks, all 7, begins with.
const FIRST_OF_NINE: &[u8] = b"\0\0\x40\x30\x14\x09d8:msg_typei1e5:piecei0e10:total_sizei147456ee";

/// Of nine blocks an end asks for as many at once as its window says, and for one more when a block has come.
const EIGHT_AT_ONCE: &[Step] = &[
    Step::Handles(HAND),
    Step::Handles(TOLD_NINE),
    Step::Sends(
        98,
        b"\0\0\0\x1b\x14\x03d8:msg_typei0e5:piecei0ee\
\0\0\0\x1b\x14\x03d8:msg_typei0e5:piecei1ee\
\0\0\0\x1b\x14\x03d8:msg_typei0e5:piecei2ee\
\0\0\0\x1b\x14\x03d8:msg_typei0e5:piecei3ee\
\0\0\0\x1b\x14\x03d8:msg_typei0e5:piecei4ee\
\0\0\0\x1b\x14\x03d8:msg_typei0e5:piecei5ee\
\0\0\0\x1b\x14\x03d8:msg_typei0e5:piecei6ee\
\0\0\0\x1b\x14\x03d8:msg_typei0e5:piecei7ee",
    ),
    Step::Takes(FIRST_OF_NINE, 52),
    Step::HandlesSevens,
    Step::Sends(98 + 31 * 8, b"\0\0\0\x1b\x14\x03d8:msg_typei0e5:piecei8ee"),
];

const ONE_AT_ONCE: &[Step] = &[
    Step::Handles(HAND),
    Step::Handles(TOLD_NINE),
    Step::Sends(98, REQUEST),
    Step::Takes(FIRST_OF_NINE, 52),
    Step::HandlesSevens,
    Step::Sends(98 + 31, b"\0\0\0\x1b\x14\x03d8:msg_typei0e5:piecei1ee"),
];

const THREE_AT_ONCE: &[Step] = &[
    Step::Handles(HAND),
    Step::Handles(TOLD_NINE),
    Step::Sends(
        98,
        b"\0\0\0\x1b\x14\x03d8:msg_typei0e5:piecei0ee\
\0\0\0\x1b\x14\x03d8:msg_typei0e5:piecei1ee\
\0\0\0\x1b\x14\x03d8:msg_typei0e5:piecei2ee",
    ),
    Step::Takes(FIRST_OF_NINE, 52),
    Step::HandlesSevens,
    Step::Sends(98 + 31 * 3, b"\0\0\0\x1b\x14\x03d8:msg_typei0e5:piecei3ee"),
];

/// A `piece` message with a block of 16,384 bytes begins so.
const PIECE: &[u8] = b"\0\0\x40\x09\x07\0\0\0\0\0\0\0\0";

/// With the Fast Extension the first message says what the peer has (BEP 6): none. A block takes no memory.
const FULL: &[Step] = &[
    Step::Handles(HAND),
    Step::Handles(b"\0\0\0\x01\x0f"),
    Step::Fills,
    Step::Takes(PIECE, 13),
    Step::HandlesSevens,
    Step::Takes(PIECE, 13),
    Step::HandlesSevens,
    Step::Takes(PIECE, 13),
    Step::HandlesSevens,
    Step::IsFull,
];

const MISSING: SayError = SayError::Illegal(Fault::Reason(Reason::Missing));

/// What is said with no memory but the room that was reserved, once the peer's handshake is handled.
const SAID_IN_ROOM: &[Step] = &[
    Step::Says(Saying::Unchoke, Err(SayError::NotOpen)),
    Step::Handles(HAND),
    Step::Fills,
    Step::Says(Saying::Unchoke, Err(MISSING)),
    Step::Says(Saying::HaveNone, Ok(())),
    Step::Says(Saying::Unchoke, Ok(())),
    Step::Says(Saying::Have(1), Err(SayError::PiecesUnknown)),
];

/// What is said as long as there is room, and again once there is memory: an unchoke after the last keep-alive.
const SAID_WHILE_FULL: &[Step] = &[
    Step::Handles(HAND),
    Step::Fills,
    Step::Says(Saying::HaveNone, Ok(())),
    Step::RunsOut,
    Step::Refuses,
    Step::Frees,
    Step::Says(Saying::Unchoke, Ok(())),
    Step::EndsWith(b"\0\0\0\0\0\0\0\x01\x01"),
];

const LIMIT: u32 = 262_144;

/// The bytes of a heap in which all that an end needs has room, and of a small one.
const AMPLE: usize = 16_777_216;

const SMALL: usize = 131_072;

const ROWS: &[Row] = &[
    (
        "what an end says",
        AMPLE,
        Who::Watching,
        Rules::Bep,
        LIMIT,
        SAYINGS,
    ),
    (
        "pieces are taken back",
        AMPLE,
        Who::OfTen,
        Rules::Bep,
        LIMIT,
        TAKEN_BACK,
    ),
    (
        "flood of requests",
        AMPLE,
        Who::ServingSevens,
        Rules::Free,
        LIMIT,
        FLOOD,
    ),
    (
        "false blocks",
        AMPLE,
        Who::Fetching(8),
        Rules::Free,
        LIMIT,
        FALSE_BLOCKS,
    ),
    (
        "eight at once",
        AMPLE,
        Who::Fetching(8),
        Rules::Free,
        LIMIT,
        EIGHT_AT_ONCE,
    ),
    (
        "one at once",
        AMPLE,
        Who::Fetching(1),
        Rules::Free,
        LIMIT,
        ONE_AT_ONCE,
    ),
    (
        "three at once",
        AMPLE,
        Who::Fetching(3),
        Rules::Free,
        LIMIT,
        THREE_AT_ONCE,
    ),
    (
        "refused peer",
        AMPLE,
        Who::Watching,
        Rules::Free,
        LIMIT,
        REFUSED,
    ),
    (
        "a block takes no memory",
        SMALL,
        Who::Watching,
        Rules::Bep,
        32_768,
        FULL,
    ),
    (
        "said in reserved room",
        SMALL,
        Who::Watching,
        Rules::Bep,
        32_768,
        SAID_IN_ROOM,
    ),
    (
        "said on a full heap",
        SMALL,
        Who::Watching,
        Rules::Bep,
        32_768,
        SAID_WHILE_FULL,
    ),
];

/// The first step that goes otherwise, or that of one more where memory is refused outside the steps that fill the heap.
fn wrong_over(alloc: Global, own: &LocalHeap, row: &Row) -> Option<usize> {
    match Heap::new(alloc, own, 0) {
        Ok(mut heap) => {
            let wrong = wrong_step(&mut heap, row);
            if heap.refused == [0; 3] {
                wrong
            } else {
                Some(row.5.len())
            }
        }
        Err(_) => Some(0),
    }
}

fn wrong_of(alloc: Global, row: &Row) -> Option<usize> {
    match LocalHeap::new(alloc, row.1) {
        Ok(own) => wrong_over(alloc, &own, row),
        Err(_) => Some(0),
    }
}

#[test]
fn steps_of_ends(rt: HostRuntime) {
    for row in ROWS {
        let wrong = wrong_of(rt.alloc(), row);
        assert!(rt; wrong.is_none(), "{}: {wrong:?}", row.0);
    }
}

/// A number of blocks at once, and whether there is such a window.
const WINDOWS: &[(u8, bool)] = &[(0, false), (1, true), (8, true), (9, false), (255, false)];

/// Whether there is such a window or not. That of 8 blocks is the default.
fn is_window(blocks: u8, there: bool) -> bool {
    let window = Window::new(blocks);
    window.is_some() == there && (window == Some(Window::default())) == (blocks == 8)
}

#[test]
fn windows(rt: HostRuntime) {
    for (blocks, there) in WINDOWS {
        assert!(rt; is_window(*blocks, *there), "{blocks}");
    }
}

/// An end, its limit, and why it isn't made.
const REFUSALS: &[(Who, u32, EndError)] = &[
    (Who::Unhashed, 32_767, EndError::BadLimit),
    (Who::Watching, 1_048_577, EndError::BadLimit),
    (Who::Unhashed, 262_144, EndError::BadConfig),
    (Who::ServingNone, 262_144, EndError::BadSize),
];

fn refusal(alloc: Global, who: Who, limit: u32) -> Option<EndError> {
    match LocalHeap::new(alloc, SMALL) {
        Ok(heap) => made(&heap, who, Rules::Free, limit).err(),
        Err(_) => None,
    }
}

#[test]
fn ends_that_are_not_made(rt: HostRuntime) {
    for (who, limit, error) in REFUSALS {
        assert!(rt;
            refusal(rt.alloc(), *who, *limit) == Some(*error),
            "{error:?} {limit}"
        );
    }
}
