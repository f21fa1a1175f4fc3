//! Worked rows of an assembly and a server. That a million bytes are served and held in blocks is shown by `loop`.
use bt_metadata::{Assembly, BlockError, NewError, Reply, Server, Unfinished};
use linked_list_allocator::LocalHeap;
use std::alloc::Global;

/// The SHA-1 of `abc` (FIPS 180-4).
const ABC: [u8; 20] = [
    0xa9, 0x99, 0x3e, 0x36, 0x47, 0x06, 0x81, 0x6a, 0xba, 0x3e, 0x25, 0x71, 0x78, 0x50, 0xc2, 0x6c,
    0x9c, 0xd0, 0xd8, 0x9d,
];

/// A call, and what it answers.
enum Step {
    Size(u64),
    Ask(Option<u32>),
    /// How many blocks are asked.
    Asked(usize),
    /// A number, a total, and the block.
    Data(u32, u64, &'static [u8], Result<(), BlockError>),
    /// The same, with as many sevens as the block.
    Sevens(u32, u64, usize, Result<(), BlockError>),
    Reject(u32, Result<(), BlockError>),
    Disconnect,
}

/// What comes of an assembly that is finished.
#[derive(Clone, Copy)]
enum End {
    /// These bytes are the metadata.
    Whole(&'static [u8]),
    /// All blocks are there, and the SHA-1 is another.
    Mismatch,
    Lacking,
}

/// What is shown, the bytes of the heap, the size of the metadata, the steps, and the end.
type Row = (&'static str, usize, u64, &'static [Step], End);

const ROWS: &[Row] = &[
    // the assembly fills its heap: any request for memory after `new` would be refused
    (
        "two blocks",
        16_408,
        16_385,
        &[
            Step::Size(16_385),
            Step::Ask(Some(0)),
            Step::Data(2, 16_385, b"7", Err(BlockError::PieceRange)),
            Step::Data(1, 16_385, b"7", Err(BlockError::NotAsked)),
            Step::Sevens(0, 16_384, 16_384, Err(BlockError::WrongTotal)),
            Step::Sevens(0, 16_385, 16_383, Err(BlockError::WrongSize)),
            Step::Sevens(0, 16_385, 16_384, Ok(())),
            Step::Sevens(0, 16_385, 16_384, Err(BlockError::NotAsked)),
            Step::Reject(2, Err(BlockError::PieceRange)),
            Step::Reject(1, Err(BlockError::NotAsked)),
            Step::Ask(Some(1)),
            Step::Reject(1, Ok(())),
            Step::Ask(None),
            Step::Disconnect,
            Step::Ask(Some(1)),
        ],
        End::Lacking,
    ),
    // of nine blocks eight are asked for at once
    (
        "nine blocks",
        200_000,
        147_456,
        &[
            Step::Ask(Some(0)),
            Step::Ask(Some(1)),
            Step::Ask(Some(2)),
            Step::Ask(Some(3)),
            Step::Ask(Some(4)),
            Step::Ask(Some(5)),
            Step::Ask(Some(6)),
            Step::Ask(Some(7)),
            Step::Ask(None),
            Step::Asked(8),
            Step::Sevens(3, 147_456, 16_384, Ok(())),
            Step::Ask(Some(8)),
            Step::Ask(None),
        ],
        End::Lacking,
    ),
    (
        "right metadata",
        1_024,
        3,
        &[Step::Ask(Some(0)), Step::Data(0, 3, b"abc", Ok(()))],
        End::Whole(b"abc"),
    ),
    (
        "other metadata",
        1_024,
        3,
        &[Step::Ask(Some(0)), Step::Data(0, 3, b"abd", Ok(()))],
        End::Mismatch,
    ),
];

fn goes(assembly: &mut Assembly<&LocalHeap>, step: &Step, sevens: &[u8]) -> bool {
    match step {
        Step::Size(want) => assembly.size() == *want,
        Step::Ask(want) => assembly.ask() == *want,
        Step::Asked(want) => assembly.asked() == *want,
        Step::Data(piece, total, block, want) => assembly.data(*piece, *total, block) == *want,
        Step::Sevens(piece, total, length, want) => {
            let block = sevens.get(..*length).unwrap_or_default();
            assembly.data(*piece, *total, block) == *want
        }
        Step::Reject(piece, want) => assembly.reject(*piece) == *want,
        Step::Disconnect => {
            assembly.disconnect();
            true
        }
    }
}

/// The number of the first step, counted from 0, that doesn't go so.
fn first_wrong(
    assembly: &mut Assembly<&LocalHeap>,
    steps: &[Step],
    sevens: &[u8],
) -> Option<usize> {
    for (number, step) in steps.iter().enumerate() {
        if !goes(assembly, step, sevens) {
            return Some(number);
        }
    }
    None
}

fn ends(assembly: Assembly<&LocalHeap>, end: End) -> bool {
    match assembly.finish() {
        Ok(metadata) => matches!(end, End::Whole(bytes) if metadata.as_slice() == bytes),
        Err(Unfinished::Mismatch(_)) => matches!(end, End::Mismatch),
        Err(Unfinished::Lacking(_)) => matches!(end, End::Lacking),
    }
}

fn made<'a>(heap: &'a LocalHeap, size: u64) -> Result<Assembly<&'a LocalHeap>, NewError> {
    Assembly::new(heap, ABC, size)
}

/// The number of the first step that goes otherwise, or that of one more where the heap isn't full though it is to be, or the
/// assembly ends otherwise.
fn wrong_of(heap: &LocalHeap, (_, bytes, size, steps, end): &Row, sevens: &[u8]) -> Option<usize> {
    match made(heap, *size) {
        Ok(mut assembly) => {
            let is_full = heap.free() == 0 || *bytes != 16_408;
            let wrong = first_wrong(&mut assembly, steps, sevens);
            if ends(assembly, *end) && is_full {
                wrong
            } else {
                wrong.or(Some(steps.len()))
            }
        }
        Err(_) => Some(0),
    }
}

fn wrong_with(alloc: Global, row: &Row, sevens: &[u8]) -> Option<usize> {
    match LocalHeap::new(alloc, row.1) {
        Ok(heap) => wrong_of(&heap, row, sevens),
        Err(_) => Some(0),
    }
}

fn wrong_step(alloc: Global, row: &Row) -> Option<usize> {
    match vec![in alloc; 7; 16_384] {
        Ok(sevens) => wrong_with(alloc, row, sevens.as_slice()),
        Err(_) => Some(0),
    }
}

#[test]
fn assemblies(rt: HostRuntime) {
    for row in ROWS {
        let wrong = wrong_step(rt.alloc(), row);
        assert!(rt; wrong.is_none(), "{}: {wrong:?}", row.0);
    }
}

/// A heap's bytes, a size, and why no assembly of this size is made.
const REFUSALS: &[(usize, u64, NewError)] = &[
    (16_384, 16_385, NewError::Memory),
    (16_384, 0, NewError::BadSize),
    (16_384, 67_108_865, NewError::BadSize),
    (16_400, 16_385, NewError::Memory),
    (16_400, 0, NewError::BadSize),
    (16_400, 67_108_865, NewError::BadSize),
];

fn is_refused(alloc: Global, bytes: usize, size: u64, error: NewError) -> bool {
    match LocalHeap::new(alloc, bytes) {
        Ok(heap) => made(&heap, size).err() == Some(error),
        Err(_) => false,
    }
}

#[test]
fn no_room_for_an_assembly(rt: HostRuntime) {
    for (bytes, size, error) in REFUSALS {
        assert!(rt;
            is_refused(rt.alloc(), *bytes, *size, *error),
            "{size} in {bytes}"
        );
    }
}

/// The size of the metadata, and the lengths of its blocks up to some that aren't there; none where it isn't served.
const SERVED: &[(usize, &[(u32, Option<usize>)])] = &[
    (0, &[]),
    (67_108_865, &[]),
    (
        16_385,
        &[(0, Some(16_384)), (1, Some(1)), (2, None), (u32::MAX, None)],
    ),
];

/// The length of a block of sevens.
fn length(server: &Server, piece: u32) -> Option<usize> {
    match server.answer(piece) {
        Reply::Data { total, block } if total == server.size() && block.ends_with(b"\x07") => {
            Some(block.len())
        }
        _ => None,
    }
}

fn has_blocks(server: &Server, blocks: &[(u32, Option<usize>)]) -> bool {
    for (piece, wanted) in blocks {
        if length(server, *piece) != *wanted {
            return false;
        }
    }
    !blocks.is_empty()
}

fn is_served(alloc: Global, size: usize, blocks: &[(u32, Option<usize>)]) -> bool {
    match vec![in alloc; 7; size] {
        Ok(metadata) => match Server::new(metadata) {
            Ok(server) => has_blocks(&server, blocks),
            Err(_) => blocks.is_empty(),
        },
        Err(_) => false,
    }
}

#[test]
fn servers(rt: HostRuntime) {
    for (size, blocks) in SERVED {
        assert!(rt; is_served(rt.alloc(), *size, blocks), "{size}");
    }
}
