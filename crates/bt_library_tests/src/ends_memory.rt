//! Memory that is refused: each growth of an end in turn.
use crate::end_setting::*;
use bt_end::Turn;
use bt_ext::Rules;
use linked_list_allocator::LocalHeap;
use std::alloc::Global;
use std::test::Fail;

/// What an end tells that serves three bytes, and the block, `abc`, after the dictionary of its data message.
const TOLD: &[u8] = b"\0\0\0\x2d\x14\0d1:md11:ut_metadatai3ee13:metadata_sizei3ee";

const BLOCK: &[u8] = b"\0\0\0\x2e\x14\x09d8:msg_typei1e5:piecei0e10:total_sizei3eeabc";

/// What an end tells that fetches, and its request.
const ASKED: &[u8] = b"\0\0\0\x1a\x14\0d1:md11:ut_metadatai9eee";

const REQUEST: &[u8] = b"\0\0\0\x1b\x14\x03d8:msg_typei0e5:piecei0ee";

/// A fetch that is cut off before its one block has come whole, and then a second connection.
const FETCHING: &[Step] = &[
    Step::Handles(HAND),
    Step::Sends(68, ASKED),
    Step::Sent(98),
    Step::Handles(TOLD),
    Step::Sends(0, REQUEST),
    Step::Takes(b"\0\0\0\x2e\x14\x09d8:msg_typei1e", 20),
    Step::Resets,
    Step::Waits(68),
    Step::Sent(68),
    Step::Handles(HAND),
    Step::Sends(0, ASKED),
    Step::Sent(30),
    Step::Handles(TOLD),
    Step::Sends(0, REQUEST),
    Step::Sent(31),
    Step::Has(None),
    Step::Handles(BLOCK),
    Step::Has(Some(b"abc")),
    Step::Waits(0),
    Step::Turns(Ok(Turn::Idle)),
];

/// The end that is fetched from.
const SERVING: &[Step] = &[
    Step::Waits(68),
    Step::Sent(68),
    Step::Handles(HAND),
    Step::Sends(0, TOLD),
    Step::Handles(ASKED),
    Step::Sent(49),
    Step::Handles(REQUEST),
    Step::Sends(0, BLOCK),
    Step::Sent(20),
    Step::Resets,
    Step::Waits(68),
    Step::Handles(HAND),
    Step::Handles(ASKED),
    Step::Sent(117),
    Step::Handles(REQUEST),
    Step::Sends(0, BLOCK),
    Step::Sent(50),
    Step::Has(None),
    Step::Turns(Ok(Turn::Idle)),
];

const ROWS: &[Row] = &[
    ("a fetch", 0, Who::Fetching(8), Rules::Bep, 32_768, FETCHING),
    ("a service", 0, Who::ServingAbc, Rules::Bep, 32_768, SERVING),
];

/// How many bytes are given back once a request for memory was refused: more than what an end needs.
const SPARE: usize = 262_144;

/// Takes the steps over a heap, and says which calls were refused memory; the number of the step that goes otherwise.
fn run_over(alloc: Global, own: &LocalHeap, row: &Row) -> Result<[u32; 3], usize> {
    match Heap::new(alloc, own, SPARE) {
        Ok(mut heap) => match wrong_step(&mut heap, row) {
            Some(number) => Err(number),
            None => Ok(heap.refused),
        },
        Err(_) => Err(0),
    }
}

/// The same over a heap with this many bytes free.
fn run(alloc: Global, row: &Row, free: usize) -> Result<[u32; 3], usize> {
    match LocalHeap::new(alloc, free.saturating_add(SPARE)) {
        Ok(own) => run_over(alloc, &own, row),
        Err(_) => Err(0),
    }
}

fn add(all: &mut [u32; 3], more: [u32; 3]) {
    for (sum, count) in all.iter_mut().zip(more) {
        *sum = sum.saturating_add(count);
    }
}

/// Adds what is refused as the free bytes grow by the heap's unit until nothing is.
fn add_all(alloc: Global, row: &Row, all: &mut [u32; 3]) -> Result<(), usize> {
    for units in 0..20_000 {
        let refused = run(alloc, row, units * 16)?;
        if refused == [0; 3] {
            return Ok(());
        }
        add(all, refused);
    }
    Err(0)
}

/// As the free bytes grow by the heap's unit, each request for memory is the first that is refused: what was to be sent and
/// what was fetched stay, and the same call succeeds once there is memory.
#[test]
fn each_growth_refused(rt: HostRuntime) -> Result<(), Fail> {
    let mut all = [0; 3];
    for row in ROWS {
        let ended = add_all(rt.alloc(), row, &mut all);
        assert!(rt; ended.is_ok(), "{}: {ended:?}", row.0);
    }
    assert!(rt; all[0] > 0 && all[1] > 0 && all[2] > 0, "{all:?}");
    Ok(())
}
