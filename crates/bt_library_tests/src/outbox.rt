//! An outbox with room and without, and targets that take few bytes or fail.
use bt_io::*;
use linked_list_allocator::LocalHeap;
use std::alloc::{Allocator, Global};

/// As many bytes as a handshake and a message of 30 bytes have, nearly all of them different.
const SENT: &[u8; 98] =
    b"!\"#$%&'()*+,-./0123456789:;<=>?@ABCDEFGHIJKLMNOPQRSTUVWXYZ[\\]^_`abcdefghijklmnopqrstuvwxyz{|}~ ABC";

/// A call of an outbox and what it answers, or what is seen then.
#[derive(Clone, Copy)]
enum Step {
    Reserve(usize, Result<(), Memory>),
    Queue(&'static [u8], Result<(), Memory>),
    /// At most this many bytes go to the target.
    Drain(usize, Result<usize, WriteFault>),
    /// The outbox holds just these bytes.
    Holds(&'static [u8]),
    /// The target took just this many bytes of `SENT`, and the outbox holds the others.
    Sent(usize),
}

fn holds<A: Allocator>(outbox: &Outbox<A>, bytes: &[u8]) -> bool {
    outbox.bytes() == bytes
}

fn has_taken(target: &MemTarget, bytes: &[u8]) -> bool {
    target.bytes() == bytes
}

fn reserve<A: Allocator>(outbox: &mut Outbox<A>, n: usize) -> Result<(), Memory> {
    outbox.reserve(n)
}

fn queue<A: Allocator>(outbox: &mut Outbox<A>, bytes: &[u8]) -> Result<(), Memory> {
    outbox.queue(bytes)
}

fn drain<A: Allocator>(
    outbox: &mut Outbox<A>,
    target: &mut MemTarget,
    max: usize,
) -> Result<usize, WriteFault> {
    outbox.drain(target, max)
}

fn is_sent<A: Allocator>(outbox: &Outbox<A>, target: &MemTarget, count: usize) -> bool {
    match SENT.split_at_checked(count) {
        Some((done, left)) => has_taken(target, done) && holds(outbox, left),
        None => false,
    }
}

fn goes<A: Allocator>(outbox: &mut Outbox<A>, target: &mut MemTarget, step: Step) -> bool {
    match step {
        Step::Reserve(n, answer) => reserve(outbox, n) == answer,
        Step::Queue(bytes, answer) => queue(outbox, bytes) == answer,
        Step::Drain(max, answer) => drain(outbox, target, max) == answer,
        Step::Holds(bytes) => holds(outbox, bytes),
        Step::Sent(count) => is_sent(outbox, target, count),
    }
}

/// The number of the first step, counted from 0, that goes otherwise.
fn wrong_step<A: Allocator>(
    outbox: &mut Outbox<A>,
    target: &mut MemTarget,
    steps: &[Step],
) -> Option<usize> {
    for (number, step) in steps.iter().enumerate() {
        if !goes(outbox, target, *step) {
            return Some(number);
        }
    }
    None
}

/// A target that takes at most `most` bytes a write and fails at the call `fails_at`, counted from 1.
fn target(alloc: Global, most: usize, fails_at: Option<u64>) -> MemTarget {
    MemTarget::new(Vec::new(alloc), most, fails_at)
}

/// What it shows, how many bytes the target takes a write, at which call it fails, and the steps.
type Row = (&'static str, usize, Option<u64>, &'static [Step]);

const ROWS: &[Row] = &[
    (
        "reserved room",
        1,
        None,
        &[
            Step::Holds(b""),
            Step::Reserve(3, Ok(())),
            Step::Holds(b""),
            Step::Queue(b"abc", Ok(())),
            Step::Holds(b"abc"),
        ],
    ),
    (
        "what was taken before a failed write isn't written again, and nothing is lost",
        1,
        Some(41),
        &[
            Step::Queue(SENT, Ok(())),
            Step::Drain(1000, Err(WriteFault)),
            Step::Sent(40),
            Step::Drain(8, Ok(8)),
            Step::Sent(48),
            Step::Drain(1000, Ok(50)),
            Step::Sent(98),
        ],
    ),
    (
        "a write that takes nothing is a fault, unless there is nothing to write",
        0,
        None,
        &[
            Step::Drain(10, Ok(0)),
            Step::Queue(SENT, Ok(())),
            Step::Drain(0, Ok(0)),
            Step::Drain(10, Err(WriteFault)),
            Step::Sent(0),
        ],
    ),
];

fn wrong_step_of(alloc: Global, (_, most, fails_at, steps): &Row) -> Option<usize> {
    let mut outbox = Outbox::new(alloc);
    let mut target = target(alloc, *most, *fails_at);
    wrong_step(&mut outbox, &mut target, steps)
}

#[test]
fn calls(rt: HostRuntime) {
    for row in ROWS {
        let wrong = wrong_step_of(rt.alloc(), row);
        assert!(rt; wrong.is_none(), "{}: {wrong:?}", row.0);
    }
}

/// What it shows, and the steps on a heap of 16 bytes: how many of them stand before the heap is full, and the others.
type HeapRow = (&'static str, &'static [Step], &'static [Step]);

const HEAP_ROWS: &[HeapRow] = &[
    (
        "reserved bytes fill the heap: as many are queued without memory, and one more is refused",
        &[Step::Reserve(16, Ok(()))],
        &[
            Step::Queue(b"0123456789abcdef", Ok(())),
            Step::Queue(b"g", Err(Memory)),
            Step::Reserve(1, Err(Memory)),
            Step::Holds(b"0123456789abcdef"),
        ],
    ),
    (
        "dropped bytes make room where no memory is left, and a refused queue changes nothing",
        &[Step::Queue(b"0123456789abcdef", Ok(()))],
        &[
            Step::Drain(3, Ok(3)),
            Step::Queue(b"ghij", Err(Memory)),
            Step::Holds(b"3456789abcdef"),
            Step::Queue(b"gh", Ok(())),
            Step::Holds(b"3456789abcdefgh"),
            Step::Drain(9, Ok(9)),
            Step::Reserve(10, Ok(())),
            Step::Queue(b"0123456789", Ok(())),
            Step::Holds(b"cdefgh0123456789"),
        ],
    ),
];

/// Whether each step goes so, and the heap is full then.
fn fills<A: Allocator>(
    heap: &LocalHeap,
    outbox: &mut Outbox<A>,
    target: &mut MemTarget,
    steps: &[Step],
) -> bool {
    wrong_step(outbox, target, steps).is_none() && heap.free() == 0
}

fn is_right_on(alloc: Global, heap: &LocalHeap, (_, filling, full): &HeapRow) -> bool {
    let mut outbox = Outbox::new(heap);
    let mut target = target(alloc, 2, None);
    fills(heap, &mut outbox, &mut target, filling) && fills(heap, &mut outbox, &mut target, full)
}

fn is_right(alloc: Global, row: &HeapRow) -> bool {
    match LocalHeap::new(alloc, 16) {
        Ok(heap) => heap.free() == 16 && is_right_on(alloc, &heap, row),
        Err(_) => false,
    }
}

#[test]
fn calls_on_full_heaps(rt: HostRuntime) {
    for row in HEAP_ROWS {
        assert!(rt; is_right(rt.alloc(), row), "{}", row.0);
    }
}

/// Drops up to `most` bytes at the front, and says how many.
fn drop_some(outbox: &mut Outbox, most: usize) -> usize {
    let count = outbox.bytes().len().min(most);
    outbox.drop_front(count);
    count
}

/// Queues the first bytes of `SENT`, and notes them in `whole`.
fn queue_front(outbox: &mut Outbox, whole: &mut Vec<u8>, count: usize) -> bool {
    let piece = SENT.get(..count).unwrap_or_default();
    whole.extend_from_slice(piece).is_ok() && queue(outbox, piece).is_ok()
}

fn holds_from(outbox: &Outbox, whole: &[u8], at: usize) -> bool {
    match whole.get(at..) {
        Some(left) => holds(outbox, left),
        None => false,
    }
}

/// The first of 600 small steps that isn't done, or after which what is left isn't the end of all that came.
fn wrong_small_step(outbox: &mut Outbox, whole: &mut Vec<u8>) -> Option<usize> {
    let mut gone = 0usize;
    for step in 0..600usize {
        let is_queued = queue_front(outbox, whole, step % 13);
        gone = gone.wrapping_add(drop_some(outbox, step * 5 % 12));
        if !is_queued || !holds_from(outbox, whole, gone) {
            return Some(step);
        }
    }
    None
}

fn wrong_small_step_of(alloc: Global) -> Option<usize> {
    let mut whole = Vec::new(alloc);
    wrong_small_step(&mut Outbox::new(alloc), &mut whole)
}

/// Pieces come and go in small steps: what is left is the end of all that came.
#[test]
fn small_steps(rt: HostRuntime) {
    let wrong = wrong_small_step_of(rt.alloc());
    assert!(rt; wrong.is_none(), "{wrong:?}");
}

/// Queues `abcde`, and notes it in `whole` if it was queued.
fn queue_five<A: Allocator>(outbox: &mut Outbox<A>, whole: &mut Vec<u8>) -> bool {
    queue(outbox, b"abcde") == Err(Memory) || whole.extend_from_slice(b"abcde").is_ok()
}

/// Queues `abcde` 60 times, of which the last is refused, and says whether the outbox holds each time what was queued.
fn queue_many<A: Allocator>(outbox: &mut Outbox<A>, whole: &mut Vec<u8>) -> bool {
    for _ in 0..60 {
        if !queue_five(outbox, whole) || !holds(outbox, whole) {
            return false;
        }
    }
    queue(outbox, b"abcde") == Err(Memory)
}

/// Whether all goes to the target.
fn drains_all<A: Allocator>(outbox: &mut Outbox<A>, target: &mut MemTarget, whole: &[u8]) -> bool {
    drain(outbox, target, 1000) == Ok(whole.len()) && has_taken(target, whole)
}

/// Whether the heap refuses a growth, and what was queued before goes to the target.
fn is_refused_on(alloc: Global, heap: &LocalHeap) -> bool {
    let mut outbox = Outbox::new(heap);
    let mut whole = Vec::new(alloc);
    queue_many(&mut outbox, &mut whole)
        && drains_all(&mut outbox, &mut target(alloc, 3, None), &whole)
}

fn is_refused(alloc: Global, size: usize) -> bool {
    match LocalHeap::new(alloc, size) {
        Ok(heap) => is_refused_on(alloc, &heap),
        Err(_) => false,
    }
}

/// Each growth is refused in turn, as the heaps grow.
#[test]
fn refused_growths(rt: HostRuntime) {
    for size in [1, 32, 64, 256] {
        assert!(rt; is_refused(rt.alloc(), size), "{size}");
    }
}
