//! What a capture tells of a direction beside its bytes. All values are by hand.
ghost use Rattle.std.specs.Prelude.{◌≤◌, length, take};
ghost use Rattle.bt_tcp.specs.Covered.{AreApart};
ghost use Rattle.bt_flow.specs.Apart.{AreApart-prop};

use crate::rings::{Step as RingStep, Window};
use bt_tcp::{Gap, Gaps, Half, PlaceFault, Put, Span, Spans, TableFull, history};
use std::alloc::{AllocError, Global};
use std::process::Abort;
use std::test::Fail;

/// The place of the first number.
const FIRST: u64 = 0x100_0000_0000;

/// A call on what is known of a direction, and what it answers.
#[derive(Clone, Copy)]
enum Step {
    /// A segment: its number, whether it has a SYN and a FIN, how many bytes were captured, and how many it had.
    Take(u32, bool, bool, usize, u64, Result<u64, PlaceFault>),
    /// An acknowledgement, and whether it came with a SYN.
    Hear(u32, bool, u64),
    /// An acknowledgement that is passed over.
    Unsent(u32),
    /// Whether a segment without a FIN and without data would be passed over: its number, and whether it has a SYN.
    Passes(u32, bool, bool),
    IsPastFilling(u64, bool),
    Base(Option<u64>),
    Opening(Option<u32>),
    /// From this place on.
    HasHole(u64, bool),
    /// From this place on.
    Sent(u64, u64),
    Acked(u64),
    Fin(Option<u64>),
    High(u64),
    MayBeNext(u32, bool),
}

/// Whether a call answers so.
fn goes(half: &mut Half, step: &Step) -> bool {
    match *step {
        Step::Take(sequence, syn, fin, captured, length, answer) => {
            half.take(sequence, syn, fin, captured, length) == answer
        }
        Step::Hear(acked, opens, place) => half.hear(acked, opens) == Some(place),
        Step::Unsent(acked) => half.hear(acked, false).is_none(),
        Step::Passes(sequence, syn, answer) => half.passes(sequence, syn, false, 0, 0) == answer,
        Step::IsPastFilling(place, answer) => half.is_past_filling(place) == answer,
        Step::Base(place) => half.base() == place,
        Step::Opening(number) => half.opening() == number,
        Step::HasHole(next, answer) => half.has_hole(next) == answer,
        Step::Sent(next, place) => half.sent(next) == place,
        Step::Acked(place) => half.acked() == place,
        Step::Fin(place) => half.fin() == place,
        Step::High(place) => half.high() == place,
        Step::MayBeNext(number, answer) => half.may_be_next(number) == answer,
    }
}

/// Makes the calls on a direction of which nothing was captured, and compares the answers.
fn check(rt: &impl Abort, name: &str, steps: &[Step]) {
    let mut half = Half::new();
    for (n, step) in steps.iter().enumerate() {
        assert!(rt; goes(&mut half, step), "{name}: at {n}");
    }
}

const CLIENT: &[Step] = &[
    Step::Base(None),
    Step::Take(1000, true, false, 0, 0, Ok(FIRST)),
    Step::Hear(1001, true, FIRST),
    Step::Base(Some(FIRST)),
    Step::Opening(Some(1000)),
    Step::HasHole(FIRST, false),
    Step::Take(1001, false, false, 8, 8, Ok(FIRST)),
    Step::HasHole(FIRST, true),
    Step::Sent(FIRST, FIRST + 8),
    Step::HasHole(FIRST + 8, false),
    Step::Take(1009, false, true, 0, 0, Ok(FIRST + 8)),
    Step::Hear(1010, false, FIRST + 9),
    Step::Fin(Some(FIRST + 8)),
    Step::Acked(FIRST + 9),
    Step::High(FIRST + 8),
    Step::HasHole(FIRST + 8, false),
];

const SERVER: &[Step] = &[
    Step::Take(9000, true, false, 0, 0, Ok(FIRST)),
    Step::Hear(9001, false, FIRST),
    Step::High(0),
];

/// A handshake, eight bytes, and a FIN that is acknowledged (RFC 9293 3.5, 3.6).
#[test]
fn opens_and_closes(rt: HostRuntime) {
    check(&rt, "client", CLIENT);
    check(&rt, "server", SERVER);
}

const RESETS: &[Step] = &[
    Step::MayBeNext(0x8000_0000, true),
    Step::Take(0xffff_fffe, true, false, 0, 0, Ok(FIRST)),
    Step::MayBeNext(0xffff_fffe, false),
    Step::MayBeNext(0xffff_ffff, true),
    Step::MayBeNext(0, false),
    Step::Take(0xffff_ffff, false, false, 0, 8, Ok(FIRST)),
    Step::MayBeNext(3, true),
    Step::MayBeNext(7, true),
    Step::MayBeNext(8, false),
    Step::Hear(3, true, FIRST + 4),
    Step::MayBeNext(2, false),
    Step::MayBeNext(3, true),
    Step::MayBeNext(0x8000_0003, false),
    Step::MayBeNext(0x8000_0002, false),
    Step::Hear(12, false, FIRST + 13),
    Step::MayBeNext(11, false),
    Step::MayBeNext(12, true),
    Step::Take(12, false, true, 0, 0, Ok(FIRST + 13)),
    Step::MayBeNext(13, true),
    Step::MayBeNext(14, false),
];

/// A receiver may expect a number from what it acknowledged up to what was sent, which a FIN is too (RFC 9293 3.4). Numbers wrap.
#[test]
fn expects_next(rt: HostRuntime) {
    check(&rt, "resets", RESETS);
}

/// The greatest window is 65,535 times 2^14, 0x3fff_c000.
const WINDOW: &[Step] = &[
    Step::Passes(0x3fff_c3e9, false, false),
    Step::Take(1000, true, false, 0, 0, Ok(FIRST)),
    Step::Passes(0x3fff_c3e8, false, false),
    Step::Passes(0x3fff_c3e9, false, true),
    Step::Passes(0x8000_0000, true, false),
    Step::IsPastFilling(FIRST + 8, true),
    Step::Hear(1001, true, FIRST),
    Step::IsPastFilling(FIRST, false),
    Step::Take(1001, false, false, 8, 8, Ok(FIRST)),
    Step::Passes(0x8000_0000, true, true),
    Step::Passes(0x3fff_c3f0, false, false),
    Step::Passes(0x3fff_c3f1, false, true),
    Step::Take(0x3fff_c3f1, false, true, 0, 0, Err(PlaceFault)),
    Step::Fin(None),
    Step::Sent(FIRST + 8, FIRST + 8),
    Step::Take(0x8000_0000, false, false, 1, 1, Err(PlaceFault)),
    Step::High(FIRST + 8),
    Step::Unsent(0x3fff_c3f2),
    Step::Acked(FIRST),
    Step::Hear(1009, false, FIRST + 8),
    Step::IsPastFilling(FIRST + 7, true),
    Step::IsPastFilling(FIRST + 8, false),
    Step::Take(1007, false, true, 0, 0, Err(PlaceFault)),
    Step::Take(1008, false, true, 0, 0, Ok(FIRST + 7)),
    Step::Hear(0x3fff_c3f1, false, FIRST + 8 + 0x3fff_c000),
];

/// A segment past the window changes nothing, nor an acknowledgement of what can't have been sent, nor a FIN before what was acknowledged.
#[test]
fn looks_at_the_window(rt: HostRuntime) {
    check(&rt, "window", WINDOW);
}

const LATE: &[Step] = &[
    Step::Take(0xffff_fffe, true, false, 0, 0, Ok(FIRST)),
    Step::Take(3, false, false, 4, 6, Ok(FIRST + 4)),
    Step::Sent(FIRST, FIRST + 10),
    Step::High(FIRST + 8),
    Step::Take(0xffff_ffff, false, false, 4, 4, Ok(FIRST)),
    Step::Sent(FIRST + 8, FIRST + 10),
    Step::HasHole(FIRST + 8, true),
    Step::High(FIRST + 8),
    Step::Base(Some(FIRST)),
    Step::Take(9, false, false, 0, u64::MAX, Err(PlaceFault)),
    Step::Sent(FIRST + 10, FIRST + 10),
];

/// Numbers wrap at 2^32, places don't. A segment may come late, and one that is longer than its captured part.
#[test]
fn wraps_and_comes_late(rt: HostRuntime) {
    check(&rt, "late", LATE);
}

const LOST: &[Step] = &[
    Step::Take(5010, false, false, 8, 8, Ok(FIRST)),
    Step::Hear(5000, true, FIRST - 10),
    Step::Opening(Some(4999)),
    Step::Base(Some(FIRST - 10)),
    Step::Hear(5019, false, FIRST + 9),
    Step::Sent(FIRST + 8, FIRST + 8),
    Step::Hear(5020, false, FIRST + 10),
    Step::Sent(FIRST + 8, FIRST + 10),
    Step::HasHole(FIRST + 8, true),
    Step::Hear(5001, false, FIRST - 9),
    Step::Acked(FIRST + 10),
];

/// Bytes that weren't captured, and one number more that may be the FIN's.
#[test]
fn acknowledges_lost_bytes(rt: HostRuntime) {
    check(&rt, "lost", LOST);
}

const DIFFERS: &[RingStep] = &[
    RingStep::Put(1000, b"abc", Put::Taken { from: 0, len: 3 }),
    RingStep::Put(1005, b"fg", Put::Taken { from: 0, len: 0 }),
    RingStep::Conflicts(1000, b"a??de?gh", 1),
];

/// How many of eight bytes from 1000 on differ from `abc`, which were handed out.
fn differing(alloc: Global, next: u64) -> Result<usize, AllocError> {
    let mut memory = Vec::new(alloc);
    history::remember(&mut memory, 0, b"abc")?;
    Ok(history::count_conflicts(&memory, 1000, next, 1000, b"a??de?gh"))
}

/// Of eight bytes two differ from those that were handed out, and one from those ahead.
#[test]
fn compares_conflicts(rt: HostRuntime) -> Result<(), Fail> {
    let mut window = Window::new(rt.alloc())?;
    window.check(&rt, DIFFERS)?;
    assert_eq!(rt; differing(rt.alloc(), window.next())?, 2);
    Ok(())
}

const LENGTHENS: &[RingStep] = &[
    RingStep::Put(1000, b"abc", Put::Taken { from: 0, len: 3 }),
    RingStep::Put(1009, b"jk", Put::Taken { from: 0, len: 0 }),
    RingStep::Lengthen(9),
    RingStep::Put(1003, b"defghi", Put::Taken { from: 0, len: 6 }),
    RingStep::Ready(b"jk"),
    RingStep::Next(1011),
    RingStep::Places(16),
];

/// A ring that wraps gets more room, and keeps what is ahead.
#[test]
fn lengthens(rt: HostRuntime) -> Result<(), Fail> {
    Window::new(rt.alloc())?.check(&rt, LENGTHENS)
}

/// Spans, and their memory.
#[derive(Drop)]
struct Noted {
    spans: Spans,
    table: [Span; 3],
    ghost fits: { spans.count ≤ length table },
    ghost apart: { AreApart 0 (take spans.count table) } by { AreApart-prop 0 (take spans.count table) },
}

/// A call on spans, and what it answers.
#[derive(Clone, Copy)]
enum Call {
    Add(u64, u64, Result<(), TableFull>),
    Gaps(u64, u64, Gaps),
}

impl Noted {
    /// Whether a call answers so.
    fn goes(&mut self, call: &Call) -> bool {
        match *call {
            Call::Add(from, to, answer) => self.spans.add(&mut self.table, from, to) == answer,
            Call::Gaps(next, sent, gaps) => self.spans.gaps(&self.table, next, sent) == gaps,
        }
    }
}

const NONE: Gaps = Gaps {
    first: None,
    count: 0,
    sum: 0,
};

const FIRST_GAP: Option<Gap> = Some(Gap {
    place: 10,
    length: 10,
});

const FOUR: Gaps = Gaps {
    first: FIRST_GAP,
    count: 4,
    sum: 10 + 5 + 5 + 1,
};

const TWO: Gaps = Gaps {
    first: FIRST_GAP,
    count: 2,
    sum: 10 + 1,
};

const SPANS: &[Call] = &[
    Call::Gaps(10, 10, NONE),
    Call::Add(20, 30, Ok(())),
    Call::Add(50, 60, Ok(())),
    Call::Add(40, 45, Ok(())),
    Call::Add(30, 35, Ok(())),
    Call::Add(58, 65, Ok(())),
    Call::Add(70, 70, Ok(())),
    Call::Add(70, 71, Err(TableFull)),
    Call::Gaps(10, 66, FOUR),
    Call::Add(34, 51, Ok(())),
    Call::Gaps(10, 66, TWO),
    Call::Gaps(20, 21, NONE),
];

/// Spans that touch, overlap or stand alone, and the gaps that they leave.
#[test]
fn counts_gaps(rt: HostRuntime) {
    let table = [Span { from: 7, to: 8 }; 3];
    let spans = Spans::new(&table);
    let mut noted = Noted { spans, table };
    for (n, call) in SPANS.iter().enumerate() {
        assert!(rt; noted.goes(call), "at {n}");
    }
}
