//! One direction with its memory: what it hands out, and what it tells. All values are by hand.
use bt_flow::{Flow, Given};
use bt_tcp::Gap;
use std::alloc::{AllocError, Global};
use std::process::Abort;
use std::test::Fail;

/// A segment that a direction takes, or what it tells then.
#[derive(Clone, Copy)]
enum Step {
    /// A SYN without data.
    Syn(u32),
    /// A segment with data.
    Data(u32, &'static [u8]),
    /// A FIN without data.
    Fin(u32),
    /// A segment with so many zeros.
    Zeros(u32, usize),
    /// Segments of one byte, so many of them, each 100 bytes after the one before it.
    Scatter(u32, u32),
    /// An acknowledgement by the other side.
    Hear(u32),
    /// All that was handed out.
    Out(&'static [u8]),
    /// How what was handed out ends.
    Ends(&'static [u8]),
    Opening(Option<u32>),
    Base(Option<u64>),
    Next(u64),
    High(u64),
    HasHole(bool),
    Conflicts(u64),
    Held(usize),
    IsClosed(bool),
    IsLost(bool),
    FirstGap(Option<Gap>),
    GapCount(u64),
    GapSum(u64),
}

/// A segment with data.
fn data(sequence: u32, payload: &[u8]) -> Given<'_> {
    Given {
        sequence,
        syn: false,
        fin: false,
        payload,
        length: payload.len() as u64,
    }
}

/// The segment of a step, if it is one.
fn segment(step: &Step) -> Option<Given<'static>> {
    match *step {
        Step::Syn(sequence) => Some(Given {
            syn: true,
            ..data(sequence, b"")
        }),
        Step::Data(sequence, payload) => Some(data(sequence, payload)),
        Step::Fin(sequence) => Some(Given {
            fin: true,
            ..data(sequence, b"")
        }),
        _ => None,
    }
}

/// Whether a direction tells what a step says.
fn tells(flow: &mut Flow, out: &[u8], step: &Step) -> bool {
    match *step {
        Step::Hear(acked) => {
            flow.hear(acked, false);
            true
        }
        Step::Out(bytes) => out == bytes,
        Step::Ends(bytes) => out.ends_with(bytes),
        Step::Opening(number) => flow.opening() == number,
        Step::Base(place) => flow.base() == place,
        Step::Next(offset) => flow.next() == offset,
        Step::High(offset) => flow.high() == offset,
        Step::HasHole(answer) => flow.has_hole() == answer,
        Step::Conflicts(count) => flow.conflicts() == count,
        Step::Held(size) => flow.held() == size,
        Step::IsClosed(answer) => flow.is_closed() == answer,
        Step::IsLost(answer) => flow.is_lost() == answer,
        Step::FirstGap(gap) => flow.gaps().first == gap,
        Step::GapCount(count) => flow.gaps().count == count,
        Step::GapSum(sum) => flow.gaps().sum == sum,
        Step::Syn(_) | Step::Data(..) | Step::Fin(_) | Step::Zeros(..) | Step::Scatter(..) => false,
    }
}

/// Takes a segment with zeros.
fn take_zeros(
    flow: &mut Flow,
    out: &mut Vec<u8>,
    alloc: Global,
    sequence: u32,
    count: usize,
) -> Result<(), AllocError> {
    let mut zeros = Vec::new(alloc);
    zeros.resize(count, 0)?;
    flow.take(&data(sequence, &zeros), out)
}

/// Takes segments of one byte that are far from one another.
fn scatter(
    flow: &mut Flow,
    out: &mut Vec<u8>,
    sequence: u32,
    count: u32,
) -> Result<(), AllocError> {
    for k in 0..count {
        let number = sequence.wrapping_add(k.wrapping_mul(100));
        flow.take(&data(number, b"x"), out)?;
    }
    Ok(())
}

/// Takes a step's segment, or says whether the direction tells what the step says.
fn goes(
    flow: &mut Flow,
    out: &mut Vec<u8>,
    alloc: Global,
    step: &Step,
) -> Result<bool, AllocError> {
    if let Some(given) = segment(step) {
        flow.take(&given, out)?;
        return Ok(true);
    }
    match *step {
        Step::Zeros(sequence, count) => take_zeros(flow, out, alloc, sequence, count)?,
        Step::Scatter(sequence, count) => scatter(flow, out, sequence, count)?,
        _ => return Ok(tells(flow, out, step)),
    }
    Ok(true)
}

/// Goes through the steps with a direction of which nothing was captured.
fn check(rt: &impl Abort, alloc: Global, steps: &[Step]) -> Result<(), Fail> {
    let mut flow = Flow::new(alloc);
    let mut out = Vec::new(alloc);
    for (n, step) in steps.iter().enumerate() {
        assert!(rt; goes(&mut flow, &mut out, alloc, step)?, "at {n}");
    }
    Ok(())
}

const IN_ORDER: &[Step] = &[
    Step::Syn(1000),
    Step::Opening(Some(1000)),
    Step::Data(1001, b"abc"),
    Step::Data(1004, b"de"),
    Step::Out(b"abcde"),
    Step::Base(Some(0x100_0000_0000)),
    Step::Next(5),
    Step::High(5),
    Step::HasHole(false),
    Step::Conflicts(0),
    Step::Held(0),
    Step::Fin(1006),
    Step::IsClosed(false),
    Step::Hear(1007),
    Step::IsClosed(true),
    Step::GapCount(0),
];

/// In order, after a SYN; then the FIN, which is acknowledged (RFC 9293 3.6).
#[test]
fn in_order(rt: HostRuntime) -> Result<(), Fail> {
    check(&rt, rt.alloc(), IN_ORDER)
}

const OUT_OF_ORDER: &[Step] = &[
    Step::Syn(1000),
    Step::Data(1004, b"de"),
    Step::Out(b""),
    Step::HasHole(true),
    Step::Data(1001, b"abc"),
    Step::Data(1010, b"jk"),
    Step::Out(b"abcde"),
    Step::FirstGap(Some(Gap {
        place: 5,
        length: 4,
    })),
    Step::GapCount(1),
    Step::High(11),
    Step::Data(1006, b"fghi"),
    Step::Out(b"abcdefghijk"),
    Step::HasHole(false),
    Step::GapCount(0),
];

/// Two are swapped; then a gap, which is filled later.
#[test]
fn out_of_order(rt: HostRuntime) -> Result<(), Fail> {
    check(&rt, rt.alloc(), OUT_OF_ORDER)
}

const WHOLE: &[Step] = &[
    Step::Syn(999),
    Step::Data(1004, b"ef"),
    Step::Data(1000, b"abcd??gh"),
    Step::Data(1002, b"??"),
    Step::Data(1008, b"ij"),
    Step::Data(1011, b"l"),
    Step::Out(b"abcdefghij"),
    Step::Next(10),
    Step::Conflicts(4),
    Step::FirstGap(Some(Gap {
        place: 10,
        length: 1,
    })),
];

/// A whole direction: swapped, repeated, changed on the second time, and with a gap in the end.
#[test]
fn makes_the_stream(rt: HostRuntime) -> Result<(), Fail> {
    check(&rt, rt.alloc(), WHOLE)
}

const WITHOUT_SYN: &[Step] = &[
    Step::Base(None),
    Step::Data(0xffff_fffe, b"abc"),
    Step::Data(0xffff_fffc, b"xyab"),
    Step::Data(1, b"def"),
    Step::Out(b"abcdef"),
    Step::Conflicts(0),
    Step::Next(6),
];

/// Without a SYN the stream begins with the first captured byte, and earlier ones don't count. Numbers wrap.
#[test]
fn without_syn(rt: HostRuntime) -> Result<(), Fail> {
    check(&rt, rt.alloc(), WITHOUT_SYN)
}

const DIFFERS: &[Step] = &[
    Step::Data(500, b"abcd"),
    Step::Data(501, b"bXYe"),
    Step::Conflicts(2),
    Step::Data(507, b"hij"),
    Step::Data(508, b"Zjk"),
    Step::Data(505, b"fg"),
    Step::Conflicts(3),
    Step::Out(b"abcdefghijk"),
];

/// What comes second doesn't count: of bytes that were handed out, and of those ahead.
#[test]
fn differs(rt: HostRuntime) -> Result<(), Fail> {
    check(&rt, rt.alloc(), DIFFERS)
}

/// A segment's number and its bytes, those of them that come next, and all that were appended.
type Taken = (u32, &'static [u8], &'static [u8], &'static [u8]);

const NEXT_BYTES: &[Taken] = &[
    (100, b"ab", b"ab", b""),
    (105, b"fg", b"", b""),
    (101, b"bcde", b"cde", b"fg"),
    (105, b"f", b"", b"fg"),
    (106, b"ghi", b"hi", b"fg"),
];

/// Whether just these bytes of a segment come next, and just these were appended in all.
fn takes_next(flow: &mut Flow, later: &mut Vec<u8>, row: &Taken) -> Result<bool, AllocError> {
    let (sequence, payload, fresh, filled) = *row;
    let next = flow.take_next(&data(sequence, payload), later)?;
    Ok(next == fresh && later.as_slice() == filled)
}

/// The bytes that come next are given back, and only those of a filled gap are appended.
#[test]
fn next_bytes(rt: HostRuntime) -> Result<(), Fail> {
    let mut flow = Flow::new(rt.alloc());
    let mut later = Vec::new(rt.alloc());
    for (n, row) in NEXT_BYTES.iter().enumerate() {
        assert!(rt; takes_next(&mut flow, &mut later, row)?, "at {n}");
    }
    assert_eq!(rt; flow.next(), 9);
    Ok(())
}

const WAITS: &[Step] = &[
    Step::Data(0, b"ab"),
    Step::Data(15_728_639, b"far"),
    Step::Data(2, b"cd"),
    Step::Out(b"abcd"),
    Step::IsLost(false),
];

/// A segment that ends 15 MiB past the next place: the gap may still be filled.
#[test]
fn waits(rt: HostRuntime) -> Result<(), Fail> {
    check(&rt, rt.alloc(), WAITS)
}

const GIVES_UP: &[Step] = &[
    Step::Data(0, b"ab"),
    Step::Data(15_728_640, b"far"),
    Step::Data(2, b"cd"),
    Step::Data(15_728_638, b"..far."),
    Step::Out(b"ab"),
    Step::IsLost(true),
    Step::HasHole(true),
    Step::Next(2),
    Step::FirstGap(Some(Gap {
        place: 2,
        length: 15_728_638,
    })),
    Step::GapCount(1),
    Step::GapSum(15_728_638),
];

/// A segment that ends a byte more than 15 MiB past the next place: the gap is final, and of later bytes those past it are noted.
#[test]
fn gives_up(rt: HostRuntime) -> Result<(), Fail> {
    check(&rt, rt.alloc(), GIVES_UP)
}

const STAYS_OPEN: &[Step] = &[
    Step::Data(0, b"ab"),
    Step::Hear(2),
    Step::Data(15_728_640, b"far"),
    Step::IsLost(false),
    Step::Data(2, b"cd"),
    Step::Out(b"abcd"),
    Step::HasHole(true),
    Step::Hear(5),
    Step::Data(15_728_643, b"far"),
    Step::IsLost(true),
];

/// As above, but the first missing byte isn't acknowledged: the gap may still be filled. Once it is, it is final.
#[test]
fn stays_open(rt: HostRuntime) -> Result<(), Fail> {
    check(&rt, rt.alloc(), STAYS_OPEN)
}

const KEEPS_ALIVE: &[Step] = &[
    Step::Data(0, b"abcd"),
    Step::Data(3, b"?"),
    Step::Conflicts(0),
    Step::Data(2, b"?"),
    Step::Conflicts(1),
    Step::Data(2, b"??"),
    Step::Conflicts(3),
    Step::Out(b"abcd"),
];

/// A keep-alive may have any byte before the next one (RFC 1122 4.2.3.6).
#[test]
fn keeps_alive(rt: HostRuntime) -> Result<(), Fail> {
    check(&rt, rt.alloc(), KEEPS_ALIVE)
}

const FAR: &[Step] = &[
    Step::Data(0, b"ab"),
    Step::Data(70_000, b"far"),
    Step::Out(b"ab"),
    Step::Held(0),
    Step::Zeros(2, 69_998),
    Step::Ends(b"\0far"),
    Step::Next(70_003),
    Step::Conflicts(0),
    Step::HasHole(false),
];

/// Bytes far after a gap take no ring. They follow what fills the gap.
#[test]
fn far(rt: HostRuntime) -> Result<(), Fail> {
    check(&rt, rt.alloc(), FAR)
}

const FAR_TWICE: &[Step] = &[
    Step::Data(0, b"ab"),
    Step::Data(70_000, b"abcd"),
    Step::Data(70_002, b"?def"),
    Step::Conflicts(1),
    Step::Data(69_990, b"lies before"),
    Step::Conflicts(2),
    Step::Data(69_995, b"befo!abcd!"),
    Step::Conflicts(4),
    Step::Zeros(2, 69_988),
    Step::Ends(b"\0lies beforabcdef"),
    Step::Next(70_006),
    Step::Data(70_001, b"?"),
    Step::Conflicts(5),
];

/// Segments far after a gap that overlap one another: of a byte the first copy stays, and others are counted.
#[test]
fn far_twice(rt: HostRuntime) -> Result<(), Fail> {
    check(&rt, rt.alloc(), FAR_TWICE)
}

const SCATTERED: &[Step] = &[
    Step::Data(0, b"ab"),
    Step::Scatter(70_000, 195),
    Step::Held(0),
    Step::Scatter(89_500, 1),
    Step::Held(89_496),
    Step::Data(70_000, b"?"),
    Step::Data(89_400, b"?"),
    Step::Data(89_500, b"?"),
    Step::Conflicts(3),
    Step::Zeros(2, 69_998),
    Step::Ends(b"\0x"),
    Step::Zeros(70_001, 19_499),
    Step::Conflicts(197),
    Step::Ends(b"\0x"),
    Step::Next(89_501),
];

/// After enough captured bytes the ring grows for those that are far. A byte of a segment counts 8 places, and its header 448.
#[test]
fn scattered(rt: HostRuntime) -> Result<(), Fail> {
    check(&rt, rt.alloc(), SCATTERED)
}
