//! A pump over devices that move few bytes a call and fail at each call in turn.
use crate::feed::{HAND, fault_of_take, joined, new_feed, push, refusal};
use bt_feed::*;
use bt_wire::Reason;
use std::alloc::Global;

/// The id of a handshake that is kept, and that of a keep-alive: no message has them here.
const HANDSHAKE: u8 = 255;

const KEEP_ALIVE: u8 = 254;

/// A sink that keeps the offset and the id of each item. It takes none at the call `fails_at`, counted from 1.
#[derive(Drop)]
struct Kept {
    items: Vec<(u64, u8)>,
    fails_at: Option<u64>,
    fault: SinkFault,
    calls: u64,
    failed: u64,
}

fn sink_of(alloc: Global, fails_at: Option<u64>, fault: SinkFault) -> Kept {
    Kept {
        items: Vec::new(alloc),
        fails_at,
        fault,
        calls: 0,
        failed: 0,
    }
}

fn id_of(view: &View<'_>) -> u8 {
    match view {
        View::Handshake(_) => HANDSHAKE,
        View::Message(message) => message.id().unwrap_or(KEEP_ALIVE),
    }
}

impl Sink for Kept {
    ghost use Rattle.std.specs.Prelude.{⊤};

    ghost takes = { λ _ _ _. ⊤ };

    ghost misses = { λ _ _ _ _. ⊤ };

    ghost calls = { λ s. s.calls };

    ghost failed = { λ s. s.failed };

    fn item(&mut self, at: u64, view: &View<'_>) -> Result<(), SinkFault> {
        self.calls = self.calls.saturating_add(1);
        if self.fails_at == Some(self.calls) {
            self.failed = self.failed.saturating_add(1);
            return Err(self.fault);
        }
        if self.items.push((at, id_of(view))).is_err() {
            self.failed = self.failed.saturating_add(1);
            return Err(SinkFault::Memory);
        }
        Ok(())
    }
}

/// The messages of the stream: one of each kind of length.
pub(crate) const MESSAGES: &[u8; 174] =
    b"\0\0\0\0\0\0\0\x05\x04\0\0\0\x09\0\0\0\x0d\x06\0\0\0\x01\0\0\x40\0\0\0\x40\0\
\0\0\0\x2d\x14\0d1:md11:ut_metadatai3ee13:metadata_sizei3ee\0\0\0\0\
\0\0\0\x1b\x14\x03d8:msg_typei0e5:piecei0ee\0\0\0\x01\x63\
\0\0\0\x2e\x14\x03d8:msg_typei1e5:piecei0e10:total_sizei3eeabc\0\0\0\x01\x0f";

/// Its items, and where each ends.
const ITEMS: [(u64, u8); 10] = [
    (0, HANDSHAKE),
    (68, KEEP_ALIVE),
    (72, 4),
    (81, 6),
    (98, 20),
    (147, KEEP_ALIVE),
    (151, 20),
    (182, 99),
    (187, 20),
    (237, 15),
];

const ENDS: [usize; 10] = [68, 72, 81, 98, 147, 151, 182, 187, 237, 242];

/// How many items the first `bytes` bytes of the stream have.
fn count_in(bytes: usize) -> usize {
    let mut count = 0usize;
    for end in ENDS {
        if end <= bytes {
            count = count.wrapping_add(1);
        }
    }
    count
}

/// A source, a feed and a sink.
#[derive(Drop)]
struct Line {
    reader: MemSource,
    feed: Feed,
    sink: Kept,
}

/// A source of the bytes that gives at most `most` of them a read, and fails at the read `fails_at`, counted from 1.
fn source(bytes: Vec<u8>, most: usize, fails_at: Option<u64>) -> MemSource {
    MemSource::new(bytes, most.max(1), fails_at)
}

/// A line of a source that has the bytes of both parts, and of a sink that takes each item.
fn made(
    alloc: Global,
    front: &[u8],
    back: &[u8],
    most: usize,
    fails_at: Option<u64>,
) -> Result<Line, FeedError> {
    let reader = source(joined(alloc, front, back)?, most, fails_at);
    Ok(Line {
        reader,
        feed: new_feed(alloc)?,
        sink: sink_of(alloc, None, SinkFault::Write),
    })
}

fn pumped(line: &mut Line, max_turns: u64) -> Result<u64, PumpError> {
    pump(&mut line.reader, &mut line.feed, &mut line.sink, max_turns)
}

/// Like [`pumped`], over a buffer of three bytes.
fn pumped_by_three(line: &mut Line, max_turns: u64) -> Result<u64, PumpError> {
    let mut buffer = [0; 3];
    pump_with(
        &mut line.reader,
        &mut line.feed,
        &mut line.sink,
        max_turns,
        &mut buffer,
    )
}

fn discarded(line: &mut Line) -> Result<u64, PumpError> {
    pump(&mut line.reader, &mut line.feed, &mut Discard::new(), 243)
}

fn number(line: &Line) -> u64 {
    line.feed.number()
}

/// Whether the sink has just the first `count` items.
fn has_first(line: &Line, count: usize) -> bool {
    ITEMS.get(..count) == Some(line.sink.items.as_slice())
}

/// Whether a pump of at most `max_turns` turns ends so, and the sink has just the first `count` items then.
fn pumps(line: &mut Line, max_turns: u64, ended: Result<u64, PumpError>, count: usize) -> bool {
    pumped(line, max_turns) == ended && has_first(line, count)
}

/// Which pump reads the whole stream.
#[derive(Clone, Copy)]
enum Pump {
    Usual,
    ByThree,
    Discarding,
}

fn is_pumped(line: &mut Line, by: Pump) -> bool {
    match by {
        Pump::Usual => pumps(line, 243, Ok(242), 10),
        Pump::ByThree => pumped_by_three(line, 243) == Ok(242) && has_first(line, 10),
        Pump::Discarding => discarded(line) == Ok(242) && number(line) == 10,
    }
}

fn is_whole(alloc: Global, by: Pump, most: usize) -> bool {
    match made(alloc, HAND, MESSAGES, most, None) {
        Ok(mut line) => is_pumped(&mut line, by),
        Err(_) => false,
    }
}

/// How many bytes a read gives at most where the pump goes otherwise.
fn wrong_reads(alloc: Global, by: Pump) -> Option<usize> {
    for most in [1, 7, 68, 241, 4096] {
        if !is_whole(alloc, by, most) {
            return Some(most);
        }
    }
    None
}

/// A source of few bytes a read gives what one of many gives, also over a buffer of three bytes, and a sink that keeps
/// nothing hears the same verdict.
#[test]
fn any_reads(rt: HostRuntime) {
    for (name, by) in [
        ("usual", Pump::Usual),
        ("by three", Pump::ByThree),
        ("discarding", Pump::Discarding),
    ] {
        let wrong = wrong_reads(rt.alloc(), by);
        assert!(rt; wrong.is_none(), "{name}: {wrong:?}");
    }
}

/// Whether the read after `before` others fails, the items of the bytes before it are given, and another call goes on.
fn is_failed(alloc: Global, most: usize, before: usize) -> bool {
    let fails_at = Some((before as u64).wrapping_add(1));
    let Ok(mut line) = made(alloc, HAND, MESSAGES, most, fails_at) else {
        return false;
    };
    let given = count_in(before.wrapping_mul(most));
    pumps(&mut line, 1000, Err(PumpError::ReadFault), given) && pumps(&mut line, 1000, Ok(242), 10)
}

/// The first read of `most` bytes, counted from 0, whose failure isn't as wanted.
fn wrong_failure(alloc: Global, most: usize) -> Option<usize> {
    for before in 0..=242usize.div_ceil(most.max(1)) {
        if !is_failed(alloc, most, before) {
            return Some(before);
        }
    }
    None
}

/// A failed read loses nothing: the items of the bytes before it are given, and another call goes on.
#[test]
fn failed_reads(rt: HostRuntime) {
    for most in [1, 7, 100] {
        let wrong = wrong_failure(rt.alloc(), most);
        assert!(rt; wrong.is_none(), "{most} {wrong:?}");
    }
}

fn is_cut_off(alloc: Global, turns: usize) -> bool {
    let Ok(mut line) = made(alloc, HAND, MESSAGES, 1, None) else {
        return false;
    };
    let given = count_in(turns);
    pumps(&mut line, turns as u64, Err(PumpError::Turns), given)
        && pumps(&mut line, 243, Ok(242), 10)
}

/// At most `turns` reads are made, and nothing is lost where there are more.
#[test]
fn turns(rt: HostRuntime) {
    for turns in 0..=242 {
        assert!(rt; is_cut_off(rt.alloc(), turns), "{turns}");
    }
}

fn has_2001(sink: &Kept) -> bool {
    sink.items.len() == 2001 && sink.items.last() == Some(&(8064, KEEP_ALIVE))
}

fn is_long(alloc: Global, zeros: &[u8], turns: u64, ended: Result<u64, PumpError>) -> bool {
    match made(alloc, HAND, zeros, 1_000_000, None) {
        Ok(mut line) => pumped(&mut line, turns) == ended && has_2001(&line.sink),
        Err(_) => false,
    }
}

fn is_long_with(alloc: Global, turns: u64, ended: Result<u64, PumpError>) -> bool {
    match vec![in alloc; 0; 8000] {
        Ok(zeros) => is_long(alloc, &zeros, turns, ended),
        Err(_) => false,
    }
}

/// No read asks for more than 4,096 bytes: 8,068 take two reads, and a third for the end.
#[test]
fn long_streams(rt: HostRuntime) {
    for (turns, ended) in [(2, Err(PumpError::Turns)), (3, Ok(8068))] {
        assert!(rt; is_long_with(rt.alloc(), turns, ended), "{turns}");
    }
}

/// Whether the sink has all items but for the one after `before` others.
fn has_others(sink: &Kept, before: usize) -> bool {
    let items = sink.items.as_slice();
    items.get(..before) == ITEMS.get(..before)
        && items.get(before..) == ITEMS.get(before.saturating_add(1)..)
}

/// Whether a fault of the sink, at the item after `before` others, stops the pump. Where each read gives one byte, the pump
/// then goes on with the next item.
fn misses_one(alloc: Global, fault: SinkFault, before: usize, is_single: bool) -> bool {
    let most = if is_single { 1 } else { 4096 };
    let Ok(mut line) = made(alloc, HAND, MESSAGES, most, None) else {
        return false;
    };
    line.sink.fails_at = Some((before as u64).wrapping_add(1));
    line.sink.fault = fault;
    pumps(&mut line, 1000, Err(PumpError::Sink(fault)), before)
        && (!is_single || pumped(&mut line, 1000) == Ok(242) && has_others(&line.sink, before))
}

/// The first item, counted from 0, whose fault isn't as wanted.
fn wrong_miss(alloc: Global, fault: SinkFault, is_single: bool) -> Option<usize> {
    for before in 0..10 {
        if !misses_one(alloc, fault, before, is_single) {
            return Some(before);
        }
    }
    None
}

const FAULTS: [(SinkFault, bool); 4] = [
    (SinkFault::Write, true),
    (SinkFault::Write, false),
    (SinkFault::Memory, true),
    (SinkFault::Memory, false),
];

/// A sink's fault loses the one item, and no byte after it that wasn't read.
#[test]
fn failed_items(rt: HostRuntime) {
    for (fault, is_single) in &FAULTS {
        let wrong = wrong_miss(rt.alloc(), *fault, *is_single);
        assert!(rt; wrong.is_none(), "{fault:?} {is_single} {wrong:?}");
    }
}

fn gives_held(alloc: Global) -> bool {
    let Ok(mut line) = made(alloc, b"", MESSAGES, 9, None) else {
        return false;
    };
    push(&mut line.feed, HAND) == 68
        && pumps(&mut line, 0, Err(PumpError::Turns), 1)
        && pumps(&mut line, 1000, Ok(242), 10)
}

/// An item that is held at entry is given first, also where no read is made.
#[test]
fn held_items(rt: HostRuntime) {
    assert!(rt; gives_held(rt.alloc()));
}

/// Whether the source has the two bytes `de` alone.
fn has_both(reader: &mut MemSource) -> bool {
    let mut left = [0; 4];
    reader.read(&mut left) == Ok(2) && left == *b"de\0\0"
}

fn reads_nothing(alloc: Global, given: bool) -> bool {
    let Ok(mut line) = made(alloc, b"", b"de", 9, None) else {
        return false;
    };
    let refused = Err(PumpError::Refused(refusal((0, 0, Reason::BadProtocol))));
    push(&mut line.feed, b"abc") == 1
        && (!given || fault_of_take(&mut line.feed).is_some())
        && pumps(&mut line, 1000, refused, 0)
        && has_both(&mut line.reader)
}

/// A feed that is refused reads nothing, whether the refusal was given before or not.
#[test]
fn refused_feeds(rt: HostRuntime) {
    for given in [false, true] {
        assert!(rt; reads_nothing(rt.alloc(), given), "{given}");
    }
}
