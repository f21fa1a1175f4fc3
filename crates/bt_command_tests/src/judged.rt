//! Streams that come in pieces, judged by both rule sets at once.
use bt_ext::{Registered, Rules};
use bt_feed::{Sink, SinkFault, View};
use bt_judge::{Judge, JudgeFault, Verdicts};
use bt_text::ended::Ended;
use bt_wire::{Own, Reason, Refusal, Reserved};
use std::alloc::{AllocError, Global};
use std::process::Abort;
use std::test::Fail;

/// A sink that keeps the offset and the id of each item. It takes none at the call `fails_at`, counted from 1.
#[derive(Drop)]
struct Kept {
    items: Vec<(u64, u8)>,
    fails_at: Option<u64>,
    calls: u64,
    failed: u64,
}

/// What stands for the id of a handshake.
const HANDSHAKE: u8 = 255;

/// What stands for the id of a keep-alive, which has none.
const KEEP_ALIVE: u8 = 254;

impl Sink for Kept {
    ghost use Rattle.std.specs.Prelude.{⊤};

    ghost takes = { λ _ _ _. ⊤ };

    ghost misses = { λ _ _ _ _. ⊤ };

    ghost calls = { λ s. s.calls };

    ghost failed = { λ s. s.failed };

    fn item(&mut self, at: u64, view: &View<'_>) -> Result<(), SinkFault> {
        self.calls = self.calls.saturating_add(1);
        let id = match view {
            View::Handshake(_) => HANDSHAKE,
            View::Message(message) => message.id().unwrap_or(KEEP_ALIVE),
        };
        if self.fails_at == Some(self.calls) || self.items.push((at, id)).is_err() {
            self.failed = self.failed.saturating_add(1);
            return Err(SinkFault::Write);
        }
        Ok(())
    }
}

fn sink_of(alloc: Global, fails_at: Option<u64>) -> Kept {
    Kept {
        items: Vec::new(alloc),
        fails_at,
        calls: 0,
        failed: 0,
    }
}

/// Makes a judge for a receiver of nine pieces.
fn new_judge(alloc: Global) -> Result<Judge, AllocError> {
    Judge::new(
        alloc,
        Own {
            reserved: Reserved(0x10_0005),
            info_hash: None,
            pieces: Some(9),
            reg: Registered::metadata_only(None),
            rules: Rules::Free,
            limit: 262_144,
        },
    )
}

/// A handshake without extensions.
const HAND: &[u8; 68] = b"\x13BitTorrent protocol\0\0\0\0\0\0\0\0\
aaaaaaaaaaaaaaaaaaaabbbbbbbbbbbbbbbbbbbb";

/// The messages of a stream, its items, and its verdicts by the lenient and by the strict rules.
struct Row {
    messages: &'static [u8],
    items: &'static [(u64, u8)],
    free: Ended,
    bep: Ended,
}

const BAD_INDEX: Reason = Reason::BadIndex;

const ROWS: &[Row] = &[
    // none
    Row {
        messages: b"",
        items: &[(0, HANDSHAKE)],
        free: Ended::Accepted {
            messages: 0,
            bytes: 68,
        },
        bep: Ended::Accepted {
            messages: 0,
            bytes: 68,
        },
    },
    // have 1, a keep-alive, request 1 0 16384
    Row {
        messages: b"\0\0\0\x05\x04\0\0\0\x01\0\0\0\0\0\0\0\x0d\x06\0\0\0\x01\0\0\0\0\0\0\x40\0",
        items: &[(0, HANDSHAKE), (68, 4), (77, KEEP_ALIVE), (81, 6)],
        free: Ended::Accepted {
            messages: 3,
            bytes: 98,
        },
        bep: Ended::Accepted {
            messages: 3,
            bytes: 98,
        },
    },
    // have 1, a bitfield, which comes late, have 2
    Row {
        messages: b"\0\0\0\x05\x04\0\0\0\x01\0\0\0\x03\x05\xff\x80\0\0\0\x05\x04\0\0\0\x02",
        items: &[(0, HANDSHAKE), (68, 4), (77, 5), (84, 4)],
        free: Ended::Accepted {
            messages: 3,
            bytes: 93,
        },
        bep: Ended::Refused(Refusal {
            message: 2,
            at: 81,
            reason: Reason::Late,
        }),
    },
    // the same with have 9 for have 2, and have 2 after it
    Row {
        messages: b"\0\0\0\x05\x04\0\0\0\x01\0\0\0\x03\x05\xff\x80\
\0\0\0\x05\x04\0\0\0\x09\0\0\0\x05\x04\0\0\0\x02",
        items: &[(0, HANDSHAKE), (68, 4), (77, 5)],
        free: Ended::Refused(Refusal {
            message: 3,
            at: 89,
            reason: BAD_INDEX,
        }),
        bep: Ended::Refused(Refusal {
            message: 2,
            at: 81,
            reason: Reason::Late,
        }),
    },
    // have 9, and have 1 after it
    Row {
        messages: b"\0\0\0\x05\x04\0\0\0\x09\0\0\0\x05\x04\0\0\0\x01",
        items: &[(0, HANDSHAKE)],
        free: Ended::Refused(Refusal {
            message: 1,
            at: 73,
            reason: BAD_INDEX,
        }),
        bep: Ended::Refused(Refusal {
            message: 1,
            at: 73,
            reason: BAD_INDEX,
        }),
    },
    // have 1, and six bytes of have 2
    Row {
        messages: b"\0\0\0\x05\x04\0\0\0\x01\0\0\0\x05\x04\0",
        items: &[(0, HANDSHAKE), (68, 4)],
        free: Ended::Refused(Refusal {
            message: 2,
            at: 83,
            reason: Reason::EndInside,
        }),
        bep: Ended::Refused(Refusal {
            message: 2,
            at: 83,
            reason: Reason::EndInside,
        }),
    },
];

/// Gives a judge a stream in pieces of `size` bytes, up to its end or a fault of the sink.
fn take(judge: &mut Judge, stream: &[u8], size: usize, sink: &mut Kept) -> Result<(), JudgeFault> {
    for piece in stream.chunks(size.max(1)) {
        judge.take(piece, sink)?;
    }
    Ok(())
}

/// Whether a row's stream in pieces of `size` bytes has its items and its verdicts.
fn is_judged(alloc: Global, row: &Row, size: usize) -> Result<bool, AllocError> {
    let mut stream = Vec::from_slice(alloc, HAND)?;
    stream.extend_from_slice(row.messages)?;
    let mut judge = new_judge(alloc)?;
    let mut sink = sink_of(alloc, None);
    let verdicts = Verdicts {
        free: row.free,
        bep: row.bep,
    };
    Ok(
        take(&mut judge, stream.as_slice(), size, &mut sink) == Ok(())
            && sink.items.as_slice() == row.items
            && judge.ended() == verdicts,
    )
}

#[test]
fn rows(rt: HostRuntime) -> Result<(), Fail> {
    for row in ROWS {
        for size in [1, 3, 7, 20, 4_096] {
            let judged = is_judged(rt.alloc(), row, size)?;
            assert!(rt; judged, "{:?} {size}", row.messages);
        }
    }
    Ok(())
}

/// Inside a handshake a stream is refused if it ends there, and no refusal stands.
#[test]
fn parts_of_a_handshake(rt: HostRuntime) -> Result<(), Fail> {
    let mut judge = new_judge(rt.alloc())?;
    let mut sink = sink_of(rt.alloc(), None);
    for (byte, at) in HAND.iter().zip(0..68u64) {
        let inside = Ended::Refused(Refusal {
            message: 0,
            at,
            reason: Reason::EndInside,
        });
        let verdicts = judge.ended();
        assert!(rt; verdicts.free == inside && verdicts.bep == inside, "{at}");
        assert_eq!(rt; judge.refusal(), None);
        assert_eq!(rt; take(&mut judge, &[*byte], 1, &mut sink), Ok(()));
    }
    assert_eq!(rt; sink.calls, 1);
    Ok(())
}

/// A step of a test of a judge.
#[derive(Clone, Copy)]
enum Step {
    /// Bytes in pieces of so many, and whether they are taken or the sink fails.
    Takes(&'static [u8], usize, Result<(), JudgeFault>),
    /// How many parsers there are.
    Has(usize),
    /// How the stream ends by the strict rules.
    Ends(Ended),
    /// No refusal stands.
    Stands,
    /// How many items the sink was given.
    Gave(u64),
    /// How many of the next bytes may be any.
    Frees(usize),
    /// So many missing bytes are passed over.
    Passes(usize),
}

/// Takes a step, and returns whether all is as wanted.
fn goes(judge: &mut Judge, sink: &mut Kept, step: &Step) -> bool {
    match step {
        Step::Takes(bytes, size, taken) => take(judge, bytes, *size, sink) == *taken,
        Step::Has(parsers) => judge.parsers() == *parsers,
        Step::Ends(bep) => judge.ended().bep == *bep,
        Step::Stands => judge.refusal().is_none(),
        Step::Gave(calls) => sink.calls == *calls,
        Step::Frees(count) => judge.free() == *count,
        Step::Passes(count) => *count <= judge.free() && judge.pass(*count, sink) == Ok(()),
    }
}

/// Takes the steps over a sink that fails at this call.
fn go(
    rt: &impl Abort,
    alloc: Global,
    fails_at: Option<u64>,
    steps: &[Step],
) -> Result<(), AllocError> {
    let mut judge = new_judge(alloc)?;
    let mut sink = sink_of(alloc, fails_at);
    for (number, step) in steps.iter().enumerate() {
        assert!(rt; goes(&mut judge, &mut sink, step), "at {number}");
    }
    Ok(())
}

const STANDING: &[Step] = &[
    Step::Takes(HAND, 68, Ok(())),
    Step::Takes(b"\0\0\0\x05\x04\0\0\0\x01\0\0\0\x03", 5, Ok(())),
    Step::Has(1),
    Step::Takes(b"\x05", 5, Ok(())),
    Step::Has(2),
    Step::Ends(Ended::Refused(Refusal {
        message: 2,
        at: 81,
        reason: Reason::Late,
    })),
    Step::Stands,
];

/// A refusal by the strict rules stands from its byte on; then there is a parser for each rule set.
#[test]
fn standing(rt: HostRuntime) -> Result<(), AllocError> {
    go(&rt, rt.alloc(), None, STANDING)
}

const A_FAULT: &[Step] = &[
    Step::Takes(HAND, 7, Ok(())),
    Step::Takes(
        b"\0\0\0\0\0\0\0\0",
        7,
        Err(JudgeFault::Sink(SinkFault::Write)),
    ),
    Step::Gave(2),
];

/// A fault of the sink is returned at once.
#[test]
fn a_fault(rt: HostRuntime) -> Result<(), AllocError> {
    go(&rt, rt.alloc(), Some(2), A_FAULT)
}

/// The first 12 bytes of `piece` 1 0 with a block of 9,000 bytes.
const A_PIECE: &[u8] = b"\0\0\x23\x31\x07\0\0\0\x01\0\0\0";

const HOLES: &[Step] = &[
    Step::Frees(0),
    Step::Takes(HAND, 68, Ok(())),
    Step::Takes(A_PIECE, 5, Ok(())),
    Step::Frees(0),
    Step::Takes(b"\0abc", 4, Ok(())),
    Step::Frees(8_997),
    Step::Passes(5_000),
    Step::Takes(b"def", 3, Ok(())),
    Step::Frees(3_994),
    Step::Passes(0),
    Step::Gave(1),
    Step::Passes(3_994),
    Step::Gave(2),
    Step::Frees(0),
    Step::Ends(Ended::Accepted {
        messages: 1,
        bytes: 9_081,
    }),
    // have 9, which both rule sets refuse
    Step::Takes(b"\0\0\0\x05\x04\0\0\0\x09", 9, Ok(())),
    Step::Frees(usize::MAX),
    Step::Passes(usize::MAX),
    Step::Gave(2),
];

/// Missing bytes of a block, and all after a refusal, are passed over.
#[test]
fn holes(rt: HostRuntime) -> Result<(), AllocError> {
    go(&rt, rt.alloc(), None, HOLES)
}
