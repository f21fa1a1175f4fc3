//! Events of two sides with the remarks that they get. All values are by hand.
use bt_remarks::{
    Block, Ending, Event, Found, Heard, Matcher, Remarks, Request, Side, Tally, Unanswered,
};
use std::process::Abort;
use std::test::Fail;

const NO: Remarks = Remarks {
    unasked: false,
    choked: false,
    again: false,
    elsewhere: false,
};

const UNASKED: Remarks = Remarks {
    unasked: true,
    choked: false,
    again: false,
    elsewhere: false,
};

const CHOKED: Remarks = Remarks {
    unasked: false,
    choked: true,
    again: false,
    elsewhere: false,
};

const AGAIN: Remarks = Remarks {
    unasked: false,
    choked: false,
    again: true,
    elsewhere: false,
};

const ELSEWHERE: Remarks = Remarks {
    unasked: false,
    choked: false,
    again: false,
    elsewhere: true,
};

/// How a connection ends whose last bytes are known.
const OPEN: Ending = Ending {
    closed_first: false,
    stopped: false,
};

#[derive(Clone, Copy)]
struct Row<'a> {
    side: Side,
    event: Event<'a>,
    known: bool,
    remarks: Remarks,
}

fn known(side: Side, event: Event<'_>, remarks: Remarks) -> Row<'_> {
    Row {
        side,
        event,
        known: true,
        remarks,
    }
}

fn unknown(side: Side, event: Event<'_>, remarks: Remarks) -> Row<'_> {
    Row {
        side,
        event,
        known: false,
        remarks,
    }
}

fn block(index: u32, begin: u32, length: u32) -> Block {
    Block {
        index,
        begin,
        length,
    }
}

fn found(count: u64, first: u64) -> Found {
    Found {
        count,
        first: Some(first),
    }
}

fn unanswered(count: u64, mark: u64, block: Block) -> Unanswered {
    Unanswered {
        count,
        first: Some(Request { mark, block }),
    }
}

/// The handshakes of two sides that have the Fast Extension.
const BOTH_FAST: [Row<'static>; 2] = [
    Row {
        side: Side::A,
        event: Event::Handshake { fast: true },
        known: true,
        remarks: NO,
    },
    Row {
        side: Side::B,
        event: Event::Handshake { fast: true },
        known: true,
        remarks: NO,
    },
];

/// Takes the rows' events, whose marks are their numbers from 0 on, and compares the remarks.
fn check(rt: &impl Abort, matcher: &mut Matcher, rows: &[Row]) -> Result<(), Fail> {
    for (mark, row) in rows.iter().enumerate() {
        let heard = Heard {
            side: row.side,
            event: row.event,
            known: row.known,
            mark: mark as u64,
        };
        assert_eq!(rt; matcher.take(&heard)?, row.remarks, "at {mark}");
    }
    Ok(())
}

/// Each remark, and each reason why an event has none.
#[test]
fn remarks_on_known_events(rt: HostRuntime) -> Result<(), Fail> {
    let mut matcher = Matcher::new(rt.alloc());
    let rows = [
        known(Side::A, Event::Request(block(0, 0, 16384)), CHOKED),
        known(Side::B, Event::AllowedFast(0), NO),
        known(Side::A, Event::Request(block(0, 0, 16384)), AGAIN),
        known(Side::B, Event::Piece(block(0, 0, 16383)), UNASKED),
        known(Side::B, Event::Piece(block(0, 0, 16384)), NO),
        known(Side::B, Event::Reject(block(0, 0, 16384)), UNASKED),
        known(Side::A, Event::Unchoke, NO),
        known(Side::A, Event::Request(block(1, 0, 16384)), CHOKED),
        known(Side::B, Event::Unchoke, NO),
        known(Side::A, Event::Request(block(1, 16384, 16384)), NO),
        known(Side::A, Event::Choke, NO),
        known(Side::A, Event::Request(block(2, 0, 16384)), NO),
        known(Side::B, Event::Request(block(3, 0, 16384)), CHOKED),
        known(Side::A, Event::Reject(block(3, 0, 16384)), NO),
        known(Side::A, Event::Piece(block(3, 16384, 16384)), UNASKED),
        known(Side::B, Event::Have(3), NO),
        known(Side::B, Event::Have(8), ELSEWHERE),
        known(Side::B, Event::Have(8), NO),
        known(Side::B, Event::Bitfield(b"\x81"), NO),
        known(Side::B, Event::Have(7), NO),
        known(Side::B, Event::Have(1), ELSEWHERE),
        known(Side::B, Event::Have(0x80_0000), NO),
        known(Side::B, Event::HaveAll, NO),
        known(Side::B, Event::Have(9), NO),
        known(Side::B, Event::Piece(block(2, 0, 16384)), NO),
        known(Side::A, Event::MetadataRequest(0), NO),
        known(Side::A, Event::MetadataRequest(0), AGAIN),
        known(Side::B, Event::MetadataAnswer(0), NO),
        known(Side::B, Event::MetadataAnswer(0), UNASKED),
        known(Side::A, Event::Request(block(5, 0, 16384)), NO),
        known(Side::A, Event::Other, NO),
    ];
    check(&rt, &mut matcher, &BOTH_FAST)?;
    check(&rt, &mut matcher, &rows)?;
    let of_a = Tally {
        unasked: found(1, 14),
        choked: found(2, 0),
        again: found(2, 2),
        elsewhere: Found::NOTHING,
    };
    let of_b = Tally {
        unasked: found(3, 3),
        choked: found(1, 12),
        again: Found::NOTHING,
        elsewhere: found(2, 16),
    };
    assert_eq!(&rt; matcher.tally(Side::A), of_a);
    assert_eq!(&rt; matcher.tally(Side::B), of_b);
    let closed = Ending {
        closed_first: true,
        stopped: false,
    };
    let stopped = Ending {
        closed_first: true,
        stopped: true,
    };
    assert_eq!(&rt;
        matcher.unanswered(Side::A, OPEN),
        unanswered(2, 7, block(1, 0, 16384))
    );
    assert_eq!(&rt;
        matcher.unanswered(Side::A, closed),
        unanswered(3, 7, block(1, 0, 16384))
    );
    assert_eq!(&rt; matcher.unanswered(Side::A, stopped), Unanswered::NOTHING);
    assert_eq!(&rt; matcher.unanswered(Side::B, closed), Unanswered::NOTHING);
    Ok(())
}

/// Without knowledge of the other side no event has a remark, and nothing is named.
#[test]
fn remarks_on_unknown_events(rt: HostRuntime) -> Result<(), Fail> {
    let mut matcher = Matcher::new(rt.alloc());
    let rows = [
        unknown(Side::A, Event::Request(block(0, 0, 16384)), NO),
        unknown(Side::A, Event::Request(block(0, 0, 16384)), NO),
        unknown(Side::B, Event::Piece(block(1, 0, 16384)), NO),
        unknown(Side::B, Event::Have(4), NO),
        unknown(Side::B, Event::Bitfield(b"\xff"), NO),
        unknown(Side::B, Event::HaveAll, NO),
        known(Side::B, Event::Have(4), ELSEWHERE),
        known(Side::B, Event::Piece(block(0, 0, 16384)), NO),
        known(Side::A, Event::Have(1), NO),
    ];
    check(&rt, &mut matcher, &BOTH_FAST)?;
    check(&rt, &mut matcher, &rows)?;
    Ok(())
}

/// A choke leaves the requests before it without an answer.
#[test]
fn chokes_without_a_reject(rt: HostRuntime) -> Result<(), Fail> {
    let mut matcher = Matcher::new(rt.alloc());
    let rows = [
        known(Side::B, Event::Unchoke, NO),
        known(Side::A, Event::Request(block(0, 0, 1)), NO),
        known(Side::B, Event::Choke, NO),
        known(Side::A, Event::Request(block(0, 1, 1)), CHOKED),
    ];
    check(&rt, &mut matcher, &rows)?;
    assert_eq!(&rt;
        matcher.unanswered(Side::A, OPEN),
        unanswered(1, 1, block(0, 0, 1))
    );
    Ok(())
}

/// Unless both sides have the Fast Extension, a choke drops requests, and a cancel its own. Their blocks may still come.
#[test]
fn drops_requests(rt: HostRuntime) -> Result<(), Fail> {
    let mut matcher = Matcher::new(rt.alloc());
    let asked = Event::Request(block(0, 0, 16));
    let rows = [
        known(Side::A, Event::Handshake { fast: true }, NO),
        known(Side::B, Event::Handshake { fast: false }, NO),
        known(Side::B, Event::Unchoke, NO),
        known(Side::A, asked, NO),
        known(Side::A, Event::Cancel(block(0, 0, 17)), NO),
        known(Side::A, asked, AGAIN),
        known(Side::A, Event::Cancel(block(0, 0, 16)), NO),
        known(Side::A, asked, NO),
        known(Side::A, asked, AGAIN),
        known(Side::B, Event::Choke, NO),
        known(Side::A, asked, CHOKED),
        known(Side::B, Event::Unchoke, NO),
        known(Side::A, asked, NO),
        known(Side::B, Event::Unchoke, NO),
        known(Side::A, asked, AGAIN),
        known(Side::A, Event::Cancel(block(0, 0, 16)), NO),
        known(Side::B, Event::Piece(block(0, 0, 16)), NO),
        known(Side::B, Event::Piece(block(0, 0, 16)), UNASKED),
    ];
    check(&rt, &mut matcher, &rows)?;
    Ok(())
}

/// With the Fast Extension of both sides a request is open until its answer.
#[test]
fn keeps_requests_with_the_fast_extension(rt: HostRuntime) -> Result<(), Fail> {
    let mut matcher = Matcher::new(rt.alloc());
    let asked = Event::Request(block(0, 0, 16));
    let rows = [
        known(Side::B, Event::Unchoke, NO),
        known(Side::A, asked, NO),
        known(Side::A, Event::Cancel(block(0, 0, 16)), NO),
        known(Side::A, asked, AGAIN),
        known(Side::B, Event::Choke, NO),
        known(Side::B, Event::Unchoke, NO),
        known(Side::A, asked, AGAIN),
        known(Side::B, Event::Reject(block(0, 0, 16)), NO),
        known(Side::A, asked, NO),
    ];
    check(&rt, &mut matcher, &BOTH_FAST)?;
    check(&rt, &mut matcher, &rows)?;
    Ok(())
}

/// After 65,536 pending requests another one is too much.
#[test]
fn bounds_the_requests(rt: HostRuntime) -> Result<(), Fail> {
    let mut matcher = Matcher::new(rt.alloc());
    let answer = known(Side::B, Event::Reject(block(7, 1, 1)), UNASKED);
    for index in 0..65536u32 {
        let heard = Heard {
            side: Side::A,
            event: Event::Request(block(index, 0, 16384)),
            known: false,
            mark: 0,
        };
        assert_eq!(&rt; matcher.take(&heard)?, NO);
    }
    check(&rt, &mut matcher, &[answer])?;
    assert_eq!(&rt; matcher.has_overflowed(Side::A), false);
    let last = [
        unknown(Side::A, Event::Request(block(65536, 0, 16384)), NO),
        known(Side::B, Event::Reject(block(7, 1, 1)), NO),
        unknown(Side::A, Event::Request(block(65536, 0, 16384)), NO),
    ];
    check(&rt, &mut matcher, &last)?;
    assert_eq!(&rt; matcher.has_overflowed(Side::A), true);
    assert_eq!(&rt; matcher.has_overflowed(Side::B), false);
    let closed = Ending {
        closed_first: true,
        stopped: false,
    };
    assert_eq!(&rt; matcher.unanswered(Side::A, closed), Unanswered::NOTHING);
    Ok(())
}
