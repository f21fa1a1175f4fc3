//! A connection of uTP, packet by packet, and the segments that its packets are turned into.
use bt_order::{Came, Kind, Link, Turned};
use std::alloc::{AllocError, Global};
use std::test::Fail;

/// How many bytes may be held.
const ROOM: usize = 1000;

/// A packet, and what it is turned into.
#[derive(Clone, Copy)]
struct Row<'a> {
    came: Came<'a>,
    turned: Turned,
    bytes: &'a [u8],
}

/// A packet whose payload was captured whole.
fn came(is_initiator: bool, kind: Kind, number: u16, acked: u16, bytes: &[u8]) -> Came<'_> {
    Came {
        is_initiator,
        kind,
        number,
        acked,
        bytes,
        size: bytes.len(),
    }
}

/// A segment without flags.
fn plain(sequence: u32, acked: Option<u32>) -> Turned {
    Turned {
        sequence,
        acked,
        is_syn: false,
        is_fin: false,
        is_reset: false,
        is_missing: false,
    }
}

/// A segment with the flag SYN.
fn syn(sequence: u32, acked: Option<u32>) -> Turned {
    let mut turned = plain(sequence, acked);
    turned.is_syn = true;
    turned
}

/// A segment with the flag FIN.
fn fin(sequence: u32, acked: Option<u32>) -> Turned {
    let mut turned = plain(sequence, acked);
    turned.is_fin = true;
    turned
}

/// A segment with the flag RST.
fn reset(sequence: u32) -> Turned {
    let mut turned = plain(sequence, None);
    turned.is_reset = true;
    turned
}

/// A segment after whose payload a byte is missing.
fn missing(sequence: u32, acked: Option<u32>) -> Turned {
    let mut turned = plain(sequence, acked);
    turned.is_missing = true;
    turned
}

/// Returns a row.
fn step<'a>(came: Came<'a>, turned: Turned, bytes: &'a [u8]) -> Row<'a> {
    Row {
        came,
        turned,
        bytes,
    }
}

/// Tells whether a packet is turned into what its row says.
fn turns(
    link: &mut Link,
    row: &Row<'_>,
    room: usize,
    out: &mut Vec<u8>,
) -> Result<bool, AllocError> {
    out.clear();
    let turned = link.turn(&row.came, room, out)?;
    Ok(turned == row.turned && out.as_slice() == row.bytes)
}

/// Tells whether the packets after a SYN with the number 100 are turned into what their rows say, and whether the connection is over then.
fn all_turn(
    alloc: Global,
    rows: &[Row<'_>],
    room: usize,
    is_over: bool,
) -> Result<bool, AllocError> {
    let mut link = Link::new(alloc, 100);
    let mut out = Vec::new(alloc);
    for row in rows {
        if !turns(&mut link, row, room, &mut out)? {
            return Ok(false);
        }
    }
    Ok(link.is_over() == is_over)
}

/// The answer to the SYN has the number of the acceptor's first ST_DATA, as in the diagram of BEP 29. Both sides end.
#[test]
fn by_the_diagram(rt: HostRuntime) -> Result<(), Fail> {
    let rows = [
        step(came(true, Kind::Syn, 100, 0, b""), syn(100, None), b""),
        step(
            came(false, Kind::State, 500, 100, b""),
            syn(0, Some(101)),
            b"",
        ),
        step(
            came(true, Kind::Data, 101, 499, b"abc"),
            plain(101, Some(1)),
            b"abc",
        ),
        step(
            came(false, Kind::Data, 500, 101, b"xy"),
            plain(1, Some(104)),
            b"xy",
        ),
        step(
            came(true, Kind::State, 102, 500, b""),
            plain(104, Some(3)),
            b"",
        ),
        step(
            came(false, Kind::Fin, 501, 101, b""),
            fin(3, Some(104)),
            b"",
        ),
        step(came(true, Kind::Fin, 102, 501, b""), fin(104, Some(4)), b""),
    ];
    assert!(rt; all_turn(rt.alloc(), &rows, ROOM, true)?);
    Ok(())
}

/// By the letter of BEP 29 the answer counts as a packet: the first ST_DATA of the acceptor has the next number.
#[test]
fn by_the_letter(rt: HostRuntime) -> Result<(), Fail> {
    let rows = [
        step(
            came(false, Kind::State, 500, 100, b""),
            syn(0, Some(101)),
            b"",
        ),
        step(
            came(true, Kind::Data, 101, 500, b"abc"),
            plain(101, Some(1)),
            b"abc",
        ),
        step(
            came(false, Kind::Data, 501, 101, b"xy"),
            plain(1, Some(104)),
            b"xy",
        ),
    ];
    assert!(rt; all_turn(rt.alloc(), &rows, ROOM, false)?);
    Ok(())
}

/// A packet of the acceptor whose first number isn't known isn't taken.
#[test]
fn before_its_numbers(rt: HostRuntime) -> Result<(), Fail> {
    let rows = [
        step(
            came(false, Kind::Data, 500, 100, b"xy"),
            missing(1, Some(101)),
            b"",
        ),
        step(
            came(true, Kind::State, 101, 500, b""),
            plain(101, None),
            b"",
        ),
        step(
            came(true, Kind::Data, 101, 499, b"abc"),
            plain(101, Some(1)),
            b"abc",
        ),
        step(
            came(false, Kind::Data, 500, 101, b"xy"),
            plain(1, Some(104)),
            b"xy",
        ),
    ];
    assert!(rt; all_turn(rt.alloc(), &rows, ROOM, false)?);
    Ok(())
}

/// An early packet is held, and a repeated one changes nothing. The first copy counts.
#[test]
fn early_and_repeated(rt: HostRuntime) -> Result<(), Fail> {
    let rows = [
        step(
            came(true, Kind::Data, 102, 499, b"de"),
            missing(101, None),
            b"",
        ),
        step(
            came(true, Kind::Data, 102, 499, b"??"),
            missing(101, None),
            b"",
        ),
        step(
            came(true, Kind::Data, 104, 499, b"g"),
            missing(101, None),
            b"",
        ),
        step(
            came(true, Kind::Data, 101, 499, b"abc"),
            missing(101, Some(1)),
            b"abcde",
        ),
        step(
            came(true, Kind::Data, 101, 499, b"abc"),
            missing(106, Some(1)),
            b"",
        ),
        step(
            came(true, Kind::Fin, 103, 499, b"f"),
            fin(106, Some(1)),
            b"f",
        ),
        step(
            came(true, Kind::Data, 104, 499, b"g"),
            plain(107, Some(1)),
            b"",
        ),
    ];
    assert!(rt; all_turn(rt.alloc(), &rows, ROOM, false)?);
    Ok(())
}

/// A number that is 4,096 after the awaited one makes the gap final, and one less doesn't.
#[test]
fn out_of_reach(rt: HostRuntime) -> Result<(), Fail> {
    let rows = [
        step(
            came(true, Kind::Data, 4196, 499, b"z"),
            missing(101, None),
            b"",
        ),
        step(
            came(true, Kind::Data, 101, 499, b"abc"),
            missing(101, Some(1)),
            b"abc",
        ),
        step(
            came(true, Kind::Data, 4198, 499, b"z"),
            missing(104, Some(1)),
            b"",
        ),
        step(
            came(true, Kind::Data, 102, 499, b"de"),
            missing(104, Some(1)),
            b"",
        ),
    ];
    assert!(rt; all_turn(rt.alloc(), &rows, ROOM, false)?);
    Ok(())
}

/// A packet for which there is no room counts as one that wasn't captured.
#[test]
fn without_room(rt: HostRuntime) -> Result<(), Fail> {
    let rows = [
        step(
            came(true, Kind::Data, 102, 499, b"de"),
            missing(101, None),
            b"",
        ),
        step(
            came(true, Kind::Data, 101, 499, b"abc"),
            plain(101, Some(1)),
            b"abc",
        ),
        step(
            came(true, Kind::Data, 102, 499, b"de"),
            plain(104, Some(1)),
            b"de",
        ),
    ];
    assert!(rt; all_turn(rt.alloc(), &rows, 65, false)?);
    Ok(())
}

/// A payload that the capture cut gives its bytes, and the gap after it is final.
#[test]
fn cut(rt: HostRuntime) -> Result<(), Fail> {
    let mut cut = came(true, Kind::Data, 101, 499, b"ab");
    cut.size = 5;
    let rows = [
        step(cut, missing(101, Some(1)), b"ab"),
        step(
            came(true, Kind::Data, 102, 499, b"c"),
            missing(103, Some(1)),
            b"",
        ),
    ];
    assert!(rt; all_turn(rt.alloc(), &rows, ROOM, false)?);
    Ok(())
}

/// An ST_STATE has the number that is sent next, and an acknowledgment may be ahead of what was captured. A RESET ends the connection.
#[test]
fn states_and_reset(rt: HostRuntime) -> Result<(), Fail> {
    let rows = [
        step(
            came(false, Kind::State, 500, 100, b""),
            syn(0, Some(101)),
            b"",
        ),
        step(
            came(false, Kind::State, 500, 100, b""),
            plain(1, Some(101)),
            b"",
        ),
        step(
            came(false, Kind::State, 500, 103, b""),
            plain(1, Some(104)),
            b"",
        ),
        step(
            came(true, Kind::State, 104, 499, b""),
            missing(101, Some(1)),
            b"",
        ),
        step(came(false, Kind::Reset, 7, 0, b""), reset(1), b""),
    ];
    assert!(rt; all_turn(rt.alloc(), &rows, ROOM, true)?);
    Ok(())
}
