//! A capture file from its bytes to the report of its connection.
use bt_capture::{CaptureEnd, CaptureJob, Choice, Ending, Tally, UnreadPackets, run_capture};
use bt_io::{MemSource, MemTarget};
use bt_pcap::FileFault;
use bt_remarks::Side;
use bt_talk::Terms;
use bt_text::ended::ToolFault;
use std::alloc::AllocError;
use std::hash::RandomState;
use std::test::Fail;

/// A connection with a handshake in each direction, and a have of piece 9.
const FILE: &[u8] = b"\xd4\xc3\xb2\xa1\x02\0\x04\0\0\0\0\0\0\0\0\0\xff\xff\0\0e\0\0\0\
    \x01\0\0\0\0\0\0\0(\0\0\0(\0\0\0E\0\0(\0\x01\0\0@\x06\0\0\x0a\0\0\x01\x0a\0\0\x02\
    \x03\xe8\x1a\xe1\0\0\0d\0\0\0\0P\x02\x03\xe8\0\0\0\0\
    \x01\0\0\0\xe8\x03\0\0(\0\0\0(\0\0\0E\0\0(\0\x01\0\0@\x06\0\0\x0a\0\0\x02\x0a\0\0\x01\
    \x1a\xe1\x03\xe8\0\0\x01\xf4\0\0\0eP\x12\x03\xe8\0\0\0\0\
    \x01\0\0\0\xd0\x07\0\0l\0\0\0l\0\0\0E\0\0l\0\x01\0\0@\x06\0\0\x0a\0\0\x01\x0a\0\0\x02\
    \x03\xe8\x1a\xe1\0\0\0e\0\0\x01\xf5P\x18\x03\xe8\0\0\0\0\x13BitTorrent protocol\0\0\0\0\0\0\0\0\
    \0\x01\x02\x03\x04\x05\x06\x07\x08\x09\x0a\x0b\x0c\x0d\x0e\x0f\x10\x11\x12\x13-AA0001-aaaaaaaaaaaa\
    \x01\0\0\0\xb8\x0b\0\0l\0\0\0l\0\0\0E\0\0l\0\x01\0\0@\x06\0\0\x0a\0\0\x02\x0a\0\0\x01\
    \x1a\xe1\x03\xe8\0\0\x01\xf5\0\0\0\xa9P\x18\x03\xe8\0\0\0\0\x13BitTorrent protocol\0\0\0\0\0\0\0\0\
    \0\x01\x02\x03\x04\x05\x06\x07\x08\x09\x0a\x0b\x0c\x0d\x0e\x0f\x10\x11\x12\x13-BB0001-bbbbbbbbbbbb\
    \x01\0\0\0\xa0\x0f\0\01\0\0\01\0\0\0E\0\01\0\x01\0\0@\x06\0\0\x0a\0\0\x01\x0a\0\0\x02\
    \x03\xe8\x1a\xe1\0\0\0\xa9\0\0\x029P\x18\x03\xe8\0\0\0\0\0\0\0\x05\x04\0\0\0\x09";

/// Its last packet.
const AGAIN: &[u8] =
    b"\x01\0\0\0\xa0\x0f\0\01\0\0\01\0\0\0E\0\01\0\x01\0\0@\x06\0\0\x0a\0\0\x01\x0a\0\0\x02\
    \x03\xe8\x1a\xe1\0\0\0\xa9\0\0\x029P\x18\x03\xe8\0\0\0\0\0\0\0\x05\x04\0\0\0\x09";

/// The report if the torrent has four pieces, without its last line.
const FOUR: &[u8] = b"connection 0  A 10.0.0.1:1000 > B 10.0.0.2:6881\n\
\x20 A -AA0001-aaaaaaaaaaaa\n\
\x20   free refused message=1 at=73 BadIndex\n\
\x20   bep  refused message=1 at=73 BadIndex\n\
\x20   why  The have message names piece 9, and the torrent has 4 pieces, so the last index is 3.\n\
\x20   options --reserved 0000000000000000 --metadata-id 0 --pieces 4\n\
\x20 B -BB0001-bbbbbbbbbbbb\n\
\x20   free ok messages=0 bytes=68\n\
\x20   bep  ok messages=0 bytes=68\n\
\x20   options --reserved 0000000000000000 --metadata-id 0 --pieces 4\n";

/// Its last line if the connection is open when the capture ends.
const STILL: &[u8] = b"  still open at the capture's end\n";

/// Its last line if there are too many connections.
const UNREAD: &[u8] = b"  not read further: too many connections at once\n";

/// The rows before it: each handshake once both are there, and the refusal at its packet.
const ROWS: &[u8] =
    b"0     0.002000 A 0 handshake 0000000000000000 000102030405060708090a0b0c0d0e0f10111213 \
2d4141303030312d616161616161616161616161\n\
0     0.003000 B 0 handshake 0000000000000000 000102030405060708090a0b0c0d0e0f10111213 \
2d4242303030312d626262626262626262626262\n\
0     0.004000 A 73 refused message=1 at=73 BadIndex\n";

/// What side A sends.
const SENT_BY_A: &[u8] = b"\x13BitTorrent protocol\0\0\0\0\0\0\0\0\
    \0\x01\x02\x03\x04\x05\x06\x07\x08\x09\x0a\x0b\x0c\x0d\x0e\x0f\x10\x11\x12\x13-AA0001-aaaaaaaaaaaa\
    \0\0\0\x05\x04\0\0\0\x09";

/// What side B sends.
const SENT_BY_B: &[u8] = b"\x13BitTorrent protocol\0\0\0\0\0\0\0\0\
    \0\x01\x02\x03\x04\x05\x06\x07\x08\x09\x0a\x0b\x0c\x0d\x0e\x0f\x10\x11\x12\x13-BB0001-bbbbbbbbbbbb";

/// How many connections there may be.
const MOST: u32 = 16_384;

/// How a run ends over a source that gives `most` bytes a call, and what it writes.
fn run(
    rt: &HostRuntime,
    file: Vec<u8>,
    most: usize,
    show: bool,
) -> (Result<CaptureEnd, ToolFault>, MemTarget) {
    run_for(rt, file, most, show, None)
}

/// As `run`; `stream` is the connection's number and the side whose stream is asked for.
fn run_for(
    rt: &HostRuntime,
    file: Vec<u8>,
    most: usize,
    show: bool,
    stream: Option<(u64, Side)>,
) -> (Result<CaptureEnd, ToolFault>, MemTarget) {
    let mut reader = MemSource::new(file, most.max(1), None);
    let mut writer = MemTarget::new(Vec::new(rt.alloc()), 4_096, None);
    let job = CaptureJob {
        terms: Terms {
            limit: 262_144,
            pieces: Some(4),
            torrent: None,
        },
        show,
        json: false,
        stream,
        choice: Choice::ALL,
    };
    let Ok(keys) = RandomState::new(rt) else {
        return (Err(ToolFault::Turns), writer);
    };
    let end = run_capture(rt.alloc(), keys, &mut reader, &mut writer, &job);
    (end, writer)
}

/// What follows the report in a text; nothing if it doesn't begin with that.
fn after_report(text: &[u8]) -> &[u8] {
    match text.strip_prefix(FOUR) {
        Some(rest) => rest,
        None => b"",
    }
}

/// No packet of a kind that isn't read.
const NONE: Tally = Tally {
    kind: None,
    count: 0,
    others: 0,
};

const ALL_READ: UnreadPackets = UnreadPackets {
    link_types: NONE,
    ether_types: NONE,
    fragments: 0,
};

/// Whether a run reports the refusal.
fn is_reported(end: &Result<CaptureEnd, ToolFault>, text: &[u8]) -> bool {
    *end == Ok(CaptureEnd {
        packets: 5,
        skipped: 0,
        unread_packets: ALL_READ,
        torrents: 1,
        lost: 0,
        is_refused: true,
        is_partial: false,
        ending: Ending::Whole,
        absent: None,
        unread: 0,
        early: 0,
    }) && after_report(text) == STILL
}

#[test]
fn a_have_out_of_range(rt: HostRuntime) -> Result<(), Fail> {
    let mut right = true;
    for most in [1, 7, 65_536] {
        let (end, writer) = run(&rt, Vec::from_slice(rt.alloc(), FILE)?, most, false);
        right = right && is_reported(&end, writer.bytes());
    }
    assert!(rt; right);
    Ok(())
}

/// The head of a packet of A without data.
const RESET: &[u8] =
    b"\x01\0\0\0\x88\x13\0\0(\0\0\0(\0\0\0E\0\0(\0\x01\0\0@\x06\0\0\x0a\0\0\x01\x0a\0\0\x02\
    \x03\xe8\x1a\xe1";

/// The line of the report on one segment that is passed over.
const OUTSIDE: &[u8] = b"    1 segment outside the window\n";

/// Whether a text reports that a RST closed the connection, or that it was passed over.
fn is_told(text: &[u8], is_close: bool) -> bool {
    if is_close {
        return after_report(text).starts_with(b"  A closed first, by RST, at 0.005000 s\n");
    }
    let more = OUTSIDE.len().saturating_add(STILL.len());
    text.ends_with(STILL) && text.len() == FOUR.len().saturating_add(more)
}

/// A RST of A closes the connection if it has A's next number. One that B can't expect next doesn't, also if it is a SYN.
#[test]
fn a_reset(rt: HostRuntime) -> Result<(), Fail> {
    let mut right = true;
    for (number, flags, is_close) in [
        (0xb2u32, 4u8, true),
        (0x8000_00b2, 4, false),
        (0xb3, 6, false),
        (0xa8, 4, false),
    ] {
        let mut file = Vec::from_slice(rt.alloc(), FILE)?;
        file.extend_from_slice(RESET)?;
        file.extend_from_slice(&number.to_be_bytes())?;
        file.extend_from_slice(&[0, 0, 0, 0, 0x50, flags, 3, 0xe8, 0, 0, 0, 0])?;
        let (_, writer) = run(&rt, file, 65_536, false);
        right = right && is_told(writer.bytes(), is_close);
    }
    assert!(rt; right);
    Ok(())
}

/// Where a record's length is impossible, what was read before it is told, and the end says so; where the file is cut, too.
#[test]
fn another_ending(rt: HostRuntime) -> Result<(), Fail> {
    let mut right = true;
    for (more, ending) in [
        (
            b"\0\0\0\0\0\0\0\0\xff\xff\xff\xff\xff\xff\xff\xff".as_slice(),
            Ending::Broken(FileFault::RecordLength),
        ),
        (b"\0\0".as_slice(), Ending::Cut),
    ] {
        let mut file = Vec::from_slice(rt.alloc(), FILE)?;
        file.extend_from_slice(more)?;
        let (end, writer) = run_for(&rt, file, 7, false, Some((1, Side::A)));
        let found = end.map(|end| (end.packets, end.torrents, end.ending, end.absent));
        right = right && found == Ok((5, 1, ending, Some(1))) && writer.bytes().is_empty();
    }
    assert!(rt; right);
    Ok(())
}

/// Only the bytes of the stream that is asked for are written; if no connection has its number, nothing.
#[test]
fn a_stream(rt: HostRuntime) -> Result<(), Fail> {
    let mut right = true;
    for (stream, sent, absent) in [
        ((0, Side::A), SENT_BY_A, None),
        ((0, Side::B), SENT_BY_B, None),
        ((1, Side::A), b"".as_slice(), Some(1)),
    ] {
        let file = Vec::from_slice(rt.alloc(), FILE)?;
        let (end, writer) = run_for(&rt, file, 7, false, Some(stream));
        let is_refused = end.map(|end| (end.is_refused, end.absent)) == Ok((true, absent));
        right = right && is_refused && writer.bytes() == sent;
    }
    assert!(rt; right);
    Ok(())
}

/// Appends a packet with a byte, of another connection for each number.
fn push_other(file: &mut Vec<u8>, k: u32) -> Result<(), AllocError> {
    file.extend_from_slice(b"\x01\0\0\0\xa0\x0f\0\0)\0\0\0)\0\0\0E\0\0)\0\x01\0\0@\x06\0\0")?;
    file.extend_from_slice(&(0x0b00_0000 | k).to_be_bytes())?;
    file.extend_from_slice(
        b"\x0a\0\0\x02\x03\xe8\x1a\xe1\0\0\0e\0\0\x01\xf5P\x18\x03\xe8\0\0\0\0x",
    )?;
    Ok(())
}

/// How many lines a text has.
fn count_lines(text: &[u8]) -> usize {
    text.iter().filter(|byte| **byte == b'\n').count()
}

/// The first connection is over when there are too many: what follows between its ends is another one.
#[test]
fn a_flood(rt: HostRuntime) -> Result<(), Fail> {
    let mut file = Vec::from_slice(rt.alloc(), FILE)?;
    for k in 0..MOST {
        push_other(&mut file, k)?;
    }
    file.extend_from_slice(AGAIN)?;
    let (end, writer) = run(&rt, file, 65_536, false);
    let all = Ok(CaptureEnd {
        packets: 16_390,
        skipped: 0,
        unread_packets: ALL_READ,
        torrents: 1,
        lost: 0,
        is_refused: true,
        is_partial: true,
        ending: Ending::Whole,
        absent: None,
        unread: 2,
        early: 0,
    });
    let text = writer.bytes();
    let lines = count_lines(FOUR).saturating_add(16_386);
    assert!(rt; end == all && after_report(text).starts_with(UNREAD) && count_lines(text) == lines);
    Ok(())
}

#[test]
fn a_have_shown(rt: HostRuntime) -> Result<(), Fail> {
    let (_, writer) = run(&rt, Vec::from_slice(rt.alloc(), FILE)?, 65_536, true);
    let right = match writer.bytes().strip_prefix(ROWS) {
        Some(report) => after_report(report) == STILL,
        None => false,
    };
    assert!(rt; right);
    Ok(())
}
