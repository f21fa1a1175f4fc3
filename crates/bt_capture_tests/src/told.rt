//! Reports and rows as text. The expected lines were worked out by hand and by another program, of the captures of the tests.
use crate::datagrams::{CLOSES, packets};
use bt_ext::{ExtId, Registered, Rules};
use bt_feed::View;
use bt_packet::{Address, Host};
use bt_remarks::{Remarks, Side};
use bt_report::{
    Before, Body, Closed, Direction, Finding, Judged, Left, Report, Sender, Title, Told,
};
use bt_rows::{
    Deed, Last, Means, Noted, Numbers, RefusedMessage, Remarked, Row, Said, Words, put_row,
};
use bt_tcp::{Gap, Gaps};
use bt_text::ended::Ended;
use bt_wire::{Handshake, MessageView, Own, Reason, Refusal, Reserved};
use std::test::Fail;

const NO_GAPS: Gaps = Gaps {
    first: None,
    count: 0,
    sum: 0,
};

pub(crate) const NO_REMARKS: Remarked = Remarked {
    unasked: None,
    choked: None,
    again: None,
    unanswered: None,
    elsewhere: None,
};

const HASH: [u8; 20] = *b"\xa9\x99>6G\x06\x81j\xba>%qxP\xc2l\x9c\xd0\xd8\x9d";

fn address(last: u8, port: u16) -> Address {
    Address {
        host: Host::V4([10, 0, 0, last]),
        port,
    }
}

/// The report of the first connection, from 10.0.0.1:51413 to 10.0.0.2:6881.
pub(crate) fn report(body: Body) -> Report {
    Report {
        number: 0,
        a: address(1, 51413),
        b: address(2, 6881),
        body,
    }
}

pub(crate) fn own(reserved: u64, metadata: u8, donthave: u8, pieces: Option<u32>) -> Own {
    Own {
        reserved: Reserved(reserved),
        info_hash: None,
        pieces,
        reg: Registered::preferring_metadata(ExtId::new(metadata), ExtId::new(donthave)),
        rules: Rules::Free,
        limit: 262_144,
    }
}

/// A direction with the same verdict under both rule sets.
pub(crate) fn known(title: Title, ended: Ended, receiver: Own) -> Direction {
    Direction {
        sender: Sender::Known(Judged {
            title,
            free: ended,
            bep: ended,
            free_message: None,
            bep_message: None,
            receiver,
            is_guessed: false,
        }),
        exchange: 0,
        conflicts: 0,
        strays: 0,
        gaps: NO_GAPS,
        is_final: false,
    }
}

fn accepted(messages: u64, bytes: u64) -> Ended {
    Ended::Accepted { messages, bytes }
}

fn refused(message: u64, at: u64, reason: Reason) -> Ended {
    Ended::Refused(Refusal {
        message,
        at,
        reason,
    })
}

fn said(offset: u64, name: bt_rows::Name, numbers: Numbers) -> Said {
    Said {
        offset,
        words: Words::Message(name, numbers),
    }
}

fn sent(sent: u64, last: Last) -> Option<Before> {
    Some(Before { sent, last })
}

/// The handshake of a peer with this id.
fn hello(id: &[u8; 20]) -> Last {
    Last::Item(Said {
        offset: 0,
        words: Words::Handshake(Handshake {
            reserved: Reserved(0x100005),
            info_hash: HASH,
            peer_id: *id,
        }),
    })
}

pub(crate) fn text_of(rt: &HostRuntime, report: &Report) -> Result<Vec<u8>, Fail> {
    let text = format!(in rt.alloc(); "{report}")?;
    Ok(text.into_bytes())
}

const A_ID: &[u8; 20] = b"-AA0001-000000000000";

const B_ID: &[u8; 20] = b"-BB0001-000000000000";

/// A report in which B has two gaps, and A closed.
pub(crate) fn with_gaps() -> Report {
    let a = known(
        Title::of_client(b"Transmission 3.00"),
        accepted(5, 278),
        own(0x100005, 2, 7, None),
    );
    let cut = refused(5, 1000, Reason::EndInside);
    let b = Direction {
        gaps: Gaps {
            first: Some(Gap {
                place: 1000,
                length: 1000,
            }),
            count: 2,
            sum: 2000,
        },
        ..known(
            Title::of_client(b"libtorrent/2.0.8.0"),
            cut,
            own(0x100004, 3, 0, None),
        )
    };
    let closed = Closed {
        first: Side::A,
        by: Means::Fin,
        at: 57_000_999,
        a: sent(
            278,
            Last::Item(said(247, bt_rows::Name::MetadataRequest, Numbers::One(1))),
        ),
        b: sent(
            25889,
            Last::Item(said(296, bt_rows::Name::Choke, Numbers::Zero)),
        ),
    };
    report(Body::Told(Told {
        a,
        b,
        closed: Some(closed),
        left: Left::Open,
        remarked_a: NO_REMARKS,
        remarked_b: NO_REMARKS,
    }))
}

#[test]
fn gaps(rt: HostRuntime) -> Result<(), Fail> {
    let out = text_of(&rt, &with_gaps())?;
    let wanted = b"connection 0  A 10.0.0.1:51413 > B 10.0.0.2:6881
  A Transmission 3.00
    free ok messages=5 bytes=278
    bep  ok messages=5 bytes=278
    options --reserved 0000000000100005 --metadata-id 2 --donthave-id 7
  B libtorrent/2.0.8.0
    gap at 1000: 1000 bytes aren't in the capture; 2 gaps, 2000 bytes in all
    free refused message=5 at=1000 EndInside (cut by the gap)
    bep  refused message=5 at=1000 EndInside (cut by the gap)
    options --reserved 0000000000100004 --metadata-id 3
  A closed first, by FIN, at 0.057000 s
    B had sent 25889 bytes, last read: 296 choke
    A had sent 278 bytes, last: 247 metadata-request 1
";
    assert_eq!(rt; out.as_slice(), wanted.as_slice());
    Ok(())
}

fn noted(count: u64, first: Said) -> Option<Noted> {
    Some(Noted { count, first })
}

/// A report in which both directions have remarks, and B closed.
pub(crate) fn with_remarks() -> Report {
    let name = bt_rows::Name::Request;
    let a = known(
        Title::PeerId(*A_ID),
        accepted(8, 176),
        own(0x100005, 0, 0, None),
    );
    let b = known(
        Title::PeerId(*B_ID),
        accepted(10, 163),
        own(0x100005, 0, 0, None),
    );
    let last = said(159, name, Numbers::Three(1, 2, 1));
    let choke = said(158, bt_rows::Name::Choke, Numbers::Zero);
    let closed = Closed {
        first: Side::B,
        by: Means::Fin,
        at: 23_000_000,
        a: sent(176, Last::Item(last)),
        b: sent(163, Last::Item(choke)),
    };
    let again = said(107, name, Numbers::Three(1, 0, 1));
    let remarked_a = Remarked {
        unasked: None,
        choked: noted(1, said(73, name, Numbers::Three(0, 0, 1))),
        again: noted(1, again),
        unanswered: noted(3, again),
        elsewhere: noted(1, said(150, bt_rows::Name::Have, Numbers::One(5))),
    };
    let block = said(102, bt_rows::Name::Piece, Numbers::Three(2, 0, 1));
    let remarked_b = Remarked {
        unasked: noted(2, block),
        elsewhere: noted(1, said(149, bt_rows::Name::Have, Numbers::One(3))),
        ..NO_REMARKS
    };
    let told = Told {
        a,
        b,
        closed: Some(closed),
        left: Left::Open,
        remarked_a,
        remarked_b,
    };
    report(Body::Told(told))
}

#[test]
fn remarks(rt: HostRuntime) -> Result<(), Fail> {
    let out = text_of(&rt, &with_remarks())?;
    let wanted = b"connection 0  A 10.0.0.1:51413 > B 10.0.0.2:6881
  A -AA0001-000000000000
    free ok messages=8 bytes=176
    bep  ok messages=8 bytes=176
    options --reserved 0000000000100005 --metadata-id 0
  B -BB0001-000000000000
    free ok messages=10 bytes=163
    bep  ok messages=10 bytes=163
    options --reserved 0000000000100005 --metadata-id 0
  B closed first, by FIN, at 0.023000 s
    A had sent 176 bytes, last: 159 request 1 2 1
    B had sent 163 bytes, last: 158 choke
  A sent a request while it was choked: 73 request 0 0 1
  A sent a request again before its answer: 107 request 1 0 1
  A sent 3 requests that got no answer, the first: 107 request 1 0 1
  A sent a have of a piece that never came here: 150 have 5
  B sent 2 answers that nobody asked for, the first: 102 piece 2 0 1
  B sent a have of a piece that never came here: 149 have 3
";
    assert_eq!(rt; out.as_slice(), wanted.as_slice());
    Ok(())
}

/// A report in which B's receiver is a guess, since A's start is lost.
pub(crate) fn with_a_guess() -> Report {
    let a = Direction {
        sender: Sender::Unknown(0),
        exchange: 0,
        conflicts: 0,
        strays: 1,
        gaps: Gaps {
            first: Some(Gap {
                place: 0,
                length: 278,
            }),
            count: 1,
            sum: 278,
        },
        is_final: false,
    };
    let b = Direction {
        sender: Sender::Known(Judged {
            title: Title::of_client(b"libtorrent/2.0.8.0"),
            free: accepted(6, 25889),
            bep: accepted(6, 25889),
            free_message: None,
            bep_message: None,
            receiver: own(0x100005, 0, 0, None),
            is_guessed: true,
        }),
        exchange: 0,
        conflicts: 2,
        strays: 3,
        gaps: NO_GAPS,
        is_final: false,
    };
    let last = said(16736, bt_rows::Name::Extended, Numbers::Two(3, 9147));
    let closed = Closed {
        first: Side::A,
        by: Means::Fin,
        at: 57_000_000,
        a: None,
        b: sent(25889, Last::Item(last)),
    };
    let told = Told {
        a,
        b,
        closed: Some(closed),
        left: Left::Open,
        remarked_a: NO_REMARKS,
        remarked_b: NO_REMARKS,
    };
    report(Body::Told(told))
}

#[test]
fn guessed(rt: HostRuntime) -> Result<(), Fail> {
    let out = text_of(&rt, &with_a_guess())?;
    let wanted = b"connection 0  A 10.0.0.1:51413 > B 10.0.0.2:6881
  A sent 0 bytes and no whole handshake
    1 segment outside the window
    gap at 0: 278 bytes aren't in the capture
  B libtorrent/2.0.8.0
    repeated with other bytes: 2; the first ones count
    3 segments outside the window
    free ok messages=6 bytes=25889
    bep  ok messages=6 bytes=25889
    options --reserved 0000000000100005 --metadata-id 0 (guessed: its receiver's handshake isn't there)
  A closed first, by FIN, at 0.057000 s
    B had sent 25889 bytes, last: 16736 extended 3 9147
";
    assert_eq!(rt; out.as_slice(), wanted.as_slice());
    Ok(())
}

/// Two directions of which A's ends inside a message.
fn cut(at: u64, pieces: Option<u32>) -> (Direction, Direction) {
    let ended = refused(2, at, Reason::EndInside);
    let a = known(Title::PeerId(*A_ID), ended, own(0x100005, 0, 0, pieces));
    let b = known(
        Title::PeerId(*B_ID),
        accepted(0, 68),
        own(0x100005, 0, 0, pieces),
    );
    (a, b)
}

/// How a connection that nobody closed was left: what cuts a message, and the line on that.
const LEFT: &[(Left, &[u8], &[u8])] = &[
    (
        Left::Open,
        b"cut by the capture's end",
        b"  still open at the capture's end\n",
    ),
    (
        Left::Unread,
        b"cut: not read further",
        b"  not read further: too many connections at once\n",
    ),
    (
        Left::Replaced,
        b"cut by a later connection",
        b"  not closed; a later connection has the same ports\n",
    ),
];

/// A key exchange comes first, and nobody closes.
#[test]
fn open(rt: HostRuntime) -> Result<(), Fail> {
    let front = b"connection 0  A 10.0.0.1:51413 > B 10.0.0.2:6881
  A -AA0001-000000000000
    handshake after 600 bytes of a key exchange; offsets count from it
    free refused message=2 at=75 EndInside (";
    let between = b")
    bep  refused message=2 at=75 EndInside (";
    let after = b")
    options --reserved 0000000000100005 --metadata-id 0
  B -BB0001-000000000000
    handshake after 500 bytes of a key exchange; offsets count from it
    free ok messages=0 bytes=68
    bep  ok messages=0 bytes=68
    options --reserved 0000000000100005 --metadata-id 0
";
    for (left, note, line) in LEFT {
        let (a, b) = cut(75, None);
        let told = Told {
            a: Direction { exchange: 600, ..a },
            b: Direction { exchange: 500, ..b },
            closed: None,
            left: *left,
            remarked_a: NO_REMARKS,
            remarked_b: NO_REMARKS,
        };
        let out = text_of(&rt, &report(Body::Told(told)))?;
        let mut wanted = Vec::from_slice(rt.alloc(), front)?;
        wanted.extend_from_slice(note)?;
        wanted.extend_from_slice(between)?;
        wanted.extend_from_slice(note)?;
        wanted.extend_from_slice(after)?;
        wanted.extend_from_slice(line)?;
        assert_eq!(rt; out.as_slice(), wanted.as_slice());
    }
    Ok(())
}

#[test]
fn cut_by_the_other(rt: HostRuntime) -> Result<(), Fail> {
    let (a, b) = cut(75, None);
    let last = said(68, bt_rows::Name::HaveNone, Numbers::Zero);
    let closed = Closed {
        first: Side::B,
        by: Means::Rst,
        at: 7_000_000,
        a: sent(75, Last::Item(last)),
        b: sent(68, hello(B_ID)),
    };
    let told = Told {
        a,
        b,
        closed: Some(closed),
        left: Left::Open,
        remarked_a: NO_REMARKS,
        remarked_b: NO_REMARKS,
    };
    let out = text_of(&rt, &report(Body::Told(told)))?;
    let wanted = b"connection 0  A 10.0.0.1:51413 > B 10.0.0.2:6881
  A -AA0001-000000000000
    free refused message=2 at=75 EndInside (cut by the close of the other end)
    bep  refused message=2 at=75 EndInside (cut by the close of the other end)
    options --reserved 0000000000100005 --metadata-id 0
  B -BB0001-000000000000
    free ok messages=0 bytes=68
    bep  ok messages=0 bytes=68
    options --reserved 0000000000100005 --metadata-id 0
  B closed first, by RST, at 0.007000 s
    A had sent 75 bytes, last: 68 have-none
    B had sent 68 bytes, last: 0 handshake 0000000000100005 a9993e364706816aba3e25717850c26c9cd0d89d 2d4242303030312d303030303030303030303030
";
    assert_eq!(rt; out.as_slice(), wanted.as_slice());
    Ok(())
}

/// A is refused, and a known count of pieces is an option. A gap limits what is accepted.
#[test]
fn refused_and_limited(rt: HostRuntime) -> Result<(), Fail> {
    let refusal = Refusal {
        message: 2,
        at: 78,
        reason: Reason::BadIndex,
    };
    let (_, b) = cut(75, Some(38));
    let a = known(
        Title::PeerId(*b"-AA0001- \x7f\x80000000000"),
        Ended::Refused(refusal),
        own(0x100005, 0, 0, Some(38)),
    );
    let closed = Closed {
        first: Side::B,
        by: Means::Fin,
        at: 1_009_000_000,
        a: sent(87, Last::Refused(refusal)),
        b: sent(0, Last::Nothing),
    };
    let told = Told {
        a,
        b: Direction {
            gaps: Gaps {
                first: Some(Gap {
                    place: 68,
                    length: 1,
                }),
                count: 1,
                sum: 1,
            },
            ..b
        },
        closed: Some(closed),
        left: Left::Open,
        remarked_a: NO_REMARKS,
        remarked_b: NO_REMARKS,
    };
    let out = text_of(&rt, &report(Body::Told(told)))?;
    let wanted = b"connection 0  A 10.0.0.1:51413 > B 10.0.0.2:6881
  A -AA0001-...000000000
    free refused message=2 at=78 BadIndex
    bep  refused message=2 at=78 BadIndex
    options --reserved 0000000000100005 --metadata-id 0 --pieces 38
  B -BB0001-000000000000
    gap at 68: 1 bytes aren't in the capture
    free ok messages=0 bytes=68 (up to the gap)
    bep  ok messages=0 bytes=68 (up to the gap)
    options --reserved 0000000000100005 --metadata-id 0 --pieces 38
  B closed first, by FIN, at 1.009000 s
    A had sent 87 bytes, last: refused message=2 at=78 BadIndex
    B had sent 0 bytes, last read: nothing
";
    assert_eq!(rt; out.as_slice(), wanted.as_slice());
    Ok(())
}

/// A refusal, and what is there of its message, which has these bytes from the offset `start` on.
pub(crate) fn bad(
    number: u64,
    reason: Reason,
    start: u64,
    bytes: &[u8],
    at: u64,
) -> (Ended, RefusedMessage) {
    let message = RefusedMessage::of(start, bytes, at);
    (refused(number, at, reason), message)
}

/// A direction with these refusals.
pub(crate) fn refused_twice(
    free: (Ended, RefusedMessage),
    bep: (Ended, RefusedMessage),
) -> Direction {
    Direction {
        sender: Sender::Known(Judged {
            title: Title::PeerId(*A_ID),
            free: free.0,
            bep: bep.0,
            free_message: Some(free.1),
            bep_message: Some(bep.1),
            receiver: own(0x100005, 0, 0, Some(38)),
            is_guessed: false,
        }),
        exchange: 0,
        conflicts: 0,
        strays: 0,
        gaps: NO_GAPS,
        is_final: false,
    }
}

/// A report on two directions, of which A closed first.
pub(crate) fn both(a: Direction, b: Direction) -> Report {
    let closed = Closed {
        first: Side::A,
        by: Means::Fin,
        at: 9_000_000,
        a: None,
        b: None,
    };
    report(Body::Told(Told {
        a,
        b,
        closed: Some(closed),
        left: Left::Open,
        remarked_a: NO_REMARKS,
        remarked_b: NO_REMARKS,
    }))
}

/// Each rule set refuses another message.
#[test]
fn why(rt: HostRuntime) -> Result<(), Fail> {
    let index = bad(2, Reason::BadIndex, 73, b"\0\0\0\x05\x04\0\0\0\x26", 78);
    let missing = bad(1, Reason::Missing, 68, b"\0\0\0\x01\x02", 72);
    let long = bad(2, Reason::TooLong, 73, b"\0\x04\0\x01", 73);
    let unknown = bad(1, Reason::UnknownId, 68, b"\0\0\0\x01\x1e", 72);
    let out = text_of(
        &rt,
        &both(refused_twice(index, missing), refused_twice(long, unknown)),
    )?;
    let wanted = b"connection 0  A 10.0.0.1:51413 > B 10.0.0.2:6881
  A -AA0001-000000000000
    free refused message=2 at=78 BadIndex
    why  The have message names piece 38, and the torrent has 38 pieces, so the last index is 37.
    bep  refused message=1 at=72 Missing
    why  Both peers have the Fast Extension, so a bitfield, have all or have none has to come first, and interested came.
    options --reserved 0000000000100005 --metadata-id 0 --pieces 38
  B -AA0001-000000000000
    free refused message=2 at=73 TooLong
    why  The message has the length 262145, and the receiver takes at most 262144.
    bep  refused message=1 at=72 UnknownId
    why  The message has the id 30, and BEP 3, 5, 6 and 10 have no such id.
    options --reserved 0000000000100005 --metadata-id 0 --pieces 38
  A closed first, by FIN, at 0.009000 s
";
    assert_eq!(rt; out.as_slice(), wanted.as_slice());
    Ok(())
}

/// B's stream is refused at a byte, and A's, which A ended, inside a message. What both rule sets refuse is explained once.
#[test]
fn why_once(rt: HostRuntime) -> Result<(), Fail> {
    let end = bad(2, Reason::EndInside, 73, b"\0\0\0\x0d\x06\0\0", 80);
    let bencode = bad(1, Reason::BadBencode, 68, b"\0\0\0\x03\x14\x01x", 74);
    let out = text_of(
        &rt,
        &both(refused_twice(end, end), refused_twice(bencode, bencode)),
    )?;
    let wanted = b"connection 0  A 10.0.0.1:51413 > B 10.0.0.2:6881
  A -AA0001-000000000000
    free refused message=2 at=80 EndInside
    bep  refused message=2 at=80 EndInside
    why  The stream ends after 7 of the 17 bytes of a message.
    options --reserved 0000000000100005 --metadata-id 0 --pieces 38
  B -AA0001-000000000000
    free refused message=1 at=74 BadBencode
    bep  refused message=1 at=74 BadBencode
    why  The payload has to begin with a bencoded dictionary, and none goes on with the byte 0x78 at 74.
    options --reserved 0000000000100005 --metadata-id 0 --pieces 38
  A closed first, by FIN, at 0.009000 s
";
    assert_eq!(rt; out.as_slice(), wanted.as_slice());
    Ok(())
}

/// Sentences with an id's lengths, an extension, a byte of a bitfield, and the end of a dictionary; a message follows the last.
#[test]
fn why_by_the_message(rt: HostRuntime) -> Result<(), Fail> {
    let length = bad(2, Reason::WrongLength, 73, b"\0\0\0\x02\x05\xff", 73);
    let other = bad(1, Reason::NotNegotiated, 68, b"\0\0\0\x01\x0e", 72);
    let bits = b"\0\0\0\x06\x05\xff\xff\xff\xff\xfe";
    let spare = bad(2, Reason::SpareBits, 73, bits, 82);
    let cut = bad(
        1,
        Reason::BadBencode,
        68,
        b"\0\0\0\x03\x14\0d\0\0\0\x01",
        75,
    );
    let out = text_of(
        &rt,
        &both(refused_twice(length, other), refused_twice(spare, cut)),
    )?;
    let wanted = b"connection 0  A 10.0.0.1:51413 > B 10.0.0.2:6881
  A -AA0001-000000000000
    free refused message=2 at=73 WrongLength
    why  The message has the length 2, and the length of a bitfield message is 6 for 38 pieces.
    bep  refused message=1 at=72 NotNegotiated
    why  A have all message needs the Fast Extension, and the two handshakes do not both have its reserved bit.
    options --reserved 0000000000100005 --metadata-id 0 --pieces 38
  B -AA0001-000000000000
    free refused message=2 at=82 SpareBits
    why  The torrent has 38 pieces, and the last byte of the bitfield is 0xfe, which has a 1 after them.
    bep  refused message=1 at=75 BadBencode
    why  The payload has to begin with a bencoded dictionary, and the message ends inside it.
    options --reserved 0000000000100005 --metadata-id 0 --pieces 38
  A closed first, by FIN, at 0.009000 s
";
    assert_eq!(rt; out.as_slice(), wanted.as_slice());
    Ok(())
}

/// No side begins a handshake.
#[test]
fn not_bittorrent(rt: HostRuntime) -> Result<(), Fail> {
    let out = text_of(&rt, &report(Body::NotBitTorrent))?;
    let wanted =
        b"connection 0  A 10.0.0.1:51413 > B 10.0.0.2:6881  no BitTorrent handshake: encrypted, another protocol, or its start isn't in the capture\n";
    assert_eq!(rt; out.as_slice(), wanted.as_slice());
    Ok(())
}

pub(crate) fn row(at: u64, side: Side, offset: u64, deed: Deed) -> Row {
    Row {
        connection: 0,
        at,
        side,
        offset,
        deed,
        remarks: Remarks {
            unasked: false,
            choked: false,
            again: false,
            elsewhere: false,
        },
    }
}

/// Rows of both sides; the words are made of views.
pub(crate) fn sample_rows() -> [Row; 5] {
    let none = View::Message(MessageView::HaveNone);
    let refusal = Refusal {
        message: 2,
        at: 78,
        reason: Reason::BadIndex,
    };
    let asked = View::Message(MessageView::Request {
        index: 1,
        begin: 0,
        length: 1,
    });
    [
        row(3_000_000, Side::A, 68, Deed::Item(Words::of(&none))),
        row(7_000_999, Side::A, 78, Deed::Refused(refusal)),
        row(12_000_000_000, Side::A, 87, Deed::Gap(1000)),
        row(123_000_000_000, Side::B, 68, Deed::Closed(Means::Rst)),
        Row {
            connection: 12,
            remarks: Remarks {
                unasked: false,
                choked: true,
                again: true,
                elsewhere: false,
            },
            ..row(
                1_234_000_001_000,
                Side::B,
                107,
                Deed::Item(Words::of(&asked)),
            )
        },
    ]
}

#[test]
fn rows(rt: HostRuntime) -> Result<(), Fail> {
    let mut out = Vec::new(rt.alloc());
    for row in &sample_rows() {
        put_row(row, &mut out)?;
    }
    let wanted = b"\
0     0.003000 A 68 have-none
0     0.007000 A 78 refused message=2 at=78 BadIndex
0    12.000000 A 87 (gap of 1000 bytes; nothing after it is shown)
0   123.000000 B 68 (RST)
12  1234.000001 B 107 request 1 0 1  (choked, again)
";
    assert_eq!(rt; out.as_slice(), wanted.as_slice());
    Ok(())
}

#[test]
fn utp(rt: HostRuntime) -> Result<(), Fail> {
    let mut out = String::new(rt.alloc());
    for row in CLOSES {
        let packets = packets(row);
        write!(out, "{packets}")?;
    }
    let wanted = b"\
uTP  10.0.0.1:51413 > 10.0.0.2:6881  3 packets of BitTorrent over UDP (BEP 29), read from a SYN on
uTP  10.0.0.1:51413 > 10.0.0.2:6881  3 packets of BitTorrent over UDP (BEP 29), read from a SYN on; 10.0.0.1:51413 closed: 8 (timeout)
uTP  10.0.0.1:51413 > 10.0.0.2:6881  3 packets of BitTorrent over UDP (BEP 29), read from a SYN on; 10.0.0.2:6881 closed: 271 (invalid request message)
uTP  10.0.0.1:51413 > 10.0.0.2:6881  at least 3 packets of BitTorrent over UDP (BEP 29), read from a SYN on; \
10.0.0.1:51413 closed: 16 (too many files); 10.0.0.2:6881 closed: 289
";
    assert_eq!(rt; out.as_bytes(), wanted.as_slice());
    Ok(())
}

/// Whether A's stream, which ends inside a message, counts as refused if this side closed first.
fn is_refused(closer: Option<Side>) -> bool {
    let (a, b) = cut(70, None);
    let closed = match closer {
        Some(first) => Some(Closed {
            first,
            by: Means::Fin,
            at: 7_000_000,
            a: None,
            b: None,
        }),
        None => None,
    };
    let told = Told {
        a,
        b,
        closed,
        left: Left::Open,
        remarked_a: NO_REMARKS,
        remarked_b: NO_REMARKS,
    };
    matches!(report(Body::Told(told)).finding(), Finding::Refused)
}

/// A cut counts only if the sender itself closed.
#[test]
fn findings(rt: HostRuntime) {
    assert_eq!(rt;
        [
            is_refused(None),
            is_refused(Some(Side::B)),
            is_refused(Some(Side::A)),
        ],
        [false, false, true]
    );
}
