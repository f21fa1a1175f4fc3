//! Packets of uTP of several connections, and the connection and the segment of each.
use bt_order::Turned;
use bt_packet::{Address, Host, Utp, UtpKind};
use bt_utp::Links;
use std::alloc::AllocError;
use std::test::Fail;

/// A packet: whose it is, and the segment's numbers, if it is of a connection.
#[derive(Clone, Copy)]
struct Row<'a> {
    from: u8,
    to: u8,
    kind: UtpKind,
    id: u16,
    number: u16,
    acked: u16,
    payload: &'a [u8],
    told: Option<Says<'a>>,
}

/// The connection, whether the initiator sent it, and the segment.
#[derive(Clone, Copy)]
struct Says<'a> {
    number: u64,
    is_initiator: bool,
    sequence: u32,
    acked: Option<u32>,
    flag: Flag,
    bytes: &'a [u8],
}

/// The segment's flag.
#[derive(Clone, Copy, PartialEq, Eq)]
enum Flag {
    Plain,
    Syn,
    Reset,
    Missing,
}

/// An end, by its host's last byte.
fn end(last: u8) -> Address {
    Address {
        host: Host::V4([10, 0, 0, last]),
        port: 6881,
    }
}

/// The packet of a row.
fn datagram<'a>(row: &Row<'a>) -> Utp<'a> {
    Utp {
        source: end(row.from),
        target: end(row.to),
        kind: row.kind,
        id: row.id,
        number: row.number,
        acked: row.acked,
        reason: None,
        payload: row.payload,
        length: row.payload.len() as u64,
    }
}

/// Tells whether a segment is the expected one.
fn is_said(turned: Turned, says: &Says<'_>) -> bool {
    turned
        == Turned {
            sequence: says.sequence,
            acked: says.acked,
            is_syn: says.flag == Flag::Syn,
            is_fin: false,
            is_reset: says.flag == Flag::Reset,
            is_missing: says.flag == Flag::Missing,
        }
}

/// Tells whether a packet is of the connection that its row says, and turned into the row's segment.
fn is_told(links: &mut Links, row: &Row<'_>) -> Result<bool, AllocError> {
    let told = links.take(&datagram(row))?;
    match (told, row.told) {
        (None, None) => Ok(true),
        (Some(told), Some(says)) => Ok(
            told.connection.number == says.number
                && told.is_initiator == says.is_initiator
                && is_said(told.turned, &says)
                && links.bytes() == says.bytes,
        ),
        _ => Ok(false),
    }
}

/// A row.
fn packet<'a>(
    ends: (u8, u8),
    kind: UtpKind,
    id: u16,
    numbers: (u16, u16),
    payload: &'a [u8],
    told: Option<Says<'a>>,
) -> Row<'a> {
    Row {
        from: ends.0,
        to: ends.1,
        kind,
        id,
        number: numbers.0,
        acked: numbers.1,
        payload,
        told,
    }
}

/// What is said of a packet.
fn tells(
    number: u64,
    is_initiator: bool,
    sequence: u32,
    acked: Option<u32>,
    flag: Flag,
    bytes: &[u8],
) -> Option<Says<'_>> {
    Some(Says {
        number,
        is_initiator,
        sequence,
        acked,
        flag,
        bytes,
    })
}

/// Both ends begin a connection with the id 5; a SYN is sent again; an early packet is held.
#[test]
fn two_connections(rt: HostRuntime) -> Result<(), Fail> {
    let rows = [
        packet(
            (1, 2),
            UtpKind::Syn,
            5,
            (100, 0),
            b"",
            tells(0, true, 100, None, Flag::Syn, b""),
        ),
        packet(
            (1, 2),
            UtpKind::Syn,
            5,
            (100, 0),
            b"",
            tells(0, true, 100, None, Flag::Syn, b""),
        ),
        packet(
            (2, 1),
            UtpKind::State,
            5,
            (900, 100),
            b"",
            tells(0, false, 0, Some(101), Flag::Syn, b""),
        ),
        packet(
            (1, 2),
            UtpKind::Data,
            6,
            (101, 899),
            b"ab",
            tells(0, true, 101, Some(1), Flag::Plain, b"ab"),
        ),
        packet(
            (2, 1),
            UtpKind::Data,
            5,
            (901, 101),
            b"y",
            tells(0, false, 1, Some(103), Flag::Missing, b""),
        ),
        packet(
            (2, 1),
            UtpKind::Syn,
            5,
            (7, 0),
            b"",
            tells(1, true, 7, None, Flag::Syn, b""),
        ),
        packet(
            (1, 2),
            UtpKind::State,
            5,
            (40, 7),
            b"",
            tells(1, false, 0, Some(8), Flag::Syn, b""),
        ),
        packet(
            (1, 2),
            UtpKind::Data,
            5,
            (40, 7),
            b"q",
            tells(1, false, 1, Some(8), Flag::Plain, b"q"),
        ),
        packet(
            (2, 1),
            UtpKind::Data,
            5,
            (900, 101),
            b"x",
            tells(0, false, 1, Some(103), Flag::Plain, b"xy"),
        ),
        packet(
            (2, 1),
            UtpKind::Data,
            6,
            (8, 40),
            b"p",
            tells(1, true, 8, Some(2), Flag::Plain, b"p"),
        ),
        packet((1, 2), UtpKind::Data, 77, (1, 1), b"z", None),
        packet((1, 1), UtpKind::Syn, 9, (1, 0), b"", None),
        packet(
            (1, 2),
            UtpKind::Syn,
            5,
            (200, 0),
            b"",
            tells(2, true, 200, None, Flag::Syn, b""),
        ),
        packet(
            (1, 2),
            UtpKind::Data,
            6,
            (201, 1),
            b"n",
            tells(2, true, 201, Some(1), Flag::Plain, b"n"),
        ),
    ];
    let mut links = Links::new(rt.alloc());
    for row in rows {
        assert!(rt; is_told(&mut links, &row)?);
    }
    assert!(rt; links.len() == 2 && links.counted() == 0);
    Ok(())
}

/// The id 65,535 has 0 after it. A RESET may have the id that its sender received. A forgotten connection is of no packet.
#[test]
fn last_id(rt: HostRuntime) -> Result<(), Fail> {
    let rows = [
        packet(
            (1, 3),
            UtpKind::Syn,
            65535,
            (65535, 0),
            b"",
            tells(0, true, 65535, None, Flag::Syn, b""),
        ),
        packet(
            (1, 3),
            UtpKind::Data,
            0,
            (0, 9),
            b"a",
            tells(0, true, 65536, Some(1), Flag::Plain, b"a"),
        ),
        packet(
            (3, 1),
            UtpKind::Reset,
            0,
            (5, 5),
            b"",
            tells(0, false, 1, None, Flag::Reset, b""),
        ),
    ];
    let mut links = Links::new(rt.alloc());
    for row in rows {
        assert!(rt; is_told(&mut links, &row)?);
    }
    let again = packet((1, 3), UtpKind::Data, 0, (1, 9), b"b", None);
    let told = links.take(&datagram(&rows[1]))?;
    let Some(told) = told else {
        assert!(rt; false);
        return Ok(());
    };
    links.forget(&told.connection);
    assert!(rt; links.len() == 0 && is_told(&mut links, &again)?);
    Ok(())
}
