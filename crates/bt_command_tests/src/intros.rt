//! Sides of connections that announce themselves as their bytes come.
use bt_ext::{ExtId, Registered, Rules};
use bt_intro::{Introduction, Receiver, is_settled, receiver_of};
use bt_jobs::Announced;
use bt_wire::{Handshake, Own, Reserved};
use std::alloc::{AllocError, Global};
use std::process::Abort;

/// A handshake with the bits of the Extension Protocol, the Fast Extension and the distributed hash table.
const HAND: &[u8] = b"\x13BitTorrent protocol\0\0\0\0\0\x10\0\x05\
aaaaaaaaaaaaaaaaaaaabbbbbbbbbbbbbbbbbbbb";

/// A handshake without extensions.
const PLAIN: &[u8] = b"\x13BitTorrent protocol\0\0\0\0\0\0\0\0\
aaaaaaaaaaaaaaaaaaaacccccccccccccccccccc";

/// An extended handshake with an id for `ut_metadata`.
const FIRST: &[u8] = b"\0\0\0\x1a\x14\0d1:md11:ut_metadatai3eee";

/// An extended handshake with an id for each extension, and a client's name.
const SECOND: &[u8] = b"\0\0\0\x35\x14\0d1:md11:lt_donthavei9e11:ut_metadatai7ee1:v5:Greete";

/// The front of a stream: so many bytes `x`, and these parts after them; of all that so many bytes at most.
type Front = (usize, &'static [&'static [u8]], usize);

/// As many bytes as no front has.
const ALL: usize = 4_096;

/// A front, where its handshake starts, the ids that it announces for `ut_metadata` and `lt_donthave` if its handshake is whole (0 stands
/// for none), the client's name, and whether the side has said all, and is a stranger.
type Row = (
    Front,
    Option<usize>,
    Option<(u8, u8)>,
    &'static [u8],
    bool,
    bool,
);

fn bytes_of(alloc: Global, (noise, parts, most): &Front) -> Result<Vec<u8>, AllocError> {
    let mut bytes = vec![in alloc; b'x'; *noise]?;
    for part in *parts {
        bytes.extend_from_slice(part)?;
    }
    bytes.truncate(*most);
    Ok(bytes)
}

/// Hears bytes in pieces of `size` bytes.
fn hear(alloc: Global, bytes: &[u8], size: usize) -> Result<Introduction, AllocError> {
    let mut side = Introduction::new();
    let mut heard: usize = 0;
    for piece in bytes.chunks(size.max(1)) {
        heard = heard.saturating_add(piece.len());
        side.hear(alloc, bytes.get(..heard).unwrap_or(bytes))?;
    }
    Ok(side)
}

/// Hears a front in pieces of `size` bytes.
fn side_of(alloc: Global, front: &Front, size: usize) -> Result<Introduction, AllocError> {
    let bytes = bytes_of(alloc, front)?;
    hear(alloc, bytes.as_slice(), size)
}

/// What the bytes of `HAND` and the extended handshakes announce: of each extension the first id.
fn announced(ids: Option<(u8, u8)>) -> Option<Announced> {
    let (metadata, donthave) = ids?;
    Some(Announced {
        reserved: Reserved(0x10_0005),
        metadata: ExtId::new(metadata),
        donthave: ExtId::new(donthave),
    })
}

/// The handshake `HAND`.
fn hand() -> Handshake {
    Handshake {
        reserved: Reserved(0x10_0005),
        info_hash: *b"aaaaaaaaaaaaaaaaaaaa",
        peer_id: *b"bbbbbbbbbbbbbbbbbbbb",
    }
}

/// Whether a side has said what its row says.
fn has_said(side: &Introduction, (_, start, ids, client, has_said_all, is_stranger): &Row) -> bool {
    let handshake = if ids.is_some() { Some(hand()) } else { None };
    side.start() == *start
        && side.handshake() == handshake
        && side.announced() == announced(*ids)
        && side.client() == *client
        && side.has_said_all() == *has_said_all
        && side.is_stranger() == *is_stranger
}

/// Hears each row's front in pieces of each size.
fn check(rt: &impl Abort, alloc: Global, rows: &[Row], sizes: &[usize]) -> Result<(), AllocError> {
    for (number, row) in rows.iter().enumerate() {
        for size in sizes {
            let side = side_of(alloc, &row.0, *size)?;
            assert!(rt; has_said(&side, row), "at {number}, by {size}");
        }
    }
    Ok(())
}

const STREAMS: &[Row] = &[
    (
        (0, &[HAND, FIRST, SECOND], ALL),
        Some(0),
        Some((3, 9)),
        b"Greet",
        true,
        false,
    ),
    (
        (37, &[HAND, FIRST, SECOND], ALL),
        Some(37),
        Some((3, 9)),
        b"Greet",
        true,
        false,
    ),
    (
        (2_048, &[HAND, FIRST, SECOND], ALL),
        Some(2_048),
        Some((3, 9)),
        b"Greet",
        true,
        false,
    ),
];

/// A stream after nothing, after part of a key exchange, and after the longest one.
#[test]
fn streams(rt: HostRuntime) -> Result<(), AllocError> {
    check(&rt, rt.alloc(), STREAMS, &[1, 7, 4_096])
}

const STRANGERS: &[Row] = &[
    ((2_049, &[HAND, FIRST], ALL), None, None, b"", false, true),
    ((2_049, &[HAND, FIRST], 2_068), None, None, b"", false, true),
    (
        (2_049, &[HAND, FIRST], 2_067),
        None,
        None,
        b"",
        false,
        false,
    ),
];

/// A handshake that starts one byte too late, and bytes without one.
#[test]
fn strangers(rt: HostRuntime) -> Result<(), AllocError> {
    check(&rt, rt.alloc(), STRANGERS, &[7, 4_096])
}

const PARTS: &[Row] = &[
    (
        (0, &[HAND, FIRST, SECOND], 0),
        None,
        None,
        b"",
        false,
        false,
    ),
    (
        (0, &[HAND, FIRST, SECOND], 19),
        None,
        None,
        b"",
        false,
        false,
    ),
    (
        (0, &[HAND, FIRST, SECOND], 20),
        Some(0),
        None,
        b"",
        false,
        false,
    ),
    (
        (0, &[HAND, FIRST, SECOND], 67),
        Some(0),
        None,
        b"",
        false,
        false,
    ),
    (
        (0, &[HAND, FIRST, SECOND], 68),
        Some(0),
        Some((0, 0)),
        b"",
        false,
        false,
    ),
    (
        (0, &[HAND, FIRST, SECOND], 97),
        Some(0),
        Some((0, 0)),
        b"",
        false,
        false,
    ),
    (
        (0, &[HAND, FIRST, SECOND], 98),
        Some(0),
        Some((3, 0)),
        b"",
        true,
        false,
    ),
];

/// The parts of a stream, of which each says more of its side.
#[test]
fn parts(rt: HostRuntime) -> Result<(), AllocError> {
    check(&rt, rt.alloc(), PARTS, &[7])
}

/// Returns the handshake and 1,000 messages, each a keep-alive.
fn thousand(alloc: Global) -> Result<Vec<u8>, AllocError> {
    let mut front = Vec::from_slice(alloc, HAND)?;
    for _message in 0..1_000u16 {
        front.extend_from_slice(b"\0\0\0\0")?;
    }
    Ok(front)
}

/// Whether a side has said all once it has heard the bytes, and not without the last four.
fn ends_with(alloc: Global, bytes: &[u8]) -> Result<bool, AllocError> {
    let before = bytes.len().saturating_sub(4);
    let mut side = hear(alloc, bytes.get(..before).unwrap_or(&[]), 4_096)?;
    let had_said_all = side.has_said_all();
    side.hear(alloc, bytes)?;
    Ok(!had_said_all && side.has_said_all())
}

/// What ends a side's introduction without an extended handshake: a refusal, and 1,000 messages.
#[test]
fn ends(rt: HostRuntime) -> Result<(), AllocError> {
    let bytes = thousand(rt.alloc())?;
    assert!(rt; ends_with(rt.alloc(), bytes.as_slice())?);
    // a choke of two bytes
    let refused = side_of(rt.alloc(), &(0, &[HAND, b"\0\0\0\x02\0\0"], ALL), 7)?;
    assert!(rt; refused.has_said_all());
    Ok(())
}

const WHOLE: Front = (0, &[HAND, FIRST], ALL);

const SILENT: Front = (0, &[HAND], ALL);

const OF_PLAIN: Front = (0, &[PLAIN], ALL);

const CUT: Front = (0, &[HAND], 67);

const STRANGER: Front = (2_068, &[], ALL);

const NOTHING: Front = (0, &[], 0);

/// Two sides, and whether an opening of theirs is over.
type Opening = (Front, Front, bool);

const OPENINGS: &[Opening] = &[
    (WHOLE, WHOLE, true),
    (WHOLE, SILENT, false),
    (SILENT, SILENT, false),
    (SILENT, OF_PLAIN, true),
    (WHOLE, CUT, false),
    (WHOLE, NOTHING, false),
    (SILENT, STRANGER, true),
    (CUT, STRANGER, false),
    (NOTHING, STRANGER, false),
    (STRANGER, STRANGER, true),
];

/// Whether an opening of two sides is over or not, as wanted, whichever comes first.
fn is_as(first: &Introduction, second: &Introduction, settled: bool) -> bool {
    is_settled(first, second) == settled && is_settled(second, first) == settled
}

fn opens(alloc: Global, (first, second, settled): &Opening) -> Result<bool, AllocError> {
    let first = side_of(alloc, first, 7)?;
    let second = side_of(alloc, second, 7)?;
    Ok(is_as(&first, &second, *settled))
}

/// Openings that are over, and others.
#[test]
fn openings(rt: HostRuntime) -> Result<(), AllocError> {
    for (number, opening) in OPENINGS.iter().enumerate() {
        assert!(rt; opens(rt.alloc(), opening)?, "at {number}");
    }
    Ok(())
}

/// How a receiver is known: the reserved bits, the ids for `ut_metadata` and `lt_donthave`, 0 for none, and whether it is guessed.
type By = (u64, u8, u8, bool);

fn receiver((reserved, metadata, donthave, is_guessed): By) -> Receiver {
    Receiver {
        own: Own {
            reserved: Reserved(reserved),
            info_hash: None,
            pieces: Some(9),
            reg: Registered::preferring_metadata(ExtId::new(metadata), ExtId::new(donthave)),
            rules: Rules::Free,
            limit: 262_144,
        },
        is_guessed,
    }
}

const TOLD: Front = (0, &[HAND, FIRST, SECOND], ALL);

/// The other side of a stream, its sender, and its receiver.
const RECEIVERS: &[(Front, Front, Option<By>)] = &[
    (TOLD, OF_PLAIN, Some((0x10_0005, 3, 9, false))),
    (OF_PLAIN, TOLD, Some((0, 0, 0, false))),
    (NOTHING, TOLD, Some((0x10_0005, 0, 0, true))),
    (TOLD, NOTHING, None),
];

/// The receiver of a stream is its other side; without a handshake of that a guess.
#[test]
fn receivers(rt: HostRuntime) -> Result<(), AllocError> {
    for (number, (other, sender, by)) in RECEIVERS.iter().enumerate() {
        let other = side_of(rt.alloc(), other, 7)?;
        let sender = side_of(rt.alloc(), sender, 7)?;
        let wanted = match by {
            Some(by) => Some(receiver(*by)),
            None => None,
        };
        assert!(rt;
            receiver_of(&other, &sender, Some(9), 262_144) == wanted,
            "at {number}"
        );
    }
    Ok(())
}
