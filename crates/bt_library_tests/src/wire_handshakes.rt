//! The handshake: its bytes, what is refused of it and where, and what two ends agree on.
use crate::wire_messages::LIMIT;
use bitflags::Flags;
use bt_ext::{Registered, Rules};
use bt_wire::*;

const SPELLED: &[u8; 68] = b"\x13BitTorrent protocol\0\0\0\0\0\x10\0\x05\
\xa9\x99\x3e\x36\x47\x06\x81\x6a\xba\x3e\x25\x71\x78\x50\xc2\x6c\x9c\xd0\xd8\x9d-XX0001-000000000000";

/// The handshake that these bytes spell.
fn handshake() -> Handshake {
    Handshake {
        reserved: Reserved(0x10_0005),
        info_hash: [
            0xa9, 0x99, 0x3e, 0x36, 0x47, 0x06, 0x81, 0x6a, 0xba, 0x3e, 0x25, 0x71, 0x78, 0x50,
            0xc2, 0x6c, 0x9c, 0xd0, 0xd8, 0x9d,
        ],
        peer_id: *b"-XX0001-000000000000",
    }
}

fn receiver(reserved: Reserved, info_hash: Option<[u8; 20]>) -> Own {
    Own {
        reserved,
        info_hash,
        pieces: Some(10),
        reg: Registered::metadata_only(None),
        rules: Rules::Bep,
        limit: LIMIT,
    }
}

/// Whether both readers say that a part of a handshake has this fault, and isn't whole.
fn is_judged(own: &Own, part: &[u8], wanted: Option<Refused>) -> bool {
    judge_handshake(own, part) == wanted
        && match read_opening(own, part) {
            Opening::Refused(refused) => wanted == Some(refused),
            Opening::Partial => wanted.is_none(),
            Opening::Whole(_) => false,
        }
}

/// Whether the bytes are read as the handshake, without a fault.
fn is_whole(own: &Own, bytes: &[u8]) -> bool {
    match read_opening(own, bytes) {
        Opening::Whole(read) => read == handshake() && judge_handshake(own, bytes).is_none(),
        _ => false,
    }
}

/// Whether the receiver has the info hash `-` 20 times, a part of a handshake, and how it is refused, if it is.
const PARTS: &[(bool, &[u8], Option<Refused>)] = &[
    (false, b"", None),
    (false, b"\x13BitTorrent protoco", None),
    (
        false,
        b"\x13BitT_",
        Some(Refused {
            at: 5,
            reason: Reason::BadProtocol,
        }),
    ),
    (
        true,
        b"\x13BitTorrent protocol\0\0\0\0\0\x10\0\x05-------------------",
        None,
    ),
    (
        true,
        b"\x13BitTorrent protocol\0\0\0\0\0\x10\0\x05-------------------_",
        Some(Refused {
            at: 28,
            reason: Reason::WrongInfoHash,
        }),
    ),
];

fn is_right((given, part, wanted): &(bool, &[u8], Option<Refused>)) -> bool {
    let info_hash = if *given {
        Some(*b"--------------------")
    } else {
        None
    };
    is_judged(&receiver(Reserved(0), info_hash), part, *wanted)
}

/// Every cut of a handshake, and other bytes of it, are tried on the program.
#[test]
fn handshakes(rt: HostRuntime) {
    let own = receiver(Reserved(0), Some(handshake().info_hash));
    assert!(rt; spell_handshake(&handshake()).as_slice() == SPELLED.as_slice());
    assert!(rt; is_whole(&own, SPELLED));
    for row in PARTS {
        assert!(rt; is_right(row), "{:?}", row.1);
    }
}

/// The bits of the extensions.
const BITS: &[(Reserved, u64)] = &[
    (Reserved::FAST, 0x4),
    (Reserved::DHT, 0x1),
    (Reserved::EXT, 0x10_0000),
];

#[test]
fn bits(rt: HostRuntime) {
    for (flag, wanted) in BITS {
        assert!(rt; flag.bits() == *wanted, "{wanted}");
    }
}

/// All bits but that of the Fast Extension.
const REST: u64 = !0x4;

/// The bits of both ends, and whether both have the Fast Extension and the Extension Protocol.
type Negotiation = (u64, u64, bool, bool);

const NEGOTIATIONS: &[Negotiation] = &[
    (0x10_0005, 0x10_0005, true, true),
    (0x4, u64::MAX, true, false),
    (0x10_0000, u64::MAX, false, true),
    (0x4, REST, false, false),
    (REST, 0x4, false, false),
    (REST, REST, false, true),
    (0, 0, false, false),
];

fn is_negotiated((own, peer, fast, ext): &Negotiation) -> bool {
    let answer = Context {
        fast: *fast,
        ext: *ext,
        pieces: Some(10),
        reg: Registered::metadata_only(None),
        rules: Rules::Bep,
        limit: LIMIT,
    };
    negotiate(&receiver(Reserved(*own), None), Reserved(*peer)) == answer
}

#[test]
fn negotiations(rt: HostRuntime) {
    for row in NEGOTIATIONS {
        assert!(rt; is_negotiated(row), "{} {}", row.0, row.1);
    }
}
