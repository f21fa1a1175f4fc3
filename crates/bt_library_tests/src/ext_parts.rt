//! Extended payloads: views, ids, fields, kinds, values without a spelling, and the dictionaries that are made.
use crate::bencode::is_spelled;
use crate::ext::{DATA, LIBTORRENT, REQUEST};
use bt_bencode::{ByteString, Pairs, SpellError, Value, check, read_dict};
use bt_ext::*;
use std::alloc::{AllocError, Global};

/// What follows the dictionary, or the raw payload, and the number of its kind.
fn parts<'a>(view: &ExtView<'a>) -> (u8, &'a [u8]) {
    match view {
        ExtView::Handshake { rest, .. } => (0, rest),
        ExtView::Metadata { rest, .. } => (1, rest),
        ExtView::DontHave(_) => (3, b""),
        ExtView::Raw { payload, .. } => (2, payload),
    }
}

/// The receiver's id of `ut_metadata`, a message's id and payload, the number of its kind, and what follows its dictionary.
type View = (u8, u8, &'static [u8], u8, &'static [u8]);

const VIEWS: &[View] = &[
    (3, 0, b"de.rest", 0, b".rest"),
    (3, 3, DATA, 1, b"abc"),
    (3, 4, REQUEST, 2, REQUEST),
    (0, 3, REQUEST, 2, REQUEST),
];

fn is_viewed((metadata, id, payload, kind, rest): &View) -> bool {
    let reg = Registered::metadata_only(ExtId::new(*metadata));
    match view_ext(reg, Rules::Bep, *id, payload) {
        Ok(view) => parts(&view) == (*kind, *rest),
        Err(_) => false,
    }
}

#[test]
fn views(rt: HostRuntime) {
    for row in VIEWS {
        assert!(rt; is_viewed(row), "{:?}", row.2);
    }
}

/// Two ids, and whether they can be registered together.
const PAIRS: &[(u8, u8, bool)] = &[
    (3, 4, true),
    (3, 0, true),
    (0, 4, true),
    (0, 0, true),
    (3, 3, false),
    (255, 1, true),
];

fn number(id: Option<ExtId>) -> u8 {
    match id {
        Some(id) => id.get(),
        None => 0,
    }
}

/// Whether both ids are registered together, or can't be.
fn are_registered((metadata, donthave, is_right): &(u8, u8, bool)) -> bool {
    match Registered::new(ExtId::new(*metadata), ExtId::new(*donthave)) {
        Ok(reg) => {
            *is_right && number(reg.metadata()) == *metadata && number(reg.donthave()) == *donthave
        }
        Err(SameId) => !*is_right,
    }
}

#[test]
fn registered_ids(rt: HostRuntime) {
    for row in PAIRS {
        assert!(rt; are_registered(row), "{} {}", row.0, row.1);
    }
}

/// Dictionaries, the kind of metadata message that each is, and the size of the metadata that each announces.
const FIELDS: &[(&[u8], Kind, Option<u64>)] = &[
    (LIBTORRENT, Kind::Malformed, Some(33236)),
    (REQUEST, Kind::Request(0), None),
    (DATA, Kind::Data { piece: 0, total: 3 }, None),
    (b"d8:msg_typei2e5:piecei5ee", Kind::Reject(5), None),
    (b"d8:msg_typei3ee", Kind::Other, None),
    (
        b"d8:msg_typei0e5:piecei1e5:piecei2ee",
        Kind::Request(1),
        None,
    ),
    (b"d13:metadata_sizei0ee", Kind::Malformed, Some(0)),
    (
        b"d13:metadata_sizei9223372036854775807ee",
        Kind::Malformed,
        Some(9223372036854775807),
    ),
    (
        b"d13:metadata_sizei3e13:metadata_sizei4ee",
        Kind::Malformed,
        Some(3),
    ),
    (b"d13:metadata_sizei-1ee", Kind::Malformed, None),
    (b"d13:metadata_size1:3e", Kind::Malformed, None),
    (b"de", Kind::Malformed, None),
];

fn is_dict(payload: &[u8], wanted: (Kind, Option<u64>)) -> bool {
    match check(payload) {
        Ok((dict, _)) => (kind_ref(&dict), metadata_size_ref(&dict)) == wanted,
        Err(_) => false,
    }
}

#[test]
fn fields(rt: HostRuntime) {
    for (payload, kind, size) in FIELDS {
        assert!(rt; is_dict(payload, (*kind, *size)), "{payload:?}");
    }
}

/// Whether the payload's value is a request for block 0, or else announces `wanted` bytes.
fn is_value(alloc: Global, payload: &[u8], wanted: Option<u64>) -> bool {
    match read_dict(alloc, payload) {
        Ok((value, _)) => {
            metadata_size(&value) == wanted
                && (kind(&value) == Kind::Request(0)) == wanted.is_none()
        }
        Err(_) => false,
    }
}

#[test]
fn fields_of_values(rt: HostRuntime) {
    assert!(rt; is_value(rt.alloc(), LIBTORRENT, Some(33236)));
    assert!(rt; is_value(rt.alloc(), REQUEST, None));
}

/// What it is, the kind of message, how many bytes follow, and whether they may.
const BLOCKS: &[(&str, Kind, usize, bool)] = &[
    (
        "16384 of 16384",
        Kind::Data {
            piece: 0,
            total: 16384,
        },
        16384,
        true,
    ),
    (
        "16383 of 16384",
        Kind::Data {
            piece: 0,
            total: 16384,
        },
        16383,
        false,
    ),
    (
        "16385 of 16384",
        Kind::Data {
            piece: 0,
            total: 16384,
        },
        16385,
        false,
    ),
    (
        "a second block of 16384",
        Kind::Data {
            piece: 1,
            total: 16384,
        },
        0,
        false,
    ),
    (
        "16384 of 16385",
        Kind::Data {
            piece: 0,
            total: 16385,
        },
        16384,
        true,
    ),
    (
        "the last byte of 16385",
        Kind::Data {
            piece: 1,
            total: 16385,
        },
        1,
        true,
    ),
    (
        "too much of 16385",
        Kind::Data {
            piece: 1,
            total: 16385,
        },
        16384,
        false,
    ),
    (
        "a third block of 16385",
        Kind::Data {
            piece: 2,
            total: 16385,
        },
        0,
        false,
    ),
    (
        "the second block of 32768",
        Kind::Data {
            piece: 1,
            total: 32768,
        },
        16384,
        true,
    ),
    (
        "more than the second block of 32768",
        Kind::Data {
            piece: 1,
            total: 32768,
        },
        16385,
        false,
    ),
    (
        "less than the second block of 32768",
        Kind::Data {
            piece: 1,
            total: 32768,
        },
        16383,
        false,
    ),
    (
        "a third block of 32768",
        Kind::Data {
            piece: 2,
            total: 32768,
        },
        0,
        false,
    ),
    (
        "the last piece number",
        Kind::Data {
            piece: 4294967295,
            total: 18446744073709551615,
        },
        16384,
        true,
    ),
    ("a request", Kind::Request(0), 0, true),
    ("a request and a byte", Kind::Request(0), 1, false),
    ("a reject", Kind::Reject(0), 0, true),
    ("a reject and a byte", Kind::Reject(0), 1, false),
    ("another message and a byte", Kind::Other, 1, true),
    ("a malformed message and a byte", Kind::Malformed, 1, true),
];

#[test]
fn blocks(rt: HostRuntime) {
    for (name, kind, len, wanted) in BLOCKS {
        assert!(rt; block_ok(*kind, *len) == *wanted, "{name}");
    }
}

/// Whether the value has neither a length nor a spelling.
fn is_unspelled(alloc: Global, reg: &Registered, value: Ext) -> bool {
    ext_len(*reg, &value).is_none()
        && matches!(spell_ext(alloc, *reg, &value), Err(SpellError::OutOfRange))
}

fn no_bytes(alloc: Global) -> ByteString {
    ByteString::from_vec(Vec::new(alloc))
}

fn raw(alloc: Global, id: u8) -> Ext {
    let payload = no_bytes(alloc);
    Ext::Raw { id, payload }
}

/// A handshake that has a number in place of a dictionary.
fn numbered(alloc: Global) -> Ext {
    let rest = no_bytes(alloc);
    let dict = Value::Int(1);
    Ext::Handshake { dict, rest }
}

fn metadata(alloc: Global) -> Ext {
    let rest = no_bytes(alloc);
    let dict = Value::Dict(Pairs::from_vec(Vec::new(alloc)));
    Ext::Metadata { dict, rest }
}

/// Raw payloads under ids that have a meaning, a number in place of a dictionary, and metadata without an id.
#[test]
fn values_without_spelling(rt: HostRuntime) {
    let alloc = rt.alloc();
    let (three, none) = (registered(3, 0), registered(0, 0));
    assert!(rt;
        is_unspelled(alloc, &three, raw(alloc, 0)) && is_unspelled(alloc, &three, raw(alloc, 3))
    );
    assert!(rt;
        is_unspelled(alloc, &three, numbered(alloc)) && is_unspelled(alloc, &none, metadata(alloc))
    );
}

fn is_made(alloc: Global, made: Result<Value, AllocError>, bytes: &[u8]) -> bool {
    match made {
        Ok(value) => is_spelled(alloc, &value, bytes),
        Err(_) => false,
    }
}

/// Metadata messages, and their dictionaries.
const MESSAGES: &[(Kind, &[u8])] = &[
    (Kind::Request(0), REQUEST),
    (
        Kind::Data { piece: 0, total: 3 },
        b"d8:msg_typei1e5:piecei0e10:total_sizei3ee",
    ),
    (Kind::Reject(0), b"d8:msg_typei2e5:piecei0ee"),
];

#[test]
fn made_messages(rt: HostRuntime) {
    for (kind, bytes) in MESSAGES {
        assert!(rt; is_made(rt.alloc(), dict_of(rt.alloc(), *kind), bytes));
    }
}

/// The ids of `ut_metadata` and `lt_donthave`, 0 for none.
pub(crate) fn registered(metadata: u8, donthave: u8) -> Registered {
    let none = Registered::metadata_only(None);
    Registered::new(ExtId::new(metadata), ExtId::new(donthave)).unwrap_or(none)
}

/// Both ids, the size of the metadata, and the dictionary that says so.
const MADE: &[(u8, u8, Option<u64>, &[u8])] = &[
    (
        3,
        0,
        Some(3),
        b"d1:md11:ut_metadatai3ee13:metadata_sizei3ee",
    ),
    (9, 0, None, b"d1:md11:ut_metadatai9eee"),
    (0, 0, None, b"d1:mdee"),
    (3, 4, None, b"d1:md11:lt_donthavei4e11:ut_metadatai3eee"),
];

#[test]
fn made_handshakes(rt: HostRuntime) {
    for (metadata, donthave, size, bytes) in MADE {
        let made = handshake_dict(rt.alloc(), registered(*metadata, *donthave), *size);
        assert!(rt; is_made(rt.alloc(), made, bytes), "{metadata} {donthave}");
    }
}
