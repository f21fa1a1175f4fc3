//! Extended payloads: the worked payloads, and the extended handshakes of usual clients.
use crate::bencode::padded;
use bt_ext::*;
use std::alloc::Global;

/// The receiver's ids: `ut_metadata` is 3.
fn ids() -> Registered {
    Registered::metadata_only(ExtId::new(3))
}

const UNSORTED: &[u8] = b"d13:metadata_sizei3e1:md11:ut_metadatai3eee";

const REPEATED: &[u8] = b"d1:pi1e1:pi2ee";

const INNER: &[u8] = b"d1:md1:bi1e1:ai2eee";

/// What libtorrent, Transmission and others send: addresses as byte strings, a time that is below 0, flags.
pub(crate) const LIBTORRENT: &[u8] =
    b"d12:complete_agoi-1e1:md11:lt_donthavei7e10:share_modei8e11:upload_onlyi3e12:ut_holepunchi4e11:ut_metadatai2e6:ut_pexi1ee13:metadata_sizei33236e4:reqqi500e11:upload_onlyi1e1:v17:libtorrent/2.0.9.6:yourip4:\x7f\x00\x00\x01e";

const TRANSMISSION: &[u8] =
    b"d1:ei1e4:ipv616:\x20\x01\x0d\xb8\x00\x00\x00\x00\x00\x00\x00\x00\x00\x00\x00\x01e1:md11:ut_metadatai3e6:ut_pexi1ee13:metadata_sizei0e1:pi51413e4:reqqi2000e11:upload_onlyi0e1:v18:Transmission 4.0.5e";

const USUAL: &[u8] = b"d1:md11:ut_metadatai2e6:ut_pexi1ee1:pi6881e4:reqqi500e1:v4:teste";

pub(crate) const REQUEST: &[u8] = b"d8:msg_typei0e5:piecei0ee";

pub(crate) const DATA: &[u8] = b"d8:msg_typei1e5:piecei0e10:total_sizei3eeabc";

/// 31 lists, each in the one before.
const DEEPEST: &[u8] = b"d1:pllllllllllllllllllllllllllllllleeeeeeeeeeeeeeeeeeeeeeeeeeeeeeee";

/// 32 lists.
const TOO_DEEP: &[u8] = b"d1:plllllllllllllllllllllllllllllllleeeeeeeeeeeeeeeeeeeeeeeeeeeeeeeee";

/// Every key that usual clients send, the addresses as 4 and 16 bytes.
const EVERY_KEY: &[u8] =
    b"d12:complete_agoi-1e1:ei0e4:ipv44:\xc0\x00\x02\x014:ipv616:\x20\x01\x0d\xb8\0\0\0\0\0\0\0\0\0\0\0\x01\
1:md11:lt_donthavei7e11:upload_onlyi3e11:ut_metadatai2e6:ut_pexi1ee13:metadata_sizei25486e1:pi6881e4:reqqi2000e\
11:upload_onlyi1e1:v18:libtorrent/2.0.8.06:yourip16:\xfe\x80\0\0\0\0\0\0\0\0\0\0\0\0\0\xffe";

/// Extended handshakes, metadata messages and raw ones: a payload's id, its bytes, and its fault under the strict rules.
const PAYLOADS: &[(u8, &[u8], Option<ViewError>)] = &[
    (0, b"d1:md11:ut_metadatai3ee13:metadata_sizei3ee", None),
    (0, UNSORTED, Some(ViewError::Unsorted { at: 20 })),
    (0, REPEATED, Some(ViewError::Unsorted { at: 7 })),
    (0, INNER, Some(ViewError::Unsorted { at: 11 })),
    (0, USUAL, None),
    (0, LIBTORRENT, None),
    (0, TRANSMISSION, None),
    (0, b"de", None),
    (0, b"dee0:", None),
    (0, b"d1:mdee", None),
    (0, b"d1:md1:ai0eee", None),
    (0, b"d1:md1:ai255eee", None),
    (0, b"d1:md1:ai256eee", Some(ViewError::BadField)),
    (0, b"d1:md1:ai-1eee", Some(ViewError::BadField)),
    (0, b"d1:md1:a1:1ee", Some(ViewError::BadField)),
    (0, b"d1:mi1ee", Some(ViewError::BadField)),
    (0, b"d1:mlee", Some(ViewError::BadField)),
    (0, b"d13:metadata_sizei-1ee", Some(ViewError::BadField)),
    (0, b"d13:metadata_size1:3e", Some(ViewError::BadField)),
    (0, DEEPEST, None),
    (3, REQUEST, None),
    (3, DATA, None),
    (
        3,
        b"d8:msg_typei1e5:piecei0e10:total_sizei3eeab",
        Some(ViewError::BadBlock { at: 41 }),
    ),
    (
        3,
        b"d8:msg_typei1e5:piecei0e10:total_sizei3ee",
        Some(ViewError::BadBlock { at: 41 }),
    ),
    (3, b"d8:msg_typei1e5:piecei0e10:total_sizei3eeeee", None),
    (
        3,
        b"d8:msg_typei1e5:piecei0e10:total_sizei3eeabcd",
        Some(ViewError::BadBlock { at: 41 }),
    ),
    (
        3,
        b"d8:msg_typei1e5:piecei1e10:total_sizei3ee",
        Some(ViewError::BadBlock { at: 41 }),
    ),
    (
        3,
        b"d8:msg_typei1e5:piecei4294967295e10:total_sizei3ee",
        Some(ViewError::BadBlock { at: 50 }),
    ),
    (
        3,
        b"d8:msg_typei1e5:piecei4294967296e10:total_sizei3ee",
        Some(ViewError::BadField),
    ),
    (
        3,
        b"d8:msg_typei1e5:piecei0e10:total_sizei0ee",
        Some(ViewError::BadField),
    ),
    (3, b"d8:msg_typei1e5:piecei0ee", Some(ViewError::BadField)),
    (3, b"d8:msg_typei7e5:piecei0ee", None),
    (3, b"d8:msg_typei-1eerest", None),
    (3, b"d8:msg_typei2e5:piecei0ee", None),
    (
        3,
        b"d8:msg_typei2e5:piecei0ee\0",
        Some(ViewError::BadBlock { at: 25 }),
    ),
    (
        3,
        b"d8:msg_typei0e5:piecei0ee\0",
        Some(ViewError::BadBlock { at: 25 }),
    ),
    (3, b"d8:msg_typei0e5:piecei-1ee", Some(ViewError::BadField)),
    (3, b"d8:msg_type1:05:piecei0ee", Some(ViewError::BadField)),
    (3, b"d5:piecei0ee", Some(ViewError::BadField)),
    (
        3,
        b"d5:piecei0e8:msg_typei0ee",
        Some(ViewError::Unsorted { at: 11 }),
    ),
    (
        3,
        b"d8:msg_typei0e5:piecei0e5:piece1:0e",
        Some(ViewError::Unsorted { at: 24 }),
    ),
    (4, REQUEST, None),
    (255, b"", None),
    (0, b"d1:pi-0ee", Some(ViewError::BadBencode { at: 6 })),
    (3, b"d1:pi-0ee", Some(ViewError::BadBencode { at: 6 })),
    (0, b"d1:pi1e", Some(ViewError::BadBencode { at: 7 })),
    (3, b"d1:pi1e", Some(ViewError::BadBencode { at: 7 })),
    (0, TOO_DEEP, Some(ViewError::BadBencode { at: 35 })),
    (3, TOO_DEEP, Some(ViewError::BadBencode { at: 35 })),
    (0, b"", Some(ViewError::BadBencode { at: 0 })),
    (3, b"", Some(ViewError::BadBencode { at: 0 })),
    (0, b"i1e", Some(ViewError::BadBencode { at: 0 })),
    (3, b"i1e", Some(ViewError::BadBencode { at: 0 })),
    (0, EVERY_KEY, None),
    (0, b"d6:yourip4:\x7f\0\0\x01e", None),
    (0, b"d12:complete_agoi-9223372036854775808ee", None),
    (0, b"d1:e1:01:p1:x4:reqqi-1e1:vi2e6:youripi1ee", None),
    (0, b"deeee", None),
    (0, b"d1:md11:ut_metadatai0e6:ut_pexi255eee", None),
    (0, b"d1:md11:ut_metadatai256eee", Some(ViewError::BadField)),
    (0, b"d1:md11:ut_metadata1:3ee", Some(ViewError::BadField)),
    (0, b"d1:mde13:metadata_sizei-1ee", Some(ViewError::BadField)),
    (0, b"d13:metadata_sizei0ee", None),
    (0, b"d1:v4:test1:mdee", Some(ViewError::Unsorted { at: 10 })),
    (
        0,
        b"d1:md6:ut_pexi1e11:ut_metadatai3eee",
        Some(ViewError::Unsorted { at: 16 }),
    ),
    (
        0,
        b"d1:pld1:bi1e1:ai1eeee",
        Some(ViewError::Unsorted { at: 12 }),
    ),
    (
        0,
        b"d1:md1:ai1e1:ai2eee",
        Some(ViewError::Unsorted { at: 11 }),
    ),
    (0, b"d2:abi1e1:ai1ee", Some(ViewError::Unsorted { at: 8 })),
    (
        3,
        b"d8:msg_typei1e5:piecei0e10:total_sizei3eeeeee",
        Some(ViewError::BadBlock { at: 41 }),
    ),
    (
        3,
        b"d8:msg_typei1e5:piecei4294967296e10:total_sizei3eeeee",
        Some(ViewError::BadField),
    ),
    (3, b"d8:msg_typei0e5:piecei4294967295ee", None),
    (
        3,
        b"d8:msg_typei0e5:piecei4294967296ee",
        Some(ViewError::BadField),
    ),
    (3, b"d8:msg_typei0e5:piecei0e1:xi1ee", None),
    (
        3,
        b"d8:msg_typei0e5:piecei0e5:piecei1ee",
        Some(ViewError::Unsorted { at: 24 }),
    ),
    (3, b"d8:msg_typei3eeeeeee", None),
    (4, b"i-0ee", None),
];

/// The fault under the rules of a payload that has this one under the strict rules: it has to be a dictionary under both.
fn fault_under(rules: Rules, strict: Option<ViewError>) -> Option<ViewError> {
    match (rules, strict) {
        (Rules::Bep, _) | (_, Some(ViewError::BadBencode { .. })) => strict,
        _ => None,
    }
}

/// Whether the payload is viewed under the rules, or isn't for the fault.
fn is_viewed(rules: Rules, id: u8, payload: &[u8], strict: Option<ViewError>) -> bool {
    view_ext(ids(), rules, id, payload).err() == fault_under(rules, strict)
}

#[test]
fn payloads(rt: HostRuntime) {
    for (id, payload, fault) in PAYLOADS {
        assert!(rt;
            is_viewed(Rules::Free, *id, payload, *fault)
                && is_viewed(Rules::Bep, *id, payload, *fault),
            "{id} {payload:?}"
        );
    }
}

/// A payload's id, its bytes, and why its value isn't legal under the strict rules.
type Row = (u8, &'static [u8], Option<ExtReason>);

const VALUES: &[Row] = &[
    (0, LIBTORRENT, None),
    (0, UNSORTED, Some(ExtReason::Unsorted)),
    (0, b"d1:mi1ee", Some(ExtReason::BadField)),
    (3, REQUEST, None),
    (3, DATA, None),
    (
        3,
        b"d8:msg_typei1e5:piecei0e10:total_sizei3eeab",
        Some(ExtReason::BadBlock),
    ),
    (4, REQUEST, None),
];

/// Whether the value is spelled under the id and as the payload.
fn is_spelled(alloc: Global, value: &Ext, id: u8, payload: &[u8]) -> bool {
    match spell_ext(alloc, ids(), value) {
        Ok((own_id, bytes)) => own_id == id && bytes.as_slice() == payload,
        Err(_) => false,
    }
}

/// Whether the value has the payload's length and bytes, and isn't legal for the reason.
fn is_value(alloc: Global, value: &Ext, (id, payload, reason): Row) -> bool {
    ext_len(ids(), value) == Some(payload.len() as u64)
        && ext_reason(Rules::Bep, value) == reason
        && is_spelled(alloc, value, id, payload)
}

fn is_read(alloc: Global, row: Row) -> bool {
    match read_ext(alloc, ids(), Rules::Free, row.0, row.1) {
        Ok(value) => is_value(alloc, &value, row),
        Err(_) => false,
    }
}

fn is_copied(alloc: Global, view: &ExtView, row: Row) -> bool {
    match copy_ext(alloc, view) {
        Ok(value) => is_value(alloc, &value, row),
        Err(_) => false,
    }
}

fn is_viewed_and_copied(alloc: Global, row: Row) -> bool {
    match view_ext(ids(), Rules::Free, row.0, row.1) {
        Ok(view) => is_copied(alloc, &view, row),
        Err(_) => false,
    }
}

/// Payloads that are read into memory, or viewed and copied, are spelled again.
#[test]
fn values(rt: HostRuntime) {
    for row in VALUES {
        assert!(rt;
            is_read(rt.alloc(), *row) && is_viewed_and_copied(rt.alloc(), *row),
            "{:?}",
            row.1
        );
    }
}

/// A payload's id, its bytes, and why it isn't read under the strict rules.
const UNREAD: &[(u8, &[u8], ExtError)] = &[
    (0, b"d1:pi-0ee", ExtError::BadBencode { at: 6 }),
    (0, UNSORTED, ExtError::Unsorted { at: 20 }),
    (0, b"d1:mi1ee", ExtError::BadField),
    (
        3,
        b"d8:msg_typei2e5:piecei0ee\0",
        ExtError::BadBlock { at: 25 },
    ),
];

fn is_unread(alloc: Global, id: u8, payload: &[u8], error: ExtError) -> bool {
    read_ext(alloc, ids(), Rules::Bep, id, payload).err() == Some(error)
}

#[test]
fn unread(rt: HostRuntime) {
    for (id, payload, error) in UNREAD {
        assert!(rt; is_unread(rt.alloc(), *id, payload, *error), "{payload:?}");
    }
}

/// The ids of payloads that are as long as they may be.
const LONGEST: &[u8] = &[0, 3, 9];

/// Whether a payload whose many bytes are copied is read into memory.
fn is_longest(alloc: Global, id: u8) -> bool {
    match padded(alloc, b"de", 1_048_574, b"") {
        Ok(payload) => has_length(alloc, id, payload.as_slice()),
        Err(_) => false,
    }
}

fn has_length(alloc: Global, id: u8, payload: &[u8]) -> bool {
    match read_ext(alloc, ids(), Rules::Free, id, payload) {
        Ok(value) => is_spelled(alloc, &value, id, payload),
        Err(_) => false,
    }
}

#[test]
fn longest_payloads(rt: HostRuntime) {
    for id in LONGEST {
        assert!(rt; is_longest(rt.alloc(), *id), "{id}");
    }
}
