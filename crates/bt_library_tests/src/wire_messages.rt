//! Messages: judged by their first bytes, read, written, and why they may not be.
use crate::ext_parts::registered;
use bt_ext::Rules;
use bt_wire::*;
use std::alloc::{AllocError, Global};

pub(crate) const LIMIT: u32 = 262_144;

/// The rules, whether both ends have the Fast Extension and the Extension Protocol, the number of pieces, and the limit.
type Setup = (Rules, bool, bool, Option<u32>, u32);

const FREE: Setup = (Rules::Free, true, true, None, LIMIT);

const TEN: Setup = (Rules::Free, true, true, Some(10), LIMIT);

const NONE: Setup = (Rules::Free, true, true, Some(0), LIMIT);

const SLOW: Setup = (Rules::Free, false, true, None, LIMIT);

const PLAIN: Setup = (Rules::Free, true, false, None, LIMIT);

const BEP: Setup = (Rules::Bep, true, true, Some(10), LIMIT);

const NARROW: Setup = (Rules::Bep, true, true, Some(10), 2);

/// What two ends have agreed on. The receiver's ids are 3 for `ut_metadata` and this one for `lt_donthave`.
fn agreed((rules, fast, ext, pieces, limit): Setup, donthave: u8) -> Context {
    Context {
        fast,
        ext,
        pieces,
        reg: registered(3, donthave),
        rules,
        limit,
    }
}

const LONG: Header = Header::Refused {
    at: 0,
    reason: Reason::TooLong,
};

/// A limit, the first bytes of a message, and the judgement on them.
const HEADERS: &[(u32, &[u8], Header)] = &[
    (LIMIT, b"", Header::Need(4)),
    (LIMIT, b"\xff\xff\xff", Header::Need(4)),
    (LIMIT, b"\xff\xff\xff\xff", LONG),
    (LIMIT, b"\0\0\0\0", Header::Window(4)),
    (LIMIT, b"\0\0\0\0\x63", Header::Window(4)),
    (LIMIT, b"\0\0\0\x01", Header::Need(5)),
    (LIMIT, b"\0\x04\0\x01", LONG),
    (LIMIT, b"\0\x04\0\0", Header::Need(5)),
    (LIMIT, b"\0\x04\0\0\x07", Header::Window(262_148)),
    (4_294_967_295, b"\xff\xff\xff\xff", Header::Need(5)),
    (
        4_294_967_295,
        b"\xff\xff\xff\xff\x63",
        Header::Window(4_294_967_299),
    ),
];

fn is_judged(limit: u32, head: &[u8], answer: Header) -> bool {
    let context = agreed((Rules::Free, false, true, None, limit), 0);
    judge_header(&context, Order::Fresh, head) == answer
}

#[test]
fn headers(rt: HostRuntime) {
    for (limit, head, answer) in HEADERS {
        assert!(rt; is_judged(*limit, head, *answer), "{head:?}");
    }
}

/// No message starts at this offset or later.
const END: u64 = 1 << 62;

/// Whether a keep-alive that starts there is refused, since the stream is full.
fn is_full(start: u64) -> bool {
    match read_front(&agreed(FREE, 0), Order::Fresh, start, b"\0\0\0\0") {
        Front::Refused(refused) => refused.at == 0 && refused.reason == Reason::StreamFull,
        _ => false,
    }
}

#[test]
fn full_streams(rt: HostRuntime) {
    assert!(rt; is_full(END) && !is_full(END - 1));
}

/// Whether the message is legal and written as the bytes.
fn is_encoded(
    alloc: Global,
    context: &Context,
    order: Order,
    message: &Message,
    bytes: &[u8],
) -> bool {
    match encode(alloc, context, order, message) {
        Ok(encoded) => encoded.as_slice() == bytes && legal(context, order, message).is_ok(),
        Err(_) => false,
    }
}

/// Whether both have the same id and leave the same order.
fn are_alike(order: Order, message: &Message, view: &MessageView) -> bool {
    message.id() == view.id() && next(order, message) == next_of_view(order, view)
}

/// Whether the view is copied as a message that is like it and is written as the bytes.
fn is_copied(
    alloc: Global,
    context: &Context,
    order: Order,
    view: &MessageView,
    bytes: &[u8],
) -> bool {
    match copy_message(alloc, view) {
        Ok(message) => {
            are_alike(order, &message, view) && is_encoded(alloc, context, order, &message, bytes)
        }
        Err(_) => false,
    }
}

/// Whether the bytes are one message, which is written as the bytes again.
fn is_read_back(alloc: Global, context: &Context, order: Order, bytes: &[u8]) -> bool {
    match read_front(context, order, 0, bytes) {
        Front::Whole(view, length) => {
            length == bytes.len() && is_copied(alloc, context, order, &view, bytes)
        }
        _ => false,
    }
}

/// A message that takes back piece 9, under the id 4 (`lt_donthave`).
const TAKEN_BACK: &[u8] = b"\0\0\0\x06\x14\x04\0\0\0\x09";

/// Messages of each kind. What `show` prints of them is tried on the program.
const MESSAGES: &[(Setup, Order, &[u8])] = &[
    (TEN, Order::Fresh, b"\0\0\0\0"),
    (TEN, Order::Fresh, b"\0\0\0\x01\0"),
    (TEN, Order::Fresh, b"\0\0\0\x01\x01"),
    (TEN, Order::Fresh, b"\0\0\0\x01\x02"),
    (TEN, Order::Fresh, b"\0\0\0\x01\x03"),
    (TEN, Order::Fresh, b"\0\0\0\x05\x04\0\0\0\x09"),
    (FREE, Order::Fresh, b"\0\0\0\x05\x04\xff\xfe\xfd\xfc"),
    (TEN, Order::Fresh, b"\0\0\0\x03\x05\xff\xc0"),
    (FREE, Order::Past, b"\0\0\0\x03\x05\xff\xe0"),
    (NONE, Order::Fresh, b"\0\0\0\x01\x05"),
    (
        TEN,
        Order::Fresh,
        b"\0\0\0\x0d\x06\0\0\0\x01\0\0\x40\0\0\0\x20\0",
    ),
    (TEN, Order::Fresh, b"\0\0\0\x09\x07\0\0\0\x01\0\0\x40\0"),
    (
        TEN,
        Order::Fresh,
        b"\0\0\0\x0b\x07\0\0\0\x09\xff\xff\xff\xffab",
    ),
    (
        BEP,
        Order::Past,
        b"\0\0\0\x0d\x08\0\0\0\x01\0\0\x40\0\0\0\x20\0",
    ),
    (SLOW, Order::Fresh, b"\0\0\0\x03\x09\x1a\xe1"),
    (TEN, Order::Fresh, b"\0\0\0\x05\x0d\0\0\0\x09"),
    (BEP, Order::Fresh, b"\0\0\0\x01\x0e"),
    (BEP, Order::Fresh, b"\0\0\0\x01\x0f"),
    (
        BEP,
        Order::Past,
        b"\0\0\0\x0d\x10\0\0\0\x01\0\0\x40\0\0\0\x20\0",
    ),
    (TEN, Order::Fresh, b"\0\0\0\x05\x11\0\0\0\x09"),
    (SLOW, Order::Fresh, b"\0\0\0\x01\x63"),
    (TEN, Order::Fresh, b"\0\0\0\x03\x0aab"),
    (BEP, Order::Past, TAKEN_BACK),
    (BEP, Order::Past, b"\0\0\0\x04\x14\0de"),
    (
        BEP,
        Order::Fresh,
        b"\0\0\0\x2e\x14\x03d8:msg_typei1e5:piecei0e10:total_sizei3eeabc",
    ),
    (BEP, Order::Fresh, b"\0\0\0\x04\x14\x05le"),
];

#[test]
fn messages(rt: HostRuntime) {
    for (setup, order, bytes) in MESSAGES {
        let is_right = is_read_back(rt.alloc(), &agreed(*setup, 4), *order, bytes);
        assert!(rt; is_right, "{bytes:?}");
    }
}

fn is_fault(error: DecodeError, fault: Option<Refused>) -> bool {
    match error {
        DecodeError::Refused { at, reason } => fault == Some(Refused { at, reason }),
        DecodeError::Memory => false,
    }
}

/// Whether the window, which is one whole message by its header, has the fault, or is decoded and written again without one.
fn is_decoded(
    alloc: Global,
    context: &Context,
    order: Order,
    window: &[u8],
    fault: Option<Refused>,
) -> bool {
    judge_header(context, order, window) == Header::Window(window.len() as u64)
        && view_window(context, order, window).err() == fault
        && match decode_window(alloc, context, order, window) {
            Ok(message) => {
                fault.is_none() && is_encoded(alloc, context, order, &message, window)
            }
            Err(error) => is_fault(error, fault),
        }
}

/// Extended messages with one fault each: no dictionary, keys out of order, an `m` that is none, a block of 2 bytes for 3.
const NO_INTEGER: &[u8] = b"\0\0\0\x0b\x14\0d1:pi-0ee";

const UNSORTED: &[u8] = b"\0\0\0\x2d\x14\0d13:metadata_sizei3e1:md11:ut_metadatai3eee";

const NO_NAMES: &[u8] = b"\0\0\0\x0a\x14\0d1:mi1ee";

const SHORT: &[u8] = b"\0\0\0\x2d\x14\x03d8:msg_typei1e5:piecei0e10:total_sizei3eeab";

/// A message, and the fault of its fields.
const WINDOWS: &[(&[u8], Option<Refused>)] = &[
    (b"\0\0\0\x05\x04\0\0\0\x09", None),
    (
        b"\0\0\0\x05\x04\0\0\0\x0a",
        Some(Refused {
            at: 5,
            reason: Reason::BadIndex,
        }),
    ),
    (
        b"\0\0\0\x05\x14\x04\0\0\x09",
        Some(Refused {
            at: 6,
            reason: Reason::BadExtLength,
        }),
    ),
    (
        NO_INTEGER,
        Some(Refused {
            at: 12,
            reason: Reason::BadBencode,
        }),
    ),
    (
        UNSORTED,
        Some(Refused {
            at: 26,
            reason: Reason::Unsorted,
        }),
    ),
    (
        NO_NAMES,
        Some(Refused {
            at: 6,
            reason: Reason::BadField,
        }),
    ),
    (
        SHORT,
        Some(Refused {
            at: 47,
            reason: Reason::BadBlock,
        }),
    ),
];

#[test]
fn windows(rt: HostRuntime) {
    for (window, fault) in WINDOWS {
        let is_right = is_decoded(rt.alloc(), &agreed(BEP, 4), Order::Past, window, *fault);
        assert!(rt; is_right, "{window:?}");
    }
}

/// Whether the message may not be written for the fault.
fn is_refused(
    alloc: Global,
    context: &Context,
    order: Order,
    message: &Message,
    fault: Fault,
) -> bool {
    legal(context, order, message).err() == Some(fault)
        && encode(alloc, context, order, message).err() == Some(EncodeError::Illegal(fault))
}

fn is_copy_refused(
    alloc: Global,
    context: &Context,
    order: Order,
    view: &MessageView,
    fault: Fault,
) -> bool {
    match copy_message(alloc, view) {
        Ok(message) => is_refused(alloc, context, order, &message, fault),
        Err(_) => false,
    }
}

/// A setup, the receiver's id of `lt_donthave`, the order, a message, and why it may not be written.
type Illegal = (Setup, u8, Order, &'static [u8], Fault);

/// Each reason that holds of a value.
const ILLEGAL: &[Illegal] = &[
    (
        NARROW,
        4,
        Order::Fresh,
        b"\0\0\0\x05\x04\0\0\0\x0a",
        Fault::Reason(Reason::TooLong),
    ),
    (
        BEP,
        4,
        Order::Fresh,
        b"\0\0\0\x01\x63",
        Fault::Reason(Reason::UnknownId),
    ),
    (
        SLOW,
        4,
        Order::Fresh,
        b"\0\0\0\x01\x0e",
        Fault::Reason(Reason::NotNegotiated),
    ),
    (
        PLAIN,
        4,
        Order::Fresh,
        UNSORTED,
        Fault::Reason(Reason::NotNegotiated),
    ),
    (
        TEN,
        4,
        Order::Fresh,
        b"\0\0\0\x04\x05\xff\xc0\x01",
        Fault::Reason(Reason::WrongLength),
    ),
    (
        BEP,
        4,
        Order::Past,
        b"\0\0\0\x03\x05\xff\xe0",
        Fault::Reason(Reason::Late),
    ),
    (
        BEP,
        4,
        Order::Fresh,
        b"\0\0\0\x05\x04\0\0\0\x0a",
        Fault::Reason(Reason::Missing),
    ),
    (
        BEP,
        4,
        Order::Past,
        b"\0\0\0\x05\x04\0\0\0\x0a",
        Fault::Reason(Reason::BadIndex),
    ),
    (
        NONE,
        4,
        Order::Fresh,
        b"\0\0\0\x05\x04\0\0\0\0",
        Fault::Reason(Reason::BadIndex),
    ),
    (
        TEN,
        4,
        Order::Fresh,
        b"\0\0\0\x03\x05\xff\xe0",
        Fault::Reason(Reason::SpareBits),
    ),
    (
        BEP,
        4,
        Order::Fresh,
        UNSORTED,
        Fault::Reason(Reason::Unsorted),
    ),
    (
        BEP,
        4,
        Order::Fresh,
        NO_NAMES,
        Fault::Reason(Reason::BadField),
    ),
    (BEP, 4, Order::Fresh, SHORT, Fault::Reason(Reason::BadBlock)),
    (
        (Rules::Bep, true, true, Some(9), LIMIT),
        4,
        Order::Past,
        TAKEN_BACK,
        Fault::Reason(Reason::BadIndex),
    ),
    (BEP, 0, Order::Past, TAKEN_BACK, Fault::Shape),
];

/// Whether the message, which is read where nearly all are allowed, may not be written for the fault.
fn is_illegal(alloc: Global, (setup, donthave, order, bytes, fault): &Illegal) -> bool {
    match read_front(&agreed(FREE, 4), Order::Fresh, 0, bytes) {
        Front::Whole(view, _) => {
            is_copy_refused(alloc, &agreed(*setup, *donthave), *order, &view, *fault)
        }
        _ => false,
    }
}

#[test]
fn illegal(rt: HostRuntime) {
    for row in ILLEGAL {
        assert!(rt; is_illegal(rt.alloc(), row), "{:?} {:?}", row.3, row.4);
    }
}

/// Whether an unknown message of three bytes isn't legal for the fault where two are allowed.
fn has_fault(alloc: Global, id: u8, fault: Fault) -> bool {
    let payload = b"abc".as_slice();
    let view = MessageView::Unknown { id, payload };
    is_copy_refused(alloc, &agreed(NARROW, 4), Order::Past, &view, fault)
}

const TOO_LONG: Fault = Fault::Reason(Reason::TooLong);

/// The ids from the first to the second, and what isn't legal in an unknown message of three bytes with one of them.
const SHAPES: &[(u8, u8, Fault)] = &[
    (0, 9, Fault::Shape),
    (10, 12, TOO_LONG),
    (13, 17, Fault::Shape),
    (18, 19, TOO_LONG),
    (20, 20, Fault::Shape),
    (21, 22, TOO_LONG),
];

/// An unknown message with an id that has a meaning has no spelling of its own, whatever else is wrong with it.
#[test]
fn shapes(rt: HostRuntime) {
    for &(low, high, fault) in SHAPES {
        for id in low..=high {
            assert!(rt; has_fault(rt.alloc(), id, fault), "{id}");
        }
    }
}

/// An id, the fields, and the message.
const FRAMED: &[(u8, &[u8], &[u8])] = &[
    (1, b"", b"\0\0\0\x01\x01"),
    (4, b"\0\0\0\x09", b"\0\0\0\x05\x04\0\0\0\x09"),
    (20, b"\0", b"\0\0\0\x02\x14\0"),
    (99, b"abc", b"\0\0\0\x04cabc"),
];

fn is_framed(framed: Result<Vec<u8>, AllocError>, bytes: &[u8]) -> bool {
    match framed {
        Ok(framed) => framed.as_slice() == bytes,
        Err(_) => false,
    }
}

#[test]
fn messages_are_framed(rt: HostRuntime) {
    for &(id, fields, bytes) in FRAMED {
        assert!(rt; is_framed(frame(rt.alloc(), id, fields), bytes), "{id}");
    }
}

/// Ids and their names.
const NAMES: &[(u8, &str)] = &[
    (0, "choke"),
    (3, "not-interested"),
    (4, "have"),
    (16, "reject"),
    (20, "extended"),
];

fn is_named(id: u8, name: &str) -> bool {
    let back = match id_name(id) {
        Some(found) => found == name,
        None => false,
    };
    back && id_named(name.as_bytes()) == Some(id) && kind_of(id).is_some()
}

#[test]
fn names(rt: HostRuntime) {
    for &(id, name) in NAMES {
        assert!(rt; is_named(id, name), "{name}");
    }
    assert!(rt; id_name(10).is_none() && id_named(b"Choke").is_none() && kind_of(10).is_none());
}
