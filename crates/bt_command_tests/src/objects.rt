//! The objects of `show --json`, by the call that appends them and by the one that writes them into room that is there.
use bt_ext::{ExtId, Registered, Rules};
use bt_json::{LINE_ROOM, add_message_line, message_line};
use bt_text::putting::Offset;
use bt_wire::{Front, MessageView, Order, Own, Reserved, negotiate, read_front};
use std::alloc::Global;
use std::str::from_utf8;

/// What stands before an object.
const BEFORE: &[u8] = b"before\n";

/// Messages, and what stands before the object at the offset 68 with the object.
const OBJECTS: &[(&[u8], &[u8])] = &[
    (
        b"\0\0\0\0",
        b"before\n{\"offset\":68,\"item\":\"keep-alive\"}\n",
    ),
    (
        b"\0\0\0\x05\x04\0\0\0\x09",
        b"before\n{\"offset\":68,\"item\":\"have\",\"index\":9}\n",
    ),
    (
        b"\0\0\0\x0d\x06\0\0\0\x01\0\0\x40\0\0\0\0\x07",
        b"before\n{\"offset\":68,\"item\":\"request\",\"index\":1,\"begin\":16384,\"length\":7}\n",
    ),
    (
        b"\0\0\0\x0c\x07\0\0\0\x01\0\0\x40\0xyz",
        b"before\n{\"offset\":68,\"item\":\"piece\",\"index\":1,\"begin\":16384,\"bytes\":3}\n",
    ),
    (
        b"\0\0\0\x03\x09\x1a\xe1",
        b"before\n{\"offset\":68,\"item\":\"port\",\"port\":6881}\n",
    ),
    (
        b"\0\0\0\x3a\x14\0d1:md11:ut_metadatai3ee13:metadata_sizei31235e1:v2:bteyz",
        b"before\n{\"offset\":68,\"item\":\"ext-handshake\",\"dictionary\":54,\"rest\":2\
,\"metadata_size\":31235,\"ut_metadata\":3,\"client\":\"bt\"}\n",
    ),
    (
        b"\0\0\0\x04\x14\0de",
        b"before\n{\"offset\":68,\"item\":\"ext-handshake\",\"dictionary\":2,\"rest\":0\
,\"metadata_size\":null,\"ut_metadata\":null,\"client\":null}\n",
    ),
    // (names with escapes, in UTF-8 and not)
    (
        b"\0\0\0\x12\x14\0d1:v9:a\"b\\c\n\x1f\xc3\xa9e",
        b"before\n{\"offset\":68,\"item\":\"ext-handshake\",\"dictionary\":16,\"rest\":0\
,\"metadata_size\":null,\"ut_metadata\":null,\"client\":\"a\\\"b\\\\c\\n\\u001f\xc3\xa9\"}\n",
    ),
    (
        b"\0\0\0\x0a\x14\0d1:v1:\xffe",
        b"before\n{\"offset\":68,\"item\":\"ext-handshake\",\"dictionary\":8,\"rest\":0\
,\"metadata_size\":null,\"ut_metadata\":null,\"client\":null}\n",
    ),
];

/// A receiver that knows both extensions.
fn own() -> Own {
    Own {
        reserved: Reserved(0x10_0005),
        info_hash: None,
        pieces: None,
        reg: Registered::metadata_only(ExtId::new(0)),
        rules: Rules::Free,
        limit: 262_144,
    }
}

/// Appends the object to what stands before it.
fn appended(alloc: Global, view: &MessageView) -> Option<Vec<u8>> {
    let mut lines = Vec::from_slice(alloc, BEFORE).ok()?;
    message_line(alloc, 68, view, &mut lines).ok()?;
    Some(lines)
}

/// Writes the object after what stands before it, into a text that has the room that a line needs.
fn added(alloc: Global, view: &MessageView) -> Option<Vec<u8>> {
    let mut text = Vec::from_slice(alloc, BEFORE).ok()?;
    text.resize(BEFORE.len() + LINE_ROOM, b'.').ok()?;
    let end = add_message_line(&mut Offset::new(), 68, view, &mut text, BEFORE.len()).ok()?;
    text.truncate(end);
    Some(text)
}

/// Returns the message.
fn read<'a>(own: &Own, bytes: &'a [u8]) -> Option<MessageView<'a>> {
    match read_front(&negotiate(own, own.reserved), Order::Fresh, 68, bytes) {
        Front::Whole(view, _) => Some(view),
        _ => None,
    }
}

fn is_right(alloc: Global, bytes: &[u8], text: &[u8]) -> bool {
    match read(&own(), bytes) {
        Some(view) => {
            appended(alloc, &view).as_deref() == Some(text)
                && added(alloc, &view).as_deref() == Some(text)
        }
        None => false,
    }
}

#[test]
fn objects_are_written(rt: HostRuntime) {
    for (bytes, text) in OBJECTS {
        assert!(rt; is_right(rt.alloc(), bytes, text), "{text:?}");
    }
}

/// An extended handshake with this client's name.
fn named(alloc: Global, name: &[u8]) -> Option<Vec<u8>> {
    let size = format!(in alloc; "{}", name.len()).ok()?;
    let length = name.len().saturating_add(size.len()).saturating_add(8);
    let mut bytes = Vec::from_slice(alloc, &u32::try_from(length).ok()?.to_be_bytes()).ok()?;
    bytes.extend_from_slice(b"\x14\0d1:v").ok()?;
    bytes.extend_from_slice(size.as_bytes()).ok()?;
    bytes.push(b':').ok()?;
    bytes.extend_from_slice(name).ok()?;
    bytes.push(b'e').ok()?;
    Some(bytes)
}

/// Appends a byte as RFC 8259 has it between quotes, by the shortest escape.
fn push_escaped(alloc: Global, text: &mut Vec<u8>, byte: u8) -> Option<()> {
    match byte {
        b'"' => text.extend_from_slice(b"\\\"").ok(),
        b'\\' => text.extend_from_slice(b"\\\\").ok(),
        0x08 => text.extend_from_slice(b"\\b").ok(),
        0x09 => text.extend_from_slice(b"\\t").ok(),
        0x0A => text.extend_from_slice(b"\\n").ok(),
        0x0C => text.extend_from_slice(b"\\f").ok(),
        0x0D => text.extend_from_slice(b"\\r").ok(),
        0..=0x1F => {
            let escape = format!(in alloc; "\\u{byte:04x}").ok()?;
            text.extend_from_slice(escape.as_bytes()).ok()
        }
        _ => text.push(byte).ok(),
    }
}

/// The object with this client's name after what stands before it; null stands for a name that isn't UTF-8.
fn expected(alloc: Global, name: &[u8]) -> Option<Vec<u8>> {
    let mut text = Vec::from_slice(alloc, BEFORE).ok()?;
    let size = format!(in alloc; "{}", name.len()).ok()?;
    let length = name.len().saturating_add(size.len()).saturating_add(6);
    let front = format!(in alloc;
        "{{\"offset\":68,\"item\":\"ext-handshake\",\"dictionary\":{length},\"rest\":0"
    ).ok()?;
    text.extend_from_slice(front.as_bytes()).ok()?;
    text.extend_from_slice(b",\"metadata_size\":null,\"ut_metadata\":null,\"client\":")
        .ok()?;
    if from_utf8(name).is_err() {
        text.extend_from_slice(b"null}\n").ok()?;
        return Some(text);
    }
    text.push(b'"').ok()?;
    for byte in name {
        push_escaped(alloc, &mut text, *byte)?;
    }
    text.extend_from_slice(b"\"}\n").ok()?;
    Some(text)
}

/// Returns `count` bytes `q`, the one at `place` replaced by `byte`.
fn name_with(alloc: Global, count: usize, place: usize, byte: u8) -> Option<Vec<u8>> {
    let mut name = Vec::new(alloc);
    for k in 0..count {
        let next = if k == place { byte } else { b'q' };
        name.push(next).ok()?;
    }
    Some(name)
}

/// Whether the object is right of such a name.
fn is_name_right(alloc: Global, count: usize, place: usize, byte: u8) -> bool {
    let Some(name) = name_with(alloc, count, place, byte) else {
        return false;
    };
    match (
        named(alloc, name.as_slice()),
        expected(alloc, name.as_slice()),
    ) {
        (Some(bytes), Some(text)) => is_right(alloc, &bytes, text.as_slice()),
        _ => false,
    }
}

/// Whether the object is right of a name of `count` times the same byte.
fn is_row_right(alloc: Global, count: usize, byte: u8) -> bool {
    let name = [byte; 300];
    let name = &name[..count.min(300)];
    match (named(alloc, name), expected(alloc, name)) {
        (Some(bytes), Some(text)) => is_right(alloc, &bytes, text.as_slice()),
        _ => false,
    }
}

/// Each byte, and names of 0 to 300 bytes with an escape next to the steps of 32 in which runs are looked for.
#[test]
fn names_are_escaped(rt: HostRuntime) {
    for byte in 0..=255u8 {
        assert!(rt; is_name_right(rt.alloc(), 1, 0, byte), "{byte}");
        assert!(rt; is_name_right(rt.alloc(), 40, 20, byte), "{byte}");
    }
    for byte in [b'q', b'"', 1, 0xFF] {
        for count in [0, 31, 32, 33, 255, 256, 257, 300] {
            assert!(rt; is_row_right(rt.alloc(), count, byte), "{byte} {count}");
            assert!(rt;
                is_name_right(rt.alloc(), count, 31, byte),
                "{byte} {count}"
            );
            assert!(rt;
                is_name_right(rt.alloc(), count, 32, byte),
                "{byte} {count}"
            );
        }
    }
}
