//! The lines of scripts: public calls that the program doesn't make, and texts that no script can hold as a line.
use bt_ext::{ExtId, Registered, Rules};
use bt_text::script::reading::{LineFront, append_front, read_line};
use bt_text::script::writing::{push_handshake_line, push_message_line};
use bt_wire::{Front, Opening, Order, Own, Reserved, negotiate, read_front, read_opening};
use std::alloc::{AllocError, Global};

/// Texts, and the bytes that they name as a line after the first, where they are one.
const LINES: &[(&[u8], Option<&[u8]>)] = &[
    (b"have 9", Some(b"\0\0\0\x05\x04\0\0\0\x09")),
    (b"extended 0 -", Some(b"\0\0\0\x02\x14\0")),
    (b"have 9\n", None),
];

fn says(alloc: Global, text: &[u8], bytes: Option<&[u8]>) -> bool {
    let mut read = Vec::new(alloc);
    text.len() < 1000
        && read_line(text, false, &mut read) == Ok(bytes.is_some())
        && (bytes.is_none() || bytes == Some(read.as_slice()))
}

#[test]
fn texts_are_read(rt: HostRuntime) {
    for (text, bytes) in LINES {
        assert!(rt; says(rt.alloc(), text, *bytes), "{text:?}");
    }
}

/// Texts that begin with a line after the first, the bytes that it names, and what follows its line feed.
const FRONTS: &[(&[u8], &[u8], &[u8])] = &[
    (b"keep-alive\n", b"\0\0\0\0", b""),
    (b"choke\n\n", b"\0\0\0\x01\0", b"\n"),
    (b"not-interested\nno line", b"\0\0\0\x01\x03", b"no line"),
    (b"have-none\n", b"\0\0\0\x01\x0f", b""),
    (b"have 0\nhave 1\n", b"\0\0\0\x05\x04\0\0\0\0", b"have 1\n"),
    (b"have 4294967289\n", b"\0\0\0\x05\x04\xff\xff\xff\xf9", b""),
    (b"allowed-fast 258\n", b"\0\0\0\x05\x11\0\0\x01\x02", b""),
    (b"unchoke\nchoke\n", b"\0\0\0\x01\x01", b"choke\n"),
    // (of eight digits and of nine, with bytes after them and without)
    (
        b"have 12345678\nhave 1\n",
        b"\0\0\0\x05\x04\0\xbc\x61\x4e",
        b"have 1\n",
    ),
    (
        b"request 12345678 123456789 16384\nhave 1\n",
        b"\0\0\0\x0d\x06\0\xbc\x61\x4e\x07\x5b\xcd\x15\0\0\x40\0",
        b"have 1\n",
    ),
    (b"have 1234567\n", b"\0\0\0\x05\x04\0\x12\xd6\x87", b""),
    (b"have 12345678\n", b"\0\0\0\x05\x04\0\xbc\x61\x4e", b""),
    (b"have 99999999\n", b"\0\0\0\x05\x04\x05\xf5\xe0\xff", b""),
    (
        b"have 123456789\nhave 1\n",
        b"\0\0\0\x05\x04\x07\x5b\xcd\x15",
        b"have 1\n",
    ),
    (
        b"suggest 0\nunchoke\n",
        b"\0\0\0\x05\x0d\0\0\0\0",
        b"unchoke\n",
    ),
    (
        b"request 1 16384 10\n1",
        b"\0\0\0\x0d\x06\0\0\0\x01\0\0\x40\0\0\0\0\x0a",
        b"1",
    ),
    (
        b"reject 0 0 1\n",
        b"\0\0\0\x0d\x10\0\0\0\0\0\0\0\0\0\0\0\x01",
        b"",
    ),
    (b"have 4294967290\n", b"\0\0\0\x05\x04\xff\xff\xff\xfa", b""),
    (b"have 4294967295\n", b"\0\0\0\x05\x04\xff\xff\xff\xff", b""),
    (
        b"request 4294967295 4294967295 4294967295\nhave 1\n",
        b"\0\0\0\x0d\x06\xff\xff\xff\xff\xff\xff\xff\xff\xff\xff\xff\xff",
        b"have 1\n",
    ),
    (
        b"cancel 2147483648 0 16384\ncancel 0\n",
        b"\0\0\0\x0d\x08\x80\0\0\0\0\0\0\0\0\0\x40\0",
        b"cancel 0\n",
    ),
    (b"port 1\n", b"\0\0\0\x03\x09\0\x01", b""),
    (b"unknown 99 -\n", b"\0\0\0\x01\x63", b""),
];

/// Texts whose first line is none.
const NO_FRONTS: &[&[u8]] = &[
    b"\n",
    b"choke \n",
    b"choke 1\n",
    b"Choke\n",
    b"have\n",
    b"have \n",
    b"have  1\n",
    b"have 1 \n",
    b"have 1 2\n",
    b"have 00\n",
    b"have 01\n",
    b"have 01\nhave 01\n",
    b"have 012345678\n",
    b"have 1234567x\n",
    b"have 12345678 \n",
    b"have 123456789012\n",
    b"have x1234567\n",
    b"have -1\n",
    b"have 4294967296\n",
    b"have 42949672960\n",
    b"have 4294967296\nhave 1\n",
    b"have 18446744073709551617\nhave 1\n",
    b"have 1\r\nhave 1\n",
    b"request 1 2 3\r\nhave 1\n",
    b"request 01 2 3\nhave 1 2 3 4\n",
    b"haves 1\nhave 1\n",
    b"request 1 2\n",
    b"request 1 2 3 4\n",
    b"request 1 2\n3\n",
    b"unchok\n",
    b"unchokes\n",
    b"uninterested\n",
];

/// Texts that no line feed ends.
const UNENDED: &[&[u8]] = &[
    b"",
    b"choke",
    b"have 1",
    b"have 12345678",
    b"have 123456789012",
    b"request 1 2 3",
    b"unchoke",
];

/// How long the lines of these texts may be, less 256 and halved.
const LIMIT: u32 = 16;

fn takes(alloc: Global, text: &[u8], bytes: &[u8], following: &[u8]) -> bool {
    let mut out = Vec::new(alloc);
    match append_front(text, false, LIMIT, &mut out) {
        Ok(LineFront::Line(rest)) => rest == following && out.as_slice() == bytes,
        _ => false,
    }
}

fn is_no_line(alloc: Global, text: &[u8], first: bool) -> bool {
    let mut out = Vec::new(alloc);
    let answer = append_front(text, first, LIMIT, &mut out);
    matches!(answer, Ok(LineFront::Syntax)) && out.as_slice().is_empty()
}

fn is_unended(alloc: Global, text: &[u8]) -> bool {
    let mut out = Vec::new(alloc);
    let answer = append_front(text, false, LIMIT, &mut out);
    matches!(answer, Ok(LineFront::Unended)) && out.as_slice().is_empty()
}

/// Returns a line of a field whose text has this many bytes, and its line feed.
fn long_line(alloc: Global, size: usize) -> Result<Vec<u8>, AllocError> {
    let mut line = Vec::from_slice(alloc, b"bitfield ")?;
    line.resize(size, b'0')?;
    line.push(b'\n')?;
    Ok(line)
}

#[test]
fn fronts_are_taken(rt: HostRuntime) {
    for (text, bytes, following) in FRONTS {
        assert!(rt; takes(rt.alloc(), text, bytes, following), "{text:?}");
        assert!(rt; is_no_line(rt.alloc(), text, true), "{text:?}");
    }
    for text in NO_FRONTS {
        assert!(rt; is_no_line(rt.alloc(), text, false), "{text:?}");
    }
    for text in UNENDED {
        assert!(rt; is_unended(rt.alloc(), text), "{text:?}");
    }
}

#[test]
fn long_lines_are_refused(rt: HostRuntime) {
    // (288 bytes are the most, and hex digits come in pairs)
    match (long_line(rt.alloc(), 287), long_line(rt.alloc(), 289)) {
        (Ok(longest), Ok(longer)) => {
            let mut out = Vec::new(rt.alloc());
            let answer = append_front(longest.as_slice(), false, LIMIT, &mut out);
            assert!(rt; matches!(answer, Ok(LineFront::Line(b""))) && out.len() == 5 + 139);
            assert!(rt; is_no_line(rt.alloc(), longer.as_slice(), false));
        }
        _ => assert!(rt; false),
    }
}

/// A handshake of reserved bytes 0000000000100005, the SHA-1 of `abc` and the peer id `-XX0001-000000000000`, or else a message;
/// and its line, after other text.
const WRITTEN: &[(&[u8], &[u8])] = &[
    (
        b"\x13BitTorrent protocol\x00\x00\x00\x00\x00\x10\x00\x05\xa9\x99\x3e\x36\x47\x06\x81\x6a\xba\x3e\x25\x71\x78\x50\xc2\x6c\x9c\xd0\xd8\x9d-XX0001-000000000000",
        b"before\nhandshake 0000000000100005 a9993e364706816aba3e25717850c26c9cd0d89d 2d5858303030312d303030303030303030303030\n",
    ),
    (
        b"\0\0\0\x0c\x07\0\0\0\x01\0\0\0\0abc",
        b"before\npiece 1 0 616263\n",
    ),
    (
        b"\0\0\0\x1b\x14\x03d8:msg_typei0e5:piecei0ee",
        b"before\nextended 3 64383a6d73675f74797065693065353a706965636569306565\n",
    ),
];

/// A receiver that knows both extensions, and keeps all extended messages but handshakes raw.
fn own() -> Own {
    Own {
        reserved: Reserved(0x10_0005),
        info_hash: None,
        pieces: None,
        reg: Registered::metadata_only(ExtId::new(0)),
        rules: Rules::Free,
        limit: 262_144,
    }
}

/// Adds the line of an item; nothing where it is none.
fn add_line(own: &Own, bytes: &[u8], text: &mut Vec<u8>) -> bool {
    if let Opening::Whole(handshake) = read_opening(own, bytes) {
        return push_handshake_line(&handshake, text).is_ok();
    }
    match read_front(&negotiate(own, own.reserved), Order::Fresh, 68, bytes) {
        Front::Whole(view, _) => push_message_line(own, &view, text).is_ok(),
        _ => false,
    }
}

fn writes(alloc: Global, bytes: &[u8], line: &[u8]) -> bool {
    match Vec::from_slice(alloc, b"before\n") {
        Ok(mut text) => add_line(&own(), bytes, &mut text) && text.as_slice() == line,
        Err(_) => false,
    }
}

#[test]
fn lines_are_written(rt: HostRuntime) {
    for (bytes, line) in WRITTEN {
        assert!(rt; writes(rt.alloc(), bytes, line), "{line:?}");
    }
}
