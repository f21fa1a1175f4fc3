//! Frames of each link type, and what they carry. All values are by hand.
use bt_packet::{
    Address, Flags, Host, Segment, Unread, Utp, UtpKind, segment_of, unread_of, utp_of,
};
use std::alloc::{AllocError, Global};

/// Two addresses of Ethernet.
const ETHERNET: &[u8] = b"\x02\0\0\0\0\x02\x02\0\0\0\0\x01";

/// The rest of an IPv4 header of 10.0.0.1 and 10.0.0.2 after its total length: of TCP, and of UDP.
const OVER_IPV4: &[u8] = b"\0\x01\x40\0\x40\x06\0\0\x0a\0\0\x01\x0a\0\0\x02";

const UDP_OVER_IPV4: &[u8] = b"\0\x01\0\0\x40\x11\0\0\x0a\0\0\x01\x0a\0\0\x02";

/// As above, of 192.0.2.1 and 192.0.2.2, with GRE.
const GRE_OVER_IPV4: &[u8] = b"\0\x01\0\0\x40\x2f\0\0\xc0\0\x02\x01\xc0\0\x02\x02";

/// The addresses 2001:db8::1 and fe80::a00:20ff.
const IPV6_HOSTS: &[u8] =
    b"\x20\x01\x0d\xb8\0\0\0\0\0\0\0\0\0\0\0\x01\xfe\x80\0\0\0\0\0\0\0\0\0\0\x0a\0\x20\xff";

/// The ports 6881 and 80, the sequence number 16909060, and the acknowledgment number 168496141.
const NUMBERS: &[u8] = b"\x1a\xe1\0\x50\x01\x02\x03\x04\x0a\x0b\x0c\x0d";

/// The rest of a TCP header with PSH and ACK, and without options.
const PUSH: &[u8] = b"\x50\x18\xff\xff\0\0\0\0";

/// A header of uTP after its type and extension: the id 4660, the number 5, and 4 as the acknowledged number.
const UTP: &[u8] = b"\x12\x34\0\0\0\x01\0\0\0\0\0\x10\0\0\0\x05\0\x04";

/// A frame's link type, its parts, its length on the wire, and what it says: the ends, the numbers, the flags, the data and its length.
struct Row {
    link: u32,
    parts: &'static [&'static [u8]],
    wire: u32,
    said: &'static [u8],
}

const SEGMENTS: &[Row] = &[
    // a byte of padding
    Row {
        link: 1,
        parts: &[
            ETHERNET,
            b"\x08\0",
            b"\x45\0\0\x2d",
            OVER_IPV4,
            NUMBERS,
            PUSH,
            b"hello",
            b"\0",
        ],
        wire: 60,
        said: b"10.0.0.1:6881 10.0.0.2:80 16909060 168496141 a hello 5",
    },
    // a tag, and options of TCP
    Row {
        link: 1,
        parts: &[
            ETHERNET,
            b"\x81\0\0\x64\x08\0",
            b"\x45\0\0\x36",
            OVER_IPV4,
            NUMBERS,
            b"\x80\x10\xff\xff\0\0\0\0\x01\x01\x08\x0a\0\0\0\x01\0\0\0\x02",
            b"hi",
        ],
        wire: 72,
        said: b"10.0.0.1:6881 10.0.0.2:80 16909060 168496141 a hi 2",
    },
    // two tags, and SYN without ACK
    Row {
        link: 1,
        parts: &[
            ETHERNET,
            b"\x88\xa8\0\x01\x81\0\0\x02\x08\0",
            b"\x45\0\0\x28",
            OVER_IPV4,
            NUMBERS,
            b"\x50\x02\xff\xff\0\0\0\0",
        ],
        wire: 62,
        said: b"10.0.0.1:6881 10.0.0.2:80 16909060 s  0",
    },
    // options of IPv4, and RST with ACK
    Row {
        link: 1,
        parts: &[
            ETHERNET,
            b"\x08\0",
            b"\x46\0\0\x2d",
            OVER_IPV4,
            b"\x01\x01\x01\0",
            NUMBERS,
            b"\x50\x14\xff\xff\0\0\0\0",
            b"x",
        ],
        wire: 59,
        said: b"10.0.0.1:6881 10.0.0.2:80 16909060 168496141 ra x 1",
    },
    // a hop-by-hop header, and FIN with ACK
    Row {
        link: 1,
        parts: &[
            ETHERNET,
            b"\x86\xdd",
            b"\x60\0\0\0\0\x1f\0\x40",
            IPV6_HOSTS,
            b"\x06\0\x01\x04\0\0\0\0",
            NUMBERS,
            b"\x50\x11\xff\xff\0\0\0\0",
            b"abc",
            b"\0\0",
        ],
        wire: 87,
        said: b"[2001:db8::1]:6881 [fe80::a00:20ff]:80 16909060 168496141 fa abc 3",
    },
    // Linux cooked captures, loopback and raw IP
    Row {
        link: 113,
        parts: &[
            b"\0\0\0\x01\0\x06\x02\0\0\0\0\x01\0\0\x08\0",
            b"\x45\0\0\x2a",
            OVER_IPV4,
            NUMBERS,
            PUSH,
            b"ok",
        ],
        wire: 58,
        said: b"10.0.0.1:6881 10.0.0.2:80 16909060 168496141 a ok 2",
    },
    Row {
        link: 276,
        parts: &[
            b"\x08\0\0\0\0\0\0\x02\0\x01\0\x06\x02\0\0\0\0\x01\0\0",
            b"\x45\0\0\x2a",
            OVER_IPV4,
            NUMBERS,
            PUSH,
            b"ok",
        ],
        wire: 62,
        said: b"10.0.0.1:6881 10.0.0.2:80 16909060 168496141 a ok 2",
    },
    Row {
        link: 0,
        parts: &[
            b"\x02\0\0\0",
            b"\x45\0\0\x2a",
            OVER_IPV4,
            NUMBERS,
            PUSH,
            b"ok",
        ],
        wire: 46,
        said: b"10.0.0.1:6881 10.0.0.2:80 16909060 168496141 a ok 2",
    },
    Row {
        link: 101,
        parts: &[b"\x45\0\0\x2a", OVER_IPV4, NUMBERS, PUSH, b"ok"],
        wire: 42,
        said: b"10.0.0.1:6881 10.0.0.2:80 16909060 168496141 a ok 2",
    },
    // two labels of MPLS
    Row {
        link: 1,
        parts: &[
            ETHERNET,
            b"\x88\x47\0\x01\0\x40\0\x02\x01\x40",
            b"\x45\0\0\x2a",
            OVER_IPV4,
            NUMBERS,
            PUSH,
            b"ok",
        ],
        wire: 64,
        said: b"10.0.0.1:6881 10.0.0.2:80 16909060 168496141 a ok 2",
    },
    // a tag, and a session of PPP over Ethernet
    Row {
        link: 1,
        parts: &[
            ETHERNET,
            b"\x81\0\0\x07\x88\x64\x11\0\x12\x34\0\x2c\0\x21",
            b"\x45\0\0\x2a",
            OVER_IPV4,
            NUMBERS,
            PUSH,
            b"ok",
        ],
        wire: 68,
        said: b"10.0.0.1:6881 10.0.0.2:80 16909060 168496141 a ok 2",
    },
    // PPP, with and without what HDLC has, and over Ethernet
    Row {
        link: 9,
        parts: &[b"\x21", b"\x45\0\0\x2a", OVER_IPV4, NUMBERS, PUSH, b"ok"],
        wire: 43,
        said: b"10.0.0.1:6881 10.0.0.2:80 16909060 168496141 a ok 2",
    },
    Row {
        link: 50,
        parts: &[
            b"\xff\x03\0\x21",
            b"\x45\0\0\x2a",
            OVER_IPV4,
            NUMBERS,
            PUSH,
            b"ok",
        ],
        wire: 46,
        said: b"10.0.0.1:6881 10.0.0.2:80 16909060 168496141 a ok 2",
    },
    Row {
        link: 51,
        parts: &[
            b"\x11\0\0\x01\0\x2c\0\x21",
            b"\x45\0\0\x2a",
            OVER_IPV4,
            NUMBERS,
            PUSH,
            b"ok",
        ],
        wire: 50,
        said: b"10.0.0.1:6881 10.0.0.2:80 16909060 168496141 a ok 2",
    },
    // GRE with a key, and with a frame of Ethernet
    Row {
        link: 101,
        parts: &[
            b"\x45\0\0\x46",
            GRE_OVER_IPV4,
            b"\x20\0\x08\0\0\0\0\x07",
            b"\x45\0\0\x2a",
            OVER_IPV4,
            NUMBERS,
            PUSH,
            b"ok",
        ],
        wire: 70,
        said: b"10.0.0.1:6881 10.0.0.2:80 16909060 168496141 a ok 2",
    },
    Row {
        link: 101,
        parts: &[
            b"\x45\0\0\x50",
            GRE_OVER_IPV4,
            b"\0\0\x65\x58",
            ETHERNET,
            b"\x08\0",
            b"\x45\0\0\x2a",
            OVER_IPV4,
            NUMBERS,
            PUSH,
            b"ok",
        ],
        wire: 80,
        said: b"10.0.0.1:6881 10.0.0.2:80 16909060 168496141 a ok 2",
    },
    // a packet of IPv6 in one of IPv4, and a header of authentication in that
    Row {
        link: 101,
        parts: &[
            b"\x45\0\0\x6a",
            b"\0\x01\0\0\x40\x29\0\0\xc0\0\x02\x01\xc0\0\x02\x02",
            b"\x60\0\0\0\0\x2e\x33\x40",
            IPV6_HOSTS,
            b"\x06\x04\0\0\0\0\x01\0\0\0\0\x01\0\0\0\0\0\0\0\0\0\0\0\0",
            NUMBERS,
            PUSH,
            b"ok",
        ],
        wire: 106,
        said: b"[2001:db8::1]:6881 [fe80::a00:20ff]:80 16909060 168496141 a ok 2",
    },
    // a header of authentication in IPv4
    Row {
        link: 101,
        parts: &[
            b"\x45\0\0\x42",
            b"\0\x01\x40\0\x40\x33\0\0\x0a\0\0\x01\x0a\0\0\x02",
            b"\x06\x04\0\0\0\0\x01\0\0\0\0\x01\0\0\0\0\0\0\0\0\0\0\0\0",
            NUMBERS,
            PUSH,
            b"ok",
        ],
        wire: 66,
        said: b"10.0.0.1:6881 10.0.0.2:80 16909060 168496141 a ok 2",
    },
    // a fragment of IPv6 that is the whole packet
    Row {
        link: 101,
        parts: &[
            b"\x60\0\0\0\0\x1e\x2c\x40",
            IPV6_HOSTS,
            b"\x06\0\0\0\0\0\0\x07",
            NUMBERS,
            PUSH,
            b"ok",
        ],
        wire: 70,
        said: b"[2001:db8::1]:6881 [fe80::a00:20ff]:80 16909060 168496141 a ok 2",
    },
    // NFLOG: a prefix with padding, and a packet with padding
    Row {
        link: 239,
        parts: &[
            b"\x02\0\0\x01\x05\0\x0a\0\0\0\0\0\x2e\0\x09\0",
            b"\x45\0\0\x2a",
            OVER_IPV4,
            NUMBERS,
            PUSH,
            b"ok",
            b"\0\0",
        ],
        wire: 60,
        said: b"10.0.0.1:6881 10.0.0.2:80 16909060 168496141 a ok 2",
    },
    // 802.11 with QoS control, and with a fourth address after radiotap
    Row {
        link: 105,
        parts: &[
            b"\x88\x01\0\0",
            ETHERNET,
            b"\x02\0\0\0\0\x03\x10\0\0\0",
            b"\xaa\xaa\x03\0\0\0\x08\0",
            b"\x45\0\0\x2a",
            OVER_IPV4,
            NUMBERS,
            PUSH,
            b"ok",
        ],
        wire: 76,
        said: b"10.0.0.1:6881 10.0.0.2:80 16909060 168496141 a ok 2",
    },
    Row {
        link: 127,
        parts: &[
            b"\0\0\x08\0\0\0\0\0\x08\x03\0\0",
            ETHERNET,
            b"\x02\0\0\0\0\x03\x10\0\x02\0\0\0\0\x04",
            b"\xaa\xaa\x03\0\0\0\x08\0",
            b"\x45\0\0\x2a",
            OVER_IPV4,
            NUMBERS,
            PUSH,
            b"ok",
        ],
        wire: 88,
        said: b"10.0.0.1:6881 10.0.0.2:80 16909060 168496141 a ok 2",
    },
    // PKTAP before raw IP
    Row {
        link: 258,
        parts: &[
            b"\x10\0\0\0\x01\0\0\0\x0c\0\0\0\0\0\0\0",
            b"\x45\0\0\x2a",
            OVER_IPV4,
            NUMBERS,
            PUSH,
            b"ok",
        ],
        wire: 58,
        said: b"10.0.0.1:6881 10.0.0.2:80 16909060 168496141 a ok 2",
    },
    // cut: 3 bytes of 1000 were captured
    Row {
        link: 1,
        parts: &[
            ETHERNET,
            b"\x08\0",
            b"\x45\0\x04\x10",
            OVER_IPV4,
            NUMBERS,
            PUSH,
            b"hel",
        ],
        wire: 1054,
        said: b"10.0.0.1:6881 10.0.0.2:80 16909060 168496141 a hel 1000",
    },
    // a total length of 0: 3000 bytes on the wire
    Row {
        link: 1,
        parts: &[
            ETHERNET,
            b"\x08\0",
            b"\x45\0\0\0",
            OVER_IPV4,
            NUMBERS,
            PUSH,
            b"foobar",
        ],
        wire: 3000,
        said: b"10.0.0.1:6881 10.0.0.2:80 16909060 168496141 a foobar 2946",
    },
];

const NOTHING: &[Row] = &[
    // a later fragment, and a first one with more after it
    Row {
        link: 101,
        parts: &[
            b"\x45\0\0\x2a",
            b"\0\x01\0\x10\x40\x06\0\0\x0a\0\0\x01\x0a\0\0\x02",
            NUMBERS,
            PUSH,
            b"ok",
        ],
        wire: 42,
        said: b"",
    },
    Row {
        link: 101,
        parts: &[
            b"\x45\0\0\x2a",
            b"\0\x01\x20\0\x40\x06\0\0\x0a\0\0\x01\x0a\0\0\x02",
            NUMBERS,
            PUSH,
            b"ok",
        ],
        wire: 42,
        said: b"",
    },
    // a header of 4 words, and a data offset of 4 words
    Row {
        link: 101,
        parts: &[b"\x44\0\0\x2a", OVER_IPV4, NUMBERS, PUSH, b"ok"],
        wire: 42,
        said: b"",
    },
    Row {
        link: 101,
        parts: &[
            b"\x45\0\0\x2a",
            OVER_IPV4,
            NUMBERS,
            b"\x40\x18\xff\xff\0\0\0\0",
            b"ok",
        ],
        wire: 42,
        said: b"",
    },
    // no label with the bit S, discovery of PPP over Ethernet, and GRE of version 1
    Row {
        link: 1,
        parts: &[
            ETHERNET,
            b"\x88\x47\0\x01\0\x40",
            b"\x45\0\0\x2a",
            OVER_IPV4,
            NUMBERS,
            PUSH,
            b"ok",
        ],
        wire: 60,
        said: b"",
    },
    Row {
        link: 1,
        parts: &[
            ETHERNET,
            b"\x88\x64\x11\x09\0\0\0\x2c\0\x21",
            b"\x45\0\0\x2a",
            OVER_IPV4,
            NUMBERS,
            PUSH,
            b"ok",
        ],
        wire: 64,
        said: b"",
    },
    Row {
        link: 101,
        parts: &[
            b"\x45\0\0\x42",
            GRE_OVER_IPV4,
            b"\0\x01\x08\0",
            b"\x45\0\0\x2a",
            OVER_IPV4,
            NUMBERS,
            PUSH,
            b"ok",
        ],
        wire: 66,
        said: b"",
    },
    // the first fragment of a packet of IPv6, and a protected frame of 802.11
    Row {
        link: 101,
        parts: &[
            b"\x60\0\0\0\0\x1e\x2c\x40",
            IPV6_HOSTS,
            b"\x06\0\0\x01\0\0\0\x07",
            NUMBERS,
            PUSH,
            b"ok",
        ],
        wire: 70,
        said: b"",
    },
    Row {
        link: 105,
        parts: &[
            b"\x08\x41\0\0",
            ETHERNET,
            b"\x02\0\0\0\0\x03\x10\0",
            b"\xaa\xaa\x03\0\0\0\x08\0",
            b"\x45\0\0\x2a",
            OVER_IPV4,
            NUMBERS,
            PUSH,
            b"ok",
        ],
        wire: 74,
        said: b"",
    },
    // ARP, another link type, UDP, and a header that was cut
    Row {
        link: 1,
        parts: &[
            ETHERNET,
            b"\x08\x06",
            b"\x45\0\0\x2a",
            OVER_IPV4,
            NUMBERS,
            PUSH,
            b"ok",
        ],
        wire: 56,
        said: b"",
    },
    Row {
        link: 147,
        parts: &[b"\x45\0\0\x2a", OVER_IPV4, NUMBERS, PUSH, b"ok"],
        wire: 42,
        said: b"",
    },
    Row {
        link: 101,
        parts: &[b"\x45\0\0\x2a", UDP_OVER_IPV4, NUMBERS, PUSH, b"ok"],
        wire: 42,
        said: b"",
    },
    Row {
        link: 101,
        parts: &[
            b"\x45\0\0\x2a",
            OVER_IPV4,
            NUMBERS,
            b"\x50\x18\xff\xff\0\0\0",
        ],
        wire: 42,
        said: b"",
    },
];

/// The parts, one after the other.
pub(crate) fn joined(alloc: Global, parts: &[&[u8]]) -> Result<Vec<u8>, AllocError> {
    let mut frame = Vec::new(alloc);
    for part in parts {
        frame.extend_from_slice(part)?;
    }
    Ok(frame)
}

/// Appends text.
fn put(text: &[u8], out: &mut Vec<u8>) -> Result<(), AllocError> {
    out.extend_from_slice(text)
}

/// Appends a space and a number.
fn put_number(alloc: Global, number: u64, out: &mut Vec<u8>) -> Result<(), AllocError> {
    let text = format!(in alloc; " {number}")?;
    put(text.as_bytes(), out)
}

/// Says an end.
fn put_end(end: &Address, out: &mut Vec<u8>) -> Result<(), AllocError> {
    let (alloc, end) = (*out.allocator(), *end);
    let text = format!(in alloc; "{end}")?;
    put(text.as_bytes(), out)
}

/// Says which flags are set.
fn put_flags(flags: Flags, out: &mut Vec<u8>) -> Result<(), AllocError> {
    for (flag, letter) in [
        (flags.fin, b"f"),
        (flags.syn, b"s"),
        (flags.rst, b"r"),
        (flags.ack, b"a"),
    ] {
        if flag {
            put(letter, out)?;
        }
    }
    Ok(())
}

/// Says a segment's ends and its numbers.
fn put_front(alloc: Global, segment: &Segment, out: &mut Vec<u8>) -> Result<(), AllocError> {
    put_end(&segment.source, out)?;
    put(b" ", out)?;
    put_end(&segment.target, out)?;
    put_number(alloc, u64::from(segment.sequence), out)?;
    match segment.acked {
        Some(number) => put_number(alloc, u64::from(number), out),
        None => Ok(()),
    }
}

/// Says a segment.
fn said(alloc: Global, segment: &Segment) -> Result<Vec<u8>, AllocError> {
    let mut out = Vec::new(alloc);
    put_front(alloc, segment, &mut out)?;
    put(b" ", &mut out)?;
    put_flags(segment.flags, &mut out)?;
    put(b" ", &mut out)?;
    put(segment.payload, &mut out)?;
    put_number(alloc, segment.length, &mut out)?;
    Ok(out)
}

/// Hosts of IPv6, and their addresses with the port 80.
const ADDRESSES: &[(&[u8; 16], &[u8])] = &[
    (
        b"\x20\x01\x0d\xb8\0\0\0\0\0\x01\0\0\0\0\0\x01",
        b"[2001:db8::1:0:0:1]:80",
    ),
    (
        b"\x20\x01\x0d\xb8\0\0\0\x01\0\x01\0\x01\0\x01\0\x01",
        b"[2001:db8:0:1:1:1:1:1]:80",
    ),
    (
        b"\x20\x01\0\0\0\0\0\x01\0\0\0\0\0\0\0\x01",
        b"[2001:0:0:1::1]:80",
    ),
    (b"\xfe\x80\0\0\0\0\0\0\0\0\0\0\0\0\0\0", b"[fe80::]:80"),
    (b"\0\0\0\0\0\0\0\0\0\0\0\0\0\0\0\0", b"[::]:80"),
    (
        b"\0\0\0\0\0\0\0\0\0\0\xff\xff\xc0\0\x02\x01",
        b"[::ffff:192.0.2.1]:80",
    ),
];

/// Whether the address of a host of IPv6 with the port 80 is written so.
fn is_written(alloc: Global, host: &[u8; 16], text: &[u8]) -> Result<bool, AllocError> {
    let mut out = Vec::new(alloc);
    let end = Address {
        host: Host::V6(*host),
        port: 80,
    };
    put_end(&end, &mut out)?;
    Ok(out.as_slice() == text)
}

/// Addresses of IPv6 as RFC 5952 writes them.
#[test]
fn writes_addresses(rt: HostRuntime) -> Result<(), AllocError> {
    for (n, (host, text)) in ADDRESSES.iter().enumerate() {
        assert!(rt; is_written(rt.alloc(), host, text)?, "at {n}");
    }
    Ok(())
}

/// The segment of a row's frame in words, if there is one.
fn said_of(alloc: Global, row: &Row) -> Result<Option<Vec<u8>>, AllocError> {
    let frame = joined(alloc, row.parts)?;
    match segment_of(row.link, &frame, row.wire) {
        Some(segment) => Ok(Some(said(alloc, &segment)?)),
        None => Ok(None),
    }
}

/// Whether a row's frame has a segment that says what the row says.
fn is_said(alloc: Global, row: &Row) -> Result<bool, AllocError> {
    match said_of(alloc, row)? {
        Some(text) => Ok(text.as_slice() == row.said),
        None => Ok(false),
    }
}

#[test]
fn reads_segments(rt: HostRuntime) -> Result<(), AllocError> {
    for (n, row) in SEGMENTS.iter().enumerate() {
        assert!(rt; is_said(rt.alloc(), row)?, "at {n}");
    }
    Ok(())
}

#[test]
fn reads_nothing_else(rt: HostRuntime) -> Result<(), AllocError> {
    for (n, row) in NOTHING.iter().enumerate() {
        assert!(rt; said_of(rt.alloc(), row)?.is_none(), "at {n}");
    }
    Ok(())
}

/// Frames of which nothing is read: the link type, the parts, and why.
const UNREAD: &[(u32, &[&[u8]], Unread)] = &[
    (147, &[b"\x45\0"], Unread::LinkType(147)),
    (1, &[ETHERNET, b"\x08\x06\0\x01"], Unread::EtherType(0x0806)),
    (
        1,
        &[ETHERNET, b"\x81\0\0\x07\x88\xcc\x02\x07"],
        Unread::EtherType(0x88cc),
    ),
    (
        101,
        &[b"\x45\0\0\x2a\0\x01\0\x10\x40\x06\0\0\x0a\0\0\x01\x0a\0\0\x02"],
        Unread::Fragment,
    ),
    (
        101,
        &[
            b"\x60\0\0\0\0\x1e\x2c\x40",
            IPV6_HOSTS,
            b"\x06\0\0\x01\0\0\0\x07",
        ],
        Unread::Fragment,
    ),
    (101, &[b"\x45\0\0\x2a", UDP_OVER_IPV4], Unread::Other),
    // a length of 802.3, and cut in a tag
    (1, &[ETHERNET, b"\0\x26\x42\x42\x03\0\0"], Unread::Other),
    (1, &[ETHERNET, b"\x81\0\0\x07"], Unread::Other),
];

/// Whether nothing of a frame is read for this reason.
fn is_unread(alloc: Global, row: &(u32, &[&[u8]], Unread)) -> Result<bool, AllocError> {
    let (link, parts, reason) = *row;
    let frame = joined(alloc, parts)?;
    Ok(unread_of(link, &frame) == reason)
}

#[test]
fn says_what_isnt_read(rt: HostRuntime) -> Result<(), AllocError> {
    for (n, row) in UNREAD.iter().enumerate() {
        assert!(rt; is_unread(rt.alloc(), row)?, "at {n}");
    }
    Ok(())
}

/// What a packet of uTP says besides its numbers: its type, the reason of a close, its payload, and the payload's length.
type UtpSaid = (UtpKind, Option<u16>, &'static [u8], u64);

/// The length that UDP's header says, the front of a header of uTP, what follows the header, the frame's length on the wire, and what it says.
type UtpRow = (
    &'static [u8],
    &'static [u8],
    &'static [u8],
    u32,
    Option<UtpSaid>,
);

/// Each type with a payload and without, and what is no packet. A packet of IP here has the frame's length.
const PACKETS: &[UtpRow] = &[
    (
        b"\0\x1e",
        b"\x01\0",
        b"ok",
        50,
        Some((UtpKind::Data, None, b"ok", 2)),
    ),
    (
        b"\0\x1e",
        b"\x01\0",
        b"o",
        50,
        Some((UtpKind::Data, None, b"o", 2)),
    ),
    (b"\0\x1c", b"\x01\0", b"", 48, None),
    (
        b"\0\x1c",
        b"\x11\0",
        b"",
        48,
        Some((UtpKind::Fin, None, b"", 0)),
    ),
    (
        b"\0\x1d",
        b"\x11\0",
        b"x",
        49,
        Some((UtpKind::Fin, None, b"x", 1)),
    ),
    (
        b"\0\x1c",
        b"\x21\0",
        b"",
        48,
        Some((UtpKind::State, None, b"", 0)),
    ),
    (
        b"\0\x1c",
        b"\x31\0",
        b"",
        48,
        Some((UtpKind::Reset, None, b"", 0)),
    ),
    (
        b"\0\x1c",
        b"\x41\0",
        b"",
        48,
        Some((UtpKind::Syn, None, b"", 0)),
    ),
    (b"\0\x1d", b"\x41\0", b"x", 49, None),
    (b"\0\x1c", b"\x51\0", b"", 48, None),
    (b"\0\x1c", b"\x42\0", b"", 48, None),
    // no more than UDP's header says, or than the packet of IP has
    (
        b"\0\x1c",
        b"\x21\0",
        b"\0\0",
        50,
        Some((UtpKind::State, None, b"", 0)),
    ),
    (
        b"\xff\xff",
        b"\x21\0",
        b"",
        48,
        Some((UtpKind::State, None, b"", 0)),
    ),
    (b"\0\x1b", b"\x21\0", b"", 48, None),
];

/// Chains of extensions.
const CHAINS: &[UtpRow] = &[
    // selective acks, and extension bits
    (
        b"\0\x22",
        b"\x21\x01",
        b"\0\x04\x01\0\0\0",
        54,
        Some((UtpKind::State, None, b"", 0)),
    ),
    (
        b"\0\x26",
        b"\x41\x02",
        b"\0\x08\0\0\0\0\0\0\0\0",
        58,
        Some((UtpKind::Syn, None, b"", 0)),
    ),
    // a reason alone, after another extension, before data
    (
        b"\0\x22",
        b"\x11\x03",
        b"\0\x04\0\0\x01\x09",
        54,
        Some((UtpKind::Fin, Some(265), b"", 0)),
    ),
    (
        b"\0\x28",
        b"\x11\x01",
        b"\x03\x04\0\0\0\x01\0\x04\0\0\x01\x0f",
        60,
        Some((UtpKind::Fin, Some(271), b"", 0)),
    ),
    (
        b"\0\x23",
        b"\x01\x03",
        b"\0\x04\0\0\0\x08x",
        55,
        Some((UtpKind::Data, Some(8), b"x", 1)),
    ),
    // no reason: 0, another length, another number
    (
        b"\0\x22",
        b"\x11\x03",
        b"\0\x04\0\0\0\0",
        54,
        Some((UtpKind::Fin, None, b"", 0)),
    ),
    (
        b"\0\x20",
        b"\x11\x03",
        b"\0\x02\x01\x09",
        52,
        Some((UtpKind::Fin, None, b"", 0)),
    ),
    (
        b"\0\x22",
        b"\x11\xc8",
        b"\0\x04\0\0\x01\x09",
        54,
        Some((UtpKind::Fin, None, b"", 0)),
    ),
    // a RESET of version 0, which says an extension of 80 bytes before 1 byte
    (b"\0\x1f", b"\x11\x03", b"\0\x50\0", 51, None),
    // a chain that the capture cut, that a length ends, that has no end
    (b"\0\x22", b"\x11\x03", b"\0\x04\0\0\x01", 54, None),
    (b"\0\x21", b"\x11\x03", b"\0\x04\0\0\x01\x09", 54, None),
    (b"\0\x22", b"\x11\x03", b"\x03\x04\0\0\x01\x09", 54, None),
];

/// Whether a packet has these ends and numbers, and says this.
fn is_so(utp: &Utp, said: &UtpSaid) -> bool {
    let (kind, reason, payload, length) = said;
    utp.source.port == 6881
        && utp.target.port == 51413
        && (utp.id, utp.number, utp.acked) == (4660, 5, 4)
        && utp.kind == *kind
        && utp.reason == *reason
        && utp.payload == *payload
        && utp.length == *length
}

/// Whether the frame of a row has the packet of uTP that the row says.
fn is_told(alloc: Global, row: &UtpRow) -> Result<bool, AllocError> {
    let (udp, front, tail, wire, wanted) = row;
    let parts: &[&[u8]] = &[
        b"\x45\0\0\0",
        UDP_OVER_IPV4,
        b"\x1a\xe1\xc8\xd5",
        udp,
        b"\0\0",
        front,
        UTP,
        tail,
    ];
    let frame = joined(alloc, parts)?;
    match (utp_of(101, &frame, *wire), wanted) {
        (Some(utp), Some(said)) => Ok(is_so(&utp, said)),
        (None, None) => Ok(true),
        _ => Ok(false),
    }
}

#[test]
fn reads_utp(rt: HostRuntime) -> Result<(), AllocError> {
    for (n, row) in PACKETS.iter().enumerate() {
        assert!(rt; is_told(rt.alloc(), row)?, "at {n}");
    }
    Ok(())
}

#[test]
fn reads_extensions(rt: HostRuntime) -> Result<(), AllocError> {
    for (n, row) in CHAINS.iter().enumerate() {
        assert!(rt; is_told(rt.alloc(), row)?, "at {n}");
    }
    Ok(())
}
