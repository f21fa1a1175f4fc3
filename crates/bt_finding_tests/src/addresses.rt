//! Addresses in compact form (BEP 23, BEP 7), and which of them a stranger may name (RFC 6890).
use bt_address::{Family, is_takeable, read_addresses, split_address};
use std::alloc::{AllocError, Global};
use std::net::SocketAddr;

/// Bytes, the address that they begin with, and how many bytes are left.
type Split = (Family, &'static [u8], &'static str, usize);

const SPLIT: &[Split] = &[
    (Family::V4, b"\x7f\0\0\x01\x1a\xe1", "127.0.0.1:6881", 0),
    (Family::V4, b"\x01\x02\x03\x04\0\x50rest", "1.2.3.4:80", 4),
    (
        Family::V4,
        b"\xff\xfe\xfd\xfc\xff\xff\0\0\0\0\0",
        "255.254.253.252:65535",
        5,
    ),
    (
        Family::V6,
        b"\x20\x01\x0d\xb8\0\0\0\0\0\0\0\0\0\0\0\x01\x1a\xe1",
        "[2001:db8::1]:6881",
        0,
    ),
    (
        Family::V6,
        b"\xfe\xdc\xba\x98\x76\x54\x32\x10\x01\x23\x45\x67\x89\xab\xcd\xef\x01\0more",
        "[fedc:ba98:7654:3210:123:4567:89ab:cdef]:256",
        4,
    ),
];

/// Whether the bytes begin with the address.
fn is_split(row: &Split) -> bool {
    let (family, bytes, text, left) = *row;
    match (split_address(family, bytes), text.parse::<SocketAddr>()) {
        (Some((address, rest)), Ok(wanted)) => address == wanted && rest.len() == left,
        _ => false,
    }
}

#[test]
fn splits(rt: HostRuntime) {
    for row in SPLIT {
        assert!(rt; is_split(row), "{row:?}");
    }
}

/// Bytes that are fewer than an address has.
const SHORT: &[(Family, &'static [u8])] = &[
    (Family::V4, b""),
    (Family::V4, b"\x01\x02\x03\x04\0"),
    (Family::V6, b""),
    (
        Family::V6,
        b"\x20\x01\x0d\xb8\0\0\0\0\0\0\0\0\0\0\0\x01\x1a",
    ),
];

#[test]
fn short(rt: HostRuntime) {
    for (family, bytes) in SHORT {
        assert!(rt; split_address(*family, bytes).is_none(), "{bytes:?}");
    }
}

/// How many addresses and bytes are read of three addresses and two bytes more.
fn read(alloc: Global, most: usize) -> Result<(usize, usize), AllocError> {
    let bytes = b"\x01\x02\x03\x04\0\x50\x05\x06\x07\x08\0\x50\x09\x0a\x0b\x0c\0\x50xx";
    let (found, rest) = read_addresses(alloc, Family::V4, bytes, most)?;
    Ok((found.len(), rest.len()))
}

#[test]
fn bounded(rt: HostRuntime) -> Result<(), AllocError> {
    let alloc = rt.alloc();
    assert!(rt; read(alloc, 0)? == (0, 20));
    assert!(rt; read(alloc, 2)? == (2, 8));
    assert!(rt; read(alloc, 3)? == (3, 2));
    assert!(rt; read(alloc, 200)? == (3, 2));
    Ok(())
}

/// An address, whether a stranger may name it, and whether one may if local ones are allowed.
type Judged = (&'static str, bool, bool);

const JUDGED: &[Judged] = &[
    ("8.8.8.8:6881", true, true),
    ("8.8.8.8:2", true, true),
    ("8.8.8.8:1", false, false),
    ("8.8.8.8:0", false, false),
    ("0.255.255.255:6881", false, false),
    ("1.0.0.0:6881", true, true),
    ("9.255.255.255:6881", true, true),
    ("10.0.0.0:6881", false, true),
    ("10.255.255.255:6881", false, true),
    ("11.0.0.0:6881", true, true),
    ("100.63.255.255:6881", true, true),
    ("100.64.0.0:6881", false, true),
    ("100.127.255.255:6881", false, true),
    ("100.128.0.0:6881", true, true),
    ("126.255.255.255:6881", true, true),
    ("127.0.0.1:6881", false, false),
    ("127.255.255.255:6881", false, false),
    ("128.0.0.0:6881", true, true),
    ("169.253.255.255:6881", true, true),
    ("169.254.0.0:6881", false, true),
    ("169.255.0.0:6881", true, true),
    ("172.15.255.255:6881", true, true),
    ("172.16.0.0:6881", false, true),
    ("172.31.255.255:6881", false, true),
    ("172.32.0.0:6881", true, true),
    ("192.0.0.255:6881", false, false),
    ("192.0.1.0:6881", true, true),
    ("192.0.2.1:6881", false, false),
    ("192.0.3.0:6881", true, true),
    ("192.167.255.255:6881", true, true),
    ("192.168.0.1:6881", false, true),
    ("192.169.0.0:6881", true, true),
    ("198.17.255.255:6881", true, true),
    ("198.18.0.0:6881", false, false),
    ("198.19.255.255:6881", false, false),
    ("198.20.0.0:6881", true, true),
    ("198.51.99.255:6881", true, true),
    ("198.51.100.1:6881", false, false),
    ("198.51.101.0:6881", true, true),
    ("203.0.112.255:6881", true, true),
    ("203.0.113.1:6881", false, false),
    ("203.0.114.0:6881", true, true),
    ("223.255.255.255:6881", true, true),
    ("224.0.0.1:6881", false, false),
    ("240.0.0.1:6881", false, false),
    ("255.255.255.255:6881", false, false),
    ("[::]:6881", false, false),
    ("[::1]:6881", false, false),
    ("[::2]:6881", false, false),
    ("[::8.8.8.8]:6881", true, true),
    ("[::10.0.0.1]:6881", false, true),
    ("[::127.0.0.1]:6881", false, false),
    ("[::1:0:0:8.8.8.8]:6881", true, true),
    ("[64:ff9b::8.8.8.8]:6881", true, true),
    ("[64:ff9b::192.168.0.1]:6881", false, true),
    ("[64:ff9b::127.0.0.1]:6881", false, false),
    ("[64:ff9b:1::8.8.8.8]:6881", false, true),
    ("[64:ff9b:2::8.8.8.8]:6881", true, true),
    ("[2002:808:808::1]:6881", true, true),
    ("[2002:a00:1::808:808]:6881", false, true),
    ("[2002:7f00:1::808:808]:6881", false, false),
    ("[2001:db7:ffff::1]:6881", true, true),
    ("[2001:db8::1]:6881", false, false),
    ("[2001:db9::1]:6881", true, true),
    ("[2a00:1450::1]:6881", true, true),
    ("[2a00:1450::1]:1", false, false),
    ("[fbff::1]:6881", true, true),
    ("[fc00::1]:6881", false, true),
    ("[fdff::1]:6881", false, true),
    ("[fe00::1]:6881", true, true),
    ("[fe7f::1]:6881", true, true),
    ("[fe80::1]:6881", false, true),
    ("[febf::1]:6881", false, true),
    ("[fec0::1]:6881", true, true),
    ("[feff::1]:6881", true, true),
    ("[ff00::1]:6881", false, false),
    ("[ff02::1]:6881", false, false),
    ("[::ffff:8.8.8.8]:6881", true, true),
    ("[::ffff:127.0.0.1]:6881", false, false),
    ("[::ffff:192.168.0.1]:6881", false, true),
    ("[::ffff:192.0.2.1]:6881", false, false),
];

/// Whether the address is judged so.
fn is_judged(row: &Judged) -> bool {
    let (text, of_all, of_local) = *row;
    match text.parse::<SocketAddr>() {
        Ok(address) => is_takeable(address, false) == of_all
            && is_takeable(address, true) == of_local,
        Err(_) => false,
    }
}

#[test]
fn judged(rt: HostRuntime) {
    for row in JUDGED {
        assert!(rt; is_judged(row), "{row:?}");
    }
}
