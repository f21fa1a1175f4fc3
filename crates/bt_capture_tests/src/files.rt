//! Capture files of both formats and byte orders, whole and cut after each byte. All values are by hand.
use bt_pcap::{CaptureFile, FileFault, KEEP, MAX_INTERFACES, NEED, Packet, Step, laws};
use std::alloc::AllocError;
use std::process::Abort;

/// A record of three bytes and one without.
const LITTLE_RECORDS: &[u8] =
    b"\xd4\xc3\xb2\xa1\x02\0\x04\0\0\0\0\0\0\0\0\0\xff\xff\0\0\x01\0\0\x10\
    \x01\0\0\0\x02\0\0\0\x03\0\0\0\x05\0\0\0abc\xff\xff\xff\xff\x3f\x42\x0f\0\0\0\0\0\0\0\0\0";

const BIG_RECORDS: &[u8] = b"\xa1\xb2\xc3\xd4\0\x02\0\x04\0\0\0\0\0\0\0\0\0\0\xff\xff\x10\0\0\x71\
    \0\0\0\x01\0\0\0\x02\0\0\0\x03\0\0\0\x05abc\xff\xff\xff\xff\0\x0f\x42\x3f\0\0\0\0\0\0\0\0";

const LITTLE_NANOS: &[u8] = b"\x4d\x3c\xb2\xa1\x02\0\x04\0\0\0\0\0\0\0\0\0\xff\xff\0\0\x01\0\0\0\
    \x01\0\0\0\x02\0\0\0\x03\0\0\0\x05\0\0\0abc\xff\xff\xff\xff\x3f\x42\x0f\0\0\0\0\0\0\0\0\0";

const BIG_NANOS: &[u8] = b"\xa1\xb2\x3c\x4d\0\x02\0\x04\0\0\0\0\0\0\0\0\0\0\xff\xff\0\0\0\x71\
    \0\0\0\x01\0\0\0\x02\0\0\0\x03\0\0\0\x05abc\xff\xff\xff\xff\0\x0f\x42\x3f\0\0\0\0\0\0\0\0";

/// A section with interfaces of micro- and nanoseconds, each kind of packet and a block of another type; then a section in the other
/// byte order, whose interface counts eighths of a second.
const SECTIONS: &[u8] =
    b"\x0a\x0d\x0d\x0a\x1c\0\0\0\x4d\x3c\x2b\x1a\x01\0\0\0\xff\xff\xff\xff\xff\xff\xff\xff\x1c\0\0\0\
    \x01\0\0\0\x14\0\0\0\x01\0\0\0\xff\xff\0\0\x14\0\0\0\
    \x01\0\0\0\x28\0\0\0\x71\0\0\0\xff\xff\0\0\x02\0\x03\0eth\0\x09\0\x01\0\x09\0\0\0\0\0\0\0\x28\0\0\0\
    \x06\0\0\0\x24\0\0\0\x01\0\0\0\0\0\0\0\x07\0\0\0\x03\0\0\0\x09\0\0\0abc\0\x24\0\0\0\
    \x06\0\0\0\x24\0\0\0\0\0\0\0\x01\0\0\0\x01\0\0\0\x02\0\0\0\x02\0\0\0de\0\0\x24\0\0\0\
    \x03\0\0\0\x14\0\0\0\x03\0\0\0fgh\0\x14\0\0\0\
    \x02\0\0\0\x24\0\0\0\x01\0\x05\0\0\0\0\0\x08\0\0\0\x01\0\0\0\x01\0\0\0i\0\0\0\x24\0\0\0\
    \x04\0\0\0\x0c\0\0\0\x0c\0\0\0\
    \x0a\x0d\x0d\x0a\0\0\0\x1c\x1a\x2b\x3c\x4d\0\x01\0\0\xff\xff\xff\xff\xff\xff\xff\xff\0\0\0\x1c\
    \0\0\0\x01\0\0\0\x1c\0\x65\0\0\0\0\xff\xff\0\x09\0\x01\x83\0\0\0\0\0\0\x1c\
    \0\0\0\x06\0\0\0\x24\0\0\0\0\0\0\0\0\0\0\0\x14\0\0\0\x09\0\0\0\x09jklm\0\0\0\x24";

/// Interfaces whose time stamps count microseconds, since the option that says otherwise comes after the last one, 10^-20 s, 2^-64 s and
/// 10^-127 s; a packet of each.
const RESOLUTIONS: &[u8] = b"\x0a\x0d\x0d\x0a\x10\0\0\0\x4d\x3c\x2b\x1a\x10\0\0\0\
    \x01\0\0\0\x20\0\0\0\x01\0\0\0\0\0\0\0\0\0\0\0\x09\0\x01\0\x09\0\0\0\x20\0\0\0\
    \x01\0\0\0\x1c\0\0\0\x02\0\0\0\0\0\0\0\x09\0\x01\0\x14\0\0\0\x1c\0\0\0\
    \x01\0\0\0\x1c\0\0\0\x03\0\0\0\0\0\0\0\x09\0\x01\0\xc0\0\0\0\x1c\0\0\0\
    \x01\0\0\0\x1c\0\0\0\x04\0\0\0\0\0\0\0\x09\0\x01\0\x7f\0\0\0\x1c\0\0\0\
    \x06\0\0\0\x20\0\0\0\0\0\0\0\0\0\0\0\x07\0\0\0\0\0\0\0\0\0\0\0\x20\0\0\0\
    \x06\0\0\0\x20\0\0\0\x01\0\0\0\xe8\0\0\0\0\x10\xa5\xd4\0\0\0\0\0\0\0\0\x20\0\0\0\
    \x06\0\0\0\x20\0\0\0\x02\0\0\0\0\0\0\x80\0\0\0\0\0\0\0\0\0\0\0\0\x20\0\0\0\
    \x06\0\0\0\x20\0\0\0\x03\0\0\0\xff\xff\xff\xff\xff\xff\xff\xff\0\0\0\0\0\0\0\0\x20\0\0\0";

/// A section header, an interface and a packet of the interface of that number.
const SECTION: &[u8] = b"\x0a\x0d\x0d\x0a\x10\0\0\0\x4d\x3c\x2b\x1a\x10\0\0\0";

const INTERFACE: &[u8] = b"\x01\0\0\0\x14\0\0\0\x01\0\0\0\xff\xff\0\0\x14\0\0\0";

const PACKET_1023: &[u8] =
    b"\x06\0\0\0\x20\0\0\0\xff\x03\0\0\0\0\0\0\0\0\0\0\0\0\0\0\0\0\0\0\x20\0\0\0";

const PACKET_1024: &[u8] =
    b"\x06\0\0\0\x20\0\0\0\0\x04\0\0\0\0\0\0\0\0\0\0\0\0\0\0\0\0\0\0\x20\0\0\0";

/// A packet of a row.
fn packet(link: u32, nanos: u64, bytes: &[u8], length: u32) -> Packet<'_> {
    Packet {
        link,
        nanos,
        bytes,
        length,
    }
}

/// The first answer of a reader that is given one byte more each time.
fn by_bytes<'a>(reader: &mut CaptureFile, rest: &'a [u8]) -> Result<Step<'a>, FileFault> {
    for k in 0..rest.len() {
        match reader.step(&rest[..k]) {
            Ok(Step::More) => {}
            answer => return answer,
        }
    }
    reader.step(rest)
}

/// Reads a file whole and byte by byte.
fn check(rt: &impl Abort, file: &[u8], rows: &[Packet]) {
    let mut reader = CaptureFile::new();
    let mut cut = CaptureFile::new();
    let mut rest = file;
    let mut seen = 0usize;
    for _ in 0..file.len() {
        if rest.is_empty() {
            break;
        }
        let answer = reader.step(rest);
        assert!(rt; by_bytes(&mut cut, rest) == answer);
        let used = match answer {
            Ok(Step::Packet { packet, used, .. }) => {
                assert!(rt; rows.get(seen).copied() == Some(packet));
                seen = seen.wrapping_add(1);
                used
            }
            Ok(Step::Passed { used, .. }) => used,
            _ => panic!(rt; "no item"),
        };
        rest = rest.get(used..).unwrap_or(&[]);
    }
    assert!(rt; rest.is_empty());
    assert!(rt; seen == rows.len());
}

/// Records in both byte orders, with both resolutions.
#[test]
fn reads_records(rt: HostRuntime) {
    let micro = 1_000_002_000;
    let nano = 1_000_000_002;
    let last_micro = 4_294_967_295_999_999_000;
    let last_nano = 4_294_967_295_000_999_999;
    check(
        &rt,
        LITTLE_RECORDS,
        &[packet(1, micro, b"abc", 5), packet(1, last_micro, b"", 0)],
    );
    check(
        &rt,
        BIG_RECORDS,
        &[
            packet(113, micro, b"abc", 5),
            packet(113, last_micro, b"", 0),
        ],
    );
    check(
        &rt,
        LITTLE_NANOS,
        &[packet(1, nano, b"abc", 5), packet(1, last_nano, b"", 0)],
    );
    check(
        &rt,
        BIG_NANOS,
        &[packet(113, nano, b"abc", 5), packet(113, last_nano, b"", 0)],
    );
}

/// Two sections, in either byte order.
#[test]
fn reads_sections(rt: HostRuntime) {
    check(
        &rt,
        SECTIONS,
        &[
            packet(113, 7, b"abc", 9),
            packet(1, 4_294_967_297_000, b"de", 2),
            packet(1, 0, b"fgh", 3),
            packet(113, 8, b"i", 1),
            packet(101, 2_500_000_000, b"jklm", 9),
        ],
    );
}

/// Time stamps of the finest resolutions, and one that no option changes any more.
#[test]
fn reads_resolutions(rt: HostRuntime) {
    check(
        &rt,
        RESOLUTIONS,
        &[
            packet(1, 7_000, b"", 0),
            packet(2, 10, b"", 0),
            packet(3, 500_000_000, b"", 0),
            packet(4, 0, b"", 0),
        ],
    );
}

/// The last interface that is noted, and the first one that isn't.
#[test]
fn notes_interfaces(rt: HostRuntime) {
    let mut reader = CaptureFile::new();
    let passed = Ok(Step::Passed { used: 16, skip: 0 });
    assert!(rt; reader.step(SECTION) == passed);
    for _ in 0..MAX_INTERFACES + 1 {
        assert!(rt; reader.step(INTERFACE) == Ok(Step::Passed { used: 20, skip: 0 }));
    }
    let found = Ok(Step::Packet {
        packet: packet(1, 0, b"", 0),
        used: 32,
        skip: 0,
    });
    assert!(rt; reader.step(PACKET_1023) == found);
    assert!(rt; reader.step(PACKET_1024) == Err(FileFault::Undescribed));
}

/// Records longer than what is kept, of 2 MiB and of 16 MiB, which is the most.
#[test]
fn skips_the_rest(rt: HostRuntime) -> Result<(), AllocError> {
    let rows: [(&[u8], u32, u64); 2] = [
        (
            b"\0\0\0\0\0\0\0\0\0\0\x20\0\0\0\x20\0",
            0x20_0000,
            1_048_564,
        ),
        (
            b"\0\0\0\0\0\0\0\0\0\0\0\x01\0\0\0\x01",
            0x100_0000,
            15_728_628,
        ),
    ];
    for (record, size, left) in rows {
        let mut reader = CaptureFile::new();
        let mut file = Vec::from_slice(rt.alloc(), record)?;
        file.resize(NEED, 7)?;
        let bytes = file.as_slice();
        assert!(rt; reader.step(LITTLE_RECORDS) == Ok(Step::Passed { used: 24, skip: 0 }));
        assert!(rt; reader.step(bytes.get(..NEED - 1).unwrap_or(&[])) == Ok(Step::More));
        match reader.step(bytes) {
            Ok(Step::Packet { packet, used, skip }) => {
                assert!(rt; packet.bytes.len() == KEEP && packet.length == size);
                assert!(rt; used == NEED && skip == left);
            }
            _ => panic!(rt; "no packet"),
        }
    }
    Ok(())
}

/// Each fault, which stays when the bytes are given again, and its text.
#[test]
fn finds_faults(rt: HostRuntime) -> Result<(), AllocError> {
    let rows: [(&[u8], &[u8], FileFault, &str); 15] = [
        (
            b"",
            b"\xd4\xc3\xb2\xa2",
            FileFault::NoCapture,
            "neither a pcap nor a pcapng file",
        ),
        (
            b"",
            b"\x0a\x0d\x0d\x0a\x1c\0\0\0\x4d\x3c\x2b\x1b",
            FileFault::ByteOrder,
            "a section of a pcapng file has an unknown byte order",
        ),
        (
            b"",
            b"\x0a\x0d\x0d\x0a\x0c\0\0\0\x4d\x3c\x2b\x1a",
            FileFault::Length,
            "a block of a pcapng file has an impossible length",
        ),
        (
            SECTION,
            b"\x05\0\0\0\x0b\0\0\0",
            FileFault::Length,
            "a block of a pcapng file has an impossible length",
        ),
        (
            SECTION,
            b"\x01\0\0\0\x13\0\0\0",
            FileFault::TooShort,
            "a block of a pcapng file is too short",
        ),
        (
            SECTION,
            b"\x06\0\0\0\x1f\0\0\0",
            FileFault::TooShort,
            "a block of a pcapng file is too short",
        ),
        (
            SECTION,
            b"\x06\0\0\0\x21\0\0\x01",
            FileFault::Length,
            "a block of a pcapng file has an impossible length",
        ),
        (
            SECTION,
            b"\x03\0\0\0\x11\0\0\x01",
            FileFault::Length,
            "a block of a pcapng file has an impossible length",
        ),
        (
            SECTION,
            b"\x06\0\0\0\x20\0\0\0\0\0\0\0\0\0\0\0\0\0\0\0\0\0\0\0\0\0\0\0\x20\0\0\0",
            FileFault::Undescribed,
            "a packet of a pcapng file names an interface that isn't described, or is beyond the first 1,024",
        ),
        (
            SECTION,
            b"\x02\0\0\0\x20\0\0\0\0\0\0\0\0\0\0\0\0\0\0\0\0\0\0\0\0\0\0\0\x20\0\0\0",
            FileFault::Undescribed,
            "a packet of a pcapng file names an interface that isn't described, or is beyond the first 1,024",
        ),
        (
            SECTION,
            b"\x03\0\0\0\x10\0\0\0\0\0\0\0\x10\0\0\0",
            FileFault::Undescribed,
            "a packet of a pcapng file names an interface that isn't described, or is beyond the first 1,024",
        ),
        (
            SECTION,
            b"\x05\0\0\0\x0c\0\0\0\x0d\0\0\0",
            FileFault::Unlike,
            "the two lengths of a block of a pcapng file differ",
        ),
        (
            SECTION,
            b"\x0a\x0d\x0d\x0a\x10\0\0\0\x4d\x3c\x2b\x1a\0\0\0\x10",
            FileFault::Unlike,
            "the two lengths of a block of a pcapng file differ",
        ),
        (
            SECTION,
            b"\x03\0\0\0\x10\0\0\0\0\0\0\0\x0f\0\0\0",
            FileFault::Unlike,
            "the two lengths of a block of a pcapng file differ",
        ),
        (
            LITTLE_RECORDS,
            b"\x01\0\0\0\x02\0\0\0\x01\0\0\x01\x05\0\0\0",
            FileFault::RecordLength,
            "a record of a pcap file has an impossible length",
        ),
    ];
    for (first, bytes, fault, text) in rows {
        let mut reader = CaptureFile::new();
        if !first.is_empty() {
            let _ = reader.step(first);
        }
        assert!(rt; by_bytes(&mut reader, bytes) == Err(fault));
        assert!(rt; reader.step(bytes) == Err(fault));
        assert!(rt; fault.to_string(rt.alloc())?.as_str() == text);
    }
    Ok(())
}

/// The laws, which have nothing to do.
#[test]
fn states_laws(_rt: HostRuntime) {
    laws::cuts_dont_matter();
    laws::faults_stay();
    laws::items_are_read();
    laws::items_are_unique();
    laws::items_have_no_fault();
    laws::packets_are_unique();
}
