//! The packets of captures that come piece by piece, what they carry, and keys of connections. All values are by hand.
use bt_capture::{FileEnd, Packets, Pair, ReadFault, Sight, sight_of};
use bt_io::MemSource;
use bt_packet::{Address, Host, Unread};
use bt_pcap::{FileFault, KEEP, Packet};
use std::alloc::{AllocError, Global};

/// A record of three bytes and one without.
const RECORDS: &[u8] = b"\xd4\xc3\xb2\xa1\x02\0\x04\0\0\0\0\0\0\0\0\0\xff\xff\0\0\x01\0\0\x10\
    \x01\0\0\0\x02\0\0\0\x03\0\0\0\x05\0\0\0abc\xff\xff\xff\xff\x3f\x42\x0f\0\0\0\0\0\0\0\0\0";

/// Ethernet, IPv4 from 10.0.0.1 to 10.0.0.2, and TCP from port 6881 to port 80 with one byte.
const SEGMENT: &[u8] = b"\x02\0\0\0\0\x02\x02\0\0\0\0\x01\x08\0\x45\0\0\x29\0\x01\x40\0\x40\x06\0\0\
    \x0a\0\0\x01\x0a\0\0\x02\x1a\xe1\0\x50\x01\x02\x03\x04\x0a\x0b\x0c\x0d\x50\x18\xff\xff\0\0\0\0x";

/// The same hosts, and uTP with the id 4660.
const UTP: &[u8] = b"\x02\0\0\0\0\x02\x02\0\0\0\0\x01\x08\0\x45\0\0\x30\0\x01\x40\0\x40\x11\0\0\
    \x0a\0\0\x01\x0a\0\0\x02\x1a\xe1\0\x50\0\x1c\0\0\x21\0\x12\x34\0\0\0\x01\0\0\0\0\0\x10\0\0\0\x05\0\x04";

/// How reading a capture ended.
#[derive(Clone, Copy, PartialEq, Eq)]
enum Stop {
    End,
    Fault(FileFault),
    Read(ReadFault),
    Turns,
}

/// Reads on, and writes the length of each packet with a stroke after it.
fn read_on(
    packets: &mut Packets,
    reader: &mut MemSource,
    lengths: &mut Vec<usize>,
) -> Result<Stop, AllocError> {
    for _turn in 0..1_000_000u32 {
        match packets.take() {
            Ok(Some(packet)) => lengths.push(packet.bytes.len())?,
            Ok(None) => match packets.read(reader) {
                Ok(0) => return Ok(Stop::End),
                Ok(_) => {}
                Err(fault) => return Ok(Stop::Read(fault)),
            },
            Err(fault) => return Ok(Stop::Fault(fault)),
        }
    }
    Ok(Stop::Turns)
}

/// Reads `file` by pieces of at most `most` bytes, from the read on that fails, and returns what came of it.
fn read_file(
    alloc: Global,
    file: &[u8],
    most: usize,
) -> Result<(Stop, Vec<usize>, Packets), AllocError> {
    let mut packets = Packets::new(alloc)?;
    let mut reader = MemSource::new(Vec::from_slice(alloc, file)?, most.max(1), None);
    let mut lengths = Vec::new(alloc);
    let stop = read_on(&mut packets, &mut reader, &mut lengths)?;
    Ok((stop, lengths, packets))
}

/// A file in pieces of each size, whole.
#[test]
fn reads_pieces(rt: HostRuntime) -> Result<(), AllocError> {
    for most in 1..61 {
        let (stop, lengths, packets) = read_file(rt.alloc(), RECORDS, most)?;
        assert!(rt; stop == Stop::End && lengths.as_slice() == [3usize, 0].as_slice());
        assert!(rt; packets.ended() == Ok(FileEnd::Whole));
        assert!(rt; packets.bytes() == 59 && packets.packets() == 2);
    }
    Ok(())
}

/// A file that is cut after each byte.
#[test]
fn tells_cuts(rt: HostRuntime) -> Result<(), AllocError> {
    for n in 0..RECORDS.len() {
        let (stop, lengths, packets) = read_file(rt.alloc(), RECORDS.get(..n).unwrap_or(&[]), 7)?;
        let is_whole = n == 24 || n == 43;
        let end = if is_whole {
            FileEnd::Whole
        } else {
            FileEnd::Cut
        };
        let wanted = if n < 4 {
            Err(FileFault::NoCapture)
        } else {
            Ok(end)
        };
        assert!(rt; stop == Stop::End && packets.ended() == wanted);
        assert!(rt; lengths.len() == usize::from(n >= 43));
    }
    Ok(())
}

/// A record longer than what is kept, and one after it.
#[test]
fn passes_over_the_rest(rt: HostRuntime) -> Result<(), AllocError> {
    let mut file = Vec::from_slice(rt.alloc(), RECORDS.get(..24).unwrap_or(&[]))?;
    file.extend_from_slice(b"\0\0\0\0\0\0\0\0\0\0\x20\0\0\0\x20\0")?;
    file.resize(24 + 16 + 0x20_0000, 7)?;
    file.extend_from_slice(RECORDS.get(24..).unwrap_or(&[]))?;
    for most in [1_000usize, 300_000, 5_000_000] {
        let (stop, lengths, packets) = read_file(rt.alloc(), file.as_slice(), most)?;
        assert!(rt; stop == Stop::End && packets.ended() == Ok(FileEnd::Whole));
        assert!(rt; lengths.as_slice() == [KEEP, 3, 0].as_slice());
    }
    Ok(())
}

/// A read that fails, after which another one goes on, and a fault that is told again.
#[test]
fn goes_on_after_failures(rt: HostRuntime) -> Result<(), AllocError> {
    let mut packets = Packets::new(rt.alloc())?;
    let mut lengths = Vec::new(rt.alloc());
    let file = Vec::from_slice(rt.alloc(), RECORDS)?;
    let mut reader = MemSource::new(file, 50, Some(2));
    let first = read_on(&mut packets, &mut reader, &mut lengths)?;
    assert!(rt; first == Stop::Read(ReadFault::Failed) && lengths.len() == 1);
    assert!(rt; read_on(&mut packets, &mut reader, &mut lengths)? == Stop::End);
    assert!(rt; lengths.len() == 2);
    let (stop, _, mut packets) = read_file(rt.alloc(), b"abcdef", 3)?;
    assert!(rt; stop == Stop::Fault(FileFault::NoCapture));
    assert!(rt; packets.take() == Err(FileFault::NoCapture));
    Ok(())
}

/// Makes an address of IPv4.
fn address(last: u8, port: u16) -> Address {
    Address {
        host: Host::V4([10, 0, 0, last]),
        port,
    }
}

/// Makes a packet of Ethernet.
fn packet(bytes: &[u8]) -> Packet<'_> {
    Packet {
        link: 1,
        nanos: 0,
        bytes,
        length: 100,
    }
}

/// What packets carry, and the key of their connection.
#[test]
fn sees_packets(rt: HostRuntime) {
    let (a, b) = (address(1, 6881), address(2, 80));
    match sight_of(&packet(SEGMENT)) {
        Sight::Segment(segment) => {
            assert!(rt;
                segment.source == a && segment.target == b && segment.payload == b"x".as_slice()
            );
        }
        _ => panic!(rt; "no segment"),
    }
    match sight_of(&packet(UTP)) {
        Sight::Utp(utp) => assert!(rt; utp.source == a && utp.target == b && utp.id == 4660),
        _ => panic!(rt; "no uTP"),
    }
    assert!(rt; matches!(sight_of(&packet(b"abc")), Sight::Other(Unread::Other)));
    assert!(rt;
        Pair::of(a, b)
            == Pair {
                low: b,
                high: a,
                link: None
            }
    );
    assert!(rt;
        Pair::of(b, a)
            == Pair {
                low: b,
                high: a,
                link: None
            }
    );
    let v6 = Address {
        host: Host::V6([0; 16]),
        port: 80,
    };
    assert!(rt;
        Pair::of(v6, b)
            == Pair {
                low: b,
                high: v6,
                link: None
            }
    );
}
