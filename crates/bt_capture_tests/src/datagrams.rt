//! Packets of uTP: how many there are between each two ends, why the ends closed, and the line on them at a capture's end.
use bt_capture::{CaptureJob, Choice, run_capture};
use bt_io::{MemSource, MemTarget};
use bt_packet::{Address, Host, Utp, UtpKind};
use bt_report::UtpPackets;
use bt_talk::Terms;
use bt_utp::{Counted, UtpFlows};
use std::hash::RandomState;
use std::test::Fail;

/// A connection: SYN and STATE with the id 7, and FIN with the id 8, which says a reason. And one packet with another id.
const FILE: &[u8] = b"\xd4\xc3\xb2\xa1\x02\0\x04\0\0\0\0\0\0\0\0\0\xff\xff\0\0e\0\0\0\
    \x01\0\0\0\0\0\0\00\0\0\00\0\0\0E\0\00\0\0\0\0@\x11\0\0\x0a\0\0\x01\x0a\0\0\x02\
    \xc8\xd5\x1a\xe1\0\x1c\0\0A\0\0\x07\0\0\0\x01\0\0\0\x02\0\0\0\x03\0\x04\0\x05\
    \x01\0\0\0\xe8\x03\0\00\0\0\00\0\0\0E\0\00\0\0\0\0@\x11\0\0\x0a\0\0\x02\x0a\0\0\x01\
    \x1a\xe1\xc8\xd5\0\x1c\0\0!\0\0\x07\0\0\0\x01\0\0\0\x02\0\0\0\x03\0\x04\0\x05\
    \x01\0\0\0\xd0\x07\0\06\0\0\06\0\0\0E\0\06\0\0\0\0@\x11\0\0\x0a\0\0\x01\x0a\0\0\x02\
    \xc8\xd5\x1a\xe1\0\x22\0\0\x11\x03\0\x08\0\0\0\x01\0\0\0\x02\0\0\0\x03\0\x04\0\x05\0\x04\0\0\x01\x09\
    \x01\0\0\0\xb8\x0b\0\00\0\0\00\0\0\0E\0\00\0\0\0\0@\x11\0\0\x0a\0\0\x01\x0a\0\0\x02\
    \xc8\xd5\x1a\xe1\0\x1c\0\0!\0\x03\x84\0\0\0\x01\0\0\0\x02\0\0\0\x03\0\x04\0\x05";

/// What is written of it.
const LINE: &[u8] =
    b"uTP  10.0.0.1:51413 > 10.0.0.2:6881  3 packets of BitTorrent over UDP (BEP 29), read from a SYN on; \
10.0.0.1:51413 closed: 265 (invalid have message)\n";

/// What is written of it as a JSON object.
const OBJECT: &[u8] =
    b"{\"utp\":{\"source\":\"10.0.0.1:51413\",\"target\":\"10.0.0.2:6881\",\"packets\":3,\
\"closed\":[{\"by\":\"10.0.0.1:51413\",\"reason\":265,\"name\":\"invalid have message\"}]}}\n";

/// One of the two ends, by its host's last byte and its port.
fn end(last: u8, port: u16) -> Address {
    Address {
        host: Host::V4([10, 0, 0, last]),
        port,
    }
}

/// Whether there may be more packets of uTP, and why both ends closed.
pub(crate) const CLOSES: &[(bool, Option<u16>, Option<u16>)] = &[
    (false, None, None),
    (false, Some(8), None),
    (false, None, Some(271)),
    (true, Some(16), Some(289)),
];

/// Three packets of uTP between two ends.
pub(crate) fn packets(row: &(bool, Option<u16>, Option<u16>)) -> UtpPackets {
    let (is_least, source_reason, target_reason) = *row;
    UtpPackets {
        source: end(1, 51413),
        target: end(2, 6881),
        count: 3,
        is_least,
        source_reason,
        target_reason,
    }
}

/// A packet of uTP from the first end to the second, or back, which may say why its sender closes.
fn datagram(is_back: bool, id: u16, reason: Option<u16>) -> Utp<'static> {
    let (first, second) = (end(1, 51413), end(2, 6881));
    let (source, target) = if is_back {
        (second, first)
    } else {
        (first, second)
    };
    Utp {
        source,
        target,
        kind: UtpKind::Fin,
        id,
        number: 4,
        acked: 5,
        reason,
        payload: &[],
        length: 0,
    }
}

/// An id has the next one near, also 65,535 has 0; and a datagram back is between the same ends. Of each end the last reason is told.
#[test]
fn near_ids_count(rt: HostRuntime) -> Result<(), Fail> {
    let mut flows = UtpFlows::new(rt.alloc());
    let said = [
        (false, 65535, Some(9)),
        (true, 65535, Some(8)),
        (false, 0, Some(265)),
        (false, 900, None),
    ];
    for (is_back, id, reason) in said {
        flows.take(&datagram(is_back, id, reason))?;
    }
    let counted = flows.counted(0);
    assert!(rt;
        counted
            == Some(Counted {
                source: end(1, 51413),
                target: end(2, 6881),
                count: 3,
                is_least: false,
                source_reason: Some(265),
                target_reason: Some(8),
            })
    );
    Ok(())
}

/// No flow is after the last one.
#[test]
fn one_flow(rt: HostRuntime) -> Result<(), Fail> {
    let mut flows = UtpFlows::new(rt.alloc());
    flows.take(&datagram(true, 1, None))?;
    assert!(rt; flows.len() == 1 && flows.counted(1).is_none());
    Ok(())
}

/// Whether this is written of the capture.
fn is_written(rt: &HostRuntime, json: bool, text: &[u8]) -> Result<bool, Fail> {
    let file = Vec::from_slice(rt.alloc(), FILE)?;
    let mut reader = MemSource::new(file, 4_096, None);
    let mut writer = MemTarget::new(Vec::new(rt.alloc()), 4_096, None);
    let job = CaptureJob {
        terms: Terms {
            limit: 262_144,
            pieces: None,
            torrent: None,
        },
        show: false,
        json,
        stream: None,
        choice: Choice::ALL,
    };
    let Ok(keys) = RandomState::new(rt) else {
        return Ok(false);
    };
    let end = run_capture(rt.alloc(), keys, &mut reader, &mut writer, &job);
    Ok(end.is_ok() && writer.bytes() == text)
}

#[test]
fn a_line_at_the_end(rt: HostRuntime) -> Result<(), Fail> {
    assert!(rt; is_written(&rt, false, LINE)?);
    Ok(())
}

#[test]
fn an_object_at_the_end(rt: HostRuntime) -> Result<(), Fail> {
    assert!(rt; is_written(&rt, true, OBJECT)?);
    Ok(())
}
