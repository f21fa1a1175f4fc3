//! A report on gaps that are final, so that bytes of them may have come too late.
use crate::objects::object_of;
use crate::told::{both, text_of};
use bt_report::{Direction, Report, Sender};
use bt_tcp::{Gap, Gaps};
use std::test::Fail;

/// A direction of which these bytes came before a gap that is final.
fn lost(sent: u64, length: u64, count: u64, sum: u64) -> Direction {
    Direction {
        sender: Sender::Unknown(sent),
        exchange: 0,
        conflicts: 0,
        strays: 0,
        gaps: Gaps {
            first: Some(Gap {
                place: sent,
                length,
            }),
            count,
            sum,
        },
        is_final: true,
    }
}

/// A report in which both sides have gaps that are final.
fn with_final_gaps() -> Report {
    both(lost(0, 1024, 2, 2000), lost(7, 5, 1, 5))
}

#[test]
fn text(rt: HostRuntime) -> Result<(), Fail> {
    let out = text_of(&rt, &with_final_gaps())?;
    let wanted = b"connection 0  A 10.0.0.1:51413 > B 10.0.0.2:6881
  A sent 0 bytes and no whole handshake
    gap at 0: 1024 bytes aren't in the capture, or came more than 15 MiB late; 2 gaps, 2000 bytes in all
  B sent 7 bytes and no whole handshake
    gap at 7: 5 bytes aren't in the capture, or came more than 15 MiB late
  A closed first, by FIN, at 0.009000 s
";
    assert_eq!(rt; out.as_slice(), wanted.as_slice());
    Ok(())
}

#[test]
fn object(rt: HostRuntime) -> Result<(), Fail> {
    let out = object_of(&rt, &with_final_gaps())?;
    let wanted = b"\
{\"connection\":0,\"a\":\"10.0.0.1:51413\",\"b\":\"10.0.0.2:6881\",\"bittorrent\":true,\
\"from_a\":{\"sent\":0,\"gap\":{\"offset\":0,\"bytes\":1024,\"final\":true},\"gaps\":2,\"missing\":2000},\
\"from_b\":{\"sent\":7,\"gap\":{\"offset\":7,\"bytes\":5,\"final\":true},\"gaps\":1,\"missing\":5},\
\"closed\":{\"side\":\"A\",\"by\":\"FIN\",\"time\":0.009000}}
";
    assert_eq!(rt; out.as_slice(), wanted.as_slice());
    Ok(())
}
