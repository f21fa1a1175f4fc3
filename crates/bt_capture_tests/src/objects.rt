//! Reports and rows as JSON objects. The facts are those of the lines in told.rt, and of `show --json`.
use crate::datagrams::{CLOSES, packets};
use crate::told::{
    NO_REMARKS, bad, known, own, refused_twice, report, row, sample_rows, with_a_guess, with_gaps,
    with_remarks,
};
use bt_feed::View;
use bt_json::message_line;
use bt_remarks::Side;
use bt_report::{Body, Direction, Left, Report, ReportObject, Title, Told, UtpObject};
use bt_rows::{Deed, Words, put_row_object};
use bt_text::ended::Ended;
use bt_wire::{Handshake, MessageView, Reason, Reserved};
use std::test::Fail;

pub(crate) fn object_of(rt: &HostRuntime, report: &Report) -> Result<Vec<u8>, Fail> {
    let object = ReportObject(report);
    let text = format!(in rt.alloc(); "{object}")?;
    Ok(text.into_bytes())
}

#[test]
fn gaps(rt: HostRuntime) -> Result<(), Fail> {
    let out = object_of(&rt, &with_gaps())?;
    let wanted = b"\
{\"connection\":0,\"a\":\"10.0.0.1:51413\",\"b\":\"10.0.0.2:6881\",\"bittorrent\":true,\
\"from_a\":{\"name\":\"Transmission 3.00\",\"free\":{\"verdict\":\"ok\",\"messages\":5,\"bytes\":278},\
\"bep\":{\"verdict\":\"ok\",\"messages\":5,\"bytes\":278},\"receiver\":{\"reserved\":\"0000000000100005\",\
\"metadata_id\":2,\"donthave_id\":7}},\"from_b\":{\"name\":\"libtorrent/2.0.8.0\",\"gap\":{\"offset\":1000,\
\"bytes\":1000},\"gaps\":2,\"missing\":2000,\"free\":{\"verdict\":\"refused\",\"message\":5,\"offset\":1000,\
\"reason\":\"EndInside\",\"note\":\"cut by the gap\"},\"bep\":{\"verdict\":\"refused\",\"message\":5,\"offset\":1000,\
\"reason\":\"EndInside\",\"note\":\"cut by the gap\"},\"receiver\":{\"reserved\":\"0000000000100004\",\
\"metadata_id\":3}},\"closed\":{\"side\":\"A\",\"by\":\"FIN\",\"time\":0.057000,\"a\":{\"sent\":278,\
\"last\":{\"offset\":247,\"item\":\"metadata-request\",\"piece\":1}},\"b\":{\"sent\":25889,\"last\":{\"offset\":296,\
\"item\":\"choke\"}}}}
";
    assert_eq!(rt; out.as_slice(), wanted.as_slice());
    Ok(())
}

#[test]
fn remarks(rt: HostRuntime) -> Result<(), Fail> {
    let out = object_of(&rt, &with_remarks())?;
    let wanted = b"\
{\"connection\":0,\"a\":\"10.0.0.1:51413\",\"b\":\"10.0.0.2:6881\",\"bittorrent\":true,\
\"from_a\":{\"name\":\"-AA0001-000000000000\",\"free\":{\"verdict\":\"ok\",\"messages\":8,\"bytes\":176},\
\"bep\":{\"verdict\":\"ok\",\"messages\":8,\"bytes\":176},\"receiver\":{\"reserved\":\"0000000000100005\"},\
\"choked\":{\"count\":1,\"first\":{\"offset\":73,\"item\":\"request\",\"index\":0,\"begin\":0,\"length\":1}},\
\"again\":{\"count\":1,\"first\":{\"offset\":107,\"item\":\"request\",\"index\":1,\"begin\":0,\"length\":1}},\
\"unanswered\":{\"count\":3,\"first\":{\"offset\":107,\"item\":\"request\",\"index\":1,\"begin\":0,\"length\":1}},\
\"elsewhere\":{\"count\":1,\"first\":{\"offset\":150,\"item\":\"have\",\"index\":5}}},\
\"from_b\":{\"name\":\"-BB0001-000000000000\",\"free\":{\"verdict\":\"ok\",\"messages\":10,\"bytes\":163},\
\"bep\":{\"verdict\":\"ok\",\"messages\":10,\"bytes\":163},\"receiver\":{\"reserved\":\"0000000000100005\"},\
\"unasked\":{\"count\":2,\"first\":{\"offset\":102,\"item\":\"piece\",\"index\":2,\"begin\":0,\"bytes\":1}},\
\"elsewhere\":{\"count\":1,\"first\":{\"offset\":149,\"item\":\"have\",\"index\":3}}},\"closed\":{\"side\":\"B\",\
\"by\":\"FIN\",\"time\":0.023000,\"a\":{\"sent\":176,\"last\":{\"offset\":159,\"item\":\"request\",\"index\":1,\
\"begin\":2,\"length\":1}},\"b\":{\"sent\":163,\"last\":{\"offset\":158,\"item\":\"choke\"}}}}
";
    assert_eq!(rt; out.as_slice(), wanted.as_slice());
    Ok(())
}

#[test]
fn guessed(rt: HostRuntime) -> Result<(), Fail> {
    let out = object_of(&rt, &with_a_guess())?;
    let wanted = b"\
{\"connection\":0,\"a\":\"10.0.0.1:51413\",\"b\":\"10.0.0.2:6881\",\"bittorrent\":true,\"from_a\":{\"sent\":0,\
\"strays\":1,\"gap\":{\"offset\":0,\"bytes\":278},\"gaps\":1,\"missing\":278},\"from_b\":{\"name\":\"libtorrent/2.0.8.0\",\
\"conflicts\":2,\"strays\":3,\"free\":{\"verdict\":\"ok\",\"messages\":6,\"bytes\":25889},\"bep\":{\"verdict\":\"ok\",\
\"messages\":6,\"bytes\":25889},\"receiver\":{\"reserved\":\"0000000000100005\",\"guessed\":true}},\
\"closed\":{\"side\":\"A\",\"by\":\"FIN\",\"time\":0.057000,\"b\":{\"sent\":25889,\"last\":{\"offset\":16736,\
\"item\":\"extended\",\"id\":3,\"bytes\":9147}}}}
";
    assert_eq!(rt; out.as_slice(), wanted.as_slice());
    Ok(())
}

/// A report that explains refusals, and has a name with quotes, a backslash and a byte that isn't ASCII.
fn explained(left: Left) -> Report {
    let index = bad(2, Reason::BadIndex, 73, b"\0\0\0\x05\x04\0\0\0\x26", 78);
    let protocol = bad(0, Reason::BadProtocol, 0, b"\x13BitTorrent protocoL", 19);
    let ended = Ended::Accepted {
        messages: 1,
        bytes: 73,
    };
    let b = known(
        Title::of_client(b"a \"b\" \\c\xff"),
        ended,
        own(0x100005, 2, 0, None),
    );
    let told = Told {
        a: refused_twice(index, protocol),
        b: Direction { exchange: 600, ..b },
        closed: None,
        left,
        remarked_a: NO_REMARKS,
        remarked_b: NO_REMARKS,
    };
    report(Body::Told(told))
}

/// How a connection that nobody closed was left, and the members on that.
const LEFT: &[(Left, &[u8])] = &[
    (Left::Open, b""),
    (Left::Unread, b",\"not_read_further\":true"),
    (Left::Replaced, b",\"replaced\":true"),
];

/// Nobody closed.
#[test]
fn refused(rt: HostRuntime) -> Result<(), Fail> {
    let front = b"\
{\"connection\":0,\"a\":\"10.0.0.1:51413\",\"b\":\"10.0.0.2:6881\",\"bittorrent\":true,\
\"from_a\":{\"name\":\"-AA0001-000000000000\",\"free\":{\"verdict\":\"refused\",\"message\":2,\"offset\":78,\
\"reason\":\"BadIndex\",\
\"why\":\"The have message names piece 38, and the torrent has 38 pieces, so the last index is 37\"},\
\"bep\":{\"verdict\":\"refused\",\"message\":0,\"offset\":19,\"reason\":\"BadProtocol\",\
\"why\":\"A stream begins with the byte 19 and the text \\\"BitTorrent protocol\\\", and byte 19 is 0x4c\"},\
\"receiver\":{\"reserved\":\"0000000000100005\",\"pieces\":38}},\"from_b\":{\"name\":\"a \\\"b\\\" \\\\c.\",\
\"exchange\":600,\"free\":{\"verdict\":\"ok\",\"messages\":1,\"bytes\":73},\"bep\":{\"verdict\":\"ok\",\"messages\":1,\
\"bytes\":73},\"receiver\":{\"reserved\":\"0000000000100005\",\"metadata_id\":2}}";
    for (left, members) in LEFT {
        let out = object_of(&rt, &explained(*left))?;
        let mut wanted = Vec::from_slice(rt.alloc(), front)?;
        wanted.extend_from_slice(members)?;
        wanted.extend_from_slice(b"}\n")?;
        assert_eq!(rt; out.as_slice(), wanted.as_slice());
    }
    Ok(())
}

#[test]
fn not_bittorrent(rt: HostRuntime) -> Result<(), Fail> {
    let out = object_of(&rt, &report(Body::NotBitTorrent))?;
    let wanted =
        b"{\"connection\":0,\"a\":\"10.0.0.1:51413\",\"b\":\"10.0.0.2:6881\",\"bittorrent\":false}\n";
    assert_eq!(rt; out.as_slice(), wanted.as_slice());
    Ok(())
}

#[test]
fn rows(rt: HostRuntime) -> Result<(), Fail> {
    let mut out = Vec::new(rt.alloc());
    for row in &sample_rows() {
        put_row_object(4, row, &mut out)?;
    }
    let wanted = b"\
{\"connection\":0,\"time\":0.003000,\"packet\":4,\"side\":\"A\",\"offset\":68,\"item\":\"have-none\"}
{\"connection\":0,\"time\":0.007000,\"packet\":4,\"side\":\"A\",\"verdict\":\"refused\",\"message\":2,\"offset\":78,\"reason\":\"BadIndex\"}
{\"connection\":0,\"time\":12.000000,\"packet\":4,\"side\":\"A\",\"offset\":87,\"gap\":1000}
{\"connection\":0,\"time\":123.000000,\"packet\":4,\"side\":\"B\",\"offset\":68,\"closed\":\"RST\"}
{\"connection\":12,\"time\":1234.000001,\"packet\":4,\"side\":\"B\",\"offset\":107,\"item\":\"request\",\"index\":1,\"begin\":0,\"length\":1,\"remarks\":[\"choked\",\"again\"]}
";
    assert_eq!(rt; out.as_slice(), wanted.as_slice());
    Ok(())
}

/// The row of a handshake with this peer id, as an object.
fn hello_row(rt: &HostRuntime, peer_id: &[u8; 20]) -> Result<Vec<u8>, Fail> {
    let words = Words::Handshake(Handshake {
        reserved: Reserved(0x100005),
        info_hash: *b"abcdefghijklmnopqrst",
        peer_id: *peer_id,
    });
    let mut out = Vec::new(rt.alloc());
    let deed = Deed::Item(words);
    put_row_object(4, &row(3_000_000, Side::A, 0, deed), &mut out)?;
    Ok(out)
}

/// Of peer ids that are UTF-8 and need escapes, and of one that isn't.
#[test]
fn handshakes(rt: HostRuntime) -> Result<(), Fail> {
    let mut out = hello_row(&rt, b"-A\"\\\x08\x0c\n\r\t\x1f\xc3\xa4\x7f-abcdef")?;
    let other = hello_row(&rt, b"-BB0001-\xff00000000000")?;
    out.extend_from_slice(other.as_slice())?;
    let wanted = b"\
{\"connection\":0,\"time\":0.003000,\"packet\":4,\"side\":\"A\",\"offset\":0,\"item\":\"handshake\",\
\"reserved\":\"0000000000100005\",\
\"info_hash\":\"6162636465666768696a6b6c6d6e6f7071727374\",\"peer_id\":\"2d41225c080c0a0d091fc3a47f2d616263646566\",\
\"peer_id_text\":\"-A\\\"\\\\\\b\\f\\n\\r\\t\\u001f\xc3\xa4\x7f-abcdef\"}
{\"connection\":0,\"time\":0.003000,\"packet\":4,\"side\":\"A\",\"offset\":0,\"item\":\"handshake\",\
\"reserved\":\"0000000000100005\",\
\"info_hash\":\"6162636465666768696a6b6c6d6e6f7071727374\",\"peer_id\":\"2d4242303030312dff3030303030303030303030\",\"peer_id_text\":null}
";
    assert_eq!(rt; out.as_slice(), wanted.as_slice());
    Ok(())
}

const FRONT: &[u8] = b"{\"connection\":0,\"time\":0.003000,\"packet\":4,\"side\":\"A\",";

/// The object of `show --json` for a message at the offset 68, in a row.
fn shown(rt: &HostRuntime, message: &MessageView) -> Result<Vec<u8>, Fail> {
    let mut line = Vec::new(rt.alloc());
    message_line(rt.alloc(), 68, message, &mut line)?;
    let mut out = Vec::new(rt.alloc());
    out.extend_from_slice(FRONT)?;
    if let [_, rest @ ..] = line.as_slice() {
        out.extend_from_slice(rest)?;
    }
    Ok(out)
}

/// The row of a message, as an object.
fn told(rt: &HostRuntime, message: MessageView) -> Result<Vec<u8>, Fail> {
    let deed = Deed::Item(Words::of(&View::Message(message)));
    let mut out = Vec::new(rt.alloc());
    put_row_object(4, &row(3_000_000, Side::A, 68, deed), &mut out)?;
    Ok(out)
}

/// A message of each shape has the fields of `show --json`.
#[test]
fn messages(rt: HostRuntime) -> Result<(), Fail> {
    let given = [
        MessageView::KeepAlive,
        MessageView::Have(5),
        MessageView::Bitfield(b"\xff\0"),
        MessageView::Request {
            index: 1,
            begin: 2,
            length: 3,
        },
        MessageView::Piece {
            index: 1,
            begin: 2,
            block: b"abc",
        },
        MessageView::Port(6881),
        MessageView::AllowedFast(7),
        MessageView::Unknown {
            id: 21,
            payload: b"ab",
        },
    ];
    for message in given {
        let wanted = shown(&rt, &message)?;
        let out = told(&rt, message)?;
        assert_eq!(rt; out.as_slice(), wanted.as_slice());
    }
    Ok(())
}

#[test]
fn utp(rt: HostRuntime) -> Result<(), Fail> {
    let mut out = String::new(rt.alloc());
    for row in CLOSES {
        let packets = packets(row);
        let object = UtpObject(&packets);
        write!(out, "{object}")?;
    }
    let wanted = b"\
{\"utp\":{\"source\":\"10.0.0.1:51413\",\"target\":\"10.0.0.2:6881\",\"packets\":3}}
{\"utp\":{\"source\":\"10.0.0.1:51413\",\"target\":\"10.0.0.2:6881\",\"packets\":3,\
\"closed\":[{\"by\":\"10.0.0.1:51413\",\"reason\":8,\"name\":\"timeout\"}]}}
{\"utp\":{\"source\":\"10.0.0.1:51413\",\"target\":\"10.0.0.2:6881\",\"packets\":3,\
\"closed\":[{\"by\":\"10.0.0.2:6881\",\"reason\":271,\"name\":\"invalid request message\"}]}}
{\"utp\":{\"source\":\"10.0.0.1:51413\",\"target\":\"10.0.0.2:6881\",\"packets\":3,\"at_least\":true,\
\"closed\":[{\"by\":\"10.0.0.1:51413\",\"reason\":16,\"name\":\"too many files\"},{\"by\":\"10.0.0.2:6881\",\"reason\":289}]}}
";
    assert_eq!(rt; out.as_bytes(), wanted.as_slice());
    Ok(())
}
