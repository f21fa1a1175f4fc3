//! A tracker's URL, its messages over UDP (BEP 15), and those over HTTP (BEP 3, BEP 7, BEP 23).
use bt_tracker::*;
use std::alloc::{AllocError, Global};

const ANNOUNCE: Announce = Announce {
    info_hash: *b"abcdefghijklmnopqrst",
    peer_id: *b"-TZ0001-\x00\x01\x02\xfe\xff /09AZz",
    left: 1,
    event: Event::Started,
    wanted: 50,
    port: 1,
};

#[test]
fn connect(rt: HostRuntime) -> Result<(), AllocError> {
    let question = connect_question(rt.alloc(), *b"\x01\x02\x03\x04")?;
    let wanted = b"\0\0\x04\x17\x27\x10\x19\x80\0\0\0\0\x01\x02\x03\x04".as_slice();
    assert!(rt; question.as_slice() == wanted);
    Ok(())
}

/// The fields of an announce (BEP 15) up to the peer id.
const FRONT: &[u8] =
    b"connecto\0\0\0\x01tranabcdefghijklmnopqrst-TZ0001-\x00\x01\x02\xfe\xff /09AZz";

/// Those after it: downloaded, left, uploaded, event, address, key, wanted, port.
const BACK: &[u8] =
    b"\0\0\0\0\0\0\0\0\0\0\0\0\0\0\0\x01\0\0\0\0\0\0\0\0\0\0\0\x02\0\0\0\0keys\0\0\0\x32\0\x01";

#[test]
fn announce(rt: HostRuntime) -> Result<(), AllocError> {
    let question = announce_question(rt.alloc(), *b"connecto", *b"tran", *b"keys", &ANNOUNCE)?;
    assert!(rt; question.len() == 98);
    assert!(rt; question.as_slice().starts_with(FRONT));
    assert!(rt; question.as_slice().ends_with(BACK));
    Ok(())
}

/// A datagram, and the transaction and the answer in it.
type Answered = (&'static [u8], Option<([u8; 4], UdpAnswer<'static>)>);

const ANSWERED: &[Answered] = &[
    (b"", None),
    (b"\0\0\0\0tranconnect", None),
    (
        b"\0\0\0\0tranconnecto",
        Some((*b"tran", UdpAnswer::Connected(*b"connecto"))),
    ),
    (
        b"\0\0\0\0tranconnectomore",
        Some((*b"tran", UdpAnswer::Connected(*b"connecto"))),
    ),
    (b"\0\0\0\x01tran\0\0\x07\x08\0\0\0\x02\0\0\0", None),
    (
        b"\0\0\0\x01tran\0\0\x07\x08\0\0\0\x02\0\0\0\x03",
        Some((
            *b"tran",
            UdpAnswer::Announced {
                interval: 1800,
                leechers: 2,
                seeders: 3,
                peers: b"",
            },
        )),
    ),
    (
        b"\0\0\0\x01tran\0\0\x07\x08\0\0\0\x02\0\0\0\x03\x7f\0\0\x01\x1a\xe1",
        Some((
            *b"tran",
            UdpAnswer::Announced {
                interval: 1800,
                leechers: 2,
                seeders: 3,
                peers: b"\x7f\0\0\x01\x1a\xe1",
            },
        )),
    ),
    (b"\0\0\0\x02tran\0\0\x07\x08\0\0\0\x02\0\0\0\x03", None),
    (b"\0\0\0\x03tra", None),
    (b"\0\0\0\x03tran", Some((*b"tran", UdpAnswer::Error(b"")))),
    (
        b"\0\0\0\x03tranno such torrent",
        Some((*b"tran", UdpAnswer::Error(b"no such torrent"))),
    ),
    (b"\x01\0\0\0tranconnecto", None),
];

#[test]
fn answers(rt: HostRuntime) {
    for (datagram, answer) in ANSWERED {
        assert!(rt; read_answer(datagram) == *answer, "{datagram:?}");
    }
}

/// A URL, and the tracker or the offset of what is wrong.
type Read = (&'static str, Result<Tracker<'static>, UrlError>);

const READ: &[Read] = &[
    (
        "udp://tracker.example:1337",
        Ok(Tracker::Udp {
            host: "tracker.example",
            port: 1337,
        }),
    ),
    (
        "UDP://192.0.2.1:80/announce?x",
        Ok(Tracker::Udp {
            host: "192.0.2.1",
            port: 80,
        }),
    ),
    (
        "udp://[2001:db8::1]:6969/announce",
        Ok(Tracker::Udp {
            host: "2001:db8::1",
            port: 6969,
        }),
    ),
    ("udp://tracker.example", Err(UrlError { at: 21 })),
    ("udp://tracker.example:", Err(UrlError { at: 21 })),
    ("udp://tracker.example:0", Err(UrlError { at: 21 })),
    (
        "udp://tracker.example:65535",
        Ok(Tracker::Udp {
            host: "tracker.example",
            port: 65535,
        }),
    ),
    ("udp://tracker.example:65536", Err(UrlError { at: 21 })),
    ("udp://tracker.example:+80", Err(UrlError { at: 21 })),
    ("udp://:80", Err(UrlError { at: 6 })),
    ("udp://user@tracker.example:80", Err(UrlError { at: 6 })),
    ("udp://[2001:db8::1:80", Err(UrlError { at: 6 })),
    ("udp://[tracker]:80", Err(UrlError { at: 6 })),
    ("udp://[::1]80", Err(UrlError { at: 11 })),
    (
        "http://tracker.example",
        Ok(Tracker::Http {
            host: "tracker.example",
            port: 80,
            target: b"",
        }),
    ),
    (
        "http://tracker.example:8080/announce?key=1#top",
        Ok(Tracker::Http {
            host: "tracker.example",
            port: 8080,
            target: b"/announce?key=1",
        }),
    ),
    (
        "http://tracker.example?key=1/2",
        Ok(Tracker::Http {
            host: "tracker.example",
            port: 80,
            target: b"?key=1/2",
        }),
    ),
    (
        "http://[::1]/a",
        Ok(Tracker::Http {
            host: "::1",
            port: 80,
            target: b"/a",
        }),
    ),
    ("http://tracker.example/a b", Err(UrlError { at: 22 })),
    (
        "http://tracker.example/a\r\nHost: b",
        Err(UrlError { at: 22 }),
    ),
    ("http://tracker .example/", Err(UrlError { at: 7 })),
    ("https://tracker.example/announce", Ok(Tracker::Unasked)),
    ("wss://tracker.example", Ok(Tracker::Unasked)),
    ("ws://tracker.example", Ok(Tracker::Unasked)),
    ("ftp://tracker.example", Err(UrlError { at: 0 })),
    ("udp:tracker.example:80", Err(UrlError { at: 0 })),
    ("", Err(UrlError { at: 0 })),
];

#[test]
fn urls(rt: HostRuntime) {
    for (url, tracker) in READ {
        assert!(rt; read_tracker(url) == *tracker, "{url:?}");
    }
}

/// The query of an announce: each byte of the info hash and of the peer id escaped.
const QUERY: &str = concat!(
    "info_hash=%61%62%63%64%65%66%67%68%69%6A%6B%6C%6D%6E%6F%70%71%72%73%74",
    "&peer_id=%2D%54%5A%30%30%30%31%2D%00%01%02%FE%FF%20%2F%30%39%41%5A%7A",
    "&port=1&uploaded=0&downloaded=0&left=1&compact=1&numwant=50&event=started HTTP/1.0\r\nHost: ",
);

/// A host, a port and a target, and what stands before and after the query.
type Asked = (&'static str, u16, &'static [u8], &'static str, &'static str);

const ASKED: &[Asked] = &[
    (
        "tracker.example",
        80,
        b"/announce",
        "GET /announce?",
        "tracker.example\r\n\r\n",
    ),
    (
        "tracker.example",
        8080,
        b"/a?key=1",
        "GET /a?key=1&",
        "tracker.example:8080\r\n\r\n",
    ),
    ("192.0.2.1", 80, b"", "GET /?", "192.0.2.1\r\n\r\n"),
    ("::1", 6969, b"?key=1", "GET /?key=1&", "[::1]:6969\r\n\r\n"),
];

/// Whether the question is the one.
fn is_asked(alloc: Global, row: &Asked) -> Result<bool, AllocError> {
    let (host, port, target, front, back) = *row;
    let question = http_question(alloc, host, port, target, &ANNOUNCE)?;
    let bytes = question.as_slice();
    let rest = match bytes.strip_prefix(front.as_bytes()) {
        Some(rest) => rest,
        None => return Ok(false),
    };
    match rest.strip_prefix(QUERY.as_bytes()) {
        Some(rest) => Ok(rest == back.as_bytes()),
        None => Ok(false),
    }
}

#[test]
fn http_questions(rt: HostRuntime) -> Result<(), AllocError> {
    let alloc = rt.alloc();
    for row in ASKED {
        assert!(rt; is_asked(alloc, row)?, "{row:?}");
    }
    Ok(())
}

/// What comes over HTTP, and what it says.
type Said = (&'static [u8], Result<HttpAnswer<'static>, HttpError>);

const SAID: &[Said] = &[
    (
        b"HTTP/1.0 200 OK\r\n\r\nd8:intervali1800e5:peers6:\x7f\0\0\x01\x1a\xe1e",
        Ok(HttpAnswer::Peers {
            v4: b"\x7f\0\0\x01\x1a\xe1",
            v6: b"",
        }),
    ),
    (
        b"HTTP/1.1 200 OK\r\nServer: x\r\n\r\nd5:peers0:6:peers618:\x20\x01\x0d\xb8abcdefghijkl\x1a\xe1e",
        Ok(HttpAnswer::Peers {
            v4: b"",
            v6: b"\x20\x01\x0d\xb8abcdefghijkl\x1a\xe1",
        }),
    ),
    (
        b"HTTP/1.0 200 OK\r\n\r\nd14:failure reason15:no such torrente",
        Ok(HttpAnswer::Failure(b"no such torrent")),
    ),
    (
        b"HTTP/1.0 200 OK\r\n\r\nd14:failure reason3:bad5:peers6:abcdefe",
        Ok(HttpAnswer::Failure(b"bad")),
    ),
    (
        b"HTTP/1.0 200 OK\r\n\r\nde",
        Ok(HttpAnswer::Peers { v4: b"", v6: b"" }),
    ),
    (b"HTTP/1.0 404 Not Found\r\n\r\nde", Err(HttpError::Head)),
    (b"HTTP/1.0 200 OK\r\nServer: x", Err(HttpError::Head)),
    (b"d5:peers0:e", Err(HttpError::Head)),
    (b"HTTP/1.0 200 OK\r\n\r\n", Err(HttpError::Body)),
    (
        b"HTTP/1.0 200 OK\r\n\r\nd5:peers6:abc",
        Err(HttpError::Body),
    ),
];

#[test]
fn answers_over_http(rt: HostRuntime) {
    for (answer, said) in SAID {
        assert!(rt; read_http_answer(answer) == *said, "{answer:?}");
    }
}
