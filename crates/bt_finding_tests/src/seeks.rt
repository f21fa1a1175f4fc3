//! The search for peers, over mail from constants (BEP 3, BEP 5, BEP 15).
use bt_seek::{Came, Ids, Post, Question, Seek, Turn};
use std::alloc::{AllocError, Global};
use std::net::SocketAddr;

/// Mail: the time from which it is there, who sent it, and its bytes. What no address sent is the answer of the first page.
type Mail = (u64, &'static str, &'static [u8]);

/// A post that gives mail, and counts what is sent, and which pages are told that this peer has stopped. Its clock goes on by 100 ms a turn, and it draws 1, 2, 3 ..
#[derive(Drop)]
struct Played {
    mail: &'static [Mail],
    next: usize,
    drawn: u32,
    now: u64,
    sent: usize,
    stopped: usize,
}

impl Post for Played {
    ghost use Rattle.std.specs.Prelude.{None};

    ghost log = { λ p. None };

    fn send(&mut self, _to: SocketAddr, _question: Question, _datagram: &[u8]) {
        self.sent = self.sent.saturating_add(1);
    }

    fn ask(&mut self, _page: usize, _question: &[u8]) {}

    fn stop(&mut self, _page: usize, _question: &[u8]) {
        self.stopped = self.stopped.saturating_add(1);
    }

    fn receive(&mut self, buffer: &mut [u8]) -> Option<Came> {
        let (at, from, bytes) = *self.mail.get(self.next)?;
        if self.now < at {
            return None;
        }
        self.next = self.next.saturating_add(1);
        let length = bytes.len();
        let room = buffer.get_mut(..length)?;
        room.copy_from_slice(bytes);
        match from.parse::<SocketAddr>() {
            Ok(from) => Some(Came::Datagram { from, length }),
            Err(_) => Some(Came::Page { page: 0, length }),
        }
    }

    fn draw(&mut self) -> [u8; 4] {
        self.drawn = self.drawn.saturating_add(1);
        self.drawn.to_be_bytes()
    }

    fn time(&mut self) -> u64 {
        self.now = self.now.saturating_add(100);
        self.now
    }
}

/// A search: its trackers, pages and nodes, the mail that comes, whether private addresses are taken, and what is found and sent, and when it is over.
struct Row {
    trackers: &'static [&'static str],
    pages: usize,
    nodes: &'static [&'static str],
    is_local: bool,
    mail: &'static [Mail],
    peers: &'static [&'static str],
    sent: usize,
    /// When it is over, in milliseconds.
    over: u64,
    /// How many trackers over UDP are told at the end that it has stopped, once. Each page is told too.
    stops: usize,
}

/// A tracker over UDP, asked at 100 ms. It gives a connection, and then tells peers.
const TRACKER: &[&'static str] = &["1.1.1.1:80"];

/// A node, asked at 100 ms.
const NODE: &[&'static str] = &["2.2.2.2:6881"];

const CONNECTED: Mail = (150, "1.1.1.1:80", b"\0\0\0\0\0\0\0\x01ABCDEFGH");

const ROWS: &[Row] = &[
    // BEP 15: a connection, and then two peers
    Row {
        trackers: TRACKER,
        pages: 0,
        nodes: &[],
        is_local: false,
        mail: &[
            CONNECTED,
            (
                250,
                "1.1.1.1:80",
                b"\0\0\0\x01\0\0\0\x02\0\0\x07\x08\0\0\0\0\0\0\0\x02\x08\x08\x08\x08\x1a\xe1\x09\x09\x09\x09\0\x50",
            ),
        ],
        peers: &["8.8.8.8:6881", "9.9.9.9:80"],
        sent: 2,
        over: 300,
        stops: 1,
    },
    // an answer with another id, one from another port, and one of another kind: the question is sent once more, and then given up
    Row {
        trackers: TRACKER,
        pages: 0,
        nodes: &[],
        is_local: false,
        mail: &[
            (150, "1.1.1.1:80", b"\0\0\0\0\0\0\0\x09ABCDEFGH"),
            (150, "1.1.1.1:81", b"\0\0\0\0\0\0\0\x01ABCDEFGH"),
            (
                150,
                "1.1.1.1:80",
                b"\0\0\0\x01\0\0\0\x01\0\0\x07\x08\0\0\0\0\0\0\0\x01\x08\x08\x08\x08\x1a\xe1",
            ),
        ],
        peers: &[],
        sent: 2,
        over: 4100,
        stops: 0,
    },
    // an answer counts for 3 seconds
    Row {
        trackers: TRACKER,
        pages: 0,
        nodes: &[],
        is_local: false,
        mail: &[(3150, "1.1.1.1:80", b"\0\0\0\0\0\0\0\x01ABCDEFGH")],
        peers: &[],
        sent: 2,
        over: 4100,
        stops: 0,
    },
    Row {
        trackers: TRACKER,
        pages: 0,
        nodes: &[],
        is_local: false,
        mail: &[
            (2950, "1.1.1.1:80", b"\0\0\0\0\0\0\0\x01ABCDEFGH"),
            (
                3050,
                "1.1.1.1:80",
                b"\0\0\0\x01\0\0\0\x03\0\0\x07\x08\0\0\0\0\0\0\0\x01\x08\x08\x08\x08\x1a\xe1",
            ),
        ],
        peers: &["8.8.8.8:6881"],
        sent: 3,
        over: 3100,
        stops: 1,
    },
    // a tracker refuses
    Row {
        trackers: TRACKER,
        pages: 0,
        nodes: &[],
        is_local: false,
        mail: &[(150, "1.1.1.1:80", b"\0\0\0\x03\0\0\0\x01no")],
        peers: &[],
        sent: 1,
        over: 200,
        stops: 0,
    },
    // a private address, four ports of five of an IP, ports 0 and 1, and an address twice
    Row {
        trackers: TRACKER,
        pages: 0,
        nodes: &[],
        is_local: false,
        mail: &[
            CONNECTED,
            (
                250,
                "1.1.1.1:80",
                b"\0\0\0\x01\0\0\0\x02\0\0\x07\x08\0\0\0\0\0\0\0\x09\x0a\0\0\x01\x1a\xe1\x08\x08\x08\x08\0\x02\x08\x08\x08\x08\0\x03\x08\x08\x08\x08\0\x04\x08\x08\x08\x08\0\x05\x08\x08\x08\x08\0\x06\x09\x09\x09\x09\0\0\x09\x09\x09\x09\0\x01\x09\x09\x09\x09\0\x07\x09\x09\x09\x09\0\x07",
            ),
        ],
        peers: &[
            "8.8.8.8:2",
            "8.8.8.8:3",
            "8.8.8.8:4",
            "8.8.8.8:5",
            "9.9.9.9:7",
        ],
        sent: 2,
        over: 300,
        stops: 1,
    },
    // BEP 5: a node tells a node, which tells a peer; it isn't asked at a private address
    Row {
        trackers: &[],
        pages: 0,
        nodes: NODE,
        is_local: false,
        mail: &[
            (
                150,
                "2.2.2.2:6881",
                b"d1:rd2:id20:abcdefghij01234567895:nodes52:abcdefghij0123456789\x0a\0\0\x01\x1a\xe1abcdefghij0123456788\x08\x08\x08\x08\x1a\xe1e1:t4:\0\0\0\x011:y1:re",
            ),
            (
                250,
                "8.8.8.8:6881",
                b"d1:rd2:id20:abcdefghij01234567886:valuesl6:\x09\x09\x09\x09\0\x50ee1:t4:\0\0\0\x021:y1:re",
            ),
        ],
        peers: &["9.9.9.9:80"],
        sent: 2,
        over: 300,
        stops: 0,
    },
    Row {
        trackers: &[],
        pages: 0,
        nodes: NODE,
        is_local: true,
        mail: &[
            (
                150,
                "2.2.2.2:6881",
                b"d1:rd2:id20:abcdefghij01234567895:nodes26:abcdefghij0123456789\x0a\0\0\x01\x1a\xe1e1:t4:\0\0\0\x011:y1:re",
            ),
            (
                250,
                "10.0.0.1:6881",
                b"d1:rd2:id20:abcdefghij01234567896:valuesl6:\x0a\0\0\x02\0\x50ee1:t4:\0\0\0\x021:y1:re",
            ),
        ],
        peers: &["10.0.0.2:80"],
        sent: 2,
        over: 300,
        stops: 0,
    },
    // bytes after the dictionary, an id of two bytes, a question, and no id: none is an answer. Then an error, which is one
    Row {
        trackers: &[],
        pages: 0,
        nodes: NODE,
        is_local: false,
        mail: &[
            (
                150,
                "2.2.2.2:6881",
                b"d1:rd2:id20:abcdefghij01234567896:valuesl6:\x09\x09\x09\x09\0\x50ee1:t4:\0\0\0\x011:y1:re0",
            ),
            (
                150,
                "2.2.2.2:6881",
                b"d1:rd2:id20:abcdefghij01234567896:valuesl6:\x09\x09\x09\x09\0\x50ee1:t2:\0\x011:y1:re",
            ),
            (
                150,
                "2.2.2.2:6881",
                b"d1:rd6:valuesl6:\x09\x09\x09\x09\0\x50ee1:t4:\0\0\0\x011:y1:re",
            ),
            (
                150,
                "2.2.2.2:6881",
                b"d1:eli201e5:wronge1:t4:\0\0\0\x011:y1:ee",
            ),
        ],
        peers: &[],
        sent: 1,
        over: 200,
        stops: 0,
    },
    // BEP 3, BEP 23: the answer of a page
    Row {
        trackers: &[],
        pages: 1,
        nodes: &[],
        is_local: false,
        mail: &[(
            150,
            "",
            b"HTTP/1.0 200 OK\r\n\r\nd8:intervali1800e5:peers12:\x08\x08\x08\x08\x1a\xe1\x09\x09\x09\x09\0\x50e",
        )],
        peers: &["8.8.8.8:6881", "9.9.9.9:80"],
        sent: 0,
        over: 200,
        stops: 0,
    },
    // an answer that no question was asked for
    Row {
        trackers: &[],
        pages: 0,
        nodes: NODE,
        is_local: false,
        mail: &[(
            0,
            "2.2.2.2:6881",
            b"d1:rd2:id20:abcdefghij01234567896:valuesl6:\x09\x09\x09\x09\0\x50ee1:t4:\0\0\0\x011:y1:re",
        )],
        peers: &[],
        sent: 2,
        over: 4100,
        stops: 0,
    },
];

/// Returns whether these are the peers, in this order.
fn are(peers: &[SocketAddr], wanted: &[&str]) -> bool {
    if peers.len() != wanted.len() {
        return false;
    }
    for (peer, text) in peers.iter().zip(wanted) {
        if text.parse::<SocketAddr>() != Ok(*peer) {
            return false;
        }
    }
    true
}

/// Returns the search of a row that has asked nobody yet.
fn begun(alloc: Global, row: &Row) -> Result<Seek, AllocError> {
    let ids = Ids {
        info_hash: *b"mnopqrstuvwxyz123456",
        peer_id: *b"-TZ0001-abcdefghijkl",
        node_id: *b"abcdefghij0123456789",
        key: *b"keys",
    };
    let mut seek = Seek::new(alloc, ids, row.is_local)?;
    for text in row.trackers {
        if let Ok(address) = text.parse::<SocketAddr>() {
            seek.add_tracker(address)?;
        }
    }
    for text in row.nodes {
        if let Ok(address) = text.parse::<SocketAddr>() {
            seek.add_node(address)?;
        }
    }
    for _ in 0..row.pages {
        seek.add_page("tracker.example", 80, b"/announce")?;
    }
    Ok(seek)
}

/// Returns whether a search is over when the row says, and has found and sent what it says.
fn is_found(alloc: Global, row: &Row) -> Result<bool, AllocError> {
    let mut seek = begun(alloc, row)?;
    let mut post = Played {
        mail: row.mail,
        next: 0,
        drawn: 0,
        now: 0,
        sent: 0,
        stopped: 0,
    };
    for _ in 0..60 {
        if seek.turn(&mut post)? == Turn::Over {
            let sent = seek.summary().datagrams;
            seek.goodbye(&mut post)?;
            seek.goodbye(&mut post)?;
            let same = are(seek.peers(), row.peers) && sent == row.sent && post.now == row.over;
            return Ok(
                same && post.sent == sent.saturating_add(row.stops) && post.stopped == row.pages,
            );
        }
    }
    Ok(false)
}

#[test]
fn searches(rt: HostRuntime) -> Result<(), AllocError> {
    for (n, row) in ROWS.iter().enumerate() {
        let found = is_found(rt.alloc(), row)?;
        assert!(rt; found, "row {n}");
    }
    Ok(())
}
