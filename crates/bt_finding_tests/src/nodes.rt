//! The DHT: the question for peers, what nodes answer, and which node is nearer (BEP 5, 32, 43).
use bt_address::Family;
use bt_bencode::Value;
use bt_dht::{
    Body, distance, get_peers, message_in, nearness, next_peer, read_datagram, split_node,
};
use std::alloc::{AllocError, Global};
use std::cmp::Ordering;
use std::net::SocketAddr;

/// The ids of BEP 5's examples.
const OWN: &[u8; 20] = b"abcdefghij0123456789";

const INFO_HASH: &[u8; 20] = b"mnopqrstuvwxyz123456";

/// A family that is wanted, and BEP 5's example of a question, with a transaction id of four bytes and `ro`.
const QUESTIONS: &[(Option<Family>, &'static [u8])] = &[
    (
        None,
        b"d1:ad2:id20:abcdefghij01234567899:info_hash20:mnopqrstuvwxyz123456e1:q9:get_peers2:roi1e1:t4:aabb1:y1:qe",
    ),
    (
        Some(Family::V4),
        b"d1:ad2:id20:abcdefghij01234567899:info_hash20:mnopqrstuvwxyz1234564:wantl2:n4ee1:q9:get_peers2:roi1e1:t4:aabb1:y1:qe",
    ),
    (
        Some(Family::V6),
        b"d1:ad2:id20:abcdefghij01234567899:info_hash20:mnopqrstuvwxyz1234564:wantl2:n6ee1:q9:get_peers2:roi1e1:t4:aabb1:y1:qe",
    ),
];

fn is_question(alloc: Global, want: Option<Family>, wanted: &[u8]) -> Result<bool, AllocError> {
    let question = get_peers(alloc, *b"aabb", *OWN, *INFO_HASH, want)?;
    Ok(question.as_slice() == wanted)
}

#[test]
fn questions(rt: HostRuntime) -> Result<(), AllocError> {
    for (want, wanted) in QUESTIONS {
        let same = is_question(rt.alloc(), *want, wanted)?;
        assert!(rt; same, "{wanted:?}");
    }
    Ok(())
}

/// The id and the address of a node.
type Named = (&'static [u8], &'static str);

/// An answer with the transaction id `aa`: the id, the peers, the nodes, and those of IPv6.
type Told = (
    &'static [u8],
    &'static [u8],
    &'static [&'static str],
    &'static [Named],
    &'static [Named],
);

const ANSWERS: &[Told] = &[
    // BEP 5, "get_peers": with peers, and with nodes, whose string is shortened there
    (
        b"d1:rd2:id20:abcdefghij01234567895:token8:aoeusnth6:valuesl6:axje.u6:idhtnmee1:t2:aa1:y1:re",
        b"abcdefghij0123456789",
        &["97.120.106.101:11893", "105.100.104.116:28269"],
        &[],
        &[],
    ),
    (
        b"d1:rd2:id20:abcdefghij01234567895:nodes9:def456...5:token8:aoeusnthe1:t2:aa1:y1:re",
        b"abcdefghij0123456789",
        &[],
        &[],
        &[],
    ),
    // BEP 5, "ping"
    (
        b"d1:rd2:id20:mnopqrstuvwxyz123456e1:t2:aa1:y1:re",
        b"mnopqrstuvwxyz123456",
        &[],
        &[],
        &[],
    ),
    // two nodes, and the first of two pairs with a key
    (
        b"d1:rd2:id20:abcdefghij01234567895:nodes52:mnopqrstuvwxyz123456axje.u0123456789abcdefghijidhtnm5:nodes0:e1:t2:aa1:y1:re",
        b"abcdefghij0123456789",
        &[],
        &[
            (b"mnopqrstuvwxyz123456", "97.120.106.101:11893"),
            (b"0123456789abcdefghij", "105.100.104.116:28269"),
        ],
        &[],
    ),
    // BEP 32: a node and a peer of IPv6, with values that are no addresses, and keys out of order
    (
        b"d1:y1:r1:t2:aa1:rd6:valuesl5:shorti7e18:abcdefghijklmnop.ule7:too.far6:axje.ue6:nodes638:mnopqrstuvwxyz123456ponmlkjihgfedcbanm2:id20:abcdefghij0123456789ee",
        b"abcdefghij0123456789",
        &[
            "[6162:6364:6566:6768:696a:6b6c:6d6e:6f70]:11893",
            "97.120.106.101:11893",
        ],
        &[],
        &[(
            b"mnopqrstuvwxyz123456",
            "[706f:6e6d:6c6b:6a69:6867:6665:6463:6261]:28269",
        )],
    ),
];

/// Whether the peers of the values are these.
fn has_peers(values: &[Value], wanted: &[&str]) -> bool {
    let mut rest = values;
    for text in wanted {
        let Some((found, more)) = next_peer(rest) else {
            return false;
        };
        let Ok(address) = text.parse::<SocketAddr>() else {
            return false;
        };
        if found != address {
            return false;
        }
        rest = more;
    }
    next_peer(rest).is_none()
}

/// Whether the nodes of the infos are these.
fn has_nodes(family: Family, infos: &[u8], wanted: &[Named]) -> bool {
    let mut rest = infos;
    for (id, text) in wanted {
        match (split_node(family, rest), text.parse::<SocketAddr>()) {
            (Some((node, more)), Ok(address)) if node.address == address => {
                if node.id.as_slice() != *id {
                    return false;
                }
                rest = more;
            }
            _ => return false,
        }
    }
    rest.is_empty()
}

fn is_answer(dict: &Value, told: &Told) -> bool {
    let (_, id, peers, nodes, nodes6) = *told;
    let Some(message) = message_in(dict) else {
        return false;
    };
    match message.body {
        Body::Answer(answer) => {
            message.transaction == b"aa".as_slice()
                && answer.id.as_slice() == id
                && has_peers(answer.values, peers)
                && has_nodes(Family::V4, answer.nodes, nodes)
                && has_nodes(Family::V6, answer.nodes6, nodes6)
        }
        _ => false,
    }
}

fn is_answered(alloc: Global, told: &Told) -> Result<bool, AllocError> {
    match read_datagram(alloc, told.0)? {
        Some(dict) => Ok(is_answer(&dict, told)),
        None => Ok(false),
    }
}

#[test]
fn answers(rt: HostRuntime) -> Result<(), AllocError> {
    for told in ANSWERS {
        let same = is_answered(rt.alloc(), told)?;
        assert!(rt; same, "{told:?}");
    }
    Ok(())
}

/// What a datagram is.
#[derive(Clone, Copy, PartialEq, Eq, Debug)]
enum Kind {
    /// Not one dictionary.
    None,
    /// A dictionary without a transaction id.
    Unnamed,
    Answer,
    /// An error with this code.
    Error(i64),
    Other,
}

const KINDS: &[(&'static [u8], Kind)] = &[
    // BEP 5, "Errors"
    (
        b"d1:eli201e23:A Generic Error Ocurrede1:t2:aa1:y1:ee",
        Kind::Error(201),
    ),
    (b"d1:eli-1e0:i0ee1:t2:aa1:y1:ee", Kind::Error(-1)),
    (b"d1:el3:201e1:t2:aa1:y1:ee", Kind::Other),
    (b"d1:eli201ee1:t2:aa1:y1:ee", Kind::Other),
    (b"d1:ele1:t2:aa1:y1:ee", Kind::Other),
    // BEP 5, "get_peers": the question
    (
        b"d1:ad2:id20:abcdefghij01234567899:info_hash20:mnopqrstuvwxyz123456e1:q9:get_peers1:t2:aa1:y1:qe",
        Kind::Other,
    ),
    // an id of 19 bytes, none, and `r` that is no dictionary
    (
        b"d1:rd2:id19:abcdefghij012345678e1:t2:aa1:y1:re",
        Kind::Other,
    ),
    (b"d1:rde1:t2:aa1:y1:re", Kind::Other),
    (b"d1:r0:1:t2:aa1:y1:re", Kind::Other),
    (
        b"d1:rd2:id20:abcdefghij0123456789e1:t0:1:y1:re",
        Kind::Answer,
    ),
    (
        b"d1:rd2:id20:abcdefghij0123456789e1:ti1e1:y1:re",
        Kind::Unnamed,
    ),
    (b"d1:rd2:id20:abcdefghij0123456789e1:y1:re", Kind::Unnamed),
    (b"de", Kind::Unnamed),
    // bytes after the dictionary, a truncated one, and a list
    (
        b"d1:rd2:id20:abcdefghij0123456789e1:t2:aa1:y1:re\n",
        Kind::None,
    ),
    (
        b"d1:rd2:id20:abcdefghij0123456789e1:t2:aa1:y1:r",
        Kind::None,
    ),
    (b"le", Kind::None),
    (b"", Kind::None),
];

fn kind_of(alloc: Global, datagram: &[u8]) -> Result<Kind, AllocError> {
    let Some(dict) = read_datagram(alloc, datagram)? else {
        return Ok(Kind::None);
    };
    let Some(message) = message_in(&dict) else {
        return Ok(Kind::Unnamed);
    };
    Ok(match message.body {
        Body::Answer(_) => Kind::Answer,
        Body::Error(failure) => Kind::Error(failure.code),
        Body::Other => Kind::Other,
    })
}

#[test]
fn kinds(rt: HostRuntime) -> Result<(), AllocError> {
    for (datagram, wanted) in KINDS {
        let kind = kind_of(rt.alloc(), datagram)?;
        assert!(rt; kind == *wanted, "{datagram:?}");
    }
    Ok(())
}

/// Two ids, and which of them is nearer to `mnopqrstuvwxyz123456`.
const NEAR: &[(&[u8; 20], &[u8; 20], Ordering)] = &[
    (INFO_HASH, OWN, Ordering::Less),
    (OWN, INFO_HASH, Ordering::Greater),
    (OWN, OWN, Ordering::Equal),
    // the highest bit that differs decides: distances of 1, 2 and 3 in the last byte, 1 in the one before it
    (
        b"mnopqrstuvwxyz123457",
        b"mnopqrstuvwxyz123454",
        Ordering::Less,
    ),
    (
        b"mnopqrstuvwxyz123454",
        b"mnopqrstuvwxyz123455",
        Ordering::Less,
    ),
    (
        b"mnopqrstuvwxyz123446",
        b"mnopqrstuvwxyz123455",
        Ordering::Greater,
    ),
    // 'l' is one below 'm', and its distance is 1; that of 'n' is 3
    (
        b"lnopqrstuvwxyz123456",
        b"nnopqrstuvwxyz123456",
        Ordering::Less,
    ),
];

#[test]
fn nearer(rt: HostRuntime) {
    for (a, b, wanted) in NEAR {
        assert!(rt; nearness(*INFO_HASH, **a, **b) == *wanted, "{a:?} {b:?}");
    }
}

#[test]
fn distances(rt: HostRuntime) {
    let xor = distance(*b"mnopqrstuvwxyz123456", *b"lnopqrstuvwxyz123400");
    assert!(rt; xor == [1, 0, 0, 0, 0, 0, 0, 0, 0, 0, 0, 0, 0, 0, 0, 0, 0, 0, 5, 6]);
}
