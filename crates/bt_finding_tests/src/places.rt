//! Who is asked first, and in which order (docs/FETCH.md).
use bt_finding::{Passed, Places, Wanted, What, places_of, wrong_place};
use std::alloc::{AllocError, Global};

/// What is asked, its host and its port.
type Asked = (What<'static>, &'static str, u16);

/// Trackers of a link, trackers and nodes of the user, whether the usual nodes are asked, and who is asked: at addresses, and by names.
struct Row {
    told: &'static [&'static str],
    trackers: &'static [&'static str],
    nodes: &'static [&'static str],
    has_routers: bool,
    known: &'static [Asked],
    named: &'static [Asked],
    passed: Passed,
}

const NOTHING: Passed = Passed {
    unasked: false,
    wrong: false,
};

const ROUTERS: &[Asked] = &[
    (What::Node, "router.bittorrent.com", 6881),
    (What::Node, "dht.transmissionbt.com", 6881),
    (What::Node, "dht.libtorrent.org", 25401),
];

const ROWS: &[Row] = &[
    Row {
        told: &[],
        trackers: &[],
        nodes: &[],
        has_routers: false,
        known: &[],
        named: &[],
        passed: NOTHING,
    },
    Row {
        told: &[],
        trackers: &[],
        nodes: &[],
        has_routers: true,
        known: &[],
        named: ROUTERS,
        passed: NOTHING,
    },
    // the user's nodes take the place of the usual ones
    Row {
        told: &["udp://192.0.2.1:1", "http://tracker.example/a?b"],
        trackers: &["udp://tracker.example:2"],
        nodes: &["192.0.2.3:3", "[2001:db8::1]:4", "node.example:5"],
        has_routers: true,
        known: &[
            (What::Tracker, "192.0.2.1", 1),
            (What::Node, "192.0.2.3", 3),
            (What::Node, "2001:db8::1", 4),
        ],
        named: &[
            (What::Page(b"/a?b"), "tracker.example", 80),
            (What::Tracker, "tracker.example", 2),
            (What::Node, "node.example", 5),
        ],
        passed: NOTHING,
    },
    // what isn't asked, and what is no URL
    Row {
        told: &[
            "https://tracker.example/",
            "ftp://192.0.2.1/",
            "udp://192.0.2.1:1",
        ],
        trackers: &[],
        nodes: &["192.0.2.3"],
        has_routers: false,
        known: &[(What::Tracker, "192.0.2.1", 1)],
        named: &[],
        passed: Passed {
            unasked: true,
            wrong: true,
        },
    },
];

/// Returns texts that are owned.
fn owned(alloc: Global, texts: &[&str]) -> Result<Vec<String>, AllocError> {
    let mut all = Vec::new(alloc);
    for text in texts {
        all.push(String::from_str(alloc, text)?)?;
    }
    Ok(all)
}

/// Returns whether the places at addresses are these.
fn are_known(places: &Places<'_>, wanted: &[Asked]) -> bool {
    for (number, (what, host, port)) in wanted.iter().enumerate() {
        let Some(place) = places.known(number) else {
            return false;
        };
        if place.what != *what || place.host != *host || place.port != *port {
            return false;
        }
    }
    places.known_count() == wanted.len()
}

/// Returns whether the places of names are these, in this order.
fn are_named(places: &mut Places<'_>, wanted: &[Asked]) -> bool {
    for (what, host, port) in wanted {
        let Some(place) = places.next_named() else {
            return false;
        };
        if place.what != *what || place.host != *host || place.port != *port {
            return false;
        }
    }
    !places.has_name()
}

/// Returns whether a row's places are asked, and what it says is passed over.
fn is_right(alloc: Global, row: &Row) -> Result<bool, AllocError> {
    let told = owned(alloc, row.told)?;
    let trackers = owned(alloc, row.trackers)?;
    let nodes = owned(alloc, row.nodes)?;
    let wanted = Wanted {
        told: &told,
        trackers: &trackers,
        nodes: &nodes,
        has_routers: row.has_routers,
    };
    let (mut places, passed) = places_of(alloc, &wanted)?;
    let known = are_known(&places, row.known);
    Ok(known && are_named(&mut places, row.named) && passed == row.passed)
}

#[test]
fn asked_first(rt: HostRuntime) -> Result<(), AllocError> {
    for (n, row) in ROWS.iter().enumerate() {
        let right = is_right(rt.alloc(), row)?;
        assert!(rt; right, "row {n}");
    }
    Ok(())
}

/// A link of 22 trackers: the first 20 are asked.
#[test]
fn twenty_of_a_link(rt: HostRuntime) -> Result<(), AllocError> {
    let told = owned(rt.alloc(), &["udp://192.0.2.1:1"; 22])?;
    let wanted = Wanted {
        told: &told,
        trackers: &[],
        nodes: &[],
        has_routers: false,
    };
    let (places, _) = places_of(rt.alloc(), &wanted)?;
    assert!(rt; places.len() == 20);
    Ok(())
}

/// A URL of `--tracker`, and the offset of what is wrong.
const URLS: &[(&'static str, Option<usize>)] = &[
    ("udp://192.0.2.1:1", None),
    ("https://tracker.example/", None),
    ("ftp://192.0.2.1/", Some(0)),
    ("udp://192.0.2.1", Some(15)),
];

#[test]
fn wrong_urls(rt: HostRuntime) {
    for (url, at) in URLS {
        assert!(rt; wrong_place(url) == *at, "{url:?}");
    }
}
