//! Which places a search asks first: the trackers of a link, and what the user names.
use crate::place::{Place, Places, What};
use bt_tracker::{UrlError, read_tracker};
use std::alloc::{AllocError, Global};

/// How many trackers of a link are asked at most.
const MOST_TRACKERS: usize = 20;

/// The nodes by which a search in the DHT begins if the user names none. Other clients begin by them too.
const ROUTERS: [(&str, u16); 3] = [
    ("router.bittorrent.com", 6881),
    ("dht.transmissionbt.com", 6881),
    ("dht.libtorrent.org", 25401),
];

/// Who is asked by a search.
#[derive(Clone, Copy)]
pub struct Wanted<'a> {
    /// The URLs of the link's trackers.
    pub told: &'a [String],
    /// The URLs of the trackers that the user names.
    pub trackers: &'a [String],
    /// The nodes of the DHT that the user names: IP:PORT, [IPv6]:PORT or HOST:PORT.
    pub nodes: &'a [String],
    /// Whether the usual nodes are asked if the user names none.
    pub has_routers: bool,
}

/// What of the trackers isn't asked.
#[derive(Clone, Copy, PartialEq, Eq, Debug)]
pub struct Passed {
    /// One by `https`, `ws` or `wss`.
    pub unasked: bool,
    /// One of the link whose URL is none of a tracker.
    pub wrong: bool,
}

/// Nothing was passed over.
pub const NONE_PASSED: Passed = Passed {
    unasked: false,
    wrong: false,
};

/// Adds the tracker of a URL, and returns what of it was passed over.
fn add_tracker<'a>(
    url: &'a str,
    is_told: bool,
    places: &mut Places<'a>,
    passed: Passed,
) -> Result<Passed, AllocError> {
    match read_tracker(url) {
        Ok(tracker) => match Place::of_tracker(tracker, is_told) {
            Some(place) => {
                places.add(place)?;
                Ok(passed)
            }
            None => Ok(Passed {
                unasked: true,
                ..passed
            }),
        },
        Err(_) => Ok(Passed {
            wrong: true,
            ..passed
        }),
    }
}

/// Adds the trackers of URLs, of a link up to as many as are asked of it.
fn add_trackers<'a>(
    urls: &'a [String],
    is_told: bool,
    places: &mut Places<'a>,
    passed: Passed,
) -> Result<Passed, AllocError> {
    let mut passed = passed;
    for url in urls {
        if is_told && places.len() >= MOST_TRACKERS {
            break;
        }
        passed = add_tracker(url.as_str(), is_told, places, passed)?;
    }
    Ok(passed)
}

/// Returns the host and the port of a node: IP:PORT, [IPv6]:PORT or HOST:PORT.
fn split_node(text: &str) -> Option<(&str, u16)> {
    let (host, port) = text.rsplit_once(':')?;
    let port = port.parse::<u16>().ok()?;
    let host = match host.strip_prefix('[') {
        Some(rest) => rest.strip_suffix(']')?,
        None => host,
    };
    Some((host, port))
}

/// Adds a node.
fn add_node<'a>(host: &'a str, port: u16, places: &mut Places<'a>) -> Result<(), AllocError> {
    places.add(Place {
        what: What::Node,
        host,
        port,
        is_told: false,
    })
}

/// Adds the nodes that the user names.
fn add_nodes<'a>(nodes: &'a [String], places: &mut Places<'a>) -> Result<(), AllocError> {
    for node in nodes {
        if let Some((host, port)) = split_node(node.as_str()) {
            add_node(host, port, places)?;
        }
    }
    Ok(())
}

/// Adds the usual nodes.
fn add_routers<'a>(places: &mut Places<'a>) -> Result<(), AllocError> {
    for (host, port) in ROUTERS {
        add_node(host, port, places)?;
    }
    Ok(())
}

/// Returns the places that are asked first, and what of the trackers isn't asked.
///
/// The first 20 trackers of the link that can be asked come before those of the user, and these before the nodes.
///
/// # Errors
/// `AllocError` when out of memory.
pub fn places_of<'a>(
    alloc: Global,
    wanted: &Wanted<'a>,
) -> Result<(Places<'a>, Passed), AllocError> {
    let mut places = Places::new(alloc);
    let passed = add_trackers(wanted.told, true, &mut places, NONE_PASSED)?;
    let passed = add_trackers(wanted.trackers, false, &mut places, passed)?;
    add_nodes(wanted.nodes, &mut places)?;
    if wanted.has_routers && wanted.nodes.is_empty() {
        add_routers(&mut places)?;
    }
    Ok((places, passed))
}

/// Returns the offset of what is wrong with a URL of a tracker, if something is.
pub fn wrong_place(url: &str) -> Option<usize> {
    match read_tracker(url) {
        Ok(_) => None,
        Err(UrlError { at }) => Some(at),
    }
}
