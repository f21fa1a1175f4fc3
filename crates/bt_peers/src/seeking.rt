//! A fetch whose peers are found while it goes on.
ghost use Rattle.std.specs.Prelude.{◌≡◌, ◌<◌, ◌≤◌, ◌+◌, false, Err, IfOk, option_map};
ghost use Rattle.bt_io.specs.Seen.{WriteFailed};
ghost use Rattle.bt_fetch.specs.Fetches.{IsWritten};
ghost use Rattle.bt_fetch.specs.Wishes.{IsWish};

use crate::drawn::drawn_ids;
use bt_exchange::Flag;
use bt_feed::Target;
use bt_fetch::{DIALS, Dialler, FetchError, TcpSwarm, Watcher, Wish, fetch};
use bt_finding::{Asker, Counts, Places};
use bt_gather::{Finder, Gather, Search};
use bt_post::Sockets;
use bt_seek::Seek;
use std::alloc::{AllocError, Global};
use std::net::{Net, SocketAddr};
use std::os::fd::RawFd;
use std::random::RandomSource;
use std::time::Clock;

/// How many peers a fetch has at its places at most.
const MOST_AT_ONCE: usize = 256;

/// How many sockets the search has for datagrams.
const SOCKETS: usize = 2;

/// What is fetched, and how.
#[derive(Clone, Copy)]
pub struct Order<'a> {
    pub wish: &'a Wish,
    /// The pairs of the .torrent that is written, if one is asked for.
    pub pairs: Option<&'a [u8]>,
    /// How many connections there are at the same time at most.
    pub at_once: usize,
    /// Private addresses that others name are taken.
    pub is_local: bool,
}

/// Returns the flag of a socket, which from now on ends a device's wait.
fn flag_of<D: Dialler>(device: &mut D, socket: Option<RawFd>) -> Option<Flag>
    ensures inside { D.inside device.new ≡ D.inside device.old }
    ensures places { D.places device.new ≡ D.places device.old }
    ensures log { D.log device.new ≡ D.log device.old }
{
    match socket {
        Some(socket) => Some(device.watch(socket)),
        None => None,
    }
}

/// Returns a search that asks these places. Those whose address is known are asked in its first turn.
fn search_of<'a, R: Net + Clock + RandomSource>(
    rt: &'a R,
    alloc: Global,
    order: &Order<'_>,
    asker: Asker<'a, R>,
) -> Result<Search<Asker<'a, R>>, AllocError>
    ensures { IfOk result (λ s. ⟦<Search<Asker<'a, R>> as Finder>⟧.has_ended s ≡ false) }
{
    let mut asker = asker;
    let ids = drawn_ids(rt, order.wish.info_hash);
    let mut seek = Seek::new(alloc, ids, order.is_local)?;
    asker.add_known(&mut seek)?;
    Ok(Search::new(alloc, seek, asker))
}

/// Returns what a search has done.
fn counts_of<'a, R: Net + Clock + RandomSource>(search: &Search<Asker<'a, R>>) -> Counts {
    let summary = search.summary();
    Counts {
        trackers: summary.trackers,
        nodes: summary.nodes,
        private: summary.private.saturating_add(search.post.private()),
    }
}

/// What a fetch came to whose peers were found while it went on.
#[derive(Drop)]
pub struct Sought<T: Drop> {
    /// How many bytes were written, or why none were, or not all.
    pub fetched: Result<usize, FetchError>,
    /// Who heard what happened.
    pub watcher: T,
    /// What the search has done.
    pub counts: Counts,
    /// How many peers it has found.
    pub found: usize,
}

/// Fetches from the named addresses, which a device dials, and from those that are found meanwhile. Gives back who did it.
fn gather<D: Dialler + Drop, F: Finder + Drop, W: Target>(
    alloc: Global,
    order: &Order<'_>,
    at_once: usize,
    named: Vec<SocketAddr>,
    device: D,
    finder: F,
    writer: &mut W,
) -> (Result<usize, FetchError>, D, F)
    requires wish { IsWish order.now.wish.now }
    requires least { 0 < at_once }
    requires places { D.inside device + at_once + 256 ≤ D.places device }
    requires goes_on { F.has_ended finder ≡ false }
    ensures written { IsWritten (option_map (λ p. p.now) order.now.pairs) order.now.wish.now.info_hash (W.seen writer.old).held (W.seen writer.new).held result.0 }
    ensures fault { result.0 ≡ Err FetchError.Write → WriteFailed (W.seen writer.old) (W.seen writer.new) }
{
    let mut gather = Gather::new(named, device, finder);
    let fetched = fetch(alloc, order.wish, order.pairs, at_once, &mut gather, writer);
    let (device, finder) = gather.finish();
    (fetched, device, finder)
}

/// Fetches from the named addresses, and from those that a search finds meanwhile, which begins by asking these places.
pub fn seek_and_fetch<'a, R: Net + Clock + RandomSource, T: Watcher + Drop, W: Target>(
    rt: &'a R,
    alloc: Global,
    order: &Order<'_>,
    named: Vec<SocketAddr>,
    places: Places<'a>,
    watcher: T,
    writer: &mut W,
) -> Sought<T>
    requires { IsWish order.now.wish.now }
    ensures written { IsWritten (option_map (λ p. p.now) order.now.pairs) order.now.wish.now.info_hash (W.seen writer.old).held (W.seen writer.new).held result.fetched }
    ensures fault { result.fetched ≡ Err FetchError.Write → WriteFailed (W.seen writer.old) (W.seen writer.new) }
{
    let at_once = order.at_once.max(1).min(MOST_AT_ONCE);
    let mut swarm = TcpSwarm::sleeping(rt, alloc, &[], watcher, at_once + DIALS, SOCKETS);
    let mut asker = Asker::new(rt, Sockets::new(rt, alloc), places, order.is_local);
    let [four, six] = asker.descriptors();
    let flags = [flag_of(&mut swarm, four), flag_of(&mut swarm, six)];
    asker.watched(flags);
    let Ok(search) = search_of(rt, alloc, order, asker) else {
        return Sought {
            fetched: Err(FetchError::Memory),
            watcher: swarm.watcher(),
            counts: NO_COUNTS,
            found: 0,
        };
    };
    let (fetched, swarm, search) = gather(alloc, order, at_once, named, swarm, search, writer);
    Sought {
        fetched,
        watcher: swarm.watcher(),
        counts: counts_of(&search),
        found: search.found().len(),
    }
}

/// Nobody was asked.
const NO_COUNTS: Counts = Counts {
    trackers: 0,
    nodes: 0,
    private: 0,
};
