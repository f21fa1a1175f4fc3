//! The command `peers`: what its words ask for, the search, its lines, and the exit status.
ghost use Rattle.std.specs.Prelude.{◌≡◌, ℕ, List, Err, IfOk, OnOk, codes, length, map, string_bytes};
ghost use Rattle.std.specs.List.{flat_map};
ghost use Rattle.std.specs.Io.KnownBytes.{Appends};
ghost use Rattle.std.specs.declared.net.socket_addr.SocketAddr.{SocketAddr};
ghost use Rattle.clap.specs.Matches.{found_of};
ghost use Rattle.bt_finding.specs.Lines.{peer_line};
ghost use Rattle.bt_io.specs.Seen.{WriteFailed};
ghost use Rattle.bt_run.specs.Runs.{IsSaid};
ghost use Rattle.bt_peers.specs.Searches.{IsPeersAsked, IsSearchAsked, peers_status, peers_words};
ghost use Rattle.bt_peers.specs.Words.{words_in};

use crate::drawn::drawn_ids;
use crate::words::{Mistake, copied, is_given, magnet_in, peers_in};
use bt_feed::Target;
use bt_finding::{
    Asker, FindError, Finder, Passed, Wanted, find, places_of, summary_line, wrong_place,
};
use bt_magnet::Magnet;
use bt_post::Sockets;
use bt_run::ending::end_by_fault;
use bt_run::run::say;
use bt_seek::Seek;
use bt_text::ended::ToolFault;
use clap::ArgMatches;
use std::alloc::Global;
use std::net::Net;
use std::random::RandomSource;
use std::time::Clock;

/// Who is asked for peers.
#[derive(Debug, Drop)]
pub struct SearchJob {
    /// The URLs of the trackers of the words.
    pub trackers: Vec<String>,
    /// The nodes of the DHT of the words: IP:PORT, [IPv6]:PORT or HOST:PORT.
    pub nodes: Vec<String>,
    /// The trackers of the link aren't asked.
    pub no_trackers: bool,
    /// The usual nodes of the DHT aren't asked.
    pub no_dht: bool,
    /// Private addresses that others name are taken.
    pub is_local: bool,
}

/// A search that is asked for.
#[derive(Debug, Drop)]
pub struct PeersJob {
    /// The magnet link, or only the info hash.
    pub magnet: Magnet,
    pub search: SearchJob,
}

/// Returns the offset of what is wrong with the first URL that is none of a tracker.
fn wrong_in(urls: &[&str]) -> Option<usize> {
    for url in urls {
        if let Some(at) = wrong_place(url) {
            return Some(at);
        }
    }
    None
}

/// Returns the trackers of `--tracker`.
fn trackers_in(alloc: Global, options: &ArgMatches<'_>) -> Result<Vec<String>, Mistake>
    ensures { IfOk result (λ v. map string_bytes v.items ≡ words_in (found_of options.now) (codes "tracker")) }
{
    let Some(urls) = options.get_strs("tracker") else {
        return Ok(Vec::new(alloc));
    };
    if let Some(at) = wrong_in(urls) {
        return Err(Mistake::Tracker(at));
    }
    Ok(copied(alloc, urls)?)
}

/// Returns the nodes of `--dht`.
fn nodes_in(alloc: Global, options: &ArgMatches<'_>) -> Result<Vec<String>, Mistake>
    ensures { IfOk result (λ v. map string_bytes v.items ≡ words_in (found_of options.now) (codes "dht")) }
{
    let Some(nodes) = options.get_strs("dht") else {
        return Ok(Vec::new(alloc));
    };
    match peers_in(alloc, nodes)? {
        Some(nodes) => Ok(nodes),
        None => Err(Mistake::Text("'--dht' takes IP:PORT, [IPv6]:PORT or HOST:PORT")),
    }
}

/// Returns whom the options ask for peers.
///
/// # Errors
/// The first option that has no meaning, or `Memory`.
pub fn search_in(alloc: Global, options: &ArgMatches<'_>) -> Result<SearchJob, Mistake>
    ensures { IfOk result (IsSearchAsked (found_of options.now)) }
{
    let trackers = trackers_in(alloc, options)?;
    let nodes = nodes_in(alloc, options)?;
    Ok(SearchJob {
        trackers,
        nodes,
        no_trackers: is_given(options, "no-trackers"),
        no_dht: is_given(options, "no-dht"),
        is_local: is_given(options, "local"),
    })
}

/// Returns the search that the words of the command ask for.
///
/// # Errors
/// The first option or word that has no meaning, or `Memory`.
pub fn peers_asked(alloc: Global, options: &ArgMatches<'_>) -> Result<PeersJob, Mistake>
    ensures { IfOk result (IsPeersAsked (found_of options.now)) }
{
    let magnet = magnet_in(alloc, options)?;
    let search = search_in(alloc, options)?;
    Ok(PeersJob { magnet, search })
}

/// Returns whom a search asks first.
pub fn wanted_of<'a>(magnet: &'a Magnet, search: &'a SearchJob) -> Wanted<'a> {
    Wanted {
        told: if search.no_trackers {
            &[]
        } else {
            magnet.trackers.as_slice()
        },
        trackers: search.trackers.as_slice(),
        nodes: search.nodes.as_slice(),
        has_routers: !search.no_dht,
    }
}

/// Returns whether a search asks nobody.
pub fn asks_nobody(magnet: &Magnet, search: &SearchJob) -> bool {
    (search.no_trackers || magnet.trackers.is_empty())
        && search.trackers.is_empty()
        && search.nodes.is_empty()
        && search.no_dht
}

/// The line on trackers that aren't asked.
pub const UNASKED: &[u8] = b"bt_tool: trackers by https, ws and wss aren't asked\n";

/// The line on trackers of a link that are none.
pub const WRONG: &[u8] = b"bt_tool: trackers of the link with a wrong URL aren't asked\n";

/// Says which trackers aren't asked.
fn say_unasked<E: Target>(passed: Passed, errors: &mut E) {
    if passed.unasked {
        say(UNASKED, errors);
    }
    if passed.wrong {
        say(WRONG, errors);
    }
}

/// Searches for the peers of a link, and writes each as a line as soon as it is found. Returns how many it has found.
///
/// It says on `errors` at the end who was asked.
///
/// # Errors
/// `Write` if a write failed, `Memory` when out of memory.
pub fn run_peers<R: Net + Clock + RandomSource, W: Target, E: Target>(
    rt: &R,
    alloc: Global,
    job: &PeersJob,
    writer: &mut W,
    errors: &mut E,
) -> Result<usize, FindError>
    ensures written { IfOk result (λ n. (peers : List SocketAddr) × (length peers ≡ n)
        × Appends (W.seen writer.old).held (W.seen writer.new).held (flat_map peer_line peers)) }
    ensures fault { result ≡ Err FindError.Write → WriteFailed (W.seen writer.old) (W.seen writer.new) }
{
    let (places, passed) = places_of(alloc, &wanted_of(&job.magnet, &job.search))?;
    say_unasked(passed, errors);
    let is_local = job.search.is_local;
    let seek = Seek::new(alloc, drawn_ids(rt, job.magnet.info_hash), is_local)?;
    let asker = Asker::new(rt, Sockets::sleeping(rt, alloc), places, is_local);
    let mut finder = Finder::new(seek, asker);
    let found = find(alloc, &mut finder, writer);
    let counts = finder.finish();
    let count = found?.len();
    let line = summary_line(alloc, &counts?, count)?;
    say(line.as_bytes(), errors);
    Ok(count)
}

/// Says what kept a search from its work, and returns the exit status.
///
/// Nothing is printed if nothing kept it. `is_gone` says that a write failed since nobody reads the output.
pub fn end_peers<E: Target>(found: Result<usize, FindError>, is_gone: bool, errors: &mut E) -> u8
    ensures said { IsSaid (peers_words is_gone found) (E.seen errors.old) (E.seen errors.new) }
    ensures status { result ≡ peers_status is_gone found }
{
    match found {
        Ok(count) => {
            say(b"", errors);
            if count == 0 { 1 } else { 0 }
        }
        Err(FindError::Write) => end_by_fault(ToolFault::Write, b"", is_gone, errors),
        Err(FindError::Memory) => end_by_fault(ToolFault::Memory, b"", is_gone, errors),
    }
}
