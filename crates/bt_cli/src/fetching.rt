//! The command `fetch`: the addresses of its peers, the fetch, and the exit status.
ghost use Rattle.std.specs.Prelude.{◌≡◌, Err, IfOk, option_map};
ghost use Rattle.bt_io.specs.Seen.{WriteFailed};
ghost use Rattle.bt_fetch.specs.Fetches.{IsWritten};
ghost use Rattle.bt_fetch.specs.Wishes.{IsWish};
ghost use Rattle.bt_cli.specs.Announced.{pairs_of_job};
ghost use Rattle.bt_cli.specs.Fetches.{fetch_status, fetch_words};
ghost use Rattle.bt_run.specs.Runs.{IsSaid};

use crate::announced::announce_pairs;
use crate::fetch::FetchJob;
use crate::report::{Form, Lines, NO_TRY, Tally, counted, say_end};
use bt_feed::Target;
use bt_fetch::{DIALS, Ending, FetchError, Outcome, TcpSwarm, Watcher, fetch};
use bt_finding::{Passed, places_of};
use bt_peers::{Order, UNASKED, WRONG, drawn_peer_id, seek_and_fetch, wanted_of};
use bt_run::ending::end_by_fault;
use bt_run::run::say;
use bt_text::ended::ToolFault;
use std::alloc::{AllocError, Global};
use std::net::{Net, SocketAddr, ToSocketAddrs};
use std::random::RandomSource;
use std::time::Clock;

/// How many peers a fetch has at its places at most.
const MOST_AT_ONCE: usize = 256;

/// Says a note.
fn say_note<E: Target>(form: Form, line: &[u8], object: &[u8], errors: &mut E) {
    match form {
        Form::Json => say(object, errors),
        _ => say(line, errors),
    }
}

/// Says what of a link isn't used.
fn say_passed<E: Target>(form: Form, job: &FetchJob, errors: &mut E) {
    if !job.magnet.trackers.is_empty() && (!job.seeks || job.search.no_trackers) {
        let object = b"{\"note\":\"trackers aren't asked\"}\n";
        say_note(form, b"bt_tool: trackers aren't asked\n", object, errors);
    }
    if job.magnet.passed.others {
        let object = b"{\"note\":\"other keys of the link aren't used\"}\n";
        say_note(
            form,
            b"bt_tool: other keys of the link aren't used\n",
            object,
            errors,
        );
    }
}

/// Says which trackers aren't asked.
fn say_unasked<E: Target>(form: Form, passed: Passed, errors: &mut E) {
    if passed.unasked {
        let object = b"{\"note\":\"trackers by https, ws and wss aren't asked\"}\n";
        say_note(form, UNASKED, object, errors);
    }
    if passed.wrong {
        let object = b"{\"note\":\"trackers of the link with a wrong URL aren't asked\"}\n";
        say_note(form, WRONG, object, errors);
    }
}

/// Returns what standard error gets.
fn form_of(json: bool, is_terminal: bool) -> Form {
    match (json, is_terminal) {
        (true, _) => Form::Json,
        (false, true) => Form::Shown,
        (false, false) => Form::Plain,
    }
}

/// The addresses of peers, and the name of each.
#[derive(Drop)]
struct Targets<'a> {
    addresses: Vec<SocketAddr>,
    names: Vec<&'a str>,
}

/// Adds the addresses of a peer, and returns whether it has one.
fn add_target<'a, R: Net>(
    rt: &R,
    name: &'a str,
    targets: &mut Targets<'a>,
) -> Result<bool, AllocError> {
    let Ok(found) = name.to_socket_addrs(rt) else {
        return Ok(false);
    };
    let before = targets.addresses.len();
    for address in found {
        targets.addresses.push(address)?;
        targets.names.push(name)?;
    }
    Ok(targets.addresses.len() > before)
}

/// Adds the addresses of peers. One that has none is said and counted as unreachable.
fn add_targets<'a, R: Net, E: Target>(
    rt: &R,
    alloc: Global,
    form: Form,
    names: &'a [String],
    targets: &mut Targets<'a>,
    tally: Tally,
    errors: &mut E,
) -> Result<Tally, AllocError> {
    let mut tally = tally;
    for name in names {
        if !add_target(rt, name.as_str(), targets)? {
            let ending = Ending::By(Outcome::Unreachable);
            say_end(alloc, form, name.as_str(), ending, errors);
            tally = counted(tally, ending);
        }
    }
    Ok(tally)
}

/// Returns the addresses of all peers: those of the words, of the link and of the list, and the tally of those that have none.
fn targets_of<'a, R: Net, E: Target>(
    rt: &R,
    alloc: Global,
    form: Form,
    job: &'a FetchJob,
    listed: &'a [String],
    errors: &mut E,
) -> Result<(Targets<'a>, Tally), AllocError> {
    let mut targets = Targets {
        addresses: Vec::new(alloc),
        names: Vec::new(alloc),
    };
    let mut tally = NO_TRY;
    for names in [job.peers.as_slice(), job.magnet.peers.as_slice(), listed] {
        tally = add_targets(rt, alloc, form, names, &mut targets, tally, errors)?;
    }
    Ok((targets, tally))
}

/// Returns the whole seconds of a clock; 0 if it fails.
fn seconds_of<R: Clock>(clock: &R) -> u64 {
    match clock.monotonic() {
        Ok(time) => time.as_secs(),
        Err(_) => 0,
    }
}

/// Returns the pairs that a .torrent has in front of `info`, if one is asked for: those of the link's trackers.
fn pairs_for(alloc: Global, job: &FetchJob) -> Result<Option<Vec<u8>>, AllocError>
    ensures { IfOk result (λ found. option_map (λ pairs. pairs.items) found ≡ pairs_of_job job.now) }
{
    if !job.torrent {
        return Ok(None);
    }
    let pairs = announce_pairs(alloc, job.magnet.trackers.as_slice())?;
    Ok(Some(pairs))
}

/// Fetches from these addresses, and returns who heard what happened too.
fn fetch_named<R: Net + Clock, T: Watcher + Drop, W: Target>(
    rt: &R,
    alloc: Global,
    order: &Order<'_>,
    addresses: &[SocketAddr],
    watcher: T,
    writer: &mut W,
) -> (Result<usize, FetchError>, T)
    requires { IsWish order.now.wish.now }
    ensures written { IsWritten (option_map (λ p. p.now) order.now.pairs) order.now.wish.now.info_hash (W.seen writer.old).held (W.seen writer.new).held result.0 }
    ensures fault { result.0 ≡ Err FetchError.Write → WriteFailed (W.seen writer.old) (W.seen writer.new) }
{
    let at_once = order.at_once.max(1).min(MOST_AT_ONCE);
    let mut swarm = TcpSwarm::sleeping(rt, alloc, addresses, watcher, at_once + DIALS, 0);
    let fetched = fetch(alloc, order.wish, order.pairs, at_once, &mut swarm, writer);
    (fetched, swarm.watcher())
}

/// Fetches what is asked for over TCP, from the peers of the words and the link, and from those of `listed`.
///
/// It says on `errors` how each connection ended, how far it came if `errors` is a terminal, and at the end a summary.
///
/// # Errors
/// `NotFetched` if no peer gave the metadata, `Write` if a write failed, `Memory` when out of memory.
pub fn run_fetch<'a, R: Net + Clock + RandomSource, W: Target, E: Target>(
    rt: &'a R,
    alloc: Global,
    job: &'a FetchJob,
    listed: &'a [String],
    writer: &mut W,
    errors: &mut E,
    is_terminal: bool,
) -> Result<usize, FetchError>
    requires { IsWish job.now.wish }
    ensures written { IsWritten (pairs_of_job job.now) job.now.wish.info_hash (W.seen writer.old).held (W.seen writer.new).held result }
    ensures fault { result ≡ Err FetchError.Write → WriteFailed (W.seen writer.old) (W.seen writer.new) }
{
    let Ok(pairs) = pairs_for(alloc, job) else {
        return Err(FetchError::Memory);
    };
    let mut wish = job.wish;
    wish.peer_id = drawn_peer_id(rt);
    let begun = seconds_of(rt);
    let form = form_of(job.json, is_terminal);
    say_passed(form, job, errors);
    let Ok((targets, tally)) = targets_of(rt, alloc, form, job, listed, errors) else {
        return Err(FetchError::Memory);
    };
    let Ok((places, passed)) = places_of(alloc, &wanted_of(&job.magnet, &job.search)) else {
        return Err(FetchError::Memory);
    };
    if job.seeks {
        say_unasked(form, passed, errors);
    }
    let Targets { addresses, names } = targets;
    let lines = Lines::new(rt, alloc, names.as_slice(), errors, form, tally, begun);
    let order = Order {
        wish: &wish,
        pairs: pairs.as_deref(),
        at_once: job.at_once,
        is_local: job.search.is_local,
    };
    if job.seeks {
        let sought = seek_and_fetch(rt, alloc, &order, addresses, places, lines, writer);
        let mut lines = sought.watcher;
        lines.say_asked(&sought.counts, sought.found);
        lines.say_summary(seconds_of(rt));
        return sought.fetched;
    }
    let (fetched, mut lines) = fetch_named(rt, alloc, &order, &addresses, lines, writer);
    lines.say_summary(seconds_of(rt));
    fetched
}

/// Says what kept a fetch from its work, and returns the exit status.
///
/// Nothing is printed if nothing kept it.
///
/// `is_gone` says that a write failed since nobody reads the output.
pub fn end_fetch<E: Target>(fetched: Result<usize, FetchError>, is_gone: bool, errors: &mut E) -> u8
    ensures said { IsSaid (fetch_words is_gone fetched) (E.seen errors.old) (E.seen errors.new) }
    ensures status { result ≡ fetch_status is_gone fetched }
{
    match fetched {
        Ok(_) => {
            say(b"", errors);
            0
        }
        Err(FetchError::NotFetched) => {
            say(b"", errors);
            1
        }
        Err(FetchError::Write) => end_by_fault(ToolFault::Write, b"", is_gone, errors),
        Err(FetchError::Memory) => end_by_fault(ToolFault::Memory, b"", is_gone, errors),
    }
}
