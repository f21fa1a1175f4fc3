//! What the words of the command `fetch` ask for. The fetch itself is in `fetching`.
ghost use Rattle.std.specs.Prelude.{◌≡◌, ◌≤◌, Some, IfOk, IfSome, codes, is_some, length, map, option_map, string_bytes};
ghost use Rattle.clap.specs.Matches.{found_of, first_value};
ghost use Rattle.bt_fetch.specs.Wishes.{IsWish};
ghost use Rattle.bt_peers.specs.Words.{words_in};
ghost use Rattle.bt_cli.specs.Wanted.{IsFetchAsked, IsWished, at_once_in as at_once_in_by_rule, is_seeking as is_seeking_by, number_or as number_or_by_rule, peer_rules_in, window_in as window_in_by_rule};

use bt_end::Window;
use bt_ext::Rules;
use bt_fetch::Wish;
use bt_magnet::Magnet;
pub use bt_peers::Mistake;
use bt_peers::{SearchJob, asks_nobody, is_given, magnet_in, peers_in, search_in};
use bt_run::values::number_within;
use clap::ArgMatches;
use std::alloc::{AllocError, Global};

/// The default seconds without progress.
pub const DEFAULT_TIMEOUT: u32 = 30;

/// The default greatest length of a message.
pub const DEFAULT_LIMIT: u32 = 262_144;

/// The default greatest size of metadata, which is also the greatest that may be given.
const MAX_SIZE: u32 = 67_108_864;

/// How many connections a fetch has at the same time where that isn't given.
const DEFAULT_AT_ONCE: u32 = 16;

/// A fetch that is asked for.
#[derive(Debug, Drop)]
pub struct FetchJob {
    pub wish: Wish,
    /// A .torrent is written in place of the metadata.
    pub torrent: bool,
    /// The magnet link, or only the info hash; its peers come after those of the words.
    pub magnet: Magnet,
    /// The peers of the words: IP:PORT, [IPv6]:PORT or HOST:PORT.
    pub peers: Vec<String>,
    /// The file of more peers.
    pub list: Option<String>,
    /// How many connections it has at the same time at most.
    pub at_once: usize,
    /// Standard error gets JSON objects in place of lines.
    pub json: bool,
    /// Who is asked for more peers, if it seeks.
    pub search: SearchJob,
    /// Peers are searched while the fetch goes on.
    pub seeks: bool,
}

/// Returns the number of an option, or the default if it isn't given.
pub fn number_or(text: Option<&str>, low: u32, high: u32, default: u32) -> Option<u32>
    requires { (low ≤ default) × (default ≤ high) }
    ensures value { result ≡ number_or_by_rule low high default (option_map (λ s. s.now) text.entry) }
    ensures within { IfSome result (λ n. (low ≤ n) × (n ≤ high)) }
{
    match text {
        None => Some(default),
        Some(digits) => number_within(digits, low, high),
    }
}

/// Returns the rules of `--rules`.
pub fn rules_in(text: Option<&str>) -> Option<Rules>
    ensures { result ≡ peer_rules_in (option_map (λ s. s.now) text.entry) }
{
    match text {
        None => Some(Rules::Free),
        Some(name) if name == "free" => Some(Rules::Free),
        Some(name) if name == "bep" => Some(Rules::Bep),
        Some(_) => None,
    }
}

/// Returns how many blocks are requested at once, if that is given.
fn window_in(text: Option<&str>) -> Option<Option<Window>>
    ensures { result ≡ window_in_by_rule (option_map (λ s. s.now) text.entry) }
{
    match text {
        None => Some(None),
        Some(digits) => Some(Some(Window::new(number_within(digits, 1, 8)? as u8)?)),
    }
}

/// Returns what is to be fetched.
fn wish_in(options: &ArgMatches<'_>, info_hash: [u8; 20]) -> Result<Wish, &'static str>
    ensures wish { IfOk result (λ wish. IsWish wish) }
    ensures wished { IfOk result (IsWished (found_of options.now)) }
    ensures hash { IfOk result (λ wish. wish.info_hash ≡ info_hash) }
{
    let rules = rules_in(options.get_str("rules")).ok_or("'--rules' takes 'free' or 'bep'")?;
    let limit = number_or(options.get_str("limit"), 32_768, 1_048_576, DEFAULT_LIMIT).ok_or(
        "'--limit' takes a number from 32768 to 1048576",
    )?;
    let timeout = number_or(options.get_str("timeout"), 1, 86_400, DEFAULT_TIMEOUT).ok_or(
        "'--timeout' takes a number from 1 to 86400",
    )?;
    let window = window_in(options.get_str("window")).ok_or(
        "'--window' takes a number from 1 to 8",
    )?;
    let most = number_or(options.get_str("max-size"), 1, MAX_SIZE, MAX_SIZE).ok_or(
        "'--max-size' takes a number from 1 to 67108864",
    )?;
    Ok(Wish {
        info_hash,
        peer_id: [48; 20],
        rules,
        limit,
        patience: timeout as u64,
        window,
        most: most as u64,
    })
}

/// Returns the peers of the words.
fn addresses_in(alloc: Global, options: &ArgMatches<'_>) -> Result<Vec<String>, Mistake>
    ensures { IfOk result (λ v. map string_bytes v.items ≡ words_in (found_of options.now) (codes "ADDRESS")) }
{
    let Some(words) = options.get_strs("ADDRESS") else {
        return Ok(Vec::new(alloc));
    };
    match peers_in(alloc, words)? {
        Some(peers) => Ok(peers),
        None => Err(Mistake::Text("ADDRESS takes IP:PORT, [IPv6]:PORT or HOST:PORT")),
    }
}

/// Returns the file of `--peers`, if one is given.
fn list_in(alloc: Global, options: &ArgMatches<'_>) -> Result<Option<String>, AllocError>
    ensures { IfOk result (λ o. option_map string_bytes o ≡ first_value (found_of options.now) (codes "peers")) }
{
    match options.get_str("peers") {
        Some(name) => Ok(Some(String::from_str(alloc, name)?)),
        None => Ok(None),
    }
}

/// Returns how many connections a fetch has at the same time at most.
fn at_once_in(options: &ArgMatches<'_>) -> Result<usize, Mistake>
    ensures { IfOk result (λ n. at_once_in_by_rule (first_value (found_of options.now) (codes "at-once")) ≡ Some n) }
{
    match number_or(options.get_str("at-once"), 1, 256, DEFAULT_AT_ONCE) {
        Some(count) => Ok(count as usize),
        None => Err(Mistake::Text("'--at-once' takes a number from 1 to 256")),
    }
}

/// Returns whether peers are searched: the words name none, or they name somebody who is asked for peers.
fn is_seeking(peers: &[String], list: &Option<String>, search: &SearchJob) -> bool
    ensures { result ≡ is_seeking_by (length peers.now) (is_some list.now) (length search.now.trackers.items) (length search.now.nodes.items) }
{
    peers.is_empty() && list.is_none() || !search.trackers.is_empty() || !search.nodes.is_empty()
}

/// Returns the fetch that the words of the command ask for.
///
/// # Errors
/// The first option or word that has no meaning, or `Memory`.
pub fn fetch_asked(alloc: Global, options: &ArgMatches<'_>) -> Result<FetchJob, Mistake>
    ensures wish { IfOk result (λ job. IsWish job.wish) }
    ensures asked { IfOk result (IsFetchAsked (found_of options.now)) }
{
    let magnet = magnet_in(alloc, options)?;
    let wish = match wish_in(options, magnet.info_hash) {
        Ok(wish) => wish,
        Err(what) => return Err(Mistake::Text(what)),
    };
    let at_once = at_once_in(options)?;
    let list = list_in(alloc, options)?;
    let peers = addresses_in(alloc, options)?;
    let search = search_in(alloc, options)?;
    let seeks = is_seeking(&peers, &list, &search);
    if peers.is_empty()
        && magnet.peers.is_empty()
        && list.is_none()
        && asks_nobody(&magnet, &search)
    {
        return Err(Mistake::Text(
            "a peer is missing: an ADDRESS, '--peers', 'x.pe' in the link, or somebody who is asked for peers",
        ));
    }
    Ok(FetchJob {
        wish,
        torrent: is_given(options, "torrent"),
        magnet,
        peers,
        list,
        at_once,
        json: is_given(options, "json"),
        search,
        seeks,
    })
}
