//! A magnet link, or an info hash alone. `bt_cli` calls it.
ghost use Rattle.std.specs.Prelude.{◌≡◌, ◌++◌, ◌∷◌, [], All, IfErr, IfOk, MatchResult, OnOk, codes, map, option_map, string_bytes};
ghost use Rattle.std.specs.Char.{to_ascii_lowercase};
ghost use Rattle.std.specs.List.{list_any};
ghost use Rattle.bt_magnet.specs.Links.{IsMagnet, IsNone, IsPeerError, IsUnsaid, has_key as has_key_by_rule, hash_in, is_other as is_other_by_rule};
ghost use Rattle.bt_magnet.specs.Links.{after_word as after_word_by_rule, pair_of, topic_of, trackers_in, values_of};
ghost use Rattle.bt_magnet.specs.Peers.{IsPeer};

use crate::hash::info_hash_of;
use crate::pairs::{Pair, pairs};
use crate::peer::{add_peer, is_peer};
use std::alloc::{AllocError, Global};
use std::str;
use thiserror::Error;

/// What begins a link.
const SCHEME: &[u8] = b"magnet:?";

/// What begins the exact topic of a torrent.
const TOPIC: &[u8] = b"urn:btih:";

/// What a link has that a fetch doesn't use.
#[derive(Clone, Copy, PartialEq, Eq, Debug)]
pub struct Passed {
    /// Keys other than `xt`, `x.pe`, `tr` and `dn`.
    pub others: bool,
}

/// What a magnet link says.
#[derive(Debug, Drop)]
pub struct Magnet {
    pub info_hash: [u8; 20],
    /// Its peers, in order: IP:PORT, [IPv6]:PORT or HOST:PORT.
    pub peers: Vec<String>,
    /// Its trackers, in order: each `tr`, decoded, with U+FFFD for what isn't UTF-8.
    ///
    /// Whether they are URLs isn't looked at.
    pub trackers: Vec<String>,
    pub passed: Passed,
}

/// Why a text is neither a magnet link nor an info hash. A place is an offset in the text.
#[derive(Clone, Copy, PartialEq, Eq, Debug, Error)]
pub enum MagnetError {
    /// It is no link, and neither 40 hex digits nor 32 base32 digits.
    #[error("neither a magnet link nor an info hash")]
    NoDigits,
    /// It is a link, and no exact topic of it is the info hash of a torrent.
    #[error("a link without xt=urn:btih:")]
    NoHash,
    /// The digits of the info hash are wrong.
    #[error("no info hash at offset {0}")]
    Hash(usize),
    /// A peer is none.
    #[error("no peer at offset {0}")]
    Peer(usize),
    #[error("out of memory")]
    Memory,
}

impl From<AllocError> for MagnetError {
    ghost use Rattle.bt_magnet.specs.declared.link.MagnetError.TheVariants.{Memory};
    ghost use Rattle.std.specs.Prelude.{◌≡◌};

    ghost from_gives = { λ _ e. e ≡ Memory };

    fn from(_: AllocError) -> MagnetError {
        MagnetError::Memory
    }
}

/// Returns whether a pair has this key.
fn has_key(pair: &Pair, key: &[u8]) -> bool
    ensures { result ≡ has_key_by_rule key.now (pair_of pair.now) }
{
    pair.key.as_slice() == key
}

/// Returns what follows a word in lower case at the front of bytes, whose letters may be of either case.
fn after_word<'a>(bytes: &'a [u8], word: &[u8]) -> Option<&'a [u8]>
    requires { map to_ascii_lowercase word.now ≡ word.now }
    ensures { option_map (λ b. b.now) result ≡ after_word_by_rule word.now bytes.now }
{
    let (front, rest) = bytes.split_at_checked(word.len())?;
    if front.eq_ignore_ascii_case(word) {
        Some(rest)
    } else {
        None
    }
}

/// Returns the digits of a pair that is the info hash of a torrent.
fn topic(pair: &Pair) -> Option<&[u8]>
    ensures { option_map (λ b. b.now) result ≡ topic_of (pair_of pair.now) }
{
    if has_key(pair, b"xt") {
        after_word(pair.value.as_slice(), TOPIC)
    } else {
        None
    }
}

/// Returns whether a pair has a key that isn't used.
fn is_other(pair: &Pair) -> bool
    ensures { result ≡ is_other_by_rule (pair_of pair.now) }
{
    !(has_key(pair, b"xt")
        || has_key(pair, b"x.pe")
        || has_key(pair, b"tr")
        || has_key(pair, b"dn"))
}

/// Returns the info hash of the first exact topic that is one of a torrent.
fn hash_of(pairs: &[Pair]) -> Result<[u8; 20], MagnetError>
    ensures value { IfOk result (λ hash. hash_in (map pair_of pairs.now) ≡ Some hash) }
    ensures error { IfErr result (IsUnsaid (map pair_of pairs.now)) }
{
    for pair in pairs {
        if let Some(digits) = topic(pair) {
            return match info_hash_of(digits) {
                Some(hash) => Ok(hash),
                None => Err(MagnetError::Hash(
                    pair.place.saturating_add(SCHEME.len() + TOPIC.len()),
                )),
            };
        }
    }
    Err(MagnetError::NoHash)
}

/// Adds the peer of a pair, if it has that key.
fn add_peer_of(alloc: Global, pair: &Pair, peers: &mut Vec<String>) -> Result<(), MagnetError>
    ensures added { OnOk result (map string_bytes peers.new.items ≡ map string_bytes peers.old.items ++ values_of (codes "x.pe") (pair_of pair.now ∷ [])) }
    ensures peers { OnOk result (All IsPeer (values_of (codes "x.pe") (pair_of pair.now ∷ []))) }
    ensures error { IfErr result (IsPeerError (values_of (codes "x.pe") (pair_of pair.now ∷ []))) }
{
    if !has_key(pair, b"x.pe") {
        return Ok(());
    }
    let place = pair.place.saturating_add(SCHEME.len());
    let Ok(text) = str::from_utf8(pair.value.as_slice()) else {
        return Err(MagnetError::Peer(place));
    };
    if !is_peer(text) {
        return Err(MagnetError::Peer(place));
    }
    add_peer(alloc, text, peers)?;
    Ok(())
}

/// Returns the peers of a link.
fn peers_of(alloc: Global, pairs: &[Pair]) -> Result<Vec<String>, MagnetError>
    ensures value { IfOk result (λ peers. map string_bytes peers.items ≡ values_of (codes "x.pe") (map pair_of pairs.now)) }
    ensures peers { IfOk result (λ peers. All IsPeer (map string_bytes peers.items)) }
    ensures error { IfErr result (IsPeerError (values_of (codes "x.pe") (map pair_of pairs.now))) }
{
    let mut peers = Vec::new(alloc);
    for pair in pairs {
        match add_peer_of(alloc, pair, &mut peers) {
            Ok(()) => {}
            Err(error) => return Err(error),
        }
    }
    Ok(peers)
}

/// Adds the tracker of a pair, if it has that key.
fn add_tracker_of(alloc: Global, pair: &Pair, trackers: &mut Vec<String>) -> Result<(), AllocError>
    ensures { OnOk result (map string_bytes trackers.new.items ≡ map string_bytes trackers.old.items ++ trackers_in (pair_of pair.now ∷ [])) }
{
    if !has_key(pair, b"tr") {
        return Ok(());
    }
    let text = String::from_utf8_lossy(alloc, pair.value.as_slice())?;
    trackers.push(text)?;
    Ok(())
}

/// Returns the trackers of a link.
fn trackers_of(alloc: Global, pairs: &[Pair]) -> Result<Vec<String>, AllocError>
    ensures { IfOk result (λ trackers. map string_bytes trackers.items ≡ trackers_in (map pair_of pairs.now)) }
{
    let mut trackers = Vec::new(alloc);
    for pair in pairs {
        add_tracker_of(alloc, pair, &mut trackers)?;
    }
    Ok(trackers)
}

/// Returns whether a pair has a key that isn't used.
fn has_other(pairs: &[Pair]) -> bool
    ensures { result ≡ list_any is_other_by_rule (map pair_of pairs.now) }
{
    for pair in pairs {
        if is_other(pair) {
            return true;
        }
    }
    false
}

/// Returns what a text says: a magnet link, or the digits of an info hash.
///
/// # Errors
/// `Memory`; or why it says nothing.
#[tactic(auto, using(crate::proofs::Values::peer_error_unsaid))]
pub fn read_magnet(alloc: Global, text: &str) -> Result<Magnet, MagnetError>
    ensures { MatchResult result (IsMagnet text.now) (IsNone text.now) }
{
    let Some(query) = after_word(text.as_bytes(), SCHEME) else {
        return match info_hash_of(text.as_bytes()) {
            Some(info_hash) => Ok(Magnet {
                info_hash,
                peers: Vec::new(alloc),
                trackers: Vec::new(alloc),
                passed: Passed { others: false },
            }),
            None => Err(MagnetError::NoDigits),
        };
    };
    let pairs = pairs(alloc, query)?;
    let info_hash = hash_of(pairs.as_slice())?;
    let peers = match peers_of(alloc, pairs.as_slice()) {
        Ok(peers) => peers,
        Err(error) => return Err(error),
    };
    let trackers = trackers_of(alloc, pairs.as_slice())?;
    Ok(Magnet {
        info_hash,
        peers,
        trackers,
        passed: Passed {
            others: has_other(pairs.as_slice()),
        },
    })
}
