//! The words of the command line that `peers` and `fetch` share.
ghost use Rattle.std.specs.Prelude.{◌≡◌, [], IfOk, IfSome, codes, map, string_bytes};
ghost use Rattle.clap.specs.Matches.{found_of};
ghost use Rattle.bt_magnet.specs.Links.{IsMagnet};
ghost use Rattle.bt_peers.specs.Words.{flag_in, text_in};

use bt_magnet::{Magnet, MagnetError, is_peer, read_magnet};
use clap::ArgMatches;
use std::alloc::{AllocError, Global};

/// Why words ask for nothing.
#[derive(Clone, Copy, PartialEq, Eq, Debug)]
pub enum Mistake {
    /// What an option or a word has to be.
    Text(&'static str),
    /// What is wrong with the magnet link, at this offset.
    Link(&'static str, usize),
    /// A word of `--tracker` is no URL of a tracker, from this offset on.
    Tracker(usize),
    /// Out of memory.
    Memory,
}

impl From<AllocError> for Mistake {
    ghost use Rattle.bt_peers.specs.declared.words.Mistake.TheVariants.{Memory};
    ghost use Rattle.std.specs.Prelude.{◌≡◌};

    ghost from_gives = { λ _ e. e ≡ Memory };

    fn from(_: AllocError) -> Mistake {
        Mistake::Memory
    }
}

/// Returns what is wrong with a link.
fn mistake_of(error: MagnetError) -> Mistake {
    match error {
        MagnetError::NoDigits => Mistake::Text(
            "INFOHASH takes a magnet link, 40 hex digits or 32 base32 digits",
        ),
        MagnetError::NoHash => Mistake::Text("the magnet link has no 'xt=urn:btih:'"),
        MagnetError::Hash(place) => Mistake::Link(
            "no 40 hex digits and no 32 base32 digits",
            place,
        ),
        MagnetError::Peer(place) => Mistake::Link("a peer that is none", place),
        MagnetError::Memory => Mistake::Memory,
    }
}

/// Returns whether a flag is given.
pub fn is_given(options: &ArgMatches<'_>, name: &str) -> bool
    ensures { result ≡ flag_in (found_of options.now) name.now }
{
    match options.get_str(name) {
        Some(given) => given == "true",
        None => false,
    }
}

/// Returns copies of texts.
///
/// # Errors
/// `AllocError` when out of memory.
pub fn copied(alloc: Global, texts: &[&str]) -> Result<Vec<String>, AllocError>
    ensures { IfOk result (λ v. map string_bytes v.items ≡ map (λ s. s.now) texts.now) }
{
    let mut copies = Vec::with_capacity(alloc, texts.len())?;
    for text in texts {
        copies.push(String::from_str(alloc, text)?)?;
    }
    Ok(copies)
}

/// Returns copies of words, if each of them names a peer.
///
/// # Errors
/// `AllocError` when out of memory.
pub fn peers_in(alloc: Global, words: &[&str]) -> Result<Option<Vec<String>>, AllocError>
    ensures { IfOk result (λ found. IfSome found (λ v. map string_bytes v.items ≡ map (λ s. s.now) words.now)) }
{
    let mut peers = Vec::new(alloc);
    for word in words {
        if !is_peer(word) {
            return Ok(None);
        }
        peers.push(String::from_str(alloc, word)?)?;
    }
    Ok(Some(peers))
}

/// Returns the magnet link of the words.
///
/// # Errors
/// What is wrong with it, or `Memory`.
pub fn magnet_in(alloc: Global, options: &ArgMatches<'_>) -> Result<Magnet, Mistake>
    ensures { IfOk result (IsMagnet (text_in (found_of options.now) (codes "INFOHASH") [])) }
{
    match read_magnet(alloc, options.get_str("INFOHASH").unwrap_or("")) {
        Ok(magnet) => Ok(magnet),
        Err(error) => Err(mistake_of(error)),
    }
}
