//! What a .torrent says of its torrent: the info hash and the piece count (BEP 3, "metainfo files").
ghost use Rattle.std.specs.Prelude.{◌≡◌};
ghost use Rattle.bt_bencode.specs.Trees.{Pairs as PairsOfTrees};
ghost use Rattle.bt_torrent.specs.Files.{IsFileOf};
ghost use Rattle.bt_torrent.specs.Torrents.{IsReadAs, count_by, hashes_in, torrent_of};

use crate::bencoded::{dictionary_at, pairs_of, text_at};
use crate::file::count_of;
use sha1::Sha1;
use thiserror::Error;

/// What a .torrent says of its torrent.
#[derive(Clone, Copy, PartialEq, Eq, Debug)]
pub struct TorrentFile {
    /// The SHA-1 of the info dictionary, as it stands in the file.
    pub info_hash: [u8; 20],
    /// How many pieces the torrent has.
    pub pieces: u32,
}

/// Why a file is no .torrent with pieces.
#[derive(Clone, Copy, PartialEq, Eq, Debug, Error)]
pub enum TorrentError {
    /// It isn't one dictionary, or lists and dictionaries nest more than 32 deep.
    #[error("not one bencoded dictionary that nests at most 32 deep")]
    NoDictionary,
    /// It has no dictionary under `info`.
    #[error("no dictionary under 'info'")]
    NoInfo,
    /// Its info dictionary has no string under `pieces`. A torrent of version 2 only has none (BEP 52).
    #[error("no string under 'pieces' in 'info': a torrent of version 2 only has none")]
    NoPieces,
    /// The string under `pieces` isn't 20 bytes for each of at most 4,294,967,295 pieces.
    #[error("the length of 'pieces' in 'info' is no multiple of 20, or too great")]
    Pieces,
}

/// Returns the piece count of an info dictionary.
fn count_in(info: &[u8]) -> Result<u32, TorrentError>
    ensures { (ps : PairsOfTrees) → IsFileOf ps info.now → result ≡ count_by (hashes_in ps) }
{
    let Some(pairs) = pairs_of(info) else {
        return Err(TorrentError::NoDictionary);
    };
    let Some(hashes) = text_at(pairs, b"pieces") else {
        return Err(TorrentError::NoPieces);
    };
    match count_of(hashes) {
        Some(count) => Ok(count),
        None => Err(TorrentError::Pieces),
    }
}

/// Reads a .torrent: returns the info hash and the piece count.
///
/// Keys may stand in any order, and of several pairs with one key the first counts. Strings may be of any length.
///
/// # Errors
/// `NoDictionary` if the whole file isn't one dictionary; else `NoInfo` if it has no dictionary under `info`; else `NoPieces`
/// if that has no string under `pieces`; else `Pieces` if its length isn't 20 bytes for each of at most 2^32 - 1 pieces.
pub fn read_torrent(file: &[u8]) -> Result<TorrentFile, TorrentError>
    ensures read { IsReadAs file.now result }
    ensures torrent { (ps : PairsOfTrees) → IsFileOf ps file.now → result ≡ torrent_of ps }
{
    let Some(pairs) = pairs_of(file) else {
        return Err(TorrentError::NoDictionary);
    };
    let Some(info) = dictionary_at(pairs, b"info") else {
        return Err(TorrentError::NoInfo);
    };
    match count_in(info) {
        Ok(pieces) => Ok(TorrentFile {
            info_hash: Sha1::digest(info),
            pieces,
        }),
        Err(error) => Err(error),
    }
}
