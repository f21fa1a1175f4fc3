//! The file that is served: a .torrent, or an info dictionary (BEP 3, "metainfo files").
ghost use Rattle.std.specs.Prelude.{◌≡◌, ℕ, ◌+◌, ◌≤◌, List, drop, take, length, option_map, IfOk, IfSome};
ghost use Rattle.bt_bencode.specs.Trees.{Pairs};
ghost use Rattle.bt_torrent.specs.Bencoded.{ArePairs};
ghost use Rattle.bt_torrent.specs.Files.{IsFoundIn, IsInfoIn, IsInfoKept, IsPieceCount, pieces_in};

use crate::bencoded::{dictionary_at, has_integer, pairs_of, text_at};
use std::alloc::{AllocError, Global};

/// Returns the info dictionary in a file of these pairs.
fn info_of<'a>(file: &'a [u8], pairs: &'a [u8]) -> Option<&'a [u8]>
    ensures { (ps : Pairs) (more : List ℕ) → ArePairs 31 pairs.now ps more → IsFoundIn file.now ps (option_map (λ info. info.now) result) }
{
    if let Some(info) = dictionary_at(pairs, b"info") {
        return Some(info);
    }
    if has_integer(pairs, b"piece length") {
        return Some(file);
    }
    None
}

/// Returns the info dictionary of a file; `None` if there is none.
///
/// The file is a .torrent, or an info dictionary itself. Its strings may be of any length.
///
/// A .torrent has a dictionary under `info`. An info dictionary has none, and a number under `piece length`.
pub fn info_in(file: &[u8]) -> Option<&[u8]>
    ensures { IsInfoIn file.now result }
{
    let pairs = pairs_of(file)?;
    info_of(file, pairs)
}

/// Returns how many pieces these SHA-1s are for; `None` if they aren't 20 bytes for each of at most 2^32 - 1 pieces.
pub fn count_of(hashes: &[u8]) -> Option<u32>
    ensures { result ≡ pieces_in hashes.now }
{
    if hashes.len() % 20 != 0 {
        return None;
    }
    u32::try_from(hashes.len() / 20).ok()
}

/// Returns how many pieces the torrent of an info dictionary has.
///
/// Its string `pieces` has 20 bytes for each piece (BEP 3, "info dictionary"). `None` if it has no such string.
pub fn piece_count(info: &[u8]) -> Option<u32>
    ensures { IsPieceCount info.now result }
{
    let pairs = pairs_of(info)?;
    let hashes = text_at(pairs, b"pieces")?;
    count_of(hashes)
}

/// Returns the place at which a part of the bytes stands first.
fn place_of(bytes: &[u8], part: &[u8]) -> Option<usize>
    ensures within { IfSome result (λ at. at + length part.now ≤ length bytes.now) }
    ensures found { IfSome result (λ at. take (length part.now) (drop at bytes.now) ≡ part.now) }
{
    for at in 0..bytes.len() {
        let rest = &bytes[at..];
        if rest.len() < part.len() {
            return None;
        }
        if &rest[..part.len()] == part {
            return Some(at);
        }
    }
    None
}

/// Skips `n` bytes of the file, from this offset on.
fn cut_out(file: &mut Vec<u8>, at: usize, n: usize)
    requires { at + n ≤ length file.old.items }
    ensures { file.new.items ≡ take n (drop at file.old.items) }
{
    file.copy_within(at..at + n, 0);
    file.truncate(n);
}

/// Returns the info dictionary of a file, in the memory of the file.
///
/// It is that of [`info_in`].
///
/// # Errors
/// Out of memory, if the info dictionary isn't found again in the file and a copy of it is refused.
pub fn into_info(alloc: Global, file: Vec<u8>) -> Result<Option<Vec<u8>>, AllocError>
    ensures { IfOk result (λ info. IsInfoKept file.items info) }
{
    let mut file = file;
    let (place, size) = match info_in(file.as_slice()) {
        None => return Ok(None),
        Some(info) => (place_of(file.as_slice(), info), info.len()),
    };
    if let Some(at) = place {
        cut_out(&mut file, at, size);
        return Ok(Some(file));
    }
    let Some(info) = info_in(file.as_slice()) else {
        return Ok(None);
    };
    let mut copy = Vec::new(alloc);
    copy.extend_from_slice(info)?;
    Ok(Some(copy))
}
