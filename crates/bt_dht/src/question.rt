//! The question for the peers of a torrent (BEP 5, BEP 32, BEP 43).
ghost use Rattle.std.specs.Prelude.{◌≡◌, IfOk};
ghost use Rattle.bt_bencode.specs.Trees.{dictionary};
ghost use Rattle.bt_bencode.specs.Bencoding.{ben};
ghost use Rattle.bt_bencode.specs.Keys.{IsSorted};
ghost use Rattle.bt_dht.specs.Questions.{get_peers_bytes, get_peers_of, want_bytes};

use bt_address::Family;
use std::alloc::{AllocError, Global};

/// Returns what asks for nodes of a family, encoded.
fn want_text(want: Option<Family>) -> &'static [u8]
    ensures { result.now ≡ want_bytes want }
{
    match want {
        None => b"",
        Some(Family::V4) => b"4:wantl2:n4e",
        Some(Family::V6) => b"4:wantl2:n6e",
    }
}

/// Returns the question, its parts one after the other.
fn joined(
    alloc: Global,
    transaction: [u8; 4],
    own: [u8; 20],
    info_hash: [u8; 20],
    want: Option<Family>,
) -> Result<Vec<u8>, AllocError>
    ensures { IfOk result (λ question. question.items ≡ get_peers_bytes transaction own info_hash want) }
{
    let mut question = Vec::new(alloc);
    question.extend_from_slice(b"d1:ad2:id20:")?;
    question.extend_from_slice(&own)?;
    question.extend_from_slice(b"9:info_hash20:")?;
    question.extend_from_slice(&info_hash)?;
    question.extend_from_slice(want_text(want))?;
    question.extend_from_slice(b"e1:q9:get_peers2:roi1e1:t4:")?;
    question.extend_from_slice(&transaction)?;
    question.extend_from_slice(b"1:y1:qe")?;
    Ok(question)
}

/// Returns the question for the peers of an info hash (BEP 5, "get_peers").
///
/// `own` is the id of the node that asks. It says that this node answers no questions (BEP 43). If `want` is a family, it asks for
/// nodes of that family (BEP 32); else the answer has those of the family by which it came.
///
/// # Errors
/// `AllocError` when out of memory.
pub fn get_peers(
    alloc: Global,
    transaction: [u8; 4],
    own: [u8; 20],
    info_hash: [u8; 20],
    want: Option<Family>,
) -> Result<Vec<u8>, AllocError>
    ensures bytes { IfOk result (λ question. question.items ≡ ben (dictionary (get_peers_of transaction own info_hash want))) }
    ensures sorted { IsSorted (dictionary (get_peers_of transaction own info_hash want)) }
{
    joined(alloc, transaction, own, info_hash, want)
}
