//! Parsing of a stream that is there as a list of chunks.
ghost use Rattle.std.specs.Prelude.{◌≡◌, ◌+◌, ◌<◌, ◌≤◌, ◌^◌, ◌⊎◌, ◌↔◌, ◌++◌, ℕ, List, [], Option, false, Err, IfOk, IsErrOf, MatchOption, flat_map};
ghost use Rattle.bt_wire.specs.declared.context.Own.{Own};
ghost use Rattle.bt_wire.specs.declared.item.Item.{Item};
ghost use Rattle.bt_wire.specs.declared.item.Refusal.{Refusal};
ghost use Rattle.bt_feed.specs.declared.stage.Stage.{Stage};
ghost use Rattle.bt_feed.specs.Stages.{is_closed};
ghost use Rattle.bt_feed.specs.Answers.{IsAnswer};
ghost use Rattle.bt_feed.specs.Transcripts.{IsTranscript, Reads, IsReadTo};
ghost use Rattle.bt_feed.specs.Views.{item_of};

use crate::feed::{Feed, FeedError};
use crate::view::{refusal_in, to_item};
use bt_bencode::suffix;
use bt_wire::{Item, Own, Refusal};
use std::alloc::{AllocError, Global};

/// All that is parsed of a stream: items with their offsets, and what follows.
///
/// That is a refusal, or nothing; and how many bytes of an incomplete or a refused item are left.
#[derive(Drop)]
pub struct Transcript {
    pub items: Vec<(u64, Item)>,
    pub refused: Option<Refusal>,
    pub rest: u64,
}

/// Parses a chunk, up to its end or a refusal.
fn read_piece(
    alloc: Global,
    feed: &mut Feed,
    items: &mut Vec<(u64, Item)>,
    piece: &[u8],
) -> Result<Option<Refusal>, AllocError>
    ensures { IfOk result (λ refused. (t : Stage) (all later : List ℕ) → Reads t all items.old.items feed.old (piece.now ++ later)
        → IsReadTo t all items.new.items feed.new later refused) }
{
    let mut at = 0;
    'items: loop {
        at += feed.push(suffix(piece, at));
        let start = feed.start();
        match feed.take() {
            Ok(Some(view)) => {
                let item = to_item(alloc, &view)?;
                items.push((start, item))?;
            }
            Ok(None) => return Ok(None),
            Err(error) => return Ok(Some(refusal_in(error))),
        }
    }
}

/// Parses the chunks that follow, up to their end or a refusal.
fn read_pieces(alloc: Global, mut feed: Feed, pieces: &[Vec<u8>]) -> Result<Transcript, AllocError>
    ensures { IfOk result (λ t. (own : Own) (all : List ℕ) → Reads (Stage.Handshake own) all [] feed (flat_map (λ piece. piece.items) pieces.now) → is_closed feed.stage feed.held ≡ false
        → IsTranscript own all t.items.items t.refused t.rest) }
{
    let mut items = Vec::new(alloc);
    for piece in pieces {
        if let Some(refusal) = read_piece(alloc, &mut feed, &mut items, piece)? {
            return Ok(Transcript {
                items,
                refused: Some(refusal),
                rest: feed.held() as u64,
            });
        }
    }
    Ok(Transcript {
        items,
        refused: None,
        rest: feed.held() as u64,
    })
}

/// Parses a stream that comes in these chunks, as if it came in one.
///
/// # Errors
/// `BadLimit` exactly if the limit of `own` isn't 1 to 1,048,576, `Memory` when out of memory. A refusal is no error: it is in
/// the transcript.
pub fn read_all(alloc: Global, own: Own, pieces: &[Vec<u8>]) -> Result<Transcript, FeedError>
    // It is a transcript of the joined bytes,
    ensures verdict { IfOk result (λ t. IsTranscript own (flat_map (λ piece. piece.items) pieces.now) t.items.items t.refused t.rest) }
    // and they have no other.
    ensures only { IfOk result (λ t. (items : List (ℕ × Item)) (refused : Option Refusal) (rest : ℕ)
        → IsTranscript own (flat_map (λ piece. piece.items) pieces.now) items refused rest
        → (t.items.items ≡ items) × (t.refused ≡ refused) × (t.rest ≡ rest)) }

    ensures limit { IsErrOf result FeedError.BadLimit ↔ ((own.limit ≡ 0) ⊎ (1048576 < own.limit)) }
    ensures base { IsErrOf result FeedError.BadBase → ⊥ }
{
    Ok(read_pieces(alloc, Feed::new(alloc, own)?, pieces)?)
}
