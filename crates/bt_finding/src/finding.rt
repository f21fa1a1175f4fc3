//! The loop of a search: it writes each peer as a line as soon as it is found.
ghost use Rattle.std.specs.Prelude.{◌≡◌, ◌++◌, ℕ, List, Option, Err, IfOk, OnOk, drop, vec_len};
ghost use Rattle.std.specs.List.{flat_map};
ghost use Rattle.std.specs.Io.KnownBytes.{Appends};
ghost use Rattle.bt_io.specs.Seen.{WriteFailed};
ghost use Rattle.bt_finding.specs.Lines.{peer_line};

use crate::line::push_lines;
use bt_io::{Target, write_front};
use std::alloc::{AllocError, Global};
use std::net::SocketAddr;
use thiserror::Error;

/// How many turns a search may have at most. It ends much earlier, by its own clock.
const TURNS: u64 = 4_294_967_296;

/// Why a search ended before its time.
#[derive(Clone, Copy, PartialEq, Eq, Debug, Error)]
pub enum FindError {
    /// A line couldn't be written.
    #[error("a write failed")]
    Write,
    #[error("out of memory")]
    Memory,
}

impl From<AllocError> for FindError {
    ghost use Rattle.bt_finding.specs.declared.finding.FindError.TheVariants.{Memory};
    ghost use Rattle.std.specs.Prelude.{◌≡◌};

    ghost from_gives = { λ _ e. e ≡ Memory };

    fn from(_: AllocError) -> FindError {
        FindError::Memory
    }
}

/// A search that goes on by turns.
pub trait Finding {
    /// Takes what has come, and asks who is due. Returns whether the search goes on.
    ///
    /// # Errors
    /// `AllocError` when out of memory.
    fn turn(&mut self) -> Result<bool, AllocError>;

    /// Returns the peers that were found so far, in the order in which they were found.
    fn peers(&self) -> &[SocketAddr];

    /// Waits until something may have come.
    fn rest(&mut self);
}

/// Writes the lines of peers, all by one write.
fn write_lines<W: Target>(
    alloc: Global,
    peers: &[SocketAddr],
    writer: &mut W,
) -> Result<(), FindError>
    ensures written { OnOk result (Appends (W.seen writer.old).held (W.seen writer.new).held (flat_map peer_line peers.now)) }
    ensures whole { OnOk result ((W.seen writer.new).failed ≡ (W.seen writer.old).failed) }
    ensures fault { result ≡ Err FindError.Write → WriteFailed (W.seen writer.old) (W.seen writer.new) }
{
    let mut text = Vec::new(alloc);
    push_lines(alloc, peers, &mut text)?;
    if write_front(writer, &text) < text.len() {
        return Err(FindError::Write);
    }
    Ok(())
}

/// Writes the lines of the peers that weren't written yet, and notes these.
#[tactic(auto, using(crate::proofs::Shown::shown_more))]
fn write_new<W: Target>(
    alloc: Global,
    peers: &[SocketAddr],
    written: &mut Vec<SocketAddr>,
    writer: &mut W,
) -> Result<(), FindError>
    ensures shown { OnOk result ((start : Option (List ℕ)) → Appends start (W.seen writer.old).held (flat_map peer_line written.old.items)
        → Appends start (W.seen writer.new).held (flat_map peer_line written.new.items)) }
    ensures new { OnOk result (written.new.items ≡ written.old.items ++ drop (vec_len written.old) peers.now) }
    ensures whole { OnOk result ((W.seen writer.new).failed ≡ (W.seen writer.old).failed) }
    ensures fault { result ≡ Err FindError.Write → WriteFailed (W.seen writer.old) (W.seen writer.new) }
{
    let Some(new) = peers.get(written.len()..) else {
        return Ok(());
    };
    write_lines(alloc, new, writer)?;
    if written.extend_from_slice(new).is_err() {
        return Err(FindError::Memory);
    }
    Ok(())
}

/// Searches until the search is over, and writes each peer as a line as soon as it is found. Returns the peers.
///
/// # Errors
/// `Write` if a line couldn't be written, `Memory` when out of memory. The search ends then.
pub fn find<F: Finding, W: Target>(
    alloc: Global,
    finding: &mut F,
    writer: &mut W,
) -> Result<Vec<SocketAddr>, FindError>
    ensures written { IfOk result (λ peers. Appends (W.seen writer.old).held (W.seen writer.new).held (flat_map peer_line peers.items)) }
    ensures fault { result ≡ Err FindError.Write → WriteFailed (W.seen writer.old) (W.seen writer.new) }
{
    let mut written = Vec::new(alloc);
    for _turn in 0..TURNS {
        let goes_on = finding.turn()?;
        write_new(alloc, finding.peers(), &mut written, writer)?;
        if !goes_on {
            break;
        }
        finding.rest();
    }
    Ok(written)
}
