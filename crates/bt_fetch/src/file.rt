//! The file that a fetch writes, and why it writes none. The module `fetching` calls it.
ghost use Rattle.std.specs.Prelude.{◌≡◌, ◌<◌, ℕ, false, Some, Err, length, take, is_some, option_map, IfOk, MatchResult};
ghost use Rattle.std.specs.Io.KnownBytes.{Appends};
ghost use Rattle.bt_io.specs.Seen.{WriteFailed};
ghost use Rattle.bt_end.specs.Ends.{metadata_of};
ghost use Rattle.bt_fetch.specs.Fetches.{file_of, IsWritten};

use bt_end::End;
use bt_io::{Memory, Target, write_front};
use std::alloc::{AllocError, Global};
use thiserror::Error;

/// Why nothing, or not all, was written.
#[derive(Clone, Copy, PartialEq, Eq, Debug, Error)]
pub enum FetchError {
    /// No connection gave what lacked.
    #[error("not fetched")]
    NotFetched,
    /// A write failed.
    #[error("a write failed")]
    Write,
    #[error("out of memory")]
    Memory,
}

impl From<Memory> for FetchError {
    ghost use Rattle.bt_fetch.specs.declared.file.FetchError.TheVariants.{Memory};
    ghost use Rattle.std.specs.Prelude.{◌≡◌};

    ghost from_gives = { λ _ e. e ≡ Memory };

    fn from(_: Memory) -> FetchError {
        FetchError::Memory
    }
}

/// Returns a .torrent of these pairs, whose `info` is the metadata.
fn torrent_of(alloc: Global, pairs: &[u8], metadata: &[u8]) -> Result<Vec<u8>, AllocError>
    ensures { IfOk result (λ file. file.items ≡ file_of (Some pairs.now) metadata.now) }
{
    let mut file = Vec::new(alloc);
    file.extend_from_slice(b"d")?;
    file.extend_from_slice(pairs)?;
    file.extend_from_slice(b"4:info")?;
    file.extend_from_slice(metadata)?;
    file.extend_from_slice(b"e")?;
    Ok(file)
}

/// Writes bytes, and returns how many they are.
fn put<W: Target>(bytes: &[u8], writer: &mut W) -> Result<usize, FetchError>
    ensures written { MatchResult result
        (λ n. (length bytes.now ≡ n) × Appends (W.seen writer.old).held (W.seen writer.new).held bytes.now)
        (λ e. (e ≡ FetchError.Write) × (n : ℕ) × (n < length bytes.now) × Appends (W.seen writer.old).held (W.seen writer.new).held (take n bytes.now)) }
    ensures fault { result ≡ Err FetchError.Write → WriteFailed (W.seen writer.old) (W.seen writer.new) }
{
    if write_front(writer, bytes) < bytes.len() {
        return Err(FetchError::Write);
    }
    Ok(bytes.len())
}

/// Writes the file of the metadata, if the end has fetched it: a .torrent if there are pairs for it.
pub fn put_out<W: Target>(
    alloc: Global,
    pairs: Option<&[u8]>,
    end: &End,
    writer: &mut W,
) -> Result<usize, FetchError>
    ensures written { IsWritten (option_map (λ p. p.now) pairs.entry) end.now.end.handshake.info_hash (W.seen writer.old).held (W.seen writer.new).held result }
    ensures fault { result ≡ Err FetchError.Write → WriteFailed (W.seen writer.old) (W.seen writer.new) }
    ensures missing { result ≡ Err FetchError.NotFetched → is_some (metadata_of end.now.end.part) ≡ false }
{
    let Some(metadata) = end.metadata() else {
        return Err(FetchError::NotFetched);
    };
    let Some(pairs) = pairs else {
        return put(metadata, writer);
    };
    let Ok(file) = torrent_of(alloc, pairs, metadata) else {
        return Err(FetchError::Memory);
    };
    put(file.as_slice(), writer)
}
