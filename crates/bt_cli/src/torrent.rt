//! The .torrent of `capture`: what it says of its torrent, and why a file is none.
ghost use Rattle.std.specs.Prelude.{◌≡◌};
ghost use Rattle.bt_run.specs.Runs.{IsSaid};
ghost use Rattle.bt_cli.specs.Torrents.{IsJobRead, no_torrent_status, no_torrent_words, torrent_words, with_torrent as with_torrent_by_rule};

use crate::input::{NoInput, read_whole};
use bt_capture::CaptureJob;
use bt_feed::{Source, Target};
use bt_run::ending::{end_by_fault, say_both};
use bt_talk::{Terms, Torrent};
use bt_text::ended::ToolFault;
use bt_torrent::{TorrentError, TorrentFile, read_torrent};
use std::alloc::Global;

/// The greatest length of a .torrent in bytes.
const LONGEST: usize = 67_108_864;

/// Why an input is no .torrent.
#[derive(Clone, Copy, PartialEq, Eq, Debug)]
pub enum NoTorrent {
    /// It has no info hash, or no piece count.
    Refused(TorrentError),
    /// It has more than 67,108,864 bytes.
    TooLong,
    /// It can't be read, or out of memory.
    Fault(ToolFault),
}

/// Returns the job with a torrent.
fn with_torrent(job: &CaptureJob, torrent: TorrentFile) -> CaptureJob
    ensures { result ≡ with_torrent_by_rule job.now torrent }
{
    let info_hash = torrent.info_hash;
    let known = Torrent {
        info_hash,
        pieces: torrent.pieces,
    };
    let terms = Terms {
        torrent: Some(known),
        ..job.terms
    };
    CaptureJob { terms, ..*job }
}

/// Reads a .torrent to its end, and returns the job with what it says of its torrent.
///
/// # Errors
/// `Refused` and `TooLong` if it is no .torrent; `Fault(Read)` if a read failed, and `Fault(Memory)` if memory is refused.
pub fn job_for<R: Source>(
    alloc: Global,
    job: &CaptureJob,
    reader: &mut R,
) -> Result<CaptureJob, NoTorrent>
    ensures { IsJobRead job.now (R.seen reader.old).left (R.seen reader.new).left result }
{
    let file = match read_whole(alloc, reader, LONGEST) {
        Ok(file) => file,
        Err(NoInput::TooLong) => return Err(NoTorrent::TooLong),
        Err(NoInput::Fault(fault)) => return Err(NoTorrent::Fault(fault)),
    };
    match read_torrent(file.as_slice()) {
        Ok(torrent) => Ok(with_torrent(job, torrent)),
        Err(error) => Err(NoTorrent::Refused(error)),
    }
}

/// Returns the line that says why a file is no .torrent.
fn torrent_line(error: TorrentError) -> &'static [u8]
    ensures { result.now ≡ torrent_words error }
{
    match error {
        TorrentError::NoDictionary =>
            b"fault: torrent: not one bencoded dictionary that nests at most 32 deep\n",
        TorrentError::NoInfo => b"fault: torrent: no dictionary under 'info'\n",
        TorrentError::NoPieces =>
            b"fault: torrent: no string under 'pieces' in 'info': a torrent of version 2 only has none\n",
        TorrentError::Pieces =>
            b"fault: torrent: the length of 'pieces' in 'info' is no multiple of 20, or too great\n",
    }
}

/// Says why a file is no .torrent, and returns the exit status; `prefix` comes before the line.
pub fn end_torrent<E: Target>(why: NoTorrent, prefix: &[u8], errors: &mut E) -> u8
    ensures said { IsSaid (no_torrent_words prefix.now why) (E.seen errors.old) (E.seen errors.new) }
    ensures status { result ≡ no_torrent_status why }
{
    match why {
        NoTorrent::Refused(error) => {
            say_both(prefix, torrent_line(error), errors);
            3
        }
        NoTorrent::TooLong => {
            say_both(
                prefix,
                b"fault: torrent: more than 67108864 bytes\n",
                errors,
            );
            3
        }
        NoTorrent::Fault(fault) => end_by_fault(fault, prefix, false, errors),
    }
}
