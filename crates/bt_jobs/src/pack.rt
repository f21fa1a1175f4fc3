//! The command `pack`: a script is encoded into a stream.
ghost use Rattle.std.specs.Prelude.{◌≡◌, ◌≢◌, ◌≤◌, ◌++◌, ℕ, List, [], None, min, ◌+◌, ◌-◌, ◌^◌, IfOk, Err, length};
ghost use Rattle.bt_wire.specs.declared.context.Own.{Own as Receiver};
ghost use Rattle.bt_io.specs.Seen.{devices, ReadFailed, WriteFailed};
ghost use Rattle.bt_feed.specs.Stages.{number_of, start_of};
ghost use Rattle.bt_jobs.specs.Packs.{IsPackRun, AreTakenTo, is_none};
ghost use Rattle.bt_jobs.specs.PackSteps.{IsPackedTo, Packing, packing, packer, IsNamedAfter, IsLineEnd, IsReadSo, IsPieceRead, IsDone, IsHeld, IsScriptEnd};

use crate::judge::Judge;
use crate::output::write_out;
use crate::show::MAX_READS;
use bt_feed::{Source, Target};
use bt_text::ended::{PackEnd, ScriptReason, ToolFault};
use bt_text::script::reading::{LineFront, append_front, append_line};
use bt_text::splitting::split_line;
use bt_wire::Own;
use std::alloc::{AllocError, Global};

/// Accepts the bytes of a line that stand from `start` on, or removes them and returns why they are refused.
#[inline(always)]
fn judge_added(judge: &mut Judge, start: usize, out: &mut Vec<u8>) -> Option<ScriptReason>
    requires { start ≤ length out.now.items }
    ensures { (own : Receiver) (lines : List (List ℕ)) (b text old : List ℕ) → IsPackedTo own lines b judge.old → start ≡ length old
        → IsNamedAfter own.limit (is_none lines) text old out.old.items → IsLineEnd own (packing lines b old) text judge.new out.new.items result }
{
    let whole = out.as_slice();
    match judge.take_item(&whole[start..]) {
        Ok(true) => None,
        Ok(false) => Some(ScriptReason::Syntax),
        Err(reason) => {
            out.truncate(start);
            Some(ScriptReason::Reason(reason))
        }
    }
}

/// Appends the bytes that a line names, or returns why it isn't accepted.
///
/// The line is without its line feed. The bytes are checked where they are appended, and are removed if they are refused.
fn take_line(
    judge: &mut Judge,
    text: &[u8],
    limit: u32,
    out: &mut Vec<u8>,
) -> Result<Option<ScriptReason>, AllocError>
    requires { limit ≤ 1048576 }
    ensures { IfOk result (λ answer. (own : Receiver) (lines : List (List ℕ)) (b : List ℕ) → limit ≡ own.limit → IsPackedTo own lines b judge.old
        → IsLineEnd own (packing lines b out.old.items) text.now judge.new out.new.items answer) }
{
    let first = judge.number() == 0;
    if text.len() as u64 > 2 * u64::from(limit) + 256 {
        return Ok(Some(ScriptReason::Syntax));
    }
    let start = out.len();
    if !append_line(text, first, out)? {
        return Ok(Some(ScriptReason::Syntax));
    }
    Ok(judge_added(judge, start, out))
}

/// Appends bytes to the current line; returns whether it isn't too long then.
fn hold(line: &mut Vec<u8>, more: &[u8], limit: u32) -> Result<bool, AllocError>
    requires { limit ≤ 1048576 }
    ensures { IfOk result (IsHeld limit line.old.items more.now line.new.items) }
{
    if line.len() as u64 + more.len() as u64 > 2 * u64::from(limit) + 256 {
        return Ok(false);
    }
    line.extend_from_slice(more)?;
    Ok(true)
}

/// Completes a line of which an earlier read had the first part, and accepts it or not.
///
/// `text` is the line's last part. After a line is accepted, `line` is empty.
fn take_ended(
    judge: &mut Judge,
    line: &mut Vec<u8>,
    text: &[u8],
    limit: u32,
    out: &mut Vec<u8>,
) -> Result<Option<ScriptReason>, AllocError>
    requires { limit ≤ 1048576 }
    ensures taken { IfOk result (λ answer. (own : Receiver) (lines : List (List ℕ)) (b : List ℕ) → limit ≡ own.limit → IsPackedTo own lines b judge.old
        → IsLineEnd own (packing lines b out.old.items) (line.old.items ++ text.now) judge.new out.new.items answer) }
    ensures empty { IfOk result (λ answer. answer ≡ None → line.new.items ≡ []) }
{
    if !hold(line, text, limit)? {
        return Ok(Some(ScriptReason::Syntax));
    }
    let answer = take_line(judge, line.as_slice(), limit, out)?;
    line.clear();
    Ok(answer)
}

/// Accepts the lines that a text ends, each where it stands.
///
/// It keeps the first part of the next line, and returns why a line isn't accepted.
fn take_lines(
    judge: &mut Judge,
    line: &mut Vec<u8>,
    text: &[u8],
    limit: u32,
    out: &mut Vec<u8>,
) -> Result<Option<ScriptReason>, AllocError>
    requires limit { limit ≤ 1048576 }
    requires empty { line.old.items ≡ [] }
    ensures { IfOk result (λ answer. (own : Receiver) (before : List ℕ) (p : Packing) (piece : List ℕ) → limit ≡ own.limit
        → IsDone own before p piece text.now (packer [] judge.old out.old.items)
        → IsPieceRead own (before ++ piece) p (packer line.new.items judge.new out.new.items) answer) }
{
    let mut rest = text;
    'lines: loop {
        let start = out.len();
        match append_front(rest, judge.number() == 0, limit, out)? {
            LineFront::Unended => {
                if !hold(line, rest, limit)? {
                    return Ok(Some(ScriptReason::Syntax));
                }
                return Ok(None);
            }
            LineFront::Syntax => return Ok(Some(ScriptReason::Syntax)),
            LineFront::Line(following) => {
                if let Some(reason) = judge_added(judge, start, out) {
                    return Ok(Some(reason));
                }
                rest = following;
            }
        }
    }
}

/// Accepts the lines that a chunk of the script ends.
///
/// `line` has the first part of a line that an earlier chunk began. It keeps the first part of the next line, and returns why a line
/// isn't accepted.
fn take_piece(
    judge: &mut Judge,
    line: &mut Vec<u8>,
    piece: &[u8],
    limit: u32,
    out: &mut Vec<u8>,
) -> Result<Option<ScriptReason>, AllocError>
    requires { limit ≤ 1048576 }
    ensures { IfOk result (λ answer. (own : Receiver) (text : List ℕ) (lines : List (List ℕ)) (b : List ℕ) → limit ≡ own.limit → IsReadSo own text lines b line.old.items judge.old
        → IsPieceRead own (text ++ piece.now) (packing lines b out.old.items) (packer line.new.items judge.new out.new.items) answer) }
{
    if line.len() == 0 {
        return take_lines(judge, line, piece, limit, out);
    }
    let Some((front, following)) = split_line(piece) else {
        if !hold(line, piece, limit)? {
            return Ok(Some(ScriptReason::Syntax));
        }
        return Ok(None);
    };
    if let Some(reason) = take_ended(judge, line, front, limit, out)? {
        return Ok(Some(reason));
    }
    take_lines(judge, line, following, limit, out)
}

/// Returns the counts of the items that were taken.
fn counts(judge: &Judge) -> PackEnd
    ensures { result ≡ PackEnd.Accepted (number_of judge.now.stage - 1) (start_of judge.now.stage) }
{
    PackEnd::Accepted {
        messages: judge.number().saturating_sub(1),
        bytes: judge.start(),
    }
}

/// Accepts the last line or not, and returns how the script ends.
///
/// The line may lack its line feed.
fn end_script(
    judge: &mut Judge,
    line: &[u8],
    limit: u32,
    out: &mut Vec<u8>,
) -> Result<PackEnd, AllocError>
    requires { limit ≤ 1048576 }
    ensures { IfOk result (λ end. (own : Receiver) (text : List ℕ) (lines : List (List ℕ)) (b : List ℕ) → limit ≡ own.limit → IsReadSo own text lines b line.now judge.old
        → IsScriptEnd own text b out.old.items out.new.items end) }
{
    if line.len() == 0 {
        if judge.number() == 0 {
            return Ok(PackEnd::Refused {
                line: 1,
                reason: ScriptReason::Syntax,
            });
        }
        return Ok(counts(judge));
    }
    match take_line(judge, line, limit, out) {
        Ok(None) => Ok(counts(judge)),
        Ok(Some(reason)) => Ok(PackEnd::Refused {
            line: judge.number() + 1,
            reason,
        }),
        Err(error) => Err(error),
    }
}

/// Encodes a script into a stream, up to the first line that isn't accepted.
///
/// It writes the bytes, and returns the counts of the stream, or that line and the reason. `own` describes the receiver of the
/// stream.
///
/// # Errors
/// `Read` if a read failed. `Write` if a write failed or took no byte. `Memory` when out of memory. `Turns` after 4,294,967,296
/// reads without the end. A prefix of the bytes of accepted lines is written then.
#[inline(never)]
pub fn run_pack<R: Source, W: Target>(
    alloc: Global,
    reader: &mut R,
    writer: &mut W,
    own: &Own,
) -> Result<PackEnd, ToolFault>
    requires { (1 ≤ own.now.limit) × (own.now.limit ≤ 1048576) }
    ensures reads { (R.seen reader.new).reads ≤ (R.seen reader.old).reads + 2 ^ 32 }
    ensures needed { (before : R) × AreTakenTo own.now (R.seen reader.old).left (R.seen before).left × ((R.seen reader.new).reads ≤ (R.seen before).reads + 1) }
    ensures unfailed { result ≢ Err ToolFault.Read → (R.seen reader.new).failed ≡ (R.seen reader.old).failed }
    ensures packed { IsPackRun own.now (devices (R.seen reader.old) (W.seen writer.old)) (devices (R.seen reader.new) (W.seen writer.new)) result }
    ensures read { result ≡ Err ToolFault.Read → ReadFailed (R.seen reader.old) (R.seen reader.new) }
    ensures write { result ≡ Err ToolFault.Write → WriteFailed (W.seen writer.old) (W.seen writer.new) }
    ensures turns { result ≡ Err ToolFault.Turns
        → (min ((R.seen reader.old).reads + 2 ^ 32) (2 ^ 64 - 1) ≤ (R.seen reader.new).reads) × ((R.seen reader.new).ends ≡ (R.seen reader.old).ends) }
    ensures local { result ≢ Err ToolFault.Net }
{
    let mut judge = Judge::new(*own);
    // Room for the longest line and its bytes, so that the first line of a read doesn't allocate: `piece 0 0 `, and after it
    // the digits of limit + 123 bytes, which follow 13 others.
    let Ok(mut line) = Vec::with_capacity(alloc, 2 * own.limit as usize + 256) else {
        return Err(ToolFault::Memory);
    };
    let Ok(mut out) = Vec::with_capacity(alloc, own.limit as usize + 136) else {
        return Err(ToolFault::Memory);
    };
    let mut buffer = [0; 65536];
    for _turn in 0..MAX_READS {
        match reader.read(&mut buffer) {
            Ok(0) => {
                match end_script(&mut judge, line.as_slice(), own.limit, &mut out) {
                    Ok(end) => return write_out(writer, out.as_slice(), end),
                    Err(_) => return Err(ToolFault::Memory),
                }
            }
            Ok(count) => {
                match take_piece(&mut judge, &mut line, &buffer[..count], own.limit, &mut out) {
                    Ok(None) => match write_out(writer, out.as_slice(), ()) {
                        Ok(()) => out.clear(),
                        Err(fault) => return Err(fault),
                    },
                    Ok(Some(reason)) => {
                        let line = judge.number() + 1;
                        return write_out(writer, out.as_slice(), PackEnd::Refused { line, reason });
                    }
                    Err(_) => return Err(ToolFault::Memory),
                }
            }
            Err(_) => return Err(ToolFault::Read),
        }
    }
    Err(ToolFault::Turns)
}
