//! The command `loop` on any source and target: metadata is read, served by one end, and fetched by another one.
ghost use Rattle.std.specs.Prelude.{◌≡◌, ◌≢◌, ◌≤◌, ◌+◌, ◌++◌, codes, decimal, length, true, Ok, Err, IfOk, OnOk, OnErr};
ghost use Rattle.hex.specs.Hex.{encode_lower};
ghost use Rattle.sha1.specs.Sha1.{sha1};
ghost use Rattle.bt_end.specs.Configs.{is_bad_size};
ghost use Rattle.bt_io.specs.Seen.{EndRead, ReadFailed, WriteFailed};
ghost use Rattle.bt_loop.specs.Loops.{Fetches, IsFetching, IsInput, IsLinked, IsLoop, IsLooped, IsPrinted, IsWireFault, IsWrite, count_line, fetched_line, fetched_lines, status_of};
ghost use Rattle.bt_loop.specs.Runs.{IsClear};

use crate::both::{Halt, Handled, run_both};
use crate::ends::{fetching, serving};
use crate::wire::Wire;
use bt_end::{End, EndError};
use bt_ext::Rules;
use bt_io::{Source, Target, write_front};
use bt_link::text::{push_hex, push_number};
use bt_metadata::MAX_METADATA;
use bt_text::ended::ToolFault;
use sha1::Sha1;
use std::alloc::{AllocError, Global};

/// The greatest number of rounds.
pub const ROUNDS: u64 = 1_048_576;

/// The greatest number of bytes that a read takes.
const SIZE: usize = 65_536;

/// How a loop ended.
#[derive(Clone, Copy, PartialEq, Eq, Debug)]
pub enum LoopEnd {
    /// The right end has the metadata, and nothing is on its way.
    Fetched,
    /// The right end has no metadata.
    ///
    /// Nothing is on its way any more; or an end refused what came, or was busy.
    Unfetched,
    /// The size of what was read isn't 1 to 67,108,864.
    BadSize,
}

/// Reads to the end, or one byte more than metadata may have.
fn read_metadata<R: Source>(alloc: Global, reader: &mut R) -> Result<Vec<u8>, ToolFault>
    ensures once { (R.seen reader.new).ends ≤ (R.seen reader.old).ends + 1 }
    ensures input { IsInput (R.seen reader.old).left (R.seen reader.new).left (EndRead (R.seen reader.old) (R.seen reader.new)) (ReadFailed (R.seen reader.old) (R.seen reader.new)) result }
{
    let mut metadata = Vec::new(alloc);
    let mut buffer = [0; SIZE];
    'reads: loop {
        let most = SIZE.min(MAX_METADATA + 1 - metadata.len());
        match reader.read(&mut buffer[..most]) {
            Ok(0) => return Ok(metadata),
            Ok(count) => {
                match metadata.extend_from_slice(&buffer[..count]) {
                    Ok(()) => {
                        if metadata.len() > MAX_METADATA {
                            return Ok(metadata);
                        }
                    }
                    Err(_) => return Err(ToolFault::Memory),
                }
            }
            Err(_) => return Err(ToolFault::Read),
        }
    }
}

/// Appends how many items an end sent, and how many it handled.
#[tactic(auto, using(std::proofs::lemmas::List::append_assoc))]
fn push_counts(name: &[u8], sent: u64, handled: u64, text: &mut Vec<u8>) -> Result<(), AllocError>
    ensures { OnOk result (text.new.items ≡ text.old.items ++ count_line name.now sent handled) }
{
    text.extend_from_slice(name)?;
    text.extend_from_slice(b" sent=")?;
    push_number(sent, text)?;
    text.extend_from_slice(b" handled=")?;
    push_number(handled, text)?;
    text.extend_from_slice(b"\n")
}

/// Appends a name and a number.
#[tactic(auto, using(std::proofs::lemmas::List::append_assoc))]
fn push_size(size: u64, text: &mut Vec<u8>) -> Result<(), AllocError>
    ensures { OnOk result (text.new.items ≡ text.old.items ++ (codes "fetched bytes=" ++ decimal size)) }
{
    text.extend_from_slice(b"fetched bytes=")?;
    push_number(size, text)
}

/// Appends a SHA-1.
#[tactic(auto, using(std::proofs::lemmas::List::append_assoc))]
fn push_digest(digest: &[u8], text: &mut Vec<u8>) -> Result<(), AllocError>
    ensures { OnOk result (text.new.items ≡ text.old.items ++ (codes " sha1=" ++ (encode_lower digest.now ++ codes "\n"))) }
{
    text.extend_from_slice(b" sha1=")?;
    push_hex(digest, text)?;
    text.extend_from_slice(b"\n")
}

/// Appends the metadata's size and SHA-1, which is known.
#[tactic(auto, using(std::proofs::lemmas::List::append_assoc))]
fn push_fetched(metadata: &[u8], hash: &[u8; 20], text: &mut Vec<u8>) -> Result<(), AllocError>
    requires { hash.now ≡ sha1 metadata.now }
    ensures { OnOk result (text.new.items ≡ text.old.items ++ fetched_line metadata.now) }
{
    push_size(metadata.len() as u64, text)?;
    push_digest(hash, text)
}

/// Returns the lines of a fetch.
#[tactic(auto, using(std::proofs::lemmas::List::append_assoc))]
fn lines_of(
    alloc: Global,
    metadata: &[u8],
    hash: &[u8; 20],
    left: u64,
    right: u64,
) -> Result<Vec<u8>, AllocError>
    requires { hash.now ≡ sha1 metadata.now }
    ensures { IfOk result (λ v. v.items ≡ fetched_lines metadata.now left right) }
{
    let mut text = Vec::new(alloc);
    push_fetched(metadata, hash, &mut text)?;
    push_counts(b"left", right, left, &mut text)?;
    push_counts(b"right", left, right, &mut text)?;
    Ok(text)
}

/// Writes all of the lines.
fn write_lines<T: Target>(writer: &mut T, lines: &[u8], end: LoopEnd) -> Result<LoopEnd, ToolFault>
    ensures written { IsWrite lines.now end (T.seen writer.old).held (T.seen writer.new).held result }
    ensures failed { OnErr result (WriteFailed (T.seen writer.old) (T.seen writer.new)) }
{
    if write_front(writer, lines) < lines.len() {
        return Err(ToolFault::Write);
    }
    Ok(end)
}

/// Writes what came of two ends that have nothing more to send.
fn print<T: Target>(
    alloc: Global,
    handled: Handled,
    right: &End,
    writer: &mut T,
) -> Result<LoopEnd, ToolFault>
    ensures printed { IsPrinted handled right.now (T.seen writer.old).held (T.seen writer.new).held result }
    ensures failed { result ≡ Err ToolFault.Write → WriteFailed (T.seen writer.old) (T.seen writer.new) }
{
    let Some(metadata) = right.metadata() else {
        return write_lines(writer, b"unfetched\n", LoopEnd::Unfetched);
    };
    // An end has only metadata whose SHA-1 is its info hash.
    let hash = right.handshake().info_hash;
    match lines_of(alloc, metadata, &hash, handled.left, handled.right) {
        Ok(lines) => write_lines(writer, lines.as_slice(), LoopEnd::Fetched),
        Err(_) => Err(ToolFault::Memory),
    }
}

/// Runs the two ends, and writes what came of them.
fn link<W: Wire, T: Target>(
    alloc: Global,
    left: &mut End,
    right: &mut End,
    wire: &mut W,
    writer: &mut T,
) -> Result<LoopEnd, ToolFault>
    ensures linked { IsLinked (W.seen wire.old) (W.seen wire.new) left.old right.old (T.seen writer.old).held (T.seen writer.new).held result }
    ensures fetches { IsClear (W.seen wire.old) → Fetches left.old right.old result }
    ensures net { IsWireFault (W.seen wire.old) (W.seen wire.new) result }
    ensures failed { result ≡ Err ToolFault.Write → WriteFailed (T.seen writer.old) (T.seen writer.new) }
{
    match run_both(wire, left, right, ROUNDS) {
        Ok(handled) => print(alloc, handled, right, writer),
        Err(Halt::Stopped) => write_lines(writer, b"unfetched\n", LoopEnd::Unfetched),
        Err(Halt::Net) => Err(ToolFault::Net),
        Err(Halt::Rounds) => Err(ToolFault::Turns),
        Err(Halt::Memory) => Err(ToolFault::Memory),
    }
}

/// Serves the metadata at the left end, and fetches it at the right one.
fn run_metadata<W: Wire, T: Target>(
    alloc: Global,
    metadata: Vec<u8>,
    writer: &mut T,
    wire: &mut W,
    rules: Rules,
    limit: u32,
) -> Result<LoopEnd, ToolFault>
    requires { (32768 ≤ limit) × (limit ≤ 1048576) }
    ensures looped { IsLooped (W.seen wire.old) (W.seen wire.new) rules limit metadata.items (T.seen writer.old).held (T.seen writer.new).held result }
    ensures fetches { IsClear (W.seen wire.old) → IsFetching metadata.items result }
    ensures unread { result ≢ Err ToolFault.Read }
    ensures bad { is_bad_size (length metadata.items) ≡ true → result ≡ Ok LoopEnd.BadSize }
    ensures net { IsWireFault (W.seen wire.old) (W.seen wire.new) result }
    ensures failed { result ≡ Err ToolFault.Write → WriteFailed (T.seen writer.old) (T.seen writer.new) }
{
    let hash = Sha1::digest(metadata.as_slice());
    let mut left = match serving(alloc, metadata, hash, rules, limit) {
        Ok(left) => left,
        Err(EndError::BadSize) => return Ok(LoopEnd::BadSize),
        Err(_) => return Err(ToolFault::Memory),
    };
    match fetching(alloc, hash, rules, limit) {
        Ok(mut right) => link(alloc, &mut left, &mut right, wire, writer),
        Err(_) => Err(ToolFault::Memory),
    }
}

/// Serves metadata at one end of a connection, and fetches it at the other one.
///
/// It reads the metadata to the reader's end, or 67,108,865 bytes of it, and then uses the connection. It writes what came of
/// it. The left end serves under the id 3, and the right one fetches under the id 9. In a round each side sends at most 4,096
/// bytes, and the other side handles them. The run ends when no side has anything to send.
///
/// # Errors
/// `Read` if a read failed. `Write` if a write failed or took no byte. `Net` if a call of the connection failed or moved no byte.
/// `Turns` after 1,048,576 rounds. `Memory` when out of memory. After `Write` a prefix of the output is written, after the others
/// nothing.
pub fn run_loop<R: Source, T: Target, W: Wire>(
    alloc: Global,
    reader: &mut R,
    writer: &mut T,
    wire: &mut W,
    rules: Rules,
    limit: u32,
) -> Result<LoopEnd, ToolFault>
    requires { (32768 ≤ limit) × (limit ≤ 1048576) }
    ensures is_loop { IsLoop (R.seen reader.old).left (R.seen reader.new).left (EndRead (R.seen reader.old) (R.seen reader.new))
        (W.seen wire.old) (W.seen wire.new) rules limit (T.seen writer.old).held (T.seen writer.new).held result }
    ensures once { (R.seen reader.new).ends ≤ (R.seen reader.old).ends + 1 }
    ensures read { result ≡ Err ToolFault.Read → ReadFailed (R.seen reader.old) (R.seen reader.new) }
    ensures net { IsWireFault (W.seen wire.old) (W.seen wire.new) result }
    ensures failed { result ≡ Err ToolFault.Write → WriteFailed (T.seen writer.old) (T.seen writer.new) }
{
    match read_metadata(alloc, reader) {
        Ok(metadata) => run_metadata(alloc, metadata, writer, wire, rules, limit),
        Err(fault) => Err(fault),
    }
}

/// Returns the exit status of a loop.
///
/// It is 0 if the metadata was fetched, 1 if it wasn't, and 3 after a fault.
pub fn status(end: &Result<LoopEnd, ToolFault>) -> u8
    ensures { result ≡ status_of end.now }
{
    match end {
        Ok(LoopEnd::Fetched) => 0,
        Ok(LoopEnd::Unfetched | LoopEnd::BadSize) => 1,
        Err(_) => 3,
    }
}
