//! How a command ends, and what can stop it. How that is printed is elsewhere.
use bt_wire::{Reason, Refusal};
use thiserror::Error;

/// How a stream ended: accepted, or refused.
#[derive(Clone, Copy, PartialEq, Eq, Debug)]
pub enum Ended {
    /// The stream is accepted; it has these messages after the handshake, and bytes.
    Accepted { messages: u64, bytes: u64 },
    /// The stream is refused.
    Refused(Refusal),
}

/// Why a line of a script isn't accepted.
#[derive(Clone, Copy, PartialEq, Eq, Debug)]
pub enum ScriptReason {
    /// The text is no line of a script, or is too long.
    Syntax,
    /// The bytes that the line names are refused.
    Reason(Reason),
}

/// How a script ended: all of its lines were accepted, or one wasn't.
///
/// An accepted script has the messages of its stream (without the handshake) and its bytes. A refused one has the number,
/// counted from 1, of the first line that isn't accepted.
#[derive(Clone, Copy, PartialEq, Eq, Debug)]
pub enum PackEnd {
    /// All lines are accepted.
    Accepted { messages: u64, bytes: u64 },
    /// The line `line`, counted from 1, is the first that isn't accepted.
    Refused { line: u64, reason: ScriptReason },
}

/// What stopped a command.
#[derive(Clone, Copy, PartialEq, Eq, Debug, Error)]
pub enum ToolFault {
    /// A read failed.
    #[error("read")]
    Read,
    /// A write failed, or took no byte.
    #[error("write")]
    Write,
    /// Out of memory.
    #[error("memory")]
    Memory,
    /// The limit of reads or of rounds was reached before the end.
    ///
    /// They are 4,294,967,296 and 2,097,152.
    #[error("turns")]
    Turns,
    /// A call of the connection between two ends failed, or moved no byte.
    #[error("net")]
    Net,
}
