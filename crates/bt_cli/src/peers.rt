//! The list of peers of `fetch`.
ghost use Rattle.std.specs.Prelude.{IfOk};
ghost use Rattle.std.specs.Io.KnownBytes.{Consumes};
ghost use Rattle.bt_cli.specs.Lists.{IsListed};

use crate::input::{NoInput, read_whole};
use bt_feed::Source;
use bt_magnet::{ListError, read_list};
use bt_text::ended::ToolFault;
use std::alloc::Global;

/// The greatest length of a list in bytes.
const LONGEST: usize = 16_777_216;

/// Why an input is no list of peers.
#[derive(Clone, Copy, PartialEq, Eq, Debug)]
pub enum NoPeers {
    /// The line with this number, counted from 1, names no peer.
    Line(usize),
    /// It has more than 16,777,216 bytes.
    TooLong,
    /// It can't be read, or out of memory.
    Fault(ToolFault),
}

/// Reads an input to its end.
///
/// # Errors
/// `TooLong`; `Read` if a read failed, and `Memory` if memory is refused.
pub fn list_from<R: Source>(alloc: Global, reader: &mut R) -> Result<Vec<u8>, NoPeers>
    ensures { IfOk result (λ text. Consumes (R.seen reader.old).left (R.seen reader.new).left text.items) }
{
    match read_whole(alloc, reader, LONGEST) {
        Ok(text) => Ok(text),
        Err(NoInput::TooLong) => Err(NoPeers::TooLong),
        Err(NoInput::Fault(fault)) => Err(NoPeers::Fault(fault)),
    }
}

/// Returns the peers that the lines of a text name.
///
/// # Errors
/// `Line` with a line that names none, and `Memory` if memory is refused.
pub fn peers_in(alloc: Global, text: &[u8]) -> Result<Vec<String>, NoPeers>
    ensures { IsListed text.now result }
{
    let Ok(text) = String::from_utf8_lossy(alloc, text) else {
        return Err(NoPeers::Fault(ToolFault::Memory));
    };
    match read_list(alloc, text.as_str()) {
        Ok(peers) => Ok(peers),
        Err(ListError::Line(line)) => Err(NoPeers::Line(line)),
        Err(ListError::Memory) => Err(NoPeers::Fault(ToolFault::Memory)),
    }
}
