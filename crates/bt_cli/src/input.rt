//! Reading a whole input, up to a greatest length.
ghost use Rattle.std.specs.Prelude.{IfOk, ◌≤◌, length};
ghost use Rattle.std.specs.Io.KnownBytes.{Consumes};

use bt_feed::Source;
use bt_text::ended::ToolFault;
use std::alloc::Global;

/// How many reads an input may take.
const READS: u64 = 1 << 32;

/// Why an input isn't read to its end.
#[derive(Clone, Copy, PartialEq, Eq, Debug)]
pub enum NoInput {
    /// It has more bytes than it may have.
    TooLong,
    /// It can't be read, or out of memory.
    Fault(ToolFault),
}

/// Reads an input of at most `most` bytes to its end.
///
/// # Errors
/// `TooLong`; `Fault(Read)` if a read failed, and `Fault(Memory)` if memory is refused.
pub fn read_whole<R: Source>(alloc: Global, reader: &mut R, most: usize) -> Result<Vec<u8>, NoInput>
    ensures bytes { IfOk result (λ text. Consumes (R.seen reader.old).left (R.seen reader.new).left text.items) }
    ensures short { IfOk result (λ text. length text.items ≤ most) }
{
    let mut text = Vec::new(alloc);
    let mut buffer = [0; 4096];
    for _read in 0..READS {
        match reader.read(&mut buffer) {
            Ok(0) => return Ok(text),
            Ok(count) => {
                if count > most - text.len() {
                    return Err(NoInput::TooLong);
                }
                match text.extend_from_slice(&buffer[..count]) {
                    Ok(()) => {}
                    Err(_) => return Err(NoInput::Fault(ToolFault::Memory)),
                }
            }
            Err(_) => return Err(NoInput::Fault(ToolFault::Read)),
        }
    }
    Err(NoInput::TooLong)
}
