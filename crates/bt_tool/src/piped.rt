//! Standard output that remembers whether anybody reads it. `main` makes it.

use std::cell::Cell;
use std::io;
use std::io::{ErrorKind, Write};

/// A writer that notes in `is_gone` that nobody reads the other end of a pipe.
#[derive(Drop)]
pub struct Piped<'a, W> {
    writer: W,
    is_gone: &'a Cell<bool>,
}

impl<'a, W> Piped<'a, W> {
    /// Returns the writer, with its note.
    pub fn new(writer: W, is_gone: &'a Cell<bool>) -> Piped<'a, W> {
        Piped { writer, is_gone }
    }
}

impl<'a, W: Write> Write for Piped<'a, W> {
    ghost contents = { λ p. W.contents p.writer };

    fn write(&mut self, buf: &[u8]) -> io::Result<usize> {
        match self.writer.write(buf) {
            Ok(count) => Ok(count),
            Err(error) => {
                if error.kind() == ErrorKind::BrokenPipe {
                    self.is_gone.set(true);
                }
                Err(error)
            }
        }
    }

    fn flush(&mut self) -> io::Result<()> {
        self.writer.flush()
    }
}
