//! How much of a long file is read, shown on a terminal.
ghost use Rattle.std.specs.Prelude.{◌≡◌, IfOk, string_bytes};
ghost use Rattle.bt_cli.specs.Readings.{is_drawn_again, is_long_by, progress_words, source_of};

use bt_feed::Target;
use bt_io::{Failed, Source};
use bt_run::run::say;
use std::alloc::{AllocError, Global};
use std::time::Clock;

/// How many bytes a file has at least so that it is shown how much of it is read.
const LONG: u64 = 67_108_864;

/// The unit in which the line counts.
const MEGABYTE: u64 = 1_000_000;

/// How many milliseconds pass before the line is drawn again.
const REDRAW: u64 = 1_000;

/// What clears the line of a terminal.
const CLEAR: &[u8] = b"\r\x1b[K";

/// What goes back to the line's start, so that text on the same terminal takes its place.
const BACK: &[u8] = b"\r";

/// Tells whether a file with this many bytes is long enough that it is shown how much of it is read.
pub fn is_long(size: u64) -> bool
    ensures { result ≡ is_long_by size }
{
    size > LONG
}

/// Tells whether a line that was drawn at one time is drawn again at another, in milliseconds.
fn is_due(drawn: u64, time: u64) -> bool
    ensures { result ≡ is_drawn_again drawn time }
{
    time.saturating_sub(drawn) >= REDRAW
}

/// Returns the line of a file of which so many bytes are read, in units of 10^6.
fn line_of(alloc: Global, read: u64, size: u64) -> Result<String, AllocError>
    ensures { IfOk result (λ line. string_bytes line ≡ progress_words read size) }
{
    let (read, size) = (read / MEGABYTE, size / MEGABYTE);
    format!(in alloc; "capture: {read} of {size} MB")
}

/// Returns the time of a clock in milliseconds; 0 if it fails.
fn time_of<R: Clock>(clock: &R) -> u64 {
    match clock.monotonic() {
        Ok(time) => u64::try_from(time.as_millis()).unwrap_or(u64::MAX),
        Err(_) => 0,
    }
}

/// A file that is read. How much of it is read is shown on a terminal, on one line that is drawn again at most once a second.
#[derive(Drop)]
pub struct Shown<'a, R: Clock, S, E: Target> {
    clock: &'a R,
    alloc: Global,
    source: S,
    errors: &'a mut E,
    /// How many bytes the file has.
    size: u64,
    /// How many of them are read.
    read: u64,
    /// When the line was drawn last, or the file was opened, in milliseconds.
    drawn: u64,
    /// A line that is to be cleared stands there.
    is_shown: bool,
}

impl<'a, R: Clock, S, E: Target> Shown<'a, R, S, E> {
    /// Shows on `errors` how much of a file of `size` bytes is read, of which nothing is read yet.
    pub fn new(
        clock: &'a R,
        alloc: Global,
        source: S,
        errors: &'a mut E,
        size: u64,
    ) -> Shown<'a, R, S, E>
        ensures { source_of result ≡ source }
    {
        let drawn = time_of(clock);
        Shown {
            clock,
            alloc,
            source,
            errors,
            size,
            read: 0,
            drawn,
            is_shown: false,
        }
    }

    /// Draws the line again, if it wasn't drawn just now.
    fn show(&mut self)
        ensures { source_of self.new ≡ source_of self.old }
    {
        let time = time_of(self.clock);
        if !is_due(self.drawn, time) {
            return;
        }
        self.drawn = time;
        let Ok(line) = line_of(self.alloc, self.read, self.size) else {
            return;
        };
        self.is_shown = true;
        say(CLEAR, self.errors);
        say(line.as_bytes(), self.errors);
        say(BACK, self.errors);
    }

    /// Removes the line, if it stands there.
    pub fn clear(&mut self)
        ensures { source_of self.new ≡ source_of self.old }
    {
        if self.is_shown {
            self.is_shown = false;
            say(CLEAR, self.errors);
        }
    }
}

impl<'a, R: Clock, S: Source, E: Target> Source for Shown<'a, R, S, E> {
    ghost seen = { λ w. S.seen (source_of w) };

    fn read(&mut self, into: &mut [u8]) -> Result<usize, Failed> {
        let answer = self.source.read(into);
        if let Ok(count) = answer {
            self.read = self.read.saturating_add(count as u64);
            self.show();
        }
        answer
    }
}
