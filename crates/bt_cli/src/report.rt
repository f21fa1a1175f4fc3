//! What standard error gets of a fetch: how each connection goes and ends, and the summary.
ghost use Rattle.std.specs.Prelude.{◌≡◌, ◌≢◌, ◌++◌, [], IfOk, codes, string_bytes};
ghost use Rattle.bt_cli.specs.Tallies.{asked_fields, counted as counted_by_rule, ending_word, is_due as is_due_by_rule, tally_fields, tally_words};

use bt_end::Progress;
use bt_feed::Target;
use bt_fetch::{Ending, Outcome, Watcher};
use bt_finding::{Counts, summary_line};
use bt_run::run::say;
use bt_text::ended::Ended;
use bt_text::lines::verdict_line;
use std::alloc::{AllocError, Global};
use std::net::SocketAddr;
use std::time::Clock;

/// How many tries ended so. Each stays at 2^32 - 1.
#[derive(Clone, Copy, PartialEq, Eq, Debug)]
pub struct Tally {
    pub tried: u32,
    pub silent: u32,
    pub unreachable: u32,
    pub refused: u32,
}

/// No try.
pub const NO_TRY: Tally = Tally {
    tried: 0,
    silent: 0,
    unreachable: 0,
    refused: 0,
};

/// Returns the tally with one more try.
pub fn counted(tally: Tally, ending: Ending) -> Tally
    ensures { result ≡ counted_by_rule tally ending }
{
    let tried = tally.tried.saturating_add(1);
    match ending {
        Ending::By(Outcome::Silent) => Tally {
            tried,
            silent: tally.silent.saturating_add(1),
            ..tally
        },
        Ending::By(Outcome::Unreachable) => Tally {
            tried,
            unreachable: tally.unreachable.saturating_add(1),
            ..tally
        },
        Ending::By(Outcome::Refused(_)) => Tally {
            tried,
            refused: tally.refused.saturating_add(1),
            ..tally
        },
        _ => Tally { tried, ..tally },
    }
}

/// Returns the end of a fetch's last line: the seconds that it took, and its tries.
fn tally_text(alloc: Global, seconds: u64, tally: Tally) -> Result<String, AllocError>
    ensures { IfOk result (λ text. string_bytes text ≡ tally_words seconds tally) }
{
    let Tally {
        tried,
        silent,
        unreachable,
        refused,
    } = tally;
    format!(in alloc;
        "{seconds} s tried={tried} silent={silent} unreachable={unreachable} refused={refused}\n"
    )
}

/// Returns the last line of a fetch.
///
/// It has the peer that it was fetched from, the seconds that it took, and its tries.
///
/// # Errors
/// `AllocError` when out of memory.
pub fn summary(
    alloc: Global,
    source: &str,
    seconds: u64,
    tally: Tally,
) -> Result<String, AllocError>
    ensures none { source.now ≡ [] → IfOk result (λ text. string_bytes text ≡ codes "not fetched in " ++ tally_words seconds tally) }
    ensures fetched { source.now ≢ [] → IfOk result (λ text. string_bytes text ≡ codes "fetched from " ++ (source.now ++ (codes " in " ++ tally_words seconds tally))) }
{
    let end = tally_text(alloc, seconds, tally)?;
    if source.is_empty() {
        return format!(in alloc; "not fetched in {end}");
    }
    format!(in alloc; "fetched from {source} in {end}")
}

/// Returns the summary as a JSON object, whose `fetched` is the peer or null.
///
/// # Errors
/// `AllocError` when out of memory.
pub fn summary_object(
    alloc: Global,
    source: &str,
    seconds: u64,
    tally: Tally,
) -> Result<String, AllocError>
    ensures none { source.now ≡ [] → IfOk result (λ text. string_bytes text ≡ codes "{\"fetched\":null,\"seconds\":" ++ tally_fields seconds tally) }
    ensures fetched { source.now ≢ [] → IfOk result (λ text. string_bytes text ≡ codes "{\"fetched\":\"" ++ (source.now ++ (codes "\",\"seconds\":" ++ tally_fields seconds tally))) }
{
    let end = tally_object(alloc, seconds, tally)?;
    if source.is_empty() {
        return format!(in alloc; "{{\"fetched\":null,\"seconds\":{end}");
    }
    format!(in alloc; "{{\"fetched\":\"{source}\",\"seconds\":{end}")
}

/// Returns the end of the summary's object.
fn tally_object(alloc: Global, seconds: u64, tally: Tally) -> Result<String, AllocError>
    ensures { IfOk result (λ text. string_bytes text ≡ tally_fields seconds tally) }
{
    let Tally {
        tried,
        silent,
        unreachable,
        refused,
    } = tally;
    format!(in alloc;
        "{seconds},\"tried\":{tried},\"silent\":{silent},\"unreachable\":{unreachable},\"refused\":{refused}}}\n"
    )
}

/// Returns whom a search has asked, and how many peers it has found, as a JSON object.
fn asked_object(alloc: Global, counts: &Counts, found: usize) -> Result<String, AllocError>
    ensures { IfOk result (λ text. string_bytes text ≡ asked_fields counts.now found) }
{
    let Counts {
        trackers,
        nodes,
        private,
    } = *counts;
    format!(in alloc;
        "{{\"trackers\":{trackers},\"nodes\":{nodes},\"found\":{found},\"private\":{private}}}\n"
    )
}

/// Returns the word for how a connection ended.
fn word_of(ending: Ending) -> &'static str
    ensures { result.now ≡ ending_word ending }
{
    match ending {
        Ending::Left => "left",
        Ending::By(Outcome::Fetched) => "fetched",
        Ending::By(Outcome::Refused(_)) => "refused",
        Ending::By(Outcome::Silent) => "silent",
        Ending::By(Outcome::Closed) => "closed",
        Ending::By(Outcome::Unreachable) => "unreachable",
        Ending::By(Outcome::Rejected) => "rejected",
        Ending::By(Outcome::Mismatch) => "mismatch",
        Ending::By(Outcome::Unasked) => "unasked",
        Ending::By(Outcome::NoMetadata) => "no-metadata",
    }
}

/// Says the line of a connection's end.
fn say_line<E: Target>(name: &str, ending: Ending, errors: &mut E) {
    say(name.as_bytes(), errors);
    say(b" ", errors);
    let Ending::By(Outcome::Refused(refusal)) = ending else {
        say(word_of(ending).as_bytes(), errors);
        say(b"\n", errors);
        return;
    };
    let mut line = [0; 160];
    let place = verdict_line(Ended::Refused(refusal), &mut line);
    say(&line[place..], errors);
}

/// Returns the JSON object of a connection's end.
fn end_object(alloc: Global, name: &str, ending: Ending) -> Result<String, AllocError> {
    let word = word_of(ending);
    let Ending::By(Outcome::Refused(refusal)) = ending else {
        return format!(in alloc; "{{\"peer\":\"{name}\",\"end\":\"{word}\"}}\n");
    };
    let (message, at, reason) = (refusal.message, refusal.at, refusal.reason.name());
    format!(in alloc;
        "{{\"peer\":\"{name}\",\"end\":\"{word}\",\"message\":{message},\"offset\":{at},\"reason\":\"{reason}\"}}\n"
    )
}

/// Goes back to the beginning of a terminal's line, and clears it.
const CLEAR: &[u8] = b"\r\x1b[K";

/// The bytes of a block (BEP 9), in KiB.
const BLOCK: u64 = 16;

/// What standard error is, and how it is written.
#[derive(Clone, Copy, PartialEq, Eq, Debug)]
pub enum Form {
    /// Lines.
    Plain,
    /// Lines, and on a terminal one that shows how far the fetch has come.
    Shown,
    /// JSON objects.
    Json,
}

/// Says how a connection to the peer of this name ended.
pub fn say_end<E: Target>(alloc: Global, form: Form, name: &str, ending: Ending, errors: &mut E) {
    if form != Form::Json {
        say_line(name, ending, errors);
        return;
    }
    if let Ok(text) = end_object(alloc, name, ending) {
        say(text.as_str().as_bytes(), errors);
    }
}

/// The connection that has come furthest.
#[derive(Clone, Copy)]
struct Front {
    progress: Progress,
    /// When the first block was told, in milliseconds.
    since: u64,
    /// When this was told.
    time: u64,
}

/// Returns the front after a connection came this far.
fn moved(front: Option<Front>, progress: Progress, time: u64) -> Front {
    match front {
        Some(old) if old.progress.held > progress.held => old,
        Some(old) => Front {
            progress,
            since: old.since,
            time,
        },
        None => Front {
            progress,
            since: time,
            time,
        },
    }
}

/// Returns what a terminal's line says of the peers that were found.
fn found_text(alloc: Global, found: usize) -> Result<String, AllocError> {
    if found == 0 {
        return Ok(String::new(alloc));
    }
    format!(in alloc; ", {found} found")
}

/// Returns the line of a terminal: how many connections are open, the blocks of the one that has come furthest, and its rate; and how many
/// peers were found, if any were.
fn progress_line(
    alloc: Global,
    inside: u32,
    found: usize,
    front: Option<Front>,
) -> Result<String, AllocError> {
    let found = found_text(alloc, found)?;
    let Some(front) = front else {
        return format!(in alloc; "fetching, {inside} open{found}");
    };
    let (held, blocks) = (front.progress.held, front.progress.blocks);
    let time = front.time.saturating_sub(front.since).max(1);
    let rate = (held as u64).saturating_mul(BLOCK * 1000) / time;
    format!(in alloc; "fetching {held} of {blocks} blocks at {rate} KiB/s, {inside} open{found}")
}

/// How many milliseconds pass before a terminal's line is drawn again.
const REDRAW: u64 = 50;

/// Returns whether a line that was drawn at one time may be drawn at another, in milliseconds.
fn is_due(drawn: Option<u64>, time: u64) -> bool
    ensures { result ≡ is_due_by_rule drawn time }
{
    match drawn {
        Some(drawn) => time.saturating_sub(drawn) >= REDRAW,
        None => true,
    }
}

/// Prints on standard error how each connection ended, and on a terminal how it goes on.
#[derive(Drop)]
pub struct Lines<'a, R: Clock, E: Target> {
    clock: &'a R,
    alloc: Global,
    /// The names of the peers that were named.
    names: &'a [&'a str],
    /// The addresses of those that were found, which come after them.
    found: Vec<SocketAddr>,
    errors: &'a mut E,
    form: Form,
    /// A line that is to be cleared stands there.
    is_shown: bool,
    /// When the line was drawn last, in milliseconds.
    drawn: Option<u64>,
    tally: Tally,
    /// How many connections are open.
    inside: u32,
    front: Option<Front>,
    /// When the fetch began, in seconds.
    begun: u64,
    /// The number of the peer that the metadata came from.
    source: Option<usize>,
}

impl<'a, R: Clock, E: Target> Lines<'a, R, E> {
    /// Returns the lines of connections to peers with these names, of a fetch that began at this second.
    pub fn new(
        clock: &'a R,
        alloc: Global,
        names: &'a [&'a str],
        errors: &'a mut E,
        form: Form,
        tally: Tally,
        begun: u64,
    ) -> Lines<'a, R, E> {
        Lines {
            clock,
            alloc,
            names,
            found: Vec::new(alloc),
            errors,
            form,
            is_shown: false,
            drawn: None,
            tally,
            inside: 0,
            front: None,
            begun,
            source: None,
        }
    }

    /// Returns the name of a peer; nothing if it has none.
    fn name_of(&self, address: usize) -> Result<String, AllocError> {
        if let Some(name) = self.names.get(address) {
            return String::from_str(self.alloc, name);
        }
        match self.found.get(address.saturating_sub(self.names.len())) {
            Some(at) => format!(in self.alloc; "{at}"),
            None => Ok(String::new(self.alloc)),
        }
    }

    /// Returns the summary of a fetch that took so many seconds.
    fn summary_text(&self, seconds: u64) -> Result<String, AllocError> {
        let source = match self.source {
            Some(address) => self.name_of(address)?,
            None => String::new(self.alloc),
        };
        match self.form {
            Form::Json => summary_object(self.alloc, source.as_str(), seconds, self.tally),
            _ => summary(self.alloc, source.as_str(), seconds, self.tally),
        }
    }

    /// Says whom a search has asked, and how many peers it has found.
    pub fn say_asked(&mut self, counts: &Counts, found: usize) {
        let text = match self.form {
            Form::Json => asked_object(self.alloc, counts, found),
            _ => summary_line(self.alloc, counts, found),
        };
        if let Ok(text) = text {
            say(text.as_str().as_bytes(), self.errors);
        }
    }

    /// Says the summary of a fetch that ended at this second.
    pub fn say_summary(&mut self, ended: u64) {
        let seconds = ended.saturating_sub(self.begun);
        let text = self.summary_text(seconds);
        if let Ok(text) = text {
            say(text.as_str().as_bytes(), self.errors);
        }
    }

    /// Returns the time of the clock in milliseconds; 0 if it fails.
    fn time(&self) -> u64 {
        match self.clock.monotonic() {
            Ok(time) => u64::try_from(time.as_millis()).unwrap_or(u64::MAX),
            Err(_) => 0,
        }
    }

    /// Shows how far the fetch has come, if standard error is a terminal and the line wasn't drawn just now.
    fn show(&mut self) {
        if self.form != Form::Shown {
            return;
        }
        let time = self.time();
        if !is_due(self.drawn, time) {
            return;
        }
        self.drawn = Some(time);
        let found = self.found.len();
        let Ok(text) = progress_line(self.alloc, self.inside, found, self.front) else {
            return;
        };
        self.is_shown = true;
        say(CLEAR, self.errors);
        say(text.as_str().as_bytes(), self.errors);
    }

    /// Says and counts how a connection ended.
    fn tell(&mut self, address: usize, ending: Ending) {
        if self.is_shown {
            self.is_shown = false;
            say(CLEAR, self.errors);
        }
        self.tally = counted(self.tally, ending);
        if ending == Ending::By(Outcome::Fetched) {
            self.source = Some(address);
        }
        if let Ok(name) = self.name_of(address) {
            say_end(self.alloc, self.form, name.as_str(), ending, self.errors);
        }
    }
}

impl<'a, R: Clock, E: Target> Watcher for Lines<'a, R, E> {
    ghost use Rattle.std.specs.Prelude.{None};

    ghost heard = { λ l. None };

    fn added(&mut self, address: SocketAddr) {
        let _ = self.found.push(address);
        self.show();
    }

    fn dialled(&mut self, address: usize, is_begun: bool) {
        if is_begun {
            self.inside = self.inside.saturating_add(1);
            self.show();
        } else {
            self.tell(address, Ending::By(Outcome::Unreachable));
        }
    }

    fn came(&mut self, _address: usize, progress: Progress, time: u64) {
        self.front = Some(moved(self.front, progress, time));
        self.show();
    }

    fn ended(&mut self, address: usize, ending: Ending) {
        self.inside = self.inside.saturating_sub(1);
        self.tell(address, ending);
    }
}
