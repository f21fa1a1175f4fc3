//! A run of the program over its host's files and standard streams.
ghost use Rattle.std.specs.Prelude.{IfOk};
ghost use Rattle.bt_run.specs.Commands.{HasLimit, HasLoopLimit};
ghost use Rattle.bt_cli.specs.Commands.{IsLimited};
ghost use Rattle.bt_fetch.specs.Wishes.{IsWish};

use crate::piped::Piped;
use bt_capture::{CaptureEnd, CaptureJob, Ending, run_capture};
use bt_cli::capture::{CaptureRequest, end_capture};
use bt_cli::commands::{Asked, Job, Notice, Request};
use bt_cli::ending::{end_by_fault, end_job, end_link, end_loop, end_text};
use bt_cli::fetch::FetchJob;
use bt_cli::fetching::{end_fetch, run_fetch};
use bt_cli::hints::{are_wanted, say_hint};
use bt_cli::notice::refuse_words;
use bt_cli::options::{is_input, long_list, no_handshake, no_peer};
use bt_cli::other::receiver_by;
use bt_cli::packed::packed_line;
use bt_cli::peers::{NoPeers, list_from, peers_in};
use bt_cli::reading::{Shown, is_long};
use bt_cli::run::{JobEnd, do_job, say};
use bt_cli::serve::{ServeJob, end_serve, run_serve};
use bt_cli::torrent::{end_torrent, job_for};
use bt_ext::Rules;
use bt_feed::Host;
use bt_jobs::output::write_out;
use bt_jobs::{OtherError, run_check_after};
use bt_link::run_rig;
use bt_loop::{open_tcp, run_loop};
use bt_pcap::FileFault;
use bt_peers::{PeersJob, end_peers, run_peers};
use bt_run::hint::Kept;
use bt_text::ended::ToolFault;
use bt_wire::Own;
use either::Either;
use std::alloc::AllocError;
use std::cell::Cell;
use std::fs;
use std::hash::RandomState;
use std::io::{Input, Write};
use std::net::Net;
use std::random::RandomSource;
use std::rt::Files;
use std::time::Clock;

/// What is printed if a stream is expected from a terminal.
const STREAM_AWAITED: &[u8] =
    b"bt_tool: a stream is awaited on standard input, from its handshake on\n";

/// What is printed if a script is expected from a terminal.
const SCRIPT_AWAITED: &[u8] = b"bt_tool: a script is awaited on standard input\n";

/// What is printed if a capture is expected from a terminal.
const CAPTURE_AWAITED: &[u8] = b"bt_tool: a capture is awaited on standard input\n";

/// What is printed if a .torrent is expected from a terminal.
const TORRENT_AWAITED: &[u8] = b"bt_tool: a .torrent is awaited on standard input\n";

/// What is printed if metadata is expected from a terminal.
const METADATA_AWAITED: &[u8] = b"bt_tool: metadata is awaited on standard input\n";

/// What is printed if a list of peers is expected from a terminal.
const PEERS_AWAITED: &[u8] = b"bt_tool: a list of peers is awaited on standard input\n";

/// The exit status if an input can't be read.
const UNREAD: u8 = 3;

/// Returns the line on a capture that is compressed, if it ended as no capture and its first bytes tell.
fn packed_in(end: &Result<CaptureEnd, ToolFault>, front: &[u8]) -> Option<&'static [u8]> {
    match end {
        Ok(end) => match end.ending {
            Ending::Broken(FileFault::NoCapture) => packed_line(front),
            _ => None,
        },
        Err(_) => None,
    }
}

/// The host's devices, and what is known of them.
#[derive(Drop)]
pub struct Program<'a, R, W, E> {
    /// The host, which has the files and standard input.
    host: &'a R,
    /// Standard output.
    writer: Host<Piped<'a, W>>,
    /// Standard error.
    errors: Host<E>,
    /// A write failed since nobody reads standard output.
    is_gone: &'a Cell<bool>,
    /// Standard input is a terminal.
    is_terminal: bool,
    /// Standard error is a terminal.
    is_watched: bool,
}

/// An input: standard input, or a file.
type Opened<R> = Host<Either<<R as Input>::Reader, <R as Files>::File>>;

impl<'a, R: Files + Input + Net + Clock + RandomSource + AllocGlobal, W: Write, E: Write> Program<
    'a,
    R,
    W,
    E,
> {
    /// Makes a program on this host, with its standard output and standard error.
    pub fn new(
        host: &'a R,
        writer: W,
        errors: E,
        is_gone: &'a Cell<bool>,
        is_terminal: bool,
        is_watched: bool,
    ) -> Program<'a, R, W, E> {
        let writer = Host::new(Piped::new(writer, is_gone));
        let errors = Host::new(errors);
        Program {
            host,
            writer,
            errors,
            is_gone,
            is_terminal,
            is_watched,
        }
    }

    /// Does what the words ask for, and returns the exit status.
    ///
    /// Each command has a frame of its own, so that the buffers of one take no stack of another one.
    pub fn answer(&mut self, asked: &Asked) -> u8
        requires { IsLimited asked.now }
    {
        match asked {
            Asked::Run(request) => self.run(request),
            Asked::Link(files) => self.link(files),
            Asked::Capture(request) => self.capture(request),
            Asked::Loop(rules, limit) => self.run_loop(*rules, *limit),
            Asked::Fetch(job) => self.fetch(job),
            Asked::Peers(job) => self.peers(job),
            Asked::Serve(job) => self.serve(job),
            Asked::Told(Notice::Usage, text) => self.refuse(text.as_str()),
            Asked::Told(_, text) => {
                let end = write_out(&mut self.writer, text.as_bytes(), ());
                end_text(end, self.is_gone.get(), &mut self.errors)
            }
        }
    }

    /// Says what is wrong with the words, and returns the exit status.
    pub fn refuse(&mut self, text: &str) -> u8 {
        refuse_words(text, &mut self.errors)
    }

    /// Returns the exit status of a fault that came before any work.
    pub fn fail(&mut self, fault: ToolFault) -> u8 {
        end_by_fault(fault, b"", false, &mut self.errors)
    }

    /// Says why a file can't be read, and returns the exit status.
    fn fail_to_read(&mut self, line: Result<String, AllocError>) -> u8 {
        match line {
            Ok(line) => {
                say(line.as_bytes(), &mut self.errors);
                UNREAD
            }
            Err(_) => self.fail(ToolFault::Memory),
        }
    }

    /// Tells whether a name is that of a folder.
    fn is_folder(&self, name: &str) -> bool {
        match fs::metadata(self.host, name) {
            Ok(found) => found.is_dir(),
            Err(_) => false,
        }
    }

    /// Opens a file. If it can't be read, says why, and returns the exit status.
    fn open_file(&mut self, name: &str) -> Result<<R as Files>::File, u8> {
        let alloc = self.host.alloc();
        match fs::open(self.host, name) {
            Ok(_) if self.is_folder(name) => {
                let line = format!(in alloc; "{name}: fault: read: it is a directory\n");
                Err(self.fail_to_read(line))
            }
            Ok(file) => Ok(file),
            Err(error) => {
                let line = format!(in alloc; "{name}: fault: read: {error}\n");
                Err(self.fail_to_read(line))
            }
        }
    }

    /// Opens an input; if it is a terminal, prints what is expected. If it can't be read, says why, and returns the exit status.
    fn open(&mut self, name: &str, awaited: &[u8]) -> Result<Opened<R>, u8> {
        if !is_input(name) {
            let file = self.open_file(name)?;
            return Ok(Host::new(Either::Right(file)));
        }
        if self.is_terminal {
            say(awaited, &mut self.errors);
        }
        Ok(Host::new(Either::Left(self.host.reader())))
    }

    /// Returns what stands before the line of a failed read: a file's name.
    fn prefix(&self, name: &str) -> Result<String, AllocError> {
        if is_input(name) {
            return Ok(String::new(self.host.alloc()));
        }
        format!(in self.host.alloc(); "{name}: ")
    }

    /// Says that the other direction has no handshake, and returns the exit status.
    fn refuse_other(&mut self, name: &str) -> u8 {
        match no_handshake(self.host.alloc(), name) {
            Ok(text) => refuse_words(text.as_str(), &mut self.errors),
            Err(_) => self.fail(ToolFault::Memory),
        }
    }

    /// As `receiver`, with the other direction's input; `prefix` stands before the line of a fault.
    fn receiver_after(&mut self, prefix: &[u8], name: &str, request: &Request) -> Result<Own, u8>
        requires { HasLimit request.now.own }
        ensures { IfOk result HasLimit }
    {
        let mut reader = self.open(name, STREAM_AWAITED)?;
        match receiver_by(self.host.alloc(), &request.own, request.given, &mut reader) {
            Ok(own) => Ok(own),
            Err(OtherError::Fault(fault)) => {
                Err(end_by_fault(fault, prefix, false, &mut self.errors))
            }
            Err(OtherError::NoHandshake) => Err(self.refuse_other(name)),
        }
    }

    /// Returns the receiver, with what the other direction announces; or the exit status if that can't be read.
    #[inline(never)]
    fn receiver(&mut self, request: &Request) -> Result<Own, u8>
        requires { HasLimit request.now.own }
        ensures { IfOk result HasLimit }
    {
        let Some(name) = &request.other else {
            return Ok(request.own);
        };
        match self.prefix(name.as_str()) {
            Ok(prefix) => self.receiver_after(prefix.as_bytes(), name.as_str(), request),
            Err(_) => Err(self.fail(ToolFault::Memory)),
        }
    }

    /// Does a job, and returns the exit status.
    #[inline(never)]
    fn run(&mut self, request: &Request) -> u8
        requires { HasLimit request.now.own }
    {
        let own = match self.receiver(request) {
            Ok(own) => own,
            Err(status) => return status,
        };
        match request.files.as_slice() {
            [] => self.run_on("-", request, &own),
            [name] => self.run_on(name.as_str(), request, &own),
            names => self.check_each(names, &own),
        }
    }

    /// Does a job on an input that is open, and returns the exit status.
    fn run_over(&mut self, prefix: &[u8], reader: Opened<R>, request: &Request, own: &Own) -> u8
        requires { HasLimit own.now }
    {
        let alloc = self.host.alloc();
        let job = request.job;
        let mut reader = Kept::new(alloc, reader);
        let end = do_job(alloc, job, own, &mut reader, &mut self.writer);
        let is_gone = self.is_gone.get();
        let status = end_job(job, end, prefix, is_gone, &mut self.errors);
        let is_wanted = are_wanted(request.hints, self.is_watched);
        say_hint(alloc, is_wanted, end, reader.window(), &mut self.errors);
        status
    }

    /// As `run_on`; `prefix` stands before the line of a fault.
    fn run_after(&mut self, prefix: &[u8], name: &str, request: &Request, own: &Own) -> u8
        requires { HasLimit own.now }
    {
        let awaited = match request.job {
            Job::Pack => SCRIPT_AWAITED,
            Job::Show | Job::Json | Job::Check | Job::Unpack => STREAM_AWAITED,
        };
        match self.open(name, awaited) {
            Ok(reader) => self.run_over(prefix, reader, request, own),
            Err(status) => status,
        }
    }

    /// Does a job on one input, and returns the exit status.
    fn run_on(&mut self, name: &str, request: &Request, own: &Own) -> u8
        requires { HasLimit own.now }
    {
        match self.prefix(name) {
            Ok(prefix) => self.run_after(prefix.as_bytes(), name, request, own),
            Err(_) => self.fail(ToolFault::Memory),
        }
    }

    /// Checks files in turn, a line each, up to a write that fails; returns the greatest of their exit statuses.
    fn check_each(&mut self, names: &[String], own: &Own) -> u8
        requires { HasLimit own.now }
    {
        let mut status = 0;
        for name in names {
            let (of_file, goes_on) = self.check_named(name.as_str(), own);
            status = status.max(of_file);
            if !goes_on {
                return status;
            }
        }
        status
    }

    /// As `check_named`; `prefix` stands before the file's line.
    fn check_after(&mut self, prefix: &[u8], name: &str, own: &Own) -> (u8, bool)
        requires { HasLimit own.now }
    {
        let mut reader = match self.open(name, STREAM_AWAITED) {
            Ok(reader) => reader,
            Err(status) => return (status, true),
        };
        let end = run_check_after(
            self.host.alloc(),
            prefix,
            &mut reader,
            &mut self.writer,
            own,
        );
        let is_gone = self.is_gone.get();
        let status = end_job(
            Job::Check,
            JobEnd::Stream(end),
            prefix,
            is_gone,
            &mut self.errors,
        );
        (status, end != Err(ToolFault::Write))
    }

    /// Checks a file; returns the exit status, and whether the output takes more.
    fn check_named(&mut self, name: &str, own: &Own) -> (u8, bool)
        requires { HasLimit own.now }
    {
        match format!(in self.host.alloc(); "{name}: ") {
            Ok(prefix) => self.check_after(prefix.as_bytes(), name, own),
            Err(_) => (self.fail(ToolFault::Memory), true),
        }
    }

    /// As `link`; `prefix` stands before the line of a fault.
    fn link_after(&mut self, prefix: &[u8], name: &str) -> u8 {
        let mut reader = match self.open(name, SCRIPT_AWAITED) {
            Ok(reader) => reader,
            Err(status) => return status,
        };
        let end = run_rig(self.host.alloc(), &mut reader, &mut self.writer);
        let is_gone = self.is_gone.get();
        end_link(end, prefix, is_gone, &mut self.errors)
    }

    /// Runs the link that a script describes, and returns the exit status.
    #[inline(never)]
    fn link(&mut self, files: &[String]) -> u8 {
        let name = match files {
            [] => "-",
            [name, ..] => name.as_str(),
        };
        match self.prefix(name) {
            Ok(prefix) => self.link_after(prefix.as_bytes(), name),
            Err(_) => self.fail(ToolFault::Memory),
        }
    }

    /// Returns the size of a long file, if how much of it is read is to be shown.
    fn long_size(&self, name: &str) -> Option<u64> {
        if !self.is_watched || is_input(name) {
            return None;
        }
        let found = fs::metadata(self.host, name).ok()?;
        if found.is_file() && is_long(found.len()) {
            Some(found.len())
        } else {
            None
        }
    }

    /// As `capture`; `prefix` stands before the line of a fault.
    fn capture_after(
        &mut self,
        prefix: &[u8],
        name: &str,
        job: &CaptureJob,
        is_strict: bool,
    ) -> u8 {
        let reader = match self.open(name, CAPTURE_AWAITED) {
            Ok(reader) => reader,
            Err(status) => return status,
        };
        let Ok(keys) = RandomState::new(self.host) else {
            return end_by_fault(ToolFault::Read, prefix, false, &mut self.errors);
        };
        let alloc = self.host.alloc();
        let (end, line) = match self.long_size(name) {
            Some(size) => {
                let mut shown = Shown::new(self.host, alloc, reader, &mut self.errors, size);
                let end = run_capture(alloc, keys, &mut shown, &mut self.writer, job);
                shown.clear();
                (end, None)
            }
            None => {
                let mut kept = Kept::new(alloc, reader);
                let end = run_capture(alloc, keys, &mut kept, &mut self.writer, job);
                (end, packed_in(&end, kept.window()))
            }
        };
        let is_gone = self.is_gone.get();
        let status = end_capture(alloc, end, prefix, is_gone, is_strict, &mut self.errors);
        if let Some(line) = line {
            say(line, &mut self.errors);
        }
        status
    }

    /// As `capture_job`; `prefix` stands before the line of a fault.
    fn capture_job_after(
        &mut self,
        prefix: &[u8],
        name: &str,
        job: &CaptureJob,
    ) -> Result<CaptureJob, u8> {
        let mut reader = self.open(name, TORRENT_AWAITED)?;
        match job_for(self.host.alloc(), job, &mut reader) {
            Ok(job) => Ok(job),
            Err(why) => Err(end_torrent(why, prefix, &mut self.errors)),
        }
    }

    /// Returns the job, with the torrent whose file is named; or the exit status if that is none.
    fn capture_job(&mut self, request: &CaptureRequest) -> Result<CaptureJob, u8> {
        let Some(name) = &request.torrent else {
            return Ok(request.job);
        };
        match self.prefix(name.as_str()) {
            Ok(prefix) => self.capture_job_after(prefix.as_bytes(), name.as_str(), &request.job),
            Err(_) => Err(self.fail(ToolFault::Memory)),
        }
    }

    /// Reports on the connections of a capture, and returns the exit status.
    #[inline(never)]
    fn capture(&mut self, request: &CaptureRequest) -> u8 {
        let job = match self.capture_job(request) {
            Ok(job) => job,
            Err(status) => return status,
        };
        let name = match request.files.as_slice() {
            [] => "-",
            [name, ..] => name.as_str(),
        };
        match self.prefix(name) {
            Ok(prefix) => self.capture_after(prefix.as_bytes(), name, &job, request.is_strict),
            Err(_) => self.fail(ToolFault::Memory),
        }
    }

    /// Runs two ends over a connection of the process to itself, and returns the exit status.
    #[inline(never)]
    fn run_loop(&mut self, rules: Rules, limit: u32) -> u8
        requires { HasLoopLimit limit }
    {
        let Ok(mut wire) = open_tcp(self.host) else {
            return self.fail(ToolFault::Net);
        };
        let mut reader = match self.open("-", METADATA_AWAITED) {
            Ok(reader) => reader,
            Err(status) => return status,
        };
        let end = run_loop(
            self.host.alloc(),
            &mut reader,
            &mut self.writer,
            &mut wire,
            rules,
            limit,
        );
        end_loop(end, self.is_gone.get(), &mut self.errors)
    }

    /// Says that a line of a list names no peer, and returns the exit status.
    fn refuse_line(&mut self, name: &str, line: usize) -> u8 {
        match no_peer(self.host.alloc(), name, line) {
            Ok(text) => refuse_words(text.as_str(), &mut self.errors),
            Err(_) => self.fail(ToolFault::Memory),
        }
    }

    /// Says that a list of peers is too long, and returns the exit status.
    fn refuse_list(&mut self, name: &str) -> u8 {
        match long_list(self.host.alloc(), name) {
            Ok(text) => refuse_words(text.as_str(), &mut self.errors),
            Err(_) => self.fail(ToolFault::Memory),
        }
    }

    /// As `peers_of`; `prefix` stands before the line of a fault.
    fn peers_after(&mut self, prefix: &[u8], name: &str) -> Result<Vec<String>, u8> {
        let mut reader = self.open(name, PEERS_AWAITED)?;
        let alloc = self.host.alloc();
        let listed = match list_from(alloc, &mut reader) {
            Ok(text) => peers_in(alloc, text.as_slice()),
            Err(why) => Err(why),
        };
        match listed {
            Ok(peers) => Ok(peers),
            Err(NoPeers::Line(line)) => Err(self.refuse_line(name, line)),
            Err(NoPeers::TooLong) => Err(self.refuse_list(name)),
            Err(NoPeers::Fault(fault)) => {
                Err(end_by_fault(fault, prefix, false, &mut self.errors))
            }
        }
    }

    /// Returns the peers of a list, or the exit status if it can't be read.
    fn peers_of(&mut self, name: &str) -> Result<Vec<String>, u8> {
        match self.prefix(name) {
            Ok(prefix) => self.peers_after(prefix.as_bytes(), name),
            Err(_) => Err(self.fail(ToolFault::Memory)),
        }
    }

    /// Fetches metadata from the peers of a job and of its list, and returns the exit status.
    fn fetch_from(&mut self, job: &FetchJob, listed: &[String]) -> u8
        requires { IsWish job.now.wish }
    {
        let alloc = self.host.alloc();
        let fetched = run_fetch(
            self.host,
            alloc,
            job,
            listed,
            &mut self.writer,
            &mut self.errors,
            self.is_watched,
        );
        end_fetch(fetched, self.is_gone.get(), &mut self.errors)
    }

    /// Fetches metadata from peers, and returns the exit status.
    #[inline(never)]
    fn fetch(&mut self, job: &FetchJob) -> u8
        requires { IsWish job.now.wish }
    {
        let Some(name) = &job.list else {
            return self.fetch_from(job, &[]);
        };
        match self.peers_of(name.as_str()) {
            Ok(listed) => self.fetch_from(job, listed.as_slice()),
            Err(status) => status,
        }
    }

    /// Searches for the peers of a link, and returns the exit status.
    #[inline(never)]
    fn peers(&mut self, job: &PeersJob) -> u8 {
        let alloc = self.host.alloc();
        let found = run_peers(self.host, alloc, job, &mut self.writer, &mut self.errors);
        end_peers(found, self.is_gone.get(), &mut self.errors)
    }

    /// Serves metadata to peers, and returns the exit status.
    #[inline(never)]
    fn serve(&mut self, job: &ServeJob) -> u8
        requires { HasLoopLimit job.now.limit }
    {
        let alloc = self.host.alloc();
        let service = run_serve(self.host, alloc, job, &mut self.writer, &mut self.errors);
        end_serve(service, &mut self.errors)
    }
}
