//! The command `serve`: what its words ask for, the service, its lines, and the exit status.
ghost use Rattle.std.specs.Prelude.{◌≡◌, ◌++◌, length, IfOk, OnOk, option_map, string_bytes};
ghost use Rattle.std.specs.IoError.{error_kind};
ghost use Rattle.clap.specs.Matches.{found_of};
ghost use Rattle.sha1.specs.Sha1.{sha1};
ghost use Rattle.bt_run.specs.Commands.{HasLoopLimit};
ghost use Rattle.bt_run.specs.Runs.{IsSaid};
ghost use Rattle.bt_serve.specs.Doors.{AreEnough, AreToldOf, AreWithin};
ghost use Rattle.bt_serve.specs.Guests.{IsHospitality};
ghost use Rattle.bt_cli.specs.Services.{IsAnnounced, IsMetadataOf, IsPartingLine, IsPartingSaid, IsServiceEnd};
ghost use Rattle.bt_cli.specs.Services.{ending_word, is_done, read_fault, refused_words, serve_status, serve_words, serving_line};
ghost use Rattle.bt_cli.specs.Wanted.{IsServeAsked, exit_after_in as exit_after_in_by_rule};

use crate::fetch::{DEFAULT_LIMIT, DEFAULT_TIMEOUT, Mistake, number_or, rules_in};
use bt_ext::Rules;
use bt_feed::Target;
use bt_metadata::MAX_METADATA;
use bt_peers::drawn_peer_id;
use bt_run::run::say;
use bt_serve::{
    Door, Ending, Farewell, Hospitality, Parting, TcpDoor, into_info, is_dictionary, listen, serve,
};
use bt_text::ended::{Ended, ToolFault};
use bt_text::lines::{fault_line, verdict_line};
use clap::ArgMatches;
use sha1::Sha1;
use std::alloc::{AllocError, Global};
use std::fs::{self, Files};
use std::io;
use std::net::{Net, SocketAddr};
use std::random::RandomSource;
use std::rc::Rc;
use std::time::Clock;

/// The address that a server listens on by default: a free port of 127.0.0.1.
const DEFAULT_LISTEN: &str = "127.0.0.1:0";

/// The default number of connections that are served at the same time.
const DEFAULT_AT_ONCE: u32 = 64;

/// A service that is asked for.
#[derive(Debug, Drop)]
pub struct ServeJob {
    /// The name of the file: a .torrent, or an info dictionary.
    pub file: String,
    pub listen: SocketAddr,
    pub rules: Rules,
    pub limit: u32,
    pub patience: u64,
    /// After how many connections the service ends; `None` is never.
    pub connections: Option<u64>,
    pub at_once: usize,
}

/// Why a file isn't served.
#[derive(Clone, Copy, PartialEq, Eq, Debug)]
pub enum FileFault {
    /// It isn't a dictionary, or lists and dictionaries nest more than 32 deep.
    NoDictionary,
    /// It is neither a .torrent nor an info dictionary.
    NoInfo,
    /// The info dictionary has more than 67,108,864 bytes.
    TooLong,
}

/// How a service ended.
#[derive(Clone, Copy, PartialEq, Eq, Debug)]
pub enum Service {
    /// As many connections were served as were asked for.
    Done,
    /// The file isn't served.
    RefusedFile(FileFault),
    /// What kept it from its work, as a line of standard error.
    Fault(ToolFault),
    /// It can't listen at the address; standard error has the line already.
    NoListener,
}

/// Returns the number of `--exit-after`.
fn exit_after_in(text: Option<&str>) -> Option<Option<u64>>
    ensures { result ≡ exit_after_in_by_rule (option_map (λ s. s.now) text.entry) }
{
    match text {
        None => Some(None),
        Some(_) => Some(Some(number_or(text, 1, 4_294_967_295, 1)? as u64)),
    }
}

/// Returns the service that the words of the command ask for.
///
/// # Errors
/// The first option or word that has no meaning, or `Memory`.
pub fn serve_asked(alloc: Global, options: &ArgMatches<'_>) -> Result<ServeJob, Mistake>
    ensures limit { IfOk result (λ job. HasLoopLimit job.limit) }
    ensures asked { IfOk result (IsServeAsked (found_of options.now)) }
{
    let Ok(listen) = options
        .get_str("listen")
        .unwrap_or(DEFAULT_LISTEN)
        .parse::<SocketAddr>()
    else {
        return Err(Mistake::Text("'--listen' takes IP:PORT or [IPv6]:PORT"));
    };
    let Some(rules) = rules_in(options.get_str("rules")) else {
        return Err(Mistake::Text("'--rules' takes 'free' or 'bep'"));
    };
    let Some(limit) = number_or(options.get_str("limit"), 32_768, 1_048_576, DEFAULT_LIMIT) else {
        return Err(Mistake::Text("'--limit' takes a number from 32768 to 1048576"));
    };
    let Some(patience) = number_or(options.get_str("timeout"), 1, 86_400, DEFAULT_TIMEOUT) else {
        return Err(Mistake::Text("'--timeout' takes a number from 1 to 86400"));
    };
    let Some(connections) = exit_after_in(options.get_str("exit-after")) else {
        return Err(Mistake::Text("'--exit-after' takes a number from 1 to 4294967295"));
    };
    let Some(at_once) = number_or(options.get_str("max-connections"), 1, 1024, DEFAULT_AT_ONCE)
    else {
        return Err(Mistake::Text("'--max-connections' takes a number from 1 to 1024"));
    };
    Ok(ServeJob {
        file: String::from_str(alloc, options.get_str("FILE").unwrap_or(""))?,
        listen,
        rules,
        limit,
        patience: patience as u64,
        connections,
        at_once: at_once as usize,
    })
}

/// Says on standard output how each connection ended, each line by one write.
#[derive(Drop)]
struct Lines<'a, W: Target> {
    alloc: Global,
    writer: &'a mut W,
}

/// Returns how a connection ended, as the last word of its line. A refusal is written into the array.
fn last_word<'a>(ending: Ending, line: &'a mut [u8; 160]) -> &'a [u8]
    ensures { result.now ≡ ending_word ending }
{
    match ending {
        Ending::Closed | Ending::Unserved => b"closed\n",
        Ending::Silent => b"silent\n",
        Ending::Unasked => b"unasked\n",
        Ending::Refused(refusal) => {
            let place = verdict_line(Ended::Refused(refusal), line);
            &line[place..]
        }
    }
}

/// Returns a connection's line.
fn line_of(alloc: Global, peer: SocketAddr, parting: Parting) -> Result<Vec<u8>, AllocError>
    ensures { IfOk result (λ line. IsPartingLine parting line.items) }
{
    let Parting {
        ending,
        sent,
        handled,
    } = parting;
    let mut text = format!(in alloc; "{peer} sent={sent} handled={handled} ")?.into_bytes();
    let mut line = [0; 160];
    text.extend_from_slice(last_word(ending, &mut line))?;
    Ok(text)
}

/// Says how a connection ended, if there is memory for its line.
fn say_parting<W: Target>(alloc: Global, peer: SocketAddr, parting: Parting, writer: &mut W)
    ensures { IsPartingSaid parting (W.seen writer.old) (W.seen writer.new) }
{
    match line_of(alloc, peer, parting) {
        Ok(line) => say(line.as_slice(), writer),
        Err(_) => say(b"", writer),
    }
}

impl<'a, W: Target> Farewell for Lines<'a, W> {
    fn ended(&mut self, peer: SocketAddr, parting: Parting) {
        say_parting(self.alloc, peer, parting, self.writer);
    }
}

/// Returns the SHA-1 of the metadata.
fn hash_of(metadata: &[u8]) -> [u8; 20]
    ensures { result ≡ sha1 metadata.now }
{
    Sha1::digest(metadata)
}

/// Returns what the error of reading a file says.
fn fault_of(error: &io::Error) -> Service
    ensures { result ≡ Service.Fault (read_fault (error_kind error.now)) }
{
    match error.kind() {
        io::ErrorKind::OutOfMemory => Service::Fault(ToolFault::Memory),
        _ => Service::Fault(ToolFault::Read),
    }
}

/// Returns the metadata of a file: its info dictionary.
///
/// # Errors
/// How the service ends: `RefusedFile` if there is none, or if it has more than 67,108,864 bytes; `Fault(Memory)` when out of
/// memory.
fn metadata_of(alloc: Global, file: Vec<u8>) -> Result<Vec<u8>, Service>
    ensures { IsMetadataOf file.items result }
{
    if !is_dictionary(file.as_slice()) {
        return Err(Service::RefusedFile(FileFault::NoDictionary));
    }
    match into_info(alloc, file) {
        Ok(Some(metadata)) => {
            if metadata.len() > MAX_METADATA {
                return Err(Service::RefusedFile(FileFault::TooLong));
            }
            Ok(metadata)
        }
        Ok(None) => Err(Service::RefusedFile(FileFault::NoInfo)),
        Err(_) => Err(Service::Fault(ToolFault::Memory)),
    }
}

/// Returns the first line: the info hash, the size, and where the server listens.
fn first_line(
    alloc: Global,
    info_hash: &[u8; 20],
    size: usize,
    address: &str,
) -> Result<String, AllocError>
    ensures { IfOk result (λ line. string_bytes line ≡ serving_line info_hash.now size address.now) }
{
    let hash = hex::encode(alloc, info_hash.as_slice())?;
    format!(in alloc; "serving {hash} size={size} on {address}\n")
}

/// Says the first line, by one write.
fn announce<W: Target>(
    alloc: Global,
    info_hash: &[u8; 20],
    size: usize,
    address: SocketAddr,
    writer: &mut W,
) -> Result<(), AllocError>
    ensures { OnOk result (IsAnnounced info_hash.now size (W.seen writer.old) (W.seen writer.new)) }
{
    let address = format!(in alloc; "{address}")?;
    let line = first_line(alloc, info_hash, size, address.as_str())?;
    say(line.as_bytes(), writer);
    Ok(())
}

/// Says that nothing can listen at an address, and why.
fn say_no_listener<E: Target>(
    alloc: Global,
    address: SocketAddr,
    error: &io::Error,
    errors: &mut E,
) {
    match format!(in alloc; "fault: net {address}: {error}\n") {
        Ok(text) => say(text.as_str().as_bytes(), errors),
        Err(_) => say(fault_line(ToolFault::Net), errors),
    }
}

/// Returns how peers are served.
fn hospitality_of(job: &ServeJob, metadata: &[u8], peer_id: [u8; 20]) -> Hospitality
    ensures hash { result.info_hash ≡ sha1 metadata.now }
    ensures peer_id { result.peer_id ≡ peer_id }
    ensures rules { result.rules ≡ job.now.rules }
    ensures limit { result.limit ≡ job.now.limit }
    ensures timeout { result.patience ≡ job.now.patience }
{
    Hospitality {
        info_hash: hash_of(metadata),
        peer_id,
        rules: job.rules,
        limit: job.limit,
        patience: job.patience,
    }
}

/// Returns the door through which as many peers may come at the same time as the job says.
fn door_of<'a, R: Net + Clock, F: Farewell + Drop>(
    rt: &'a R,
    alloc: Global,
    listener: R::Listener,
    farewell: F,
    job: &ServeJob,
) -> TcpDoor<'a, R, F>
    ensures places { ⟦<TcpDoor<'a, R, F> as Door>⟧.places result ≡ job.now.at_once }
    ensures inside { ⟦<TcpDoor<'a, R, F> as Door>⟧.inside result ≡ 0 }
{
    TcpDoor::sleeping(rt, alloc, listener, farewell, job.at_once)
}

/// Serves as many peers of a door as the job says.
fn serve_through<D: Door>(
    alloc: Global,
    job: &ServeJob,
    hospitality: &Hospitality,
    metadata: &Rc<Vec<u8>>,
    door: &mut D,
) -> Service
    requires { IsHospitality hospitality.now }
    ensures end { IsServiceEnd result }
    ensures told { AreToldOf (D.told door.old) (D.told door.new) (is_done result) }
    ensures enough { result ≡ Service.Done → AreEnough job.now.connections (D.told door.old) (D.told door.new) (D.rounds door.new) }
    ensures within { AreWithin job.now.connections (D.told door.old) (D.told door.new) 0 }
{
    match serve(alloc, hospitality, metadata, job.connections, door) {
        Ok(()) => Service::Done,
        Err(_) => Service::Fault(ToolFault::Memory),
    }
}

/// Serves metadata over TCP; prints on `writer` the address, and how each connection ended.
fn serve_over_tcp<R: Net + Clock + RandomSource, W: Target, E: Target>(
    rt: &R,
    alloc: Global,
    job: &ServeJob,
    metadata: &Rc<Vec<u8>>,
    writer: &mut W,
    errors: &mut E,
) -> Service
    requires { HasLoopLimit job.now.limit }
{
    let bytes = Rc::as_ref(metadata).as_slice();
    let hospitality = hospitality_of(job, bytes, drawn_peer_id(rt));
    let (listener, address) = match listen(rt, job.listen) {
        Ok(opened) => opened,
        Err(error) => {
            say_no_listener(alloc, job.listen, &error, errors);
            return Service::NoListener;
        }
    };
    if announce(alloc, &hospitality.info_hash, bytes.len(), address, writer).is_err() {
        return Service::Fault(ToolFault::Memory);
    }
    let mut door = door_of(rt, alloc, listener, Lines { alloc, writer }, job);
    serve_through(alloc, job, &hospitality, metadata, &mut door)
}

/// Serves the metadata of a file over TCP.
pub fn run_serve<R: Net + Clock + RandomSource + Files + AllocGlobal, W: Target, E: Target>(
    rt: &R,
    alloc: Global,
    job: &ServeJob,
    writer: &mut W,
    errors: &mut E,
) -> Service
    requires { HasLoopLimit job.now.limit }
{
    let file = match fs::read(rt, job.file.as_str()) {
        Ok(bytes) => bytes,
        Err(error) => return fault_of(&error),
    };
    let metadata = match metadata_of(alloc, file) {
        Ok(metadata) => metadata,
        Err(service) => return service,
    };
    match Rc::new(alloc, metadata) {
        Ok(shared) => serve_over_tcp(rt, alloc, job, &shared, writer, errors),
        Err(_) => Service::Fault(ToolFault::Memory),
    }
}

/// Returns the line that says why a file isn't served.
fn refused_line(fault: FileFault) -> &'static [u8]
    ensures { result.now ≡ refused_words fault }
{
    match fault {
        FileFault::NoDictionary =>
            b"refused file: not one bencoded dictionary that nests at most 32 deep\n",
        FileFault::NoInfo =>
            b"refused file: no dictionary under 'info' and no number under 'piece length'\n",
        FileFault::TooLong => b"refused file: info dictionary of more than 67108864 bytes\n",
    }
}

/// Says why a service didn't do its work, and returns the exit status.
///
/// Nothing is printed if it did.
pub fn end_serve<E: Target>(service: Service, errors: &mut E) -> u8
    ensures said { IsSaid (serve_words service) (E.seen errors.old) (E.seen errors.new) }
    ensures status { result ≡ serve_status service }
{
    match service {
        Service::Done => {
            say(b"", errors);
            0
        }
        Service::NoListener => {
            say(b"", errors);
            3
        }
        Service::RefusedFile(fault) => {
            say(refused_line(fault), errors);
            1
        }
        Service::Fault(fault) => {
            say(fault_line(fault), errors);
            3
        }
    }
}
