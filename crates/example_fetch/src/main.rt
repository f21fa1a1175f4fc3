//! Fetches the metadata of a torrent from a peer: an end of a connection, driven over any source and target.
//!
//!     example_fetch < STREAM
//!     example_fetch INFO-HASH 192.0.2.9:6881
//!
//! The first reads what a peer sent to a fetching end on standard input. The second connects to a peer. Either writes
//! the metadata, whose SHA-1 is the info hash.
#![tactic(auto)]

use bt_end::{Announce, Config, End, Event, Role, Window};
use bt_ext::{ExtId, Registered, Rules};
use bt_feed::{Host, MemTarget, PeerError, Source, Target};
use bt_wire::{Own, Reserved};
use hex::FromHex;
use std::alloc::Global;
use std::io::Write;
use std::net::TcpStream;
use std::process::ExitCode;
use std::{env, io};

/// The SHA-1 of the metadata that is fetched from standard input: that of `abc` (FIPS 180-4).
const INFO_HASH: [u8; 20] = *b"\xa9\x99>6G\x06\x81j\xba>%qxP\xc2l\x9c\xd0\xd8\x9d";

/// An end that fetches the metadata with this SHA-1.
fn fetching(alloc: Global, info_hash: [u8; 20]) -> Result<End, PeerError> {
    let own = Own {
        reserved: Reserved(Reserved::FAST.0 | Reserved::EXT.0),
        info_hash: Some(info_hash),
        pieces: None,
        reg: Registered::metadata_only(ExtId::new(3)),
        rules: Rules::Free,
        limit: 32_768,
    };
    let config = Config {
        own,
        peer_id: *b"-XX0001-fetchfetchfe",
        announce: Announce::Nothing,
        window: Window::default(),
        role: Role::Fetch,
    };
    Ok(End::new(alloc, config)?)
}

/// Gives an end bytes of its peer, and says whether the metadata can still come.
fn hear(rt: &HostRuntime, end: &mut End, bytes: &[u8]) -> Result<bool, PeerError> {
    let mut rest = bytes;
    for _ in bytes {
        let count = end.receive(rest);
        rest = &rest[count..];
        let event = match end.next()? {
            Some(heard) => heard.event,
            None => break,
        };
        match event {
            Event::Block(index) => eprintln!(rt; "block {index}")?,
            Event::Opened(_) | Event::Rejected(_) if end.is_hopeless() => return Ok(false),
            Event::Fetched => return Ok(false),
            _ => {}
        }
    }
    Ok(true)
}

/// Fetches the metadata with this SHA-1 and writes it, and returns whether it did.
fn fetch<R: Source, W: Target>(
    rt: &HostRuntime,
    info_hash: [u8; 20],
    reader: &mut R,
    writer: &mut W,
) -> Result<bool, PeerError> {
    let mut end = fetching(rt.alloc(), info_hash)?;
    let mut buffer = [0; 4096];
    for _ in 0..u64::MAX {
        let waiting = end.outgoing().len();
        end.drain(writer, waiting)?;
        let count = reader.read(&mut buffer)?;
        if count == 0 || !hear(rt, &mut end, &buffer[..count])? {
            break;
        }
    }
    match end.metadata() {
        Some(metadata) => Ok(io::writer(rt).write_all(metadata).is_ok()),
        None => Ok(false),
    }
}

/// Fetches it from the peer at this address. The hash is 40 hex digits.
fn fetch_from(rt: &HostRuntime, hash: &str, address: &str) -> Result<bool, PeerError> {
    let Ok(info_hash) = <[u8; 20] as FromHex>::from_hex(hash) else {
        return Err(PeerError::BadConfig);
    };
    let stream = TcpStream::connect(rt, address)?;
    fetch(
        rt,
        info_hash,
        &mut Host::new(&stream),
        &mut Host::new(&stream),
    )
}

/// Fetches over a connection to a peer, or from standard input.
fn run(rt: &HostRuntime) -> Result<bool, PeerError> {
    let mut words = env::args(rt)?.skip(1);
    match (words.next(), words.next()) {
        (Some(hash), Some(address)) => fetch_from(rt, hash.as_str(), address.as_str()),
        _ => {
            let mut kept = MemTarget::new(Vec::new(rt.alloc()), 4096, None);
            fetch(rt, INFO_HASH, &mut Host::new(rt.reader()), &mut kept)
        }
    }
}

fn main(rt: HostRuntime) -> ExitCode {
    match run(&rt) {
        Ok(true) => ExitCode::from(0),
        Ok(false) => ExitCode::from(1),
        Err(error) => {
            let _ = eprintln!(&rt; "{error}");
            ExitCode::from(1)
        }
    }
}
