//! Talks to a peer: prints each item that comes, answers it, and prints each message that is sent.
//!
//!     example_peek < STREAM
//!     example_peek 192.0.2.9:6881
//!
//! The first reads what a peer sends on standard input, and keeps its answers. The second connects to a peer.
#![tactic(auto)]

mod sender;

use crate::sender::Sender;
use bt_ext::{Ext, ExtId, Registered, Rules, kind};
use bt_feed::{Feed, Host, MemTarget, PeerError, Source, Target};
use bt_text::shown::shown;
use bt_wire::{Item, Message, Own, Reserved};
use std::env;
use std::net::TcpStream;
use std::process::ExitCode;

/// How this program receives: what it has, what it takes, and the id under which it wants metadata messages.
fn own() -> Own {
    Own {
        reserved: Reserved(Reserved::FAST.0 | Reserved::EXT.0),
        info_hash: Some(*b"\xa9\x99>6G\x06\x81j\xba>%qxP\xc2l\x9c\xd0\xd8\x9d"),
        pieces: Some(1),
        reg: Registered::metadata_only(ExtId::new(3)),
        rules: Rules::Free,
        limit: 32_768,
    }
}

/// Prints an item of the peer's, which begins at the offset `at`, and answers it.
fn answer(rt: &HostRuntime, sender: &mut Sender, at: u64, item: &Item) -> Result<(), PeerError> {
    let _ = println!(rt; "< {at} {}", shown(item));
    match item {
        Item::Handshake(theirs) => sender.greet(rt, theirs),
        Item::Message(Message::Interested) => sender.send(rt, &Message::Unchoke),
        Item::Message(
            Message::Request {
                index,
                begin,
                length,
            },
        ) => sender.serve(rt, *index, *begin, *length),
        Item::Message(Message::Extended(Ext::Handshake { dict, .. })) => sender.learn(dict),
        Item::Message(Message::Extended(Ext::Metadata { dict, .. })) => {
            sender.refuse(rt, kind(dict))
        }
        Item::Message(_) => Ok(()),
    }
}

/// Answers each item that ends with one of these bytes.
fn answer_all(
    rt: &HostRuntime,
    feed: &mut Feed,
    sender: &mut Sender,
    bytes: &[u8],
) -> Result<(), PeerError> {
    for item in feed.items(rt.alloc(), bytes) {
        let (at, item) = item?;
        answer(rt, sender, at, &item)?;
    }
    Ok(())
}

/// Talks to a peer until it closes the connection, and returns how many bytes it sent.
fn converse<R: Source, W: Target>(
    rt: &HostRuntime,
    feed: &mut Feed,
    sender: &mut Sender,
    reader: &mut R,
    writer: &mut W,
) -> Result<u64, PeerError> {
    sender.begin(*b"-XX0001-peekpeekpeek")?;
    let mut buffer = [0; 4096];
    for _ in 0..u64::MAX {
        sender.flush(writer)?;
        let count = reader.read(&mut buffer)?;
        if count == 0 {
            break;
        }
        answer_all(rt, feed, sender, &buffer[..count])?;
    }
    Ok(feed.finish()?)
}

/// Makes a feed and a sender, and talks to a peer with them.
fn talk<R: Source, W: Target>(
    rt: &HostRuntime,
    reader: &mut R,
    writer: &mut W,
) -> Result<(), PeerError> {
    let mut feed = Feed::new(rt.alloc(), own())?;
    let mut sender = Sender::new(rt.alloc(), own());
    let bytes = converse(rt, &mut feed, &mut sender, reader, writer)?;
    let _ = println!(rt; "{bytes} bytes");
    Ok(())
}

/// Talks to the peer at the first word's address, or reads standard input.
fn run(rt: &HostRuntime) -> Result<(), PeerError> {
    match env::args(rt)?.nth(1) {
        Some(address) => {
            let stream = TcpStream::connect(rt, address.as_str())?;
            talk(rt, &mut Host::new(&stream), &mut Host::new(&stream))
        }
        None => {
            let mut kept = MemTarget::new(Vec::new(rt.alloc()), 4096, None);
            talk(rt, &mut Host::new(rt.reader()), &mut kept)
        }
    }
}

fn main(rt: HostRuntime) -> ExitCode {
    match run(&rt) {
        Ok(()) => ExitCode::from(0),
        Err(error) => {
            let _ = eprintln!(&rt; "{error}");
            ExitCode::from(1)
        }
    }
}
