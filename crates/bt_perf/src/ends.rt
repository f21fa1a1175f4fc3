//! Ends of many connections, which serve metadata or fetch it, from honest peers and hostile ones.
//!
//! A function that owns an end makes it and passes it on, and does nothing more: the drops of an end on many ways out are what
//! takes long to prove.
ghost use Rattle.std.specs.Prelude.{◌≤◌, length, IfOk};

use crate::digest::Digest;
use crate::draft::Draft;
use crate::draw::Draw;
use crate::peers::{
    BLOCK, GREATEST, NAMES, great_seed, hellos, leecher, nuisance, opening, renamings, seed,
};
use crate::receivers::{Receiver, receiver_of};
use crate::stopped::Stopped;
use bt_bencode::check;
use bt_end::{Announce, Config, End, EndError, Role, Turn, TurnError, Window};
use bt_ext::{ExtId, Rules, Table};
use sha1::Sha1;
use std::alloc::Global;

/// From how many waiting bytes on they are taken from an end.
const PORTION: usize = 65_536;

/// Handles the item that the end holds if it is whole, and counts it.
fn turn(end: &mut End, digest: &mut Digest) -> Result<(), Stopped> {
    match end.turn() {
        Ok(Turn::Handled) => {
            digest.count(1);
            Ok(())
        }
        Ok(Turn::Idle) => Ok(()),
        Err(TurnError::Refused(refusal)) => Err(Stopped::Refused(refusal)),
        Err(TurnError::Busy) => Err(Stopped::Device),
        Err(TurnError::Memory) => Err(Stopped::Memory),
    }
}

/// Takes what waits to be sent.
fn empty(end: &mut End, digest: &mut Digest) {
    digest.add_bytes(end.outgoing());
    let waiting = end.outgoing().len();
    end.sent(waiting);
}

/// Takes bytes up to the end of the end's present item, handles it if it is whole, and says how many were taken.
fn step(end: &mut End, bytes: &[u8], digest: &mut Digest) -> Result<usize, Stopped>
    ensures { IfOk result (λ n. n ≤ length bytes.now) }
{
    let taken = end.receive(bytes);
    turn(end, digest)?;
    if end.outgoing().len() >= PORTION {
        empty(end, digest);
    }
    Ok(taken)
}

/// Brings all the bytes to an end, and takes what it sends.
fn bring(end: &mut End, bytes: &[u8], digest: &mut Digest) -> Result<(), Stopped> {
    let mut rest = bytes;
    for _item in 0..=bytes.len() {
        if rest.is_empty() {
            empty(end, digest);
            return Ok(());
        }
        let taken = step(end, rest, digest)?;
        if taken == 0 {
            return Err(Stopped::Device);
        }
        rest = &rest[taken..];
    }
    Ok(())
}

/// Makes an end in this role, under the strict rules or the lenient ones.
fn made(alloc: Global, hash: [u8; 20], rules: Rules, role: Role) -> Result<End, Stopped> {
    let mut own = receiver_of(rules, Receiver::Plain);
    own.info_hash = Some(hash);
    let config = Config {
        own,
        peer_id: *b"-BT0001-EEEEEEEEEEEE",
        announce: Announce::Silent,
        window: Window::default(),
        role,
    };
    match End::new(alloc, config) {
        Ok(end) => Ok(end),
        Err(EndError::Memory) => Err(Stopped::Memory),
        Err(_) => Err(Stopped::Unmade),
    }
}

/// Returns an id as a number, 0 if there is none.
fn number(id: Option<ExtId>) -> u64 {
    match id {
        Some(id) => u64::from(id.get()),
        None => 0,
    }
}

/// Adds the metadata that an end has, and the ids under which the peer wants metadata messages and `lt_donthave`.
fn add_known(end: &End, digest: &mut Digest) {
    match end.metadata() {
        Some(metadata) => digest.add_bytes(metadata),
        None => digest.add(0),
    }
    let reg = end.belief().reg;
    digest.add(number(reg.metadata()));
    digest.add(number(reg.donthave()));
}

/// Brings two parts of what a peer sends.
fn bring_both(
    end: &mut End,
    first: &Draft,
    second: &Draft,
    digest: &mut Digest,
) -> Result<(), Stopped> {
    bring(end, first.whole()?, digest)?;
    bring(end, second.whole()?, digest)?;
    add_known(end, digest);
    Ok(())
}

/// A new end that is brought two parts of what a peer sends.
fn run(
    alloc: Global,
    hash: [u8; 20],
    rules: Rules,
    role: Role,
    first: &Draft,
    second: &Draft,
    digest: &mut Digest,
) -> Result<(), Stopped> {
    let mut end = made(alloc, hash, rules, role)?;
    bring_both(&mut end, first, second, digest)
}

/// The rules of a connection.
fn rules(draw: &mut Draw) -> Rules {
    match draw.below(2) {
        0 => Rules::Free,
        _ => Rules::Bep,
    }
}

/// Returns drawn metadata.
fn metadata(alloc: Global, size: u32, draw: &mut Draw) -> Draft {
    let mut bytes = Draft::new(alloc);
    bytes.put_drawn(size, draw);
    bytes
}

/// Serves metadata of two blocks to a peer.
fn serve_one(
    alloc: Global,
    served: &[u8],
    hash: [u8; 20],
    draw: &mut Draw,
    digest: &mut Digest,
) -> Result<(), Stopped> {
    let first = opening(alloc, &hash, 0, draw);
    let second = leecher(alloc, draw);
    let role = Role::Serve(served.to_vec(alloc)?);
    run(alloc, hash, rules(draw), role, &first, &second, digest)
}

/// Serves metadata of two blocks to `count` peers, one after the other.
fn serve(alloc: Global, count: u32, draw: &mut Draw, digest: &mut Digest) -> Result<(), Stopped> {
    let size = 16_385 + draw.below(16_000);
    let served = metadata(alloc, size, draw);
    let served = served.whole()?;
    let hash = Sha1::digest(served);
    for _peer in 0..count {
        serve_one(alloc, served, hash, draw, digest)?;
    }
    Ok(())
}

/// Fetches metadata from `count` peers that send this after their openings, one after the other.
fn fetch(
    alloc: Global,
    hash: [u8; 20],
    size: u32,
    blocks: &Draft,
    count: u32,
    draw: &mut Draw,
    digest: &mut Digest,
) -> Result<(), Stopped> {
    for _peer in 0..count {
        let first = opening(alloc, &hash, size, draw);
        let rules = rules(draw);
        run(alloc, hash, rules, Role::Fetch, &first, blocks, digest)?;
    }
    Ok(())
}

/// Fetches metadata of 31,000 bytes from 20 honest peers, and metadata of the greatest size from one that sends 400 messages
/// that are no help.
fn fetch_all(alloc: Global, draw: &mut Draw, digest: &mut Digest) -> Result<(), Stopped> {
    let wanted = metadata(alloc, 31_000, draw);
    let wanted = wanted.whole()?;
    let blocks = seed(alloc, wanted, 31_000);
    fetch(
        alloc,
        Sha1::digest(wanted),
        31_000,
        &blocks,
        20,
        draw,
        digest,
    )?;
    let messages = nuisance(alloc, 400, draw);
    fetch(alloc, [8; 20], GREATEST, &messages, 1, draw, digest)
}

/// Fetches from a peer that announces the greatest size and goes away after `count` blocks.
fn fetch_much(
    alloc: Global,
    count: u32,
    draw: &mut Draw,
    digest: &mut Digest,
) -> Result<(), Stopped> {
    let block = metadata(alloc, BLOCK as u32, draw);
    let blocks = great_seed(alloc, count, &block);
    fetch(alloc, [7; 20], GREATEST, &blocks, 1, draw, digest)
}

/// Adds the ids that a table of a peer's names has after it heard these dictionaries.
fn look_up(alloc: Global, dicts: &[Draft], first: u32, digest: &mut Digest) -> Result<(), Stopped> {
    let mut table = Table::new(alloc);
    for dict in dicts {
        match check(dict.whole()?) {
            Ok((dict, _)) => table.apply_ref(&dict)?,
            Err(_) => return Err(Stopped::Unmade),
        }
    }
    for k in 0..NAMES {
        let name = hex::encode(alloc, first.wrapping_add(k).to_be_bytes())?;
        digest.add(u64::from(table.id_of(name.as_bytes()).unwrap_or(0)));
    }
    Ok(())
}

/// Hears a peer that announces `count` names, and then `changes` times 1 to 4 of them and of others, in an end and in a table.
fn hear(
    alloc: Global,
    count: u32,
    changes: u32,
    draw: &mut Draw,
    digest: &mut Digest,
) -> Result<(), Stopped> {
    let name = draw.next();
    let dicts = renamings(alloc, name, count, changes, draw)?;
    let begin = opening(alloc, &[9; 20], 0, draw);
    let messages = hellos(alloc, &dicts);
    run(
        alloc,
        [9; 20],
        Rules::Free,
        Role::Watch,
        &begin,
        &messages,
        digest,
    )?;
    look_up(alloc, &dicts, name, digest)
}

/// Serves, fetches and hears, `rounds` times; and fetches from a peer that goes away.
///
/// # Errors
/// `Stopped` if an end refuses or can't be made, or when out of memory.
pub fn ends(
    alloc: Global,
    rounds: u32,
    draw: &mut Draw,
    digest: &mut Digest,
) -> Result<(), Stopped> {
    for _round in 0..rounds {
        for _torrent in 0..8 {
            serve(alloc, 25, draw, digest)?;
        }
        fetch_all(alloc, draw, digest)?;
        hear(alloc, 256, 100, draw, digest)?;
        hear(alloc, 10_000, 0, draw, digest)?;
    }
    fetch_much(alloc, rounds.saturating_mul(60).min(4_095), draw, digest)
}
