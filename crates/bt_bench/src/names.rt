//! A table of the peer's names to which a long or a short `m` is applied. `main` runs it.

use crate::draft::Draft;
use crate::moving::Stopped;
use bt_bencode::check;
use bt_ext::Table;
use std::alloc::Global;

/// An extended handshake whose `m` has `count` names from the one of this number on, each above the one before it.
fn handshake(alloc: Global, first: u32, count: u32) -> Draft {
    let mut payload = Draft::new(alloc);
    payload.put(b"d1:md");
    for number in first..first.saturating_add(count) {
        payload.put(b"8:");
        payload.put_hex(number);
        payload.put(b"i1e");
    }
    payload.put(b"ee");
    payload
}

fn apply(table: &mut Table, payload: &[u8]) -> Result<(), Stopped> {
    match check(payload) {
        Ok((dict, _)) => {
            table.apply_ref(&dict)?;
            Ok(())
        }
        Err(_) => Err(Stopped::Refused),
    }
}

/// What was applied, and how many times the table then knew the last name.
#[derive(Clone, Copy)]
pub struct Applied {
    pub bytes: usize,
    pub known: u32,
}

/// Applies a payload to a copy of a table, and says whether that knows a name then.
fn knows(start: &Table, payload: &[u8], name: &[u8]) -> Result<bool, Stopped> {
    let mut table = start.copy()?;
    apply(&mut table, payload)?;
    Ok(table.id_of(name).is_some())
}

/// Applies a payload in turn to copies of a table, and counts those that know a name then.
fn count(start: &Table, payload: &[u8], name: &[u8], rounds: u32) -> Result<Applied, Stopped> {
    let mut known: u32 = 0;
    for _round in 0..rounds {
        if knows(start, payload, name)? {
            known = known.saturating_add(1);
        }
    }
    Ok(Applied {
        bytes: payload.len(),
        known,
    })
}

/// Applies an `m` of `new` names `rounds` times to a table to which one of `before` names is applied first.
fn apply_to(
    table: &mut Table,
    before: &Draft,
    new: &Draft,
    last: &[u8],
    rounds: u32,
) -> Result<Applied, Stopped> {
    apply(table, before.whole()?)?;
    count(table, new.whole()?, last, rounds)
}

/// Applies an `m` of `new` names `rounds` times to tables of `before` names.
///
/// # Errors
/// `Stopped` when out of memory.
pub fn names(alloc: Global, before: u32, new: u32, rounds: u32) -> Result<Applied, Stopped> {
    let number = before.saturating_add(new).saturating_sub(1);
    let last = hex::encode(alloc, number.to_be_bytes())?;
    let first = handshake(alloc, 0, before);
    let payload = handshake(alloc, before, new);
    let mut table = Table::new(alloc);
    apply_to(&mut table, &first, &payload, last.as_bytes(), rounds)
}
