//! A list of peers: one a line. `bt_cli` calls it.
ghost use Rattle.std.specs.Prelude.{◌≡◌, ◌<◌, ◌++◌, ◌∷◌, [], All, IfErr, IfOk, false, length, map, string_bytes, true};
ghost use Rattle.std.specs.Str.Lines.{lines};
ghost use Rattle.bt_magnet.specs.Lists.{IsRefused, entries_of, entry_of};
ghost use Rattle.bt_magnet.specs.Peers.{IsPeer};

use crate::peer::{add_peer, is_peer};
use std::alloc::{AllocError, Global};
use thiserror::Error;

/// Why a text is no list of peers.
#[derive(Clone, Copy, PartialEq, Eq, Debug, Error)]
pub enum ListError {
    /// The line with this number, counted from 1, names no peer.
    #[error("line {0} names no peer")]
    Line(usize),
    #[error("out of memory")]
    Memory,
}

impl From<AllocError> for ListError {
    ghost use Rattle.bt_magnet.specs.declared.list.ListError.TheVariants.{Memory};
    ghost use Rattle.std.specs.Prelude.{◌≡◌};

    ghost from_gives = { λ _ e. e ≡ Memory };

    fn from(_: AllocError) -> ListError {
        ListError::Memory
    }
}

/// Returns what a line has before `#`, without the spaces around it.
fn entry(line: &str) -> &str
    ensures { result.now ≡ entry_of line.now }
{
    match line.split_once('#') {
        Some((front, _)) => front.trim(),
        None => line.trim(),
    }
}

/// Returns the lines of a text.
fn lines_of(alloc: Global, text: &str) -> Result<Vec<&str>, AllocError>
    ensures { IfOk result (λ v. map (λ s. s.now) v.items ≡ lines text.now) }
{
    text.lines().collect(alloc)
}

/// Adds the peer that a line names, if it isn't blank; returns whether it is blank or names one.
fn add_entry(alloc: Global, line: &str, peers: &mut Vec<String>) -> Result<bool, AllocError>
    ensures added { IfOk result (λ ok. ok ≡ true → map string_bytes peers.new.items ≡ map string_bytes peers.old.items ++ entries_of (line.now ∷ [])) }
    ensures peer { IfOk result (λ ok. ok ≡ true → All IsPeer (entries_of (line.now ∷ []))) }
    ensures none { IfOk result (λ ok. ok ≡ false → (¬ (IsPeer (entry_of line.now))) × (0 < length (entry_of line.now))) }
{
    let entry = entry(line);
    if entry.is_empty() {
        return Ok(true);
    }
    if !is_peer(entry) {
        return Ok(false);
    }
    add_peer(alloc, entry, peers)?;
    Ok(true)
}

/// Returns the peers that lines name.
fn read_lines(alloc: Global, lines: &[&str]) -> Result<Vec<String>, ListError>
    ensures value { IfOk result (λ peers. map string_bytes peers.items ≡ entries_of (map (λ s. s.now) lines.now)) }
    ensures peers { IfOk result (λ peers. All IsPeer (map string_bytes peers.items)) }
    ensures error { IfErr result (IsRefused (map (λ s. s.now) lines.now)) }
{
    let mut peers = Vec::new(alloc);
    let mut number = 0usize;
    for line in lines {
        number += 1;
        if !add_entry(alloc, line, &mut peers)? {
            return Err(ListError::Line(number));
        }
    }
    Ok(peers)
}

/// Returns the peers that the lines of a text name.
///
/// What follows `#` in a line is a comment. Blank lines are passed over.
///
/// # Errors
/// `Line` with the number of a line that has a text and names no peer, or `Memory`.
pub fn read_list(alloc: Global, text: &str) -> Result<Vec<String>, ListError>
    ensures value { IfOk result (λ peers. map string_bytes peers.items ≡ entries_of (lines text.now)) }
    ensures peers { IfOk result (λ peers. All IsPeer (map string_bytes peers.items)) }
    ensures error { IfErr result (IsRefused (lines text.now)) }
{
    let lines = lines_of(alloc, text)?;
    read_lines(alloc, lines.as_slice())
}
