//! What the `m` of an extended handshake announces (BEP 10), without a table.
ghost use Rattle.std.specs.Prelude.{◌≡◌, ◌++◌, IfOk, IfSome, OnOk, not, if◌then◌else◌, []};
ghost use Rattle.std.specs.List.{list_any};
ghost use Rattle.std.specs.Str.{bytes_eq};
ghost use Rattle.bt_ext.specs.Tables.{told, told_by, told_of};
ghost use Rattle.bt_ext.specs.Holding.{entries_of, names_of, AddsName};

use crate::dict::Dict;
use crate::fields::byte_of;
use bt_bencode::{IntPairs, is_above};
use std::alloc::{AllocError, Allocator};
use std::collections::BTreeSet;

/// Adds a name, and says whether it is new.
pub fn add_name<'a, A: Allocator + Clone>(
    names: &mut BTreeSet<&'a [u8], A>,
    name: &'a [u8],
) -> Result<bool, AllocError>
    ensures new { IfOk result (λ new. new ≡ not (list_any (bytes_eq name.now) (names_of names.old))) }
    ensures adds { OnOk result (AddsName name.now (names_of names.old) (names_of names.new)) }
{
    let new = names.insert(name)?;
    Ok(new)
}

/// Takes a pair: its name, and its value's id, if it is one.
fn tell<'a, A: Allocator + Clone>(
    names: &mut BTreeSet<&'a [u8], A>,
    entries: &mut Vec<(&'a [u8], u8), A>,
    name: &'a [u8],
    id: Option<u8>,
) -> Result<(), AllocError>
    ensures names { OnOk result (AddsName name.now (names_of names.old) (names_of names.new)) }
    ensures entries { OnOk result (entries_of entries.new.items ≡ entries_of entries.old.items
        ++ (if list_any (bytes_eq name.now) (names_of names.old) then [] else told name.now id)) }
{
    let new = add_name(names, name)?;
    match id {
        Some(id) if new => entries.push((name, id))?,
        _ => {}
    }
    Ok(())
}

/// Returns what the pairs announce, in whatever order they are.
///
/// The names are in a tree, so that many pairs stay cheap.
fn told_by<'a, A: Allocator + Copy>(
    alloc: A,
    m: IntPairs<'a>,
) -> Result<Vec<(&'a [u8], u8), A>, AllocError>
    ensures { IfOk result (λ v. entries_of v.items ≡ told_by [] m.entry) }
{
    let mut names = BTreeSet::new(alloc);
    let mut entries = Vec::new(alloc);
    for (name, value) in m {
        tell(&mut names, &mut entries, name, byte_of(value))?;
    }
    Ok(entries)
}

/// Adds the entry of a name that is new, if its value is an id.
fn tell_new<'a, A: Allocator>(
    entries: &mut Vec<(&'a [u8], u8), A>,
    name: &'a [u8],
    id: Option<u8>,
) -> Result<(), AllocError>
    ensures { OnOk result (entries_of entries.new.items ≡ entries_of entries.old.items ++ told name.now id) }
{
    match id {
        Some(new_id) => entries.push((name, new_id))?,
        None => {}
    }
    Ok(())
}

/// Returns what the pairs announce, or `None` if a name isn't above the one before it.
///
/// Sorted keys, as BEP 3 wants them, are distinct, so this needs no set of names.
fn told_rising<'a, A: Allocator + Copy>(
    alloc: A,
    m: IntPairs<'a>,
) -> Result<Option<Vec<(&'a [u8], u8), A>>, AllocError>
    ensures { IfOk result (λ told. IfSome told (λ v. entries_of v.items ≡ told_by [] m.entry)) }
{
    let mut entries = Vec::new(alloc);
    let mut last: Option<&[u8]> = None;
    for (name, value) in m {
        if !is_above(last, name) {
            return Ok(None);
        }
        tell_new(&mut entries, name, byte_of(value))?;
        last = Some(name);
    }
    Ok(Some(entries))
}

/// Returns the names and ids that an extended handshake's dictionary announces.
///
/// They are in the order of their pairs, and of several pairs with one name the first counts.
///
/// # Errors
/// `AllocError` when out of memory.
pub fn told_of<'a, A: Allocator + Copy, D: Dict<'a>>(
    alloc: A,
    dict: D,
) -> Result<Vec<(&'a [u8], u8), A>, AllocError>
    ensures { IfOk result (λ v. entries_of v.items ≡ told_of (D.tree dict)) }
{
    let Some(m) = dict.pairs(b"m") else {
        return Ok(Vec::new(alloc));
    };
    match told_rising(alloc, m)? {
        Some(told) => Ok(told),
        None => match dict.pairs(b"m") {
            Some(m) => told_by(alloc, m),
            None => Ok(Vec::new(alloc)),
        },
    }
}
