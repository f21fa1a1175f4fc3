//! What `capture` says of packets that are not read.
ghost use Rattle.std.specs.Prelude.{◌≡◌, IfOk, string_bytes};
ghost use Rattle.bt_cli.specs.Unread.{ether_type_words, ether_words, kinds_words, link_type_words, link_words, so_many_unread, unread_sum, unread_words};

use bt_capture::{Tally, UnreadPackets};
use std::alloc::{AllocError, Global};

/// Returns the line on so many packets that aren't read, and nothing if there are none.
fn unread_line(alloc: Global, what: &str, count: u64) -> Result<String, AllocError>
    ensures { IfOk result (λ line. string_bytes line ≡ so_many_unread what.now count) }
{
    if count == 0 {
        return Ok(String::new(alloc));
    }
    format!(in alloc; "{what} not read: {count} of the packets\n")
}

/// Returns what is said of a link type.
fn link_type(alloc: Global, kind: Option<u32>) -> Result<String, AllocError>
    ensures { IfOk result (λ line. string_bytes line ≡ link_type_words kind) }
{
    match kind {
        Some(kind) => format!(in alloc; "link type {kind} is"),
        None => Ok(String::new(alloc)),
    }
}

/// Returns what is said of a type of Ethernet.
fn ether_type(alloc: Global, kind: Option<u32>) -> Result<String, AllocError>
    ensures { IfOk result (λ line. string_bytes line ≡ ether_type_words kind) }
{
    match kind {
        Some(kind) => format!(in alloc; "type 0x{kind:x} of Ethernet is"),
        None => Ok(String::new(alloc)),
    }
}

/// Returns the lines on packets of the first kind and of the others.
fn kinds_lines(
    alloc: Global,
    first: &str,
    others: &str,
    tally: &Tally,
) -> Result<String, AllocError>
    ensures { IfOk result (λ lines. string_bytes lines ≡ kinds_words first.now others.now tally.now) }
{
    let first = unread_line(alloc, first, tally.count)?;
    let others = unread_line(alloc, others, tally.others)?;
    format!(in alloc; "{first}{others}")
}

/// Returns the lines on packets of link types that aren't read.
fn link_lines(alloc: Global, tally: &Tally) -> Result<String, AllocError>
    ensures { IfOk result (λ lines. string_bytes lines ≡ link_words tally.now) }
{
    let first = link_type(alloc, tally.kind)?;
    kinds_lines(alloc, &first, "other link types are", tally)
}

/// Returns the lines on frames of Ethernet of types that aren't read.
fn ether_lines(alloc: Global, tally: &Tally) -> Result<String, AllocError>
    ensures { IfOk result (λ lines. string_bytes lines ≡ ether_words tally.now) }
{
    let first = ether_type(alloc, tally.kind)?;
    kinds_lines(alloc, &first, "other types of Ethernet are", tally)
}

/// Returns how many packets aren't read.
pub(crate) fn count_unread(packets: &UnreadPackets) -> u64
    ensures { result ≡ unread_sum packets.now }
{
    let links = packets
        .link_types
        .count
        .saturating_add(packets.link_types.others);
    let types = packets
        .ether_types
        .count
        .saturating_add(packets.ether_types.others);
    links
        .saturating_add(types)
        .saturating_add(packets.fragments)
}

/// Returns the lines on packets that aren't read.
pub(crate) fn unread_lines(alloc: Global, packets: &UnreadPackets) -> Result<String, AllocError>
    ensures { IfOk result (λ lines. string_bytes lines ≡ unread_words packets.now) }
{
    let links = link_lines(alloc, &packets.link_types)?;
    let types = ether_lines(alloc, &packets.ether_types)?;
    let fragments = unread_line(alloc, "fragments are", packets.fragments)?;
    format!(in alloc; "{links}{types}{fragments}")
}
