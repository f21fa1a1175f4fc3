//! The last line of a search.
ghost use Rattle.std.specs.Prelude.{◌≡◌, IfOk, string_bytes};
ghost use Rattle.bt_finding.specs.Summaries.{passed_words, plural as plural_of, so_many as so_many_by, summary_words};

use std::alloc::{AllocError, Global};

/// What a search has done.
#[derive(Clone, Copy, PartialEq, Eq, Debug)]
pub struct Counts {
    /// How many trackers were asked.
    pub trackers: usize,
    /// How many nodes of the DHT were asked.
    pub nodes: usize,
    /// How many private addresses were passed over: of told peers, and of trackers of a link.
    pub private: usize,
}

/// Returns what a word for so many things ends with.
fn plural(count: usize) -> &'static str
    ensures { result.now ≡ plural_of count }
{
    if count == 1 { "" } else { "s" }
}

/// Returns a number and what is counted.
fn so_many(alloc: Global, count: usize, word: &str) -> Result<String, AllocError>
    ensures { IfOk result (λ text. string_bytes text ≡ so_many_by count word.now) }
{
    let end = plural(count);
    format!(in alloc; "{count} {word}{end}")
}

/// Returns what is said of private addresses.
fn passed_text(alloc: Global, private: usize) -> Result<String, AllocError>
    ensures { IfOk result (λ text. string_bytes text ≡ passed_words private) }
{
    match private {
        0 => Ok(String::new(alloc)),
        1 => String::from_str(alloc, "; 1 private address passed over (--local)"),
        _ => format!(in alloc; "; {private} private addresses passed over (--local)"),
    }
}

/// Returns the last line of a search that has found so many peers.
///
/// # Errors
/// `AllocError` when out of memory.
pub fn summary_line(alloc: Global, counts: &Counts, found: usize) -> Result<String, AllocError>
    ensures { IfOk result (λ text. string_bytes text ≡ summary_words counts.now found) }
{
    let trackers = so_many(alloc, counts.trackers, "tracker")?;
    let nodes = so_many(alloc, counts.nodes, "node")?;
    let peers = so_many(alloc, found, "peer")?;
    let passed = passed_text(alloc, counts.private)?;
    format!(in alloc; "asked {trackers}, {nodes}; {peers}{passed}\n")
}
