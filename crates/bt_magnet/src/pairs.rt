//! The keys and values of a link's query. The module `link` calls it.
ghost use Rattle.std.specs.Prelude.{◌≡◌, IfOk, map};
ghost use Rattle.percent_encoding.specs.Percent.{percent_decode as percent_decode_by_rule};
ghost use Rattle.bt_magnet.specs.Links.{pair_of, pairs_of};

use form_urlencoded::raw_pairs;
use percent_encoding::percent_decode;
use std::alloc::{AllocError, Global};

/// A key and its value, decoded.
#[derive(Debug, Drop)]
pub struct Pair {
    pub key: Vec<u8>,
    pub value: Vec<u8>,
    /// Where the value begins in the query.
    pub place: usize,
}

/// Returns the bytes that percent-encoded ones stand for.
fn decoded(alloc: Global, bytes: &[u8]) -> Result<Vec<u8>, AllocError>
    ensures { IfOk result (λ v. v.items ≡ percent_decode_by_rule bytes.now) }
{
    let mut decoded = Vec::new(alloc);
    percent_decode(bytes).append_to(&mut decoded)?;
    Ok(decoded)
}

/// Returns the place of the first byte from `from` on that is no `&`.
fn skip_separators(query: &[u8], from: usize) -> usize {
    match query.get(from..) {
        Some(rest) => match rest.iter().position(|byte| *byte != b'&') {
            Some(count) => from.saturating_add(count),
            None => query.len(),
        },
        None => query.len(),
    }
}

/// Returns the keys of a query with their values, in order.
///
/// # Errors
/// `AllocError` when out of memory.
pub fn pairs(alloc: Global, query: &[u8]) -> Result<Vec<Pair>, AllocError>
    ensures { IfOk result (λ v. map pair_of v.items ≡ pairs_of query.now) }
{
    let mut pairs = Vec::new(alloc);
    let mut end = 0usize;
    for (key, value) in raw_pairs(query) {
        let begin = skip_separators(query, end);
        let place = begin.saturating_add(key.len()).saturating_add(1);
        end = place.saturating_add(value.len());
        let pair = Pair {
            key: decoded(alloc, key)?,
            value: decoded(alloc, value)?,
            place,
        };
        pairs.push(pair)?;
    }
    Ok(pairs)
}
