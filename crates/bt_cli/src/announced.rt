//! What a .torrent says of the trackers of a magnet link (BEP 3, BEP 12).
ghost use Rattle.std.specs.Prelude.{◌≡◌, ◌++◌, OnOk, IfOk, map, string_bytes};
ghost use Rattle.bt_bencode.specs.Bencoding.{ben_string};
ghost use Rattle.bt_cli.specs.Announced.{announced_by, tiers_of};

use itoa::Buffer;
use std::alloc::{AllocError, Global};

/// Appends a bencoded string.
fn push_text(text: &[u8], out: &mut Vec<u8>) -> Result<(), AllocError>
    ensures { OnOk result (out.new.items ≡ out.old.items ++ ben_string text.now) }
{
    out.extend_from_slice(Buffer::new().format(text.len()).as_bytes())?;
    out.push(b':')?;
    out.extend_from_slice(text)?;
    Ok(())
}

/// Appends trackers, each in a tier of its own.
fn push_tiers(trackers: &[String], out: &mut Vec<u8>) -> Result<(), AllocError>
    ensures { OnOk result (out.new.items ≡ out.old.items ++ tiers_of (map string_bytes trackers.now)) }
{
    for tracker in trackers {
        out.push(b'l')?;
        push_text(tracker.as_bytes(), out)?;
        out.push(b'e')?;
    }
    Ok(())
}

/// Returns the pairs of a .torrent that name these trackers: `announce` and `announce-list`; none without a tracker.
///
/// # Errors
/// `AllocError` when out of memory.
pub fn announce_pairs(alloc: Global, trackers: &[String]) -> Result<Vec<u8>, AllocError>
    ensures { IfOk result (λ pairs. pairs.items ≡ announced_by (map string_bytes trackers.now)) }
{
    let mut pairs = Vec::new(alloc);
    if let Some(first) = trackers.first() {
        pairs.extend_from_slice(b"8:announce")?;
        push_text(first.as_bytes(), &mut pairs)?;
        pairs.extend_from_slice(b"13:announce-listl")?;
        push_tiers(trackers, &mut pairs)?;
        pairs.push(b'e')?;
    }
    Ok(pairs)
}
