//! The line of a hint.
ghost use Rattle.std.specs.Prelude.{◌≡◌, IfOk, string_bytes};
ghost use Rattle.bt_run.specs.Hints.{hint_line as line_of, hint_words as words_of, kind_text as text_of};

use crate::hint::finding::Hint;
use crate::hint::kind::Kind;
use std::alloc::{AllocError, Global};

/// Returns what a kind of file is called, and what reads it.
fn kind_text(kind: Kind) -> &'static str
    ensures { result.now ≡ text_of kind }
{
    match kind {
        Kind::Pcap => "a pcap file; this may read it: bt_tool capture FILE",
        Kind::Pcapng => "a pcapng file; this may read it: bt_tool capture FILE",
        Kind::Gzip => "gzip; this may read it: gunzip -c FILE | bt_tool show",
        Kind::Tls => "TLS, which is encrypted",
        Kind::Http => "HTTP, and no connection of peers",
        Kind::Torrent => "a .torrent file, and no stream",
        Kind::Hex => "hex; this may read it: xxd -r -p FILE | bt_tool show",
        Kind::Script => "a script; this may read it: bt_tool pack < FILE | bt_tool show",
        Kind::Lines => "the output of 'show', which nothing reads; 'unpack' keeps all bytes",
    }
}

/// Returns a hint's words.
fn hint_words(alloc: Global, hint: Hint) -> Result<String, AllocError>
    ensures { IfOk result (λ words. string_bytes words ≡ words_of hint) }
{
    match hint {
        Hint::Is(kind) => {
            let text = kind_text(kind);
            format!(in alloc; "the input looks like {text}")
        }
        Hint::Handshake(place) => {
            let from = place.saturating_add(1);
            format!(in alloc;
                "a handshake stands at {place}; this reads from there: tail -c +{from} FILE | bt_tool show"
            )
        }
        Hint::SecondHandshake(place) => format!(in alloc;
            "a second handshake stands at {place}; the input may be two streams, one after the other"
        ),
        Hint::KeepAlives(start, size) => format!(in alloc;
            "from {start} on {size} zero bytes read as keep-alives; a gap may have been filled with them"
        ),
    }
}

/// Returns the line of a hint, with its line feed.
///
/// # Errors
/// `AllocError` when out of memory.
pub fn hint_line(alloc: Global, hint: Hint) -> Result<Vec<u8>, AllocError>
    ensures { IfOk result (λ line. line.items ≡ line_of hint) }
{
    let words = hint_words(alloc, hint)?;
    Ok(format!(in alloc; "hint: {words}\n")?.into_bytes())
}
