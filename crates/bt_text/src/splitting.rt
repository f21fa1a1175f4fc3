//! The lines of a text, which line feeds end.
ghost use Rattle.std.specs.Prelude.{◌<◌, ◌≤◌, length, option_map, IfSome};
ghost use Rattle.bt_text.specs.Splitting.{IsCut};

use memchr::memchr;

/// Returns the text's first line, and what follows its line feed.
///
/// `None` if the text has no line feed.
#[tactic(auto, using(crate::proofs::FirstLine::cut_none))]
pub fn split_line(text: &[u8]) -> Option<(&[u8], &[u8])>
    ensures cut { IsCut text.now (option_map (λ p. (p.0.now, p.1.now)) result) }
    ensures shorter { IfSome result (λ p. length p.1.now < length text.now) }
    ensures short { IfSome result (λ p. length p.0.now ≤ length text.now) }
{
    let end = memchr(b'\n', text)?;
    Some((&text[..end], &text[end + 1..]))
}
