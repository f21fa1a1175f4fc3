//! Text as it stands between the quotes of a JSON string (RFC 8259, section 7).
ghost use Rattle.std.specs.Prelude.{◌≡◌, [], ◌∷◌, option_map};
ghost use Rattle.std.specs.Fmt.{HasWritten, IsPlainFormatter, WritesOnOk};
ghost use Rattle.bt_rows.specs.Members.{escaped};

use std::fmt;
use std::fmt::Write;

/// Writes a byte of printable ASCII as it stands between quotes.
///
/// # Errors
/// `fmt::Error` if it isn't ASCII, or if it wasn't written.
fn write_byte<W: fmt::Write>(byte: u8, to: &mut fmt::Formatter<W>) -> fmt::Result
    ensures { WritesOnOk W.write_str_gives to.old result (escaped (byte ∷ [])) to.new }
{
    if !byte.is_ascii() {
        return Err(fmt::Error);
    }
    let shown = char::from(byte);
    match byte {
        b'"' | b'\\' => write!(to, "\\{shown}"),
        _ => to.write_char(shown),
    }
}

/// Writes printable ASCII as it stands between quotes.
fn write_bytes<W: fmt::Write>(bytes: &[u8], to: &mut fmt::Formatter<W>) -> fmt::Result
    ensures { WritesOnOk W.write_str_gives to.old result (escaped bytes.now) to.new }
{
    let [byte, rest @ ..] = bytes else {
        return Ok(());
    };
    write_byte(*byte, to)?;
    write_bytes(rest, to)
}

/// A writer that passes text on as it stands between quotes.
struct Quoting<'f, W> {
    to: &'f mut fmt::Formatter<W>,
}

impl<'f, W> Drop for Quoting<'f, W> {
    fn drop(self)
        ensures { self.exit.0.now ≡ self.entry.to.now }
    {
        let Self { to: _ } = self;
    }
}

impl<W: fmt::Write> fmt::Write for Quoting<'_, W> {
    ghost write_str_gives = { λ s bytes t. (IsPlainFormatter s.to.now → HasWritten W.write_str_gives s.to.now (escaped bytes) t.to.now)
        × (t.to.ghost_name ≡ s.to.ghost_name) };

    fn write_str(&mut self, text: &str) -> fmt::Result {
        write_bytes(text.as_bytes(), self.to)
    }
}

/// What a value writes, printable ASCII, as it stands between quotes.
#[derive(Clone, Copy)]
pub(crate) struct Quoted<'a, D>(pub(crate) &'a D);

impl<'a, D: fmt::Display> fmt::Display for Quoted<'a, D> {
    ghost output = { λ q. option_map escaped (D.output q.0.now) };

    fn fmt<W: fmt::Write>(&self, f: &mut fmt::Formatter<W>) -> fmt::Result {
        let value = self.0;
        let mut quoting = Quoting { to: f };
        write!(quoting, "{value}")?;
        Ok(())
    }
}
