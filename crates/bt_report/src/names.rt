//! What a sender calls itself, in printable characters.
ghost use Rattle.std.specs.Prelude.{◌≡◌, ◌<◌, ◌≤◌, Some, length, map, take};
ghost use Rattle.std.specs.Fmt.{DisplaysOnOk};
ghost use Rattle.bt_report.specs.Names.{shown, title_text};

use crate::report::Title;
use std::fmt;

/// How many bytes of a client's name are told.
const CLIENT: usize = 60;

/// Returns a byte of ASCII from `low` on, or a dot for another one.
fn shown(low: u8, byte: u8) -> u8
    ensures value { result ≡ shown low byte }
    ensures ascii { result < 128 }
{
    if low <= byte && byte <= b'~' {
        byte
    } else {
        b'.'
    }
}

/// Writes bytes of ASCII from `low` on, and dots for the others.
fn write_shown<W: fmt::Write>(low: u8, bytes: &[u8], f: &mut fmt::Formatter<W>) -> fmt::Result
    ensures { DisplaysOnOk W.write_str_gives f.old result (Some (map (shown low) bytes.now)) f.new }
{
    let [byte, rest @ ..] = bytes else {
        return Ok(());
    };
    f.write_char(char::from(shown(low, *byte)))?;
    write_shown(low, rest, f)
}

/// Returns these first bytes of a name, and zeros after them.
fn front(name: &[u8], count: usize) -> [u8; 60]
    requires { (count ≤ length name.now) × (count ≤ 60) }
    ensures { take count result ≡ take count name.now }
{
    let mut bytes = [0; CLIENT];
    bytes[..count].copy_from_slice(&name[..count]);
    bytes
}

impl Title {
    /// Returns a client's name, cut to its first 60 bytes.
    #[tactic(auto, using(std::proofs::lemmas::List::take_min))]
    pub fn of_client(name: &[u8]) -> Title
        ensures { title_text result ≡ map (shown 32) (take 60 name.now) }
    {
        let count = CLIENT.min(name.len());
        Title::Client(front(name, count), count)
    }
}

/// Returns the first bytes, or all.
#[tactic(auto, using(std::proofs::lemmas::List::take_min))]
fn first(bytes: &[u8], count: usize) -> &[u8]
    ensures { result.now ≡ take count bytes.now }
{
    &bytes[..count.min(bytes.len())]
}

impl fmt::Display for Title {
    ghost use Rattle.std.specs.Prelude.{Some};
    ghost use Rattle.bt_report.specs.Names.{title_text};

    ghost output = { λ t. Some (title_text t) };

    fn fmt<W: fmt::Write>(&self, f: &mut fmt::Formatter<W>) -> fmt::Result {
        match self {
            Title::PeerId(id) => write_shown(b'!', id, f),
            Title::Client(bytes, count) => write_shown(b' ', first(bytes, *count), f),
        }
    }
}
