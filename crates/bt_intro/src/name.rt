//! A client's name, cut to a fixed size.
ghost use Rattle.std.specs.Prelude.{◌≡◌, ◌≤◌, take, length};

/// How many bytes of a name are kept.
const ROOM: usize = 240;

/// The first 240 bytes of a client's name.
#[derive(Drop)]
pub(crate) struct Name {
    bytes: [u8; 240],
    length: usize,
    ghost fits: { length ≤ 240 },
}

/// Returns these first bytes of a name, and zeros after them.
fn front(name: &[u8], count: usize) -> [u8; 240]
    requires { (count ≤ length name.now) × (count ≤ 240) }
    ensures { take count result ≡ take count name.now }
{
    let mut bytes = [0; ROOM];
    bytes[..count].copy_from_slice(&name[..count]);
    bytes
}

impl Name {
    ghost use Rattle.std.specs.Prelude.{[]};
    ghost use Rattle.bt_intro.specs.Names.{name_bytes, or_before};

    /// A name of no bytes.
    pub(crate) fn new() -> Name
        ensures { name_bytes result ≡ [] }
    {
        Name {
            bytes: [0; ROOM],
            length: 0,
        }
    }

    /// Keeps the first bytes of another name, unless it is empty.
    pub(crate) fn keep(&mut self, name: &[u8])
        ensures { name_bytes self.new ≡ or_before (name_bytes self.old) (take 240 name.now) }
    {
        if name.is_empty() {
            return;
        }
        let length = name.len().min(ROOM);
        *self = Name {
            bytes: front(name, length),
            length,
        };
    }

    /// Returns the bytes.
    pub(crate) fn bytes(&self) -> &[u8]
        ensures { result.now ≡ name_bytes self.now }
    {
        &self.bytes[..self.length]
    }
}
