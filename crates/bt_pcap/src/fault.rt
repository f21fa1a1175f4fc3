//! What a file can be refused for.
use std::error::Error;
use std::fmt;

/// Why the bytes aren't those of a capture file.
#[derive(Clone, Copy, Debug, PartialEq, Eq)]
pub enum FileFault {
    /// The first four bytes begin neither a pcap nor a pcapng file.
    NoCapture,
    /// The byte-order magic of a pcapng section is unknown.
    ByteOrder,
    /// The total length of a pcapng block has no place for what each block has, or is more than a packet takes.
    Length,
    /// The body of a pcapng block has no place for the fields of its type.
    TooShort,
    /// The captured length of a pcap record is more than a packet has.
    RecordLength,
    /// The total length after the body of a pcapng block is another one than that before it.
    Unlike,
    /// A packet of a pcapng section is on an interface that isn't described before it, or isn't one of the first `MAX_INTERFACES`.
    Undescribed,
}

impl FileFault {
    ghost use Rattle.std.specs.Prelude.{◌≡◌};
    ghost use Rattle.bt_pcap.specs.Texts.{text_of};

    /// Returns what a user is told.
    pub fn text(self) -> &'static str
        ensures { result.now ≡ text_of self }
    {
        match self {
            FileFault::NoCapture => "neither a pcap nor a pcapng file",
            FileFault::ByteOrder => "a section of a pcapng file has an unknown byte order",
            FileFault::Length => "a block of a pcapng file has an impossible length",
            FileFault::TooShort => "a block of a pcapng file is too short",
            FileFault::RecordLength => "a record of a pcap file has an impossible length",
            FileFault::Unlike => "the two lengths of a block of a pcapng file differ",
            FileFault::Undescribed => {
                "a packet of a pcapng file names an interface that isn't described, or is beyond the first 1,024"
            }
        }
    }
}

impl fmt::Display for FileFault {
    ghost use Rattle.std.specs.Prelude.{Some};
    ghost use Rattle.bt_pcap.specs.Texts.{text_of};

    ghost output = { λ fault. Some (text_of fault) };

    fn fmt<W: fmt::Write>(&self, f: &mut fmt::Formatter<W>) -> fmt::Result {
        f.write_str(self.text())
    }
}

impl Error for FileFault {}
