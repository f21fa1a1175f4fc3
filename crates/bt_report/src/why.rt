//! Why a stream is refused, as a sentence.
ghost use Rattle.std.specs.Prelude.{◌≡◌, option_map};
ghost use Rattle.bt_report.specs.Whys.{any_lengths, extension_text, field_sentence, row_in, rows};

use bt_rows::{HexByte, RefusedMessage};
use bt_text::ended::Ended;
use bt_wire::{Own, Reason, Refusal};
use std::fmt;

/// Returns the name of an id's messages; none for an unknown id.
fn name(id: u8) -> Option<&'static str>
    ensures { option_map (λ name. name.now) result ≡ option_map (λ row. row.name) (row_in id rows) }
{
    match id {
        0 => Some("choke"),
        1 => Some("unchoke"),
        2 => Some("interested"),
        3 => Some("not interested"),
        4 => Some("have"),
        5 => Some("bitfield"),
        6 => Some("request"),
        7 => Some("piece"),
        8 => Some("cancel"),
        9 => Some("port"),
        13 => Some("suggest piece"),
        14 => Some("have all"),
        15 => Some("have none"),
        16 => Some("reject request"),
        17 => Some("allowed fast"),
        20 => Some("extended"),
        _ => None,
    }
}

/// Returns the lengths that an id's messages may have, if no piece count is known.
fn any_lengths_of(id: u8) -> &'static str
    ensures { result.now ≡ any_lengths (row_in id rows) }
{
    match id {
        0 | 1 | 2 | 3 | 14 | 15 => "1",
        4 | 13 | 17 => "5",
        5 => "1 or more",
        6 | 8 | 16 => "13",
        7 => "9 or more",
        9 => "3",
        20 => "2 or more",
        _ => "another",
    }
}

/// What an id's messages are called.
#[derive(Clone, Copy)]
struct Called(u8);

impl fmt::Display for Called {
    ghost use Rattle.std.specs.Prelude.{Some};
    ghost use Rattle.bt_report.specs.Whys.{id_text};

    ghost output = { λ c. Some (id_text c.0) };

    fn fmt<W: fmt::Write>(&self, f: &mut fmt::Formatter<W>) -> fmt::Result {
        let id = self.0;
        match name(id) {
            Some(name) => f.write_str(name),
            None => write!(f, "unknown ({id})"),
        }
    }
}

/// The lengths that an id's messages may have.
#[derive(Clone, Copy)]
struct Lengths(u8, Option<u32>);

impl fmt::Display for Lengths {
    ghost use Rattle.std.specs.Prelude.{Some};
    ghost use Rattle.bt_report.specs.Whys.{lengths_text};

    ghost output = { λ l. Some (lengths_text l.0 l.1) };

    fn fmt<W: fmt::Write>(&self, f: &mut fmt::Formatter<W>) -> fmt::Result {
        match *self {
            Lengths(5, Some(pieces)) => {
                let length = 1 + (u64::from(pieces) + 7) / 8;
                write!(f, "{length} for {pieces} pieces")
            }
            Lengths(id, _) => f.write_str(any_lengths_of(id)),
        }
    }
}

/// A byte in hex, or `none`.
#[derive(Clone, Copy)]
struct Byte(Option<u8>);

impl fmt::Display for Byte {
    ghost use Rattle.std.specs.Prelude.{Some};
    ghost use Rattle.bt_report.specs.Whys.{byte_text};

    ghost output = { λ b. Some (byte_text b.0) };

    fn fmt<W: fmt::Write>(&self, f: &mut fmt::Formatter<W>) -> fmt::Result {
        match self.0 {
            Some(byte) => {
                let hex = HexByte(byte);
                write!(f, "0x{hex}")
            }
            None => f.write_str("none"),
        }
    }
}

/// The index before a piece count.
#[derive(Clone, Copy)]
struct LastIndex(u32);

impl fmt::Display for LastIndex {
    ghost use Rattle.std.specs.Prelude.{Some};
    ghost use Rattle.bt_report.specs.Whys.{last_index};

    ghost output = { λ l. Some (last_index l.0) };

    fn fmt<W: fmt::Write>(&self, f: &mut fmt::Formatter<W>) -> fmt::Result {
        let pieces = self.0;
        if pieces == 0 {
            return f.write_str("-1");
        }
        let last = pieces - 1;
        write!(f, "{last}")
    }
}

/// Where a stream ends: in which message, after how many of its bytes, and what its length prefix is.
#[derive(Clone, Copy)]
struct End {
    message: u64,
    inside: u64,
    length: u32,
}

impl fmt::Display for End {
    ghost use Rattle.std.specs.Prelude.{Some};
    ghost use Rattle.bt_report.specs.Whys.{end_sentence};

    ghost output = { λ e. Some (end_sentence e.message e.inside e.length) };

    fn fmt<W: fmt::Write>(&self, f: &mut fmt::Formatter<W>) -> fmt::Result {
        let End {
            message,
            inside,
            length,
        } = *self;
        if message == 0 {
            return write!(
                f,
                "The stream ends inside the handshake, after {inside} of its 68 bytes"
            );
        }
        if inside < 4 {
            return write!(
                f,
                "The stream ends inside the length of a message, after {inside} of its 4 bytes"
            );
        }
        let size = 4 + u64::from(length);
        write!(
            f,
            "The stream ends after {inside} of the {size} bytes of a message"
        )
    }
}

/// Where a payload is no dictionary: the offset, and the byte there.
#[derive(Clone, Copy)]
struct NoDictionary(u64, Option<u8>);

impl fmt::Display for NoDictionary {
    ghost use Rattle.std.specs.Prelude.{Some};
    ghost use Rattle.bt_report.specs.Whys.{bencode_sentence};

    ghost output = { λ n. Some (bencode_sentence n.0 n.1) };

    fn fmt<W: fmt::Write>(&self, f: &mut fmt::Formatter<W>) -> fmt::Result {
        let NoDictionary(at, byte) = *self;
        match byte {
            None => f.write_str(
                "The payload has to begin with a bencoded dictionary, and the message ends inside it",
            ),
            Some(_) => {
                let byte = Byte(byte);
                write!(
                    f,
                    "The payload has to begin with a bencoded dictionary, and none goes on with the byte {byte} at {at}"
                )
            }
        }
    }
}

/// Returns the extension that an id needs.
fn extension(id: u8) -> &'static str
    ensures { result.now ≡ extension_text id }
{
    match id {
        20 => "Extension Protocol",
        _ => "Fast Extension",
    }
}

/// Returns which field of a dictionary is wrong.
fn field(ext: u8) -> &'static str
    ensures { result.now ≡ field_sentence ext }
{
    match ext {
        0 => {
            "In an extended handshake m has ids from 0 to 255 and metadata_size is an integer of at least 0, and here one is not"
        }
        _ => "A metadata message has no key that its type needs, or the value is no such number",
    }
}

/// A refusal, what is there of its message, and the receiver that refuses it.
#[derive(Clone, Copy)]
pub(crate) struct Why<'a> {
    pub(crate) refusal: Refusal,
    pub(crate) message: RefusedMessage,
    pub(crate) own: &'a Own,
}

impl fmt::Display for Why<'_> {
    ghost use Rattle.std.specs.Prelude.{Some};
    ghost use Rattle.bt_report.specs.Whys.{why_text};

    ghost output = { λ w. Some (why_text w.refusal w.message w.own.now) };

    fn fmt<W: fmt::Write>(&self, f: &mut fmt::Formatter<W>) -> fmt::Result {
        let (at, number) = (self.refusal.at, self.refusal.message);
        let RefusedMessage {
            start,
            length,
            id,
            ext,
            index,
            byte,
        } = self.message;
        let (limit, known) = (self.own.limit, self.own.pieces);
        let pieces = known.unwrap_or(0);
        let called = Called(id);
        match self.refusal.reason {
            Reason::BadProtocol => {
                let byte = Byte(byte);
                write!(
                    f,
                    "A stream begins with the byte 19 and the text \"BitTorrent protocol\", and byte {at} is {byte}"
                )
            }
            Reason::WrongInfoHash => f.write_str(
                "The info hash of the handshake is not the one that the receiver wants",
            ),
            Reason::StreamFull => f.write_str("A message starts at 2^62 or above"),
            Reason::TooLong => write!(
                f,
                "The message has the length {length}, and the receiver takes at most {limit}"
            ),
            Reason::UnknownId => write!(
                f,
                "The message has the id {id}, and BEP 3, 5, 6 and 10 have no such id"
            ),
            Reason::NotNegotiated => {
                let extension = extension(id);
                write!(
                    f,
                    "A {called} message needs the {extension}, and the two handshakes do not both have its reserved bit"
                )
            }
            Reason::WrongLength => {
                let lengths = Lengths(id, known);
                write!(
                    f,
                    "The message has the length {length}, and the length of a {called} message is {lengths}"
                )
            }
            Reason::Late => write!(
                f,
                "A {called} message may only come first, and a message that counts came before it"
            ),
            Reason::Missing => write!(
                f,
                "Both peers have the Fast Extension, so a bitfield, have all or have none has to come first, and {called} came"
            ),
            Reason::BadIndex => {
                let last = LastIndex(pieces);
                write!(
                    f,
                    "The {called} message names piece {index}, and the torrent has {pieces} pieces, so the last index is {last}"
                )
            }
            Reason::SpareBits => {
                let byte = Byte(byte);
                write!(
                    f,
                    "The torrent has {pieces} pieces, and the last byte of the bitfield is {byte}, which has a 1 after them"
                )
            }
            Reason::EndInside => {
                let end = End {
                    message: number,
                    inside: at.saturating_sub(start),
                    length,
                };
                write!(f, "{end}")
            }
            Reason::BadExtLength => f.write_str(
                "A message that takes back a piece has four bytes after its extended id, and this one has another number",
            ),
            Reason::BadBencode => {
                let place = NoDictionary(at, byte);
                write!(f, "{place}")
            }
            Reason::Unsorted => write!(
                f,
                "The keys of a dictionary are in order, and the key at {at} is not above the one before it"
            ),
            Reason::BadField => f.write_str(field(ext)),
            Reason::BadBlock => f.write_str(
                "What follows the dictionary has not the length that total_size and piece ask for; after a request or a reject is nothing",
            ),
        }
    }
}

/// The line after a verdict, if it is a refusal that nothing limits and what is refused is there.
#[derive(Clone, Copy)]
pub(crate) struct WhyLine<'a> {
    pub(crate) ended: Ended,
    pub(crate) note: &'static str,
    pub(crate) message: Option<RefusedMessage>,
    pub(crate) own: &'a Own,
}

impl fmt::Display for WhyLine<'_> {
    ghost use Rattle.std.specs.Prelude.{Some};
    ghost use Rattle.bt_report.specs.Whys.{why_line};

    ghost output = { λ l. Some (why_line l.ended l.note.now l.message l.own.now) };

    fn fmt<W: fmt::Write>(&self, f: &mut fmt::Formatter<W>) -> fmt::Result {
        match (self.ended, self.note.as_bytes(), self.message) {
            (Ended::Refused(refusal), [], Some(message)) => {
                let why = Why {
                    refusal,
                    message,
                    own: self.own,
                };
                write!(f, "    why  {why}.\n")
            }
            _ => Ok(()),
        }
    }
}
