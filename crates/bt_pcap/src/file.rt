//! A capture file as it is read item by item.
ghost use Rattle.std.specs.Prelude.{◌≡◌, ◌≤◌, length, Ok};
ghost use Rattle.bt_pcap.specs.Files.{scale_of, format_of};
ghost use Rattle.bt_pcap.specs.Formats.{Unknown, Pcap, Pcapng};
ghost use Rattle.bt_pcap.specs.Interfaces.{interfaces_of};
ghost use Rattle.bt_pcap.specs.Reading.{read_header, read_first, read_section, read_block, read_other, next_item};
ghost use Rattle.bt_pcap.specs.Steps.{Gives};
ghost use Rattle.bt_pcap.specs.Captures.{Answers, GoesOn};

use crate::blocks::{is_lacking, is_unlike, least_body, most_body, note, packet_of};
use crate::fault::FileFault;
use crate::fronts::{Step, front, item};
use crate::interfaces::Interfaces;
use crate::numbers::{Order, at_most, u32_at};
use crate::records::{header, record};

/// The type of a section header block, the same in both byte orders.
const SECTION: u32 = 0x0a0d_0d0a;

/// What the fraction of a pcap time stamp counts.
#[derive(Clone, Copy, Debug)]
enum Fraction {
    Microseconds,
    Nanoseconds,
}

/// Returns how many nanoseconds that are.
fn scale(fraction: Fraction) -> u32
    ensures scale { result ≡ scale_of fraction }
    ensures within { result ≤ 1000 }
{
    match fraction {
        Fraction::Microseconds => 1000,
        Fraction::Nanoseconds => 1,
    }
}

/// What kind of file it is.
#[derive(Clone, Copy, Debug)]
enum Kind {
    Unknown,
    Pcap {
        order: Order,
        fraction: Fraction,
        link: u16,
    },
    Pcapng {
        order: Order,
    },
}

/// What a reader knows between two items of a capture file.
///
/// At most `MAX_INTERFACES` interfaces of a section are noted.
#[derive(Debug, Drop)]
pub struct CaptureFile {
    kind: Kind,
    interfaces: Interfaces,
}

impl CaptureFile {
    /// Starts before a file's first byte.
    pub fn new() -> CaptureFile
        ensures { format_of result ≡ Unknown }
    {
        CaptureFile {
            kind: Kind::Unknown,
            interfaces: Interfaces::new(),
        }
    }

    /// Reads the header of a pcap file.
    fn header<'a>(&mut self, order: Order, fraction: Fraction, bytes: &'a [u8]) -> Step<'a>
        ensures { Gives (format_of self.old) (Ok result) (format_of self.new) (read_header order (scale_of fraction) bytes.now) }
    {
        let Some(link) = header(order, scale(fraction), bytes) else {
            return Step::More;
        };
        self.kind = Kind::Pcap {
            order,
            fraction,
            link,
        };
        item(None, 24)
    }

    /// Reads a section header block. It begins a section without interfaces.
    #[tactic(auto, unfolding(crate::specs::Reading::read_section))]
    fn section<'a>(&mut self, bytes: &'a [u8]) -> Result<Step<'a>, FileFault>
        ensures { Gives (format_of self.old) result (format_of self.new) (read_section bytes.now) }
    {
        if bytes.len() < 12 {
            return Ok(Step::More);
        }
        let (_, rest) = u32_at(Order::Big, bytes);
        let (_, magic) = u32_at(Order::Big, rest);
        let (magic, _) = u32_at(Order::Big, magic);
        let order = match magic {
            0x1a2b_3c4d => Order::Big,
            0x4d3c_2b1a => Order::Little,
            _ => return Err(FileFault::ByteOrder),
        };
        let (total, _) = u32_at(order, rest);
        if total < 16 {
            return Err(FileFault::Length);
        }
        let Some(_) = front(bytes, total as usize) else {
            return Ok(Step::More);
        };
        if is_unlike(order, total, bytes) {
            return Err(FileFault::Unlike);
        }
        self.kind = Kind::Pcapng { order };
        self.interfaces.clear();
        Ok(item(None, u64::from(total)))
    }

    /// Reads a block that isn't a section header.
    #[tactic(auto, unfolding(crate::specs::Reading::read_other))]
    fn other<'a>(
        &mut self,
        order: Order,
        kind: u32,
        total: u32,
        bytes: &'a [u8],
    ) -> Result<Step<'a>, FileFault>
        requires enough { 8 ≤ length bytes.now }
        requires order { format_of self.old ≡ Pcapng order (interfaces_of self.old.interfaces) }
        ensures { Gives (format_of self.old) result (format_of self.new) (read_other order (interfaces_of self.old.interfaces) kind total bytes.now) }
    {
        if total < 12 {
            return Err(FileFault::Length);
        }
        if total - 12 < least_body(kind) {
            return Err(FileFault::TooShort);
        }
        if total - 12 > most_body(kind) {
            return Err(FileFault::Length);
        }
        let Some(front) = front(bytes, total as usize) else {
            return Ok(Step::More);
        };
        if is_unlike(order, total, bytes) {
            return Err(FileFault::Unlike);
        }
        let body = at_most(&front[8..], total as usize - 12);
        let packet = packet_of(order, &self.interfaces, kind, body);
        if is_lacking(kind, &packet) {
            return Err(FileFault::Undescribed);
        }
        note(&mut self.interfaces, order, kind, body);
        Ok(item(packet, u64::from(total)))
    }

    /// Reads a block.
    #[tactic(auto, unfolding(crate::specs::Reading::read_block))]
    fn block<'a>(&mut self, order: Order, bytes: &'a [u8]) -> Result<Step<'a>, FileFault>
        requires { format_of self.old ≡ Pcapng order (interfaces_of self.old.interfaces) }
        ensures { Gives (format_of self.old) result (format_of self.new) (read_block order (interfaces_of self.old.interfaces) bytes.now) }
    {
        if bytes.len() < 8 {
            return Ok(Step::More);
        }
        let (kind, rest) = u32_at(order, bytes);
        if kind == SECTION {
            return self.section(bytes);
        }
        let (total, _) = u32_at(order, rest);
        self.other(order, kind, total, bytes)
    }

    /// Reads the first item of a file.
    #[tactic(auto, unfolding(crate::specs::Reading::read_first))]
    fn first<'a>(&mut self, bytes: &'a [u8]) -> Result<Step<'a>, FileFault>
        ensures { Gives (format_of self.old) result (format_of self.new) (read_first bytes.now) }
    {
        if bytes.len() < 4 {
            return Ok(Step::More);
        }
        let (magic, _) = u32_at(Order::Big, bytes);
        match magic {
            SECTION => self.section(bytes),
            0xd4c3_b2a1 => Ok(self.header(Order::Little, Fraction::Microseconds, bytes)),
            0xa1b2_c3d4 => Ok(self.header(Order::Big, Fraction::Microseconds, bytes)),
            0x4d3c_b2a1 => Ok(self.header(Order::Little, Fraction::Nanoseconds, bytes)),
            0xa1b2_3c4d => Ok(self.header(Order::Big, Fraction::Nanoseconds, bytes)),
            _ => Err(FileFault::NoCapture),
        }
    }

    /// Reads the item at the front of the bytes as a value.
    fn read<'a>(&mut self, bytes: &'a [u8]) -> Result<Step<'a>, FileFault>
        ensures { Gives (format_of self.old) result (format_of self.new) (next_item (format_of self.old) bytes.now) }
    {
        match self.kind {
            Kind::Unknown => self.first(bytes),
            Kind::Pcap {
                order,
                fraction,
                link,
            } => record(order, scale(fraction), link, bytes),
            Kind::Pcapng { order } => self.block(order, bytes),
        }
    }

    /// Reads the item at the front of the bytes, which are what has come of the file from there on.
    ///
    /// After `Step::More` call again with more bytes from the same place on: `NEED` bytes are always
    /// enough. A file that ends there is cut inside an item, or is complete if no byte is left. One that
    /// ends within its first four bytes is no capture file.
    ///
    /// # Errors
    /// `FileFault` says why the bytes can't begin an item, whatever follows them. Nothing has changed.
    pub fn step<'a>(&mut self, bytes: &'a [u8]) -> Result<Step<'a>, FileFault>
        // An item is one of the format's, an error is a fault of the bytes, and else they end inside an item.
        ensures answers { Answers (format_of self.old) bytes.now result (format_of self.new) }
        // What was read from the file's start on has this item now too, with its packet.
        ensures goes_on { GoesOn (format_of self.old) bytes.now result (format_of self.new) }
        // It hangs on what was known and on the bytes alone.
        ensures value { Gives (format_of self.old) result (format_of self.new) (next_item (format_of self.old) bytes.now) }
    {
        self.read(bytes)
    }
}
