//! The file header and the records of a pcap file.
ghost use Rattle.std.specs.Prelude.{◌≡◌, ◌≤◌, length};
ghost use Rattle.bt_pcap.specs.Formats.{Pcap, Unknown};
ghost use Rattle.bt_pcap.specs.Reading.{read_header, read_record};
ghost use Rattle.bt_pcap.specs.Steps.{Gives, GivesHeader};

use crate::fault::FileFault;
use crate::fronts::{KEEP, LONGEST, Packet, Step, front, item};
use crate::numbers::{Order, at_most, u32_at};

/// The link type of a file, if its header is there.
#[tactic(auto, unfolding(crate::specs::Reading::read_header))]
pub(crate) fn header(order: Order, scale: u32, bytes: &[u8]) -> Option<u16>
    ensures { GivesHeader order scale result (read_header order scale bytes.now) }
{
    if bytes.len() < 24 {
        return None;
    }
    let (_, rest) = u32_at(order, bytes);
    let (_, rest) = u32_at(order, rest);
    let (_, rest) = u32_at(order, rest);
    let (_, rest) = u32_at(order, rest);
    let (_, rest) = u32_at(order, rest);
    let (network, _) = u32_at(order, rest);
    Some((network % 65536) as u16)
}

/// Reads a record.
#[tactic(auto, unfolding(crate::specs::Reading::read_record))]
pub(crate) fn record(
    order: Order,
    scale: u32,
    link: u16,
    bytes: &[u8],
) -> Result<Step<'_>, FileFault>
    requires { scale ≤ 1000 }
    ensures { Gives (Pcap order scale link) result (Pcap order scale link) (read_record order scale link bytes.now) }
{
    if bytes.len() < 16 {
        return Ok(Step::More);
    }
    let (seconds, rest) = u32_at(order, bytes);
    let (fraction, rest) = u32_at(order, rest);
    let (captured, rest) = u32_at(order, rest);
    let (length, _) = u32_at(order, rest);
    if captured > LONGEST {
        return Err(FileFault::RecordLength);
    }
    let size = 16 + u64::from(captured);
    let Some(front) = front(bytes, size as usize) else {
        return Ok(Step::More);
    };
    let packet = Packet {
        link: u32::from(link),
        nanos: u64::from(seconds) * 1_000_000_000 + u64::from(fraction) * u64::from(scale),
        bytes: at_most(&front[16..], KEEP),
        length,
    };
    Ok(item(Some(packet), size))
}
