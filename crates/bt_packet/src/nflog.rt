//! Attributes of NFLOG, of which one is the packet.
ghost use Rattle.std.specs.Prelude.{◌≡◌, ◌≤◌, ◌-◌, option_map};
ghost use Rattle.bt_packet.specs.Links.{all_attributes, padded as padded_of};

use crate::bytes::{after, front};

/// Returns a length with its padding.
fn padded(length: u16) -> usize
    ensures { result ≡ padded_of length }
{
    4 * ((usize::from(length) + 3) / 4)
}

/// Returns the value of the first attribute that is a packet.
#[tactic(auto, using(crate::proofs::Attributes::attributes_cut))]
#[inline(never)]
pub fn packet_in_attributes(bytes: &[u8]) -> Option<&[u8]>
    ensures { option_map (λ b. b.now) result ≡ all_attributes bytes.now }
{
    let mut bytes = bytes;
    while !bytes.is_empty() {
        let [a, b, c, d, rest @ ..] = bytes else {
            return None;
        };
        let length = u16::from_le_bytes([*a, *b]);
        if length < 4 {
            return None;
        }
        if u16::from_le_bytes([*c, *d]) == 9 {
            return Some(front(rest, u64::from(length) - 4));
        }
        bytes = after(rest, padded(length) - 4)?;
    }
    None
}
