//! Data frames of IEEE 802.11 that aren't protected, alone and after a header of radiotap.
ghost use Rattle.std.specs.Prelude.{◌≡◌, ◌≤◌, option_map};
ghost use Rattle.bt_packet.specs.Links.{fourth_address as fourth_address_of, is_plain_data as is_plain_data_of, is_snap as is_snap_of};
ghost use Rattle.bt_packet.specs.Links.{qos_control as qos_control_of, radiotap as radiotap_of};
ghost use Rattle.bt_packet.specs.Links.{sequenced as sequenced_of, snap as snap_of, wireless as wireless_of};

use crate::bytes::after;
use crate::link::typed;

fn is_snap(a: u8, b: u8, c: u8, d: u8, e: u8, f: u8) -> bool
    ensures { result ≡ is_snap_of a b c d e f }
{
    a == 0xaa && (b == 0xaa && (c == 0x03 && (d == 0 && (e == 0 && f == 0))))
}

/// Returns the packet after LLC, SNAP and a type.
#[tactic(auto, using(crate::proofs::DataFrames::snap_cut, crate::proofs::DataFrames::snap_other, crate::proofs::DataFrames::snap_whole))]
fn snap(bytes: &[u8]) -> Option<&[u8]>
    ensures { option_map (λ b. b.now) result ≡ snap_of bytes.now }
{
    let [a, b, c, d, e, f, rest @ ..] = bytes else {
        return None;
    };
    if is_snap(*a, *b, *c, *d, *e, *f) {
        typed(rest)
    } else {
        None
    }
}

fn is_plain_data(control: u8, flags: u8) -> bool
    ensures { result ≡ is_plain_data_of control flags }
{
    control & 0x4f == 0x08 && flags & 0x44 == 0
}

fn fourth_address(flags: u8) -> usize
    ensures { result ≡ fourth_address_of flags }
{
    if flags & 0x03 == 0x03 { 6 } else { 0 }
}

fn qos_control(control: u8, flags: u8) -> usize
    ensures { result ≡ qos_control_of control flags }
{
    if control & 0x80 > 0 {
        if flags & 0x80 > 0 { 6 } else { 2 }
    } else {
        0
    }
}

/// Returns the packet after sequence control and fields of this size.
#[tactic(auto, using(crate::proofs::DataFrames::sequenced_cut, crate::proofs::DataFrames::sequenced_other, crate::proofs::DataFrames::sequenced_short))]
fn sequenced(fields: usize, bytes: &[u8]) -> Option<&[u8]>
    ensures { option_map (λ b. b.now) result ≡ sequenced_of fields bytes.now }
{
    let [number, _, rest @ ..] = bytes else {
        return None;
    };
    let number = *number % 16;
    if number == 0 {
        let rest = after(rest, fields)?;
        snap(rest)
    } else {
        None
    }
}

/// Returns the packet in a data frame.
#[tactic(auto, using(crate::proofs::DataFrames::wireless_cut, crate::proofs::DataFrames::wireless_other, crate::proofs::DataFrames::wireless_short))]
#[inline(never)]
pub fn wireless(bytes: &[u8]) -> Option<&[u8]>
    ensures { option_map (λ b. b.now) result ≡ wireless_of bytes.now }
{
    let [control, flags, rest @ ..] = bytes else {
        return None;
    };
    if !is_plain_data(*control, *flags) {
        return None;
    }
    let rest = after(rest, 20)?;
    let fields = fourth_address(*flags) + qos_control(*control, *flags);
    sequenced(fields, rest)
}

/// Returns the packet in a data frame after a header of radiotap.
#[tactic(auto, using(crate::proofs::DataFrames::radiotap_cut, crate::proofs::DataFrames::radiotap_other))]
#[inline(never)]
pub fn radiotap(bytes: &[u8]) -> Option<&[u8]>
    ensures { option_map (λ b. b.now) result ≡ radiotap_of bytes.now }
{
    let [version, _, a, b, ..] = bytes else {
        return None;
    };
    if *version == 0 {
        let size = u16::from_le_bytes([*a, *b]);
        let rest = after(bytes, usize::from(size))?;
        wireless(rest)
    } else {
        None
    }
}
