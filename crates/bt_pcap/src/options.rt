//! The options of an interface that say what its time stamps mean.
ghost use Rattle.std.specs.Prelude.{◌≡◌, ◌+◌, ◌*◌, ◌/◌, ◌<◌, ◌≤◌, ◌^◌, length, Some, None, IfSome, MatchOption};
ghost use Rattle.bt_pcap.specs.Options.{is_option, value_of, resolution_of, offset_of};
ghost use Rattle.bt_pcap.specs.Times.{unit_of, moved, nanos_of};

use crate::numbers::{Order, i64_of, u16_at};

/// The code of the option opt_endofopt, after which no option follows.
const END: u16 = 0;
/// The code of the option if_tsresol.
const RESOLUTION: u16 = 9;
/// The code of the option if_tsoffset.
const OFFSET: u16 = 14;
/// Without the option a time stamp counts microseconds.
const MICROSECONDS: u8 = 6;

/// Tells whether an option has that code and a value of that length.
fn is_wanted(wanted: u16, long: u16, code: u16, size: u16) -> bool
    ensures { result ≡ is_option wanted long code size }
{
    code == wanted && size == long
}

/// Returns the value of the first option that has that code and a value of that length. No option has the code 0.
fn value(order: Order, options: &[u8], wanted: u16, long: u16) -> Option<&[u8]>
    requires { 0 < wanted }
    ensures value { MatchOption result (value_of order wanted long options.now ≡ None) (λ v. value_of order wanted long options.now ≡ Some v.now) }
    ensures long { IfSome result (λ v. length v.now ≡ long) }
{
    let mut rest = options;
    while rest.len() >= 4 {
        let (code, after) = u16_at(order, rest);
        if code == END {
            return None;
        }
        let (size, value) = u16_at(order, after);
        if is_wanted(wanted, long, code, size) {
            return value.get(..usize::from(long));
        }
        let padded = (size as usize + 3) / 4 * 4;
        if value.len() < padded {
            return None;
        }
        rest = &value[padded..];
    }
    None
}

/// Reads the value of the first option if_tsresol.
pub(crate) fn resolution(order: Order, options: &[u8]) -> u8
    ensures { result ≡ resolution_of order options.now }
{
    match value(order, options, RESOLUTION, 1) {
        Some(value) => value[0],
        None => MICROSECONDS,
    }
}

/// Reads the value of the first option if_tsoffset.
pub(crate) fn offset(order: Order, options: &[u8]) -> i64
    ensures { result ≡ offset_of order options.now }
{
    match value(order, options, OFFSET, 8) {
        Some(v) => i64_of(order, [v[0], v[1], v[2], v[3], v[4], v[5], v[6], v[7]]),
        None => 0,
    }
}

/// Divides by a power. The quotient by a power that 128 bits don't hold is 0.
fn divided(nanos: u128, base: u128, exponent: u8) -> u128
    requires { 0 < base }
    ensures quotient { result ≡ nanos / base ^ exponent }
    ensures within { result ≤ nanos }
{
    match base.checked_pow(u32::from(exponent)) {
        None => 0,
        Some(unit) => nanos / unit,
    }
}

/// Returns the nanoseconds of a stamp. Micro- and nanoseconds need no division.
fn elapsed(ticks: u64, resolution: u8) -> u128
    ensures time { result ≡ ticks * 1000000000 / unit_of resolution }
    ensures within { result < 2 ^ 94 }
{
    let ticks = u128::from(ticks);
    match resolution {
        6 => ticks * 1_000,
        9 => ticks,
        0..=127 => divided(ticks * 1_000_000_000, 10, resolution),
        _ => divided(ticks * 1_000_000_000, 2, resolution - 128),
    }
}

/// Adds seconds to a time. A sum before 1970 counts as 0.
fn later(nanos: u128, offset: i64) -> u128
    requires { nanos < 2 ^ 94 }
    ensures { result ≡ moved offset nanos }
{
    let seconds = u128::from(offset.unsigned_abs()) * 1_000_000_000;
    if offset < 0 {
        nanos.saturating_sub(seconds)
    } else {
        nanos + seconds
    }
}

/// Returns the time of a stamp in nanoseconds, from 0 to the greatest `u64`.
#[tactic(auto, unfolding(crate::specs::Times::nanos_of))]
pub(crate) fn nanos(ticks: u64, resolution: u8, offset: i64) -> u64
    ensures { result ≡ nanos_of resolution offset ticks }
{
    later(elapsed(ticks, resolution), offset).min(u128::from(u64::MAX)) as u64
}
