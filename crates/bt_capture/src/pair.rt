//! The key of a connection.
ghost use Rattle.std.specs.Prelude.{◌≡◌, ◌<◌, ◌^◌, fold};
ghost use Rattle.bt_capture.specs.Pairs.{is_first, host_key, pair, is_below, with_link};
ghost use Rattle.bt_capture.specs.Hashes.{word_of, address_fed, link_fed, pair_fed};
ghost use Rattle.std.specs.Cmp.Rules.{hashing};
ghost use Rattle.std.proofs.Common.{rules};

use bt_packet::{Address, Host};
use std::cmp::Ordering;
use std::hash::{Hash, Hasher};

/// The two ends of a connection, in order, so that both directions have the same key.
#[derive(Clone, Copy, PartialEq, Eq, Debug)]
pub struct Pair {
    pub low: Address,
    pub high: Address,
    /// The number of a connection of uTP, `None` of TCP.
    pub link: Option<u64>,
}

/// Tells whether a host isn't after another one.
fn is_host_first(a: Host, b: Host) -> bool
    ensures { result ≡ is_below (host_key a) (host_key b) }
{
    match (a, b) {
        (Host::V4(x), Host::V4(y)) => x.cmp(&y).is_le(),
        (Host::V4(_), Host::V6(_)) => true,
        (Host::V6(_), Host::V4(_)) => false,
        (Host::V6(x), Host::V6(y)) => x.cmp(&y).is_le(),
    }
}

/// Tells whether an address isn't after another one. Their ports are compared first.
fn comes_first(a: Address, b: Address) -> bool
    ensures { result ≡ is_first a b }
{
    match a.port.cmp(&b.port) {
        Ordering::Less => true,
        Ordering::Equal => is_host_first(a.host, b.host),
        Ordering::Greater => false,
    }
}

impl Pair {
    /// Returns the key of a TCP connection of these ends, whichever of them sent.
    pub fn of(a: Address, b: Address) -> Pair
        ensures key { result ≡ pair a b }
        ensures both { result ≡ pair b a }
    {
        if comes_first(a, b) {
            Pair {
                low: a,
                high: b,
                link: None,
            }
        } else {
            Pair {
                low: b,
                high: a,
                link: None,
            }
        }
    }

    /// Returns the key of the uTP connection of these ends with a number, or of TCP if there is none.
    pub fn with_link(self, link: Option<u64>) -> Pair
        ensures { result ≡ with_link link self }
    {
        Pair {
            low: self.low,
            high: self.high,
            link,
        }
    }
}

/// Returns a port and a host of IPv4 as a word.
#[inline(always)]
fn word_of(port: u16, bytes: [u8; 4]) -> u64
    ensures is { result ≡ word_of port bytes }
    ensures range { result < 2 ^ 48 }
{
    u64::from(u32::from_be_bytes(bytes)) * 65_536 + u64::from(port)
}

/// Feeds a hash function an address: one word of IPv4, and three of IPv6.
fn feed<H: Hasher>(address: &Address, state: &mut H)
    ensures { state.new ≡ fold H.write state.old (address_fed address.now) }
{
    let Address { host, port } = *address;
    match host {
        Host::V4(bytes) => state.write_u64(word_of(port, bytes)),
        Host::V6(bytes) => {
            state.write_u64((1 << 48) + u64::from(port));
            state.write_u128(u128::from_be_bytes(bytes));
        }
    }
}

/// Feeds a hash function the number of a connection of uTP.
fn feed_link<H: Hasher>(link: Option<u64>, state: &mut H)
    ensures { state.new ≡ fold H.write state.old (link_fed link) }
{
    if let Some(number) = link {
        state.write_u64(number);
    }
}

/// The hash function is fed whole words at once. A derived `Hash` feeds it each byte by itself, which takes five times as long.
impl Hash for Pair {
    ghost hash_input = { pair_fed };

    ghost respects_eq = { Prim.search (hashing, rules) };

    #[inline(always)]
    fn hash<H: Hasher>(&self, state: &mut H) {
        feed_link(self.link, state);
        match (self.low.host, self.high.host) {
            (Host::V4(low), Host::V4(high)) => {
                let low = u128::from(word_of(self.low.port, low));
                let high = u128::from(word_of(self.high.port, high));
                state.write_u128(low * (1 << 64) + high);
            }
            _ => {
                feed(&self.low, state);
                feed(&self.high, state);
            }
        }
    }
}
