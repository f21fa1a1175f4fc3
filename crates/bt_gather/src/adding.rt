//! Adds the addresses that were found to the list of a fetch.
ghost use Rattle.std.specs.Prelude.{◌≡◌, ◌≤◌, ◌++◌, ◌∷◌, [], not, true, false, length, take, vec_len};
ghost use Rattle.std.specs.List.{filter};
ghost use Rattle.bt_gather.specs.Gathers.{gathered, is_named as is_named_by};

use crate::named::is_named;
use bt_fetch::Dialler;
use std::net::SocketAddr;

/// Adds an address to the list unless it was named, tells the device, and returns whether that could be done.
///
/// The first `named` addresses of the list were named. It can't be done if `most` addresses are known, or when out of memory.
fn add_one<D: Dialler>(
    addresses: &mut Vec<SocketAddr>,
    named: usize,
    address: SocketAddr,
    most: usize,
    device: &mut D,
) -> bool
    requires named { named ≤ vec_len addresses.old }
    requires fits { vec_len addresses.old ≤ most }
    ensures added { result ≡ true → addresses.new.items ≡ addresses.old.items ++ filter (λ a. not (is_named_by (take named addresses.old.items) a)) (address ∷ []) }
    ensures failed { result ≡ false → addresses.new.items ≡ addresses.old.items }
    ensures grown { vec_len addresses.old ≤ vec_len addresses.new }
    ensures fits { vec_len addresses.new ≤ most }
    ensures log { D.log device.new ≡ D.log device.old }
    ensures inside { D.inside device.new ≡ D.inside device.old }
    ensures places { D.places device.new ≡ D.places device.old }
{
    if is_named(&addresses[..named], address) {
        return true;
    }
    if addresses.len() >= most || addresses.push(address).is_err() {
        return false;
    }
    device.added(address);
    true
}

/// Adds the found addresses from number `taken` on, and returns the number of the first one that couldn't be added.
pub fn add_found<D: Dialler>(
    addresses: &mut Vec<SocketAddr>,
    named: usize,
    found: &[SocketAddr],
    taken: usize,
    most: usize,
    device: &mut D,
) -> usize
    requires named { named ≤ vec_len addresses.old }
    requires within { taken ≤ length found.now }
    requires order { addresses.old.items ≡ gathered (take named addresses.old.items) (take taken found.now) }
    requires fits { vec_len addresses.old ≤ most }
    ensures within { result ≤ length found.now }
    ensures order { addresses.new.items ≡ gathered (take named addresses.new.items) (take result found.now) }
    ensures stays { take named addresses.new.items ≡ take named addresses.old.items }
    ensures grown { vec_len addresses.old ≤ vec_len addresses.new }
    ensures fits { vec_len addresses.new ≤ most }
    ensures log { D.log device.new ≡ D.log device.old }
    ensures inside { D.inside device.new ≡ D.inside device.old }
    ensures places { D.places device.new ≡ D.places device.old }
{
    for at in taken..found.len() {
        if !add_one(addresses, named, found[at], most, device) {
            return at;
        }
    }
    found.len()
}
