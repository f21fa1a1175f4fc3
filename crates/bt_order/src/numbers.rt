//! The index of a packet's number.
ghost use Rattle.std.specs.Prelude.{◌≡◌, ℕ, ◌+◌, ◌^◌, ◌<◌, ◌≤◌, None, IfSome};
ghost use Rattle.bt_order.specs.Numbers.{IsNearestNumber, IsInReach};

/// How far after the next packet, and how far before it, a number is in reach.
pub const REACH: u16 = 4096;

/// No packet has this index or a later one.
pub const END: u64 = 1 << 62;

/// Returns the index of a packet with this number, if it is in reach of the next one.
///
/// `first` is the number of the index 2^16. Numbers wrap after 2^16, indexes don't.
pub fn index_of(first: u16, next: u64, number: u16) -> Option<u64>
    requires low { 65536 ≤ next }
    requires high { next ≤ 2 ^ 62 }
    ensures found { IfSome result (λ i. IsNearestNumber first next number i × IsInReach next i) }
    ensures none { result ≡ None → (i : ℕ) → IsNearestNumber first next number i → IsInReach next i → ⊥ }
{
    let at = first.wrapping_add((next % 0x1_0000) as u16);
    let ahead = number.wrapping_sub(at);
    if ahead < REACH {
        let index = next + u64::from(ahead);
        return if index < END { Some(index) } else { None };
    }
    let behind = at.wrapping_sub(number);
    if behind <= REACH {
        return Some(next - u64::from(behind));
    }
    None
}
