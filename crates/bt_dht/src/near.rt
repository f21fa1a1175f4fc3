//! Which of two nodes is nearer to an info hash (BEP 5, "Overview").
ghost use Rattle.std.specs.Prelude.{◌≡◌, ◌↔◌};
ghost use Rattle.std.specs.Cmp.Lexicographic.{slice_cmp};
ghost use Rattle.std.specs.Ordering.{nat_cmp};
ghost use Rattle.bt_dht.specs.Distances.{distance_of, xor_of};

use std::cmp::Ordering;

/// Returns the distance of two ids, or of an id and an info hash: the bytes of their XOR.
///
/// It is a number, the high byte first: of two distances the lesser array is the lesser number.
pub fn distance(a: [u8; 20], b: [u8; 20]) -> [u8; 20]
    ensures { result ≡ xor_of a b }
{
    let mut xor = [0u8; 20];
    for i in 0..20 {
        xor[i] = a[i] ^ b[i];
    }
    xor
}

/// Returns which of two ids is nearer to an info hash: `Less` if it is `a`, and `Equal` only if they are the same.
///
/// The nearer one has the lesser distance to the info hash, as an unsigned integer.
pub fn nearness(info_hash: [u8; 20], a: [u8; 20], b: [u8; 20]) -> Ordering
    ensures number { result ≡ nat_cmp (distance_of a info_hash) (distance_of b info_hash) }
    ensures bytes { result ≡ slice_cmp nat_cmp (xor_of a info_hash) (xor_of b info_hash) }
    ensures same { (result ≡ Ordering.Equal) ↔ (a ≡ b) }
{
    let from_a = distance(a, info_hash);
    let from_b = distance(b, info_hash);
    from_a.cmp(&from_b)
}
