//! Parts of bytes.
ghost use Rattle.std.specs.Prelude.{◌≡◌, drop, option_map, take};
ghost use Rattle.bt_packet.specs.Bytes.{after as after_of};

/// Returns what follows the first `n` bytes, if there are as many.
pub fn after(bytes: &[u8], n: usize) -> Option<&[u8]>
    ensures { option_map (λ b. b.now) result ≡ after_of n bytes.now }
{
    bytes.get(n..)
}

/// Returns the first `n` bytes, or all if there are fewer.
pub fn front(bytes: &[u8], n: u64) -> &[u8]
    ensures { result.now ≡ take n bytes.now }
{
    if n < bytes.len() as u64 {
        &bytes[..n as usize]
    } else {
        bytes
    }
}

/// Returns what follows the first `n` bytes, or nothing if there are fewer.
pub fn back(bytes: &[u8], n: usize) -> &[u8]
    ensures { result.now ≡ drop n bytes.now }
{
    &bytes[n.min(bytes.len())..]
}
