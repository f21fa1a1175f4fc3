//! Encoding from the end of an array to its front, without an allocation.
ghost use Rattle.std.specs.Prelude.{◌≡◌, ◌≤◌, ◌<◌, ◌+◌, ◌++◌, ◌∷◌, pos, length, drop, decimal};
ghost use Rattle.bt_bencode.specs.Trees.{integer};
ghost use Rattle.bt_bencode.specs.Bencoding.{ben, ben_string};

use itoa::write_digits;

/// Writes bytes before the offset `at`; returns the offset at which they start.
pub fn put_bytes(bytes: &[u8], text: &mut [u8], at: usize) -> usize
    requires { (length bytes.now ≤ at) × (at ≤ length text.old) }
    ensures room { result + length bytes.now ≡ at }
    ensures len { length text.new ≡ length text.old }
    ensures text { drop result text.new ≡ bytes.now ++ drop at text.old }
{
    let front = at - bytes.len();
    text[front..at].copy_from_slice(bytes);
    front
}

/// Writes a number's digits before the offset `at`, and returns where they start.
fn put_digits(n: u64, text: &mut [u8], at: usize) -> usize
    requires { (20 ≤ at) × (at ≤ length text.old) }
    ensures room { (result ≤ at) × (at ≤ result + 20) }
    ensures len { length text.new ≡ length text.old }
    ensures text { drop result text.new ≡ decimal n ++ drop at text.old }
{
    write_digits(n, text, at)
}

/// Encodes an integer before the offset `at`, and returns where it starts.
///
/// `at` is at least 22.
pub fn put_number(n: u64, text: &mut [u8], at: usize) -> usize
    requires { (22 ≤ at) × (at ≤ length text.old) }
    ensures room { (result ≤ at) × (at ≤ result + 22) }
    ensures len { length text.new ≡ length text.old }
    ensures text { drop result text.new ≡ ben (integer (pos n)) ++ drop at text.old }
{
    let place = put_bytes(b"e", text, at);
    let place = put_digits(n, text, place);
    put_bytes(b"i", text, place)
}

/// Encodes a key before the offset `at`, and returns where it starts.
///
/// `at` is at least the key's length and 21 more.
pub fn put_key(key: &[u8], text: &mut [u8], at: usize) -> usize
    requires { (21 + length key.now ≤ at) × (at ≤ length text.old) }
    ensures room { (result ≤ at) × (at ≤ result + 21 + length key.now) }
    ensures len { length text.new ≡ length text.old }
    ensures text { drop result text.new ≡ ben_string key.now ++ drop at text.old }
{
    let place = put_bytes(key, text, at);
    let place = put_bytes(b":", text, place);
    put_digits(key.len() as u64, text, place)
}
