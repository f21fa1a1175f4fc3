//! Base32 (RFC 4648, section 6), as far as an info hash needs it. The module `hash` calls it.
ghost use Rattle.std.specs.Prelude.{◌≡◌, ◌+◌, ◌*◌, ◌^◌, ◌<◌, length, IfSome, Some};
ghost use Rattle.bt_magnet.specs.Base32.{base32_of, digit_of, extended as extended_of, five_of, number_of};

/// Returns the value of a digit, whose letter may be of either case.
fn digit(byte: u8) -> Option<u8>
    ensures value { result ≡ digit_of byte }
    ensures small { IfSome result (λ n. n < 32) }
{
    match byte {
        b'A'..=b'Z' => Some(byte - b'A'),
        b'a'..=b'z' => Some(byte - b'a'),
        b'2'..=b'7' => Some(byte - 24),
        _ => None,
    }
}

/// Returns the number with one more digit after it.
fn extended(number: u64, byte: u8) -> Option<u64>
    requires { number < 2 ^ 35 }
    ensures value { result ≡ extended_of (Some number) byte }
    ensures small { IfSome result (λ n. n < 32 * number + 32) }
{
    Some(number * 32 + digit(byte)? as u64)
}

/// Returns the number that eight digits write.
#[tactic(auto, using(crate::proofs::Digits::fold_none))]
fn number(digits: &[u8]) -> Option<u64>
    requires { length digits.now ≡ 8 }
    ensures { result ≡ number_of digits.now }
{
    let mut number = 0;
    for digit in digits {
        number = extended(number, *digit)?;
    }
    Some(number)
}

/// Returns the five bytes that eight digits write.
fn five(digits: &[u8]) -> Option<[u8; 5]>
    requires { length digits.now ≡ 8 }
    ensures value { result ≡ five_of digits.now }
    ensures len { IfSome result (λ bytes. length bytes ≡ 5) }
{
    let [_, _, _, a, b, c, d, e] = number(digits)?.to_be_bytes();
    Some([a, b, c, d, e])
}

/// Returns the bytes that 32 digits write.
pub fn base32(digits: &[u8]) -> Option<[u8; 20]>
    ensures { result ≡ base32_of digits.now }
{
    if digits.len() != 32 {
        return None;
    }
    let [a, b, c, d, e] = five(&digits[..8])?;
    let [f, g, h, i, j] = five(&digits[8..16])?;
    let [k, l, m, n, o] = five(&digits[16..24])?;
    let [p, q, r, s, t] = five(&digits[24..32])?;
    Some([a, b, c, d, e, f, g, h, i, j, k, l, m, n, o, p, q, r, s, t])
}
