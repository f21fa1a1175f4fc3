//! The words of a script's line, and the numbers among them.
ghost use Rattle.std.specs.Prelude.{◌≡◌, ◌<◌, ◌≤◌, length, IsTrue, ◌↔◌, slice_index, take, IfSome, position, ◌==◌};
ghost use Rattle.std.specs.Str.{bytes_eq};
ghost use Rattle.bt_text.specs.ScriptReading.{
  word_of,
  after_word,
  ends,
  number_in_word,
  IsLed,
  IsLeading,
  number_following as number_read,
  two_after,
  three_after,
  seen,
};

/// Returns whether the text is this word.
#[inline(always)]
pub(crate) fn is(text: &[u8], word: &[u8]) -> bool
    ensures { result ≡ bytes_eq text.now word.now }
{
    text == word
}

/// Returns the offset of the first space.
fn first_space(text: &[u8]) -> Option<usize>
    ensures { result ≡ position (λ c. c == 32) text.now }
{
    text.iter().position(|byte| *byte == b' ')
}

/// Splits the text before its first space.
pub(crate) fn split_word(text: &[u8]) -> (&[u8], &[u8])
    ensures word { result.0.now ≡ word_of text.now }
    ensures rest { result.1.now ≡ after_word text.now }
    ensures short { length result.1.now ≤ length text.now }
{
    let end = first_space(text).unwrap_or(text.len());
    text.split_at(end)
}

/// Returns whether a zero comes before other digits.
fn has_leading_zero(word: &[u8]) -> bool
    ensures { IsTrue result ↔ ((slice_index word.now 0 ≡ 48) × (1 < length word.now)) }
{
    word.len() > 1 && word[0] == b'0'
}

/// Returns the value of the digits in front, and how many they are, in at most 11 bytes.
#[inline(always)]
fn digits_in(text: &[u8]) -> (u64, usize)
    requires { length text.now ≤ 11 }
    ensures { IsLed text.now result.0 result.1 }
{
    let mut n: u64 = 0;
    for (count, digit) in text.iter().enumerate() {
        if !digit.is_ascii_digit() {
            return (n, count);
        }
        n = n * 10 + u64::from(digit - b'0');
    }
    (n, text.len())
}

/// Does what [`digits_in`] does for the first 11 bytes, whose count the compiler then knows.
#[inline(always)]
fn leading_digits(text: &[u8]) -> (u64, usize)
    ensures { IsLed (take 11 text.now) result.0 result.1 }
{
    match text.first_chunk::<11>() {
        Some(front) => digits_in(front),
        None => digits_in(text),
    }
}

/// Parses the number below 2^32 without leading zeros in front, and returns it and what follows its digits.
#[inline(always)]
pub(super) fn leading_number(text: &[u8]) -> Option<(u32, &[u8])>
    ensures value { IsLeading text.now (seen result) }
    ensures short { IfSome result (λ p. length p.1.now ≤ length text.now) }
{
    let (n, count) = leading_digits(text);
    if count == 0 || count > 10 {
        return None;
    }
    let (word, rest) = text.split_at(count);
    if has_leading_zero(word) {
        return None;
    }
    match u32::try_from(n) {
        Ok(n) => Some((n, rest)),
        Err(_) => None,
    }
}

/// Parses a decimal number below 2^32 without leading zeros.
#[tactic(auto, using(crate::proofs::ScriptWords::whole_number, crate::proofs::ScriptWords::whole_more, crate::proofs::ScriptWords::whole_none))]
pub fn plain_number(word: &[u8]) -> Option<u32>
    ensures { result ≡ number_in_word word.now }
{
    let (n, rest) = leading_number(word)?;
    if rest.is_empty() { Some(n) } else { None }
}

/// Returns whether the text is empty or begins with a space.
fn is_end(text: &[u8]) -> bool
    ensures { result ≡ ends text.now }
{
    match text.split_first() {
        Some((byte, _)) => *byte == b' ',
        None => true,
    }
}

/// Reads a space and a number, and returns the number and what follows it.
#[tactic(auto, using(crate::proofs::ScriptWords::first_led, crate::proofs::ScriptWords::first_more, crate::proofs::ScriptWords::first_none))]
#[inline(always)]
pub(crate) fn number_following(text: &[u8]) -> Option<(u32, &[u8])>
    ensures value { seen result ≡ number_read text.now }
    ensures short { IfSome result (λ p. length p.1.now ≤ length text.now) }
{
    let (space, number) = text.split_first()?;
    if *space != b' ' {
        return None;
    }
    let (n, rest) = leading_number(number)?;
    if is_end(rest) { Some((n, rest)) } else { None }
}

/// Reads two numbers, each after a space, and returns their bytes and what follows them.
#[inline(always)]
pub(crate) fn two_numbers(text: &[u8]) -> Option<([u8; 8], &[u8])>
    ensures value { seen result ≡ two_after text.now }
    ensures short { IfSome result (λ p. length p.1.now ≤ length text.now) }
{
    let (first, rest) = number_following(text)?;
    let (second, rest) = number_following(rest)?;
    let mut numbers = [0u8; 8];
    numbers[..4].copy_from_slice(&first.to_be_bytes());
    numbers[4..].copy_from_slice(&second.to_be_bytes());
    Some((numbers, rest))
}

/// Reads three numbers, each after a space, and returns their bytes and what follows them.
#[inline(always)]
pub(crate) fn three_numbers(text: &[u8]) -> Option<([u8; 12], &[u8])>
    ensures { seen result ≡ three_after text.now }
{
    let (two, rest) = two_numbers(text)?;
    let (third, rest) = number_following(rest)?;
    let mut numbers = [0u8; 12];
    numbers[..8].copy_from_slice(&two);
    numbers[8..].copy_from_slice(&third.to_be_bytes());
    Some((numbers, rest))
}
