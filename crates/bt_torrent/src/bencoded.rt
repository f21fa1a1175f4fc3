//! A file's bencoding (BEP 3, "bencoding"), whose strings may be of any length.
//!
//! A pass recurses by the nesting, at most 32 deep, and doesn't allocate. Keys may stand in any order.
ghost use Rattle.std.specs.Prelude.{◌≡◌, ◌↔◌, IsTrue, ℕ, ◌<◌, ◌≤◌, ◌^◌, ◌+◌, ◌-◌, ◌*◌, ◌∷◌, ◌++◌, List, [], length, drop, get_or};
ghost use Rattle.std.specs.Prelude.{None, IfSome, false, is_some, option_and_then, option_map};
ghost use Rattle.std.specs.Fmt.{decimal};
ghost use Rattle.bt_bencode.specs.Trees.{Pairs};
ghost use Rattle.bt_bencode.specs.Bencoding.{ben_string};
ghost use Rattle.bt_bencode.specs.Keys.{value_at};
ghost use Rattle.bt_bencode.specs.LookUps.{dictionary_of, integer_of, string_of};
ghost use Rattle.bt_bencode.specs.OnePass.{PassesInteger};
ghost use Rattle.bt_bencode.specs.Readable.{HasInteger};
ghost use Rattle.bt_bencode.specs.Scanner.{IsDigit};
ghost use Rattle.bt_torrent.specs.Bencoded.{ArePairs, IsDictionary, IsSpelled, PassesItems, PassesPairs, PassesText, PassesValue};
ghost use Rattle.bt_torrent.specs.Files.{IsFileOf};

use bt_bencode::MAX_NESTING;

/// The greatest integer, 2^63 - 1. No string is longer.
const MAX_INTEGER: u64 = (1 << 63) - 1;

/// Returns the bytes after the first.
fn following(bytes: &[u8]) -> &[u8]
    requires { 0 < length bytes.now }
    ensures { result.now ≡ drop 1 bytes.now }
{
    &bytes[1..]
}

/// Returns whether the byte is a digit of ASCII.
fn is_digit(byte: u8) -> bool
    ensures { IsTrue result ↔ IsDigit byte }
{
    b'0' <= byte && byte <= b'9'
}

/// Returns whether the number stays within the limit with one digit more.
fn may_grow(n: u64, digit: u8, high: u64) -> bool
    requires digit { IsDigit digit }
    requires large { 9 ≤ high }
    ensures { IsTrue result ↔ n * 10 + (digit - 48) ≤ high }
{
    n <= (high - (digit - b'0') as u64) / 10
}

/// Returns the number in front, at most `high`, and what follows the byte `stop` after it; `None` if there is none.
fn number_in_front(bytes: &[u8], stop: u8, high: u64) -> Option<(u64, &[u8])>
    requires large { 9 ≤ high }
    requires fits { high ≤ 2 ^ 63 }
    ensures bound { IfSome result (λ x. x.0 ≤ high) }
    ensures split { IfSome result (λ x. bytes.now ≡ decimal x.0 ++ stop ∷ x.1.now) }
    ensures none { result ≡ None → (m : ℕ) (more : List ℕ) → m ≤ high → bytes.now ≡ decimal m ++ stop ∷ more → ⊥ }
{
    if bytes.len() == 0 || !is_digit(bytes[0]) {
        return None;
    }
    let mut n = (bytes[0] - b'0') as u64;
    let mut rest = following(bytes);
    while rest.len() > 0 {
        let byte = rest[0];
        if byte == stop {
            return Some((n, following(rest)));
        }
        if !is_digit(byte) || n == 0 || !may_grow(n, byte, high) {
            return None;
        }
        n = n * 10 + (byte - b'0') as u64;
        rest = following(rest);
    }
    None
}

/// Returns the byte string in front and what follows it; `None` if there is none.
fn text_in_front(bytes: &[u8]) -> Option<(&[u8], &[u8])>
    ensures short { IfSome result (λ x. length x.0.now < 2 ^ 63) }
    ensures split { IfSome result (λ x. bytes.now ≡ ben_string x.0.now ++ x.1.now) }
    ensures none { result ≡ None → (rest : List ℕ) → PassesText bytes.now rest → ⊥ }
{
    let (n, rest) = number_in_front(bytes, b':', MAX_INTEGER)?;
    let len = n as usize;
    if len > rest.len() {
        return None;
    }
    Some(rest.split_at(len))
}

/// Returns what follows the integer in front, whose `i` is passed; `None` if there is none.
fn after_integer(bytes: &[u8]) -> Option<&[u8]>
    ensures passes { IfSome result (λ rest. PassesInteger bytes.now rest.now) }
    ensures none { result ≡ None → HasInteger bytes.now → ⊥ }
{
    if bytes.len() > 0 && bytes[0] == b'-' {
        let (n, rest) = number_in_front(following(bytes), b'e', MAX_INTEGER + 1)?;
        if n == 0 {
            return None;
        }
        return Some(rest);
    }
    let (_, rest) = number_in_front(bytes, b'e', MAX_INTEGER)?;
    Some(rest)
}

/// Returns what follows the value in front, in which `room` lists and dictionaries may nest; `None` if there is none.
#[cycle(values)]
fn after_value(bytes: &[u8], room: usize) -> Option<&[u8]>
    ensures passes { IfSome result (λ rest. PassesValue room bytes.now rest.now) }
    ensures shorter { IfSome result (λ rest. length rest.now < length bytes.now) }
    ensures none { result ≡ None → (more : List ℕ) → PassesValue room bytes.now more → ⊥ }
{
    if bytes.len() == 0 {
        return None;
    }
    match bytes[0] {
        b'i' => after_integer(following(bytes)),
        b'l' if room > 0 => after_items(following(bytes), room - 1),
        b'd' if room > 0 => after_pairs(following(bytes), room - 1),
        _ => {
            let (_, rest) = text_in_front(bytes)?;
            Some(rest)
        }
    }
}

/// Returns what follows the list whose further values are in front; `None` if there is none.
#[cycle(values)]
fn after_items(bytes: &[u8], room: usize) -> Option<&[u8]>
    ensures passes { IfSome result (λ rest. PassesItems room bytes.now rest.now) }
    ensures shorter { IfSome result (λ rest. length rest.now < length bytes.now) }
    ensures none { result ≡ None → (more : List ℕ) → PassesItems room bytes.now more → ⊥ }
{
    let mut rest = bytes;
    while rest.len() > 0 {
        if rest[0] == b'e' {
            return Some(following(rest));
        }
        rest = after_value(rest, room)?;
    }
    None
}

/// Returns what follows the dictionary whose further pairs are in front; `None` if there is none.
#[cycle(values)]
fn after_pairs(bytes: &[u8], room: usize) -> Option<&[u8]>
    ensures passes { IfSome result (λ rest. PassesPairs room bytes.now rest.now) }
    ensures shorter { IfSome result (λ rest. length rest.now < length bytes.now) }
    ensures none { result ≡ None → (more : List ℕ) → PassesPairs room bytes.now more → ⊥ }
{
    let mut rest = bytes;
    while rest.len() > 0 {
        if rest[0] == b'e' {
            return Some(following(rest));
        }
        let (_, value) = text_in_front(rest)?;
        rest = after_value(value, room)?;
    }
    None
}

/// Returns the pairs of the dictionary that a file is, and their end; `None` if it is none.
pub fn pairs_of(file: &[u8]) -> Option<&[u8]>
    ensures whole { IfSome result (λ pairs. (ps : Pairs) × IsFileOf ps file.now) }
    ensures pairs { IfSome result (λ pairs. (ps : Pairs) → IsFileOf ps file.now → ArePairs 31 pairs.now ps []) }
    ensures none { result ≡ None → (ps : Pairs) → IsFileOf ps file.now → ⊥ }
{
    if file.len() == 0 || file[0] != b'd' {
        return None;
    }
    let pairs = following(file);
    let rest = after_pairs(pairs, MAX_NESTING - 1)?;
    if rest.len() > 0 {
        return None;
    }
    Some(pairs)
}

/// Returns what encodes the value of the first pair with the key; `None` if no pair has it.
fn find<'a>(pairs: &'a [u8], key: &[u8]) -> Option<&'a [u8]>
    ensures { (ps : Pairs) (more : List ℕ) → ArePairs 31 pairs.now ps more → IsSpelled result (value_at key.now ps) }
{
    let mut rest = pairs;
    while rest.len() > 0 {
        if rest[0] == b'e' {
            return None;
        }
        let (name, value) = text_in_front(rest)?;
        let next = after_value(value, MAX_NESTING - 1)?;
        if name == key {
            return Some(&value[..value.len() - next.len()]);
        }
        rest = next;
    }
    None
}

/// Returns whether the bytes begin with this one.
fn begins_with(bytes: &[u8], byte: u8) -> bool
    requires { 0 < byte }
    ensures { IsTrue result ↔ get_or bytes.now 0 0 ≡ byte }
{
    bytes.len() > 0 && bytes[0] == byte
}

/// Returns what encodes the dictionary of the first pair with the key; `None` if it has none.
pub fn dictionary_at<'a>(pairs: &'a [u8], key: &[u8]) -> Option<&'a [u8]>
    ensures { (ps : Pairs) (more : List ℕ) → ArePairs 31 pairs.now ps more → IsDictionary result (option_and_then dictionary_of (value_at key.now ps)) }
{
    let value = find(pairs, key)?;
    if begins_with(value, b'd') {
        return Some(value);
    }
    None
}

/// Returns whether the first pair with the key has an integer.
pub fn has_integer(pairs: &[u8], key: &[u8]) -> bool
    ensures { (ps : Pairs) (more : List ℕ) → ArePairs 31 pairs.now ps more → result ≡ is_some (option_and_then integer_of (value_at key.now ps)) }
{
    match find(pairs, key) {
        None => false,
        Some(value) => begins_with(value, b'i'),
    }
}

/// Returns the byte string of the first pair with the key; `None` if it has none.
pub fn text_at<'a>(pairs: &'a [u8], key: &[u8]) -> Option<&'a [u8]>
    ensures { (ps : Pairs) (more : List ℕ) → ArePairs 31 pairs.now ps more → option_map (λ s. s.now) result ≡ option_and_then string_of (value_at key.now ps) }
{
    let value = find(pairs, key)?;
    let (text, _) = text_in_front(value)?;
    Some(text)
}

/// Returns whether a file is a dictionary.
///
/// All of it encodes the dictionary (BEP 3, "bencoding"), in which lists and dictionaries nest at most 32 deep.
pub fn is_dictionary(file: &[u8]) -> bool
    ensures yes { IsTrue result → (ps : Pairs) × IsFileOf ps file.now }
    ensures no { result ≡ false → (ps : Pairs) → IsFileOf ps file.now → ⊥ }
{
    pairs_of(file).is_some()
}
