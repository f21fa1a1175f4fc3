//! Bencoding: keys in and out of order, look-ups, and the parts of values.
use bt_bencode::*;
use std::alloc::Global;

/// Payloads, and the offset of the first key that isn't above the key before it.
const ORDERED: &[(&[u8], Option<usize>)] = &[
    (b"de", None),
    (b"d1:ai1e1:bi2ee", None),
    (b"d0:0:1:a0:2:ab0:e", None),
    (b"d1:ai1e1:ai2ee", Some(7)),
    (b"d1:b0:1:a0:e", Some(6)),
    (b"d1:ad1:ci1e1:bi2eee", Some(11)),
    (b"d1:ale2:aale1:bld1:z0:1:y0:eee", Some(22)),
    (b"d1:ai7e1:b3:xyz1:ci-1e1:dd1:ei0eee", None),
    (b"d1:ai1e1:dd1:fi1e1:ei2eee", Some(17)),
    (b"d1:md1:bi0e1:ai1eee", Some(11)),
];

/// Whether the first key out of order stands there.
fn is_ordered(payload: &[u8], wanted: Option<usize>) -> bool {
    match check(payload) {
        Ok((dict, _)) => first_unsorted(payload) == wanted && dict.first_unsorted() == wanted,
        Err(_) => false,
    }
}

#[test]
fn keys_in_order(rt: HostRuntime) {
    for (payload, wanted) in ORDERED {
        assert!(rt; is_ordered(payload, *wanted), "{payload:?}");
    }
}

/// A dictionary of 34 bytes, with two pairs of the key `a`, and four bytes after it.
const PAYLOAD: &[u8] = b"d1:ai7e1:b3:xyz1:cd1:ei-1ee1:ai8eetail";

/// A key, the integer and the bytes there, and whether a pair has it.
const KEYS: &[(&[u8], Option<i64>, Option<&[u8]>, bool)] = &[
    (b"a", Some(7), None, true),
    (b"b", None, Some(b"xyz"), true),
    (b"c", None, None, true),
    (b"z", None, None, false),
];

fn is_found(key: &[u8], integer: Option<i64>, text: Option<&[u8]>, has: bool) -> bool {
    match check(PAYLOAD) {
        Ok((dict, _)) => {
            dict.lookup_int(key) == integer
                && dict.lookup_bytes(key) == text
                && dict.has(key) == has
        }
        Err(_) => false,
    }
}

/// The integer at `e` of the dictionary at the key.
fn inner_integer(key: &[u8]) -> Option<i64> {
    let (dict, _) = check(PAYLOAD).ok()?;
    dict.lookup_dict(key)?.lookup_int(b"e")
}

fn both_integers() -> Option<(Option<i64>, Option<i64>)> {
    let (dict, _) = check(PAYLOAD).ok()?;
    Some(dict.lookup_ints(b"c", b"e", b"a"))
}

/// Whether the dictionary at `c` has one pair, `e`, and there is none at `a`.
fn has_inner_pairs() -> bool {
    match check(PAYLOAD) {
        Ok((dict, _)) => match dict.lookup_pairs(b"c") {
            Some(mut pairs) => {
                pairs.next() == Some((b"e".as_slice(), Some(-1)))
                    && pairs.next().is_none()
                    && dict.lookup_pairs(b"a").is_none()
            }
            None => false,
        },
        Err(_) => false,
    }
}

/// Whether `e` is the one pair.
fn is_inner_pair(mut pairs: IntPairs) -> bool {
    pairs.next() == Some((b"e".as_slice(), Some(-1))) && pairs.next().is_none()
}

#[test]
fn pairs_at_a_key(rt: HostRuntime) {
    assert!(rt; has_inner_pairs());
}

#[test]
fn look_ups(rt: HostRuntime) {
    for (key, integer, text, has) in KEYS {
        assert!(rt; is_found(key, *integer, *text, *has), "{key:?}");
    }
    assert!(rt; inner_integer(b"c") == Some(-1) && inner_integer(b"a").is_none());
    assert!(rt; both_integers() == Some((Some(-1), Some(7))));
}

/// The pairs of the payload of 34 bytes.
const PAIRS: &[(&[u8], Option<i64>)] = &[
    (b"a", Some(7)),
    (b"b", None),
    (b"c", None),
    (b"a", Some(8)),
];

fn has_pairs(mut pairs: IntPairs) -> bool {
    for pair in PAIRS {
        if pairs.next() != Some(*pair) {
            return false;
        }
    }
    pairs.next().is_none()
}

/// Whether the payload is read into a dictionary of 34 bytes with these pairs.
fn has_value_pairs(alloc: Global) -> bool {
    match read_dict(alloc, PAYLOAD) {
        Ok((value, len)) => len == 34 && are_pairs_of(&value),
        Err(_) => false,
    }
}

fn are_pairs_of(value: &Value) -> bool {
    match value {
        Value::Dict(pairs) => has_pairs(pairs.int_pairs()),
        _ => false,
    }
}

#[test]
fn pairs_in_order(rt: HostRuntime) {
    assert!(rt; matches!(check(PAYLOAD), Ok((dict, 34)) if has_pairs(dict.int_pairs())));
    assert!(rt; has_value_pairs(rt.alloc()));
}

/// Whether the value at the key is a list of the number 1 and the string `ab`.
fn is_list_of_both(value: &Value, key: &[u8]) -> bool {
    match lookup(value, key) {
        Some(Value::List(items)) => {
            matches!(items.as_slice(), [Value::Int(1), Value::Bytes(text)] if is_ab(text))
        }
        _ => false,
    }
}

fn is_ab(text: &ByteString) -> bool {
    text.as_slice() == b"ab".as_slice() && text.len() == 2 && !text.is_empty()
}

/// Whether the value is the one pair of `k`, by its parts and by a look-up, and its keys are in order.
fn is_whole(value: &Value) -> bool {
    match value {
        Value::Dict(pairs) => {
            pairs.as_slice().len() == 1
                && is_list_of_both(value, b"k")
                && lookup(value, b"a").is_none()
                && is_sorted(value)
        }
        _ => false,
    }
}

fn is_taken_apart(alloc: Global, payload: &[u8]) -> bool {
    match read_dict(alloc, payload) {
        Ok((value, _)) => is_whole(&value),
        Err(_) => false,
    }
}

/// Whether what is made of no items is taken apart into none.
fn is_empty_again(alloc: Global) -> bool {
    ByteString::from_vec(Vec::new(alloc)).into_vec().is_empty()
        && Values::from_vec(Vec::new(alloc)).into_vec().is_empty()
        && Pairs::from_vec(Vec::new(alloc)).into_vec().is_empty()
}

/// Whether the keys of the dictionary's value are out of order.
fn is_unsorted(alloc: Global, payload: &[u8]) -> bool {
    match check(payload) {
        Ok((dict, _)) => match dict.to_value(alloc) {
            Ok(value) => !is_sorted(&value) && dict.first_unsorted().is_some(),
            Err(_) => false,
        },
        Err(_) => false,
    }
}

#[test]
fn parts(rt: HostRuntime) {
    assert!(rt; is_taken_apart(rt.alloc(), b"d1:kli1e2:abee"));
    assert!(rt; is_empty_again(rt.alloc()) && is_unsorted(rt.alloc(), b"d1:b0:1:a0:e"));
}

fn is_told(alloc: Global) -> bool {
    match Bad::Cut.to_string(alloc) {
        Ok(text) => text.as_str() == "the dictionary is cut",
        Err(_) => false,
    }
}

#[test]
fn words(rt: HostRuntime) {
    assert!(rt; is_told(rt.alloc()));
}
