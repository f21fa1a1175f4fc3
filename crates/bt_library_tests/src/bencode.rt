//! Bencoding: payloads that are read, the limits, and values without a spelling.
use bt_bencode::*;
use std::alloc::{AllocError, Global};

/// Whether checking the payload gives the answer, and the dictionary's bytes.
fn is_checked(payload: &[u8], answer: Result<usize, Bad>) -> bool {
    match check(payload) {
        Ok((dict, len)) => answer == Ok(len) && dict.spelled().len() == len,
        Err(bad) => answer == Err(bad),
    }
}

/// A payload, and the length of the dictionary that it begins with, or why there is none.
type Row = (&'static [u8], Result<usize, Bad>);

const PAYLOADS: &[Row] = &[
    (b"", Err(Bad::Cut)),
    (b"le", Err(Bad::Impossible { at: 0 })),
    (b"de", Ok(2)),
    (b"deanything", Ok(2)),
    (b"d1:ai01ee", Err(Bad::Impossible { at: 6 })),
    (b"d1:aie", Err(Bad::Impossible { at: 5 })),
    (b"d01:ai1ee", Err(Bad::Impossible { at: 2 })),
    (b"d1:ae", Err(Bad::Impossible { at: 4 })),
    (b"d1:a9223", Err(Bad::Cut)),
    (b"d1:a1048577:", Err(Bad::Impossible { at: 10 })),
    (b"d1048577:", Err(Bad::Impossible { at: 7 })),
    (b"d1:ai9223372036854775807ee", Ok(26)),
    (
        b"d1:ai9223372036854775808ee",
        Err(Bad::Impossible { at: 23 }),
    ),
    (b"d1:ai-9223372036854775808ee", Ok(27)),
    (
        b"d1:ai-9223372036854775809ee",
        Err(Bad::Impossible { at: 24 }),
    ),
    (b"d1:ai-ee", Err(Bad::Impossible { at: 6 })),
    (b"d1:ai-0ee", Err(Bad::Impossible { at: 6 })),
    (b"d1:ai0ee", Ok(8)),
    (b"d1:ai1e1:ai2ee", Ok(14)),
    (b"d1:b0:1:a0:e", Ok(12)),
    (b"d1:ad1:ci1e1:bi2eee", Ok(19)),
    (b"d1:a0:e", Ok(7)),
    (b"d1:a00:e", Err(Bad::Impossible { at: 5 })),
    (b"d1:a01:be", Err(Bad::Impossible { at: 5 })),
    (b"d00:i1ee", Err(Bad::Impossible { at: 2 })),
    (b"d1a:i1ee", Err(Bad::Impossible { at: 2 })),
    (b"d1:a1xe", Err(Bad::Impossible { at: 5 })),
    (b"d1:a5:bcd", Err(Bad::Cut)),
    (b"d5:ab", Err(Bad::Cut)),
    (b"di1e1:be", Err(Bad::Impossible { at: 1 })),
    (b"dli1eee", Err(Bad::Impossible { at: 1 })),
    (b"dde1:ae", Err(Bad::Impossible { at: 1 })),
    (b"d1:ai1ei2ei3ee", Err(Bad::Impossible { at: 7 })),
    (b"d1:ai03ee", Err(Bad::Impossible { at: 6 })),
    (b"d1:ai-03ee", Err(Bad::Impossible { at: 6 })),
    (b"d1:ai--1ee", Err(Bad::Impossible { at: 6 })),
    (b"d1:ai1-ee", Err(Bad::Impossible { at: 6 })),
    (b"d1:ali1e-e", Err(Bad::Impossible { at: 8 })),
    (b"d1:ai9223372036854775799ee", Ok(26)),
    (b"d1:ai9223372036854775800ee", Ok(26)),
    (b"d1:ai-9223372036854775799ee", Ok(27)),
    (b"d1:ai-9223372036854775800ee", Ok(27)),
    (
        b"d1:ai9223372036854775810ee",
        Err(Bad::Impossible { at: 23 }),
    ),
    (
        b"d1:ai92233720368547758070ee",
        Err(Bad::Impossible { at: 24 }),
    ),
    (b"d1:ai9223372036854775807e1:bl1:xi-5eld0:0:eeee", Ok(46)),
    (
        b"d1:ai9223372036854775807e1:bl1:xi-5eld0:0:eeei1ee",
        Err(Bad::Impossible { at: 45 }),
    ),
];

#[test]
fn payloads(rt: HostRuntime) {
    for (payload, answer) in PAYLOADS {
        assert!(rt; is_checked(payload, *answer), "{payload:?}");
    }
}

/// A payload, and the length of the dictionary that it begins with, whose keys are sorted at each depth.
///
/// If it has none: the offset of the first key out of order, or `None` if it begins with no dictionary.
type SortedRow = (&'static [u8], Result<usize, Option<usize>>);

const SORTED: &[SortedRow] = &[
    (b"", Err(None)),
    (b"le", Err(None)),
    (b"de", Ok(2)),
    (b"d1:ai1e1:bi2eerest", Ok(14)),
    (b"d1:bi1e1:ai2ee", Err(Some(7))),
    (b"d1:ai1e1:ai2ee", Err(Some(7))),
    (b"d1:ad1:yi1e1:xi2eee", Err(Some(11))),
    (b"d1:bi1e1:ai01ee", Err(None)),
    (b"d1:bi1e1:ai0ei1ee", Err(None)),
    (b"d1:bi1e1:ai0e1:", Err(None)),
    (b"d1:al1:xd1:bi1e1:ai2eeee", Err(Some(15))),
    (b"d1:al1:xd1:bi1e1:ai2eeex", Err(None)),
    (b"d1:al1:xd1:bi1e1:ai2ee", Err(None)),
    (b"d1:al1:xld1:yi-0eeeee", Err(None)),
    (b"d8:msg_typei0e5:piecei3e", Err(None)),
    (b"", Err(None)),
    (b"le", Err(None)),
    (b"d1:al2:xyi-5edeee", Ok(17)),
    (b"d1:ai9223372036854775807ee", Ok(26)),
    (b"d1:ai-9223372036854775808ee", Ok(27)),
    (b"d1:ai9223372036854775808ee", Err(None)),
    (b"d1:ai-9223372036854775809ee", Err(None)),
    (b"d1:ai92233720368547758070ee", Err(None)),
    (b"d1:ai-0ee", Err(None)),
    (b"d1:ai01ee", Err(None)),
    (b"d1:ae", Err(None)),
    (b"d1:ai1e", Err(None)),
];

/// Whether `check` refuses the payload for this reason.
fn is_refused_for(payload: &[u8], why: Bad) -> bool {
    match check(payload) {
        Ok(_) => false,
        Err(bad) => bad == why,
    }
}

/// Whether the pass that compares keys gives the answer, and of a wrong byte the place that `check` gives.
fn is_sorted_in_one_pass(payload: &[u8], answer: Result<usize, Option<usize>>) -> bool {
    match check_sorted_ints(payload, b"a", b"b", b"c") {
        Ok((dict, len, _, _, _)) => answer == Ok(len) && dict.spelled().len() == len,
        Err(Disorder::Bytes(bad)) => answer == Err(None) && is_refused_for(payload, bad),
        Err(Disorder::Order { at }) => answer == Err(Some(at)),
    }
}

#[test]
fn one_pass(rt: HostRuntime) {
    for (payload, answer) in SORTED {
        assert!(rt; is_sorted_in_one_pass(payload, *answer), "{payload:?}");
    }
}

/// Payloads, and whether they have a dictionary at `m`, and what they have at `size`, if their keys are sorted.
const PAIRS_AND_INTS: &[(&[u8], Option<(bool, Option<Option<i64>>)>)] = &[
    (
        b"d1:md1:ai1e1:bi2ee4:sizei7eerest",
        Some((true, Some(Some(7)))),
    ),
    (b"d1:mdee", Some((true, None))),
    (b"d1:mi1e4:size0:e", Some((false, Some(None)))),
    (b"d4:sizei7e1:mdee", None),
];

/// Whether the pass finds what the payload has at `m` and `size`.
fn has_pairs_and_int(payload: &[u8], answer: Option<(bool, Option<Option<i64>>)>) -> bool {
    match check_sorted_pairs_and_int(payload, b"m", b"size") {
        Ok((_, _, pairs, int)) => answer == Some((pairs.flatten().is_some(), int)),
        Err(_) => answer.is_none(),
    }
}

#[test]
fn pairs_and_ints_in_one_pass(rt: HostRuntime) {
    for (payload, answer) in PAIRS_AND_INTS {
        assert!(rt; has_pairs_and_int(payload, *answer), "{payload:?}");
    }
}

/// Whether the pass finds these integers at `a`, `b` and `c`.
fn has_ints(payload: &[u8], ints: (Option<i64>, Option<i64>, Option<i64>)) -> bool {
    match check_sorted_ints(payload, b"a", b"b", b"c") {
        Ok((_, _, one, two, three)) => ints == (one, two, three),
        Err(_) => false,
    }
}

#[test]
fn ints_in_one_pass(rt: HostRuntime) {
    let ints = (Some(1), None, Some(-3));
    assert!(rt; has_ints(b"d1:ai1e1:b1:x1:ci-3ee", ints));
}

/// Payloads that are cut after each byte.
const CUT: &[&[u8]] = &[
    b"d0:i-10e1:bl0:12:abcdefghijkli0ee1:cd2:ddlleeee",
    b"d1:md11:ut_metadatai3e6:ut_pexi1ee4:reqqi250e1:v17:Transmission 2.94e",
    b"d1:ai9223372036854775807e1:bl1:xi-5eld0:0:eeee",
];

/// The first length at which the payload, cut there, is checked otherwise than as cut.
fn wrong_cut(payload: &[u8]) -> Option<usize> {
    for n in 0..payload.len() {
        if !is_checked(&payload[..n], Err(Bad::Cut)) {
            return Some(n);
        }
    }
    None
}

#[test]
fn prefixes(rt: HostRuntime) {
    for payload in CUT {
        assert!(rt; wrong_cut(payload).is_none(), "{payload:?}");
    }
}

/// The bytes of `front`, then letters `e` up to this length, and then the bytes of `back`.
pub(crate) fn padded(
    alloc: Global,
    front: &[u8],
    length: usize,
    back: &[u8],
) -> Result<Vec<u8>, AllocError> {
    let mut bytes = front.to_vec(alloc)?;
    bytes.resize(length, b'e')?;
    bytes.extend_from_slice(back)?;
    Ok(bytes)
}

/// A payload's first bytes, up to which length letters `e` follow, its last bytes, and its answer.
type BuiltRow = (&'static [u8], usize, &'static [u8], Result<usize, Bad>);

/// The deepest nestings: 31 and 32 lists, and 31 and 32 dictionaries. Then strings and keys of 1,048,569, 1,048,570 and
/// 1,048,576 bytes, cut before the last byte and whole.
const BUILT: &[BuiltRow] = &[
    (b"d1:plllllllllllllllllllllllllllllll", 67, b"", Ok(67)),
    (
        b"d1:pllllllllllllllllllllllllllllllll",
        69,
        b"",
        Err(Bad::Impossible { at: 35 }),
    ),
    (
        b"d1:pd0:d0:d0:d0:d0:d0:d0:d0:d0:d0:d0:d0:d0:d0:d0:d0:d0:d0:d0:d0:d0:d0:d0:d0:d0:d0:d0:d0:d0:d0:d0:0:",
        131,
        b"",
        Ok(131),
    ),
    (
        b"d1:pd0:d0:d0:d0:d0:d0:d0:d0:d0:d0:d0:d0:d0:d0:d0:d0:d0:d0:d0:d0:d0:d0:d0:d0:d0:d0:d0:d0:d0:d0:d0:d0:0:",
        135,
        b"",
        Err(Bad::Impossible { at: 97 }),
    ),
    (b"d1:a1048569:", 1_048_581, b"", Err(Bad::Cut)),
    (b"d1:a1048569:", 1_048_582, b"", Ok(1_048_582)),
    (b"d1048569:", 1_048_578, b"", Err(Bad::Cut)),
    (b"d1048569:", 1_048_578, b"i1ee", Ok(1_048_582)),
    (b"d1:a1048570:", 1_048_582, b"", Err(Bad::Cut)),
    (b"d1:a1048570:", 1_048_583, b"", Ok(1_048_583)),
    (b"d1048570:", 1_048_579, b"", Err(Bad::Cut)),
    (b"d1048570:", 1_048_579, b"i1ee", Ok(1_048_583)),
    (b"d1:a1048576:", 1_048_588, b"", Err(Bad::Cut)),
    (b"d1:a1048576:", 1_048_589, b"", Ok(1_048_589)),
    (b"d1048576:", 1_048_585, b"", Err(Bad::Cut)),
    (b"d1048576:", 1_048_585, b"i1ee", Ok(1_048_589)),
];

fn is_built(alloc: Global, (front, length, back, answer): &BuiltRow) -> bool {
    match padded(alloc, front, *length, back) {
        Ok(payload) => is_checked(&payload, *answer),
        Err(_) => false,
    }
}

#[test]
fn built_payloads(rt: HostRuntime) {
    for row in BUILT {
        assert!(rt; is_built(rt.alloc(), row), "{} {:?}", row.1, row.3);
    }
}

/// Whether the value is spelled as these bytes.
pub(crate) fn is_spelled(alloc: Global, value: &Value, bytes: &[u8]) -> bool {
    match spell(alloc, value) {
        Ok(spelled) => spelled.as_slice() == bytes && ben_len(value) == spelled.len() as u64,
        Err(_) => false,
    }
}

/// Whether the payload is one dictionary, which is read into memory and spelled as the payload again.
fn is_read_back(alloc: Global, payload: &[u8]) -> bool {
    match read_dict(alloc, payload) {
        Ok((value, len)) => len == payload.len() && is_spelled(alloc, &value, payload),
        Err(_) => false,
    }
}

/// Payloads that aren't read, why, and how far each is that of a dictionary.
const UNREAD: &[(&[u8], ReadError, usize)] = &[
    (b"d1:ai01ee", ReadError::Impossible { at: 6 }, 6),
    (b"d1:a9223", ReadError::Cut, 8),
];

fn is_unread(alloc: Global, payload: &[u8], error: ReadError, at: usize) -> bool {
    read_dict(alloc, payload).err() == Some(error) && place(payload) == at
}

/// Values that are read into memory, and payloads that aren't.
#[test]
fn values(rt: HostRuntime) {
    for payload in CUT {
        assert!(rt; is_read_back(rt.alloc(), payload), "{payload:?}");
    }
    for (payload, error, at) in UNREAD {
        assert!(rt; is_unread(rt.alloc(), payload, *error, *at), "{at}");
    }
}

/// Whether the value's spelling has `len` bytes; none where the value is out of range.
fn has_len(alloc: Global, value: &Value, len: Option<usize>) -> bool {
    match spell(alloc, value) {
        Ok(bytes) => len == Some(bytes.len()) && fits(value),
        Err(error) => len.is_none() && error == SpellError::OutOfRange && !fits(value),
    }
}

/// `depth` lists, each in the one before.
fn nested(alloc: Global, depth: usize) -> Result<Value, AllocError> {
    let mut items = Vec::new(alloc);
    for _ in 1..depth {
        let mut outer = Vec::new(alloc);
        outer.push(Value::List(Values::from_vec(items)))?;
        items = outer;
    }
    Ok(Value::List(Values::from_vec(items)))
}

/// A string of `len` bytes.
fn long(alloc: Global, len: usize) -> Result<ByteString, AllocError> {
    Ok(ByteString::from_vec(vec![in alloc; b's'; len]?))
}

/// A dictionary whose one key has `len` bytes.
fn keyed(alloc: Global, len: usize) -> Result<Value, AllocError> {
    let mut pairs = Vec::new(alloc);
    pairs.push((long(alloc, len)?, Value::Int(1)))?;
    Ok(Value::Dict(Pairs::from_vec(pairs)))
}

/// A kind of value that has no spelling above some size.
enum Large {
    /// Lists, nested as deep as the size.
    Lists,
    /// A string of as many bytes.
    Text,
    /// A dictionary with a key of as many bytes.
    Key,
}

fn value_of(alloc: Global, kind: &Large, size: usize) -> Result<Value, AllocError> {
    match kind {
        Large::Lists => nested(alloc, size),
        Large::Text => Ok(Value::Bytes(long(alloc, size)?)),
        Large::Key => keyed(alloc, size),
    }
}

/// A value's kind and size, and the length of its spelling, if it has one.
const LARGE: &[(Large, usize, Option<usize>)] = &[
    (Large::Lists, 32, Some(64)),
    (Large::Lists, 33, None),
    (Large::Text, 1_048_576, Some(1_048_584)),
    (Large::Text, 1_048_577, None),
    (Large::Key, 1_048_576, Some(1_048_589)),
    (Large::Key, 1_048_577, None),
];

fn is_large(alloc: Global, (kind, size, len): &(Large, usize, Option<usize>)) -> bool {
    match value_of(alloc, kind, *size) {
        Ok(value) => has_len(alloc, &value, *len),
        Err(_) => false,
    }
}

#[test]
fn values_out_of_range(rt: HostRuntime) {
    for row in LARGE {
        assert!(rt; is_large(rt.alloc(), row), "{}", row.1);
    }
}
