//! Tables of a peer's names and ids: what extended handshakes make of them.
use crate::bencode::padded;
use bt_bencode::{check, read_dict};
use bt_ext::Table;
use linked_list_allocator::LocalHeap;
use std::alloc::{AllocError, Allocator, Global};

/// Whether the name has the id after the payload is applied to the table.
fn applies<A: Allocator + Copy>(
    table: &mut Table<A>,
    payload: &[u8],
    name: &[u8],
    id: Option<u8>,
) -> bool {
    match check(payload) {
        Ok((dict, _)) => table.apply_ref(&dict).is_ok() && table.id_of(name) == id,
        Err(_) => false,
    }
}

/// Whether the name has the id after the change that the payload makes is prepared, and not before it is made.
fn changes<A: Allocator + Copy>(
    table: &mut Table<A>,
    payload: &[u8],
    name: &[u8],
    id: Option<u8>,
) -> bool {
    let before = table.id_of(name);
    match check(payload) {
        Ok((dict, _)) => match table.prepare(&dict) {
            Ok(update) => {
                let stays = table.id_of(name) == before;
                table.update(update);
                stays && table.id_of(name) == id
            }
            Err(_) => false,
        },
        Err(_) => false,
    }
}

/// Handshakes one after the other, and the id that the name has after each.
const CHANGES: &[(&[u8], Option<u8>)] = &[
    (b"d1:md11:ut_metadatai3eee", Some(3)),
    (b"d1:mdee", Some(3)),
    (b"de", Some(3)),
    (b"d1:md11:ut_metadatai256eee", Some(3)),
    (b"d1:md11:ut_metadatai-1eee", Some(3)),
    (b"d1:md11:ut_metadata1:5ee", Some(3)),
    (b"d1:md11:ut_metadatai9e11:ut_metadatai7eee", Some(9)),
    (b"d1:mi1ee", Some(9)),
    (b"d1:mi1e1:md11:ut_metadatai4eee", Some(9)),
    (b"d1:md11:ut_metadatai256e11:ut_metadatai7eee", Some(9)),
    (b"d1:md11:ut_metadatai0e11:ut_metadatai7eee", None),
    (b"d1:md11:ut_metadatai255eee", Some(255)),
    (b"d1:md11:ut_metadatai0eee", None),
];

/// The number of the first handshake, counted from 0, after which the name has another id.
fn wrong_change(table: &mut Table) -> Option<usize> {
    for (number, (payload, id)) in CHANGES.iter().enumerate() {
        if !applies(table, payload, b"ut_metadata", *id) {
            return Some(number);
        }
    }
    None
}

/// Whether the payload's value gives the name the id in a copy of the table, and the table stays.
fn applies_to_copy(alloc: Global, table: &Table, payload: &[u8], id: u8) -> bool {
    match (table.copy(), read_dict(alloc, payload)) {
        (Ok(mut copy), Ok((value, _))) => {
            copy.apply(&value).is_ok()
                && copy.id_of(b"ut_metadata") == Some(id)
                && table.id_of(b"ut_metadata").is_none()
        }
        _ => false,
    }
}

#[test]
fn one_name(rt: HostRuntime) {
    let mut table = Table::new(rt.alloc());
    let wrong = wrong_change(&mut table);
    assert!(rt; wrong.is_none(), "{wrong:?}");
    assert!(rt; applies_to_copy(rt.alloc(), &table, b"d1:md11:ut_metadatai5eee", 5));
}

/// The number of the first handshake, counted from 0, after whose change the name has another id.
fn wrong_update(table: &mut Table) -> Option<usize> {
    for (number, (payload, id)) in CHANGES.iter().enumerate() {
        if !changes(table, payload, b"ut_metadata", *id) {
            return Some(number);
        }
    }
    None
}

#[test]
fn one_name_prepared(rt: HostRuntime) {
    let mut table = Table::new(rt.alloc());
    let wrong = wrong_update(&mut table);
    assert!(rt; wrong.is_none(), "{wrong:?}");
}

/// How many names of two bytes a handshake has, from `\0\0` on, each with the id 1, the pairs that follow them, a name, and
/// the id that it has.
type Filling = (u16, &'static [u8], &'static [u8], Option<u8>);

const FILLINGS: &[Filling] = &[
    (255, b"", b"\0\xfe", Some(1)),
    (256, b"", b"\0\xff", Some(1)),
    (257, b"", b"\x01\0", None),
    (8999, b"", b"\0\xff", Some(1)),
    (256, b"3:newi7e", b"\0\xff", Some(1)),
    (256, b"3:newi7e", b"new", None),
];

/// A handshake with the names of two bytes from one number to before another, each with the id of this digit, and pairs after them.
fn numbered(
    alloc: Global,
    from: u16,
    to: u16,
    digit: u8,
    pairs: &[u8],
) -> Result<Vec<u8>, AllocError> {
    let mut payload = b"d1:md".to_vec(alloc)?;
    for number in from..to {
        let [high, low] = number.to_be_bytes();
        payload.extend_from_slice(&[b'2', b':', high, low, b'i', digit, b'e'])?;
    }
    payload.extend_from_slice(pairs)?;
    payload.extend_from_slice(b"ee")?;
    Ok(payload)
}

fn filling(alloc: Global, count: u16, pairs: &[u8]) -> Result<Vec<u8>, AllocError> {
    numbered(alloc, 0, count, b'1', pairs)
}

/// What takes the id from one name, gives another its own, and has a new one.
const CHANGE: &[u8] = b"d1:md2:\0\x01i5e2:\0\0i0e3:newi7eee";

/// Whether the name has the id, a name that goes makes room for the next one, and a name that is there takes another id.
fn is_filled(table: &mut Table, payload: &[u8], name: &[u8], id: Option<u8>) -> bool {
    applies(table, payload, name, id)
        && applies(table, CHANGE, b"new", Some(7))
        && table.id_of(b"\0\0").is_none()
        && table.id_of(b"\0\x01") == Some(5)
}

fn is_right(alloc: Global, (count, pairs, name, id): &Filling) -> bool {
    match filling(alloc, *count, pairs) {
        Ok(payload) => is_filled(&mut Table::new(alloc), &payload, name, *id),
        Err(_) => false,
    }
}

/// As many names as a table has room for.
#[test]
fn fillings(rt: HostRuntime) {
    for row in FILLINGS {
        assert!(rt; is_right(rt.alloc(), row), "{} {:?}", row.0, row.2);
    }
}

fn is_right_prepared(alloc: Global, (count, pairs, name, id): &Filling) -> bool {
    let mut table = Table::new(alloc);
    match filling(alloc, *count, pairs) {
        Ok(payload) => {
            changes(&mut table, &payload, name, *id)
                && changes(&mut table, CHANGE, b"new", Some(7))
                && table.id_of(b"\0\x01") == Some(5)
        }
        Err(_) => false,
    }
}

/// The same by changes that are prepared.
#[test]
fn fillings_prepared(rt: HostRuntime) {
    for row in FILLINGS {
        assert!(rt; is_right_prepared(rt.alloc(), row), "{} {:?}", row.0, row.2);
    }
}

/// How many parts of 64 bytes a heap of 65,536 bytes has left.
fn left(alloc: Global, heap: &LocalHeap) -> usize {
    let mut parts = Vec::new(alloc);
    for _ in 0..1_024 {
        let Ok(part) = Vec::<u8, &LocalHeap>::with_capacity(heap, 64) else {
            break;
        };
        if parts.push(part).is_err() {
            break;
        }
    }
    parts.len()
}

/// Whether a table takes a handshake, at once or prepared.
fn takes<A: Allocator + Copy>(table: &mut Table<A>, payload: &[u8], prepares: bool) -> bool {
    let Ok((dict, _)) = check(payload) else {
        return false;
    };
    if !prepares {
        return table.apply_ref(&dict).is_ok();
    }
    match table.prepare(&dict) {
        Ok(update) => {
            table.update(update);
            true
        }
        Err(_) => false,
    }
}

/// The first number and the one after the last of the names of two bytes that a handshake has, and the digit of their ids.
type Numbered = (u16, u16, u8);

/// Handshakes one after the other, after which the table has few names; the first one has the id 5.
const FEW_NAMES: &[&[Numbered]] = &[
    &[(0, 1, b'5')],
    &[(0, 1, b'1'), (0, 1, b'5')],
    &[(0, 1, b'1'), (0, 2, b'5'), (1, 2, b'0')],
    &[(0, 1, b'5'), (1, 18, b'0')],
    &[(0, 17, b'5')],
    &[(0, 256, b'1'), (1, 256, b'0'), (0, 1, b'5')],
    &[(0, 256, b'1'), (1, 256, b'0'), (0, 2, b'5')],
    &[(0, 256, b'5'), (1, 256, b'0'), (1, 18, b'0')],
];

/// Whether a table takes these handshakes one after the other.
fn takes_all<A: Allocator + Copy>(
    alloc: Global,
    table: &mut Table<A>,
    handshakes: &[Numbered],
    prepares: bool,
) -> bool {
    for (from, to, digit) in handshakes {
        match numbered(alloc, *from, *to, *digit, b"") {
            Ok(payload) if takes(table, &payload, prepares) => {}
            _ => return false,
        }
    }
    true
}

/// Whether a table with few names takes few parts of its heap.
fn takes_little(alloc: Global, heap: &LocalHeap, handshakes: &[Numbered], prepares: bool) -> bool {
    let before = left(alloc, heap);
    let mut table = Table::new(heap);
    takes_all(alloc, &mut table, handshakes, prepares)
        && table.id_of(b"\0\0") == Some(5)
        && before > 500
        && before <= left(alloc, heap).saturating_add(32)
}

fn takes_little_of_a_heap(alloc: Global, handshakes: &[Numbered], prepares: bool) -> bool {
    match LocalHeap::new(alloc, 65_536) {
        Ok(heap) => takes_little(alloc, &heap, handshakes, prepares),
        Err(_) => false,
    }
}

/// A table's memory follows its names, whatever change they come from.
#[test]
fn memory_of_names(rt: HostRuntime) {
    for handshakes in FEW_NAMES {
        assert!(rt;
            takes_little_of_a_heap(rt.alloc(), handshakes, false),
            "{handshakes:?}"
        );
        assert!(rt;
            takes_little_of_a_heap(rt.alloc(), handshakes, true),
            "{handshakes:?}, prepared"
        );
    }
}

/// A name of 255 letters, and one of 256.
const E255: &[u8] = &[b'e'; 255];

const E256: &[u8] = &[b'e'; 256];

/// The bytes before the letters of a name, their number with these bytes, the name, and the id that it has.
const LONG: &[(&[u8], usize, &[u8], Option<u8>)] = &[
    (b"d1:md255:", 264, E255, Some(1)),
    (b"d1:md256:", 265, E256, None),
];

fn is_long(alloc: Global, front: &[u8], length: usize, name: &[u8], id: Option<u8>) -> bool {
    match padded(alloc, front, length, b"i1eee") {
        Ok(payload) => applies(&mut Table::new(alloc), &payload, name, id),
        Err(_) => false,
    }
}

#[test]
fn long_names(rt: HostRuntime) {
    for (front, length, name, id) in LONG {
        assert!(rt; is_long(rt.alloc(), front, *length, name, *id), "{length}");
    }
}
