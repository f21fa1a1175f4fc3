//! Devices that move few bytes a call, fail once, and end.
use bt_io::*;
use std::alloc::Global;
use std::io::Cursor;
use std::test::Fail;

/// The size of a read, and the bytes that come; none where it fails.
type Read = (usize, Option<&'static [u8]>);

const READS: &[Read] = &[
    (8, Some(b"ab")),
    (1, Some(b"c")),
    (8, None),
    (0, Some(b"")),
    (8, Some(b"de")),
    (8, Some(b"")),
    (8, Some(b"")),
];

const HOST_READS: &[Read] = &[(2, Some(b"ab")), (8, Some(b"cde")), (8, Some(b""))];

/// Whether a read of `size` bytes gives these, or fails.
fn reads<S: Source>(source: &mut S, size: usize, wanted: Option<&[u8]>) -> bool {
    let mut buffer = [0; 8];
    let Some(into) = buffer.get_mut(..size) else {
        return false;
    };
    match source.read(into) {
        Ok(count) => into.get(..count) == wanted,
        Err(Failed) => wanted.is_none(),
    }
}

/// The number of the first read, counted from 0, that goes otherwise.
fn wrong_read<S: Source>(source: &mut S, rows: &[Read]) -> Option<usize> {
    for (number, (size, wanted)) in rows.iter().enumerate() {
        if !reads(source, *size, *wanted) {
            return Some(number);
        }
    }
    None
}

fn wrong_mem_read(bytes: Vec<u8>) -> Option<usize> {
    wrong_read(&mut MemSource::new(bytes, 2, Some(3)), READS)
}

#[test]
fn sources(rt: HostRuntime) -> Result<(), Fail> {
    let wrong = wrong_mem_read(Vec::from_slice(rt.alloc(), b"abcde")?);
    assert!(rt; wrong.is_none(), "{wrong:?}");
    Ok(())
}

fn wrong_host_read(bytes: &[u8]) -> Option<usize> {
    wrong_read(&mut Host::new(Cursor::new(bytes)), HOST_READS)
}

#[test]
fn host_source(rt: HostRuntime) {
    let wrong = wrong_host_read(b"abcde");
    assert!(rt; wrong.is_none(), "{wrong:?}");
}

/// A write of these bytes, and how many are taken; none where it fails.
type Write = (&'static [u8], Option<usize>);

const WRITES: &[Write] = &[
    (b"abc", Some(2)),
    (b"c", Some(1)),
    (b"de", None),
    (b"", Some(0)),
    (b"de", Some(2)),
];

const STUCK_WRITES: &[Write] = &[(b"abc", Some(0))];

const HOST_WRITES: &[Write] = &[(b"abc", Some(3)), (b"de", Some(2))];

fn writes<T: Target>(target: &mut T, bytes: &[u8], wanted: Option<usize>) -> bool {
    target.write(bytes).ok() == wanted
}

/// The number of the first write, counted from 0, that goes otherwise.
fn wrong_write<T: Target>(target: &mut T, rows: &[Write]) -> Option<usize> {
    for (number, (bytes, wanted)) in rows.iter().enumerate() {
        if !writes(target, bytes, *wanted) {
            return Some(number);
        }
    }
    None
}

fn has(target: &MemTarget, bytes: &[u8]) -> bool {
    target.bytes() == bytes
}

/// A name, what a target holds, how many bytes it takes a write, the call that fails, the writes, and what it holds then.
type Row = (
    &'static str,
    &'static [u8],
    usize,
    Option<u64>,
    &'static [Write],
    &'static [u8],
);

const TARGETS: &[Row] = &[
    ("two bytes a write", b"0", 2, Some(3), WRITES, b"0abcde"),
    ("takes nothing", b"", 0, None, STUCK_WRITES, b""),
];

/// Whether each write goes so, and the target holds these bytes then.
fn is_written(target: &mut MemTarget, rows: &[Write], held: &[u8]) -> bool {
    wrong_write(target, rows).is_none() && has(target, held)
}

fn is_right(alloc: Global, (_, held, most, fails_at, rows, wanted): &Row) -> bool {
    let Ok(bytes) = Vec::from_slice(alloc, held) else {
        return false;
    };
    is_written(&mut MemTarget::new(bytes, *most, *fails_at), rows, wanted)
}

#[test]
fn targets(rt: HostRuntime) {
    for row in TARGETS {
        assert!(rt; is_right(rt.alloc(), row), "{}", row.0);
    }
}

fn is_host_written(bytes: &mut Vec<u8>) -> bool {
    wrong_write(&mut Host::new(Cursor::new(bytes)), HOST_WRITES).is_none()
}

#[test]
fn host_target(rt: HostRuntime) {
    let mut bytes = Vec::new(rt.alloc());
    assert!(rt; is_host_written(&mut bytes) && bytes.as_slice() == b"abcde".as_slice());
}
