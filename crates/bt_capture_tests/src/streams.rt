//! Numbers that wrap, and segments that come out of order, twice or not at all. All values are by hand.
use crate::rings::{Step, Window};
use bt_tcp::{Put, place};
use std::test::Fail;

/// A number near the wrap stands before or after it, whichever is nearer.
#[test]
fn wraps_both_ways(rt: HostRuntime) {
    let first = 0x100_0000_0000u64;
    assert_eq!(rt; place(0xffff_fff0, first, 0xffff_fff0), first);
    assert_eq!(rt; place(0xffff_fff0, first, 0x10), first + 0x20);
    assert_eq!(rt; place(0xffff_fff0, first + 0x20, 0xffff_fff1), first + 1);
    assert_eq!(rt; place(0x10, first, 0xf), first - 1);
}

const FILLS: &[Step] = &[
    Step::Put(1000, b"ab", Put::Taken { from: 0, len: 2 }),
    Step::Ready(b""),
    Step::Put(1004, b"ef", Put::Taken { from: 0, len: 0 }),
    Step::Put(1012, b"x", Put::Full),
    Step::Put(1001, b"?cd??gh", Put::Taken { from: 1, len: 2 }),
    Step::Ready(b"efgh"),
    Step::Ready(b""),
    Step::Next(1008),
    Step::Put(1014, b"op", Put::Taken { from: 0, len: 0 }),
    Step::Put(1008, b"ijklmn", Put::Taken { from: 0, len: 6 }),
    Step::Ready(b"op"),
    Step::Next(1016),
];

/// Segments that come swapped, twice and with another copy of bytes that came before.
#[test]
fn fills_a_gap(rt: HostRuntime) -> Result<(), Fail> {
    Window::new(rt.alloc())?.check(&rt, FILLS)
}
