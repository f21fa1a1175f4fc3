//! Metadata over a wire in memory, which moves few bytes a call or fails once.
use bt_ext::Rules;
use bt_io::{MemSource, MemTarget};
use bt_loop::{LoopEnd, MemWire, run_loop, status};
use bt_text::ended::ToolFault;
use std::test::Fail;

/// What is printed of `abc`, of the 56 letters and of one million letters `a` (FIPS 180-4).
const ABC: &[u8] = b"fetched bytes=3 sha1=a9993e364706816aba3e25717850c26c9cd0d89d\n\
left sent=3 handled=3\nright sent=3 handled=3\n";

const LETTERS: &[u8] = b"fetched bytes=56 sha1=84983e441c3bd26ebaae4aa1f95129e5e54670f1\n\
left sent=3 handled=3\nright sent=3 handled=3\n";

const MILLION: &[u8] = b"fetched bytes=1000000 sha1=34aa973cd4c4daa4f61eeb2bdbad27316534016f\n\
left sent=64 handled=64\nright sent=64 handled=64\n";

/// How a loop ends over a wire that moves `most` bytes a call and fails at a call, what it prints, and how many calls it makes.
fn looped(
    rt: &HostRuntime,
    input: Vec<u8>,
    most: usize,
    fails_at: Option<u64>,
) -> (Result<LoopEnd, ToolFault>, MemTarget, u64) {
    let mut reader = MemSource::new(input, 4_096, None);
    let mut writer = MemTarget::new(Vec::new(rt.alloc()), 4_096, None);
    let mut wire = MemWire::new(rt.alloc(), most.max(1), fails_at);
    let end = run_loop(
        rt.alloc(),
        &mut reader,
        &mut writer,
        &mut wire,
        Rules::Bep,
        262_144,
    );
    (end, writer, wire.calls())
}

/// Whether a loop over a sound wire fetches, and prints these lines.
fn fetches(rt: &HostRuntime, input: Vec<u8>, most: usize, lines: &[u8]) -> bool {
    let (end, writer, _) = looped(rt, input, most, None);
    end == Ok(LoopEnd::Fetched) && status(&end) == 0 && writer.bytes() == lines
}

/// Whether a loop of `abc` over a wire that fails at this call ends so at once, and prints nothing.
fn ends(rt: &HostRuntime, fails_at: u64, wanted: Result<LoopEnd, ToolFault>) -> Result<bool, Fail> {
    let abc = Vec::from_slice(rt.alloc(), b"abc")?;
    let (end, writer, calls) = looped(rt, abc, 4_096, Some(fails_at));
    Ok(end == wanted && status(&end) == 3 && writer.bytes().is_empty() && calls == fails_at)
}

#[test]
fn rows(rt: HostRuntime) -> Result<(), Fail> {
    let letters = b"abcdbcdecdefdefgefghfghighijhijkijkljklmklmnlmnomnopnopq";
    let mut right = true;
    for most in [1, 7, 4_096] {
        right = right && fetches(&rt, Vec::from_slice(rt.alloc(), b"abc")?, most, ABC);
        right = right && fetches(&rt, Vec::from_slice(rt.alloc(), letters)?, most, LETTERS);
        right = right && fetches(&rt, vec![in rt.alloc(); 97u8; 1_000_000]?, most, MILLION);
    }
    assert!(rt; right);
    Ok(())
}

/// Three rounds, in which each side that has something to send makes a call, and the other side one more:
///
/// 1. left sends its handshake, 68 bytes, and right its own and its extended handshake, 98 bytes;
/// 2. left sends its extended handshake, 49 bytes, and right its request, 31 bytes;
/// 3. left sends the data message, 50 bytes, and right has nothing to send.
///
/// So 10 calls are made, and the 11th isn't.
#[test]
fn failing_wire(rt: HostRuntime) -> Result<(), Fail> {
    let mut right = true;
    for call in 1..11 {
        right = right && ends(&rt, call, Err(ToolFault::Net))?;
    }
    assert!(rt; right);
    let abc = Vec::from_slice(rt.alloc(), b"abc")?;
    let (end, writer, calls) = looped(&rt, abc, 4_096, Some(11));
    assert!(rt; end == Ok(LoopEnd::Fetched) && writer.bytes() == ABC && calls == 10);
    Ok(())
}

#[test]
fn wrong_size(rt: HostRuntime) -> Result<(), Fail> {
    let (end, writer, calls) = looped(&rt, Vec::new(rt.alloc()), 4_096, None);
    assert!(rt; end == Ok(LoopEnd::BadSize) && status(&end) == 1 && writer.bytes().is_empty());
    assert!(rt; calls == 0);
    Ok(())
}
