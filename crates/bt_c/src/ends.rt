//! The calls for C. Each takes the end out of what C holds, does its work and puts the end back.
ghost use Rattle.std.specs.Prelude.{◌≡◌, ◌≢◌, ◌≤◌, ◌<◌, ◌++◌, length, take, drop, min, nat_lt, Some, None, MatchResult};
ghost use Rattle.sha1.specs.Sha1.{sha1};
ghost use Rattle.bt_c.specs.Calls.{IsNew, IsNotNew, IsMadeAs, Handles, to_send, sent_by, fetched, progress_in, ShowsProgress};
ghost use Rattle.bt_c.specs.Calls.{hopeless_in, mismatches_in, IsReset, IsBegunBy, windowed};

use crate::check::BtVerdict;
use crate::config::{BtEndConfig, config_of, window_of};
use crate::held::BtEnd;
use crate::status::{MEMORY, NO_END, OK, begun_status, made_status, stop};
use bt_end::End;
use std::alloc::Global;

/// How far a fetch has come.
#[repr(C)]
#[derive(Clone, Copy)]
pub struct BtProgress {
    /// The size of the metadata in bytes.
    pub size: u64,
    /// How many blocks it has.
    pub blocks: u64,
    /// How many of them are held.
    pub held: u64,
}

/// An end on the heap.
fn made(alloc: Global, config: &BtEndConfig, metadata: &[u8]) -> Result<Box<End>, u32>
    ensures { MatchResult result (λ b. IsNew config.now metadata.now b.value) (λ n. IsNotNew config.now metadata.now n) }
{
    let Ok(config) = config_of(alloc, config, metadata) else {
        return Err(MEMORY);
    };
    match End::new(alloc, config) {
        Ok(end) => match Box::new(alloc, end) {
            Ok(end) => Ok(end),
            Err(_) => Err(MEMORY),
        },
        Err(error) => Err(made_status(error)),
    }
}

/// Makes an end. One that was held before is freed.
#[unsafe(no_mangle)]
pub extern "C" fn bt_end_new(
    alloc: Global,
    end: &mut BtEnd,
    config: &BtEndConfig,
    metadata: &[u8],
) -> u32
    ensures { IsMadeAs config.now metadata.now end.new.slot.value result }
{
    let _ = end.take(alloc);
    match made(alloc, config, metadata) {
        Ok(made) => {
            end.put(made);
            OK
        }
        Err(status) => status,
    }
}

/// Frees an end. If there is none, nothing happens.
#[unsafe(no_mangle)]
pub extern "C" fn bt_end_free(alloc: Global, end: &mut BtEnd)
    ensures { end.new.slot.value ≡ None }
{
    let _ = end.take(alloc);
}

/// Handles bytes from the peer, and returns how many were used.
///
/// If they are refused, the verdict has the offset and the reason.
#[unsafe(no_mangle)]
pub extern "C" fn bt_end_handle(
    alloc: Global,
    end: &mut BtEnd,
    bytes: &[u8],
    used: &mut u64,
    verdict: &mut BtVerdict,
) -> u32
    ensures { Handles end.old.slot.value bytes.now verdict.old used.new verdict.new end.new.slot.value result }
{
    match end.take(alloc) {
        None => {
            *used = 0;
            NO_END
        }
        Some(mut held) => {
            let (count, answer) = held.handle(bytes);
            end.put(held);
            *used = count as u64;
            stop(answer, verdict)
        }
    }
}

/// Copies as many of the first bytes as there is room for, and returns how many.
fn put(bytes: &[u8], out: &mut [u8]) -> usize
    ensures count { result ≡ min (length bytes.now) (length out.old) }
    ensures bytes { out.new ≡ take result bytes.now ++ drop result out.old }
{
    let count = bytes.len().min(out.len());
    out[..count].copy_from_slice(&bytes[..count]);
    count
}

/// Returns how many bytes wait to be sent.
#[unsafe(no_mangle)]
pub extern "C" fn bt_end_waiting(alloc: Global, end: &mut BtEnd) -> usize
    ensures value { result ≡ length (to_send end.old.slot.value) }
    ensures same { end.new.slot.value ≡ end.old.slot.value }
{
    match end.take(alloc) {
        None => 0,
        Some(held) => {
            let count = held.outgoing().len();
            end.put(held);
            count
        }
    }
}

/// Copies the first bytes that wait to be sent, and returns how many.
#[unsafe(no_mangle)]
pub extern "C" fn bt_end_outgoing(alloc: Global, end: &mut BtEnd, out: &mut [u8]) -> usize
    ensures count { result ≡ min (length (to_send end.old.slot.value)) (length out.old) }
    ensures bytes { out.new ≡ take result (to_send end.old.slot.value) ++ drop result out.old }
    ensures same { end.new.slot.value ≡ end.old.slot.value }
{
    match end.take(alloc) {
        None => 0,
        Some(held) => {
            let count = put(held.outgoing(), out);
            end.put(held);
            count
        }
    }
}

/// Drops the first `n` of them, or all if they are fewer.
#[unsafe(no_mangle)]
pub extern "C" fn bt_end_sent(alloc: Global, end: &mut BtEnd, n: usize)
    ensures { end.new.slot.value ≡ sent_by n end.old.slot.value }
{
    if let Some(mut held) = end.take(alloc) {
        let waiting = held.outgoing().len();
        held.sent(n.min(waiting));
        end.put(held);
    }
}

/// Copies the metadata, if it was fetched and there is room for it.
///
/// Returns how many bytes it has, or 0.
#[unsafe(no_mangle)]
pub extern "C" fn bt_end_metadata(alloc: Global, end: &mut BtEnd, out: &mut [u8]) -> usize
    ensures size { result ≡ length (fetched end.old.slot.value) }
    ensures bytes { result ≤ length out.old → out.new ≡ fetched end.old.slot.value ++ drop result out.old }
    ensures unwritten { length out.old < result → out.new ≡ out.old }
    ensures same { end.new.slot.value ≡ end.old.slot.value }
{
    match end.take(alloc) {
        None => 0,
        Some(held) => {
            let count = match held.metadata() {
                None => 0,
                Some(metadata) => {
                    if metadata.len() <= out.len() {
                        put(metadata, out);
                    }
                    metadata.len()
                }
            };
            end.put(held);
            count
        }
    }
}

/// Returns 1 and how far the fetch has come if a size is known, otherwise 0.
#[unsafe(no_mangle)]
pub extern "C" fn bt_end_progress(alloc: Global, end: &mut BtEnd, progress: &mut BtProgress) -> u32
    ensures value { ShowsProgress (progress_in end.old.slot.value) progress.new result }
    ensures same { end.new.slot.value ≡ end.old.slot.value }
{
    match end.take(alloc) {
        None => 0,
        Some(held) => {
            let answer = match held.progress() {
                None => 0,
                Some(p) => {
                    *progress = BtProgress {
                        size: p.size,
                        blocks: p.blocks as u64,
                        held: p.held as u64,
                    };
                    1
                }
            };
            end.put(held);
            answer
        }
    }
}

/// Returns whether it fetches, and by what is known no block can come any more on this connection.
#[unsafe(no_mangle)]
pub extern "C" fn bt_end_is_hopeless(alloc: Global, end: &mut BtEnd) -> u32
    ensures value { nat_lt 0 result ≡ hopeless_in end.old.slot.value }
    ensures same { end.new.slot.value ≡ end.old.slot.value }
{
    match end.take(alloc) {
        None => 0,
        Some(held) => {
            let hopeless = held.is_hopeless();
            end.put(held);
            u32::from(hopeless)
        }
    }
}

/// Returns how often, on this connection, the blocks were those of other metadata.
#[unsafe(no_mangle)]
pub extern "C" fn bt_end_mismatches(alloc: Global, end: &mut BtEnd) -> u64
    ensures value { result ≡ mismatches_in end.old.slot.value }
    ensures same { end.new.slot.value ≡ end.old.slot.value }
{
    match end.take(alloc) {
        None => 0,
        Some(held) => {
            let count = held.mismatches();
            end.put(held);
            count
        }
    }
}

/// Begins a new connection. What was fetched stays.
#[unsafe(no_mangle)]
pub extern "C" fn bt_end_reset(alloc: Global, end: &mut BtEnd) -> u32
    ensures { IsReset end.old.slot.value end.new.slot.value result }
{
    match end.take(alloc) {
        None => NO_END,
        Some(mut held) => {
            let answer = held.reset();
            end.put(held);
            if answer.is_ok() { OK } else { MEMORY }
        }
    }
}

/// Begins a fetch of this size anew. All blocks that are held are dropped.
#[unsafe(no_mangle)]
pub extern "C" fn bt_end_begin(alloc: Global, end: &mut BtEnd, size: u64) -> u32
    ensures { IsBegunBy end.old.slot.value size end.new.slot.value result }
{
    match end.take(alloc) {
        None => NO_END,
        Some(mut held) => {
            let answer = held.begin(size);
            end.put(held);
            begun_status(answer)
        }
    }
}

/// Requests at most this many blocks at once from now on.
#[unsafe(no_mangle)]
pub extern "C" fn bt_end_set_window(alloc: Global, end: &mut BtEnd, window: u8)
    ensures { end.new.slot.value ≡ windowed window end.old.slot.value }
{
    if let Some(mut held) = end.take(alloc) {
        held.set_window(window_of(window));
        end.put(held);
    }
}
