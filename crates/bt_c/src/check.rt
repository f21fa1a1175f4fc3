//! The verdict on a whole stream in one call.
ghost use Rattle.std.specs.Prelude.{◌≡◌, ◌≢◌, ◌≤◌, ◌+◌, ◌-◌, ◌^◌, min, length, drop};
ghost use Rattle.bt_wire.specs.Streams.{Outcome, IsVerdict};
ghost use Rattle.bt_c.specs.Readers.{own_of};
ghost use Rattle.bt_c.specs.Runs.{ShowsVerdict};

use crate::item::{BtItem, bare};
use crate::reader::{END, ITEM, fresh, last_item};
use crate::receiver::BtOwn;
use bt_bencode::suffix;

/// The verdict on a stream.
#[repr(C)]
#[derive(Clone, Copy)]
pub struct BtVerdict {
    /// The number of the refused message, 0 for the handshake.
    ///
    /// Of an accepted stream how many messages it has.
    pub message: u64,
    /// The offset of the refusal, from the start of the stream.
    ///
    /// Of an accepted stream how many bytes it has.
    pub at: u64,
    /// 0, or the number of the reason.
    pub reason: u8,
}

/// Judges the bytes as a whole stream.
///
/// Returns 3 if the stream is accepted, and 2 if it is refused.
#[unsafe(no_mangle)]
pub extern "C" fn bt_check(own: &BtOwn, bytes: &[u8], verdict: &mut BtVerdict) -> u32
    ensures { (v : Outcome) × IsVerdict (own_of own.now) bytes.now v × ShowsVerdict verdict.new bytes.now v result }
{
    let _limit = own.limit;
    let mut reader = fresh(own);
    let mut item = bare(0, 0, 0);
    let mut at = 0usize;
    let mut count = 0u64;
    'items: loop {
        let answer = last_item(&mut reader, suffix(bytes, at), &mut item);
        if answer != ITEM {
            *verdict = verdict_of(answer, count, bytes.len(), &item);
            return answer;
        }
        at += item.size;
        count += 1;
    }
}

/// The verdict after `count` items, by the answer of the last call.
fn verdict_of(answer: u32, count: u64, size: usize, item: &BtItem) -> BtVerdict
    ensures end { answer ≡ 3 → (result.message ≡ count - 1) × (result.at ≡ size) × (result.reason ≡ 0) }
    ensures refused { answer ≢ 3 → (result.message ≡ count) × (result.at ≡ min (item.now.start + item.now.size) (2 ^ 64 - 1)) × (result.reason ≡ item.now.reason) }
{
    if answer == END {
        BtVerdict {
            message: count.saturating_sub(1),
            at: size as u64,
            reason: 0,
        }
    } else {
        BtVerdict {
            message: count,
            at: item.start.saturating_add(item.size as u64),
            reason: item.reason,
        }
    }
}
