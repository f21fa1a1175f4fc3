//! Many items in one call.
ghost use Rattle.std.specs.Prelude.{◌≡◌};
ghost use Rattle.bt_c.specs.Runs.{IsBatch};

use crate::item::BtItem;
use crate::reader::{BtReader, ITEM, context_of, next_by};
use bt_bencode::suffix;

/// How many items a batch has, and how many bytes they have.
#[repr(C)]
#[derive(Clone, Copy)]
pub struct BtBatch {
    pub count: usize,
    pub used: usize,
}

/// Reads items into the array, as many as have room.
///
/// They are those of calls of [`bt_reader_next`](crate::bt_reader_next) in a row.
///
/// Returns 1 if the array is full. Otherwise it returns what the call after these items returns, which shows a refusal in the
/// next item of the array.
#[unsafe(no_mangle)]
pub extern "C" fn bt_reader_batch(
    reader: &mut BtReader,
    bytes: &[u8],
    items: &mut [BtItem],
    batch: &mut BtBatch,
) -> u32
    ensures { IsBatch reader.old bytes.now reader.new items.old items.new batch.new.count batch.new.used result }
{
    let mut context = context_of(reader);
    let mut count = 0usize;
    let mut used = 0usize;
    'items: loop {
        if count == items.len() {
            *batch = BtBatch { count, used };
            return ITEM;
        }
        let item = &mut items[count];
        let (answer, size) = next_by(reader, &mut context, suffix(bytes, used), item);
        if answer != ITEM {
            *batch = BtBatch { count, used };
            return answer;
        }
        used += size;
        count += 1;
    }
}
