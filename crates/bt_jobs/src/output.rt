//! Writing all of some bytes.
ghost use Rattle.std.specs.Prelude.{◌≡◌, OnOk, OnErr, IfErr};
ghost use Rattle.bt_io.specs.Seen.{WriteFailed};
ghost use Rattle.bt_jobs.specs.Printed.{IsWrittenOut};

use bt_feed::{Target, write_front};
use bt_text::ended::ToolFault;

/// Writes all of `bytes`, and returns `answer`.
///
/// # Errors
/// `Write` if a write failed or took no byte; a prefix of `bytes` is written then.
pub fn write_out<W: Target, T: Drop>(
    writer: &mut W,
    bytes: &[u8],
    answer: T,
) -> Result<T, ToolFault>
    ensures written { IsWrittenOut answer bytes.now (W.seen writer.old).held (W.seen writer.new).held result }
    ensures failed { OnErr result (WriteFailed (W.seen writer.old) (W.seen writer.new)) }
    ensures calm { OnOk result ((W.seen writer.new).failed ≡ (W.seen writer.old).failed) }
    ensures fault { IfErr result (λ fault. fault ≡ ToolFault.Write) }
{
    if write_front(writer, bytes) < bytes.len() {
        return Err(ToolFault::Write);
    }
    Ok(answer)
}
