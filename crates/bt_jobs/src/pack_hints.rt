//! The hint after a script: the first word of a refused line that can't stand there, or a short block that may be meant as a
//! length.
ghost use Rattle.std.specs.Prelude.{IfOk, option_map};
ghost use Rattle.bt_jobs.specs.PackHints.{IsLineHint, IsPackHint};

use bt_text::ended::{PackEnd, ScriptReason};
use bt_text::script::misfit::{decimal_block, find_misfit, push_block_line, push_misfit_line};
use bt_text::splitting::split_line;
use std::alloc::{AllocError, Global};

/// Returns the hint that the line with this number gives, if it gives one.
fn line_hint(
    alloc: Global,
    end: PackEnd,
    number: u64,
    line: &[u8],
) -> Result<Option<Vec<u8>>, AllocError>
    ensures { IfOk result (λ hint. IsLineHint end number line.now (option_map (λ v. v.items) hint)) }
{
    let mut hint = Vec::new(alloc);
    match end {
        PackEnd::Refused {
            line: refused,
            reason: ScriptReason::Syntax,
        } if refused == number => {
            let Some(misfit) = find_misfit(alloc, line, number == 1)? else {
                return Ok(None);
            };
            push_misfit_line(number, misfit, &mut hint)?;
            Ok(Some(hint))
        }
        PackEnd::Accepted { .. } => {
            let Some(block) = decimal_block(line) else {
                return Ok(None);
            };
            push_block_line(number, block, &mut hint)?;
            Ok(Some(hint))
        }
        _ => Ok(None),
    }
}

/// Returns the line of the hint for a script that was packed, if there is one.
///
/// It is of the first line that gives one. `text` is the start of the script, and `is_all` says that it is all of it.
///
/// # Errors
/// `AllocError` when out of memory, or if the refused line has 2^32 - 256 bytes or more.
pub fn pack_hint(
    alloc: Global,
    end: PackEnd,
    text: &[u8],
    is_all: bool,
) -> Result<Option<Vec<u8>>, AllocError>
    ensures { IfOk result (λ hint. IsPackHint end is_all 1 text.now (option_map (λ v. v.items) hint)) }
{
    let mut rest = text;
    let mut number: u64 = 1;
    while let Some((line, following)) = split_line(rest) {
        if let Some(hint) = line_hint(alloc, end, number, line)? {
            return Ok(Some(hint));
        }
        rest = following;
        number += 1;
    }
    if is_all {
        line_hint(alloc, end, number, rest)
    } else {
        Ok(None)
    }
}
