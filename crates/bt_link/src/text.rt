//! Numbers, names and hex appended to a text.
ghost use Rattle.std.specs.Prelude.{◌≡◌, ◌++◌, decimal, OnOk};
ghost use Rattle.hex.specs.Hex.{encode_lower};
ghost use Rattle.bt_text.specs.Lines.{spaced};

use itoa::write_digits;
use std::alloc::AllocError;

/// Appends a number.
///
/// # Errors
/// `AllocError` when out of memory.
pub fn push_number(n: u64, text: &mut Vec<u8>) -> Result<(), AllocError>
    ensures { OnOk result (text.new.items ≡ text.old.items ++ decimal n) }
{
    let mut digits = [0u8; 20];
    let place = write_digits(n, &mut digits, 20);
    text.extend_from_slice(&digits[place..])
}

/// Appends a space and a number.
///
/// # Errors
/// `AllocError` when out of memory.
#[tactic(auto, using(std::proofs::lemmas::List::append_assoc))]
pub fn push_spaced(n: u64, text: &mut Vec<u8>) -> Result<(), AllocError>
    ensures { OnOk result (text.new.items ≡ text.old.items ++ spaced n) }
{
    text.push(b' ')?;
    push_number(n, text)
}

/// Appends bytes in lower-case hex.
///
/// # Errors
/// `AllocError` when out of memory.
pub fn push_hex(bytes: &[u8], text: &mut Vec<u8>) -> Result<(), AllocError>
    ensures { OnOk result (text.new.items ≡ text.old.items ++ encode_lower bytes.now) }
{
    let start = text.len();
    text.reserve(2 * bytes.len())?;
    text.resize(start + 2 * bytes.len(), 0)?;
    let _ = hex::encode_to_slice(bytes, &mut text[start..]);
    Ok(())
}

/// Appends a name and a number.
///
/// # Errors
/// `AllocError` when out of memory.
#[tactic(auto, using(std::proofs::lemmas::List::append_assoc))]
pub fn push_one(name: &[u8], n: u64, text: &mut Vec<u8>) -> Result<(), AllocError>
    ensures { OnOk result (text.new.items ≡ text.old.items ++ (name.now ++ spaced n)) }
{
    text.extend_from_slice(name)?;
    push_spaced(n, text)
}
