//! Encoding of values. Only a value within the limits is encoded, so the functions recurse by no more than 32 levels.
ghost use Rattle.std.specs.Prelude.{◌≡◌, ◌↔◌, ◌++◌, Err, OnOk, IfOk};
ghost use Rattle.bt_bencode.specs.Bencoding.{ben, ben_string, Fits};
ghost use Rattle.bt_bencode.specs.Trees.{integer, list, dictionary};
ghost use Rattle.bt_bencode.specs.Views.{tree_of};

use crate::fitting::fits;
use crate::length::ben_len;
use crate::tree::{ByteString, Pairs, Value, Values};
use itoa::Buffer;
use std::alloc::{AllocError, Global};
use thiserror::Error;

/// Why a value isn't encoded.
#[derive(Clone, Copy, Debug, PartialEq, Eq, Error)]
pub enum SpellError {
    /// The value isn't within the limits.
    ///
    /// A string or a key is too long, or it nests too deep.
    #[error("the value is beyond the limits of bencoding")]
    OutOfRange,
    /// Out of memory.
    #[error("out of memory")]
    Memory,
}

impl From<AllocError> for SpellError {
    ghost use Rattle.bt_bencode.specs.declared.spelling.SpellError.TheVariants.{Memory};
    ghost use Rattle.std.specs.Prelude.{◌≡◌};

    ghost from_gives = { λ _ e. e ≡ Memory };

    fn from(_: AllocError) -> SpellError {
        SpellError::Memory
    }
}

fn push_string(out: &mut Vec<u8>, s: &ByteString) -> Result<(), AllocError>
    ensures { OnOk result (out.new.items ≡ out.old.items ++ ben_string s.now) }
{
    out.extend_from_slice(Buffer::new().format(s.len()).as_bytes())?;
    out.push(b':')?;
    out.extend_from_slice(s.as_slice())?;
    Ok(())
}

fn push_int(out: &mut Vec<u8>, n: i64) -> Result<(), AllocError>
    ensures { OnOk result (out.new.items ≡ out.old.items ++ ben (integer n)) }
{
    out.push(b'i')?;
    out.extend_from_slice(Buffer::new().format(n).as_bytes())?;
    out.push(b'e')?;
    Ok(())
}

#[cycle(push_value)]
fn push_value(out: &mut Vec<u8>, value: &Value) -> Result<(), AllocError>
    ensures { OnOk result (out.new.items ≡ out.old.items ++ ben (tree_of value.now)) }
{
    match value {
        Value::Int(n) => push_int(out, *n),
        Value::Bytes(s) => push_string(out, s),
        Value::List(values) => push_list(out, values),
        Value::Dict(pairs) => push_dict(out, pairs),
    }
}

#[cycle(push_value)]
fn push_list(out: &mut Vec<u8>, values: &Values) -> Result<(), AllocError>
    ensures { OnOk result (out.new.items ≡ out.old.items ++ ben (list values.now)) }
{
    out.push(b'l')?;
    for value in &values.values {
        push_value(out, value)?;
    }
    out.push(b'e')?;
    Ok(())
}

#[cycle(push_value)]
fn push_dict(out: &mut Vec<u8>, pairs: &Pairs) -> Result<(), AllocError>
    ensures { OnOk result (out.new.items ≡ out.old.items ++ ben (dictionary pairs.now)) }
{
    out.push(b'd')?;
    for (key, value) in &pairs.pairs {
        push_string(out, key)?;
        push_value(out, value)?;
    }
    out.push(b'e')?;
    Ok(())
}

/// Encodes a value (BEP 3, "bencoding").
///
/// It makes one allocation, of the encoding's length.
///
/// # Errors
/// `OutOfRange` exactly if the value isn't within the limits (see [`fits`](crate::fits)), `Memory` when out of memory.
pub fn spell(alloc: Global, value: &Value) -> Result<Vec<u8>, SpellError>
    ensures ok { IfOk result (λ bytes. Fits (tree_of value.now) × (bytes.items ≡ ben (tree_of value.now))) }
    ensures out_of_range { (result ≡ Err SpellError.OutOfRange) ↔ ¬ Fits (tree_of value.now) }
    ensures memory { result ≡ Err SpellError.Memory → Fits (tree_of value.now) }
{
    if !fits(value) {
        return Err(SpellError::OutOfRange);
    }
    // Room for all of it is asked for once, so that no byte is copied twice.
    let mut out = Vec::with_capacity(alloc, ben_len(value) as usize)?;
    push_value(&mut out, value)?;
    Ok(out)
}

/// Appends the encoding of a value within the limits.
///
/// It doesn't allocate if `out` has room for the encoding.
///
/// # Errors
/// `AllocError` when out of memory.
pub fn append_value(out: &mut Vec<u8>, value: &Value) -> Result<(), AllocError>
    requires { Fits (tree_of value.now) }
    ensures { OnOk result (out.new.items ≡ out.old.items ++ ben (tree_of value.now)) }
{
    push_value(out, value)
}
