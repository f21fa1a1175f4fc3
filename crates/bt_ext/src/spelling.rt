//! Encoding of extended values, and why rules refuse one.
ghost use Rattle.std.specs.Prelude.{◌≡◌, ◌++◌, ◌^◌, ◌-◌, length, min, ◌≤◌, Some, Err, IfOk, IfErr, IsTrue, ◌↔◌, is_some, MatchOption, OnOk, ◌∷◌, unwrap_or};
ghost use Rattle.bt_bencode.specs.Keys.{unsorted};
ghost use Rattle.bt_bencode.specs.Bencoding.{ben};
ghost use Rattle.bt_bencode.specs.Views.{tree_of};
ghost use Rattle.bt_ext.specs.Payloads.{IsExt, IsDict, HasNoSpelling, HasSpelling, HasParts, ext_id, payload_of};
ghost use Rattle.bt_ext.specs.Faults.{reason_of};

use crate::ext::{Ext, ExtReason};
use crate::fields::bad_field;
use crate::ids::{Registered, Rules};
use crate::kinds::kind;
use crate::metadata::{block_ok, is_malformed};
use bt_bencode::{ByteString, SpellError, Value, append_value, ben_len, fits, is_sorted};
use std::alloc::{AllocError, Global};

fn is_dict(dict: &Value) -> bool
    ensures { IsTrue result ↔ IsDict dict.now }
{
    match dict {
        Value::Dict(_) => fits(dict),
        _ => false,
    }
}

/// Returns the extended id of a value.
fn id_of(reg: Registered, value: &Ext) -> Option<u8>
    ensures { result ≡ ext_id reg value.now }
{
    match value {
        Ext::Handshake { .. } => Some(0),
        Ext::Metadata { .. } => match reg.metadata() {
            Some(id) => Some(id.get()),
            None => None,
        },
        Ext::DontHave(_) => match reg.donthave() {
            Some(id) => Some(id.get()),
            None => None,
        },
        Ext::Raw { id, .. } => {
            let id = *id;
            if reg.is_known(id) { None } else { Some(id) }
        }
    }
}

/// Returns whether the value's dictionary, if it has one, is within the limits.
fn has_parts(value: &Ext) -> bool
    ensures { IsTrue result ↔ HasParts value.now }
{
    match value {
        Ext::Handshake { dict, .. } | Ext::Metadata { dict, .. } => is_dict(dict),
        Ext::DontHave(index) => {
            let _index = *index;
            true
        }
        Ext::Raw { .. } => true,
    }
}

/// Returns the extended id of a value that can be encoded.
fn own_id(reg: Registered, value: &Ext) -> Option<u8>
    ensures { MatchOption result (HasNoSpelling reg value.now) (λ id. HasParts value.now × (ext_id reg value.now ≡ Some id)) }
{
    if has_parts(value) {
        id_of(reg, value)
    } else {
        None
    }
}

fn payload_len(value: &Ext) -> u64
    ensures { result ≡ min (length (payload_of value.now)) (2 ^ 64 - 1) }
{
    match value {
        Ext::Handshake { dict, rest } => ben_len(dict).saturating_add(rest.len() as u64),
        Ext::Metadata { dict, rest } => ben_len(dict).saturating_add(rest.len() as u64),
        Ext::DontHave(_) => 4,
        Ext::Raw { payload, .. } => payload.len() as u64,
    }
}

/// Returns the length of the payload of a value in bytes, at most 2^64 - 1.
///
/// `None` if the value can't be encoded. It doesn't allocate.
pub fn ext_len(reg: Registered, value: &Ext) -> Option<u64>
    ensures { MatchOption result (HasNoSpelling reg value.now)
        (λ n. HasSpelling reg value.now × (n ≡ min (length (payload_of value.now)) (2 ^ 64 - 1))) }
{
    match own_id(reg, value) {
        Some(_) => Some(payload_len(value)),
        None => None,
    }
}

/// Encodes a value into its extended id and its payload.
///
/// # Errors
/// `OutOfRange` if the value can't be encoded: its dictionary is none or isn't within the limits, it is raw under an id
/// with a meaning, or no id is registered for it. `Memory` when out of memory.
pub fn spell_ext(alloc: Global, reg: Registered, value: &Ext) -> Result<(u8, Vec<u8>), SpellError>
    ensures ok { IfOk result (λ x. IsExt reg value.now x.0 x.1.items) }
    ensures out_of_range { (result ≡ Err SpellError.OutOfRange) ↔ HasNoSpelling reg value.now }
    ensures memory { result ≡ Err SpellError.Memory → HasSpelling reg value.now }
{
    let Some(id) = own_id(reg, value) else {
        return Err(SpellError::OutOfRange);
    };
    let mut payload = Vec::with_capacity(alloc, payload_len(value) as usize)?;
    append_payload(&mut payload, value)?;
    Ok((id, payload))
}

/// Appends a dictionary and what follows it.
fn append_dict(out: &mut Vec<u8>, dict: &Value, rest: &ByteString) -> Result<(), AllocError>
    requires { IsDict dict.now }
    ensures { OnOk result (out.new.items ≡ out.old.items ++ (ben (tree_of dict.now) ++ rest.now)) }
{
    append_value(out, dict)?;
    out.extend_from_slice(rest.as_slice())
}

/// Appends the payload of a value that can be encoded.
///
/// It doesn't allocate if `out` has room for it.
fn append_payload(out: &mut Vec<u8>, value: &Ext) -> Result<(), AllocError>
    requires { HasParts value.now }
    ensures { OnOk result (out.new.items ≡ out.old.items ++ payload_of value.now) }
{
    match value {
        Ext::Handshake { dict, rest } => append_dict(out, dict, rest),
        Ext::Metadata { dict, rest } => append_dict(out, dict, rest),
        Ext::DontHave(index) => out.extend_from_slice(&index.to_be_bytes()),
        Ext::Raw { payload, .. } => out.extend_from_slice(payload.as_slice()),
    }
}

/// Appends the extended id and the payload of a value.
///
/// The value can be encoded. It doesn't allocate if `out` has room for both.
///
/// # Errors
/// `AllocError` when out of memory.
pub fn append_ext(out: &mut Vec<u8>, reg: Registered, value: &Ext) -> Result<(), AllocError>
    requires { HasSpelling reg value.now }
    ensures { OnOk result (out.new.items ≡ out.old.items ++ (unwrap_or (ext_id reg value.now) 0 ∷ payload_of value.now)) }
{
    out.push(id_of(reg, value).unwrap_or(0))?;
    append_payload(out, value)
}

fn is_unsorted(dict: &Value) -> bool
    ensures { result ≡ is_some (unsorted (tree_of dict.now)) }
{
    !is_sorted(dict)
}

/// Returns the first reason for which the rules refuse a value.
///
/// The value can be encoded. It doesn't allocate.
pub fn ext_reason(rules: Rules, value: &Ext) -> Option<ExtReason>
    ensures { result ≡ reason_of rules value.now }
{
    match rules {
        Rules::Free => None,
        Rules::Bep => match value {
            Ext::Handshake { dict, .. } => {
                if is_unsorted(dict) {
                    Some(ExtReason::Unsorted)
                } else if bad_field(dict) {
                    Some(ExtReason::BadField)
                } else {
                    None
                }
            }
            Ext::Metadata { dict, rest } => {
                let kind = kind(dict);
                if is_unsorted(dict) {
                    Some(ExtReason::Unsorted)
                } else if is_malformed(kind) {
                    Some(ExtReason::BadField)
                } else if block_ok(kind, rest.len()) {
                    None
                } else {
                    Some(ExtReason::BadBlock)
                }
            }
            Ext::DontHave(_) => None,
            Ext::Raw { .. } => None,
        },
    }
}
