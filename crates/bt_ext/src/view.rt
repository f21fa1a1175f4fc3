//! Parsing of an extended payload.
ghost use Rattle.std.specs.Prelude.{◌≡◌, ◌≢◌, ◌++◌, ◌<◌, ◌≤◌, ◌^◌, None, IsTrue, false, length, take, IfOk, IfErr, IfSome};
ghost use Rattle.bt_bencode.specs.Trees.{dictionary};
ghost use Rattle.bt_bencode.specs.Bencoding.{ben, Fits, IsPlace, IsSpelling};
ghost use Rattle.bt_bencode.specs.Payloads.{BeginsWithNone};
ghost use Rattle.bt_bencode.specs.Disorders.{RefusesSorted};
ghost use Rattle.bt_ext.specs.Ids.{needs_dict};
ghost use Rattle.bt_ext.specs.Payloads.{IsExt, index_bytes, seen};
ghost use Rattle.bt_ext.specs.declared.ids.Rules.{Rules};
ghost use Rattle.bt_ext.specs.Judged.{dict_length, WasJudged, IsValueOf};
ghost use Rattle.bt_ext.specs.Faults.{Reads, Refuses, RefusesToRead, fault_of, handshake_fault_of, metadata_fault_of};
ghost use Rattle.bt_ext.specs.Ordered.{kind_fault_of};

use crate::bytes::copy_bytes;
use crate::ext::{Ext, ExtError, ExtView, ViewError};
use crate::fields::{bad_m, bad_size};
use crate::ids::{Registered, Rules};
use crate::kinds::kind_by;
use crate::metadata::{Kind, block_ok, is_malformed};
use bt_bencode::{
    Bad, ByteString, DictRef, Disorder, Value, check, check_sorted_ints, check_sorted_pairs_and_int,
};
use std::alloc::{AllocError, Global};

/// Returns the dictionary in front and what follows it.
///
/// # Errors
/// The offset of the first byte that can't be part of a dictionary, or the payload's length if it is truncated.
#[inline(always)]
fn split_dict(payload: &[u8]) -> Result<(DictRef<'_>, &[u8]), usize>
    ensures ok { IfOk result (λ x. Fits (dictionary x.0.tree.0) × (payload.now ≡ ben (dictionary x.0.tree.0) ++ x.1.now)) }
    ensures err { IfErr result (λ at. BeginsWithNone payload.now × IsPlace payload.now at) }
{
    match check(payload) {
        Ok((dict, n)) => Ok((dict, &payload[n..])),
        Err(Bad::Impossible { at }) => Err(at),
        Err(Bad::Cut) => Err(payload.len()),
    }
}

/// Returns the piece index that a payload of four bytes is.
fn read_index(payload: &[u8]) -> Option<u32>
    ensures none { result ≡ None → length payload.now ≢ 4 }
    ensures some { IfSome result (λ index. (index < 2 ^ 32) × (payload.now ≡ index_bytes index)) }
{
    if payload.len() != 4 {
        return None;
    }
    Some(u32::from_be_bytes([payload[0], payload[1], payload[2], payload[3]]))
}

/// Returns the value that the id and the payload are, if the id needs no dictionary.
///
/// # Errors
/// Why they are none.
#[inline(always)]
fn shape_plain<'a>(reg: Registered, id: u8, payload: &'a [u8]) -> Result<ExtView<'a>, ViewError>
    requires { needs_dict reg id ≡ false }
    ensures ok { IfOk result (λ v. IsExt reg (seen v) id payload.now) }
    ensures faultless { IfOk result (λ v. fault_of Rules.Bep (seen v) ≡ None) }
    ensures err { IfErr result (λ fault. (r : Rules) → Refuses reg r id payload.now fault) }
{
    if reg.is_donthave(id) {
        match read_index(payload) {
            Some(index) => Ok(ExtView::DontHave(index)),
            None => Err(ViewError::BadExtLength),
        }
    } else {
        Ok(ExtView::Raw { id, payload })
    }
}

/// Returns the value that the id and the payload are.
///
/// # Errors
/// Why they are none.
#[inline(always)]
fn shape<'a>(reg: Registered, id: u8, payload: &'a [u8]) -> Result<ExtView<'a>, ViewError>
    ensures ok { IfOk result (λ v. IsExt reg (seen v) id payload.now) }
    ensures err { IfErr result (λ fault. (r : Rules) → Refuses reg r id payload.now fault) }
{
    if reg.needs_dict(id) {
        match split_dict(payload) {
            Ok((dict, rest)) if id == 0 => Ok(ExtView::Handshake { dict, rest }),
            Ok((dict, rest)) => Ok(ExtView::Metadata { dict, rest }),
            Err(at) => Err(ViewError::BadBencode { at }),
        }
    } else {
        shape_plain(reg, id, payload)
    }
}

/// Returns the first fault of a metadata message of the kind, whose dictionary has `dict_len` bytes.
///
/// After the dictionary it has `rest_len` bytes.
#[inline(always)]
fn kind_fault(kind: Kind, dict_len: usize, rest_len: usize) -> Option<ViewError>
    ensures { result ≡ kind_fault_of kind dict_len rest_len }
{
    if is_malformed(kind) {
        Some(ViewError::BadField)
    } else if block_ok(kind, rest_len) {
        None
    } else {
        Some(ViewError::BadBlock { at: dict_len })
    }
}

/// Returns the dictionary and what follows it of an extended handshake whose keys are in order, and its fault.
///
/// The fields are found in the pass that validates, without a second walk.
///
/// # Errors
/// Why the payload begins with no such dictionary.
#[inline(never)]
fn sorted_handshake(payload: &[u8]) -> Result<(DictRef<'_>, &[u8], Option<ViewError>), Disorder>
    ensures fits { IfOk result (λ x. Fits (dictionary x.0.tree.0)) }
    ensures parts { IfOk result (λ x. payload.now ≡ ben (dictionary x.0.tree.0) ++ x.1.now) }
    ensures fault { IfOk result (λ x. x.2 ≡ handshake_fault_of (dictionary x.0.tree.0)) }
    ensures err { IfErr result (RefusesSorted payload.now) }
{
    let (dict, n, m, size) = check_sorted_pairs_and_int(payload, b"m", b"metadata_size")?;
    let fault = if bad_m(m) || bad_size(size) {
        Some(ViewError::BadField)
    } else {
        None
    };
    Ok((dict, &payload[n..], fault))
}

/// Returns the dictionary and what follows it of a metadata message whose keys are in order, and its first fault.
///
/// The fields are found in the pass that validates, without a second walk.
///
/// # Errors
/// Why the payload begins with no such dictionary.
#[inline(never)]
fn sorted_metadata(payload: &[u8]) -> Result<(DictRef<'_>, &[u8], Option<ViewError>), Disorder>
    ensures fits { IfOk result (λ x. Fits (dictionary x.0.tree.0)) }
    ensures parts { IfOk result (λ x. payload.now ≡ ben (dictionary x.0.tree.0) ++ x.1.now) }
    ensures fault { IfOk result (λ x. x.2 ≡ metadata_fault_of (dictionary x.0.tree.0) (length x.1.now)) }
    ensures err { IfErr result (RefusesSorted payload.now) }
{
    let (dict, n, msg_type, piece, total) = check_sorted_ints(
        payload,
        b"msg_type",
        b"piece",
        b"total_size",
    )?;
    let rest = &payload[n..];
    let kind = kind_by(msg_type, piece, total);
    Ok((dict, rest, kind_fault(kind, n, rest.len())))
}

/// How many bytes a payload may have that isn't scanned before the pass.
///
/// So a wrong byte at the end of a longer one costs a scan, which is cheaper, and no pass.
const LONG: usize = 131_072;

/// Returns the offset of the first wrong byte of a long payload. `None` promises nothing.
#[inline(always)]
fn wrong_byte(payload: &[u8]) -> Option<usize>
    ensures { IfSome result (λ at. BeginsWithNone payload.now × IsPlace payload.now at) }
{
    if payload.len() <= LONG {
        return None;
    }
    match split_dict(payload) {
        Ok(_) => None,
        Err(at) => Some(at),
    }
}

/// Returns the first fault of a payload that begins with no dictionary whose keys are in order.
///
/// A wrong byte comes before keys out of order.
#[cold]
#[inline(never)]
fn disorder_fault(reg: Registered, id: u8, payload: &[u8], disorder: Disorder) -> ViewError
    requires needed { IsTrue (needs_dict reg id) }
    requires disordered { RefusesSorted payload.now disorder }
    ensures { Refuses reg Rules.Bep id payload.now result }
{
    match disorder {
        Disorder::Bytes(Bad::Impossible { at }) => ViewError::BadBencode { at },
        Disorder::Bytes(Bad::Cut) => ViewError::BadBencode { at: payload.len() },
        Disorder::Order { at } => ViewError::Unsorted { at },
    }
}

/// Returns the value that the id and the payload are, and its first fault under strict rules.
///
/// # Errors
/// Why they are none, or the first fault if that is a key out of order.
#[inline(always)]
fn shape_sorted<'a>(
    reg: Registered,
    id: u8,
    payload: &'a [u8],
) -> Result<(ExtView<'a>, Option<ViewError>), ViewError>
    ensures value { IfOk result (λ x. IsExt reg (seen x.0) id payload.now) }
    ensures fault { IfOk result (λ x. x.1 ≡ fault_of Rules.Bep (seen x.0)) }
    ensures err { IfErr result (Refuses reg Rules.Bep id payload.now) }
{
    if id == 0 {
        if let Some(at) = wrong_byte(payload) {
            return Err(ViewError::BadBencode { at });
        }
        match sorted_handshake(payload) {
            Ok((dict, rest, fault)) => Ok((ExtView::Handshake { dict, rest }, fault)),
            Err(disorder) => Err(disorder_fault(reg, id, payload, disorder)),
        }
    } else if reg.is_metadata(id) {
        if let Some(at) = wrong_byte(payload) {
            return Err(ViewError::BadBencode { at });
        }
        match sorted_metadata(payload) {
            Ok((dict, rest, fault)) => Ok((ExtView::Metadata { dict, rest }, fault)),
            Err(disorder) => Err(disorder_fault(reg, id, payload, disorder)),
        }
    } else {
        match shape_plain(reg, id, payload) {
            Ok(view) => Ok((view, None)),
            Err(fault) => Err(fault),
        }
    }
}

/// Parses an extended payload as parts of it, by the receiver's ids and rules.
///
/// See BEP 10 and BEP 9. It doesn't allocate.
///
/// # Errors
/// `BadExtLength`, `BadBencode`, `Unsorted`, `BadField` or `BadBlock`: the first fault of the payload. The last three come
/// only with strict rules.
#[inline(always)]
pub fn view_ext<'a>(
    reg: Registered,
    rules: Rules,
    id: u8,
    payload: &'a [u8],
) -> Result<ExtView<'a>, ViewError>
    ensures ok { IfOk result (λ v. Reads reg rules id payload.now (seen v)) }
    ensures err { IfErr result (Refuses reg rules id payload.now) }
{
    match rules {
        Rules::Free => shape(reg, id, payload),
        Rules::Bep => match shape_sorted(reg, id, payload) {
            Ok((view, None)) => Ok(view),
            Ok((_, Some(fault))) => Err(fault),
            Err(fault) => Err(fault),
        },
    }
}

impl<'a> ExtView<'a> {
    /// Returns how many bytes the dictionary has; 0 if there is none.
    #[inline(always)]
    pub fn dict_len(&self) -> usize
        ensures { result ≡ dict_length (seen self.now) }
    {
        match self {
            ExtView::Handshake { dict, .. } => dict.spelled().len(),
            ExtView::Metadata { dict, .. } => dict.spelled().len(),
            ExtView::DontHave(_) | ExtView::Raw { .. } => 0,
        }
    }
}

/// Returns the dictionary in front, which has `n` bytes, and what follows it.
#[inline(always)]
fn split_known(payload: &[u8], n: usize) -> (DictRef<'_>, &[u8])
    requires within { n ≤ length payload.now }
    requires spelled { IsSpelling (take n payload.now) }
    ensures fits { Fits (dictionary result.0.tree.0) }
    ensures parts { payload.now ≡ ben (dictionary result.0.tree.0) ++ result.1.now }
{
    (DictRef::of_spelled(&payload[..n]), &payload[n..])
}

/// Returns the value that the id and the payload are, by its kind.
#[inline(always)]
fn shape_judged<'a>(reg: Registered, id: u8, payload: &'a [u8], dict_len: usize) -> ExtView<'a>
    requires { WasJudged reg id payload.now dict_len }
    ensures { IsExt reg (seen result) id payload.now }
{
    if reg.needs_dict(id) {
        let (dict, rest) = split_known(payload, dict_len);
        if id == 0 {
            ExtView::Handshake { dict, rest }
        } else {
            ExtView::Metadata { dict, rest }
        }
    } else if reg.is_donthave(id) {
        match read_index(payload) {
            Some(index) => ExtView::DontHave(index),
            None => unreachable!(),
        }
    } else {
        ExtView::Raw { id, payload }
    }
}

/// Returns the value that the id and the payload are, without a second check.
///
/// They are those of a value, as if [`view_ext`] returned it before, and its dictionary has `dict_len` bytes: see
/// [`ExtView::dict_len`]. It scans nothing.
#[inline(always)]
pub fn view_judged<'a>(reg: Registered, id: u8, payload: &'a [u8], dict_len: usize) -> ExtView<'a>
    requires { WasJudged reg id payload.now dict_len }
    ensures { IsValueOf reg id payload.now (seen result) }
{
    shape_judged(reg, id, payload, dict_len)
}

/// The dictionary of a view and what follows it.
#[inline(always)]
fn copy_parts(alloc: Global, dict: &DictRef, rest: &[u8]) -> Result<(Value, ByteString), AllocError>
    ensures { IfOk result (λ x. (x.0 ≡ Value.Dict dict.now.tree.0) × (x.1 ≡ rest.now)) }
{
    let rest = copy_bytes(alloc, rest)?;
    let dict = dict.to_value(alloc)?;
    Ok((dict, rest))
}

/// Copies a view into a value.
///
/// # Errors
/// `AllocError` when out of memory.
pub fn copy_ext(alloc: Global, view: &ExtView) -> Result<Ext, AllocError>
    ensures { IfOk result (λ e. e ≡ seen view.now) }
{
    match view {
        ExtView::Handshake { dict, rest } => {
            let (dict, rest) = copy_parts(alloc, dict, rest)?;
            Ok(Ext::Handshake { dict, rest })
        }
        ExtView::Metadata { dict, rest } => {
            let (dict, rest) = copy_parts(alloc, dict, rest)?;
            Ok(Ext::Metadata { dict, rest })
        }
        ExtView::DontHave(index) => Ok(Ext::DontHave(*index)),
        ExtView::Raw { id, payload } => {
            let payload = copy_bytes(alloc, payload)?;
            Ok(Ext::Raw { id: *id, payload })
        }
    }
}

/// Parses an extended payload by the receiver's ids and rules.
///
/// See BEP 10 and BEP 9.
///
/// # Errors
/// `BadExtLength`, `BadBencode`, `Unsorted`, `BadField` or `BadBlock`: the first fault of the payload, the last three only with
/// strict rules. `Memory` if the payload has no fault and memory runs out.
pub fn read_ext(
    alloc: Global,
    reg: Registered,
    rules: Rules,
    id: u8,
    payload: &[u8],
) -> Result<Ext, ExtError>
    ensures ok { IfOk result (Reads reg rules id payload.now) }
    ensures err { IfErr result (RefusesToRead reg rules id payload.now) }
{
    let view = view_ext(reg, rules, id, payload)?;
    let value = copy_ext(alloc, &view)?;
    Ok(value)
}
