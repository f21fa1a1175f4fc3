//! The kind of a metadata message by its dictionary (BEP 9).
ghost use Rattle.std.specs.Prelude.{◌≡◌};
ghost use Rattle.bt_bencode.specs.Trees.{dictionary};
ghost use Rattle.bt_bencode.specs.Views.{tree_of};
ghost use Rattle.bt_ext.specs.Metadata.{piece_of, total_of, kind_by, kind_of};

use crate::dict::Dict;
use crate::metadata::Kind;
use bt_bencode::{DictRef, Value};

fn piece_of(value: Option<i64>) -> Option<u32>
    ensures { result ≡ piece_of value }
{
    let n = value?;
    u32::try_from(n).ok()
}

fn total_of(value: Option<i64>) -> Option<u64>
    ensures { result ≡ total_of value }
{
    let n = value?;
    if n > 0 { Some(n as u64) } else { None }
}

/// Returns the kind of a metadata message by the integers of its three fields.
pub fn kind_by(msg_type: Option<i64>, piece: Option<i64>, total: Option<i64>) -> Kind
    ensures { result ≡ kind_by msg_type piece total }
{
    let Some(msg_type) = msg_type else {
        return Kind::Malformed;
    };
    match (msg_type, piece_of(piece)) {
        (0, Some(piece)) => Kind::Request(piece),
        (1, Some(piece)) => match total_of(total) {
            Some(total) => Kind::Data { piece, total },
            None => Kind::Malformed,
        },
        (2, Some(piece)) => Kind::Reject(piece),
        (0..=2, None) => Kind::Malformed,
        _ => Kind::Other,
    }
}

/// Returns the kind of the metadata message that has this dictionary.
#[inline(always)]
pub fn kind_in<'a, D: Dict<'a>>(dict: D) -> Kind
    ensures { result ≡ kind_of (D.tree dict) }
{
    let msg_type = dict.int(b"msg_type");
    // Only a data message has a size; in a request it would be sought to the dictionary's end.
    let total = match msg_type {
        Some(1) => dict.int(b"total_size"),
        _ => None,
    };
    kind_by(msg_type, dict.int(b"piece"), total)
}

/// Returns the kind of the metadata message that has this dictionary (BEP 9).
pub fn kind(dict: &Value) -> Kind
    ensures { result ≡ kind_of (tree_of dict.now) }
{
    kind_in(dict)
}

/// Returns the kind of the metadata message that has this dictionary (BEP 9).
///
/// It is what [`kind`] returns for the dictionary as a value.
pub fn kind_ref(dict: &DictRef) -> Kind
    ensures { result ≡ kind_of (dictionary dict.now.tree.0) }
{
    kind_in(*dict)
}
