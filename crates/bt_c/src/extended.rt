//! What an extended message shows (BEP 10, BEP 9). Items have it.
ghost use Rattle.std.specs.Prelude.{◌≡◌, length};
ghost use Rattle.bt_bencode.specs.Bencoding.{ben};
ghost use Rattle.bt_bencode.specs.Trees.{dictionary};
ghost use Rattle.bt_ext.specs.Fields.{size_of, told_id};
ghost use Rattle.bt_ext.specs.Metadata.{kind_of};
ghost use Rattle.bt_ext.specs.Payloads.{seen};
ghost use Rattle.bt_c.specs.Readers.{ShowsExt, ShowsKind, flagged};

use bt_bencode::DictRef;
use bt_ext::{ExtView, Kind, announced_ref, kind_ref};

/// The fields of an extended message. A flag is on if it isn't 0.
#[repr(C)]
#[derive(Clone, Copy)]
pub struct BtExtended {
    /// The size of a data message's whole metadata.
    pub total_size: u64,
    /// The size of the metadata, if `has_metadata_size` is on.
    ///
    /// An extended handshake announces it.
    pub metadata_size: u64,
    /// How many bytes of the payload are its dictionary.
    pub dict: usize,
    /// The piece of a metadata message, or the one that is taken back.
    pub piece: u32,
    /// What the extended message is, by number.
    ///
    /// 1 the extended handshake, 2 a metadata request, 3 data, 4 a reject, 5 of another type, 6 malformed, 7 raw, 8 a piece
    /// that is taken back (`lt_donthave`).
    pub kind: u8,
    /// The id of `ut_metadata` that is announced, if `has_ut_metadata` is on.
    ///
    /// An extended handshake announces it; 0 switches it off.
    pub ut_metadata: u8,
    pub has_metadata_size: u8,
    pub has_ut_metadata: u8,
}

/// Returns a value that has only a kind and the dictionary's length.
#[inline(always)]
pub fn plain(kind: u8, dict: usize) -> BtExtended
    ensures { result ≡ record { total_size = 0; metadata_size = 0; dict = dict; piece = 0; kind = kind; ut_metadata = 0; has_metadata_size = 0; has_ut_metadata = 0 } }
{
    BtExtended {
        total_size: 0,
        metadata_size: 0,
        dict,
        piece: 0,
        kind,
        ut_metadata: 0,
        has_metadata_size: 0,
        has_ut_metadata: 0,
    }
}

/// Returns the fields of an extended message.
pub fn extended_of(view: &ExtView) -> BtExtended
    ensures { ShowsExt result (seen view.now) }
{
    match view {
        ExtView::Handshake { dict, .. } => handshake_of(dict),
        ExtView::Metadata { dict, .. } => metadata_of(dict),
        ExtView::DontHave(index) => BtExtended {
            piece: *index,
            ..plain(8, 0)
        },
        ExtView::Raw { .. } => plain(7, 0),
    }
}

/// An extended handshake.
fn handshake_of(dict: &DictRef) -> BtExtended
    ensures kind { result.kind ≡ 1 }
    ensures dict { result.dict ≡ length (ben (dictionary dict.now.tree.0)) }
    ensures size { flagged result.has_metadata_size result.metadata_size ≡ size_of (dictionary dict.now.tree.0) }
    ensures id { flagged result.has_ut_metadata result.ut_metadata ≡ told_id (dictionary dict.now.tree.0) }
{
    let mut shown = plain(1, dict.spelled().len());
    let (id, size) = announced_ref(dict);
    if let Some(size) = size {
        shown.metadata_size = size;
        shown.has_metadata_size = 1;
    }
    if let Some(id) = id {
        shown.ut_metadata = id;
        shown.has_ut_metadata = 1;
    }
    shown
}

/// A metadata message.
fn metadata_of(dict: &DictRef) -> BtExtended
    ensures dict { result.dict ≡ length (ben (dictionary dict.now.tree.0)) }
    ensures kind { ShowsKind result (kind_of (dictionary dict.now.tree.0)) }
{
    let dict_length = dict.spelled().len();
    match kind_ref(dict) {
        Kind::Request(piece) => BtExtended {
            piece,
            ..plain(2, dict_length)
        },
        Kind::Data { piece, total } => BtExtended {
            piece,
            total_size: total,
            ..plain(3, dict_length)
        },
        Kind::Reject(piece) => BtExtended {
            piece,
            ..plain(4, dict_length)
        },
        Kind::Other => plain(5, dict_length),
        Kind::Malformed => plain(6, dict_length),
    }
}
