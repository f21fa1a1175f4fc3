//! Encoding of the dictionaries that an end sends (BEP 9, BEP 10), from the end of an array to its front, without an
//! allocation.
ghost use Rattle.std.specs.Prelude.{◌≡◌, ◌≤◌, ◌<◌, ◌+◌, ◌^◌, ◌++◌, ◌∷◌, [], ℕ, List, pos, codes, length, drop};
ghost use Rattle.std.specs.Option.{ForSome};
ghost use Rattle.bt_bencode.specs.Trees.{integer, dictionary, Pairs, no_pairs, pair};
ghost use Rattle.bt_bencode.specs.Bencoding.{ben, ben_string, ben_pairs};
ghost use Rattle.bt_ext.specs.Ids.{HaveBytes, metadata_id, donthave_id};
ghost use Rattle.bt_ext.specs.Made.{IsMade, typed, id_pair, m_pairs, size_pairs, message_tree, handshake_tree};

use crate::ids::{ExtId, Registered};
use crate::metadata::Kind;
use bt_bencode::{put_bytes, put_key, put_number};

/// An array with room for any of these dictionaries.
pub type DictText = [u8; 220];

/// Puts the end of a dictionary at the array's end, and says where it starts.
fn put_end(text: &mut DictText) -> usize
    ensures place { result ≡ 219 }
    ensures text { drop result text.new ≡ 101 ∷ [] }
{
    put_bytes(b"e", text, 220)
}

/// Puts a pair of a key and a number in front of the place.
fn put_pair(key: &[u8], n: u64, text: &mut DictText, at: usize) -> usize
    requires { (43 + length key.now ≤ at) × (at ≤ 220) }
    ensures room { (result ≤ at) × (at ≤ result + 43 + length key.now) }
    ensures text { drop result text.new ≡ ben_string key.now ++ (ben (integer (pos n)) ++ drop at text.old) }
{
    let place = put_number(n, text, at);
    put_key(key, text, place)
}

/// Puts the last pair of a dictionary in front of the place.
fn put_last(key: &[u8], n: u64, text: &mut DictText, at: usize) -> usize
    requires { (43 + length key.now ≤ at) × (at ≤ 220) }
    ensures room { (result ≤ at) × (at ≤ result + 43 + length key.now) }
    ensures text { drop result text.new ≡ ben_pairs (pair key.now (integer (pos n)) no_pairs) ++ drop at text.old }
{
    put_pair(key, n, text, at)
}

/// Puts the pairs of every metadata message in front of the place, and opens the dictionary.
fn put_typed(msg_type: u8, piece: u32, text: &mut DictText, at: usize) -> usize
    requires { (100 ≤ at) × (at ≤ 220) }
    ensures room { (result ≤ at) × (at ≤ result + 100) }
    ensures text { (ps : Pairs) → drop at text.old ≡ ben_pairs ps ++ 101 ∷ [] → drop result text.new ≡ 100 ∷ (ben_pairs (typed msg_type piece ps) ++ 101 ∷ []) }
{
    let place = put_pair(b"piece", u64::from(piece), text, at);
    let place = put_pair(b"msg_type", u64::from(msg_type), text, place);
    put_bytes(b"d", text, place)
}

/// Encodes the dictionary of a metadata message at the array's end.
///
/// The message is a request, data or a reject. It returns the offset at which the dictionary starts.
pub fn message_text(kind: Kind, text: &mut DictText) -> usize
    requires { IsMade kind }
    ensures room { result ≤ 220 }
    ensures text { drop result text.new ≡ ben (message_tree kind) }
{
    let end = put_end(text);
    match kind {
        Kind::Request(piece) => put_typed(0, piece, text, end),
        Kind::Data { piece, total } => {
            let place = put_last(b"total_size", total, text, end);
            put_typed(1, piece, text, place)
        }
        Kind::Reject(piece) => put_typed(2, piece, text, end),
        Kind::Other | Kind::Malformed => unreachable!(),
    }
}

/// Puts the size of served metadata in front of the place, if there is one.
fn put_size(size: Option<u64>, text: &mut DictText, at: usize) -> usize
    requires { (60 ≤ at) × (at ≤ 220) }
    ensures room { (result ≤ at) × (at ≤ result + 60) }
    ensures text { drop result text.new ≡ ben_pairs (size_pairs size) ++ drop at text.old }
{
    match size {
        Some(size) => put_last(b"metadata_size", size, text, at),
        None => at,
    }
}

/// Puts a name with its id in front of the place, if it has one.
fn put_id(name: &[u8], id: Option<ExtId>, text: &mut DictText, at: usize) -> usize
    requires { (43 + length name.now ≤ at) × (at ≤ 220) }
    ensures room { (result ≤ at) × (at ≤ result + 43 + length name.now) }
    ensures text { (ps : Pairs) (rest : List ℕ) → drop at text.old ≡ ben_pairs ps ++ rest → drop result text.new ≡ ben_pairs (id_pair name.now id ps) ++ rest }
    ensures byte { ForSome id (λ n. n < 256) }
{
    match id {
        Some(id) => put_pair(name, u64::from(id.get()), text, at),
        None => at,
    }
}

/// Puts `m` with the registered ids in front of the place.
fn put_m(reg: Registered, text: &mut DictText, at: usize) -> usize
    requires { (120 ≤ at) × (at ≤ 220) }
    ensures room { (result ≤ at) × (at ≤ result + 120) }
    ensures text { drop result text.new ≡ ben (dictionary (m_pairs (metadata_id reg) (donthave_id reg))) ++ drop at text.old }
    ensures bytes { HaveBytes reg }
{
    let end = put_bytes(b"e", text, at);
    let place = put_id(b"ut_metadata", reg.metadata(), text, end);
    let place = put_id(b"lt_donthave", reg.donthave(), text, place);
    put_bytes(b"d", text, place)
}

/// Encodes the dictionary of an extended handshake at the array's end.
///
/// It has the registered ids in `m`, and the size in bytes of the metadata that is served, if it is given. It returns the
/// offset at which the dictionary starts.
pub fn handshake_text(reg: Registered, size: Option<u64>, text: &mut DictText) -> usize
    ensures room { result ≤ 220 }
    ensures text { drop result text.new ≡ ben (handshake_tree reg size) }
    ensures bytes { HaveBytes reg }
{
    let end = put_end(text);
    let place = put_size(size, text, end);
    let place = put_m(reg, text, place);
    let place = put_key(b"m", text, place);
    put_bytes(b"d", text, place)
}
