//! The fields of an extended handshake (BEP 10).
//!
//! A call returns the offset after what it wrote.
ghost use Rattle.std.specs.Prelude.{◌≡◌, ◌+◌, ◌<◌, ◌≤◌, ◌++◌, codes, decimal, take, length, vec_capacity, vec_len, IfOk, OnErr};
ghost use Rattle.json.specs.Print.{token_text};
ghost use Rattle.bt_bencode.specs.Bencoding.{ben};
ghost use Rattle.bt_bencode.specs.Trees.{dictionary};
ghost use Rattle.bt_bencode.specs.declared.tree.Value.TheVariants as value;
ghost use Rattle.bt_ext.specs.declared.ext.Ext.TheVariants as ext;
ghost use Rattle.bt_json.specs.Members.{kind_and_name, named, text_room};
ghost use Rattle.bt_json.specs.Objects.{a_number, client_in, ext_fields, object_line, number_or_null, text_or_null};

use crate::texts::{add_last, put_offset};
use bt_bencode::DictRef;
use bt_text::putting::{Offset, put_number, put_word};
use bt_text::words::Dictionary;
use std::alloc::AllocError;

/// Puts a number, or null for `None`.
fn put_number_or_null(n: Option<u64>, text: &mut [u8], at: usize) -> usize
    requires { at + 20 ≤ length text.old }
    ensures room { (at ≤ result) × (result ≤ at + 20) }
    ensures size { length text.new ≡ length text.old }
    ensures text { take result text.new ≡ take at text.old ++ token_text (number_or_null n) }
{
    match n {
        Some(n) => put_number(n, text, at),
        None => put_word(b"null", text, at),
    }
}

/// Puts the kind, the length of the dictionary, and how many bytes follow it.
fn put_sizes(dict: &DictRef, rest: &[u8], text: &mut [u8], at: usize) -> usize
    requires { at + 100 ≤ length text.old }
    ensures room { (at ≤ result) × (result ≤ at + 100) }
    ensures size { length text.new ≡ length text.old }
    ensures text { take result text.new ≡ take at text.old
        ++ (kind_and_name (codes "ext-handshake") (codes "dictionary") ++ (decimal (length (ben (dictionary dict.now.tree.0)))
        ++ (named (codes "rest") ++ decimal (length rest.now)))) }
{
    let place = put_word(b",\"item\":\"ext-handshake\",\"dictionary\":", text, at);
    let place = put_number(dict.spelled().len() as u64, text, place);
    let place = put_word(b",\"rest\":", text, place);
    put_number(rest.len() as u64, text, place)
}

/// Puts what is announced, and the name of the client's field.
fn put_announced(size: Option<u64>, id: Option<u64>, text: &mut [u8], at: usize) -> usize
    requires { at + 100 ≤ length text.old }
    ensures room { (at ≤ result) × (result ≤ at + 100) }
    ensures size { length text.new ≡ length text.old }
    ensures text { take result text.new ≡ take at text.old ++ (named (codes "metadata_size") ++ (token_text (number_or_null size)
        ++ (named (codes "ut_metadata") ++ (token_text (number_or_null id) ++ named (codes "client"))))) }
{
    let place = put_word(b",\"metadata_size\":", text, at);
    let place = put_number_or_null(size, text, place);
    let place = put_word(b",\"ut_metadata\":", text, place);
    let place = put_number_or_null(id, text, place);
    put_word(b",\"client\":", text, place)
}

/// Puts the line of an extended handshake up to the client's name.
fn put_front(
    offset: &mut Offset,
    at: u64,
    dict: &DictRef,
    rest: &[u8],
    text: &mut [u8],
    place: usize,
) -> usize
    requires { place + 234 ≤ length text.old }
    ensures room { (place ≤ result) × (result ≤ place + 234) }
    ensures size { length text.new ≡ length text.old }
    ensures text { take result text.new ++ (token_text (text_or_null (client_in (dictionary dict.now.tree.0))) ++ codes "}\n")
        ≡ take place text.old ++ object_line (a_number (codes "offset") at ++ ext_fields (ext.Handshake (value.Dict dict.now.tree.0) rest.now)) }
{
    let (id, size) = dict.announced();
    let place = put_offset(offset, at, text, place);
    let place = put_sizes(dict, rest, text, place);
    put_announced(size, id, text, place)
}

/// Writes the line of an extended handshake after the first `place` bytes of the text; returns its end.
#[inline(never)]
pub(crate) fn add_ext_handshake(
    offset: &mut Offset,
    at: u64,
    dict: &DictRef,
    rest: &[u8],
    text: &mut Vec<u8>,
    place: usize,
) -> Result<usize, AllocError>
    requires { place + 254 ≤ vec_len text.old }
    ensures line { IfOk result (λ n. take n text.new.items
        ≡ take place text.old.items ++ object_line (a_number (codes "offset") at ++ ext_fields (ext.Handshake (value.Dict dict.now.tree.0) rest.now))) }
    ensures kept { take place text.new.items ≡ take place text.old.items }
    ensures full { OnErr result (vec_capacity text.old < place + (254 + text_room (client_in (dictionary dict.now.tree.0)))) }
{
    let end = put_front(offset, at, dict, rest, text.as_mut_slice(), place);
    add_last(dict.lookup_bytes(b"v"), text, end)
}
