//! The line of a message, which begins with the message's offset in its stream.
//!
//! A call returns the offset after what it wrote.
ghost use Rattle.std.specs.Prelude.{◌≡◌, ◌+◌, ◌<◌, ◌≤◌, ◌++◌, codes, decimal, take, length, vec_capacity, vec_len, IfOk, OnErr};
ghost use Rattle.bt_bencode.specs.Bencoding.{ben};
ghost use Rattle.bt_bencode.specs.Trees.{dictionary};
ghost use Rattle.bt_bencode.specs.declared.tree.Value.TheVariants as value;
ghost use Rattle.bt_ext.specs.Payloads.{seen as seen_ext};
ghost use Rattle.bt_ext.specs.declared.ext.Ext.TheVariants as ext;
ghost use Rattle.bt_wire.specs.Messages.{message_of};
ghost use Rattle.bt_wire.specs.declared.context.Own.{Own};
ghost use Rattle.bt_wire.specs.declared.item.Item.TheVariants as items;
ghost use Rattle.bt_json.specs.Members.{HasNoText, IsShort, client_of as client_in_line, rest_of_line, text_room};
ghost use Rattle.bt_json.specs.Objects.{a_number, ext_fields, kind_field, line as line_of, message_fields};

use crate::announced::add_ext_handshake;
use crate::texts::put_offset;
use bt_bencode::DictRef;
use bt_ext::{ExtView, Kind, kind_ref};
use bt_text::putting::{Offset, put_number, put_word};
use bt_wire::MessageView;
use std::alloc::AllocError;

/// Puts a text, a number, and the end of the object and its line.
#[inline(always)]
fn put_one<const N: usize>(front: &[u8; N], n: u64, text: &mut [u8], at: usize) -> usize
    requires { at + (22 + length front.now) ≤ length text.old }
    ensures room { (at ≤ result) × (result ≤ at + (22 + length front.now)) }
    ensures size { length text.new ≡ length text.old }
    ensures text { take result text.new ≡ take at text.old ++ (front.now ++ (decimal n ++ codes "}\n")) }
{
    let place = put_word(front, text, at);
    let place = put_number(n, text, place);
    put_word(b"}\n", text, place)
}

/// Puts two numbers, each after a text, and the end of the object and its line.
#[inline(always)]
pub(crate) fn put_two<const N: usize, const M: usize>(
    front: &[u8; N],
    n: u64,
    second: &[u8; M],
    m: u64,
    text: &mut [u8],
    at: usize,
) -> usize
    requires { at + (42 + (length front.now + length second.now)) ≤ length text.old }
    ensures room { (at ≤ result) × (result ≤ at + (42 + (length front.now + length second.now))) }
    ensures size { length text.new ≡ length text.old }
    ensures text { take result text.new ≡ take at text.old ++ (front.now ++ (decimal n ++ (second.now ++ (decimal m ++ codes "}\n")))) }
{
    let place = put_word(front, text, at);
    let place = put_number(n, text, place);
    put_one(second, m, text, place)
}

/// Puts the numbers of a part of a piece after the index's name, and the end of the object and its line.
#[inline(never)]
fn end_part<const N: usize>(
    index: u32,
    begin: u32,
    third: &[u8; N],
    n: u64,
    text: &mut [u8],
    at: usize,
) -> usize
    requires { at + (71 + length third.now) ≤ length text.old }
    ensures room { (at ≤ result) × (result ≤ at + (71 + length third.now)) }
    ensures size { length text.new ≡ length text.old }
    ensures text { take result text.new ≡ take at text.old
        ++ (decimal index ++ (codes ",\"begin\":" ++ (decimal begin ++ (third.now ++ (decimal n ++ codes "}\n"))))) }
{
    let place = put_number(u64::from(index), text, at);
    put_two(b",\"begin\":", u64::from(begin), third, n, text, place)
}

/// Puts a text, the numbers of a part of a piece, and the end of the object and its line.
#[inline(always)]
fn put_part<const N: usize, const M: usize>(
    front: &[u8; N],
    index: u32,
    begin: u32,
    third: &[u8; M],
    n: u64,
    text: &mut [u8],
    at: usize,
) -> usize
    requires { at + (71 + (length front.now + length third.now)) ≤ length text.old }
    ensures room { (at ≤ result) × (result ≤ at + (71 + (length front.now + length third.now))) }
    ensures size { length text.new ≡ length text.old }
    ensures text { take result text.new ≡ take at text.old
        ++ (front.now ++ (decimal index ++ (codes ",\"begin\":" ++ (decimal begin ++ (third.now ++ (decimal n ++ codes "}\n")))))) }
{
    let place = put_word(front, text, at);
    end_part(index, begin, third, n, text, place)
}

/// Puts the fields of a piece of metadata, and the end of the object and its line.
fn put_data(piece: u32, total: u64, rest: u64, text: &mut [u8], at: usize) -> usize
    requires { at + 120 ≤ length text.old }
    ensures room { (at ≤ result) × (result ≤ at + 120) }
    ensures size { length text.new ≡ length text.old }
    ensures text { take result text.new ≡ take at text.old
        ++ rest_of_line (kind_field (codes "metadata-data") ++ (a_number (codes "piece") piece ++ (a_number (codes "total_size") total ++ a_number (codes "bytes") rest))) }
{
    let place = put_word(b",\"item\":\"metadata-data\",\"piece\":", text, at);
    let place = put_number(u64::from(piece), text, place);
    let second = b",\"total_size\":";
    put_two(second, total, b",\"bytes\":", rest, text, place)
}

/// Puts a text, the length of a dictionary, how many bytes follow it, and the end of the object and its line.
fn put_sizes<const N: usize>(
    front: &[u8; N],
    dict: &DictRef,
    rest: &[u8],
    text: &mut [u8],
    at: usize,
) -> usize
    requires { at + (50 + length front.now) ≤ length text.old }
    ensures room { (at ≤ result) × (result ≤ at + (50 + length front.now)) }
    ensures size { length text.new ≡ length text.old }
    ensures text { take result text.new ≡ take at text.old
        ++ (front.now ++ (decimal (length (ben (dictionary dict.now.tree.0))) ++ (codes ",\"rest\":" ++ (decimal (length rest.now) ++ codes "}\n")))) }
{
    let dictionary = dict.spelled().len() as u64;
    let bytes = rest.len() as u64;
    put_two(front, dictionary, b",\"rest\":", bytes, text, at)
}

/// Puts the fields of a metadata message, and the end of the object and its line.
fn put_metadata(dict: &DictRef, rest: &[u8], text: &mut [u8], at: usize) -> usize
    requires { at + 120 ≤ length text.old }
    ensures room { (at ≤ result) × (result ≤ at + 120) }
    ensures size { length text.new ≡ length text.old }
    ensures text { take result text.new ≡ take at text.old ++ rest_of_line (ext_fields (ext.Metadata (value.Dict dict.now.tree.0) rest.now)) }
{
    match kind_ref(dict) {
        Kind::Request(piece) => {
            let front = b",\"item\":\"metadata-request\",\"piece\":";
            put_one(front, u64::from(piece), text, at)
        }
        Kind::Data { piece, total } => put_data(piece, total, rest.len() as u64, text, at),
        Kind::Reject(piece) => {
            let front = b",\"item\":\"metadata-reject\",\"piece\":";
            put_one(front, u64::from(piece), text, at)
        }
        Kind::Other => {
            let front = b",\"item\":\"metadata-other\",\"dictionary\":";
            put_sizes(front, dict, rest, text, at)
        }
        Kind::Malformed => {
            let front = b",\"item\":\"metadata-malformed\",\"dictionary\":";
            put_sizes(front, dict, rest, text, at)
        }
    }
}

/// Puts the fields of an extended message that is no handshake, and the end of the object and its line.
#[inline(never)]
fn put_ext(payload: &ExtView, text: &mut [u8], at: usize) -> usize
    requires short { HasNoText (seen_ext payload.now) }
    requires free { at + 220 ≤ length text.old }
    ensures room { (at ≤ result) × (result ≤ at + 220) }
    ensures size { length text.new ≡ length text.old }
    ensures text { take result text.new ≡ take at text.old ++ rest_of_line (ext_fields (seen_ext payload.now)) }
{
    match payload {
        ExtView::Handshake { .. } => unreachable!(),
        ExtView::Metadata { dict, rest } => put_metadata(dict, rest, text, at),
        ExtView::DontHave(index) => {
            let front = b",\"item\":\"donthave\",\"index\":";
            put_one(front, u64::from(*index), text, at)
        }
        ExtView::Raw { id, payload } => {
            let front = b",\"item\":\"extended\",\"id\":";
            let bytes = payload.len() as u64;
            put_two(front, u64::from(*id), b",\"bytes\":", bytes, text, at)
        }
    }
}

/// Puts the fields of a message but an extended handshake that follow its offset, and the end of the object and its line.
#[tactic(auto, using(crate::proofs::MemberLaws::one_number, crate::proofs::MemberLaws::two_numbers, crate::proofs::MemberLaws::three_numbers), unfolding(json::specs::Print::escape_byte, json::specs::Print::print_from, crate::specs::Objects::a_field))]
#[inline(always)]
fn put_fields(view: &MessageView, text: &mut [u8], at: usize) -> usize
    requires short { IsShort (message_of view.now) }
    requires free { at + 220 ≤ length text.old }
    ensures room { (at ≤ result) × (result ≤ at + 220) }
    ensures size { length text.new ≡ length text.old }
    ensures text { (own : Own) → take result text.new ≡ take at text.old ++ rest_of_line (message_fields own (message_of view.now)) }
{
    match view {
        MessageView::KeepAlive => put_word(b",\"item\":\"keep-alive\"}\n", text, at),
        MessageView::Choke => put_word(b",\"item\":\"choke\"}\n", text, at),
        MessageView::Unchoke => put_word(b",\"item\":\"unchoke\"}\n", text, at),
        MessageView::Interested => put_word(b",\"item\":\"interested\"}\n", text, at),
        MessageView::NotInterested => put_word(b",\"item\":\"not-interested\"}\n", text, at),
        MessageView::Have(index) => {
            let front = b",\"item\":\"have\",\"index\":";
            put_one(front, u64::from(*index), text, at)
        }
        MessageView::Bitfield(bits) => {
            let front = b",\"item\":\"bitfield\",\"bytes\":";
            put_one(front, bits.len() as u64, text, at)
        }
        MessageView::Request {
            index,
            begin,
            length,
        } => {
            let front = b",\"item\":\"request\",\"index\":";
            let third = b",\"length\":";
            let size = u64::from(*length);
            put_part(front, *index, *begin, third, size, text, at)
        }
        MessageView::Piece {
            index,
            begin,
            block,
        } => {
            let front = b",\"item\":\"piece\",\"index\":";
            let third = b",\"bytes\":";
            let bytes = block.len() as u64;
            put_part(front, *index, *begin, third, bytes, text, at)
        }
        MessageView::Cancel {
            index,
            begin,
            length,
        } => {
            let front = b",\"item\":\"cancel\",\"index\":";
            let third = b",\"length\":";
            let size = u64::from(*length);
            put_part(front, *index, *begin, third, size, text, at)
        }
        MessageView::Port(port) => {
            let front = b",\"item\":\"port\",\"port\":";
            put_one(front, u64::from(*port), text, at)
        }
        MessageView::Suggest(index) => {
            let front = b",\"item\":\"suggest\",\"index\":";
            put_one(front, u64::from(*index), text, at)
        }
        MessageView::HaveAll => put_word(b",\"item\":\"have-all\"}\n", text, at),
        MessageView::HaveNone => put_word(b",\"item\":\"have-none\"}\n", text, at),
        MessageView::Reject {
            index,
            begin,
            length,
        } => {
            let front = b",\"item\":\"reject\",\"index\":";
            let third = b",\"length\":";
            let size = u64::from(*length);
            put_part(front, *index, *begin, third, size, text, at)
        }
        MessageView::AllowedFast(index) => {
            let front = b",\"item\":\"allowed-fast\",\"index\":";
            put_one(front, u64::from(*index), text, at)
        }
        MessageView::Extended(payload) => put_ext(payload, text, at),
        MessageView::Unknown { id, payload } => {
            let front = b",\"item\":\"unknown\",\"id\":";
            let bytes = payload.len() as u64;
            put_two(front, u64::from(*id), b",\"bytes\":", bytes, text, at)
        }
    }
}

/// Puts the line of a message but an extended handshake.
#[tactic(auto, using(crate::proofs::MemberLaws::offset_line))]
#[inline(always)]
fn put_message_line(
    offset: &mut Offset,
    at: u64,
    view: &MessageView,
    text: &mut [u8],
    place: usize,
) -> usize
    requires short { IsShort (message_of view.now) }
    requires free { place + 254 ≤ length text.old }
    ensures size { length text.new ≡ length text.old }
    ensures text { (own : Own) → take result text.new ≡ take place text.old ++ line_of own (at, items.Message (message_of view.now)) }
{
    let place = put_offset(offset, at, text, place);
    put_fields(view, text, place)
}

/// Writes a message's line from the offset `place` on; returns its end.
///
/// `at` is the message's offset in its stream. The text has room for 254 bytes from there on. The call asks for memory only if
/// the line is that of an extended handshake and the capacity has no room for 254 bytes and the client's name with its escapes.
///
/// # Errors
/// `AllocError` when out of memory; the bytes before `place` are then as before.
#[inline(always)]
pub fn add_message_line(
    offset: &mut Offset,
    at: u64,
    view: &MessageView,
    text: &mut Vec<u8>,
    place: usize,
) -> Result<usize, AllocError>
    requires { place + 254 ≤ vec_len text.old }
    ensures line { IfOk result (λ n. (own : Own) → take n text.new.items
        ≡ take place text.old.items ++ line_of own (at, items.Message (message_of view.now))) }
    ensures kept { OnErr result (take place text.new.items ≡ take place text.old.items) }
    ensures full { OnErr result (vec_capacity text.old < place + (254 + text_room (client_in_line (message_of view.now)))) }
{
    match view {
        MessageView::Extended(ExtView::Handshake { dict, rest }) => {
            add_ext_handshake(offset, at, dict, rest, text, place)
        }
        _ => Ok(put_message_line(offset, at, view, text.as_mut_slice(), place)),
    }
}
