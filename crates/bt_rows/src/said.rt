//! An item of a stream in the words of `show`, without its bytes.
ghost use Rattle.std.specs.Prelude.{◌≡◌, ◌+◌, ◌≤◌, ◌++◌, codes, length, take};
ghost use Rattle.bt_feed.specs.Views.{item_of};
ghost use Rattle.bt_text.specs.Lines.{announced_words, ext_words, handshake_words, kind_words, message_words, or_dash, spaced, words as words_of_item};
ghost use Rattle.bt_bencode.specs.Trees.{dictionary};
ghost use Rattle.bt_ext.specs.Metadata.{kind_of};
ghost use Rattle.bt_ext.specs.Payloads.{seen as seen_ext};
ghost use Rattle.bt_wire.specs.Messages.{message_of};
ghost use Rattle.bt_json.specs.Members.{HasNoText, rest_of_line};
ghost use Rattle.bt_json.specs.Objects.{ext_fields, handshake_fields, metadata_fields};
ghost use Rattle.bt_rows.specs.Members.{IsItemShown, IsShown, words_members};
ghost use Rattle.bt_rows.specs.Said.{name_text, numbers_text, said_text, words_text};

use bt_bencode::DictRef;
use bt_ext::{ExtView, Kind};
use bt_feed::View;
use bt_text::putting::{put_hex, put_number, put_word};
use bt_text::words::Dictionary;
use bt_wire::{Handshake, MessageView};

/// What a message is called.
#[derive(Clone, Copy)]
pub enum Name {
    KeepAlive,
    Choke,
    Unchoke,
    Interested,
    NotInterested,
    Have,
    Bitfield,
    Request,
    Piece,
    Cancel,
    Port,
    Suggest,
    HaveAll,
    HaveNone,
    Reject,
    AllowedFast,
    DontHave,
    Extended,
    MetadataRequest,
    MetadataData,
    MetadataReject,
    MetadataOther,
    MetadataMalformed,
    Unknown,
}

/// The numbers after a message's name.
#[derive(Clone, Copy)]
pub enum Numbers {
    Zero,
    One(u64),
    Two(u64, u64),
    Three(u64, u64, u64),
}

/// The words of an item, without its bytes.
#[derive(Clone, Copy)]
pub enum Words {
    Handshake(Handshake),
    /// An extended handshake: the lengths of its dictionary and of the rest, and what it announces.
    Announced {
        dict: u64,
        rest: u64,
        size: Option<u64>,
        id: Option<u64>,
    },
    Message(Name, Numbers),
}

/// An item and its offset in the stream.
#[derive(Clone, Copy)]
pub struct Said {
    pub offset: u64,
    pub words: Words,
}

/// Puts a message's name.
#[inline(always)]
pub(crate) fn put_name(name: Name, text: &mut [u8], at: usize) -> usize
    requires { at + 20 ≤ length text.old }
    ensures room { (at ≤ result) × (result ≤ at + 20) }
    ensures size { length text.new ≡ length text.old }
    ensures text { take result text.new ≡ take at text.old ++ name_text name }
{
    match name {
        Name::KeepAlive => put_word(b"keep-alive", text, at),
        Name::Choke => put_word(b"choke", text, at),
        Name::Unchoke => put_word(b"unchoke", text, at),
        Name::Interested => put_word(b"interested", text, at),
        Name::NotInterested => put_word(b"not-interested", text, at),
        Name::Have => put_word(b"have", text, at),
        Name::Bitfield => put_word(b"bitfield", text, at),
        Name::Request => put_word(b"request", text, at),
        Name::Piece => put_word(b"piece", text, at),
        Name::Cancel => put_word(b"cancel", text, at),
        Name::Port => put_word(b"port", text, at),
        Name::Suggest => put_word(b"suggest", text, at),
        Name::HaveAll => put_word(b"have-all", text, at),
        Name::HaveNone => put_word(b"have-none", text, at),
        Name::Reject => put_word(b"reject", text, at),
        Name::AllowedFast => put_word(b"allowed-fast", text, at),
        Name::DontHave => put_word(b"donthave", text, at),
        Name::Extended => put_word(b"extended", text, at),
        Name::MetadataRequest => put_word(b"metadata-request", text, at),
        Name::MetadataData => put_word(b"metadata-data", text, at),
        Name::MetadataReject => put_word(b"metadata-reject", text, at),
        Name::MetadataOther => put_word(b"metadata-other", text, at),
        Name::MetadataMalformed => put_word(b"metadata-malformed", text, at),
        Name::Unknown => put_word(b"unknown", text, at),
    }
}

/// Returns the words of an extended handshake.
fn announced(dict: &DictRef, rest: &[u8]) -> Words
    ensures { words_text result ≡ announced_words (dictionary dict.now.tree.0) rest.now }
{
    let (id, size) = dict.announced();
    Words::Announced {
        dict: dict.length(),
        rest: rest.len() as u64,
        size,
        id,
    }
}

/// Returns the words of a metadata message.
#[tactic(auto, unfolding(json::specs::Print::escape_byte, json::specs::Print::print_from, bt_json::specs::Objects::a_field))]
fn metadata(dict: &DictRef, rest: &[u8]) -> Words
    ensures text { words_text result ≡ kind_words (kind_of (dictionary dict.now.tree.0)) (dictionary dict.now.tree.0) rest.now }
    ensures fields { words_members result ++ codes "}\n" ≡ rest_of_line
        (metadata_fields (kind_of (dictionary dict.now.tree.0)) (dictionary dict.now.tree.0) rest.now) }
{
    let rest = rest.len() as u64;
    match dict.kind() {
        Kind::Request(piece) => {
            Words::Message(Name::MetadataRequest, Numbers::One(u64::from(piece)))
        }
        Kind::Data { piece, total } => Words::Message(
            Name::MetadataData,
            Numbers::Three(u64::from(piece), total, rest),
        ),
        Kind::Reject(piece) => {
            Words::Message(Name::MetadataReject, Numbers::One(u64::from(piece)))
        }
        Kind::Other => Words::Message(Name::MetadataOther, Numbers::Two(dict.length(), rest)),
        Kind::Malformed => {
            Words::Message(Name::MetadataMalformed, Numbers::Two(dict.length(), rest))
        }
    }
}

/// Returns the words of an extended message.
#[tactic(auto, unfolding(json::specs::Print::escape_byte, json::specs::Print::print_from, bt_json::specs::Objects::a_field))]
fn extended(payload: &ExtView) -> Words
    ensures text { words_text result ≡ ext_words (seen_ext payload.now) }
    ensures fields { HasNoText (seen_ext payload.now) → words_members result ++ codes "}\n" ≡ rest_of_line (ext_fields (seen_ext payload.now)) }
{
    match payload {
        ExtView::Handshake { dict, rest } => announced(dict, rest),
        ExtView::Metadata { dict, rest } => metadata(dict, rest),
        ExtView::DontHave(index) => {
            Words::Message(Name::DontHave, Numbers::One(u64::from(*index)))
        }
        ExtView::Raw { id, payload } => Words::Message(
            Name::Extended,
            Numbers::Two(u64::from(*id), payload.len() as u64),
        ),
    }
}

/// Returns the words of a part of a piece.
fn part(name: Name, index: u32, begin: u32, length: u64) -> Words
    ensures { result ≡ Words.Message name (Numbers.Three index begin length) }
{
    Words::Message(
        name,
        Numbers::Three(u64::from(index), u64::from(begin), length),
    )
}

/// Returns the words with one number.
fn one(name: Name, n: u32) -> Words
    ensures { result ≡ Words.Message name (Numbers.One n) }
{
    Words::Message(name, Numbers::One(u64::from(n)))
}

/// Returns the words of a message.
///
/// It is inlined, so that a caller that knows the kind of the message doesn't look at it again.
#[inline(always)]
#[tactic(auto, unfolding(json::specs::Print::escape_byte, json::specs::Print::print_from, bt_json::specs::Objects::a_field))]
fn message_in(message: &MessageView) -> Words
    ensures text { words_text result ≡ message_words (message_of message.now) }
    ensures fields { IsShown (message_of message.now) result }
{
    match message {
        MessageView::KeepAlive => Words::Message(Name::KeepAlive, Numbers::Zero),
        MessageView::Choke => Words::Message(Name::Choke, Numbers::Zero),
        MessageView::Unchoke => Words::Message(Name::Unchoke, Numbers::Zero),
        MessageView::Interested => Words::Message(Name::Interested, Numbers::Zero),
        MessageView::NotInterested => Words::Message(Name::NotInterested, Numbers::Zero),
        MessageView::Have(index) => one(Name::Have, *index),
        MessageView::Bitfield(bits) => {
            Words::Message(Name::Bitfield, Numbers::One(bits.len() as u64))
        }
        MessageView::Request {
            index,
            begin,
            length,
        } => part(Name::Request, *index, *begin, u64::from(*length)),
        MessageView::Piece {
            index,
            begin,
            block,
        } => part(Name::Piece, *index, *begin, block.len() as u64),
        MessageView::Cancel {
            index,
            begin,
            length,
        } => part(Name::Cancel, *index, *begin, u64::from(*length)),
        MessageView::Port(port) => Words::Message(Name::Port, Numbers::One(u64::from(*port))),
        MessageView::Suggest(index) => one(Name::Suggest, *index),
        MessageView::HaveAll => Words::Message(Name::HaveAll, Numbers::Zero),
        MessageView::HaveNone => Words::Message(Name::HaveNone, Numbers::Zero),
        MessageView::Reject {
            index,
            begin,
            length,
        } => part(Name::Reject, *index, *begin, u64::from(*length)),
        MessageView::AllowedFast(index) => one(Name::AllowedFast, *index),
        MessageView::Extended(payload) => extended(payload),
        MessageView::Unknown { id, payload } => Words::Message(
            Name::Unknown,
            Numbers::Two(u64::from(*id), payload.len() as u64),
        ),
    }
}

/// Returns the words of a handshake.
#[inline(always)]
fn hello(handshake: Handshake) -> Words
    ensures is { result ≡ Words.Handshake handshake }
    ensures fields { words_members result ++ codes "}\n" ≡ rest_of_line (handshake_fields handshake) }
{
    Words::Handshake(handshake)
}

impl Words {
    /// Returns the words of an item.
    #[inline(always)]
    pub fn of(view: &View) -> Words
        ensures text { words_text result ≡ words_of_item (item_of view.now) }
        ensures fields { IsItemShown (item_of view.now) result }
    {
        match view {
            View::Handshake(handshake) => hello(*handshake),
            View::Message(message) => message_in(message),
        }
    }
}

/// Puts a space and a number.
#[inline(always)]
pub(crate) fn put_spaced(n: u64, text: &mut [u8], at: usize) -> usize
    requires { at + 21 ≤ length text.old }
    ensures room { (at ≤ result) × (result ≤ at + 21) }
    ensures size { length text.new ≡ length text.old }
    ensures text { take result text.new ≡ take at text.old ++ spaced n }
{
    let at = put_word(b" ", text, at);
    put_number(n, text, at)
}

/// Puts the numbers after a name.
#[inline(always)]
fn put_numbers(numbers: Numbers, text: &mut [u8], at: usize) -> usize
    requires { at + 63 ≤ length text.old }
    ensures room { (at ≤ result) × (result ≤ at + 63) }
    ensures size { length text.new ≡ length text.old }
    ensures text { take result text.new ≡ take at text.old ++ numbers_text numbers }
{
    match numbers {
        Numbers::Zero => at,
        Numbers::One(n) => put_spaced(n, text, at),
        Numbers::Two(n, m) => {
            let at = put_spaced(n, text, at);
            put_spaced(m, text, at)
        }
        Numbers::Three(n, m, k) => {
            let at = put_spaced(n, text, at);
            let at = put_spaced(m, text, at);
            put_spaced(k, text, at)
        }
    }
}

/// Puts a handshake's three fields in hex.
#[inline(never)]
fn put_handshake(handshake: &Handshake, text: &mut [u8], at: usize) -> usize
    requires { at + 120 ≤ length text.old }
    ensures room { (at ≤ result) × (result ≤ at + 120) }
    ensures size { length text.new ≡ length text.old }
    ensures text { take result text.new ≡ take at text.old ++ handshake_words handshake.now }
{
    let at = put_word(b"handshake ", text, at);
    let at = put_hex(&handshake.reserved.0.to_be_bytes(), text, at);
    let at = put_word(b" ", text, at);
    let at = put_hex(&handshake.info_hash, text, at);
    let at = put_word(b" ", text, at);
    put_hex(&handshake.peer_id, text, at)
}

/// Puts a number, or `-` for none.
fn put_or_dash(n: Option<u64>, text: &mut [u8], at: usize) -> usize
    requires { at + 20 ≤ length text.old }
    ensures room { (at ≤ result) × (result ≤ at + 20) }
    ensures size { length text.new ≡ length text.old }
    ensures text { take result text.new ≡ take at text.old ++ or_dash n }
{
    match n {
        Some(n) => put_number(n, text, at),
        None => put_word(b"-", text, at),
    }
}

/// Puts what an extended handshake announces.
fn put_announced(size: Option<u64>, id: Option<u64>, text: &mut [u8], at: usize) -> usize
    requires { at + 59 ≤ length text.old }
    ensures room { (at ≤ result) × (result ≤ at + 59) }
    ensures size { length text.new ≡ length text.old }
    ensures text { take result text.new ≡ take at text.old ++ (codes " size=" ++ (or_dash size ++ (codes " ut_metadata=" ++ or_dash id))) }
{
    let at = put_word(b" size=", text, at);
    let at = put_or_dash(size, text, at);
    let at = put_word(b" ut_metadata=", text, at);
    put_or_dash(id, text, at)
}

/// Puts the words of an extended handshake.
#[inline(never)]
fn put_ext_handshake(
    dict: u64,
    rest: u64,
    size: Option<u64>,
    id: Option<u64>,
    text: &mut [u8],
    at: usize,
) -> usize
    requires { at + 120 ≤ length text.old }
    ensures room { (at ≤ result) × (result ≤ at + 120) }
    ensures size { length text.new ≡ length text.old }
    ensures text { take result text.new ≡ take at text.old ++ words_text (Words.Announced dict rest size id) }
{
    let at = put_word(b"ext-handshake", text, at);
    let at = put_spaced(dict, text, at);
    let at = put_spaced(rest, text, at);
    put_announced(size, id, text, at)
}

/// Puts the words of an item.
#[inline(always)]
pub(crate) fn put_words(words: &Words, text: &mut [u8], at: usize) -> usize
    requires { at + 120 ≤ length text.old }
    ensures room { (at ≤ result) × (result ≤ at + 120) }
    ensures size { length text.new ≡ length text.old }
    ensures text { take result text.new ≡ take at text.old ++ words_text words.now }
{
    match words {
        Words::Handshake(handshake) => put_handshake(handshake, text, at),
        Words::Announced {
            dict,
            rest,
            size,
            id,
        } => put_ext_handshake(*dict, *rest, *size, *id, text, at),
        Words::Message(name, numbers) => {
            let at = put_name(*name, text, at);
            put_numbers(*numbers, text, at)
        }
    }
}

/// Puts an item's offset and words.
pub(crate) fn put_said(said: &Said, text: &mut [u8], at: usize) -> usize
    requires { at + 141 ≤ length text.old }
    ensures room { (at ≤ result) × (result ≤ at + 141) }
    ensures size { length text.new ≡ length text.old }
    ensures text { take result text.new ≡ take at text.old ++ said_text said.now }
{
    let at = put_number(said.offset, text, at);
    let at = put_word(b" ", text, at);
    put_words(&said.words, text, at)
}
