//! The words of a message, owned or viewed alike.
//!
//! They are written into a text that has room for them, with a line feed after them; a call returns the offset after that.
ghost use Rattle.std.specs.Prelude.{◌≡◌, ◌<◌, ◌≤◌, ◌+◌, ◌^◌, ℕ, List, ◌++◌, length as list_length, take, codes, decimal, ⊤};
ghost use Rattle.bt_bencode.specs.Bencoding.{ben};
ghost use Rattle.bt_bencode.specs.Trees.{Tree, dictionary};
ghost use Rattle.bt_bencode.specs.Views.{tree_of};
ghost use Rattle.bt_ext.specs.declared.ext.Ext.{Ext as ExtValue};
ghost use Rattle.bt_ext.specs.Fields.{size_of, told_id};
ghost use Rattle.bt_ext.specs.Metadata.{kind_of};
ghost use Rattle.bt_ext.specs.Payloads.{seen as seen_ext};
ghost use Rattle.bt_wire.specs.Messages.{map};
ghost use Rattle.bt_text.specs.Lines.{spaced, or_dash, announced_words, kind_words, ext_words, message_words};
ghost use Rattle.bt_text.specs.Words.{HasLength, IsCounted};

use crate::putting::{put_number, put_one, put_three, put_two, put_word};
use bt_bencode::{ByteString, DictRef, Value, ben_len};
use bt_ext::{Ext, ExtView, Kind, announced, announced_ref, kind, kind_ref};
use bt_wire::Message;

/// The bytes of a message, owned or borrowed.
pub trait Bytes {
    ghost bytes: { Self → List ℕ };

    /// Returns how many bytes they are.
    fn count(&self) -> u64
        ensures { result ≡ list_length (bytes self.now) };
}

impl Bytes for ByteString {
    ghost bytes = { λ b. b };

    #[inline(always)]
    fn count(&self) -> u64 {
        self.len() as u64
    }
}

impl Bytes for &[u8] {
    ghost bytes = { λ b. b.now };

    #[inline(always)]
    fn count(&self) -> u64 {
        self.len() as u64
    }
}

/// The dictionary of an extended message, owned or viewed.
pub trait Dictionary {
    ghost tree: { Self → Tree };

    /// Its encoding has fewer than 2^64 bytes.
    ghost is_counted: { Self → Type 0 };

    /// Returns the length of its encoding.
    fn length(&self) -> u64
        ensures { is_counted self.now → result ≡ list_length (ben (tree self.now)) };

    /// Returns the kind of the metadata message that has it.
    fn kind(&self) -> Kind
        ensures { result ≡ kind_of (tree self.now) };

    /// Returns the id of `ut_metadata` and the size of the metadata that it announces.
    fn announced(&self) -> (Option<u64>, Option<u64>)
        ensures id { result.0 ≡ told_id (tree self.now) }
        ensures size { result.1 ≡ size_of (tree self.now) };
}

impl Dictionary for DictRef<'_> {
    ghost tree = { λ d. dictionary d.tree.0 };

    ghost is_counted = { λ d. ⊤ };

    #[inline(always)]
    fn length(&self) -> u64 {
        self.spelled().len() as u64
    }

    #[inline(always)]
    fn kind(&self) -> Kind {
        kind_ref(self)
    }

    fn announced(&self) -> (Option<u64>, Option<u64>) {
        let (id, size) = announced_ref(self);
        (id.map(u64::from), size)
    }
}

impl Dictionary for Value {
    ghost tree = { tree_of };

    ghost is_counted = { λ v. list_length (ben (tree_of v)) < 2 ^ 64 };

    fn length(&self) -> u64 {
        ben_len(self)
    }

    fn kind(&self) -> Kind {
        kind(self)
    }

    fn announced(&self) -> (Option<u64>, Option<u64>) {
        let (id, size) = announced(self);
        (id.map(u64::from), size)
    }
}

/// Puts a number, or `-` for none.
#[inline(always)]
fn put_or_dash(n: Option<u64>, text: &mut [u8], at: usize) -> usize
    requires { at + 20 ≤ list_length text.old }
    ensures room { (at ≤ result) × (result ≤ at + 20) }
    ensures size { list_length text.new ≡ list_length text.old }
    ensures text { take result text.new ≡ take at text.old ++ or_dash n }
{
    match n {
        Some(n) => put_number(n, text, at),
        None => put_word(b"-", text, at),
    }
}

/// Puts what an extended handshake announces and the line's end.
#[inline(always)]
fn put_announced(id: Option<u64>, size: Option<u64>, text: &mut [u8], at: usize) -> usize
    requires { at + 60 ≤ list_length text.old }
    ensures room { (at ≤ result) × (result ≤ at + 60) }
    ensures size { list_length text.new ≡ list_length text.old }
    ensures text { take result text.new ≡ take at text.old
        ++ (codes " size=" ++ (or_dash size ++ (codes " ut_metadata=" ++ (or_dash id ++ codes "\n")))) }
{
    let place = put_word(b" size=", text, at);
    let place = put_or_dash(size, text, place);
    let place = put_word(b" ut_metadata=", text, place);
    let place = put_or_dash(id, text, place);
    put_word(b"\n", text, place)
}

/// Puts the words of an extended handshake and the line's end.
#[inline(never)]
fn put_handshake<D: Dictionary>(dict: &D, rest: u64, text: &mut [u8], at: usize) -> usize
    requires { at + 116 ≤ list_length text.old }
    ensures room { (at ≤ result) × (result ≤ at + 116) }
    ensures size { list_length text.new ≡ list_length text.old }
    ensures text { D.is_counted dict.now → (bytes : List ℕ) → list_length bytes ≡ rest → take result text.new ≡ take at text.old
        ++ (announced_words (D.tree dict.now) bytes ++ codes "\n") }
{
    let (id, size) = dict.announced();
    let place = put_word(b"ext-handshake ", text, at);
    let place = put_number(dict.length(), text, place);
    let place = put_word(b" ", text, place);
    let place = put_number(rest, text, place);
    put_announced(id, size, text, place)
}

/// Puts the words of a metadata message and the line's end.
#[inline(never)]
fn put_metadata<D: Dictionary>(dict: &D, rest: u64, text: &mut [u8], at: usize) -> usize
    requires { at + 116 ≤ list_length text.old }
    ensures room { (at ≤ result) × (result ≤ at + 116) }
    ensures size { list_length text.new ≡ list_length text.old }
    ensures text { D.is_counted dict.now → (bytes : List ℕ) → list_length bytes ≡ rest → take result text.new ≡ take at text.old
        ++ (kind_words (kind_of (D.tree dict.now)) (D.tree dict.now) bytes ++ codes "\n") }
{
    match dict.kind() {
        Kind::Request(piece) => put_one(b"metadata-request ", u64::from(piece), text, at),
        Kind::Data { piece, total } => {
            put_three(b"metadata-data ", u64::from(piece), total, rest, text, at)
        }
        Kind::Reject(piece) => put_one(b"metadata-reject ", u64::from(piece), text, at),
        Kind::Other => put_two(b"metadata-other ", dict.length(), rest, text, at),
        Kind::Malformed => put_two(b"metadata-malformed ", dict.length(), rest, text, at),
    }
}

/// An extended payload, owned or viewed.
pub trait Payload {
    ghost payload: { Self → ExtValue };

    /// The length of its dictionary can be told.
    ghost is_counted: { Self → Type 0 };

    /// Writes its words and a line feed at the offset `at`; returns the offset after them.
    ///
    /// There is room for 116 bytes.
    fn put_payload(&self, text: &mut [u8], at: usize) -> usize
        requires { at + 116 ≤ list_length text.old }
        ensures room { (at ≤ result) × (result ≤ at + 116) }
        ensures size { list_length text.new ≡ list_length text.old }
        ensures text { is_counted self.now → take result text.new ≡ take at text.old ++ (ext_words (payload self.now) ++ codes "\n") };
}

impl Payload for ExtView<'_> {
    ghost payload = { seen_ext };

    ghost is_counted = { λ e. ⊤ };

    #[inline(always)]
    fn put_payload(&self, text: &mut [u8], at: usize) -> usize {
        match self {
            ExtView::Handshake { dict, rest } => put_handshake(dict, rest.count(), text, at),
            ExtView::Metadata { dict, rest } => put_metadata(dict, rest.count(), text, at),
            ExtView::DontHave(index) => put_one(b"donthave ", u64::from(*index), text, at),
            ExtView::Raw { id, payload } => {
                put_two(b"extended ", u64::from(*id), payload.count(), text, at)
            }
        }
    }
}

impl Payload for Ext {
    ghost payload = { λ e. e };

    ghost is_counted = { HasLength };

    fn put_payload(&self, text: &mut [u8], at: usize) -> usize {
        match self {
            Ext::Handshake { dict, rest } => put_handshake(dict, rest.count(), text, at),
            Ext::Metadata { dict, rest } => put_metadata(dict, rest.count(), text, at),
            Ext::DontHave(index) => put_one(b"donthave ", u64::from(*index), text, at),
            Ext::Raw { id, payload } => {
                put_two(b"extended ", u64::from(*id), payload.count(), text, at)
            }
        }
    }
}

/// Puts a name, the three numbers of a part of a piece, and the line's end.
#[inline(always)]
fn put_part<const N: usize>(
    name: &[u8; N],
    index: u32,
    begin: u32,
    length: u64,
    text: &mut [u8],
    at: usize,
) -> usize
    requires { at + (63 + list_length name.now) ≤ list_length text.old }
    ensures room { (at ≤ result) × (result ≤ at + (63 + list_length name.now)) }
    ensures size { list_length text.new ≡ list_length text.old }
    ensures text { take result text.new ≡ take at text.old ++ (name.now ++ (decimal index ++ (spaced begin ++ (spaced length ++ codes "\n")))) }
{
    put_three(name, u64::from(index), u64::from(begin), length, text, at)
}

/// Writes the words of a message and a line feed at the offset `at`; returns the offset after them.
///
/// There is room for 120 bytes.
#[inline(always)]
pub fn put_words<B: Bytes, E: Payload>(message: &Message<B, E>, text: &mut [u8], at: usize) -> usize
    requires { at + 120 ≤ list_length text.old }
    ensures room { (at ≤ result) × (result ≤ at + 120) }
    ensures size { list_length text.new ≡ list_length text.old }
    ensures text { IsCounted E.is_counted message.now → take result text.new ≡ take at text.old
        ++ (message_words (map B.bytes E.payload message.now) ++ codes "\n") }
{
    match message {
        Message::KeepAlive => put_word(b"keep-alive\n", text, at),
        Message::Choke => put_word(b"choke\n", text, at),
        Message::Unchoke => put_word(b"unchoke\n", text, at),
        Message::Interested => put_word(b"interested\n", text, at),
        Message::NotInterested => put_word(b"not-interested\n", text, at),
        Message::Have(i) => put_one(b"have ", u64::from(*i), text, at),
        Message::Bitfield(bits) => put_one(b"bitfield ", bits.count(), text, at),
        Message::Request {
            index,
            begin,
            length,
        } => put_part(b"request ", *index, *begin, u64::from(*length), text, at),
        Message::Piece {
            index,
            begin,
            block,
        } => put_part(b"piece ", *index, *begin, block.count(), text, at),
        Message::Cancel {
            index,
            begin,
            length,
        } => put_part(b"cancel ", *index, *begin, u64::from(*length), text, at),
        Message::Port(port) => put_one(b"port ", u64::from(*port), text, at),
        Message::Suggest(i) => put_one(b"suggest ", u64::from(*i), text, at),
        Message::HaveAll => put_word(b"have-all\n", text, at),
        Message::HaveNone => put_word(b"have-none\n", text, at),
        Message::Reject {
            index,
            begin,
            length,
        } => put_part(b"reject ", *index, *begin, u64::from(*length), text, at),
        Message::AllowedFast(i) => put_one(b"allowed-fast ", u64::from(*i), text, at),
        Message::Extended(payload) => payload.put_payload(text, at),
        Message::Unknown { id, payload } => {
            put_two(b"unknown ", u64::from(*id), payload.count(), text, at)
        }
    }
}
