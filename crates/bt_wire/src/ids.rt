//! The ids of messages (BEP 3, BEP 5, BEP 6, BEP 10).
ghost use Rattle.std.specs.Prelude.{◌≡◌, ◌≤◌, length, option_map, option_and_then, IfSome};
ghost use Rattle.std.specs.Str.{bytes_eq};
ghost use Rattle.bt_wire.specs.Ids.{ids, row_in, row_named, kind_of as kind_at};

/// What follows a message's id.
#[derive(Clone, Copy, PartialEq, Eq)]
pub enum Shape {
    Nothing,
    /// A piece index.
    Index,
    /// A piece index, and begin and length of a part of the piece.
    Part,
    /// A piece index, begin, and the bytes of the block.
    Block,
    Port,
    /// A bit for each piece.
    Field,
    /// An extended id and its payload.
    Extended,
}

/// The extension that both peers have to support.
#[derive(Clone, Copy, PartialEq, Eq)]
pub enum Needs {
    Neither,
    /// The Fast Extension (BEP 6).
    Fast,
    /// The Extension Protocol (BEP 10).
    Extension,
}

/// What a message means for the order of messages.
#[derive(Clone, Copy, PartialEq, Eq)]
pub enum Turn {
    /// It may come at any time, and changes nothing.
    Apart,
    Counted,
    /// It says which pieces the sender has, and comes first.
    Opening,
}

/// What is known about a message from its id.
#[derive(Clone, Copy, PartialEq, Eq)]
pub struct Kind {
    pub shape: Shape,
    pub needs: Needs,
    pub turn: Turn,
}

#[inline(always)]
const fn row(shape: Shape, needs: Needs, turn: Turn) -> Kind
    ensures { result ≡ record { shape = shape; needs = needs; turn = turn } }
{
    Kind { shape, needs, turn }
}

/// The id of extended messages (BEP 10).
pub const EXTENDED: u8 = 20;

/// Returns what is known about a message with this id; `None` for an unknown id.
#[inline(always)]
pub fn kind_of(id: u8) -> Option<Kind>
    ensures { result ≡ kind_at id }
{
    match id {
        0 | 1 | 2 | 3 => Some(row(Shape::Nothing, Needs::Neither, Turn::Counted)),
        4 => Some(row(Shape::Index, Needs::Neither, Turn::Counted)),
        5 => Some(row(Shape::Field, Needs::Neither, Turn::Opening)),
        6 | 8 => Some(row(Shape::Part, Needs::Neither, Turn::Counted)),
        7 => Some(row(Shape::Block, Needs::Neither, Turn::Counted)),
        9 => Some(row(Shape::Port, Needs::Neither, Turn::Apart)),
        13 | 17 => Some(row(Shape::Index, Needs::Fast, Turn::Counted)),
        14 | 15 => Some(row(Shape::Nothing, Needs::Fast, Turn::Opening)),
        16 => Some(row(Shape::Part, Needs::Fast, Turn::Counted)),
        20 => Some(row(Shape::Extended, Needs::Extension, Turn::Apart)),
        _ => None,
    }
}

/// Returns the name of a message's id; `None` for an id without a meaning.
#[inline]
pub fn id_name(id: u8) -> Option<&'static str>
    ensures name { option_map (λ name. name.now) result ≡ option_map (λ row. row.name) (row_in id ids) }
    ensures short { IfSome result (λ name. length name.now ≤ 14) }
{
    match id {
        0 => Some("choke"),
        1 => Some("unchoke"),
        2 => Some("interested"),
        3 => Some("not-interested"),
        4 => Some("have"),
        5 => Some("bitfield"),
        6 => Some("request"),
        7 => Some("piece"),
        8 => Some("cancel"),
        9 => Some("port"),
        13 => Some("suggest"),
        14 => Some("have-all"),
        15 => Some("have-none"),
        16 => Some("reject"),
        17 => Some("allowed-fast"),
        20 => Some("extended"),
        _ => None,
    }
}

/// Returns whether a text is a word.
#[inline(always)]
fn is(text: &[u8], word: &[u8]) -> bool
    ensures { result ≡ bytes_eq text.now word.now }
{
    text == word
}

/// Returns the id of a message's name; `None` for a name that no id has.
#[inline(always)]
pub fn id_named(name: &[u8]) -> Option<u8>
    ensures number { result ≡ option_map (λ row. row.number) (row_named name.now ids) }
    ensures kind { option_and_then kind_at result ≡ option_map (λ row. row.kind) (row_named name.now ids) }
{
    if is(name, b"choke") {
        Some(0)
    } else if is(name, b"unchoke") {
        Some(1)
    } else if is(name, b"interested") {
        Some(2)
    } else if is(name, b"not-interested") {
        Some(3)
    } else if is(name, b"have") {
        Some(4)
    } else if is(name, b"bitfield") {
        Some(5)
    } else if is(name, b"request") {
        Some(6)
    } else if is(name, b"piece") {
        Some(7)
    } else if is(name, b"cancel") {
        Some(8)
    } else if is(name, b"port") {
        Some(9)
    } else if is(name, b"suggest") {
        Some(13)
    } else if is(name, b"have-all") {
        Some(14)
    } else if is(name, b"have-none") {
        Some(15)
    } else if is(name, b"reject") {
        Some(16)
    } else if is(name, b"allowed-fast") {
        Some(17)
    } else if is(name, b"extended") {
        Some(20)
    } else {
        None
    }
}
