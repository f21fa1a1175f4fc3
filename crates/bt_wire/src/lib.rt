//! The BitTorrent peer protocol as values and as bytes: the handshake and the messages of BEP 3, the port message (BEP 5), the
//! Fast Extension (BEP 6) and the Extension Protocol (BEP 10). One message at a time: a stream is for `bt_feed`.
#![tactic(auto)]

mod context;
mod decode;
mod encoding;
mod fault;
mod fields;
mod framing;
mod front;
mod handshake;
mod head;
mod header;
mod ids;
mod item;
pub mod laws;
mod message;
mod numbers;
mod order;
mod reserved;

pub use context::{Context, Order, Own, negotiate};
pub use decode::{copy_message, decode_window, dict_len, view_judged, view_window};
pub use encoding::{encode, legal, legal_length};
pub use fault::{DecodeError, EncodeError, Fault, Header, Reason, Refused};
pub use fields::Fields;
pub use framing::frame;
pub use front::{Front, read_front};
pub use handshake::{
    Handshake, Opening, handshake_judged, judge_handshake, read_opening, spell_handshake,
};
pub use head::{Head, head_and_tail};
pub use header::judge_header;
pub use ids::{Kind, Needs, Shape, Turn, id_name, id_named, kind_of};
pub use item::{Item, Refusal};
pub use message::{Message, MessageView};
pub use numbers::{number_at_front, port_at_front};
pub use order::{next, next_of_view};
pub use reserved::Reserved;
