//! Extended payloads (BEP 10, BEP 9): their values, the fields of their dictionaries, and the names and ids of a peer.
#![tactic(auto)]

mod bytes;
mod dict;
mod dict_text;
mod ext;
mod fields;
mod ids;
mod kinds;
pub mod laws;
mod made;
mod metadata;
mod name;
mod spelling;
mod table;
mod told;
mod view;

pub use bytes::copy_bytes;
pub use dict_text::{DictText, handshake_text, message_text};
pub use ext::{Ext, ExtError, ExtReason, ExtView, ViewError};
pub use fields::{announced, announced_id, announced_ref, metadata_size, metadata_size_ref};
pub use ids::{ExtId, Registered, Rules, SameId};
pub use kinds::{kind, kind_ref};
pub use made::{dict_of, handshake_dict};
pub use metadata::{Kind, block_ok};
pub use spelling::{append_ext, ext_len, ext_reason, spell_ext};
pub use table::{Table, Update};
pub use view::{copy_ext, read_ext, view_ext, view_judged};
