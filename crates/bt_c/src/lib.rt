//! The reader of a peer's stream and the writer of messages for programs in C: plain structs that the caller keeps, over
//! bytes that the caller holds. Both take no memory. And an end of a connection, which C holds by a pointer. `bt.h` says
//! each call to C.
#![tactic(auto)]

mod batch;
mod check;
mod config;
mod dictionary;
mod ends;
mod event;
mod extended;
mod feed;
mod held;
mod item;
pub mod laws;
mod loose;
mod names;
mod next;
mod reader;
mod receiver;
mod say;
mod status;
mod writing;

pub use batch::{BtBatch, bt_reader_batch};
pub use check::{BtVerdict, bt_check};
pub use config::BtEndConfig;
pub use dictionary::bt_check_dictionary;
pub use ends::{
    BtProgress, bt_end_begin, bt_end_free, bt_end_handle, bt_end_is_hopeless, bt_end_metadata,
    bt_end_mismatches, bt_end_new, bt_end_outgoing, bt_end_progress, bt_end_reset, bt_end_sent,
    bt_end_set_window, bt_end_waiting,
};
pub use event::BtEvent;
pub use extended::BtExtended;
pub use feed::{BtFeed, bt_feed_finish, bt_feed_init, bt_feed_next, bt_feed_push};
pub use held::BtEnd;
pub use item::BtItem;
pub use names::{bt_abi, bt_item_name, bt_reason_name};
pub use next::{BtHeard, bt_end_next};
pub use reader::{BtReader, bt_reader_finish, bt_reader_init, bt_reader_next};
pub use receiver::BtOwn;
pub use say::bt_end_say;
pub use writing::{
    BtHandshake, bt_write, bt_write_extended_handshake, bt_write_handshake, bt_write_metadata,
    bt_writer_init,
};
