//! The rows of a captured connection, and what is kept of an item until it is told.
//!
//! A row has its connection's number. Rows don't name requests without an answer: that is known later.
#![tactic(auto)]

mod display;
mod fronts;
mod members;
mod noted;
mod numbers;
mod parts;
mod peer_text;
mod refused;
mod row_buffer;
mod rows;
mod said;

pub use display::{
    HexByte, HexNumber, IfNumber, RefusalText, SaidObject, Time, VerdictMembers, letter_text,
};
pub use fronts::{RowForm, Stamp};
pub use noted::{Last, Noted, Remarked};
pub use parts::Means;
pub use refused::RefusedMessage;
pub use row_buffer::RowBuffer;
pub use rows::{Deed, Row, put_row, put_row_object};
pub use said::{Name, Numbers, Said, Words};
