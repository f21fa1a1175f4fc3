//! What is kept of a side until its connection is told: its last item, and the events that have a remark.
use crate::said::Said;
use bt_wire::Refusal;

/// The last that a side had sent.
#[derive(Clone, Copy)]
pub enum Last {
    Nothing,
    Item(Said),
    Refused(Refusal),
}

/// The events of a side that have a remark.
#[derive(Clone, Copy)]
pub struct Noted {
    pub count: u64,
    pub first: Said,
}

/// The events of a side, by their remarks.
#[derive(Clone, Copy)]
pub struct Remarked {
    pub unasked: Option<Noted>,
    pub choked: Option<Noted>,
    pub again: Option<Noted>,
    pub unanswered: Option<Noted>,
    pub elsewhere: Option<Noted>,
}
