//! The steps of a run of two linked ends, and their outcomes.
use bt_end::SayError;
use bt_wire::{Message, Refusal};

/// One of the two ends.
#[derive(Clone, Copy, PartialEq, Eq, Debug)]
pub enum Side {
    Left,
    Right,
}

/// A step of a run.
#[derive(Debug, Drop)]
pub enum Step {
    /// The end handles an item, if one is whole.
    Turn(Side),
    /// The end queues a message.
    Say(Side, Message),
    /// `Deliver(side, n)`: up to `n` bytes that the other end sent become readable for this one.
    Deliver(Side, u64),
    /// A new connection begins: bytes that haven't been handled are lost.
    Reset,
}

/// The outcome of a step.
#[derive(Clone, Copy, PartialEq, Eq, Debug)]
pub enum Outcome {
    /// The end handled an item.
    Handled,
    /// No whole item was there to be handled.
    Idle,
    /// Too many bytes waited to be sent.
    Busy,
    /// The end refused an item.
    Refused(Refusal),
    /// The message was queued.
    Said,
    /// The message wasn't queued.
    NotSaid(SayError),
    /// `n` bytes were delivered.
    Delivered(u64),
    /// A new connection began.
    Reset,
}
