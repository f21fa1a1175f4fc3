//! The order after a message (BEP 6: what the first message may be).
ghost use Rattle.std.specs.Prelude.{◌≡◌};
ghost use Rattle.bt_wire.specs.Messages.{order_after, message_of};

use crate::context::Order;
use crate::message::{Message, MessageView};

/// Returns the order after a message.
///
/// `order` is the order before it. With strict rules a bitfield, have all or have none has to come first (BEP 3, BEP 6).
#[inline(always)]
pub fn next<B, E>(order: Order, message: &Message<B, E>) -> Order
    ensures { result ≡ order_after order message.now }
{
    match message {
        Message::KeepAlive | Message::Port(_) | Message::Extended(_) | Message::Unknown { .. } =>
            order,
        _ => Order::Past,
    }
}

/// Returns the order after the message of a view; `order` is the order before it.
#[inline(always)]
pub fn next_of_view(order: Order, view: &MessageView) -> Order
    ensures { result ≡ order_after order (message_of view.now) }
{
    next(order, view)
}
