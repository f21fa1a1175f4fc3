//! Theorems about the definitions. Each is the contract of a function with an empty body.
ghost use Rattle.bt_order.specs.Laws.{FreshIsNothing, OrderDoesntMatter, TurnedIsTheStream};

/// States that the segments that packets are turned into make the packets' stream.
pub fn turned_is_the_stream()
    ensures { TurnedIsTheStream }
{}

/// States that the order of packets that agree doesn't matter, nor how often each comes.
pub fn order_doesnt_matter()
    ensures { OrderDoesntMatter }
{}

/// States that a direction in which no packet was taken has handed out nothing, so that it may begin anew.
pub fn fresh_is_nothing()
    ensures { FreshIsNothing }
{}
