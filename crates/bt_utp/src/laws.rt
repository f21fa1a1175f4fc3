//! Theorems about the definitions. Each is the contract of a function with an empty body.
ghost use Rattle.bt_utp.specs.ChannelLaws.{BothSidesAreFound, ConnectionsAreBounded, EachIsOnItsChannel, OnlySynsBegin, OtherSynBeginsAnother};
ghost use Rattle.bt_utp.specs.ChannelLaws.{SynAgainBeginsNone};
ghost use Rattle.bt_utp.specs.SideStreams.{ConnectionsAreStreams, OthersChangeNothing, RunsAreStreams};
ghost use Rattle.bt_utp.specs.Laws.{AllAreCounted, LeastIsTold, NoneIsTooMuch};

/// States that up to 65,536 ids each datagram is counted.
pub fn all_are_counted()
    ensures { AllAreCounted }
{}

/// States that no flow has more than came.
pub fn none_is_too_much()
    ensures { NoneIsTooMuch }
{}

/// States that a flow is whole if nothing says that there may be more.
pub fn least_is_told()
    ensures { LeastIsTold }
{}

/// States that a packet other than ST_SYN and ST_RESET is on a channel of its connection.
pub fn each_is_on_its_channel()
    ensures { EachIsOnItsChannel }
{}

/// States that what comes on either channel after a SYN that began a connection is of that connection.
pub fn both_sides_are_found()
    ensures { BothSidesAreFound }
{}

/// States that only a SYN begins a connection.
pub fn only_syns_begin()
    ensures { OnlySynsBegin }
{}

/// States that a SYN that is sent again begins no connection.
pub fn syn_again_begins_none()
    ensures { SynAgainBeginsNone }
{}

/// States that a SYN with the same ends, the same id and another number begins another connection.
pub fn other_syn_begins_another()
    ensures { OtherSynBeginsAnother }
{}

/// States that there are 65,536 connections at most.
pub fn connections_are_bounded()
    ensures { ConnectionsAreBounded }
{}

/// States that the segments of each side of a connection have the stream of the packets that the side sent.
pub fn runs_are_streams()
    ensures { RunsAreStreams }
{}

/// States that the segments of each connection that began have the streams of its two sides.
pub fn connections_are_streams()
    ensures { ConnectionsAreStreams }
{}

/// States that a packet of another connection changes nothing of a connection's segments.
pub fn others_change_nothing()
    ensures { OthersChangeNothing }
{}
