//! Theorems about the definitions. Each is the contract of a function with an empty body.
ghost use Rattle.bt_judge.specs.Laws.{BlockIsAny, FillingsAreAlike, ItemsAreShown, RefusalIsShown, EndIsShown, KnownAreTaken, MissingArePassed, JudgedAreShown};

/// States that a `piece` has the same fault or none, whatever the bytes of its block are.
pub fn any_block()
    ensures { BlockIsAny }
{}

/// States that a stream whose missing bytes may be any reads with zeros as each filled one does.
///
/// It has the items of each filled stream, except the bytes of blocks, its refusal or none, and its verdict at the end.
pub fn fillings()
    ensures alike { FillingsAreAlike }
    ensures items { ItemsAreShown }
    ensures refusal { RefusalIsShown }
    ensures end { EndIsShown }
{}

/// States that a judge that passes over missing bytes gives the items of each filled stream.
///
/// It passes at most as many as [`Judge::free`](crate::Judge::free) returns, and takes the others.
pub fn judged_over()
    ensures known { KnownAreTaken }
    ensures missing { MissingArePassed }
    ensures shown { JudgedAreShown }
{}
