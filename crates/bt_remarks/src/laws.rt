//! Theorems about the definitions. Each is the contract of a function with an empty body.
ghost use Rattle.bt_remarks.specs.Laws.{PendingIsUnanswered};

/// States that a pending request was made, and not made again or answered since.
pub fn pending_is_unanswered()
    ensures { PendingIsUnanswered }
{}
