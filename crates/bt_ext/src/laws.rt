//! Theorems about the definitions. Each is the contract of a function with an empty body.
ghost use Rattle.bt_ext.specs.Laws.{OneExt, AllowedHasNoFault, AllowedHasNoReason, OneFault, KindOfMade, MadeMessageIsRight, MadeHandshakeIsRight, MadeHandshakeTells, EnteredByName, FirstPairTells, AppliedByName, TableStays};

/// States that an extended id and its payload are those of one value.
pub fn one_ext()
    ensures { OneExt }
{}

/// States that the rules allow a value exactly if it has no fault.
pub fn allowed_has_no_fault()
    ensures { AllowedHasNoFault }
{}

/// States that the rules allow a value exactly if there is no reason to refuse it.
pub fn allowed_has_no_reason()
    ensures { AllowedHasNoReason }
{}

/// States that a payload under an id is parsed or has one fault, and never both.
pub fn one_fault()
    ensures { OneFault }
{}

/// States that the dictionary that is encoded for a kind is of that kind.
pub fn kind_of_made()
    ensures { KindOfMade }
{}

/// States that each metadata message that an end makes can be encoded.
///
/// The rules allow it if its block is right.
pub fn made_message_is_right()
    ensures { MadeMessageIsRight }
{}

/// States that each extended handshake that an end makes is encoded and allowed.
pub fn made_handshake_is_right()
    ensures { MadeHandshakeIsRight }
{}

/// States that each extended handshake that an end makes can be parsed again.
///
/// It announces the id and the size of which it was made.
pub fn made_handshake_tells()
    ensures { MadeHandshakeTells }
{}

/// States that entering an id for a name changes no other name's id.
pub fn entered_by_name()
    ensures { EnteredByName }
{}

/// States that the first pair of `m` with a name decides.
pub fn first_pair_tells()
    ensures { FirstPairTells }
{}

/// States what an extended handshake makes of each name's id.
pub fn applied_by_name()
    ensures { AppliedByName }
{}

/// States that a table stays within its limits.
pub fn table_stays()
    ensures { TableStays }
{}
