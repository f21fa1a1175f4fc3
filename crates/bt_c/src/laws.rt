//! Laws on the definitions, each the contract of a function that does nothing.
ghost use Rattle.bt_c.specs.Runs.{BodiesAreLast, ItemsAreTheVerdicts};

/// States that the items of calls in a row are those of the stream's verdict.
pub fn items_are_the_verdicts()
    ensures { ItemsAreTheVerdicts }
{}

/// States that the body of a message's item is its last bytes.
///
/// They are the bitfield, the block or the payload that it keeps.
pub fn bodies_are_last()
    ensures { BodiesAreLast }
{}
