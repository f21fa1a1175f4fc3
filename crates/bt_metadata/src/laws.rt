//! Theorems about the definitions. Each is the contract of a function with an empty body.
ghost use Rattle.bt_metadata.specs.Laws.{WholeIsServed, ServedIsTaken, ServedIsHeld};

/// States that all of a server's blocks make the server's metadata.
///
/// The metadata has the assembly's size.
pub fn whole_is_served()
    ensures { WholeIsServed }
{}

/// States that an assembly accepts the block that it requested, from a server.
///
/// The server's metadata has the assembly's size.
pub fn served_is_taken()
    ensures { ServedIsTaken }
{}

/// States that an assembly has only a server's blocks after the server's answer.
///
/// It had only those before.
pub fn served_is_held()
    ensures { ServedIsHeld }
{}
