//! Theorems about the definitions. Each is the contract of a function with an empty body.
ghost use Rattle.bt_seek.specs.Laws.{FindsFew, Grows, HasOneCourse, Spares};

/// States that a search sends at most 256 datagrams, and five to an address.
pub fn sparing()
    ensures { Spares }
{}

/// States that a search finds at most 200 peers.
pub fn few()
    ensures { FindsFew }
{}

/// States that peers are only added, after those that are there.
pub fn grows()
    ensures { Grows }
{}

/// States that a log has one course: two searches with one log know the same, and have found the same peers.
pub fn one_course()
    ensures { HasOneCourse }
{}
