//! Theorems about the definitions. Each is the contract of a function with an empty body.
ghost use Rattle.bt_pcap.specs.Laws.{CutsDontMatter, FaultsStay, ItemsAreRead, ItemsAreUnique, ItemsHaveNoFault, PacketsAreUnique};

/// States that further bytes don't change what was read as an item.
pub fn cuts_dont_matter()
    ensures { CutsDontMatter }
{}

/// States that a fault stays, whatever follows.
pub fn faults_stay()
    ensures { FaultsStay }
{}

/// States that each item is read as itself, whatever follows it.
pub fn items_are_read()
    ensures { ItemsAreRead }
{}

/// States that at most one item begins the bytes.
pub fn items_are_unique()
    ensures { ItemsAreUnique }
{}

/// States that bytes that begin with an item have no fault.
pub fn items_have_no_fault()
    ensures { ItemsHaveNoFault }
{}

/// States that a file has one list of packets.
pub fn packets_are_unique()
    ensures { PacketsAreUnique }
{}
