//! The interfaces of a pcapng section, in a fixed table.
ghost use Rattle.std.specs.Prelude.{◌≡◌, ◌<◌, ◌≤◌, ◌++◌, [], ◌∷◌, slice_get};

/// The most interfaces of a section that are noted. A packet of a further one is a fault.
pub const MAX_INTERFACES: usize = 1024;

/// An interface as its packets need it.
#[derive(Clone, Copy, Debug)]
pub(crate) struct Interface {
    pub(crate) link: u16,
    /// The value of its option if_tsresol.
    pub(crate) resolution: u8,
    /// The value of its option if_tsoffset: seconds that are added to each time stamp.
    pub(crate) offset: i64,
    /// The most bytes of a packet that are captured; 0 is no limit.
    pub(crate) snap: u32,
}

/// The interfaces of a section, in the order of their blocks.
#[derive(Debug, Drop)]
pub(crate) struct Interfaces {
    table: [Interface; MAX_INTERFACES],
    count: usize,
    ghost within: { count ≤ 1024 },
}

impl Interfaces {
    ghost use Rattle.bt_pcap.specs.Interfaces.{interfaces_of, noted};

    /// Makes a table without an interface.
    #[tactic(auto, unfolding(crate::specs::Interfaces::interfaces_of))]
    pub(crate) fn new() -> Interfaces
        ensures { interfaces_of result ≡ [] }
    {
        Interfaces {
            table: [Interface {
                link: 0,
                resolution: 6,
                offset: 0,
                snap: 0,
            }; MAX_INTERFACES],
            count: 0,
        }
    }

    /// Forgets all interfaces.
    #[tactic(auto, unfolding(crate::specs::Interfaces::interfaces_of))]
    pub(crate) fn clear(&mut self)
        ensures { interfaces_of self.new ≡ [] }
    {
        self.count = 0;
    }

    /// Notes one more interface, if there is a place for it.
    #[tactic(auto, unfolding(crate::specs::Interfaces::interfaces_of))]
    pub(crate) fn note(&mut self, interface: Interface)
        ensures { interfaces_of self.new ≡ noted (interfaces_of self.old) interface }
    {
        if self.count < MAX_INTERFACES {
            self.table[self.count] = interface;
            self.count += 1;
        }
    }

    /// Returns an interface by its number.
    #[tactic(auto, unfolding(crate::specs::Interfaces::interfaces_of))]
    pub(crate) fn get(&self, number: usize) -> Option<Interface>
        ensures { result ≡ slice_get (interfaces_of self.now) number }
    {
        if number < self.count {
            Some(self.table[number])
        } else {
            None
        }
    }
}
