//! Packets of which nothing is read, and why.
ghost use Rattle.std.specs.Prelude.{◌≡◌, ◌++◌, ◌∷◌, [], ℕ, List};
ghost use Rattle.bt_packet.specs.declared.unread.Unread.{Unread};
ghost use Rattle.bt_capture.specs.Unread.{tally, unread_packets};

use bt_packet::Unread;

/// How many packets there are of a kind that isn't read.
#[derive(Clone, Copy, PartialEq, Eq, Debug)]
pub struct Tally {
    /// The kind of the first one.
    pub kind: Option<u32>,
    /// How many are of that kind.
    pub count: u64,
    /// How many are of another kind.
    pub others: u64,
}

/// How many packets carry nothing that is read, by what stands in the way. Others that carry nothing aren't counted here.
#[derive(Clone, Copy, PartialEq, Eq, Debug)]
pub struct UnreadPackets {
    /// Those of a link type that isn't read.
    pub link_types: Tally,
    /// Frames of Ethernet of a type that isn't read.
    pub ether_types: Tally,
    /// Fragments of IP.
    pub fragments: u64,
}

impl Tally {
    /// Starts with none.
    fn new() -> Tally
        ensures { result ≡ tally [] }
    {
        Tally {
            kind: None,
            count: 0,
            others: 0,
        }
    }

    /// Counts one of a kind.
    fn count(&mut self, kind: u32)
        ensures { (kinds : List ℕ) → self.old ≡ tally kinds → self.new ≡ tally (kinds ++ kind ∷ []) }
    {
        match self.kind {
            None => {
                self.kind = Some(kind);
                self.count = 1;
            }
            Some(first) => {
                if first == kind {
                    self.count = self.count.saturating_add(1);
                } else {
                    self.others = self.others.saturating_add(1);
                }
            }
        }
    }
}

impl UnreadPackets {
    /// Starts with none.
    pub(crate) fn new() -> UnreadPackets
        ensures { result ≡ unread_packets [] }
    {
        UnreadPackets {
            link_types: Tally::new(),
            ether_types: Tally::new(),
            fragments: 0,
        }
    }

    /// Counts a packet of which nothing is read.
    pub(crate) fn count(&mut self, why: Unread)
        ensures { (whys : List Unread) → self.old ≡ unread_packets whys → self.new ≡ unread_packets (whys ++ why ∷ []) }
    {
        match why {
            Unread::LinkType(link) => self.link_types.count(link),
            Unread::EtherType(kind) => self.ether_types.count(u32::from(kind)),
            Unread::Fragment => {
                self.fragments = self.fragments.saturating_add(1);
            }
            Unread::Other => {}
        }
    }
}
