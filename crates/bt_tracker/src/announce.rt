//! What an announce tells a tracker, over UDP as over HTTP.
ghost use Rattle.std.specs.Prelude.{◌≡◌};
ghost use Rattle.bt_tracker.specs.Udp.{event_number};

/// What happened to the download of a peer that announces itself.
#[derive(Clone, Copy, PartialEq, Eq, Debug)]
pub enum Event {
    /// Nothing: an announce at the tracker's interval.
    None,
    /// All pieces are there.
    Completed,
    /// It begins.
    Started,
    /// It ends.
    Stopped,
}

impl Event {
    /// Returns the event's number (BEP 15, "Announce").
    pub fn number(self) -> u32
        ensures { result ≡ event_number self }
    {
        match self {
            Event::None => 0,
            Event::Completed => 1,
            Event::Started => 2,
            Event::Stopped => 3,
        }
    }
}

/// An announce. It tells that nothing was downloaded and nothing uploaded.
#[derive(Clone, Copy, PartialEq, Eq, Debug)]
pub struct Announce {
    /// The info hash of the torrent whose peers are asked for.
    pub info_hash: [u8; 20],
    /// The peer id of who asks.
    pub peer_id: [u8; 20],
    /// How many bytes are left to download.
    pub left: u64,
    /// What happened.
    pub event: Event,
    /// How many peers are wanted.
    pub wanted: u32,
    /// The port at which who asks listens.
    pub port: u16,
}
