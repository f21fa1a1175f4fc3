//! What is known of a capture's connections besides their bytes.
ghost use Rattle.std.specs.Prelude.{◌≡◌, ◌≤◌};
ghost use Rattle.bt_talk.specs.Terms.{limit_of, pieces_for};

use bt_wire::Handshake;

/// The longest limit that a receiver may have, in bytes.
const MOST: u32 = 1_048_576;

/// A torrent whose piece count is known.
#[derive(Clone, Copy, PartialEq, Eq, Debug)]
pub struct Torrent {
    pub info_hash: [u8; 20],
    pub pieces: u32,
}

/// What is known of a capture's connections besides their bytes.
#[derive(Clone, Copy, PartialEq, Eq, Debug)]
pub struct Terms {
    /// The longest message that receivers take, in bytes: 1 to 1,048,576. For another number it is the nearest of these.
    pub limit: u32,
    /// The piece count of their torrents, if it is known.
    pub pieces: Option<u32>,
    /// A torrent: connections with its info hash have its piece count.
    pub torrent: Option<Torrent>,
}

impl Terms {
    /// Returns the longest message that receivers take.
    pub(crate) fn limit(&self) -> u32
        ensures limit { result ≡ limit_of self.now }
        ensures range { (1 ≤ result) × (result ≤ 1048576) }
    {
        self.limit.max(1).min(MOST)
    }

    /// Returns the piece count of a connection, whose sender has this handshake.
    pub(crate) fn pieces(&self, sender: &Option<Handshake>) -> Option<u32>
        ensures { result ≡ pieces_for self.now sender.now }
    {
        match (&self.torrent, sender) {
            (Some(torrent), Some(handshake)) => {
                if torrent.info_hash == handshake.info_hash {
                    Some(torrent.pieces)
                } else {
                    self.pieces
                }
            }
            (Some(_), None) => self.pieces,
            (None, _) => self.pieces,
        }
    }
}
