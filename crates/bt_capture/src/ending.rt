//! What `capture` is asked for, and how it ends.
ghost use Rattle.std.specs.Prelude.{◌≡◌};
ghost use Rattle.bt_capture.specs.Forms.{showing_by, wanted_by};

use crate::choice::Choice;
use crate::unread::UnreadPackets;
use bt_pcap::FileFault;
use bt_remarks::Side;
use bt_talk::{Showing, Terms};
use bt_text::ended::ToolFault;

/// What is asked for.
#[derive(Clone, Copy, Debug)]
pub struct CaptureJob {
    /// What is known of the connections besides their bytes.
    pub terms: Terms,
    /// Whether rows are told too: what each side does, as it comes.
    pub show: bool,
    /// Whether reports and rows are JSON objects, each on a line; else they are text.
    pub json: bool,
    /// The number of a connection and one of its sides: only the stream of that side is written, and neither reports nor rows.
    pub stream: Option<(u64, Side)>,
    /// Which reports are told. Rows, a stream and packets of uTP are told of all connections.
    pub choice: Choice,
}

/// How it is told.
#[derive(Clone, Copy, PartialEq, Eq, Debug)]
pub struct Form {
    /// Whether rows are told too.
    pub show: bool,
    /// Whether reports and rows are JSON objects; else they are text.
    pub json: bool,
    /// The number of a connection and its side of which only the stream is told.
    pub stream: Option<(u64, Side)>,
    /// Which reports are told.
    pub choice: Choice,
}

impl Form {
    /// Returns how rows are shown.
    pub(crate) fn showing(self) -> Showing
        ensures { result ≡ showing_by self }
    {
        if self.stream.is_some() {
            return Showing::Nothing;
        }
        match (self.show, self.json) {
            (false, _) => Showing::Nothing,
            (true, false) => Showing::Text,
            (true, true) => Showing::Objects,
        }
    }

    /// Returns the side whose stream is told, if it is one of the connection with this number.
    pub(crate) fn wanted(self, number: u64) -> Option<Side>
        ensures { result ≡ wanted_by self number }
    {
        match self.stream {
            Some((wanted, side)) => { if wanted == number { Some(side) } else { None } }
            None => None,
        }
    }
}

/// How reading a capture ended.
#[derive(Clone, Copy, PartialEq, Eq, Debug)]
pub enum Ending {
    /// After a whole item.
    Whole,
    /// Inside an item, which is left out.
    Cut,
    /// Before bytes that aren't those of a capture file.
    Broken(FileFault),
    /// A read failed.
    Failed,
}

/// What a capture had, up to where reading it ended.
#[derive(Clone, Copy, PartialEq, Eq, Debug)]
pub struct CaptureEnd {
    pub packets: u64,
    /// How many packets aren't TCP, or aren't read.
    pub skipped: u64,
    /// Those of them of which nothing is read.
    pub unread_packets: UnreadPackets,
    /// How many BitTorrent connections there are, those that aren't chosen too.
    pub torrents: u64,
    /// How many connections aren't reported, since memory ran out.
    pub lost: u64,
    /// Whether a direction of a chosen connection is refused under the lenient rules, and not only cut.
    pub is_refused: bool,
    /// Whether of a chosen BitTorrent connection only a part was read: a direction has a gap, or bytes and no whole handshake, or the connection
    /// wasn't read further.
    pub is_partial: bool,
    pub ending: Ending,
    /// The number of the connection whose stream was asked for, if no connection has it.
    pub absent: Option<u64>,
    /// How many connections weren't read to their end, since there were too many at once. Those that had ended don't count.
    pub unread: u64,
    /// How many connections that had ended were given up before four seconds had passed without a segment, since there were too many
    /// at once.
    pub early: u64,
}

/// Why reading a capture stops before its end.
#[derive(Clone, Copy, PartialEq, Eq, Debug)]
pub(crate) enum Stop {
    /// The bytes aren't those of a capture file.
    File(FileFault),
    /// A read failed.
    Read,
    Fault(ToolFault),
}
