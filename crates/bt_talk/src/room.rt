//! Memory for the bytes of one segment.
use crate::rows::{Heading, NO_HEADING, Rows, Showing};
use bt_remarks::Side;
use std::alloc::Global;

/// Memory for the bytes of one segment, which all connections share.
#[derive(Drop)]
pub struct Room {
    /// What a segment makes ready, if it is handed out; while that is judged, what follows its own bytes.
    pub(crate) out: Vec<u8>,
    /// What a segment shows.
    pub(crate) rows: Rows,
    /// The side whose bytes are handed out.
    pub(crate) wanted: Option<Side>,
}

impl Room {
    ghost use Rattle.std.specs.Prelude.{◌≡◌, []};
    ghost use Rattle.bt_talk.specs.Rooms.{rows_in, heading_by, wanted_in, sent_in};
    ghost use Rattle.bt_talk.specs.Sent.{is_wanted};

    /// Makes room.
    pub fn new(alloc: Global) -> Room
        ensures empty { (rows_in result).text.items ≡ [] }
    {
        Room {
            out: Vec::new(alloc),
            rows: Rows::new(alloc, NO_HEADING),
            wanted: None,
        }
    }

    /// Turns to a connection with this number, in a capture that starts at this time. The rows that are kept are dropped.
    ///
    /// Rows are shown as `showing` says. If a side is wanted, the bytes of its stream are handed out.
    pub fn turn_to(&mut self, showing: Showing, connection: u64, start: u64, wanted: Option<Side>)
        ensures heading { (rows_in self.new).heading ≡ heading_by showing connection start }
        ensures empty { (rows_in self.new).text.items ≡ [] }
        ensures wanted { wanted_in self.new ≡ wanted }
    {
        self.rows.begin(Heading {
            showing,
            connection,
            start,
        });
        self.wanted = wanted;
    }

    /// Returns the text of the rows that came since the last turn.
    pub fn rows(&self) -> &[u8]
        ensures { result.now ≡ (rows_in self.now).text.items }
    {
        self.rows.text.as_slice()
    }

    /// Returns the bytes of the wanted side's stream that came with the last segment, or with the end of the opening.
    pub fn sent(&self) -> &[u8]
        ensures { result.now ≡ sent_in self.now }
    {
        self.out.as_slice()
    }

    /// Tells whether the bytes of a side are handed out.
    pub(crate) fn wants(&self, side: Side) -> bool
        ensures { result ≡ is_wanted side self.now.wanted }
    {
        self.wanted == Some(side)
    }
}
