//! What the command line can ask for. The module `options` makes it, and the program's `main` does it.
use crate::capture::CaptureRequest;
use crate::fetch::FetchJob;
use crate::serve::ServeJob;
use bt_ext::Rules;
use bt_peers::PeersJob;
pub use bt_run::commands::{
    DEFAULT_LIMIT, DEFAULT_METADATA_ID, DEFAULT_RESERVED, Given, Hints, Job, Notice, Request,
    default_own, default_rules, pack_status, status, status_of,
};

/// What the words ask for.
#[derive(Debug, Drop)]
pub enum Asked {
    /// A job on a stream or a script.
    Run(Request),
    /// The link of two ends, which a script describes: that of the first file, or of standard input.
    Link(Vec<String>),
    /// Reports on the connections of a capture: that of the first file, or of standard input.
    Capture(CaptureRequest),
    /// A fetch of metadata from peers.
    Fetch(FetchJob),
    /// A search for the peers of a magnet link.
    Peers(PeersJob),
    /// A service of metadata to peers.
    Serve(ServeJob),
    /// Two ends over a connection of the process to itself, by these rules, with this limit of a message.
    Loop(Rules, u32),
    /// A text and no work.
    Told(Notice, String),
}
