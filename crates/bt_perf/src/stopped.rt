//! Why a workload stops before its end.

use bt_wire::Refusal;
use std::alloc::AllocError;
use std::fmt;

/// Why a workload stops before its end.
#[derive(Clone, Copy)]
pub enum Stopped {
    Refused(Refusal),
    /// A stream that has a fault is accepted.
    Accepted,
    Script,
    Device,
    /// An end can't be made so.
    Unmade,
    Memory,
    /// The words are no command line.
    Usage,
}

impl From<AllocError> for Stopped {
    fn from(_: AllocError) -> Stopped {
        Stopped::Memory
    }
}

impl fmt::Display for Stopped {
    fn fmt<W: fmt::Write>(&self, f: &mut fmt::Formatter<W>) -> fmt::Result {
        let text = match self {
            Stopped::Refused(refusal) => {
                let Refusal {
                    message,
                    at,
                    reason,
                } = refusal;
                return write!(f, "message {message} at {at}: {reason}");
            }
            Stopped::Accepted => "a stream that has a fault is accepted",
            Stopped::Script => "a script is refused",
            Stopped::Device => "a device fails",
            Stopped::Unmade => "an end can't be made so",
            Stopped::Memory => "out of memory",
            Stopped::Usage => "no command line",
        };
        f.write_str(text)
    }
}
