//! What a capture can't be read for.
use thiserror::Error;

/// Why nothing was read.
#[derive(Clone, Copy, PartialEq, Eq, Debug, Error)]
pub enum ReadFault {
    /// A read failed.
    #[error("a read failed")]
    Failed,
    /// Out of memory.
    #[error("out of memory")]
    Memory,
}
