//! The error of a source or a target.
use thiserror::Error;

/// An I/O error: a read or a write failed.
#[derive(Clone, Copy, PartialEq, Eq, Debug, Error)]
#[error("failed")]
pub struct Failed;
