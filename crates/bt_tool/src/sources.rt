//! The first digits of the digest over all sources of the program, which `--version` prints. A script writes them here.

/// The first twelve hex digits of the digest.
pub const SOURCES: &str = "a9b13fbc89bf";
