//! Scripts: a line of text for each item of a stream, with all of its bytes.
mod front;
pub mod laws;
pub mod misfit;
pub mod numbers;
pub mod reading;
pub mod writing;
