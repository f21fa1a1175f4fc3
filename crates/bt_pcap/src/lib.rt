//! Capture files, pcap and pcapng, read in pieces from a file or a pipe. Nothing is allocated.
#![tactic(auto)]

mod blocks;
mod fault;
mod file;
mod fronts;
mod interfaces;
pub mod laws;
mod numbers;
mod options;
mod records;

pub use fault::FileFault;
pub use file::CaptureFile;
pub use fronts::{KEEP, NEED, Packet, Step};
pub use interfaces::MAX_INTERFACES;
