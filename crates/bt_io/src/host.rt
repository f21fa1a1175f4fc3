//! A reader or a writer of std as a source or a target.
ghost use Rattle.std.specs.Prelude.{◌≡◌};
ghost use Rattle.bt_io.specs.Devices.{host_device, host_counts, no_calls, source_seen, target_seen};

use crate::counts::counted;
use crate::failed::Failed;
use crate::source::Source;
use crate::target::Target;
use std::io::{Read, Write};

/// A reader or a writer of std, with its counts.
#[derive(Drop)]
pub struct Host<T> {
    device: T,
    calls: u64,
    failed: u64,
    ends: u64,
}

impl<T> Host<T> {
    /// Makes a source or a target of a reader or a writer of std.
    pub fn new(device: T) -> Host<T>
        ensures device { host_device result ≡ device }
        ensures counts { host_counts result ≡ no_calls }
    {
        Host {
            device,
            calls: 0,
            failed: 0,
            ends: 0,
        }
    }
}

impl<T: Read> Source for Host<T> {
    ghost seen = { λ h. source_seen (T.remaining (host_device h)) (host_counts h) };

    fn read(&mut self, into: &mut [u8]) -> Result<usize, Failed> {
        self.calls = self.calls.saturating_add(1);
        match self.device.read(into) {
            Ok(count) => {
                self.ends = counted(count == 0 && !into.is_empty(), self.ends);
                Ok(count)
            }
            Err(_) => {
                self.failed = self.failed.saturating_add(1);
                Err(Failed)
            }
        }
    }
}

impl<T: Write> Target for Host<T> {
    ghost seen = { λ h. target_seen (T.contents (host_device h)) (host_counts h) };

    fn write(&mut self, from: &[u8]) -> Result<usize, Failed> {
        self.calls = self.calls.saturating_add(1);
        match self.device.write(from) {
            Ok(count) => {
                self.failed = counted(count == 0 && !from.is_empty(), self.failed);
                Ok(count)
            }
            Err(_) => {
                self.failed = self.failed.saturating_add(1);
                Err(Failed)
            }
        }
    }
}
