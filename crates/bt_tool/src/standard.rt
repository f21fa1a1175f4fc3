//! What takes the place of a standard stream that is closed when the program begins.
//!
//! The system gives a new file or socket the least number that is free. What is meant for standard error would go to a peer if the
//! peer's socket had the number 2.
ghost use Rattle.std.specs.Prelude.{◌≡◌, ◌≤ℤ◌, IfOk, IfSome, Some};
ghost use Rattle.std.specs.Fd.{file_raw_fd};

use std::fs::{File, Files, OpenOptions};
use std::io;
use std::os::fd::{AsRawFd, RawFd};

/// Where nothing is.
const NOWHERE: &str = "/dev/null";

/// The number of standard input.
const INPUT: RawFd = 0;

/// The number of standard error, the greatest of a standard stream.
const ERRORS: RawFd = 2;

/// Files that are open at the numbers of standard streams.
#[derive(Drop)]
pub struct Standing {
    input: Option<File>,
    output: Option<File>,
    errors: Option<File>,
}

/// Keeps a file whose number is at most `last`, and closes another one.
fn kept(opened: io::Result<File>, last: RawFd) -> Option<File>
    ensures number { IfSome result (λ file. file_raw_fd file ≤ℤ last) }
    ensures kept { IfOk opened (λ file. file_raw_fd file ≤ℤ last → result ≡ Some file) }
{
    let file = opened.ok()?;
    if file.as_raw_fd() <= last {
        Some(file)
    } else {
        None
    }
}

/// Opens `/dev/null` at each number of a standard stream that is closed, where that is possible.
///
/// As before, no read from standard input and no write to the other two succeeds there.
pub fn stand_in<R: Files<File = File>>(rt: &R) -> Standing {
    let mut unreadable = OpenOptions::new();
    unreadable.write(true);
    Standing {
        input: kept(unreadable.open(rt, NOWHERE), INPUT),
        output: kept(File::open(rt, NOWHERE), ERRORS),
        errors: kept(File::open(rt, NOWHERE), ERRORS),
    }
}
