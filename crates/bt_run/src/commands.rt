//! The commands on a stream, what they are done for, and the exit statuses.
ghost use Rattle.std.specs.Prelude.{◌≡◌};
ghost use Rattle.bt_run.specs.Commands.{IsDefault, notice_status, status_of as status_by, pack_status_of as pack_status_by, default_rules as rules_by_default};

use bt_ext::{ExtId, Registered, Rules};
use bt_text::ended::{Ended, PackEnd, ToolFault};
use bt_wire::{Own, Reserved};

/// The default reserved bits: Fast Extension, DHT and Extension Protocol.
pub const DEFAULT_RESERVED: u64 = 0x10_0005;

/// The id of `ut_metadata` by default.
pub const DEFAULT_METADATA_ID: u8 = 3;

/// The greatest length prefix of a message by default, in bytes.
pub const DEFAULT_LIMIT: u32 = 262_144;

/// The kind of a text that is printed in place of a command's output.
#[derive(Clone, Copy, PartialEq, Eq, Debug)]
pub enum Notice {
    /// What the program does and how it is called.
    Help,
    /// The program's name and version.
    Version,
    /// What is wrong with the arguments.
    Usage,
}

/// A command on a stream or a script.
#[derive(Clone, Copy, PartialEq, Eq, Debug)]
pub enum Job {
    /// A line for each item, and the verdict.
    Show,
    /// A JSON object for each item, and one for the verdict.
    Json,
    /// Only the verdict.
    Check,
    /// The script of the items.
    Unpack,
    /// The stream of a script.
    Pack,
}

/// Which options are given that the other direction announces too.
#[derive(Clone, Copy, PartialEq, Eq, Debug)]
pub struct Given {
    /// `--reserved` is given.
    pub reserved: bool,
    /// `--metadata-id` is given.
    pub metadata_id: bool,
    /// `--donthave-id` is given.
    pub donthave_id: bool,
}

/// When standard error gets a hint.
#[derive(Clone, Copy, PartialEq, Eq, Debug)]
pub enum Hints {
    /// If standard error is a terminal.
    Auto,
    /// Each time.
    Always,
    /// Never.
    Never,
}

/// A command, with its receiver and its files.
#[derive(Debug, Drop)]
pub struct Request {
    /// The command.
    pub job: Job,
    /// The receiver of the stream, by the options and their defaults.
    pub own: Own,
    /// Which of the receiver's options are given.
    pub given: Given,
    /// The file with the other direction, if it is given.
    pub other: Option<String>,
    /// When a hint is printed.
    pub hints: Hints,
    /// The files to read, in order; none for standard input.
    pub files: Vec<String>,
}

/// Returns the exit status after a notice: 2 for wrong arguments, else 0.
pub fn status_of(notice: Notice) -> u8
    ensures { result ≡ notice_status notice }
{
    match notice {
        Notice::Help | Notice::Version => 0,
        Notice::Usage => 2,
    }
}

/// Returns the exit status of `show`, `check` and `unpack`.
pub fn status(end: &Result<Ended, ToolFault>) -> u8
    ensures { result ≡ status_by end.now }
{
    match end {
        Ok(Ended::Accepted { .. }) => 0,
        Ok(Ended::Refused(_)) => 1,
        Err(_) => 3,
    }
}

/// Returns the exit status of `pack`.
pub fn pack_status(end: &Result<PackEnd, ToolFault>) -> u8
    ensures { result ≡ pack_status_by end.now }
{
    match end {
        Ok(PackEnd::Accepted { .. }) => 0,
        Ok(PackEnd::Refused { .. }) => 1,
        Err(_) => 3,
    }
}

/// Returns the rules of a command by default.
pub fn default_rules(job: Job) -> Rules
    ensures { result ≡ rules_by_default job }
{
    match job {
        Job::Check => Rules::Bep,
        Job::Show | Job::Json | Job::Unpack | Job::Pack => Rules::Free,
    }
}

/// Returns the receiver by default.
///
/// It has the bits of the Fast Extension, of the DHT and of the Extension Protocol, any info hash, an unknown piece count,
/// `ut_metadata` under id 3, no id for `lt_donthave`, the lenient rules, and messages of at most 262,144 bytes.
pub fn default_own() -> Own
    ensures { IsDefault result }
{
    Own {
        reserved: Reserved(DEFAULT_RESERVED),
        info_hash: None,
        pieces: None,
        reg: Registered::metadata_only(ExtId::new(DEFAULT_METADATA_ID)),
        rules: default_rules(Job::Show),
        limit: DEFAULT_LIMIT,
    }
}
