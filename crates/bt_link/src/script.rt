//! A link script: what its lines set for two ends, and the steps of their run.
ghost use Rattle.std.specs.Prelude.{◌≡◌, ◌<◌, ◌^◌, ◌≤◌, ℕ, length, IfOk, OnOk, MatchResult};
ghost use Rattle.bt_link.specs.Scripts.{settled_setup, settled, plan_of, draft_of, outline_of, start, setup_of, default_outline, with_setting, with_side, IsTaken, IsScript, IsWrongAt, is_skipped};

use crate::entry::{Entry, Setting, read_entry};
use bt_ext::{ExtId, Registered, Rules};
use bt_session::{Announce, Config, Role, Side, Step, Window};
use bt_text::splitting::split_line;
use bt_wire::{Own, Reserved};
use sha1::Sha1;
use std::alloc::{AllocError, Global};

/// What a script asks for: two configs and the steps of their run.
#[derive(Debug, Drop)]
pub struct Script {
    /// The left end.
    pub left: Config,
    /// The right end.
    pub right: Config,
    /// The steps.
    pub steps: Vec<Step>,
}

/// What the lines so far set for an end.
///
/// Its config has no ids yet, since two equal ids are checked when all lines are parsed.
#[derive(Drop)]
struct Outline {
    config: Config,
    metadata: Option<ExtId>,
    donthave: Option<ExtId>,
}

/// What the lines so far ask for.
#[derive(Drop)]
struct Draft {
    left: Outline,
    right: Outline,
    steps: Vec<Step>,
}

impl Outline {
    /// Makes an end for which no line sets anything.
    fn new(id: Option<ExtId>, peer_id: [u8; 20]) -> Outline
        ensures { outline_of result ≡ default_outline id peer_id }
    {
        Outline {
            config: Config {
                own: Own {
                    reserved: Reserved(0x10_0005),
                    info_hash: None,
                    pieces: None,
                    reg: Registered::metadata_only(None),
                    rules: Rules::Bep,
                    limit: 262_144,
                },
                peer_id,
                announce: Announce::Silent,
                window: Window::default(),
                role: Role::Watch,
            },
            metadata: id,
            donthave: None,
        }
    }

    /// Changes the end as a line says.
    fn change(&mut self, setting: Setting)
        ensures { outline_of self.new ≡ with_setting (outline_of self.old) setting }
    {
        let config = &mut self.config;
        match setting {
            Setting::Serve(metadata) => {
                config.own.info_hash = Some(Sha1::digest(metadata.as_slice()));
                config.role = Role::Serve(metadata.into_vec());
            }
            Setting::Watch(hash) => {
                config.own.info_hash = Some(hash);
                config.role = Role::Watch;
            }
            Setting::Fetch(hash) => {
                config.own.info_hash = Some(hash);
                config.role = Role::Fetch;
            }
            Setting::InfoHash(hash) => config.own.info_hash = Some(hash),
            Setting::PeerId(peer_id) => config.peer_id = peer_id,
            Setting::Reserved(bits) => config.own.reserved = Reserved(bits),
            Setting::Rules(rules) => config.own.rules = rules,
            Setting::Announce(announce) => config.announce = announce,
            Setting::Pieces(count) => config.own.pieces = Some(count),
            Setting::Limit(limit) => config.own.limit = limit,
            Setting::MetadataId(id) => self.metadata = id,
            Setting::DonthaveId(id) => self.donthave = id,
            Setting::Window(window) => config.window = window,
        }
    }

    /// The config, with the ids that the last lines name.
    fn settle(self) -> Config
        ensures { setup_of result ≡ settled_setup (outline_of self) }
    {
        let Outline {
            mut config,
            metadata,
            donthave,
        } = self;
        config.own.reg = Registered::preferring_metadata(metadata, donthave);
        config
    }
}

/// Returns whether a line asks for nothing: it is empty or begins with `#`.
fn is_comment(line: &[u8]) -> bool
    ensures { result ≡ is_skipped line.now }
{
    match line {
        [] => true,
        [first, ..] => *first == b'#',
    }
}

impl Draft {
    /// Makes the draft before the first line.
    fn new(alloc: Global) -> Draft
        ensures { draft_of result ≡ start }
    {
        Draft {
            left: Outline::new(ExtId::new(3), *b"-BT0001-LLLLLLLLLLLL"),
            right: Outline::new(ExtId::new(9), *b"-BT0001-RRRRRRRRRRRR"),
            steps: Vec::new(alloc),
        }
    }

    /// Returns the script, when all lines are parsed.
    fn settle(self) -> Script
        ensures { plan_of result ≡ settled (draft_of self) }
    {
        let Draft { left, right, steps } = self;
        Script {
            left: left.settle(),
            right: right.settle(),
            steps,
        }
    }

    /// Changes what is set for an end.
    fn set(&mut self, side: Side, setting: Setting)
        ensures { draft_of self.new ≡ with_side (draft_of self.old) side setting }
    {
        match side {
            Side::Left => self.left.change(setting),
            Side::Right => self.right.change(setting),
        }
    }

    /// Takes a line, and returns whether it is one that may stand there.
    fn take(&mut self, alloc: Global, line: &[u8]) -> Result<bool, AllocError>
        requires { length line.now < 2 ^ 32 }
        ensures { IfOk result (IsTaken (draft_of self.old) line.now (draft_of self.new)) }
    {
        if is_comment(line) {
            return Ok(true);
        }
        match read_entry(alloc, line)? {
            Some(Entry::Set(side, setting)) => {
                if !self.steps.is_empty() {
                    return Ok(false);
                }
                self.set(side, setting);
                Ok(true)
            }
            Some(Entry::Do(step)) => {
                self.steps.push(step)?;
                Ok(true)
            }
            None => Ok(false),
        }
    }
}

/// Parses a script.
///
/// An inner `Err` has the number, counted from 1, of the first line that is none or may not stand there.
///
/// # Errors
/// `AllocError` when out of memory.
pub fn read_script(alloc: Global, text: &[u8]) -> Result<Result<Script, u64>, AllocError>
    requires { length text.now < 2 ^ 32 }
    ensures { IfOk result (λ r. MatchResult r (λ s. IsScript text.now (plan_of s)) (IsWrongAt text.now)) }
{
    let mut draft = Draft::new(alloc);
    let mut number: u64 = 1;
    let mut rest = text;
    'lines: loop {
        match split_line(rest) {
            Some((line, after)) => {
                if !draft.take(alloc, line)? {
                    return Ok(Err(number));
                }
                number += 1;
                rest = after;
            }
            None => {
                if !draft.take(alloc, rest)? {
                    return Ok(Err(number));
                }
                return Ok(Ok(draft.settle()));
            }
        }
    }
}
