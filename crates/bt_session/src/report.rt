//! A run of two linked ends, and its report.
ghost use Rattle.std.specs.Prelude.{◌≡◌, ◌⊎◌, ◌≤◌, ◌++◌, ◌∷◌, [], Err, None, length, map, IfOk, IfErr, OnOk};
ghost use Rattle.std.specs.Global.{Global};
ghost use Rattle.bt_end.specs.Configs.{IsMade, end_for, config_error};
ghost use Rattle.bt_end.specs.declared.config.Config.{Config};
ghost use Rattle.bt_end.specs.Ends.{fetched_block};
ghost use Rattle.bt_end.specs.Sturdy.{IsFetched};
ghost use Rattle.bt_session.specs.ByteLinks as links;
ghost use Rattle.bt_session.specs.LinkLaws.{most_steps};
ghost use Rattle.bt_session.specs.Nodes.{IsNodeOf};
ghost use Rattle.bt_session.specs.Runs.{IsLinkOf, ClosedBy, IsUnfinished};
ghost use Rattle.bt_session.specs.Reports.{block_of, blocks_of, present, numbered, held_blocks, DoMatch, IsRun, IsUnstarted, IsUnrun};

use crate::facts::is_new;
use crate::link::{Outcome, Step};
use crate::matching::is_mismatch;
use crate::node::Node;
use crate::run::{Connection, Link, keep, run};
use bt_end::{Config, End, EndError};
use std::alloc::{AllocError, Global};
use std::mem;
use thiserror::Error;

/// The greatest number of steps of a run.
pub const MOST_STEPS: u64 = 4_294_967_296;

/// The greatest number of blocks of metadata, each of 16,384 bytes (BEP 9).
const MOST_BLOCKS: u32 = 4_096;

/// Why two ends aren't run against each other.
///
/// The first that applies is returned, `Memory` at any point.
#[derive(Clone, Copy, PartialEq, Eq, Debug, Error)]
pub enum LinkError {
    /// The configs don't match.
    ///
    /// The info hashes, limits, rules or known piece counts differ, or the metadata to serve has another SHA-1 than the info hash.
    #[error("the configs don't match")]
    ConfigMismatch,
    #[error("{0}")]
    End(EndError),
    /// There are more than 4,294,967,296 steps.
    #[error("too many steps")]
    TooManySteps,
    #[error("out of memory")]
    Memory,
}

/// The report of a run. The left end comes first.
#[derive(Drop)]
pub struct LinkReport {
    /// An outcome for each step.
    pub outcomes: Vec<Outcome>,
    /// The connections: one more than there are resets.
    pub connections: Vec<Connection>,
    /// The blocks of metadata that isn't complete, of each end.
    ///
    /// They come with their numbers, in rising order.
    pub blocks: [Vec<(u32, Vec<u8>)>; 2],
    /// The two ends, as the last step left them.
    pub ends: [End; 2],
}

/// Returns the error of a run for that of an end that can't be made.
fn start_error(error: EndError) -> LinkError
    ensures { (c : Config Global) → IsMade c (Err error) → IsUnstarted c result }
{
    match error {
        EndError::Memory => LinkError::Memory,
        other => LinkError::End(other),
    }
}

/// What a run returns beside the link that it leaves.
#[derive(Drop)]
struct Done {
    /// One for each step.
    outcomes: Vec<Outcome>,
    /// The blocks that have come to each end.
    blocks: [Vec<(u32, Vec<u8>)>; 2],
}

/// An end at the start of its first connection.
fn start(alloc: Global, config: Config) -> Result<Node, LinkError>
    ensures made { IfOk result (λ _. config_error config ≡ None) }
    ensures node { IfOk result (λ n. IsNodeOf n (links.first (end_for config))) }
    ensures unmade { IfErr result (λ e. IsUnstarted config e) }
{
    match End::new(alloc, config) {
        Ok(end) => match Node::first(alloc, end) {
            Ok(node) => Ok(node),
            Err(_) => Err(LinkError::Memory),
        },
        Err(error) => Err(start_error(error)),
    }
}

/// The link of two new ends, before its first step.
fn start_both(alloc: Global, left: Config, right: Config) -> Result<Link, LinkError>
    ensures made { OnOk result ((config_error left ≡ None) × (config_error right ≡ None)) }
    ensures link { IfOk result (λ k. IsLinkOf k (links.link_of (end_for left) (end_for right))) }
    ensures unmade { IfErr result (λ e. IsUnstarted left e ⊎ ((config_error left ≡ None) × IsUnstarted right e)) }
{
    let left = start(alloc, left)?;
    let right = start(alloc, right)?;
    Ok(Link {
        left,
        right,
        past: Vec::new(alloc),
    })
}

/// Appends a copy of the block of this number, if it has come to the end.
fn copy_block(
    alloc: Global,
    end: &End,
    piece: u32,
    blocks: &mut Vec<(u32, Vec<u8>)>,
) -> Result<(), AllocError>
    ensures assembly { IsFetched end.now.end.part }
    ensures copied { OnOk result (map block_of blocks.new.items ≡ map block_of blocks.old.items ++ numbered piece (fetched_block end.now.end.part piece)) }
{
    if let Some(block) = end.block(piece) {
        blocks.push((piece, block.to_vec(alloc)?))?;
    }
    Ok(())
}

/// Copies the blocks that have come to an end, with their numbers, in order.
fn copy_blocks(alloc: Global, end: &End) -> Result<Vec<(u32, Vec<u8>)>, AllocError>
    ensures { IfOk result (λ blocks. map block_of blocks.items ≡ held_blocks end.now.end.part) }
{
    let mut blocks = Vec::new(alloc);
    'pieces: for piece in 0..MOST_BLOCKS {
        copy_block(alloc, end, piece, &mut blocks)?;
    }
    Ok(blocks)
}

/// Copies the blocks that have come to both ends of a link.
fn copy_both(alloc: Global, link: &Link) -> Result<[Vec<(u32, Vec<u8>)>; 2], AllocError>
    ensures { IfOk result (λ blocks. map blocks_of blocks ≡ held_blocks link.now.left.end.end.part ∷ held_blocks link.now.right.end.end.part ∷ []) }
{
    let left = copy_blocks(alloc, &link.left.end)?;
    let right = copy_blocks(alloc, &link.right.end)?;
    Ok([left, right])
}

/// Puts the present connection after those before it, and keeps the two ends.
fn close(alloc: Global, link: &mut Link) -> Result<(), AllocError>
    ensures past { OnOk result (link.new.past.items ≡ link.old.past.items ++ present link.old ∷ []) }
    ensures ends { (link.new.left.end ≡ link.old.left.end) × (link.new.right.end ≡ link.old.right.end) }
{
    let left = mem::replace(&mut link.left.sent, Vec::new(alloc));
    let right = mem::replace(&mut link.right.sent, Vec::new(alloc));
    let last = Connection {
        sent: [left, right],
        handled: [link.left.handled, link.right.handled],
    };
    keep(&mut link.past, last)
}

/// Does the steps, closes the link, and copies the blocks that have come.
fn finish(alloc: Global, link: &mut Link, steps: &[Step]) -> Result<Done, LinkError>
    ensures few { OnOk result (length steps.now ≤ most_steps) }
    ensures done { IfOk result (λ r. ClosedBy steps.now link.old r.outcomes.items r.blocks link.new) }
    ensures unfinished { IfErr result (λ e. IsUnfinished steps.now e) }
{
    if steps.len() as u64 > MOST_STEPS {
        return Err(LinkError::TooManySteps);
    }
    let Ok(outcomes) = run(alloc, link, steps) else {
        return Err(LinkError::Memory);
    };
    if close(alloc, link).is_err() {
        return Err(LinkError::Memory);
    }
    match copy_both(alloc, link) {
        Ok(blocks) => Ok(Done { outcomes, blocks }),
        Err(_) => Err(LinkError::Memory),
    }
}

/// The report of a closed link.
fn report(link: Link, done: Done) -> LinkReport
    ensures outcomes { result.outcomes ≡ done.outcomes }
    ensures connections { result.connections ≡ link.past }
    ensures blocks { result.blocks ≡ done.blocks }
    ensures ends { result.ends ≡ link.left.end ∷ link.right.end ∷ [] }
{
    let Link { left, right, past } = link;
    let blocks = done.blocks;
    LinkReport {
        outcomes: done.outcomes,
        connections: past,
        blocks,
        ends: [left.end, right.end],
    }
}

/// Runs two ends against each other, step by step.
///
/// # Errors
/// The first that applies. `ConfigMismatch` if the info hashes, limits, rules or known piece counts differ, or metadata to serve
/// has another SHA-1 than the info hash. `End` if an end can't be made. `TooManySteps` if there are more than 4,294,967,296
/// steps. `Memory` when out of memory, at any point.
pub fn run_link(
    alloc: Global,
    left: Config,
    right: Config,
    steps: &[Step],
) -> Result<LinkReport, LinkError>
    ensures matched { OnOk result (DoMatch left right) }
    ensures made { OnOk result ((config_error left ≡ None) × (config_error right ≡ None)) }
    ensures report { IfOk result (λ r. IsRun (end_for left) (end_for right) steps.now r) }
    ensures unrun { IfErr result (λ e. IsUnrun left right steps.now e) }
{
    if is_mismatch(&left, &right) {
        return Err(LinkError::ConfigMismatch);
    }
    is_new(&left);
    is_new(&right);
    let mut link = match start_both(alloc, left, right) {
        Ok(link) => link,
        Err(error) => return Err(error),
    };
    match finish(alloc, &mut link, steps) {
        Ok(done) => Ok(report(link, done)),
        Err(error) => Err(error),
    }
}
