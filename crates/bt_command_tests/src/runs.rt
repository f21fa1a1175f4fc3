//! Runs of which `link` prints nothing: pieces that are taken back, and the blocks of a fetch that isn't done.
use bt_ext::{Ext, ExtId, Registered, Rules};
use bt_session::{
    Announce, Config, Connection, LinkError, LinkReport, Outcome, Role, SayError, Side, Step,
    Window, run_link,
};
use bt_wire::{Fault, Message, Own, Reserved};
use std::alloc::{AllocError, Global};

/// A step of a test.
#[derive(Clone, Copy)]
enum Move {
    Deliver(Side, u64),
    Turn(Side),
    /// The end takes back piece 9.
    TakeBack(Side),
    Reset,
}

/// Each end takes back a piece: not before it knows the other's id, and under that id.
const TAKING_BACK: &[Move] = &[
    Move::Deliver(Side::Left, 68),
    Move::Turn(Side::Left),
    Move::TakeBack(Side::Left),
    Move::Deliver(Side::Right, 200),
    Move::Turn(Side::Right),
    Move::Turn(Side::Right),
    Move::TakeBack(Side::Right),
    Move::Deliver(Side::Left, 200),
    Move::Turn(Side::Left),
    Move::Turn(Side::Left),
    Move::TakeBack(Side::Left),
    Move::Deliver(Side::Right, 200),
    Move::Turn(Side::Right),
    Move::Turn(Side::Right),
];

const TAKEN_BACK: &[Outcome] = &[
    Outcome::Delivered(68),
    Outcome::Handled,
    Outcome::NotSaid(SayError::Illegal(Fault::Shape)),
    Outcome::Delivered(98),
    Outcome::Handled,
    Outcome::Handled,
    Outcome::Said,
    Outcome::Delivered(40),
    Outcome::Handled,
    Outcome::Handled,
    Outcome::Said,
    Outcome::Delivered(10),
    Outcome::Handled,
    Outcome::Idle,
];

/// Both blocks of 16,385 bytes are asked for, and the first one comes.
const HALF: &[Move] = &[
    Move::Deliver(Side::Right, 68),
    Move::Turn(Side::Right),
    Move::Deliver(Side::Left, 98),
    Move::Turn(Side::Left),
    Move::Turn(Side::Left),
    Move::Deliver(Side::Right, 53),
    Move::Turn(Side::Right),
    Move::Deliver(Side::Left, 62),
    Move::Turn(Side::Left),
    Move::Turn(Side::Left),
    Move::Deliver(Side::Right, 16_435),
    Move::Turn(Side::Right),
    Move::Reset,
];

const HALF_DONE: &[Outcome] = &[
    Outcome::Delivered(68),
    Outcome::Handled,
    Outcome::Delivered(98),
    Outcome::Handled,
    Outcome::Handled,
    Outcome::Delivered(53),
    Outcome::Handled,
    Outcome::Delivered(62),
    Outcome::Handled,
    Outcome::Handled,
    Outcome::Delivered(16_435),
    Outcome::Handled,
    Outcome::Reset,
];

/// Two ends.
#[derive(Clone, Copy)]
enum Ends {
    /// They know the piece count, 10, and register `lt_donthave` alone, under the ids 4 and 5.
    TakingBack,
    /// The left one serves 16,385 bytes, all 7, and the right one fetches them, under the ids 3 and 9 of `ut_metadata`.
    Fetching,
}

/// Which ends, their steps and outcomes, and how many of them are made; how many connections there are, how many items the left
/// end sent and handled on the first one, and the right one; and how many bytes, all 7, the right end holds as block 0.
type Run = (
    Ends,
    &'static [Move],
    &'static [Outcome],
    usize,
    usize,
    [(usize, u64); 2],
    usize,
);

const RUNS: &[Run] = &[
    (
        Ends::TakingBack,
        TAKING_BACK,
        TAKEN_BACK,
        14,
        1,
        [(3, 3), (3, 3)],
        0,
    ),
    (
        Ends::Fetching,
        HALF,
        HALF_DONE,
        12,
        1,
        [(4, 4), (4, 3)],
        16_384,
    ),
    // a new connection keeps the block
    (
        Ends::Fetching,
        HALF,
        HALF_DONE,
        13,
        2,
        [(4, 4), (4, 3)],
        16_384,
    ),
];

fn own(reg: Registered, pieces: Option<u32>, info_hash: [u8; 20]) -> Own {
    Own {
        reserved: Reserved(0x10_0005),
        info_hash: Some(info_hash),
        pieces,
        reg,
        rules: Rules::Bep,
        limit: 262_144,
    }
}

/// An end that registers `ut_metadata` or else `lt_donthave` under its id.
fn config(id: u8, pieces: Option<u32>, info_hash: [u8; 20], role: Role) -> Config {
    let reg = match pieces {
        Some(_) => Registered::new(None, ExtId::new(id)),
        None => Registered::new(ExtId::new(id), None),
    };
    Config {
        own: own(
            reg.unwrap_or(Registered::metadata_only(None)),
            pieces,
            info_hash,
        ),
        peer_id: [id; 20],
        announce: Announce::Silent,
        window: Window::default(),
        role,
    }
}

fn fetched_of(alloc: Global, metadata: Vec<u8>, steps: &[Step]) -> Result<LinkReport, LinkError> {
    let info_hash = sha1::Sha1::digest(metadata.as_slice());
    let left = config(3, None, info_hash, Role::Serve(metadata));
    run_link(alloc, left, config(9, None, info_hash, Role::Fetch), steps)
}

fn fetched(alloc: Global, steps: &[Step]) -> Result<LinkReport, LinkError> {
    match vec![in alloc; 7; 16_385] {
        Ok(metadata) => fetched_of(alloc, metadata, steps),
        Err(_) => Err(LinkError::Memory),
    }
}

fn taken_back(alloc: Global, steps: &[Step]) -> Result<LinkReport, LinkError> {
    let left = config(4, Some(10), [1; 20], Role::Watch);
    run_link(
        alloc,
        left,
        config(5, Some(10), [1; 20], Role::Watch),
        steps,
    )
}

fn linked(alloc: Global, ends: Ends, steps: &[Step]) -> Result<LinkReport, LinkError> {
    match ends {
        Ends::TakingBack => taken_back(alloc, steps),
        Ends::Fetching => fetched(alloc, steps),
    }
}

fn has_counts(connections: &[Connection], count: usize, wanted: &[(usize, u64); 2]) -> bool {
    match connections.first() {
        Some(first) => {
            connections.len() == count
                && (first.sent[0].len(), first.handled[0]) == wanted[0]
                && (first.sent[1].len(), first.handled[1]) == wanted[1]
        }
        None => false,
    }
}

fn are_sevens(block: &[u8], size: usize) -> bool {
    block.len() == size && block.iter().all(|byte| *byte == 7)
}

/// Whether the right end alone holds a block, the first, of `size` bytes, all 7; none where that is 0.
fn holds(left: &[(u32, Vec<u8>)], right: &[(u32, Vec<u8>)], size: usize) -> bool {
    match right {
        [(piece, block)] => *piece == 0 && left.is_empty() && are_sevens(block.as_slice(), size),
        _ => size == 0 && left.is_empty() && right.is_empty(),
    }
}

fn tells(
    report: &LinkReport,
    outcomes: &[Outcome],
    (_, _, _, _, count, counts, held): &Run,
) -> bool {
    report.outcomes.as_slice() == outcomes
        && has_counts(report.connections.as_slice(), *count, counts)
        && holds(
            report.blocks[0].as_slice(),
            report.blocks[1].as_slice(),
            *held,
        )
}

fn is_told_by(alloc: Global, run: &Run, steps: &[Step]) -> bool {
    match linked(alloc, run.0, steps) {
        Ok(report) => tells(&report, run.2.get(..run.3).unwrap_or_default(), run),
        Err(_) => false,
    }
}

fn step_of(next: Move) -> Step {
    match next {
        Move::Deliver(side, n) => Step::Deliver(side, n),
        Move::Turn(side) => Step::Turn(side),
        Move::TakeBack(side) => Step::Say(side, Message::Extended(Ext::DontHave(9))),
        Move::Reset => Step::Reset,
    }
}

fn steps(alloc: Global, moves: &[Move]) -> Result<Vec<Step>, AllocError> {
    let mut steps = Vec::new(alloc);
    for next in moves {
        steps.push(step_of(*next))?;
    }
    Ok(steps)
}

fn is_told(alloc: Global, run: &Run) -> bool {
    match steps(alloc, run.1.get(..run.3).unwrap_or_default()) {
        Ok(steps) => is_told_by(alloc, run, steps.as_slice()),
        Err(_) => false,
    }
}

#[test]
fn reports(rt: HostRuntime) {
    for (number, run) in RUNS.iter().enumerate() {
        assert!(rt; is_told(rt.alloc(), run), "{number}");
    }
}
