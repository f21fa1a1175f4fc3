//! The link of two ends as a run changes it, step by step. Its report is made elsewhere.
ghost use Rattle.std.specs.Prelude.{◌≡◌, ◌≤◌, ◌++◌, ◌∷◌, [], length, IfOk, OnOk};
ghost use Rattle.bt_session.specs.declared.link.Step.TheVariants as steps;
ghost use Rattle.bt_session.specs.ByteLinks as links;
ghost use Rattle.bt_session.specs.LinkLaws.{IsWritten, most_steps};
ghost use Rattle.bt_session.specs.Runs.{IsLinkOf, EachMayHandle, DoneBy};

use crate::facts::is_written;
use crate::link::{Outcome, Side, Step};
use crate::node::Node;
use bt_feed::Memory;
use bt_wire::{Item, Message};
use std::alloc::{AllocError, Global};

/// What went over a connection. The left end comes first.
#[derive(Debug, Drop)]
pub struct Connection {
    /// What each end sent.
    pub sent: [Vec<Item>; 2],
    /// How many items each end handled.
    pub handled: [u64; 2],
}

/// Two ends, and the connections before the current one.
#[derive(Drop)]
pub struct Link {
    pub left: Node,
    pub right: Node,
    pub past: Vec<Connection>,
}

/// Appends a connection to the others.
///
/// # Errors
/// `AllocError` when out of memory.
pub fn keep(past: &mut Vec<Connection>, connection: Connection) -> Result<(), AllocError>
    ensures { OnOk result (past.new.items ≡ past.old.items ++ connection ∷ []) }
{
    past.push(connection)?;
    Ok(())
}

impl Link {
    fn turn(&mut self, alloc: Global, side: Side) -> Result<Outcome, Memory>
        ensures { IfOk result (λ o. (l : links.Link) → IsLinkOf self.old l → EachMayHandle l → (k : links.Link) × links.IsStep l (steps.Turn side) o k × IsLinkOf self.new k) }
    {
        match side {
            Side::Left => self.left.turn(alloc),
            Side::Right => self.right.turn(alloc),
        }
    }

    fn say(&mut self, alloc: Global, side: Side, message: &Message) -> Result<Outcome, Memory>
        ensures written { IsWritten (steps.Say side message.now) }
        ensures done { IfOk result (λ o. (l : links.Link) → IsLinkOf self.old l → (k : links.Link) × links.IsStep l (steps.Say side message.now) o k × IsLinkOf self.new k) }
    {
        is_written(message);
        match side {
            Side::Left => self.left.say(alloc, message),
            Side::Right => self.right.say(alloc, message),
        }
    }

    fn deliver(&mut self, side: Side, n: u64) -> Result<Outcome, Memory>
        ensures { IfOk result (λ o. (l : links.Link) → IsLinkOf self.old l → (k : links.Link) × links.IsStep l (steps.Deliver side n) o k × IsLinkOf self.new k) }
    {
        let count = match side {
            Side::Left => self.left.deliver(&mut self.right, n)?,
            Side::Right => self.right.deliver(&mut self.left, n)?,
        };
        Ok(Outcome::Delivered(count))
    }

    fn reset(&mut self, alloc: Global) -> Result<Outcome, Memory>
        ensures { IfOk result (λ o. (l : links.Link) → IsLinkOf self.old l → (k : links.Link) × links.IsStep l steps.Reset o k × IsLinkOf self.new k) }
    {
        let (left_sent, left_handled) = self.left.renew(alloc)?;
        let (right_sent, right_handled) = self.right.renew(alloc)?;
        let connection = Connection {
            sent: [left_sent, right_sent],
            handled: [left_handled, right_handled],
        };
        match keep(&mut self.past, connection) {
            Ok(()) => Ok(Outcome::Reset),
            Err(_) => Err(Memory),
        }
    }

    /// Does a step, and returns its outcome.
    ///
    /// # Errors
    /// `Memory` when out of memory.
    pub fn step(&mut self, alloc: Global, step: &Step) -> Result<Outcome, Memory>
        ensures written { IsWritten step.now }
        ensures done { IfOk result (λ o. (l : links.Link) → IsLinkOf self.old l → EachMayHandle l → (k : links.Link) × links.IsStep l step.now o k × IsLinkOf self.new k) }
    {
        match step {
            Step::Turn(side) => self.turn(alloc, *side),
            Step::Say(side, message) => self.say(alloc, *side, message),
            Step::Deliver(side, n) => self.deliver(*side, *n),
            Step::Reset => self.reset(alloc),
        }
    }
}

/// Does the steps, and returns their outcomes.
///
/// # Errors
/// `AllocError` when out of memory.
pub fn run(alloc: Global, link: &mut Link, steps: &[Step]) -> Result<Vec<Outcome>, AllocError>
    requires { length steps.now ≤ most_steps }
    ensures { IfOk result (λ outcomes. DoneBy steps.now link.old outcomes.items link.new) }
{
    let mut outcomes = Vec::new(alloc);
    'steps: for step in steps {
        match link.step(alloc, step) {
            Ok(outcome) => outcomes.push(outcome)?,
            Err(_) => return Err(AllocError),
        }
    }
    Ok(outcomes)
}
