//! The datagrams between two ends: how many there are, and why both ends closed.
ghost use Rattle.std.specs.Prelude.{◌≡◌, ◌++◌, ◌∷◌, [], ◌-◌, ◌^◌, ◌==◌, ℕ, List, Bool, true, false, min, Option, None, IfOk, OnOk, OnErr};
ghost use Rattle.std.specs.Option.{option_or};
ghost use Rattle.bt_packet.specs.Utp.{utp_packet};
ghost use Rattle.std.specs.List.{list_any};
ghost use Rattle.bt_utp.specs.Near.{count_near};
ghost use Rattle.bt_utp.specs.Ids.{AreIds};
ghost use Rattle.bt_utp.specs.States.{Takes, source_after, target_after};

use crate::ids::Ids;
use bt_packet::{Address, Utp};
use std::alloc::{AllocError, Global};

/// How many datagrams of uTP there are between two ends.
#[derive(Clone, Copy, PartialEq, Eq, Debug)]
pub struct Counted {
    /// The source of the first one.
    pub source: Address,
    /// The target of the first one.
    pub target: Address,
    /// How many have another one near: one with the same id, the next one or the one before.
    pub count: u64,
    /// Whether there may be more, which weren't counted.
    pub is_least: bool,
    /// Why the source closed: the last reason that it sent, as libtorrent numbers them.
    pub source_reason: Option<u16>,
    /// Why the target closed.
    pub target_reason: Option<u16>,
}

/// The datagrams between two ends.
#[derive(Drop)]
pub struct Flow {
    source: Address,
    target: Address,
    ids: Ids,
    is_least: bool,
    source_reason: Option<u16>,
    target_reason: Option<u16>,
}

impl Flow {
    /// Begins with a datagram.
    ///
    /// # Errors
    /// `AllocError` if out of memory.
    pub fn new(alloc: Global, first: &Utp) -> Result<Flow, AllocError>
        ensures ends { IfOk result (λ flow. (flow.source ≡ first.now.source) × (flow.target ≡ first.now.target)) }
        ensures ids { IfOk result (λ flow. AreIds (first.now.id ∷ []) flow.ids) }
        ensures is_least { IfOk result (λ flow. flow.is_least ≡ false) }
        ensures reasons { IfOk result (λ flow. (flow.source_reason ≡ first.now.reason) × (flow.target_reason ≡ None)) }
    {
        let mut ids = Ids::new(alloc);
        ids.take(first.id)?;
        Ok(Flow {
            source: first.source,
            target: first.target,
            ids,
            is_least: false,
            source_reason: first.reason,
            target_reason: None,
        })
    }

    /// Notes the reason of a close that a datagram says.
    fn note(&mut self, datagram: &Utp)
        ensures source { self.new.source_reason ≡ source_after self.old (utp_packet datagram.now) }
        ensures target { self.new.target_reason ≡ target_after self.old (utp_packet datagram.now) }
        ensures same { self.new ≡ record self.old { source_reason = self.new.source_reason; target_reason = self.new.target_reason } }
    {
        let Some(reason) = datagram.reason else {
            return;
        };
        if datagram.source == self.source && datagram.target == self.target {
            self.source_reason = Some(reason);
        } else {
            self.target_reason = Some(reason);
        }
    }

    /// Takes a datagram, if the flow has its id or there is room. Tells whether it is an id more.
    ///
    /// # Errors
    /// `AllocError` if out of memory. The flow is as before.
    pub fn take(&mut self, datagram: &Utp, has_room: bool) -> Result<bool, AllocError>
        ensures ok { IfOk result (λ is_more. (ids : List ℕ) → AreIds ids self.old.ids
            → Takes ids (utp_packet datagram.now) has_room self.old self.new is_more) }
        ensures room { IfOk result (λ is_more. is_more ≡ true → has_room ≡ true) }
        ensures err { OnErr result ((ids : List ℕ) → AreIds ids self.old.ids → AreIds ids self.new.ids) }
        ensures same { OnErr result (self.new ≡ record self.old { ids = self.new.ids }) }
    {
        let is_new = !self.ids.has(datagram.id);
        if is_new && !has_room {
            self.is_least = true;
            return Ok(false);
        }
        self.ids.take(datagram.id)?;
        self.note(datagram);
        Ok(is_new)
    }

    /// Returns how many datagrams were counted.
    pub fn counted(&self) -> Counted
        ensures { (ids : List ℕ) → AreIds ids self.now.ids
            → result ≡ record {
              source = self.now.source;
              target = self.now.target;
              count = min (count_near ids) (2 ^ 64 - 1);
              is_least = self.now.is_least;
              source_reason = self.now.source_reason;
              target_reason = self.now.target_reason;
            } }
    {
        Counted {
            source: self.source,
            target: self.target,
            count: self.ids.count(),
            is_least: self.is_least,
            source_reason: self.source_reason,
            target_reason: self.target_reason,
        }
    }
}
