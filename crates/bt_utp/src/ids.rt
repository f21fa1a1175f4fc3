//! The connection ids of the datagrams between two ends.
ghost use Rattle.std.specs.Prelude.{◌≡◌, ◌++◌, ◌∷◌, [], ◌-◌, ◌^◌, ◌==◌, ◌||◌, ℕ, List, Bool, false, if◌then◌else◌};
ghost use Rattle.std.specs.Prelude.{Option, Some, is_some, unwrap_or, min, OnOk, OnErr};
ghost use Rattle.std.specs.List.{list_any};
ghost use Rattle.std.specs.Option.{option_map};
ghost use Rattle.std.specs.Ordering.{nat_cmp};
ghost use Rattle.std.specs.BTreeMap.{get};
ghost use Rattle.bt_utp.specs.Near.{count_near};
ghost use Rattle.bt_utp.specs.Ids.{AreIds};

use std::alloc::{AllocError, Global};
use std::collections::BTreeMap;

/// The ids that came, and how many of them have another one near.
#[derive(Drop)]
pub struct Ids {
    /// For each id whether it came once, and none near it.
    alone: BTreeMap<u16, bool>,
    count: u64,
}

/// Returns 1 for true, and else 0.
fn one_if(is: bool) -> u64
    ensures { result ≡ (if is then 1 else 0) }
{
    u64::from(is)
}

impl Ids {
    /// Returns no ids.
    pub fn new(alloc: Global) -> Ids
        ensures { AreIds [] result }
    {
        Ids {
            alone: BTreeMap::new(alloc),
            count: 0,
        }
    }

    /// Tells whether an id came.
    pub fn has(&self, id: u16) -> bool
        ensures { (ids : List ℕ) → AreIds ids self.now → result ≡ list_any (λ j. id == j) ids }
    {
        self.alone.contains_key(&id)
    }

    /// Returns how many of the ids have another one near, at most 2^64 - 1.
    pub fn count(&self) -> u64
        ensures { (ids : List ℕ) → AreIds ids self.now → result ≡ min (count_near ids) (2 ^ 64 - 1) }
    {
        self.count
    }

    /// Notes that another id came near this one. Returns 1 if it was alone so far.
    fn join(&mut self, id: u16) -> u64
        ensures more { result ≡ (if unwrap_or (get nat_cmp self.old.alone id) false then 1 else 0) }
        ensures others { (k : ℕ) → get nat_cmp self.new.alone k
            ≡ (if id == k then option_map (λ _. false) (get nat_cmp self.old.alone k) else get nat_cmp self.old.alone k) }
        ensures count { self.new.count ≡ self.old.count }
    {
        let Some(alone) = self.alone.get_mut(&id) else {
            return 0;
        };
        let more = one_if(*alone);
        *alone = false;
        more
    }

    /// Tells whether one of three ids came.
    fn has_near(&self, id: u16, next: u16, last: u16) -> bool
        ensures { result ≡ (is_some (get nat_cmp self.now.alone id)
            || (is_some (get nat_cmp self.now.alone next) || is_some (get nat_cmp self.now.alone last))) }
    {
        self.alone.contains_key(&id)
            || self.alone.contains_key(&next)
            || self.alone.contains_key(&last)
    }

    /// Takes an id.
    ///
    /// # Errors
    /// `AllocError` if out of memory. The ids are as before.
    pub fn take(&mut self, id: u16) -> Result<(), AllocError>
        ensures ok { OnOk result ((ids : List ℕ) → AreIds ids self.old → AreIds (ids ++ id ∷ []) self.new) }
        ensures err { OnErr result ((ids : List ℕ) → AreIds ids self.old → AreIds ids self.new) }
    {
        let next = id.wrapping_add(1);
        let last = id.wrapping_sub(1);
        let is_near = self.has_near(id, next, last);
        let was_alone = self.alone.insert(id, !is_near)?.unwrap_or(false);
        let more = one_if(is_near) + one_if(was_alone) + self.join(next) + self.join(last);
        self.count = self.count.saturating_add(more);
        Ok(())
    }
}
