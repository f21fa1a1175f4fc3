//! An end as C holds it.
ghost use Rattle.std.specs.Prelude.{◌≡◌, ℕ, true, nat_lt, Option, Some, None, is_some};
ghost use Rattle.std.specs.Option.{MatchOption};
ghost use Rattle.bt_end.specs.Halves.{HalfState};

use crate::loose::Loose;
use bt_end::End;
use std::alloc::Global;
use std::marker::Model;
use std::mem;
use std::ptr::null_mut;

/// The pointer to an end, or nothing.
#[repr(C)]
pub struct Slot {
    at: *mut u8,
    alloc: Global,
    pub ghost value: { Option HalfState },
}

impl Model for Slot {
    ghost use Rattle.std.specs.contracts.alloc.Global as heap;
    ghost use Rattle.std.specs.contracts.impls.GlobalAllocator.TheImpl.{ghosts};
    ghost use Rattle.bt_end.specs.contracts.end.End.{the_row};
    ghost use Rattle.bt_c.specs.Held.{owned_by};

    ghost also_owns = { λ h. owned_by (ghosts.dealloc_token h.alloc) (the_row heap.the_row ghosts) h.at h.value };
}

impl Slot {
    /// Nothing.
    fn empty(alloc: Global) -> Slot
        ensures { result.value ≡ None }
    {
        Slot {
            at: null_mut(),
            alloc,
        }
    }

    /// The end of a box, which lets go of it.
    fn of(loose: Loose<End, Global>) -> Slot
        ensures { result.value ≡ Some loose.value }
    {
        let Loose { at, alloc } = loose;
        Slot {
            at: at as *mut u8,
            alloc,
        }
    }

    /// The end as a box that is taken apart.
    fn into_loose(self) -> Loose<End, Global>
        requires { is_some self.value ≡ true }
        ensures { self.value ≡ Some result.value }
    {
        let Slot { at, alloc } = self;
        Loose {
            at: at as *mut End,
            alloc,
        }
    }

    /// Ends a slot that has nothing.
    fn close(self)
        requires { self.value ≡ None }
    {
        let Slot { at: _, alloc: _ } = self;
    }
}

/// What C holds: an end, or none.
///
/// In C it is a pointer and a byte, which are both zero if there is none.
#[repr(C)]
pub struct BtEnd {
    pub slot: Slot,
    pub held: u8,
    pub ghost marked: { is_some slot.value ≡ nat_lt 0 held },
}

impl BtEnd {
    fn none(alloc: Global) -> BtEnd
        ensures { result.slot.value ≡ None }
    {
        BtEnd {
            slot: Slot::empty(alloc),
            held: 0,
        }
    }

    /// Holds an end.
    pub fn of(end: Box<End>) -> BtEnd
        ensures { result.slot.value ≡ Some end.value }
    {
        BtEnd {
            slot: Slot::of(Loose::of(end)),
            held: 1,
        }
    }

    fn into_box(self) -> Option<Box<End>>
        ensures { MatchOption result (self.slot.value ≡ None) (λ b. self.slot.value ≡ Some b.value) }
    {
        let BtEnd { slot, held } = self;
        if held == 0 {
            slot.close();
            None
        } else {
            Some(slot.into_loose().into_box())
        }
    }

    /// Takes the end out.
    pub fn take(&mut self, alloc: Global) -> Option<Box<End>>
        ensures end { MatchOption result (self.old.slot.value ≡ None) (λ b. self.old.slot.value ≡ Some b.value) }
        ensures none { self.new.slot.value ≡ None }
    {
        mem::replace(self, BtEnd::none(alloc)).into_box()
    }

    /// Holds this end in place of what it held, which is freed.
    pub fn put(&mut self, end: Box<End>)
        ensures { self.new.slot.value ≡ Some end.value }
    {
        let _ = mem::replace(self, BtEnd::of(end)).into_box();
    }
}
