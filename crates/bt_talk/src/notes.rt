//! What is kept of a side's items.
ghost use Rattle.std.specs.Prelude.{◌≡◌, None, OnOk, IfSome};
ghost use Rattle.bt_talk.specs.Kept.{first_said, firsts_after, no_firsts, noted};

use bt_remarks::Remarks;
use bt_rows::Said;
use std::alloc::{AllocError, Global};
use std::marker::Model;
use std::mem::size_of;

/// The first item with each remark.
#[derive(Clone, Copy)]
pub(crate) struct Firsts {
    pub(crate) unasked: Option<Said>,
    pub(crate) choked: Option<Said>,
    pub(crate) again: Option<Said>,
    pub(crate) elsewhere: Option<Said>,
}

/// Those of no item.
const NO_FIRSTS: Firsts = Firsts {
    unasked: None,
    choked: None,
    again: None,
    elsewhere: None,
};

/// Keeps the first item that has a remark.
#[inline(always)]
fn keep_first(first: &mut Option<Said>, has: bool, said: &Said)
    ensures { first.new ≡ first_said has said.now first.old }
{
    if has && first.is_none() {
        *first = Some(*said);
    }
}

impl Firsts {
    /// Keeps an item as the first one with each of its remarks, if no item had that one.
    fn keep(&mut self, remarks: Remarks, said: &Said)
        ensures { self.new ≡ firsts_after remarks said.now self.old }
    {
        keep_first(&mut self.unasked, remarks.unasked, said);
        keep_first(&mut self.choked, remarks.choked, said);
        keep_first(&mut self.again, remarks.again, said);
        keep_first(&mut self.elsewhere, remarks.elsewhere, said);
    }
}

/// What is kept of a side's items.
#[derive(Drop)]
pub(crate) struct Notes {
    alloc: Global,
    last: Option<Said>,
    /// They have memory of their own, since few sides have any.
    firsts: Option<Box<Firsts>>,
}

impl Model for Notes {
    ghost use Rattle.bt_talk.specs.Kept.{Kept, firsts_in};

    ghost Value = { Kept };

    ghost view = { λ n. record { last = n.last; firsts = firsts_in n.firsts } };
}

impl Notes {
    /// Returns those of no item.
    pub(crate) fn new(alloc: Global) -> Notes
        ensures { result ≡ record { last = None; firsts = no_firsts } }
    {
        Notes {
            alloc,
            last: None,
            firsts: None,
        }
    }

    /// Returns the last item.
    pub(crate) fn last(&self) -> &Option<Said>
        ensures { result.now ≡ self.now.last }
    {
        &self.last
    }

    /// Returns the first item with each remark.
    pub(crate) fn firsts(&self) -> Firsts
        ensures { result ≡ self.now.firsts }
    {
        match &self.firsts {
            Some(firsts) => **firsts,
            None => NO_FIRSTS,
        }
    }

    /// Keeps the last item as the first one with each of its remarks, if no item had that one.
    #[inline(never)]
    fn keep(&mut self, remarks: Remarks) -> Result<(), AllocError>
        ensures { OnOk result (IfSome self.old.last (λ said. self.new ≡ noted remarks said self.old)) }
    {
        let Some(said) = self.last else {
            return Ok(());
        };
        let mut firsts = match self.firsts.take() {
            Some(firsts) => firsts,
            None => Box::new(self.alloc, NO_FIRSTS)?,
        };
        firsts.keep(remarks, &said);
        self.firsts = Some(firsts);
        Ok(())
    }

    /// Keeps an item with its remarks.
    ///
    /// # Errors
    /// `AllocError` when out of memory.
    #[inline(always)]
    pub(crate) fn note(&mut self, said: Said, remarks: Remarks) -> Result<(), AllocError>
        ensures { OnOk result (self.new ≡ noted remarks said self.old) }
    {
        self.last = Some(said);
        if remarks.unasked || remarks.choked || remarks.again || remarks.elsewhere {
            return self.keep(remarks);
        }
        Ok(())
    }

    /// Returns how many bytes of memory it takes besides its own fields.
    pub(crate) fn size(&self) -> usize {
        match &self.firsts {
            Some(_) => size_of::<Firsts>(),
            None => 0,
        }
    }
}
