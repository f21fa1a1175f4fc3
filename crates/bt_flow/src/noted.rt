//! The captured places past a gap, as spans.
ghost use Rattle.std.specs.Prelude.{◌≡◌, ℕ, ◌≤◌, length, take, true, false, IfOk};
ghost use Rattle.bt_tcp.specs.Covered.{AreApart};
ghost use Rattle.bt_flow.specs.Apart.{AreApart-prop};

use bt_tcp::{Gaps, Span, Spans};
use std::alloc::{AllocError, Global};
use std::mem::size_of;

/// How many spans there may be.
const SPANS: usize = 1024;

/// Spans of captured places, and their memory.
#[derive(Drop)]
pub struct Noted {
    spans: Spans,
    table: Vec<Span>,
    /// A span wasn't noted.
    is_full: bool,
    ghost fits: { spans.count ≤ length table.items },
    ghost room: { length table.items ≡ 1024 },
    ghost apart: { AreApart 0 (take spans.count table.items) } by { AreApart-prop 0 (take spans.count table.items) },
}

impl Noted {
    ghost use Rattle.bt_tcp.specs.Covered.{is_covered, AreGaps, IsFirstFrom, sent_end};
    ghost use Rattle.bt_flow.specs.Notes.{spans_in, NotesMore, NotesBoth, HasNoRoom, HasNoRoomFor, AddsIfRoom, AddsBothIfRoom};

    /// Returns no spans.
    ///
    /// # Errors
    /// `AllocError` when out of memory.
    pub fn new(alloc: Global) -> Result<Noted, AllocError>
        ensures none { IfOk result (λ n. (i : ℕ) → is_covered (spans_in n) i ≡ false) }
        ensures open { IfOk result (λ n. n.is_full ≡ false) }
    {
        let mut table = Vec::new(alloc);
        table.resize(SPANS, Span { from: 0, to: 0 })?;
        let spans = Spans::new(&table);
        Ok(Noted {
            spans,
            table,
            is_full: false,
        })
    }

    /// Notes the places from `from` on and before `to`.
    fn add(&mut self, from: u64, to: u64)
        ensures noted { NotesMore (record { from = from; to = to }) self.old self.new }
        ensures some { AddsIfRoom (record { from = from; to = to }) (spans_in self.old) (spans_in self.new) }
        ensures full { self.old.is_full ≡ false → self.new.is_full ≡ true → HasNoRoom (record { from = from; to = to }) (spans_in self.old) }
    {
        if self.spans.add(&mut self.table, from, to).is_err() {
            self.is_full = true;
        }
    }

    /// Notes the places from `from` on and before `to`, and joins those before `next`, which no longer matter.
    pub fn note(&mut self, base: u64, next: u64, from: u64, to: u64)
        ensures noted { NotesBoth (record { from = base; to = next }) (record { from = from; to = to }) self.old self.new }
        ensures some { AddsBothIfRoom (record { from = base; to = next }) (record { from = from; to = to }) (spans_in self.old) (spans_in self.new) }
        ensures full { self.old.is_full ≡ false → self.new.is_full ≡ true → HasNoRoomFor (record { from = base; to = next }) (record { from = from; to = to }) (spans_in self.old) }
    {
        self.add(base, next);
        self.add(from, to);
    }

    /// Returns the first place from `next` on that is noted, if there is one.
    pub fn first_from(&self, next: u64) -> Option<u64>
        ensures { IsFirstFrom (is_covered (spans_in self.now)) next result }
    {
        self.spans.first_from(&self.table, next)
    }

    /// Returns the gaps from `next` up to `sent`, or up to the last span's end, if that is later.
    pub fn gaps(&self, next: u64, sent: u64) -> Gaps
        ensures { AreGaps (is_covered (spans_in self.now)) next (sent_end (spans_in self.now) sent) result }
    {
        self.spans.gaps(&self.table, next, sent)
    }

    /// Returns how many bytes of memory it takes besides its own fields.
    pub fn size(&self) -> usize
        ensures { length self.now.table.items ≤ result }
    {
        self.table.capacity().saturating_mul(size_of::<Span>())
    }
}
