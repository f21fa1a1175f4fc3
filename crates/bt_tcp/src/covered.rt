//! Places whose bytes were captured after a gap that is final: spans in the caller's memory, and the gaps that they leave.
ghost use Rattle.std.specs.Prelude.{◌≡◌, ℕ, ◌+◌, ◌-◌, ◌<◌, ◌≤◌, false, List, ◌∷◌, ◌++◌, length, take, drop, OnOk, OnErr, nat_le, nat_lt};
ghost use Rattle.bt_tcp.specs.declared.covered.Span.{Span};
ghost use Rattle.bt_tcp.specs.Covered.{is_covered, AreApart, IsTable, spans_of, Adds, IsAlone, join, add, AreGaps, IsFirstFrom, sent_end, with_gap};

/// The places from `from` on and before `to`.
#[derive(Clone, Copy, Debug, PartialEq, Eq)]
pub struct Span {
    pub from: u64,
    pub to: u64,
}

/// The table has no room for one more span.
#[derive(Clone, Copy, Debug, PartialEq, Eq)]
pub struct TableFull;

/// A run of places without a byte.
#[derive(Clone, Copy, Debug, PartialEq, Eq)]
pub struct Gap {
    pub place: u64,
    pub length: u64,
}

/// The first gap, how many there are, and how many places they have together.
#[derive(Clone, Copy, Debug, PartialEq, Eq)]
pub struct Gaps {
    pub first: Option<Gap>,
    pub count: u64,
    pub sum: u64,
}

impl Gaps {
    /// Counts a gap, if there is a place in it.
    fn note(&mut self, from: u64, to: u64)
        requires sum { self.old.sum ≤ from }
        requires count { self.old.count ≤ self.old.sum }
        ensures { self.new ≡ with_gap self.old from to }
    {
        if from < to {
            let gap = Gap {
                place: from,
                length: to - from,
            };
            self.first = self.first.or(Some(gap));
            self.count += 1;
            self.sum += to - from;
        }
    }
}

/// Counts the spans that end before another one begins, and don't touch it.
fn count_before(spans: &[Span], span: Span) -> usize
    requires { AreApart 0 spans.now }
    ensures within { result ≤ length spans.now }
    ensures added { add span spans.now ≡ take result spans.now ++ join span (drop result spans.now) }
{
    spans.partition_point(
        |it: &Span| -> bool
            ensures { result ≡ nat_lt it.now.to span.from }
        { it.to < span.from },
    )
}

/// Joins a span to those that it touches, which stand in front, and returns it and their number.
fn joined(spans: &[Span], span: Span) -> (Span, usize)
    ensures within { result.1 ≤ length spans.now }
    ensures joined { join span spans.now ≡ result.0 ∷ drop result.1 spans.now }
{
    let mut hull = span;
    for (k, it) in spans.iter().enumerate() {
        if hull.to < it.from {
            return (hull, k);
        }
        hull = Span {
            from: hull.from.min(it.from),
            to: hull.to.max(it.to),
        };
    }
    (hull, spans.len())
}

/// What a span becomes among others: before it are `before` of them, and after it those from `after` on.
#[derive(Clone, Copy)]
struct Fit {
    hull: Span,
    before: usize,
    after: usize,
}

/// Finds what a span becomes.
fn find_fit(spans: &[Span], span: Span) -> Fit
    requires { AreApart 0 spans.now }
    ensures order { result.before ≤ result.after }
    ensures within { result.after ≤ length spans.now }
    ensures added { add span spans.now ≡ take result.before spans.now ++ result.hull ∷ drop result.after spans.now }
{
    let before = count_before(spans, span);
    let (hull, touched) = joined(&spans[before..], span);
    Fit {
        hull,
        before,
        after: before + touched,
    }
}

/// Puts a span in place of some of a table's spans.
fn replace(table: &mut [Span], count: usize, from: usize, to: usize, span: Span)
    requires order { from ≤ to }
    requires inside { to ≤ count }
    requires count { count ≤ length table.old }
    requires room { from + 1 + (count - to) ≤ length table.old }
    ensures { take (from + 1 + (count - to)) table.new ≡ take from table.old ++ span ∷ drop to (take count table.old) }
{
    if to != from + 1 {
        table.copy_within(to..count, from + 1);
    }
    table[from] = span;
}

/// Spans in order, with gaps between them, at the front of the caller's table.
#[derive(Clone, Copy, Debug)]
pub struct Spans {
    count: usize,
}

impl Spans {
    /// Starts without a span, whatever is in the table.
    pub fn new(_table: &[Span]) -> Spans
        ensures none { (i : ℕ) → is_covered (spans_of result _table.now) i ≡ false }
        ensures sound { IsTable result _table.now }
    {
        Spans { count: 0 }
    }

    /// Adds the places from `from` on and before `to`.
    ///
    /// # Errors
    /// `TableFull` if they touch no span, and the table has no room for one more. Nothing has changed then.
    pub fn add(&mut self, table: &mut [Span], from: u64, to: u64) -> Result<(), TableFull>
        requires { IsTable self.old table.old }
        ensures sound { IsTable self.new table.new }
        ensures added { OnOk result (Adds (record { from = from; to = to }) (spans_of self.old table.old) (spans_of self.new table.new)) }
        ensures kept { OnErr result (spans_of self.new table.new ≡ spans_of self.old table.old) }
        ensures full { OnErr result (self.old.count ≡ length table.old) }
        ensures alone { OnErr result (IsAlone (record { from = from; to = to }) (spans_of self.old table.old)) }
    {
        if to <= from {
            return Ok(());
        }
        let fit = find_fit(&table[..self.count], Span { from, to });
        if fit.before == fit.after && self.count == table.len() {
            return Err(TableFull);
        }
        replace(table, self.count, fit.before, fit.after, fit.hull);
        self.count = fit.before + 1 + (self.count - fit.after);
        Ok(())
    }

    /// Returns the first place from `next` on that is in a span, if there is one.
    pub fn first_from(&self, table: &[Span], next: u64) -> Option<u64>
        requires { IsTable self.now table.now }
        ensures { IsFirstFrom (is_covered (spans_of self.now table.now)) next result }
    {
        let spans = &table[..self.count];
        let passed = spans.partition_point(
            |it: &Span| -> bool
                ensures { result ≡ nat_le it.now.to next }
            { it.to <= next },
        );
        if passed < spans.len() {
            Some(spans[passed].from.max(next))
        } else {
            None
        }
    }

    /// Returns the gaps from `next` up to `sent`, or up to the last span's end, if that is later.
    ///
    /// Of a `Half` that is `half.sent(next.max(half.high()))`.
    pub fn gaps(&self, table: &[Span], next: u64, sent: u64) -> Gaps
        requires { IsTable self.now table.now }
        ensures { AreGaps (is_covered (spans_of self.now table.now)) next (sent_end (spans_of self.now table.now) sent) result }
    {
        let mut found = Gaps {
            first: None,
            count: 0,
            sum: 0,
        };
        let mut at = next;
        for span in &table[..self.count] {
            found.note(at, span.from);
            at = at.max(span.to);
        }
        found.note(at, sent);
        found
    }
}
