//! How many remarks there are, and the first of each.
ghost use Rattle.std.specs.Prelude.{◌≡◌, [], true};
ghost use Rattle.bt_remarks.specs.declared.events.Side.{Side};
ghost use Rattle.bt_remarks.specs.Remarked.{found_after, tally_after, tally_of};
ghost use Rattle.bt_remarks.specs.Steps.{found_has_room, tally_has_room};

use crate::events::{Block, Remarks};

/// The events of a side that have a remark.
#[derive(Clone, Copy, Debug, PartialEq, Eq)]
pub struct Found {
    pub count: u64,
    /// The first one's mark.
    pub first: Option<u64>,
}

/// A request of a block.
#[derive(Clone, Copy, Debug, PartialEq, Eq)]
pub struct Request {
    /// The mark of its event.
    pub mark: u64,
    pub block: Block,
}

/// The requests of a side that got no answer.
#[derive(Clone, Copy, Debug, PartialEq, Eq)]
pub struct Unanswered {
    pub count: u64,
    /// The oldest of them.
    pub first: Option<Request>,
}

/// The events of a side by their remarks.
#[derive(Clone, Copy, Debug, PartialEq, Eq)]
pub struct Tally {
    pub unasked: Found,
    pub choked: Found,
    pub again: Found,
    pub elsewhere: Found,
}

impl Found {
    /// No event.
    pub const NOTHING: Found = Found {
        count: 0,
        first: None,
    };

    /// Tells whether an event can be counted, if it has the remark.
    #[inline(always)]
    fn has_room(&self, is_remarked: bool) -> bool
        ensures { result ≡ found_has_room is_remarked self.now }
    {
        !is_remarked || self.count < u64::MAX
    }

    /// Counts an event in place, if it has the remark.
    #[inline(always)]
    fn add(&mut self, is_remarked: bool, mark: u64)
        requires { found_has_room is_remarked self.old ≡ true }
        ensures { self.new ≡ found_after is_remarked mark self.old }
    {
        if is_remarked {
            self.count += 1;
            if self.first.is_none() {
                self.first = Some(mark);
            }
        }
    }
}

impl Unanswered {
    /// No request.
    pub const NOTHING: Unanswered = Unanswered {
        count: 0,
        first: None,
    };
}

impl Tally {
    /// Returns the tally of no events.
    pub fn new() -> Tally
        ensures { (side : Side) → result ≡ tally_of side [] }
    {
        Tally {
            unasked: Found::NOTHING,
            choked: Found::NOTHING,
            again: Found::NOTHING,
            elsewhere: Found::NOTHING,
        }
    }

    /// Tells whether an event with these remarks can be counted.
    #[inline(always)]
    pub(crate) fn has_room(&self, remarks: Remarks) -> bool
        ensures { result ≡ tally_has_room remarks self.now }
    {
        self.unasked.has_room(remarks.unasked)
            && self.choked.has_room(remarks.choked)
            && self.again.has_room(remarks.again)
            && self.elsewhere.has_room(remarks.elsewhere)
    }

    /// Counts an event with its remarks in place.
    #[inline(always)]
    pub(crate) fn add(&mut self, remarks: Remarks, mark: u64)
        requires { tally_has_room remarks self.old ≡ true }
        ensures { self.new ≡ tally_after remarks mark self.old }
    {
        self.unasked.add(remarks.unasked, mark);
        self.choked.add(remarks.choked, mark);
        self.again.add(remarks.again, mark);
        self.elsewhere.add(remarks.elsewhere, mark);
    }
}
