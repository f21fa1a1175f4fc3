//! What rows need to know of each side besides its items.
ghost use Rattle.std.specs.Prelude.{◌≡◌, if◌then◌else◌, Some, None};
ghost use Rattle.bt_remarks.specs.declared.events.Side.{Side};
ghost use Rattle.std.specs.Option.{option_or};
ghost use Rattle.bt_talk.specs.Courses.{means_of, closes_by, course_of, course_after, end_of, not_begun};
ghost use Rattle.bt_remarks.specs.Said.{is_same};

use crate::closing::When;
use bt_packet::Flags;
use bt_remarks::Side;
use bt_rows::Means;

/// What came of a side so far.
#[derive(Clone, Copy)]
pub(crate) struct Course {
    /// Whether it has sent a FIN or a RST.
    pub(crate) is_closed: bool,
    /// The packet with which its stream grew last; before that, the first one with a byte of the side.
    pub(crate) grown: Option<When>,
    /// How many of its segments were strays.
    pub(crate) strays: u64,
}

/// That of a side which has sent nothing.
const NOT_BEGUN: Course = Course {
    is_closed: false,
    grown: None,
    strays: 0,
};

/// What came of both sides so far.
#[derive(Clone, Copy)]
pub(crate) struct Courses {
    pub(crate) a: Course,
    pub(crate) b: Course,
    /// The connection's first packet.
    pub(crate) first: Option<When>,
}

/// Returns by which flag a segment closes.
fn means_by(flags: Flags) -> Means
    ensures { result ≡ means_of flags }
{
    if flags.rst { Means::Rst } else { Means::Fin }
}

/// Returns how a side closes with these flags, if it hasn't closed before.
fn close_by(flags: Flags, is_closed: bool) -> Option<Means>
    ensures { result ≡ closes_by flags is_closed }
{
    let closes = !is_closed && (flags.fin || flags.rst);
    closes.then_some(means_by(flags))
}

impl Course {
    /// Notes a segment of the side.
    fn take(&mut self, flags: Flags, stray: bool, grows: bool, when: When)
        ensures { self.new ≡ course_after flags stray grows when self.old }
    {
        self.is_closed |= flags.fin || flags.rst;
        self.grown = grows.then_some(when).or(self.grown);
        self.strays = self.strays.saturating_add(u64::from(stray));
    }
}

impl Courses {
    /// Returns those of a connection of which nothing came.
    pub(crate) fn new() -> Courses
        ensures sides { (side : Side) → course_of side result ≡ not_begun }
        ensures first { result.first ≡ None }
    {
        Courses {
            a: NOT_BEGUN,
            b: NOT_BEGUN,
            first: None,
        }
    }

    /// Returns what came of a side.
    pub(crate) fn of(&self, side: Side) -> Course
        ensures { result ≡ course_of side self.now }
    {
        match side {
            Side::A => self.a,
            Side::B => self.b,
        }
    }

    /// Returns the packet with which a side's stream grew last; without a byte of the side, the connection's first packet.
    pub(crate) fn end(&self, side: Side) -> Option<When>
        ensures { result ≡ end_of side self.now }
    {
        self.of(side).grown.or(self.first)
    }

    /// Notes a segment of a side, and returns how the side closes with it, if it hasn't closed before.
    ///
    /// `flags` are those that count, and `stray` says whether it is a stray. `grows` says whether its stream grew, or its first byte came.
    pub(crate) fn take(
        &mut self,
        side: Side,
        flags: Flags,
        stray: bool,
        grows: bool,
        when: When,
    ) -> Option<Means>
        ensures closes { result ≡ closes_by flags (course_of side self.old).is_closed }
        ensures after { (s : Side) → course_of s self.new
            ≡ (if is_same side s then course_after flags stray grows when (course_of s self.old) else course_of s self.old) }
        ensures first { self.new.first ≡ option_or self.old.first (Some when) }
    {
        self.first = self.first.or(Some(when));
        let closes = close_by(flags, self.of(side).is_closed);
        match side {
            Side::A => self.a.take(flags, stray, grows, when),
            Side::B => self.b.take(flags, stray, grows, when),
        }
        closes
    }
}
