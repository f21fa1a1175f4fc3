//! How a connection was closed.
ghost use Rattle.std.specs.Prelude.{◌≡◌, ◌||◌, ◌&&◌, is_some};
ghost use Rattle.bt_talk.specs.Cuts.{closes_first};
ghost use Rattle.bt_talk.specs.Strays.{heeded as heeded_by};
ghost use Rattle.bt_talk.specs.Closing.{still_open, closed_after, over_after, is_quiet, high_at, opens_by};

use bt_packet::Flags;
use bt_remarks::Side;

/// How long a connection that has ended may be without a segment until it is over, in nanoseconds.
const QUIET: u64 = 4_000_000_000;

/// Where a packet stands in a capture.
#[derive(Clone, Copy, PartialEq, Eq, Debug)]
pub struct When {
    /// The capture's clock.
    pub nanos: u64,
    pub packet: u64,
}

/// The first FIN or RST of a connection.
#[derive(Clone, Copy, PartialEq, Eq, Debug)]
pub struct Closed {
    pub side: Side,
    pub by_reset: bool,
    pub when: When,
    /// How far the captured bytes of A reached then.
    pub high_a: u64,
    /// How far those of B reached then.
    pub high_b: u64,
}

impl Closed {
    /// Returns how far the captured bytes of a side reached then.
    pub fn high(&self, side: Side) -> u64
        ensures { result ≡ high_at side self.now }
    {
        match side {
            Side::A => self.high_a,
            Side::B => self.high_b,
        }
    }
}

/// How a connection was closed, and since when it is over.
#[derive(Clone, Copy)]
pub(crate) struct Closing {
    pub(crate) closed: Option<Closed>,
    /// The clock of the last segment, once there was a RST, or both FINs were reached and acknowledged.
    pub(crate) over: Option<u64>,
}

impl Closing {
    /// Returns that of a connection that is open.
    pub(crate) fn new() -> Closing
        ensures { result ≡ still_open }
    {
        Closing {
            closed: None,
            over: None,
        }
    }

    /// Tells whether a segment with these flags is the first one that closes.
    pub(crate) fn closes_first(&self, flags: Flags) -> bool
        ensures { result ≡ closes_first flags self.now.closed }
    {
        match &self.closed {
            Some(_) => false,
            None => flags.fin || flags.rst,
        }
    }

    /// Notes a segment that closes, if it has one of these flags and is the first one.
    pub(crate) fn close(&mut self, flags: Flags, now: Closed)
        ensures closed { self.new.closed ≡ closed_after self.old.closed flags now }
        ensures over { self.new.over ≡ self.old.over }
    {
        self.closed = self.closed.or((flags.fin || flags.rst).then_some(now));
    }

    /// Notes whether the connection is over at this time.
    pub(crate) fn end(&mut self, over: bool, nanos: u64)
        ensures closed { self.new.closed ≡ self.old.closed }
        ensures over { self.new.over ≡ over_after self.old.over over nanos }
    {
        self.over = (self.over.is_some() || over).then_some(nanos);
    }

    /// Tells whether the connection has ended.
    pub(crate) fn has_ended(&self) -> bool
        ensures { result ≡ is_some self.now.over }
    {
        self.over.is_some()
    }

    /// Tells whether no segment is awaited any more.
    pub(crate) fn is_quiet(&self, nanos: u64) -> bool
        ensures { result ≡ is_quiet self.now.over nanos }
    {
        match self.over {
            Some(over) => nanos.saturating_sub(over) >= QUIET,
            None => false,
        }
    }
}

/// Returns the flags of a segment that count: of a stray neither SYN, nor FIN, nor RST.
pub(crate) fn heeded(flags: Flags, is_stray: bool) -> Flags
    ensures { result ≡ heeded_by is_stray flags }
{
    if is_stray {
        Flags {
            fin: false,
            syn: false,
            rst: false,
            ack: flags.ack,
        }
    } else {
        flags
    }
}

/// Tells whether a connection ends: by a reset, or since both sides have closed.
pub(crate) fn is_end(reset: bool, a: bool, b: bool) -> bool
    ensures { result ≡ reset || (a && b) }
{
    reset || (a && b)
}

/// Tells whether a segment begins another connection between the same ends.
///
/// `high` says how far its sender's captured bytes reach, and `opening` is the number of its SYN.
pub(crate) fn opens(flags: Flags, high: u64, opening: Option<u32>, sequence: u32) -> bool
    ensures { result ≡ opens_by flags high opening sequence }
{
    match opening {
        Some(number) => flags.syn && !flags.ack && number != sequence,
        None => flags.syn && !flags.ack && high > 0,
    }
}
