//! A connection: its two directions, and the segments that its packets are turned into.
ghost use Rattle.std.specs.Prelude.{◌≡◌, ◌≤◌, ◌+◌, ◌%◌, ◌^◌, ◌&&◌, ◌||◌, true, false, None, OnOk, OnErr, IfOk, List, Option, Some, ◌↔◌, IsSome, IfSome};
ghost use Rattle.bt_order.specs.Directions.{Stays};
ghost use Rattle.bt_order.specs.Links.{heard, segment, is_answer, is_first_data, Steps};

use crate::direction::Direction;
use crate::held::Payload;
use std::alloc::{AllocError, Global};

/// The place of the acceptor's first byte.
const ACCEPTED: u32 = 1;

/// What is told of a packet of the acceptor before its numbers are known.
const UNTAKEN: Step = Step {
    sequence: ACCEPTED,
    is_fin: false,
    is_missing: true,
};

/// The type of a packet (BEP 29).
#[derive(Clone, Copy, Debug, PartialEq, Eq)]
pub enum Kind {
    /// ST_DATA.
    Data,
    /// ST_FIN.
    Fin,
    /// ST_STATE.
    State,
    /// ST_RESET.
    Reset,
    /// ST_SYN.
    Syn,
}

/// A captured packet of a connection.
#[derive(Clone, Copy)]
pub struct Came<'a> {
    /// Whether the initiator sent it: the side whose SYN began the connection.
    pub is_initiator: bool,
    pub kind: Kind,
    /// seq_nr.
    pub number: u16,
    /// ack_nr.
    pub acked: u16,
    /// The payload, as far as it was captured.
    pub bytes: &'a [u8],
    /// The payload's size on the wire.
    pub size: usize,
}

/// What a direction tells of a packet that it took.
#[derive(Clone, Copy)]
struct Step {
    sequence: u32,
    is_fin: bool,
    is_missing: bool,
}

/// The segment that a packet is turned into, without its payload.
#[derive(Clone, Copy, Debug, PartialEq, Eq)]
pub struct Turned {
    /// The sequence number: the place of its first byte.
    pub sequence: u32,
    /// The acknowledgment number, if there is one.
    pub acked: Option<u32>,
    pub is_syn: bool,
    pub is_fin: bool,
    pub is_reset: bool,
    /// Whether a byte follows its payload that isn't there.
    pub is_missing: bool,
}

/// A connection whose SYN was captured.
#[derive(Drop)]
pub struct Link {
    alloc: Global,
    /// The SYN's number.
    syn: u16,
    initiator: Direction,
    acceptor: Direction,
    /// Whether the number of the acceptor's first packet is known.
    is_known: bool,
    /// Whether the initiator's first ST_DATA came.
    has_sent: bool,
    /// Whether the answer to the SYN came.
    has_answered: bool,
    is_reset: bool,
}

impl Kind {
    ghost use Rattle.bt_order.specs.Links.{is_data, is_fin, is_state};

    fn is_data(self) -> bool
        ensures { result ≡ is_data self }
    {
        matches!(self, Kind::Data)
    }

    fn is_fin(self) -> bool
        ensures { result ≡ is_fin self }
    {
        matches!(self, Kind::Fin)
    }

    fn is_state(self) -> bool
        ensures { result ≡ is_state self }
    {
        matches!(self, Kind::State)
    }
}

/// Tells whether a packet is the answer to the SYN.
fn is_answer(syn: u16, came: &Came<'_>) -> bool
    ensures { result ≡ is_answer syn came.now }
{
    !came.is_initiator && came.kind.is_state() && came.acked == syn
}

/// Tells whether a packet is the initiator's first ST_DATA.
fn is_first_data(syn: u16, came: &Came<'_>) -> bool
    ensures { result ≡ is_first_data syn came.now }
{
    came.is_initiator && came.kind.is_data() && came.number == syn.wrapping_add(1)
}

/// Takes a packet of the type ST_DATA or ST_FIN in its direction.
fn take_in(
    own: &mut Direction,
    came: &Came<'_>,
    room: usize,
    out: &mut Vec<u8>,
) -> Result<Step, AllocError>
    ensures ok { IfOk result (λ step. Steps came.now room own.old out.old.items own.new out.new.items step) }
    ensures counted { OnOk result (own.new.held.counted ≤ own.old.held.counted + room) }
    ensures err { OnErr result (Stays own.old out.old.items own.new out.new.items) }
{
    let sequence = own.place();
    let was_finished = own.is_finished();
    let payload = Payload {
        is_fin: came.kind.is_fin(),
        bytes: came.bytes,
        size: came.size,
    };
    let has_room = own.take(came.number, &payload, room, out)?;
    Ok(Step {
        sequence,
        is_fin: own.is_finished() && !was_finished,
        is_missing: own.has_gap() || !has_room,
    })
}

/// Returns a segment with no flags and no payload.
fn segment(sequence: u32, acked: Option<u32>) -> Turned
    ensures { result ≡ segment sequence acked }
{
    Turned {
        sequence,
        acked,
        is_syn: false,
        is_fin: false,
        is_reset: false,
        is_missing: false,
    }
}

/// Returns the segment of an ST_STATE.
fn heard(own: &Direction, number: u16, acked: Option<u32>) -> Turned
    ensures { result ≡ heard own.now number acked }
{
    let mut turned = segment(own.place(), acked);
    turned.is_missing = own.has_gap() || own.is_ahead(number);
    turned
}

impl Link {
    ghost use Rattle.bt_order.specs.Links.{told_first, Learns, Begins, acked_by, is_state};
    ghost use Rattle.bt_order.specs.Links.{TakesOwn, Carries, Hears, Resets, Turns, StaysLink, is_over, counted};

    /// Begins a connection with its SYN's number.
    pub fn new(alloc: Global, syn: u16) -> Link
        ensures initiator { Begins ((syn + 1) % 2 ^ 16) (syn + 1) result.initiator }
        ensures acceptor { Begins 0 1 result.acceptor }
        ensures known { result.is_known ≡ false }
        ensures sent { result.has_sent ≡ false }
        ensures answered { result.has_answered ≡ false }
        ensures reset { result.is_reset ≡ false }
        ensures syn { result.syn ≡ syn }
    {
        Link {
            alloc,
            syn,
            initiator: Direction::new(alloc, syn.wrapping_add(1), u32::from(syn) + 1),
            acceptor: Direction::new(alloc, 0, ACCEPTED),
            is_known: false,
            has_sent: false,
            has_answered: false,
            is_reset: false,
        }
    }

    /// Returns the number of the acceptor's first packet, if this packet tells it.
    fn told_first(&self, came: &Came<'_>) -> Option<u16>
        ensures { result ≡ told_first self.now came.now }
    {
        if is_answer(self.syn, came) {
            return if self.is_known {
                None
            } else {
                Some(came.number)
            };
        }
        if !is_first_data(self.syn, came) || self.has_sent {
            return None;
        }
        if self.is_known && !self.acceptor.is_fresh() {
            return None;
        }
        Some(came.acked.wrapping_add(1))
    }

    /// Begins the acceptor's direction anew, if a packet tells its first number.
    fn learn(&mut self, came: &Came<'_>)
        ensures { Learns came.now self.old self.new }
    {
        let first = self.told_first(came);
        if is_first_data(self.syn, came) {
            self.has_sent = true;
        }
        if let Some(first) = first {
            self.acceptor = Direction::new(self.alloc, first, ACCEPTED);
            self.is_known = true;
        }
    }

    /// Returns the place that a packet acknowledges, if it is known.
    fn acked(&self, came: &Came<'_>) -> Option<u32>
        ensures { result ≡ acked_by came.now self.now }
    {
        if !came.is_initiator {
            return self.initiator.acked(came.acked);
        }
        if self.is_known {
            self.acceptor.acked(came.acked)
        } else {
            None
        }
    }

    /// Turns an ST_RESET.
    fn reset(&mut self, came: &Came<'_>) -> Turned
        ensures { Resets came.now self.old self.new result }
    {
        self.is_reset = true;
        let sequence = if came.is_initiator {
            self.initiator.place()
        } else {
            self.acceptor.place()
        };
        let mut turned = segment(sequence, None);
        turned.is_reset = true;
        turned
    }

    /// Turns an ST_STATE.
    fn hear(&mut self, came: &Came<'_>) -> Turned
        ensures { Hears came.now self.old self.new result }
    {
        let is_answer = is_answer(self.syn, came);
        let had_answered = self.has_answered;
        self.learn(came);
        self.has_answered = had_answered || is_answer;
        if is_answer && !had_answered {
            let mut turned = segment(0, Some(u32::from(self.syn) + 1));
            turned.is_syn = true;
            return turned;
        }
        let acked = self.acked(came);
        if came.is_initiator {
            return heard(&self.initiator, came.number, acked);
        }
        if self.is_known {
            heard(&self.acceptor, came.number, acked)
        } else {
            segment(ACCEPTED, acked)
        }
    }

    /// Takes an ST_DATA or ST_FIN in its direction, unless the acceptor's numbers aren't known yet.
    fn take_own(
        &mut self,
        came: &Came<'_>,
        room: usize,
        out: &mut Vec<u8>,
    ) -> Result<Step, AllocError>
        ensures ok { IfOk result (λ step. TakesOwn came.now room self.old out.old.items self.new out.new.items step) }
        ensures counted { OnOk result (counted self.new ≤ counted self.old + room) }
        ensures err { OnErr result (StaysLink self.old out.old.items self.new out.new.items) }
    {
        if came.is_initiator {
            let step = take_in(&mut self.initiator, came, room, out)?;
            return Ok(step);
        }
        if self.is_known {
            let step = take_in(&mut self.acceptor, came, room, out)?;
            return Ok(step);
        }
        Ok(UNTAKEN)
    }

    /// Turns an ST_DATA or ST_FIN.
    fn carry(
        &mut self,
        came: &Came<'_>,
        room: usize,
        out: &mut Vec<u8>,
    ) -> Result<Turned, AllocError>
        requires { is_state came.now.kind ≡ false }
        ensures ok { IfOk result (λ turned. Carries came.now room self.old out.old.items self.new out.new.items turned) }
        ensures counted { OnOk result (counted self.new ≤ counted self.old + room) }
        ensures err { OnErr result (StaysLink self.old out.old.items self.new out.new.items) }
    {
        let step = self.take_own(came, room, out)?;
        self.learn(came);
        let mut turned = segment(step.sequence, self.acked(came));
        turned.is_fin = step.is_fin;
        turned.is_missing = step.is_missing;
        Ok(turned)
    }

    /// Turns a packet into a segment, and appends the segment's payload.
    ///
    /// `room` is how many bytes more may be held, as in `Direction::take`.
    ///
    /// # Errors
    /// `AllocError` if out of memory. The connection is as before.
    pub fn turn(
        &mut self,
        came: &Came<'_>,
        room: usize,
        out: &mut Vec<u8>,
    ) -> Result<Turned, AllocError>
        ensures turned { IfOk result (λ turned. Turns came.now room self.old out.old.items self.new out.new.items turned) }
        ensures counted { OnOk result (counted self.new ≤ counted self.old + room) }
        ensures err { OnErr result (StaysLink self.old out.old.items self.new out.new.items) }
    {
        match came.kind {
            Kind::Data | Kind::Fin => self.carry(came, room, out),
            Kind::State => Ok(self.hear(came)),
            Kind::Reset => Ok(self.reset(came)),
            Kind::Syn => {
                let mut turned = segment(u32::from(self.syn), None);
                turned.is_syn = true;
                Ok(turned)
            }
        }
    }

    /// Tells whether it is over: a RESET came, or the ST_FIN of both sides and all before it.
    pub fn is_over(&self) -> bool
        ensures { result ≡ is_over self.now }
    {
        self.is_reset
            || self.initiator.is_finished() && self.is_known && self.acceptor.is_finished()
    }

    /// Returns how many bytes are held, of both sides, where each packet counts 64 beside its payload. It is at most 2 MiB.
    pub fn counted(&self) -> usize
        ensures is { result ≡ counted self.now }
        ensures bound { result ≤ 2097152 }
    {
        self.initiator.counted() + self.acceptor.counted()
    }

    /// Returns the initiator's direction.
    pub fn initiator(&self) -> &Direction
        ensures { result.now ≡ self.now.initiator }
    {
        &self.initiator
    }

    /// Returns the acceptor's direction, if the number of its first packet is known.
    pub fn acceptor(&self) -> Option<&Direction>
        ensures known { IfSome result (λ d. d.now ≡ self.now.acceptor) }
        ensures unknown { IsSome result ↔ (self.now.is_known ≡ true) }
    {
        if self.is_known {
            Some(&self.acceptor)
        } else {
            None
        }
    }
}
