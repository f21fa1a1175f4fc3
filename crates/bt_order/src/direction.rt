//! The packets of one direction, put in order by their numbers.
ghost use Rattle.std.specs.Prelude.{◌≡◌, ℕ, ◌+◌, ◌%◌, ◌^◌, ◌≤◌, ◌<◌, List, [], ◌++◌, length, vec_len, vec_capacity};
ghost use Rattle.std.specs.Prelude.{Some, None, true, false, Option, OnOk, OnErr, IfOk};

use crate::held::{Held, Payload};
use crate::numbers::{REACH, index_of};
use std::alloc::{AllocError, Global};

/// The index of the first packet.
const FIRST: u64 = 0x1_0000;

/// How a direction stands.
#[derive(Clone, Copy, Debug, PartialEq, Eq)]
pub(crate) enum Course {
    /// More may come.
    Open,
    /// Its ST_FIN came, and all before it.
    Finished,
    /// The capture cut a payload: the gap after it is final.
    Cut,
    /// A packet was out of reach: the gap before it is final.
    Lost,
}

/// One direction of a connection.
#[derive(Drop)]
pub struct Direction {
    /// The number of the first packet.
    first: u16,
    /// The place of the first byte.
    base: u32,
    /// The index of the packet that is awaited.
    next: u64,
    /// The place of the byte that is awaited.
    place: u32,
    held: Held,
    course: Course,
    ghost low: { 65536 ≤ next },
    ghost high: { next ≤ 2 ^ 62 },
}

impl Direction {
    ghost use Rattle.bt_order.specs.declared.direction.Course.TheVariants.{Lost};
    ghost use Rattle.bt_order.specs.States.{gap_of, is_fresh, numbers_ahead, is_ahead, acked_of};
    ghost use Rattle.bt_order.specs.Streams.{Packet, has_fin, HasGap};
    ghost use Rattle.bt_order.specs.Held.{held_at, packet_with};
    ghost use Rattle.bt_order.specs.Directions.{IsReached, HoldsFrom, Has, IsDirectionOf, SameStart, Passes, Settles, Takes, Stays};
    ghost use Rattle.bt_order.specs.Directions.{TakesNumber, LosesByReach, is_open, is_finished, is_lost};

    /// Returns a direction whose first packet has a number, and its first byte a place.
    pub fn new(alloc: Global, first: u16, base: u32) -> Direction
        ensures none { IsDirectionOf [] [] result }
        ensures first { result.first ≡ first }
        ensures base { result.base ≡ base }
        ensures empty { result.held.counted ≡ 0 }
    {
        Direction {
            first,
            base,
            next: FIRST,
            place: base,
            held: Held::new(alloc),
            course: Course::Open,
        }
    }

    /// Tells whether more may be taken.
    fn is_open(&self) -> bool
        ensures { result ≡ is_open self.now.course }
    {
        matches!(self.course, Course::Open)
    }

    /// Appends the payload of the next packet, for which `out` has room.
    fn append(&mut self, payload: &Payload<'_>, out: &mut Vec<u8>)
        requires room { vec_len out.old + length payload.now.bytes.now ≤ vec_capacity out.old }
        requires high { self.old.next < 2 ^ 62 }
        ensures out { out.new.items ≡ out.old.items ++ payload.now.bytes.now }
        ensures len { vec_len out.new ≡ vec_len out.old + length payload.now.bytes.now }
        ensures capacity { vec_capacity out.old ≤ vec_capacity out.new }
        ensures held { self.new.held ≡ self.old.held }
        ensures start { SameStart self.old self.new }
        ensures found { is_lost self.new.course ≡ false }
        ensures place { self.new.place ≡ (self.old.place + length payload.now.bytes.now) % 2 ^ 32 }
        ensures passed { (at : ℕ → Option Packet) (before : List ℕ) → IsReached at before self.old.next
            → at self.old.next ≡ Some (packet_with self.old.next payload.now) → HoldsFrom (self.old.next + 1) at (held_at self.old.held)
            → Has at (before ++ payload.now.bytes.now) self.new }
    {
        out.extend_from_slice(payload.bytes).unwrap();
        self.next += 1;
        let len = (payload.bytes.len() % 0x1_0000_0000) as u32;
        self.place = self.place.wrapping_add(len);
        if payload.bytes.len() < payload.size {
            self.course = Course::Cut;
        } else if payload.is_fin {
            self.course = Course::Finished;
        } else {
            self.course = Course::Open;
        }
    }

    /// Appends the payloads of the packets that are held and come next, for which `out` has room.
    fn drain(&mut self, out: &mut Vec<u8>)
        requires { vec_len out.old + self.old.held.counted ≤ vec_capacity out.old }
        ensures passes { Passes self.old out.old.items self.new out.new.items }
        ensures none { is_open self.new.course ≡ true → held_at self.new.held self.new.next ≡ None }
    {
        while self.is_open() {
            let Some(part) = self.held.remove(self.next) else {
                return;
            };
            let payload = Payload {
                is_fin: part.is_fin,
                bytes: &part.bytes,
                size: part.size,
            };
            self.append(&payload, out);
        }
    }

    /// Lets the held packets go, if no more is taken.
    fn settle(&mut self)
        ensures { Settles self.old self.new }
    {
        if !self.is_open() {
            self.held.clear();
        }
    }

    /// Takes the packet that is awaited, and those held that follow it.
    fn go_on(&mut self, payload: &Payload<'_>, out: &mut Vec<u8>) -> Result<(), AllocError>
        requires open { is_open self.old.course ≡ true }
        requires high { self.old.next < 2 ^ 62 }
        ensures ok { OnOk result (Takes (packet_with self.old.next payload.now) self.old out.old.items self.new out.new.items) }
        ensures found { OnOk result (is_lost self.new.course ≡ false) }
        ensures counted { OnOk result (self.new.held.counted ≤ self.old.held.counted) }
        ensures err { OnErr result (Stays self.old out.old.items self.new out.new.items) }
    {
        out.reserve(payload.bytes.len() + self.held.counted())?;
        self.append(payload, out);
        self.drain(out);
        self.settle();
        Ok(())
    }

    /// Makes the gap before the next packet final.
    fn lose(&mut self)
        ensures next { self.new.next ≡ self.old.next }
        ensures place { self.new.place ≡ self.old.place }
        ensures start { SameStart self.old self.new }
        ensures course { self.new.course ≡ Lost }
        ensures free { self.new.held.counted ≡ 0 }
    {
        self.course = Course::Lost;
        self.settle();
    }

    /// Takes a packet of the type ST_DATA or ST_FIN, and appends the bytes that come next now. Tells whether there was room for it.
    ///
    /// A packet that isn't the next one is held, if it is less than 4,096 numbers ahead. `room` is how many bytes more may be held, where
    /// each packet counts 64 beside its payload; 1 MiB is held at most. A packet without room counts as one that wasn't captured. After a
    /// packet that is further away no more is taken.
    ///
    /// # Errors
    /// `AllocError` if out of memory. The direction is as before.
    pub fn take(
        &mut self,
        number: u16,
        payload: &Payload<'_>,
        room: usize,
        out: &mut Vec<u8>,
    ) -> Result<bool, AllocError>
        ensures taken { IfOk result (λ has_room. TakesNumber number payload.now room has_room self.old out.old.items self.new out.new.items) }
        ensures lost { OnOk result (LosesByReach number self.old self.new) }
        ensures counted { OnOk result (self.new.held.counted ≤ self.old.held.counted + room) }
        ensures err { OnErr result (Stays self.old out.old.items self.new out.new.items) }
    {
        if !self.is_open() {
            return Ok(true);
        }
        let Some(index) = index_of(self.first, self.next, number) else {
            self.lose();
            return Ok(true);
        };
        if index < self.next {
            return Ok(true);
        }
        if index > self.next {
            let has_room = self.held.hold(index, payload, room)?;
            return Ok(has_room);
        }
        self.go_on(payload, out)?;
        Ok(true)
    }

    /// Returns the place of the next byte, modulo 2^32.
    pub fn place(&self) -> u32
        ensures is { result ≡ self.now.place }
        ensures counts { (ps : List Packet) (out : List ℕ) → IsDirectionOf ps out self.now → result ≡ (self.now.base + length out) % 2 ^ 32 }
    {
        self.place
    }

    /// Returns how many bytes are held, where each packet counts 64 beside its payload. It is at most 1 MiB.
    pub fn counted(&self) -> usize
        ensures is { result ≡ self.now.held.counted }
        ensures bound { result ≤ 1048576 }
    {
        self.held.counted()
    }

    /// Tells whether its ST_FIN came, and all packets before it.
    pub fn is_finished(&self) -> bool
        ensures is { result ≡ is_finished self.now.course }
        ensures tells { (ps : List Packet) (out : List ℕ) → IsDirectionOf ps out self.now → is_lost self.now.course ≡ false → result ≡ has_fin ps }
    {
        matches!(self.course, Course::Finished)
    }

    /// Tells whether a packet was out of reach, so that what was handed out may be less than the stream.
    pub fn is_lost(&self) -> bool
        ensures { result ≡ is_lost self.now.course }
    {
        matches!(self.course, Course::Lost)
    }

    /// Tells whether a packet or the rest of one is known to be missing, after which others came or none is taken.
    pub fn has_gap(&self) -> bool
        ensures is { result ≡ gap_of self.now }
        ensures lost { is_lost self.now.course ≡ true → result ≡ true }
        ensures gap { (ps : List Packet) (out : List ℕ) → IsDirectionOf ps out self.now → is_lost self.now.course ≡ false → result ≡ true → HasGap ps }
        ensures none { (ps : List Packet) (out : List ℕ) → IsDirectionOf ps out self.now → result ≡ false → HasGap ps → ⊥ }
    {
        match self.course {
            Course::Open => !self.held.is_empty(),
            Course::Finished => false,
            Course::Cut | Course::Lost => true,
        }
    }

    /// Tells whether no packet was taken, and none is held.
    pub fn is_fresh(&self) -> bool
        ensures { result ≡ is_fresh self.now }
    {
        self.is_open() && self.next == FIRST && self.held.is_empty()
    }

    /// Returns how many numbers a number is after the awaited one, modulo 2^16.
    fn numbers_ahead(&self, number: u16) -> u16
        ensures { result ≡ numbers_ahead self.now number }
    {
        let at = self.first.wrapping_add((self.next % 0x1_0000) as u16);
        number.wrapping_sub(at)
    }

    /// Tells whether a number is after the awaited one, and in reach.
    pub fn is_ahead(&self, number: u16) -> bool
        ensures { result ≡ is_ahead self.now number }
    {
        let ahead = self.numbers_ahead(number);
        !self.is_finished() && ahead > 0 && ahead < REACH
    }

    /// Returns the place that the other side acknowledges by a number, if it is in reach. A packet that isn't here counts as one byte.
    pub fn acked(&self, number: u16) -> Option<u32>
        ensures { result ≡ acked_of self.now number }
    {
        let more = self.numbers_ahead(number.wrapping_add(1));
        if self.is_finished() {
            return if more == 0 {
                Some(self.place.wrapping_add(1))
            } else {
                None
            };
        }
        if more < REACH {
            Some(self.place.wrapping_add(u32::from(more)))
        } else {
            None
        }
    }
}
