//! What a capture tells of one direction of a connection, beside its bytes: what was opened, sent, acknowledged and closed.
ghost use Rattle.std.specs.Prelude.{◌≡◌, ◌+◌, ◌%◌, ◌^◌, ◌≤◌, if◌then◌else◌};
ghost use Rattle.bt_tcp.specs.Acceptable.{is_out_of_range};

use crate::places::place;

/// The place of the first number that is captured.
const FIRST: u64 = 0x100_0000_0000;

const LOWEST: u64 = 0x1_0000_0000;

const HIGHEST: u64 = 0x4000_0000_0000_0000;

/// The greatest window (RFC 7323 2.2, 2.3).
const WINDOW: u64 = 65_535 << 14;

/// A segment is passed over: it isn't in the window, or its place is out of range.
#[derive(Clone, Copy, Debug, PartialEq, Eq)]
pub struct PlaceFault;

/// What is known of one direction of a connection, beside its bytes.
///
/// Places are those of `place`: that of the first number is 2^40.
#[derive(Clone, Copy, Debug)]
pub struct Half {
    zero: Option<u32>,
    opening: Option<u32>,
    end: u64,
    acked: u64,
    is_acked: bool,
    fin: Option<u64>,
    high: u64,
    ghost lowest: { 2 ^ 32 ≤ end },
    ghost highest: { end ≤ 2 ^ 62 },
    ghost heard: { acked ≤ 2 ^ 63 },
}

/// Returns the number of a segment's first data byte. A SYN counts as one before it.
fn data_number(sequence: u32, syn: bool) -> u32
    ensures { result ≡ (sequence + (if syn then 1 else 0)) % 2 ^ 32 }
{
    if syn {
        sequence.wrapping_add(1)
    } else {
        sequence
    }
}

/// Tells whether a segment's place is below 2^32, or it ends past 2^62.
fn is_out_of_range(at: u64, captured: usize, length: u64) -> bool
    ensures { result ≡ is_out_of_range captured length at }
{
    at < LOWEST || at > HIGHEST || length > HIGHEST - at || captured as u64 > HIGHEST - at
}

impl Half {
    ghost use Rattle.std.specs.Prelude.{ℕ, ◌<◌, List, [], IsTrue, ◌↔◌, IfOk, OnErr, IfSome, None, true, false, unwrap_or};
    ghost use Rattle.bt_tcp.specs.Heard.{Heard, Took, Acked, sent_of, IsBase, IsStart};
    ghost use Rattle.bt_tcp.specs.Halves.{IsHalf, HearsMore};
    ghost use Rattle.bt_tcp.specs.Acceptable.{is_numbered, is_passed, is_past_filling, is_unsent, window_end, IsPassed, IsUnsent};
    ghost use Rattle.bt_tcp.specs.Places.{IsNearest};
    ghost use Rattle.bt_tcp.specs.Resets.{MayBeNext, is_sent_to};

    /// Starts with nothing captured.
    pub fn new() -> Half
        ensures { IsHalf [] result }
    {
        Half {
            zero: None,
            opening: None,
            end: FIRST,
            acked: FIRST,
            is_acked: false,
            fin: None,
            high: 0,
        }
    }

    /// Returns the place of a number: the nearest to what was sent.
    fn place_of(&self, number: u32) -> u64
        ensures is { IsNearest (unwrap_or self.now.zero number) self.now.end number result }
        ensures high { result ≤ 2 ^ 63 }
    {
        place(self.zero.unwrap_or(number), self.end, number)
    }

    /// Tells whether the numbers of this side are certain. Until a byte of it was captured, a SYN may give another number.
    fn is_numbered(&self, syn: bool) -> bool
        ensures { (heard : List Heard) → IsHalf heard self.now → result ≡ is_numbered heard syn }
    {
        self.high > 0 || (self.opening.is_some() && !syn)
    }

    /// Returns the place at which the window of this side's receiver ends at the latest.
    fn window_end(&self) -> u64
        ensures { (heard : List Heard) → IsHalf heard self.now → result ≡ window_end heard }
    {
        self.end.max(self.acked) + WINDOW
    }

    /// Tells whether a segment at a place is passed over.
    fn is_passed(&self, at: u64, syn: bool, fin: bool, captured: usize, length: u64) -> bool
        ensures passed { (heard : List Heard) → IsHalf heard self.now → result ≡ is_passed heard syn fin captured length at }
        ensures range { result ≡ false → at + length ≤ 2 ^ 62 }
        ensures captured { result ≡ false → at + captured ≤ 2 ^ 62 }
    {
        if is_out_of_range(at, captured, length) {
            return true;
        }
        if !self.is_numbered(syn) {
            return false;
        }
        at >= self.window_end() || (fin && at + length + 1 < self.acked)
    }

    /// Tells whether [`Half::take`] passes a segment over: none of it is in the window of its receiver (RFC 9293 3.4).
    ///
    /// `length` is how many data bytes it has, of which `captured` were captured. The window is the greatest possible one. Nothing is
    /// out of it before the side's SYN or its first captured byte. A FIN before what was acknowledged is passed over too.
    pub fn passes(&self, sequence: u32, syn: bool, fin: bool, captured: usize, length: u64) -> bool
        ensures { (heard : List Heard) → IsHalf heard self.now → IsPassed heard sequence syn fin captured length result }
    {
        let at = self.place_of(data_number(sequence, syn));
        self.is_passed(at, syn, fin, captured, length)
    }

    /// Takes a segment that this side sent, and returns the place of its first data byte.
    ///
    /// `length` is how many data bytes it has, of which `captured` were captured. A RST isn't to be taken.
    ///
    /// # Errors
    /// `PlaceFault` if it is passed over, as [`Half::passes`] tells. Nothing has changed then.
    pub fn take(
        &mut self,
        sequence: u32,
        syn: bool,
        fin: bool,
        captured: usize,
        length: u64,
    ) -> Result<u64, PlaceFault>
        ensures taken { IfOk result (λ at. HearsMore self.old
            (Took (record { sequence = sequence; syn = syn; fin = fin; captured = captured; size = length; place = at })) self.new) }
        ensures counts { IfOk result (λ at. (heard : List Heard) → IsHalf heard self.old → is_passed heard syn fin captured length at ≡ false) }
        ensures refused { OnErr result ((heard : List Heard) → IsHalf heard self.old → IsPassed heard sequence syn fin captured length true) }
        ensures kept { OnErr result (self.new ≡ self.old) }
    {
        let number = data_number(sequence, syn);
        let at = self.place_of(number);
        if self.is_passed(at, syn, fin, captured, length) {
            return Err(PlaceFault);
        }
        let end = at + length;
        let high = if captured > 0 {
            self.high.max(at + captured as u64)
        } else {
            self.high
        };
        *self = Half {
            zero: self.zero.or(Some(number)),
            opening: syn.then_some(sequence).or(self.opening),
            end: end.max(self.end),
            acked: self.acked,
            is_acked: self.is_acked,
            fin: fin.then_some(end).or(self.fin),
            high,
        };
        Ok(at)
    }

    /// Tells whether what ends at a place can't have been sent yet.
    fn is_unsent(&self, at: u64) -> bool
        ensures { (heard : List Heard) → IsHalf heard self.now → result ≡ is_unsent heard at }
    {
        self.is_numbered(false) && at > self.window_end()
    }

    /// Takes an acknowledgement by the other side, and returns its place.
    ///
    /// `opens` says whether it came with the other side's SYN.
    ///
    /// It returns `None` if that can't have been sent yet (RFC 9293 3.10.7.4). Nothing has changed then.
    pub fn hear(&mut self, acked: u32, opens: bool) -> Option<u64>
        ensures heard { IfSome result (λ at. HearsMore self.old (Acked (record { number = acked; opens = opens; place = at })) self.new) }
        ensures counts { IfSome result (λ at. (heard : List Heard) → IsHalf heard self.old → is_unsent heard at ≡ false) }
        ensures refused { result ≡ None → (heard : List Heard) → IsHalf heard self.old → IsUnsent heard acked true }
        ensures kept { result ≡ None → self.new ≡ self.old }
    {
        let at = self.place_of(acked);
        if self.is_unsent(at) {
            return None;
        }
        self.zero = self.zero.or(Some(acked));
        self.opening = self.opening.or(opens.then_some(acked.wrapping_sub(1)));
        self.acked = self.acked.max(at);
        self.is_acked = true;
        Some(at)
    }

    /// Returns the place after the SYN, if its number is known.
    ///
    /// Otherwise the stream begins with its first captured byte.
    pub fn base(&self) -> Option<u64>
        ensures { (heard : List Heard) → IsHalf heard self.now → IsBase heard result }
    {
        let Some(zero) = self.zero else {
            return None;
        };
        let Some(opening) = self.opening else {
            return None;
        };
        Some(place(zero, FIRST, opening.wrapping_add(1)))
    }

    /// Returns the place after the SYN, or that of the first number that is known if the SYN's isn't.
    pub fn start(&self) -> Option<u64>
        ensures { (heard : List Heard) → IsHalf heard self.now → IsStart heard result }
    {
        match (self.base(), &self.zero) {
            (Some(base), _) => Some(base),
            (None, Some(_)) => Some(FIRST),
            (None, None) => None,
        }
    }

    /// Returns the place up to which bytes are known to be sent, if none from `next` on was captured.
    ///
    /// An acknowledgement of one more may be that of a FIN that wasn't captured, so that isn't counted.
    pub fn sent(&self, next: u64) -> u64
        ensures { (heard : List Heard) → IsHalf heard self.now → result ≡ sent_of heard next }
    {
        if let Some(fin) = self.fin {
            return fin;
        }
        let acked = if self.acked.saturating_sub(next) > 1 {
            self.acked
        } else {
            next
        };
        self.end.max(acked)
    }

    /// Tells whether a byte from `next` on is known to be sent, if those before it are there.
    pub fn has_hole(&self, next: u64) -> bool
        ensures { (heard : List Heard) → IsHalf heard self.now → IsTrue result ↔ (next < sent_of heard next) }
    {
        next < self.sent(next)
    }

    /// Tells whether all before a place is known to be sent. The FIN counts as one.
    fn is_sent_to(&self, at: u64) -> bool
        ensures { (heard : List Heard) → IsHalf heard self.now → result ≡ is_sent_to heard at }
    {
        let to_fin = match self.fin {
            Some(fin) => at.saturating_sub(1) <= fin,
            None => false,
        };
        at <= self.end || at <= self.acked || to_fin
    }

    /// Tells whether the receiver of this side may expect a number next.
    ///
    /// It may, if that is from what it acknowledged up to what was sent. If no number is known, it may expect any.
    pub fn may_be_next(&self, sequence: u32) -> bool
        ensures { (heard : List Heard) → IsHalf heard self.now → MayBeNext heard sequence result }
    {
        let Some(zero) = self.zero else {
            return true; // no number is known
        };
        let at = place(zero, self.end, sequence);
        at >= self.acked && self.is_sent_to(at)
    }

    /// Returns the number of this side's SYN, if it is known.
    pub fn opening(&self) -> Option<u32>
        ensures { result ≡ self.now.opening }
    {
        self.opening
    }

    /// Returns the place up to which the other side acknowledged, at least that of the first number.
    pub fn acked(&self) -> u64
        ensures { result ≡ self.now.acked }
    {
        self.acked
    }

    /// Tells whether no segment fills a gap at a place any more: it was acknowledged, or no acknowledgement was ever captured.
    pub fn is_past_filling(&self, place: u64) -> bool
        ensures { (heard : List Heard) → IsHalf heard self.now → result ≡ is_past_filling heard place }
    {
        !self.is_acked || place < self.acked
    }

    /// Returns the place of the FIN, if one was captured.
    pub fn fin(&self) -> Option<u64>
        ensures { result ≡ self.now.fin }
    {
        self.fin
    }

    /// Returns one past the greatest place whose byte was captured, or 0 if there is none.
    pub fn high(&self) -> u64
        ensures { result ≡ self.now.high }
    {
        self.high
    }
}
