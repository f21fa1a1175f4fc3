//! Packets that are held past a gap.
ghost use Rattle.std.specs.Prelude.{◌≡◌, ◌==◌, ℕ, ◌+◌, ◌^◌, ◌≤◌, ◌<◌, length, vec_len, None, true, false, OnOk, OnErr, IfOk, IsSome, IfSome, option_map};
ghost use Rattle.std.specs.List.{sum_by};
ghost use Rattle.std.specs.Ordering.{nat_cmp};
ghost use Rattle.std.specs.BTreeMap.{get, values};

use crate::numbers::END;
use std::alloc::{AllocError, Global};
use std::collections::BTreeMap;

/// What is held in a direction at most, in bytes.
const MOST: usize = 1 << 20;

/// What each packet counts beside its payload, in bytes.
const EACH: usize = 64;

/// What a packet of the type ST_DATA or ST_FIN carries.
#[derive(Clone, Copy)]
pub struct Payload<'a> {
    /// Whether it is an ST_FIN.
    pub is_fin: bool,
    /// The payload, as far as it was captured.
    pub bytes: &'a [u8],
    /// The payload's size on the wire.
    pub size: usize,
}

/// The same, with its own memory.
#[derive(Drop)]
pub struct Part {
    /// Whether it is an ST_FIN.
    pub is_fin: bool,
    /// The payload, as far as it was captured.
    pub bytes: Vec<u8>,
    /// The payload's size on the wire.
    pub size: usize,
}

/// Packets, each at its index.
#[derive(Drop)]
pub struct Held {
    alloc: Global,
    parts: BTreeMap<u64, Part>,
    counted: usize,
    ghost counts: { counted ≡ sum_by (λ p. vec_len p.bytes + 64) (values parts) },
    ghost bound: { counted ≤ 1048576 },
    ghost below: { (i : ℕ) → 2 ^ 62 ≤ i → get nat_cmp parts i ≡ None },
}

impl Held {
    ghost use Rattle.bt_order.specs.Held.{held_at, count, packet_of, packet_with, Holds, HasNoRoom, SameHeld};

    /// Holds no packets.
    pub fn new(alloc: Global) -> Held
        ensures none { (i : ℕ) → held_at result i ≡ None }
        ensures counted { result.counted ≡ 0 }
    {
        Held {
            alloc,
            parts: BTreeMap::new(alloc),
            counted: 0,
        }
    }

    /// Returns how many bytes are held, where each packet counts 64 more.
    pub fn counted(&self) -> usize
        ensures is { result ≡ self.now.counted }
        ensures bound { result ≤ 1048576 }
    {
        self.counted
    }

    /// Tells whether no packet is held.
    pub fn is_empty(&self) -> bool
        ensures count { result ≡ (count self.now == 0) }
        ensures none { result ≡ true → (i : ℕ) → held_at self.now i ≡ None }
        ensures some { result ≡ false → (i : ℕ) × IsSome (held_at self.now i) }
    {
        self.parts.is_empty()
    }

    /// Holds a packet, if there is room for it. Tells whether there is. Of two packets with an index the earlier one stays.
    ///
    /// `room` is how many bytes more may be held.
    ///
    /// # Errors
    /// `AllocError` if out of memory. The same packets are held as before.
    pub fn hold(
        &mut self,
        index: u64,
        payload: &Payload<'_>,
        room: usize,
    ) -> Result<bool, AllocError>
        requires { index < 2 ^ 62 }
        ensures held { IfOk result (λ has_room. has_room ≡ true → Holds (packet_with index payload.now) (held_at self.old) (held_at self.new)) }
        ensures full { IfOk result (λ has_room. has_room ≡ false → HasNoRoom self.old.counted room (length payload.now.bytes.now)) }
        ensures same { IfOk result (λ has_room. has_room ≡ false → SameHeld self.old self.new) }
        ensures grown { OnOk result (self.new.counted ≤ self.old.counted + room) }
        ensures err { OnErr result (SameHeld self.old self.new) }
    {
        if self.parts.contains_key(&index) {
            return Ok(true);
        }
        let weight = payload.bytes.len() + EACH;
        if weight > room || self.counted + weight > MOST {
            return Ok(false);
        }
        let mut bytes = Vec::with_capacity(self.alloc, payload.bytes.len())?;
        bytes.extend_from_slice(payload.bytes)?;
        let part = Part {
            is_fin: payload.is_fin,
            bytes,
            size: payload.size,
        };
        self.parts.insert(index, part)?;
        self.counted += weight;
        Ok(true)
    }

    /// Lets all packets go.
    pub fn clear(&mut self)
        ensures none { (i : ℕ) → held_at self.new i ≡ None }
        ensures counted { self.new.counted ≡ 0 }
    {
        self.parts.clear();
        self.counted = 0;
    }

    /// Lets the packet at an index go, and returns it.
    pub fn remove(&mut self, index: u64) -> Option<Part>
        ensures is { option_map (packet_of index) result ≡ held_at self.old index }
        ensures near { IsSome result → index < 2 ^ 62 }
        ensures gone { held_at self.new index ≡ None }
        ensures rest { (i : ℕ) → (i ≡ index → ⊥) → held_at self.new i ≡ held_at self.old i }
        ensures count { IsSome result → count self.new + 1 ≡ count self.old }
        ensures counted { IfSome result (λ part. self.new.counted + (vec_len part.bytes + 64) ≡ self.old.counted) }
        ensures none { result ≡ None → SameHeld self.old self.new }
    {
        let part = self.parts.remove(&index)?;
        self.counted -= part.bytes.len() + EACH;
        Some(part)
    }
}
