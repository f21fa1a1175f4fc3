//! Sets of pieces.
ghost use Rattle.std.specs.Prelude.{◌≡◌, ◌≤◌, ℕ, false, OnOk, OnErr, vec_len};
ghost use Rattle.bt_remarks.specs.Sets.{has_bit, is_noted, with_piece, with_field};

use std::alloc::{AllocError, Global};

/// Pieces from here on aren't noted.
const LIMIT: u32 = 0x80_0000;

/// Tells whether a piece is noted.
pub fn is_noted(piece: u32) -> bool
    ensures { result ≡ is_noted piece }
{
    piece < LIMIT
}

/// A set of pieces, as a bitfield.
#[derive(Debug, Drop)]
pub struct PieceSet {
    field: Vec<u8>,
}

impl PieceSet {
    /// Returns the empty set.
    pub fn new(alloc: Global) -> PieceSet
        ensures { (piece : ℕ) → has_bit result.field.items piece ≡ false }
    {
        PieceSet {
            field: Vec::new(alloc),
        }
    }

    /// Tells whether the set has a piece.
    pub fn contains(&self, piece: u32) -> bool
        ensures { result ≡ has_bit self.now.field.items piece }
    {
        match self.field.get(piece as usize / 8) {
            Some(byte) => *byte >> (7 - piece % 8) & 1 == 1,
            None => false,
        }
    }

    /// Makes room for a number of bytes.
    fn grow(&mut self, len: usize) -> Result<(), AllocError>
        ensures same { (piece : ℕ) → has_bit self.new.field.items piece ≡ has_bit self.old.field.items piece }
        ensures room { OnOk result (len ≤ vec_len self.new.field) }
    {
        if len > self.field.len() {
            self.field.resize(len, 0)?;
        }
        Ok(())
    }

    /// Notes a piece.
    ///
    /// # Errors
    /// `AllocError` if memory runs out. The set is as before.
    pub fn insert(&mut self, piece: u32) -> Result<(), AllocError>
        ensures ok { OnOk result ((k : ℕ) → has_bit self.new.field.items k ≡ with_piece piece k (has_bit self.old.field.items k)) }
        ensures err { OnErr result ((k : ℕ) → has_bit self.new.field.items k ≡ has_bit self.old.field.items k) }
    {
        if piece >= LIMIT {
            return Ok(());
        }
        let at = piece as usize / 8;
        self.grow(at + 1)?;
        self.field[at] |= 1 << (7 - piece % 8);
        Ok(())
    }

    /// Notes the pieces of a bitfield.
    ///
    /// # Errors
    /// `AllocError` if memory runs out. The set is as before.
    pub fn insert_all(&mut self, field: &[u8]) -> Result<(), AllocError>
        ensures ok { OnOk result ((k : ℕ) → has_bit self.new.field.items k ≡ with_field field.now k (has_bit self.old.field.items k)) }
        ensures err { OnErr result ((k : ℕ) → has_bit self.new.field.items k ≡ has_bit self.old.field.items k) }
    {
        let len = field.len().min(LIMIT as usize / 8);
        self.grow(len)?;
        for (i, byte) in field[..len].iter().enumerate() {
            self.field[i] |= *byte;
        }
        Ok(())
    }

    /// Returns how many bytes of memory it takes.
    pub fn size(&self) -> usize
        ensures { vec_len self.now.field ≤ result }
    {
        self.field.capacity()
    }
}
