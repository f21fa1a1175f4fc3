//! Bytes that are put together.

use crate::moving::Stopped;
use std::alloc::Global;

/// Bytes that are put together. If memory runs out, bytes are lost, and the draft isn't whole.
#[derive(Drop)]
pub struct Draft {
    alloc: Global,
    bytes: Vec<u8>,
    is_cut: bool,
}

impl Draft {
    /// Makes a draft without a byte.
    pub fn new(alloc: Global) -> Draft {
        Draft {
            alloc,
            bytes: Vec::new(alloc),
            is_cut: false,
        }
    }

    /// Returns the bytes, if none were lost.
    ///
    /// # Errors
    /// `Memory` if memory ran out.
    pub fn whole(&self) -> Result<&[u8], Stopped> {
        if self.is_cut {
            return Err(Stopped::Memory);
        }
        Ok(self.bytes.as_slice())
    }

    /// Appends bytes.
    pub fn put(&mut self, more: &[u8]) {
        if self.bytes.extend_from_slice(more).is_err() {
            self.is_cut = true;
        }
    }

    /// Appends a number as decimal digits.
    pub fn put_decimal(&mut self, n: u32) {
        let mut buffer = itoa::Buffer::new();
        self.put(buffer.format(n).as_bytes());
    }

    /// Appends a number as eight hexadecimal digits.
    pub fn put_hex(&mut self, n: u32) {
        match hex::encode(self.alloc, n.to_be_bytes()) {
            Ok(text) => self.put(text.as_bytes()),
            Err(_) => self.is_cut = true,
        }
    }

    /// Appends an extended message (BEP 10) of a dictionary and the bytes after it.
    pub fn put_extended(&mut self, id: u8, dict: &Draft, rest: &[u8]) {
        let length = dict
            .bytes
            .len()
            .saturating_add(rest.len())
            .saturating_add(2);
        let length = u32::try_from(length).unwrap_or(u32::MAX);
        self.put(&length.to_be_bytes());
        self.put(&[20, id]);
        self.put(dict.bytes.as_slice());
        self.put(rest);
        if dict.is_cut {
            self.is_cut = true;
        }
    }
}
