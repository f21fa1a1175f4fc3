//! Bytes that are put together.

use crate::draw::Draw;
use crate::stopped::Stopped;
use std::alloc::Global;

/// Bytes that are put together. If memory runs out, bytes are lost, and the draft isn't whole.
#[derive(Drop)]
pub struct Draft {
    alloc: Global,
    bytes: Vec<u8>,
    is_cut: bool,
}

impl Draft {
    /// Makes a draft without a byte.
    pub fn new(alloc: Global) -> Draft {
        Draft {
            alloc,
            bytes: Vec::new(alloc),
            is_cut: false,
        }
    }

    /// Returns the bytes.
    pub fn bytes(&self) -> &[u8] {
        self.bytes.as_slice()
    }

    /// Returns the bytes, if none were lost.
    ///
    /// # Errors
    /// `Memory` if memory ran out.
    pub fn whole(&self) -> Result<&[u8], Stopped> {
        if self.is_cut {
            return Err(Stopped::Memory);
        }
        Ok(self.bytes.as_slice())
    }

    /// Appends bytes.
    pub fn put(&mut self, more: &[u8]) {
        if self.bytes.extend_from_slice(more).is_err() {
            self.is_cut = true;
        }
    }

    /// Appends another draft.
    pub fn put_draft(&mut self, more: &Draft) {
        self.put(more.bytes());
        if more.is_cut {
            self.is_cut = true;
        }
    }

    /// Appends drawn bytes.
    pub fn put_drawn(&mut self, count: u32, draw: &mut Draw) {
        for _byte in 0..count {
            let [first, ..] = draw.next().to_be_bytes();
            if self.bytes.push(first).is_err() {
                self.is_cut = true;
            }
        }
    }

    /// Appends a number as four bytes.
    pub fn put_number(&mut self, n: u32) {
        self.put(&n.to_be_bytes());
    }

    /// Appends a number as decimal digits.
    pub fn put_decimal(&mut self, n: u32) {
        let mut buffer = itoa::Buffer::new();
        self.put(buffer.format(n).as_bytes());
    }

    /// Appends a bencoded integer (BEP 3).
    pub fn put_integer(&mut self, n: u32) {
        self.put(b"i");
        self.put_decimal(n);
        self.put(b"e");
    }

    /// Appends a number as eight hexadecimal digits.
    pub fn put_hex(&mut self, n: u32) {
        match hex::encode(self.alloc, n.to_be_bytes()) {
            Ok(text) => self.put(text.as_bytes()),
            Err(_) => self.is_cut = true,
        }
    }

    /// Appends texts, and after each a number as decimal digits, as long as there are numbers.
    pub fn put_form(&mut self, texts: &[&[u8]], numbers: &[u32]) {
        for (k, text) in texts.iter().enumerate() {
            self.put(text);
            if let Some(n) = numbers.get(k) {
                self.put_decimal(*n);
            }
        }
    }
}
