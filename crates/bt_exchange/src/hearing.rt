//! Bytes that were read and not yet given to the end.
ghost use Rattle.std.specs.Prelude.{◌≡◌, ◌≤◌, true, [], length, drop, take, None, Ok, IfOk, IfSome};
ghost use Rattle.std.specs.Io.KnownBytes.{IsAtEnd};
ghost use Rattle.bt_exchange.specs.Connections.{read_counts};
ghost use Rattle.bt_exchange.specs.Courses.{Fills};

use crate::connection::Connection;
use bt_io::{Failed, Memory};
use std::alloc::{Allocator, Global};
use std::marker::Model;

/// How many bytes are read at once, at most.
const SIZE: usize = 65_536;

/// Bytes that were read and not yet given to the end.
#[derive(Drop)]
pub struct Hearing<A: Allocator = Global> {
    buffer: Vec<u8, A>,
    at: usize,
    filled: usize,
    /// How many bytes waited to be sent after the last item, if it was a block; else 0.
    requests: usize,
}

impl<A: Allocator> Model for Hearing<A> {
    ghost use Rattle.std.specs.Prelude.{ℕ, List, ◌≤◌, ◌<◌, drop, take, vec_len};

    ghost Value = { List ℕ };

    ghost view = { λ a. drop a.at (take a.filled a.buffer.items) };

    ghost invariant = { λ a. (a.at ≤ a.filled) × (a.filled ≤ vec_len a.buffer) × (0 < vec_len a.buffer) };
}

impl<A: Allocator> Hearing<A> {
    /// Makes the buffer; no bytes were read.
    ///
    /// # Errors
    /// `Memory` if the buffer is refused.
    pub fn new(alloc: A) -> Result<Hearing<A>, Memory>
        ensures { IfOk result (λ h. h ≡ []) }
    {
        let mut buffer = Vec::new(alloc);
        let Ok(()) = buffer.resize(SIZE, 0) else {
            return Err(Memory);
        };
        Ok(Hearing {
            buffer,
            at: 0,
            filled: 0,
            requests: 0,
        })
    }

    /// Returns the bytes that were read and not yet passed on.
    pub fn bytes(&self) -> &[u8]
        ensures { result.now ≡ self.now }
    {
        &self.buffer[self.at..self.filled]
    }

    /// Drops the first n of them, which were given to the end.
    pub fn pass(&mut self, n: usize)
        requires { n ≤ length self.old }
        ensures { self.new ≡ drop n self.old }
    {
        self.at += n;
    }

    /// Drops the first n of them, which were given to the end, and keeps how many bytes of requests wait to be sent since.
    pub(crate) fn pass_item(&mut self, n: usize, requests: usize)
        requires { n ≤ length self.old }
        ensures { self.new ≡ drop n self.old }
    {
        self.requests = requests;
        self.pass(n);
    }

    /// Returns whether what waits to be sent, so many bytes, is to wait until these were given to the end.
    ///
    /// The requests after a block do, so that those after all blocks that were read together go out in one write.
    pub(crate) fn holds_back(&self, waiting: usize) -> bool {
        waiting == self.requests && self.at < self.filled
    }

    /// Drops all of them.
    pub fn clear(&mut self)
        ensures { self.new ≡ [] }
    {
        self.at = 0;
        self.filled = 0;
    }

    /// Reads once. What was there before is gone.
    ///
    /// It returns how many bytes came, 0 at the peer's end; `None` if nothing came yet.
    ///
    /// # Errors
    /// `Failed` if the read failed. No bytes are there then.
    pub fn fill<C: Connection>(&mut self, connection: &mut C) -> Result<Option<usize>, Failed>
        ensures bytes { Fills (C.seen connection.old) (C.seen connection.new) result self.new }
        ensures count { IfOk result (λ o. IfSome o (λ n. length self.new ≡ n)) }
        ensures counts { (C.seen connection.new).counts ≡ read_counts result 1 (C.seen connection.old).counts }
        ensures none { C.prompt ≡ true → result ≡ Ok None → IsAtEnd (C.seen connection.old).coming }
    {
        self.at = 0;
        self.filled = 0;
        let got = connection.read(self.buffer.as_mut_slice());
        if let Ok(Some(n)) = got {
            self.filled = n;
        }
        got
    }
}
