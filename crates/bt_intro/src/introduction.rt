//! What one side of a connection announces about itself.
ghost use Rattle.std.specs.Prelude.{◌≡◌, ◌++◌, ◌≤◌, ◌↔◌, ℕ, List, [], IsTrue, IfOk, OnOk, OnErr};
ghost use Rattle.bt_jobs.specs.Others.{first_of, own_of_other};
ghost use Rattle.bt_wire.specs.Streams.{Outcome};

use crate::hello::find_hello;
use crate::voice::Voice;
use bt_jobs::Announced;
use bt_wire::Handshake;
use std::alloc::{AllocError, Global};
use std::mem::size_of;

/// How many bytes before those that are new may begin a handshake's first 20.
const OVERLAP: usize = 19;

/// How many bytes without a handshake make a stranger: a key exchange, and a handshake's first 20.
const STRANGER: usize = 2_068;

/// What one side of a connection announces about itself as a receiver.
#[derive(Drop)]
pub struct Introduction {
    heard: usize,
    /// It has memory of its own: a side that says nothing needs none of it.
    voice: Option<Box<Voice>>,
}

impl Introduction {
    ghost use Rattle.bt_intro.specs.Hellos.{IsStartOf, IsOfStranger};
    ghost use Rattle.bt_intro.specs.Listening.{handshake_of, last_client};
    ghost use Rattle.bt_intro.specs.Hearing.{IsHeardOf, IsSaid, HasSaidAll, HasNoMemory};

    /// Makes the introduction of a side of which no byte has come.
    pub fn new() -> Introduction
        ensures { IsHeardOf [] result }
    {
        Introduction {
            heard: 0,
            voice: None,
        }
    }

    /// Hears what is new in the front of the side's bytes.
    ///
    /// `front` is all that the side sent so far, in order: it begins with what was heard before, which isn't looked at again, except
    /// for 19 bytes while its handshake is searched. When that starts, 1,048,580 bytes are reserved.
    ///
    /// # Errors
    /// `AllocError` when out of memory; nothing new is heard then.
    pub fn hear(&mut self, alloc: Global, front: &[u8]) -> Result<(), AllocError>
        ensures ok { (old more : List ℕ) → IsHeardOf old self.old → front.now ≡ old ++ more → OnOk result (IsHeardOf front.now self.new) }
        ensures err { (old : List ℕ) → IsHeardOf old self.old → OnErr result (IsHeardOf old self.new) }
    {
        let Some(new) = front.get(self.heard..) else {
            return Ok(());
        };
        if let Some(voice) = &mut self.voice {
            voice.hear(alloc, front, new)?;
        } else if let Some(start) = find_hello(front, self.heard.saturating_sub(OVERLAP)) {
            let voice = Voice::of(alloc, start, &front[start..])?;
            self.voice = Some(Box::new(alloc, voice)?);
        }
        self.heard = front.len();
        Ok(())
    }

    /// Gives the reader's memory back, once nothing more of the side's bytes is to be heard. What it announced stays.
    ///
    /// `hear` may still be called: then it reads all of the side's bytes again.
    pub fn settle(&mut self)
        ensures same { (front : List ℕ) → IsHeardOf front self.old → IsHeardOf front self.new }
        ensures free { HasNoMemory self.new }
    {
        if let Some(voice) = &mut self.voice {
            voice.settle();
        }
    }

    /// Returns the place in the side's bytes at which its handshake starts.
    ///
    /// At most 2,048 bytes come before it: the key exchange of message stream encryption.
    pub fn start(&self) -> Option<usize>
        ensures { (front : List ℕ) → IsHeardOf front self.now → IsStartOf front result }
    {
        match &self.voice {
            Some(voice) => Some(voice.start),
            None => None,
        }
    }

    /// Returns the side's handshake, once all of it is there.
    pub fn handshake(&self) -> Option<Handshake>
        ensures { (front : List ℕ) → IsHeardOf front self.now → (v : Outcome) × IsSaid front v × (result ≡ first_of handshake_of v.items) }
    {
        match &self.voice {
            Some(voice) => voice.listener.handshake,
            None => None,
        }
    }

    /// Returns what the side announces about itself as a receiver, as `--other` takes it.
    ///
    /// There is none without a whole handshake.
    pub fn announced(&self) -> Option<Announced>
        ensures { (front : List ℕ) → IsHeardOf front self.now → (v : Outcome) × IsSaid front v × (result ≡ own_of_other v.items) }
    {
        match &self.voice {
            Some(voice) => voice.listener.announced(),
            None => None,
        }
    }

    /// Returns the first 240 bytes of the client's name (BEP 10, `v`).
    ///
    /// It is that of the last extended handshake that has one that isn't empty.
    pub fn client(&self) -> &[u8]
        ensures { (front : List ℕ) → IsHeardOf front self.now → (v : Outcome) × IsSaid front v × (result.now ≡ last_client v.items) }
    {
        match &self.voice {
            Some(voice) => voice.listener.client.bytes(),
            None => &[],
        }
    }

    /// Returns whether nothing more is awaited of the side.
    ///
    /// That is so after an extended handshake, after a refusal, and after 1,000 messages.
    pub fn has_said_all(&self) -> bool
        ensures { (front : List ℕ) → IsHeardOf front self.now → (v : Outcome) × IsSaid front v × (IsTrue result ↔ HasSaidAll v) }
    {
        match &self.voice {
            Some(voice) => voice.has_said_all(),
            None => false,
        }
    }

    /// Returns how many bytes of memory it takes besides its own fields and the reader's buffer.
    pub fn size(&self) -> usize {
        match &self.voice {
            Some(_) => size_of::<Voice>(),
            None => 0,
        }
    }

    /// Returns whether the side sent 2,068 bytes without a handshake.
    pub fn is_stranger(&self) -> bool
        ensures { (front : List ℕ) → IsHeardOf front self.now → IsTrue result ↔ IsOfStranger front }
    {
        self.voice.is_none() && self.heard >= STRANGER
    }
}
