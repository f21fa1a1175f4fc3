//! What one side sends from its handshake on.
ghost use Rattle.std.specs.Prelude.{◌≡◌, ◌++◌, ℕ, List, [], IfOk};
ghost use Rattle.bt_ext.specs.Ids.{metadata_only};
ghost use Rattle.bt_jobs.specs.Others.{reader_of_other as reader_by_rule};
ghost use Rattle.bt_judge.specs.Readings.{IsJudged};
ghost use Rattle.bt_wire.specs.declared.item.Item.{Item};
ghost use Rattle.bt_intro.specs.Listening.{IsHeard};

use crate::listener::Listener;
use bt_ext::{Registered, Rules};
use bt_judge::Reading;
use bt_wire::{Own, Reserved};
use std::alloc::{AllocError, Global};

/// How many items are awaited: the handshake and 1,000 messages.
const AWAITED: u64 = 1_001;

/// What reads a side's bytes.
#[derive(Drop)]
pub(crate) enum Reader {
    Open(Reading),
    /// Its memory is given back; it had refused the bytes, or it hadn't.
    Settled(bool),
}

/// What one side sends from its handshake on, and what it says of that side.
#[derive(Drop)]
pub(crate) struct Voice {
    pub(crate) start: usize,
    pub(crate) reader: Reader,
    pub(crate) listener: Listener,
}

/// Returns the receiver by which a side is heard: that of `--other`.
fn reader_of_other() -> Own
    ensures { result ≡ reader_by_rule }
{
    Own {
        reserved: Reserved(0x10_0005),
        info_hash: None,
        pieces: None,
        reg: Registered::metadata_only(None),
        rules: Rules::Free,
        limit: 1_048_576,
    }
}

/// Reads the bytes that follow.
fn listen(reading: &mut Reading, listener: &mut Listener, bytes: &[u8])
    ensures { (b : List ℕ) (items : List (ℕ × Item)) → IsJudged reader_by_rule b items reading.old → IsHeard items listener.old
        → (more : List (ℕ × Item)) × IsJudged reader_by_rule (b ++ bytes.now) (items ++ more) reading.new × IsHeard (items ++ more) listener.new }
{
    match reading.take(bytes, listener) {
        Ok(()) => {}
        Err(_) => unreachable!(),
    }
}

impl Voice {
    ghost use Rattle.std.specs.Prelude.{◌↔◌, IsTrue, IsSome, drop, OnOk, OnErr};
    ghost use Rattle.bt_wire.specs.Streams.{Outcome, IsVerdict};
    ghost use Rattle.bt_intro.specs.Hearing.{IsVoiceOf, HasSaidAll, HasNoReader};

    /// Hears a side's bytes from its handshake on, which starts at this place.
    ///
    /// # Errors
    /// `AllocError` when out of memory.
    pub(crate) fn of(alloc: Global, start: usize, bytes: &[u8]) -> Result<Voice, AllocError>
        ensures { IfOk result (λ voice. IsVoiceOf bytes.now voice × (voice.start ≡ start)) }
    {
        let mut reading = Reading::new(alloc, reader_of_other())?;
        let mut listener = Listener::new();
        listen(&mut reading, &mut listener, bytes);
        Ok(Voice {
            start,
            reader: Reader::Open(reading),
            listener,
        })
    }

    /// Hears the bytes that follow. `front` ends with them, and has all bytes of the side, which are read again if it is settled.
    ///
    /// # Errors
    /// `AllocError` when out of memory. Nothing has changed then.
    pub(crate) fn hear(&mut self, alloc: Global, front: &[u8], new: &[u8]) -> Result<(), AllocError>
        ensures heard { OnOk result ((b : List ℕ) → IsVoiceOf b self.old → drop self.old.start front.now ≡ b ++ new.now → IsVoiceOf (b ++ new.now) self.new) }
        ensures start { OnOk result (self.new.start ≡ self.old.start) }
        ensures err { OnErr result (self.new ≡ self.old) }
    {
        match &mut self.reader {
            Reader::Open(reading) => {
                listen(reading, &mut self.listener, new);
                Ok(())
            }
            Reader::Settled(_) => {
                let Some(bytes) = front.get(self.start..) else {
                    return Ok(());
                };
                *self = Voice::of(alloc, self.start, bytes)?;
                Ok(())
            }
        }
    }

    /// Tells whether the bytes are refused.
    fn is_refused(&self) -> bool
        ensures { (b : List ℕ) → IsVoiceOf b self.now
            → (v : Outcome) × IsVerdict reader_by_rule b v × IsHeard v.items self.now.listener × (IsTrue result ↔ IsSome v.refusal) }
    {
        match &self.reader {
            Reader::Open(reading) => reading.refusal().is_some(),
            Reader::Settled(refused) => *refused,
        }
    }

    /// Gives the reader's memory back.
    pub(crate) fn settle(&mut self)
        ensures said { (b : List ℕ) → IsVoiceOf b self.old → IsVoiceOf b self.new }
        ensures start { self.new.start ≡ self.old.start }
        ensures settled { HasNoReader self.new }
    {
        self.reader = Reader::Settled(self.is_refused());
    }

    /// Returns whether nothing more is awaited: after an extended handshake, a refusal, or 1,000 messages.
    pub(crate) fn has_said_all(&self) -> bool
        ensures { (b : List ℕ) → IsVoiceOf b self.now → (v : Outcome) × IsVerdict reader_by_rule b v × (IsTrue result ↔ HasSaidAll v) }
    {
        if self.listener.extended {
            return true;
        }
        if self.is_refused() {
            return true;
        }
        self.listener.items >= AWAITED
    }
}
