//! A question over HTTP, and its answer up to the end of the stream.
ghost use Rattle.std.specs.Prelude.{◌≡◌, ◌≢◌, ◌<◌, ◌≤◌, ◌-◌, ◌++◌, Ok, IfOk, OnOk, drop, length, nat_le, take, vec_len};
ghost use Rattle.std.specs.Io.KnownBytes.{Appends};
ghost use Rattle.bt_post.specs.Exchanges.{IsRead};

use bt_exchange::Connection;
use bt_io::Failed;
use bt_tracker::MAX_HTTP_ANSWER;
use std::alloc::{AllocError, Global};

/// How many bytes are read at once, at most.
const CHUNK: usize = 4096;

/// What a look at an exchange finds.
#[derive(Clone, Copy, PartialEq, Eq, Debug)]
pub enum Look {
    /// Bytes were sent, or have come.
    Moved,
    /// More is to be sent or to come, and nothing can be moved now.
    Waits,
    /// The other end has closed the stream, and its answer isn't too long.
    Whole,
    /// The connection failed, the answer is too long, or there is no memory for it.
    Failed,
}

/// A question and its answer, over a connection whose calls don't wait.
#[derive(Drop)]
pub struct Exchange<L: Connection + Drop> {
    link: L,
    question: Vec<u8>,
    /// How many of its bytes were sent.
    sent: usize,
    answer: Vec<u8>,
}

/// Sends bytes from the front once, and returns how many; 0 if the connection would have to wait.
fn send_once<L: Connection>(link: &mut L, bytes: &[u8]) -> Result<usize, Failed>
    ensures within { IfOk result (λ n. n ≤ length bytes.now) }
    ensures sent { IfOk result (λ n. Appends (L.seen link.old).gone (L.seen link.new).gone (take n bytes.now)) }
    ensures coming { OnOk result ((L.seen link.new).coming ≡ (L.seen link.old).coming) }
{
    match link.write(bytes)? {
        None => Ok(0),
        Some(0) => Err(Failed),
        Some(count) => Ok(count),
    }
}

/// What a read of an answer finds.
#[derive(Clone, Copy, PartialEq, Eq, Debug)]
enum Heard {
    /// Nothing is there yet.
    Nothing,
    /// Bytes, which were added to the answer.
    Bytes,
    /// The end of the stream.
    End,
}

/// Adds bytes to an answer.
///
/// # Errors
/// `Failed` if it would be too long, or when out of memory.
fn add(answer: &mut Vec<u8>, bytes: &[u8]) -> Result<(), Failed>
    ensures added { OnOk result (answer.new.items ≡ answer.old.items ++ bytes.now) }
    ensures short { OnOk result (vec_len answer.new ≤ MAX_HTTP_ANSWER) }
{
    if answer.len() > MAX_HTTP_ANSWER || bytes.len() > MAX_HTTP_ANSWER - answer.len() {
        return Err(Failed);
    }
    match answer.extend_from_slice(bytes) {
        Ok(()) => Ok(()),
        Err(_) => Err(Failed),
    }
}

/// Reads once, and adds what came to the answer.
fn read_once<L: Connection>(link: &mut L, answer: &mut Vec<u8>) -> Result<Heard, Failed>
    ensures read { OnOk result (IsRead (L.seen link.old).coming (L.seen link.new).coming answer.old.items answer.new.items) }
    ensures gone { OnOk result ((L.seen link.new).gone ≡ (L.seen link.old).gone) }
{
    let mut chunk = [0; CHUNK];
    let Some(count) = link.read(&mut chunk)? else {
        return Ok(Heard::Nothing);
    };
    add(answer, &chunk[..count])?;
    if count == 0 {
        return Ok(Heard::End);
    }
    Ok(Heard::Bytes)
}

impl<L: Connection + Drop> Exchange<L> {
    /// Returns an exchange of which nothing was sent yet.
    ///
    /// # Errors
    /// `AllocError` when out of memory.
    pub fn new(alloc: Global, link: L, question: &[u8]) -> Result<Exchange<L>, AllocError>
        ensures question { IfOk result (λ it. it.question.items ≡ question.now) }
        ensures unsent { IfOk result (λ it. it.sent ≡ 0) }
    {
        let mut copy = Vec::new(alloc);
        copy.extend_from_slice(question)?;
        Ok(Exchange {
            link,
            question: copy,
            sent: 0,
            answer: Vec::new(alloc),
        })
    }

    /// Sends some of what is left of the question.
    fn send(&mut self) -> Result<Look, Failed>
        requires { self.old.sent < vec_len self.old.question }
        ensures sent { OnOk result (Appends (L.seen self.old.link).gone (L.seen self.new.link).gone
            (take (self.new.sent - self.old.sent) (drop self.old.sent self.old.question.items))) }
        ensures further { self.old.sent ≤ self.new.sent }
        ensures question { self.new.question ≡ self.old.question }
        ensures answer { self.new.answer ≡ self.old.answer }
        ensures unread { result ≢ Ok Look.Whole }
    {
        let count = send_once(&mut self.link, &self.question[self.sent..])?;
        self.sent += count;
        if count == 0 {
            return Ok(Look::Waits);
        }
        Ok(Look::Moved)
    }

    /// Reads some of the answer.
    fn hear(&mut self) -> Result<Look, Failed>
        ensures read { OnOk result (IsRead (L.seen self.old.link).coming (L.seen self.new.link).coming self.old.answer.items self.new.answer.items) }
        ensures gone { OnOk result ((L.seen self.new.link).gone ≡ (L.seen self.old.link).gone) }
    {
        match read_once(&mut self.link, &mut self.answer)? {
            Heard::Nothing => Ok(Look::Waits),
            Heard::Bytes => Ok(Look::Moved),
            Heard::End => Ok(Look::Whole),
        }
    }

    /// Sends what is left of the question, or, once all of it was sent, reads. It makes one call of the connection.
    pub fn look(&mut self) -> Look
        ensures { self.old.sent < vec_len self.old.question → result ≢ Look.Whole }
    {
        let look = if self.sent < self.question.len() {
            self.send()
        } else {
            self.hear()
        };
        match look {
            Ok(look) => look,
            Err(Failed) => Look::Failed,
        }
    }

    /// Returns whether all of the question was sent.
    pub fn is_sent(&self) -> bool
        ensures { result ≡ nat_le (vec_len self.now.question) self.now.sent }
    {
        self.sent >= self.question.len()
    }

    /// Returns what has come of the answer.
    pub fn answer(&self) -> &[u8]
        ensures { result.now ≡ self.now.answer.items }
    {
        &self.answer
    }
}
