//! What the search sends and receives by.
ghost use Rattle.std.specs.Prelude.{◌≡◌, ◌≤◌, IfSome, length};
ghost use Rattle.bt_seek.specs.Mails.{Asked, Clock, Sent, Stopped, added, length_of, received};

use crate::question::Question;
use std::net::SocketAddr;

/// What has come. Its bytes are the first `length` of the buffer that [`Post::receive`] was given.
#[derive(Clone, Copy, PartialEq, Eq)]
pub enum Came {
    /// A datagram, and who sent it.
    Datagram { from: SocketAddr, length: usize },
    /// The whole answer of a page, head and body.
    Page { page: usize, length: usize },
    /// A page can't be asked, or its answer broke off or is too long.
    Failed { page: usize },
}

/// Sends and receives, and has the clock and random bytes. No call waits.
pub trait Post {
    ghost use Rattle.std.specs.Prelude.{List, Option};
    ghost use Rattle.bt_seek.specs.Mails.{Mail};

    /// The mail so far, in order, if it is known.
    ghost log: { Self → Option (List Mail) };

    /// Sends a datagram, which asks `question`. One that can't be sent is lost, as by the network.
    fn send(&mut self, to: SocketAddr, question: Question, datagram: &[u8])
        ensures { log self.new ≡ added (log self.old) (Sent to question datagram.now) };

    /// Asks a page, which is a tracker over HTTP. The post knows the host and the port of this number.
    fn ask(&mut self, page: usize, question: &[u8])
        ensures { log self.new ≡ added (log self.old) (Asked page question.now) };

    /// Tells a page that was asked that this peer has stopped. Its answer isn't awaited, and never comes.
    fn stop(&mut self, page: usize, question: &[u8])
        ensures { log self.new ≡ added (log self.old) (Stopped page question.now) };

    /// Returns what has come next, and puts its bytes at the buffer's front; `None` if nothing is there.
    ///
    /// Of a datagram that is longer than the buffer the rest is lost. A page whose answer is longer has failed.
    fn receive(&mut self, buffer: &mut [u8]) -> Option<Came>
        ensures log { log self.new ≡ received (log self.old) result buffer.new }
        ensures within { IfSome result (λ it. length_of it ≤ length buffer.old) };

    /// Draws four random bytes.
    fn draw(&mut self) -> [u8; 4]
        ensures { log self.new ≡ log self.old };

    /// Returns the time in milliseconds, by the post's own clock. Only differences count.
    fn time(&mut self) -> u64
        ensures { log self.new ≡ added (log self.old) (Clock result) };
}
