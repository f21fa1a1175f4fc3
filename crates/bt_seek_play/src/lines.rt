//! A post whose mail comes from lines, and which writes what is sent as lines.
ghost use Rattle.std.specs.Prelude.{◌≤◌, IfSome, length};

use bt_seek::{Came, Post, Question};
use std::alloc::{AllocError, Global};
use std::net::SocketAddr;

/// Mail that waits.
#[derive(Drop)]
pub enum Mail {
    Datagram(SocketAddr, Vec<u8>),
    Page(usize, Vec<u8>),
    Failed(usize),
}

/// The post. Its clock is set by hand, and it draws 1, 2, 3 ..
#[derive(Drop)]
pub struct Lines {
    alloc: Global,
    pub mail: Vec<Mail>,
    /// How much of the mail was taken.
    taken: usize,
    drawn: u32,
    pub time: u64,
    /// What is to be printed.
    pub text: String,
}

/// Puts bytes at the buffer's front, and returns how many; `None` if there isn't room.
fn put(buffer: &mut [u8], bytes: &[u8]) -> Option<usize>
    ensures { IfSome result (λ count. count ≤ length buffer.old) }
{
    let room = buffer.get_mut(..bytes.len())?;
    room.copy_from_slice(bytes);
    Some(bytes.len())
}

impl Lines {
    /// Returns the post that has no mail.
    pub fn new(alloc: Global) -> Lines {
        Lines {
            alloc,
            mail: Vec::new(alloc),
            taken: 0,
            drawn: 0,
            time: 0,
            text: String::new(alloc),
        }
    }

    /// Adds a line of a datagram that is sent.
    fn say_sent(&mut self, to: SocketAddr, datagram: &[u8]) -> Result<(), AllocError> {
        let digits = hex::encode(self.alloc, datagram)?;
        let line = format!(in self.alloc; "sent {to} {digits}\n")?;
        self.text.push_str(line.as_str())
    }

    /// Adds a line of a question to a page.
    fn say_page(&mut self, word: &str, page: usize, question: &[u8]) -> Result<(), AllocError> {
        let digits = hex::encode(self.alloc, question)?;
        let line = format!(in self.alloc; "{word} {page} {digits}\n")?;
        self.text.push_str(line.as_str())
    }
}

impl Post for Lines {
    ghost use Rattle.std.specs.Prelude.{None};

    ghost log = { λ _. None };

    fn send(&mut self, to: SocketAddr, _question: Question, datagram: &[u8]) {
        let _ = self.say_sent(to, datagram);
    }

    fn ask(&mut self, page: usize, question: &[u8]) {
        let _ = self.say_page("asked", page, question);
    }

    fn stop(&mut self, page: usize, question: &[u8]) {
        let _ = self.say_page("stopped", page, question);
    }

    fn receive(&mut self, buffer: &mut [u8]) -> Option<Came> {
        let mail = self.mail.get(self.taken)?;
        self.taken = self.taken.saturating_add(1);
        match mail {
            Mail::Datagram(from, bytes) => {
                let from = *from;
                let length = put(buffer, bytes)?;
                Some(Came::Datagram { from, length })
            }
            Mail::Page(page, bytes) => {
                let page = *page;
                let length = put(buffer, bytes)?;
                Some(Came::Page { page, length })
            }
            Mail::Failed(page) => Some(Came::Failed { page: *page }),
        }
    }

    fn draw(&mut self) -> [u8; 4] {
        self.drawn = self.drawn.wrapping_add(1);
        self.drawn.to_be_bytes()
    }

    fn time(&mut self) -> u64 {
        self.time
    }
}
