//! A search that goes by lines.
use crate::lines::{Lines, Mail};
use bt_seek::{Ids, Seek, Turn};
use std::alloc::{AllocError, Global};
use std::net::SocketAddr;

/// A search, and its post.
#[derive(Drop)]
pub struct Play {
    alloc: Global,
    seek: Seek,
    post: Lines,
}

/// Who asks, and for what.
const IDS: Ids = Ids {
    info_hash: *b"mnopqrstuvwxyz123456",
    peer_id: *b"-TZ0001-abcdefghijkl",
    node_id: *b"abcdefghij0123456789",
    key: *b"keys",
};

/// Returns the two words of a text; the second is empty if there is one only.
fn two_words(text: &str) -> (&str, &str) {
    match text.split_once(' ') {
        Some(words) => words,
        None => (text, ""),
    }
}

/// Returns the bytes of hexadecimal digits; none if they are wrong.
fn bytes_of(alloc: Global, digits: &str) -> Vec<u8> {
    match hex::decode(alloc, digits) {
        Ok(bytes) => bytes,
        Err(_) => Vec::new(alloc),
    }
}

/// Returns a number; 0 if it is wrong.
fn number(text: &str) -> u64 {
    match text.parse::<u64>() {
        Ok(number) => number,
        Err(_) => 0,
    }
}

/// Returns the number of a page.
fn page_of(text: &str) -> usize {
    match text.parse::<usize>() {
        Ok(page) => page,
        Err(_) => 0,
    }
}

impl Play {
    /// Returns a search that has asked nobody yet.
    ///
    /// # Errors
    /// `AllocError` when out of memory.
    pub fn new(alloc: Global) -> Result<Play, AllocError> {
        Ok(Play {
            alloc,
            seek: Seek::new(alloc, IDS, false)?,
            post: Lines::new(alloc),
        })
    }

    /// Returns what the last line made the search do.
    pub fn said(&self) -> &str {
        self.post.text.as_str()
    }

    /// Forgets what was said.
    pub fn clear(&mut self) {
        self.post.text = String::new(self.alloc);
    }

    /// Adds whom the search asks.
    fn add(&mut self, word: &str, rest: &str) -> Result<(), AllocError> {
        let Ok(address) = rest.parse::<SocketAddr>() else {
            return Ok(());
        };
        if word == "tracker" {
            self.seek.add_tracker(address)
        } else {
            self.seek.add_node(address)
        }
    }

    /// Adds a datagram that the next turn takes.
    fn add_datagram(&mut self, rest: &str) -> Result<(), AllocError> {
        let (from, digits) = two_words(rest);
        if let Ok(from) = from.parse::<SocketAddr>() {
            let bytes = bytes_of(self.alloc, digits);
            self.post.mail.push(Mail::Datagram(from, bytes))?;
        }
        Ok(())
    }

    /// Adds the answer of a page.
    fn add_answer(&mut self, rest: &str) -> Result<(), AllocError> {
        let (page, digits) = two_words(rest);
        let bytes = bytes_of(self.alloc, digits);
        self.post.mail.push(Mail::Page(page_of(page), bytes))?;
        Ok(())
    }

    /// Gives the search a turn.
    fn turn(&mut self, rest: &str) -> Result<(), AllocError> {
        self.post.time = number(rest);
        let word = match self.seek.turn(&mut self.post)? {
            Turn::Going => "going\n",
            Turn::Over => "over\n",
        };
        self.post.text.push_str(word)
    }

    /// Ends the search.
    fn end(&mut self) -> Result<(), AllocError> {
        self.seek.goodbye(&mut self.post)?;
        for peer in self.seek.peers() {
            let line = format!(in self.alloc; "peer {peer}\n")?;
            self.post.text.push_str(line.as_str())?;
        }
        Ok(())
    }

    /// Begins a search.
    fn begin(&mut self, is_local: bool) -> Result<(), AllocError> {
        self.seek = Seek::new(self.alloc, IDS, is_local)?;
        self.post = Lines::new(self.alloc);
        Ok(())
    }

    /// Takes a line.
    ///
    /// # Errors
    /// `AllocError` when out of memory.
    pub fn take(&mut self, line: &str) -> Result<(), AllocError> {
        let (word, rest) = two_words(line);
        match word {
            "begin" => self.begin(rest == "local"),
            "page" => {
                let _number = self.seek.add_page("tracker.test", 8080, b"/announce")?;
                Ok(())
            }
            "datagram" => self.add_datagram(rest),
            "answer" => self.add_answer(rest),
            "failed" => {
                self.post.mail.push(Mail::Failed(page_of(rest)))?;
                Ok(())
            }
            "turn" => self.turn(rest),
            "end" => self.end(),
            _ => self.add(word, rest),
        }
    }
}
