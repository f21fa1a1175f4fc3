//! A search by trackers and the DHT, which finds the addresses of a fetch.
ghost use Rattle.std.specs.Prelude.{◌≡◌, ◌++◌, [], true, false, drop, take, vec_len};

use crate::finder::Finder;
use bt_seek::{Post, Seek, Summary, Turn};
use std::alloc::{AllocError, Global};
use std::net::SocketAddr;

/// A post that also looks names up: those of trackers and of nodes.
pub trait Names: Post {
    /// Looks up one more name and adds its addresses to the search, and returns whether one was left.
    ///
    /// It may wait for the system's resolver.
    ///
    /// # Errors
    /// `AllocError` when out of memory.
    fn look_up(&mut self, seek: &mut Seek) -> Result<bool, AllocError>
        ensures log { Self.log self.new ≡ Self.log self.old };

    /// Sends what is left of what trackers are told at the end of a search. It takes half a second at most.
    fn part(&mut self)
        ensures log { Self.log self.new ≡ Self.log self.old };
}

/// A search with the post that it goes by.
#[derive(Drop)]
pub struct Search<P: Names + Drop> {
    pub seek: Seek,
    pub post: P,
    found: Vec<SocketAddr>,
    has_ended: bool,
}

/// Adds the peers that are new, and returns whether there was memory for them.
fn keep(found: &mut Vec<SocketAddr>, peers: &[SocketAddr]) -> bool
    ensures grown { take (vec_len found.old) found.new.items ≡ found.old.items }
    ensures new { result ≡ true → found.new.items ≡ found.old.items ++ drop (vec_len found.old) peers.now }
{
    match peers.get(found.len()..) {
        Some(new) => found.extend_from_slice(new).is_ok(),
        None => true,
    }
}

impl<P: Names + Drop> Search<P> {
    /// Returns the search, of which nothing was taken yet.
    pub fn new(alloc: Global, seek: Seek, post: P) -> Search<P>
        ensures found { ⟦<Search<P> as Finder>⟧.found result ≡ [] }
        ensures goes_on { ⟦<Search<P> as Finder>⟧.has_ended result ≡ false }
    {
        Search {
            seek,
            post,
            found: Vec::new(alloc),
            has_ended: false,
        }
    }

    /// Gives the search its turn, and returns whether it goes on.
    ///
    /// A name is looked up if that is urgent, or if nobody else is left to ask.
    fn go_on(&mut self, is_urgent: bool) -> Result<bool, AllocError>
        ensures found { self.new.found ≡ self.old.found }
        ensures has_ended { self.new.has_ended ≡ self.old.has_ended }
    {
        let goes_on = self.seek.turn(&mut self.post)? == Turn::Going;
        if goes_on && !is_urgent {
            return Ok(true);
        }
        let was_left = self.post.look_up(&mut self.seek)?;
        Ok(goes_on || was_left)
    }

    /// Returns what the search has done.
    pub fn summary(&self) -> Summary {
        self.seek.summary()
    }
}

impl<P: Names + Drop> Finder for Search<P> {
    ghost found = { λ s. s.found.items };

    ghost has_ended = { λ s. s.has_ended };

    fn found(&self) -> &[SocketAddr] {
        self.found.as_slice()
    }

    fn turn(&mut self, is_urgent: bool) -> bool {
        let goes_on = self.go_on(is_urgent).unwrap_or(false);
        keep(&mut self.found, self.seek.peers()) && goes_on
    }

    fn end(&mut self) {
        self.has_ended = true;
        let _ = self.seek.goodbye(&mut self.post);
        self.post.part();
    }
}
